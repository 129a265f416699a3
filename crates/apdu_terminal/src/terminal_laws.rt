//! Laws of operations at a terminal of whole commands. Each function's contract is a law, for
//! proofs above.
ghost use Rattle.std.specs.Prelude.{◌≡◌, ◌++◌, ◌∷◌, [], List, Option, Some};
ghost use Rattle.std.specs.List.{AllByRecursion};
ghost use Rattle.apdu_core.specs.CommandBytes.{Command, IsCommand};
ghost use Rattle.t0_core.specs.Character.{Character};
ghost use Rattle.card_terminal.specs.TerminalSide.{OperationOf};
ghost use Rattle.card_terminal.specs.TerminalSide as tpdus;
ghost use Rattle.card_terminal.specs.declared.unsent.Unsent.{Unsent};
ghost use Rattle.card_terminal.specs.Unsent.{IsUnsent};
ghost use Rattle.apdu_core.specs.Shared.{Reply};
ghost use Rattle.apdu_terminal.specs.declared.stage.Stage.TheVariants.{Done};
ghost use Rattle.apdu_terminal.specs.Apdus.{Pair};
ghost use Rattle.apdu_terminal.specs.ApduTalk.{AreApdusOf, talk_pairs};
ghost use Rattle.apdu_terminal.specs.ApduSide.{due_of};
ghost use Rattle.apdu_terminal.specs.ApduOperations.{ApduOperationOf, Begins, HaveRoom, LeadsTo};

/// The pairs settle the next command. Take whole exchanges of the operation's commands, up to the
/// first status other than `9000`. They begin with the pairs so far and are longer, and the data of
/// each fit the room. The terminal's next command is theirs.
pub fn the_next_command_of_an_operation_is_settled()
    ensures { (commands : List Command) (came rest : List Pair) (p : Pair) (o : ApduOperationOf)
        (exchanges : List (List Pair)) (answer : Reply) → LeadsTo commands came (Some o) →
        AreApdusOf commands exchanges answer → HaveRoom o.exchange.gather.limit exchanges →
        talk_pairs exchanges ≡ came ++ p ∷ rest → due_of o.exchange ≡ Some p.command }
{}

/// Take whole exchanges of an operation's commands, up to the first status other than `9000`. If
/// these are its pairs, it has ended, with their answer. There must be room for the data of each.
pub fn a_whole_operation_by_commands_is_done()
    ensures { (commands : List Command) (came : List Pair) (o : ApduOperationOf)
        (exchanges : List (List Pair)) (answer : Reply) → LeadsTo commands came (Some o) →
        AreApdusOf commands exchanges answer → HaveRoom o.exchange.gather.limit exchanges →
        came ≡ talk_pairs exchanges → (o.exchange.stage ≡ Done answer.status)
        × (o.exchange.gather.bytes ≡ answer.content) }
{}

/// Take an operation at a terminal of TPDUs that has sent nothing yet, and its commands (`Unsent`).
/// If an operation at a terminal of whole commands begins with them, its commands are the same, and
/// no pair has passed yet. Each command must have a valid INS, at most 255 bytes of data, and no Le
/// or one of 1 to 256.
pub fn an_unsent_operation_begins_by_commands()
    ensures { (t : Option OperationOf) (unsent : Unsent) (o : ApduOperationOf)
        (commands : List Command) (came : List Character) → IsUnsent t (Some unsent) →
        Begins unsent o → AllByRecursion IsCommand commands → tpdus.LeadsTo commands came t →
        LeadsTo commands [] (Some o) }
{}
