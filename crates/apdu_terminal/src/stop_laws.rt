//! Laws of operations by whole commands that stop before their end. Each function's contract is a
//! law, for proofs above.
ghost use Rattle.std.specs.Prelude.{◌≡◌, ◌++◌, ◌∷◌, [], List, ℕ, Option, Result, Some, true, IsOk};
ghost use Rattle.apdu_core.specs.CommandBytes.{Command};
ghost use Rattle.apdu_core.specs.StatusWord.{StatusWord};
ghost use Rattle.t0_core.specs.declared.answer_fault.AnswerFault.{AnswerFault};
ghost use Rattle.object_card.specs.Agreed.{IsAgreed};
ghost use Rattle.object_card.specs.CardMeaning.{Does};
ghost use Rattle.object_card.specs.DataCard.{StandsFor};
ghost use Rattle.object_card.specs.Instructions.{MayReceive, MaySend};
ghost use Rattle.object_card.specs.OneStep.{Operation};
ghost use Rattle.object_card.specs.State.{CardState, IsCardState, is_idle};
ghost use Rattle.exchange_core.specs.ExchangeSide.{response_limit};
ghost use Rattle.apdu_terminal.specs.Apdus.{Pair};
ghost use Rattle.apdu_terminal.specs.ApduOperations.{ApduOperationOf, HasRoomFor, IsTakingResponse, LeadsTo};
ghost use Rattle.apdu_terminal.specs.ApduSide.{answered_by, due_of};
ghost use Rattle.apdu_terminal.specs.ApduStops.{IsLeftAfter, IsLeftBefore, IsUnderWay};
ghost use Rattle.apdu_terminal.specs.CardApdu.{Responds, RespondsToAll};
ghost use Rattle.apdu_terminal.specs.declared.stage.Stage.TheVariants.{Failed};

use object_card::DataCard;

/// How far an operation with a card of data objects is carried out if it stops. No chain is pending
/// before its first command.
///
/// - Before a GET RESPONSE the operation is carried out. Before every other of its commands nothing
///   has changed.
/// - After a command with CLA `10`, a piece of a put that is not the last, nothing has changed.
///   After every other of its commands the operation is carried out.
///
/// This is about the card's applications and its selection. Carried out means: they are as after
/// the operation in one step, with some answer, which may be a refusal.
pub fn an_operation_that_stops()
    ensures before { (old new : CardState) (operation : Operation) (pairs : List Pair)
        (due : Command) → is_idle old.pending ≡ true → IsUnderWay operation pairs due →
        RespondsToAll Does old pairs new → IsLeftBefore old operation due.header new }
    ensures after { (old new : CardState) (operation : Operation) (pairs : List Pair) (p : Pair) →
        is_idle old.pending ≡ true → IsUnderWay operation pairs p.command →
        RespondsToAll Does old (pairs ++ p ∷ []) new →
        IsLeftAfter old operation p.command.header new }
{}

/// Each command of an operation is agreed with every card of data objects.
pub fn a_due_command_is_agreed()
    ensures { (operation : Operation) (pairs : List Pair) (due : Command) →
        IsUnderWay operation pairs due → IsAgreed MayReceive MaySend due }
{}

/// No operation with a sound card of data objects fails: the terminal takes each response of the
/// card. Its limit is the largest, `RESPONSE_LIMIT`. The card stays sound.
pub fn a_card_of_data_objects_is_taken()
    ensures taken { (old mid new : CardState) (commands : List Command) (pairs : List Pair)
        (o : ApduOperationOf) (due : Command) (content : List ℕ) (status : StatusWord)
        (result : Result (Unit {0}) AnswerFault) (then_at : Option ApduOperationOf) →
        IsCardState old → LeadsTo commands pairs (Some o) → due_of o.exchange ≡ Some due →
        RespondsToAll Does old pairs mid →
        Responds Does mid (answered_by o.exchange content status) new →
        IsTakingResponse (Some o) content status result then_at →
        HasRoomFor response_limit then_at → IsOk result }
    ensures fine { (old new : CardState) (commands : List Command) (pairs : List Pair)
        (o : ApduOperationOf) → IsCardState old → LeadsTo commands pairs (Some o) →
        o.exchange.gather.limit ≡ response_limit → RespondsToAll Does old pairs new →
        o.exchange.stage ≡ Failed → ⊥ }
    ensures sound { (old new : CardState) (pairs : List Pair) → IsCardState old →
        RespondsToAll Does old pairs new → IsCardState new }
{}

/// What any card of data objects responds, the card state that its own state stands for responds
/// too.
pub fn any_card_responds_so<C: DataCard>()
    ensures { (state_of : C.State → CardState) → StandsFor C.Does C.after_reset state_of →
        (old new : C.State) (pairs : List Pair) → RespondsToAll C.Does old pairs new →
        RespondsToAll Does (state_of old) pairs (state_of new) }
{}
