//! Laws of exchanges by whole commands. Each function's contract is a law, for proofs above.
ghost use Rattle.std.specs.Prelude.{◌≡◌, ◌≤◌, ◌++◌, ◌∷◌, ℕ, List, length, Some, true, ◌+◌, ◌*◌, ◌⊎◌};
ghost use Rattle.apdu_terminal.specs.declared.apdu_fault.CarryFault.{CarryFault};
ghost use Rattle.apdu_core.specs.CommandBytes.{Command};
ghost use Rattle.apdu_core.specs.StatusWord.{StatusWord, ok};
ghost use Rattle.exchange_core.specs.declared.wanted.Wanted.{Wanted};
ghost use Rattle.apdu_terminal.specs.declared.stage.Stage.TheVariants.{Done, Failed};
ghost use Rattle.apdu_terminal.specs.Apdus.{Pair, Brings, StallsAt, IsTooLong, all_content};
ghost use Rattle.apdu_terminal.specs.ApduSide.{ApduExchangeOf, ComesTo, due_of};
ghost use Rattle.std.specs.List.{flat_map};
ghost use Rattle.apdu_terminal.specs.CardApdu.{HasFailed, Responds, RespondsToAll};
ghost use Rattle.apdu_terminal.specs.ApduTalk.{AreApduTalksOf, IsApduTalkOf, talk_pairs};
ghost use Rattle.object_card.specs.State.{CardState, is_idle};
ghost use Rattle.apdu_core.specs.Shared.{Reply};
ghost use Rattle.object_card.specs.OneStep.{Operation, Answers, AnswersAll, SameTables};
ghost use Rattle.object_card.specs.CardMeaning.{Does};
ghost use Rattle.object_card.specs.DataCard.{StandsFor};

use object_card::DataCard;
use object_card::laws::only_a_put_changes_entries;

/// The pairs so far settle the next command of an exchange. Take any whole exchange of the same
/// command, with as much wanted, that begins with these pairs and has more. If its data fit the
/// room, both have the same next command.
pub fn the_next_command_is_settled()
    ensures { (c : Command) (wanted : Wanted) (came rest : List Pair) (p : Pair)
        (ex : ApduExchangeOf) (gathered : List ℕ) (status : StatusWord) →
        ComesTo c wanted came ex → Brings c wanted (came ++ p ∷ rest) gathered status →
        length gathered ≤ ex.gather.limit → due_of ex ≡ Some p.command }
{}

/// An exchange whose pairs are whole has ended, with their status and data, if there is room for
/// the data.
pub fn a_whole_exchange_of_commands_is_done()
    ensures { (c : Command) (wanted : Wanted) (pairs : List Pair)
        (ex : ApduExchangeOf) (gathered : List ℕ) (status : StatusWord) →
        ComesTo c wanted pairs ex → Brings c wanted pairs gathered status →
        length gathered ≤ ex.gather.limit →
        (ex.stage ≡ Done status) × (ex.gather.bytes ≡ gathered) }
{}

/// With any card, an exchange holds the data that the pairs which led to it brought. Or it has
/// failed for one of two reasons: it stalled, or the data exceed its room. No pair brings more
/// bytes than its command asks for.
pub fn an_exchange_holds_what_came()
    ensures { (c : Command) (wanted : Wanted) (pairs : List Pair) (ex : ApduExchangeOf) →
        ComesTo c wanted pairs ex → (ex.gather.bytes ≡ all_content pairs)
        ⊎ ((ex.stage ≡ Failed)
        × (StallsAt c wanted pairs ⊎ IsTooLong c wanted pairs ex.gather.limit)) }
{}

/// A whole exchange that brings r bytes takes at most 2(r + 2) commands.
pub fn an_exchange_has_few_commands()
    ensures { (c : Command) (wanted : Wanted) (pairs : List Pair) (gathered : List ℕ)
        (status : StatusWord) → Brings c wanted pairs gathered status →
        length pairs ≤ 2 * (length gathered + 2) }
{}

/// A card of data objects responds, by its TPDUs, to the whole commands of an operation. No chain
/// is pending before. The answer is one that the operation in one step may give. The applications
/// and the selection are then those that this step leaves, and again no chain is pending.
pub fn an_operation_by_whole_commands_is_one_step()
    ensures { (old new : CardState) (operation : Operation) (exchanges : List (List Pair))
        (answer : Reply) → is_idle old.pending ≡ true
        → IsApduTalkOf operation exchanges answer
        → RespondsToAll Does old (talk_pairs exchanges) new →
        (after : CardState) × Answers old operation answer after × SameTables after new
        × (is_idle new.pending ≡ true) }
{}

/// A card of data objects responds, by its TPDUs, to operations by whole commands, one after
/// another. Their answers are answers that the one-step card may give. The applications and the
/// selection are then those that these steps leave. No chain is pending before, and none
/// afterwards.
pub fn operations_by_whole_commands_are_single_steps()
    ensures { (old new : CardState) (operations : List Operation)
        (talks : List (List (List Pair))) (replies : List Reply) → is_idle old.pending ≡ true
        → AreApduTalksOf operations talks replies
        → RespondsToAll Does old (flat_map talk_pairs talks) new →
        AnswersAll old operations replies new × (is_idle new.pending ≡ true) }
{}

/// No exchange with a card of data objects stalls, whatever the command, the count wanted and the
/// card's state. If a GET RESPONSE of the exchange brings nothing, the card announces no more.
pub fn no_exchange_of_commands_stalls()
    ensures { (c : Command) (wanted : Wanted) (pairs : List Pair) (old new : CardState) →
        StallsAt c wanted pairs → RespondsToAll Does old pairs new → ⊥ }
{}

/// A whole command changes applications and their entries only if it is a PUT DATA with CLA `00`
/// and its status is `9000`. A command that gets no response changes none.
pub fn only_a_put_command_changes_entries<C: DataCard>()
    ensures responds { (state_of : C.State → CardState) →
        StandsFor C.Does C.after_reset state_of →
        (old new : C.State) (p : Pair) → Responds C.Does old p new →
        ((state_of new).applications ≡ (state_of old).applications)
        ⊎ ((p.command.header.cla ≡ 0x00) × (p.command.header.ins ≡ 0xDA) × (p.status ≡ ok)) }
    ensures failed { (state_of : C.State → CardState) → StandsFor C.Does C.after_reset state_of →
        (old new : C.State) (c : Command) (fault : CarryFault) →
        HasFailed C.TpduCard c old fault new →
        (state_of new).applications ≡ (state_of old).applications }
{
    only_a_put_changes_entries();
}
