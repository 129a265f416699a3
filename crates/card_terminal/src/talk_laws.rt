//! Laws of talks between a terminal and a card of data objects: each function's contract is one.
//! For the proof: the bodies are empty.
ghost use Rattle.std.specs.Prelude.{◌≡◌, ℕ, ◌+◌, ◌≤◌, List, length, Option, Some, IfSome, true};
ghost use Rattle.std.specs.List.{flat_map};
ghost use Rattle.apdu_core.specs.CommandBytes.{Command};
ghost use Rattle.t0_core.specs.Character.{Character};
ghost use Rattle.t0_core.specs.Dialogue.{Dialogue};
ghost use Rattle.t0_core.specs.Meaning.{received, Runs};
ghost use Rattle.t0_core.specs.Plan.{Course};
ghost use Rattle.object_card.specs.declared.limits.TheConstants.{VALUE_LIMIT, HEAD_LIMIT};
ghost use Rattle.object_card.specs.State.{CardState, IsCardState, is_idle, waiting};
ghost use Rattle.apdu_core.specs.Shared.{Reply};
ghost use Rattle.object_card.specs.OneStep.{Operation, Answers, SameTables, AnswersAll};
ghost use Rattle.object_card.specs.CardMeaning.{Does};
ghost use Rattle.exchange_core.specs.declared.wanted.Wanted.{Wanted};
ghost use Rattle.exchange_core.specs.Gathered.{Opening, By_command, UnitOf, dialogues_of, unit_data, wanted_by, repeated_with, AreFollowed, IsOpenExchange};
ghost use Rattle.exchange_core.specs.ExchangeSide.{Stall, so_far};
ghost use Rattle.card_terminal.specs.Talk.{IsTalkOf, Talk, HaveCuts, talk_dialogues};

use object_card::DataCard;

/// The answer of a talk of one operation is one that the operation in one step may give. The plans
/// have cuts of 1 to 256, and no chain is pending before. The card then has the applications and
/// the selection that this step leaves, and again no chain is pending.
pub fn a_talk_of_an_operation_is_one_step()
    ensures { (old new : CardState) (plans : List Course) (operation : Operation)
        (exchanges : List (List UnitOf)) (answer : Reply) → is_idle old.pending ≡ true
        → HaveCuts plans →
        IsTalkOf operation exchanges answer → Runs Does old (talk_dialogues exchanges) plans new →
        (after : CardState) × Answers old operation answer after × SameTables after new
        × (is_idle new.pending ≡ true) }
{}

/// The answers of a talk of operations are answers that the one-step card may give, one after
/// another. The applications and the selection are then those that these steps leave. The plans
/// have cuts of 1 to 256. The card must be sound, with no chain pending; afterwards it is so again.
pub fn a_talk_is_answered_in_single_steps()
    ensures { (first last : CardState) (plans left : List Course) (operations : List Operation)
        (replies : List Reply) (line : List Character) → IsCardState first
        → is_idle first.pending ≡ true →
        HaveCuts plans → Talk Does first plans operations replies last left line →
        AnswersAll first operations replies last × (is_idle last.pending ≡ true)
        × IsCardState last }
{}

/// After each TPDU of an exchange with a sound card of data objects, its data so far have at most
/// `VALUE_LIMIT` + `HEAD_LIMIT` bytes (`so_far`): a value with its tag and length.
///
/// After each command with its repetition, if any, that includes what still waits in the card
/// (`whole`). `RESPONSE_LIMIT` is larger, but a terminal may have a lower limit. The command is
/// any, and the plans have cuts of 1 to 256.
pub fn an_exchange_fits()
    ensures whole { (c : Command) (units : List UnitOf) (plans : List Course)
        (old new : CardState) → IsCardState old → HaveCuts plans → IsOpenExchange c units →
        Runs Does old (flat_map dialogues_of units) plans new →
        length (flat_map unit_data units) + length (waiting new.pending)
        ≤ VALUE_LIMIT + HEAD_LIMIT }
    ensures so_far { (c : Command) (units : List UnitOf) (opening : Opening) (left : Wanted)
        (first : Option Dialogue) (plans : List Course) (old new : CardState) → IsCardState old →
        HaveCuts plans → AreFollowed (By_command c) (wanted_by c.le) units opening left →
        IfSome first (λ d. (n : ℕ) × (repeated_with left d ≡ Some n)) →
        Runs Does old (so_far units first) plans new →
        length (flat_map received (so_far units first)) ≤ VALUE_LIMIT + HEAD_LIMIT }
{}

/// No exchange of any command with a card of data objects stalls, in any state of the card. If a
/// GET RESPONSE of the exchange brings nothing, the card announces no more. The plans have cuts of
/// 1 to 256.
pub fn no_exchange_stalls()
    ensures { (c : Command) (units : List UnitOf) (plans : List Course) (old new : CardState) →
        HaveCuts plans → Runs Does old (flat_map dialogues_of units) plans new → Stall c units → ⊥ }
{}

/// The answers of a talk of operations with any `DataCard`, whatever its own states, are answers
/// that the one-step card may give. The applications and the selection are then those that these
/// steps leave. The plans have cuts of 1 to 256. The card must be sound, with no chain pending;
/// afterwards it is so again.
pub fn a_talk_with_any_card_is_answered_in_single_steps<C: DataCard>()
    ensures { (before after : C) (plans left : List Course) (operations : List Operation)
        (replies : List Reply) (line : List Character) → IsCardState (C.state before) →
        is_idle (C.state before).pending ≡ true → HaveCuts plans →
        Talk C.Does (C.standing before) plans operations replies (C.standing after) left line →
        AnswersAll (C.state before) operations replies (C.state after)
        × (is_idle (C.state after).pending ≡ true) × IsCardState (C.state after) }
{}
