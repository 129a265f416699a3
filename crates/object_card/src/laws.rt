//! Laws of what one command does to a card, for proofs in the crates above. Each function is empty:
//! its contract is the law. `runs` holds laws of several commands, and `histories` of all that
//! happens at a card's end.
ghost use Rattle.std.specs.Prelude.{◌≡◌, ◌≢◌, ◌↔◌, ◌⊎◌, ℕ, List, [], Some, None, length, true};
ghost use Rattle.apdu_core.specs.StatusWord.{StatusWord, ok};
ghost use Rattle.t0_core.specs.Meaning.{Tpdu};
ghost use Rattle.tlv_core.specs.Address.{NamesTag};
ghost use Rattle.object_card.specs.Tables.{Entry};
ghost use Rattle.apdu_core.specs.Shared.{Reply, reply};
ghost use Rattle.object_card.specs.OneStep.{PutStatus, Operation, Answers, SameTables};
ghost use Rattle.object_card.specs.State.{CardState, IsCardState, ResponsePending, is_idle, after_reset};
ghost use Rattle.object_card.specs.Refusals.{named_tag, refusal, is_select, is_put};
ghost use Rattle.object_card.specs.CardMeaning.{Does};

pub mod histories;
pub mod runs;

/// P1-P2 name a tag (`NamesTag`) exactly if the function `named_tag` finds it.
pub fn p1p2_name_the_tag()
    ensures { (tag : List ℕ) (p1 p2 : ℕ) → (named_tag p1 p2 ≡ Some tag) ↔ NamesTag tag p1 p2 }
{}

/// A TPDU under any cut, and a reset, leave a sound state sound. In one, identifiers are distinct,
/// and so are the tags of each application. Values are sound, and each number keeps to its limit.
/// The selected application exists. A chain is pending only if one is selected, with at most
/// `VALUE_LIMIT` bytes. A pending response has 1 to `VALUE_LIMIT` + `HEAD_LIMIT` bytes.
pub fn a_card_state_stays_one()
    ensures step { (old new : CardState) (cut : ℕ) (tpdu : Tpdu) → Does old cut tpdu new →
        IsCardState old → IsCardState new }
    ensures reset { (state : CardState) → IsCardState state → IsCardState (after_reset state) }
{}

/// A refused header moves no data, and gets the status of the first reason that holds.
pub fn a_refused_header_moves_nothing()
    ensures { (old new : CardState) (cut : ℕ) (tpdu : Tpdu) (status : StatusWord) →
        Does old cut tpdu new → refusal old tpdu.header tpdu.p3 ≡ Some status → (tpdu.sent ≡ [])
        × (tpdu.received ≡ []) × (tpdu.status ≡ status) }
{}

/// A command with CLA `10`, which more of its chain follows, changes no entry.
pub fn a_piece_changes_no_entry()
    ensures { (old new : CardState) (cut : ℕ) (tpdu : Tpdu) → Does old cut tpdu new →
        tpdu.header.cla ≡ 0x10 → new.applications ≡ old.applications }
{}

/// A command with status `6A82`, such as a SELECT that finds no application, keeps the selection.
pub fn not_found_keeps_the_selection()
    ensures { (old new : CardState) (cut : ℕ) (tpdu : Tpdu) → Does old cut tpdu new →
        tpdu.status ≡ (0x6A, 0x82) → new.selected ≡ old.selected }
{}

/// After every status except `9000` no chain is pending. The same holds after every command whose
/// CLA is not `10`.
pub fn a_chain_is_dropped_or_ended()
    ensures dropped { (old new : CardState) (cut : ℕ) (tpdu : Tpdu) → Does old cut tpdu new →
        tpdu.status ≢ ok → is_idle new.pending ≡ true }
    ensures ended { (old new : CardState) (cut : ℕ) (tpdu : Tpdu) → Does old cut tpdu new →
        tpdu.header.cla ≢ 0x10 → is_idle new.pending ≡ true }
{}

/// A response is pending only after `61XX`, or unchanged after `6CXX` to a GET RESPONSE.
pub fn a_response_is_announced()
    ensures { (old new : CardState) (cut : ℕ) (tpdu : Tpdu) (left : List ℕ) →
        Does old cut tpdu new → new.pending ≡ ResponsePending left →
        (tpdu.status.0 ≡ 0x61) ⊎ ((tpdu.header.ins ≡ 0xC0) × (tpdu.status.0 ≡ 0x6C)
        × (new.pending ≡ old.pending)) }
{}

/// All P3 bytes of a PUT DATA move to the card, unless its header is refused.
pub fn all_of_a_put_moves()
    ensures { (old new : CardState) (cut : ℕ) (tpdu : Tpdu) → Does old cut tpdu new →
        refusal old tpdu.header tpdu.p3 ≡ None → is_put tpdu.header ≡ true →
        tpdu.p3 ≡ length tpdu.sent }
{}

/// All P3 bytes of a SELECT move to the card, unless its header is refused.
pub fn all_of_a_select_moves()
    ensures { (old new : CardState) (cut : ℕ) (tpdu : Tpdu) → Does old cut tpdu new →
        refusal old tpdu.header tpdu.p3 ≡ None → is_select tpdu.header ≡ true →
        tpdu.p3 ≡ length tpdu.sent }
{}

/// Applications and their entries change only by a PUT DATA with CLA `00` whose status is `9000`.
pub fn only_a_put_changes_entries()
    ensures { (old new : CardState) (cut : ℕ) (tpdu : Tpdu) → Does old cut tpdu new →
        (new.applications ≡ old.applications) ⊎ ((tpdu.header.cla ≡ 0x00) × (tpdu.header.ins ≡ 0xDA)
        × (tpdu.status ≡ ok)) }
{}

/// From one state, the one-step card has at most one reply to an operation, and one next state,
/// unless memory runs out (`6581`). With the same exception, one header, P3, data to the card and
/// cut have at most one outcome: status, next state, and data from the card. Memory can run out
/// only in an operation that would store a value. The one-step card is then unchanged.
pub fn a_command_has_one_outcome()
    ensures operation { (old a b : CardState) (operation : Operation) (r s : Reply) →
        Answers old operation r a → Answers old operation s b → r.status ≢ (0x65, 0x81) →
        s.status ≢ (0x65, 0x81) → (r ≡ s) × (a ≡ b) }
    ensures wanted { (old new : CardState) (operation : Operation) (answer : Reply) →
        Answers old operation answer new → answer.status ≡ (0x65, 0x81) →
        (new ≡ old) × ((next : CardState) × Answers old operation (reply ok) next) }
    ensures tpdu { (old a b : CardState) (cut : ℕ) (t u : Tpdu) → Does old cut t a →
        Does old cut u b → t.header ≡ u.header → t.p3 ≡ u.p3 → t.sent ≡ u.sent →
        t.status ≢ (0x65, 0x81) → u.status ≢ (0x65, 0x81) → (t.received ≡ u.received)
        × (t.status ≡ u.status) × (a ≡ b) }
{}

/// A put of a value among given entries has at most one status, apart from `6581`.
pub fn a_put_has_one_status()
    ensures { (entries : List Entry) (tag value : List ℕ) (s t : StatusWord) →
        PutStatus entries tag value s → PutStatus entries tag value t → s ≡ t }
{}

/// Only a PUT DATA with CLA `00` gets `6581` (memory ran out). The tables and the selection are
/// then unchanged.
pub fn only_a_put_wants_memory()
    ensures { (old new : CardState) (cut : ℕ) (tpdu : Tpdu) → Does old cut tpdu new →
        tpdu.status ≡ (0x65, 0x81) → (tpdu.header.cla ≡ 0x00) × (tpdu.header.ins ≡ 0xDA)
        × SameTables old new }
{}
