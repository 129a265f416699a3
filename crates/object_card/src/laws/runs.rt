//! Laws of several commands: the puts that a history shows, how operations are carried out, and how
//! many bytes an exchange brings.
ghost use Rattle.std.specs.Prelude.{◌≡◌, ℕ, ◌+◌, ◌≤◌, List, [], ◌∷◌, Some, None, length, true};
ghost use Rattle.std.specs.List.{flat_map};
ghost use Rattle.apdu_core.specs.StatusWord.{StatusWord, count, announces, corrects};
ghost use Rattle.apdu_core.specs.Chaining.{IsPieces, chain_commands};
ghost use Rattle.t0_core.specs.Meaning.{Tpdu};
ghost use Rattle.t0_core.specs.Plan.{IsCut};
ghost use Rattle.t0_core.specs.History.{Item, RunsOver};
ghost use Rattle.tlv_core.specs.Address.{NamesTag};
ghost use Rattle.apdu_core.specs.declared.shared.TheConstants.{RESPONSE_LIMIT};
ghost use Rattle.object_card.specs.declared.limits.TheConstants.{VALUE_LIMIT, HEAD_LIMIT};
ghost use Rattle.object_card.specs.Tables.{IsAid};
ghost use Rattle.apdu_core.specs.Shared.{Reply};
ghost use Rattle.object_card.specs.OneStep.{Operation, Select, Get, Put, Answers, SameTables};
ghost use Rattle.object_card.specs.State.{CardState, IsCardState, NothingPending, is_idle, waiting, after_reset};
ghost use Rattle.object_card.specs.CardMeaning.{Does};
ghost use Rattle.object_card.specs.DataCard.{StandsFor};
ghost use Rattle.apdu_core.specs.Shared.{get_response};
ghost use Rattle.object_card.specs.CarryingOut.{select_header, get_header, put_header, Carries, EndsWith, AreFetches, FetchAll, IsFetched, IsCarriedOut};
ghost use Rattle.object_card.specs.ShownPuts.{shown_puts, with_puts};

use crate::DataCard;

/// Take a card at which nothing is selected or pending, as after a reset. However a terminal uses
/// it, its tables are the first ones with exactly the puts applied that the history shows, in
/// order. So an abandoned chain, an unfinished data field, and a reset between SW1 and SW2 change
/// no entry.
pub fn the_tables_are_those_of_the_shown_puts()
    ensures { (first last : CardState) (items : List Item) → first.selected ≡ None →
        first.pending ≡ NothingPending → RunsOver Does after_reset first items last →
        last.applications ≡ with_puts (shown_puts items) first.applications }
{}

/// `the_tables_are_those_of_the_shown_puts`, for any `DataCard` whose states stand for card states.
/// Nothing is selected or pending in the card state that its first state stands for.
pub fn so_are_those_of_any_card<C: DataCard>()
    ensures { (state_of : C.State → CardState) → StandsFor C.Does C.after_reset state_of →
        (first last : C.State) (items : List Item) → (state_of first).selected ≡ None →
        (state_of first).pending ≡ NothingPending → RunsOver C.Does C.after_reset first items last →
        (state_of last).applications ≡ with_puts (shown_puts items) (state_of first).applications }
{}

/// What is pending does not affect an operation. Take two cards with the same applications and the
/// same selection. Each reply that one may give, the other may give, and then both are again the
/// same in these.
pub fn an_answer_does_not_hang_on_what_is_pending()
    ensures { (a b a' : CardState) (operation : Operation) (answer : Reply) → SameTables a b →
        Answers a operation answer a' → (b' : CardState) × Answers b operation answer b'
        × SameTables a' b' }
{}

/// The last status of the commands that carry a value is one that a put of the value in one step
/// may get. Only `9000` stores it. The applications and the selection are then those after that
/// step, and no chain is pending. No chain may be pending before, and P1-P2 name the tag. Each
/// command is one TPDU under any cut. The first status other than `9000` ends them.
pub fn the_commands_of_a_value_put_it()
    ensures { (old new : CardState) (tag value : List ℕ) (p1 p2 : ℕ) (pieces : List (List ℕ))
        (status : StatusWord) →
        is_idle old.pending ≡ true → NamesTag tag p1 p2 → IsPieces value pieces →
        EndsWith old (chain_commands (put_header p1 p2) pieces) new status →
        IsCarriedOut old (Put tag value) status [] new }
{}

/// A SELECT, followed by GET RESPONSE for all that is announced, is a SELECT in one step. The last
/// status and all data are a reply that the one-step card may give, be it success or not. The
/// applications and the selection are then those after that step, and no chain is pending. No chain
/// may be pending before, and the identifier has 5 to 16 bytes. Each command is under any cut, 1 to
/// 256.
pub fn a_select_with_its_fetches_selects()
    ensures { (old mid new : CardState) (cut : ℕ) (aid : List ℕ) (t : Tpdu) (fetches : List Tpdu)
        (last : StatusWord) →
        is_idle old.pending ≡ true → IsAid aid → IsCut cut → Carries select_header aid t →
        Does old cut t mid → FetchAll mid t.status fetches last new →
        IsCarriedOut old (Select aid) last (flat_map (λ t. t.received) (t ∷ fetches)) new }
{}

/// A GET DATA, followed by GET RESPONSE for all that is announced, is a GET DATA in one step. The
/// last status and all data are a reply that the one-step card may give, be it success or not. The
/// applications and the selection are then those after that step, and no chain is pending. No chain
/// may be pending before, and P1-P2 name the tag. If the status is `6CXX`, the GET DATA is first
/// repeated with that length. Each command is under any cut, 1 to 256.
pub fn a_get_with_its_fetches_gets()
    ensures once { (old mid new : CardState) (tag : List ℕ) (p1 p2 cut : ℕ) (t : Tpdu)
        (fetches : List Tpdu) (last : StatusWord) →
        is_idle old.pending ≡ true → NamesTag tag p1 p2 → t.header ≡ get_header p1 p2 → IsCut cut →
        Does old cut t mid → corrects t.status ≡ None → FetchAll mid t.status fetches last new →
        IsCarriedOut old (Get tag) last (flat_map (λ t. t.received) (t ∷ fetches)) new }
    ensures again { (old next mid new : CardState) (tag : List ℕ) (p1 p2 before cut n : ℕ)
        (t u : Tpdu) (fetches : List Tpdu) (last : StatusWord) →
        is_idle old.pending ≡ true → NamesTag tag p1 p2 → t.header ≡ get_header p1 p2 →
        Does old before t next → corrects t.status ≡ Some n → u.header ≡ get_header p1 p2 →
        count u.p3 ≡ n → IsCut cut → Does next cut u mid → FetchAll mid u.status fetches last new →
        IsCarriedOut old (Get tag) last (flat_map (λ t. t.received) (t ∷ u ∷ fetches)) new }
{}

/// What `61XX` announces waits, if the cut is 1 to 256. A GET RESPONSE for no more than what waits
/// brings as many bytes as its P3 states. So a GET RESPONSE directly after `61XX`, for no more than
/// that, brings data without a `6CXX`.
pub fn what_is_announced_is_brought()
    ensures waits { (old new : CardState) (cut n : ℕ) (t : Tpdu) → Does old cut t new → IsCut cut →
        announces t.status ≡ Some n → (1 ≤ n) × (n ≤ length (waiting new.pending)) }
    ensures fetched { (old new : CardState) (cut : ℕ) (t : Tpdu) → Does old cut t new →
        t.header ≡ get_response → count t.p3 ≤ length (waiting old.pending) →
        IsFetched old cut t new }
    ensures brought { (old mid new : CardState) (cut next n : ℕ) (t fetch : Tpdu) →
        Does old cut t mid → IsCut cut → announces t.status ≡ Some n → Does mid next fetch new →
        fetch.header ≡ get_response → count fetch.p3 ≤ n → (1 ≤ length fetch.received)
        × (length fetch.received ≡ count fetch.p3) × (corrects fetch.status ≡ None) }
{}

/// From a sound state, a TPDU brings, and leaves waiting, at most `VALUE_LIMIT` + `HEAD_LIMIT`
/// bytes together. With all GET RESPONSEs directly after it, it brings no more than that. `6CXX`
/// comes without data, and each GET RESPONSE takes from what waits. `RESPONSE_LIMIT` leaves room
/// for the data of one more TPDU. A terminal may have a lower limit.
pub fn an_exchange_brings_no_more_than_is_gathered()
    ensures first { (old new : CardState) (cut : ℕ) (t : Tpdu) → Does old cut t new →
        IsCardState old →
        length t.received + length (waiting new.pending) ≤ VALUE_LIMIT + HEAD_LIMIT }
    ensures corrected { (old new : CardState) (cut n : ℕ) (t : Tpdu) → Does old cut t new →
        corrects t.status ≡ Some n → t.received ≡ [] }
    ensures fetch { (old new : CardState) (cut : ℕ) (t : Tpdu) → Does old cut t new →
        t.header ≡ get_response →
        length t.received + length (waiting new.pending) ≤ length (waiting old.pending) }
    ensures whole { (old mid new : CardState) (cut : ℕ) (t : Tpdu) (fetches : List Tpdu) →
        IsCardState old → Does old cut t mid → AreFetches mid fetches new →
        length (flat_map (λ t. t.received) (t ∷ fetches)) ≤ VALUE_LIMIT + HEAD_LIMIT }
    ensures room { VALUE_LIMIT + HEAD_LIMIT + 256 ≤ RESPONSE_LIMIT }
{}
