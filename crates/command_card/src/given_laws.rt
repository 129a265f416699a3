//! Laws of a card whose responses come from outside, by calls between two characters. Each function
//! is empty: its contract is the law.
ghost use Rattle.std.specs.Prelude.{◌≡◌, ◌++◌, ℕ, List, [], ◌∷◌, Option, None, true, false};
ghost use Rattle.std.specs.List.{AllByRecursion};
ghost use Rattle.t0_core.specs.CardContract.{IsDecided};
ghost use Rattle.t0_core.specs.CardHistory.{Leads};
ghost use Rattle.t0_core.specs.CardSide.{Stage, StandsAt};
ghost use Rattle.t0_core.specs.Front.{Front};
ghost use Rattle.t0_core.specs.History.{Event, IsByteEvent};
ghost use Rattle.t0_core.specs.Meaning.{Prepared};
ghost use Rattle.command_card.specs.Given.{Answers, GivenState, after_drop, takes_data};
ghost use Rattle.command_card.specs.Giving.{Giving, Lends};
ghost use Rattle.command_card.specs.Settling.{AnswersBy, ComesOf};
ghost use Rattle.command_card.specs.Lending.{AreLent, Happening, LeadsLent, Lent, On_line, all_lent, line_of};
ghost use Rattle.command_card.specs.Meaning.{Does};
ghost use Rattle.command_card.specs.State.{CardState, Nothing_left};
ghost use Rattle.command_card.specs.View.{after_reset};

use t0_core::laws::events_have_one_cutting;

/// How a history with such calls grows. An end begins one (`start`). A call that leads on from each
/// history of characters and resets alone leads on from one with such calls too (`line`); the
/// characters must be bytes. So does what is done to the card, until its answer is decided
/// (`lent`).
pub fn the_line_leads_on_after_lending()
    ensures start { (first standing : CardState GivenState)
        (prepared : Prepared (CardState GivenState)) (stage : Stage) →
        Leads (Does takes_data Answers) (after_reset after_drop) first [] standing prepared stage →
        LeadsLent (Does takes_data Answers) (after_reset after_drop) Lends first [] standing
        prepared stage }
    ensures line { (first old new : CardState GivenState) (hs : List (Happening Giving)) (e : Event)
        (before prepared : Prepared (CardState GivenState)) (at stage : Stage) →
        AllByRecursion IsByteEvent (line_of hs ++ e ∷ []) →
        ((f : CardState GivenState) (events : List Event) →
        Leads (Does takes_data Answers) (after_reset after_drop) f events old before at →
        Leads (Does takes_data Answers) (after_reset after_drop) f (events ++ e ∷ []) new prepared
        stage) →
        LeadsLent (Does takes_data Answers) (after_reset after_drop) Lends first hs old before at →
        LeadsLent (Does takes_data Answers) (after_reset after_drop) Lends first
        (hs ++ On_line e ∷ []) new prepared stage }
    ensures lent { (first old new : CardState GivenState) (hs : List (Happening Giving))
        (k : Giving) (before : Prepared (CardState GivenState)) (at : Stage) →
        (IsDecided before → ⊥) → ((cut : ℕ) (front : Front) →
        StandsAt (Does takes_data Answers) old before at cut front → Lends k front old new) →
        LeadsLent (Does takes_data Answers) (after_reset after_drop) Lends first hs old before at →
        LeadsLent (Does takes_data Answers) (after_reset after_drop) Lends first
        (hs ++ Lent k ∷ []) new before at }
{
    events_have_one_cutting();
}

/// What becomes of each response that is given, in every history at T=0 that begins with nothing
/// pending and none given.
///
/// - A response is given only if none is held.
/// - It goes out for the command that `wanted_next` showed when it was given, in the same
///   direction. That command settles once it gets SW2. If none was shown, as before a whole TPDU,
///   it is the first command that ends after it.
/// - Or it goes out for a whole command, which settles then.
/// - Or a reset drops it, also amid its command, or it is taken back. Then nothing settles.
/// - A TPDU for which none is held is no command, or has status `6581`.
/// - `Given::has_settled` tells whether the response that was given last has settled.
///
/// `at_most` is about `Given`. It also lets a command be `6581` while a response is held, which
/// then stays for a later one. Only a card that judges a header twice before SW2 does that. No end
/// does so, but no clause says it. `once` is about a card that is `6581` only if none was given.
pub fn each_response_goes_out_once()
    ensures at_most { (first last : CardState GivenState) (hs : List (Happening Giving))
        (prepared : Prepared (CardState GivenState)) (stage : Stage) →
        first.left ≡ Nothing_left → first.app.given ≡ None →
        LeadsLent (Does takes_data Answers) (after_reset after_drop) Lends first hs last
        prepared stage → ComesOf false first.app hs last.app }
    ensures once { (first last : CardState GivenState) (hs : List (Happening Giving))
        (prepared : Prepared (CardState GivenState)) (stage : Stage) →
        first.left ≡ Nothing_left → first.app.given ≡ None →
        LeadsLent (Does takes_data (AnswersBy true)) (after_reset after_drop) Lends first hs last
        prepared stage → ComesOf true first.app hs last.app }
{}

/// The same by whole commands and at T=1, where no character moves and nothing is in progress: all
/// that happens is done to the card. Each command that the application carries out gets the
/// response that was given last, and settles. None is `6581`.
pub fn each_response_goes_out_at_rest()
    ensures { (first last : CardState GivenState) (ks : List Giving) →
        first.left ≡ Nothing_left → first.app.given ≡ None →
        AreLent Lends [] first (all_lent ks) last →
        ComesOf true first.app (all_lent ks) last.app }
{}
