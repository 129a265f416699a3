//! Laws of a card of commands and a terminal's exchanges with it. Each function is empty: its
//! contract is the law.
ghost use Rattle.std.specs.Prelude.{◌≡◌, ◌≤◌, ◌++◌, List, [], ℕ, Some, None, length};
ghost use Rattle.std.specs.List.{flat_map};
ghost use Rattle.apdu_core.specs.StatusWord.{StatusWord, IsStatusWord, announces, corrects};
ghost use Rattle.apdu_core.specs.CommandBytes.{Command};
ghost use Rattle.t0_core.specs.Meaning.{Prepared, Runs};
ghost use Rattle.t0_core.specs.Plan.{Course};
ghost use Rattle.exchange_core.specs.Gathered.{UnitOf, Gathers, dialogues_of};
ghost use Rattle.card_terminal.specs.Talk.{HaveCuts};
ghost use Rattle.t0_core.specs.CardHistory.{Leads};
ghost use Rattle.t0_core.specs.CardSide.{Stage};
ghost use Rattle.t0_core.specs.History.{Event};
ghost use Rattle.command_card.specs.Carrying.{Makes};
ghost use Rattle.command_card.specs.View.{after_reset};
ghost use Rattle.command_card.specs.AtT1.{Responds, status_bytes};
ghost use Rattle.command_card.specs.State.{CardState, Nothing_left};
ghost use Rattle.command_card.specs.Meaning.{Does};
ghost use Rattle.command_card.specs.Told.{AreAgreed, GathersPart, GathersRest, IsCutOf, IsOneStep, told};
ghost use Rattle.command_card.specs.Alike.{GathersAtT0, GathersWhole, IsCase1, cut_to};
ghost use Rattle.command_card.specs.Deeds.{IsThrough};

use crate::application::Application;

/// A terminal's exchange of one command with Le 00 gathers exactly the application's response and
/// its status, and the application has made exactly one step. The exchange asks again after `6CXX`,
/// and fetches by GET RESPONSE after `61XX`. The plans may have any cuts. The premise `AreAgreed`:
/// the command is the application's own, its data go the right way, and nothing waits for it.
pub fn an_exchange_gathers_the_response<A: Application>()
    ensures { (first last : CardState A.State) (c : Command) (units : List UnitOf)
        (plans : List Course) (gathered : List ℕ) (status : StatusWord) → c.le ≡ Some 256 →
        AreAgreed A.takes first c → HaveCuts plans →
        Runs (Does A.takes A.Does) first (flat_map dialogues_of units) plans last →
        Gathers c units gathered status →
        Makes A.Does first.app (told (A.takes first.app c.header) c) gathered status last.app
        × (last.left ≡ Nothing_left) }
{}

/// The same for any Le, and none: the first Le bytes of the response come, all if there are fewer,
/// or if Le is 00. If none are left, the application's status comes; otherwise `61XX`, and the rest
/// is pending.
pub fn an_exchange_gathers_what_is_asked_for<A: Application>()
    ensures { (first last : CardState A.State) (c : Command) (units : List UnitOf)
        (plans : List Course) (gathered : List ℕ) (status : StatusWord) →
        AreAgreed A.takes first c → HaveCuts plans →
        Runs (Does A.takes A.Does) first (flat_map dialogues_of units) plans last →
        Gathers c units gathered status →
        GathersPart A.takes A.Does plans first c gathered status last }
{}

/// At most once, whatever characters the terminal sends and whenever the card is reset. The
/// application has been through exactly the resets and the commands that whole TPDUs carried, in
/// order, each once. The TPDUs without a command are known from the line: an INS of `6X` or `9X`,
/// GET RESPONSE, and the repetition after `6CXX`. Any other TPDU carries the command with its data,
/// or with its P3 as Le, and brings the response and status of that one step. A command whose
/// response is too long gets `6F00` and has no effect; nor has a TPDU that a reset cuts off. The
/// events are those of a `t0_core::CardEnd` over the card (its clauses `led`). They are cut into
/// whole TPDUs, resets, and the part of a TPDU in progress. Nothing may be pending at first. It is
/// about states in effect, not about calls. Giving a response to a `Given` is no event here: see
/// `given_laws` for such histories.
pub fn each_command_at_most_once<A: Application>()
    ensures { (first last : CardState A.State) (events : List Event)
        (prepared : Prepared (CardState A.State)) (stage : Stage) → first.left ≡ Nothing_left →
        Leads (Does A.takes A.Does) (after_reset A.after_reset) first events last prepared stage →
        IsThrough A.takes A.Does A.after_reset first.app events last.app }
{}

/// By whole commands, as at T=1, a command with Le 00 gathers exactly the response and status of
/// one step of the application. GET RESPONSE with any Le follows as long as `61XX` announces more.
pub fn whole_commands_gather_the_response<A: Application>()
    ensures { (first mid last : CardState A.State) (c : Command) (front rest : List ℕ)
        (sw status : StatusWord) (others : List (List ℕ)) → c.le ≡ Some 256 →
        AreAgreed A.takes first c →
        Responds A.takes A.Does first c (front ++ status_bytes sw) mid →
        GathersRest A.takes A.Does mid sw others rest status last →
        Makes A.Does first.app (told (A.takes first.app c.header) c) (front ++ rest) status last.app
        × (last.left ≡ Nothing_left) }
{}

/// The same answers at T=0 and by whole commands, as at T=1, in both directions and from and to the
/// same states. What an exchange at T=0 gathers, whole commands may gather (`from_t0`); up to 256
/// bytes with Le 00 are one response (`in_one`). What whole commands gather, an exchange at T=0 may
/// gather under any plans (`to_t0`). The status is the same, except that at T=0 a `61XX` announces
/// at most a plan's cut. A response is one step of the application (`at_t1`). Le is any, or none.
pub fn both_lines_answer_alike<A: Application>()
    ensures from_t0 { (first last : CardState A.State) (c : Command) (units : List UnitOf)
        (plans : List Course) (gathered : List ℕ) (status : StatusWord) →
        AreAgreed A.takes first c → HaveCuts plans →
        Runs (Does A.takes A.Does) first (flat_map dialogues_of units) plans last →
        Gathers c units gathered status →
        (cut : ℕ) × (whole : StatusWord) × IsCutOf plans cut × (status ≡ cut_to cut whole)
        × GathersWhole A.takes A.Does first c gathered whole last }
    ensures in_one { (first last : CardState A.State) (c : Command) (units : List UnitOf)
        (plans : List Course) (gathered : List ℕ) (status : StatusWord) → c.le ≡ Some 256 →
        AreAgreed A.takes first c → HaveCuts plans →
        Runs (Does A.takes A.Does) first (flat_map dialogues_of units) plans last →
        Gathers c units gathered status → length gathered ≤ 256 →
        Responds A.takes A.Does first c (gathered ++ status_bytes status) last }
    ensures to_t0 { (first last : CardState A.State) (c : Command) (plans : List Course)
        (gathered : List ℕ) (whole : StatusWord) →
        AreAgreed A.takes first c → HaveCuts plans → IsStatusWord whole →
        GathersWhole A.takes A.Does first c gathered whole last →
        (cut : ℕ) × IsCutOf plans cut
        × GathersAtT0 A.takes A.Does plans first c gathered (cut_to cut whole) last }
    ensures at_t1 { (old new : CardState A.State) (c : Command) (response : List ℕ) →
        AreAgreed A.takes old c → Responds A.takes A.Does old c response new →
        IsOneStep A.takes A.Does old c response new }
{}

/// The same for case 1 of an application that takes no data, which the law above leaves out: if
/// there is no response. Then no `6CXX` comes at T=0, and no `61XX` by whole commands.
pub fn case_1_answers_alike<A: Application>()
    ensures from_t0 { (first last : CardState A.State) (c : Command) (units : List UnitOf)
        (plans : List Course) (gathered : List ℕ) (status : StatusWord) →
        IsCase1 A.takes first c →
        Runs (Does A.takes A.Does) first (flat_map dialogues_of units) plans last →
        Gathers c units gathered status → corrects status ≡ None →
        (gathered ≡ []) × Responds A.takes A.Does first c (status_bytes status) last }
    ensures to_t0 { (first last : CardState A.State) (c : Command) (plans : List Course)
        (status : StatusWord) →
        IsCase1 A.takes first c → IsStatusWord status → announces status ≡ None →
        Responds A.takes A.Does first c (status_bytes status) last →
        GathersAtT0 A.takes A.Does plans first c [] status last }
{}
