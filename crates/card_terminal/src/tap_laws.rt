//! The law of what a tap reads in the characters of a session: the function's contract. For the
//! proof: the body only cites another law.
ghost use Rattle.std.specs.Prelude.{◌≡◌, List, [], false};
ghost use Rattle.std.specs.List.{AllByRecursion};
ghost use Rattle.t0_core.specs.declared.heard.Heard.{Heard};
ghost use Rattle.t0_core.specs.Character.{Character};
ghost use Rattle.t0_core.specs.History.{IsByteEvent, passed};
ghost use Rattle.t0_core.specs.Plan.{Course};
ghost use Rattle.t0_core.specs.TapLine.{AreTold, HearsInTurn};
ghost use Rattle.t0_core.specs.TapSide.{afresh};
ghost use Rattle.t0_core.specs.Watch.{Hearing, Hears};
ghost use Rattle.apdu_core.specs.Shared.{Reply};
ghost use Rattle.object_card.specs.OneStep.{Operation};
ghost use Rattle.card_terminal.specs.Talk.{Talk};

use t0_core::TpduCard;
use t0_core::laws::a_tap_takes_dialogues_under_plans;

/// A fresh tap takes every character of a talk that a fresh watch heard without loss. It reports
/// the dialogues of the talk, in turn, and is then fresh again. The characters must be bytes. The
/// contract of `Session::run` states such a talk.
pub fn a_tap_follows_a_talk<C: TpduCard>()
    ensures { (first last : C.State) (plans left : List Course) (operations : List Operation)
        (replies : List Reply) (line : List Character) (hearing : Hearing)
        (talk : Talk C.Does first plans operations replies last left line) →
        Hears (record { heard = []; lost = false }) line hearing → hearing.lost ≡ false →
        AllByRecursion IsByteEvent (passed hearing.heard) →
        (told : List Heard) × HearsInTurn afresh hearing.heard told afresh
        × AreTold told talk.dialogues }
{
    a_tap_takes_dialogues_under_plans();
}
