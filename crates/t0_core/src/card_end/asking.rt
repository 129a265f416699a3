//! What a card's end asks its card next, and changes to the card amid a TPDU.
ghost use Rattle.std.specs.Prelude.{◌≡◌, ℕ, List, false, MatchOption, Option, None};
ghost use Rattle.std.specs.Fn.{FnOnceReturnsAtMut, FnOnceTakesAtMut};
ghost use Rattle.std.specs.Option.{option_map};
ghost use Rattle.t0_core.specs.CardView.{IsHeld, stage_of};
ghost use Rattle.t0_core.specs.CardSide.{Taking_header, begins_with, takes_plan, whole_data};

use super::{CardEnd, Phase};
use crate::tpdu_card::{Open, TpduCard};
use apdu_core::Header;

impl<C: TpduCard> CardEnd<C> {
    /// Returns the header and P3 that the card judges next (`TpduCard::header`), once they are
    /// complete.
    pub fn whole_header(&self) -> Option<(Header, u8)>
        ensures { MatchOption result (takes_plan self.now.stage ≡ false)
            (λ ask. self.now.stage ≡ Taking_header (begins_with ask.0 ask.1)) }
    {
        header_at(&self.phase)
    }

    /// Returns the terminal's data, once they are complete and the card has not taken them
    /// (`TpduCard::data`).
    pub fn whole_data(&self) -> Option<&[u8]>
        ensures { option_map (λ bytes. bytes.now) result ≡ whole_data self.now.stage }
    {
        data_at(&self.phase, &self.came)
    }
}

impl<C: TpduCard + Open> CardEnd<C> {
    /// Lends the card to `f`, whose contract must accept it, between any two characters. `f` must
    /// not change what the card has prepared. The end itself stays as it is.
    pub fn with_card<F, R>(&mut self, f: F) -> R
    where
        F: FnOnce(&mut C) -> R,
        requires takes { FnOnceTakesAtMut F.FnOnce f self.old.card }
        requires keeps { (result : R) (card : C) →
            FnOnceReturnsAtMut F.FnOnce f self.old.card result card →
            C.prepared card ≡ C.prepared self.old.card }
        ensures stage { self.new.stage ≡ self.old.stage }
        ensures card { FnOnceReturnsAtMut F.FnOnce f self.old.card result self.new.card }
    {
        f(&mut self.card)
    }
}

/// The header and P3, once they are complete.
fn header_at(phase: &Phase) -> Option<(Header, u8)>
    requires { IsHeld phase.now }
    ensures { (came : List ℕ) → MatchOption result (takes_plan (stage_of phase.now came) ≡ false)
        (λ ask. stage_of phase.now came ≡ Taking_header (begins_with ask.0 ask.1)) }
{
    let Phase::Opening { bytes, taken: 5 } = phase else {
        return None;
    };
    let [cla, ins, p1, p2, p3] = *bytes;
    Some((Header { cla, ins, p1, p2 }, p3))
}

/// The terminal's data, once they are complete.
fn data_at<'a>(phase: &Phase, came: &'a [u8; 255]) -> Option<&'a [u8]>
    requires { IsHeld phase.now }
    ensures { option_map (λ bytes. bytes.now) result ≡ whole_data (stage_of phase.now came.now) }
{
    match phase {
        Phase::Accepted { service } => service.whole_data(came),
        Phase::Opening { .. } | Phase::Refused { .. } | Phase::SecondStatus { .. } => None,
    }
}
