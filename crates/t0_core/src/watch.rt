//! Watches, which observe each character on a line.
ghost use Rattle.std.specs.Prelude.{◌≡◌, ℕ, List, [], ◌∷◌, true};
ghost use Rattle.t0_core.specs.Watch.{Hearing, Hears};

use crate::end::End;

/// Observes each character on a line, in order.
pub trait Watch {
    /// What it has recorded, and whether it has lost a character.
    ghost hearing: { Self → Hearing };

    /// Called for each character on the line; `from` is the end that sent it. The watch records it
    /// or loses it; once it has lost one, it records no more.
    fn seen(&mut self, from: End, byte: u8)
        ensures { Hears (hearing self.old) ((from, byte) ∷ []) (hearing self.new) };
}

/// A watch that records nothing: it has lost everything from the start.
#[derive(Clone, Copy, Debug, PartialEq, Eq)]
pub struct Silent;

impl Watch for Silent {
    ghost hearing = { λ _. record { heard = []; lost = true } };

    fn seen(&mut self, _from: End, _byte: u8) {}
}
