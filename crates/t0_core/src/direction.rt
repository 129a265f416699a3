//! The direction of a TPDU's data.
ghost use Rattle.std.specs.Prelude.{◌≡◌, ◌≤◌};
ghost use Rattle.t0_core.specs.Dialogue.{foreseen};
ghost use Rattle.t0_core.specs.TapSide.{direction_from};

use crate::end::End;
use apdu_core::count;

/// The direction of a TPDU's data (ISO/IEC 7816-3, 10.3.1).
#[derive(Clone, Copy, Debug, PartialEq, Eq)]
pub enum Direction {
    /// From the terminal to the card.
    ToCard,
    /// From the card to the terminal.
    FromCard,
}

impl Direction {
    /// The direction of data that this end sends.
    pub(crate) fn from_sender(from: End) -> Direction
        ensures { result ≡ direction_from from }
    {
        match from {
            End::Terminal => Direction::ToCard,
            End::Card => Direction::FromCard,
        }
    }

    /// The number of data characters that P3 states, 0 to 256 (ISO/IEC 7816-3, 10.3.2).
    pub(crate) fn foreseen(self, p3: u8) -> u16
        ensures value { result ≡ foreseen self p3 }
        ensures range { result ≤ 256 }
    {
        match self {
            Direction::ToCard => u16::from(p3),
            Direction::FromCard => count(p3),
        }
    }
}
