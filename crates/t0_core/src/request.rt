//! The TPDU that a terminal's end opens: its header, P3 and data.
ghost use Rattle.std.specs.Prelude.{◌≡◌, ◌<◌, ◌++◌, [], ◌∷◌, slice_index};
ghost use Rattle.apdu_core.specs.HeaderBytes.{header_bytes};
ghost use Rattle.t0_core.specs.Dialogue.{foreseen};
ghost use Rattle.t0_core.specs.HostView.{direction_of};

use crate::direction::Direction;
use apdu_core::Header;

/// The direction of a TPDU's data.
#[derive(Clone, Copy, Debug)]
pub enum Transfer<'a> {
    /// The terminal sends these bytes, at most 255.
    Sending(&'a [u8]),
    /// The card sends up to the number of bytes that P3 states.
    Asking,
}

/// The TPDU that a terminal's end opens.
#[derive(Clone, Copy, Debug)]
pub struct Request<'a> {
    pub header: Header,
    /// The number of data characters; from the card, `00` means 256.
    pub p3: u8,
    pub transfer: Transfer<'a>,
}

/// One of the five characters that open a TPDU: CLA INS P1 P2 P3.
#[inline(always)]
pub(crate) fn opening_character(header: &Header, p3: u8, at: usize) -> u8
    requires { at < 5 }
    ensures { result ≡ slice_index (header_bytes header.now ++ p3 ∷ []) at }
{
    match at {
        0 => header.cla,
        1 => header.ins,
        2 => header.p1,
        3 => header.p2,
        _ => p3,
    }
}

/// The number of data characters that P3 states in this transfer.
pub(crate) fn foreseen(transfer: &Transfer, p3: u8) -> u16
    ensures { result ≡ foreseen (direction_of transfer.now) p3 }
{
    let direction = match transfer {
        Transfer::Sending(_) => Direction::ToCard,
        Transfer::Asking => Direction::FromCard,
    };
    direction.foreseen(p3)
}
