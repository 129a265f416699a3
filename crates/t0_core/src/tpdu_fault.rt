//! The errors of carrying out a whole TPDU at a card's end.

use std::error::Error;
use std::fmt;

/// Why a card's end does not carry out a whole TPDU (profile).
///
/// After `UnderWay` and `NoTpdu` nothing has changed. After any other error the card is reset.
#[derive(Clone, Copy, Debug, PartialEq, Eq)]
pub enum TpduFault {
    /// Characters of another TPDU were sent already.
    UnderWay,
    /// The bytes are not a whole TPDU (see `WholeTpdu::read`).
    NoTpdu,
    /// The card expects data, and none were given, so both ends would wait.
    WantsData,
    /// The card sends data, and none may come back.
    SendsData,
    /// The card sends more data than the gather has room for.
    TooLong,
}

impl fmt::Display for TpduFault {
    ghost use Rattle.std.specs.Prelude.{Some};
    ghost use Rattle.t0_core.specs.FaultText.{tpdu_fault_text};

    ghost output = { λ fault. Some (tpdu_fault_text fault) };

    fn fmt<W: fmt::Write>(&self, f: &mut fmt::Formatter<W>) -> fmt::Result {
        match self {
            TpduFault::UnderWay => f.write_str("another TPDU is under way"),
            TpduFault::NoTpdu => f.write_str("no whole TPDU"),
            TpduFault::WantsData => f.write_str("card takes data that were not given"),
            TpduFault::SendsData => f.write_str("card sends data that were not asked for"),
            TpduFault::TooLong => f.write_str("response too long"),
        }
    }
}

impl Error for TpduFault {}
