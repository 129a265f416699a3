//! The errors of giving a terminal's end a character.

use std::error::Error;
use std::fmt;

/// Why a terminal's end refuses a character (profile).
///
/// After `BadProcedure`, `TooLong` and `Stalled` the end has failed for good. After any other error
/// it is unchanged.
#[derive(Clone, Copy, Debug, PartialEq, Eq)]
pub enum LineFault {
    /// A procedure byte is expected, and this byte is neither one nor a SW1.
    BadProcedure(u8),
    /// The TPDU has ended, the end has failed, or no operation has begun.
    AfterEnd,
    /// A data character is expected from the card, and the gather is full.
    TooLong,
    /// A `GET RESPONSE` that the exchange added, with its repetition, brought no data, and the card
    /// announces more. Only an exchange of several TPDUs returns this.
    Stalled,
    /// The end has header or data characters to send first.
    NotListening,
}

impl fmt::Display for LineFault {
    ghost use Rattle.std.specs.Prelude.{Some};
    ghost use Rattle.t0_core.specs.FaultText.{fault_text};

    ghost output = { λ fault. Some (fault_text fault) };

    fn fmt<W: fmt::Write>(&self, f: &mut fmt::Formatter<W>) -> fmt::Result {
        match self {
            LineFault::BadProcedure(_) => f.write_str("bad procedure byte"),
            LineFault::AfterEnd => f.write_str("character after the end"),
            LineFault::TooLong => f.write_str("response too long"),
            LineFault::Stalled => f.write_str("response stalled"),
            LineFault::NotListening => f.write_str("character out of turn"),
        }
    }
}

impl Error for LineFault {}
