//! The errors of giving a tap a character.

use std::error::Error;
use std::fmt;

/// Why no dialogue that a tap can read continues with a character (ISO/IEC 7816-3, 10.3). After
/// either, the tap is unchanged.
#[derive(Clone, Copy, Debug, PartialEq, Eq)]
pub enum TapFault {
    /// The other end sends the next character.
    OutOfTurn,
    /// A procedure byte or SW1 is expected, and this byte is neither. If INS is `6X` or `9X`, only
    /// NULL is a procedure byte.
    BadProcedure,
}

impl fmt::Display for TapFault {
    ghost use Rattle.std.specs.Prelude.{Some};
    ghost use Rattle.t0_core.specs.TapSide.{tap_fault_text};

    ghost output = { λ fault. Some (tap_fault_text fault) };

    fn fmt<W: fmt::Write>(&self, f: &mut fmt::Formatter<W>) -> fmt::Result {
        match self {
            TapFault::OutOfTurn => f.write_str("character out of turn"),
            TapFault::BadProcedure => f.write_str("bad procedure byte"),
        }
    }
}

impl Error for TapFault {}
