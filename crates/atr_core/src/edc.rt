//! The error detection code of T=1 blocks.

use std::fmt;

/// The error detection code at the end of a T=1 block (ISO/IEC 7816-3, clause 11).
#[derive(Clone, Copy, Debug, PartialEq, Eq)]
pub enum Edc {
    /// One byte: the exclusive-or of all other bytes of the block.
    Lrc,
    /// Two bytes: a cyclic redundancy check.
    Crc,
}

impl fmt::Display for Edc {
    ghost use Rattle.std.specs.Prelude.{Some};
    ghost use Rattle.atr_core.specs.ValueTexts.{edc_text};

    ghost output = { λ edc. Some (edc_text edc) };

    fn fmt<W: fmt::Write>(&self, f: &mut fmt::Formatter<W>) -> fmt::Result {
        f.write_str(match self {
            Edc::Lrc => "LRC",
            Edc::Crc => "CRC",
        })
    }
}
