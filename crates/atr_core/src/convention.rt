//! The two conventions for the bits of a character on the line.

ghost use Rattle.std.specs.Prelude.{◌≡◌};
ghost use Rattle.atr_core.specs.Answer.{ts};
ghost use Rattle.atr_core.specs.Conventions.{convention_of, convention_shown, as_sent};

use std::fmt;

/// How the bits of a character are sent (ISO/IEC 7816-3, 8.1).
#[derive(Clone, Copy, Debug, PartialEq, Eq)]
pub enum Convention {
    /// A high state is 1, and the lowest bit is sent first. TS is `3B`.
    Direct,
    /// A low state is 1, and the highest bit is sent first. TS is `3F`.
    Inverse,
}

impl Convention {
    /// Returns the convention of an answer with this TS. `None` if the byte is not a TS.
    pub fn of_ts(ts: u8) -> Option<Convention>
        ensures { result ≡ convention_of ts }
    {
        match ts {
            0x3B => Some(Convention::Direct),
            0x3F => Some(Convention::Inverse),
            _ => None,
        }
    }

    /// Returns the convention of a card, by its first byte as a receiver in direct convention reads
    /// it. `3B` is direct. `03` is inverse, since TS `3F` reads so. `None` for any other byte.
    pub fn of_line(first: u8) -> Option<Convention>
        ensures { result ≡ convention_shown first }
    {
        match first {
            0x3B => Some(Convention::Direct),
            0x03 => Some(Convention::Inverse),
            _ => None,
        }
    }

    /// The TS of this convention.
    pub fn ts(self) -> u8
        ensures { result ≡ ts self }
    {
        match self {
            Convention::Direct => 0x3B,
            Convention::Inverse => 0x3F,
        }
    }

    /// Converts between a byte and what a receiver in direct convention reads if it is sent in this
    /// convention. The same function converts both ways.
    pub fn turn(self, byte: u8) -> u8
        ensures { result ≡ as_sent self byte }
    {
        match self {
            Convention::Direct => byte,
            Convention::Inverse => !byte.reverse_bits(),
        }
    }
}

impl fmt::Display for Convention {
    ghost use Rattle.std.specs.Prelude.{Some};
    ghost use Rattle.atr_core.specs.ValueTexts.{convention_text};

    ghost output = { λ convention. Some (convention_text convention) };

    fn fmt<W: fmt::Write>(&self, f: &mut fmt::Formatter<W>) -> fmt::Result {
        f.write_str(match self {
            Convention::Direct => "direct",
            Convention::Inverse => "inverse",
        })
    }
}
