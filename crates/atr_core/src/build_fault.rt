//! The errors of making an answer of its parts.

use std::fmt;

/// Why an answer cannot be made of its parts. If several reasons hold, the error is the first.
#[derive(Clone, Copy, Debug, PartialEq, Eq, Hash)]
pub enum BuildFault {
    /// There are more than 15 historical bytes.
    TooManyHistorical,
    /// A T is above 15, below the T before it, or 15 in TD1.
    OutOfOrder,
    /// The answer would have more than 32 characters after TS.
    TooLong,
}

impl fmt::Display for BuildFault {
    ghost use Rattle.std.specs.Prelude.{Some};
    ghost use Rattle.atr_core.specs.FaultText.{build_text};

    ghost output = { λ fault. Some (build_text fault) };

    fn fmt<W: fmt::Write>(&self, f: &mut fmt::Formatter<W>) -> fmt::Result {
        f.write_str(match self {
            BuildFault::TooManyHistorical => "too many historical bytes",
            BuildFault::OutOfOrder => "T out of order",
            BuildFault::TooLong => "too long",
        })
    }
}

impl std::error::Error for BuildFault {}
