//! The error of beginning an operation at a terminal.
use std::alloc::AllocError;
use std::error::Error;
use std::fmt;

/// Why no operation has begun. After either, the terminal is unchanged.
#[derive(Clone, Copy, Debug, PartialEq, Eq)]
pub enum BeginFault {
    /// Memory ran out, for the response or for the copy of the operation's data.
    OutOfMemory,
    /// Another operation is in progress.
    UnderWay,
}

impl fmt::Display for BeginFault {
    ghost use Rattle.std.specs.Prelude.{Some};
    ghost use Rattle.card_terminal.specs.FaultText.{begin_text};

    ghost output = { λ fault. Some (begin_text fault) };

    fn fmt<W: fmt::Write>(&self, f: &mut fmt::Formatter<W>) -> fmt::Result {
        match self {
            BeginFault::OutOfMemory => f.write_str("out of memory"),
            BeginFault::UnderWay => f.write_str("an operation is under way"),
        }
    }
}

impl Error for BeginFault {}

impl From<AllocError> for BeginFault {
    ghost use Rattle.std.specs.Prelude.{◌≡◌};
    ghost use Rattle.card_terminal.specs.declared.terminal.begin_fault.BeginFault.TheVariants.{OutOfMemory};

    ghost from_gives = { λ _ fault. fault ≡ OutOfMemory };

    fn from(_: AllocError) -> BeginFault {
        BeginFault::OutOfMemory
    }
}
