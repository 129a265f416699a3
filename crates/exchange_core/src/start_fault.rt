//! The error of making an exchange or a terminal with a limit.
use std::alloc::AllocError;
use std::error::Error;
use std::fmt;

/// Why no exchange or terminal was made with a limit on the bytes of a response.
#[derive(Clone, Copy, Debug, PartialEq, Eq)]
pub enum StartFault {
    /// Memory ran out, for the response or for the copy of the command's data.
    OutOfMemory,
    /// The limit exceeds `RESPONSE_LIMIT`.
    OverLimit,
}

impl fmt::Display for StartFault {
    ghost use Rattle.std.specs.Prelude.{Some};
    ghost use Rattle.exchange_core.specs.FaultText.{start_text};

    ghost output = { λ fault. Some (start_text fault) };

    fn fmt<W: fmt::Write>(&self, f: &mut fmt::Formatter<W>) -> fmt::Result {
        match self {
            StartFault::OutOfMemory => f.write_str("out of memory"),
            StartFault::OverLimit => f.write_str("the limit is over 16384 bytes"),
        }
    }
}

impl Error for StartFault {}

impl From<AllocError> for StartFault {
    ghost use Rattle.std.specs.Prelude.{◌≡◌};
    ghost use Rattle.exchange_core.specs.declared.start_fault.StartFault.TheVariants.{OutOfMemory};

    ghost from_gives = { λ _ fault. fault ≡ OutOfMemory };

    fn from(_: AllocError) -> StartFault {
        StartFault::OutOfMemory
    }
}
