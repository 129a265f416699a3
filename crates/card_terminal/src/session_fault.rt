//! The error of a session that runs a command or operations.
use std::alloc::AllocError;
use std::error::Error;
use std::fmt;
use t0_core::LineFault;

/// Why a session has no answer to a command.
#[derive(Clone, Copy, Debug, PartialEq, Eq)]
pub enum SessionFault {
    /// Memory ran out; no character of the command was sent.
    OutOfMemory,
    /// The response exceeds the room (`TooLong`), or the card announces data that it does not send
    /// (`Stalled`). The card was reset.
    Line(LineFault),
}

impl fmt::Display for SessionFault {
    ghost use Rattle.std.specs.Prelude.{Some};
    ghost use Rattle.card_terminal.specs.FaultText.{session_text};

    ghost output = { λ fault. Some (session_text fault) };

    fn fmt<W: fmt::Write>(&self, f: &mut fmt::Formatter<W>) -> fmt::Result {
        match self {
            SessionFault::OutOfMemory => f.write_str("out of memory"),
            SessionFault::Line(fault) => fault.fmt(f),
        }
    }
}

impl Error for SessionFault {}

impl From<AllocError> for SessionFault {
    ghost use Rattle.std.specs.Prelude.{◌≡◌};
    ghost use Rattle.card_terminal.specs.declared.session_fault.SessionFault.TheVariants.{OutOfMemory};

    ghost from_gives = { λ _ fault. fault ≡ OutOfMemory };

    fn from(_: AllocError) -> SessionFault {
        SessionFault::OutOfMemory
    }
}
