//! The errors of a script, with their texts.
use crate::script::reason::LineReason;
use std::alloc::AllocError;
use std::fmt;

/// Why a script of `play` or `card` was not carried out to its end.
#[derive(Drop)]
pub enum PlayFault {
    /// The line with this number, counted from 1, is refused; those before it were carried out, and
    /// their text was written.
    Script { line: usize, reason: LineReason },
    /// The reader failed; nothing was written.
    Read,
    /// The writer failed; it is not known how much it took.
    Write,
    /// The script has more than `SCRIPT_LIMIT` bytes, or no end; nothing was written.
    InputTooLong,
    /// Memory ran out. The lines up to some place, or none, were carried out, and their text was
    /// written.
    OutOfMemory,
}

impl fmt::Display for PlayFault {
    ghost use Rattle.std.specs.Prelude.{Some};
    ghost use Rattle.card_trace.specs.FaultTexts.{play_text};

    ghost output = { λ fault. Some (play_text fault) };

    fn fmt<W: fmt::Write>(&self, f: &mut fmt::Formatter<W>) -> fmt::Result {
        match self {
            PlayFault::Script { line, reason } => write!(f, "line {line}: {reason}"),
            PlayFault::Read => f.write_str("read fault"),
            PlayFault::Write => f.write_str("write fault"),
            PlayFault::InputTooLong => f.write_str("input too long"),
            PlayFault::OutOfMemory => f.write_str("out of memory"),
        }
    }
}

impl From<AllocError> for PlayFault {
    ghost use Rattle.std.specs.Prelude.{◌≡◌};
    ghost use Rattle.card_trace.specs.declared.play_fault.PlayFault.TheVariants.{OutOfMemory};

    ghost from_gives = { λ _ fault. fault ≡ OutOfMemory };

    fn from(_error: AllocError) -> PlayFault {
        PlayFault::OutOfMemory
    }
}
