//! Why the explanation of a trace stopped, or what it met, with the texts of these faults.
ghost use Rattle.std.specs.Prelude.{⊤};
ghost use Rattle.trace_explain.specs.Trace.{IsOfSink, IsOfWriting};

use crate::describe::complaint::Complaint;
use crate::follow::pair::PairFault;
use crate::follow::turn::TurnFault;
use crate::read::trace_line::LineFault;
use crate::write::notes::Excerpt;
use std::alloc::AllocError;
use std::{fmt, io};
use thiserror::Error;

/// Why an explanation stopped, or what it met. The program then ends with status 1, or with 0 after
/// `Closed`. Lines are counted from 1, places in a line from 0.
#[derive(Drop, Error)]
pub enum ExplainFault {
    /// A line is refused for this reason, never `OutOfMemory`. The lines before were explained.
    #[error("line {line}: {why}")]
    BadLine {
        line: u64,
        why: LineFault,
    },
    /// Without signs, the sender of a character is unknown. What precedes it was explained.
    #[error("line {line}, character {}: {why}", .place.saturating_add(1))]
    NoTurn {
        line: u64,
        place: usize,
        why: TurnFault,
    },
    /// A line exceeds `LINE_LIMIT` bytes. The lines before it were explained.
    #[error("line {line}: line too long")]
    LineTooLong {
        line: u64,
    },
    /// No dialogue continues with a character. What precedes it was explained.
    #[error("{0}")]
    NoDialogue(Complaint),
    /// No dialogue continues with some characters. The explanation continued after each, to the
    /// end. `first` is the first of them, and `complaints` their number.
    #[error("{first} (protocol errors: {complaints})")]
    Resumed {
        complaints: u64,
        first: Complaint,
    },
    /// The explanation passed over characters after an invalid answer to reset, whose sender is
    /// unknown, and continued at the next line `reset`. This is the first of them.
    #[error("line {line}, character {}: {} (skipped)", .place.saturating_add(1), TurnFault::Answer)]
    Skipped {
        line: u64,
        place: usize,
    },
    /// Commands or answers of a log are not those of a TPDU. The explanation continued, to the end.
    /// The first such command began in `line`, and `complaints` is their number.
    #[error("line {line}: unexpected command or answer: {why} \
        (protocol errors: {complaints})")]
    BadPairs {
        complaints: u64,
        line: u64,
        why: PairFault,
    },
    /// The trace has ended, and has notes, but no whole TPDU, answer to reset or PPS. This note is
    /// its first.
    #[error("line {line}: a note, and the trace has no whole TPDU, answer to reset or PPS: {note}")]
    NothingWhole {
        line: u64,
        note: Excerpt,
    },
    /// The trace has ended, and no block of T=1 was valid. This many were damaged, or cut off by
    /// the other end.
    #[error("no valid block of T=1 (invalid: {invalid})")]
    NoValidBlock {
        invalid: u64,
    },
    /// The trace has ended, and no line has a character of either end. This is the first line with
    /// bytes.
    #[error("line {line}: no form reads this line with bytes; try `--form`, `--tpdu` or \
        `--form-file`: {note}")]
    NoForm {
        line: u64,
        note: Excerpt,
    },
    /// The trace has ended, and no line has a character of either end, or bytes.
    #[error("no characters heard")]
    NoCharacters,
    /// The reader failed. The lines that ended before were explained.
    #[error("read fault")]
    Read,
    /// The writer failed. How much it took is unknown.
    #[error("write fault")]
    Write,
    /// Nobody reads the output any more, as with `| head`. The program ends, without a fault.
    #[error("closed output")]
    Closed,
    /// The trace exceeds `TRACE_LIMIT` bytes. Lines that ended in earlier chunks were explained.
    #[error("input too long")]
    InputTooLong,
    /// Memory ran out.
    #[error("out of memory")]
    OutOfMemory,
}

impl fmt::Debug for ExplainFault {
    fn fmt<W: fmt::Write>(&self, f: &mut fmt::Formatter<W>) -> fmt::Result {
        fmt::Display::fmt(self, f)
    }
}

impl ExplainFault {
    /// Returns the line of the trace that it names, if any.
    pub fn line(&mut self) -> Option<&mut u64> {
        match self {
            ExplainFault::BadLine { line, .. }
            | ExplainFault::NoTurn { line, .. }
            | ExplainFault::LineTooLong { line }
            | ExplainFault::Skipped { line, .. }
            | ExplainFault::BadPairs { line, .. }
            | ExplainFault::NothingWhole { line, .. }
            | ExplainFault::NoForm { line, .. } => Some(line),
            ExplainFault::NoDialogue(first) | ExplainFault::Resumed { first, .. } => {
                Some(&mut first.line)
            }
            _ => None,
        }
    }

    /// Returns the fault for an error of the writer.
    pub fn of_writing(error: &io::Error) -> ExplainFault
        ensures kind { IsOfWriting result }
        ensures sink { IsOfSink (λ _. ⊤) result }
    {
        match error.kind() {
            io::ErrorKind::BrokenPipe => ExplainFault::Closed,
            _ => ExplainFault::Write,
        }
    }
}

impl From<AllocError> for ExplainFault {
    ghost use Rattle.std.specs.Prelude.{◌≡◌};
    ghost use Rattle.trace_explain.specs.declared.explain_fault.ExplainFault.TheVariants.{OutOfMemory};

    ghost from_gives = { λ _ fault. fault ≡ OutOfMemory };

    fn from(_error: AllocError) -> ExplainFault {
        ExplainFault::OutOfMemory
    }
}
