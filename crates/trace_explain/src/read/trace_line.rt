//! The lines of a trace of characters, with or without signs.
ghost use Rattle.std.specs.Prelude.{◌≡◌, IfOk, IfErr};
ghost use Rattle.trace_explain.specs.Lines.{Says, SaysSigned, SaysUnsigned, IsBadLine, IsBadSigned, IsBadUnsigned};
ghost use Rattle.trace_explain.specs.Patterns.{reads_as};
ghost use Rattle.trace_explain.specs.Times.{behind_time, time_in};

use crate::read::digits::{is_digits, spelled};
use crate::read::entry::{Entry, Source};
use crate::read::form_row::{Found, Saying, read_rows};
use crate::read::forms::Signs;
use crate::read::reading::Reading;
use crate::read::time::behind_clock;
use std::alloc::{AllocError, Global};
use thiserror::Error;

/// Why a line is refused.
#[derive(Clone, Copy, Debug, Error)]
pub enum LineFault {
    /// It begins with a sign, and something other than a space and two digits for each byte
    /// follows. A sign alone is valid. With `--unsigned`: it has digits and spaces alone, but not
    /// two digits for each byte. In a log: it begins as a line with bytes, or continues a dump, and
    /// does not spell bytes.
    #[error("bad hex")]
    Hex,
    /// Its sign has another form than this one, which `--form` or a line before gave.
    #[error("a sign of another form than {}", Signs(*.0))]
    OtherForm(usize),
    /// It has digits alone, perhaps after a time; no line before has a sign; no `--form`.
    #[error("no sign says which end sent these digits, and no line before has one: \
        `--unsigned` reads such lines")]
    NoSign,
    /// It begins with a sign, and `--unsigned` expects none.
    #[error("a sign, and with `--unsigned` lines have none")]
    Signed,
    /// In a log it follows an answer of 16 bytes. With it, and without it, that ends with a status.
    #[error("bytes that may continue the answer before, which is whole without them")]
    Twofold,
    /// In a log it has digits alone, right behind a line with bytes, and continues none.
    #[error("digits that continue no line: the line before may be cut")]
    Loose,
    /// In a log it belongs to another thread, process or reader than the command before.
    #[error("another thread, process or reader than the command before: give the lines of one")]
    Mixed,
    /// In a log it continues an answer or a dump that exceeds `READ_LIMIT` bytes.
    #[error("line too long")]
    TooLong,
    /// In a log it is an answer that looks like characters of T=0.
    #[error("an answer that begins with INS: these look like characters of T=0, \
        which are read without `--tpdu`")]
    Characters,
    /// Memory ran out.
    #[error("out of memory")]
    OutOfMemory,
}

impl From<AllocError> for LineFault {
    ghost use Rattle.std.specs.Prelude.{◌≡◌};
    ghost use Rattle.trace_explain.specs.declared.read.trace_line.LineFault.TheVariants.{OutOfMemory};

    ghost from_gives = { λ _ why. why ≡ OutOfMemory };

    fn from(_error: AllocError) -> LineFault {
        LineFault::OutOfMemory
    }
}

/// Reads a line. `time` is its time, `rest` what follows without leading spaces. The sender is the
/// end of the sign, whatever `--swap` says.
///
/// # Errors
///
/// Those of `LineFault`; `Hex` precedes `OtherForm`.
pub fn read_line(
    alloc: Global,
    reading: &Reading,
    line: &[u8],
    time: &[u8],
    rest: &[u8],
) -> Result<Entry, LineFault>
    requires time { time.now ≡ time_in line.now }
    requires rest { rest.now ≡ behind_time line.now }
    ensures says { IfOk result (λ entry. Says reading.now line.now entry) }
    ensures refused { IfErr result (λ why. IsBadLine why reading.now line.now) }
{
    let found = read_rows(alloc, reading.rows.first.as_slice(), 0, rest)?;
    if reading.is_unsigned {
        read_unsigned(alloc, line, time, rest, &found)
    } else {
        read_signed(reading.form, is_digits(line) || is_digits(rest), found)
    }
}

/// Reads a line of a trace with signs; `known` is their form. `digits`: it has digits alone.
fn read_signed(known: Option<usize>, digits: bool, found: Found) -> Result<Entry, LineFault>
    ensures says { IfOk result (λ entry. SaysSigned known digits (reads_as found) entry) }
    ensures refused { IfErr result (λ why. IsBadSigned why known digits (reads_as found)) }
{
    match found {
        Found::Other if known.is_none() && digits => Err(LineFault::NoSign),
        Found::Other | Found::Row(_, Saying::Note, _) => Ok(Entry::Note),
        Found::Row(_, Saying::Reset, _) => Ok(Entry::Reset),
        Found::Row(form, Saying::Sends(from), marks) => match known {
            Some(expected) if expected != form => Err(LineFault::OtherForm(expected)),
            _ => Ok(Entry::Characters(Source::Sign(form, from), marks.all()?)),
        },
        _ => Err(LineFault::Hex),
    }
}

/// Reads a line of a trace without signs. `found`: how rows read what follows its time.
///
/// # Errors
///
/// - `Hex`: it has digits and spaces alone, but not two digits for each byte.
/// - `Signed`: it begins with a sign.
fn read_unsigned(
    alloc: Global,
    line: &[u8],
    time: &[u8],
    rest: &[u8],
    found: &Found,
) -> Result<Entry, LineFault>
    requires time { time.now ≡ time_in line.now }
    requires rest { rest.now ≡ behind_time line.now }
    ensures says { IfOk result (λ entry. SaysUnsigned line.now (reads_as found.now) entry) }
    ensures refused { IfErr result (λ why. IsBadUnsigned why line.now (reads_as found.now)) }
{
    let digits = behind_clock(line, time, rest);
    if is_digits(digits) {
        let bytes = spelled(alloc, false, digits)?;
        return Ok(Entry::Characters(Source::Turn, bytes));
    }
    match found {
        Found::Row(_, Saying::Reset, _) => Ok(Entry::Reset),
        Found::Row(_, Saying::Note, _) | Found::Other => Ok(Entry::Note),
        _ => Err(LineFault::Signed),
    }
}
