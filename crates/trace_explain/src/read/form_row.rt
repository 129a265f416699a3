//! Rows of forms of logs, and the first row that a line is.
ghost use Rattle.std.specs.Prelude.{◌≡◌, IfOk};
ghost use Rattle.trace_explain.specs.Patterns.{commits, reads, reads_as};

use crate::read::pattern::{Marks, Part, begun, marks_in};
use crate::read::trace_line::LineFault;
use std::alloc::{AllocError, Global};
use t0_core::End;

/// What a line of a row says.
#[derive(Clone, Copy)]
pub enum Saying {
    /// This end sends bytes.
    Sends(End),
    /// A command, and behind it its answer.
    Both,
    /// A command and its answer, in two fields.
    Apart,
    /// The card was reset.
    Reset,
    /// The card was reset, and answered so.
    Atr,
    /// It continues the bytes of the line before.
    Rest,
    /// The same, unless the answer before ends with a status.
    Perhaps,
    /// Something else.
    Note,
    /// The same. Bytes count again from here on.
    On,
    /// The same. Bytes don't count from here on.
    Off,
}

impl Saying {
    /// The same of the other end.
    pub fn swapped(self) -> Saying {
        match self {
            Saying::Sends(End::Terminal) => Saying::Sends(End::Card),
            Saying::Sends(End::Card) => Saying::Sends(End::Terminal),
            other => other,
        }
    }
}

/// A row of a form: the beginning of its lines, and the rest.
#[derive(Drop)]
pub struct Row {
    /// The place of the form among all forms.
    pub form: usize,
    /// What its lines say.
    pub says: Saying,
    /// The beginning of its lines, up to their first text.
    pub head: Vec<Part>,
    /// What follows.
    pub tail: Vec<Part>,
}

/// The rows of a trace.
#[derive(Drop)]
pub struct Rows {
    /// Those of any line.
    pub first: Vec<Row>,
    /// Those of a line that continues the line before.
    pub rest: Vec<Row>,
}

impl Rows {
    /// No rows.
    pub fn none(alloc: Global) -> Rows {
        Rows {
            first: Vec::new(alloc),
            rest: Vec::new(alloc),
        }
    }

    /// Appends a row.
    pub fn push(&mut self, row: Row) -> Result<(), AllocError> {
        match row.says {
            Saying::Rest | Saying::Perhaps => Ok(self.rest.push(row)?),
            _ => Ok(self.first.push(row)?),
        }
    }
}

/// How rows read a line.
#[derive(Drop)]
pub enum Found {
    /// It begins like no row with bytes.
    Other,
    /// It only begins like a row with bytes.
    Unread,
    /// The first row that it is: its form, what it says, and what it marks.
    Row(usize, Saying, Marks),
}

impl Row {
    /// Returns a copy, or `AllocError` if memory ran out.
    pub fn copied(&self) -> Result<Row, AllocError> {
        Ok(Row {
            head: self.head.clone()?,
            tail: self.tail.clone()?,
            ..*self
        })
    }

    /// Whether a line that only begins like this row can't be read.
    fn commits(&self) -> bool
        ensures { result ≡ commits self.now }
    {
        matches!(self.says, Saying::Sends(_) | Saying::Both | Saying::Apart)
            && !self.head.is_empty()
    }
}

/// Returns how these rows read a line. `left` is the number of bytes that are left of a dump.
/// Returns `AllocError` if memory ran out.
pub fn read_rows(alloc: Global, rows: &[Row], left: usize, line: &[u8]) -> Result<Found, AllocError>
    ensures { IfOk result (λ found. reads_as found ≡ reads rows.now left line.now) }
{
    let mut is_bad = false;
    for row in rows {
        let Some(rest) = begun(row.head.as_slice(), line) else {
            continue;
        };
        match marks_in(alloc, row.tail.as_slice(), left, rest) {
            Ok(marks) => return Ok(Found::Row(row.form, row.says, marks)),
            Err(LineFault::OutOfMemory) => return Err(AllocError),
            Err(_) => is_bad = is_bad || row.commits(),
        }
    }
    Ok(if is_bad { Found::Unread } else { Found::Other })
}
