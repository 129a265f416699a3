//! Compares two traces, TPDU by TPDU. It ignores procedure bytes: the number of NULLs depends on
//! time, and would hide what differs.

use crate::describe::mask::Mask;
use crate::explain::{CHUNK, TRACE_LIMIT, explain_chunk, explain_last};
use crate::explain_fault::ExplainFault;
use crate::explainer::Explainer;
use crate::follow::tpdu::Tpdu;
use crate::read::forms::FormsFault;
use crate::read::reading::Reading;
use crate::read::wide;
use crate::write::kept::Kept;
use crate::write::layout::Layout;
use crate::write::output::Output;
use crate::write::sheet::Sheet;
use crate::write::sink::Sink;
use std::alloc::{AllocError, Global};
use std::fmt;
use std::io::{Read, Write};
use thiserror::Error;

/// Why two traces can't be compared.
#[derive(Drop, Error)]
pub enum DiffFault {
    /// The file of this trace can't be opened: `A` or `B`.
    #[error("{0}: can't be opened")]
    Open(&'static str),
    /// This trace, `A` or `B`, has this fault, or memory ran out. Both begin with the same TPDUs.
    #[error("{0}: {1}")]
    Trace(&'static str, ExplainFault),
    /// The forms can't be read.
    #[error("{0}")]
    Forms(#[from] FormsFault),
    /// The writer failed. How much it took is unknown.
    #[error("write fault")]
    Write,
    /// Memory ran out.
    #[error("out of memory")]
    OutOfMemory(#[from] AllocError),
}

impl fmt::Debug for DiffFault {
    fn fmt<W: fmt::Write>(&self, f: &mut fmt::Formatter<W>) -> fmt::Result {
        fmt::Display::fmt(self, f)
    }
}

#[derive(Drop)]
struct Trace<'r, R: Read> {
    /// `A` or `B`.
    name: &'static str,
    alloc: Global,
    reader: &'r mut R,
    has_begun: bool,
    explainer: Explainer,
    size: usize,
    line: Vec<u8>,
    /// How many of the kept TPDUs were compared.
    passed: usize,
    is_over: bool,
    fault: Option<ExplainFault>,
}

/// Compares two traces, and writes the first TPDU that differs, and in what. If one trace ends
/// before the other, it writes the next TPDU of the other. If they are alike, it writes their
/// number of TPDUs. A page has this title. Returns whether they are alike, even if nobody reads
/// the output any more.
///
/// It ignores procedure bytes and what is between TPDUs. It compares cut TPDUs as far as received.
///
/// # Errors
///
/// - `Trace`: it has this fault, or memory ran out. No TPDU before differs. Nothing is written.
/// - `Write`: the writer failed.
/// - `OutOfMemory`: memory ran out outside of a line. Nothing is written.
pub fn diff<R: Read, S: Read, W: Write>(
    alloc: Global,
    layout: Layout,
    title: &str,
    mask: Mask,
    resumes: bool,
    readings: (Reading, Reading),
    readers: (&mut R, &mut S),
    writer: &mut W,
) -> Result<bool, DiffFault> {
    let (reader_a, reader_b) = readers;
    let other = mask.copied(alloc)?;
    let (reading_a, reading_b) = readings;
    let mut a = Trace::new(alloc, "A", layout, other, resumes, reading_a, reader_a);
    let mut b = Trace::new(alloc, "B", layout, mask, resumes, reading_b, reader_b);
    write_diff(alloc, layout, title, &mut a, &mut b, writer)
}

/// Compares two traces, and writes what `compare` adds.
fn write_diff<R: Read, S: Read, W: Write>(
    alloc: Global,
    layout: Layout,
    title: &str,
    a: &mut Trace<'_, R>,
    b: &mut Trace<'_, S>,
    writer: &mut W,
) -> Result<bool, DiffFault> {
    let mut output = Output::new(alloc, layout);
    output.page.begin(title);
    let mut words = Sheet::new(alloc, layout);
    let alike = compare(a, b, &mut words, &mut output)?;
    put_diff(&mut words, &mut output, writer)?;
    Ok(alike)
}

/// Writes in what two traces differ, and both sides.
fn put_diff<W: Write>(
    words: &mut Sheet,
    output: &mut Output,
    writer: &mut W,
) -> Result<(), DiffFault> {
    if output.page.is_html() {
        output.page.open_block();
        output.page.line_row("TPDUs", words.as_str());
        output.page.close_block();
        words.clear();
    }
    output.outcome()?;
    words.push_str(output.sheet.as_str());
    words.is_whole()?;
    match writer.put(words.as_str().as_bytes()) {
        Ok(()) | Err(ExplainFault::Closed) => Ok(()),
        Err(_) => Err(DiffFault::Write),
    }
}

/// Compares TPDUs up to the first that differs. Adds in what it differs to `words`, and both sides
/// to the output.
fn compare<R: Read, S: Read>(
    a: &mut Trace<'_, R>,
    b: &mut Trace<'_, S>,
    words: &mut Sheet,
    output: &mut Output,
) -> Result<bool, DiffFault> {
    for number in 1..u64::MAX {
        if let Some(alike) = pass(a, b, number, words, output)? {
            return Ok(alike);
        }
    }
    Ok(true)
}

/// Passes the TPDUs with this number, and returns what `alike` does.
fn pass<R: Read, S: Read>(
    a: &mut Trace<'_, R>,
    b: &mut Trace<'_, S>,
    number: u64,
    words: &mut Sheet,
    output: &mut Output,
) -> Result<Option<bool>, DiffFault> {
    let alike = alike(a.front()?, b.front()?, number, words, output);
    a.passed = a.passed.saturating_add(1);
    b.passed = b.passed.saturating_add(1);
    Ok(alike)
}

/// Compares the TPDUs with this number. Returns whether the traces are alike; `None` as long as
/// that is unknown.
fn alike(
    a: Option<&Kept>,
    b: Option<&Kept>,
    number: u64,
    words: &mut Sheet,
    output: &mut Output,
) -> Option<bool> {
    match (a, b) {
        (None, None) => push_before(words, "alike:", number, ""),
        (Some(kept), None) => {
            push_before(words, "B ends after", number, ", and A goes on:");
            push_side(output, "", "A:\n", kept);
        }
        (None, Some(kept)) => {
            push_before(words, "A ends after", number, ", and B goes on:");
            push_side(output, "", "B:\n", kept);
        }
        (Some(one), Some(other)) => {
            if !differ(words, number, &one.tpdu, &other.tpdu) {
                return None;
            }
            push_side(output, "A:\n", "A:\n", one);
            push_side(output, "B:\n", "B:\n", other);
        }
    }
    Some(a.is_none() && b.is_none())
}

/// Adds a line with the number of TPDUs before this one.
fn push_before(words: &mut Sheet, begin: &str, number: u64, end: &str) {
    let before = number.saturating_sub(1);
    let unit = if before == 1 { "TPDU" } else { "TPDUs" };
    writeln!(words, "{begin} {before} {unit}{end}");
}

/// Adds a TPDU of one trace, after the name of that. On a page its box is open, and has no name in
/// links.
fn push_side(output: &mut Output, in_text: &str, on_page: &str, kept: &Kept) {
    let text = kept.text.as_str();
    if !output.page.is_html() {
        output.sheet.push_str(in_text);
        output.sheet.push_str(text);
        return;
    }
    output.page.note_line(on_page);
    output.join();
    let (begin, named) = text.split_once(" id=\"").unwrap_or((text, ""));
    let (_, rest) = named.split_once("><summary>").unwrap_or(("", ""));
    output.sheet.push_str(begin);
    output.sheet.push_str(" open><summary>");
    output.sheet.push_str(rest);
}

/// Whether two TPDUs differ. Reports in what they differ.
fn differ(words: &mut Sheet, number: u64, one: &Tpdu, other: &Tpdu) -> bool {
    let moved = one.way == other.way && one.moved == other.moved && one.answer == other.answer;
    let parts = [
        ("header", one.header == other.header),
        ("data", moved),
        ("Le", one.le == other.le),
        ("status", one.status == other.status),
    ];
    let mut sign = "";
    for (name, is_same) in parts {
        if !is_same {
            if sign.is_empty() {
                write!(words, "TPDU {number} differs:");
            }
            write!(words, "{sign} {name}");
            sign = ",";
        }
    }
    if !sign.is_empty() {
        words.push_str("\n");
    }
    !sign.is_empty()
}

impl<'r, R: Read> Trace<'r, R> {
    /// Starts before its first byte.
    fn new(
        alloc: Global,
        name: &'static str,
        layout: Layout,
        mask: Mask,
        resumes: bool,
        reading: Reading,
        reader: &'r mut R,
    ) -> Trace<'r, R> {
        let mut explainer = Explainer::new(alloc, layout, "", mask, resumes, reading);
        explainer.teller.keeping.is_on = true;
        Trace {
            name,
            alloc,
            reader,
            has_begun: false,
            explainer,
            size: 0,
            line: Vec::new(alloc),
            passed: 0,
            is_over: false,
            fault: None,
        }
    }

    /// Returns the next TPDU; `None` after the last.
    ///
    /// # Errors
    ///
    /// - `Trace`: this fault stopped the trace, or came at its end.
    fn front(&mut self) -> Result<Option<&Kept>, DiffFault> {
        for _chunk in 0..u64::MAX {
            if self.is_over || self.passed < self.kept().len() {
                break;
            }
            self.renew()?;
        }
        if self.passed >= self.kept().len()
            && let Some(fault) = self.fault.take()
        {
            return Err(DiffFault::Trace(self.name, fault));
        }
        Ok(self.kept().get(self.passed))
    }

    /// Reads one more chunk in place of the kept TPDUs.
    fn renew(&mut self) -> Result<(), AllocError> {
        self.explainer.teller.keeping.all.clear();
        self.passed = 0;
        self.explainer.teller.output.sheet.clear();
        self.read()
    }

    /// Returns the kept TPDUs.
    fn kept(&self) -> &[Kept] {
        self.explainer.teller.keeping.all.as_slice()
    }

    /// Reads one more chunk, and keeps its TPDUs.
    fn read(&mut self) -> Result<(), AllocError> {
        match self.read_chunk() {
            Ok(true) => return Ok(()),
            Ok(false) => {}
            Err(fault) => self.fault = Some(fault),
        }
        self.is_over = true;
        self.explainer.end()
    }

    /// Explains the lines that end in one more chunk. In UTF-16 the first one is all of the trace.
    /// Returns false at the end of the trace.
    fn read_chunk(&mut self) -> Result<bool, ExplainFault> {
        if !self.has_begun {
            self.has_begun = true;
            let head = wide::begin(self.alloc, self.reader)?;
            self.size = head.len();
            explain_chunk(&mut self.explainer, head.as_slice(), &mut self.line)?;
            return Ok(true);
        }
        let mut chunk = [0; CHUNK];
        match self.reader.read(&mut chunk) {
            Ok(0) => {
                explain_last(&mut self.explainer, self.line.as_slice())?;
                self.explainer.outcome()?;
                Ok(false)
            }
            Ok(count) => {
                self.size = self.size.saturating_add(count);
                if self.size > TRACE_LIMIT {
                    return Err(ExplainFault::InputTooLong);
                }
                let bytes = &chunk[..count];
                explain_chunk(&mut self.explainer, bytes, &mut self.line)?;
                Ok(true)
            }
            Err(_) => Err(ExplainFault::Read),
        }
    }
}
