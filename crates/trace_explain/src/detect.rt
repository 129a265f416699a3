//! Finds the form of a trace by its first lines.

use crate::describe::mask::Mask;
use crate::explain::{explain_chunk, explain_last};
use crate::explain_fault::ExplainFault;
use crate::explainer::Explainer;
use crate::read::form_row::{Found, Rows, Saying, read_rows};
use crate::read::forms::{FORMS, Forms, FormsFault};
use crate::read::reading::{Options, Reading};
use crate::read::time::cut_time;
use crate::read::trace_line::LineFault;
use crate::write::layout::{Layout, Medium};
use std::alloc::{AllocError, Global};
use std::io::Read;

/// The most lines that are read before the form is known.
const LINES: usize = 256;

/// The most bytes of these, up to a last chunk.
const BYTES: usize = 65_536;

/// The number of lines for each command or answer that a form may refuse.
const FEW: usize = 8;

/// The layout of a try.
const LAYOUT: Layout = Layout {
    medium: Medium::Text,
    is_summary: true,
    joins: false,
};

/// Reads the first lines of a trace: at most `LINES`, or `BYTES`, and the rest of a chunk. A reader
/// that fails ends them.
pub fn head_of<R: Read>(alloc: Global, reader: &mut R) -> Result<Vec<u8>, AllocError> {
    let mut head = Vec::new(alloc);
    for _chunk in 0..BYTES {
        let mut chunk = [0; 1024];
        match reader.read(&mut chunk) {
            Ok(0) | Err(_) => break,
            Ok(count) => head.extend_from_slice(&chunk[..count])?,
        }
        if is_cut(head.as_slice()) {
            break;
        }
    }
    Ok(head)
}

/// Whether more may follow these first lines.
fn is_cut(head: &[u8]) -> bool {
    head.len() >= BYTES || head.iter().filter(|byte| **byte == b'\n').count() >= LINES
}

/// Returns the forms of whole commands that read most of these lines, if characters at T=0 read
/// fewer; or as many, and not without a fault. The first form in the table comes first. If none
/// reads them without a fault, those that refuse few commands or answers count.
pub fn forms_of(
    alloc: Global,
    options: &Options<'_>,
    head: &[u8],
) -> Result<Vec<&'static str>, FormsFault> {
    let forms = Forms::of(alloc, FORMS)?;
    let (count, is_read) = read_by(alloc, options, &forms, head, 1)?;
    let mut most = count.saturating_sub(usize::from(!is_read));
    let mut found = Vec::new(alloc);
    for form in &forms.forms {
        if form.is_whole {
            try_form(
                alloc, options, &forms, head, form.name, &mut most, &mut found,
            )?;
        }
    }
    if found.is_empty() && !is_read {
        return refusing_few(alloc, options, &forms, head, count);
    }
    Ok(found)
}

/// Returns the forms of whole commands that read most of these lines, `least` or more, and refuse
/// at most one command or answer for each `FEW` lines; any number if `least` is 0. If they read
/// more than `least`, a line may also end what they read.
fn refusing_few(
    alloc: Global,
    options: &Options<'_>,
    forms: &Forms<'static>,
    head: &[u8],
    least: usize,
) -> Result<Vec<&'static str>, FormsFault> {
    let (mut most, mut found) = (least, Vec::new(alloc));
    for form in &forms.forms {
        if form.is_whole {
            let tried = Options {
                form: Some(form.name),
                ..*options
            };
            let reading = tried.reading(alloc, forms)?;
            let count = lines_read(alloc, &reading.rows, whole_lines(head))?;
            let few = if least == 0 { count } else { count / FEW };
            let is_more = count > least;
            if count >= most && refuses_few(alloc, reading, head, few, is_more) {
                if count > most {
                    found.clear();
                }
                most = count;
                found.push(form.name)?;
            }
        }
    }
    Ok(found)
}

/// Whether commands or answers are all that is refused of these lines, and at most `few`. Or, if
/// `may_end`, a line that shows that bytes before it are lost or of another reader.
fn refuses_few(alloc: Global, reading: Reading, head: &[u8], few: usize, may_end: bool) -> bool {
    match outcome_of(alloc, reading, head) {
        Err(ExplainFault::BadPairs { complaints, .. }) => complaints <= few as u64,
        Err(ExplainFault::BadLine { why, .. }) => {
            may_end && matches!(why, LineFault::Loose | LineFault::Mixed)
        }
        _ => false,
    }
}

/// Adds a form to those that read `most` lines if it reads as many, or in their place if it reads
/// more.
fn try_form(
    alloc: Global,
    options: &Options<'_>,
    forms: &Forms<'static>,
    head: &[u8],
    name: &'static str,
    most: &mut usize,
    found: &mut Vec<&'static str>,
) -> Result<(), FormsFault> {
    let tried = Options {
        form: Some(name),
        ..*options
    };
    let least = most.saturating_add(usize::from(found.is_empty()));
    let (count, is_read) = read_by(alloc, &tried, forms, head, least)?;
    if !is_read {
        return Ok(());
    }
    if count > *most {
        found.clear();
    }
    *most = count;
    Ok(found.push(name)?)
}

/// Returns how many of these lines have bytes or a reset in a form, and whether it reads them
/// without a fault. It does not if these are fewer than `least`.
fn read_by(
    alloc: Global,
    options: &Options<'_>,
    forms: &Forms<'_>,
    head: &[u8],
    least: usize,
) -> Result<(usize, bool), FormsFault> {
    let reading = options.reading(alloc, forms)?;
    let count = lines_read(alloc, &reading.rows, whole_lines(head))?;
    Ok((count, count >= least && is_read(alloc, reading, head)))
}

/// Whether these lines have no fault. What is open where they are cut off may be whole behind it.
fn is_read(alloc: Global, reading: Reading, head: &[u8]) -> bool {
    match outcome_of(alloc, reading, head) {
        Ok(()) => true,
        Err(ExplainFault::NothingWhole { .. }) => is_cut(head),
        Err(_) => false,
    }
}

/// Explains these lines with a reading of its own.
fn outcome_of(alloc: Global, reading: Reading, head: &[u8]) -> Result<(), ExplainFault> {
    let mask = Mask::none(alloc);
    let mut explainer = Explainer::new(alloc, LAYOUT, "", mask, false, reading);
    let mut line = Vec::new(alloc);
    explained(&mut explainer, head, &mut line)
}

/// Explains these lines. If they are cut off, it leaves open what is open there.
fn explained(
    explainer: &mut Explainer,
    head: &[u8],
    line: &mut Vec<u8>,
) -> Result<(), ExplainFault> {
    explain_chunk(explainer, whole_lines(head), line)?;
    if !is_cut(head) {
        explain_last(explainer, line.as_slice())?;
        explainer.end()?;
    }
    explainer.outcome()
}

/// Returns how many of these lines have bytes or a reset.
fn lines_read(alloc: Global, rows: &Rows, lines: &[u8]) -> Result<usize, AllocError> {
    let mut count: usize = 0;
    for line in lines.split(|byte| *byte == b'\n') {
        let (_, text) = cut_time(line.strip_suffix(b"\r").unwrap_or(line));
        if !matches!(
            read_rows(alloc, rows.first.as_slice(), 0, text)?,
            Found::Other | Found::Unread | Found::Row(_, Saying::Note | Saying::On | Saying::Off, _)
        ) {
            count = count.saturating_add(1);
        }
    }
    Ok(count)
}

/// Returns these first lines without one that is cut off: up to the last LF, with it. All if no
/// more follow, or without LF.
fn whole_lines(head: &[u8]) -> &[u8] {
    if !is_cut(head) {
        return head;
    }
    for behind in 0..head.len() {
        let size = head.len() - behind;
        if head[size - 1] == b'\n' {
            return &head[..size];
        }
    }
    head
}
