//! Explains a whole trace: reads it in chunks, and gives its lines to an `Explainer`.
ghost use Rattle.std.specs.Prelude.{◌≡◌, ◌≤◌, ◌<◌, ◌+◌, ◌++◌, List, [], ℕ, false, true, get_or, length, take, IfErr, IfSome, OnOk};
ghost use Rattle.std.specs.Io.KnownBytes.{Appends};
ghost use Rattle.std.specs.String.{string_bytes};
ghost use Rattle.std.specs.Str.Lines.{strip_carriage_return};
ghost use Rattle.trace_explain.specs.declared.describe.mask.Mask.{Mask};
ghost use Rattle.trace_explain.specs.declared.read.reading.Reading.{Reading};
ghost use Rattle.trace_explain.specs.declared.write.layout.Layout.{Layout};
ghost use Rattle.trace_explain.specs.Account.{HasWritten, Out, WritesOut, WritesReports, first_out, out_with};
ghost use Rattle.trace_explain.specs.Explained.{position_of};
ghost use Rattle.trace_explain.specs.Trace.{AreOfLine, HasLeft, HasReceived, IsExplained, IsOfLines, IsOfSink, IsOfWriting, IsReady, IsWhole, KeepsLimit, StopsIn, lines_of};

use crate::describe::mask::Mask;
use crate::explain_fault::ExplainFault;
use crate::explainer::Explainer;
use crate::read::reading::Reading;
use crate::write::layout::Layout;
use crate::write::sheet::Sheet;
use crate::write::sink::Sink;
use std::alloc::{AllocError, Global};
use std::io::Read;

/// The most bytes of a trace (this project's profile).
pub const TRACE_LIMIT: usize = 1_099_511_627_776;

/// The most bytes of a line, with its CR and without its LF (this project's profile).
pub const LINE_LIMIT: usize = 4_194_304;

/// How many bytes a reader is asked for at once.
pub const CHUNK: usize = 16_384;

/// Writes what a trace means. If it resumes, it continues after an unexpected character.
///
/// # Errors
///
/// The first fault. `Resumed`, `BadPairs`, `Skipped`, `NothingWhole` and `NoValidBlock` come only
/// after the whole trace. But if the writer then fails, or memory runs out, it is that. What
/// precedes the fault is written, with the last block, unless the writer failed or memory ran out.
pub fn explain<R: Read, W: Sink>(
    alloc: Global,
    layout: Layout,
    title: &str,
    mask: Mask,
    resumes: bool,
    reading: Reading,
    reader: &mut R,
    writer: &mut W,
) -> Result<(), ExplainFault>
    ensures explained { resumes ≡ false → reading.of_tpdus ≡ false →
        OnOk result (IfSome (R.remaining reader.old) (λ bytes. IsWhole
        (WritesReports layout mask (W.contents writer.old) (W.contents writer.new)) reading
        (lines_of bytes))) }
    ensures stops { resumes ≡ false → reading.of_tpdus ≡ false → IfErr result (λ fault.
        IfSome (R.remaining reader.old) (λ bytes. StopsIn
        (WritesReports layout mask (W.contents writer.old) (W.contents writer.new)) reading
        (lines_of bytes) fault)) }
    ensures limited { IfSome (R.remaining reader.old) (λ bytes. KeepsLimit bytes result) }
    ensures fails { IfErr result (IsOfSink W.fails) }
{
    let mut explainer = Explainer::new(alloc, layout, title, mask, resumes, reading);
    explain_all(alloc, &mut explainer, reader, writer)
}

/// Explains the trace from its first byte, up to the last block.
fn explain_all<R: Read, W: Sink>(
    alloc: Global,
    explainer: &mut Explainer,
    reader: &mut R,
    writer: &mut W,
) -> Result<(), ExplainFault>
    ensures explained { (layout : Layout) (mask : Mask) (reading : Reading) →
        IsReady (first_out layout mask) reading explainer.old →
        OnOk result (IfSome (R.remaining reader.old) (λ bytes. IsWhole
        (WritesReports layout mask (W.contents writer.old) (W.contents writer.new)) reading
        (lines_of bytes))) }
    ensures stops { (layout : Layout) (mask : Mask) (reading : Reading) →
        IsReady (first_out layout mask) reading explainer.old → IfErr result (λ fault.
        IfSome (R.remaining reader.old) (λ bytes. StopsIn
        (WritesReports layout mask (W.contents writer.old) (W.contents writer.new)) reading
        (lines_of bytes) fault)) }
    ensures limited { IfSome (R.remaining reader.old) (λ bytes. KeepsLimit bytes result) }
    ensures fails { IfErr result (IsOfSink W.fails) }
{
    let outcome = explain_chunks(alloc, explainer, reader, writer);
    explainer.end()?;
    write_output(&mut explainer.teller.output.sheet, writer)?;
    explainer.teller.output.sheet.is_whole()?;
    outcome?;
    explainer.outcome()
}

/// Reads the trace, and explains it line by line.
fn explain_chunks<R: Read, W: Sink>(
    alloc: Global,
    explainer: &mut Explainer,
    reader: &mut R,
    writer: &mut W,
) -> Result<(), ExplainFault>
    ensures explained { (first : Out) (reading : Reading) → IsReady first reading explainer.old →
        OnOk result (IfSome (R.remaining reader.old) (λ bytes. IsExplained
        (λ reports t. (more : List ℕ) × Appends (W.contents writer.old) (W.contents writer.new) more
        × HasLeft (out_with first more) explainer.new reports t)
        reading (lines_of bytes) (position_of explainer.new))) }
    ensures stops { (first : Out) (reading : Reading) → IsReady first reading explainer.old →
        IfErr result (λ fault. IfSome (R.remaining reader.old) (λ bytes. StopsIn
        (λ reports t. (more : List ℕ) × Appends (W.contents writer.old) (W.contents writer.new) more
        × HasLeft (out_with first more) explainer.new reports t) reading (lines_of bytes) fault)) }
    ensures limited { IfSome (R.remaining reader.old) (λ bytes. KeepsLimit bytes result) }
    ensures fails { IfErr result (IsOfSink W.fails) }
{
    let mut chunk = [0; CHUNK];
    let mut line = Vec::new(alloc);
    let mut size: usize = 0;
    'reading: while size <= TRACE_LIMIT {
        match reader.read(&mut chunk) {
            Ok(0) => return explain_last(explainer, line.as_slice()),
            Ok(count) => {
                size += count;
                explain_chunk(explainer, &chunk[..count], &mut line)?;
                write_output(&mut explainer.teller.output.sheet, writer)?;
            }
            Err(_) => return Err(ExplainFault::Read),
        }
    }
    Err(ExplainFault::InputTooLong)
}

/// Explains the lines that end in `chunk`, at LF or CR LF. `line` holds the start of the next line.
/// It is empty before the first chunk; pass it on unchanged.
///
/// # Errors
///
/// The first fault. No later line is explained, and no chunk may follow.
///
/// - `LineTooLong`: a line exceeds `LINE_LIMIT` bytes.
/// - `OutOfMemory`: memory ran out.
/// - those of `Explainer::line`.
pub fn explain_chunk(
    explainer: &mut Explainer,
    chunk: &[u8],
    line: &mut Vec<u8>,
) -> Result<(), ExplainFault>
    ensures explained { (front : Out) (reading : Reading) (all : List (List ℕ)) (left : List ℕ) →
        HasReceived front reading all line.old.items (chunk.now ++ left) explainer.old →
        OnOk result (HasReceived front reading all line.new.items left explainer.new) }
    ensures stops { (front : Out) (reading : Reading) (all : List (List ℕ)) (left : List ℕ) →
        HasReceived front reading all line.old.items (chunk.now ++ left) explainer.old →
        IfErr result (StopsIn (HasLeft front explainer.new) reading all) }
    ensures of_lines { IfErr result IsOfLines }
{
    let mut rest = chunk;
    'lines: while !rest.is_empty() {
        let (front, others) = rest.split_at(line_len(rest));
        if is_too_long(line.len(), front.len()) {
            return Err(ExplainFault::LineTooLong {
                line: explainer.next_line(),
            });
        }
        append(line, front)?;
        if others.is_empty() {
            return Ok(());
        }
        explainer.line(without_return(line.as_slice()))?;
        line.clear();
        rest = &others[1..];
    }
    Ok(())
}

/// Whether a line of `line` bytes exceeds the limit with `more` bytes more.
fn is_too_long(line: usize, more: usize) -> bool
    ensures { result ≡ true → 4_194_304 < line + more }
{
    more > LINE_LIMIT.saturating_sub(line)
}

/// Appends bytes. Returns `AllocError` if memory ran out.
fn append(line: &mut Vec<u8>, run: &[u8]) -> Result<(), AllocError>
    ensures { OnOk result (line.new.items ≡ line.old.items ++ run.now) }
{
    line.extend_from_slice(run)
}

/// Returns the number of bytes before the first LF, or of all bytes without one.
fn line_len(bytes: &[u8]) -> usize
    ensures within { result ≤ length bytes.now }
    ensures ends { result < length bytes.now → get_or bytes.now result 0 ≡ 10 }
    ensures runs { AreOfLine (take result bytes.now) }
{
    for place in 0..bytes.len() {
        if bytes[place] == b'\n' {
            return place;
        }
    }
    bytes.len()
}

/// Explains the last line, if it has no LF. `line` is what `explain_chunk` left: it is empty if
/// there is no such line. A CR at its end is part of it.
///
/// # Errors
///
/// Those of `Explainer::line`.
pub fn explain_last(explainer: &mut Explainer, line: &[u8]) -> Result<(), ExplainFault>
    ensures explained { (front : Out) (reading : Reading) (all : List (List ℕ)) →
        HasReceived front reading all line.now [] explainer.old →
        OnOk result (IsExplained (HasLeft front explainer.new) reading all
        (position_of explainer.new)) }
    ensures stops { (front : Out) (reading : Reading) (all : List (List ℕ)) →
        HasReceived front reading all line.now [] explainer.old →
        IfErr result (StopsIn (HasLeft front explainer.new) reading all) }
    ensures of_lines { IfErr result IsOfLines }
{
    if line.is_empty() {
        return Ok(());
    }
    explainer.line(line)
}

/// Returns the line without the CR at its end, if it has one.
fn without_return(line: &[u8]) -> &[u8]
    ensures { result.now ≡ strip_carriage_return line.now }
{
    match line {
        [front @ .., b'\r'] => front,
        _ => line,
    }
}

/// Writes the text of a sheet, and clears it.
fn write_output<W: Sink>(sheet: &mut Sheet, writer: &mut W) -> Result<(), ExplainFault>
    ensures out { WritesOut sheet.old sheet.new }
    ensures written { OnOk result (Appends (W.contents writer.old) (W.contents writer.new)
        (string_bytes sheet.old.text)) }
    ensures fault { IfErr result IsOfWriting }
    ensures fails { IfErr result (IsOfSink W.fails) }
{
    let outcome = writer.put(sheet.as_str().as_bytes());
    sheet.clear();
    outcome
}
