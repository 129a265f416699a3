//! Bytes as lines of hexadecimal digits, with their text beside them if they are printable.
ghost use Rattle.std.specs.Prelude.{◌≡◌, ◌<◌, ◌∷◌, ◌++◌, drop, length, take};
ghost use Rattle.trace_explain.specs.Sheets.{Adds, PutsLines};
ghost use Rattle.trace_explain.specs.Written.{AreDigits, AreLines, are_printable, beside, content, is_text, spaces, width};

use crate::write::layout::Medium;
use crate::write::row::push_letters;
use crate::write::sheet::Sheet;

/// The least number of bytes that count as text. One pair of bytes in seven is text by chance.
const LEAST: usize = 3;

/// The number of bytes in a line.
const LINE_BYTES: usize = 40;

/// The number of bytes in a line with text beside them.
const LINE_TEXT: usize = 25;

/// Whether bytes count as text: at least three, all printable ASCII (profile).
pub fn is_text(bytes: &[u8]) -> bool
    ensures { result ≡ is_text bytes.now }
{
    bytes.len() >= LEAST && are_printable(bytes)
}

/// Whether each of the bytes is printable ASCII. It looks at all: a processor does that for several
/// at once.
pub fn are_printable(bytes: &[u8]) -> bool
    ensures { result ≡ are_printable bytes.now }
{
    let mut are = true;
    for &byte in bytes {
        are &= matches!(byte, b' '..=b'~');
    }
    are
}

/// Adds bytes as lines of digits, 40 bytes in each, with LF after each line.
pub fn push_hex_lines(text: &mut Sheet, bytes: &[u8]) {
    for line in bytes.chunks(LINE_BYTES) {
        text.push_hex(line);
        text.push('\n');
    }
}

/// Adds bytes as lines of digits, with LF before each line. If they count as text, each line has 25
/// bytes and their text beside them; otherwise 40.
pub fn push_digits(lines: &mut Sheet, bytes: &[u8])
    ensures { PutsLines (AreDigits bytes.now) lines.old lines.new }
{
    let is_text = is_text(bytes);
    push_lines(lines, 0, width(is_text), is_text, bytes);
}

/// The number of bytes in a line, with or without text.
fn width(is_text: bool) -> usize
    ensures value { result ≡ width is_text }
    ensures some { 0 < result }
{
    if is_text { LINE_TEXT } else { LINE_BYTES }
}

/// Adds bytes as lines of digits, `width` bytes in each. LF and `indent` spaces precede each line,
/// and text is beside the digits if `is_text`.
pub fn push_lines(lines: &mut Sheet, indent: usize, width: usize, is_text: bool, bytes: &[u8])
    requires some { 0 < width }
    ensures { PutsLines (AreLines indent width is_text bytes.now) lines.old lines.new }
{
    let mut rest = bytes;
    'lines: while !rest.is_empty() {
        let (line, others) = cut(rest, width);
        push_line(lines, indent, is_text, line);
        rest = others;
    }
}

/// Adds a line.
fn push_line(lines: &mut Sheet, indent: usize, is_text: bool, line: &[u8])
    ensures { Adds lines.old (10 ∷ (spaces indent ++ content is_text line.now)) lines.new }
{
    lines.push_str("\n");
    lines.push_spaces(indent);
    push_content(lines, is_text, line);
}

/// The first `width` bytes, or all if there are fewer, and the rest.
pub fn cut(bytes: &[u8], width: usize) -> (&[u8], &[u8])
    ensures front { result.0.now ≡ take width bytes.now }
    ensures back { result.1.now ≡ drop width bytes.now }
    ensures fewer { 0 < width → 0 < length bytes.now → length result.1.now < length bytes.now }
{
    if bytes.len() <= width {
        (bytes, &[])
    } else {
        bytes.split_at(width)
    }
}

/// Adds bytes as digits in one line, without LF. Their text is in quotes beside them if `is_text`.
pub fn push_content(lines: &mut Sheet, is_text: bool, bytes: &[u8])
    ensures { Adds lines.old (content is_text bytes.now) lines.new }
{
    lines.push_hex(bytes);
    push_beside(lines, is_text, bytes);
}

/// Adds the text beside digits, if the bytes are text.
fn push_beside(lines: &mut Sheet, is_text: bool, bytes: &[u8])
    ensures { Adds lines.old (beside is_text bytes.now) lines.new }
{
    if is_text {
        lines.push_str(" \"");
        push_letters(lines, Medium::Text, "", bytes);
        lines.push_str("\"");
    }
}
