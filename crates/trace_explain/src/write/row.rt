//! Rows, by one table of the text before, between and after the lines of each.
ghost use Rattle.std.specs.Prelude.{◌≡◌, ◌≤◌, ◌∷◌, ◌++◌, ℕ, List, [], true, flat_map, length, take};
ghost use Rattle.trace_explain.specs.Sheets.{Adds, HasText};
ghost use Rattle.trace_explain.specs.Written.{before, behind, label_before, letter, letters, row, some_row};

use crate::write::layout::{Medium, Side};
use crate::write::sheet::Sheet;

/// What precedes each further line of a row of text.
pub const ROW_INDENT: &str = "               ";

/// The number of bytes of a run.
const RUN: usize = 16;

/// Adds the start of a row: the sign of its end, if it is of one, and its label.
pub fn push_before(sheet: &mut Sheet, side: Side, label: &str)
    ensures { Adds sheet.old (before sheet.old.layout.medium side label.now) sheet.new }
{
    push_sign(sheet, side);
    sheet.push_str(label);
    match sheet.layout().medium {
        Medium::Text => sheet.push_spaces(11usize.saturating_sub(label.len())),
        Medium::Html => sheet.push_str("</b><pre>"),
        Medium::Json => sheet.push_str("\":\""),
    }
}

/// Adds what precedes the label of a row.
fn push_sign(sheet: &mut Sheet, side: Side)
    ensures { Adds sheet.old (label_before sheet.old.layout.medium side) sheet.new }
{
    match (sheet.layout().medium, side) {
        (Medium::Text, Side::Terminal) => sheet.push_str("  > "),
        (Medium::Text, Side::Card) => sheet.push_str("  < "),
        (Medium::Text, Side::Nobody) => sheet.push_str("    "),
        (Medium::Html, Side::Terminal) => sheet.push_str("<div class=\"m t\"><b>"),
        (Medium::Html, Side::Card) => sheet.push_str("<div class=\"m c\"><b>"),
        (Medium::Html, Side::Nobody) => sheet.push_str("<div class=\"m n\"><b>"),
        (Medium::Json, _) => sheet.push_str(",\""),
    }
}

/// Adds what follows the lines of a row.
pub fn push_behind(sheet: &mut Sheet, side: Side)
    ensures { Adds sheet.old (behind sheet.old.layout.medium side) sheet.new }
{
    match (sheet.layout().medium, side) {
        (Medium::Text, _) => sheet.push_str("\n"),
        (Medium::Html, Side::Terminal | Side::Card) => sheet.push_str("</pre><i></i></div>\n"),
        (Medium::Html, Side::Nobody) => sheet.push_str("</pre></div>\n"),
        (Medium::Json, _) => sheet.push_str("\""),
    }
}

/// Adds a row with this text.
fn push_row(sheet: &mut Sheet, side: Side, label: &str, text: &[u8])
    ensures { Adds sheet.old (row sheet.old.layout.medium side label.now text.now) sheet.new }
{
    let medium = sheet.layout().medium;
    push_before(sheet, side, label);
    push_letters(sheet, medium, ROW_INDENT, text);
    push_behind(sheet, side);
}

/// Adds each byte as a character. In text, `indent` follows LF. On a page of HTML, `<`, `>` and `&`
/// are escaped; in JSON quotes, backslashes and control characters.
pub fn push_letters(sheet: &mut Sheet, medium: Medium, indent: &str, text: &[u8])
    ensures { Adds sheet.old (letters medium indent.now text.now) sheet.new }
{
    let mut rest = text;
    'fronts: while !rest.is_empty() {
        let (front, others) = plain_front(medium, rest);
        sheet.push_str(front);
        if others.is_empty() {
            return;
        }
        push_letter(sheet, medium, indent, others[0]);
        rest = &others[1..];
    }
}

/// Returns the bytes that `push_letter` adds as they are, up to the first other one, and the rest.
fn plain_front(medium: Medium, text: &[u8]) -> (&str, &[u8])
    ensures cut { text.now ≡ result.0.now ++ result.1.now }
    ensures plain { (indent : List ℕ) → letters medium indent result.0.now ≡ result.0.now }
{
    let (front, others) = text.split_at(plain_len(medium, text));
    match str::from_utf8(front) {
        Ok(front) => (front, others),
        Err(_) => ("", text),
    }
}

/// The number of such bytes.
fn plain_len(medium: Medium, text: &[u8]) -> usize
    ensures within { result ≤ length text.now }
    ensures plain { (indent : List ℕ) →
        letters medium indent (take result text.now) ≡ take result text.now }
{
    for place in plain_runs(medium, text)..text.len() {
        if !is_plain(medium, text[place]) {
            return place;
        }
    }
    text.len()
}

/// The number of such bytes in whole runs, up to the first run with another byte.
fn plain_runs(medium: Medium, text: &[u8]) -> usize
    ensures within { result ≤ length text.now }
    ensures plain { (indent : List ℕ) →
        letters medium indent (take result text.now) ≡ take result text.now }
{
    let mut len = 0;
    'runs: while text.len() - len >= RUN {
        if !are_plain(medium, &text[len..len + RUN]) {
            return len;
        }
        len += RUN;
    }
    len
}

/// Whether `push_letter` adds these bytes as they are. It looks at all of a run: a processor does
/// that for several bytes at once.
fn are_plain(medium: Medium, bytes: &[u8]) -> bool
    ensures { result ≡ true → (indent : List ℕ) → letters medium indent bytes.now ≡ bytes.now }
{
    let mut are = true;
    for &byte in bytes {
        are &= is_plain(medium, byte);
    }
    are
}

/// Whether `push_letter` adds this byte as it is.
fn is_plain(medium: Medium, byte: u8) -> bool
    ensures { result ≡ true → (indent : List ℕ) → letter medium indent byte ≡ byte ∷ [] }
{
    match medium {
        Medium::Text => byte < 0x80 && byte != b'\n',
        Medium::Html => byte < 0x80 && !matches!(byte, b'<' | b'>' | b'&'),
        Medium::Json => matches!(byte, b' '..=b'~') && !matches!(byte, b'"' | b'\\'),
    }
}

/// Adds a byte as text.
fn push_letter(sheet: &mut Sheet, medium: Medium, indent: &str, byte: u8)
    ensures { Adds sheet.old (letter medium indent.now byte) sheet.new }
{
    match (medium, byte) {
        (Medium::Text, b'\n') => {
            sheet.push_str("\n");
            sheet.push_str(indent);
        }
        (Medium::Html, b'<') => sheet.push_str("&lt;"),
        (Medium::Html, b'>') => sheet.push_str("&gt;"),
        (Medium::Html, b'&') => sheet.push_str("&amp;"),
        (Medium::Json, b'\n') => sheet.push_str("\\n"),
        (Medium::Json, b'"') => sheet.push_str("\\\""),
        (Medium::Json, b'\\') => sheet.push_str("\\\\"),
        (Medium::Json, 0..=31) => {
            sheet.push_str("\\u00");
            sheet.push_hex(&[byte]);
        }
        _ => sheet.push(char::from(byte)),
    }
}

/// Adds lines as a row with this label, by `push_letters`. Each line begins with LF; the first LF
/// is left out. Adds nothing without lines. The label is added as it is.
pub fn push_some_row(sheet: &mut Sheet, side: Side, label: &str, lines: &[u8])
    ensures { Adds sheet.old (some_row sheet.old.layout.medium side label.now lines.now) sheet.new }
{
    if !lines.is_empty() {
        push_row(sheet, side, label, &lines[1..]);
    }
}

/// The same for lines of a sheet. If memory ran out for them, it has for the sheet.
pub fn push_row_of(sheet: &mut Sheet, side: Side, label: &str, lines: &Sheet)
    ensures { (text : List ℕ) → HasText lines.now text →
        Adds sheet.old (some_row sheet.old.layout.medium side label.now text) sheet.new }
{
    if lines.is_cut() {
        sheet.cut();
    } else {
        push_some_row(sheet, side, label, lines.as_str().as_bytes());
    }
}

/// Adds a text, even an empty one, as a row with this label, by `push_letters`: no LF is left out.
/// If memory ran out for the text, it has for the sheet.
pub fn push_lines_row(sheet: &mut Sheet, side: Side, label: &str, lines: &Sheet)
    ensures { (text : List ℕ) → HasText lines.now text →
        Adds sheet.old (row sheet.old.layout.medium side label.now text) sheet.new }
{
    if lines.is_cut() {
        sheet.cut();
    } else {
        push_row(sheet, side, label, lines.as_str().as_bytes());
    }
}
