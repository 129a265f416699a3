//! The number, line, header and status of a TPDU.
ghost use Rattle.std.specs.Prelude.{◌≡◌, ◌++◌, ℕ, List, codes, drop};
ghost use Rattle.trace_explain.specs.Sheets.{Adds, HasText};
ghost use Rattle.trace_explain.specs.Written.{before, character_text, header_row, header_text, line_before, line_behind, line_text, named, number_before, number_behind, number_text, status_digits, status_row, title_text, header_fields, shown_header};

use crate::write::ascii::cut;
use crate::write::html::{push_box, push_mark};
use crate::write::layout::{Anchor, Kind, Medium, Side};
use crate::write::row::{ROW_INDENT, push_before, push_behind, push_letters};
use crate::write::sheet::Sheet;

/// What precedes each further line of a title in text.
const TITLE_INDENT: &str = "    ";

/// Adds the title of a TPDU up to its line, with these words after its number. If memory ran out
/// for them, it has for the sheet.
pub fn push_title(sheet: &mut Sheet, kind: Kind, number: u64, words: &Sheet, status: &[u8])
    ensures { (text : List ℕ) → HasText words.now text →
        Adds sheet.old (title_text sheet.old.layout.medium kind number text status.now)
        sheet.new }
{
    if words.is_cut() {
        sheet.cut();
    } else {
        let medium = sheet.layout().medium;
        push_box(sheet, kind, Anchor::Tpdu(number));
        push_number(sheet, medium, number);
        push_letters(sheet, medium, TITLE_INDENT, words.as_str().as_bytes());
        push_mark(sheet, kind, status);
    }
}

/// Adds the number of a TPDU, and what is before its title.
fn push_number(sheet: &mut Sheet, medium: Medium, number: u64)
    ensures { Adds sheet.old (number_text medium number) sheet.new }
{
    let (before, behind) = number_marks(medium);
    sheet.push_str(before);
    sheet.push_number(number);
    sheet.push_str(behind);
}

/// The text before and after the number of a TPDU.
fn number_marks(medium: Medium) -> (&'static str, &'static str)
    ensures before { result.0.now ≡ number_before medium }
    ensures behind { result.1.now ≡ number_behind medium }
{
    match medium {
        Medium::Text | Medium::Html => ("#", " "),
        Medium::Json => ("tpdu\",\"number\":", ",\"title\":\""),
    }
}

/// Adds the line where a TPDU begins, and the end of its title.
pub fn push_line(sheet: &mut Sheet, line: u64)
    ensures { Adds sheet.old (line_text sheet.old.layout.medium line) sheet.new }
{
    let (before, behind) = line_marks(sheet.layout().medium);
    sheet.push_str(before);
    sheet.push_number(line);
    sheet.push_str(behind);
}

/// The text before and after the number of a line.
fn line_marks(medium: Medium) -> (&'static str, &'static str)
    ensures before { result.0.now ≡ line_before medium }
    ensures behind { result.1.now ≡ line_behind medium }
{
    match medium {
        Medium::Text => ("(line ", ")\n"),
        Medium::Html => (" <small>line ", "</small></summary>\n"),
        Medium::Json => ("\",\"line\":", ""),
    }
}

/// Adds the row of a header, or `**` if it is hidden. On a page each character follows its name.
/// In JSON each is a field, `null` if it is hidden.
pub fn push_header(sheet: &mut Sheet, is_hidden: bool, header: &[u8])
    ensures { Adds sheet.old (header_row is_hidden sheet.old.layout.medium header.now) sheet.new }
{
    match sheet.layout().medium {
        Medium::Json if is_hidden => sheet.push_str(NO_HEADER),
        Medium::Json => push_fields(sheet, header),
        _ => push_header_row(sheet, is_hidden, header),
    }
}

/// The fields of a hidden header.
const NO_HEADER: &str = ",\"cla\":null,\"ins\":null,\"p1\":null,\"p2\":null,\"p3\":null";

/// Adds the characters of a header as fields of JSON.
fn push_fields(sheet: &mut Sheet, header: &[u8])
    ensures { Adds sheet.old (header_fields header.now) sheet.new }
{
    push_character(sheet, ",\"cla\":\"", header, 0, "\"");
    push_character(sheet, ",\"ins\":\"", header, 1, "\"");
    push_character(sheet, ",\"p1\":\"", header, 2, "\"");
    push_character(sheet, ",\"p2\":\"", header, 3, "\"");
    push_character(sheet, ",\"p3\":\"", header, 4, "\"");
}

/// Adds the row of a header in text or on a page.
fn push_header_row(sheet: &mut Sheet, is_hidden: bool, header: &[u8])
    ensures { Adds sheet.old (shown_header is_hidden sheet.old.layout.medium header.now) sheet.new }
{
    let medium = sheet.layout().medium;
    push_before(sheet, Side::Terminal, "header");
    if is_hidden {
        sheet.push_str("**");
    } else {
        push_characters(sheet, medium, header);
    }
    push_behind(sheet, Side::Terminal);
}

/// Adds the characters of a header.
fn push_characters(sheet: &mut Sheet, medium: Medium, header: &[u8])
    ensures { Adds sheet.old (header_text medium header.now) sheet.new }
{
    match medium {
        Medium::Html => push_named(sheet, header),
        _ => sheet.push_hex(header),
    }
}

/// Adds the characters of a header, each after its name.
fn push_named(sheet: &mut Sheet, header: &[u8])
    ensures { Adds sheet.old (named header.now) sheet.new }
{
    push_character(sheet, "CLA ", header, 0, "");
    push_character(sheet, "  INS ", header, 1, "");
    push_character(sheet, "  P1 ", header, 2, "");
    push_character(sheet, "  P2 ", header, 3, "");
    push_character(sheet, "  P3 ", header, 4, "");
    let (_, rest) = cut(header, 5);
    sheet.push_hex(rest);
}

/// Adds the character of a header at this place, counted from 0, between these texts, if it is
/// there.
fn push_character(sheet: &mut Sheet, before: &str, header: &[u8], place: usize, behind: &str)
    ensures { Adds sheet.old (character_text before.now header.now place behind.now) sheet.new }
{
    if place < header.len() {
        sheet.push_str(before);
        sheet.push_hex(&[header[place]]);
        sheet.push_str(behind);
    }
}

/// Adds the row of a status, with words after its characters. Each line of them begins with LF; the
/// first LF is left out. If memory ran out for them, it has for the sheet.
pub fn push_status(sheet: &mut Sheet, side: Side, status: &[u8], words: &Sheet)
    ensures { (text : List ℕ) → HasText words.now text →
        Adds sheet.old (status_row sheet.old.layout.medium side status.now (drop 1 text))
        sheet.new }
{
    if words.is_cut() {
        sheet.cut();
    } else {
        let medium = sheet.layout().medium;
        push_status_digits(sheet, side, status);
        let (_, letters) = cut(words.as_str().as_bytes(), 1);
        push_letters(sheet, medium, ROW_INDENT, letters);
        push_behind(sheet, side);
    }
}

/// Adds the start of the row of a status: its characters, and what separates words from them.
fn push_status_digits(sheet: &mut Sheet, side: Side, status: &[u8])
    ensures { Adds sheet.old (before sheet.old.layout.medium side (codes "status")
        ++ status_digits sheet.old.layout.medium status.now) sheet.new }
{
    let medium = sheet.layout().medium;
    push_before(sheet, side, "status");
    match medium {
        Medium::Json => {
            sheet.push_hex(status);
            sheet.push_str("\",\"status_text\":\"");
        }
        _ if !status.is_empty() => {
            sheet.push_hex(status);
            sheet.push_str(" ");
        }
        _ => {}
    }
}
