//! Fields of a TPDU that only JSON has: its data, and those beside its header, data and status.
ghost use Rattle.std.specs.Prelude.{◌≡◌};
ghost use Rattle.trace_explain.specs.Fields.{IsField, flag_text, json_fields, name_text, number_text, shows_tree, value_name, value_text};
ghost use Rattle.trace_explain.specs.Sheets.{Adds, PutsText};

use crate::describe::mask::{Mask, Shown};
use crate::write::layout::{Medium, Side};
use crate::write::row::push_letters;
use crate::write::sheet::Sheet;
use crate::write::tree::{push_string, push_tree};

/// These fields.
#[derive(Clone, Copy)]
pub struct Fields {
    /// The time of the line where the TPDU begins, in microseconds, if it has one.
    pub time_us: Option<u64>,
    /// The name of the instruction; empty if it is unknown or hidden.
    pub instruction: &'static str,
    /// The number of the TPDU that it continues, if it does.
    pub continues: Option<u64>,
    /// Whether it repeats that one after `6CXX`.
    pub is_again: bool,
    /// The most bytes that Le after data of the terminal asks for.
    pub le: Option<u64>,
    /// Whether that number is hidden.
    pub hides_le: bool,
    /// Whether a field of the TPDU is hidden.
    pub is_masked: bool,
}

/// Adds the fields.
pub fn push_fields(sheet: &mut Sheet, fields: Fields)
    ensures { Adds sheet.old (json_fields fields) sheet.new }
{
    push_number(sheet, ",\"time_us\":", fields.time_us, "");
    push_name(sheet, fields.instruction.as_bytes());
    push_number(
        sheet,
        ",\"continues\":",
        fields.continues,
        ",\"continues\":null",
    );
    push_flag(sheet, ",\"asked_again\":true", fields.is_again);
    push_flag(sheet, ",\"le\":null", fields.hides_le);
    push_number(sheet, ",\"le\":", fields.le, "");
    push_flag(sheet, ",\"masked\":true", fields.is_masked);
}

/// Adds a number after this text, or another text without a number.
fn push_number(sheet: &mut Sheet, before: &str, number: Option<u64>, none: &str)
    ensures { Adds sheet.old (number_text before.now number none.now) sheet.new }
{
    match number {
        Some(number) => {
            sheet.push_str(before);
            sheet.push_number(number);
        }
        None => sheet.push_str(none),
    }
}

/// Adds the name of an instruction.
fn push_name(sheet: &mut Sheet, name: &[u8])
    ensures { Adds sheet.old (name_text name.now) sheet.new }
{
    if name.is_empty() {
        sheet.push_str(",\"instruction\":null");
        return;
    }
    sheet.push_str(",\"instruction\":\"");
    push_letters(sheet, Medium::Json, "", name);
    sheet.push_str("\"");
}

/// Adds this text if so.
fn push_flag(sheet: &mut Sheet, text: &str, is_so: bool)
    ensures { Adds sheet.old (flag_text text.now is_so) sheet.new }
{
    if is_so {
        sheet.push_str(text);
    }
}

/// Adds the data of an end as a field, as far as they are shown: digits, or `null` if some are
/// hidden. Objects in them, without hidden values, are another. The words for these are made in
/// `words`, which is cleared.
pub fn push_data(
    sheet: &mut Sheet,
    shown: Shown,
    side: Side,
    may_be_objects: bool,
    bytes: &[u8],
    mask: &Mask,
    words: &mut Sheet,
)
    ensures { PutsText (IsField shown mask.now.tags.items side may_be_objects bytes.now) sheet.old
        sheet.new }
{
    sheet.push_str(value_name(side));
    push_value(sheet, shown, bytes);
    let may_be_objects = shows_tree(shown, may_be_objects);
    push_tree(sheet, true, may_be_objects, bytes, mask, words);
}

/// The start of the field for the data of an end.
fn value_name(side: Side) -> &'static str
    ensures { result.now ≡ value_name side }
{
    match side {
        Side::Terminal => ",\"sent\":",
        _ => ",\"received\":",
    }
}

/// Adds data as digits, or `null` if some are hidden.
fn push_value(sheet: &mut Sheet, shown: Shown, bytes: &[u8])
    ensures { Adds sheet.old (value_text shown bytes.now) sheet.new }
{
    match shown {
        Shown::All => push_string(sheet, bytes),
        _ => sheet.push_str("null"),
    }
}

/// Whether data may be objects that are shown.
pub fn shows_tree(shown: Shown, may_be_objects: bool) -> bool
    ensures { result ≡ shows_tree shown may_be_objects }
{
    match shown {
        Shown::Nothing => false,
        _ => may_be_objects,
    }
}
