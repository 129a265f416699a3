//! The objects in data: in text and on a page a tree of lines, in JSON a field.
ghost use Rattle.std.specs.Prelude.{◌≡◌, ◌<◌, false};
ghost use Rattle.trace_explain.specs.Sheets.{Adds, PutsText};
ghost use Rattle.trace_explain.specs.Trees.{AreTree, AreWords, IsRemark, IsTree, IsValue, IsWords, PutsAny, indent, list_begin, list_end, masked_end, object_begin, primitive_end, template_end, value_field, value_width, words_field};

use crate::describe::format;
use crate::describe::mask::Mask;
use crate::describe::names::Place;
use crate::write::ascii::{are_printable, cut, is_text, push_content, push_lines};
use crate::write::layout::Medium;
use crate::write::row::push_letters;
use crate::write::sheet::Sheet;
use tlv_core::{Obj, Objects, Tag};

/// The number of bytes of a value in a line. With a tag of three bytes at level 16 they fill it.
const VALUE_BYTES: usize = 24;

/// The same for a value with text beside it.
const VALUE_TEXT: usize = 15;

/// Adds the objects of data that may be objects and are some. In text each has a line, or more for
/// a long value, and is two spaces further in for each level; hidden values are `**`. The words for
/// an object that is not hidden follow its digits. They are made in `words`, which is cleared.
/// Returns whether there are any objects.
pub fn push_tree(
    sheet: &mut Sheet,
    in_json: bool,
    may_be_objects: bool,
    bytes: &[u8],
    mask: &Mask,
    words: &mut Sheet,
) -> bool
    ensures { PutsAny (IsTree in_json mask.now.tags.items may_be_objects bytes.now) result
        sheet.old sheet.new }
{
    if !may_be_objects {
        return false;
    }
    match Objects::over(bytes) {
        Ok(objects) => {
            let some = push_objects(sheet, in_json, objects, mask, Place::TOP, words);
            words.clear();
            some
        }
        Err(_) => false,
    }
}

/// Adds objects at this place. Returns whether there are any. The words for each are made in
/// `words`.
fn push_objects(
    sheet: &mut Sheet,
    in_json: bool,
    objects: Objects<'_>,
    mask: &Mask,
    place: Place,
    words: &mut Sheet,
) -> bool
    ensures { PutsAny (AreTree in_json mask.now.tags.items objects.entry.bytes objects.entry.level
        false) result sheet.old sheet.new }
{
    let mut objects = objects;
    let mut some = false;
    'listing: while let Some(object) = objects.next() {
        let tag = object.tag();
        push_begin(sheet, in_json, some, object.level(), tag);
        if mask.has(tag) {
            sheet.push_str(masked_end(in_json));
        } else if let Some(children) = object.children() {
            push_words(sheet, in_json, mask, place, &object, words);
            push_objects(sheet, in_json, children, mask, place.within(tag), words);
            sheet.push_str(template_end(in_json));
        } else {
            push_value(sheet, in_json, mask, place, &object, words);
        }
        some = true;
    }
    sheet.push_str(list_end(in_json, some));
    some
}

/// Adds the start of an object, the first of a list or a later one: its tag.
fn push_begin(sheet: &mut Sheet, in_json: bool, some: bool, level: u8, tag: Tag)
    ensures { Adds sheet.old (object_begin in_json some level tag) sheet.new }
{
    if in_json {
        sheet.push_str(list_begin(some));
        sheet.push_str("{\"tag\":\"");
        sheet.push_hex(tag.bytes());
        sheet.push_str("\"");
    } else {
        sheet.push_str("\n");
        sheet.push_spaces(indent(level));
        sheet.push_hex(tag.bytes());
    }
}

/// The text of JSON before the first object of a list, or before a later one.
fn list_begin(some: bool) -> &'static str
    ensures { result.now ≡ list_begin some }
{
    if some { "," } else { ",\"objects\":[" }
}

/// The text after the objects of a list, if it has some.
fn list_end(in_json: bool, some: bool) -> &'static str
    ensures { result.now ≡ list_end in_json some }
{
    if in_json && some { "]" } else { "" }
}

/// The number of spaces before an object of this level.
fn indent(level: u8) -> usize
    ensures { result ≡ indent level }
{
    usize::from(level.saturating_sub(1)) * 2
}

/// The text after the tag of a hidden object.
fn masked_end(in_json: bool) -> &'static str
    ensures { result.now ≡ masked_end in_json }
{
    if in_json {
        ",\"value\":null,\"masked\":true}"
    } else {
        " **"
    }
}

/// The text after the objects of a template.
fn template_end(in_json: bool) -> &'static str
    ensures { result.now ≡ template_end in_json }
{
    if in_json { "}" } else { "" }
}

/// Adds the name of an object, and its value if that has any in words: in JSON as fields, in text
/// as a remark. They are made in `words`.
fn push_words(
    sheet: &mut Sheet,
    in_json: bool,
    mask: &Mask,
    place: Place,
    object: &Obj<'_>,
    words: &mut Sheet,
)
    ensures { PutsText (AreWords in_json) sheet.old sheet.new }
{
    let value = object.value();
    let row = mask.names.tag(object.tag(), place, value.len());
    words.clear();
    words.push_str(mask.names.name(row));
    if in_json {
        push_field(sheet, ",\"name\":\"", words);
        words.clear();
        format::push_words(words, &mask.names, row, value);
        push_field(sheet, ",\"words\":\"", words);
    } else {
        format::push_words(words, &mask.names, row, value);
        push_remark(sheet, words);
    }
}

/// Adds words as a field with this start. If memory ran out for them, it has for the sheet.
fn push_field(sheet: &mut Sheet, start: &str, words: &Sheet)
    ensures { PutsText (IsWords start.now) sheet.old sheet.new }
{
    if words.is_cut() {
        sheet.cut();
    } else {
        push_letters_field(sheet, start, words.as_str().as_bytes());
    }
}

/// Adds a text as a field with this start; nothing if it is empty.
fn push_letters_field(sheet: &mut Sheet, start: &str, text: &[u8])
    ensures { Adds sheet.old (words_field start.now text.now) sheet.new }
{
    if text.is_empty() {
        return;
    }
    sheet.push_str(start);
    push_letters(sheet, Medium::Json, "", text);
    sheet.push_str("\"");
}

/// Adds words after two spaces, if there are any and all letters are printable. If memory ran out
/// for them, it has for the sheet.
fn push_remark(sheet: &mut Sheet, words: &Sheet)
    ensures { PutsText IsRemark sheet.old sheet.new }
{
    if words.is_cut() {
        sheet.cut();
    } else {
        push_printable(sheet, words.as_str());
    }
}

/// Adds words after two spaces, if there are any and all letters are printable.
#[tactic(auto, using(crate::proofs::TreeLemmas::no_remark))]
fn push_printable(sheet: &mut Sheet, words: &str)
    ensures { PutsText IsRemark sheet.old sheet.new }
{
    if words.is_empty() {
        return;
    }
    if are_printable(words.as_bytes()) {
        sheet.push_str("  ");
        sheet.push_str(words);
    }
}

/// Adds the value of an object after its tag, and the words for the object. In text a long value
/// has several lines, with the words in the first, and an empty one is `-`.
fn push_value(
    sheet: &mut Sheet,
    in_json: bool,
    mask: &Mask,
    place: Place,
    object: &Obj<'_>,
    words: &mut Sheet,
)
    ensures { PutsText (IsValue in_json object.now.level object.now.value) sheet.old sheet.new }
{
    let value = object.value();
    if in_json {
        push_words(sheet, true, mask, place, object, words);
        push_primitive(sheet, value);
        return;
    }
    if value.is_empty() {
        sheet.push_str(" -");
        push_words(sheet, false, mask, place, object, words);
        return;
    }
    let is_text = is_text(value);
    let width = value_width(is_text);
    let (line, rest) = cut(value, width);
    sheet.push_str(" ");
    push_content(sheet, is_text, line);
    push_words(sheet, false, mask, place, object, words);
    push_lines(sheet, indent(object.level()) + 5, width, is_text, rest);
}

/// Adds the value of an object of JSON, and its end.
fn push_primitive(sheet: &mut Sheet, value: &[u8])
    ensures { Adds sheet.old (primitive_end value.now) sheet.new }
{
    sheet.push_str(",\"value\":");
    push_string(sheet, value);
    sheet.push_str("}");
}

/// Adds bytes as a string of digits.
pub fn push_string(sheet: &mut Sheet, bytes: &[u8])
    ensures { Adds sheet.old (value_field bytes.now) sheet.new }
{
    sheet.push_str("\"");
    sheet.push_hex(bytes);
    sheet.push_str("\"");
}

/// The number of bytes of a value in a line, with or without text.
fn value_width(is_text: bool) -> usize
    ensures value { result ≡ value_width is_text }
    ensures some { 0 < result }
{
    if is_text { VALUE_TEXT } else { VALUE_BYTES }
}
