//! The start and end of boxes, and parts of a page of HTML. The page needs no other file, no script
//! and no network.
ghost use Rattle.std.specs.Prelude.{◌≡◌, ℕ, List};
ghost use Rattle.trace_explain.specs.Boxes.{IsBar, MayBe};
ghost use Rattle.trace_explain.specs.Sheets.{Adds, HasText, Puts};
ghost use Rattle.trace_explain.specs.Written.{bar_text, beside_text, box_begin, box_end, class_of, fold_text, id_text, mark_text, name_of, whole_mark};

use crate::write::ascii::cut;
use crate::write::layout::{Anchor, Kind, Medium};
use crate::write::row::push_letters;
use crate::write::sheet::Sheet;

/// Adds the start of a box, up to its title. Text has none.
pub fn push_box(sheet: &mut Sheet, kind: Kind, anchor: Anchor)
    ensures { Adds sheet.old (box_begin sheet.old.layout.medium kind anchor) sheet.new }
{
    match sheet.layout().medium {
        Medium::Text => {}
        Medium::Html => {
            sheet.push_str("<details class=\"");
            sheet.push_str(class_of(kind));
            sheet.push_str("\"");
            push_id(sheet, anchor);
            sheet.push_str(fold_of(kind));
        }
        Medium::Json => sheet.push_str("{\"type\":\""),
    }
}

/// Adds the end of a box. Text has none.
pub fn push_box_end(sheet: &mut Sheet)
    ensures { Adds sheet.old (box_end sheet.old.layout.medium) sheet.new }
{
    match sheet.layout().medium {
        Medium::Text => {}
        Medium::Html => sheet.push_str("</details>\n"),
        Medium::Json => sheet.push_str("}"),
    }
}

/// The CSS class of a box, and of the status in its title.
fn class_of(kind: Kind) -> &'static str
    ensures { result.now ≡ class_of kind }
{
    match kind {
        Kind::Well => "well",
        Kind::Warning => "warning",
        Kind::Failed => "failed",
        Kind::CutOff => "cut",
        Kind::Error => "error",
    }
}

/// The end of the start of a box. It is folded if it shows a success.
fn fold_of(kind: Kind) -> &'static str
    ensures { result.now ≡ fold_text kind }
{
    match kind {
        Kind::Well => "><summary>",
        _ => " open><summary>",
    }
}

/// Adds the name of a box, if links lead to it.
fn push_id(sheet: &mut Sheet, anchor: Anchor)
    ensures { Adds sheet.old (id_text anchor) sheet.new }
{
    match anchor {
        Anchor::None => {}
        _ => {
            sheet.push_str(" id=\"");
            push_name(sheet, anchor);
            sheet.push_str("\"");
        }
    }
}

/// Adds the name of a box.
pub fn push_name(sheet: &mut Sheet, anchor: Anchor)
    ensures { Adds sheet.old (name_of anchor) sheet.new }
{
    match anchor {
        Anchor::None => {}
        Anchor::Tpdu(number) => {
            sheet.push_str("t");
            sheet.push_number(number);
        }
        Anchor::Error(number) => {
            sheet.push_str("e");
            sheet.push_number(number);
        }
    }
}

/// Adds the status in a title of a page, if it is whole.
pub fn push_mark(sheet: &mut Sheet, kind: Kind, status: &[u8])
    ensures { Adds sheet.old (mark_text sheet.old.layout.medium kind status.now) sheet.new }
{
    match sheet.layout().medium {
        Medium::Text | Medium::Json => {}
        Medium::Html => push_whole_mark(sheet, kind, status),
    }
}

/// Adds the status in a title of a page, if it is whole.
fn push_whole_mark(sheet: &mut Sheet, kind: Kind, status: &[u8])
    ensures { Adds sheet.old (whole_mark kind status.now) sheet.new }
{
    if status.len() == 2 {
        sheet.push_str(" <b class=\"");
        sheet.push_str(class_of(kind));
        sheet.push_str("\">");
        sheet.push_hex(status);
        sheet.push_str("</b>");
    }
}

/// Adds lines of data to a title of a page, if they are one line, and nothing of it is hidden. LF
/// precedes it, and is left out.
pub fn push_beside(sheet: &mut Sheet, lines: &Sheet)
    ensures { (text : List ℕ) → HasText lines.now text →
        Puts (MayBe (λ m. beside_text m text)) sheet.old sheet.new }
{
    let text = lines.as_str();
    if lines.is_cut() || text.lines().count() != 2 || text.ends_with("**") {
        return;
    }
    push_data(sheet, text.as_bytes());
}

/// Adds data to a title of a page.
fn push_data(sheet: &mut Sheet, lines: &[u8])
    ensures { Adds sheet.old (beside_text sheet.old.layout.medium lines.now) sheet.new }
{
    match sheet.layout().medium {
        Medium::Text | Medium::Json => {}
        Medium::Html => {
            sheet.push_str(" <span>");
            push_letters(sheet, Medium::Html, "", cut(lines, 1).1);
            sheet.push_str("</span>");
        }
    }
}

/// Adds a bar for this time to a title of a page, with the share of the card, both in microseconds.
/// Adds nothing if the time is 0.
pub fn push_bar(sheet: &mut Sheet, all: u64, card: u64)
    ensures { Puts IsBar sheet.old sheet.new }
{
    if all != 0 {
        push_any_bar(sheet, all, card);
    }
}

/// Adds a bar to a title of a page.
fn push_any_bar(sheet: &mut Sheet, all: u64, card: u64)
    ensures { Adds sheet.old (bar_text sheet.old.layout.medium all card) sheet.new }
{
    match sheet.layout().medium {
        Medium::Text | Medium::Json => {}
        Medium::Html => {
            sheet.push_str(" <i style=\"--all:");
            sheet.push_number(all);
            sheet.push_str(";--card:");
            sheet.push_number(card);
            sheet.push_str("\"></i>");
        }
    }
}
