//! Words: what is written between the boxes of TPDUs. One function writes each piece, so that none
//! looks like a box of a TPDU, or like a row of one.
ghost use Rattle.std.specs.Prelude.{◌≡◌, true};
ghost use Rattle.trace_explain.specs.Sheets.{Adds, Joins};
ghost use Rattle.trace_explain.specs.Words.{field_before, gap, has_own, json_piece, link_text, marked, most_text, part_begin, piece_text, topic_text};

use crate::write::ascii::cut;
use crate::write::html::{push_box, push_box_end, push_name};
use crate::write::layout::{Anchor, Kind, Medium, Side, Topic};
use crate::write::row::{push_letters, push_some_row};
use crate::write::sheet::Sheet;
use crate::write::shown::push_line;
use crate::write::style::{HEAD, HEAD_END, HEADING_END};

/// What a piece is. Text has neither a style nor parts nor links. Only JSON has fields and signs.
#[derive(Clone, Copy)]
pub enum Form {
    /// The start of a box that is no TPDU's: its kind, name, topic, and the line where it begins.
    Box(Kind, Anchor, Topic, u64),
    /// The end of such a box.
    BoxEnd,
    /// A row with a label.
    Row(Side, &'static str),
    /// A field that is a number.
    Number(&'static str, u64),
    /// A field that is `null`.
    Null(&'static str),
    /// A field that is `true`.
    True(&'static str),
    /// The start of an object of counts, which `BoxEnd` ends.
    Map(&'static str),
    /// A count in it, of what the text names.
    Count(u64),
    /// A note.
    Note,
    /// The start of a list of TPDUs.
    List,
    /// What separates two of the list.
    Comma,
    /// The end of the list.
    ListEnd,
    /// The end of a line.
    LineEnd,
    /// A command of several TPDUs.
    Command,
    /// The start of the last block.
    Block,
    /// The end of the last block and of a page.
    BlockEnd,
    /// The start of a page, up to its title.
    Head,
    /// The style of a page.
    Style,
    /// The script of a page, and the rest of its head.
    Script,
    /// The heading of a page.
    Heading,
    /// The longest time of a TPDU on a page, in microseconds.
    Most(u64),
    /// The start of a part of a page, with the number of its first TPDU.
    Part(u64),
    /// The end of a part.
    PartEnd,
    /// The start of a paragraph of links.
    Links,
    /// A link to a box.
    Link(Anchor),
    /// The end of a paragraph of links.
    More,
}

/// A piece with a title or label of its own, if it has one.
#[derive(Clone, Copy)]
pub struct Piece {
    /// What it is.
    pub form: Form,
    /// The size of its text.
    pub size: usize,
    ghost own: { has_own form ≡ true },
}

/// Adds pieces. Their texts are one after another in `text`.
pub fn push_pieces(sheet: &mut Sheet, pieces: &[Piece], text: &[u8])
    ensures { Joins sheet.old sheet.new }
{
    let mut rest = text;
    'pieces: for piece in pieces {
        let (own, others) = cut(rest, piece.size);
        push_piece(sheet, piece.form, own);
        rest = others;
    }
}

/// Adds a piece with its text.
fn push_piece(sheet: &mut Sheet, form: Form, text: &[u8])
    ensures { Adds sheet.old (piece_text sheet.old.layout.medium form text.now) sheet.new }
{
    let medium = sheet.layout().medium;
    match (medium, form) {
        (_, Form::Box(kind, anchor, topic, line)) => {
            push_box(sheet, kind, anchor);
            sheet.push_str(topic_text(medium, topic));
            sheet.push_str(gap(medium));
            push_line(sheet, line);
        }
        (_, Form::BoxEnd) => push_box_end(sheet),
        (_, Form::Row(side, label)) => push_some_row(sheet, side, label, text),
        (Medium::Text, Form::Note) => {
            sheet.push_str("| ");
            push_letters(sheet, Medium::Text, "| ", cut(text, 1).1);
            sheet.push_str("\n");
        }
        (Medium::Text, Form::Block) => sheet.push_str("summary\n"),
        (Medium::Text, Form::Command) => {
            sheet.push_str("= ");
            push_letters(sheet, Medium::Text, "    ", cut(text, 1).1);
            sheet.push_str("\n");
        }
        (Medium::Text, _) => {}
        (Medium::Html, Form::Note) => push_marked(sheet, "<pre class=\"note\">", text, "</pre>\n"),
        (Medium::Html, Form::Block) => sheet.push_str("</div><section><h2>summary</h2>\n"),
        (Medium::Html, Form::BlockEnd) => {
            sheet.push_str("</section>\n</main>\n</body>\n</html>\n");
        }
        (Medium::Html, Form::Head) => push_marked(sheet, HEAD, text, "</title>\n<style>\n"),
        (Medium::Html, Form::Style) => push_marked(sheet, "", text, "</style>\n<script>\n"),
        (Medium::Html, Form::Script) => push_marked(sheet, "", text, HEAD_END),
        (Medium::Html, Form::Heading) => push_marked(sheet, "<h1>", text, HEADING_END),
        (Medium::Html, Form::Most(micros)) => push_most(sheet, micros),
        (Medium::Html, Form::Part(number)) => push_part(sheet, number),
        (Medium::Html, Form::PartEnd) => sheet.push_str("</noscript></details>\n"),
        (Medium::Html, Form::Links) => push_marked(sheet, "<p>", text, ""),
        (Medium::Html, Form::Link(anchor)) => push_link(sheet, anchor, text),
        (Medium::Html, Form::More) => push_marked(sheet, "", text, "</p>\n"),
        (Medium::Html, Form::List) => sheet.push_str("<details class=\"command\" open>\n"),
        (Medium::Html, Form::Command) => {
            push_marked(sheet, "<summary>", cut(text, 1).1, "</summary></details>\n");
        }
        (Medium::Html, _) => {}
        (Medium::Json, _) => push_json(sheet, form, text),
    }
}

/// Adds a piece of JSON that is neither a box nor a row.
fn push_json(sheet: &mut Sheet, form: Form, text: &[u8])
    ensures { Adds sheet.old (json_piece form text.now) sheet.new }
{
    match form {
        Form::Number(label, number) => {
            push_label(sheet, label);
            sheet.push_number(number);
        }
        Form::Null(label) => {
            push_label(sheet, label);
            sheet.push_str("null");
        }
        Form::True(label) => {
            push_label(sheet, label);
            sheet.push_str("true");
        }
        Form::Block => sheet.push_str("{\"type\":\"summary\""),
        Form::BlockEnd => sheet.push_str("}\n"),
        Form::List => sheet.push_str(",\"tpdus\":["),
        Form::Comma => sheet.push_str(","),
        Form::ListEnd => sheet.push_str("]"),
        Form::LineEnd => sheet.push_str("\n"),
        Form::Map(label) => {
            push_label(sheet, label);
            sheet.push_str("{");
        }
        Form::Count(number) => {
            sheet.push_str("\"");
            push_letters(sheet, Medium::Json, "", text);
            sheet.push_str("\":");
            sheet.push_number(number);
        }
        _ => {}
    }
}

/// Adds the start of a field, up to its value.
fn push_label(sheet: &mut Sheet, label: &str)
    ensures { Adds sheet.old (field_before label.now) sheet.new }
{
    sheet.push_str(",\"");
    sheet.push_str(label);
    sheet.push_str("\":");
}

/// The title of a box; in JSON its type, before a title if the type has several.
fn topic_text(medium: Medium, topic: Topic) -> &'static str
    ensures { result.now ≡ topic_text medium topic }
{
    match (medium, topic) {
        (Medium::Json, Topic::Answer) => "atr",
        (Medium::Json, Topic::Pps) => "pps",
        (Medium::Json, Topic::Byte) => "error\",\"text\":\"unexpected byte",
        (Medium::Json, Topic::Pair) => "error\",\"text\":\"unexpected command or answer",
        (_, Topic::Answer) => "answer to reset",
        (_, Topic::Pps) => "PPS",
        (_, Topic::Byte) => "unexpected byte",
        (_, Topic::Pair) => "unexpected command or answer",
        (_, Topic::Note) => "note",
        (_, Topic::Reset) => "reset",
        (_, Topic::Command) => "command",
        (_, Topic::Blocks) => "blocks",
    }
}

/// Adds the start of a part of a page.
fn push_part(sheet: &mut Sheet, number: u64)
    ensures { Adds sheet.old (part_begin number) sheet.new }
{
    sheet.push_str("<details class=\"part\"><summary>from #");
    sheet.push_number(number);
    sheet.push_str("</summary><noscript>\n");
}

/// Adds the scale of the bars: the longest time.
fn push_most(sheet: &mut Sheet, micros: u64)
    ensures { Adds sheet.old (most_text micros) sheet.new }
{
    sheet.push_str("<style>main { --most: ");
    sheet.push_number(micros);
    sheet.push_str("; }</style>\n");
}

/// Adds text of a page between two pieces of markup.
fn push_marked(sheet: &mut Sheet, before: &str, text: &[u8], behind: &str)
    ensures { Adds sheet.old (marked before.now text.now behind.now) sheet.new }
{
    sheet.push_str(before);
    push_letters(sheet, Medium::Html, "", text);
    sheet.push_str(behind);
}

/// Adds a link to a box.
fn push_link(sheet: &mut Sheet, anchor: Anchor, text: &[u8])
    ensures { Adds sheet.old (link_text anchor text.now) sheet.new }
{
    sheet.push_str(" <a href=\"#");
    push_name(sheet, anchor);
    sheet.push_str("\">");
    push_letters(sheet, Medium::Html, "", text);
    sheet.push_str("</a>");
}

/// What is between a title and its line.
fn gap(medium: Medium) -> &'static str
    ensures { result.now ≡ gap medium }
{
    match medium {
        Medium::Text => "  ",
        Medium::Html | Medium::Json => "",
    }
}
