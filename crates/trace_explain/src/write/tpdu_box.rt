//! The box of a TPDU, row by row.
ghost use Rattle.std.specs.Prelude.{◌≡◌, false};
ghost use Rattle.trace_explain.specs.Boxes.{HasAsker, IsAnswer, IsBeside, IsData, IsDataRow, IsFields, IsPlain, IsStatus, IsTitle, IsTogether, PutsBeside, PutsBox, PutsDataRow, PutsWhole, ShowsData, no_data, side_of, status_side};
ghost use Rattle.trace_explain.specs.Sheets.{Adds, Puts, PutsText};
ghost use Rattle.trace_explain.specs.Reports.{report_of};

use crate::describe::block_words::push_blocks;
use crate::describe::clock::{Clock, push_duration};
use crate::describe::mask::{Mask, Origin, Shown, push_hidden_line};
use crate::describe::meaning::{is_well, push_meaning};
use crate::describe::outline::{Outline, name_of};
use crate::describe::phrases;
use crate::follow::links::{Link, Links, Whole};
use crate::follow::story::{Story, header_of};
use crate::follow::tpdu::{Tpdu, are_status};
use crate::instructions::may_have_objects;
use crate::write::ascii::push_digits;
use crate::write::fields::{Fields, push_data, push_fields, shows_tree};
use crate::write::html::{push_bar, push_beside, push_box_end};
use crate::write::layout::{Kind, Medium, Side};
use crate::write::output::Output;
use crate::write::page::Page;
use crate::write::row::{ROW_INDENT, push_lines_row, push_row_of};
use crate::write::sheet::Sheet;
use crate::write::shown::{push_header, push_line, push_status, push_title};
use crate::write::tree::push_tree;
use apdu_core::count;
use t0_core::Direction;

/// Adds the box of a TPDU; nothing for a summary. `links` and `story` link it to earlier TPDUs;
/// `links` must be what `story` returned for this one.
pub fn tell_box(
    tpdu: &Tpdu,
    links: Links,
    clock: &Clock,
    story: &Story,
    mask: &Mask,
    output: &mut Output,
)
    requires asker { HasAsker tpdu.now.header.items links }
    ensures layout { output.new.sheet.layout ≡ output.old.sheet.layout }
    ensures puts { output.old.sheet.layout.is_summary ≡ false →
        PutsBox mask.now links.number (report_of tpdu.now) output.old.sheet
        output.new.sheet }
{
    if output.sheet.layout().is_summary {
        return;
    }
    output.join();
    let is_hidden = mask.hides_header(tpdu.is_doubtful());
    let outline = Outline::of(tpdu, is_hidden);
    let status = tpdu.status.as_slice();
    tell_title(&outline, name_of(tpdu), status, links, tpdu.line, output);
    tell_beside(tpdu, links, mask, output);
    let (all, card) = clock.took_us();
    push_bar(&mut output.sheet, all, card);
    push_line(&mut output.sheet, tpdu.line);
    tell_fields(tpdu, &outline, links, clock, mask, output);
    output.page.push_file();
    output.row(Side::Nobody, "file");
    push_time(&mut output.page.lines, clock);
    output.row(Side::Nobody, "time");
    push_dropped(&mut output.page.lines, links.drops_before);
    output.row(Side::Nobody, "before");
    push_blocks(&mut output.page.lines, &tpdu.blocks);
    output.row(Side::Nobody, "blocks");
    push_header(&mut output.sheet, is_hidden, tpdu.header.as_slice());
    phrases::push_procedure(&mut output.page.lines, outline.tally);
    output.row(Side::Card, "procedure");
    tell_data(tpdu, links, mask, output);
    push_most(&mut output.page.lines, tpdu.le, hides_le(tpdu, links, mask));
    output.row(Side::Terminal, "Le");
    tell_answer(tpdu, links, mask, output);
    tell_status(&outline, status_side(tpdu), status, output);
    push_dropped(&mut output.page.lines, links.drops_after);
    output.row(Side::Nobody, "after");
    tell_together(tpdu, links, story.whole(links.whole), mask, output);
    push_box_end(&mut output.sheet);
}

/// Adds the title of the box up to its line. `name` is the name or path of SELECT.
fn tell_title(
    outline: &Outline,
    name: &[u8],
    status: &[u8],
    links: Links,
    began: u64,
    output: &mut Output,
)
    ensures { Puts (IsTitle links.number status.now) output.old.sheet output.new.sheet }
{
    phrases::push_title(&mut output.page.lines, outline, name);
    phrases::push_links(&mut output.page.lines, links);
    output.page.wrap_title(links.number, began);
    let (kind, number, words) = (kind_of(outline), links.number, &output.page.text);
    push_title(&mut output.sheet, kind, number, words, status);
    output.page.text.clear();
}

/// Adds the card's data to the title on a page.
fn tell_beside(tpdu: &Tpdu, links: Links, mask: &Mask, output: &mut Output)
    requires asker { HasAsker tpdu.now.header.items links }
    ensures { Puts (IsBeside mask.now tpdu.now.is_loose tpdu.now.way tpdu.now.header.items
        tpdu.now.moved.items) output.old.sheet output.new.sheet }
{
    if tpdu.way != Some(Direction::FromCard) || !output.page.is_html() {
        return;
    }
    if let Some(origin) = Origin::of(tpdu, links, Direction::FromCard) {
        tell_value(mask.shown(origin), tpdu.moved.as_slice(), mask, output);
    }
}

/// Adds data to the title, as far as they are shown.
fn tell_value(shown: Shown, bytes: &[u8], mask: &Mask, output: &mut Output)
    ensures { PutsBeside shown mask.now.tags.items bytes.now output.old.sheet output.new.sheet }
{
    output.page.lines.clear();
    push_shown(&mut output.page, shown, true, bytes, mask);
    push_beside(&mut output.sheet, &output.page.lines);
    output.page.lines.clear();
}

/// Adds the fields that only JSON has.
fn tell_fields(
    tpdu: &Tpdu,
    outline: &Outline,
    links: Links,
    clock: &Clock,
    mask: &Mask,
    output: &mut Output,
)
    ensures { Puts IsFields output.old.sheet output.new.sheet }
{
    match output.sheet.layout().medium {
        Medium::Json => {
            let fields = fields_of(tpdu, outline, links, clock, mask);
            push_fields(&mut output.sheet, fields);
        }
        _ => {}
    }
}

/// The fields that only JSON has.
fn fields_of(tpdu: &Tpdu, outline: &Outline, links: Links, clock: &Clock, mask: &Mask) -> Fields {
    let hides_le = hides_le(tpdu, links, mask);
    Fields {
        time_us: clock.began_us(),
        instruction: outline.instruction(),
        continues: links.joins.then_some(links.number.saturating_sub(1)),
        is_again: links.joins && matches!(links.link, Link::AskedAgain(_)),
        le: tpdu.le.filter(|_| !hides_le).map(|le| u64::from(count(le))),
        hides_le,
        is_masked: outline.is_hidden || masked(tpdu, links, mask) != (false, false),
    }
}

/// Whether a mask hides some of the terminal's data, and of the card's.
pub fn masked(tpdu: &Tpdu, links: Links, mask: &Mask) -> (bool, bool) {
    let of_way = tpdu.way.and_then(|way| Origin::of(tpdu, links, way));
    let is_hidden = of_way.is_some_and(|origin| mask.hides_some(origin));
    if tpdu.way == Some(Direction::FromCard) {
        return (false, is_hidden);
    }
    let answer = Origin::of_answer(tpdu, links).filter(|_| !tpdu.answer.is_empty());
    (
        is_hidden,
        answer.is_some_and(|origin| mask.hides_some(origin)),
    )
}

/// Adds the time of the line where the TPDU begins. JSON has a field for it. A page adds how long
/// the TPDU took.
fn push_time(lines: &mut Sheet, clock: &Clock) {
    let (all, card) = clock.took_us();
    match lines.layout().medium {
        Medium::Json => {}
        Medium::Html if all > 0 => {
            clock.push_begin(lines);
            lines.push_str("took ");
            push_duration(lines, all.saturating_mul(1_000));
            lines.push_str(", of which the card ");
            push_duration(lines, card.saturating_mul(1_000));
            lines.push_str("\n");
        }
        _ => clock.push_begin(lines),
    }
}

/// Adds Le after data of the terminal. JSON has a field for it.
fn push_most(lines: &mut Sheet, le: Option<u8>, is_hidden: bool) {
    match lines.layout().medium {
        Medium::Json => {}
        _ if is_hidden => push_hidden_line(lines),
        _ => phrases::push_most(lines, le),
    }
}

/// Whether a mask hides Le: it hides all data of the terminal, whose last byte Le may be.
fn hides_le(tpdu: &Tpdu, links: Links, mask: &Mask) -> bool {
    tpdu.le.is_some()
        && Origin::of(tpdu, links, Direction::ToCard).is_some_and(|origin| matches!(
            mask.shown(origin),
            Shown::Nothing
        ))
}

/// The kind of the box, by the status.
fn kind_of(outline: &Outline) -> Kind {
    let (Some(status), Some((header, _))) = (outline.status, outline.header) else {
        return Kind::CutOff;
    };
    match status.sw1() {
        _ if is_well(header, status) => Kind::Well,
        0x62 | 0x63 => Kind::Warning,
        _ => Kind::Failed,
    }
}

/// Adds the text of the row of a dropped chain, if it is.
fn push_dropped(lines: &mut Sheet, drops: bool) {
    if drops {
        lines.push_str("the chain is dropped\n");
    }
}

/// Adds the row of the data: as a tree if they may be objects and are some.
fn tell_data(tpdu: &Tpdu, links: Links, mask: &Mask, output: &mut Output)
    requires asker { HasAsker tpdu.now.header.items links }
    ensures { Puts (IsData mask.now tpdu.now.is_loose tpdu.now.way tpdu.now.header.items
        tpdu.now.moved.items) output.old.sheet output.new.sheet }
{
    let Some(way) = tpdu.way else {
        return;
    };
    let Some(origin) = Origin::of(tpdu, links, way) else {
        return;
    };
    let may_be_objects = way == Direction::FromCard
        || (may_be_objects(tpdu, links) && has_place(tpdu, output.sheet.layout().medium));
    let (shown, side) = (mask.shown(origin), side_of(way));
    let bytes = tpdu.moved.as_slice();
    tell_row(shown, side, may_be_objects, bytes, mask, output);
}

/// Whether objects in the terminal's data have a place: JSON shows those of the card alone, if it
/// returned data, too.
fn has_place(tpdu: &Tpdu, medium: Medium) -> bool {
    tpdu.answer.is_empty() || !matches!(medium, Medium::Json)
}

/// The end that sends data this way.
fn side_of(way: Direction) -> Side
    ensures { result ≡ side_of way }
{
    match way {
        Direction::ToCard => Side::Terminal,
        Direction::FromCard => Side::Card,
    }
}

/// Adds a row of data, as far as they are shown.
fn tell_row(
    shown: Shown,
    side: Side,
    may_be_objects: bool,
    bytes: &[u8],
    mask: &Mask,
    output: &mut Output,
)
    ensures { Puts (IsDataRow shown mask.now.tags.items side may_be_objects bytes.now)
        output.old.sheet output.new.sheet }
{
    match output.sheet.layout().medium {
        Medium::Json => push_data(
            &mut output.sheet,
            shown,
            side,
            may_be_objects,
            bytes,
            mask,
            &mut output.page.text,
        ),
        _ => tell_lines(shown, side, may_be_objects, bytes, mask, output),
    }
}

/// Adds a row of data in text or on a page.
fn tell_lines(
    shown: Shown,
    side: Side,
    may_be_objects: bool,
    bytes: &[u8],
    mask: &Mask,
    output: &mut Output,
)
    ensures { PutsDataRow shown mask.now.tags.items side may_be_objects bytes.now output.old.sheet
        output.new.sheet }
{
    output.page.lines.clear();
    push_shown(&mut output.page, shown, may_be_objects, bytes, mask);
    push_row_of(&mut output.sheet, side, "data", &output.page.lines);
    output.page.lines.clear();
}

/// Adds the lines of data to those of the page, as far as they are shown: as a tree if they may be
/// objects and are some, otherwise as digits with text beside them. The page's text must be empty.
fn push_shown(page: &mut Page, shown: Shown, may_be_objects: bool, bytes: &[u8], mask: &Mask)
    ensures { PutsText (ShowsData shown mask.now.tags.items may_be_objects bytes.now)
        page.old.lines page.new.lines }
{
    let (lines, words) = (&mut page.lines, &mut page.text);
    let may_be_objects = shows_tree(shown, may_be_objects);
    let some = push_tree(lines, false, may_be_objects, bytes, mask, words);
    if !some {
        push_plain(&mut page.lines, shown, bytes);
    }
}

/// Adds data as lines of digits, or a line in place of them if some are hidden.
fn push_plain(lines: &mut Sheet, shown: Shown, bytes: &[u8])
    ensures { PutsText (IsPlain shown bytes.now) lines.old lines.new }
{
    match shown {
        Shown::All => push_digits(lines, bytes),
        _ => lines.push_str("\n**"),
    }
}

/// Adds the row of the data that the card returned beside those of the terminal, if any. In JSON
/// an end without data has an empty field.
fn tell_answer(tpdu: &Tpdu, links: Links, mask: &Mask, output: &mut Output)
    requires asker { HasAsker tpdu.now.header.items links }
    ensures { Puts (IsAnswer mask.now tpdu.now.is_loose tpdu.now.way tpdu.now.header.items
        tpdu.now.answer.items) output.old.sheet output.new.sheet }
{
    let bytes = tpdu.answer.as_slice();
    if bytes.is_empty() {
        push_no_data(&mut output.sheet, tpdu.way);
        return;
    }
    if let Some(origin) = Origin::of_answer(tpdu, links) {
        tell_row(mask.shown(origin), Side::Card, true, bytes, mask, output);
    }
}

/// Adds an empty field for each end whose data did not move this way. Only JSON has them.
fn push_no_data(sheet: &mut Sheet, way: Option<Direction>)
    ensures { Adds sheet.old (no_data sheet.old.layout.medium way) sheet.new }
{
    match (sheet.layout().medium, way) {
        (Medium::Json, None) => sheet.push_str(",\"sent\":\"\",\"received\":\"\""),
        (Medium::Json, Some(Direction::ToCard)) => sheet.push_str(",\"received\":\"\""),
        (Medium::Json, Some(Direction::FromCard)) => sheet.push_str(",\"sent\":\"\""),
        _ => {}
    }
}

/// Adds the row of the status, or of the cut.
fn tell_status(outline: &Outline, side: Side, status: &[u8], output: &mut Output)
    ensures { Puts (IsStatus side status.now) output.old.sheet output.new.sheet }
{
    push_status_words(outline, &mut output.page);
    output.page.wrap(status_columns(status.len()));
    push_status(&mut output.sheet, side, status, &output.page.text);
    output.page.text.clear();
}

/// The column after a status of this many bytes.
fn status_columns(bytes: usize) -> usize {
    let gap = usize::from(bytes > 0);
    let digits = bytes.saturating_mul(2);
    ROW_INDENT.len().saturating_add(digits).saturating_add(gap)
}

/// The end that sends the status: neither if it is cut off.
fn status_side(tpdu: &Tpdu) -> Side
    ensures { result ≡ status_side tpdu.now.header.items tpdu.now.status.items }
{
    if are_status(tpdu.status.as_slice()) && tpdu.header.len() == 5 {
        Side::Card
    } else {
        Side::Nobody
    }
}

/// Adds the meaning of the status, or where the TPDU is cut off.
fn push_status_words(outline: &Outline, page: &mut Page) {
    let (Some(status), Some((header, _))) = (outline.status, outline.header) else {
        phrases::push_cut_off(&mut page.lines, outline);
        return;
    };
    push_meaning(&mut page.lines, header, status);
}

/// Adds the row of data that are shown together, if there are any.
fn tell_together(tpdu: &Tpdu, links: Links, bytes: &[u8], mask: &Mask, output: &mut Output)
    requires asker { HasAsker tpdu.now.header.items links }
    ensures { Puts (IsTogether mask.now tpdu.now.is_loose tpdu.now.header.items)
        output.old.sheet output.new.sheet }
{
    if bytes.is_empty() || matches!(output.sheet.layout().medium, Medium::Json) {
        return;
    }
    let Some(origin) = Origin::of_whole(tpdu, links, bytes) else {
        return;
    };
    tell_whole(links.whole, mask.shown(origin), bytes, mask, output);
}

/// Adds the row of data that are shown together, after their size.
fn tell_whole(whole: Whole, shown: Shown, bytes: &[u8], mask: &Mask, output: &mut Output)
    ensures { PutsWhole whole shown mask.now.tags.items bytes.now output.old.sheet
        output.new.sheet }
{
    output.page.lines.clear();
    phrases::push_whole(&mut output.page.lines, whole, bytes.len() as u64);
    push_shown(&mut output.page, shown, true, bytes, mask);
    let lines = &output.page.lines;
    push_lines_row(&mut output.sheet, Side::Nobody, "together", lines);
    output.page.lines.clear();
}

/// Whether the terminal's data may be objects: no piece of a chain, name, path, or reference data.
fn may_be_objects(tpdu: &Tpdu, links: Links) -> bool {
    let is_whole = matches!(
        links.link,
        Link::None | Link::AskedAgain(_) | Link::Fetches(_) | Link::FetchesMore(_)
    );
    is_whole && header_of(tpdu).is_some_and(|(header, _)| may_have_objects(header))
}
