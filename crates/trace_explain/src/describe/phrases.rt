//! Words for a TPDU and its place among others.
ghost use Rattle.trace_explain.specs.Boxes.{size_words, whole_words};
ghost use Rattle.trace_explain.specs.Sheets.{Adds};

use crate::describe::mask::HIDDEN;
use crate::describe::outline::Outline;
use crate::describe::parts::push_command;
use crate::follow::links::{Link, Links, Whole};
use crate::follow::tally::Tally;
use crate::write::sheet::Sheet;
use apdu_core::count;
use t0_core::Direction;

/// Adds the title of a TPDU: its command and what it selects, or that the header is cut off; or
/// `**` if it is hidden.
pub fn push_title(text: &mut Sheet, outline: &Outline, selected: &[u8]) {
    match outline.header {
        _ if outline.is_hidden => text.push_str(HIDDEN),
        Some((header, _)) => push_command(text, header, selected),
        None => text.push_str("part of a header"),
    }
}

/// Adds how a TPDU continues those before it.
pub fn push_links(text: &mut Sheet, links: Links) {
    match links.link {
        Link::None => {}
        Link::AskedAgain(count) => write!(text, ", asked again for {count} {}", unit_of(count)),
        Link::Fetches(count) => write!(text, ", fetches {count}"),
        Link::FetchesMore(count) => write!(text, ", fetches {count} more"),
        Link::Piece(number) => write!(text, ", piece {number} of a chain"),
        Link::LastPiece(number) => write!(text, ", piece {number} of a chain, the last"),
        Link::LaterPiece => text.push_str(", a piece of a chain"),
        Link::LastOfLater => text.push_str(", the last piece of a chain"),
    }
}

/// Adds how many procedure bytes there are of each kind that occurs.
pub fn push_procedure(text: &mut Sheet, tally: Tally) {
    let Tally { nulls, ones, alls } = tally;
    push_kind(text, nulls, ("NULL", "NULLs"), ones > 0 || alls > 0);
    push_kind(text, ones, ("single byte", "single bytes"), alls > 0);
    match alls {
        0 => {}
        1 if ones == 0 => text.push_str("all at once"),
        1 => text.push_str("the rest at once"),
        alls => write!(text, "{alls} times all that is left"),
    }
}

/// Adds Le of a command with data, if it has one.
pub fn push_most(text: &mut Sheet, le: Option<u8>) {
    if let Some(le) = le {
        let most = count(le);
        writeln!(text, "{le:02X} up to {most} {}", unit_of(most));
    }
}

/// Adds where a TPDU is cut off: after `n` characters of its header, or after `n` bytes of the data
/// that P3 foresees. Before data or after SW1 it adds no place.
pub fn push_cut_off(text: &mut Sheet, outline: &Outline) {
    text.push_str("cut off");
    match (outline.header, outline.way) {
        _ if outline.has_sw1 => {}
        (Some(_), _) if outline.is_hidden => {}
        (None, _) => write!(text, " after {} of 5 characters", outline.received),
        (Some(_), None) => {}
        (Some((_, p3)), Some(way)) => {
            let foreseen = match way {
                Direction::ToCard => u16::from(p3),
                Direction::FromCard => count(p3),
            };
            let (came, unit) = (outline.moved, unit_of(foreseen));
            write!(text, " after {came} of {foreseen} {unit}");
        }
    }
    text.push('\n');
}

/// Adds how many procedure bytes there are of one kind, and a comma if more follows.
fn push_kind(text: &mut Sheet, count: u64, units: (&str, &str), more: bool) {
    if count > 0 {
        let unit = if count == 1 { units.0 } else { units.1 };
        let comma = if more { ", " } else { "" };
        write!(text, "{count} {unit}{comma}");
    }
}

/// Adds the size of the data that are shown together, and how many TPDUs moved them.
pub fn push_whole(lines: &mut Sheet, whole: Whole, size: u64)
    ensures { Adds lines.old (whole_words whole size) lines.new }
{
    match whole {
        Whole::None => {}
        Whole::Response(parts) => push_size(lines, size, parts, " parts:"),
        Whole::Value(pieces) => push_size(lines, size, pieces, " pieces:"),
    }
}

/// Adds a size, and a number of parts.
fn push_size(lines: &mut Sheet, size: u64, count: u64, parts: &str)
    ensures { Adds lines.old (size_words size count parts.now) lines.new }
{
    lines.push_number(size);
    lines.push_str(" bytes in ");
    lines.push_number(count);
    lines.push_str(parts);
}

/// The unit for this number of bytes.
pub fn unit_of(count: u16) -> &'static str {
    if count == 1 { "byte" } else { "bytes" }
}
