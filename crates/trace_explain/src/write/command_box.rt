//! Words for a command: a line after its TPDUs, or an object around them.
ghost use Rattle.std.specs.Prelude.{◌≡◌, true};
ghost use Rattle.trace_explain.specs.Words.{is_own};

use crate::describe::mask::Mask;
use crate::describe::meaning::push_meaning;
use crate::describe::outline::{Outline, name_of};
use crate::describe::phrases::push_title;
use crate::follow::command::{Command, Joined};
use crate::follow::links::Links;
use crate::follow::tpdu::Tpdu;
use crate::write::layout::{Anchor, Kind, Side, Topic};
use crate::write::page::Page;
use crate::write::sheet::Sheet;
use crate::write::tpdu_box::masked;
use std::alloc::AllocError;

/// Adds what precedes a TPDU in its command, which may end one and begin another. It began in this
/// line.
pub fn tell_begin(command: &mut Command, links: Links, page: &mut Page) {
    if links.joins {
        page.separate();
        return;
    }
    tell_end(command, page);
    page.begin_part(links.number);
    if !page.joins() {
        return;
    }
    if page.is_json() {
        page.open(Kind::Well, Anchor::None, Topic::Command, page.began);
        page.number("number", links.number);
    }
    page.begin_list();
}

/// Takes a TPDU that was written into its command, if commands are shown, and adds what follows it.
/// Its header may be hidden. Returns `AllocError` if memory ran out: drop the command.
pub fn tell_next(
    command: &mut Command,
    tpdu: &Tpdu,
    links: Links,
    is_hidden: bool,
    mask: &Mask,
    page: &mut Page,
) -> Result<(), AllocError> {
    if !page.joins() && !page.is_json() {
        return Ok(());
    }
    page.end_line();
    let name = if is_hidden { &[] } else { name_of(tpdu) };
    command.take(tpdu, is_hidden, name, masked(tpdu, links, mask))?;
    if !command.is_open {
        tell_end(command, page);
    }
    Ok(())
}

/// Ends the command, if it has TPDUs: what follows does not continue it.
pub fn tell_end(command: &mut Command, page: &mut Page) {
    if page.joins() && command.tpdus > 0 {
        tell_command(command, page);
    }
    command.clear();
}

/// Adds the line of a command, or the end of its object.
fn tell_command(command: &Command, page: &mut Page) {
    let (Some(first), Some(last)) = (command.first, command.last) else {
        return;
    };
    page.end_list();
    push_title(&mut page.lines, &first, command.name.as_slice());
    if page.is_json() {
        page.row(Side::Nobody, "title");
        tell_header(first, page);
        tell_joined("sent", &command.sent, page);
        tell_joined("received", &command.received, page);
        match last.status {
            Some(status) => page.bytes("status", &[status.sw1(), status.sw2()]),
            None => page.bytes("status", &[]),
        }
        push_words(&mut page.lines, last);
        page.row(Side::Nobody, "status_text");
        page.close();
        return;
    }
    page.lines.push_str(": ");
    push_status(&mut page.lines, last);
    push_size(&mut page.lines, command, first.is_hidden || last.is_hidden);
    page.command();
}

/// Adds the status of the last TPDU, or that it is cut off.
fn push_status(text: &mut Sheet, last: Outline) {
    match last.status {
        Some(status) => write!(text, "{:02X}{:02X}", status.sw1(), status.sw2()),
        None => text.push_str("cut off"),
    }
}

/// Adds the words for the status.
fn push_words(text: &mut Sheet, last: Outline) {
    match (last.header, last.status) {
        (Some((header, _)), Some(status)) => push_meaning(text, header, status),
        _ => text.push_str("cut off"),
    }
}

/// Adds how many bytes moved, unless the header is hidden, and in how many TPDUs.
fn push_size(text: &mut Sheet, command: &Command, is_hidden: bool) {
    let (sent, received) = (command.sent.size, command.received.size);
    let size = if received > 0 { received } else { sent };
    let (count, unit) = (
        command.tpdus,
        if command.tpdus == 1 { "TPDU" } else { "TPDUs" },
    );
    match size {
        _ if is_hidden => write!(text, ", in {count} {unit}"),
        1 => write!(text, ", 1 byte in {count} {unit}"),
        _ => write!(text, ", {size} bytes in {count} {unit}"),
    }
}

/// Adds the header of the first TPDU as fields.
fn tell_header(first: Outline, page: &mut Page) {
    let Some((header, _)) = first.header else {
        return;
    };
    tell_character("cla", header.cla, first.is_hidden, page);
    tell_character("ins", header.ins, first.is_hidden, page);
    tell_character("p1", header.p1, first.is_hidden, page);
    tell_character("p2", header.p2, first.is_hidden, page);
    match first.instruction() {
        "" => page.null("instruction"),
        name => page.line_row("instruction", name),
    }
}

/// Adds a character of the header as a field.
fn tell_character(label: &'static str, byte: u8, is_hidden: bool, page: &mut Page)
    requires own { is_own label.now ≡ true }
{
    if is_hidden {
        page.lines.hide();
    }
    write!(page.lines, "{byte:02X}");
    page.row(Side::Nobody, label);
}

/// Adds joined data as a field, unless they are too long.
fn tell_joined(label: &'static str, joined: &Joined, page: &mut Page)
    requires own { is_own label.now ≡ true }
{
    match joined.shown() {
        Some(bytes) => page.bytes(label, bytes),
        None if joined.is_masked => {
            page.lines.hide();
            page.row(Side::Nobody, label);
        }
        None => {}
    }
}
