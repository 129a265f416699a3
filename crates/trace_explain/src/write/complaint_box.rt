//! The boxes of protocol errors: unexpected bytes, and unexpected commands or answers.

use crate::describe::complaint::{ASTRAY, Complaint, end_text, expected_text};
use crate::describe::mask::Mask;
use crate::follow::pair::PairFault;
use crate::write::layout::{Anchor, Kind, Side, Topic};
use crate::write::page::Page;

/// Adds the box of a protocol error with this name, an unexpected byte.
pub fn tell_complaint(anchor: Anchor, complaint: Complaint, page: &mut Page) {
    page.open(Kind::Error, anchor, Topic::Byte, complaint.line);
    let character = complaint.place.saturating_add(1);
    page.push_place(complaint.line);
    writeln!(page.lines, ", character {character}");
    page.row(Side::Nobody, "place");
    writeln!(page.lines, "{}", expected_text(complaint.expected));
    page.row(Side::Nobody, "expected");
    let (received, from) = (complaint.received, end_text(complaint.from));
    writeln!(page.lines, "{received} from the {from}");
    if received.hides {
        page.lines.hide();
    }
    page.row(Side::Nobody, "received");
    if complaint.is_astray {
        page.lines.push_str(ASTRAY);
        page.line_row("hint", "\n");
    }
    page.close();
}

/// Adds the box of a protocol error with this name, a command with its answer, if any. If the mask
/// hides anything, it hides both.
pub fn tell_bad_pair(
    anchor: Anchor,
    why: PairFault,
    command: &[u8],
    answer: Option<&[u8]>,
    mask: &Mask,
    page: &mut Page,
) {
    page.open(Kind::Error, anchor, Topic::Pair, page.began);
    writeln!(page.lines, "{why}");
    page.row(Side::Nobody, "fault");
    mask.push_unknown(&mut page.lines, command);
    page.row(Side::Terminal, "command");
    match answer {
        Some(bytes) => mask.push_unknown(&mut page.lines, bytes),
        None => page.lines.push_str("none\n"),
    }
    page.row(Side::Card, "answer");
    page.close();
}
