//! Notes between boxes: lines without characters, bytes outside of TPDUs, and skipped lines.

use crate::describe::mask::{HIDDEN, Mask, push_hidden_line};
use crate::resuming::Passed;
use crate::write::ascii::are_printable;
use crate::write::layout::{Medium, Topic};
use crate::write::page::Page;
use crate::write::sheet::Sheet;
use std::fmt;

/// The number of bytes of a note in a line.
const NOTE_BYTES: usize = 96;

/// The same if some are not printable. Those take four columns each.
const ODD_BYTES: usize = 24;

/// The number of bytes of a note in a fault.
const EXCERPT: usize = 64;

/// The first bytes of a note, or `**`.
#[derive(Clone, Copy)]
pub struct Excerpt {
    bytes: [u8; EXCERPT],
    /// How many bytes all of it has.
    size: usize,
}

impl Excerpt {
    /// The first bytes of this note, or `**` if the mask hides anything.
    pub fn of(note: &[u8], mask: &Mask) -> Excerpt {
        let shown = if mask.hides() {
            HIDDEN.as_bytes()
        } else {
            note
        };
        let mut bytes = [0; EXCERPT];
        for (to, from) in bytes.iter_mut().zip(shown) {
            *to = *from;
        }
        let size = shown.len();
        Excerpt { bytes, size }
    }
}

impl fmt::Display for Excerpt {
    fn fmt<W: fmt::Write>(&self, f: &mut fmt::Formatter<W>) -> fmt::Result {
        for &byte in self.bytes.iter().take(self.size) {
            match byte {
                b' '..=b'~' => f.write_char(char::from(byte))?,
                _ => write!(f, "\\x{byte:02X}")?,
            }
        }
        f.write_str(if self.size > EXCERPT { ".." } else { "" })
    }
}

/// Adds which lines were skipped, if any.
pub fn tell_passed(passed: Option<Passed>, page: &mut Page) {
    let Some(Passed { line, place, last }) = passed else {
        return;
    };
    let place = place.saturating_add(1);
    page.lines.push_str("skipped: ");
    page.push_place(line);
    write!(page.lines, " from character {place}");
    if last > line {
        page.lines.push_str(", to ");
        page.push_place(last);
    }
    page.note_line("\n");
}

/// Adds bytes outside of TPDUs, after words for them. A mask that hides anything hides the bytes.
pub fn tell_bytes(what: &str, bytes: &[u8], mask: &Mask, page: &mut Page) {
    page.lines.push_str(what);
    mask.push_unknown(&mut page.lines, bytes);
    page.note(Topic::Note);
}

/// Adds a line without characters, if not empty. A mask that hides anything hides the line.
pub fn tell_note(note: &[u8], mask: &Mask, page: &mut Page) {
    if note.is_empty() {
        return;
    }
    if mask.hides() {
        push_hidden_line(&mut page.lines);
    } else {
        push_note(&mut page.lines, note);
    }
    page.note(Topic::Note);
}

/// Adds a note, in several lines if it is long.
fn push_note(text: &mut Sheet, note: &[u8]) {
    let size = match text.layout().medium {
        Medium::Json => usize::MAX,
        _ if are_printable(note) => NOTE_BYTES,
        _ => ODD_BYTES,
    };
    for piece in note.chunks(size) {
        push_printable(text, piece);
        text.push('\n');
    }
}

/// Adds the bytes of a note: printable ASCII as it is, others as `\xHH`.
pub fn push_printable(text: &mut Sheet, bytes: &[u8]) {
    for &byte in bytes {
        match byte {
            b' '..=b'~' => text.push(char::from(byte)),
            _ => write!(text, "\\x{byte:02X}"),
        }
    }
}
