//! The thread, process or reader that a line of a log names. A command's answer names the same one.

use crate::read::form_row::{Row, Rows, Saying};
use crate::read::pattern::{Part, begun, marks_in};
use crate::read::time::{behind_mark, behind_spaces, cut_time, place_of};
use std::alloc::{AllocError, Global};
use t0_core::End;

/// ESC, which begins a colour.
const ESC: u8 = 0x1B;

/// Words before the number of a thread, process or reader, or before its name in quotes.
static KINDS: [&str; 10] = [
    "thread", "tid", "process", "pid", "reader", "slot", "card", "sam", "port", "client",
];

/// Words of a line's level, which a command and its answer need not share.
static LEVELS: [&str; 12] = [
    "critical",
    "debug",
    "error",
    "fatal",
    "fine",
    "info",
    "information",
    "notice",
    "trace",
    "verbose",
    "warn",
    "warning",
];

/// The most bytes of channels that are kept.
const KEPT: usize = 1024;

/// Which channels a log has had: the names of threads, processes and readers.
#[derive(Drop)]
pub struct Channels {
    alloc: Global,
    /// That of the last command. It is empty if its line names none.
    command: Vec<u8>,
    /// Whether an answer has had that of its command.
    are_alike: bool,
    /// Those of answers to commands of another one, an LF after each.
    others: Vec<u8>,
    /// Whether the text of some row may be behind anything, once a line was read.
    has_any: Option<bool>,
}

impl Channels {
    /// No line is read yet.
    pub fn new(alloc: Global) -> Channels {
        Channels {
            alloc,
            command: Vec::new(alloc),
            are_alike: false,
            others: Vec::new(alloc),
            has_any: None,
        }
    }

    /// Takes a line of a log. Returns whether it belongs to another channel than the command
    /// before, so that it can't be an answer to it. `is_open`: a line before may continue in it.
    /// Returns `AllocError` if memory ran out.
    pub fn mixes(&mut self, rows: &Rows, is_open: bool, line: &[u8]) -> Result<bool, AllocError> {
        if !self.may_name(rows, line) {
            return Ok(false);
        }
        self.mixes_if_named(rows, is_open, line)
    }

    /// The same of a line that may name a channel. For speed: apart, since most lines don't.
    #[inline(never)]
    fn mixes_if_named(
        &mut self,
        rows: &Rows,
        is_open: bool,
        line: &[u8],
    ) -> Result<bool, AllocError> {
        let (label, text) = labelled(line);
        let is_labelled = !label.is_empty();
        let first = first_of(is_labelled, rows.first.as_slice(), text);
        let found = match first {
            None if is_open => rest_of(self.alloc, is_labelled, rows.rest.as_slice(), text),
            _ => first,
        };
        let Some((says, before)) = found else {
            return Ok(false);
        };
        let mut name = Vec::new(self.alloc);
        push_words(&mut name, label)?;
        push_names(&mut name, before)?;
        match says {
            Saying::Sends(End::Terminal) => Ok(self.begins(name)),
            Saying::Sends(End::Card) => self.answers(name),
            _ => Ok(self.are_alike && self.is_other(name.as_slice())),
        }
    }

    /// Whether a line may name a channel: by its first characters, or if its form has anything
    /// before a text. Most lines don't.
    fn may_name(&mut self, rows: &Rows, line: &[u8]) -> bool {
        let has_any = match self.has_any {
            Some(has_any) => has_any,
            None => has_any(rows.first.as_slice()),
        };
        self.has_any = Some(has_any);
        has_any
            || matches!(
                line,
                [b'0'..=b'9' | b'[' | b'+' | b' ' | ESC | 0xEF, ..]
                    | [b'A'..=b'Z', b'a'..=b'z', b'a'..=b'z', b' ', ..]
            )
    }

    /// Takes the channel of a command. Returns whether answers to others have had it, though a
    /// command and its answer are to have one channel, or never.
    fn begins(&mut self, name: Vec<u8>) -> bool {
        let is_mixed = has_line(self.others.as_slice(), name.as_slice());
        self.command = name;
        is_mixed
    }

    /// The same of an answer.
    fn answers(&mut self, name: Vec<u8>) -> Result<bool, AllocError> {
        if self.command.is_empty() || name.is_empty() {
            return Ok(false);
        }
        if !self.is_other(name.as_slice()) {
            self.are_alike = true;
            return Ok(!self.others.is_empty());
        }
        if self.are_alike {
            return Ok(true);
        }
        if self.others.len() > KEPT {
            self.others.clear();
        }
        if !has_line(self.others.as_slice(), name.as_slice()) {
            self.others.extend_from_slice(name.as_slice())?;
            self.others.push(b'\n')?;
        }
        Ok(false)
    }

    /// Whether this is the name of another channel than that of the last command.
    fn is_other(&self, name: &[u8]) -> bool {
        !name.is_empty() && !self.command.is_empty() && self.command.as_slice() != name
    }
}

/// Whether some of these rows has anything before its text.
fn has_any(rows: &[Row]) -> bool {
    for row in rows {
        for part in free_parts(row.head.as_slice()) {
            if matches!(part, Part::Any(_)) {
                return true;
            }
        }
    }
    false
}

/// Whether one of these lines is this name, which is not empty.
fn has_line(lines: &[u8], name: &[u8]) -> bool {
    for line in lines.split(|byte| *byte == b'\n') {
        if !line.is_empty() && line == name {
            return true;
        }
    }
    false
}

/// Returns the labels between the time of a line and its text, and this text.
fn labelled(line: &[u8]) -> (&[u8], &[u8]) {
    let line = behind_mark(line);
    let (time, text) = cut_time(line);
    let end = line.len().saturating_sub(text.len());
    (line.get(time.len()..end).unwrap_or(&[]), text)
}

/// Returns what the first row of bytes says whose text the line has, and what precedes this. Rows
/// without anything before their text count only if the line is labelled.
fn first_of<'a>(is_labelled: bool, rows: &[Row], text: &'a [u8]) -> Option<(Saying, &'a [u8])> {
    for row in rows {
        if matches!(row.says, Saying::Sends(_))
            && let Some((before, _)) = headed(is_labelled, row, text)
        {
            return Some((row.says, before));
        }
    }
    None
}

/// The same of a row of more bytes, if it is the whole line.
fn rest_of<'a>(
    alloc: Global,
    is_labelled: bool,
    rows: &[Row],
    text: &'a [u8],
) -> Option<(Saying, &'a [u8])> {
    for row in rows {
        if let Some((before, rest)) = headed(is_labelled, row, text)
            && marks_in(alloc, row.tail.as_slice(), 0, rest).is_ok()
        {
            return Some((row.says, before));
        }
    }
    None
}

/// Returns what precedes the text of a row in a line, and what follows it.
fn headed<'a>(is_labelled: bool, row: &Row, text: &'a [u8]) -> Option<(&'a [u8], &'a [u8])> {
    let head = row.head.as_slice();
    let free = free_parts(head);
    if head.is_empty() || (free.is_empty() && !is_labelled) {
        return None;
    }
    let rest = begun(head, text)?;
    let behind = begun(free, text)?;
    let before = text.get(..text.len().saturating_sub(behind.len()))?;
    Some((before, rest))
}

/// Returns the parts of a row before its first text.
fn free_parts(parts: &[Part]) -> &[Part] {
    for place in 0..parts.len() {
        if matches!(parts[place], Part::Is(_)) {
            return &parts[..place];
        }
    }
    parts
}

/// Appends the words of labels, without dashes and levels.
fn push_words(name: &mut Vec<u8>, label: &[u8]) -> Result<(), AllocError> {
    for word in label.split(|byte| *byte == b' ') {
        if word.len() > 1 && !is_level(word) {
            push_word(name, word)?;
        }
    }
    Ok(())
}

/// Appends what names a thread, process or reader in a text: after one of `KINDS`, or in brackets.
fn push_names(name: &mut Vec<u8>, text: &[u8]) -> Result<(), AllocError> {
    let mut before = b' ';
    for place in 0..text.len() {
        push_word(name, name_at(before, &text[place..]))?;
        before = text[place];
    }
    Ok(())
}

/// Appends a word and a space, or nothing if it is empty.
fn push_word(name: &mut Vec<u8>, word: &[u8]) -> Result<(), AllocError> {
    if word.is_empty() {
        return Ok(());
    }
    name.extend_from_slice(word)?;
    Ok(name.push(b' ')?)
}

/// Returns the name that begins here, behind this character; empty if none does.
fn name_at(before: u8, text: &[u8]) -> &[u8] {
    match text {
        [b'[', inside @ ..] if before != ESC => bracketed(inside),
        _ if before.is_ascii_alphanumeric() => &[],
        _ => named(text),
    }
}

/// Returns what is in brackets, if it is a number or a name. A level, a time and a duration are
/// not.
fn bracketed(inside: &[u8]) -> &[u8] {
    let size = place_of(b']', inside);
    if size == inside.len() {
        return &[];
    }
    let content = behind_spaces(inside.get(..size).unwrap_or(&[]));
    let is_time = match content {
        [] => true,
        [b'A'..=b'Z' | b'a'..=b'z', ..] => {
            is_level(content) || content.iter().any(|byte| *byte == b':')
        }
        _ => !content
            .iter()
            .all(|byte| byte.is_ascii_hexdigit() || *byte == b'x'),
    };
    if is_time { &[] } else { content }
}

/// Returns one of `KINDS` with the number behind it, or a name in quotes.
fn named(text: &[u8]) -> &[u8] {
    for kind in &KINDS {
        if begins_with(text, kind.as_bytes()) {
            let behind = text.get(kind.len()..).unwrap_or(&[]);
            let rest = behind_name(behind);
            let size = text.len().saturating_sub(rest.len());
            return if rest.len() < behind.len() {
                text.get(..size).unwrap_or(&[])
            } else {
                &[]
            };
        }
    }
    &[]
}

/// Returns what follows signs and a number, or a name in quotes; all without these.
fn behind_name(text: &[u8]) -> &[u8] {
    let signs = text.iter().take_while(|byte| is_sign(**byte)).count();
    let name = text.get(signs..).unwrap_or(&[]);
    match name {
        [quote @ (b'\'' | b'"'), inside @ ..] => {
            inside.get(place_of(*quote, inside)..).unwrap_or(text)
        }
        [b'0'..=b'9', ..] => {
            let count = name
                .iter()
                .take_while(|byte| byte.is_ascii_alphanumeric())
                .count();
            name.get(count..).unwrap_or(text)
        }
        _ => text,
    }
}

/// Whether a sign may be between a word and its number or name.
fn is_sign(byte: u8) -> bool {
    matches!(byte, b' ' | b'-' | b'_' | b'#' | b':' | b'=' | b'(' | b'[')
}

/// Whether a word, perhaps with another sign behind it, is a level.
fn is_level(word: &[u8]) -> bool {
    for level in &LEVELS {
        if begins_with(word, level.as_bytes()) && word.len() <= level.len().saturating_add(1) {
            return true;
        }
    }
    false
}

/// Whether a text begins with this word of small letters, in either case.
fn begins_with(text: &[u8], word: &[u8]) -> bool {
    if text.len() < word.len() {
        return false;
    }
    for place in 0..word.len() {
        if text[place].to_ascii_lowercase() != word[place] {
            return false;
        }
    }
    true
}
