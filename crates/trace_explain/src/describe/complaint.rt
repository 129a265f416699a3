//! Words for an unexpected byte: no dialogue continues with it.

use crate::describe::mask::HIDDEN;
use std::fmt;
use t0_core::{Direction, Due, End};

/// The hint at an unexpected byte of a trace without signs, if no answer to reset, line `reset` or
/// whole TPDU precedes it.
pub const ASTRAY: &str = "the trace may begin within a TPDU";

/// A byte of the trace, which may be hidden.
#[derive(Clone, Copy)]
pub struct Seen {
    /// The byte.
    pub byte: u8,
    /// Whether it is hidden, and shown as `**`.
    pub hides: bool,
}

impl fmt::Display for Seen {
    fn fmt<W: fmt::Write>(&self, f: &mut fmt::Formatter<W>) -> fmt::Result {
        if self.hides {
            return f.write_str(HIDDEN);
        }
        write!(f, "{:02X}", self.byte)
    }
}

/// An unexpected byte, its place, and what was expected.
#[derive(Clone, Copy)]
pub struct Complaint {
    /// The line, counted from 1.
    pub line: u64,
    /// Its place in the line, counted from 0.
    pub place: usize,
    /// What was expected.
    pub expected: Due,
    /// Which end sent the byte.
    pub from: End,
    /// The byte.
    pub received: Seen,
    /// Whether lines have no signs, and no answer to reset, line `reset` or whole TPDU precedes it.
    pub is_astray: bool,
}

impl fmt::Display for Complaint {
    fn fmt<W: fmt::Write>(&self, f: &mut fmt::Formatter<W>) -> fmt::Result {
        let (line, received) = (self.line, self.received);
        let character = self.place.saturating_add(1);
        let (from, expected) = (end_text(self.from), expected_text(self.expected));
        let is_astray = self.is_astray;
        let (or, astray) = if is_astray { ("; ", ASTRAY) } else { ("", "") };
        write!(
            f,
            "line {line}, character {character}: unexpected byte: the {from} sent {received} \
             in place of {expected}{or}{astray}"
        )
    }
}

/// Words for what is expected.
pub fn expected_text(expected: Due) -> &'static str {
    match expected {
        Due::Header => "a character of a header",
        Due::Procedure => "a procedure byte or SW1 of the card",
        Due::Data(None) => "a data character of either end",
        Due::Data(Some(Direction::ToCard)) => "a data character of the terminal",
        Due::Data(Some(Direction::FromCard)) => "a data character of the card",
        Due::SecondStatus => "SW2 of the card",
    }
}

/// The word for an end of the line.
pub fn end_text(from: End) -> &'static str {
    match from {
        End::Terminal => "terminal",
        End::Card => "card",
    }
}
