//! What the lines of a trace contain: each reader of lines gives these entries.

use t0_core::End;

/// Who sends the characters of a line.
#[derive(Clone, Copy)]
pub enum Source {
    /// The end of the line's row, which is of this form.
    Sign(usize, End),
    /// The end whose turn it is.
    Turn,
}

/// What a line contains. A line of a log has one entry or more, or continues the entry before.
#[derive(Drop)]
pub enum Entry {
    /// Characters, perhaps after a time. A log has none.
    Characters(Source, Vec<u8>),
    /// A command begins. This and the next four are of a log of whole TPDUs or APDUs.
    Begins,
    /// A command and its answer.
    Pair(Vec<u8>, Vec<u8>),
    /// A command without an answer.
    Unanswered(Vec<u8>),
    /// An answer without a command.
    Stray(Vec<u8>),
    /// The first bytes of a dump, which the end of the log cut off: of a command or an answer.
    Part(End, Vec<u8>),
    /// `reset`: the card was reset.
    Reset,
    /// Anything else.
    Note,
}
