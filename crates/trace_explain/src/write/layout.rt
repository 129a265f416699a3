//! The layout of an explanation: text, HTML or JSON, and the kinds of boxes and rows.

/// The format of an explanation.
#[derive(Clone, Copy)]
pub enum Medium {
    /// Lines of text.
    Text,
    /// One page of HTML.
    Html,
    /// One object of JSON in each line.
    Json,
}

/// The layout of an explanation.
#[derive(Clone, Copy)]
pub struct Layout {
    /// The format.
    pub medium: Medium,
    /// Whether only the last block is written.
    pub is_summary: bool,
    /// Whether TPDUs are joined to commands.
    pub joins: bool,
}

/// Which end sent what a row shows.
#[derive(Clone, Copy)]
pub enum Side {
    /// The terminal.
    Terminal,
    /// The card.
    Card,
    /// Neither: the program adds the row, or it is the status of a TPDU that is cut off.
    Nobody,
}

/// What a box of rows is about.
#[derive(Clone, Copy)]
pub enum Kind {
    /// A success: also `61XX` and `6CXX`, an answer to reset, or a PPS exchange.
    Well,
    /// A TPDU with a warning: SW1 is `62` or `63`.
    Warning,
    /// A TPDU with any other status.
    Failed,
    /// Something that was cut off, or a PPS exchange that is not valid.
    CutOff,
    /// A protocol error, or an invalid answer to reset.
    Error,
}

/// What a box or a note is about, if it is not a TPDU.
#[derive(Clone, Copy)]
pub enum Topic {
    /// An answer to reset.
    Answer,
    /// A PPS exchange.
    Pps,
    /// An unexpected byte.
    Byte,
    /// An unexpected command or answer of a log.
    Pair,
    /// A line without characters, or bytes outside of TPDUs.
    Note,
    /// A reset.
    Reset,
    /// A command of several TPDUs.
    Command,
    /// Blocks of T=1 that belong to no whole command with its response.
    Blocks,
}

/// The name of a box in links.
#[derive(Clone, Copy)]
pub enum Anchor {
    /// No name.
    None,
    /// The TPDU of this number, counted from 1.
    Tpdu(u64),
    /// The protocol error of this number, counted from 1.
    Error(u64),
}
