//! The two ends of the line.

/// An end of the line.
#[derive(Clone, Copy, Debug, PartialEq, Eq, Hash)]
pub enum End {
    /// The terminal (interface device), which sends commands.
    Terminal,
    /// The card, which answers them.
    Card,
}
