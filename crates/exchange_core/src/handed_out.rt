//! The result of writing a terminal's characters to a buffer.
use t0_core::HostTurn;

/// How many characters a terminal wrote to a buffer, and why it stopped.
#[derive(Clone, Copy, Debug, PartialEq, Eq)]
pub struct HandedOut {
    /// The number of characters, which are at the front of the buffer.
    pub count: usize,
    /// What the terminal does now instead of sending. `None`: the buffer is full, and more
    /// characters may follow.
    pub stop: Option<HostTurn>,
}
