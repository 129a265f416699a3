//! The result of giving a terminal the characters of a buffer.
use t0_core::LineFault;

/// How many characters of the card a terminal took, and the error that stopped it, if any.
#[derive(Clone, Copy, Debug, PartialEq, Eq)]
pub struct Taken {
    /// The number of characters that were taken without an error, from the front of the buffer.
    pub count: usize,
    /// The error of the character after them; `Ok` if all were taken.
    pub outcome: Result<(), LineFault>,
}
