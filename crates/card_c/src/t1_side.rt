//! A terminal's end of a line at T=1, as a handle holds it.
use t1_core::{Receiver, TerminalEnd};

/// A terminal's end at T=1, with the block that it receives.
#[derive(Drop)]
pub struct T1Side {
    pub end: TerminalEnd,
    /// The received bytes of the card's block.
    pub block: Receiver,
}
