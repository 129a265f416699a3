//! An operation before its first character, so that it can be sent in another way.
use apdu_core::Command;

/// The commands of an operation that has sent nothing yet.
#[derive(Drop)]
pub struct Unsent<'a> {
    /// The first command.
    pub first: Command<'a>,
    /// P1 of the first command, and of all commands of a put.
    pub p1: u8,
    /// P2 of them.
    pub p2: u8,
    /// The bytes to put after the first command's data; empty if no other command follows.
    pub rest: &'a [u8],
}
