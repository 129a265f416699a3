//! The pieces of code in the crates' READMEs, each in a file of its own. `checks/crates` runs them.
#![tactic(auto)]

pub mod apdus;
pub mod card;
pub mod commands;
pub mod line;
pub mod objects;
pub mod session;
pub mod tap;

use apdu_core::Header;
use std::alloc::{AllocError, Global};

/// PUT DATA of the object `5F20`.
const PUT: Header = Header {
    cla: 0x00,
    ins: 0xDA,
    p1: 0x5F,
    p2: 0x20,
};

/// The number of bytes of the commands that put a value.
pub fn size_of_put(alloc: Global, value: &[u8]) -> Result<usize, AllocError> {
    let mut commands = Vec::new(alloc);
    commands::write_put(PUT, value, &mut commands)?;
    Ok(commands.len())
}
