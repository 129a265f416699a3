//! The TPDUs of a trace that a comparison keeps, each with its box.

use crate::follow::tpdu::Tpdu;

/// A TPDU and its box.
#[derive(Drop)]
pub struct Kept {
    /// The TPDU.
    pub tpdu: Tpdu,
    /// The text of its box.
    pub text: String,
}

/// The TPDUs that are kept in place of being written.
#[derive(Drop)]
pub struct Keeping {
    /// Whether TPDUs are kept.
    pub is_on: bool,
    /// The kept TPDUs.
    pub all: Vec<Kept>,
}
