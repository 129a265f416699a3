//! The operations that a session runs with a card of data objects.
use crate::bytes::Bytes;
use object_card::Aid;
use std::alloc::{Allocator, Global};
use tlv_core::ObjectTag;

/// The most bytes of a value to put (profile). A session itself puts values of any length; programs
/// that read operations from a user check this limit.
pub const PUT_LIMIT: usize = 16_320;

/// An operation of a session with a card of data objects.
#[derive(Drop)]
pub enum Op<A: Allocator = Global> {
    /// Selects the application with this identifier.
    Select(Aid),
    /// Reads the data object with this tag in the selected application.
    Get(ObjectTag),
    /// Stores this value under the tag in the selected application.
    Put(ObjectTag, Bytes<A>),
}
