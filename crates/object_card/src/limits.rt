//! The limits of a card (profile).

/// The most bytes of a data object's value, without its tag and length.
pub const VALUE_LIMIT: usize = 8_192;

/// The most data objects of an application.
pub const ENTRY_LIMIT: usize = 64;

/// The most applications of a card.
pub const APPLICATION_LIMIT: usize = 8;

/// The most bytes of an addressable tag and a value's length together.
pub const HEAD_LIMIT: usize = 5;
