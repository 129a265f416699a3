//! Words for a TPDU, and which of its data are shown.
pub mod block_words;
pub mod clock;
pub mod complaint;
pub mod file_names;
pub mod format;
pub mod mask;
pub mod meaning;
pub mod names;
pub mod outline;
pub mod parts;
pub mod phrases;
