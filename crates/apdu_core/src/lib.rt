//! Command APDUs in short form, status words and command chaining (ISO/IEC 7816-4, clause 5).
//!
//! A terminal makes a [`Command`] of a [`Header`], data and Le, and writes its bytes. [`pieces`]
//! cuts a value that is too long for one command into the commands of a chain. The card parses a
//! command by [`Command::read`], gathers a chain in a [`Chain`], and answers with a [`Status`].
//! [`MEANINGS`] has its meanings. [`ApduFault`] and [`TooLong`] are the errors. This writes the
//! commands that put a value:
//!
//! ```rust
//! // crates/library_use/src/commands.rt
//! for command in pieces(header, value) {
//!     command.write(out)?;
//! }
//! ```
//!
//! Proved: reading and writing agree with the standard's four cases, each error comes exactly in
//! its case, and a chain carries its value unchanged. The README lists the contracts; `laws` holds
//! laws for proofs in the crates above.
#![tactic(auto)]

mod chain;
mod command;
mod cut;
mod header;
pub mod laws;
mod meaning;
mod shared;
mod status;

pub use chain::{Chain, TooLong};
pub use command::{ApduFault, Command};
pub use cut::{Pieces, pieces};
pub use header::Header;
pub use meaning::{Commands, MEANINGS, Meaning};
pub use shared::{GET_RESPONSE, RESPONSE_LIMIT};
pub use status::{Status, count};
