//! Both ends of whole commands (ISO/IEC 7816-4, 5.1): for cards at T=1 or without contacts, and for
//! readers that fetch by themselves.
//!
//! An [`ApduTerminal`] carries out operations, without a borrow. [`write_command`] writes its
//! commands. An [`ApduExchange`] is one command with all that follows it, and [`Stage`] its stage.
//! [`apdu`] carries a command out at a card that takes TPDUs, and [`respond`] at a card of data
//! objects. [`run`] joins both ends for a list of operations. [`CarryFault`] is the card's error.
//! The body of a terminal's loop:
//!
//! ```rust
//! // crates/library_use/src/apdus.rt
//! let Some(command) = terminal.apdu() else {
//!     break;
//! };
//! let count = write_command(&command, &mut bytes)?;
//! let sent = Command::read(bytes.get(..count)?).ok()?;
//! let response = respond(alloc, card, sent).ok()?;
//! let (data, status) = (response.data(), response.status()?);
//! terminal.responded(data, status).ok()?;
//! ```
//!
//! Proved: each operation by whole commands has the answer and the tables of a card that carries it
//! out in one step. The README lists the contracts; `laws`, `terminal_laws` and `stop_laws` hold
//! laws for proofs in the crates above.
#![tactic(auto)]

mod apdu_fault;
mod card_apdu;
mod card_response;
mod command_bytes;
mod exchange;
pub mod laws;
mod operations;
mod stage;
pub mod stop_laws;
mod terminal;
pub mod terminal_laws;

pub use apdu_fault::CarryFault;
pub use card_apdu::apdu;
pub use card_response::respond;
pub use command_bytes::{COMMAND_LIMIT, write_command};
pub use exchange::ApduExchange;
pub use operations::{begin, run};
pub use stage::Stage;
pub use terminal::ApduTerminal;
