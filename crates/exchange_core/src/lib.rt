//! One command of a terminal and all that follows it (ISO/IEC 7816-3, clause 12): an exchange
//! repeats a TPDU after `6CXX`, and fetches a response after `61XX`.
//!
//! An [`Exchange`] is one command with all its TPDUs; an [`OwnedExchange`] owns the command's data,
//! and an [`ExchangeMark`] has none. [`Attempt`] is the rule that names the next TPDU, [`Wanted`]
//! what the command still wants. An [`Answer`] is a status with its data. [`HandedOut`] and
//! [`Taken`] are the results for buffers. [`StartFault`] is the error of a limit. The crate
//! `card_terminal` shows an exchange in use.
//!
//! Proved: an exchange sends and takes the characters that the standard allows, and no others. The
//! README lists the contracts; start with `specs/Gathered`. `laws` are laws about definitions.
#![tactic(auto)]

mod answer;
mod attempt;
mod exchange;
mod handed_out;
pub mod laws;
mod start_fault;
mod taken;
mod wanted;

pub use answer::Answer;
pub use attempt::{Attempt, GET_RESPONSE, Next};
pub use exchange::{Exchange, ExchangeMark, OwnedExchange, RESPONSE_LIMIT};
pub use handed_out::HandedOut;
pub use start_fault::StartFault;
pub use taken::Taken;
pub use wanted::Wanted;
