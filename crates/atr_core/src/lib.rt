//! Answers to reset and PPS exchanges of smart cards (ISO/IEC 7816-3, clauses 8 and 9).
//!
//! [`Atr::read`] parses the bytes that a card sends after a reset. The methods of [`Atr`] return
//! each value with its default: protocols, [`Fi`], Di, [`GuardTime`], [`Mode`], and those of T=1.
//! [`Atr::new`] makes an answer for a card of a [`Convention`], [`Group`]s and historical bytes.
//! [`Pps`] is a request or response, and [`agreed`] compares two. [`AtrFault`], [`BuildFault`],
//! [`PpsFault`] and [`Rfu`] are the errors. This prints the protocols that a card offers:
//!
//! ```rust
//! // crates/atr_read/src/say.rt
//! write!(output, "  protocols    ")?;
//! for t in &answer.protocols() {
//!     write!(output, " T={t}")?;
//! }
//! writeln!(output)?;
//! ```
//!
//! Proved: exactly the answers of the standard's form are read, each error is the first fault, and
//! each value equals its definition in `specs/`. The README lists the contracts. Nothing allocates.
#![tactic(auto)]

mod answer;
mod blocks;
mod build_fault;
mod characters;
mod convention;
mod edc;
mod fault;
mod group;
mod historical;
mod interface;
pub mod laws;
mod mode;
mod pps;
mod rate;
mod supply;
mod timing;
mod written;

pub use answer::Atr;
pub use blocks::block_guard_time;
pub use build_fault::BuildFault;
pub use convention::Convention;
pub use edc::Edc;
pub use fault::{AtrFault, AtrReason};
pub use group::{Group, TypedGroup};
pub use historical::{CardStatus, Category};
pub use mode::Mode;
pub use pps::{Pps, PpsFault, agreed};
pub use rate::{Fi, Rfu, di};
pub use supply::{Classes, ClockStop};
pub use timing::{BlockWaitingTime, GuardTime};
