//! Operations with a card of data objects over T=1 (ISO/IEC 7816-3, clause 11).
//!
//! A [`DataApplet`] is the card above its end of a line. [`run`] carries out a list of operations
//! over a `Line` of `t1_core`, under its `Settings`. [`Operated`] is the result: the card, the
//! answers and the fault, if the terminal gave up. Operations with a new card:
//!
//! ```rust
//! // crates/proved_calls/src/calls.rt
//! let card = DataApplet::new(rt.alloc(), end);
//! assert!(rt; card.card().is_idle());
//! run(rt.alloc(), card, line, settings, ops).expect(rt, "memory")
//! ```
//!
//! Proved: over any line that delivers, damages or loses blocks, the answers are the first of those
//! of the card that answers each operation in one step, and the outcome in a fault is true. The
//! README lists the claims; start with `HasRun` in `specs/Operated`.
#![tactic(auto)]

mod data_applet;
pub mod laws;
mod operation;
mod operations;

pub use data_applet::DataApplet;
pub use operations::{Operated, run};
