//! Operations of a terminal at T=0 (ISO/IEC 7816-3, clause 12), each a list of commands.
//!
//! A [`Terminal`] runs SELECT, GET DATA, a put or one command; its caller passes the characters or
//! the whole TPDUs. A [`Session`] joins a terminal to a `t0_core::CardEnd`, and runs [`Op`]s into
//! [`Answers`]. [`Answer`] and [`HeldAnswer`] are a status with its data. [`StartFault`],
//! [`BeginFault`] and [`SessionFault`] are the errors. An [`Exchange`], of `exchange_core`, is one
//! command with all its TPDUs. This runs a list of operations:
//!
//! ```rust
//! // crates/library_use/src/session.rt
//! session.run(alloc, &ops, &mut plans, &mut Silent, &mut answers)?;
//! ```
//!
//! Proved: the answers of `Session::run` are those of a card that does each operation in one step.
//! The README lists the contracts; start with `specs/Talk`. `talk_laws`, `tap_laws` and
//! `terminal_laws` are laws about definitions.
#![tactic(auto)]

mod answers;
mod bytes;
mod commands;
mod held_answer;
mod operation;
mod session;
mod session_fault;
pub mod talk_laws;
pub mod tap_laws;
mod terminal;
pub mod terminal_laws;
mod unsent;

pub use answers::Answers;
pub use bytes::Bytes;
pub use commands::{get_command, put_header, select_command};
pub use exchange_core::{
    Answer, Attempt, Exchange, GET_RESPONSE, HandedOut, Next, OwnedExchange, RESPONSE_LIMIT,
    StartFault, Taken, Wanted, laws,
};
pub use held_answer::HeldAnswer;
pub use operation::{Op, PUT_LIMIT};
pub use session::Session;
pub use session_fault::SessionFault;
pub use terminal::{BeginFault, Terminal};
pub use unsent::Unsent;
