//! An application of your own behind the card's end: it gets whole commands, and returns whole
//! responses.
//!
//! Implement [`Application`], or [`Eager`] for [`Copied`], and put it into a [`CommandCard`]. A
//! `t0_core::CardEnd` over that speaks T=0: procedure bytes, `61XX` with GET RESPONSE, `6CXX` with
//! the same header again. [`AppletOf`] is the same application at T=1. A card with a counter:
//!
//! ```rust
//! // crates/proved_calls/src/calls.rt
//! CardEnd::new(CommandCard::new(alloc, Copied::new(Counter::new())))
//! ```
//!
//! Proved: each TPDU does what `specs/Meaning` says, whatever the terminal sends. [`laws`] says
//! what follows: each completed command takes effect once, a terminal gathers the response, and
//! both lines answer alike. [`given_laws`] says what becomes of each response of a [`Given`].
#![tactic(auto)]

mod answer;
mod applet;
mod application;
mod card;
mod copied;
mod given;
mod given_applet;
pub mod given_end;
pub mod given_laws;
pub mod laws;
mod own;
mod ready;

pub use applet::AppletOf;
pub use application::{Application, GET_RESPONSE, OWN_RESPONSE_LIMIT};
pub use card::CommandCard;
pub use copied::{Copied, Eager};
pub use given::{Directions, Given};
pub use given_applet::GivenApplet;
pub use own::{
    GiveFault, Need, Wanted, decide, forget, give, needed_by, respond_to, take_back,
    wanted_by_command, wanted_by_tpdu, wanted_next,
};
