//! A card of data objects: applications and their objects, and what each TPDU does to them.
//!
//! A [`CardBuilder`] takes applications by [`Aid`] and their objects, and makes an [`ObjectCard`].
//! A `t0_core::CardEnd` over that is a card simulator: it takes the characters of a terminal and
//! returns those of the card. The tables change only when SW2 is sent. [`Apps`] and [`Entries`]
//! read them. [`DataCard`] is the trait of all such cards, and [`is_agreed`] tests whether both
//! ends agree on a command. [`BuilderFault`] is the error. This makes a card with one object:
//!
//! ```rust
//! // crates/library_use/src/card.rt
//! let mut builder = CardBuilder::new(alloc);
//! builder.app(aid)?;
//! builder.object(tag, b"JOE")?;
//! Ok(CardEnd::new(builder.finish()?))
//! ```
//!
//! Proved: each TPDU does what `specs/CardMeaning` says, whatever the terminal sends, and an
//! operation of several commands equals one step of `specs/OneStep`. The README lists the
//! contracts; `laws` holds laws for proofs in the crates above.
#![tactic(auto)]

mod aid;
mod application;
mod builder;
mod builder_fault;
mod card;
mod command_data;
mod data_card;
mod entries;
mod header_refusals;
mod instructions;
pub mod laws;
mod limits;
mod lookup;
mod pending_chain;
mod put_data;
mod ready;
mod response;
mod select_command;
mod sent_response;
mod status_words;
mod verdict;
mod view;

pub use aid::Aid;
pub use apdu_core::RESPONSE_LIMIT;
pub use builder::CardBuilder;
pub use builder_fault::BuilderFault;
pub use card::ObjectCard;
pub use data_card::DataCard;
pub use entries::{Apps, Entries};
pub use instructions::{GET_DATA, GET_RESPONSE, Instruction, PUT_DATA, SELECT, is_agreed};
pub use limits::{APPLICATION_LIMIT, ENTRY_LIMIT, HEAD_LIMIT, VALUE_LIMIT};
