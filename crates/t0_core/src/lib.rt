//! One command TPDU at T=0 (ISO/IEC 7816-3, clause 10): the terminal's end, the card's end, and a
//! tap between them.
//!
//! A [`HostEnd`] opens a TPDU and appends the card's data to a [`Gather`]. A [`CardEnd`] serves any
//! [`TpduCard`], under the [`Plan`]s of a [`Plans`] cursor. A [`Tap`] hears both and reports what
//! each character is. [`WholeTpdu`] is for transports without single characters. A [`Watch`]
//! observes a line. [`LineFault`], [`AnswerFault`], [`TpduFault`], [`NotListening`] and
//! [`TapFault`] are the errors. One step between both ends:
//!
//! ```rust
//! // crates/library_use/src/line.rt
//! match terminal.next() {
//!     HostTurn::Sends(byte) => card.take(byte).map_err(|_| LineFailed)?,
//!     HostTurn::Listens => {
//!         if let Turn::Sends(byte) = card.turn(plans) {
//!             terminal.take(byte, gather).map_err(|_| LineFailed)?;
//!         }
//!     }
//!     HostTurn::Done(status) => return Ok(status),
//!     HostTurn::Failed => return Err(LineFailed),
//! }
//! ```
//!
//! Proved: each end takes a dialogue of the standard one character further, so both ends and the
//! tap are always at one front of it. The README lists the contracts; start with `specs/Dialogue`.
#![tactic(auto)]

mod answer_fault;
mod card_end;
mod data_run;
mod data_sent;
mod direction;
mod end;
mod gather;
mod heard;
mod host_end;
mod host_mark;
pub mod laws;
mod line_fault;
mod plan;
mod plan_queue;
mod procedure;
mod recorder;
mod request;
mod service;
mod tap;
mod tap_fault;
mod tpdu_card;
mod tpdu_fault;
mod watch;
mod whole_tpdu;

pub use answer_fault::AnswerFault;
pub use card_end::{CardEnd, NotListening, Turn};
pub use data_run::DataRun;
pub use data_sent::DataSent;
pub use direction::Direction;
pub use end::End;
pub use gather::Gather;
pub use heard::{Due, Heard, Said};
pub use host_end::{HostEnd, HostTurn};
pub use host_mark::HostMark;
pub use line_fault::LineFault;
pub use plan::{Plan, Plans, Step};
pub use plan_queue::PlanQueue;
pub use recorder::Recorder;
pub use tap::Tap;
pub use tap_fault::TapFault;
pub use tpdu_card::{Open, TpduCard, Verdict};
pub use tpdu_fault::TpduFault;
pub use watch::{Silent, Watch};
pub use whole_tpdu::WholeTpdu;
