//! A session with a card, as a handle holds it.
ghost use Rattle.std.specs.Prelude.{◌≡◌, [], None, IfOk, OnErr};
ghost use Rattle.exchange_core.specs.ExchangeSide.{response_limit};

use crate::listener::Listener;
use card_terminal::{HeldAnswer, RESPONSE_LIMIT, Session};
use object_card::ObjectCard;
use std::alloc::{AllocError, Global};
use t0_core::{Gather, Plan};

/// A session with a card, and the plans for its next operation. Of the last operation it keeps the
/// answer, whose memory the next one uses again, and the characters, if it listens.
#[derive(Drop)]
pub struct SessionSide {
    pub session: Session<ObjectCard>,
    pub plans: Vec<Plan>,
    pub answer: Option<HeldAnswer>,
    pub listens: bool,
    pub heard: Listener,
}

/// Returns room for the response of an operation: that of the last answer, which is dropped, or
/// else new memory. If memory runs out, returns `AllocError`, and the last answer stays.
pub fn room_for_next(alloc: Global, answer: &mut Option<HeldAnswer>) -> Result<Gather, AllocError>
    ensures room { IfOk result (λ room. room ≡ record { bytes = []; limit = response_limit }) }
    ensures stays { OnErr result ((answer.old ≡ None) × (answer.new ≡ None)) }
{
    match answer.take() {
        Some(held) => Ok(held.into_room()),
        None => Gather::with_room(alloc, RESPONSE_LIMIT),
    }
}
