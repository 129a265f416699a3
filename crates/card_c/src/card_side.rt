//! What the handle of a card or a session holds.
use crate::own_side::{OwnSide, OwnT1Side};
use crate::session_side::SessionSide;
use object_card::{CardBuilder, ObjectCard};
use t0_core::{CardEnd, PlanQueue};
use t1_core::{Receiver, Reply};
use t1_terminal::DataApplet;

/// A card in one of six states.
#[derive(Drop)]
pub enum CardSide {
    /// It is being built.
    Building(CardBuilder),
    /// It speaks T=0: its end of the line, with its plans.
    Standing(CardEnd<ObjectCard>, PlanQueue),
    /// It is in a session.
    Joined(SessionSide),
    /// It speaks T=1, until its next reset.
    AtT1(CardT1Side),
    /// It is one of an own application, at T=0.
    Own(OwnSide),
    /// It is one of an own application, at T=1 until its next reset.
    OwnAtT1(OwnT1Side),
}

/// A card at T=1, until its next reset.
#[derive(Drop)]
pub struct CardT1Side {
    pub end: t1_core::BlockCard<DataApplet<ObjectCard>>,
    /// The received bytes of the terminal's block.
    pub block: Receiver,
    /// The answer to its last block. `None` before the first, and after memory ran out at one.
    pub reply: Option<Reply>,
    /// The plans that the card follows at T=0 after its next reset.
    pub plans: PlanQueue,
}
