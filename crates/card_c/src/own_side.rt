//! A card of an application of the caller's own, as a handle holds it.
ghost use Rattle.std.specs.Prelude.{◌≡◌, []};
ghost use Rattle.card_c.specs.declared.own_side.Whole.TheVariants as whole;
ghost use Rattle.card_c.specs.OwnCalls.{IsFresh};

use command_card::{CommandCard, Directions, Given, GivenApplet};
use std::alloc::Global;
use t0_core::{CardEnd, PlanQueue};
use t1_core::{PatientCard, Receiver, Reply};

/// What waits for the application as a whole.
#[derive(Clone, Copy, Debug, PartialEq, Eq)]
pub enum Whole {
    /// Nothing: the card goes by characters.
    Nothing,
    /// Nothing, and by characters the card sends a NULL next.
    Null,
    /// A TPDU.
    Tpdu,
    /// A command.
    Command,
}

/// A card of an own application at T=0, with its plans.
#[derive(Drop)]
pub struct OwnSide {
    pub end: CardEnd<CommandCard<Given>>,
    pub plans: PlanQueue,
    /// What waits as a whole, and its bytes.
    pub whole: Whole,
    pub asked: Vec<u8>,
}

/// A card of an own application at T=1, until its next reset.
#[derive(Drop)]
pub struct OwnT1Side {
    pub end: PatientCard<GivenApplet>,
    /// The received bytes of the terminal's block.
    pub block: Receiver,
    /// The answer to its last block. `None` before the first, and while a command waits.
    pub reply: Option<Reply>,
    /// The command that waits, once the sending call has said so.
    pub asked: Vec<u8>,
    /// The plans that the card follows at T=0 after its next reset.
    pub plans: PlanQueue,
}

impl OwnSide {
    /// Makes the card: it listens, and nothing waits.
    pub(crate) fn new(alloc: Global, directions: Directions) -> OwnSide
        ensures { IsFresh directions result }
    {
        OwnSide {
            end: CardEnd::new(CommandCard::new(alloc, Given::new(alloc, directions))),
            plans: PlanQueue::new(alloc),
            whole: Whole::Nothing,
            asked: Vec::new(alloc),
        }
    }

    /// Drops what waits as a whole.
    pub(crate) fn drop_whole(&mut self)
        ensures end { self.new.end ≡ self.old.end }
        ensures plans { self.new.plans ≡ self.old.plans }
        ensures dropped { (self.new.whole ≡ whole.Nothing) × (self.new.asked.items ≡ []) }
    {
        forget(&mut self.asked);
        self.whole = Whole::Nothing;
    }
}

/// Drops the bytes that were shown to the caller, and overwrites them.
pub(crate) fn forget(asked: &mut Vec<u8>)
    ensures { asked.new.items ≡ [] }
{
    asked.fill(0);
    asked.clear();
}
