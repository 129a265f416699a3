//! The exports that give a card or a session plans for later TPDUs.
ghost use Rattle.std.specs.Prelude.{◌≡◌, [], ◌∷◌, ◌++◌, OnOk, OnErr};
ghost use Rattle.card_c.specs.Handles.{held_by, OnHandle};
ghost use Rattle.card_c.specs.PlanCalls.{IsButPlans, Queues, QueuesAtCard, QueuesInSession};

use crate::card_side::CardSide;
use crate::code;
use crate::handle::{Handle, on};
use crate::held_card::CardHandle;
use crate::plan_letters::plan_of;
use crate::session_side::SessionSide;
use std::alloc::{AllocError, Global};
use t0_core::{Plan, PlanQueue};

/// Gives a card at T=0 one more plan, after those that wait. Each TPDU takes the next one.
#[unsafe(no_mangle)]
pub extern "C" fn galliumtoad_card_plan(
    alloc: Global,
    card: &mut CardHandle,
    steps: &[u8],
    cut: u16,
) -> i32
    ensures { OnHandle (QueuesAtCard steps.now cut) (held_by card.old) result (held_by card.new) }
{
    on!(alloc, card, side => queue_at_card(alloc, &mut side, steps, cut))
}

fn queue_at_card(alloc: Global, side: &mut CardSide, steps: &[u8], cut: u16) -> i32
    ensures { QueuesAtCard steps.now cut side.old result side.new }
{
    match side {
        CardSide::Standing(_, plans) => queue_plan(alloc, plans, steps, cut),
        CardSide::Own(own) => queue_plan(alloc, &mut own.plans, steps, cut),
        CardSide::Building(_) | CardSide::Joined(_) | CardSide::AtT1(_) | CardSide::OwnAtT1(_) =>
            code::STATE,
    }
}

fn queue_plan(alloc: Global, plans: &mut PlanQueue, steps: &[u8], cut: u16) -> i32
    ensures queued { Queues steps.now cut plans.old.rest result plans.new.rest }
    ensures kept { plans.new.kept ≡ plans.old.kept }
{
    match plan_of(alloc, steps, cut, plans.len()) {
        Ok(plan) => match plans.push(plan) {
            Ok(()) => code::OK,
            Err(_) => code::MEMORY,
        },
        Err(refusal) => refusal,
    }
}

/// Gives a session one more plan for a TPDU of its next operation, after those that wait.
#[unsafe(no_mangle)]
pub extern "C" fn galliumtoad_session_plan(
    alloc: Global,
    session: &mut CardHandle,
    steps: &[u8],
    cut: u16,
) -> i32
    ensures { OnHandle (QueuesInSession steps.now cut)
        (held_by session.old) result (held_by session.new) }
{
    on!(alloc, session, side => queue_in_session(alloc, &mut side, steps, cut))
}

fn queue_in_session(alloc: Global, side: &mut CardSide, steps: &[u8], cut: u16) -> i32
    ensures { QueuesInSession steps.now cut side.old result side.new }
{
    let CardSide::Joined(joined) = side else {
        return code::STATE;
    };
    match plan_of(alloc, steps, cut, joined.plans.len()) {
        Ok(plan) => match queue(joined, plan) {
            Ok(()) => code::OK,
            Err(_) => code::MEMORY,
        },
        Err(refusal) => refusal,
    }
}

/// Adds a plan after those that wait, or returns `AllocError` if memory runs out.
fn queue(joined: &mut SessionSide, plan: Plan) -> Result<(), AllocError>
    ensures ok { OnOk result (joined.new.plans.items ≡ joined.old.plans.items ++ plan ∷ []) }
    ensures stays { OnErr result (joined.new.plans.items ≡ joined.old.plans.items) }
    ensures others { IsButPlans joined.old joined.new }
{
    joined.plans.push(plan).map_err(AllocError::from)
}
