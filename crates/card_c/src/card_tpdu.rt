//! The export that gives a card a whole TPDU.
ghost use Rattle.std.specs.Prelude.{◌≡◌, ◌+◌, ◌≤◌, length, true, IsSome};
ghost use Rattle.t0_core.specs.CardTpdu.{rests};
ghost use Rattle.t0_core.specs.TpduBytes.{asked_in};
ghost use Rattle.card_c.specs.Handles.{held_by, OnHandleOr};
ghost use Rattle.card_c.specs.CardTpduCalls.{CarriesOut};
ghost use Rattle.card_c.specs.WholeCalls.{IsCarriedOut};

use crate::card_side::CardSide;
use crate::handle::{Handle, on};
use crate::held_card::CardHandle;
use crate::whole_tpdu::hand_out;
use crate::{code, own_whole};
use std::alloc::Global;
use t0_core::{CardEnd, Gather, PlanQueue, TpduCard, WholeTpdu};

/// Carries out a whole TPDU under the card's next plan, and writes its answer.
#[unsafe(no_mangle)]
pub extern "C" fn galliumtoad_card_tpdu(
    alloc: Global,
    card: &mut CardHandle,
    tpdu: &[u8],
    answer: &mut [u8],
    len: &mut usize,
) -> i32
    ensures { OnHandleOr ((answer.new ≡ answer.old) × (len.new ≡ len.old))
        (CarriesOut tpdu.now answer.old len.old answer.new len.new)
        (held_by card.old) result (held_by card.new) }
{
    on!(alloc, card, side => carry_out(alloc, &mut side, tpdu, answer, len))
}

fn carry_out(
    alloc: Global,
    side: &mut CardSide,
    tpdu: &[u8],
    answer: &mut [u8],
    len: &mut usize,
) -> i32
    ensures { CarriesOut tpdu.now answer.old len.old answer.new len.new side.old result side.new }
{
    let CardSide::Standing(end, plans) = side else {
        return own_whole::tpdu_own(alloc, side, tpdu, answer, len);
    };
    if !end.is_at_rest() {
        return code::STATE;
    }
    let Some(asked) = WholeTpdu::read(tpdu) else {
        return code::NO_TPDU;
    };
    let may_come = usize::from(asked.may_come);
    if answer.len() < may_come + 2 {
        return code::BUFFER;
    }
    match Gather::with_room(alloc, may_come) {
        Ok(mut gather) => pass(end, plans, tpdu, &mut gather, answer, len),
        Err(_) => code::MEMORY,
    }
}

/// Lets a card's end, which has no TPDU in progress, carry out a whole TPDU, and writes its answer.
/// The array must have room for the longest one.
pub(crate) fn pass<C: TpduCard>(
    end: &mut CardEnd<C>,
    plans: &mut PlanQueue,
    tpdu: &[u8],
    gather: &mut Gather,
    answer: &mut [u8],
    len: &mut usize,
) -> i32
    requires rests { rests end.old.stage ≡ true }
    requires whole { IsSome (asked_in tpdu.now) }
    requires room { gather.old.limit + 2 ≤ length answer.old }
    ensures { IsCarriedOut C.TpduCard tpdu.now end.old plans.old gather.old answer.old len.old
        result end.new plans.new answer.new len.new }
{
    let done = end.tpdu(tpdu, &mut plans.cursor(), gather);
    plans.advance();
    match done {
        Ok(status) => {
            hand_out(gather.bytes(), status, answer, len);
            code::OK
        }
        Err(fault) => code::of_tpdu(fault),
    }
}
