//! The exports of a card: C builds it, and then passes it characters.
ghost use Rattle.std.specs.Prelude.{◌≡◌, true, None, MatchOption};
ghost use Rattle.t0_core.specs.CardSide.{listens};
ghost use Rattle.card_c.specs.declared.card_side.CardSide.TheVariants.{Building};
ghost use Rattle.card_c.specs.Handles.{held_by, OnHandle, OnHandleOr};
ghost use Rattle.card_c.specs.CardT1Calls.{at_t0};
ghost use Rattle.card_c.specs.CardCalls.{Begins, AddsApplication, AddsObject, Finishes, TakesOne, HandsOutCharacter, Turns, TurnsEnd, Resets};

use crate::card_side::CardSide;
use crate::card_t1::leave;
use crate::handle::{Handle, on};
use crate::held_card::CardHandle;
use crate::tag_number::tag_of;
use crate::{code, own};
use core::mem::replace_with;
use object_card::{Aid, CardBuilder, ObjectCard};
use std::alloc::Global;
use t0_core::{CardEnd, LineFault, PlanQueue, Turn};

/// Starts to build a card, which has no applications yet.
#[unsafe(no_mangle)]
pub extern "C" fn galliumtoad_card_new(alloc: Global, card: &mut CardHandle) -> i32
    ensures { Begins (held_by card.old) result (held_by card.new) }
{
    if card.is_live() {
        return code::STATE;
    }
    match Box::new(alloc, CardSide::Building(CardBuilder::new(alloc))) {
        Ok(side) => {
            card.put(side);
            code::OK
        }
        Err(_) => code::MEMORY,
    }
}

/// Frees the memory of a handle, which is empty then.
#[unsafe(no_mangle)]
pub extern "C" fn galliumtoad_card_free(alloc: Global, card: &mut CardHandle)
    ensures { held_by card.new ≡ None }
{
    drop(card.take_out(alloc));
}

/// Adds an application without data objects. `aid` is its identifier, of 5 to 16 bytes.
#[unsafe(no_mangle)]
pub extern "C" fn galliumtoad_card_app(alloc: Global, card: &mut CardHandle, aid: &[u8]) -> i32
    ensures { OnHandle (AddsApplication aid.now) (held_by card.old) result (held_by card.new) }
{
    on!(alloc, card, side => add_application(&mut side, aid))
}

fn add_application(side: &mut CardSide, aid: &[u8]) -> i32
    ensures { AddsApplication aid.now side.old result side.new }
{
    let CardSide::Building(builder) = side else {
        return code::STATE;
    };
    let Some(aid) = Aid::new(aid) else {
        return code::ARGUMENT;
    };
    match builder.app(aid) {
        Ok(()) => code::OK,
        Err(fault) => code::of_builder(fault),
    }
}

/// Adds a data object to the last application, or replaces the one under this tag.
#[unsafe(no_mangle)]
pub extern "C" fn galliumtoad_card_object(
    alloc: Global,
    card: &mut CardHandle,
    tag: u32,
    value: &[u8],
    locked: bool,
) -> i32
    ensures { OnHandle (AddsObject tag value.now locked)
        (held_by card.old) result (held_by card.new) }
{
    on!(alloc, card, side => add_object(&mut side, tag, value, locked))
}

fn add_object(side: &mut CardSide, number: u32, value: &[u8], locked: bool) -> i32
    ensures { AddsObject number value.now locked side.old result side.new }
{
    let CardSide::Building(builder) = side else {
        return code::STATE;
    };
    let Some(tag) = tag_of(number) else {
        return code::ARGUMENT;
    };
    let added = if locked {
        builder.locked(tag, value)
    } else {
        builder.object(tag, value)
    };
    match added {
        Ok(()) => code::OK,
        Err(fault) => code::of_builder(fault),
    }
}

/// Ends the building of a card. It speaks T=0 and listens, with nothing selected, and has no plans.
#[unsafe(no_mangle)]
pub extern "C" fn galliumtoad_card_finish(alloc: Global, card: &mut CardHandle) -> i32
    ensures { OnHandle Finishes (held_by card.old) result (held_by card.new) }
{
    on!(alloc, card, side => finish(alloc, &mut side))
}

fn finish(alloc: Global, side: &mut CardSide) -> i32
    ensures { Finishes side.old result side.new }
{
    replace_with(side, alloc, finished)
}

fn finished(side: CardSide, alloc: Global) -> (CardSide, i32)
    ensures { Finishes side result.1 result.0 }
{
    match side {
        CardSide::Building(builder) => built(alloc, builder),
        other => (other, code::STATE),
    }
}

/// Returns the card that the builder makes, or the builder if memory ran out, and the code of that.
fn built(alloc: Global, builder: CardBuilder) -> (CardSide, i32)
    ensures { Finishes (Building builder) result.1 result.0 }
{
    match builder.try_finish() {
        Ok(card) => (
            CardSide::Standing(CardEnd::new(card), PlanQueue::new(alloc)),
            code::OK,
        ),
        Err(builder) => (CardSide::Building(builder), code::MEMORY),
    }
}

/// Takes a character of the terminal.
#[unsafe(no_mangle)]
pub extern "C" fn galliumtoad_card_take(alloc: Global, card: &mut CardHandle, byte: u8) -> i32
    ensures { OnHandle (TakesOne byte) (held_by card.old) result (held_by card.new) }
{
    on!(alloc, card, side => take(&mut side, byte))
}

fn take(side: &mut CardSide, byte: u8) -> i32
    ensures { TakesOne byte side.old result side.new }
{
    let CardSide::Standing(end, _) = side else {
        return own::take_own(side, byte);
    };
    match end.take(byte) {
        Ok(()) => code::OK,
        Err(_) => code::of_line(LineFault::NotListening),
    }
}

/// Writes the card's next character to `byte`, if it does not listen. Then it counts as sent.
#[unsafe(no_mangle)]
pub extern "C" fn galliumtoad_card_turn(alloc: Global, card: &mut CardHandle, byte: &mut u8) -> i32
    ensures { OnHandleOr (byte.new ≡ byte.old) (Turns byte.old byte.new)
        (held_by card.old) result (held_by card.new) }
{
    on!(alloc, card, side => turn(&mut side, byte))
}

fn turn(side: &mut CardSide, byte: &mut u8) -> i32
    ensures { Turns byte.old byte.new side.old result side.new }
{
    let CardSide::Standing(end, plans) = side else {
        return own::turn_own(side, byte);
    };
    // Data first: they are most of the characters.
    if let Some(sent) = end.next_data() {
        *byte = sent;
        return code::SENDS;
    }
    turn_other(end, plans, byte)
}

/// Takes the turn of a card's end, with any character. It is not inlined, so that the path of data
/// stays short.
#[inline(never)]
fn turn_other(end: &mut CardEnd<ObjectCard>, plans: &mut PlanQueue, byte: &mut u8) -> i32
    ensures { TurnsEnd end.old plans.old byte.old byte.new result end.new plans.new }
{
    let Some(sent) = next_of(end, plans) else {
        return code::OK;
    };
    *byte = sent;
    code::SENDS
}

/// Returns the next character of a card's end, under its plans, or `None` if the card listens.
#[inline(always)]
pub(crate) fn next_of(end: &mut CardEnd<ObjectCard>, plans: &mut PlanQueue) -> Option<u8>
    ensures { MatchOption result
        ((listens end.old.stage ≡ true) × (end.new ≡ end.old) × (plans.new ≡ plans.old))
        (λ byte. HandsOutCharacter end.old plans.old byte end.new plans.new) }
{
    let takes_plan = end.takes_plan();
    let Turn::Sends(byte) = end.turn(&mut plans.cursor()) else {
        return None;
    };
    plans.advance_if(takes_plan);
    Some(byte)
}

/// Resets the card, which speaks T=0 then. Its data objects and the plans that wait stay.
#[unsafe(no_mangle)]
pub extern "C" fn galliumtoad_card_reset(alloc: Global, card: &mut CardHandle) -> i32
    ensures { OnHandle Resets (held_by card.old) result (held_by card.new) }
{
    on!(alloc, card, side => reset(&mut side))
}

fn reset(side: &mut CardSide) -> i32
    ensures { Resets side.old result side.new }
{
    leave(side);
    reset_at_t0(side)
}

fn reset_at_t0(side: &mut CardSide) -> i32
    requires { at_t0 side.old ≡ side.old }
    ensures { Resets side.old result side.new }
{
    let CardSide::Standing(end, _) = side else {
        return own::reset_own(side);
    };
    end.reset();
    code::OK
}
