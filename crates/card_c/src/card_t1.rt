//! The exports of a card at T=1.
ghost use Rattle.std.specs.Prelude.{◌≡◌, ⊤, true, if◌then◌else◌};
ghost use Rattle.t1_core.specs.declared.pcb.BlockReason.TheVariants as reason;
ghost use Rattle.t1_core.specs.Doing.{AreRooms};
ghost use Rattle.card_c.specs.Handles.{held_by, OnHandle, OnHandleOr};
ghost use Rattle.card_c.specs.CardT1Calls.{BeginsT1, HearsBytes, Misses, OnLine, SendsReply, at_t0, at_t1, may_begin};
ghost use Rattle.card_c.specs.OwnT1.{HearsOwn, MissesOwn, SendsOwn};

use crate::card_side::{CardSide, CardT1Side};
use crate::code;
use crate::copied::block_copied;
use crate::handle::{Handle, on};
use crate::held_card::CardHandle;
use crate::own_t1::{back_at_t0, is_idle, misses_own, own_begun, receive_own, send_own};
use command_card::GivenApplet;
use core::mem::replace_with;
use std::alloc::Global;
use t1_core::{BlockCard, Receiver, Rooms, rooms_for};
use t1_terminal::DataApplet;

/// Lets the card speak T=1, until its next reset. It has no block to send yet.
#[unsafe(no_mangle)]
pub extern "C" fn galliumtoad_card_t1_begin(alloc: Global, card: &mut CardHandle) -> i32
    ensures { OnHandle BeginsT1 (held_by card.old) result (held_by card.new) }
{
    on!(alloc, card, side => begin(alloc, &mut side))
}

fn begin(alloc: Global, side: &mut CardSide) -> i32
    ensures { BeginsT1 side.old result side.new }
{
    // A card that is refused stays in its place: a move leaves a copy of its bytes on the stack.
    if !may_begin(side) {
        return code::STATE;
    }
    // Both kinds of cards need the same rooms.
    let Ok(rooms) = rooms_for::<GivenApplet>(alloc) else {
        return code::MEMORY;
    };
    replace_with(side, (alloc, rooms), begun);
    code::OK
}

/// Whether the card speaks T=0, and nothing is in progress.
fn may_begin(side: &CardSide) -> bool
    ensures { result ≡ may_begin side.now }
{
    match side {
        CardSide::Standing(end, _) => end.is_at_rest(),
        CardSide::Own(own) => is_idle(own),
        CardSide::Building(_) | CardSide::Joined(_) => false,
        CardSide::AtT1(_) | CardSide::OwnAtT1(_) => false,
    }
}

fn begun(side: CardSide, with: (Global, Rooms)) -> (CardSide, ())
    requires side { may_begin side ≡ true }
    requires rooms { AreRooms 261 with.1 }
    ensures { result.0 ≡ at_t1 side }
{
    let (alloc, rooms) = with;
    let begun = match side {
        CardSide::Standing(end, plans) => CardSide::AtT1(CardT1Side {
            end: BlockCard::new(rooms, DataApplet::new(alloc, end)),
            block: Receiver::new(),
            reply: None,
            plans,
        }),
        CardSide::Own(own) => CardSide::OwnAtT1(own_begun(rooms, own)),
        other => other,
    };
    (begun, ())
}

/// Lets a card at T=1 speak T=0 again: the block and the answer are dropped, the rest stays. Any
/// other card is unchanged.
pub(crate) fn leave(side: &mut CardSide)
    ensures { side.new ≡ at_t0 side.old }
{
    // A card at T=0 stays in its place: a move would leave a copy of its bytes on the stack.
    match side {
        CardSide::AtT1(_) | CardSide::OwnAtT1(_) => replace_with(side, (), back),
        CardSide::Building(_) | CardSide::Standing(..) => {}
        CardSide::Joined(_) | CardSide::Own(_) => {}
    }
}

fn back(side: CardSide, _: ()) -> (CardSide, ())
    ensures { result.0 ≡ at_t0 side }
{
    let back = match side {
        CardSide::AtT1(at) => {
            let CardT1Side { end, plans, .. } = at;
            CardSide::Standing(end.into_applet().into_end(), plans)
        }
        CardSide::OwnAtT1(at) => CardSide::Own(back_at_t0(at)),
        other => other,
    };
    (back, ())
}

/// Writes the next block to `bytes`, and its length to `count`.
#[unsafe(no_mangle)]
pub extern "C" fn galliumtoad_card_t1_send_bytes(
    alloc: Global,
    card: &mut CardHandle,
    bytes: &mut [u8],
    count: &mut usize,
) -> i32
    ensures { OnHandleOr ((bytes.new ≡ bytes.old) × (count.new ≡ count.old))
        (OnLine (SendsReply bytes.old count.old bytes.new count.new)
        (SendsOwn bytes.old count.old bytes.new count.new)
        ((bytes.new ≡ bytes.old) × (count.new ≡ count.old)))
        (held_by card.old) result (held_by card.new) }
{
    on!(alloc, card, side => send(&mut side, bytes, count))
}

fn send(side: &mut CardSide, bytes: &mut [u8], count: &mut usize) -> i32
    ensures { OnLine (SendsReply bytes.old count.old bytes.new count.new)
        (SendsOwn bytes.old count.old bytes.new count.new)
        ((bytes.new ≡ bytes.old) × (count.new ≡ count.old)) side.old result side.new }
{
    match side {
        CardSide::AtT1(at) => send_data(at, bytes, count),
        CardSide::OwnAtT1(at) => send_own(at, bytes, count),
        CardSide::Building(_) | CardSide::Standing(..) => code::STATE,
        CardSide::Joined(_) | CardSide::Own(_) => code::STATE,
    }
}

fn send_data(at: &CardT1Side, bytes: &mut [u8], count: &mut usize) -> i32
    ensures { SendsReply bytes.old count.old bytes.new count.new at.now result at.now }
{
    let Some(reply) = at.reply else {
        return code::DONE;
    };
    block_copied(at.end.block(reply), bytes, count)
}

/// Takes bytes of the terminal up to the end of its block, and writes their number to `count`.
#[unsafe(no_mangle)]
pub extern "C" fn galliumtoad_card_t1_receive_bytes(
    alloc: Global,
    card: &mut CardHandle,
    bytes: &[u8],
    count: &mut usize,
) -> i32
    ensures { OnHandleOr (count.new ≡ count.old)
        (OnLine (HearsBytes bytes.now count.new) (HearsOwn bytes.now count.new)
        (count.new ≡ count.old)) (held_by card.old) result (held_by card.new) }
{
    on!(alloc, card, side => receive(&mut side, bytes, count))
}

fn receive(side: &mut CardSide, bytes: &[u8], count: &mut usize) -> i32
    ensures { OnLine (HearsBytes bytes.now count.new) (HearsOwn bytes.now count.new)
        (count.new ≡ count.old) side.old result side.new }
{
    match side {
        CardSide::AtT1(at) => receive_data(at, bytes, count),
        CardSide::OwnAtT1(at) => receive_own(at, bytes, count),
        CardSide::Building(_) | CardSide::Standing(..) => code::STATE,
        CardSide::Joined(_) | CardSide::Own(_) => code::STATE,
    }
}

fn receive_data(at: &mut CardT1Side, bytes: &[u8], count: &mut usize) -> i32
    ensures { HearsBytes bytes.now count.new at.old result at.new }
{
    *count = at.block.take_bytes(bytes);
    if !at.block.is_whole() {
        return code::OK;
    }
    let answer = match at.end.take_bytes(at.block.bytes()) {
        Ok(reply) => {
            at.reply = Some(reply);
            code::SENDS
        }
        Err(_) => {
            at.reply = None;
            code::MEMORY
        }
    };
    at.block.clear();
    answer
}

/// Reports that the terminal's block stopped. The answer asks for the block because of another
/// error than the EDC, or is S(WTX request) again.
#[unsafe(no_mangle)]
pub extern "C" fn galliumtoad_card_t1_missed(alloc: Global, card: &mut CardHandle) -> i32
    ensures { OnHandle (OnLine (Misses reason.Other) (MissesOwn reason.Other) ⊤)
        (held_by card.old) result (held_by card.new) }
{
    on!(alloc, card, side => misses(&mut side, false))
}

/// Reports that a character of the terminal's block had a wrong parity. The answer asks for the
/// block because of that, or is S(WTX request) again.
#[unsafe(no_mangle)]
pub extern "C" fn galliumtoad_card_t1_damaged(alloc: Global, card: &mut CardHandle) -> i32
    ensures { OnHandle (OnLine (Misses reason.Edc) (MissesOwn reason.Edc) ⊤)
        (held_by card.old) result (held_by card.new) }
{
    on!(alloc, card, side => misses(&mut side, true))
}

fn misses(side: &mut CardSide, is_damaged: bool) -> i32
    ensures { OnLine (Misses (if is_damaged then reason.Edc else reason.Other))
        (MissesOwn (if is_damaged then reason.Edc else reason.Other)) ⊤ side.old result side.new }
{
    match side {
        CardSide::AtT1(at) => misses_data(at, is_damaged),
        CardSide::OwnAtT1(at) => misses_own(at, is_damaged),
        CardSide::Building(_) | CardSide::Standing(..) => code::STATE,
        CardSide::Joined(_) | CardSide::Own(_) => code::STATE,
    }
}

fn misses_data(at: &mut CardT1Side, is_damaged: bool) -> i32
    ensures { Misses (if is_damaged then reason.Edc else reason.Other) at.old result at.new }
{
    let answer = if is_damaged {
        at.end.damaged()
    } else {
        at.end.invalid()
    };
    at.reply = Some(answer);
    at.block.clear();
    code::SENDS
}
