//! The exports that pass several characters to and from a card.
ghost use Rattle.std.specs.Prelude.{◌≡◌, ◌≤◌, ◌+◌, ◌++◌, ℕ, List, length, take, drop};
ghost use Rattle.t0_core.specs.Buffers.{Steps};
ghost use Rattle.t0_core.specs.CardSending.{IsHandedOut};
ghost use Rattle.card_c.specs.Handles.{held_by, OnHandleOr};
ghost use Rattle.card_c.specs.BufferCalls.{CardSends, CardReceives, HandsOutAll, TakesAll};

use crate::card::next_of;
use crate::card_side::CardSide;
use crate::handle::{Handle, on};
use crate::held_card::CardHandle;
use crate::{code, own};
use object_card::ObjectCard;
use std::alloc::Global;
use t0_core::{CardEnd, LineFault, PlanQueue, TpduCard};

/// Writes the card's characters until it listens or `bytes` is full, and their number.
#[unsafe(no_mangle)]
pub extern "C" fn galliumtoad_card_send_bytes(
    alloc: Global,
    card: &mut CardHandle,
    bytes: &mut [u8],
    count: &mut usize,
) -> i32
    ensures { OnHandleOr ((bytes.new ≡ bytes.old) × (count.new ≡ count.old))
        (CardSends bytes.old count.old bytes.new count.new)
        (held_by card.old) result (held_by card.new) }
{
    on!(alloc, card, side => send(&mut side, bytes, count))
}

fn send(side: &mut CardSide, bytes: &mut [u8], count: &mut usize) -> i32
    ensures { CardSends bytes.old count.old bytes.new count.new side.old result side.new }
{
    let CardSide::Standing(end, plans) = side else {
        return own::send_own(side, bytes, count);
    };
    let sent = hand_out(end, plans, bytes);
    *count = sent;
    if sent < bytes.len() {
        code::OK
    } else {
        code::SENDS
    }
}

/// Writes characters until the card listens or the buffer is full, and returns their number.
fn hand_out(end: &mut CardEnd<ObjectCard>, plans: &mut PlanQueue, bytes: &mut [u8]) -> usize
    ensures { HandsOutAll end.old plans.old bytes.old bytes.new result end.new plans.new }
{
    let mut at = 0;

    // For the proof: the label names the loop's goals.
    'hand: while at < bytes.len() {
        let count = hand_run(end, bytes, at);
        at += count;
        if count == 0 {
            let Some(byte) = next_of(end, plans) else {
                return at;
            };
            bytes[at] = byte;
            at += 1;
        }
    }
    at
}

/// Writes the data that the card sends next from `at` on, in one run, as far as there is room.
/// Returns their number.
pub(crate) fn hand_run<C: TpduCard>(end: &mut CardEnd<C>, bytes: &mut [u8], at: usize) -> usize
    requires { at ≤ length bytes.old }
    ensures { (run : List ℕ) × (length run ≡ result) × (at + result ≤ length bytes.old)
        × (bytes.new ≡ take at bytes.old ++ run ++ drop (at + result) bytes.old)
        × Steps (IsHandedOut C.TpduCard) end.old run end.new }
{
    let Some(run) = end.data_due() else {
        return 0;
    };
    let data = run.bytes();
    let count = data.len().min(bytes.len() - at);
    bytes[at..at + count].copy_from_slice(&data[..count]);
    end.skip_data(count);
    count
}

/// Takes characters of the terminal while the card listens, and writes their number to `count`.
#[unsafe(no_mangle)]
pub extern "C" fn galliumtoad_card_receive_bytes(
    alloc: Global,
    card: &mut CardHandle,
    bytes: &[u8],
    count: &mut usize,
) -> i32
    ensures { OnHandleOr (count.new ≡ count.old) (CardReceives bytes.now count.old count.new)
        (held_by card.old) result (held_by card.new) }
{
    on!(alloc, card, side => receive(&mut side, bytes, count))
}

fn receive(side: &mut CardSide, bytes: &[u8], count: &mut usize) -> i32
    ensures { CardReceives bytes.now count.old count.new side.old result side.new }
{
    let CardSide::Standing(end, _) = side else {
        return own::receive_own(side, bytes, count);
    };
    let taken = take_all(end, bytes);
    *count = taken;
    if taken < bytes.len() {
        code::of_line(LineFault::NotListening)
    } else {
        code::OK
    }
}

/// Takes the characters of a buffer while the card listens, and returns their number.
fn take_all(end: &mut CardEnd<ObjectCard>, bytes: &[u8]) -> usize
    ensures { TakesAll end.old bytes.now result end.new }
{
    end.take_bytes(bytes)
}
