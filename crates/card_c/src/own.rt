//! The exports of a card of an own application, and what the calls by characters do to it.
ghost use Rattle.std.specs.Prelude.{◌≡◌, ⊤, true, MatchOption};
ghost use Rattle.t0_core.specs.CardSide.{listens};
ghost use Rattle.card_c.specs.OwnCalls.{Freely, OwnSendsOne, OwnTakesOne, OwnTakes, OwnTurnsOne, OwnTurns, OwnHandsOut, OwnHandsOutAll, OwnSends, OwnSendsOne, GivesNull, Pausing, SendsNull, SendsNullIn, is_response, OwnReceives, OwnReceivesAll, OwnResets, OwnResetsOne};

use crate::card_buffers::hand_run;
use crate::card_side::CardSide;
use crate::code;
use crate::own_side::{OwnSide, Whole};
use command_card::{CommandCard, Given, Wanted, forget, wanted_next};
use t0_core::{CardEnd, LineFault, PlanQueue, Turn};

/// The procedure byte that asks the terminal to wait (ISO/IEC 7816-3, 10.3.3).
const NULL: u8 = 0x60;

/// Takes a character of the terminal, if the card is one of an own application.
#[inline(never)]
pub(crate) fn take_own(side: &mut CardSide, byte: u8) -> i32
    ensures { OwnTakes byte side.old result side.new }
{
    let CardSide::Own(own) = side else {
        return code::STATE;
    };
    take_one(own, byte)
}

fn take_one(own: &mut OwnSide, byte: u8) -> i32
    ensures { Freely (OwnTakesOne byte) ⊤ own.old result own.new }
{
    if !matches!(own.whole, Whole::Nothing) {
        return code::STATE;
    }
    take_free(own, byte)
}

fn take_free(own: &mut OwnSide, byte: u8) -> i32
    ensures { OwnTakesOne byte own.old result own.new }
{
    match own.end.take(byte) {
        Ok(()) => code::OK,
        Err(_) => code::of_line(LineFault::NotListening),
    }
}

/// Writes the next character, if the card is one of an own application.
#[inline(never)]
pub(crate) fn turn_own(side: &mut CardSide, byte: &mut u8) -> i32
    ensures { OwnTurns byte.old byte.new side.old result side.new }
{
    let CardSide::Own(own) = side else {
        return code::STATE;
    };
    turn_one(own, byte)
}

fn turn_one(own: &mut OwnSide, byte: &mut u8) -> i32
    ensures { Pausing (SendsNull byte.old byte.new) (OwnTurnsOne byte.old byte.new)
        (byte.new ≡ byte.old) own.old result own.new }
{
    match own.whole {
        Whole::Nothing => turn_free(own, byte),
        Whole::Null => turn_null(own, byte),
        Whole::Tpdu | Whole::Command => code::STATE,
    }
}

fn turn_null(own: &mut OwnSide, byte: &mut u8) -> i32
    ensures { SendsNull byte.old byte.new own.old result own.new }
{
    if gives_null(own) {
        *byte = NULL;
        code::SENDS
    } else {
        code::STATE
    }
}

/// Ends the pause. Returns whether a NULL goes out: the command still waits, as nothing but a reset
/// changes the end in a pause.
fn gives_null(own: &mut OwnSide) -> bool
    ensures { GivesNull own.old result own.new }
{
    own.whole = Whole::Nothing;
    is_response(wanted_next(&own.end))
}

/// Whether a response is wanted.
pub(crate) fn is_response(wanted: Wanted<'_>) -> bool
    ensures { result ≡ is_response wanted.entry }
{
    matches!(wanted, Wanted::Response(_))
}

fn turn_free(own: &mut OwnSide, byte: &mut u8) -> i32
    ensures { OwnTurnsOne byte.old byte.new own.old result own.new }
{
    match wanted_next(&own.end) {
        Wanted::Nothing => {}
        Wanted::Direction(_) => return code::HEADER,
        Wanted::Response(_) => return code::COMMAND,
    }
    let Some(sent) = next_of(&mut own.end, &mut own.plans) else {
        return code::OK;
    };
    *byte = sent;
    code::SENDS
}

/// Returns the next character, under the card's plans, or `None` if it listens.
fn next_of(end: &mut CardEnd<CommandCard<Given>>, plans: &mut PlanQueue) -> Option<u8>
    ensures { MatchOption result
        ((listens end.old.stage ≡ true) × (end.new ≡ end.old) × (plans.new ≡ plans.old))
        (λ byte. OwnHandsOut end.old plans.old byte end.new plans.new) }
{
    // Data first: they are most of the characters.
    if let Some(byte) = end.next_data() {
        return Some(byte);
    }
    next_other(end, plans)
}

/// Returns the next character, whichever it is. It is not inlined, so that the path of data stays
/// short.
#[inline(never)]
fn next_other(end: &mut CardEnd<CommandCard<Given>>, plans: &mut PlanQueue) -> Option<u8>
    ensures { MatchOption result
        ((listens end.old.stage ≡ true) × (end.new ≡ end.old) × (plans.new ≡ plans.old))
        (λ byte. OwnHandsOut end.old plans.old byte end.new plans.new) }
{
    let takes_plan = end.takes_plan();
    let Turn::Sends(byte) = end.turn(&mut plans.cursor()) else {
        return None;
    };
    plans.advance_if(takes_plan);
    Some(byte)
}

/// Writes the card's characters, if it is one of an own application.
#[inline(never)]
pub(crate) fn send_own(side: &mut CardSide, bytes: &mut [u8], count: &mut usize) -> i32
    ensures { OwnSends bytes.old count.old bytes.new count.new side.old result side.new }
{
    let CardSide::Own(own) = side else {
        return code::STATE;
    };
    send_one(own, bytes, count)
}

fn send_one(own: &mut OwnSide, bytes: &mut [u8], count: &mut usize) -> i32
    ensures { Pausing (SendsNullIn bytes.old bytes.new count.new)
        (OwnSendsOne bytes.old bytes.new count.new)
        ((bytes.new ≡ bytes.old) × (count.new ≡ count.old)) own.old result own.new }
{
    match own.whole {
        Whole::Nothing => send_all(&mut own.end, &mut own.plans, bytes, count),
        Whole::Null => send_null(own, bytes, count),
        Whole::Tpdu | Whole::Command => code::STATE,
    }
}

/// Writes a NULL, alone, if there is room for it.
fn send_null(own: &mut OwnSide, bytes: &mut [u8], count: &mut usize) -> i32
    ensures { SendsNullIn bytes.old bytes.new count.new own.old result own.new }
{
    *count = 0;
    if bytes.is_empty() {
        return code::SENDS;
    }
    if !gives_null(own) {
        return code::STATE;
    }
    bytes[0] = NULL;
    *count = 1;
    code::SENDS
}

/// Writes characters until the array is full, something waits, or the card listens.
fn send_all(
    end: &mut CardEnd<CommandCard<Given>>,
    plans: &mut PlanQueue,
    bytes: &mut [u8],
    count: &mut usize,
) -> i32
    ensures { OwnHandsOutAll end.old plans.old bytes.old bytes.new count.new result
        end.new plans.new }
{
    let mut at = 0;

    // For the proof: the label names the loop's goals.
    'send: while at < bytes.len() {
        let run = hand_run(end, bytes, at);
        at += run;
        if run == 0 {
            *count = at;
            match wanted_next(end) {
                Wanted::Nothing => {}
                Wanted::Direction(_) => return code::HEADER,
                Wanted::Response(_) => return code::COMMAND,
            }
            let Some(byte) = next_other(end, plans) else {
                return code::OK;
            };
            bytes[at] = byte;
            at += 1;
        }
    }
    *count = at;
    code::SENDS
}

/// Takes characters of the terminal, if the card is one of an own application.
#[inline(never)]
pub(crate) fn receive_own(side: &mut CardSide, bytes: &[u8], count: &mut usize) -> i32
    ensures { OwnReceives bytes.now count.old count.new side.old result side.new }
{
    let CardSide::Own(own) = side else {
        return code::STATE;
    };
    receive_one(own, bytes, count)
}

fn receive_one(own: &mut OwnSide, bytes: &[u8], count: &mut usize) -> i32
    ensures { Freely (OwnReceivesAll bytes.now count.new) (count.new ≡ count.old)
        own.old result own.new }
{
    if !matches!(own.whole, Whole::Nothing) {
        return code::STATE;
    }
    receive_all(own, bytes, count)
}

fn receive_all(own: &mut OwnSide, bytes: &[u8], count: &mut usize) -> i32
    ensures { OwnReceivesAll bytes.now count.new own.old result own.new }
{
    let taken = own.end.take_bytes(bytes);
    *count = taken;
    if taken < bytes.len() {
        code::of_line(LineFault::NotListening)
    } else {
        code::OK
    }
}

/// Resets the card, if it is one of an own application.
pub(crate) fn reset_own(side: &mut CardSide) -> i32
    ensures { OwnResets side.old result side.new }
{
    let CardSide::Own(own) = side else {
        return code::STATE;
    };
    reset_one(own)
}

fn reset_one(own: &mut OwnSide) -> i32
    ensures { OwnResetsOne own.old.end own.old.plans result own.new }
{
    own.drop_whole();
    own.end.reset();
    forget(&mut own.end);
    code::OK
}
