//! The exports of a session with a card, which carries out whole operations.
ghost use Rattle.std.specs.Prelude.{◌≡◌, ⊤, None};
ghost use Rattle.card_terminal.specs.Operations.{operation_of};
ghost use Rattle.object_card.specs.OneStep.{Put};
ghost use Rattle.card_c.specs.Handles.{held_by, OnHandle, OnLook};
ghost use Rattle.card_c.specs.SessionCalls.{Starts, Finishes, Joins, Parts, Performs, Selects, Gets, Puts, TellsAnswer, TellsIdle, IsReset, ResetsSession};

use crate::card_side::CardSide;
use crate::code;
use crate::copied::copied;
use crate::handle::{Handle, on};
use crate::held_card::CardHandle;
use crate::listener::Listener;
use crate::session_side::{SessionSide, room_for_next};
use crate::tag_number::tag_of;
use card_terminal::{Bytes, Op, Session};
use core::mem::replace_with;
use object_card::Aid;
use std::alloc::Global;
use t0_core::{PlanQueue, Plans};
use tlv_core::ObjectTag;

/// Takes the card out of its handle, resets it, and begins a session with it.
#[unsafe(no_mangle)]
pub extern "C" fn galliumtoad_session_start(
    alloc: Global,
    session: &mut CardHandle,
    card: &mut CardHandle,
) -> i32
    ensures { Starts (held_by session.old) (held_by card.old) result
        (held_by session.new) (held_by card.new) }
{
    if session.is_live() {
        return code::STATE;
    }
    let Some(mut side) = card.take_out(alloc) else {
        return code::EMPTY;
    };
    if join(alloc, &mut side) {
        session.put(side);
        code::OK
    } else {
        card.put(side);
        code::STATE
    }
}

fn join(alloc: Global, side: &mut CardSide) -> bool
    ensures { Joins side.old result side.new }
{
    replace_with(side, alloc, joined)
}

/// Makes a session with a card at T=0, and drops the card's plans. Returns whether it has.
fn joined(side: CardSide, alloc: Global) -> (CardSide, bool)
    ensures { Joins side result.1 result.0 }
{
    match side {
        CardSide::Standing(end, plans) => {
            drop(plans);
            let session = SessionSide {
                session: Session::new(end),
                plans: Vec::new(alloc),
                answer: None,
                listens: false,
                heard: Listener::new(alloc, false),
            };
            (CardSide::Joined(session), true)
        }
        other => (other, false),
    }
}

/// Ends a session, and puts its card, reset, into `card`. `session` is empty then.
#[unsafe(no_mangle)]
pub extern "C" fn galliumtoad_session_end(
    alloc: Global,
    session: &mut CardHandle,
    card: &mut CardHandle,
) -> i32
    ensures { Finishes (held_by session.old) (held_by card.old) result
        (held_by session.new) (held_by card.new) }
{
    if card.is_live() {
        return code::STATE;
    }
    let Some(mut side) = session.take_out(alloc) else {
        return code::EMPTY;
    };
    if part(alloc, &mut side) {
        card.put(side);
        code::OK
    } else {
        session.put(side);
        code::STATE
    }
}

fn part(alloc: Global, side: &mut CardSide) -> bool
    ensures { Parts side.old result side.new }
{
    replace_with(side, alloc, parted)
}

/// Ends a session. Its card, reset, has no plans. Returns whether it has.
fn parted(side: CardSide, alloc: Global) -> (CardSide, bool)
    ensures { Parts side result.1 result.0 }
{
    match side {
        CardSide::Joined(joined) => {
            let SessionSide { session, .. } = joined;
            let end = session.into_end();
            (CardSide::Standing(end, PlanQueue::new(alloc)), true)
        }
        other => (other, false),
    }
}

/// Frees the memory of a session and of its card. The handle is empty then.
#[unsafe(no_mangle)]
pub extern "C" fn galliumtoad_session_free(alloc: Global, session: &mut CardHandle)
    ensures { held_by session.new ≡ None }
{
    drop(session.take_out(alloc));
}

/// Resets the card: nothing is selected or pending. The rest of the session stays.
#[unsafe(no_mangle)]
pub extern "C" fn galliumtoad_session_reset(alloc: Global, session: &mut CardHandle) -> i32
    ensures { OnHandle ResetsSession (held_by session.old) result (held_by session.new) }
{
    on!(alloc, session, side => reset(&mut side))
}

fn reset(side: &mut CardSide) -> i32
    ensures { ResetsSession side.old result side.new }
{
    let CardSide::Joined(joined) = side else {
        return code::STATE;
    };
    reset_session(joined);
    code::OK
}

fn reset_session(joined: &mut SessionSide)
    ensures { IsReset joined.old joined.new }
{
    joined.session.reset();
}

/// Carries out SELECT of the application with this identifier.
#[unsafe(no_mangle)]
pub extern "C" fn galliumtoad_session_select(
    alloc: Global,
    session: &mut CardHandle,
    aid: &[u8],
) -> i32
    ensures { OnHandle (Selects aid.now) (held_by session.old) result (held_by session.new) }
{
    on!(alloc, session, side => select(alloc, &mut side, aid))
}

fn select(alloc: Global, side: &mut CardSide, aid: &[u8]) -> i32
    ensures { Selects aid.now side.old result side.new }
{
    let CardSide::Joined(joined) = side else {
        return code::STATE;
    };
    match Aid::new(aid) {
        Some(aid) => perform(alloc, joined, Op::Select(aid)),
        None => code::ARGUMENT,
    }
}

/// Carries out GET DATA of the object with this tag.
#[unsafe(no_mangle)]
pub extern "C" fn galliumtoad_session_get(alloc: Global, session: &mut CardHandle, tag: u32) -> i32
    ensures { OnHandle (Gets tag) (held_by session.old) result (held_by session.new) }
{
    on!(alloc, session, side => get(alloc, &mut side, tag))
}

fn get(alloc: Global, side: &mut CardSide, number: u32) -> i32
    ensures { Gets number side.old result side.new }
{
    let CardSide::Joined(joined) = side else {
        return code::STATE;
    };
    match tag_of(number) {
        Some(tag) => perform(alloc, joined, Op::Get(tag)),
        None => code::ARGUMENT,
    }
}

/// Carries out PUT DATA of a copy of this value, in pieces of at most 255 bytes. `OK` says nothing
/// of the card's status, which `galliumtoad_session_answer` gives.
#[unsafe(no_mangle)]
pub extern "C" fn galliumtoad_session_put(
    alloc: Global,
    session: &mut CardHandle,
    tag: u32,
    value: &[u8],
) -> i32
    ensures { OnHandle (Puts tag value.now) (held_by session.old) result (held_by session.new) }
{
    on!(alloc, session, side => put(alloc, &mut side, tag, value))
}

fn put(alloc: Global, side: &mut CardSide, number: u32, value: &[u8]) -> i32
    ensures { Puts number value.now side.old result side.new }
{
    let CardSide::Joined(joined) = side else {
        return code::STATE;
    };
    match tag_of(number) {
        Some(tag) => store(alloc, joined, tag, value),
        None => code::ARGUMENT,
    }
}

/// Carries out PUT DATA of a copy of the value. As in [`perform`], `BUSY` comes before `MEMORY`.
fn store(alloc: Global, joined: &mut SessionSide, tag: ObjectTag, value: &[u8]) -> i32
    ensures { Performs (Put tag value.now) joined.old result joined.new }
{
    if !joined.session.is_idle() {
        return code::BUSY;
    }
    match Vec::from_slice(alloc, value) {
        Ok(copy) => perform(alloc, joined, Op::Put(tag, Bytes::new(copy))),
        Err(_) => code::MEMORY,
    }
}

/// Writes the status and the data of the last operation or command, which stay.
#[unsafe(no_mangle)]
pub extern "C" fn galliumtoad_session_answer(
    alloc: Global,
    session: &mut CardHandle,
    status: &mut u16,
    content: &mut [u8],
    len: &mut usize,
) -> i32
    ensures { OnLook
        ((status.new ≡ status.old) × (content.new ≡ content.old) × (len.new ≡ len.old))
        (TellsAnswer status.old content.old len.old status.new content.new len.new)
        (held_by session.old) result (held_by session.new) }
{
    on!(alloc, session, side => tell(&side, status, content, len))
}

fn tell(side: &CardSide, status: &mut u16, content: &mut [u8], len: &mut usize) -> i32
    ensures { TellsAnswer status.old content.old len.old status.new content.new len.new
        side.now result }
{
    let CardSide::Joined(joined) = side else {
        return code::STATE;
    };
    let Some(answer) = &joined.answer else {
        return code::NOT_FOUND;
    };
    let word = answer.status();
    *status = u16::from(word.sw1()) * 256 + u16::from(word.sw2());
    copied(answer.data(), content, len)
}

/// Returns 1 if no chain is pending at the card, and otherwise 0.
#[unsafe(no_mangle)]
pub extern "C" fn galliumtoad_session_idle(alloc: Global, session: &mut CardHandle) -> i32
    ensures { OnLook ⊤ TellsIdle (held_by session.old) result (held_by session.new) }
{
    on!(alloc, session, side => idle(&side))
}

fn idle(side: &CardSide) -> i32
    ensures { TellsIdle side.now result }
{
    let CardSide::Joined(joined) = side else {
        return code::STATE;
    };
    if joined.session.is_idle() { 1 } else { 0 }
}

/// Carries out one operation, and drops the plans that are left. With `BUSY` or `MEMORY` nothing is
/// sent, and the session stays as it was.
fn perform(alloc: Global, joined: &mut SessionSide, operation: Op) -> i32
    ensures { Performs (operation_of operation) joined.old result joined.new }
{
    if !joined.session.is_idle() {
        return code::BUSY;
    }
    let Ok(room) = room_for_next(alloc, &mut joined.answer) else {
        return code::MEMORY;
    };
    let mut heard = Listener::new(alloc, joined.listens);
    let answer = joined.session.operate_in(
        room,
        &operation,
        &mut Plans::over(&joined.plans),
        &mut heard,
    );
    joined.plans = Vec::new(alloc);
    joined.answer = Some(answer);
    joined.heard = heard;
    code::OK
}
