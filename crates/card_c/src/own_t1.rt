//! A card of an own application at T=1.
ghost use Rattle.std.specs.Prelude.{◌≡◌, ◌≢◌, ⊤, None, [], OnOk, OnErr, if◌then◌else◌};
ghost use Rattle.t1_core.specs.declared.pcb.BlockReason.TheVariants as reason;
ghost use Rattle.t1_core.specs.Doing.{AreRooms};
ghost use Rattle.t1_core.specs.Patience.{command_in};
ghost use Rattle.card_c.specs.Handles.{held_by, OnHandle};
ghost use Rattle.card_c.specs.OwnCalls.{Freely, IsWantedAtT1};
ghost use Rattle.card_c.specs.OwnT1.{AsksTime, AsksTimeOne, DropsGiven, HasCommand, HearsOwn, HearsOwnBlock, MissesOwn, PausesOne, SendsOwn, SendsWaiting, TakesAgain, is_idle, own_at_t0, own_begun};

use crate::card_side::CardSide;
use crate::code;
use crate::copied::block_copied;
use crate::handle::{Handle, on};
use crate::held_card::CardHandle;
use crate::own_side::{OwnSide, OwnT1Side, Whole, forget};
use crate::own_whole::wanted_in;
use command_card::{GivenApplet, Wanted, take_back, wanted_next};
use std::alloc::{AllocError, Global};
use t1_core::{PatientCard, Receiver, Rooms};

/// The card as it begins to speak T=1.
pub(crate) fn own_begun(rooms: Rooms, own: OwnSide) -> OwnT1Side
    requires { AreRooms 261 rooms }
    ensures { result ≡ own_begun own }
{
    let OwnSide {
        end,
        plans,
        asked,
        ..
    } = own;
    OwnT1Side {
        end: PatientCard::new(rooms, GivenApplet { end }),
        block: Receiver::new(),
        reply: None,
        asked,
        plans,
    }
}

/// Whether nothing is in progress, and nothing waits as a whole.
pub(crate) fn is_idle(own: &OwnSide) -> bool
    ensures { result ≡ is_idle own.now }
{
    own.end.is_at_rest() && matches!(own.whole, Whole::Nothing)
}

/// The card at T=0: what waits is dropped.
pub(crate) fn back_at_t0(at: OwnT1Side) -> OwnSide
    ensures { result ≡ own_at_t0 at }
{
    let OwnT1Side {
        end,
        asked,
        plans,
        ..
    } = at;
    let GivenApplet { end } = end.into_applet();
    OwnSide {
        end,
        plans,
        whole: Whole::Nothing,
        asked,
    }
}

/// Writes the next block and its length, or returns what waits.
#[inline(never)]
pub(crate) fn send_own(at: &mut OwnT1Side, bytes: &mut [u8], count: &mut usize) -> i32
    ensures { SendsOwn bytes.old count.old bytes.new count.new at.old result at.new }
{
    take_again(at);
    let Some(reply) = at.reply else {
        return wait_code(at);
    };
    block_copied(at.end.block(reply), bytes, count)
}

/// Gives the end the block that waits again, if one does.
fn take_again(at: &mut OwnT1Side)
    ensures { TakesAgain at.old at.new }
{
    if at.end.awaits() {
        forget(&mut at.asked);
        at.reply = at.end.again();
    }
}

/// Returns what waits, and keeps the command for the caller.
fn wait_code(at: &mut OwnT1Side) -> i32
    ensures { SendsWaiting at.old result at.new }
{
    if !at.end.awaits() {
        return code::DONE;
    }
    if copy_command(&at.end, &mut at.asked).is_err() {
        return code::MEMORY;
    }
    match wanted_at_t1(at) {
        Wanted::Nothing => code::MEMORY,
        Wanted::Direction(_) => code::HEADER,
        Wanted::Response(_) => code::COMMAND,
    }
}

/// What is wanted of the caller: for the command that the sending call returned for.
pub(crate) fn wanted_at_t1<'a>(at: &'a OwnT1Side) -> Wanted<'a>
    ensures { IsWantedAtT1 at.now result }
{
    wanted_in(&at.end.applet().end, Whole::Command, &at.asked)
}

/// Copies the command that waits, or nothing.
fn copy_command(end: &PatientCard<GivenApplet>, asked: &mut Vec<u8>) -> Result<(), AllocError>
    ensures copied { OnOk result (HasCommand (command_in 261 end.now) asked.new.items) }
    ensures failed { OnErr result ((asked.new.items ≡ []) × (command_in 261 end.now ≢ None)) }
{
    forget(asked);
    let Some((front, field)) = end.command() else {
        return Ok(());
    };
    if asked.extend_from_slice(front).is_err() || asked.extend_from_slice(field).is_err() {
        forget(asked);
        return Err(AllocError);
    }
    Ok(())
}

/// Takes bytes of the terminal up to the end of its block.
#[inline(never)]
pub(crate) fn receive_own(at: &mut OwnT1Side, bytes: &[u8], count: &mut usize) -> i32
    ensures { HearsOwn bytes.now count.new at.old result at.new }
{
    *count = at.block.take_bytes(bytes);
    if !at.block.is_whole() {
        return code::OK;
    }
    hear(at);
    code::SENDS
}

/// Takes the whole block of the terminal.
fn hear(at: &mut OwnT1Side)
    ensures { HearsOwnBlock at.old at.new }
{
    drop_given(at);
    at.reply = at.end.take(&mut at.block);
}

/// Takes back what was given for the command that waits: a block of the terminal drops it.
fn drop_given(at: &mut OwnT1Side)
    ensures { DropsGiven at.old at.new }
{
    forget(&mut at.asked);
    at.end.with_applet(|applet| take_back(&mut applet.end));
}

/// Reports that no valid block of the terminal arrived.
pub(crate) fn misses_own(at: &mut OwnT1Side, is_damaged: bool) -> i32
    ensures { MissesOwn (if is_damaged then reason.Edc else reason.Other) at.old result at.new }
{
    drop_given(at);
    let answer = if is_damaged {
        at.end.damaged()
    } else {
        at.end.invalid()
    };
    at.reply = Some(answer);
    at.block.clear();
    code::SENDS
}

/// Asks the terminal for more time, if a command waits by characters or at T=1.
#[unsafe(no_mangle)]
pub extern "C" fn galliumtoad_card_more_time(
    alloc: Global,
    card: &mut CardHandle,
    multiple: u8,
) -> i32
    ensures { OnHandle (AsksTime multiple) (held_by card.old) result (held_by card.new) }
{
    on!(alloc, card, side => more_time(&mut side, multiple))
}

fn more_time(side: &mut CardSide, multiple: u8) -> i32
    ensures { AsksTime multiple side.old result side.new }
{
    match side {
        CardSide::Own(own) => pause(own, multiple),
        CardSide::OwnAtT1(at) => ask_time(at, multiple),
        CardSide::Building(_) | CardSide::Standing(..) => code::STATE,
        CardSide::Joined(_) | CardSide::AtT1(_) => code::STATE,
    }
}

/// Lets the card at T=0 send a NULL next.
fn pause(own: &mut OwnSide, multiple: u8) -> i32
    ensures { Freely (PausesOne multiple) ⊤ own.old result own.new }
{
    if !matches!(own.whole, Whole::Nothing) {
        return code::STATE;
    }
    pause_free(own, multiple)
}

fn pause_free(own: &mut OwnSide, multiple: u8) -> i32
    ensures { PausesOne multiple own.old result own.new }
{
    let Wanted::Response(_) = wanted_next(&own.end) else {
        return code::STATE;
    };
    if multiple == 0 {
        return code::ARGUMENT;
    }
    own.whole = Whole::Null;
    code::OK
}

fn ask_time(at: &mut OwnT1Side, multiple: u8) -> i32
    ensures { AsksTimeOne multiple at.old result at.new }
{
    let Wanted::Response(_) = wanted_at_t1(at) else {
        return code::STATE;
    };
    if multiple == 0 {
        return code::ARGUMENT;
    }
    let Some(reply) = at.end.ask_time(multiple) else {
        return code::STATE;
    };
    forget(&mut at.asked);
    at.reply = Some(reply);
    code::OK
}
