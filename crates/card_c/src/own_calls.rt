//! The exports that make a card of an own application, and give it responses.
ghost use Rattle.std.specs.Prelude.{◌≡◌, ◌≤◌, ⊤, length};
ghost use Rattle.card_c.specs.Handles.{held_by, OnHandle, OnLook};
ghost use Rattle.card_c.specs.OwnCalls.{BeginsOwn, Decides, DecidesAt, GivesOne, IsRecord, RespondsAt, RespondsOwn, TellsCommand, TellsSettled, TellsWanted, IsDirections};

use crate::card_side::CardSide;
use crate::code;
use crate::command_record::CommandRecord;
use crate::handle::{Handle, on};
use crate::held_card::CardHandle;
use crate::own_side::{OwnSide, Whole};
use crate::own_t1::wanted_at_t1;
use crate::own_whole::{wanted_in, wants_response};
use apdu_core::{Header, Status};
use command_card::{CommandCard, Directions, GiveFault, Given, Wanted, decide, give};
use std::alloc::Global;
use t0_core::CardEnd;

/// Makes a card of an own application, which listens at T=0. `directions` are 32 bytes, or none.
#[unsafe(no_mangle)]
pub extern "C" fn galliumtoad_card_own(
    alloc: Global,
    card: &mut CardHandle,
    directions: &[u8],
) -> i32
    ensures { BeginsOwn directions.now (held_by card.old) result (held_by card.new) }
{
    if card.is_live() {
        return code::STATE;
    }
    let Some(directions) = directions_in(directions) else {
        return code::ARGUMENT;
    };
    match Box::new(alloc, CardSide::Own(OwnSide::new(alloc, directions))) {
        Ok(side) => {
            card.put(side);
            code::OK
        }
        Err(_) => code::MEMORY,
    }
}

/// The directions in 32 bytes. Without bytes each header is asked for.
fn directions_in(bytes: &[u8]) -> Option<Directions>
    ensures { IsDirections bytes.now result }
{
    if bytes.is_empty() {
        return Some(Directions::Unknown);
    }
    if bytes.len() != 32 {
        return None;
    }
    let mut table = [0; 32];
    table.copy_from_slice(bytes);
    Some(Directions::Table(table))
}

/// Writes the command that waits, or the header that waits for its direction.
#[unsafe(no_mangle)]
pub extern "C" fn galliumtoad_card_command(
    alloc: Global,
    card: &mut CardHandle,
    command: &mut CommandRecord,
) -> i32
    ensures { OnLook (command.new ≡ command.old) (TellsCommand command.old command.new)
        (held_by card.old) result (held_by card.new) }
{
    on!(alloc, card, side => tell_command(&side, command))
}

fn tell_command(side: &CardSide, command: &mut CommandRecord) -> i32
    ensures { TellsCommand command.old command.new side.now result }
{
    match side {
        CardSide::Own(own) => tell_wanted(wanted_in(&own.end, own.whole, &own.asked), command),
        CardSide::OwnAtT1(at) => tell_wanted(wanted_at_t1(at), command),
        CardSide::Building(_) | CardSide::Standing(..) => code::STATE,
        CardSide::Joined(_) | CardSide::AtT1(_) => code::STATE,
    }
}

fn tell_wanted(wanted: Wanted<'_>, command: &mut CommandRecord) -> i32
    ensures { TellsWanted wanted.entry command.old command.new result }
{
    match wanted {
        Wanted::Nothing => return code::STATE,
        Wanted::Direction(header) => write_record(command, header, &[], 0),
        Wanted::Response(waits) => {
            let le = waits.le().unwrap_or(0);
            write_record(command, waits.header(), waits.data(), le);
        }
    }
    code::OK
}

/// Writes a command as C sees it, with at most 255 bytes of data. The data go right to their place,
/// so that no copy stays on the stack.
fn write_record(command: &mut CommandRecord, header: Header, bytes: &[u8], le: u16)
    ensures { length bytes.now ≤ 255 → IsRecord header bytes.now le command.new }
{
    let count = bytes.len().min(255);
    command.cla = header.cla;
    command.ins = header.ins;
    command.p1 = header.p1;
    command.p2 = header.p2;
    command.le = le;
    command.size = count as u8;
    command.data.fill(0);
    command.data[..count].copy_from_slice(&bytes[..count]);
}

/// Answers which way the data of the header that waits go.
#[unsafe(no_mangle)]
pub extern "C" fn galliumtoad_card_direction(
    alloc: Global,
    card: &mut CardHandle,
    to_card: bool,
) -> i32
    ensures { OnHandle (Decides to_card) (held_by card.old) result (held_by card.new) }
{
    on!(alloc, card, side => direction(&mut side, to_card))
}

fn direction(side: &mut CardSide, to_card: bool) -> i32
    ensures { Decides to_card side.old result side.new }
{
    match side {
        CardSide::Own(own) => decide_at(&mut own.end, own.whole, &own.asked, to_card),
        CardSide::OwnAtT1(at) => {
            let asked = &at.asked;
            at.end.with_applet(|applet| decide_at(&mut applet.end, Whole::Command, asked, to_card))
        }
        CardSide::Building(_) | CardSide::Standing(..) => code::STATE,
        CardSide::Joined(_) | CardSide::AtT1(_) => code::STATE,
    }
}

fn decide_at(
    end: &mut CardEnd<CommandCard<Given>>,
    whole: Whole,
    asked: &Vec<u8>,
    to_card: bool,
) -> i32
    ensures { DecidesAt whole asked.now.items to_card end.old result end.new }
{
    if !matches!(wanted_in(end, whole, asked), Wanted::Direction(_)) {
        return code::STATE;
    }
    if decide(end, to_card) {
        code::OK
    } else {
        code::STATE
    }
}

/// Gives the response to the command that waits.
#[unsafe(no_mangle)]
pub extern "C" fn galliumtoad_card_respond(
    alloc: Global,
    card: &mut CardHandle,
    bytes: &[u8],
    status: u16,
) -> i32
    ensures { OnHandle (RespondsOwn bytes.now status) (held_by card.old) result
        (held_by card.new) }
{
    on!(alloc, card, side => respond(&mut side, bytes, status))
}

fn respond(side: &mut CardSide, bytes: &[u8], status: u16) -> i32
    ensures { RespondsOwn bytes.now status side.old result side.new }
{
    match side {
        CardSide::Own(own) => respond_at(&mut own.end, own.whole, &own.asked, bytes, status),
        CardSide::OwnAtT1(at) => {
            let asked = &at.asked;
            at.end.with_applet(|applet| {
                respond_at(&mut applet.end, Whole::Command, asked, bytes, status)
            })
        }
        CardSide::Building(_) | CardSide::Standing(..) => code::STATE,
        CardSide::Joined(_) | CardSide::AtT1(_) => code::STATE,
    }
}

fn respond_at(
    end: &mut CardEnd<CommandCard<Given>>,
    whole: Whole,
    asked: &Vec<u8>,
    bytes: &[u8],
    status: u16,
) -> i32
    ensures { RespondsAt whole asked.now.items bytes.now status end.old result end.new }
{
    if !wants_response(end, whole, asked) {
        return code::STATE;
    }
    give_to(end, bytes, status)
}

/// Gives the response to the command in progress, and returns the code.
fn give_to(end: &mut CardEnd<CommandCard<Given>>, bytes: &[u8], status: u16) -> i32
    ensures { GivesOne bytes.now status end.old result end.new }
{
    let [sw1, sw2] = status.to_be_bytes();
    let Some(status) = Status::new(sw1, sw2) else {
        return code::ARGUMENT;
    };
    match give(end, bytes, status) {
        Ok(()) => code::OK,
        Err(GiveFault::NotWanted) => code::STATE,
        Err(GiveFault::TooLong) => code::ARGUMENT,
        Err(GiveFault::CardsOwn) => code::ARGUMENT,
        Err(GiveFault::OutOfMemory) => code::MEMORY,
    }
}

/// Returns whether the last command that got a response has settled.
#[unsafe(no_mangle)]
pub extern "C" fn galliumtoad_card_settled(alloc: Global, card: &mut CardHandle) -> i32
    ensures { OnLook ⊤ TellsSettled (held_by card.old) result (held_by card.new) }
{
    on!(alloc, card, side => settled(&side))
}

fn settled(side: &CardSide) -> i32
    ensures { TellsSettled side.now result }
{
    match side {
        CardSide::Own(own) => i32::from(own.end.card().application().has_settled()),
        CardSide::OwnAtT1(at) => {
            i32::from(at.end.applet().end.card().application().has_settled())
        }
        CardSide::Building(_) | CardSide::Standing(..) => code::STATE,
        CardSide::Joined(_) | CardSide::AtT1(_) => code::STATE,
    }
}
