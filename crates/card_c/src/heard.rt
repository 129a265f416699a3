//! The exports that record the characters of a session.
ghost use Rattle.std.specs.Prelude.{◌≡◌, ◌≤◌, ◌++◌, drop, length, map};
ghost use Rattle.card_c.specs.Handles.{held_by, OnHandle, OnLook};
ghost use Rattle.card_c.specs.HeardCalls.{Listens, IsHeard, TellsHeard, character_record};

use crate::card_side::CardSide;
use crate::character_record::CharacterRecord;
use crate::code;
use crate::handle::{Handle, on};
use crate::held_card::CardHandle;
use crate::listener::Listener;
use crate::session_side::SessionSide;
use std::alloc::Global;
use t0_core::End;

/// Records the characters of each later operation, and drops those recorded before.
#[unsafe(no_mangle)]
pub extern "C" fn galliumtoad_session_listen(alloc: Global, session: &mut CardHandle) -> i32
    ensures { OnHandle Listens (held_by session.old) result (held_by session.new) }
{
    on!(alloc, session, side => listen(alloc, &mut side))
}

fn listen(alloc: Global, side: &mut CardSide) -> i32
    ensures { Listens side.old result side.new }
{
    let CardSide::Joined(joined) = side else {
        return code::STATE;
    };
    hear(alloc, joined);
    code::OK
}

fn hear(alloc: Global, joined: &mut SessionSide)
    ensures { IsHeard joined.old joined.new }
{
    joined.listens = true;
    joined.heard = Listener::new(alloc, true);
}

/// Writes the recorded characters of the last operation, each with its sender, and their number.
/// `BUFFER` writes only the number; `STATE` (it does not listen) and `MEMORY` write nothing.
#[unsafe(no_mangle)]
pub extern "C" fn galliumtoad_session_heard(
    alloc: Global,
    session: &mut CardHandle,
    line: &mut [CharacterRecord],
    count: &mut usize,
) -> i32
    ensures { OnLook ((line.new ≡ line.old) × (count.new ≡ count.old))
        (TellsHeard line.old count.old line.new count.new)
        (held_by session.old) result (held_by session.new) }
{
    on!(alloc, session, side => heard(&side, line, count))
}

fn heard(side: &CardSide, line: &mut [CharacterRecord], count: &mut usize) -> i32
    ensures { TellsHeard line.old count.old line.new count.new side.now result }
{
    let CardSide::Joined(joined) = side else {
        return code::STATE;
    };
    if !joined.listens {
        return code::STATE;
    }
    if joined.heard.lost() {
        return code::MEMORY;
    }
    let heard = joined.heard.heard();
    *count = heard.len();
    if heard.len() > line.len() {
        return code::BUFFER;
    }
    put_all(heard, line);
    code::OK
}

/// Writes the characters to the front of the array, which must have room for them.
fn put_all(heard: &[(End, u8)], line: &mut [CharacterRecord])
    requires { length heard.now ≤ length line.old }
    ensures { line.new ≡ map character_record heard.now ++ drop (length heard.now) line.old }
{
    for at in 0..heard.len() {
        line[at] = record(heard[at]);
    }
}

fn record(character: (End, u8)) -> CharacterRecord
    ensures { result ≡ character_record character }
{
    let (end, byte) = character;
    let from = match end {
        End::Terminal => 0,
        End::Card => 1,
    };
    CharacterRecord { from, byte }
}
