//! The export that sends any one command to the card of a session.
ghost use Rattle.object_card.specs.Agreed.{IsAgreed};
ghost use Rattle.object_card.specs.Instructions.{MayReceive, MaySend};
ghost use Rattle.card_c.specs.Handles.{held_by, OnHandle};
ghost use Rattle.card_c.specs.SendCalls.{SendsAgreed, SendsBytes};

use crate::card_side::CardSide;
use crate::code;
use crate::handle::{Handle, on};
use crate::held_card::CardHandle;
use crate::listener::Listener;
use crate::session_side::{SessionSide, room_for_next};
use apdu_core::Command;
use object_card::is_agreed;
use std::alloc::Global;
use t0_core::Plans;

/// Sends a command, which may begin or continue a chain, and never gets `BUSY`.
#[unsafe(no_mangle)]
pub extern "C" fn galliumtoad_session_send(
    alloc: Global,
    session: &mut CardHandle,
    command: &[u8],
) -> i32
    ensures { OnHandle (SendsBytes command.now) (held_by session.old) result
        (held_by session.new) }
{
    on!(alloc, session, side => send(alloc, &mut side, command))
}

fn send(alloc: Global, side: &mut CardSide, bytes: &[u8]) -> i32
    ensures { SendsBytes bytes.now side.old result side.new }
{
    let CardSide::Joined(joined) = side else {
        return code::STATE;
    };
    match Command::read(bytes) {
        Ok(command) => {
            if is_agreed(&command) {
                transmit(alloc, joined, command)
            } else {
                code::ARGUMENT
            }
        }
        Err(fault) => code::of_command(fault),
    }
}

fn transmit(alloc: Global, joined: &mut SessionSide, command: Command) -> i32
    requires { IsAgreed MayReceive MaySend command }
    ensures { SendsAgreed command.entry joined.old result joined.new }
{
    let Ok(room) = room_for_next(alloc, &mut joined.answer) else {
        return code::MEMORY;
    };
    let mut heard = Listener::new(alloc, joined.listens);
    let plans = &mut Plans::over(&joined.plans);
    let answer = joined.session.send_in(room, command, plans, &mut heard);
    joined.plans = Vec::new(alloc);
    joined.answer = Some(answer);
    joined.heard = heard;
    code::OK
}
