//! The export that gives a card a whole command, as at T=1 or without contacts.
ghost use Rattle.std.specs.Prelude.{◌≡◌, true};
ghost use Rattle.t0_core.specs.CardTpdu.{rests};
ghost use Rattle.card_c.specs.Handles.{held_by, OnHandleOr};
ghost use Rattle.card_c.specs.CardApduCalls.{RespondsTo, RespondsToCommand};
ghost use Rattle.card_c.specs.WholeCalls.{RefusesLength};

use crate::card_side::CardSide;
use crate::handle::{Handle, on};
use crate::held_card::CardHandle;
use crate::whole_tpdu::hand_out;
use crate::{code, own_whole};
use apdu_core::{ApduFault, Command, Status};
use apdu_terminal::respond;
use object_card::ObjectCard;
use std::alloc::Global;
use t0_core::CardEnd;

/// Carries out a whole command, and writes the response: data, then the status.
#[unsafe(no_mangle)]
pub extern "C" fn galliumtoad_card_apdu(
    alloc: Global,
    card: &mut CardHandle,
    apdu: &[u8],
    response: &mut [u8],
    len: &mut usize,
) -> i32
    ensures { OnHandleOr ((response.new ≡ response.old) × (len.new ≡ len.old))
        (RespondsTo apdu.now response.old len.old response.new len.new)
        (held_by card.old) result (held_by card.new) }
{
    on!(alloc, card, side => respond_to(alloc, &mut side, apdu, response, len))
}

fn respond_to(
    alloc: Global,
    side: &mut CardSide,
    apdu: &[u8],
    response: &mut [u8],
    len: &mut usize,
) -> i32
    ensures { RespondsTo apdu.now response.old len.old response.new len.new side.old
        result side.new }
{
    let CardSide::Standing(end, _) = side else {
        return own_whole::command_own(side, apdu, response, len);
    };
    if !end.is_at_rest() {
        return code::STATE;
    }
    match Command::read(apdu) {
        Ok(command) => carry_out(alloc, end, command, response, len),
        Err(ApduFault::BadLength) => refuse(response, len),
        Err(fault) => code::of_command(fault),
    }
}

/// Writes the response `6700`, wrong length, or returns `BUFFER` if it does not fit.
pub(crate) fn refuse(response: &mut [u8], len: &mut usize) -> i32
    ensures { RefusesLength response.old len.old result response.new len.new }
{
    if response.len() < 2 {
        return code::BUFFER;
    }
    hand_out(&[], Status::new(0x67, 0x00).unwrap(), response, len);
    code::OK
}

/// Lets a card's end, which has no TPDU in progress, carry out a command, and writes its response.
/// After `BUFFER` and `MEMORY` nothing has changed.
fn carry_out(
    alloc: Global,
    end: &mut CardEnd<ObjectCard>,
    command: Command<'_>,
    response: &mut [u8],
    len: &mut usize,
) -> i32
    requires { rests end.old.stage ≡ true }
    ensures { RespondsToCommand command.entry end.old response.old len.old result
        end.new response.new len.new }
{
    let le = usize::from(command.le().unwrap_or(0));
    if response.len() < le + 2 {
        return code::BUFFER;
    }
    match respond(alloc, end, command) {
        Ok(exchange) => {
            let Some(status) = exchange.status() else {
                unreachable!()
            };
            hand_out(exchange.data(), status, response, len);
            code::OK
        }
        Err(_) => code::MEMORY,
    }
}
