//! The exports of a terminal's exchange of one command, character by character.
ghost use Rattle.std.specs.Prelude.{◌≡◌, ⊤, IfOk, IfErr, None, Some};
ghost use Rattle.exchange_core.specs.ExchangeSide.{response_limit};
ghost use Rattle.card_c.specs.Handles.{exchange_in, OnHandle, OnHandleOr, OnLook};
ghost use Rattle.card_c.specs.ExchangeCalls.{IsRefused, HasBegun, Starts, ByTpdus, TurnsTo, TakesByte, TellsAnswerOf};

use crate::apdu_side::ApduSide;
use crate::code;
use crate::copied::copied;
use crate::exchange_side::ExchangeSide;
use crate::handle::{Handle, on};
use crate::held_exchange::ExchangeHandle;
use crate::whole_apdu::ended;
use apdu_core::Command;
use apdu_terminal::ApduTerminal;
use card_terminal::{OwnedExchange, RESPONSE_LIMIT, StartFault};
use std::alloc::Global;
use t0_core::HostTurn;

/// Begins the exchange of a command in an empty handle.
#[unsafe(no_mangle)]
pub extern "C" fn galliumtoad_exchange_start(
    alloc: Global,
    exchange: &mut ExchangeHandle,
    command: &[u8],
) -> i32
    ensures { Starts command.now response_limit (exchange_in exchange.old) result
        (exchange_in exchange.new) }
{
    galliumtoad_exchange_start_within(alloc, exchange, command, RESPONSE_LIMIT)
}

/// Does the same for a response of at most `limit` bytes, from 0 to 16,384.
#[unsafe(no_mangle)]
pub extern "C" fn galliumtoad_exchange_start_within(
    alloc: Global,
    exchange: &mut ExchangeHandle,
    command: &[u8],
    limit: usize,
) -> i32
    ensures { Starts command.now limit (exchange_in exchange.old) result
        (exchange_in exchange.new) }
{
    if exchange.is_live() {
        return code::STATE;
    }
    match begun(alloc, command, limit) {
        Ok(side) => {
            exchange.put(side);
            code::OK
        }
        Err(refusal) => refusal,
    }
}

/// Begins the exchange of the command with these bytes, or returns the code of the fault.
fn begun(alloc: Global, command: &[u8], limit: usize) -> Result<Box<ExchangeSide>, i32>
    ensures begun { IfOk result (λ side. HasBegun command.now limit side.value) }
    ensures refused { IfErr result (λ code. IsRefused command.now limit code) }
{
    let command = match Command::read(command) {
        Ok(command) => command,
        Err(fault) => return Err(code::of_command(fault)),
    };
    let Ok(terminal) = ApduTerminal::new_within(alloc, limit) else {
        return Err(code::ARGUMENT);
    };
    let apdus = ApduSide {
        terminal,
        leads: false,
    };
    match OwnedExchange::start_within(alloc, command, limit) {
        Ok(exchange) => match Box::new(alloc, ExchangeSide { exchange, apdus }) {
            Ok(side) => Ok(side),
            Err(_) => Err(code::MEMORY),
        },
        Err(StartFault::OverLimit) => Err(code::ARGUMENT),
        Err(StartFault::OutOfMemory) => Err(code::MEMORY),
    }
}

/// Takes the terminal's turn. A character to send is written to `byte`, and counts as sent.
#[unsafe(no_mangle)]
pub extern "C" fn galliumtoad_exchange_next(
    alloc: Global,
    exchange: &mut ExchangeHandle,
    byte: &mut u8,
) -> i32
    ensures { OnHandleOr (byte.new ≡ byte.old)
        (ByTpdus (byte.new ≡ byte.old) (TurnsTo byte.old byte.new))
        (exchange_in exchange.old) result (exchange_in exchange.new) }
{
    on!(alloc, exchange, side => turned(&mut side, byte))
}

fn turned(side: &mut ExchangeSide, byte: &mut u8) -> i32
    ensures { ByTpdus (byte.new ≡ byte.old) (TurnsTo byte.old byte.new) side.old result side.new }
{
    if side.apdus.leads {
        return code::STATE;
    }
    let turn = side.exchange.next();
    if let HostTurn::Sends(sent) = turn {
        *byte = sent;
    }
    code::of_turn(turn)
}

/// Takes a character of the card. If it completes a status, the next TPDU begins, if one follows.
#[unsafe(no_mangle)]
pub extern "C" fn galliumtoad_exchange_take(
    alloc: Global,
    exchange: &mut ExchangeHandle,
    byte: u8,
) -> i32
    ensures { OnHandle (ByTpdus ⊤ (TakesByte byte))
        (exchange_in exchange.old) result (exchange_in exchange.new) }
{
    on!(alloc, exchange, side => take(&mut side, byte))
}

fn take(side: &mut ExchangeSide, byte: u8) -> i32
    ensures { ByTpdus ⊤ (TakesByte byte) side.old result side.new }
{
    if side.apdus.leads {
        return code::STATE;
    }
    code::of_taking(side.exchange.take(byte))
}

/// Writes the status and the data of an exchange that has ended. The exchange keeps them.
#[unsafe(no_mangle)]
pub extern "C" fn galliumtoad_exchange_answer(
    alloc: Global,
    exchange: &mut ExchangeHandle,
    status: &mut u16,
    content: &mut [u8],
    len: &mut usize,
) -> i32
    ensures { OnLook
        ((status.new ≡ status.old) × (content.new ≡ content.old) × (len.new ≡ len.old))
        (λ side code. TellsAnswerOf side status.old content.old len.old code
        status.new content.new len.new) (exchange_in exchange.old) result
        (exchange_in exchange.new) }
{
    on!(alloc, exchange, side => given(&side, status, content, len))
}

fn given(side: &ExchangeSide, status: &mut u16, content: &mut [u8], len: &mut usize) -> i32
    ensures { TellsAnswerOf side.now status.old content.old len.old
        result status.new content.new len.new }
{
    if side.apdus.leads {
        return ended(&side.apdus, status, content, len);
    }
    let Some((word, bytes)) = side.exchange.answer() else {
        return code::STATE;
    };
    *status = u16::from_be_bytes([word.sw1(), word.sw2()]);
    copied(bytes, content, len)
}

/// Frees the memory of a handle, which is empty then.
#[unsafe(no_mangle)]
pub extern "C" fn galliumtoad_exchange_free(alloc: Global, exchange: &mut ExchangeHandle)
    ensures { exchange_in exchange.new ≡ None }
{
    drop(exchange.take_out(alloc));
}
