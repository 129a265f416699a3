//! The exports that carry out an exchange by whole commands.
ghost use Rattle.std.specs.Prelude.{◌≡◌};
ghost use Rattle.card_c.specs.Handles.{exchange_in, OnHandle};
ghost use Rattle.card_c.specs.Codes.{gt_ok};
ghost use Rattle.card_c.specs.ApduCalls.{TellsDue, TakesResponse};
ghost use Rattle.card_c.specs.ExchangeCalls.{ByApdus, IsUnsentOf};

use crate::code;
use crate::exchange_side::ExchangeSide;
use crate::handle::{Handle, on};
use crate::held_exchange::ExchangeHandle;
use crate::whole_apdu::{opened, responded, responded_first, told};
use card_terminal::{OwnedExchange, Unsent};
use std::alloc::Global;

/// Writes the next whole command, its length, and the most data bytes of its response, 0 to 256.
#[unsafe(no_mangle)]
pub extern "C" fn galliumtoad_exchange_apdu(
    alloc: Global,
    exchange: &mut ExchangeHandle,
    apdu: &mut [u8],
    len: &mut usize,
    most: &mut usize,
) -> i32
    ensures still { (result ≡ gt_ok → ⊥) → (apdu.new ≡ apdu.old) × (len.new ≡ len.old)
        × (most.new ≡ most.old) }
    ensures told { OnHandle (ByApdus (TellsDue apdu.old len.old most.old apdu.new len.new
        most.new))
        (exchange_in exchange.old) result (exchange_in exchange.new) }
{
    on!(alloc, exchange, side => due(&mut side, apdu, len, most))
}

fn due(side: &mut ExchangeSide, apdu: &mut [u8], len: &mut usize, most: &mut usize) -> i32
    ensures still { (result ≡ gt_ok → ⊥) → (apdu.new ≡ apdu.old) × (len.new ≡ len.old)
        × (most.new ≡ most.old) }
    ensures told { ByApdus (TellsDue apdu.old len.old most.old apdu.new len.new most.new)
        side.old result side.new }
{
    if !side.apdus.leads {
        if let Some(refusal) = opened(&mut side.apdus, unsent_of(&side.exchange)) {
            return refusal;
        }
    }
    told(side.apdus.terminal.apdu(), apdu, len, most)
}

/// Takes the response to that command. Once it accepts one, the exchange goes by commands.
#[unsafe(no_mangle)]
pub extern "C" fn galliumtoad_exchange_responded(
    alloc: Global,
    exchange: &mut ExchangeHandle,
    response: &[u8],
) -> i32
    ensures { OnHandle (ByApdus (TakesResponse response.now))
        (exchange_in exchange.old) result (exchange_in exchange.new) }
{
    on!(alloc, exchange, side => take_response(&mut side, response))
}

fn take_response(side: &mut ExchangeSide, response: &[u8]) -> i32
    ensures { ByApdus (TakesResponse response.now) side.old result side.new }
{
    if side.apdus.leads {
        return responded(&mut side.apdus, response);
    }
    responded_first(&mut side.apdus, unsent_of(&side.exchange), response)
}

/// Returns what an exchange has to send. `None` if a character or an answer of it has passed.
fn unsent_of(exchange: &OwnedExchange) -> Option<Unsent<'_>>
    ensures { IsUnsentOf exchange.now result }
{
    match exchange.unsent() {
        None => None,
        Some(first) => Some(Unsent {
            first,
            p1: 0,
            p2: 0,
            rest: &[],
        }),
    }
}
