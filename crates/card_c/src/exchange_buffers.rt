//! The exports that pass several characters to and from an exchange.
ghost use Rattle.std.specs.Prelude.{◌≡◌};
ghost use Rattle.card_c.specs.ExchangeCalls.{ByTpdus};
ghost use Rattle.card_c.specs.Handles.{exchange_in, OnHandleOr};
ghost use Rattle.card_c.specs.BufferCalls.{SendsBytes, ReceivesBytes};

use crate::code;
use crate::exchange_side::ExchangeSide;
use crate::handle::{Handle, on};
use crate::held_exchange::ExchangeHandle;
use std::alloc::Global;

/// Writes the terminal's characters until it stops or `bytes` is full, and their number.
#[unsafe(no_mangle)]
pub extern "C" fn galliumtoad_exchange_send_bytes(
    alloc: Global,
    exchange: &mut ExchangeHandle,
    bytes: &mut [u8],
    count: &mut usize,
) -> i32
    ensures { OnHandleOr ((bytes.new ≡ bytes.old) × (count.new ≡ count.old))
        (ByTpdus ((bytes.new ≡ bytes.old) × (count.new ≡ count.old))
        (SendsBytes bytes.old bytes.new count.new))
        (exchange_in exchange.old) result (exchange_in exchange.new) }
{
    on!(alloc, exchange, side => sent(&mut side, bytes, count))
}

fn sent(side: &mut ExchangeSide, bytes: &mut [u8], count: &mut usize) -> i32
    ensures { ByTpdus ((bytes.new ≡ bytes.old) × (count.new ≡ count.old))
        (SendsBytes bytes.old bytes.new count.new) side.old result side.new }
{
    if side.apdus.leads {
        return code::STATE;
    }
    let handed = side.exchange.next_bytes(bytes);
    *count = handed.count;
    code::of_stop(handed.stop)
}

/// Takes characters of the card until one is refused, and writes the number taken to `count`.
#[unsafe(no_mangle)]
pub extern "C" fn galliumtoad_exchange_receive_bytes(
    alloc: Global,
    exchange: &mut ExchangeHandle,
    bytes: &[u8],
    count: &mut usize,
) -> i32
    ensures { OnHandleOr (count.new ≡ count.old)
        (ByTpdus (count.new ≡ count.old) (ReceivesBytes bytes.now count.new))
        (exchange_in exchange.old) result (exchange_in exchange.new) }
{
    on!(alloc, exchange, side => received(&mut side, bytes, count))
}

fn received(side: &mut ExchangeSide, bytes: &[u8], count: &mut usize) -> i32
    ensures { ByTpdus (count.new ≡ count.old) (ReceivesBytes bytes.now count.new)
        side.old result side.new }
{
    if side.apdus.leads {
        return code::STATE;
    }
    let taken = side.exchange.take_bytes(bytes);
    *count = taken.count;
    code::of_taking(taken.outcome)
}
