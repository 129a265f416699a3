//! The exports of a terminal's end of a line at T=1, which pass its blocks as bytes.
ghost use Rattle.std.specs.Prelude.{◌≡◌, Option, Some, None, MatchOption, if◌then◌else◌};
ghost use Rattle.t1_core.specs.declared.pcb.BlockReason.TheVariants as reason;
ghost use Rattle.t1_core.specs.declared.settings.Settings.{Settings};
ghost use Rattle.t1_core.specs.Block.{said};
ghost use Rattle.card_c.specs.Handles.{t1_in, OnHandle, OnHandleOr};
ghost use Rattle.card_c.specs.T1Calls.{HasBegun, IsTaken, HasSettings, Begins, Misses, Resets, TellsResponse, TellsFault, SendsBlock, ReceivesBytes, waits_for};

use crate::code;
use crate::copied::{block_copied, copied};
use crate::handle::{Handle, on};
use crate::held_t1::T1Handle;
use crate::t1_side::T1Side;
use std::alloc::Global;
use t1_core::{Block, Control, Edc, Receiver, Settings, TerminalEnd};

/// The number of LRC, an error detection code.
const LRC: u8 = 1;

/// Makes an end as after a reset, in an empty handle. `edc` is 1, which means LRC.
#[unsafe(no_mangle)]
pub extern "C" fn galliumtoad_t1_new(
    alloc: Global,
    t1: &mut T1Handle,
    edc: u8,
    ifsc: u8,
    tries: u8,
    extensions: u16,
    limit: usize,
) -> i32
    ensures { HasBegun edc ifsc tries extensions limit (t1_in t1.old) result (t1_in t1.new) }
{
    if t1.is_live() {
        return code::STATE;
    }
    let Some(settings) = settings(edc, ifsc, tries, extensions, limit) else {
        return code::ARGUMENT;
    };
    let Ok(end) = TerminalEnd::new(alloc, settings) else {
        return code::MEMORY;
    };
    let block = Receiver::new();
    match Box::new(alloc, T1Side { end, block }) {
        Ok(side) => {
            t1.put(side);
            code::OK
        }
        Err(_) => code::MEMORY,
    }
}

/// Returns the settings with these numbers, or `None` if one is out of its range.
fn settings(edc: u8, ifsc: u8, tries: u8, extensions: u16, limit: usize) -> Option<Settings>
    ensures { MatchOption result (IsTaken edc ifsc → ⊥)
        (λ s. IsTaken edc ifsc × HasSettings ifsc tries extensions limit s) }
{
    if edc != LRC {
        return None;
    }
    Settings::new(Edc::Lrc, ifsc, tries, extensions, limit).ok()
}

/// Frees the memory of a handle, which is empty then.
#[unsafe(no_mangle)]
pub extern "C" fn galliumtoad_t1_free(alloc: Global, t1: &mut T1Handle)
    ensures { t1_in t1.new ≡ None }
{
    drop(t1.take_out(alloc));
}

/// Begins a command of any length, copies it, and drops the last response.
#[unsafe(no_mangle)]
pub extern "C" fn galliumtoad_t1_begin(alloc: Global, t1: &mut T1Handle, apdu: &[u8]) -> i32
    ensures { OnHandle (Begins apdu.now) (t1_in t1.old) result (t1_in t1.new) }
{
    on!(alloc, t1, side => begin(&mut side, apdu))
}

fn begin(held: &mut T1Side, apdu: &[u8]) -> i32
    ensures { Begins apdu.now held.old result held.new }
{
    match held.end.begin(apdu) {
        Ok(()) => code::OK,
        Err(fault) => code::of_t1_begin(fault),
    }
}

/// Reports that no valid block of the card arrived. Its received part is dropped.
#[unsafe(no_mangle)]
pub extern "C" fn galliumtoad_t1_missed(alloc: Global, t1: &mut T1Handle) -> i32
    ensures { OnHandle (Misses reason.Other) (t1_in t1.old) result (t1_in t1.new) }
{
    on!(alloc, t1, side => misses(&mut side, false))
}

/// Reports that a character of the block had a wrong parity. Its received part is dropped.
#[unsafe(no_mangle)]
pub extern "C" fn galliumtoad_t1_damaged(alloc: Global, t1: &mut T1Handle) -> i32
    ensures { OnHandle (Misses reason.Edc) (t1_in t1.old) result (t1_in t1.new) }
{
    on!(alloc, t1, side => misses(&mut side, true))
}

fn misses(held: &mut T1Side, is_damaged: bool) -> i32
    ensures { Misses (if is_damaged then reason.Edc else reason.Other) held.old result held.new }
{
    if held.end.has_stopped() {
        return code::STATE;
    }
    if is_damaged {
        held.end.damaged();
    } else {
        held.end.timed_out();
    }
    held.block.clear();
    code::OK
}

/// Makes the end as it was at first, with the same settings, in any state.
#[unsafe(no_mangle)]
pub extern "C" fn galliumtoad_t1_reset(alloc: Global, t1: &mut T1Handle) -> i32
    ensures { OnHandle Resets (t1_in t1.old) result (t1_in t1.new) }
{
    on!(alloc, t1, side => reset(&mut side))
}

fn reset(held: &mut T1Side) -> i32
    ensures { Resets held.old result held.new }
{
    held.end.reset();
    // Overwrites the bytes of the block.
    held.block = Receiver::new();
    code::OK
}

/// Writes the response to the last command: data, then the status.
#[unsafe(no_mangle)]
pub extern "C" fn galliumtoad_t1_response(
    alloc: Global,
    t1: &mut T1Handle,
    response: &mut [u8],
    len: &mut usize,
) -> i32
    ensures { OnHandleOr ((response.new ≡ response.old) × (len.new ≡ len.old))
        (TellsResponse response.old len.old response.new len.new)
        (t1_in t1.old) result (t1_in t1.new) }
{
    on!(alloc, t1, side => told(&side, response, len))
}

fn told(side: &T1Side, response: &mut [u8], len: &mut usize) -> i32
    ensures { TellsResponse response.old len.old response.new len.new side.now result side.now }
{
    if !side.end.is_ready() {
        return code::STATE;
    }
    copied(side.end.response(), response, len)
}

/// Writes why the end gave up, and what is known of the command, as the numbers of `gt_t1_fault`.
/// Returns `NOT_FOUND` if it has not given up, and writes nothing.
#[unsafe(no_mangle)]
pub extern "C" fn galliumtoad_t1_fault(
    alloc: Global,
    t1: &mut T1Handle,
    cause: &mut i32,
    outcome: &mut i32,
) -> i32
    ensures { OnHandleOr ((cause.new ≡ cause.old) × (outcome.new ≡ outcome.old))
        (TellsFault cause.old outcome.old cause.new outcome.new)
        (t1_in t1.old) result (t1_in t1.new) }
{
    on!(alloc, t1, side => fault(&side, cause, outcome))
}

fn fault(side: &T1Side, cause: &mut i32, outcome: &mut i32) -> i32
    ensures { TellsFault cause.old outcome.old cause.new outcome.new side.now result side.now }
{
    let Some(fault) = side.end.fault() else {
        return code::NOT_FOUND;
    };
    *cause = code::of_t1_cause(fault.cause);
    *outcome = code::of_t1_outcome(fault.outcome);
    code::OK
}

/// Writes the next block, its length, and the card's time for its answer. The end is unchanged.
#[unsafe(no_mangle)]
pub extern "C" fn galliumtoad_t1_send_bytes(
    alloc: Global,
    t1: &mut T1Handle,
    bytes: &mut [u8],
    count: &mut usize,
    waits: &mut u8,
) -> i32
    ensures { OnHandleOr
        ((bytes.new ≡ bytes.old) × (count.new ≡ count.old) × (waits.new ≡ waits.old))
        (SendsBlock bytes.old count.old waits.old bytes.new count.new waits.new)
        (t1_in t1.old) result (t1_in t1.new) }
{
    on!(alloc, t1, side => sent(&side, bytes, count, waits))
}

fn sent(side: &T1Side, bytes: &mut [u8], count: &mut usize, waits: &mut u8) -> i32
    ensures { SendsBlock bytes.old count.old waits.old bytes.new count.new waits.new
        side.now result side.now }
{
    let Some(block) = side.end.next() else {
        return if side.end.is_ready() {
            code::DONE
        } else {
            code::FAILED
        };
    };
    *waits = waits_for(block);
    block_copied(block, bytes, count)
}

/// Returns the card's time for its answer to a block, as a multiple of BWT. It is that of an S(WTX
/// response), where 0 counts as 1. For any other block it is 1.
fn waits_for(block: Block<'_>) -> u8
    ensures { result ≡ waits_for (said block.entry) }
{
    match block {
        Block::Response(Control::Wtx(multiple)) => { if multiple == 0 { 1 } else { multiple } }
        _ => 1,
    }
}

/// Takes bytes of the card up to the end of its block, and writes their number to `count`.
#[unsafe(no_mangle)]
pub extern "C" fn galliumtoad_t1_receive_bytes(
    alloc: Global,
    t1: &mut T1Handle,
    bytes: &[u8],
    count: &mut usize,
) -> i32
    ensures { OnHandleOr (count.new ≡ count.old) (ReceivesBytes bytes.now count.old count.new)
        (t1_in t1.old) result (t1_in t1.new) }
{
    on!(alloc, t1, side => received(&mut side, bytes, count))
}

fn received(side: &mut T1Side, bytes: &[u8], count: &mut usize) -> i32
    ensures { ReceivesBytes bytes.now count.old count.new side.old result side.new }
{
    if side.end.has_stopped() {
        return code::STATE;
    }
    *count = side.block.take_bytes(bytes);
    if !side.block.is_whole() {
        return code::OK;
    }
    side.end.take_bytes(side.block.bytes());
    side.block.clear();
    code::SENDS
}
