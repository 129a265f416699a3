//! The exports that pass several characters to and from a terminal.
ghost use Rattle.std.specs.Prelude.{◌≡◌};
ghost use Rattle.card_c.specs.Handles.{terminal_in, OnHandleOr};
ghost use Rattle.card_c.specs.TerminalCalls.{OnTpdus};
ghost use Rattle.card_c.specs.BufferCalls.{TerminalSends, TerminalReceives};

use crate::code;
use crate::handle::{Handle, on};
use crate::held_terminal::TerminalHandle;
use crate::terminal_side::TerminalSide;
use std::alloc::Global;

/// Writes the terminal's characters until it stops or `bytes` is full, and their number.
#[unsafe(no_mangle)]
pub extern "C" fn galliumtoad_terminal_send_bytes(
    alloc: Global,
    terminal: &mut TerminalHandle,
    bytes: &mut [u8],
    count: &mut usize,
) -> i32
    ensures { OnHandleOr ((bytes.new ≡ bytes.old) × (count.new ≡ count.old))
        (OnTpdus ((bytes.new ≡ bytes.old) × (count.new ≡ count.old))
        (TerminalSends bytes.old count.old bytes.new count.new))
        (terminal_in terminal.old) result (terminal_in terminal.new) }
{
    on!(alloc, terminal, side => sent(&mut side, bytes, count))
}

fn sent(side: &mut TerminalSide, bytes: &mut [u8], count: &mut usize) -> i32
    ensures { OnTpdus ((bytes.new ≡ bytes.old) × (count.new ≡ count.old))
        (TerminalSends bytes.old count.old bytes.new count.new) side.old result side.new }
{
    if side.apdus.leads {
        return code::STATE;
    }
    let Some(handed) = side.terminal.next_bytes(bytes) else {
        return code::STATE;
    };
    *count = handed.count;
    code::of_stop(handed.stop)
}

/// Takes characters of the card until one is refused, and writes the number taken to `count`.
#[unsafe(no_mangle)]
pub extern "C" fn galliumtoad_terminal_receive_bytes(
    alloc: Global,
    terminal: &mut TerminalHandle,
    bytes: &[u8],
    count: &mut usize,
) -> i32
    ensures { OnHandleOr (count.new ≡ count.old)
        (OnTpdus (count.new ≡ count.old) (TerminalReceives bytes.now count.new))
        (terminal_in terminal.old) result (terminal_in terminal.new) }
{
    on!(alloc, terminal, side => received(&mut side, bytes, count))
}

fn received(side: &mut TerminalSide, bytes: &[u8], count: &mut usize) -> i32
    ensures { OnTpdus (count.new ≡ count.old) (TerminalReceives bytes.now count.new)
        side.old result side.new }
{
    if side.apdus.leads {
        return code::STATE;
    }
    let taken = side.terminal.take_bytes(bytes);
    *count = taken.count;
    code::of_taking(taken.outcome)
}
