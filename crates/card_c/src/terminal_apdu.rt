//! The exports that carry out an operation of a terminal by whole commands.
ghost use Rattle.std.specs.Prelude.{◌≡◌, Option, true, false};
ghost use Rattle.card_c.specs.Handles.{terminal_in, OnHandle};
ghost use Rattle.card_c.specs.Codes.{gt_ok};
ghost use Rattle.card_terminal.specs.declared.unsent.Unsent.{Unsent};
ghost use Rattle.card_terminal.specs.Unsent.{IsUnsent};
ghost use Rattle.card_c.specs.ApduCalls.{TellsDue, TakesResponse, Opens};
ghost use Rattle.card_c.specs.TerminalCalls.{LooksAtApdus, TakesByApdus};

use crate::code;
use crate::handle::{Handle, on};
use crate::held_terminal::TerminalHandle;
use crate::terminal_side::TerminalSide;
use crate::whole_apdu::{opened, responded, responded_first, told};
use std::alloc::Global;

/// Writes the next whole command, its length, and the most data bytes of its response, 0 to 256.
#[unsafe(no_mangle)]
pub extern "C" fn galliumtoad_terminal_apdu(
    alloc: Global,
    terminal: &mut TerminalHandle,
    apdu: &mut [u8],
    len: &mut usize,
    most: &mut usize,
) -> i32
    ensures still { (result ≡ gt_ok → ⊥) → (apdu.new ≡ apdu.old) × (len.new ≡ len.old)
        × (most.new ≡ most.old) }
    ensures told { OnHandle (LooksAtApdus (TellsDue apdu.old len.old most.old apdu.new len.new
        most.new))
        (terminal_in terminal.old) result (terminal_in terminal.new) }
{
    on!(alloc, terminal, side => due(&mut side, apdu, len, most))
}

fn due(side: &mut TerminalSide, apdu: &mut [u8], len: &mut usize, most: &mut usize) -> i32
    ensures still { (result ≡ gt_ok → ⊥) → (apdu.new ≡ apdu.old) × (len.new ≡ len.old)
        × (most.new ≡ most.old) }
    ensures told { LooksAtApdus (TellsDue apdu.old len.old most.old apdu.new len.new most.new)
        side.old result side.new }
{
    if !side.apdus.leads {
        if let Some(refusal) = opened(&mut side.apdus, side.terminal.unsent()) {
            return refusal;
        }
    }
    told(side.apdus.terminal.apdu(), apdu, len, most)
}

/// Takes the response to that command. Once it accepts one, the operation goes by commands.
#[unsafe(no_mangle)]
pub extern "C" fn galliumtoad_terminal_responded(
    alloc: Global,
    terminal: &mut TerminalHandle,
    response: &[u8],
) -> i32
    ensures { OnHandle (TakesByApdus (TakesResponse response.now))
        (terminal_in terminal.old) result (terminal_in terminal.new) }
{
    on!(alloc, terminal, side => take_response(&mut side, response))
}

fn take_response(side: &mut TerminalSide, response: &[u8]) -> i32
    ensures { TakesByApdus (TakesResponse response.now) side.old result side.new }
{
    let answer = passed_on(side, response);
    if side.apdus.leads {
        side.terminal.rest();
    }
    answer
}

fn passed_on(side: &mut TerminalSide, response: &[u8]) -> i32
    ensures goes_so { side.old.apdus.leads ≡ true
        → TakesResponse response.now side.old.apdus result side.new.apdus }
    ensures opens { side.old.apdus.leads ≡ false → (unsent : Option Unsent)
        × IsUnsent side.old.terminal.operation unsent
        × Opens (TakesResponse response.now) unsent side.old.apdus result side.new.apdus }
    ensures terminal { side.new.terminal ≡ side.old.terminal }
{
    if side.apdus.leads {
        return responded(&mut side.apdus, response);
    }
    responded_first(&mut side.apdus, side.terminal.unsent(), response)
}
