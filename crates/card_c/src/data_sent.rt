//! The exports that tell whether all data of a command have left the terminal.
ghost use Rattle.std.specs.Prelude.{◌≡◌, ⊤};
ghost use Rattle.card_c.specs.Handles.{exchange_in, terminal_in, OnLook};
ghost use Rattle.card_c.specs.SentCalls.{TellsSentOf, TellsSentBy};

use crate::code;
use crate::exchange_side::ExchangeSide;
use crate::handle::{Handle, on};
use crate::held_exchange::ExchangeHandle;
use crate::held_terminal::TerminalHandle;
use crate::terminal_side::TerminalSide;
use std::alloc::Global;

/// Returns whether all data of an exchange's command have left the terminal.
#[unsafe(no_mangle)]
pub extern "C" fn galliumtoad_exchange_data_sent(
    alloc: Global,
    exchange: &mut ExchangeHandle,
) -> i32
    ensures { OnLook ⊤ TellsSentOf (exchange_in exchange.old) result (exchange_in exchange.new) }
{
    on!(alloc, exchange, side => of_exchange(&side))
}

fn of_exchange(side: &ExchangeSide) -> i32
    ensures { TellsSentOf side.now result }
{
    if side.apdus.leads {
        return code::SENT_UNKNOWN;
    }
    code::of_sent(side.exchange.data_sent())
}

/// Returns the same of all commands of an operation so far.
#[unsafe(no_mangle)]
pub extern "C" fn galliumtoad_terminal_data_sent(
    alloc: Global,
    terminal: &mut TerminalHandle,
) -> i32
    ensures { OnLook ⊤ TellsSentBy (terminal_in terminal.old) result (terminal_in terminal.new) }
{
    on!(alloc, terminal, side => of_terminal(&side))
}

fn of_terminal(side: &TerminalSide) -> i32
    ensures { TellsSentBy side.now result }
{
    if side.apdus.leads {
        return code::SENT_UNKNOWN;
    }
    match side.terminal.data_sent() {
        None => code::STATE,
        Some(sent) => code::of_sent(sent),
    }
}
