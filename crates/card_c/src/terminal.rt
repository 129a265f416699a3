//! The exports of a terminal that carries out operations over any line.
ghost use Rattle.std.specs.Prelude.{◌≡◌, ⊤, Some, None, IfOk, IfErr, if◌then◌else◌};
ghost use Rattle.apdu_core.specs.declared.command.ApduFault.{ApduFault};
ghost use Rattle.apdu_core.specs.CommandBytes.{IsCommand, command_bytes};
ghost use Rattle.card_c.specs.Codes.{gt_state, command_code};
ghost use Rattle.card_c.specs.ExchangeCalls.{AreNone};
ghost use Rattle.exchange_core.specs.ExchangeSide.{response_limit};
ghost use Rattle.card_terminal.specs.TerminalSide.{KeepsLimit, is_going};
ghost use Rattle.card_c.specs.Handles.{terminal_in, OnHandle, OnHandleOr, OnLook};
ghost use Rattle.card_c.specs.TerminalCalls.{HasBegun, KeepsRoom, OnBegin, OnTpdus, TellsTpduOf, BeginsSelect, BeginsGet, BeginsPut, BeginsSend, Resets, TakesTurn, TakesCharacter, TakesAnswer, TellsAnswer, begin_code};

use crate::apdu_side::ApduSide;
use crate::code;
use crate::copied::copied;
use crate::handle::{Handle, on};
use crate::held_terminal::TerminalHandle;
use crate::tag_number::tag_of;
use crate::terminal_side::TerminalSide;
use crate::whole_apdu::ended;
use crate::whole_tpdu::{answer_of, told};
use apdu_core::Command;
use apdu_terminal::ApduTerminal;
use card_terminal::{BeginFault, RESPONSE_LIMIT, Terminal};
use object_card::Aid;
use std::alloc::Global;
use t0_core::HostTurn;

/// Makes a terminal in an empty handle, for responses of at most 16,384 bytes.
#[unsafe(no_mangle)]
pub extern "C" fn galliumtoad_terminal_new(alloc: Global, terminal: &mut TerminalHandle) -> i32
    ensures { HasBegun response_limit (terminal_in terminal.old) result
        (terminal_in terminal.new) }
{
    galliumtoad_terminal_new_within(alloc, terminal, RESPONSE_LIMIT)
}

/// Does the same for responses of at most `limit` bytes, from 0 to 16,384.
#[unsafe(no_mangle)]
pub extern "C" fn galliumtoad_terminal_new_within(
    alloc: Global,
    terminal: &mut TerminalHandle,
    limit: usize,
) -> i32
    ensures { HasBegun limit (terminal_in terminal.old) result (terminal_in terminal.new) }
{
    if terminal.is_live() {
        return code::STATE;
    }
    let Ok(tpdus) = Terminal::new_within(alloc, limit) else {
        return code::ARGUMENT;
    };
    let Ok(whole) = ApduTerminal::new_within(alloc, limit) else {
        return code::ARGUMENT;
    };
    let apdus = ApduSide {
        terminal: whole,
        leads: false,
    };
    match Box::new(
        alloc,
        TerminalSide {
            terminal: tpdus,
            apdus,
        },
    ) {
        Ok(side) => {
            terminal.put(side);
            code::OK
        }
        Err(_) => code::MEMORY,
    }
}

/// Frees the memory of a handle, which is empty then.
#[unsafe(no_mangle)]
pub extern "C" fn galliumtoad_terminal_free(alloc: Global, terminal: &mut TerminalHandle)
    ensures { terminal_in terminal.new ≡ None }
{
    drop(terminal.take_out(alloc));
}

/// Drops the last operation, with its answer, and frees its memory. The limit stays.
#[unsafe(no_mangle)]
pub extern "C" fn galliumtoad_terminal_reset(alloc: Global, terminal: &mut TerminalHandle) -> i32
    ensures { OnHandle Resets (terminal_in terminal.old) result (terminal_in terminal.new) }
{
    on!(alloc, terminal, side => reset(&mut side))
}

fn reset(side: &mut TerminalSide) -> i32
    ensures { Resets side.old result side.new }
{
    side.terminal.reset();
    side.apdus.terminal.reset();
    side.apdus.leads = false;
    code::OK
}

/// Begins an operation by a call on the terminal, unless one goes by whole commands.
macro_rules! begin {
    ($side:ident => $call:expr) => {{
        if $side.is_led() {
            return code::STATE;
        }
        let answer = $call;
        $side.began(answer)
    }};
}

/// Begins SELECT of the application with this identifier, and drops the last answer.
#[unsafe(no_mangle)]
pub extern "C" fn galliumtoad_terminal_select(
    alloc: Global,
    terminal: &mut TerminalHandle,
    aid: &[u8],
) -> i32
    ensures { OnHandle (OnBegin (BeginsSelect aid.now))
        (terminal_in terminal.old) result (terminal_in terminal.new) }
{
    on!(alloc, terminal, side => begin_select(&mut side, aid))
}

fn begin_select(side: &mut TerminalSide, aid: &[u8]) -> i32
    ensures { OnBegin (BeginsSelect aid.now) side.old result side.new }
{
    begin!(side => select(&mut side.terminal, aid))
}

fn select(terminal: &mut Terminal, aid: &[u8]) -> i32
    ensures begins { BeginsSelect aid.now terminal.old.operation result terminal.new.operation }
    ensures room { KeepsRoom terminal.old terminal.new }
{
    match Aid::new(aid) {
        Some(aid) => begun(terminal.select(&aid)),
        None => refused(terminal, code::ARGUMENT),
    }
}

/// Begins GET DATA of the object with this tag.
#[unsafe(no_mangle)]
pub extern "C" fn galliumtoad_terminal_get(
    alloc: Global,
    terminal: &mut TerminalHandle,
    tag: u32,
) -> i32
    ensures { OnHandle (OnBegin (BeginsGet tag))
        (terminal_in terminal.old) result (terminal_in terminal.new) }
{
    on!(alloc, terminal, side => begin_get(&mut side, tag))
}

fn begin_get(side: &mut TerminalSide, tag: u32) -> i32
    ensures { OnBegin (BeginsGet tag) side.old result side.new }
{
    begin!(side => get(&mut side.terminal, tag))
}

fn get(terminal: &mut Terminal, number: u32) -> i32
    ensures begins { BeginsGet number terminal.old.operation result terminal.new.operation }
    ensures room { KeepsRoom terminal.old terminal.new }
{
    match tag_of(number) {
        Some(tag) => begun(terminal.get(tag)),
        None => refused(terminal, code::ARGUMENT),
    }
}

/// Begins PUT DATA of a copy of this value, in pieces of at most 255 bytes.
#[unsafe(no_mangle)]
pub extern "C" fn galliumtoad_terminal_put(
    alloc: Global,
    terminal: &mut TerminalHandle,
    tag: u32,
    value: &[u8],
) -> i32
    ensures { OnHandle (OnBegin (BeginsPut tag value.now))
        (terminal_in terminal.old) result (terminal_in terminal.new) }
{
    on!(alloc, terminal, side => begin_put(&mut side, tag, value))
}

fn begin_put(side: &mut TerminalSide, tag: u32, value: &[u8]) -> i32
    ensures { OnBegin (BeginsPut tag value.now) side.old result side.new }
{
    begin!(side => put(&mut side.terminal, tag, value))
}

fn put(terminal: &mut Terminal, number: u32, value: &[u8]) -> i32
    ensures begins { BeginsPut number value.now terminal.old.operation result
        terminal.new.operation }
    ensures room { KeepsRoom terminal.old terminal.new }
{
    match tag_of(number) {
        Some(tag) => begun(terminal.put(tag, value)),
        None => refused(terminal, code::ARGUMENT),
    }
}

/// Begins the exchange of any one command, with a copy of its data. The last answer is dropped.
#[unsafe(no_mangle)]
pub extern "C" fn galliumtoad_terminal_send(
    alloc: Global,
    terminal: &mut TerminalHandle,
    command: &[u8],
) -> i32
    ensures { OnHandle (OnBegin (BeginsSend command.now))
        (terminal_in terminal.old) result (terminal_in terminal.new) }
{
    on!(alloc, terminal, side => begin_send(&mut side, command))
}

fn begin_send(side: &mut TerminalSide, command: &[u8]) -> i32
    ensures { OnBegin (BeginsSend command.now) side.old result side.new }
{
    begin!(side => send(&mut side.terminal, command))
}

fn send(terminal: &mut Terminal, bytes: &[u8]) -> i32
    ensures begins { BeginsSend bytes.now terminal.old.operation result terminal.new.operation }
    ensures room { KeepsRoom terminal.old terminal.new }
{
    match command_of(bytes) {
        Ok(command) => begun(terminal.send(command)),
        Err(fault) => refused(terminal, fault),
    }
}

/// Returns the command with these bytes, or the code of the fault.
fn command_of(bytes: &[u8]) -> Result<Command<'_>, i32>
    ensures command { IfOk result (λ c. IsCommand c × (bytes.now ≡ command_bytes c)) }
    ensures refused { IfErr result (λ code. (fault : ApduFault) × AreNone bytes.now fault
        × (code ≡ command_code fault)) }
{
    match Command::read(bytes) {
        Ok(command) => Ok(command),
        Err(fault) => Err(code::of_command(fault)),
    }
}

/// Returns the code of a call that begins an operation.
fn begun(begun: Result<(), BeginFault>) -> i32
    ensures { result ≡ begin_code begun }
{
    match begun {
        Ok(()) => code::OK,
        Err(BeginFault::UnderWay) => code::STATE,
        Err(BeginFault::OutOfMemory) => code::MEMORY,
    }
}

/// Returns why an operation with an invalid argument does not begin.
fn refused(terminal: &Terminal, fault: i32) -> i32
    ensures code { result ≡ (if is_going terminal.now.operation then gt_state else fault) }
    ensures limit { KeepsLimit terminal.now terminal.now }
{
    if terminal.is_going() {
        code::STATE
    } else {
        fault
    }
}

/// Takes the terminal's turn. A character to send is written to `byte`, and counts as sent.
#[unsafe(no_mangle)]
pub extern "C" fn galliumtoad_terminal_next(
    alloc: Global,
    terminal: &mut TerminalHandle,
    byte: &mut u8,
) -> i32
    ensures { OnHandleOr (byte.new ≡ byte.old)
        (OnTpdus (byte.new ≡ byte.old) (TakesTurn byte.old byte.new))
        (terminal_in terminal.old) result (terminal_in terminal.new) }
{
    on!(alloc, terminal, side => turned(&mut side, byte))
}

fn turned(side: &mut TerminalSide, byte: &mut u8) -> i32
    ensures { OnTpdus (byte.new ≡ byte.old) (TakesTurn byte.old byte.new) side.old result side.new }
{
    if side.apdus.leads {
        return code::STATE;
    }
    let turn = side.terminal.next();
    if let Some(HostTurn::Sends(sent)) = turn {
        *byte = sent;
    }
    match turn {
        None => code::STATE,
        Some(turn) => code::of_turn(turn),
    }
}

/// Takes a character of the card.
#[unsafe(no_mangle)]
pub extern "C" fn galliumtoad_terminal_take(
    alloc: Global,
    terminal: &mut TerminalHandle,
    byte: u8,
) -> i32
    ensures { OnHandle (OnTpdus ⊤ (TakesCharacter byte))
        (terminal_in terminal.old) result (terminal_in terminal.new) }
{
    on!(alloc, terminal, side => take(&mut side, byte))
}

fn take(side: &mut TerminalSide, byte: u8) -> i32
    ensures { OnTpdus ⊤ (TakesCharacter byte) side.old result side.new }
{
    if side.apdus.leads {
        return code::STATE;
    }
    code::of_taking(side.terminal.take(byte))
}

/// Writes the next whole TPDU, its length, and the most data bytes of its answer, 0 to 256.
#[unsafe(no_mangle)]
pub extern "C" fn galliumtoad_terminal_tpdu(
    alloc: Global,
    terminal: &mut TerminalHandle,
    tpdu: &mut [u8],
    len: &mut usize,
    most: &mut usize,
) -> i32
    ensures { OnLook ((tpdu.new ≡ tpdu.old) × (len.new ≡ len.old) × (most.new ≡ most.old))
        (λ side code. TellsTpduOf side tpdu.old len.old most.old code tpdu.new len.new most.new)
        (terminal_in terminal.old) result (terminal_in terminal.new) }
{
    on!(alloc, terminal, side => due(&side, tpdu, len, most))
}

fn due(side: &TerminalSide, tpdu: &mut [u8], len: &mut usize, most: &mut usize) -> i32
    ensures { TellsTpduOf side.now tpdu.old len.old most.old result tpdu.new len.new most.new }
{
    if side.apdus.leads {
        return code::STATE;
    }
    told(side.terminal.tpdu(), tpdu, len, most)
}

/// Takes the answer to that TPDU: data, then the status. The next TPDU begins, if one follows.
#[unsafe(no_mangle)]
pub extern "C" fn galliumtoad_terminal_answered(
    alloc: Global,
    terminal: &mut TerminalHandle,
    answer: &[u8],
) -> i32
    ensures { OnHandle (OnTpdus ⊤ (TakesAnswer answer.now))
        (terminal_in terminal.old) result (terminal_in terminal.new) }
{
    on!(alloc, terminal, side => take_answer(&mut side, answer))
}

fn take_answer(side: &mut TerminalSide, answer: &[u8]) -> i32
    ensures { OnTpdus ⊤ (TakesAnswer answer.now) side.old result side.new }
{
    if side.apdus.leads {
        return code::STATE;
    }
    let Some((bytes, status)) = answer_of(answer) else {
        return code::NO_STATUS;
    };
    code::of_answer(side.terminal.answered(bytes, status))
}

/// Writes the status and the data of the last command of an operation that has ended.
#[unsafe(no_mangle)]
pub extern "C" fn galliumtoad_terminal_answer(
    alloc: Global,
    terminal: &mut TerminalHandle,
    status: &mut u16,
    content: &mut [u8],
    len: &mut usize,
) -> i32
    ensures { OnLook
        ((status.new ≡ status.old) × (content.new ≡ content.old) × (len.new ≡ len.old))
        (λ side code. TellsAnswer side status.old content.old len.old code
        status.new content.new len.new) (terminal_in terminal.old) result
        (terminal_in terminal.new) }
{
    on!(alloc, terminal, side => given(&side, status, content, len))
}

fn given(side: &TerminalSide, status: &mut u16, content: &mut [u8], len: &mut usize) -> i32
    ensures { TellsAnswer side.now status.old content.old len.old
        result status.new content.new len.new }
{
    if side.apdus.leads {
        return ended(&side.apdus, status, content, len);
    }
    let Some((word, bytes)) = side.terminal.answer() else {
        return code::STATE;
    };
    *status = u16::from_be_bytes([word.sw1(), word.sw2()]);
    copied(bytes, content, len)
}
