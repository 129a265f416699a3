//! Whole commands and responses of an exchange or a terminal.
ghost use Rattle.std.specs.Prelude.{ℕ, List, Option};
ghost use Rattle.apdu_core.specs.StatusWord.{StatusWord};
ghost use Rattle.apdu_terminal.specs.ApduOperations.{IsOperationAnswer};
ghost use Rattle.card_c.specs.ApduCalls.{TellsApdu, TakesResponse, IsOpened, Opens};
ghost use Rattle.card_c.specs.ExchangeCalls.{TellsEnd};

use crate::apdu_side::ApduSide;
use crate::code;
use crate::copied::copied;
use crate::whole_tpdu::answer_of;
use apdu_core::Command;
use apdu_terminal::write_command;
use card_terminal::Unsent;
use t0_core::AnswerFault;

/// Writes the next command, its length, and the most bytes of its response. If it is missing or
/// does not fit, nothing is written.
pub fn told(due: Option<Command<'_>>, apdu: &mut [u8], len: &mut usize, most: &mut usize) -> i32
    ensures { TellsApdu due.entry apdu.old len.old most.old result apdu.new len.new most.new }
{
    let Some(due) = due else {
        return code::NOT_DUE;
    };
    match write_command(&due, apdu) {
        Some(count) => {
            *len = count;
            *most = usize::from(due.le().unwrap_or(0));
            code::OK
        }
        None => code::BUFFER,
    }
}

/// Takes a response: data, then the status. If that succeeds, or fails the operation, the operation
/// goes by whole commands from now on.
pub fn responded(side: &mut ApduSide, response: &[u8]) -> i32
    ensures { TakesResponse response.now side.old result side.new }
{
    let Some((bytes, status)) = answer_of(response) else {
        return code::NO_STATUS;
    };
    match side.terminal.responded(bytes, status) {
        Ok(()) => {
            side.leads = true;
            code::OK
        }
        Err(fault) => {
            if matches!(fault, AnswerFault::TooLong | AnswerFault::Stalled) {
                side.leads = true;
            }
            code::of_answer(Err(fault))
        }
    }
}

/// Takes the first response of an operation, which begins by whole commands. `unsent` is the
/// operation, if nothing of it was sent. Nothing changes with `STATE` or `MEMORY`.
pub fn responded_first(side: &mut ApduSide, unsent: Option<Unsent<'_>>, response: &[u8]) -> i32
    ensures { Opens (TakesResponse response.now) unsent.entry side.old result side.new }
{
    let Some(unsent) = unsent else {
        return code::STATE;
    };
    match side.terminal.begin(unsent) {
        Ok(()) => responded(side, response),
        Err(_) => code::MEMORY,
    }
}

/// Begins the operation `unsent` by whole commands, in place of the last one of `side.terminal`.
/// Returns `None` if that succeeds. Otherwise nothing changes: returns `STATE` if `unsent` is
/// `None`, or `MEMORY` if memory ran out.
pub fn opened(side: &mut ApduSide, unsent: Option<Unsent<'_>>) -> Option<i32>
    ensures { IsOpened unsent.entry side.old result side.new }
{
    let Some(unsent) = unsent else {
        return Some(code::STATE);
    };
    match side.terminal.begin(unsent) {
        Ok(()) => None,
        Err(_) => Some(code::MEMORY),
    }
}

/// Writes the answer of an operation that goes by whole commands.
pub fn ended(side: &ApduSide, status: &mut u16, content: &mut [u8], len: &mut usize) -> i32
    ensures { (answer : Option (StatusWord × List ℕ))
        × IsOperationAnswer side.now.terminal.operation answer
        × TellsEnd answer status.old content.old len.old result status.new content.new len.new }
{
    let Some((word, bytes)) = side.terminal.answer() else {
        return code::STATE;
    };
    *status = u16::from_be_bytes([word.sw1(), word.sw2()]);
    copied(bytes, content, len)
}
