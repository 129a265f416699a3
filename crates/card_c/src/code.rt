//! The codes that exports return, with fixed numbers, which the header repeats.
//!
//! What a handle holds stays as it was after `EMPTY`, `STATE`, `ARGUMENT`, `BUSY` and `PLANS`.
ghost use Rattle.std.specs.Prelude.{◌≡◌};
ghost use Rattle.card_c.specs.Codes.{atr_code, begin_code, builder_code, cause_code, command_code, line_code, outcome_number, pps_code, reason_code, sent_code, tpdu_code};
ghost use Rattle.card_c.specs.ExchangeCalls.{turn_code, taking_code};
ghost use Rattle.card_c.specs.BufferCalls.{stop_code};
ghost use Rattle.card_c.specs.TpduCalls.{answered_code};

use apdu_core::ApduFault;
use atr_core::{AtrReason, PpsFault};
use object_card::BuilderFault;
use t0_core::{AnswerFault, DataSent, HostTurn, LineFault, TpduFault};
use t1_core::{Cause, CommandFault, Outcome};
use tlv_core::Reason;

/// Success. Of a turn: the end listens.
pub const OK: i32 = 0;
/// Of a turn: the end sends a character. Of characters in a buffer: the buffer is full. At T=1: the
/// received block is whole, or dropped.
pub const SENDS: i32 = 1;
/// The exchange or operation has ended with an answer. At T=1: there is no block to send.
pub const DONE: i32 = 2;

/// Of a card of an own application: a command waits for its response.
pub const COMMAND: i32 = 3;
/// A header waits for its direction.
pub const HEADER: i32 = 4;

/// All data of the command have left the terminal, or it has no data.
pub const ALL_SENT: i32 = 10;
/// Not all have.
pub const NOT_ALL_SENT: i32 = 11;
/// It is not known: a TPDU or command went as a whole, or an error ended it.
pub const SENT_UNKNOWN: i32 = 12;

// -1 is `GT_NULL`, which only the header's functions return.

/// The handle is empty, and stays empty.
pub const EMPTY: i32 = -2;
/// The call does not fit the state of the handle, which stays as it was.
pub const STATE: i32 = -3;
/// Memory ran out.
pub const MEMORY: i32 = -4;
/// An argument is invalid.
pub const ARGUMENT: i32 = -5;
/// The buffer is too small for the bytes. It is unchanged, except by `galliumtoad_objects`.
pub const BUFFER: i32 = -6;
/// A chain is pending at the card. No operation begins.
pub const BUSY: i32 = -7;
/// What the call asks for is not there, such as an object, an answer or a fault.
pub const NOT_FOUND: i32 = -8;
/// The exchange or operation has failed for good. At T=1: the end gave up.
pub const FAILED: i32 = -9;
/// The most plans wait already.
pub const PLANS: i32 = -10;
/// No whole TPDU or command is next: it has begun, ended or failed, or there is no operation.
pub const NOT_DUE: i32 = -60;
/// The answer does not end in a status word.
pub const NO_STATUS: i32 = -61;
/// The bytes are not a whole TPDU.
pub const NO_TPDU: i32 = -64;

/// Returns why a builder refuses an application or a data object. The builder is unchanged.
pub fn of_builder(fault: BuilderFault) -> i32
    ensures { result ≡ builder_code fault }
{
    match fault {
        BuilderFault::OutOfMemory => MEMORY,
        BuilderFault::Twice => -20,
        BuilderFault::TooManyApps => -21,
        BuilderFault::NoApp => -22,
        BuilderFault::ValueTooLong => -23,
        BuilderFault::NotObjects => -24,
        BuilderFault::Full => -25,
    }
}

/// Returns whether all data of a command have left the terminal.
pub fn of_sent(sent: DataSent) -> i32
    ensures { result ≡ sent_code sent }
{
    match sent {
        DataSent::All => ALL_SENT,
        DataSent::NotAll => NOT_ALL_SENT,
        DataSent::NotKnown => SENT_UNKNOWN,
    }
}

/// Returns what a terminal does next.
pub fn of_turn(turn: HostTurn) -> i32
    ensures { result ≡ turn_code turn }
{
    match turn {
        HostTurn::Sends(_) => SENDS,
        HostTurn::Listens => OK,
        HostTurn::Done(_) => DONE,
        HostTurn::Failed => FAILED,
    }
}

/// Returns why a terminal stopped sending; `SENDS` means that the buffer is full.
pub fn of_stop(stop: Option<HostTurn>) -> i32
    ensures { result ≡ stop_code stop }
{
    match stop {
        None => SENDS,
        Some(turn) => of_turn(turn),
    }
}

/// Returns whether a character was taken, or why not.
pub fn of_taking(taken: Result<(), LineFault>) -> i32
    ensures { result ≡ taking_code taken }
{
    match taken {
        Ok(()) => OK,
        Err(fault) => of_line(fault),
    }
}

/// Returns why a terminal's end refuses a character. After -31 to -33 the exchange has failed for
/// good; after -30 and -34 nothing has changed.
pub fn of_line(fault: LineFault) -> i32
    ensures { result ≡ line_code fault }
{
    match fault {
        LineFault::NotListening => -30,
        LineFault::BadProcedure(_) => -31,
        LineFault::TooLong => -32,
        LineFault::Stalled => -33,
        LineFault::AfterEnd => -34,
    }
}

/// Returns why no object is at a place.
pub fn of_reason(reason: Reason) -> i32
    ensures { result ≡ reason_code reason }
{
    match reason {
        Reason::TagCut => -40,
        Reason::TagForm => -41,
        Reason::LengthCut => -42,
        Reason::LengthForm => -43,
        Reason::ValueCut => -44,
        Reason::TooDeep => -45,
    }
}

/// Returns why bytes are not a command.
pub fn of_command(fault: ApduFault) -> i32
    ensures { result ≡ command_code fault }
{
    match fault {
        ApduFault::TooShort => -50,
        ApduFault::BadLength => -51,
        ApduFault::InvalidIns => -52,
    }
}

/// Returns whether the answer to a whole TPDU or command was taken, or why not. After -32 and -33
/// the exchange has failed for good; after any other fault nothing has changed.
pub fn of_answer(taken: Result<(), AnswerFault>) -> i32
    ensures { result ≡ answered_code taken }
{
    match taken {
        Ok(()) => OK,
        Err(AnswerFault::NotDue) => NOT_DUE,
        Err(AnswerFault::NotAsked) => -62,
        Err(AnswerFault::TooMany) => -63,
        Err(AnswerFault::TooLong) => -32,
        Err(AnswerFault::Stalled) => -33,
    }
}

/// Returns why a card's end refuses a whole TPDU. After -65, -66 and -32 the card is reset; after
/// any other nothing has changed.
pub fn of_tpdu(fault: TpduFault) -> i32
    ensures { result ≡ tpdu_code fault }
{
    match fault {
        TpduFault::UnderWay => STATE,
        TpduFault::NoTpdu => NO_TPDU,
        TpduFault::WantsData => -65,
        TpduFault::SendsData => -66,
        TpduFault::TooLong => -32,
    }
}

/// Returns why bytes are not an answer to reset.
pub fn of_atr(reason: AtrReason) -> i32
    ensures { result ≡ atr_code reason }
{
    match reason {
        AtrReason::NoTs => -70,
        AtrReason::Cut => -71,
        AtrReason::TooLong => -72,
        AtrReason::OutOfOrder => -73,
        AtrReason::Surplus => -74,
        AtrReason::CheckMissing => -75,
        AtrReason::CheckNotDue => -76,
        AtrReason::CheckWrong => -77,
    }
}

/// Returns why bytes are not a PPS response.
pub fn of_pps(fault: PpsFault) -> i32
    ensures { result ≡ pps_code fault }
{
    match fault {
        PpsFault::NoPpss => -80,
        PpsFault::Cut => -81,
        PpsFault::Reserved => -82,
        PpsFault::Surplus => -83,
        PpsFault::CheckWrong => -84,
    }
}

/// Returns why a command does not begin at T=1. The end is unchanged.
pub fn of_t1_begin(fault: CommandFault) -> i32
    ensures { result ≡ begin_code fault }
{
    match fault {
        CommandFault::NotReady => STATE,
        CommandFault::OutOfMemory => MEMORY,
    }
}

/// Returns why a terminal's end at T=1 gave up.
pub fn of_t1_cause(cause: Cause) -> i32
    ensures { result ≡ cause_code cause }
{
    match cause {
        Cause::TriesSpent => -90,
        Cause::ExtensionsSpent => -91,
        Cause::Aborted => -92,
        Cause::TooLong => -32,
    }
}

/// Returns what is known of the command then. 0: the card has not carried it out. 1: that is
/// unknown. 2: it has, and a part of the response arrived.
pub fn of_t1_outcome(outcome: Outcome) -> i32
    ensures { result ≡ outcome_number outcome }
{
    match outcome {
        Outcome::NotCarriedOut => 0,
        Outcome::Unknown => 1,
        Outcome::InPart => 2,
    }
}
