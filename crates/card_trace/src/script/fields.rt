//! The fields of a line: HEX, tags, identifiers, values, plans, numbers and commands. A function
//! with an `alloc` also returns `OutOfMemory` if memory runs out.
ghost use Rattle.std.specs.Prelude.{◌≡◌, ℕ, List, IfOk, IfErr, MatchOption, MatchResult};
ghost use Rattle.t0_core.specs.declared.plan.Step.{Step};
ghost use Rattle.tlv_core.specs.Address.{IsAddressable};
ghost use Rattle.apdu_core.specs.CommandBytes.{IsCommand, command_bytes};
ghost use Rattle.object_card.specs.Agreed.{IsAgreed};
ghost use Rattle.object_card.specs.Instructions.{MayReceive, MaySend};
ghost use Rattle.card_trace.specs.ScriptReasons.{OnReason};
ghost use Rattle.card_trace.specs.declared.script.reason.LineReason.TheVariants.{BadHex, BadPlan};
ghost use Rattle.card_trace.specs.NoFields.{NoHex, NoAid, NoTag, NoValue, NoPlan, NoCommand, IsNotAgreed};
ghost use Rattle.card_trace.specs.ScriptFields.{IsHexText, IsAidText, IsTagText, IsNumberText, IsRepeatedText, IsValueText, IsStepsText, IsPlanText, AreOfAgreedCommand, IsCommandText};

use crate::script::places::place_of;
use crate::script::reason::LineReason;
use crate::script::refusal::Refusal;
use apdu_core::Command;
use card_terminal::Bytes;
use hex::{FromHex, FromHexError};
use object_card::{Aid, is_agreed};
use std::alloc::{AllocError, Allocator};
use t0_core::{Plan, Step};
use tlv_core::{ObjectTag, Tag};

/// Reads HEX: an even number of hexadecimal digits, at least two, in either case.
///
/// # Errors
///
/// - `BadHex`: it is another text.
/// - `OutOfMemory`: memory ran out.
pub fn read_hex<A: Allocator>(alloc: A, text: &[u8]) -> Result<Vec<u8, A>, Refusal>
    ensures ok { IfOk result (λ bytes. IsHexText text.now bytes.items) }
    ensures refused { IfErr result (λ refusal. OnReason refusal (NoHex text.now)) }
{
    if text.is_empty() {
        return Err(Refusal::Line(LineReason::BadHex));
    }
    match hex::decode(alloc, text) {
        Ok(bytes) => Ok(bytes),
        Err(FromHexError::OutOfMemory) => Err(Refusal::OutOfMemory),
        Err(_) => Err(Refusal::Line(LineReason::BadHex)),
    }
}

/// Reads an application identifier in HEX, of 5 to 16 bytes.
///
/// # Errors
///
/// - `BadHex`: the text is not HEX.
/// - `BadAid`: it has fewer than 5 or more than 16 bytes.
/// - `OutOfMemory`: memory ran out.
pub fn read_aid<A: Allocator>(alloc: A, text: &[u8]) -> Result<Aid, Refusal>
    ensures ok { IfOk result (λ aid. IsAidText text.now aid) }
    ensures refused { IfErr result (λ refusal. OnReason refusal (NoAid text.now)) }
{
    let bytes = read_hex(alloc, text)?;
    let aid = Aid::new(bytes.as_slice()).ok_or(LineReason::BadAid)?;
    Ok(aid)
}

/// Reads TAG: in HEX, a tag of one or two bytes that GET DATA can name.
///
/// # Errors
///
/// - `BadHex`: the text is not HEX.
/// - `BadTag`: the bytes are no such tag.
/// - `OutOfMemory`: memory ran out.
pub fn read_tag<A: Allocator>(alloc: A, text: &[u8]) -> Result<ObjectTag, Refusal>
    ensures ok { IfOk result (λ tag. IsTagText text.now tag) }
    ensures refused { IfErr result (λ refusal. OnReason refusal (NoTag text.now)) }
{
    let bytes = read_hex(alloc, text)?;
    let tag = object_tag(bytes.as_slice()).ok_or(LineReason::BadTag)?;
    Ok(tag)
}

/// Returns the tag that all of these bytes are; `None` unless they are one that a command can name.
fn object_tag(bytes: &[u8]) -> Option<ObjectTag>
    ensures { MatchOption result (¬ IsAddressable bytes.now)
        (λ tag. (tag ≡ bytes.now) × IsAddressable bytes.now) }
{
    let (tag, size) = Tag::read(bytes).ok()?;
    if size == bytes.len() {
        ObjectTag::new(tag)
    } else {
        None
    }
}

/// Reads VALUE: `-` for no bytes, HEX, or `HH*N` for N times the byte HH. N is 1 to 65,535.
///
/// # Errors
///
/// - `BadHex`: it is another text.
/// - `OutOfMemory`: memory ran out.
pub fn read_value<A: Allocator>(alloc: A, text: &[u8]) -> Result<Vec<u8, A>, Refusal>
    ensures ok { IfOk result (λ value. IsValueText text.now value.items) }
    ensures refused { IfErr result (λ refusal. OnReason refusal (NoValue text.now)) }
{
    match place_of(b'*', text) {
        None if text == b"-".as_slice() => Ok(Vec::new(alloc)),
        None => read_hex(alloc, text),
        Some(star) => repeated(alloc, &text[..star], &text[star + 1..]),
    }
}

/// Returns the byte of two hexadecimal digits, `times` times, 1 to 65,535. Any other text is
/// `BadHex`.
fn repeated<A: Allocator>(alloc: A, digits: &[u8], times: &[u8]) -> Result<Vec<u8, A>, Refusal>
    ensures ok { IfOk result (λ value. IsRepeatedText digits.now times.now value.items) }
    ensures refused { IfErr result (λ refusal. OnReason refusal (λ reason. (reason ≡ BadHex)
        × ((value : List ℕ) → ¬ IsRepeatedText digits.now times.now value))) }
{
    let Ok(byte) = <[u8; 1] as FromHex>::from_hex(digits) else {
        return Err(Refusal::Line(LineReason::BadHex));
    };
    let times = read_number(times).ok_or(LineReason::BadHex)?;
    let value = vec![in alloc; byte[0]; usize::from(times)]?;
    Ok(value)
}

/// Reads a decimal number of 1 to 65,535, without a leading zero; `None` for any other text.
pub fn read_number(text: &[u8]) -> Option<u16>
    ensures { MatchOption result ((n : ℕ) → ¬ IsNumberText text.now n)
        (λ n. IsNumberText text.now n) }
{
    match text {
        [b'1'..=b'9', ..] => std::str::from_utf8(text).ok()?.parse::<u16>().ok(),
        _ => None,
    }
}

/// Reads STEPS and CUT: `-` or the letters `n`, `o` and `a`; and a number of 1 to 256.
///
/// # Errors
///
/// - `BadPlan`: one of both is another text.
/// - `OutOfMemory`: memory ran out.
pub fn read_plan<A: Allocator>(alloc: A, steps: &[u8], cut: &[u8]) -> Result<Plan<A>, Refusal>
    ensures ok { IfOk result (λ plan. IsPlanText steps.now cut.now plan) }
    ensures refused { IfErr result (λ refusal. OnReason refusal (NoPlan steps.now cut.now)) }
{
    let steps = read_steps(alloc, steps)?;
    let cut = read_number(cut).ok_or(LineReason::BadPlan)?;
    let plan = Plan::new(steps, cut).ok_or(LineReason::BadPlan)?;
    Ok(plan)
}

/// Reads STEPS. Any other text is `BadPlan`.
fn read_steps<A: Allocator>(alloc: A, text: &[u8]) -> Result<Vec<Step, A>, Refusal>
    ensures ok { IfOk result (λ steps. IsStepsText text.now steps.items) }
    ensures refused { IfErr result (λ refusal. OnReason refusal (λ reason. (reason ≡ BadPlan)
        × ((steps : List Step) → ¬ IsStepsText text.now steps))) }
{
    let mut steps = Vec::new(alloc);
    if text == b"-".as_slice() {
        return Ok(steps);
    }
    for letter in text {
        let step = match letter {
            b'n' => Step::Null,
            b'o' => Step::One,
            b'a' => Step::All,
            _ => return Err(Refusal::Line(LineReason::BadPlan)),
        };
        steps.push(step).map_err(AllocError::from)?;
    }
    Ok(steps)
}

/// Reads a command in HEX, which must be agreed with a card of data objects. A text that is not HEX
/// is `BadHex`; the other errors are those of `agreed_command`.
pub fn read_command<A: Allocator>(alloc: A, text: &[u8]) -> Result<Bytes<A>, Refusal>
    ensures ok { IfOk result (λ bytes. IsCommandText text.now bytes) }
    ensures refused { IfErr result (λ refusal. OnReason refusal (NoCommand text.now)) }
{
    let bytes = read_hex(alloc, text)?;
    agreed_command(bytes.as_slice())?;
    Ok(Bytes::new(bytes))
}

/// Reads a command that is agreed with a card of data objects (`is_agreed` of `object_card`).
///
/// # Errors
/// - `CommandTooShort`, `BadCommandLength`, `InvalidIns`: the bytes are not a command.
/// - `BadCommandLength`: the command is not agreed: its case does not go with its INS.
pub fn agreed_command(bytes: &[u8]) -> Result<Command<'_>, LineReason>
    ensures agreed { IfOk result (λ c. IsCommand c × (bytes.now ≡ command_bytes c)
        × IsAgreed MayReceive MaySend c) }
    ensures refused { IfErr result (λ _. ¬ AreOfAgreedCommand bytes.now) }
    ensures why { IfErr result (IsNotAgreed bytes.now) }
{
    let command = Command::read(bytes)?;
    if is_agreed(&command) {
        Ok(command)
    } else {
        Err(LineReason::BadCommandLength)
    }
}
