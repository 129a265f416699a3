//! A command and its answer as one TPDU (ISO/IEC 7816-4, 5.1; ISO/IEC 7816-3, 12).
ghost use Rattle.std.specs.Prelude.{◌&&◌, ◌≡◌, [], ◌∷◌, ◌++◌, Some, IfOk, IfErr, OnOk};
ghost use Rattle.trace_explain.specs.Pairs.{Command, IsBadCommand, IsBadPair, IsBadRest, IsCommand, IsPair, ReportsPair, asks_for, beside, command_in, has_le, is_refusal, is_unasked, moved_of, way_of, with_p3};

use crate::follow::tally::Tally;
use crate::follow::tpdu::{Tpdu, are_status};
use crate::instructions::brings_none;
use crate::read::digits::push;
use apdu_core::count;
use std::alloc::{AllocError, Global};
use t0_core::Direction;
use thiserror::Error;

/// Why a command and its answer are not a TPDU.
#[derive(Clone, Copy, Debug, Error)]
pub enum PairFault {
    /// The command has fewer bytes than CLA INS P1 P2.
    #[error("a command of fewer than 4 bytes")]
    Short,
    /// The command has extended length fields, which don't fit P3.
    #[error("a command with extended length fields")]
    Extended,
    /// Fewer bytes than Lc says follow it, or more than these and Le; or one byte after Lc `00`.
    #[error("a command with more or fewer bytes than Lc says")]
    Length,
    /// The answer does not end with SW1 and SW2.
    #[error("an answer without SW1-SW2 at its end")]
    NoStatus,
    /// The answer has more data than Le asks for.
    #[error("an answer with more data than Le asks for")]
    TooMany,
    /// In a log: the answer has data, the command has no Le, and its INS never brings any.
    #[error("an answer with data, and the command has no Le and asks for none")]
    Unasked,
    /// Memory ran out.
    #[error("out of memory")]
    OutOfMemory,
}

impl PairFault {
    /// Whether they are no TPDU, whatever memory there is.
    pub fn is_refusal(self) -> bool
        ensures { result ≡ is_refusal self }
    {
        !matches!(self, PairFault::OutOfMemory)
    }
}

impl From<AllocError> for PairFault {
    ghost use Rattle.std.specs.Prelude.{◌≡◌};
    ghost use Rattle.trace_explain.specs.declared.follow.pair.PairFault.TheVariants.{OutOfMemory};

    ghost from_gives = { λ _ why. why ≡ OutOfMemory };

    fn from(_error: AllocError) -> PairFault {
        PairFault::OutOfMemory
    }
}

/// Returns the TPDU of a short command with its answer. The errors are those of `take_pair`.
pub fn tpdu_of_pair(alloc: Global, command: &[u8], answer: &[u8]) -> Result<Tpdu, PairFault>
    ensures reports { IfOk result (IsPair command.now answer.now) }
    ensures refused { IfErr result (λ why. IsBadPair why command.now answer.now) }
{
    let mut tpdu = Tpdu::new(alloc);
    take_pair(&mut tpdu, command, answer)?;
    Ok(tpdu)
}

/// Makes `tpdu` that of a short command with its answer; its line, mark and blocks stay. After an
/// error it may be anything.
///
/// # Errors
///
/// - `NoStatus`: the command is valid, and the answer does not end with a status.
/// - `TooMany`: both are valid, and the answer has more data than Le asks for.
/// - Others as for `take_command`.
pub fn take_pair(tpdu: &mut Tpdu, command: &[u8], answer: &[u8]) -> Result<(), PairFault>
    ensures reports { OnOk result (IsPair command.now answer.now tpdu.new) }
    ensures refused { IfErr result (λ why. IsBadPair why command.now answer.now) }
{
    let (brought, status) = answer.split_at(answer.len().saturating_sub(2));
    take(tpdu, command, brought, status)?;
    if !are_status(status) {
        return Err(PairFault::NoStatus);
    }
    let le = match command {
        [_, _, _, _, p3] => Some(*p3),
        _ => tpdu.le,
    };
    if asks_for(le, brought.len()) {
        Ok(())
    } else {
        Err(PairFault::TooMany)
    }
}

/// Whether a command with this Le asks for `came` bytes, or has no Le.
fn asks_for(le: Option<u8>, came: usize) -> bool
    ensures { result ≡ asks_for le came }
{
    le.is_none_or(|le| came <= usize::from(count(le)))
}

/// Whether an answer has data that its command never brings: it has no Le, and the standard of its
/// INS names no data of the card. Behind others a reader may add Le, or fetch what waits.
pub fn is_unasked(command: &[u8], answer: &[u8]) -> bool
    ensures { result ≡ is_unasked command.now answer.now }
{
    let [cla, ins, _, _, lengths @ ..] = command else {
        return false;
    };
    are_all(answer.len() > 2, !has_le(lengths), brings_none(*cla, *ins))
}

/// Whether all three hold. For the proof: a function, so that no goal unfolds what they are.
fn are_all(first: bool, second: bool, third: bool) -> bool
    ensures { result ≡ (first && second && third) }
{
    first && second && third
}

/// Whether these length fields and data of a short command have Le.
fn has_le(lengths: &[u8]) -> bool
    ensures { result ≡ has_le lengths.now }
{
    match lengths {
        [p3, rest @ ..] => rest.is_empty() || rest.len() > usize::from(*p3),
        [] => false,
    }
}

/// Whether an answer looks like characters of T=0: after NULLs comes INS, alone or before as many
/// data as Le asks for; or INS with each bit inverted, alone.
pub fn are_characters(command: &[u8], answer: &[u8]) -> bool {
    let [_, ins, _, _, p3] = command else {
        return false;
    };
    let nulls = answer.iter().take_while(|byte| **byte == 0x60).count();
    match &answer[nulls..] {
        [first] => *first == *ins || *first == !*ins,
        [first, rest @ ..] => *first == *ins && rest.len() >= usize::from(count(*p3)) + 2,
        [] => false,
    }
}

/// The same for a short command without an answer. The command is CLA INS P1 P2 and one of these:
/// nothing (P3 is then `00`); Le; Lc, which is not `00`, and data; Lc, data and Le.
///
/// # Errors
///
/// - `Short`, `Extended`, `Length`: the command is anything else.
/// - `OutOfMemory`: memory ran out.
pub fn take_command(tpdu: &mut Tpdu, command: &[u8]) -> Result<(), PairFault>
    ensures reports { OnOk result (IsCommand command.now tpdu.new) }
    ensures refused { IfErr result (λ why. IsBadCommand why command.now) }
{
    take(tpdu, command, &[], &[])
}

/// The same for a short command with these data of the card and this status.
fn take(tpdu: &mut Tpdu, command: &[u8], brought: &[u8], status: &[u8]) -> Result<(), PairFault>
    ensures reports { OnOk result ((c : Command) × (command_in command.now ≡ Some c)
        × ReportsPair c brought.now status.now tpdu.new) }
    ensures refused { IfErr result (λ why. IsBadCommand why command.now) }
{
    if command.len() < 4 {
        return Err(PairFault::Short);
    }
    if command.len() == 4 {
        return Ok(fill(tpdu, command, 0, &[], None, brought, status)?);
    }
    if command.len() > 6 && command[4] == 0 {
        return Err(PairFault::Extended);
    }
    let (header, _) = command.split_at(4);
    let (_, rest) = command.split_at(5);
    with_p3(tpdu, header, command[4], rest, brought, status)
}

/// The same with `header` CLA INS P1 P2 and `rest` after P3.
fn with_p3(
    tpdu: &mut Tpdu,
    header: &[u8],
    p3: u8,
    rest: &[u8],
    brought: &[u8],
    status: &[u8],
) -> Result<(), PairFault>
    ensures reports { OnOk result ((c : Command) × (with_p3 header.now p3 rest.now ≡ Some c)
        × ReportsPair c brought.now status.now tpdu.new) }
    ensures refused { IfErr result (λ why. IsBadRest why header.now p3 rest.now) }
{
    let count = usize::from(p3);
    if rest.is_empty() || (p3 != 0 && rest.len() == count) {
        Ok(fill(tpdu, header, p3, rest, None, brought, status)?)
    } else if p3 != 0 && rest.len() == count + 1 {
        let le = Some(rest[count]);
        Ok(fill(tpdu, header, p3, &rest[..count], le, brought, status)?)
    } else {
        Err(PairFault::Length)
    }
}

/// The same with this header, the terminal's data, Le, the card's data and the status.
fn fill(
    tpdu: &mut Tpdu,
    header: &[u8],
    p3: u8,
    sent: &[u8],
    le: Option<u8>,
    brought: &[u8],
    status: &[u8],
) -> Result<(), AllocError>
    ensures { OnOk result (ReportsPair (record {
      header = header.now ++ p3 ∷ [];
      sent = sent.now;
      le = le;
    }) brought.now status.now tpdu.new) }
{
    let (way, moved, answer) = parts(sent, brought);
    tpdu.tally = Tally::NONE;
    tpdu.way = way;
    tpdu.le = le;
    copy(&mut tpdu.header, header)?;
    push(&mut tpdu.header, p3)?;
    copy(&mut tpdu.moved, moved)?;
    copy(&mut tpdu.status, status)?;
    copy(&mut tpdu.answer, answer)?;
    Ok(())
}

/// Returns which way the data of the TPDU go, these data, and those of the card beside them.
fn parts<'a>(sent: &'a [u8], brought: &'a [u8]) -> (Option<Direction>, &'a [u8], &'a [u8])
    ensures way { result.0 ≡ way_of sent.now brought.now }
    ensures moved { result.1.now ≡ moved_of sent.now brought.now }
    ensures beside { result.2.now ≡ beside sent.now brought.now }
{
    match (sent, brought) {
        ([], []) => (None, sent, sent),
        ([], _) => (Some(Direction::FromCard), brought, sent),
        _ => (Some(Direction::ToCard), sent, brought),
    }
}

/// Replaces bytes by a copy of others. Returns `AllocError` if memory ran out.
fn copy(all: &mut Vec<u8>, bytes: &[u8]) -> Result<(), AllocError>
    ensures { OnOk result (all.new.items ≡ bytes.now) }
{
    all.clear();
    all.extend_from_slice(bytes)
}
