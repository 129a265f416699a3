//! The terminal's side of operations by whole commands, for callers with a reader of their own.
ghost use Rattle.std.specs.Prelude.{◌≡◌, ◌≤◌, ◌<◌, ◌∷◌, [], length, drop, MatchResult, OnOk, Some};
ghost use Rattle.std.specs.Option.{option_map};
ghost use Rattle.object_card.specs.OneStep.{Select, Get, Put};
ghost use Rattle.card_terminal.specs.Talk.{AreCommandsOf};
ghost use Rattle.exchange_core.specs.ExchangeSide.{response_limit};
ghost use Rattle.apdu_terminal.specs.ApduOperations.{ApduOperationOf, Begins, IsBeginning, IsOperationAnswer, IsTakingResponse, KeepsLimit, at_rest, is_under_way, may_follow, operation_due};

mod operation;

use apdu_core::{Command, Status, pieces};
use card_terminal::{
    Answer, BeginFault, RESPONSE_LIMIT, StartFault, Unsent, get_command, put_header, select_command,
};
use object_card::Aid;
use operation::ApduOperation;
use std::alloc::{AllocError, Allocator, Global};
use std::marker::Model;
use t0_core::AnswerFault;
use tlv_core::ObjectTag;

/// A terminal that carries out operations with a card by whole commands. It holds no borrow.
///
/// `select`, `get`, `put` and `send` begin an operation, and take all its memory. Send what `apdu`
/// returns, and give `responded` the response, until `apdu` is `None`. Then `answer` returns the
/// status and the data, or `None` if the operation has failed. The next operation may begin after
/// this one has ended or failed, or after `reset` has dropped it.
///
/// The next operation uses the same memory, and takes more only for longer data than any before.
/// Sent and received bytes, secrets included, stay there until they are overwritten, or until such
/// an operation, `reset` or a drop frees the memory.
#[derive(Drop)]
pub struct ApduTerminal<A: Allocator + Copy = Global> {
    alloc: A,
    limit: usize,
    operation: Option<ApduOperation<A>>,
}

impl<A: Allocator + Copy> Model for ApduTerminal<A> {
    ghost use Rattle.apdu_terminal.specs.ApduOperations.{ApduTerminalOf, IsSet};

    ghost Value = { ApduTerminalOf };

    ghost view = { λ t. record { limit = t.limit; operation = t.operation } };

    ghost invariant = { λ t. IsSet t.limit t.operation };
}

impl<A: Allocator + Copy> ApduTerminal<A> {
    /// Returns a terminal for responses of up to `RESPONSE_LIMIT` bytes. This takes no memory.
    pub fn new(alloc: A) -> ApduTerminal<A>
        ensures { result ≡ at_rest response_limit }
    {
        ApduTerminal {
            alloc,
            limit: RESPONSE_LIMIT,
            operation: None,
        }
    }

    /// Returns a terminal for responses of up to `limit` bytes, 0 to `RESPONSE_LIMIT` (profile).
    /// More data are a fault, `TooLong`. This takes no memory.
    ///
    /// # Errors
    /// - `OverLimit`: the limit is above `RESPONSE_LIMIT`. There is no terminal.
    pub fn new_within(alloc: A, limit: usize) -> Result<ApduTerminal<A>, StartFault>
        ensures { MatchResult result (λ t. (limit ≤ response_limit) × (t ≡ at_rest limit))
            (λ fault. (response_limit < limit) × (fault ≡ StartFault.OverLimit)) }
    {
        if limit > RESPONSE_LIMIT {
            return Err(StartFault::OverLimit);
        }
        Ok(ApduTerminal {
            alloc,
            limit,
            operation: None,
        })
    }

    /// Begins the selection of the application with this identifier. The last answer is dropped.
    ///
    /// # Errors
    /// - `UnderWay`: an operation is in progress. Nothing changes.
    /// - `OutOfMemory`: memory for the response or the copy of the data ran out. Nothing changes,
    ///   and the last answer stays.
    pub fn select(&mut self, aid: &Aid) -> Result<(), BeginFault>
        ensures begins { IsBeginning (AreCommandsOf (Select aid.now)) self.old.operation result
            self.new.operation }
        ensures limit { KeepsLimit self.old self.new }
    {
        self.send(select_command(aid))
    }

    /// Begins the reading of the data object with this tag. The errors, and the state after each,
    /// are those of `select`.
    pub fn get(&mut self, tag: ObjectTag) -> Result<(), BeginFault>
        ensures begins { IsBeginning (AreCommandsOf (Get tag)) self.old.operation result
            self.new.operation }
        ensures limit { KeepsLimit self.old self.new }
    {
        self.send(get_command(tag))
    }

    /// Begins to store a copy of the value, of any length, under this tag. It is sent in pieces of
    /// at most 255 bytes, up to the first whose status is not `9000`. The errors, and the state
    /// after each, are those of `select`.
    pub fn put(&mut self, tag: ObjectTag, value: &[u8]) -> Result<(), BeginFault>
        ensures begins { IsBeginning (AreCommandsOf (Put tag value.now)) self.old.operation result
            self.new.operation }
        ensures limit { KeepsLimit self.old self.new }
    {
        if self.is_going() {
            return Err(BeginFault::UnderWay);
        }
        let (p1, p2) = tag.p1p2();
        let Some(first) = pieces(put_header(p1, p2), value).next() else {
            unreachable!()
        };
        let rest = rest_after(value, first.data().len());
        self.begin(Unsent {
            first,
            p1,
            p2,
            rest,
        })?;
        Ok(())
    }

    /// Begins the exchange of a command, with a copy of its data. The errors, and the state after
    /// each, are those of `select`.
    pub fn send(&mut self, command: Command<'_>) -> Result<(), BeginFault>
        ensures begins { IsBeginning (λ commands. commands ≡ command.entry ∷ [])
            self.old.operation result self.new.operation }
        ensures limit { KeepsLimit self.old self.new }
    {
        if self.is_going() {
            return Err(BeginFault::UnderWay);
        }
        self.begin(Unsent {
            first: command,
            p1: 0,
            p2: 0,
            rest: &[],
        })?;
        Ok(())
    }

    /// Begins an operation that a `card_terminal::Terminal` has begun, and sent nothing of. Drops
    /// the last operation, even one in progress.
    ///
    /// # Errors
    /// - `AllocError`: memory ran out. Nothing changes.
    pub fn begin(&mut self, unsent: Unsent<'_>) -> Result<(), AllocError>
        ensures begins { MatchResult result (λ _. (o : ApduOperationOf)
            × (self.new.operation ≡ Some o) × Begins unsent.entry o)
            (λ _. self.new ≡ self.old) }
        ensures limit { KeepsLimit self.old self.new }
    {
        if let Some(operation) = &mut self.operation {
            return operation.again(unsent);
        }
        self.operation = Some(ApduOperation::start(self.alloc, self.limit, unsent)?);
        Ok(())
    }

    /// Returns whether an operation is in progress: a command is to be sent. Then no other
    /// operation may begin, except by `begin`.
    pub fn is_going(&self) -> bool
        ensures going { result ≡ is_under_way self.now.operation }
        ensures limit { KeepsLimit self.now self.now }
    {
        match &self.operation {
            None => false,
            Some(operation) => operation.is_going(),
        }
    }

    /// Returns the command to send now, or `None` if no operation has begun, or it has ended or
    /// failed.
    pub fn apdu(&self) -> Option<Command<'_>>
        ensures { result ≡ operation_due self.now.operation }
    {
        match &self.operation {
            None => None,
            Some(operation) => operation.apdu(),
        }
    }

    /// Takes the response to the command that `apdu` returns: its data and its status. After a
    /// piece of a put with the status `9000`, `apdu` returns the next piece, if one follows.
    ///
    /// # Errors
    /// In this order (profile):
    /// - `NotDue`: `apdu` is `None`. Nothing changes.
    /// - `NotAsked`: data came, and the command has no Le. Nothing changes.
    /// - `TooMany`: more data came than Le asks for. Nothing changes.
    /// - `TooLong`: the data exceed the limit. The operation has failed for good.
    /// - `Stalled`: a GET RESPONSE of the terminal's own, with its repetition, brought no data, and
    ///   the card announces more. The operation has failed for good.
    pub fn responded(&mut self, bytes: &[u8], status: Status) -> Result<(), AnswerFault>
        ensures responding { IsTakingResponse self.old.operation bytes.now status result
            self.new.operation }
        ensures falls { OnOk result
            (may_follow self.new.operation < may_follow self.old.operation) }
        ensures limit { KeepsLimit self.old self.new }
    {
        match &mut self.operation {
            None => Err(AnswerFault::NotDue),
            Some(operation) => operation.responded(bytes, status),
        }
    }

    /// Returns the status and the data of the last command. `None` if no operation has begun, or if
    /// it is in progress or has failed. They stay until the next operation begins, or until
    /// `reset`.
    pub fn answer(&self) -> Option<(Status, &[u8])>
        ensures { IsOperationAnswer self.now.operation (option_map (λ a. (a.0, a.1.now)) result) }
    {
        match &self.operation {
            None => None,
            Some(operation) => operation.answer(),
        }
    }

    /// Returns what `answer` does as an `Answer`, and drops the terminal. Room that the data don't
    /// take is freed, unless memory for that runs out.
    pub fn into_answer(self) -> Option<Answer<A>>
        ensures { IsOperationAnswer self.operation
            (option_map (λ a. (a.status, a.content)) result) }
    {
        match self.operation {
            None => None,
            Some(operation) => operation.into_answer(),
        }
    }

    /// Drops the last operation, in any state, with its answer, and frees its memory. The limit
    /// stays. It sends nothing to the card.
    pub fn reset(&mut self)
        ensures { self.new ≡ at_rest self.old.limit }
    {
        self.operation = None;
    }
}

/// Returns the bytes after the first `count`.
fn rest_after(value: &[u8], count: usize) -> &[u8]
    requires { count ≤ length value.now }
    ensures { result.now ≡ drop count value.now }
{
    &value[count..]
}
