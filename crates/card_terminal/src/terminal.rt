//! A terminal that runs operations over any line, whose characters its caller passes.
ghost use Rattle.std.specs.Prelude.{◌≡◌, ◌≤◌, ◌<◌, ℕ, List, [], ◌∷◌, ◌++◌, None, MatchResult, IfOk, Some, true, false};
ghost use Rattle.std.specs.Option.{option_map};
ghost use Rattle.apdu_core.specs.CommandBytes as spec;
ghost use Rattle.object_card.specs.OneStep.{Select, Get, Put};
ghost use Rattle.card_terminal.specs.Talk.{AreCommandsOf};
ghost use Rattle.exchange_core.specs.ExchangeSide.{response_limit};
ghost use Rattle.card_terminal.specs.TerminalSide.{OperationOf, KeepsLimit, at_rest, is_going};
ghost use Rattle.card_terminal.specs.OperationRoom.{BeginsWith};
ghost use Rattle.exchange_core.specs.Buffers.{IsTakingAll};
ghost use Rattle.card_terminal.specs.TerminalSteps.{IsBeginning, IsTerminalTurn, IsTerminalHandingOut, IsTerminalTaking, IsTerminalAnswering, IsTerminalAnswer, terminal_due, terminal_data};
ghost use Rattle.card_terminal.specs.Unsent.{IsUnsent};
ghost use Rattle.card_terminal.specs.SentData.{TellsTerminalSent};
ghost use Rattle.t0_core.specs.TpduBytes.{asked_of};

mod begin_fault;
mod operation;

use crate::commands::{get_command, put_header, select_command};
use crate::unsent::Unsent;
use apdu_core::{Command, Status, pieces};
pub use begin_fault::BeginFault;
use exchange_core::{HandedOut, RESPONSE_LIMIT, StartFault, Taken};
use object_card::Aid;
use operation::Operation;
use std::alloc::{AllocError, Allocator, Global};
use std::marker::Model;
use t0_core::{AnswerFault, DataSent, HostTurn, LineFault, WholeTpdu};
use tlv_core::ObjectTag;

/// A terminal that carries out operations with a card over any line. Its caller sends the
/// terminal's characters, and passes it those of the card. It borrows nothing.
///
/// `select`, `get`, `put` and `send` begin an operation, and allocate all its memory. `next` and
/// `take` pass its characters until `next` returns `Done`, or `Failed` after an error. After
/// `Done`, `answer` returns the status and the data. The next operation may begin once this one has
/// ended or failed, or `reset` or `rest` has dropped it: then none has begun. Contracts see a
/// terminal as the most bytes that a response may have, and the last operation, if there is one.
///
/// The next operation uses the memory of this one: room for the response, and a copy of the data.
/// It allocates only if its data are longer than any before, or after `reset`. This memory keeps
/// sent and received bytes, secrets included, until they are overwritten, or `reset` or drop frees
/// them.
#[derive(Drop)]
pub struct Terminal<A: Allocator + Copy = Global> {
    alloc: A,
    limit: usize,
    operation: Option<Operation<A>>,
    /// The memory of the last operation, which the next one uses.
    spare: Option<Operation<A>>,
}

impl<A: Allocator + Copy> Model for Terminal<A> {
    ghost use Rattle.card_terminal.specs.TerminalSide.{TerminalOf, HasRoomFor, IsSet};

    ghost Value = { TerminalOf };

    ghost view = { λ t. record { limit = t.limit; operation = t.operation } };

    ghost invariant = { λ t. IsSet t.limit t.operation × HasRoomFor t.limit t.spare };
}

impl<A: Allocator + Copy> Terminal<A> {
    /// Makes a terminal without an operation, for responses of at most `RESPONSE_LIMIT` bytes. It
    /// allocates nothing.
    pub fn new(alloc: A) -> Terminal<A>
        ensures { result ≡ at_rest response_limit }
    {
        Terminal {
            alloc,
            limit: RESPONSE_LIMIT,
            operation: None,
            spare: None,
        }
    }

    /// Makes a terminal without an operation, for responses of at most `limit` bytes, 0 to
    /// `RESPONSE_LIMIT`. More data are a fault, `TooLong`. It allocates nothing.
    ///
    /// # Errors
    ///
    /// - `OverLimit`: `limit` exceeds `RESPONSE_LIMIT`; there is no terminal.
    pub fn new_within(alloc: A, limit: usize) -> Result<Terminal<A>, StartFault>
        ensures { MatchResult result (λ t. (limit ≤ response_limit) × (t ≡ at_rest limit))
            (λ fault. (response_limit < limit) × (fault ≡ StartFault.OverLimit)) }
    {
        if limit > RESPONSE_LIMIT {
            return Err(StartFault::OverLimit);
        }
        Ok(Terminal {
            alloc,
            limit,
            operation: None,
            spare: None,
        })
    }

    /// Begins to select the application with this identifier. The last answer is dropped.
    ///
    /// # Errors
    ///
    /// The terminal is unchanged after either, and keeps the last answer:
    ///
    /// - `UnderWay`: another operation is in progress.
    /// - `OutOfMemory`: memory ran out, for the response (as many bytes as the terminal's limit) or
    ///   for the copy of the data. No earlier operation left enough.
    pub fn select(&mut self, aid: &Aid) -> Result<(), BeginFault>
        ensures begins { IsBeginning (AreCommandsOf (Select aid.now)) self.old.operation result
            self.new.operation }
        ensures limit { KeepsLimit self.old self.new }
    {
        self.send(select_command(aid))
    }

    /// Begins to read the data object with this tag. The errors, and the state after each, are
    /// those of `select`.
    pub fn get(&mut self, tag: ObjectTag) -> Result<(), BeginFault>
        ensures begins { IsBeginning (AreCommandsOf (Get tag)) self.old.operation result
            self.new.operation }
        ensures limit { KeepsLimit self.old self.new }
    {
        self.send(get_command(tag))
    }

    /// Begins to store a copy of this value, of any length, under the tag. The terminal sends it in
    /// pieces of at most 255 bytes, up to the first status other than `9000`. The errors, and the
    /// state after each, are those of `select`.
    pub fn put(&mut self, tag: ObjectTag, value: &[u8]) -> Result<(), BeginFault>
        ensures begins { IsBeginning (AreCommandsOf (Put tag value.now)) self.old.operation result
            self.new.operation }
        ensures limit { KeepsLimit self.old self.new }
    {
        if self.is_going() {
            return Err(BeginFault::UnderWay);
        }
        let (p1, p2) = tag.p1p2();
        let Some(first) = pieces(put_header(p1, p2), value).next() else {
            unreachable!()
        };
        self.begin(first, value)?;
        Ok(())
    }

    /// Begins the exchange of a command, with a copy of its data. The errors, and the state after
    /// each, are those of `select`.
    pub fn send(&mut self, command: Command<'_>) -> Result<(), BeginFault>
        ensures begins { IsBeginning (λ commands. commands ≡ command.entry ∷ [])
            self.old.operation result self.new.operation }
        ensures limit { KeepsLimit self.old self.new }
    {
        if self.is_going() {
            return Err(BeginFault::UnderWay);
        }
        let data = command.data();
        self.begin(command, data)?;
        Ok(())
    }

    /// Begins an operation by its first command, in the memory of the last operation if there is
    /// one. `content` is all data of its commands. The error is that memory ran out; nothing has
    /// changed then.
    fn begin(&mut self, first: Command<'_>, content: &[u8]) -> Result<(), AllocError>
        requires front { (more : List ℕ) × (content.now ≡ first.content ++ more) }
        ensures begins { MatchResult result (λ _. (o : OperationOf)
            × (self.new.operation ≡ Some o) × BeginsWith first.entry content.now o)
            (λ _. self.new ≡ self.old) }
        ensures limit { KeepsLimit self.old self.new }
    {
        if let Some(operation) = &mut self.operation {
            return operation.again(first, content);
        }
        self.operation = Some(self.first_operation(first, content)?);
        Ok(())
    }

    /// Makes an operation in the memory of the last one, if that was kept, or in its own.
    fn first_operation(
        &mut self,
        first: Command<'_>,
        content: &[u8],
    ) -> Result<Operation<A>, AllocError>
        requires front { (more : List ℕ) × (content.now ≡ first.content ++ more) }
        ensures begins { IfOk result (λ o. BeginsWith first.entry content.now o) }
        ensures room { IfOk result (λ o. o.exchange.gather.limit ≡ self.old.limit) }
        ensures stays { self.new ≡ self.old }
    {
        match self.spare.take() {
            None => Operation::start(self.alloc, self.limit, first, content),
            Some(mut kept) => match kept.again(first, content) {
                Ok(()) => Ok(kept),
                Err(fault) => {
                    self.spare = Some(kept);
                    Err(fault)
                }
            },
        }
    }

    /// Whether an operation is in progress: it has neither ended nor failed. No other may begin
    /// then.
    pub fn is_going(&self) -> bool
        ensures going { result ≡ is_going self.now.operation }
        ensures limit { KeepsLimit self.now self.now }
    {
        match &self.operation {
            None => false,
            Some(operation) => match operation.turn() {
                HostTurn::Sends(_) | HostTurn::Listens => true,
                HostTurn::Done(_) | HostTurn::Failed => false,
            },
        }
    }

    /// Returns what the terminal does next, as `Exchange::next`, or `None` if no operation has
    /// begun. A character that it returns counts as sent. Any other result changes nothing. `Done`
    /// has the status of the last command; `Failed` follows an error after which the operation has
    /// failed.
    #[inline(always)]
    pub fn next(&mut self) -> Option<HostTurn>
        ensures turn { IsTerminalTurn self.old.operation result self.new.operation }
        ensures limit { KeepsLimit self.old self.new }
    {
        match &mut self.operation {
            None => None,
            Some(operation) => Some(operation.next()),
        }
    }

    /// Returns the next character of the operation's data, as `next` does, if the terminal sends
    /// one next. Otherwise returns `None`, and nothing changes. A loop over it after each `take`
    /// sends what a procedure byte asked for, faster than a loop over `next`.
    #[inline(always)]
    pub fn next_data(&mut self) -> Option<u8>
        ensures due { result ≡ terminal_data self.old.operation }
        ensures turn { (byte : ℕ) → result ≡ Some byte
            → IsTerminalTurn self.old.operation (Some (HostTurn.Sends byte)) self.new.operation }
        ensures stays { result ≡ None → self.new ≡ self.old }
        ensures limit { KeepsLimit self.old self.new }
    {
        match &mut self.operation {
            None => None,
            Some(operation) => operation.next_data(),
        }
    }

    /// Takes a character of the card, as `Exchange::take`. After the status `9000` of a piece of a
    /// put, the next piece begins, if one follows.
    ///
    /// # Errors
    ///
    /// - `BadProcedure`, `TooLong`, `Stalled`: as for `Exchange::take`; the operation has failed
    ///   for good.
    /// - `AfterEnd`: no operation has begun, or it has ended or failed; nothing has changed.
    /// - `NotListening`: the operation has characters to send first; nothing has changed.
    #[inline(always)]
    pub fn take(&mut self, byte: u8) -> Result<(), LineFault>
        ensures taking { IsTerminalTaking self.old.operation byte result self.new.operation }
        ensures limit { KeepsLimit self.old self.new }
    {
        match &mut self.operation {
            None => Err(LineFault::AfterEnd),
            Some(operation) => operation.take(byte),
        }
    }

    /// Writes the next characters to `bytes`, as `next` one at a time, until the terminal has none
    /// to send or `bytes` is full. Returns `None` if no operation has begun.
    pub fn next_bytes(&mut self, bytes: &mut [u8]) -> Option<HandedOut>
        ensures handed { IsTerminalHandingOut self.old.operation bytes.old bytes.new result
            self.new.operation }
        ensures limit { KeepsLimit self.old self.new }
    {
        match &mut self.operation {
            None => None,
            Some(operation) => Some(operation.next_bytes(bytes)),
        }
    }

    /// Takes the characters of a buffer, as `take` one at a time, up to the first error. The state
    /// after an error is that after the same error of `take`.
    pub fn take_bytes(&mut self, bytes: &[u8]) -> Taken
        ensures taking { IsTakingAll IsTerminalTaking self.old.operation bytes.now result
            self.new.operation }
        ensures limit { KeepsLimit self.old self.new }
    {
        match &mut self.operation {
            None => none_taken(bytes),
            Some(operation) => operation.take_bytes(bytes),
        }
    }

    /// The next TPDU as a whole, for a transport of whole TPDUs. `None` if a character of it was
    /// sent already, if no operation has begun, or if it has ended or failed.
    pub fn tpdu(&self) -> Option<WholeTpdu<'_>>
        ensures { option_map asked_of result ≡ terminal_due self.now.operation }
    {
        match &self.operation {
            None => None,
            Some(operation) => operation.tpdu(),
        }
    }

    /// The commands of the operation, if nothing of it was sent: it can still be sent in another
    /// way, as by whole commands. `None` after the first character, answer or final error, and if
    /// no operation has begun.
    pub fn unsent(&self) -> Option<Unsent<'_>>
        ensures { IsUnsent self.now.operation result }
    {
        match &self.operation {
            None => None,
            Some(operation) => operation.unsent(),
        }
    }

    /// Whether all data of the operation's commands so far have left the terminal, as
    /// `Exchange::data_sent`; `None` if no operation has begun. By characters, `NotAll` stays for
    /// the rest of the operation if the card ends a piece of a put before it takes the piece.
    pub fn data_sent(&self) -> Option<DataSent>
        ensures { TellsTerminalSent self.now.operation result }
    {
        match &self.operation {
            None => None,
            Some(operation) => Some(operation.data_sent()),
        }
    }

    /// Takes the answer of the card to the TPDU that `tpdu` returns, as `Exchange::answered`. After
    /// the status `9000` of a piece of a put, the next piece begins, if one follows.
    ///
    /// # Errors
    ///
    /// - `NotDue`: `tpdu` returns `None`; nothing has changed.
    /// - `NotAsked`: the TPDU asks for no data, and `bytes` is not empty; nothing has changed.
    /// - `TooMany`: `bytes` is longer than P3 states (`00`: 256); nothing has changed.
    /// - `TooLong`, `Stalled`: as for `Exchange::answered`; the operation has failed for good.
    pub fn answered(&mut self, bytes: &[u8], status: Status) -> Result<(), AnswerFault>
        ensures answering { IsTerminalAnswering self.old.operation bytes.now status result
            self.new.operation }
        ensures limit { KeepsLimit self.old self.new }
    {
        match &mut self.operation {
            None => Err(AnswerFault::NotDue),
            Some(operation) => operation.answered(bytes, status),
        }
    }

    /// The status and the data of the last command, if the operation has ended. They are there
    /// until the next operation begins, `reset` or `rest`. `None` if none has begun, or if it is in
    /// progress or has failed.
    pub fn answer(&self) -> Option<(Status, &[u8])>
        ensures { IsTerminalAnswer self.now.operation (option_map (λ a. (a.0, a.1.now)) result) }
    {
        match &self.operation {
            None => None,
            Some(operation) => operation.answer(),
        }
    }

    /// Drops the last operation, in any state, with its answer, and frees its memory. The limit
    /// stays. It sends nothing to the card.
    pub fn reset(&mut self)
        ensures { self.new ≡ at_rest self.old.limit }
    {
        self.operation = None;
        self.spare = None;
    }

    /// Drops the last operation, in any state, with its answer, as `reset`. Its memory stays for
    /// the next one, with sent and received bytes, until that overwrites it or `reset` or drop
    /// frees it.
    pub fn rest(&mut self)
        ensures { self.new ≡ at_rest self.old.limit }
    {
        if self.operation.is_some() {
            self.spare = self.operation.take();
        }
    }
}

/// The result of `take_bytes` if no operation has begun.
fn none_taken(bytes: &[u8]) -> Taken
    ensures { IsTakingAll IsTerminalTaking None bytes.now result None }
{
    let outcome = if bytes.is_empty() {
        Ok(())
    } else {
        Err(LineFault::AfterEnd)
    };
    Taken { count: 0, outcome }
}
