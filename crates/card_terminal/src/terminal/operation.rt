//! The operation of a `Terminal`: the exchange of the current command, and the bytes still to put.
ghost use Rattle.std.specs.Prelude.{◌≡◌, ◌⊎◌, ℕ, ◌≤◌, List, [], ◌∷◌, ◌++◌, length, None, Some, Err, IfOk, IsOk, is_ok, MatchResult, if◌then◌else◌, true, false, vec_capacity};
ghost use Rattle.std.specs.Option.{option_map};
ghost use Rattle.card_terminal.specs.OperationRoom.{BeginsWith};
ghost use Rattle.exchange_core.specs.ExchangeSide.{ExchangeOf, IsBounded, exchange_turn, response_limit};
ghost use Rattle.t0_core.specs.HostSide.{data_due};
ghost use Rattle.t0_core.specs.TpduBytes.{asked_of, due_by};
ghost use Rattle.apdu_core.specs.StatusWord.{ok};
ghost use Rattle.exchange_core.specs.Buffers.{IsHandingOut, IsTakingAll};
ghost use Rattle.card_terminal.specs.TerminalSteps.{IsTerminalTaking};
ghost use Rattle.exchange_core.specs.ExchangeSteps.{IsTurn, IsTaking, IsAnswering, IsAnswer};
ghost use Rattle.card_terminal.specs.Unsent.{IsUnsent};
ghost use Rattle.card_terminal.specs.TerminalSide.{GoesOver, GoesToNext, IsSettled, operation_sent, with_exchange};

use crate::commands::put_header;
use crate::unsent::Unsent;
use apdu_core::{Command, Header, Status, pieces};
use exchange_core::{ExchangeMark, HandedOut, Taken};
use std::alloc::{AllocError, Allocator, Global};
use std::marker::Model;
use t0_core::{AnswerFault, DataSent, HostTurn, LineFault, WholeTpdu};

/// An operation of a `Terminal` that has begun: the exchange of its current command, and the rest
/// of a put.
#[derive(Drop)]
pub struct Operation<A: Allocator + Copy = Global> {
    exchange: ExchangeMark<A>,
    /// The data of all its commands.
    content: Vec<u8, A>,
    /// The index in `content` at which the data of the current command begin.
    from: usize,
    /// The index at which they end. More pieces of a put send the rest.
    until: usize,
    p1: u8,
    p2: u8,
    /// The current command is the first.
    first: bool,
    /// Whether the commands before it have sent all their data.
    sent: DataSent,
}

impl<A: Allocator + Copy> Model for Operation<A> {
    ghost use Rattle.std.specs.Prelude.{◌≡◌, ◌≤◌, length, drop};
    ghost use Rattle.std.specs.List.{slice_range};
    ghost use Rattle.exchange_core.specs.OwnedExchange.{over_data, IsSound};
    ghost use Rattle.card_terminal.specs.TerminalSide.{OperationOf};
    ghost use Rattle.card_terminal.specs.OperationRoom.{IsPart};

    ghost Value = { OperationOf };

    ghost view = { λ o. record {
      exchange = over_data o.exchange (slice_range o.content.items o.from o.until);
      p1 = o.p1;
      p2 = o.p2;
      rest = drop o.until o.content.items;
      first = o.first;
      sent = o.sent;
    } };

    ghost invariant = { λ o. IsPart o.content.items o.from o.until
        (over_data o.exchange (slice_range o.content.items o.from o.until)) };
}

impl<A: Allocator + Copy> Operation<A> {
    /// Begins an operation by its first command. `content` is the data of all its commands, and
    /// must begin with those of the first. More pieces of a put send the rest, with the same P1-P2.
    /// Allocates room for `limit` bytes of a response, at most `RESPONSE_LIMIT`, and a copy of
    /// `content`.
    ///
    /// # Errors
    ///
    /// - `AllocError`: memory ran out; there is no operation.
    pub fn start(
        alloc: A,
        limit: usize,
        first: Command<'_>,
        content: &[u8],
    ) -> Result<Operation<A>, AllocError>
        requires room { limit ≤ response_limit }
        requires front { (more : List ℕ) × (content.now ≡ first.content ++ more) }
        ensures begins { IfOk result (λ o. BeginsWith first.entry content.now o) }
        ensures limit { IfOk result (λ o. o.exchange.gather.limit ≡ limit) }
    {
        let Header { p1, p2, .. } = first.header();
        let until = first.data().len();
        let content = Vec::from_slice(alloc, content)?;
        let exchange = ExchangeMark::start(alloc, first, limit)?;
        Ok(Operation {
            exchange,
            content,
            from: 0,
            until,
            p1,
            p2,
            first: true,
            sent: DataSent::All,
        })
    }

    /// Begins another operation, as `start`, in the place and the memory of this one. It allocates
    /// only if `content` is longer than any before.
    ///
    /// # Errors
    ///
    /// - `AllocError`: memory ran out; nothing has changed.
    pub fn again(&mut self, first: Command<'_>, content: &[u8]) -> Result<(), AllocError>
        requires front { (more : List ℕ) × (content.now ≡ first.content ++ more) }
        ensures begins { MatchResult result (λ _. BeginsWith first.entry content.now self.new)
            (λ _. self.new ≡ self.old) }
        ensures limit { self.new.exchange.gather.limit ≡ self.old.exchange.gather.limit }
    {
        let Header { p1, p2, .. } = first.header();
        copy_again(&mut self.content, content)?;
        self.from = 0;
        self.until = first.data().len();
        self.p1 = p1;
        self.p2 = p2;
        self.first = true;
        self.sent = DataSent::All;
        self.exchange.again(first);
        Ok(())
    }

    /// Returns what `next` would, and changes nothing.
    pub fn turn(&self) -> HostTurn
        ensures { result ≡ exchange_turn self.now.exchange }
    {
        self.exchange.turn(&self.content[self.from..self.until])
    }

    /// Returns what the terminal does next, as `Exchange::next`.
    #[inline(always)]
    pub fn next(&mut self) -> HostTurn
        ensures turn { IsTurn self.old.exchange result self.new.exchange }
        ensures rest { self.new ≡ with_exchange self.old self.new.exchange }
        ensures settled { IsSettled self.old → IsSettled self.new }
        ensures bounds { IsBounded self.new.exchange }
        ensures limit { self.new.exchange.gather.limit ≡ self.old.exchange.gather.limit }
    {
        self.exchange.next(&self.content[self.from..self.until])
    }

    /// Returns the next character of the data, as `next` does, if the terminal sends one next.
    /// Otherwise returns `None`, and nothing changes.
    #[inline(always)]
    pub fn next_data(&mut self) -> Option<u8>
        ensures due { result ≡ data_due self.old.exchange.host }
        ensures turn { (byte : ℕ) → result ≡ Some byte
            → IsTurn self.old.exchange (HostTurn.Sends byte) self.new.exchange }
        ensures rest { self.new ≡ with_exchange self.old self.new.exchange }
        ensures settled { IsSettled self.old → IsSettled self.new }
        ensures stays { result ≡ None → self.new ≡ self.old }
        ensures limit { self.new.exchange.gather.limit ≡ self.old.exchange.gather.limit }
    {
        self.exchange
            .next_data(&self.content[self.from..self.until])
    }

    /// Takes a character of the card, as `Exchange::take`. After the status `9000`, the next piece
    /// of a put begins, if one follows.
    #[inline(always)]
    pub fn take(&mut self, byte: u8) -> Result<(), LineFault>
        ensures taking { (ex : ExchangeOf) × IsTaking self.old.exchange byte result ex
            × GoesOver (with_exchange self.old ex) self.new }
        ensures limit { self.new.exchange.gather.limit ≡ self.old.exchange.gather.limit }
    {
        // Data first: they are most of the characters.
        let content = &self.content[self.from..self.until];
        if self.exchange.take_data(byte, content) {
            return Ok(());
        }
        self.take_other(byte)
    }

    /// Takes any character, as `take`. It is not inlined, so that the path of data stays short.
    #[inline(never)]
    fn take_other(&mut self, byte: u8) -> Result<(), LineFault>
        ensures taking { (ex : ExchangeOf) × IsTaking self.old.exchange byte result ex
            × GoesOver (with_exchange self.old ex) self.new }
        ensures limit { self.new.exchange.gather.limit ≡ self.old.exchange.gather.limit }
    {
        let content = &self.content[self.from..self.until];
        let taken = self.exchange.take(byte, content);
        self.go_on();
        taken
    }

    /// Writes the next characters to `bytes`, as `Exchange::next_bytes`.
    pub fn next_bytes(&mut self, bytes: &mut [u8]) -> HandedOut
        ensures handed { IsHandingOut IsTurn self.old.exchange bytes.old bytes.new result
            self.new.exchange }
        ensures rest { self.new ≡ with_exchange self.old self.new.exchange }
        ensures settled { IsSettled self.old → IsSettled self.new }
        ensures limit { self.new.exchange.gather.limit ≡ self.old.exchange.gather.limit }
    {
        self.exchange
            .next_bytes(bytes, &self.content[self.from..self.until])
    }

    /// Takes the characters of a buffer, as `Exchange::take_bytes`. After the status `9000`, the
    /// next piece of a put begins, if one follows.
    pub fn take_bytes(&mut self, bytes: &[u8]) -> Taken
        ensures taking { IsSettled self.old → IsTakingAll IsTerminalTaking (Some self.old)
            bytes.now result (Some self.new) }
        ensures settled { IsSettled self.new }
        ensures limit { self.new.exchange.gather.limit ≡ self.old.exchange.gather.limit }
    {
        let (taken, begins) = self.take_and_go_on(bytes);
        if begins { out_of_turn(taken) } else { taken }
    }

    /// Takes the characters of a buffer up to an error, and then begins the next piece of a put, if
    /// one follows. Returns whether it has.
    fn take_and_go_on(&mut self, bytes: &[u8]) -> (Taken, bool)
        ensures taking { (ex : ExchangeOf)
            × IsTakingAll IsTaking self.old.exchange bytes.now result.0 ex
            × (result.1 ≡ true → GoesToNext (with_exchange self.old ex) self.new)
            × (result.1 ≡ false → IsSettled (with_exchange self.old ex)
            × (self.new ≡ with_exchange self.old ex)) }
        ensures limit { self.new.exchange.gather.limit ≡ self.old.exchange.gather.limit }
    {
        let taken = self
            .exchange
            .take_bytes(bytes, &self.content[self.from..self.until]);
        let begins = self.go_on();
        (taken, begins)
    }

    /// The next TPDU as a whole, as `Exchange::tpdu`.
    pub fn tpdu(&self) -> Option<WholeTpdu<'_>>
        ensures { option_map asked_of result ≡ due_by self.now.exchange.host }
    {
        self.exchange.tpdu(&self.content[self.from..self.until])
    }

    /// The commands of the operation, if nothing of it was sent, as `Terminal::unsent`.
    pub fn unsent(&self) -> Option<Unsent<'_>>
        ensures { IsUnsent (Some self.now) result }
    {
        if !self.first {
            return None;
        }
        match self.exchange.unsent(&self.content[self.from..self.until]) {
            None => None,
            Some(first) => Some(Unsent {
                first,
                p1: self.p1,
                p2: self.p2,
                rest: &self.content[self.until..],
            }),
        }
    }

    /// Whether all data of the commands so far have left the terminal.
    pub fn data_sent(&self) -> DataSent
        ensures { result ≡ operation_sent self.now }
    {
        let content = &self.content[self.from..self.until];
        self.sent.and(self.exchange.data_sent(content))
    }

    /// Takes the answer to the TPDU that `tpdu` returns, as `Exchange::answered`. After the status
    /// `9000`, the next piece of a put begins, if one follows.
    pub fn answered(&mut self, bytes: &[u8], status: Status) -> Result<(), AnswerFault>
        ensures answering { (ex : ExchangeOf)
            × IsAnswering self.old.exchange bytes.now status result ex
            × GoesOver (with_exchange self.old ex) self.new }
        ensures limit { self.new.exchange.gather.limit ≡ self.old.exchange.gather.limit }
    {
        let content = &self.content[self.from..self.until];
        let taken = self.exchange.answered(bytes, status, content);
        self.go_on();
        taken
    }

    /// Begins the exchange of the next piece of a put, if one follows and the status of the last is
    /// `9000`. Returns whether it has.
    #[inline(always)]
    fn go_on(&mut self) -> bool
        ensures over { GoesOver self.old self.new }
        ensures begins { result ≡ true → GoesToNext self.old self.new }
        ensures stays { result ≡ false → IsSettled self.old × (self.new ≡ self.old) }
        ensures limit { self.new.exchange.gather.limit ≡ self.old.exchange.gather.limit }
    {
        let is_last = self.until == self.content.as_slice().len();
        if is_last {
            return false;
        }
        match self.turn() {
            HostTurn::Done(status) if status.is_ok() => {
                // Here the compiler knows that the end has ended.
                let sent = self.data_sent();
                self.begin_next(sent);
                true
            }
            _ => false,
        }
    }

    /// Begins the exchange of the next piece of a put, in the same room. `sent` is what `data_sent`
    /// returns before.
    fn begin_next(&mut self, sent: DataSent)
        requires more { self.old.rest ≡ [] → ⊥ }
        requires done { exchange_turn self.old.exchange ≡ HostTurn.Done ok }
        requires sent { sent ≡ operation_sent self.old }
        ensures { GoesToNext self.old self.new }
    {
        let mut commands = pieces(put_header(self.p1, self.p2), &self.content[self.until..]);
        let Some(next) = commands.next() else {
            unreachable!()
        };
        self.from = self.until;
        self.until += next.data().len();
        self.first = false;
        self.sent = sent;
        self.exchange.again(next);
    }

    /// The status and the data of the last command, if the operation has ended. `None` if it is in
    /// progress or has failed.
    pub fn answer(&self) -> Option<(Status, &[u8])>
        ensures { IsAnswer self.now.exchange (option_map (λ a. (a.0, a.1.now)) result) }
    {
        self.exchange.answer(&self.content[self.from..self.until])
    }
}

/// Makes `copy` a copy of `bytes`. It allocates only if they exceed its capacity. The error is that
/// memory ran out; `copy` is unchanged then.
fn copy_again<A: Allocator>(copy: &mut Vec<u8, A>, bytes: &[u8]) -> Result<(), AllocError>
    ensures items { copy.new.items ≡ (if is_ok result then bytes.now else copy.old.items) }
    ensures room { length bytes.now ≤ vec_capacity copy.old → IsOk result }
{
    copy.reserve_exact(bytes.len().saturating_sub(copy.len()))?;
    copy.clear();
    if copy.extend_from_slice(bytes).is_err() {
        unreachable!()
    }
    Ok(())
}

/// The result of `take_bytes` if the next piece has begun: the terminal sends next, so that any
/// further character is `NotListening`.
fn out_of_turn(taken: Taken) -> Taken
    ensures { MatchResult taken.outcome (λ _. result ≡ taken) (λ _. result ≡ record {
      count = taken.count;
      outcome = Err LineFault.NotListening;
    }) }
{
    match taken.outcome {
        Ok(()) => taken,
        Err(_) => Taken {
            count: taken.count,
            outcome: Err(LineFault::NotListening),
        },
    }
}
