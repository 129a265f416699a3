//! An exchange without its command's data, which its owner passes to each call.
ghost use Rattle.std.specs.Prelude.{◌≡◌, ◌≤◌, ℕ, List, [], None, Some, IfOk, IfSome, true, false};
ghost use Rattle.std.specs.Option.{option_map};
ghost use Rattle.apdu_core.specs.StatusWord.{StatusWord};
ghost use Rattle.t0_core.specs.Front.{fresh};
ghost use Rattle.t0_core.specs.HostSide.{data_due};
ghost use Rattle.t0_core.specs.HostMark.{HasOnly};
ghost use Rattle.t0_core.specs.TpduBytes.{asked_of, due_by};
ghost use Rattle.exchange_core.specs.ExchangeSide.{UnderWay, GoesByCharacters, exchange_turn, response_limit};
ghost use Rattle.exchange_core.specs.ExchangeHistory.{ComesTo};
ghost use Rattle.exchange_core.specs.Buffers.{IsHandingOut, IsTakingAll};
ghost use Rattle.exchange_core.specs.ExchangeSteps.{IsTurn, IsTaking, IsAnswering, IsAnswer, TakesOne};
ghost use Rattle.exchange_core.specs.OwnedExchange.{over_data, IsSound};
ghost use Rattle.exchange_core.specs.Unsent.{IsFirst};
ghost use Rattle.exchange_core.specs.SentData.{TellsSent};

use crate::attempt::Attempt;
use crate::exchange::handing::handed_in;
use crate::exchange::taking::{all_taken_by, taken_by};
use crate::exchange::{Exchange, beginning};
use crate::handed_out::HandedOut;
use crate::taken::Taken;
use crate::wanted::Wanted;
use apdu_core::{Command, Status};
use std::alloc::{AllocError, Allocator, Global};
use std::marker::Model;
use std::mem;
use t0_core::{AnswerFault, DataSent, Gather, HostEnd, HostMark, HostTurn, LineFault, WholeTpdu};

/// The mark of an exchange: its state without the data of its command. Its owner stores them, and
/// passes the same data, `content`, to each call. The fields are those of `Exchange`.
#[derive(Drop)]
pub struct ExchangeMark<A: Allocator + Copy = Global> {
    alloc: A,
    end: HostMark,
    gather: Gather<A>,
    attempt: Attempt,
    wanted: Wanted,
    stalled: bool,
}

impl<A: Allocator + Copy> Model for ExchangeMark<A> {
    ghost use Rattle.exchange_core.specs.OwnedExchange.{ExchangeMarkOf};

    ghost Value = { ExchangeMarkOf };

    ghost view = { λ e. record {
      end = e.end;
      gather = e.gather;
      attempt = e.attempt;
      wanted = e.wanted;
      stalled = e.stalled;
    } };
}

impl<A: Allocator + Copy> ExchangeMark<A> {
    /// Begins the exchange of a command, and allocates room for `limit` bytes, at most
    /// `RESPONSE_LIMIT`.
    ///
    /// # Errors
    ///
    /// - `AllocError`: memory ran out; there is no exchange.
    pub fn start(
        alloc: A,
        command: Command<'_>,
        limit: usize,
    ) -> Result<ExchangeMark<A>, AllocError>
        requires { limit ≤ response_limit }
        ensures led { IfOk result
            (λ ex. ComesTo command.entry [] (over_data ex command.entry.content)) }
        ensures begins { IfOk result
            (λ ex. UnderWay command.entry (over_data ex command.entry.content) [] None fresh) }
        ensures sound { IfOk result (λ ex. IsSound (over_data ex command.entry.content)) }
        ensures limit { IfOk result (λ ex. ex.gather.limit ≡ limit) }
        ensures by_characters { IfOk result
            (λ ex. GoesByCharacters (over_data ex command.entry.content)) }
    {
        let exchange = Exchange::in_room(alloc, command, limit)?;
        Ok(ExchangeMark::of(alloc, exchange))
    }

    /// Begins the exchange of another command in the same room, whose limit stays. This one is
    /// dropped in any state, and zeros overwrite its data.
    pub fn again(&mut self, command: Command<'_>)
        requires { self.old.gather.limit ≤ response_limit }
        ensures led { ComesTo command.entry [] (over_data self.new command.entry.content) }
        ensures begins { UnderWay command.entry (over_data self.new command.entry.content)
            [] None fresh }
        ensures sound { IsSound (over_data self.new command.entry.content) }
        ensures limit { self.new.gather.limit ≡ self.old.gather.limit }
        ensures by_characters { GoesByCharacters (over_data self.new command.entry.content) }
    {
        self.gather.clear();
        let (end, attempt, wanted) = beginning(command);
        self.end = end.mark();
        self.attempt = attempt;
        self.wanted = wanted;
        self.stalled = false;
    }

    /// Makes the mark of an exchange.
    fn of(alloc: A, exchange: Exchange<'_, A>) -> ExchangeMark<A>
        ensures again { (content : List ℕ) → HasOnly content exchange.entry.host
            → over_data result content ≡ exchange.entry }
        ensures sound { IsSound exchange.entry }
    {
        let Exchange {
            end,
            gather,
            attempt,
            wanted,
            stalled,
        } = exchange;
        ExchangeMark {
            alloc,
            end: end.mark(),
            gather,
            attempt,
            wanted,
            stalled,
        }
    }

    /// Returns what `next` would, and changes nothing.
    pub fn turn(&self, content: &[u8]) -> HostTurn
        requires { IsSound (over_data self.now content.now) }
        ensures { result ≡ exchange_turn (over_data self.now content.now) }
    {
        if self.stalled {
            return HostTurn::Failed;
        }
        let mut end = HostEnd::at(self.end, content);
        end.next()
    }

    /// Returns what the terminal does next, as `Exchange::next`.
    #[inline(always)]
    pub fn next(&mut self, content: &[u8]) -> HostTurn
        requires { IsSound (over_data self.old content.now) }
        ensures turn { IsTurn (over_data self.old content.now) result
            (over_data self.new content.now) }
        ensures over { (status : StatusWord)
            → exchange_turn (over_data self.new content.now) ≡ HostTurn.Done status
            → over_data self.new content.now ≡ over_data self.old content.now }
        ensures sound { IsSound (over_data self.new content.now) }
        ensures limit { self.new.gather.limit ≡ self.old.gather.limit }
    {
        if self.stalled {
            return HostTurn::Failed;
        }
        self.end.next(content)
    }

    /// Returns the next character of the command's data, as `Exchange::next_data`.
    #[inline(always)]
    pub fn next_data(&mut self, content: &[u8]) -> Option<u8>
        requires { IsSound (over_data self.old content.now) }
        ensures due { result ≡ data_due (over_data self.old content.now).host }
        ensures turn { (byte : ℕ) → result ≡ Some byte → IsTurn (over_data self.old content.now)
            (HostTurn.Sends byte) (over_data self.new content.now) }
        ensures over { (status : StatusWord)
            → exchange_turn (over_data self.new content.now) ≡ HostTurn.Done status
            → over_data self.new content.now ≡ over_data self.old content.now }
        ensures stays { result ≡ None → self.new ≡ self.old }
        ensures sound { IsSound (over_data self.new content.now) }
        ensures limit { self.new.gather.limit ≡ self.old.gather.limit }
    {
        let mut end = HostEnd::at(self.end, content);
        let Some(byte) = end.next_data() else {
            return None;
        };
        self.end = end.mark();
        Some(byte)
    }

    /// Takes a character of the card, as `take`, if it is data and there is room. Returns whether
    /// it has; if not, nothing changes. The exchange continues after it.
    #[inline(always)]
    pub fn take_data(&mut self, byte: u8, content: &[u8]) -> bool
        requires { IsSound (over_data self.old content.now) }
        ensures taken { result ≡ true → TakesOne (over_data self.old content.now) byte
            (over_data self.new content.now) }
        ensures continues { result ≡ true → (status : StatusWord)
            → exchange_turn (over_data self.new content.now) ≡ HostTurn.Done status → ⊥ }
        ensures stays { result ≡ false → self.new ≡ self.old }
        ensures sound { IsSound (over_data self.new content.now) }
        ensures limit { self.new.gather.limit ≡ self.old.gather.limit }
    {
        self.end.take_data(byte, content, &mut self.gather)
    }

    /// Takes a character of the card, as `Exchange::take`.
    pub fn take(&mut self, byte: u8, content: &[u8]) -> Result<(), LineFault>
        requires { IsSound (over_data self.old content.now) }
        ensures taking { IsTaking (over_data self.old content.now) byte result
            (over_data self.new content.now) }
        ensures sound { IsSound (over_data self.new content.now) }
        ensures limit { self.new.gather.limit ≡ self.old.gather.limit }
    {
        let mut end = HostEnd::at(self.end, content);
        let taken = taken_by(
            &mut end,
            &mut self.gather,
            &mut self.attempt,
            self.wanted,
            &mut self.stalled,
            byte,
        );
        self.end = end.mark();
        taken
    }

    /// Writes the next characters to `bytes`, as `Exchange::next_bytes`.
    pub fn next_bytes(&mut self, bytes: &mut [u8], content: &[u8]) -> HandedOut
        requires { IsSound (over_data self.old content.now) }
        ensures handed { IsHandingOut IsTurn (over_data self.old content.now) bytes.old bytes.new
            result (over_data self.new content.now) }
        ensures over { (status : StatusWord)
            → exchange_turn (over_data self.new content.now) ≡ HostTurn.Done status
            → over_data self.new content.now ≡ over_data self.old content.now }
        ensures sound { IsSound (over_data self.new content.now) }
        ensures limit { self.new.gather.limit ≡ self.old.gather.limit }
    {
        handed_in(&mut self.end, content, self.stalled, bytes)
    }

    /// Takes the characters of a buffer, as `Exchange::take_bytes`.
    pub fn take_bytes(&mut self, bytes: &[u8], content: &[u8]) -> Taken
        requires { IsSound (over_data self.old content.now) }
        ensures taking { IsTakingAll IsTaking (over_data self.old content.now) bytes.now result
            (over_data self.new content.now) }
        ensures sound { IsSound (over_data self.new content.now) }
        ensures limit { self.new.gather.limit ≡ self.old.gather.limit }
    {
        let mut end = HostEnd::at(self.end, content);
        let taken = all_taken_by(
            &mut end,
            &mut self.gather,
            &mut self.attempt,
            self.wanted,
            &mut self.stalled,
            bytes,
        );
        self.end = end.mark();
        taken
    }

    /// The next TPDU as a whole, as `Exchange::tpdu`.
    pub fn tpdu<'c>(&self, content: &'c [u8]) -> Option<WholeTpdu<'c>>
        requires { IsSound (over_data self.now content.now) }
        ensures { option_map asked_of result ≡ due_by (over_data self.now content.now).host }
    {
        HostEnd::at(self.end, content).whole()
    }

    /// The command, if nothing of the exchange was sent, as `OwnedExchange::unsent`.
    pub fn unsent<'c>(&self, content: &'c [u8]) -> Option<Command<'c>>
        requires { IsSound (over_data self.now content.now) }
        ensures { IsFirst (over_data self.now content.now) result }
    {
        if self.stalled || self.attempt.number != 1 {
            return None;
        }
        match self.tpdu(content) {
            None => None,
            Some(due) => Command::new(due.header, due.content, self.wanted.le()),
        }
    }

    /// Whether all data of the command have left the terminal, as `Exchange::data_sent`.
    pub fn data_sent(&self, content: &[u8]) -> DataSent
        requires { IsSound (over_data self.now content.now) }
        ensures { TellsSent (over_data self.now content.now) result }
    {
        self.attempt
            .sent
            .and(HostEnd::at(self.end, content).data_sent())
    }

    /// Takes the answer to the TPDU that `tpdu` returns, as `Exchange::answered`.
    pub fn answered(
        &mut self,
        bytes: &[u8],
        status: Status,
        content: &[u8],
    ) -> Result<(), AnswerFault>
        requires { IsSound (over_data self.old content.now) }
        ensures answering { IsAnswering (over_data self.old content.now) bytes.now status result
            (over_data self.new content.now) }
        ensures sound { IsSound (over_data self.new content.now) }
        ensures limit { self.new.gather.limit ≡ self.old.gather.limit }
    {
        let mut exchange = Exchange {
            end: HostEnd::at(self.end, content),
            gather: mem::replace(&mut self.gather, Gather::without_room(self.alloc)),
            attempt: self.attempt,
            wanted: self.wanted,
            stalled: self.stalled,
        };
        let taken = exchange.answered(bytes, status);
        *self = ExchangeMark::of(self.alloc, exchange);
        taken
    }

    /// The status of the last TPDU and all data, if the exchange has ended. `None` if it is in
    /// progress or has failed.
    pub fn answer(&self, content: &[u8]) -> Option<(Status, &[u8])>
        requires { IsSound (over_data self.now content.now) }
        ensures { IsAnswer (over_data self.now content.now)
            (option_map (λ a. (a.0, a.1.now)) result) }
    {
        match self.turn(content) {
            HostTurn::Done(status) => Some((status, self.gather.bytes())),
            _ => None,
        }
    }
}
