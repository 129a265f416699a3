//! An exchange that borrows nothing, so that its owner can store it between two characters.
ghost use Rattle.std.specs.Prelude.{◌≡◌, ◌≤◌, ℕ, List, [], None, Some, IfOk, IsSome, ◌↔◌, Option};
ghost use Rattle.std.specs.Option.{option_map};
ghost use Rattle.t0_core.specs.Front.{fresh};
ghost use Rattle.t0_core.specs.TpduBytes.{asked_of, due_by};
ghost use Rattle.exchange_core.specs.ExchangeSide.{UnderWay, GoesByCharacters, response_limit};
ghost use Rattle.exchange_core.specs.ExchangeHistory.{ComesTo};
ghost use Rattle.exchange_core.specs.Buffers.{IsHandingOut, IsTakingAll};
ghost use Rattle.exchange_core.specs.Unsent.{IsFirst};
ghost use Rattle.exchange_core.specs.SentData.{TellsSent};
ghost use Rattle.exchange_core.specs.ExchangeSteps.{IsTurn, IsTaking, IsAnswering, IsAnswer, IsLimited};

use crate::exchange::RESPONSE_LIMIT;
use crate::exchange::exchange_mark::ExchangeMark;
use crate::handed_out::HandedOut;
use crate::start_fault::StartFault;
use crate::taken::Taken;
use apdu_core::{Command, Status};
use std::alloc::{AllocError, Allocator, Global};
use std::marker::Model;
use t0_core::{AnswerFault, DataSent, HostTurn, LineFault, WholeTpdu};

/// An `Exchange` that owns a copy of its command's data. Contracts see it as an exchange.
#[derive(Drop)]
pub struct OwnedExchange {
    content: Vec<u8>,
    exchange: ExchangeMark,
}

impl Model for OwnedExchange {
    ghost use Rattle.exchange_core.specs.ExchangeSide.{ExchangeOf};
    ghost use Rattle.exchange_core.specs.OwnedExchange.{over_data, IsSound};

    ghost Value = { ExchangeOf };

    ghost view = { λ e. over_data e.exchange e.content.items };

    ghost invariant = { λ e. IsSound (over_data e.exchange e.content.items) };
}

impl OwnedExchange {
    ghost use Rattle.apdu_core.specs.CommandBytes as spec;
    ghost use Rattle.t0_core.specs.Dialogue.{Dialogue};
    ghost use Rattle.t0_core.specs.Front.{Front};
    ghost use Rattle.exchange_core.specs.Gathered.{UnitOf};

    /// Begins the exchange of a command. Allocates room for `RESPONSE_LIMIT` bytes, and a copy of
    /// the command's data. The calls of an exchange allocate nothing.
    ///
    /// # Errors
    ///
    /// - `AllocError`: memory ran out; there is no exchange.
    pub fn start(alloc: Global, command: Command<'_>) -> Result<OwnedExchange, AllocError>
        ensures begins { IfOk result (λ ex. UnderWay command.entry ex [] None fresh) }
        ensures led { IfOk result (λ ex. ComesTo command.entry [] ex) }
        ensures limit { IfOk result (λ ex. ex.gather.limit ≡ response_limit) }
        ensures by_characters { IfOk result (λ ex. GoesByCharacters ex) }
    {
        OwnedExchange::in_room(alloc, command, RESPONSE_LIMIT)
    }

    /// Begins the exchange of a command. Allocates room for `limit` data bytes of its response, 0
    /// to `RESPONSE_LIMIT`, and a copy of the command's data. The bytes count over all its TPDUs.
    /// One more is a fault, `TooLong`: the exchange has failed for good.
    ///
    /// # Errors
    ///
    /// There is no exchange after either:
    ///
    /// - `OverLimit`: `limit` exceeds `RESPONSE_LIMIT`; nothing was allocated.
    /// - `OutOfMemory`: memory ran out.
    pub fn start_within(
        alloc: Global,
        command: Command<'_>,
        limit: usize,
    ) -> Result<OwnedExchange, StartFault>
        ensures begins { IfOk result (λ ex. UnderWay command.entry ex [] None fresh) }
        ensures led { IfOk result (λ ex. ComesTo command.entry [] ex) }
        ensures limited { IsLimited limit result }
        ensures by_characters { IfOk result (λ ex. GoesByCharacters ex) }
    {
        if limit > RESPONSE_LIMIT {
            return Err(StartFault::OverLimit);
        }
        Ok(OwnedExchange::in_room(alloc, command, limit)?)
    }

    /// Begins the exchange of a command, and allocates room for `limit` bytes.
    fn in_room(
        alloc: Global,
        command: Command<'_>,
        limit: usize,
    ) -> Result<OwnedExchange, AllocError>
        requires { limit ≤ response_limit }
        ensures begins { IfOk result (λ ex. UnderWay command.entry ex [] None fresh) }
        ensures led { IfOk result (λ ex. ComesTo command.entry [] ex) }
        ensures limit { IfOk result (λ ex. ex.gather.limit ≡ limit) }
        ensures by_characters { IfOk result (λ ex. GoesByCharacters ex) }
    {
        let content = Vec::from_slice(alloc, command.data())?;
        let exchange = ExchangeMark::start(alloc, command, limit)?;
        Ok(OwnedExchange { content, exchange })
    }

    /// Returns what the terminal does next, as `Exchange::next`.
    pub fn next(&mut self) -> HostTurn
        ensures { IsTurn self.old result self.new }
    {
        self.exchange.next(self.content.as_slice())
    }

    /// Takes a character of the card, with the errors of `Exchange::take`.
    pub fn take(&mut self, byte: u8) -> Result<(), LineFault>
        ensures { IsTaking self.old byte result self.new }
    {
        self.exchange.take(byte, self.content.as_slice())
    }

    /// Writes the next characters to `bytes`, as `Exchange::next_bytes`.
    pub fn next_bytes(&mut self, bytes: &mut [u8]) -> HandedOut
        ensures { IsHandingOut IsTurn self.old bytes.old bytes.new result self.new }
    {
        self.exchange.next_bytes(bytes, self.content.as_slice())
    }

    /// Takes the characters of a buffer, as `Exchange::take_bytes`.
    pub fn take_bytes(&mut self, bytes: &[u8]) -> Taken
        ensures { IsTakingAll IsTaking self.old bytes.now result self.new }
    {
        self.exchange.take_bytes(bytes, self.content.as_slice())
    }

    /// The next TPDU as a whole, as `Exchange::tpdu`.
    pub fn tpdu(&self) -> Option<WholeTpdu<'_>>
        ensures due { option_map asked_of result ≡ due_by self.now.host }
        ensures begins { (c : spec.Command) (units : List UnitOf) (first : Option Dialogue)
            (front : Front) → UnderWay c self.now units first front
            → IsSome result ↔ (front ≡ fresh) }
    {
        self.exchange.tpdu(self.content.as_slice())
    }

    /// The command, if nothing of the exchange was sent: it can still be sent in another way.
    /// `None` after the first character, answer or final error.
    pub fn unsent(&self) -> Option<Command<'_>>
        ensures { IsFirst self.now result }
    {
        self.exchange.unsent(self.content.as_slice())
    }

    /// Whether all data of the command have left the terminal, as `Exchange::data_sent`.
    pub fn data_sent(&self) -> DataSent
        ensures { TellsSent self.now result }
    {
        self.exchange.data_sent(self.content.as_slice())
    }

    /// Takes the answer to the TPDU that `tpdu` returns, with the errors of `Exchange::answered`.
    pub fn answered(&mut self, bytes: &[u8], status: Status) -> Result<(), AnswerFault>
        ensures { IsAnswering self.old bytes.now status result self.new }
    {
        self.exchange
            .answered(bytes, status, self.content.as_slice())
    }

    /// The status of the last TPDU and all data, if the exchange has ended. `None` if it is in
    /// progress or has failed.
    pub fn answer(&self) -> Option<(Status, &[u8])>
        ensures { IsAnswer self.now (option_map (λ a. (a.0, a.1.now)) result) }
    {
        self.exchange.answer(self.content.as_slice())
    }
}
