//! The terminal's side of one command: its TPDUs in turn, and the data that they bring.
ghost use Rattle.std.specs.Prelude.{◌≡◌, ◌≤◌, ℕ, ◌↔◌, List, [], length, take, Option, Some, None, true, false, IfOk, IsSome, IfSome};
ghost use Rattle.std.specs.Option.{option_map};
ghost use Rattle.apdu_core.specs.declared.header.Header.{Header};
ghost use Rattle.apdu_core.specs.StatusWord.{StatusWord};
ghost use Rattle.apdu_core.specs.HeaderBytes.{ins_is_valid};
ghost use Rattle.apdu_core.specs.CommandBytes.{HasSizes};
ghost use Rattle.t0_core.specs.Front.{fresh};
ghost use Rattle.t0_core.specs.HostSide.{HostStandsAt, IsRequest};
ghost use Rattle.t0_core.specs.HostMark.{HasOnly};
ghost use Rattle.t0_core.specs.Buffers.{Steps};
ghost use Rattle.t0_core.specs.TpduBytes.{asked_of, due_by};
ghost use Rattle.t0_core.specs.Room.{Room};
ghost use Rattle.exchange_core.specs.ExchangeSide.{UnderWay, IsKept, GoesByCharacters, HostOpensBy, asks_card, response_limit};
ghost use Rattle.exchange_core.specs.OwnedExchange.{of_parts};

mod exchange_mark;
mod handing;
mod owned;
mod taking;

use crate::answer::Answer;
use crate::attempt::Attempt;
use crate::handed_out::HandedOut;
use crate::start_fault::StartFault;
use crate::taken::Taken;
use crate::wanted::Wanted;
pub use apdu_core::RESPONSE_LIMIT;
use apdu_core::{Command, Header, Status};
pub use exchange_mark::ExchangeMark;
use handing::handed_by;
pub use owned::OwnedExchange;
use std::alloc::{AllocError, Allocator, Global};
use std::marker::Model;
use t0_core::{AnswerFault, DataSent, Gather, HostEnd, HostTurn, LineFault, WholeTpdu};
use taking::{all_taken_by, taken_by};

/// The terminal's side of one command (ISO/IEC 7816-3, clause 12): its TPDU, and a GET RESPONSE
/// after each `61XX` while the command wants more data. After `6CXX` a TPDU that asks for data is
/// sent once more with that count, if it is not above what is still wanted (profile).
///
/// `next` returns each character to send, and `take` takes each character of the card, until `next`
/// returns `Done`, or `Failed` after an error. After `Done`, `into_answer` returns the status and
/// the data. `tpdu` and `answered` pass whole TPDUs instead.
#[derive(Drop)]
pub struct Exchange<'a, A: Allocator = Global> {
    end: HostEnd<'a>,
    gather: Gather<A>,
    attempt: Attempt,
    wanted: Wanted,
    stalled: bool,
}

impl<'a, A: Allocator> Model for Exchange<'a, A> {
    ghost use Rattle.exchange_core.specs.ExchangeSide.{ExchangeOf, IsKept};

    ghost Value = { ExchangeOf };

    ghost view = { λ e. record {
      host = e.end;
      gather = e.gather;
      attempt = e.attempt;
      wanted = e.wanted;
      stalled =
          e.stalled;
    } };

    ghost invariant = { λ e. IsKept
        (record {
          host = e.end;
          gather = e.gather;
          attempt = e.attempt;
          wanted =
              e.wanted;
          stalled = e.stalled;
        }) };
}

impl<'a, A: Allocator> Exchange<'a, A> {
    ghost use Rattle.apdu_core.specs.CommandBytes as spec;
    ghost use Rattle.t0_core.specs.declared.end.End.TheVariants.{Terminal};
    ghost use Rattle.t0_core.specs.Dialogue.{Dialogue};
    ghost use Rattle.t0_core.specs.Front.{Front, GoesOn};
    ghost use Rattle.exchange_core.specs.Buffers.{IsHandingOut, IsTakingAll};
    ghost use Rattle.exchange_core.specs.ExchangeSteps.{IsTurn, IsTaking, SendsOne, TakesOne, IsAnswering, IsLimited};
    ghost use Rattle.exchange_core.specs.Gathered.{UnitOf, Gathers};
    ghost use Rattle.exchange_core.specs.ExchangeHistory.{ComesTo, unit_characters};
    ghost use Rattle.exchange_core.specs.SentData.{TellsSent};
    ghost use Rattle.t0_core.specs.Character.{Character};
    ghost use Rattle.exchange_core.specs.ExchangeSide.{exchange_turn};

    /// Begins the exchange of a command, and allocates room for `RESPONSE_LIMIT` bytes.
    ///
    /// # Errors
    ///
    /// - `AllocError`: memory ran out; there is no exchange.
    pub fn start(alloc: A, command: Command<'a>) -> Result<Exchange<'a, A>, AllocError>
        ensures begins { IfOk result (λ ex. UnderWay command.entry ex [] None fresh) }
        ensures led { IfOk result (λ ex. ComesTo command.entry [] ex) }
        ensures data { IfOk result (λ ex. HasOnly command.entry.content ex.host) }
        ensures limit { IfOk result (λ ex. ex.gather.limit ≡ RESPONSE_LIMIT) }
        ensures by_characters { IfOk result (λ ex. GoesByCharacters ex) }
    {
        Exchange::in_room(alloc, command, RESPONSE_LIMIT)
    }

    /// Begins the exchange of a command, and allocates room for `limit` data bytes of its response,
    /// 0 to `RESPONSE_LIMIT`. They count over all its TPDUs. One more is a fault, `TooLong`: the
    /// exchange has failed for good.
    ///
    /// # Errors
    ///
    /// There is no exchange after either:
    ///
    /// - `OverLimit`: `limit` exceeds `RESPONSE_LIMIT`; nothing was allocated.
    /// - `OutOfMemory`: memory ran out.
    pub fn start_within(
        alloc: A,
        command: Command<'a>,
        limit: usize,
    ) -> Result<Exchange<'a, A>, StartFault>
        ensures begins { IfOk result (λ ex. UnderWay command.entry ex [] None fresh) }
        ensures led { IfOk result (λ ex. ComesTo command.entry [] ex) }
        ensures data { IfOk result (λ ex. HasOnly command.entry.content ex.host) }
        ensures limited { IsLimited limit result }
        ensures by_characters { IfOk result (λ ex. GoesByCharacters ex) }
    {
        if limit > RESPONSE_LIMIT {
            return Err(StartFault::OverLimit);
        }
        Ok(Exchange::in_room(alloc, command, limit)?)
    }

    /// Begins the exchange of a command, and allocates room for `limit` bytes. The error is that
    /// memory ran out.
    pub fn in_room(
        alloc: A,
        command: Command<'a>,
        limit: usize,
    ) -> Result<Exchange<'a, A>, AllocError>
        requires { limit ≤ response_limit }
        ensures begins { IfOk result (λ ex. UnderWay command.entry ex [] None fresh) }
        ensures led { IfOk result (λ ex. ComesTo command.entry [] ex) }
        ensures data { IfOk result (λ ex. HasOnly command.entry.content ex.host) }
        ensures limit { IfOk result (λ ex. ex.gather.limit ≡ limit) }
        ensures by_characters { IfOk result (λ ex. GoesByCharacters ex) }
    {
        let gather = Gather::with_room(alloc, limit)?;
        Ok(Exchange::begin(gather, command))
    }

    /// Begins the exchange of another command in the room of this one, whose limit stays. This one
    /// is dropped in any state, and zeros overwrite its data.
    pub fn again<'b>(self, command: Command<'b>) -> Exchange<'b, A>
        ensures begins { UnderWay command.entry result [] None fresh }
        ensures led { ComesTo command.entry [] result }
        ensures limit { result.gather.limit ≡ self.entry.gather.limit }
        ensures by_characters { GoesByCharacters result }
    {
        let Exchange { mut gather, .. } = self;
        gather.clear();
        Exchange::begin(gather, command)
    }

    /// Begins the exchange of a command in this empty room.
    pub fn begin(gather: Gather<A>, command: Command<'a>) -> Exchange<'a, A>
        requires empty { gather.bytes ≡ [] }
        requires limit { gather.limit ≤ response_limit }
        ensures begins { UnderWay command.entry result [] None fresh }
        ensures data { HasOnly command.entry.content result.host }
        ensures room { result.gather ≡ gather }
        ensures by_characters { GoesByCharacters result }
    {
        let (end, attempt, wanted) = beginning(command);
        Exchange {
            end,
            gather,
            attempt,
            wanted,
            stalled: false,
        }
    }

    /// Returns what the terminal does next. A character that it returns counts as sent. Any other
    /// result changes nothing: `Listens`, `Done` with the last status, or `Failed` after a final
    /// error.
    #[inline(always)]
    pub fn next(&mut self) -> HostTurn
        ensures turn { IsTurn self.old result self.new }
        ensures data { (content : List ℕ) → HasOnly content self.old.host
            → HasOnly content self.new.host }

        // No character to send ends the exchange.
        ensures over { (status : StatusWord) → exchange_turn self.new ≡ HostTurn.Done status
            → self.new ≡ self.old }
    {
        if self.stalled {
            return HostTurn::Failed;
        }
        self.end.next()
    }

    /// Returns the data characters that the terminal sends next, all in one run, as `next` one at a
    /// time. Empty if it sends none next.
    #[inline(always)]
    pub fn next_data_run(&mut self) -> &'a [u8]
        ensures { Steps SendsOne self.old result.now self.new }
    {
        if self.stalled {
            return &[];
        }
        self.end.next_data_run()
    }

    /// Takes a character of the card. If it completes a status, the next TPDU begins, if one
    /// follows.
    ///
    /// # Errors
    ///
    /// The rules are the profile's:
    ///
    /// - `BadProcedure`: a procedure byte or SW1 is expected, and `byte` is neither; the exchange
    ///   has failed for good.
    /// - `TooLong`: a data character is expected, and the room is full; the exchange has failed for
    ///   good.
    /// - `Stalled`: a GET RESPONSE that the exchange added brought nothing, and the card announces
    ///   more; the exchange has failed for good. A command that is itself a GET RESPONSE may bring
    ///   nothing.
    /// - `AfterEnd`: the exchange has ended or failed; it is unchanged.
    /// - `NotListening`: the exchange has characters to send first; it is unchanged.
    #[inline(always)]
    pub fn take(&mut self, byte: u8) -> Result<(), LineFault>
        ensures taking { IsTaking self.old byte result self.new }
        ensures data { (content : List ℕ) → HasOnly content self.old.host
            → HasOnly content self.new.host }
    {
        taken_by(
            &mut self.end,
            &mut self.gather,
            &mut self.attempt,
            self.wanted,
            &mut self.stalled,
            byte,
        )
    }

    /// Takes the card's data characters at the front of `bytes` in one run, as `take` one at a
    /// time, as many as are expected and as there is room for. Returns how many.
    #[inline(always)]
    pub fn take_data(&mut self, bytes: &[u8]) -> usize
        ensures taken { Steps TakesOne self.old (take result bytes.now) self.new }
        ensures fits { result ≤ length bytes.now }
    {
        self.end.take_data_bytes(bytes, &mut self.gather)
    }

    /// Writes the next characters to `bytes`, as `next` one at a time, until the terminal has none
    /// to send or `bytes` is full. An empty buffer is full.
    pub fn next_bytes(&mut self, bytes: &mut [u8]) -> HandedOut
        ensures handed { IsHandingOut IsTurn self.old bytes.old bytes.new result self.new }
        ensures data { (content : List ℕ) → HasOnly content self.old.host
            → HasOnly content self.new.host }
    {
        handed_by(&mut self.end, self.stalled, bytes)
    }

    /// Takes the characters of a buffer, as `take` one at a time, up to the first error. The state
    /// after an error is that after the same error of `take`.
    pub fn take_bytes(&mut self, bytes: &[u8]) -> Taken
        ensures taking { IsTakingAll IsTaking self.old bytes.now result self.new }
        ensures data { (content : List ℕ) → HasOnly content self.old.host
            → HasOnly content self.new.host }
    {
        all_taken_by(
            &mut self.end,
            &mut self.gather,
            &mut self.attempt,
            self.wanted,
            &mut self.stalled,
            bytes,
        )
    }

    /// The next TPDU as a whole, for a transport of whole TPDUs. `None` if a character of it was
    /// sent already, or if the exchange has ended or failed.
    pub fn tpdu(&self) -> Option<WholeTpdu<'a>>
        ensures due { option_map asked_of result ≡ due_by self.now.host }
        ensures begins { (c : spec.Command) (units : List UnitOf) (first : Option Dialogue)
            (front : Front) → UnderWay c self.now units first front
            → IsSome result ↔ (front ≡ fresh) }
    {
        self.end.whole()
    }

    /// Whether all data of the command have left the terminal. A card may end a TPDU before it
    /// takes the data, with any status (ISO/IEC 7816-3, 10.3.3). The first that holds:
    ///
    /// - `NotAll`: data characters of the TPDU in progress, or of one that the card has ended, were
    ///   not sent.
    /// - `NotKnown`: a TPDU went as a whole (`answered`), or `BadProcedure` or `TooLong` ended one.
    /// - `All`: each data character was sent, or the command has no data.
    pub fn data_sent(&self) -> DataSent
        ensures { TellsSent self.now result }
    {
        self.attempt.sent.and(self.end.data_sent())
    }

    /// Takes the answer of the card to the TPDU that `tpdu` returns: its data, `bytes`, and its
    /// status. The next TPDU begins, if one follows.
    ///
    /// # Errors
    ///
    /// The first that holds; the rules are the profile's:
    ///
    /// - `NotDue`: `tpdu` returns `None`; the exchange is unchanged.
    /// - `NotAsked`: the TPDU asks for no data, and `bytes` is not empty; the exchange is
    ///   unchanged.
    /// - `TooMany`: `bytes` is longer than P3 states (`00`: 256); the exchange is unchanged.
    /// - `TooLong`: the room has too little space for `bytes`; the exchange has failed for good.
    /// - `Stalled`: a GET RESPONSE that the exchange added brought nothing, and the card announces
    ///   more; the exchange has failed for good.
    pub fn answered(&mut self, bytes: &[u8], status: Status) -> Result<(), AnswerFault>
        ensures answering { IsAnswering self.old bytes.now status result self.new }
        ensures data { (content : List ℕ) → HasOnly content self.old.host
            → HasOnly content self.new.host }
    {
        self.end.take_up_to_sw2(bytes, status, &mut self.gather)?;
        match self.take(status.sw2()) {
            Ok(()) => Ok(()),
            Err(_) => Err(AnswerFault::Stalled),
        }
    }

    /// Returns the room, with the gathered data.
    pub fn into_room(self) -> Gather<A>
        ensures { result ≡ self.entry.gather }
    {
        self.gather
    }

    /// Returns the answer, if the exchange has ended: the status of its last TPDU, and all data.
    /// The rest of the room is freed, unless memory for that runs out. `None` if the exchange is in
    /// progress or has failed; it is dropped.
    pub fn into_answer(self) -> Option<Answer<A>>
        ensures done { (status : StatusWord) → exchange_turn self.entry ≡ HostTurn.Done status →
            result ≡ Some (record { status = status; content = self.entry.gather.bytes }) }
        ensures led { (c : spec.Command) (came : List Character) → ComesTo c came self.entry →
            IfSome result (λ answer. (units : List UnitOf)
            × Gathers c units answer.content answer.status × (came ≡ unit_characters units)) }
        ensures undone { ((status : StatusWord) → exchange_turn self.entry ≡ HostTurn.Done status
            → ⊥) → result ≡ None }
    {
        let Exchange {
            end,
            gather,
            stalled,
            ..
        } = self;
        if stalled {
            return None;
        }
        match end.status() {
            None => None,
            Some(status) => Some(Answer::new(status, gather)),
        }
    }
}

/// Returns the parts of the exchange of a command that begins, apart from its room.
pub fn beginning(command: Command<'_>) -> (HostEnd<'_>, Attempt, Wanted)
    ensures begins { (gather : Room) → gather.bytes ≡ [] →
        UnderWay command.entry (of_parts result.0 gather result.1 result.2 false) [] None fresh }
    ensures kept { (gather : Room) → gather.bytes ≡ [] → gather.limit ≤ response_limit →
        IsKept (of_parts result.0 gather result.1 result.2 false) }
    ensures data { HasOnly command.entry.content result.0 }
    ensures by_characters { (gather : Room) →
        GoesByCharacters (of_parts result.0 gather result.1 result.2 false) }
{
    let header = command.header();
    let le = command.le();
    let (end, asks) = first_end(header, command.data(), le);
    let attempt = Attempt {
        header,
        asks,
        fetches: false,
        repeats: false,
        before: 0,
        number: 1,
        sent: DataSent::All,
    };
    (end, attempt, Wanted::by(le))
}

/// Returns the terminal's end of a command's first TPDU, and whether that TPDU asks the card for
/// data. It does in case 2; otherwise it sends the command's data.
fn first_end<'a>(header: Header, content: &'a [u8], le: Option<u16>) -> (HostEnd<'a>, bool)
    requires valid { ins_is_valid header.ins ≡ true }
    requires sizes { HasSizes content.now le }
    ensures opens { HostOpensBy header content.now le result.0 }
    ensures stands { HostStandsAt result.0 fresh }
    ensures keeps { IsRequest result.0 }
    ensures asks { result.1 ≡ asks_card result.0.direction }
    ensures data { HasOnly content.now result.0 }
{
    match le {
        Some(count) if content.is_empty() => (HostEnd::asking(header, count), true),
        _ => (HostEnd::sending(header, content), false),
    }
}
