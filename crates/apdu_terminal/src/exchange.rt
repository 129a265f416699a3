//! The terminal's side of one command and all that follows it, by whole commands.
ghost use Rattle.std.specs.Prelude.{◌≡◌, ◌≤◌, OnOk, ◌↔◌, List, [], Some, false, IfOk, IfSome};
ghost use Rattle.std.specs.Option.{option_map};
ghost use Rattle.apdu_core.specs.CommandBytes as spec;
ghost use Rattle.apdu_core.specs.StatusWord.{StatusWord};
ghost use Rattle.exchange_core.specs.Gathered.{wanted_by};
ghost use Rattle.exchange_core.specs.ExchangeSide.{response_limit};
ghost use Rattle.apdu_terminal.specs.Apdus.{Pair, Brings};
ghost use Rattle.apdu_terminal.specs.ApduSide.{ComesTo, IsLimitedTo, IsResponding, KeepsData, answer_of, command_of, due_of, has_failed, response_fault};
ghost use Rattle.apdu_terminal.specs.declared.stage.Stage.TheVariants as stage;

mod apdu_mark;

use crate::stage::Stage;
use apdu_core::{Command, Status};
pub(crate) use apdu_mark::ApduMark;
use card_terminal::{Next, RESPONSE_LIMIT, StartFault, Wanted};
use std::alloc::{AllocError, Allocator, Global};
use std::marker::Model;
use t0_core::{AnswerFault, Gather};

/// The terminal's side of one command. The command is sent first. After `6CXX` a command of case 2
/// is sent once more with that count, if it is not above what is still wanted (profile). After
/// `61XX` GET RESPONSE follows, while more is wanted.
///
/// Send what `apdu` returns, and give `responded` the response, until `apdu` is `None`. Then
/// `answer` returns the status and the data, or `None` if the exchange has failed.
#[derive(Drop)]
pub struct ApduExchange<'a, A: Allocator = Global> {
    content: &'a [u8],
    gather: Gather<A>,
    mark: ApduMark,
}

impl<'a, A: Allocator> Model for ApduExchange<'a, A> {
    ghost use Rattle.apdu_terminal.specs.ApduSide.{ApduExchangeOf, IsSound, of_mark};

    ghost Value = { ApduExchangeOf };

    ghost view = { λ e. of_mark e.content.now e.gather e.mark };

    ghost invariant = { λ e. IsSound (of_mark e.content.now e.gather e.mark) };
}

impl<'a, A: Allocator> ApduExchange<'a, A> {
    /// Starts the exchange of a command, with room for `RESPONSE_LIMIT` bytes of the response.
    ///
    /// # Errors
    /// - `AllocError`: memory ran out. Nothing has begun.
    pub fn start(alloc: A, command: Command<'a>) -> Result<ApduExchange<'a, A>, AllocError>
        ensures led { IfOk result
            (λ ex. ComesTo command.entry (wanted_by command.entry.le) [] ex) }
        ensures limit { IfOk result (λ ex. ex.gather.limit ≡ RESPONSE_LIMIT) }
    {
        let wanted = Wanted::by(command.le());
        ApduExchange::wanting(alloc, command, wanted, RESPONSE_LIMIT)
    }

    /// Starts the exchange of a command, with room for `limit` bytes of the response, 0 to
    /// `RESPONSE_LIMIT` (profile). More data are a fault, `TooLong`.
    ///
    /// # Errors
    /// - `OverLimit`: the limit is above `RESPONSE_LIMIT`. Nothing has begun.
    /// - `OutOfMemory`: memory for the response ran out. Nothing has begun.
    pub fn start_within(
        alloc: A,
        command: Command<'a>,
        limit: usize,
    ) -> Result<ApduExchange<'a, A>, StartFault>
        ensures led { IfOk result
            (λ ex. ComesTo command.entry (wanted_by command.entry.le) [] ex) }
        ensures limited { IsLimitedTo limit result }
    {
        if limit > RESPONSE_LIMIT {
            return Err(StartFault::OverLimit);
        }
        let wanted = Wanted::by(command.le());
        Ok(ApduExchange::wanting(alloc, command, wanted, limit)?)
    }

    /// Starts an exchange that wants `wanted`, with room for `limit` bytes of the response. Returns
    /// `AllocError` if memory ran out.
    pub(crate) fn wanting(
        alloc: A,
        command: Command<'a>,
        wanted: Wanted,
        limit: usize,
    ) -> Result<ApduExchange<'a, A>, AllocError>
        requires { limit ≤ response_limit }
        ensures led { IfOk result (λ ex. ComesTo command.entry wanted [] ex) }
        ensures limit { IfOk result (λ ex. ex.gather.limit ≡ limit) }
        ensures command { IfOk result (λ ex. command_of ex ≡ command.entry) }
        ensures going { IfOk result (λ ex. ex.stage ≡ stage.Going) }
        ensures empty { IfOk result (λ ex. ex.gather.bytes ≡ []) }
    {
        let gather = Gather::with_room(alloc, limit)?;
        Ok(ApduExchange::begin(gather, command, wanted))
    }

    /// Starts an exchange that wants `wanted`, in an empty room.
    pub(crate) fn begin(
        gather: Gather<A>,
        command: Command<'a>,
        wanted: Wanted,
    ) -> ApduExchange<'a, A>
        requires empty { gather.bytes ≡ [] }
        requires limit { gather.limit ≤ response_limit }
        ensures led { ComesTo command.entry wanted [] result }
        ensures command { command_of result ≡ command.entry }
        ensures going { result.stage ≡ stage.Going }
        ensures room { result.gather ≡ gather }
    {
        ApduExchange {
            content: command.data(),
            gather,
            mark: ApduMark::first(&command, wanted),
        }
    }

    /// Returns an exchange that has ended with this status, without data. Returns `AllocError` if
    /// memory ran out.
    pub(crate) fn refused(
        alloc: A,
        command: Command<'a>,
        status: Status,
    ) -> Result<ApduExchange<'a, A>, AllocError>
        ensures over { IfOk result (λ ex. ex.stage ≡ stage.Done status) }
        ensures empty { IfOk result (λ ex. ex.gather.bytes ≡ []) }
    {
        let exchange = ApduExchange::wanting(alloc, command, Wanted::Bytes(0), 0)?;
        let ApduExchange {
            content,
            gather,
            mark,
        } = exchange;
        let stage = Stage::Done(status);
        Ok(ApduExchange {
            content,
            gather,
            mark: ApduMark { stage, ..mark },
        })
    }

    /// Returns the command to send now, or `None` if the exchange has ended or failed.
    pub fn apdu(&self) -> Option<Command<'a>>
        ensures { result ≡ due_of self.now }
    {
        self.mark.apdu(self.content)
    }

    /// Returns the fault of a response with `came` bytes of data, if it is one.
    fn fault(&self, came: usize) -> Option<AnswerFault>
        ensures { result ≡ response_fault self.now came }
    {
        if !matches!(self.mark.stage, Stage::Going) {
            return Some(AnswerFault::NotDue);
        }
        match self.mark.le {
            None if came > 0 => Some(AnswerFault::NotAsked),
            Some(le) if came > usize::from(le) => Some(AnswerFault::TooMany),
            _ if self.gather.has_room(came) => None,
            _ => Some(AnswerFault::TooLong),
        }
    }

    /// Takes the response to the command that `apdu` returns: its data and its status. If a command
    /// follows, `apdu` returns that one next.
    ///
    /// # Errors
    /// In this order (profile):
    /// - `NotDue`: `apdu` is `None`. Nothing changes.
    /// - `NotAsked`: data came, and the command has no Le. Nothing changes.
    /// - `TooMany`: more data came than Le asks for. Nothing changes.
    /// - `TooLong`: the data exceed the room. The exchange has failed for good.
    /// - `Stalled`: a GET RESPONSE of the exchange's own, with its repetition, brought no data, and
    ///   the card announces more. The exchange has failed for good.
    pub fn responded(&mut self, bytes: &[u8], status: Status) -> Result<(), AnswerFault>
        ensures responding { IsResponding self.old bytes.now status result self.new }
        ensures data { KeepsData self.old self.new }
        ensures taken { OnOk result (has_failed self.new.stage ≡ false) }
    {
        if let Some(fault) = self.fault(bytes.len()) {
            if matches!(fault, AnswerFault::TooLong) {
                self.mark.stage = Stage::Failed;
            }
            return Err(fault);
        }
        self.gather.extend(bytes);
        let gathered = self.gather.bytes().len();
        let left = self.mark.wanted.less(gathered);
        match self.mark.attempt.followed(gathered, left, status) {
            Next::Asks { attempt, count } => {
                self.content = &[];
                self.mark.le = Some(count);
                self.mark.attempt = attempt;
                Ok(())
            }
            Next::Stalls => {
                self.mark.stage = Stage::Failed;
                Err(AnswerFault::Stalled)
            }
            Next::Ends => {
                self.mark.stage = Stage::Done(status);
                Ok(())
            }
        }
    }

    /// Returns the last status, or `None` if the exchange is in progress or has failed.
    pub fn status(&self) -> Option<Status>
        ensures { (status : StatusWord) → (result ≡ Some status)
            ↔ (self.now.stage ≡ stage.Done status) }
    {
        match self.mark.stage {
            Stage::Done(status) => Some(status),
            _ => None,
        }
    }

    /// Returns the data received so far.
    pub fn data(&self) -> &[u8]
        ensures { result.now ≡ self.now.gather.bytes }
    {
        self.gather.bytes()
    }

    /// Returns the last status and all data, or `None` if the exchange is in progress or has
    /// failed.
    pub fn answer(&self) -> Option<(Status, &[u8])>
        ensures done { answer_of self.now ≡ option_map (λ a. (a.0, a.1.now)) result }
        ensures led { (c : spec.Command) (wanted : Wanted) (pairs : List Pair)
            → ComesTo c wanted pairs self.now
            → IfSome result (λ a. Brings c wanted pairs a.1.now a.0) }
    {
        match self.mark.stage {
            Stage::Done(status) => Some((status, self.gather.bytes())),
            _ => None,
        }
    }

    /// Returns the room, with the data received so far.
    pub(crate) fn into_gather(self) -> Gather<A>
        ensures { result ≡ self.entry.gather }
    {
        let ApduExchange { gather, .. } = self;
        gather
    }
}
