//! An operation by whole commands, for `ApduTerminal`: the exchange of one of its commands, and the
//! rest of a put.
ghost use Rattle.std.specs.Prelude.{◌≡◌, ℕ, ◌<◌, ◌≤◌, List, [], ◌++◌, length, Some, IfOk, OnOk, is_ok, MatchResult, if◌then◌else◌, true, false};
ghost use Rattle.std.specs.Option.{option_map};
ghost use Rattle.apdu_core.specs.StatusWord.{ok};
ghost use Rattle.exchange_core.specs.ExchangeSide.{response_limit};
ghost use Rattle.apdu_terminal.specs.ApduSide.{ApduExchangeOf, IsResponding, answer_of, due_of, is_going};
ghost use Rattle.apdu_terminal.specs.ApduOperations.{Begins, GoesOver, GoesToNext, IsSettled, may_follow, with_exchange};
ghost use Rattle.apdu_terminal.specs.declared.stage.Stage.TheVariants.{Done};

use crate::exchange::ApduMark;
use crate::stage::Stage;
use apdu_core::{Command, Status, pieces};
use card_terminal::{Answer, Unsent, Wanted, put_header};
use std::alloc::{AllocError, Allocator, Global};
use std::marker::Model;
use t0_core::{AnswerFault, Gather};

/// An operation of an `ApduTerminal` that has begun: the exchange of its last command, and the rest
/// of a put.
#[derive(Drop)]
pub struct ApduOperation<A: Allocator + Copy = Global> {
    alloc: A,
    gather: Gather<A>,
    mark: ApduMark,
    /// The data of all commands, one after another.
    content: Vec<u8, A>,
    /// The data of the last command begin here..
    from: usize,
    /// ..and end here. The rest goes in more pieces of a put.
    until: usize,
    p1: u8,
    p2: u8,
}

impl<A: Allocator + Copy> Model for ApduOperation<A> {
    ghost use Rattle.std.specs.Prelude.{◌≡◌, ◌≤◌, length, drop};
    ghost use Rattle.std.specs.List.{slice_range};
    ghost use Rattle.apdu_terminal.specs.ApduSide.{of_mark};
    ghost use Rattle.apdu_terminal.specs.ApduOperations.{ApduOperationOf, IsPart};

    ghost Value = { ApduOperationOf };

    ghost view = { λ o. record {
      exchange = of_mark (slice_range o.content.items o.from o.until) o.gather o.mark;
      p1 = o.p1;
      p2 = o.p2;
      rest = drop o.until o.content.items;
    } };

    ghost invariant = { λ o. IsPart o.content.items o.from o.until
        (of_mark (slice_range o.content.items o.from o.until) o.gather o.mark) };
}

impl<A: Allocator + Copy> ApduOperation<A> {
    /// Begins an operation. This takes all its memory: room for `limit` bytes of a response, at
    /// most `RESPONSE_LIMIT`, and for a copy of the data.
    ///
    /// # Errors
    /// - `AllocError`: memory ran out. Nothing has begun.
    pub fn start(alloc: A, limit: usize, unsent: Unsent<'_>) -> Result<ApduOperation<A>, AllocError>
        requires { limit ≤ response_limit }
        ensures begins { IfOk result (λ o. Begins unsent.entry o) }
        ensures limit { IfOk result (λ o. o.exchange.gather.limit ≡ limit) }
    {
        let Unsent {
            first,
            p1,
            p2,
            rest,
        } = unsent;
        let data = first.data();
        let until = data.len();
        let mut content = Vec::new(alloc);
        copy_again(&mut content, data, rest)?;
        let gather = Gather::with_room(alloc, limit)?;
        let mark = ApduMark::first(&first, Wanted::by(first.le()));
        Ok(ApduOperation {
            alloc,
            gather,
            mark,
            content,
            from: 0,
            until,
            p1,
            p2,
        })
    }

    /// Begins another operation in place of this one, as `start`, in the same memory. Takes more
    /// only for longer data than any before.
    ///
    /// # Errors
    /// - `AllocError`: memory ran out. Nothing changes.
    pub fn again(&mut self, unsent: Unsent<'_>) -> Result<(), AllocError>
        ensures begins { MatchResult result (λ _. Begins unsent.entry self.new)
            (λ _. self.new ≡ self.old) }
        ensures limit { self.new.exchange.gather.limit ≡ self.old.exchange.gather.limit }
    {
        let Unsent {
            first,
            p1,
            p2,
            rest,
        } = unsent;
        let data = first.data();
        copy_again(&mut self.content, data, rest)?;
        self.from = 0;
        self.until = data.len();
        self.p1 = p1;
        self.p2 = p2;
        self.gather.clear();
        self.mark = ApduMark::first(&first, Wanted::by(first.le()));
        Ok(())
    }

    /// Returns whether a command is to be sent.
    pub fn is_going(&self) -> bool
        ensures { result ≡ is_going self.now.exchange.stage }
    {
        matches!(self.mark.stage, Stage::Going)
    }

    /// Returns the command to send now, or `None` if the operation has ended or failed.
    pub fn apdu(&self) -> Option<Command<'_>>
        ensures { result ≡ due_of self.now.exchange }
    {
        self.mark.apdu(&self.content[self.from..self.until])
    }

    /// Takes the response to the command that `apdu` returns, as `ApduExchange::responded`. After
    /// the status `9000` the next piece of a put begins, if one follows.
    pub fn responded(&mut self, bytes: &[u8], status: Status) -> Result<(), AnswerFault>
        ensures responding { (ex : ApduExchangeOf)
            × IsResponding self.old.exchange bytes.now status result ex
            × GoesOver (with_exchange self.old ex) self.new }
        ensures falls { OnOk result (may_follow (Some self.new) < may_follow (Some self.old)) }
    {
        let content = &self.content[self.from..self.until];
        let room = &mut self.gather;
        let (taken, keeps) = self
            .mark
            .responded(self.alloc, room, content, bytes, status);
        if !keeps {
            self.from = self.until;
        }
        self.go_on();
        taken
    }

    /// Begins the exchange of the next piece of a put, if the last got `9000` and one follows.
    fn go_on(&mut self)
        ensures { GoesOver self.old self.new }
    {
        let is_last = self.until == self.content.as_slice().len();
        if is_last {
            return;
        }
        let stage = self.mark.stage;
        match stage {
            Stage::Done(status) if status.is_ok() => self.begin_next(),
            _ => {}
        }
    }

    /// Begins the exchange of the next piece of a put, in the same room.
    fn begin_next(&mut self)
        requires more { self.old.rest ≡ [] → ⊥ }
        requires done { self.old.exchange.stage ≡ Done ok }
        ensures { GoesToNext self.old self.new }
    {
        let mut commands = pieces(put_header(self.p1, self.p2), &self.content[self.until..]);
        let Some(next) = commands.next() else {
            unreachable!()
        };
        self.from = self.until;
        self.until += next.data().len();
        self.gather.clear();
        self.mark = ApduMark::first(&next, Wanted::by(next.le()));
    }

    /// Returns the status and the data of the last command, or `None` if the operation is in
    /// progress or has failed.
    pub fn answer(&self) -> Option<(Status, &[u8])>
        ensures { answer_of self.now.exchange ≡ option_map (λ a. (a.0, a.1.now)) result }
    {
        match self.mark.stage {
            Stage::Done(status) => Some((status, self.gather.bytes())),
            _ => None,
        }
    }

    /// Returns what `answer` does as an `Answer`, and drops the operation. Room that the data don't
    /// take is freed.
    pub fn into_answer(self) -> Option<Answer<A>>
        ensures { answer_of self.exchange ≡ option_map (λ a. (a.status, a.content)) result }
    {
        let stage = self.mark.stage;
        let ApduOperation { gather, .. } = self;
        match stage {
            Stage::Done(status) => Some(Answer::new(status, gather)),
            _ => None,
        }
    }
}

/// Makes `copy` a copy of both parts, in its own room if they fit. If memory ran out, returns
/// `AllocError` and keeps the items.
fn copy_again<A: Allocator>(
    copy: &mut Vec<u8, A>,
    front: &[u8],
    rest: &[u8],
) -> Result<(), AllocError>
    requires { length front.now ≤ 255 }
    ensures { copy.new.items ≡ (if is_ok result then front.now ++ rest.now else copy.old.items) }
{
    let len = front.len() + rest.len();
    copy.reserve_exact(len.saturating_sub(copy.len()))?;
    copy.clear();
    if copy.extend_from_slice(front).is_err() || copy.extend_from_slice(rest).is_err() {
        unreachable!()
    }
    Ok(())
}
