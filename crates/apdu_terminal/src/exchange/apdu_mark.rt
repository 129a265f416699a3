//! An exchange of whole commands without its command's data and its room, which its owner stores.
ghost use Rattle.std.specs.Prelude.{◌≡◌, ◌≤◌, [], true};
ghost use Rattle.apdu_core.specs.CommandBytes.{HasSizes};
ghost use Rattle.apdu_core.specs.HeaderBytes.{ins_is_valid};
ghost use Rattle.t0_core.specs.Room.{Room};
ghost use Rattle.exchange_core.specs.ExchangeSide.{response_limit};
ghost use Rattle.apdu_terminal.specs.ApduSide.{ComesTo, IsResponding, IsSound, due_of, kept_data, of_mark};
ghost use Rattle.apdu_terminal.specs.declared.stage.Stage.TheVariants.{Going};

use crate::exchange::ApduExchange;
use crate::stage::Stage;
use apdu_core::{Command, Status};
use card_terminal::{Attempt, Wanted};
use std::alloc::Allocator;
use std::mem;
use t0_core::{AnswerFault, DataSent, Gather};

/// The state of an exchange without the data of its command and the room for its response. Its
/// owner stores both, and passes them to each call.
#[derive(Clone, Copy, Debug)]
pub struct ApduMark {
    pub(crate) le: Option<u16>,
    pub(crate) attempt: Attempt,
    pub(crate) wanted: Wanted,
    pub(crate) stage: Stage,
}

impl ApduMark {
    /// Returns the mark of a command that is not sent yet. Its exchange wants `wanted`, and its
    /// room is empty.
    pub fn first(command: &Command<'_>, wanted: Wanted) -> ApduMark
        ensures led { (gather : Room) → gather.bytes ≡ [] →
            ComesTo command.now wanted [] (of_mark command.now.content gather result) }
        ensures sound { (gather : Room) → gather.bytes ≡ [] → gather.limit ≤ response_limit →
            IsSound (of_mark command.now.content gather result) }
        ensures header { result.attempt.header ≡ command.now.header }
        ensures le { result.le ≡ command.now.le }
        ensures going { result.stage ≡ Going }
    {
        let le = command.le();
        ApduMark {
            le,
            attempt: Attempt {
                header: command.header(),
                asks: command.data().is_empty() && le.is_some(),
                fetches: false,
                repeats: false,
                before: 0,
                number: 1,
                sent: DataSent::NotKnown,
            },
            wanted,
            stage: Stage::Going,
        }
    }

    /// Returns the command to send now, as `ApduExchange::apdu`. `content` is its data.
    pub fn apdu<'c>(&self, content: &'c [u8]) -> Option<Command<'c>>
        requires valid { ins_is_valid self.now.attempt.header.ins ≡ true }
        requires sizes { HasSizes content.now self.now.le }
        ensures { (gather : Room) → result ≡ due_of (of_mark content.now gather self.now) }
    {
        match self.stage {
            Stage::Going => Command::new(self.attempt.header, content, self.le),
            _ => None,
        }
    }

    /// Takes the response to the command that `apdu` returns, as `ApduExchange::responded`. Also
    /// returns whether the data are kept: if not, the next command has no data.
    pub fn responded<A: Allocator + Copy>(
        &mut self,
        alloc: A,
        gather: &mut Gather<A>,
        content: &[u8],
        bytes: &[u8],
        status: Status,
    ) -> (Result<(), AnswerFault>, bool)
        requires { IsSound (of_mark content.now gather.old self.old) }
        ensures responding { IsResponding (of_mark content.now gather.old self.old) bytes.now
            status result.0 (of_mark (kept_data result.1 content.now) gather.new self.new) }
        ensures sound { IsSound (of_mark (kept_data result.1 content.now) gather.new self.new) }
    {
        let mut exchange = ApduExchange {
            content,
            gather: mem::replace(gather, Gather::without_room(alloc)),
            mark: *self,
        };
        let taken = exchange.responded(bytes, status);
        let keeps = !exchange.content.is_empty();
        *self = exchange.mark;
        *gather = exchange.into_gather();
        (taken, keeps)
    }
}
