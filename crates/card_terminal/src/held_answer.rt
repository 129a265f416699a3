//! The answer to an operation, in a room that the next operation can use again.
ghost use Rattle.std.specs.Prelude.{◌≡◌, []};
ghost use Rattle.exchange_core.specs.ExchangeSide.{response_limit};

use apdu_core::Status;
use exchange_core::Answer;
use std::alloc::{Allocator, Global};
use std::marker::Model;
use t0_core::Gather;

/// The answer to an operation or a command, in a room for `RESPONSE_LIMIT` bytes. `into_room` gives
/// the room to the next operation.
#[derive(Drop)]
pub struct HeldAnswer<A: Allocator = Global> {
    status: Status,
    gather: Gather<A>,
}

impl<A: Allocator> Model for HeldAnswer<A> {
    ghost use Rattle.std.specs.Prelude.{◌≡◌};
    ghost use Rattle.apdu_core.specs.Shared.{Reply};
    ghost use Rattle.exchange_core.specs.ExchangeSide.{response_limit};

    ghost Value = { Reply };

    ghost view = { λ a. record { status = a.status; content = a.gather.bytes } };

    ghost invariant = { λ a. a.gather.limit ≡ response_limit };
}

impl<A: Allocator> HeldAnswer<A> {
    /// Makes an answer of the data in this room.
    pub(crate) fn new(status: Status, gather: Gather<A>) -> HeldAnswer<A>
        requires { gather.limit ≡ response_limit }
        ensures { result ≡ record { status = status; content = gather.bytes } }
    {
        HeldAnswer { status, gather }
    }

    /// The status word.
    pub fn status(&self) -> Status
        ensures { result ≡ self.now.status }
    {
        self.status
    }

    /// The data from the card.
    pub fn data(&self) -> &[u8]
        ensures { result.now ≡ self.now.content }
    {
        self.gather.bytes()
    }

    /// Returns the answer, and frees the rest of the room, unless memory for that runs out.
    pub fn into_answer(self) -> Answer<A>
        ensures { result ≡ self }
    {
        let HeldAnswer { status, gather } = self;
        Answer::new(status, gather)
    }

    /// Returns the room, empty, for the next operation. Zeros overwrite the data.
    pub fn into_room(self) -> Gather<A>
        ensures { result ≡ record { bytes = []; limit = response_limit } }
    {
        let HeldAnswer { mut gather, .. } = self;
        gather.clear();
        gather
    }
}
