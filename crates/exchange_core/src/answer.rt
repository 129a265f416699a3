//! The answer to a command: a status, and the data that an exchange gathered.
ghost use Rattle.std.specs.Prelude.{◌≡◌, IfSome, IfNone};
ghost use Rattle.tlv_core.specs.Object.{Object};
ghost use Rattle.exchange_core.specs.OneObject.{IsOneObject};

use apdu_core::Status;
use std::alloc::{Allocator, Global};
use std::marker::Model;
use t0_core::Gather;
use tlv_core::{Obj, Objects};

/// The answer to a command: the data that all its TPDUs brought, and the status of the last. The
/// answer to an operation is that to its last command.
#[derive(Drop)]
pub struct Answer<A: Allocator = Global> {
    status: Status,
    content: Vec<u8, A>,
}

impl<A: Allocator> Model for Answer<A> {
    ghost use Rattle.apdu_core.specs.Shared.{Reply};

    ghost Value = { Reply };

    ghost view = { λ a. record { status = a.status; content = a.content.items } };
}

impl<A: Allocator> Answer<A> {
    /// Makes an answer of the gathered data. Their room shrinks to their size, unless memory for
    /// that runs out.
    pub fn new(status: Status, gather: Gather<A>) -> Answer<A>
        ensures { result ≡ record { status = status; content = gather.bytes } }
    {
        Answer {
            status,
            content: gather.into_bytes(),
        }
    }

    /// The status word.
    pub fn status(&self) -> Status
        ensures { result ≡ self.now.status }
    {
        self.status
    }

    /// The data from the card.
    pub fn data(&self) -> &[u8]
        ensures { result.now ≡ self.now.content }
    {
        self.content.as_slice()
    }

    /// The data as one data object, if they are its tag, length and value and nothing else, not
    /// even padding. A constructed one must hold a list of objects, within level 16. Otherwise
    /// `None`. The status has no effect.
    pub fn object(&self) -> Option<Obj<'_>>
        ensures some { IfSome result (λ object. IsOneObject self.now.content object) }
        ensures none { IfNone result ((object : Object) → IsOneObject self.now.content object → ⊥) }
    {
        let data = self.data();
        let Ok(mut objects) = Objects::over(data) else {
            return None;
        };
        match objects.next() {
            None => None,
            Some(object) => {
                if object.size() == data.len() {
                    Some(object)
                } else {
                    None
                }
            }
        }
    }
}
