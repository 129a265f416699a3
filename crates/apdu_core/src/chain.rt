//! The commands of one chain, gathered at the card.
ghost use Rattle.std.specs.Prelude.{◌≡◌, ◌+◌, ◌-◌, ◌<◌, ◌≤◌, ◌↔◌, ◌++◌, [], length, take, drop, replicate, None, IsTrue, IsSome, IsErr, IfOk, OnOk, OnErr};
ghost use Rattle.apdu_core.specs.Chaining as spec;
ghost use Rattle.apdu_core.specs.Chaining.{Accepts, IsChain, added, idle};

use crate::header::Header;
use std::alloc::{AllocError, Allocator, Global};
use std::error::Error;
use std::fmt;
use std::marker::Model;

/// Adding the data would make a chain longer than its limit. The chain is unchanged.
#[derive(Clone, Copy, Debug, PartialEq, Eq)]
pub struct TooLong;

impl fmt::Display for TooLong {
    ghost use Rattle.std.specs.Prelude.{Some, codes};

    ghost output = { λ _. Some (codes "chain too long") };

    fn fmt<W: fmt::Write>(&self, f: &mut fmt::Formatter<W>) -> fmt::Result {
        f.write_str("chain too long")
    }
}

impl Error for TooLong {}

/// The data of one command chain (ISO/IEC 7816-4, 5.1.1.1), in a buffer that is allocated once. Its
/// length is the chain's limit, in bytes. Bytes that leave the chain are overwritten with zeros.
///
/// While a chain is pending, `accepts` asks whether a command continues it, and `add` adds its
/// data.
#[derive(Debug, Drop)]
pub struct Chain<A: Allocator = Global> {
    room: Vec<u8, A>,
    len: usize,
    pending: Option<Header>,
}

impl<A: Allocator> Model for Chain<A> {
    ghost use Rattle.std.specs.Prelude.{◌≡◌, ◌-◌, ◌≤◌, length, take, drop, replicate};
    ghost use Rattle.apdu_core.specs.Chaining as spec;
    ghost use Rattle.apdu_core.specs.Chaining.{IsChain};

    ghost Value = { spec.ChainState };

    ghost view = { λ c. record {
      bytes = take c.len c.room.items;
      limit = length c.room.items;
      pending = c.pending;
    } };

    ghost invariant = { λ c.
        IsChain (record {
          bytes = take c.len c.room.items;
          limit = length c.room.items;
          pending = c.pending;
        })
        × (c.len ≤ length c.room.items)
        × (drop c.len c.room.items ≡ replicate (length c.room.items - c.len) 0) };
}

impl<A: Allocator> Chain<A> {
    /// Creates an idle chain with a limit of `limit` bytes.
    ///
    /// # Errors
    ///
    /// - `AllocError`: memory ran out; no chain exists.
    pub fn with_room(alloc: A, limit: usize) -> Result<Chain<A>, AllocError>
        ensures { IfOk result (λ chain. chain ≡ idle limit) }
    {
        Ok(Chain {
            room: vec![in alloc; 0; limit]?,
            len: 0,
            pending: None,
        })
    }

    /// Whether a chain has begun and has not been dropped since. `add` also leaves the chain
    /// pending after its last command.
    pub fn is_pending(&self) -> bool
        ensures pending { IsTrue result ↔ IsSome self.now.pending }
        ensures chain { IsChain self.now }
    {
        self.pending.is_some()
    }

    /// The number of bytes in the chain, 0 if none is pending.
    pub fn len(&self) -> usize
        ensures value { result ≡ length self.now.bytes }
        ensures chain { IsChain self.now }
    {
        self.len
    }

    /// The data of the chain's commands, concatenated.
    pub fn bytes(&self) -> &[u8]
        ensures value { result.now ≡ self.now.bytes }
        ensures chain { IsChain self.now }
    {
        &self.room[..self.len]
    }

    /// The unused rest of the buffer. It holds zeros, so nothing is left of bytes that the chain
    /// held before.
    pub fn spare(&self) -> &[u8]
        ensures { result.now ≡ replicate (self.now.limit - length self.now.bytes) 0 }
    {
        &self.room[self.len..]
    }

    /// Whether a command with this header may follow: nothing is pending, or CLA (except bit 5),
    /// INS, P1 and P2 equal the chain's.
    pub fn accepts(&self, header: Header) -> bool
        ensures { IsTrue result ↔ Accepts self.now header }
    {
        self.pending.is_none_or(|first| header.as_last() == first)
    }

    /// Appends the data of a command, whose header `accepts` must take. An idle chain begins with
    /// it. The chain is pending afterwards, also if the command was the last of its chain: the
    /// caller ends it by `drop_all`.
    ///
    /// # Errors
    ///
    /// - `TooLong`: the data would exceed the limit; the chain is unchanged.
    pub fn add(&mut self, header: Header, content: &[u8]) -> Result<(), TooLong>
        requires { Accepts self.old header }
        ensures too_long { IsErr result ↔
            (self.old.limit < length self.old.bytes + length content.now) }
        ensures err { OnErr result (self.new ≡ self.old) }
        ensures ok { OnOk result (self.new ≡ added self.old header content.now) }
    {
        if content.len() > self.room.len() - self.len {
            return Err(TooLong);
        }
        lay(&mut self.room, self.len, content);
        self.len += content.len();
        self.pending = Some(header.as_last());
        Ok(())
    }

    /// Keeps the first `len` bytes, and overwrites the others with zeros. `len` must be at most
    /// `len()`. A pending chain stays pending.
    pub fn keep_first(&mut self, len: usize)
        requires { len ≤ length self.old.bytes }
        ensures { self.new ≡ record self.old { bytes = take len self.old.bytes } }
    {
        wipe(&mut self.room, len, self.len);
        self.len = len;
    }

    /// Drops the chain and overwrites its bytes with zeros. The buffer is kept for the next chain.
    pub fn drop_all(&mut self)
        ensures { self.new ≡ idle self.old.limit }
    {
        self.keep_first(0);
        self.pending = None;
    }
}

/// Copies `content` into `room`, from index `at`.
fn lay(room: &mut [u8], at: usize, content: &[u8])
    requires { at + length content.now ≤ length room.old }
    ensures front { take (at + length content.now) room.new ≡ take at room.old ++ content.now }
    ensures rest { drop (at + length content.now) room.new
        ≡ drop (at + length content.now) room.old }
    ensures len { length room.new ≡ length room.old }
{
    room[at..at + content.len()].copy_from_slice(content);
}

/// Overwrites the bytes at `from..to` with zeros.
fn wipe(room: &mut [u8], from: usize, to: usize)
    requires { (from ≤ to) × (to ≤ length room.old) }
    ensures front { take from room.new ≡ take from room.old }
    ensures rest { drop from room.new ≡ replicate (to - from) 0 ++ drop to room.old }
    ensures len { length room.new ≡ length room.old }
{
    room[from..to].fill(0);
}
