//! The buffer for the data that a terminal receives.
ghost use Rattle.std.specs.Prelude.{◌≡◌, ℕ, ◌<◌, ◌≤◌, [], ◌∷◌, ◌++◌, length, take, ◌⊎◌, IfOk, ◌==◌, ◌+◌, nat_le, false};

use std::alloc::{AllocError, Allocator, Global};
use std::marker::Model;

/// A buffer for the data characters from the card. Its room is fixed when it is made. Each TPDU
/// appends to it, until `clear`. If it is full, a further data character is a fault, `TooLong`.
#[derive(Drop)]
pub struct Gather<A: Allocator = Global> {
    bytes: Vec<u8, A>,
    limit: usize,
}

impl<A: Allocator> Model for Gather<A> {
    ghost use Rattle.std.specs.Prelude.{◌≤◌, length, vec_len, vec_capacity};
    ghost use Rattle.t0_core.specs.Room.{Room};

    ghost Value = { Room };

    ghost view = { λ g. record { bytes = g.bytes.items; limit = g.limit } };

    ghost invariant = { λ g. (vec_len g.bytes ≤ g.limit) × (g.limit ≤ vec_capacity g.bytes) };
}

impl<A: Allocator> Gather<A> {
    ghost use Rattle.t0_core.specs.Room.{Room};

    /// Makes an empty buffer with room for `limit` bytes.
    ///
    /// # Errors
    ///
    /// - `AllocError`: memory ran out; no buffer exists.
    pub fn with_room(alloc: A, limit: usize) -> Result<Gather<A>, AllocError>
        ensures { IfOk result (λ g. g ≡ record { bytes = []; limit = limit }) }
    {
        let bytes = Vec::with_capacity(alloc, limit)?;
        Ok(Gather { bytes, limit })
    }

    /// Makes a buffer without room. It allocates nothing.
    pub fn without_room(alloc: A) -> Gather<A>
        ensures { result ≡ record { bytes = []; limit = 0 } }
    {
        Gather {
            bytes: Vec::new(alloc),
            limit: 0,
        }
    }

    /// The bytes gathered so far.
    pub fn bytes(&self) -> &[u8]
        ensures value { result.now ≡ self.now.bytes }
        ensures fits { length result.now ≤ self.now.limit }
    {
        self.bytes.as_slice()
    }

    /// Returns the bytes gathered so far, and frees the unused room. If memory for that runs out,
    /// the room stays.
    pub fn into_bytes(self) -> Vec<u8, A>
        ensures { result.items ≡ self.bytes }
    {
        let Gather { mut bytes, .. } = self;
        bytes.shrink_to_fit();
        bytes
    }

    /// Drops the bytes, overwrites them with zeros, and keeps the room.
    pub fn clear(&mut self)
        ensures { self.new ≡ record { bytes = []; limit = self.old.limit } }
    {
        self.bytes.fill(0);
        self.bytes.clear();
    }

    /// Whether the buffer is full.
    #[inline(always)]
    pub(crate) fn is_full(&self) -> bool
        ensures full { result ≡ (length self.now.bytes == self.now.limit) }
        ensures fits { length self.now.bytes ≤ self.now.limit }
    {
        self.bytes.len() == self.limit
    }

    /// Whether there is room for `count` more bytes.
    pub fn has_room(&self, count: usize) -> bool
        ensures { result ≡ nat_le (length self.now.bytes + count) self.now.limit }
    {
        count <= self.limit - self.bytes.len()
    }

    /// Appends bytes, which must fit (`has_room`).
    pub fn extend(&mut self, bytes: &[u8])
        requires { length self.old.bytes + length bytes.now ≤ self.old.limit }
        ensures { self.new ≡ record {
          bytes = self.old.bytes ++ bytes.now;
          limit = self.old.limit;
        } }
    {
        if self.bytes.extend_from_slice(bytes).is_err() {
            unreachable!()
        }
    }

    /// Appends the first bytes, at most `most` and as many as there is room for. Returns how many.
    #[inline(always)]
    pub(crate) fn extend_up_to(&mut self, bytes: &[u8], most: usize) -> usize
        ensures fits { result ≤ length bytes.now }
        ensures within { result ≤ most }
        ensures room { length self.old.bytes + result ≤ self.old.limit }
        ensures all { (result ≡ length bytes.now) ⊎ (result ≡ most)
            ⊎ (length self.old.bytes + result ≡ self.old.limit) }
        ensures gathered { self.new ≡ record {
          bytes = self.old.bytes ++ take result bytes.now;
          limit = self.old.limit;
        } }
    {
        let count = bytes.len().min(most).min(self.limit - self.bytes.len());
        self.extend(&bytes[..count]);
        count
    }

    /// Appends a byte, which must fit.
    #[inline(always)]
    pub(crate) fn push(&mut self, byte: u8)
        requires { (length self.old.bytes == self.old.limit) ≡ false }
        ensures { self.new ≡ record {
          bytes = self.old.bytes ++ byte ∷ [];
          limit =
              self.old.limit;
        } }
    {
        self.bytes.push_reserved(byte);
    }
}
