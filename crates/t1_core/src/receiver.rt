//! Finds the end of a block in the bytes of a line.
ghost use Rattle.std.specs.Prelude.{◌≡◌, ◌≤◌, ◌<◌, ◌+◌, ◌-◌, ◌++◌, ◌∷◌, [], List, ℕ, true, false, length, take, drop, replicate, ◌⊎◌, if◌then◌else◌};
ghost use Rattle.t1_core.specs.BlockBytes.{is_whole, received};

use crate::field::copy_at;
use std::marker::Model;

/// `clear` overwrites at least 16 bytes. A fixed number needs no call of `memset`, and most blocks
/// are shorter.
const SHORT: usize = 16;

/// The result of one byte.
#[derive(Clone, Copy, Debug, PartialEq, Eq)]
pub enum Received {
    /// The block is not complete yet.
    More,
    /// The block is complete, as its LEN states.
    Whole,
    /// The block was complete before: the byte does not belong to it.
    TooMany,
}

/// Collects the bytes of a block (ISO/IEC 7816-3, clause 11).
///
/// Call `take` with each byte. At `Whole`, pass `bytes` to an end's `take_bytes`. After a parity
/// error call the end's `damaged`. After a pause longer than CWT call `timed_out` of a terminal's
/// end, or `invalid` of a card's. After each of these, call `clear`.
#[derive(Drop)]
pub struct Receiver {
    block: [u8; 259],
    len: usize,
}

impl Model for Receiver {
    ghost use Rattle.std.specs.Prelude.{List, ℕ, take, drop, replicate, ◌-◌, ◌≤◌, length, ◌≡◌};

    ghost Value = { List ℕ };

    ghost view = { λ r. take r.len r.block };

    // Nothing is left of a block that was dropped.
    ghost invariant = { λ r. (r.len ≤ 259) × (length r.block ≡ 259)
        × (drop r.len r.block ≡ replicate (259 - r.len) 0) };
}

impl Receiver {
    /// Makes a receiver without bytes.
    pub fn new() -> Receiver
        ensures { result ≡ [] }
    {
        Receiver {
            block: [0; 259],
            len: 0,
        }
    }

    /// The bytes of the block so far.
    pub fn bytes(&self) -> &[u8]
        ensures { result.now ≡ self.now }
    {
        &self.block[..self.len]
    }

    /// Drops the bytes of the block, and overwrites them with zeros.
    pub fn clear(&mut self)
        ensures { self.new ≡ [] }
    {
        if self.len <= SHORT {
            wipe(&mut self.block, SHORT);
        } else {
            wipe(&mut self.block, self.len);
        }
        self.len = 0;
    }

    /// Whether the block is complete.
    pub fn is_whole(&self) -> bool
        ensures { result ≡ is_whole self.now }
    {
        self.len >= 4 && self.len >= usize::from(self.block[2]) + 4
    }

    /// Takes a byte of the line. A byte after a complete block changes nothing.
    pub fn take(&mut self, byte: u8) -> Received
        ensures result { result ≡ received self.old byte }
        ensures after { self.new
            ≡ (if is_whole self.old then self.old else self.old ++ byte ∷ []) }
    {
        if self.is_whole() {
            return Received::TooMany;
        }
        self.append(byte);
        if self.is_whole() {
            Received::Whole
        } else {
            Received::More
        }
    }

    /// Takes bytes of the line up to the end of the block, and returns how many. The others change
    /// nothing: they may begin the next block.
    pub fn take_bytes(&mut self, bytes: &[u8]) -> usize
        ensures after { self.new ≡ self.old ++ take result bytes.now }
        ensures all { (result ≡ length bytes.now) ⊎ (is_whole self.new ≡ true) }
        ensures none_behind { (k : ℕ) → k < result →
            is_whole (self.old ++ take k bytes.now) ≡ false }
    {
        let mut at = 0;

        // For the proof: the label names the loop's goals.
        'take: while at < bytes.len() && !self.is_whole() {
            at += self.append_run(&bytes[at..]);
        }
        at
    }

    /// Appends bytes up to LEN, or up to the end of the block, and returns how many.
    fn append_run(&mut self, bytes: &[u8]) -> usize
        requires part { is_whole self.old ≡ false }
        requires some { 0 < length bytes.now }
        ensures count { (0 < result) × (result ≤ length bytes.now) }
        ensures after { self.new ≡ self.old ++ take result bytes.now }
        ensures none_behind { (k : ℕ) → k < result →
            is_whole (self.old ++ take k bytes.now) ≡ false }
    {
        let count = self.missing().min(bytes.len());
        copy_at(&mut self.block, self.len, &bytes[..count]);
        self.len += count;
        count
    }

    /// How many bytes are missing up to LEN, or after LEN up to the end of the block.
    fn missing(&self) -> usize
        requires { is_whole self.now ≡ false }
        ensures some { 0 < result }
        ensures fits { result ≤ 259 - length self.now }
        ensures part { (more : List ℕ) → length more < result →
            is_whole (self.now ++ more) ≡ false }
    {
        match self.len {
            0..=2 => 3 - self.len,
            len => usize::from(self.block[2]) + 4 - len,
        }
    }

    fn append(&mut self, byte: u8)
        requires { is_whole self.old ≡ false }
        ensures { self.new ≡ self.old ++ byte ∷ [] }
    {
        self.block[self.len] = byte;
        self.len += 1;
    }
}

/// Overwrites the first `len` bytes with zeros.
#[inline(always)]
fn wipe(bytes: &mut [u8], len: usize)
    requires { len ≤ length bytes.old }
    ensures { bytes.new ≡ replicate len 0 ++ drop len bytes.old }
{
    bytes[..len].fill(0);
}
