//! A third party on a line at T=1, which reads the blocks of both ends.
ghost use Rattle.std.specs.Prelude.{◌≡◌, ◌≤◌, ◌<◌, ◌++◌, ◌∷◌, ◌⊎◌, [], List, ℕ, true, false, length, take};
ghost use Rattle.std.specs.Option.{option_map};
ghost use Rattle.t1_core.specs.Hearing.{HasHeard, Heard, Item as Told, given, goes_on, hears, hears_all, hears_next, item_of, listening, stops, told};
ghost use Rattle.t1_core.specs.Items.{is_complete};
ghost use Rattle.t1_core.specs.Reading.{fresh};
ghost use Rattle.t1_core.specs.declared.reading.End.TheVariants.{Terminal};

use crate::found::{Found, found_in, is_complete};
use crate::reading::{End, Reading, Role};
use crate::settings::Edc;
use std::marker::Model;

/// Bytes of one end that belong together: a block, valid or not, or the first bytes of one.
#[derive(Clone, Copy, Debug)]
pub struct Item<'a> {
    /// The end that sent them.
    pub from: End,
    /// The bytes, 1 to 260.
    pub bytes: &'a [u8],
    /// The block, or why it is invalid.
    pub found: Found<'a>,
    /// What it is in the dialogue.
    pub role: Role,
}

/// A third party on a line at T=1, which hears both ends (ISO/IEC 7816-3, clause 11).
///
/// After each byte or run look for an `item`, whose bytes are lent. A command is the fields of the
/// terminal's I-blocks from `first` to `last`, a response those of the card's. An item ends where
/// its LEN puts the end, or sooner, where the other end begins. The README says how to use it.
///
/// It hears what one end hears, at its connector. A role is `Unknown` if an I-block has the next
/// N(S) out of turn, or the other one and is no repetition: the tap has missed something, as a
/// reset. So are those of all later I-blocks and R-blocks, until the card ends a response, with an
/// I-block of the terminal before that.
///
/// It keeps the newest I-block of each end: one that is repeated has the same bytes, or the first
/// ones of a field that a granted IFS cuts.
#[derive(Drop)]
pub struct Tap {
    edc: Edc,
    from: End,
    bytes: [u8; 260],
    len: usize,
    ended: bool,
    held: Option<u8>,
    reading: Reading,
}

impl Model for Tap {
    ghost use Rattle.std.specs.Prelude.{◌≡◌, ◌≤◌, ◌-◌, [], false, drop, length, replicate, take};
    ghost use Rattle.std.specs.List.{cons_option};
    ghost use Rattle.t1_core.specs.Hearing.{Ear};
    ghost use Rattle.t1_core.specs.Items.{is_complete};

    ghost Value = { Ear };

    ghost view = { λ t. record {
      edc = t.edc;
      from = t.from;
      part = take t.len t.bytes;
      ended = t.ended;
      held = cons_option t.held [];
      reading = t.reading;
    } };

    // Nothing is left of an item that was dropped.
    ghost invariant = { λ t. (t.len ≤ 260) × (length t.bytes ≡ 260)
        × (drop t.len t.bytes ≡ replicate (260 - t.len) 0)
        × (t.ended ≡ false → is_complete t.edc (take t.len t.bytes) ≡ false) };
}

impl Tap {
    /// Makes a tap after a reset.
    pub fn new(edc: Edc) -> Tap
        ensures value { result ≡ listening edc Terminal [] fresh }
        ensures led { HasHeard [] [] (goes_on result) }
    {
        Tap {
            edc,
            from: End::Terminal,
            bytes: [0; 260],
            len: 0,
            ended: false,
            held: None,
            reading: Reading::default(),
        }
    }

    /// Hears a byte of this end. The item that has ended before it is dropped.
    pub fn hear(&mut self, from: End, byte: u8)
        ensures heard { self.new ≡ hears self.old from byte }
        // History: all bytes since the reset are the items so far, and the first bytes of one more.
        ensures led { (heard : List Heard) (items : List Told) →
            HasHeard heard items (goes_on self.old) →
            HasHeard (heard ++ (from, byte) ∷ []) (items ++ given self.new) (goes_on self.new) }
    {
        self.go_on();
        self.add(from, byte);
    }

    fn add(&mut self, from: End, byte: u8)
        requires { self.old.ended ≡ false }
        ensures { self.new ≡ hears_next self.old from byte }
    {
        if self.from != from && self.len > 0 {
            self.held = Some(byte);
            self.ended = true;
            return;
        }
        self.from = from;
        self.push(byte);
    }

    /// Hears bytes of this end up to the end of an item, and returns how many: at least one, if
    /// there are any.
    pub fn hear_run(&mut self, from: End, bytes: &[u8]) -> usize
        ensures heard { self.new ≡ hears_all self.old from (take result bytes.now) }
        ensures fits { result ≤ length bytes.now }
        ensures progress { 0 < length bytes.now → 0 < result }
        ensures all { (result ≡ length bytes.now) ⊎ (self.new.ended ≡ true) }
        ensures none_before { (k : ℕ) → 0 < k → k < result →
            (hears_all self.old from (take k bytes.now)).ended ≡ false }
    {
        for at in 0..bytes.len() {
            self.hear(from, bytes[at]);
            if self.ended {
                return at + 1;
            }
        }
        bytes.len()
    }

    /// Returns the item that has ended with the last byte, or with `reset`, if one has.
    pub fn item(&self) -> Option<Item<'_>>
        ensures { option_map told result ≡ item_of self.now }
    {
        if !self.ended {
            return None;
        }
        let (from, bytes) = (self.from, &self.bytes[..self.len]);
        let found = found_in(self.edc, bytes);
        Some(Item {
            from,
            bytes,
            found,
            role: self.reading.role(from, found),
        })
    }

    /// The card was reset, or the end was reached. The bytes after the last item, if any, are one
    /// more.
    pub fn reset(&mut self)
        ensures stopped { self.new ≡ stops self.old }
        ensures led { (heard : List Heard) (items : List Told) →
            HasHeard heard items (goes_on self.old) → HasHeard [] [] (goes_on self.new) }
    {
        self.go_on();
        self.ended = self.len > 0;
        self.reading = Reading::default();
    }

    #[tactic(auto, using(crate::proofs::ShortFields::is_short))]
    fn go_on(&mut self)
        ensures after { self.new ≡ goes_on self.old }
        ensures open { self.new.ended ≡ false }
        ensures incomplete { is_complete self.new.edc self.new.part ≡ false }
    {
        if !self.ended {
            return;
        }
        let found = found_in(self.edc, &self.bytes[..self.len]);
        self.reading.pass(self.from, found);
        self.bytes = [0; 260];
        self.len = 0;
        self.ended = false;
        if let Some(byte) = self.held {
            self.held = None;
            self.from = self.from.peer();
            self.push(byte);
        }
    }

    fn push(&mut self, byte: u8)
        requires { self.old.ended ≡ false }
        ensures { self.new ≡ record self.old {
          part = self.old.part ++ byte ∷ [];
          ended = is_complete self.old.edc (self.old.part ++ byte ∷ []);
        } }
    {
        self.bytes[self.len] = byte;
        self.len += 1;
        self.ended = is_complete(self.edc, &self.bytes[..self.len]);
    }
}
