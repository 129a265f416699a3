//! Status words, and the lengths that `61XX` and `6CXX` state.
ghost use Rattle.std.specs.Prelude.{◌≡◌, ◌↔◌, IsTrue};
ghost use Rattle.std.specs.Option.{SomeIff};
ghost use Rattle.apdu_core.specs.StatusWord.{StatusWord, IsStatusWord, ok, count, announces, corrects};
ghost use Rattle.apdu_core.specs.Meanings.{word_of};

use std::marker::Model;

/// A status word SW1 SW2, where SW1 is `61` to `6F` or `90` to `9F` (ISO/IEC 7816-4, 5.1).
#[derive(Clone, Copy, Debug, PartialEq, Eq, Hash)]
pub struct Status {
    sw1: u8,
    sw2: u8,
}

impl Model for Status {
    ghost Value = { StatusWord };

    ghost view = { λ s. (s.sw1, s.sw2) };

    ghost invariant = { λ s. IsStatusWord (s.sw1, s.sw2) };

    ghost inverse = { λ sw. record { sw1 = sw.0; sw2 = sw.1 } };
}

impl Status {
    /// Makes a status word of two bytes. `None` if SW1 is neither `61` to `6F` nor `90` to `9F`.
    pub fn new(sw1: u8, sw2: u8) -> Option<Status>
        ensures { SomeIff result (IsStatusWord (sw1, sw2)) (sw1, sw2) }
    {
        if matches!(sw1, 0x61..=0x6F | 0x90..=0x9F) {
            Some(Status { sw1, sw2 })
        } else {
            None
        }
    }

    /// SW1, the first byte.
    pub fn sw1(self) -> u8
        ensures value { result ≡ self.0 }
        ensures status { IsStatusWord self }
    {
        self.sw1
    }

    /// SW2, the second byte.
    pub fn sw2(self) -> u8
        ensures value { result ≡ self.1 }
        ensures status { IsStatusWord self }
    {
        self.sw2
    }

    /// Whether the status is `9000`: normal processing.
    pub fn is_ok(self) -> bool
        ensures { IsTrue result ↔ (self ≡ ok) }
    {
        self.sw1 == 0x90 && self.sw2 == 0x00
    }

    /// The number of bytes that wait at the card, 1 to 256, if the status is `61XX`. `None` for any
    /// other status.
    pub fn announces(self) -> Option<u16>
        ensures { result ≡ announces self }
    {
        (self.sw1 == 0x61).then(|| count(self.sw2))
    }

    /// The number of bytes that the terminal should have asked for, 1 to 256, if the status is
    /// `6CXX`. `None` for any other status.
    pub fn corrects(self) -> Option<u16>
        ensures { result ≡ corrects self }
    {
        (self.sw1 == 0x6C).then(|| count(self.sw2))
    }

    /// SW1 and SW2 as one number, as `0x9000`.
    pub fn word(self) -> u16
        ensures { result ≡ word_of self }
    {
        u16::from(self.sw1) * 256 + u16::from(self.sw2)
    }
}

/// The length that a byte encodes, 1 to 256: `00` means 256 (ISO/IEC 7816-4, 5.1).
pub fn count(byte: u8) -> u16
    ensures { result ≡ count byte }
{
    if byte == 0 { 256 } else { u16::from(byte) }
}
