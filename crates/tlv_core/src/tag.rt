//! Tags of one to three bytes.

ghost use Rattle.std.specs.Prelude.{◌≡◌, ◌↔◌, ◌++◌, ◌∷◌, [], ℕ, List, length, false, IfOk, IsErrOf, IsOk, IsTrue};
ghost use Rattle.tlv_core.specs.TagForm.{IsTag, StartsWithTag, EndsInsideTag, is_constructed};
ghost use Rattle.tlv_core.specs.FrontParts.{IsFrontTagSize};

use crate::fault::{Reason, TlvFault};
use std::marker::Model;

/// A tag of one to three bytes (EMV Book 3, Annex B; at most three: profile). Contracts see it as
/// its bytes.
#[derive(Clone, Copy, Debug, PartialEq, Eq, Hash)]
pub struct Tag {
    bytes: [u8; 3],
    len: usize,
}

impl Model for Tag {
    ghost use Rattle.std.specs.Prelude.{List, ℕ, take, length};
    ghost use Rattle.tlv_core.specs.PaddedCells.{ArePadded, padded};
    ghost use Rattle.tlv_core.specs.TagForm.{IsTag};

    ghost Value = { List ℕ };

    ghost view = { λ t. take t.len t.bytes };

    ghost invariant = { λ t. ArePadded IsTag 3 t.bytes t.len };

    ghost inverse = { λ bytes. record { bytes = padded 3 bytes; len = length bytes } };

    ghost inverse_ok = { λ t h i. record { bytes = h.is_padded i; len = h.has_len i } };
}

impl Tag {
    ghost use Rattle.tlv_core.specs.PaddedCells.{padded};

    /// Reads the tag at the front of `bytes`, and returns it with its size in bytes, 1 to 3.
    ///
    /// # Errors
    ///
    /// Both at place 0:
    ///
    /// - `TagCut`: the bytes end inside a tag, or are empty.
    /// - `TagForm`: the bytes neither start with a tag nor end inside one.
    pub fn read(bytes: &[u8]) -> Result<(Tag, usize), TlvFault>
        ensures tag { IfOk result (λ read. IsTag read.0 × (read.1 ≡ length read.0)
            × ((rest : List ℕ) × (bytes.now ≡ read.0 ++ rest))) }
        ensures cut { IsErrOf result (record { place = 0; reason = Reason.TagCut })
            ↔ EndsInsideTag bytes.now }
        ensures form { IsErrOf result (record { place = 0; reason = Reason.TagForm })
            ↔ ((EndsInsideTag bytes.now → ⊥) × (StartsWithTag bytes.now → ⊥)) }
        ensures starts { IsOk result ↔ StartsWithTag bytes.now }
    {
        let size = tag_size(bytes).map_err(TlvFault::at_front)?;
        Ok((Tag::of(&bytes[..size]), size))
    }

    /// Makes a tag of its bytes.
    pub(crate) fn of(bytes: &[u8]) -> Tag
        requires { IsTag bytes.now }
        ensures { result ≡ bytes.now }
    {
        let len = bytes.len();
        match bytes {
            [first] => Tag {
                bytes: [*first, 0, 0],
                len,
            },
            [first, second] => Tag {
                bytes: [*first, *second, 0],
                len,
            },
            [first, second, third] => Tag {
                bytes: [*first, *second, *third],
                len,
            },
            _ => unreachable!(),
        }
    }

    /// The bytes of the tag, followed by `00` up to three.
    pub(crate) fn padded(&self) -> [u8; 3]
        ensures { result ≡ padded 3 self.now }
    {
        self.bytes
    }

    /// Whether the value is a list of objects: bit 6 of the first byte is set.
    pub fn is_constructed(&self) -> bool
        ensures { result ≡ is_constructed self.now }
    {
        starts_template(self.bytes[0])
    }

    /// Whether the value is plain bytes: bit 6 of the first byte is clear.
    pub(crate) fn is_primitive(&self) -> bool
        ensures kind { IsTrue result ↔ (is_constructed self.now ≡ false) }
        ensures tag { IsTag self.now }
    {
        self.bytes[0] / 32 % 2 == 0
    }

    /// The bytes of the tag, one to three.
    pub fn bytes(&self) -> &[u8]
        ensures bytes { result.now ≡ self.now }
        ensures tag { IsTag self.now }
    {
        &self.bytes[..self.len]
    }
}

#[tactic(auto, using(crate::specs::TagLaws::front_none, crate::specs::TagLaws::front_zero, crate::specs::TagLaws::front_one, crate::specs::TagLaws::front_cut_first, crate::specs::TagLaws::front_second, crate::specs::TagLaws::front_two, crate::specs::TagLaws::front_cut_second, crate::specs::TagLaws::front_third, crate::specs::TagLaws::front_three))]
/// The size in bytes of the tag at the front, or why no tag is there.
#[inline(always)]
pub(crate) fn tag_size(bytes: &[u8]) -> Result<usize, Reason>
    ensures { IsFrontTagSize bytes.now result }
{
    if bytes.is_empty() {
        return Err(Reason::TagCut);
    }
    if bytes[0] == 0 {
        return Err(Reason::TagForm);
    }
    if bytes[0] % 32 != 31 {
        return Ok(1);
    }
    if bytes.len() == 1 {
        return Err(Reason::TagCut);
    }
    if bytes[1] % 128 == 0 {
        return Err(Reason::TagForm);
    }
    if bytes[1] < 128 {
        return Ok(2);
    }
    if bytes.len() == 2 {
        return Err(Reason::TagCut);
    }
    if bytes[2] >= 128 {
        return Err(Reason::TagForm);
    }
    Ok(3)
}

/// Whether a tag with this first byte is constructed: bit 6 is set.
pub(crate) fn starts_template(first: u8) -> bool
    ensures { result ≡ is_constructed (first ∷ []) }
{
    first / 32 % 2 == 1
}
