//! The tags that P1-P2 can name.

ghost use Rattle.std.specs.Prelude.{◌≡◌, ◌↔◌, ℕ, List, IsSome, IfSome};
ghost use Rattle.tlv_core.specs.Address.{NamesTag, IsAddressable};

use crate::tag::Tag;
use std::marker::Model;

/// A tag that P1-P2 of GET DATA and PUT DATA can name (ISO/IEC 7816-4). It is one byte from `40` to
/// `FE`, or two bytes from `5F01` on (profile). Contracts see it as its bytes.
#[derive(Clone, Copy, Debug, PartialEq, Eq, Hash)]
pub struct ObjectTag {
    tag: Tag,
}

impl Model for ObjectTag {
    ghost use Rattle.std.specs.Prelude.{List, ℕ};
    ghost use Rattle.tlv_core.specs.Address.{IsAddressable};

    ghost Value = { List ℕ };

    ghost view = { λ t. t.tag };

    ghost invariant = { λ t. IsAddressable t.tag };

    ghost inverse = { λ bytes. record { tag = bytes } };
}

impl ObjectTag {
    #[tactic(auto, using(crate::specs::AddressLaws::named_by_one, crate::specs::AddressLaws::named_by_two))]
    /// Makes an object tag of `tag`. `None` if P1-P2 cannot name it.
    pub fn new(tag: Tag) -> Option<ObjectTag>
        ensures named { IsSome result ↔ IsAddressable tag }
        ensures same { IfSome result (λ object_tag. object_tag ≡ tag) }
    {
        match tag.bytes() {
            [0x40..=0xFE] | [0x5F..=0xFF, _] => Some(ObjectTag { tag }),
            _ => None,
        }
    }

    /// Returns the tag that P1-P2 name: P2 alone if P1 is `00`, else both bytes. `None` if they
    /// name none.
    pub fn from_p1p2(p1: u8, p2: u8) -> Option<ObjectTag>
        ensures named { IsSome result ↔ ((tag : List ℕ) × NamesTag tag p1 p2) }
        ensures tag { IfSome result (λ tag. NamesTag tag p1 p2) }
    {
        let bytes = [p1, p2];
        let named = if p1 == 0 { &bytes[1..] } else { &bytes[..] };
        let (tag, size) = Tag::read(named).ok()?;
        if size == named.len() {
            ObjectTag::new(tag)
        } else {
            None
        }
    }

    /// Returns the P1-P2 that name the tag. P1 is `00` if the tag has one byte.
    pub fn p1p2(&self) -> (u8, u8)
        ensures { NamesTag self.now result.0 result.1 }
    {
        match self.tag.bytes() {
            [only] => (0, *only),
            [first, second] => (*first, *second),
            _ => unreachable!(),
        }
    }

    /// The tag.
    pub fn tag(&self) -> Tag
        ensures tag { result ≡ self.now }
        ensures addressable { IsAddressable self.now }
    {
        self.tag
    }
}
