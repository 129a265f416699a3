//! Tags as numbers: the bytes of the tag, such as `0x5F20`.
ghost use Rattle.std.specs.Prelude.{◌≡◌, ℕ, List, MatchOption};
ghost use Rattle.tlv_core.specs.TagForm.{IsTag};
ghost use Rattle.card_c.specs.TagNumbers.{IsNumbered, IsTagNumber, tag_number};

use tlv_core::{ObjectTag, Tag};

/// Returns the tag of one to three bytes with this number, if there is one.
pub fn tag_with(number: u32) -> Option<Tag>
    ensures { MatchOption result ((tag : List ℕ) → ¬ IsTagNumber number tag)
        (λ tag. IsTagNumber number tag) }
{
    let low = (number % 256) as u8;
    let middle = (number / 256 % 256) as u8;
    if number < 256 {
        return whole_tag(&[low]);
    }
    if number < 65536 {
        return whole_tag(&[middle, low]);
    }
    if number > 0xFF_FFFF {
        return None;
    }
    whole_tag(&[(number / 65536) as u8, middle, low])
}

/// Returns the tag with these bytes, if they are one.
fn whole_tag(bytes: &[u8]) -> Option<Tag>
    ensures { MatchOption result (IsTag bytes.now → ⊥)
        (λ tag. (tag ≡ bytes.now) × IsTag bytes.now) }
{
    let (tag, size) = Tag::read(bytes).ok()?;
    if size == bytes.len() { Some(tag) } else { None }
}

/// Returns the number of a tag.
pub fn number(tag: Tag) -> u32
    ensures { result ≡ tag_number tag }
{
    match tag.bytes() {
        [a] => u32::from(*a),
        [a, b] => u32::from(*a) * 256 + u32::from(*b),
        [a, b, c] => (u32::from(*a) * 256 + u32::from(*b)) * 256 + u32::from(*c),
        _ => unreachable!(),
    }
}

/// Returns the tag with this number, if GET DATA and PUT DATA can name it.
pub fn tag_of(number: u32) -> Option<ObjectTag>
    ensures { MatchOption result ((tag : List ℕ) → ¬ IsNumbered number tag)
        (λ tag. IsNumbered number tag) }
{
    ObjectTag::new(tag_with(number)?)
}

/// Returns the number of a tag that GET DATA and PUT DATA can name.
pub fn number_of(tag: ObjectTag) -> u32
    ensures { IsNumbered result tag }
{
    number(tag.tag())
}
