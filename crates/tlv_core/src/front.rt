//! Reads what is at the front of bytes: padding, a tag, a length, an object.

ghost use Rattle.std.specs.Prelude.{◌≡◌, ◌≤◌, ◌<◌, length, drop, MatchResult};
ghost use Rattle.tlv_core.specs.FrontParts.{IsFrontTagSize, IsSpelledFrom, HasNoFrontLength, IsPastPadding, HasParts};
ghost use Rattle.tlv_core.specs.FirstFault.{FailsFor};
ghost use Rattle.tlv_core.specs.Length.{StartsWithLength};
ghost use Rattle.tlv_core.specs.Place.{StartsWith, StartsWithObject};
ghost use Rattle.tlv_core.specs.TagForm.{StartsWithTag};
ghost use Rattle.tlv_core.specs.Spelling.{deepest};

use crate::fault::Reason;
use crate::tag::{Tag, tag_size};

/// The deepest level of an object (profile).
pub(crate) const DEEPEST: u8 = 16;

/// A length that was read: where its spelling ends, and the number of bytes of the value.
#[derive(Clone, Copy)]
struct Length {
    end: usize,
    value: usize,
}

/// The sizes of an object's parts, in bytes: its tag, its head (tag and length as spelled), and its
/// value.
#[derive(Clone, Copy)]
pub(crate) struct Parts {
    pub(crate) tag: usize,
    pub(crate) head: usize,
    pub(crate) value: usize,
}

/// The object at the front of bytes, and the bytes that follow it.
#[derive(Drop)]
pub(crate) struct FirstObject<'a> {
    pub(crate) tag: Tag,
    pub(crate) size: &'a [u8],
    pub(crate) value: &'a [u8],
    pub(crate) rest: &'a [u8],
}

/// The bytes from the first that is not `00`.
pub(crate) fn past_padding(bytes: &[u8]) -> &[u8]
    ensures { IsPastPadding bytes.now result.now }
{
    let mut rest = bytes;
    while let [0, after @ ..] = rest {
        rest = after;
    }
    rest
}

/// Reads the length that is spelled from index `start`, or returns why none is.
#[inline(always)]
fn length_at(bytes: &[u8], start: usize) -> Result<Length, Reason>
    requires { start ≤ length bytes.now }
    ensures { MatchResult result
        (λ found. IsSpelledFrom bytes.now start found.end found.value)
        (HasNoFrontLength (drop start bytes.now)) }
{
    if start == bytes.len() {
        return Err(Reason::LengthCut);
    }
    let first = bytes[start];
    if first < 0x80 {
        return Ok(Length {
            end: start + 1,
            value: first as usize,
        });
    }
    let left = bytes.len() - start;
    match first {
        0x81 if left < 2 => Err(Reason::LengthCut),
        0x81 => Ok(Length {
            end: start + 2,
            value: bytes[start + 1] as usize,
        }),
        0x82 if left < 3 => Err(Reason::LengthCut),
        0x82 => Ok(Length {
            end: start + 3,
            value: 256 * bytes[start + 1] as usize + bytes[start + 2] as usize,
        }),
        _ => Err(Reason::LengthForm),
    }
}

/// Returns the sizes of the parts of the object at the front of a list at `level`, or why there is
/// no object.
#[inline(always)]
pub(crate) fn front_parts(bytes: &[u8], level: usize) -> Result<Parts, Reason>
    ensures { MatchResult result
        (λ parts. HasParts bytes.now level parts.tag parts.head parts.value)
        (FailsFor bytes.now level) }
{
    if level > DEEPEST as usize {
        return Err(Reason::TooDeep);
    }
    let tag = tag_size(bytes)?;
    let length = length_at(bytes, tag)?;
    if bytes.len() - length.end < length.value {
        return Err(Reason::ValueCut);
    }
    Ok(Parts {
        tag,
        head: length.end,
        value: length.value,
    })
}

/// The size in bytes of the tag at the front. The caller knows that there is one.
#[inline(always)]
fn known_tag(bytes: &[u8]) -> usize
    requires { StartsWithTag bytes.now }
    ensures { IsFrontTagSize bytes.now (Ok result) }
{
    if bytes[0] % 32 != 31 {
        1
    } else if bytes[1] < 128 {
        2
    } else {
        3
    }
}

/// The length that is spelled from index `start`. The caller knows that there is one.
#[inline(always)]
fn known_length(bytes: &[u8], start: usize) -> Length
    requires inside { start ≤ length bytes.now }
    requires spelled { StartsWithLength (drop start bytes.now) }
    ensures { IsSpelledFrom bytes.now start result.end result.value }
{
    let (end, value) = match bytes[start] {
        0x81 => (start + 2, bytes[start + 1] as usize),
        0x82 => (
            start + 3,
            256 * bytes[start + 1] as usize + bytes[start + 2] as usize,
        ),
        short => (start + 1, short as usize),
    };
    Length { end, value }
}

/// The object at the front. The caller knows that there is one, so nothing is checked.
#[inline(always)]
pub(crate) fn front_object(bytes: &[u8]) -> FirstObject<'_>
    requires { StartsWithObject bytes.now }
    ensures { StartsWith bytes.now result.tag result.size.now result.value.now result.rest.now }
{
    let tag_size = known_tag(bytes);
    let length = known_length(bytes, tag_size);
    let (head, after_head) = bytes.split_at(length.end);
    let (tag, size) = head.split_at(tag_size);
    let (value, rest) = after_head.split_at(length.value);
    FirstObject {
        tag: Tag::of(tag),
        size,
        value,
        rest,
    }
}
