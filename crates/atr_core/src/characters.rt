//! Parses the characters of an answer from the left, each where it is announced.

ghost use Rattle.std.specs.Prelude.{◌≡◌, ◌≤◌, ◌<◌, drop, length, MatchResult};
ghost use Rattle.atr_core.specs.Answer.{xor_of, may_follow, names_other_than_0};
ghost use Rattle.atr_core.specs.FirstFault.{Plain, when, end_fault};
ghost use Rattle.atr_core.specs.Reading.{IsAt, Fails, FailsBefore, FailsAtGroups, FailsAtHistorical, HasMaybe, HasGroup, HasGroups, HasHistorical, SaysFault, group_due};

use crate::fault::{AtrFault, AtrReason};
use crate::group::{Group, TypedGroup};
use arrayvec::ArrayVec;

/// The most characters of an answer, TS included (ISO/IEC 7816-3, 8.2).
pub(crate) const LONGEST: usize = 33;

/// The most TDs of an answer: one for each character after T0.
pub(crate) const MOST_GROUPS: usize = 31;

/// The most historical bytes.
pub(crate) const MOST_HISTORICAL: usize = 15;

/// Reads the announced character at this place.
pub(crate) fn character(bytes: &[u8], place: usize) -> Result<u8, AtrFault>
    requires inside { place ≤ length bytes.now }
    requires within { place ≤ 33 }
    ensures { MatchResult result (IsAt bytes.now place) (Fails bytes.now place) }
{
    if place == LONGEST {
        Err(AtrFault {
            place,
            reason: AtrReason::TooLong,
        })
    } else if place == bytes.len() {
        Err(AtrFault {
            place,
            reason: AtrReason::Cut,
        })
    } else {
        Ok(bytes[place])
    }
}

/// Reads the character at this place if `bit` is 1, and returns the place after it.
fn maybe(bytes: &[u8], place: usize, bit: u8) -> Result<(Option<u8>, usize), AtrFault>
    requires inside { place ≤ length bytes.now }
    requires within { place ≤ 33 }
    requires bit { bit < 2 }
    ensures { MatchResult result (λ read. HasMaybe bytes.now place bit read.0 read.1)
        (FailsBefore bytes.now place (when bit Plain)) }
{
    if bit == 0 {
        return Ok((None, place));
    }
    let byte = character(bytes, place)?;
    Ok((Some(byte), place + 1))
}

/// Reads the TA, TB and TC that Y announces from this place on, and returns the place after them.
pub(crate) fn group(bytes: &[u8], place: usize, y: u8) -> Result<(Group, usize), AtrFault>
    requires inside { place ≤ length bytes.now }
    requires within { place ≤ 33 }
    ensures { MatchResult result (λ read. HasGroup bytes.now place y read.0 read.1)
        (FailsBefore bytes.now place (group_due y)) }
{
    let (ta, place) = maybe(bytes, place, y % 2)?;
    let (tb, place) = maybe(bytes, place, y / 2 % 2)?;
    let (tc, place) = maybe(bytes, place, y / 4 % 2)?;
    Ok((Group { ta, tb, tc }, place))
}

/// Reads all groups that TDs announce, and returns the place after them. The first TD is at `start`
/// if Y announces one.
pub(crate) fn typed_groups(
    bytes: &[u8],
    start: usize,
    y: u8,
) -> Result<(ArrayVec<TypedGroup, MOST_GROUPS>, usize), AtrFault>
    requires behind { 2 ≤ start }
    requires inside { start ≤ length bytes.now }
    requires within { start ≤ 33 }
    requires y { y < 16 }
    ensures { MatchResult result (λ read. HasGroups bytes.now start y read.0.items read.1)
        (FailsAtGroups bytes.now start y) }
{
    let mut others = ArrayVec::new();
    let mut place = start;
    let mut y = y;
    let mut last = None;
    // For the proof: the label names the loop's goals.
    'groups: while y >= 8 {
        let td = character(bytes, place)?;
        let t = td % 16;
        if !may_follow(last, t) {
            return Err(AtrFault {
                place,
                reason: AtrReason::OutOfOrder,
            });
        }
        let (group, end) = group(bytes, place + 1, td / 16)?;
        others.push(TypedGroup { t, group });
        place = end;
        y = td / 16;
        last = Some(t);
    }
    Ok((others, place))
}

/// Whether a TD may name this T after a TD that named `last`.
pub(crate) fn may_follow(last: Option<u8>, t: u8) -> bool
    ensures { result ≡ may_follow last t }
{
    match last {
        None => t < 15,
        Some(last) => last <= t,
    }
}

/// Reads `count` historical bytes, and returns the place after them.
pub(crate) fn historical(
    bytes: &[u8],
    start: usize,
    count: u8,
) -> Result<(ArrayVec<u8, MOST_HISTORICAL>, usize), AtrFault>
    requires inside { start ≤ length bytes.now }
    requires within { start ≤ 33 }
    requires few { count < 16 }
    ensures { MatchResult result (λ read. HasHistorical bytes.now start count read.0.items read.1)
        (FailsAtHistorical bytes.now start count) }
{
    let mut historical = ArrayVec::new();
    let mut place = start;
    for _ in 0..count {
        let byte = character(bytes, place)?;
        historical.push(byte);
        place += 1;
    }
    Ok((historical, place))
}

/// Whether some TD names a T other than 0, so that the answer ends in a check byte.
pub(crate) fn names_other_than_0(others: &[TypedGroup]) -> bool
    ensures { result ≡ names_other_than_0 others.now }
{
    others.iter().any(|named| named.t != 0)
}

/// The exclusive-or of all bytes.
pub(crate) fn xor_of(bytes: &[u8]) -> u8
    ensures { result ≡ xor_of bytes.now }
{
    let mut sum = 0;
    for byte in bytes {
        sum ^= *byte;
    }
    sum
}

/// Checks that the answer ends at this place, with a correct check byte if `is_due`.
pub(crate) fn check_end(bytes: &[u8], place: usize, is_due: bool) -> Result<(), AtrFault>
    requires inside { place ≤ length bytes.now }
    requires behind { 1 ≤ place }
    ensures { SaysFault result (end_fault bytes.now is_due place (drop place bytes.now)) }
{
    let behind = bytes.len() - place;
    let reason = if !is_due {
        match behind {
            0 => return Ok(()),
            1 => AtrReason::CheckNotDue,
            _ => AtrReason::Surplus,
        }
    } else if place == LONGEST {
        AtrReason::TooLong
    } else if behind == 0 {
        AtrReason::CheckMissing
    } else if behind > 1 {
        return Err(AtrFault {
            place: place + 1,
            reason: AtrReason::Surplus,
        });
    } else if bytes[place] == xor_of(&bytes[1..place]) {
        return Ok(());
    } else {
        AtrReason::CheckWrong
    };
    Err(AtrFault { place, reason })
}
