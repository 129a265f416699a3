//! Whose turn it is, for traces without signs.
ghost use Rattle.std.specs.Prelude.{◌≡◌, ◌==◌, get_or};
ghost use Rattle.trace_explain.specs.Reports.{report_of};
ghost use Rattle.trace_explain.specs.Turns.{between, card_if, data_at, turn_before, turn_within};

use crate::follow::opening::{PPSS, Stage, turned_by};
use crate::follow::tpdu::Tpdu;
use crate::read::ways::Ways;
use atr_core::Convention;
use t0_core::{Direction, Due, End};
use thiserror::Error;

/// Why the sender of a character is unknown.
#[derive(Clone, Copy, Debug, PartialEq, Eq, Error)]
pub enum TurnFault {
    /// It is the first data character, if this INS has data, and their way is unknown.
    #[error("which way the data of INS {0:02X} go is not known, unless \
        `--to-card {0:02X}` or `--from-card {0:02X}` says it")]
    Way(u8),
    /// It follows an invalid answer to reset, and may be part of that.
    #[error("which end sends what follows an answer to reset at fault is not known")]
    Answer,
}

/// Returns who sends this character before the dialogue. `has_answered`: an answer has begun.
///
/// # Errors
///
/// - `Answer`: the stage is `Astray`.
pub fn turn_before(stage: Stage, has_answered: bool, byte: u8) -> Result<End, TurnFault>
    ensures { result ≡ turn_before stage has_answered byte }
{
    match stage {
        Stage::Ready if has_answered => Ok(between(byte)),
        Stage::Ready => Ok(card_if(turned_by(byte).is_some())),
        Stage::Answer | Stage::Response => Ok(End::Card),
        Stage::Astray => Err(TurnFault::Answer),
        Stage::Request => Ok(End::Terminal),
        Stage::Asked if byte == PPSS => Ok(End::Card),
        Stage::Asked => Ok(between(byte)),
        Stage::Begun | Stage::Blocks => Ok(End::Terminal),
    }
}

/// Returns who sends this character in the dialogue.
///
/// # Errors
///
/// - `Way`: it is the first data character, and the way of the instruction is unknown.
pub fn turn_within(ways: &Ways, expected: Due, under_way: &Tpdu, byte: u8) -> Result<End, TurnFault>
    ensures { result ≡ turn_within ways.now expected (report_of under_way.now) byte }
{
    match expected {
        Due::Header if under_way.is_empty() => Ok(between(byte)),
        Due::Header => Ok(End::Terminal),
        Due::Procedure | Due::SecondStatus => Ok(End::Card),
        Due::Data(seen) => {
            let cla = at(under_way, 0);
            let ins = at(under_way, 1);
            let count = under_way.moved.len();
            data_at(at(under_way, 4), seen, ways.of(cla, ins), ins, count)
        }
    }
}

/// Returns a character of the header, counted from 0.
fn at(under_way: &Tpdu, place: usize) -> u8
    ensures { result ≡ get_or under_way.now.header.items place 0 }
{
    under_way.header.get(place).copied().unwrap_or(0)
}

/// Returns who sends a character that may begin a header or an answer: `3B` and `3F` are not a CLA
/// of ISO/IEC 7816-4.
fn between(byte: u8) -> End
    ensures { result ≡ between byte }
{
    card_if(Convention::of_ts(byte).is_some())
}

/// Returns the card if this holds, otherwise the terminal.
fn card_if(holds: bool) -> End
    ensures { result ≡ card_if holds }
{
    if holds { End::Card } else { End::Terminal }
}

/// Returns who sends a character after a procedure byte. `seen` is the way of the data so far,
/// `known` the way of the instruction, and `count` the number of data so far. If P3 is `00`, these
/// are the card's 256 data, or its status if the data go to it.
fn data_at(
    p3: u8,
    seen: Option<Direction>,
    known: Option<Direction>,
    ins: u8,
    count: usize,
) -> Result<End, TurnFault>
    ensures { result ≡ data_at (p3 == 0) seen known ins count }
{
    match (if p3 == 0 { known } else { seen.or(known) }) {
        Some(Direction::FromCard) => Ok(End::Card),
        Some(Direction::ToCard) => Ok(card_if(p3 == 0 && count < 2)),
        None => Err(TurnFault::Way(ins)),
    }
}
