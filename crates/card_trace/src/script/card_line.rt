//! The lines of a script of `card`.
ghost use Rattle.std.specs.Prelude.{IfOk, IfErr};
ghost use Rattle.card_trace.specs.NoFields.{NoHex, NotOne, NoMost};
ghost use Rattle.card_trace.specs.ScriptReasons.{OnReason};
ghost use Rattle.card_trace.specs.ScriptFields.{IsHexText};
ghost use Rattle.card_trace.specs.ScriptTable.{OneField};
ghost use Rattle.card_trace.specs.ScriptWords.{words_in};
ghost use Rattle.card_trace.specs.ScriptCard.{part_of, act_of, IsMostText, SaysPart, SaysAct, NoPart, NoAct};

use crate::script::fields::{read_hex, read_number, read_plan};
use crate::script::keyword::Keyword;
use crate::script::reason::LineReason;
use crate::script::refusal::Refusal;
use crate::script::table_line::{TableLine, read_table_line};
use crate::script::words::{at_most_one_word, no_word, one_word, two_words};
use card_terminal::Bytes;
use std::alloc::{Allocator, Global};
use t0_core::Plan;

/// What a table line of `card` says.
#[derive(Drop)]
pub enum CardPart<A: Allocator = Global> {
    /// An application, or an entry of the last one.
    Adds(TableLine<A>),
    /// The characters of an answer to reset, which are not checked yet.
    Atr(Bytes<A>),
    /// A plan. The script's TPDUs take its plans in turn.
    Plan(Plan<A>),
}

/// What a run line of `card` says.
#[derive(Drop)]
pub enum CardAct<A: Allocator = Global> {
    /// Sends these characters to the card.
    Take(Bytes<A>),
    /// Prints the characters that the card hands out until it listens, at most this many, if given.
    HandOut(Option<u16>),
    /// Resets the card, which then hands out its answer to reset again. The plans stay.
    Reset,
    /// Prints the table.
    Table,
}

/// Reads a table line with this first word; `rest` is what follows it. The errors are those of
/// `Runner::read`, except `LateTableLine`. Any other first word is `UnknownWord`.
pub fn read_part<A: Allocator + Copy>(
    alloc: A,
    keyword: Keyword,
    rest: &[u8],
) -> Result<CardPart<A>, Refusal>
    ensures ok { IfOk result (λ part. SaysPart (part_of part) keyword (words_in rest.now)) }
    ensures refused { IfErr result (λ refusal.
        OnReason refusal (NoPart keyword (words_in rest.now))) }
{
    match keyword {
        Keyword::Adds(word) => Ok(CardPart::Adds(read_table_line(alloc, word, rest)?)),
        Keyword::Atr => Ok(CardPart::Atr(read_characters(alloc, rest)?)),
        Keyword::Plan => {
            let (steps, cut) = two_words(rest)?;
            Ok(CardPart::Plan(read_plan(alloc, steps, cut)?))
        }
        _ => Err(Refusal::Line(LineReason::UnknownWord)),
    }
}

/// Reads a run line with this first word; `rest` is what follows it. The errors are those of
/// `Runner::read`, except `LateTableLine`. Any other first word is `UnknownWord`.
pub fn read_act<A: Allocator>(
    alloc: A,
    keyword: Keyword,
    rest: &[u8],
) -> Result<CardAct<A>, Refusal>
    ensures ok { IfOk result (λ act. SaysAct (act_of act) keyword (words_in rest.now)) }
    ensures refused { IfErr result (λ refusal.
        OnReason refusal (NoAct keyword (words_in rest.now))) }
{
    match keyword {
        Keyword::Take => Ok(CardAct::Take(read_characters(alloc, rest)?)),
        Keyword::HandOut => Ok(CardAct::HandOut(read_most(rest)?)),
        Keyword::Reset => {
            no_word(rest)?;
            Ok(CardAct::Reset)
        }
        Keyword::Table => {
            no_word(rest)?;
            Ok(CardAct::Table)
        }
        _ => Err(Refusal::Line(LineReason::UnknownWord)),
    }
}

/// Reads the one field HEX.
///
/// # Errors
/// - `WrongWordCount`, `BadHex`: there is not one word, or it is not HEX.
/// - `OutOfMemory`: memory ran out.
fn read_characters<A: Allocator>(alloc: A, rest: &[u8]) -> Result<Bytes<A>, Refusal>
    ensures ok { IfOk result (λ bytes. OneField (words_in rest.now)
        (λ text. IsHexText text bytes)) }
    ensures refused { IfErr result (λ refusal.
        OnReason refusal (NotOne NoHex (words_in rest.now))) }
{
    let bytes = read_hex(alloc, one_word(rest)?)?;
    Ok(Bytes::new(bytes))
}

/// Reads the N of `< N`; `None` if there is no word.
///
/// # Errors
/// - `WrongWordCount`, `BadNumber`: there is more than one word, or it is no number of 1 to 65,535.
fn read_most(rest: &[u8]) -> Result<Option<u16>, LineReason>
    ensures ok { IfOk result (λ most. IsMostText (words_in rest.now) most) }
    ensures refused { IfErr result (NoMost (words_in rest.now)) }
{
    match at_most_one_word(rest)? {
        None => Ok(None),
        Some(word) => {
            let most = read_number(word).ok_or(LineReason::BadNumber)?;
            Ok(Some(most))
        }
    }
}
