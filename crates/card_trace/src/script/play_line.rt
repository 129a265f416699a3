//! The run lines of a script of `play`.
ghost use Rattle.std.specs.Prelude.{IfOk, IfErr};
ghost use Rattle.card_terminal.specs.Operations.{operation_of};
ghost use Rattle.card_trace.specs.ScriptReasons.{OnReason};
ghost use Rattle.card_trace.specs.ScriptWords.{words_in};
ghost use Rattle.card_trace.specs.ScriptPlay.{act_of, SaysOperation, SaysAct, NoOperation, NoAct};

use crate::script::fields::{read_aid, read_command, read_plan, read_tag};
use crate::script::keyword::Keyword;
use crate::script::reason::LineReason;
use crate::script::refusal::Refusal;
use crate::script::table_line::read_entry;
use crate::script::words::{no_word, one_word, two_words};
use card_terminal::{Bytes, Op, PUT_LIMIT};
use std::alloc::{Allocator, Global};
use t0_core::Plan;

/// What a run line of `play` says.
#[derive(Drop)]
pub enum PlayAct<A: Allocator = Global> {
    /// A plan for one TPDU of the next operation or command, after those before it.
    Plan(Plan<A>),
    /// An operation.
    Run(Op<A>),
    /// The bytes of one command to send, which is agreed with the card.
    Send(Bytes<A>),
    /// Resets the card. The plans stay.
    Reset,
    /// Prints the table.
    Table,
}

/// Reads a run line with this first word; `rest` is what follows it. The errors are those of
/// `Runner::read`, except `LateTableLine`.
pub fn read_act<A: Allocator + Copy>(
    alloc: A,
    keyword: Keyword,
    rest: &[u8],
) -> Result<PlayAct<A>, Refusal>
    ensures ok { IfOk result (λ act. SaysAct (act_of act) keyword (words_in rest.now)) }
    ensures refused { IfErr result (λ refusal.
        OnReason refusal (NoAct keyword (words_in rest.now))) }
{
    match keyword {
        Keyword::Plan => {
            let (steps, cut) = two_words(rest)?;
            Ok(PlayAct::Plan(read_plan(alloc, steps, cut)?))
        }
        Keyword::Send => Ok(PlayAct::Send(read_command(alloc, one_word(rest)?)?)),
        Keyword::Reset => {
            no_word(rest)?;
            Ok(PlayAct::Reset)
        }
        Keyword::Table => {
            no_word(rest)?;
            Ok(PlayAct::Table)
        }
        _ => Ok(PlayAct::Run(read_operation(alloc, keyword, rest)?)),
    }
}

/// Reads an operation with this first word; `rest` is what follows it. The errors are those of
/// `read_act`. A value above `PUT_LIMIT` is `ValueTooLong`, any other first word `UnknownWord`.
fn read_operation<A: Allocator + Copy>(
    alloc: A,
    keyword: Keyword,
    rest: &[u8],
) -> Result<Op<A>, Refusal>
    ensures ok { IfOk result (λ op. SaysOperation (operation_of op) keyword (words_in rest.now)) }
    ensures refused { IfErr result (λ refusal.
        OnReason refusal (NoOperation keyword (words_in rest.now))) }
{
    match keyword {
        Keyword::Select => Ok(Op::Select(read_aid(alloc, one_word(rest)?)?)),
        Keyword::Get => Ok(Op::Get(read_tag(alloc, one_word(rest)?)?)),
        Keyword::Put => {
            let (tag, value) = read_entry(alloc, rest)?;
            if value.bytes().len() > PUT_LIMIT {
                return Err(Refusal::Line(LineReason::ValueTooLong));
            }
            Ok(Op::Put(tag, value))
        }
        _ => Err(Refusal::Line(LineReason::UnknownWord)),
    }
}
