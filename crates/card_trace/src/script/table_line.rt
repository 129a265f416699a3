//! The table lines that `play` and `card` both have.
ghost use Rattle.std.specs.Prelude.{◌≡◌, OnOk, IfOk, IfErr};
ghost use Rattle.card_trace.specs.NoFields.{NoEntry, NoAddition};
ghost use Rattle.card_trace.specs.ScriptReasons.{OnReason};
ghost use Rattle.card_trace.specs.ScriptWords.{words_in};
ghost use Rattle.card_trace.specs.ScriptTable.{addition_of, table_word, AreTableFields, AreEntryFields};
ghost use Rattle.card_trace.specs.Scripts.{IsAdded, IsNotAdded};

use crate::script::fields::{read_aid, read_tag, read_value};
use crate::script::keyword::TableWord;
use crate::script::refusal::Refusal;
use crate::script::words::{one_word, two_words};
use card_terminal::Bytes;
use object_card::{Aid, CardBuilder};
use std::alloc::{Allocator, Global};
use tlv_core::ObjectTag;

/// A line of the table section.
#[derive(Drop)]
pub enum TableLine<A: Allocator = Global> {
    /// Adds an application without entries.
    App(Aid),
    /// Adds an entry to the last application, or replaces the one under this tag.
    Object(ObjectTag, Bytes<A>),
    /// Does the same, with a locked entry: no command changes it.
    Locked(ObjectTag, Bytes<A>),
}

/// Reads a table line with this first word; `rest` is what follows it.
///
/// # Errors
/// - `Line`: the number of words is wrong, or a field is invalid; the first that holds.
/// - `OutOfMemory`: memory ran out.
pub fn read_table_line<A: Allocator + Copy>(
    alloc: A,
    word: TableWord,
    rest: &[u8],
) -> Result<TableLine<A>, Refusal>
    ensures ok { IfOk result (λ line. (table_word (addition_of line) ≡ word)
        × AreTableFields (addition_of line) (words_in rest.now)) }
    ensures refused { IfErr result (λ refusal.
        OnReason refusal (NoAddition word (words_in rest.now))) }
{
    match word {
        TableWord::App => {
            let aid = read_aid(alloc, one_word(rest)?)?;
            Ok(TableLine::App(aid))
        }
        TableWord::Object => {
            let (tag, value) = read_entry(alloc, rest)?;
            Ok(TableLine::Object(tag, value))
        }
        TableWord::Locked => {
            let (tag, value) = read_entry(alloc, rest)?;
            Ok(TableLine::Locked(tag, value))
        }
    }
}

/// Reads the fields TAG and VALUE. The errors are those of `read_table_line`.
pub fn read_entry<A: Allocator + Copy>(
    alloc: A,
    rest: &[u8],
) -> Result<(ObjectTag, Bytes<A>), Refusal>
    ensures ok { IfOk result (λ entry. AreEntryFields (words_in rest.now) entry.0 entry.1) }
    ensures refused { IfErr result (λ refusal. OnReason refusal (NoEntry (words_in rest.now))) }
{
    let (tag, value) = two_words(rest)?;
    let tag = read_tag(alloc, tag)?;
    let value = read_value(alloc, value)?;
    Ok((tag, Bytes::new(value)))
}

/// Adds what a table line says to the card.
///
/// # Errors
/// The script ends after either.
/// - `Line`: the builder refuses it.
/// - `OutOfMemory`: memory ran out.
pub fn add<A: Allocator + Copy>(
    builder: &mut CardBuilder<A>,
    addition: TableLine<A>,
) -> Result<(), Refusal>
    ensures added { OnOk result (IsAdded builder.old (addition_of addition) builder.new) }
    ensures refused { IfErr result (IsNotAdded builder.old (addition_of addition)) }
{
    match addition {
        TableLine::App(aid) => builder.app(aid)?,
        TableLine::Object(tag, value) => builder.object(tag, value.bytes())?,
        TableLine::Locked(tag, value) => builder.locked(tag, value.bytes())?,
    }
    Ok(())
}
