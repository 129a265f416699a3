//! All text on standard output: operations, tables and trees. Each function returns `AllocError` if
//! memory runs out; what it has appended is then unknown.
ghost use Rattle.std.specs.Prelude.{◌≡◌, ◌++◌, ◌+◌, List, Some, map, codes, OnOk, IfOk};
ghost use Rattle.hex.specs.Hex.{encode_upper};
ghost use Rattle.tlv_core.specs.Object.{IsObjectList};
ghost use Rattle.tlv_core.specs.Spelling.{Forest, Spells};
ghost use Rattle.t0_core.specs.Character.{sent_by};
ghost use Rattle.object_card.specs.Tables.{Entry, entries_in};
ghost use Rattle.card_trace.specs.ForestText.{indent, lines_below};
ghost use Rattle.card_trace.specs.LineText.{newline, value_text};
ghost use Rattle.card_trace.specs.MarkedLines.{marked_lines};
ghost use Rattle.card_trace.specs.TableText.{mark, entry_line, table_text as text_of_table};
ghost use Rattle.card_trace.specs.TraceText.{spaced, sign, characters_text, answer_text, operation_text as text_of_operation, handed_out_text as text_handed_out};

use card_terminal::Answer;
use object_card::{Aid, Entries, ObjectCard};
use std::alloc::{AllocError, Allocator};
use t0_core::End;
use tlv_core::{ObjectTag, Objects};

/// Returns the lines of an operation. Each longest run of characters from one end is a line, after
/// `> ` for the terminal or `< ` for the card. The last is the status and the data, after `= `.
///
/// # Errors
///
/// - `AllocError`: memory ran out; there is no text.
pub fn operation_text<A: Allocator + Copy, B: Allocator>(
    alloc: A,
    characters: &[(End, u8)],
    answer: &Answer<B>,
) -> Result<Vec<u8, A>, AllocError>
    ensures { IfOk result (λ text. text.items ≡ text_of_operation characters.now answer.now) }
{
    let mut text = Vec::new(alloc);
    push_characters(alloc, &mut text, characters)?;
    push_answer(alloc, &mut text, answer)?;
    Ok(text)
}

/// Returns the line of the characters that a card's end handed out; `<` alone if it has none.
///
/// # Errors
///
/// - `AllocError`: memory ran out; there is no text.
pub fn handed_out_text<A: Allocator + Copy>(
    alloc: A,
    characters: &[u8],
) -> Result<Vec<u8, A>, AllocError>
    ensures { IfOk result (λ text. text.items ≡ text_handed_out characters.now) }
{
    let mut text = Vec::from_slice(alloc, b"<")?;
    push_spaced(alloc, &mut text, characters)?;
    text.push(b'\n')?;
    Ok(text)
}

/// Appends the lines of the characters.
fn push_characters<A: Allocator + Copy>(
    alloc: A,
    text: &mut Vec<u8, A>,
    characters: &[(End, u8)],
) -> Result<(), AllocError>
    ensures { OnOk result (text.new.items ≡ text.old.items ++ characters_text characters.now) }
{
    let mut from = End::Terminal;
    let mut run = Vec::new(alloc);
    for character in characters {
        if character.0 != from {
            push_run(alloc, text, from, run.as_slice())?;
            run.clear();
            from = character.0;
        }
        run.push(character.1)?;
    }
    push_run(alloc, text, from, run.as_slice())
}

/// Appends the line of a run of characters from one end; nothing if it is empty.
fn push_run<A: Allocator>(
    alloc: A,
    text: &mut Vec<u8, A>,
    from: End,
    bytes: &[u8],
) -> Result<(), AllocError>
    ensures { OnOk result (text.new.items
        ≡ text.old.items ++ characters_text (sent_by from bytes.now)) }
{
    if bytes.is_empty() {
        return Ok(());
    }
    text.extend_from_slice(sign_of(from))?;
    push_hex(alloc, text, bytes)?;
    text.extend_from_slice(b"\n")
}

/// The sign before the characters of an end.
fn sign_of(from: End) -> &'static [u8]
    ensures { result.now ≡ sign from }
{
    match from {
        End::Terminal => b"> ",
        End::Card => b"< ",
    }
}

/// Appends the line of the answer.
fn push_answer<A: Allocator + Copy, B: Allocator>(
    alloc: A,
    text: &mut Vec<u8, A>,
    answer: &Answer<B>,
) -> Result<(), AllocError>
    ensures { OnOk result (text.new.items ≡ text.old.items ++ answer_text answer.now) }
{
    let status = answer.status();
    text.extend_from_slice(b"= ")?;
    push_hex(alloc, text, &[status.sw1(), status.sw2()])?;
    push_spaced(alloc, text, answer.data())?;
    text.extend_from_slice(b"\n")
}

/// Appends a space and the bytes; nothing for no bytes.
fn push_spaced<A: Allocator + Copy>(
    alloc: A,
    text: &mut Vec<u8, A>,
    bytes: &[u8],
) -> Result<(), AllocError>
    ensures { OnOk result (text.new.items ≡ text.old.items ++ spaced bytes.now) }
{
    if bytes.is_empty() {
        return Ok(());
    }
    text.push(b' ')?;
    push_hex(alloc, text, bytes)
}

/// Returns the lines of a card's applications, each followed by those of its entries: tag, value or
/// `-`, and `locked` if no command changes it.
///
/// # Errors
///
/// - `AllocError`: memory ran out; there is no text.
pub fn table_text<A: Allocator + Copy, B: Allocator>(
    alloc: A,
    card: &ObjectCard<B>,
) -> Result<Vec<u8, A>, AllocError>
    ensures { IfOk result (λ text. text.items ≡ text_of_table card.now.state.applications) }
{
    let mut text = Vec::new(alloc);
    for aid in card.apps() {
        push_application(alloc, &mut text, card, &aid)?;
    }
    Ok(text)
}

/// Appends the lines of an application.
fn push_application<A: Allocator + Copy, B: Allocator>(
    alloc: A,
    text: &mut Vec<u8, A>,
    card: &ObjectCard<B>,
    aid: &Aid,
) -> Result<(), AllocError>
    ensures { (entries : List Entry) →
        entries_in aid.now card.now.state.applications ≡ Some entries →
        OnOk result (text.new.items ≡ text.old.items
        ++ (codes "app " ++ encode_upper aid.now ++ newline
        ++ marked_lines (Some entries) (map (λ e. (e.tag, e.value)) entries))) }
{
    text.extend_from_slice(b"app ")?;
    push_hex(alloc, text, aid.bytes())?;
    text.push(b'\n')?;
    match card.entries(aid) {
        Some(entries) => push_entries(alloc, text, card, aid, entries),
        None => Ok(()),
    }
}

/// Appends the lines of an application's entries.
fn push_entries<A: Allocator + Copy, B: Allocator>(
    alloc: A,
    text: &mut Vec<u8, A>,
    card: &ObjectCard<B>,
    aid: &Aid,
    entries: Entries<'_, B>,
) -> Result<(), AllocError>
    ensures { OnOk result (text.new.items ≡ text.old.items
        ++ marked_lines (entries_in aid.now card.now.state.applications) entries.entry) }
{
    for (tag, value) in entries {
        push_entry(alloc, text, tag, value, card.is_locked(aid, tag))?;
    }
    Ok(())
}

/// Appends the line of an entry.
fn push_entry<A: Allocator + Copy>(
    alloc: A,
    text: &mut Vec<u8, A>,
    tag: ObjectTag,
    value: &[u8],
    locked: bool,
) -> Result<(), AllocError>
    ensures { OnOk result (text.new.items ≡ text.old.items
        ++ entry_line (record { tag = tag; value = value.now; locked = locked })) }
{
    text.extend_from_slice(b"  ")?;
    push_hex(alloc, text, tag.tag().bytes())?;
    text.push(b' ')?;
    push_value(alloc, text, value)?;
    push_mark(text, locked)?;
    text.extend_from_slice(b"\n")
}

/// Appends the mark of a locked entry; nothing for another.
fn push_mark<A: Allocator>(text: &mut Vec<u8, A>, locked: bool) -> Result<(), AllocError>
    ensures { OnOk result (text.new.items ≡ text.old.items ++ mark locked) }
{
    text.extend_from_slice(if locked { b" locked" } else { b"" })
}

/// Appends the lines of objects that are `below` levels below the first. The list must be at level
/// `below` + 1.
///
/// # Errors
///
/// - `AllocError`: memory ran out; `text` may lack some of them.
pub fn push_objects<A: Allocator + Copy>(
    alloc: A,
    text: &mut Vec<u8, A>,
    objects: Objects<'_>,
    below: usize,
) -> Result<(), AllocError>
    requires list { IsObjectList objects }
    requires level { objects.level ≡ below + 1 }
    ensures { OnOk result ((forest : Forest)
        × Spells forest objects.entry.bytes objects.entry.level
        × (text.new.items ≡ text.old.items ++ lines_below below forest)) }
{
    for object in objects {
        push_indent(text, below)?;
        push_hex(alloc, text, object.tag().bytes())?;
        match object.children() {
            None => {
                text.push(b' ')?;
                push_value(alloc, text, object.value())?;
                text.push(b'\n')?;
            }
            Some(children) => {
                text.push(b'\n')?;
                push_objects(alloc, text, children, below + 1)?;
            }
        }
    }
    Ok(())
}

/// Appends two spaces for each level below the first.
fn push_indent<A: Allocator>(text: &mut Vec<u8, A>, below: usize) -> Result<(), AllocError>
    ensures { OnOk result (text.new.items ≡ text.old.items ++ indent below) }
{
    for _level in 0..below {
        text.extend_from_slice(b"  ")?;
    }
    Ok(())
}

/// Appends bytes as hexadecimal digits in upper case.
fn push_hex<A: Allocator>(alloc: A, text: &mut Vec<u8, A>, bytes: &[u8]) -> Result<(), AllocError>
    ensures { OnOk result (text.new.items ≡ text.old.items ++ encode_upper bytes.now) }
{
    let digits = hex::encode_upper(alloc, bytes)?;
    text.extend_from_slice(digits.as_bytes())
}

/// Appends the digits of a value, or `-` if it is empty.
fn push_value<A: Allocator>(alloc: A, text: &mut Vec<u8, A>, value: &[u8]) -> Result<(), AllocError>
    ensures { OnOk result (text.new.items ≡ text.old.items ++ value_text value.now) }
{
    if value.is_empty() {
        text.extend_from_slice(b"-")
    } else {
        push_hex(alloc, text, value)
    }
}
