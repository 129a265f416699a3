//! The boxes of the parts before a dialogue: answers to reset and PPS exchanges.

use crate::describe::block_words::{push_blocks, push_row};
use crate::describe::mask::Mask;
use crate::follow::block_row::BlockRows;
use crate::follow::opening::{Role, Stage};
use crate::follow::preface::Preface;
use crate::write::answer::tell_answer;
use crate::write::counts::Counts;
use crate::write::layout::{Anchor, Kind, Side, Topic};
use crate::write::page::Page;
use crate::write::pps::tell_pps;
use crate::write::sheet::Sheet;

/// Adds the box of the part that ended with a character of this role, if any.
pub fn tell_after(
    role: Role,
    preface: &Preface,
    mask: &Mask,
    counts: &mut Counts,
    page: &mut Page,
) {
    match (role, preface.stage) {
        (Role::Answer, Stage::Ready | Stage::Astray) => tell_answer(mask, preface, counts, page),
        (Role::Response, Stage::Ready) => tell_pps(mask, preface, page),
        _ => {}
    }
}

/// Adds the box of blocks that belong to no whole command with its response, if there are any. A
/// mask that hides anything hides what they carry.
fn tell_blocks(mask: &Mask, preface: &Preface, page: &mut Page) {
    let Some(blocks) = &preface.blocks else {
        return;
    };
    if blocks.is_empty() {
        return;
    }
    page.open(Kind::CutOff, Anchor::None, Topic::Blocks, page.began);
    push_blocks(&mut page.lines, &blocks.rows);
    if let Some(part) = blocks.part() {
        push_row(&mut page.lines, part);
    }
    page.row(Side::Nobody, "blocks");
    let (command, answer) = blocks.unanswered();
    push_carried(&mut page.lines, command, mask);
    page.row(Side::Terminal, "command");
    push_carried(&mut page.lines, answer, mask);
    page.row(Side::Card, "answer");
    page.close();
}

/// Adds the blocks of a command that is no TPDU as a note.
pub fn tell_dropped(blocks: BlockRows, page: &mut Page) {
    push_blocks(&mut page.lines, &blocks);
    page.note(Topic::Note);
}

/// Adds what blocks carry, if anything.
fn push_carried(text: &mut Sheet, bytes: &[u8], mask: &Mask) {
    if !bytes.is_empty() {
        mask.push_unknown(text, bytes);
    }
}

/// Adds the box of the part that is in progress, if any.
pub fn tell_part(preface: &Preface, mask: &Mask, counts: &mut Counts, page: &mut Page) {
    match preface.stage {
        Stage::Answer => tell_answer(mask, preface, counts, page),
        Stage::Request | Stage::Asked | Stage::Response => tell_pps(mask, preface, page),
        Stage::Blocks => tell_blocks(mask, preface, page),
        Stage::Ready | Stage::Astray | Stage::Begun => {}
    }
}
