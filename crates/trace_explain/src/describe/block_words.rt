//! Words for the blocks of a command at T=1: a line for each, with its kind and size.

use crate::follow::block_row::{BlockKind, BlockRow, BlockRows};
use crate::write::sheet::Sheet;
use t1_core::{BlockReason, Control, Damage, End, Role};

/// Adds a line for each block.
pub fn push_blocks(text: &mut Sheet, blocks: &BlockRows) {
    for &row in &blocks.rows {
        push_row(text, row);
    }
    if blocks.others > 0 {
        writeln!(text, "and {} more", blocks.others);
    }
}

/// Adds a block as a line, with the sign of its sender.
pub fn push_row(text: &mut Sheet, row: BlockRow) {
    text.push_str(match row.from {
        End::Terminal => "> ",
        End::Card => "< ",
    });
    push_kind(text, row);
    text.push_str(match row.role {
        Role::Repetition { .. } => ", again",
        Role::Asks => ", asks for a block again",
        Role::Unknown => ", new or again: blocks before it are missing",
        _ => "",
    });
    text.push('\n');
}

/// Adds its kind and size.
fn push_kind(text: &mut Sheet, row: BlockRow) {
    let size = row.size;
    match row.kind {
        BlockKind::Information(number, more) => {
            let more = if more { ", more" } else { "" };
            write!(text, "I({}) {size}{more}", u8::from(number));
        }
        BlockKind::Ready(number, reason) => {
            write!(text, "R({})", u8::from(number));
            text.push_str(match reason {
                BlockReason::NoError => "",
                BlockReason::Edc => ", wrong EDC or parity",
                BlockReason::Other => ", another error",
            });
        }
        BlockKind::Request(control) => push_control(text, control, "request"),
        BlockKind::Response(control) => push_control(text, control, "response"),
        BlockKind::Damaged(why, fits_crc) => {
            let why = words_of(why);
            write!(text, "damaged block of {size} bytes: {why}");
            text.push_str(if fits_crc { " (a CRC fits)" } else { "" });
        }
        BlockKind::Part => write!(text, "part of a block: {size} bytes"),
    }
}

/// Adds what an S-block controls.
fn push_control(text: &mut Sheet, control: Control, word: &str) {
    match control {
        Control::Resynch => write!(text, "S(RESYNCH {word})"),
        Control::Ifs(size) => write!(text, "S(IFS {word}) {size}"),
        Control::Abort => write!(text, "S(ABORT {word})"),
        Control::Wtx(times) => write!(text, "S(WTX {word}) {times}"),
    }
}

/// What is wrong with a damaged block.
fn words_of(why: Damage) -> &'static str {
    match why {
        Damage::Lrc => "wrong LRC",
        Damage::Crc => "wrong CRC",
        Damage::Nad => "invalid NAD",
        Damage::Pcb => "invalid PCB",
        Damage::Len => "invalid LEN",
    }
}
