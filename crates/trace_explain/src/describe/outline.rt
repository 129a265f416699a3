//! A TPDU without its data, from which the words for it are made. So no word can show hidden data.
ghost use Rattle.std.specs.Prelude.{◌≡◌, ◌≢◌, [], get_or};

use crate::follow::story::{header_of, sent, status_of};
use crate::follow::tally::Tally;
use crate::follow::tpdu::Tpdu;
use crate::instructions::{has_messaging, name_of_command};
use apdu_core::{Header, Status};
use t0_core::Direction;

/// A header that shows nothing of a hidden one: no instruction has it.
const NO_COMMAND: Header = Header {
    cla: 0,
    ins: 0,
    p1: 0,
    p2: 0,
};

/// A TPDU without its data.
#[derive(Clone, Copy)]
pub struct Outline {
    /// Whether its header is hidden. `header` is then that of no instruction.
    pub is_hidden: bool,
    /// The header and P3, if complete.
    pub header: Option<(Header, u8)>,
    /// How many characters the header has.
    pub received: usize,
    /// The procedure bytes.
    pub tally: Tally,
    /// Which way data went, if there are any.
    pub way: Option<Direction>,
    /// How many bytes of data it has.
    pub moved: usize,
    /// The status, if complete.
    pub status: Option<Status>,
    /// Whether it has SW1.
    pub has_sw1: bool,
}

impl Outline {
    /// The outline of a TPDU, whose header may be hidden.
    pub fn of(tpdu: &Tpdu, is_hidden: bool) -> Outline {
        let header = header_of(tpdu);
        Outline {
            is_hidden,
            header: if is_hidden {
                header.and(Some((NO_COMMAND, 0)))
            } else {
                header
            },
            received: tpdu.header.len(),
            tally: tpdu.tally,
            way: tpdu.way,
            moved: tpdu.moved.len(),
            status: status_of(tpdu),
            has_sw1: !tpdu.status.is_empty(),
        }
    }

    /// The name of the instruction; empty if it is unknown, hidden or cut off.
    pub fn instruction(&self) -> &'static str {
        match self.header {
            Some((header, _)) if !self.is_hidden => { name_of_command(header).unwrap_or("") }
            _ => "",
        }
    }
}

/// The name or path of SELECT. Nothing for any other command, whose data may be hidden, and with
/// secure messaging.
pub fn name_of(tpdu: &Tpdu) -> &[u8]
    ensures { get_or tpdu.now.header.items 1 0 ≢ 0xA4 → result.now ≡ [] }
{
    match header_of(tpdu) {
        Some((header, _)) if header.ins == 0xA4 && !has_messaging(header.cla) => sent(tpdu),
        _ => &[],
    }
}
