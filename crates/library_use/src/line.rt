//! Passes one TPDU between the two ends of a line.

use apdu_core::Status;
use object_card::ObjectCard;
use std::alloc::Allocator;
use t0_core::{CardEnd, Gather, HostEnd, HostTurn, Plans, Turn};

/// The line failed, or the card never stopped sending NULLs.
#[derive(Clone, Copy, Debug, PartialEq, Eq)]
pub struct LineFailed;

/// Passes one TPDU between a terminal's end and a card's end, character by character. Returns the
/// status.
pub fn talk<A: Allocator, B: Allocator>(
    mut terminal: HostEnd<'_>,
    card: &mut CardEnd<ObjectCard>,
    plans: &mut Plans<A>,
    gather: &mut Gather<B>,
) -> Result<Status, LineFailed> {
    for _ in 0..u64::MAX {
        match terminal.next() {
            HostTurn::Sends(byte) => card.take(byte).map_err(|_| LineFailed)?,
            HostTurn::Listens => {
                if let Turn::Sends(byte) = card.turn(plans) {
                    terminal.take(byte, gather).map_err(|_| LineFailed)?;
                }
            }
            HostTurn::Done(status) => return Ok(status),
            HostTurn::Failed => return Err(LineFailed),
        }
    }
    Err(LineFailed)
}
