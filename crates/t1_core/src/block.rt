//! A block, as an end sends and takes it.
use crate::pcb::BlockReason;

/// A block whose bytes are valid (ISO/IEC 7816-3, clause 11). N(S) and N(R) are 0 (`false`) or 1.
#[derive(Clone, Copy, Debug)]
pub enum Block<'a> {
    /// An I-block: N(S), the more-data bit, and 0 to 254 bytes; with the bit at least 1 (profile).
    Information {
        number: bool,
        more: bool,
        info: &'a [u8],
    },
    /// An R-block: N(R), and the error that it reports, which has no effect.
    Ready {
        number: bool,
        reason: BlockReason,
    },
    /// An S-block with a request.
    Request(Control),
    /// An S-block with a response.
    Response(Control),
}

/// What an S-block controls (ISO/IEC 7816-3, clause 11).
#[derive(Clone, Copy, Debug, PartialEq, Eq)]
pub enum Control {
    /// The card's end starts again, as after a reset; the card behind it stays as it is (profile).
    /// The terminal's end never requests it. From the card, request or response, it spends a try.
    Resynch,
    /// The sender of the request takes fields of at most this size, 1 to 254 bytes, from now on.
    /// An end does not accept 0 and 255.
    Ifs(u8),
    /// The chain in progress ends. The card's end drops its command or response. The terminal's end
    /// gives up, and never requests it.
    Abort,
    /// The card asks for this multiple of BWT for the next block.
    Wtx(u8),
}
