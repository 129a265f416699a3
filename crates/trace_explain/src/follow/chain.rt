//! Chains of commands (ISO/IEC 7816-4, 5.1.1.1).

use crate::follow::links::Link;
use apdu_core::Header;
use arrayvec::ArrayVec;
use std::alloc::{AllocError, Global};

/// A value of this size or more is not shown whole (profile): no hostile trace fills memory.
pub const VALUE_LIMIT: usize = 65_536;

/// How many dropped chains are known (profile).
const DROPPED: usize = 16;

/// Bit 5 of CLA: more commands of the chain follow.
const MORE: u8 = 0x10;

/// Bit 8 of CLA: a proprietary class, in which bit 5 has nothing to do with chains.
const PROPRIETARY: u8 = 0x80;

/// The pending chain, if there is one, as a listener reads it.
#[derive(Drop)]
pub struct PendingChain {
    pending: Option<Header>,
    /// Dropped chains, each until a command like its last piece follows.
    dropped: ArrayVec<Option<Header>, DROPPED>,
    /// Whether another chain was dropped, so that any last piece may be its own.
    has_forgotten: bool,
    pieces: u64,
    /// Whether, as far as known, all pieces and all bytes of each were received.
    pub is_whole: bool,
    /// The bytes of the pieces; only the first of them from `VALUE_LIMIT` on.
    pub value: Vec<u8>,
}

impl PendingChain {
    /// Starts without a chain.
    pub fn new(alloc: Global) -> PendingChain {
        PendingChain {
            pending: None,
            dropped: ArrayVec::new(),
            has_forgotten: false,
            pieces: 0,
            is_whole: true,
            value: Vec::new(alloc),
        }
    }

    /// Whether a chain is pending.
    pub fn is_pending(&self) -> bool {
        self.pending.is_some()
    }

    /// Drops the chain.
    pub fn drop_all(&mut self) {
        if let Some(last) = self.pending {
            self.note_dropped(last);
        }
        self.pending = None;
        self.pieces = 0;
        self.is_whole = true;
        self.value.clear();
    }

    /// Notes a chain that was dropped, by the header of its last piece.
    fn note_dropped(&mut self, last: Header) {
        let last = Some(last);
        if !self.dropped.contains(&last) && self.dropped.try_push(last).is_err() {
            self.has_forgotten = true;
        }
    }

    /// Notes that a command like the last piece of a dropped chain follows.
    fn forget(&mut self, last: Header) {
        self.dropped.retain(|other| *other != Some(last));
    }

    /// Notes that characters were missed, so pieces may be missing.
    pub fn lose_some(&mut self) {
        self.is_whole = false;
    }

    /// Whether a command with this header continues the pending chain.
    pub fn continues_with(&self, header: Header) -> bool {
        self.pending == Some(as_last(header))
    }

    /// Whether the data of a command with this header may be a part of a value: of the pending
    /// chain, or of one that was dropped.
    pub fn is_part(&self, header: Header) -> bool {
        self.continues_with(header)
            || self.has_forgotten
            || self.dropped.contains(&Some(as_last(header)))
    }

    /// Returns which piece a command with this header is, if it continues the chain or begins one.
    pub fn link_of(&self, header: Header) -> Link {
        let continues = self.continues_with(header);
        let before = if continues { self.pieces } else { 0 };
        let number = before.saturating_add(1);
        match (continues, has_more(header)) {
            (false, false) => Link::None,
            (true, true) if !self.is_whole => Link::LaterPiece,
            (true, false) if !self.is_whole => Link::LastOfLater,
            (_, true) => Link::Piece(number),
            (true, false) => Link::LastPiece(number),
        }
    }

    /// Takes the next command. It continues the pending chain, or drops chain and value, and may
    /// begin one. `piece` is its data. If they were not all received (`is_complete`), the piece is
    /// added, and the value is not whole. After the last piece no chain is pending, and the value
    /// remains until the next call. Returns `AllocError` if memory ran out: the piece is counted,
    /// and `value` lacks it; drop the chain.
    pub fn take(
        &mut self,
        header: Header,
        piece: &[u8],
        is_complete: bool,
    ) -> Result<(), AllocError> {
        let continues = self.continues_with(header);
        if !continues {
            self.drop_all();
        }
        self.forget(header);
        if !continues && !has_more(header) {
            return Ok(());
        }
        self.pieces = self.pieces.saturating_add(1);
        self.is_whole = self.is_whole && is_complete;
        if self.value.len() < VALUE_LIMIT {
            self.value.extend_from_slice(piece)?;
        }
        self.pending = has_more(header).then(|| as_last(header));
        Ok(())
    }
}

/// Returns the header without the bit for more commands.
fn as_last(header: Header) -> Header {
    Header {
        cla: header.cla & !MORE,
        ..header
    }
}

/// Whether more commands of the chain follow this header.
pub fn has_more(header: Header) -> bool {
    header.cla & PROPRIETARY == 0 && header.cla & MORE != 0
}
