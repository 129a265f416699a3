//! What several TPDUs share: their numbers, chains, and responses in parts.
ghost use Rattle.std.specs.Prelude.{◌≡◌, ◌≢◌, length, None, Some, IfOk, IfSome, IsSome};
ghost use Rattle.trace_explain.specs.Boxes.{HasAsker};
ghost use Rattle.trace_explain.specs.Reports.{IsOfCommand, one_more};

use crate::follow::chain::{PendingChain, VALUE_LIMIT};
use crate::follow::links::{Link, Links, Whole};
use crate::follow::response::{PendingResponse, SHOWN_LIMIT};
use crate::follow::tpdu::Tpdu;
use apdu_core::{Header, Status};
use std::alloc::{AllocError, Global};
use t0_core::Direction;

/// What several TPDUs share: their numbers, chains, and responses in parts.
#[derive(Drop)]
pub struct Story {
    number: u64,
    chain: PendingChain,
    response: PendingResponse,
    /// Whether the last whole TPDU was an ENVELOPE with data, which the next one may continue.
    is_enveloped: bool,
}

impl Story {
    /// Starts before the first TPDU.
    pub fn new(alloc: Global) -> Story
        ensures { result.number ≡ 0 }
    {
        Story {
            number: 0,
            chain: PendingChain::new(alloc),
            response: PendingResponse::new(alloc),
            is_enveloped: false,
        }
    }

    /// Counts a TPDU, and returns how it is linked to those before it. One that is cut off changes
    /// neither the chain nor the response. Returns `AllocError` if memory ran out: the TPDU is
    /// counted, and its data may be missing; drop the story.
    pub fn tell(&mut self, tpdu: &Tpdu) -> Result<Links, AllocError>
        ensures next { self.new.number ≡ one_more self.old.number }
        ensures number { IfOk result (λ links. links.number ≡ self.new.number) }
        ensures asker { IfOk result (HasAsker tpdu.now.header.items) }
    {
        self.number = self.number.saturating_add(1);
        match (header_of(tpdu), status_of(tpdu)) {
            (Some((header, p3)), Some(status)) => self.tell_whole(tpdu, header, p3, status),
            (Some((header, p3)), None) => Ok(self.linked(tpdu, header, le_of(tpdu, p3))),
            _ => Ok(self.with(Link::None)),
        }
    }

    /// The same for a TPDU with this header, P3 and status.
    fn tell_whole(
        &mut self,
        tpdu: &Tpdu,
        header: Header,
        p3: u8,
        status: Status,
    ) -> Result<Links, AllocError>
        ensures stays { self.new.number ≡ self.old.number }
        ensures number { IfOk result (λ links. links.number ≡ self.old.number) }
        ensures asker { IfOk result (λ links.
            header.ins ≢ 0xC0 → links.asker ≡ Some header) }
    {
        let drops_before = self.chain.is_pending() && !self.chain.continues_with(header);
        let piece = self.chain.link_of(header);
        let le = le_of(tpdu, p3);
        let links = self.linked(tpdu, header, le);
        if matches!(self.response.link_of(header, le), Link::None) {
            self.response.begin(header);
        }
        self.chain
            .take(header, sent(tpdu), sent(tpdu).len() == usize::from(p3))?;
        self.response.take(brought(tpdu))?;
        self.is_enveloped = header.ins == 0xC2 && !sent(tpdu).is_empty();
        let drops_after = self.chain.is_pending() && !status.is_ok();
        let parts = self.response.end(header, status);
        if drops_after {
            self.chain.drop_all();
        }
        Ok(Links {
            drops_before,
            drops_after,
            whole: self.completed(piece, parts),
            ..links
        })
    }

    /// Returns how a TPDU and its data continue those before it. `le` is its P3 or Le.
    fn linked(&self, tpdu: &Tpdu, header: Header, le: u8) -> Links
        ensures number { result.number ≡ self.now.number }
        ensures asker { header.ins ≢ 0xC0 → result.asker ≡ Some header }
    {
        let (is_asked, link) = match self.response.link_of(header, le) {
            Link::None => (false, self.chain.link_of(header)),
            asked => (true, asked),
        };
        let asker = match header.ins {
            0xC0 if is_asked => self.response.asker,
            _ => Some(header),
        };
        let answer_continues = is_asked && self.response.has_data();
        let continues = match tpdu.way {
            Some(Direction::FromCard) => answer_continues,
            _ => self.chain.is_part(header) || (self.is_enveloped && header.ins == 0xC2),
        };
        Links {
            asker,
            continues,
            answer_continues,
            ..self.with(link)
        }
    }

    /// Returns what is complete with this piece, or in this many parts.
    fn completed(&self, piece: Link, parts: u64) -> Whole {
        match piece {
            Link::LastPiece(pieces)
                if self.chain.is_whole && self.chain.value.len() < VALUE_LIMIT => {
                Whole::Value(pieces)
            }
            _ if parts > 1 && self.response.bytes.len() < SHOWN_LIMIT => { Whole::Response(parts) }
            _ => Whole::None,
        }
    }

    /// Notes that characters were missed: the current response ends, and the number of the next
    /// piece of a chain is unknown.
    pub fn lose_some(&mut self)
        ensures { self.new.number ≡ self.old.number }
    {
        self.response.drop_all();
        self.chain.lose_some();
    }

    /// Forgets chain and response at a reset; numbers continue. Returns whether it drops a chain.
    pub fn reset(&mut self) -> bool
        ensures { self.new.number ≡ self.old.number }
    {
        let drops = self.chain.is_pending();
        self.chain.drop_all();
        self.response.drop_all();
        drops
    }

    /// Returns the bytes of what is complete with the last TPDU; no bytes for `None`.
    pub fn whole(&self, whole: Whole) -> &[u8] {
        match whole {
            Whole::None => &[],
            Whole::Response(_) => self.response.bytes.as_slice(),
            Whole::Value(_) => self.chain.value.as_slice(),
        }
    }

    /// Returns the links of a TPDU that only continues others so.
    fn with(&self, link: Link) -> Links
        ensures number { result.number ≡ self.now.number }
        ensures asker { result.asker ≡ None }
    {
        Links {
            number: self.number,
            link,
            drops_before: false,
            drops_after: false,
            whole: Whole::None,
            asker: None,
            continues: false,
            answer_continues: false,
            joins: false,
        }
    }
}

/// Returns the header of a TPDU and P3, if all of it was received.
pub fn header_of(tpdu: &Tpdu) -> Option<(Header, u8)>
    ensures header { IfSome result (λ found. IsOfCommand tpdu.now.header.items found.0) }
    ensures whole { length tpdu.now.header.items ≡ 5 → IsSome result }
{
    match tpdu.header.as_slice() {
        [cla, ins, p1, p2, p3] => {
            let header = Header {
                cla: *cla,
                ins: *ins,
                p1: *p1,
                p2: *p2,
            };
            Some((header, *p3))
        }
        _ => None,
    }
}

/// Returns the status of a whole TPDU; `None` if it is cut off.
pub fn status_of(tpdu: &Tpdu) -> Option<Status> {
    match tpdu.status.as_slice() {
        [sw1, sw2] => Status::new(*sw1, *sw2),
        _ => None,
    }
}

/// Returns the terminal's data, as far as received.
pub fn sent(tpdu: &Tpdu) -> &[u8] {
    if tpdu.way == Some(Direction::ToCard) {
        tpdu.moved.as_slice()
    } else {
        &[]
    }
}

/// Returns the card's data, as far as received.
pub fn brought(tpdu: &Tpdu) -> &[u8] {
    if tpdu.way == Some(Direction::FromCard) {
        tpdu.moved.as_slice()
    } else {
        tpdu.answer.as_slice()
    }
}

/// Returns how many bytes are asked for: Le of a command APDU, or P3.
fn le_of(tpdu: &Tpdu, p3: u8) -> u8 {
    tpdu.le.unwrap_or(p3)
}
