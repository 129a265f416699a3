//! A response in parts (ISO/IEC 7816-3, clause 12).

use crate::follow::links::Link;
use crate::instructions::SIM_CLASS;
use apdu_core::{Header, Status, count};
use std::alloc::{AllocError, Global};

/// A response of this size or more is not shown whole (profile): no hostile trace fills memory.
pub const SHOWN_LIMIT: usize = 65_536;

/// Returns how many bytes wait after this status: `count(XX)` of `61XX`, and of `9FXX` in the class
/// of a SIM card (3GPP TS 51.011, 9.4.1). `None` after any other status.
pub fn waiting(header: Header, status: Status) -> Option<u16> {
    match status.sw1() {
        0x61 => Some(count(status.sw2())),
        0x9F if header.cla == SIM_CLASS => Some(count(status.sw2())),
        _ => None,
    }
}

/// What the last status asks of the terminal.
#[derive(Clone, Copy)]
enum Asked {
    Nothing,
    /// `61XX`, or `9FXX` of a SIM card: GET RESPONSE.
    Fetch,
    /// `6CXX`: the same header with this P3.
    Again(Header, u8),
}

/// The current response, as a listener reads it.
#[derive(Drop)]
pub struct PendingResponse {
    asked: Asked,
    /// The command that asked for it.
    pub asker: Option<Header>,
    parts: u64,
    /// The bytes of its parts; only the first of them from `SHOWN_LIMIT` on.
    pub bytes: Vec<u8>,
}

impl PendingResponse {
    /// Starts without a response.
    pub fn new(alloc: Global) -> PendingResponse {
        PendingResponse {
            asked: Asked::Nothing,
            asker: None,
            parts: 0,
            bytes: Vec::new(alloc),
        }
    }

    /// Begins the response to a command with this header.
    pub fn begin(&mut self, header: Header) {
        self.drop_all();
        self.asker = Some(header);
    }

    /// Whether some of its data were received.
    pub fn has_data(&self) -> bool {
        self.parts > 0
    }

    /// Drops it.
    pub fn drop_all(&mut self) {
        self.asked = Asked::Nothing;
        self.asker = None;
        self.parts = 0;
        self.bytes.clear();
    }

    /// Returns how a command with this header and P3 continues what the last status asked.
    pub fn link_of(&self, header: Header, p3: u8) -> Link {
        match self.asked {
            Asked::Again(other, le) if other == header && le == p3 => Link::AskedAgain(count(p3)),
            Asked::Fetch if header.ins == 0xC0 && self.parts == 0 => Link::Fetches(count(p3)),
            Asked::Fetch if header.ins == 0xC0 => Link::FetchesMore(count(p3)),
            _ => Link::None,
        }
    }

    /// Takes a command's response data. Returns `AllocError` if memory ran out: nothing changed.
    pub fn take(&mut self, part: &[u8]) -> Result<(), AllocError> {
        if part.is_empty() {
            return Ok(());
        }
        if self.bytes.len() < SHOWN_LIMIT {
            self.bytes.extend_from_slice(part)?;
        }
        self.parts = self.parts.saturating_add(1);
        Ok(())
    }

    /// Ends a command by its status. Returns the number of parts if the whole response was received
    /// and the status is not an error; otherwise 0.
    pub fn end(&mut self, header: Header, status: Status) -> u64 {
        if waiting(header, status).is_some() {
            self.asked = Asked::Fetch;
            return 0;
        }
        if status.sw1() == 0x6C {
            self.asked = Asked::Again(header, status.sw2());
            return 0;
        }
        self.asked = Asked::Nothing;
        match (status.sw1(), status.sw2()) {
            (0x90, 0x00) | (0x62 | 0x63, _) => self.parts,
            _ => 0,
        }
    }
}
