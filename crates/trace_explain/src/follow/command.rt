//! Commands: TPDUs that belong together, one right after another.
ghost use Rattle.std.specs.Prelude.{◌≡◌, ◌&&◌};
ghost use Rattle.trace_explain.specs.Commands.{continues};

use crate::describe::outline::Outline;
use crate::follow::chain::has_more;
use crate::follow::links::Link;
use crate::follow::response::waiting;
use crate::follow::story::{brought, sent};
use crate::follow::tpdu::Tpdu;
use std::alloc::{AllocError, Global};

/// Data of this size or more are not joined (profile): no hostile trace fills memory.
const JOINED_LIMIT: usize = 65_536;

/// The TPDUs of a command so far.
#[derive(Drop)]
pub struct Command {
    /// Whether a TPDU right after the last one may continue it.
    pub is_open: bool,
    /// How many TPDUs it has.
    pub tpdus: u64,
    /// The first TPDU without its data.
    pub first: Option<Outline>,
    /// The last one.
    pub last: Option<Outline>,
    /// The name or path, if it is SELECT; its first bytes if it is long.
    pub name: Vec<u8>,
    /// What the terminal sent.
    pub sent: Joined,
    /// What the card returned.
    pub received: Joined,
}

/// The data of several TPDUs that go one way.
#[derive(Drop)]
pub struct Joined {
    /// How many bytes they are.
    pub size: u64,
    /// Whether a part is hidden.
    pub is_masked: bool,
    bytes: Vec<u8>,
}

impl Command {
    /// A command without TPDUs.
    pub fn new(alloc: Global) -> Command {
        Command {
            is_open: false,
            tpdus: 0,
            first: None,
            last: None,
            name: Vec::new(alloc),
            sent: Joined::new(alloc),
            received: Joined::new(alloc),
        }
    }

    /// Whether a TPDU with this link continues it.
    pub fn continues_with(&self, link: Link) -> bool
        ensures { result ≡ (self.now.is_open && continues link) }
    {
        self.is_open && continues(link)
    }

    /// Drops its TPDUs.
    pub fn clear(&mut self) {
        self.is_open = false;
        self.tpdus = 0;
        self.name.clear();
        self.sent.clear();
        self.received.clear();
    }

    /// Takes the next TPDU of it, whose header may be hidden. `name` is that of SELECT. `masked`:
    /// whether the data of the terminal and of the card are hidden. Returns `AllocError` if memory
    /// ran out: drop it.
    pub fn take(
        &mut self,
        tpdu: &Tpdu,
        is_hidden: bool,
        name: &[u8],
        masked: (bool, bool),
    ) -> Result<(), AllocError> {
        if self.tpdus == 0 {
            self.first = Some(Outline::of(tpdu, is_hidden));
            self.name.extend_from_slice(name)?;
        }
        let last = Outline::of(tpdu, is_hidden);
        self.is_open = may_continue(&last);
        self.last = Some(last);
        self.tpdus = self.tpdus.saturating_add(1);
        self.sent.take(sent(tpdu), masked.0)?;
        self.received.take(brought(tpdu), masked.1)
    }
}

impl Joined {
    /// No data.
    fn new(alloc: Global) -> Joined {
        Joined {
            size: 0,
            is_masked: false,
            bytes: Vec::new(alloc),
        }
    }

    /// Drops the data.
    fn clear(&mut self) {
        self.size = 0;
        self.is_masked = false;
        self.bytes.clear();
    }

    /// Adds data, which may be hidden. Hidden data are counted alone.
    fn take(&mut self, part: &[u8], is_masked: bool) -> Result<(), AllocError> {
        self.size = self.size.saturating_add(part.len() as u64);
        self.is_masked |= is_masked;
        if !is_masked && self.bytes.len() < JOINED_LIMIT {
            self.bytes.extend_from_slice(part)?;
        }
        Ok(())
    }

    /// Returns the data; `None` if a part is hidden, or if they are too long.
    pub fn shown(&self) -> Option<&[u8]> {
        let is_whole = !self.is_masked && self.bytes.len() < JOINED_LIMIT;
        is_whole.then(|| self.bytes.as_slice())
    }
}

/// Whether a TPDU with this link continues the command of the one right before it.
fn continues(link: Link) -> bool
    ensures { result ≡ continues link }
{
    match link {
        Link::None => false,
        Link::Piece(number) => number != 1,
        _ => true,
    }
}

/// Whether a TPDU may continue the command of this one: its status asks for that, or it is a piece
/// of a chain, and not the last.
fn may_continue(outline: &Outline) -> bool {
    let (Some((header, _)), Some(status)) = (outline.header, outline.status) else {
        return false;
    };
    waiting(header, status).is_some()
        || status.sw1() == 0x6C
        || (status.is_ok() && has_more(header))
}
