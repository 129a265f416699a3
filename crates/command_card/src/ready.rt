//! What the card keeps and has prepared.
use apdu_core::{Header, Status};

/// What is pending.
#[derive(Clone, Copy, Debug)]
pub enum Waiting {
    /// Nothing.
    Nothing,
    /// The kept bytes from this place on, for GET RESPONSE.
    Fetch { from: usize, status: Status },
    /// All kept bytes, for this header again.
    Repeat { header: Header, status: Status },
}

/// What takes effect once SW2 is sent.
#[derive(Clone, Copy, Debug)]
pub struct Ending {
    /// The application's command takes effect.
    pub(crate) settles: bool,
    /// The new response takes the place of the kept one.
    pub(crate) fresh: bool,
    pub(crate) left: Waiting,
}

/// What the card has prepared in the TPDU in progress.
#[derive(Clone, Copy, Debug)]
pub enum Ready {
    /// Nothing.
    Nothing,
    /// It expects the data of a command.
    Receives {
        header: Header,
        p3: u8,
        cut: u16,
    },
    /// It sends the bytes of a response from this place on, and then this status.
    Sends {
        header: Header,
        p3: u8,
        cut: u16,
        from: usize,
        status: Status,
        ending: Ending,
    },
    /// The status is decided.
    Leaves {
        ending: Ending,
    },
}
