//! What a card has prepared in the TPDU in progress.
ghost use Rattle.std.specs.Prelude.{◌≡◌};

use crate::response::Response;
use apdu_core::Header;
use std::alloc::Allocator;
use tlv_core::ObjectTag;

/// What the card has prepared, and what takes effect once SW2 is sent.
#[derive(Clone, Copy, Debug)]
pub enum Ready {
    /// Nothing.
    Nothing,
    /// It expects the data of a SELECT or a PUT DATA.
    Receives {
        header: Header,
        p3: u8,
        cut: u16,
    },
    /// It sends the first bytes of this response.
    Sends {
        header: Header,
        p3: u8,
        cut: u16,
        response: Response,
    },
    /// This response, or none, will be pending, and no chain.
    Leaves {
        response: Option<Response>,
    },
    /// This application will be selected, and this response pending.
    Selects {
        application: usize,
        response: Response,
    },
    /// A piece has joined the chain. `before` is the number of bytes of the chain before it, if
    /// there was one.
    Joins {
        before: Option<usize>,
    },
    /// A value will be put.
    Stores,
}

/// A value to put, in memory of its own.
#[derive(Drop)]
pub(crate) struct Put<A: Allocator> {
    pub(crate) tag: ObjectTag,
    pub(crate) value: Vec<u8, A>,
}

impl Ready {
    ghost use Rattle.object_card.specs.CardView.{stands_idle, selected_after, response_after, keeps_chain};

    /// The application that will be selected.
    pub(crate) fn selected_after(self, selected: Option<usize>) -> Option<usize>
        ensures { result ≡ selected_after self selected }
    {
        match self {
            Ready::Selects { application, .. } => Some(application),
            _ => selected,
        }
    }

    /// The response that will be pending.
    pub(crate) fn response_after(self) -> Option<Response>
        ensures { result ≡ response_after self }
    {
        match self {
            Ready::Leaves { response } => response,
            Ready::Selects { response, .. } => Some(response),
            _ => None,
        }
    }

    /// Whether a chain will be pending.
    pub(crate) fn keeps_chain(self) -> bool
        ensures { result ≡ keeps_chain self }
    {
        matches!(self, Ready::Joins { .. })
    }

    /// Whether no chain is in effect, if the card's chain is `pending`. A piece that joins one in
    /// the TPDU in progress has no effect yet.
    pub(crate) fn stands_idle(self, pending: bool) -> bool
        ensures { result ≡ stands_idle self pending }
    {
        match self {
            Ready::Joins { before } => before.is_none() || !pending,
            Ready::Nothing
            | Ready::Receives { .. }
            | Ready::Sends { .. }
            | Ready::Leaves { .. }
            | Ready::Selects { .. }
            | Ready::Stores => !pending,
        }
    }
}
