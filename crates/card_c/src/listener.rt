//! A watch that records the characters of a session, if C asked for it.
ghost use Rattle.std.specs.Prelude.{◌≡◌, []};
ghost use Rattle.t0_core.specs.Watch.{Hearing};

use std::alloc::Global;
use std::marker::Model;
use t0_core::{End, Watch};

/// Room for the characters of a short operation, in characters.
const ROOM: usize = 64;

/// Records each character while memory lasts, or none if it does not listen. A `Recorder` of
/// `t0_core` always listens, and takes its room in small steps.
#[derive(Drop)]
pub struct Listener {
    heard: Vec<(End, u8)>,
    lost: bool,
}

impl Model for Listener {
    ghost Value = { Hearing };

    ghost view = { λ l. record { heard = l.heard.items; lost = l.lost } };
}

impl Listener {
    ghost use Rattle.card_c.specs.SessionCalls.{beginning};

    /// Makes a listener that has recorded nothing.
    pub fn new(alloc: Global, listens: bool) -> Listener
        ensures { result ≡ beginning listens }
    {
        Listener {
            heard: room(alloc, listens),
            lost: !listens,
        }
    }

    /// Returns the recorded characters in order, each with its sender.
    pub fn heard(&self) -> &[(End, u8)]
        ensures { result.now ≡ self.now.heard }
    {
        self.heard.as_slice()
    }

    /// Returns whether it loses characters: memory ran out, or it does not listen.
    pub fn lost(&self) -> bool
        ensures { result ≡ self.now.lost }
    {
        self.lost
    }
}

/// Returns an empty list. If memory for its room is missing, the list takes it when it grows.
fn room(alloc: Global, listens: bool) -> Vec<(End, u8)>
    ensures { result.items ≡ [] }
{
    if listens && let Ok(room) = Vec::with_capacity(alloc, ROOM) {
        return room;
    }
    Vec::new(alloc)
}

impl Watch for Listener {
    ghost hearing = { λ l. l };

    fn seen(&mut self, from: End, byte: u8) {
        if !self.lost {
            self.lost = self.heard.push((from, byte)).is_err();
        }
    }
}
