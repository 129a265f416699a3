//! A watch that records each character while memory lasts.
ghost use Rattle.std.specs.Prelude.{◌≡◌, ℕ, List, [], ◌∷◌, true, false};
ghost use Rattle.t0_core.specs.Watch.{Hearing};

use crate::end::End;
use crate::watch::Watch;
use std::alloc::{Allocator, Global};
use std::marker::Model;

/// Records the characters and their senders while memory lasts. After the first one that it loses,
/// it records no more.
#[derive(Drop)]
pub struct Recorder<A: Allocator = Global> {
    heard: Vec<(End, u8), A>,
    lost: bool,
}

impl<A: Allocator> Model for Recorder<A> {
    ghost Value = { Hearing };

    ghost view = { λ r. record { heard = r.heard.items; lost = r.lost } };
}

impl<A: Allocator> Recorder<A> {
    /// Makes an empty recorder. It allocates nothing.
    pub fn new(alloc: A) -> Recorder<A>
        ensures { result ≡ record { heard = []; lost = false } }
    {
        Recorder {
            heard: Vec::new(alloc),
            lost: false,
        }
    }

    /// The recorded characters in order, each with its sender.
    pub fn heard(&self) -> &[(End, u8)]
        ensures { result.now ≡ self.now.heard }
    {
        self.heard.as_slice()
    }

    /// Whether memory ran out. The recorded characters are then only the first ones.
    pub fn lost(&self) -> bool
        ensures { result ≡ self.now.lost }
    {
        self.lost
    }
}

impl<A: Allocator> Watch for Recorder<A> {
    ghost hearing = { λ r. r };

    fn seen(&mut self, from: End, byte: u8) {
        if !self.lost {
            self.lost = self.heard.push((from, byte)).is_err();
        }
    }
}
