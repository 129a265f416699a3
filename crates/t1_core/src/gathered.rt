//! The commands and responses that the items of a tap make up.
ghost use Rattle.std.specs.Prelude.{◌≡◌, ◌++◌, true, OnOk, OnErr};
ghost use Rattle.t1_core.specs.Gathering.{adds, adds_field, gathers, is_added, newly, with_field};
ghost use Rattle.t1_core.specs.Hearing.{told};
ghost use Rattle.t1_core.specs.declared.gathered.Progress.TheVariants.{Nothing, Unknown};
ghost use Rattle.t1_core.specs.declared.reading.End.TheVariants.{Terminal};

use crate::block::{Block, Control};
use crate::field::wipe;
use crate::found::Found;
use crate::reading::{End, Role};
use crate::tap::Item;
use std::alloc::{AllocError, Global};
use std::marker::Model;

/// How much of a command or response a tap has heard.
#[derive(Clone, Copy, Debug, PartialEq, Eq)]
pub enum Progress {
    /// Nothing, after a reset, S(RESYNCH response) of the card, or S(ABORT response).
    Nothing,
    /// The first fields.
    Begun,
    /// All fields.
    Whole,
    /// An I-block whose role is unknown, or for which memory ran out. No bytes are kept.
    Unknown,
}

/// The newest command or response that a tap has heard. Call `add` with each item. After a reset
/// make a new one.
///
/// A `Whole` one may be `Begun` again: its end sends the last field once more, and cuts that by an
/// IFS which the other end has granted.
#[derive(Drop)]
pub struct Gathered {
    from: End,
    bytes: Vec<u8>,
    place: usize,
    progress: Progress,
}

impl Model for Gathered {
    ghost use Rattle.t1_core.specs.Gathering.{Gathered as Said};

    ghost Value = { Said };

    ghost view = { λ g. record {
      from = g.from;
      bytes = g.bytes.items;
      place = g.place;
      progress = g.progress;
    } };
}

impl Gathered {
    /// Makes one without bytes.
    pub fn new(alloc: Global) -> Gathered
        ensures { result ≡ newly Nothing Terminal }
    {
        Gathered {
            from: End::Terminal,
            bytes: Vec::new(alloc),
            place: 0,
            progress: Progress::Nothing,
        }
    }

    /// The end that sends it: the terminal a command, the card a response. At `Nothing` it has no
    /// meaning.
    pub fn from(&self) -> End
        ensures { result ≡ self.now.from }
    {
        self.from
    }

    /// Its bytes so far.
    pub fn bytes(&self) -> &[u8]
        ensures { result.now ≡ self.now.bytes }
    {
        &self.bytes
    }

    /// How much of it was heard.
    pub fn progress(&self) -> Progress
        ensures { result ≡ self.now.progress }
    {
        self.progress
    }

    /// Adds the next item of the tap.
    ///
    /// # Errors
    /// - `AllocError`: memory for a field ran out; the command or response is `Unknown`. Ignore its
    ///   later fields: they would pass for all of it.
    pub fn add(&mut self, item: Item<'_>) -> Result<(), AllocError>
        ensures ok { OnOk result (self.new ≡ adds self.old (told item.entry)) }
        ensures err { OnErr result (self.new ≡ newly Unknown item.entry.from) }
        ensures memory { OnErr result (adds_field self.old (told item.entry) ≡ true) }
    {
        match item.found {
            Found::Valid(Block::Information { info, .. }) => {
                return self.gather(item.from, item.role, info);
            }
            Found::Valid(Block::Response(Control::Resynch)) if item.from == End::Card => {
                self.forget(item.from, Progress::Nothing);
            }
            Found::Valid(Block::Response(Control::Abort)) => {
                self.forget(item.from, Progress::Nothing);
            }
            _ => {}
        }
        Ok(())
    }

    fn gather(&mut self, from: End, role: Role, field: &[u8]) -> Result<(), AllocError>
        ensures ok { OnOk result (self.new ≡ gathers self.old from role field.now) }
        ensures err { OnErr result (self.new ≡ newly Unknown from) }
        ensures memory { OnErr result (is_added self.old from role ≡ true) }
    {
        let (place, last) = match role {
            Role::Field { first: true, last } => (0, last),
            Role::Field { last, .. } => (self.bytes.len(), last),
            Role::Repetition { last } if from == self.from => (self.place, last),
            Role::Unknown => {
                self.forget(from, Progress::Unknown);
                return Ok(());
            }
            _ => return Ok(()),
        };
        self.put(from, place, last, field)
    }

    /// Puts a field at this place, instead of all behind it.
    fn put(&mut self, from: End, place: usize, last: bool, field: &[u8]) -> Result<(), AllocError>
        ensures ok { OnOk result (self.new ≡ with_field self.old from place last field.now) }
        ensures err { OnErr result (self.new ≡ newly Unknown from) }
    {
        self.bytes.truncate(place);
        if let Err(e) = self.bytes.extend_from_slice(field) {
            self.forget(from, Progress::Unknown);
            return Err(e);
        }
        self.from = from;
        self.place = place;
        self.progress = if last {
            Progress::Whole
        } else {
            Progress::Begun
        };
        Ok(())
    }

    fn forget(&mut self, from: End, progress: Progress)
        ensures { self.new ≡ newly progress from }
    {
        wipe(&mut self.bytes);
        self.from = from;
        self.place = 0;
        self.progress = progress;
    }
}
