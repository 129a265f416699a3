//! What each block is in a dialogue that a tap hears.
ghost use Rattle.std.specs.Prelude.{◌≡◌, ◌≤◌, length, true, Some};
ghost use Rattle.t1_core.specs.Items.{IsShort, seen};
ghost use Rattle.t1_core.specs.Reading.{after_role, confirmed, goes, is_cut, is_newest, misses, moves_on, numbers_of, peer, reads, ready, repeats, rested, role_of, sent};
ghost use Rattle.t1_core.specs.Block.{other};

use crate::block::{Block, Control};
use crate::found::Found;
use crate::heard_field::HeardField;

/// An end of the line.
#[derive(Clone, Copy, Debug, Default, PartialEq, Eq)]
pub enum End {
    /// The end that sends commands.
    #[default]
    Terminal,
    /// The end that sends responses.
    Card,
}

/// What an item is in its dialogue.
#[derive(Clone, Copy, Debug, PartialEq, Eq)]
pub enum Role {
    /// A new I-block: a field of a command if the terminal sent it, otherwise of a response. It may
    /// be its first, its last, or both.
    Field { first: bool, last: bool },
    /// The newest I-block of this end again. If a granted IFS cuts it, its field replaces the one
    /// before, and is no longer the last.
    Repetition { last: bool },
    /// An R-block that acknowledges the newest I-block of a chain.
    Acknowledgement,
    /// Another R-block: it asks for a block again.
    Asks,
    /// An S-block.
    Control,
    /// An I-block or R-block that may be new or not: see `Tap`.
    Unknown,
    /// An invalid block, or the first bytes of one.
    Invalid,
}

/// The next N(S) of an end; the more-data bit and field of its newest I-block, if heard; and the
/// longest field that the other end takes, if it has granted an IFS.
#[derive(Default, Drop)]
pub(crate) struct Numbers {
    next: bool,
    newest: Option<(bool, HeardField)>,
    ifs: Option<u8>,
}

/// What a tap knows of a dialogue. The next new I-block comes from `turn`, `within` a command or
/// response or at its begin.
#[derive(Default, Drop)]
pub(crate) struct Reading {
    missed: bool,
    turn: End,
    within: bool,
    terminal: Numbers,
    card: Numbers,
}

impl End {
    /// Returns the other end.
    pub fn peer(self) -> End
        ensures { result ≡ peer self }
    {
        match self {
            End::Terminal => End::Card,
            End::Card => End::Terminal,
        }
    }
}

impl Numbers {
    /// Whether this I-block is the newest one once more, as it was, or cut by a granted IFS.
    fn repeats(&self, more: bool, field: &[u8]) -> bool
        ensures { result ≡ repeats self.now.newest self.now.ifs (more, field.now) }
    {
        let Some((old_more, old)) = &self.newest else {
            return false;
        };
        let old = old.bytes();
        *old_more == more && old == field || more && self.is_cut(old, field)
    }

    fn is_cut(&self, old: &[u8], field: &[u8]) -> bool
        ensures { result ≡ is_cut self.now.ifs old.now (true, field.now) }
    {
        let Some(ifs) = self.ifs else {
            return false;
        };
        let size = usize::from(ifs);
        size < old.len() && &old[..size] == field
    }

    fn note(&mut self, number: bool, more: bool, field: &[u8])
        requires { length field.now ≤ 254 }
        ensures { self.new ≡ record self.old {
          next = other number;
          newest = Some (more, field.now);
        } }
    {
        self.next = !number;
        self.newest = Some((more, HeardField::of(field)));
    }
}

impl Reading {
    /// The role of the next item.
    pub(crate) fn role(&self, from: End, found: Found<'_>) -> Role
        ensures { result ≡ (reads self.now from (seen found.entry)).0 }
    {
        match found {
            Found::Valid(Block::Information { number, more, info }) => {
                self.role_of(from, number, more, info)
            }
            Found::Valid(Block::Ready { number, .. }) => self.ready(from, number),
            Found::Valid(_) => Role::Control,
            _ => Role::Invalid,
        }
    }

    /// Passes that item.
    pub(crate) fn pass(&mut self, from: End, found: Found<'_>)
        requires { IsShort (seen found) }
        ensures { self.new ≡ (reads self.old from (seen found.entry)).1 }
    {
        match found {
            Found::Valid(Block::Information { number, more, info }) => {
                self.pass_field(from, number, more, info);
            }
            Found::Valid(Block::Response(control)) => self.confirm(from, control),
            _ => {}
        }
    }

    fn role_of(&self, from: End, number: bool, more: bool, field: &[u8]) -> Role
        ensures { result ≡ role_of self.now from number (more, field.now) }
    {
        let (first, last) = (!self.within, !more);
        let numbers = self.numbers_of(from);
        if self.missed {
            return Role::Unknown;
        }
        if number == numbers.next {
            if from == self.turn {
                return Role::Field { first, last };
            }
            return Role::Unknown;
        }
        if numbers.repeats(more, field) {
            return Role::Repetition { last };
        }
        Role::Unknown
    }

    fn is_newest(&self, from: End) -> bool
        ensures { result ≡ is_newest self.now from }
    {
        self.within == (from == self.turn)
    }

    /// Whether the turn changes after an I-block with this role, which is known.
    fn moves_on(&self, role: Role, from: End) -> bool
        ensures { result ≡ moves_on role self.now from }
    {
        match role {
            Role::Repetition { .. } => self.is_newest(from),
            _ => true,
        }
    }

    fn pass_field(&mut self, from: End, number: bool, more: bool, field: &[u8])
        requires { length field.now ≤ 254 }
        ensures { self.new ≡ after_role (role_of self.old from number (more, field.now))
            self.old from number (more, field.now) }
    {
        let role = self.role_of(from, number, more, field);
        if let Role::Unknown = role {
            self.miss(from, number, more, field);
            return;
        }
        let moves_on = self.moves_on(role, from);
        self.note(from, number, more, field);
        if moves_on {
            self.go_on(from, more);
        }
    }

    fn miss(&mut self, from: End, number: bool, more: bool, field: &[u8])
        requires { length field.now ≤ 254 }
        ensures { self.new ≡ misses self.old from number (more, field.now) }
    {
        if !self.missed {
            self.rest();
        }
        self.missed = from == End::Terminal || more || self.terminal.newest.is_none();
        self.note(from, number, more, field);
    }

    fn ready(&self, from: End, number: bool) -> Role
        ensures { result ≡ ready self.now from number }
    {
        let is_next = number == self.numbers_of(from.peer()).next;
        if self.missed {
            return Role::Unknown;
        }
        if is_next && self.within && from != self.turn {
            return Role::Acknowledgement;
        }
        Role::Asks
    }

    fn confirm(&mut self, from: End, control: Control)
        ensures { self.new ≡ confirmed self.old from control }
    {
        match control {
            Control::Resynch if from == End::Card => *self = Reading::default(),
            Control::Ifs(size) => match from {
                End::Terminal => self.terminal.ifs = Some(size),
                End::Card => self.card.ifs = Some(size),
            },
            Control::Abort => self.rest(),
            _ => {}
        }
    }

    fn numbers_of(&self, from: End) -> &Numbers
        ensures { result.now ≡ numbers_of from self.now }
    {
        match from {
            End::Terminal => &self.terminal,
            End::Card => &self.card,
        }
    }

    fn note(&mut self, from: End, number: bool, more: bool, field: &[u8])
        requires { length field.now ≤ 254 }
        ensures { self.new ≡ sent self.old from number (more, field.now) }
    {
        match from {
            End::Terminal => self.terminal.note(number, more, field),
            End::Card => self.card.note(number, more, field),
        }
    }

    fn go_on(&mut self, from: End, within: bool)
        ensures { self.new ≡ goes self.old from within }
    {
        self.turn = if within { from } else { from.peer() };
        self.within = within;
    }

    fn rest(&mut self)
        ensures { self.new ≡ rested self.old }
    {
        self.terminal.newest = None;
        self.card.newest = None;
        self.go_on(End::Card, false);
    }
}
