//! The answer to reset that a card hands out before it listens.
ghost use Rattle.std.specs.Prelude.{◌≡◌, ◌↔◌, [], IsTrue};
ghost use Rattle.card_trace.specs.AnswerToReset.{at_first, characters_of, up_to, without};

use card_terminal::Bytes;
use std::alloc::Allocator;
use std::marker::Model;

/// The answer to reset of a card, and how much of it has been handed out. It is empty for a card
/// without one.
#[derive(Drop)]
pub struct Opening<A: Allocator> {
    answer: Option<Bytes<A>>,
    /// The number of characters that have been handed out.
    handed: usize,
}

impl<A: Allocator> Model for Opening<A> {
    ghost use Rattle.std.specs.Prelude.{◌≤◌, length, drop};
    ghost use Rattle.card_trace.specs.AnswerToReset.{AnswerToReset, characters_of};

    ghost Value = { AnswerToReset };

    ghost view = { λ o. record {
      all = characters_of o.answer;
      left = drop o.handed (characters_of o.answer);
    } };

    ghost invariant = { λ o. o.handed ≤ length (characters_of o.answer) };
}

impl<A: Allocator> Opening<A> {
    /// Makes an opening of this answer, with nothing handed out yet. `None` is an empty answer.
    pub fn of(answer: Option<Bytes<A>>) -> Opening<A>
        ensures { result ≡ at_first (characters_of answer) }
    {
        Opening { answer, handed: 0 }
    }

    /// All characters of the answer.
    fn all(&self) -> &[u8]
        ensures { result.now ≡ self.now.all }
    {
        match &self.answer {
            None => &[],
            Some(answer) => answer.bytes(),
        }
    }

    /// The characters that are left.
    fn left(&self) -> &[u8]
        ensures { result.now ≡ self.now.left }
    {
        &self.all()[self.handed..]
    }

    /// Returns whether the card has handed out the whole answer, as it has if that is empty.
    pub fn is_over(&self) -> bool
        ensures { IsTrue result ↔ (self.now.left ≡ []) }
    {
        self.left().is_empty()
    }

    /// Returns the next characters: all that are left, or the first `most` of them, if given.
    pub fn next_characters(&self, most: Option<u16>) -> &[u8]
        ensures { result.now ≡ up_to most self.now.left }
    {
        let left = self.left();
        match most {
            None => left,
            Some(most) => &left[..usize::from(most).min(left.len())],
        }
    }

    /// Passes over the characters that `next_characters` returns: they have been handed out.
    pub fn pass(&mut self, most: Option<u16>)
        ensures { self.new ≡ without most self.old }
    {
        let next = self.next_characters(most).len();
        let still_left = self.left().len().saturating_sub(next);
        self.handed = self.all().len().saturating_sub(still_left);
    }

    /// Makes the whole answer left again, since the card is reset.
    pub fn begin_anew(&mut self)
        ensures { self.new ≡ at_first self.old.all }
    {
        self.handed = 0;
    }
}
