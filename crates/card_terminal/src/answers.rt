//! The list of answers to which a session appends one for each operation.
ghost use Rattle.std.specs.Prelude.{◌≡◌, ◌≤◌, [], ◌∷◌, ◌++◌, length, slice_get, option_copied, OnOk, MatchOption};

use exchange_core::Answer;
use std::alloc::{AllocError, Allocator, Global};
use std::marker::Model;

/// The answers to operations, in their order.
#[derive(Drop)]
pub struct Answers<A: Allocator = Global> {
    answers: Vec<Answer<A>, A>,
}

impl<A: Allocator> Model for Answers<A> {
    ghost use Rattle.std.specs.Prelude.{◌-◌, vec_len, vec_capacity};
    ghost use Rattle.card_terminal.specs.AnswerList.{AnswerList};

    ghost Value = { AnswerList };

    ghost view = { λ a. record {
      given = a.answers.items;
      room =
          vec_capacity a.answers - vec_len a.answers;
    } };
}

impl<A: Allocator> Answers<A> {
    /// Makes an empty list. It allocates nothing.
    pub fn new(alloc: A) -> Answers<A>
        ensures { result.given ≡ [] }
    {
        Answers {
            answers: Vec::new(alloc),
        }
    }

    /// The number of answers.
    pub fn len(&self) -> usize
        ensures { result ≡ length self.now.given }
    {
        self.answers.len()
    }

    /// The answer with index `at`, from 0, if there is one.
    pub fn get(&self, at: usize) -> Option<&Answer<A>>
        ensures { option_copied result ≡ slice_get self.now.given at }
    {
        self.answers.as_slice().get(at)
    }

    /// Removes the last answer and returns it, if there is one.
    pub fn pop(&mut self) -> Option<Answer<A>>
        ensures { MatchOption result ((self.old.given ≡ []) × (self.new.given ≡ []))
            (λ answer. self.old.given ≡ self.new.given ++ answer ∷ []) }
    {
        self.answers.pop()
    }

    /// Makes sure that there is room for one more answer.
    ///
    /// # Errors
    ///
    /// - `AllocError`: memory ran out; the answers are unchanged.
    pub fn make_room(&mut self) -> Result<(), AllocError>
        ensures stays { self.new.given ≡ self.old.given }
        ensures room { OnOk result (1 ≤ self.new.room) }
    {
        self.answers.reserve(1)
    }

    /// Appends an answer. There must be room for it: call `make_room` before each.
    pub fn append(&mut self, answer: Answer<A>)
        requires { 1 ≤ self.old.room }
        ensures { self.new.given ≡ self.old.given ++ answer ∷ [] }
    {
        self.answers.push(answer).unwrap();
    }
}
