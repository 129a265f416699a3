//! An application that changes at once. The card works on a copy of it.
ghost use Rattle.std.specs.Prelude.{◌≡◌, ◌∷◌, [], None, IfOk, IfErr, OnErr};
ghost use Rattle.command_card.specs.Calls.{AreMade, CallsCopy, Was_copied, Was_reset, carrying_out};
ghost use Rattle.command_card.specs.Carrying.{Did, IsOwn, out_of_memory};

use crate::application::Application;
use apdu_core::{Command, Header, Status};
use std::alloc::AllocError;

/// An application that changes at once when it carries out a command. [`Copied`] makes an
/// [`Application`] of it.
pub trait Eager {
    ghost use Rattle.std.specs.Prelude.{Bool, List};
    ghost use Rattle.apdu_core.specs.declared.header.Header.{Header};
    ghost use Rattle.apdu_core.specs.CommandBytes.{Command};
    ghost use Rattle.command_card.specs.Calls.{Call};

    /// The type of the application's states.
    ghost State: { Type 0 };

    /// The state.
    ghost standing: { Self → State };

    /// Whether data follow this header to the card.
    ghost takes: { State → Header → Bool };

    /// What carrying out a command does. If memory may run out, `out_of_memory` is a part of it.
    ghost Does: { State → Did → State → Type 0 };

    /// The state after a reset.
    ghost after_reset: { State → State };

    /// What is known of the calls so far, as in `Application::Called`.
    ghost Called: { Self → List Call → Type 0 } = { λ _ _. Unit {0} };

    /// Whether data of the terminal follow this header.
    fn takes_data(&self, header: Header) -> bool
        ensures { result ≡ takes (standing self.now) header };

    /// Carries out a command, and writes its response of at most `OWN_RESPONSE_LIMIT` bytes into
    /// `response`, which is empty. The status must not be `61XX` or `6CXX`.
    ///
    /// # Errors
    /// - `AllocError`: memory ran out; the card drops this copy, and keeps the application as it
    ///   was.
    fn carry_out(
        &mut self,
        command: Command<'_>,
        response: &mut Vec<u8>,
    ) -> Result<Status, AllocError>
        requires { response.old.items ≡ [] }
        ensures done { IfOk result (λ status. Does (standing self.old) (record {
          command = command.entry;
          response = response.new.items;
          status = status;
        }) (standing self.new) × IsOwn status) }
        ensures failed { IfErr result (λ e. Does (standing self.old) (out_of_memory command.entry)
            (standing self.old)) }
        ensures called { AreMade Called self.old
            (carrying_out command.entry response.new.items result ∷ []) self.new };

    /// Copies the application.
    ///
    /// # Errors
    /// - `AllocError`: memory ran out; there is no copy, and the command is not carried out.
    fn copy(&mut self) -> Result<Self, AllocError>
        ensures stands { standing self.new ≡ standing self.old }
        ensures done { IfOk result (λ copy. standing copy ≡ standing self.old) }
        ensures failed { IfErr result (λ e. (c : Command) → Does (standing self.old)
            (out_of_memory c) (standing self.old)) }
        ensures called { AreMade Called self.old (Was_copied ∷ []) self.new }
        ensures follows { IfOk result (AreMade Called self.old (Was_copied ∷ [])) };

    /// Resets the application, at any time.
    fn reset(&mut self)
        ensures stands { standing self.new ≡ after_reset (standing self.old) }
        ensures called { AreMade Called self.old (Was_reset ∷ []) self.new };
}

/// The application, and its copy after the command that has not settled.
#[derive(Drop)]
pub struct Copied<E: Eager + Drop> {
    current: E,
    changed: Option<E>,
}

impl<E: Eager + Drop> Copied<E> {
    /// Makes an [`Application`] of this one. Its commands take effect when they settle.
    pub fn new(current: E) -> Copied<E>
        ensures { result ≡ record { current = current; changed = None } }
    {
        Copied {
            current,
            changed: None,
        }
    }

    /// Returns the application, without the effect of a command that has not settled.
    pub fn current(&self) -> &E
        ensures { result.now ≡ self.now.current }
    {
        &self.current
    }
}

impl<E: Eager + Drop> Application for Copied<E> {
    ghost use Rattle.command_card.specs.Carrying.{next_of};

    ghost State = { E.State };

    ghost standing = { λ c. E.standing c.current };

    ghost next = { λ c. next_of E.standing c.current c.changed };

    ghost takes = { E.takes };

    ghost Does = { E.Does };

    ghost after_reset = { E.after_reset };

    fn takes_data(&self, header: Header) -> bool {
        self.current.takes_data(header)
    }

    fn carry_out(
        &mut self,
        command: Command<'_>,
        response: &mut Vec<u8>,
    ) -> Result<Status, AllocError>
        requires { response.old.items ≡ [] }
        ensures stands { E.standing self.new.current ≡ E.standing self.old.current }
        ensures done { IfOk result (λ status. E.Does (E.standing self.old.current) (record {
          command = command.entry;
          response = response.new.items;
          status = status;
        }) (next_of E.standing self.new.current self.new.changed) × IsOwn status) }
        ensures failed { IfErr result (λ e. E.Does (E.standing self.old.current)
            (out_of_memory command.entry) (E.standing self.old.current)) }
        ensures dropped { OnErr result (self.new.changed ≡ None) }
        ensures copied { CallsCopy E.Called self.old.current command.entry self.new.current
            self.new.changed }
    {
        self.changed = None;
        let mut copy = self.current.copy()?;
        let status = copy.carry_out(command, response)?;
        self.changed = Some(copy);
        Ok(status)
    }

    fn settle(&mut self)
        ensures settles { E.standing self.new.current
            ≡ next_of E.standing self.old.current self.old.changed }
        ensures dropped { self.new.changed ≡ None }
    {
        if let Some(changed) = self.changed.take() {
            self.current = changed;
        }
    }

    fn reset(&mut self)
        ensures resets { E.standing self.new.current
            ≡ E.after_reset (E.standing self.old.current) }
        ensures dropped { self.new.changed ≡ None }
    {
        self.changed = None;
        self.current.reset();
    }
}
