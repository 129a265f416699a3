//! What an application above the card's end does.
pub use apdu_core::GET_RESPONSE;
use apdu_core::{Command, Header, Status};
use std::alloc::AllocError;

/// The longest response of an application, in bytes without the status (profile).
pub const OWN_RESPONSE_LIMIT: usize = 4_096;

/// An application above the card's end: it gets whole commands, and returns whole responses.
///
/// `carry_out` prepares a command. It takes effect at `settle`, once the status of its TPDU is
/// sent; for a whole command, at once. A reset before that drops it. It is proved that each
/// completed command takes effect once (law `each_command_at_most_once`), and which calls each
/// call of a card makes (clauses `called` of `CommandCard` and `AppletOf`).
pub trait Application {
    ghost use Rattle.std.specs.Prelude.{◌≡◌, ◌∷◌, List, [], Bool, IfOk, IfErr};
    ghost use Rattle.apdu_core.specs.declared.header.Header.{Header};
    ghost use Rattle.command_card.specs.Calls.{AreMade, Call, Settled, Was_reset, carrying_out};
    ghost use Rattle.command_card.specs.Carrying.{Did, IsOwn, out_of_memory};

    /// The type of the application's states.
    ghost State: { Type 0 };

    /// The state in effect.
    ghost standing: { Self → State };

    /// The state after `settle`.
    ghost next: { Self → State };

    /// Whether data follow this header to the card.
    ghost takes: { State → Header → Bool };

    /// What carrying out a command does. It is a relation, so the application may choose among
    /// several responses and states. If it may run out of memory, `out_of_memory` is one of them.
    ghost Does: { State → Did → State → Type 0 };

    /// The state after a reset.
    ghost after_reset: { State → State };

    /// What is known of the calls so far, in order. A card learns of a call by its clause `called`
    /// alone, so it makes exactly the calls that its own clauses list. An application need not
    /// keep them.
    ghost Called: { Self → List Call → Type 0 } = { λ _ _. Unit {0} };

    /// Whether data of the terminal follow this header (ISO/IEC 7816-3, 10.3.1: the header does not
    /// tell). If not, data may come from the card.
    fn takes_data(&self, header: Header) -> bool
        ensures { result ≡ takes (standing self.now) header };

    /// Carries out a command, and writes its response of at most `OWN_RESPONSE_LIMIT` bytes into
    /// `response`, which is empty. The status must not be `61XX` or `6CXX`. The command is as T=0
    /// shows it: data without Le, or Le without data. A command that was carried out and did not
    /// settle is dropped.
    ///
    /// # Errors
    /// - `AllocError`: memory ran out; the command is not carried out. The card answers `6581`.
    fn carry_out(
        &mut self,
        command: Command<'_>,
        response: &mut Vec<u8>,
    ) -> Result<Status, AllocError>
        requires { response.old.items ≡ [] }
        ensures stands { standing self.new ≡ standing self.old }
        ensures done { IfOk result (λ status. Does (standing self.old) (record {
          command = command.entry;
          response = response.new.items;
          status = status;
        }) (next self.new) × IsOwn status) }
        ensures failed { IfErr result (λ e. Does (standing self.old) (out_of_memory command.entry)
            (standing self.old)) }
        ensures called { AreMade Called self.old
            (carrying_out command.entry response.new.items result ∷ []) self.new };

    /// The command that was carried out last takes effect.
    fn settle(&mut self)
        ensures stands { standing self.new ≡ next self.old }
        ensures called { AreMade Called self.old (Settled ∷ []) self.new };

    /// Resets the application, at any time. A command that did not settle is dropped.
    fn reset(&mut self)
        ensures stands { standing self.new ≡ after_reset (standing self.old) }
        ensures called { AreMade Called self.old (Was_reset ∷ []) self.new };
}
