//! What takes whole commands to the card of an application.
ghost use Rattle.std.specs.Prelude.{◌≡◌, ◌≤◌, take};
ghost use Rattle.apdu_core.specs.CommandBytes.{IsCommand, command_bytes};

use apdu_core::Command;
use apdu_terminal::{COMMAND_LIMIT, write_command};
use command_card::Application;
use t1_core::Fault;

/// What takes whole commands to the card of an application, and brings their responses.
pub trait Link<A: Application> {
    ghost use Rattle.std.specs.Prelude.{◌≡◌, ℕ, List, true, MatchResult};
    ghost use Rattle.command_card.specs.View.{AppletView, applet_in};
    ghost use Rattle.as_called.specs.AsIfCalled.{IsTidy};
    ghost use Rattle.as_called.specs.Faults.{IsTrue};
    ghost use Rattle.as_called.specs.Whole.{Takes};

    /// The card.
    ghost card: { Self → AppletView A };

    /// The bytes of the last response.
    ghost response: { Self → List ℕ };

    /// A command can be carried.
    ghost IsReady: { Self → Type 0 };

    /// Whether a command can be carried.
    fn is_ready(&self) -> bool
        ensures { result ≡ true → IsReady self.now };

    /// Carries a command to the card. `response` then returns the card's bytes. `is_ready` must
    /// hold; it holds again unless there is a fault.
    ///
    /// # Errors
    /// - `Fault`: the line failed. Its outcome says whether the card has carried the command out.
    fn carry(&mut self, command: &Command<'_>) -> Result<(), Fault>
        requires ready { IsReady self.old }
        ensures tidy { IsTidy (applet_in A.standing (card self.old)).left }
        ensures carried { MatchResult result
            (λ _. Takes A.Application (card self.old) command.now (response self.new)
            (card self.new) × IsReady self.new)
            (λ fault. IsTrue fault.outcome (card self.new ≡ card self.old) ((bytes : List ℕ)
            × Takes A.Application (card self.old) command.now bytes (card self.new))) };

    /// The bytes of the last response.
    fn response(&self) -> &[u8]
        ensures { result.now ≡ response self.now };
}

/// Writes the bytes of a command to the front of `out`, and returns their number.
pub(crate) fn spell(command: &Command<'_>, out: &mut [u8; COMMAND_LIMIT]) -> usize
    ensures bytes { take result out.new ≡ command_bytes command.now }
    ensures short { result ≤ 261 }
    ensures command { IsCommand command.now }
{
    // For the proof: states that it is a command.
    let _header = command.header();
    let Some(count) = write_command(command, out) else {
        unreachable!()
    };
    count
}
