//! The card behind its end of the line.
use std::alloc::AllocError;

/// The longest response of a short command, in bytes: 256 of data, and the status.
pub const RESPONSE_ROOM: usize = 258;

/// The requests that a card makes before it responds to a command: first each S(WTX request), then
/// S(IFS request).
#[derive(Clone, Copy, Debug, Default, PartialEq, Eq)]
pub struct Requests {
    /// The number of S(WTX request), 0 to 255.
    pub extensions: u8,
    /// The multiple of BWT that each of them asks for.
    pub multiple: u8,
    /// The IFSC that S(IFS request) announces, 1 to 254; `None` for no such request.
    pub size: Option<u8>,
}

/// The card behind its end of the line. The end calls `carry_out` or `too_long` once for each
/// command, and again after an error if the terminal sends its last block again.
pub trait Applet {
    ghost use Rattle.std.specs.Prelude.{◌≡◌, ◌<◌, ◌≤◌, ℕ, List, length, vec_capacity, MatchResult};
    ghost use Rattle.t1_core.specs.CardSide.{Did};

    /// The longest command that the end keeps, in bytes. A longer one goes to `too_long`.
    const LIMIT: usize;

    ghost LIMIT: { ℕ };

    /// The type of the card's states.
    ghost State: { Type 0 };

    /// The state of the card.
    ghost standing: { Self → State };

    /// What carrying out a command does. It is a relation, so the card may choose among several
    /// responses and states.
    ghost Does: { State → Did → State → Type 0 };

    /// Which commands the card may refuse in a state, for lack of memory or because the response
    /// must wait. Then the block that ends the command has no reply.
    ghost Refuses: { State → List ℕ → Type 0 };

    /// Carries out a command, and returns the requests to make before its response. The response
    /// replaces the contents of `response`, which are overwritten. There is room for
    /// `RESPONSE_ROOM` bytes.
    ///
    /// # Errors
    /// - `AllocError`: memory ran out, or the response must wait (`PatientCard`); the command is
    ///   not carried out, and the card and `response` are unchanged.
    fn carry_out(&mut self, command: &[u8], response: &mut Vec<u8>) -> Result<Requests, AllocError>
        requires { RESPONSE_ROOM ≤ vec_capacity response.old }
        ensures does { MatchResult result
            (λ asks. Does (standing self.old) (record {
              command = command.now;
              response = response.new.items;
              asks = asks;
            }) (standing self.new))
            (λ _. (standing self.new ≡ standing self.old)
            × (response.new.items ≡ response.old.items)
            × Refuses (standing self.old) command.now) }
        ensures room { RESPONSE_ROOM ≤ vec_capacity response.new };

    /// As `carry_out`, with a command that is longer than `LIMIT`.
    ///
    /// # Errors
    /// - `AllocError`: as for `carry_out`.
    fn too_long(&mut self, response: &mut Vec<u8>) -> Result<Requests, AllocError>
        requires { RESPONSE_ROOM ≤ vec_capacity response.old }
        ensures does { MatchResult result
            (λ asks. (command : List ℕ) → LIMIT < length command
            → Does (standing self.old) (record {
              command = command;
              response = response.new.items;
              asks = asks;
            }) (standing self.new))
            (λ _. (standing self.new ≡ standing self.old)
            × (response.new.items ≡ response.old.items)
            × ((command : List ℕ) → LIMIT < length command
            → Refuses (standing self.old) command)) }
        ensures room { RESPONSE_ROOM ≤ vec_capacity response.new };
}
