//! What a line of a script prints, and its text.
ghost use Rattle.std.specs.Prelude.{◌≡◌};
ghost use Rattle.card_trace.specs.PrintedText.{printed_text};

use std::alloc::Allocator;

/// What a line of a script prints.
#[derive(Drop)]
pub enum Printed<A: Allocator> {
    /// Nothing.
    Nothing,
    /// `reset`: the card was reset.
    Reset,
    /// `! card busy`: a chain is pending at the card, so the operation did not begin.
    CardBusy,
    /// `! not listening`: the card refused a character, since it sends next.
    NotListening,
    /// The lines of an operation, of characters handed out, or of a table.
    Lines(Vec<u8, A>),
}

impl<A: Allocator> Printed<A> {
    /// Returns the text, in whole lines.
    pub fn text(&self) -> &[u8]
        ensures { result.now ≡ printed_text self.now }
    {
        match self {
            Printed::Nothing => b"",
            Printed::Reset => b"reset\n",
            Printed::CardBusy => b"! card busy\n",
            Printed::NotListening => b"! not listening\n",
            Printed::Lines(text) => text.as_slice(),
        }
    }
}
