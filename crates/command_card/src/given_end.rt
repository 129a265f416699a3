//! The calls of `t0_core::CardEnd` as parts of a history in which responses are given. Each
//! function makes that call alone.
ghost use Rattle.std.specs.Prelude.{◌≡◌, ◌≤◌, ◌++◌, ℕ, List, [], ◌∷◌, Some, length, take, OnOk};
ghost use Rattle.std.specs.List.{AllByRecursion};
ghost use Rattle.t0_core.specs.declared.end.End.TheVariants.{Terminal, Card};
ghost use Rattle.t0_core.specs.Character.{sent_by};
ghost use Rattle.t0_core.specs.CardSending.{AreDue};
ghost use Rattle.t0_core.specs.History.{IsByteEvent, Passed, Reset, passed};
ghost use Rattle.command_card.specs.Given.{GivenState, at_rest};
ghost use Rattle.command_card.specs.Giving.{Giving, LedLent, given_card};
ghost use Rattle.command_card.specs.Lending.{Happening, On_line, line_of, on_line};
ghost use Rattle.command_card.specs.State.{CardState};
ghost use Rattle.command_card.specs.View.{standing_in};

use crate::card::CommandCard;
use crate::given::Given;
use crate::given_laws::the_line_leads_on_after_lending;
use std::alloc::Allocator;
use t0_core::{CardEnd, NotListening, Plans, Turn};

/// Makes an end.
pub fn new_end(card: CommandCard<Given>) -> CardEnd<CommandCard<Given>>
    ensures led { LedLent (standing_in at_rest card) [] result }
{
    the_line_leads_on_after_lending();
    CardEnd::new(card)
}

/// Takes a character of the terminal.
///
/// # Errors
/// - `NotListening`: the card sends next; nothing has changed.
pub fn take_at(end: &mut CardEnd<CommandCard<Given>>, byte: u8) -> Result<(), NotListening>
    ensures led { OnOk result ((first : CardState GivenState) (hs : List (Happening Giving)) →
        AllByRecursion IsByteEvent (line_of hs ++ Passed (Terminal, byte) ∷ []) →
        LedLent first hs end.old →
        LedLent first (hs ++ On_line (Passed (Terminal, byte)) ∷ []) end.new) }
{
    the_line_leads_on_after_lending();
    end.take(byte)
}

/// Takes characters of the terminal, and returns how many.
pub fn take_bytes_at(end: &mut CardEnd<CommandCard<Given>>, bytes: &[u8]) -> usize
    ensures led { (first : CardState GivenState) (hs : List (Happening Giving)) →
        AllByRecursion IsByteEvent
        (line_of hs ++ passed (sent_by Terminal (take result bytes.now))) →
        LedLent first hs end.old →
        LedLent first (hs ++ on_line (passed (sent_by Terminal (take result bytes.now)))) end.new }
{
    the_line_leads_on_after_lending();
    end.take_bytes(bytes)
}

/// Returns the card's next character, if it is data.
pub fn next_data_at(end: &mut CardEnd<CommandCard<Given>>) -> Option<u8>
    ensures led { (first : CardState GivenState) (hs : List (Happening Giving)) (byte : ℕ) →
        result ≡ Some byte → AllByRecursion IsByteEvent (line_of hs ++ Passed (Card, byte) ∷ []) →
        LedLent first hs end.old →
        LedLent first (hs ++ On_line (Passed (Card, byte)) ∷ []) end.new }
{
    the_line_leads_on_after_lending();
    end.next_data()
}

/// Counts characters of the card that it was lent (`CardEnd::data_due`) as sent.
pub fn skip_data_at(end: &mut CardEnd<CommandCard<Given>>, count: usize)
    ensures led { (first : CardState GivenState) (hs : List (Happening Giving)) (run : List ℕ) →
        AreDue given_card end.old run → count ≤ length run →
        AllByRecursion IsByteEvent (line_of hs ++ passed (sent_by Card (take count run))) →
        LedLent first hs end.old →
        LedLent first (hs ++ on_line (passed (sent_by Card (take count run)))) end.new }
{
    the_line_leads_on_after_lending();
    end.skip_data(count);
}

/// Returns the card's next character.
pub fn turn_at<A: Allocator>(end: &mut CardEnd<CommandCard<Given>>, plans: &mut Plans<A>) -> Turn
    ensures led { (first : CardState GivenState) (hs : List (Happening Giving)) (byte : ℕ) →
        result ≡ Turn.Sends byte →
        AllByRecursion IsByteEvent (line_of hs ++ Passed (Card, byte) ∷ []) →
        LedLent first hs end.old →
        LedLent first (hs ++ On_line (Passed (Card, byte)) ∷ []) end.new }
{
    the_line_leads_on_after_lending();
    end.turn(plans)
}

/// Resets the card.
pub fn reset_at(end: &mut CardEnd<CommandCard<Given>>)
    ensures led { (first : CardState GivenState) (hs : List (Happening Giving)) →
        AllByRecursion IsByteEvent (line_of hs ++ Reset ∷ []) →
        LedLent first hs end.old → LedLent first (hs ++ On_line Reset ∷ []) end.new }
{
    the_line_leads_on_after_lending();
    end.reset();
}
