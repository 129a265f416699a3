//! Cuts a script into lines.
ghost use Rattle.std.specs.Prelude.{◌≡◌};
ghost use Rattle.std.specs.Str.Lines.{lines, strip_carriage_return};
ghost use Rattle.std.specs.Iterator.{YieldsFirstBy, item_count};

use crate::script::places::place_of;
use std::marker::Model;

/// The lines of a script that are left. A line ends at LF, which the last may lack, and a CR right
/// before LF is not part of it. Contracts see the list of these lines.
#[derive(Drop)]
pub struct Lines<'a> {
    rest: &'a [u8],
}

impl<'a> Model for Lines<'a> {
    ghost use Rattle.std.specs.Prelude.{ℕ, List};
    ghost use Rattle.std.specs.Str.Lines.{lines};

    ghost Value = { List (List ℕ) };

    ghost view = { λ l. lines l.rest.now };
}

impl<'a> Lines<'a> {
    /// Returns the lines of this script. An empty script has none.
    pub fn of(script: &'a [u8]) -> Lines<'a>
        ensures { result ≡ lines script.now }
    {
        Lines { rest: script }
    }
}

impl<'a> Iterator for Lines<'a> {
    type Item = &'a [u8];

    ghost next_gives = { YieldsFirstBy (λ line. line.now) (λ rest. rest) };

    ghost remaining = { item_count (λ rest. rest) };

    fn next(&mut self) -> Option<&'a [u8]> {
        if self.rest.is_empty() {
            return None;
        }
        match place_of(b'\n', self.rest) {
            None => {
                let last = self.rest;
                self.rest = &[];
                Some(last)
            }
            Some(end) => {
                let line = &self.rest[..end];
                self.rest = &self.rest[end + 1..];
                Some(without_return(line))
            }
        }
    }
}

/// Returns the line without one CR at its end.
fn without_return(line: &[u8]) -> &[u8]
    ensures { result.now ≡ strip_carriage_return line.now }
{
    match line {
        [front @ .., b'\r'] => front,
        _ => line,
    }
}
