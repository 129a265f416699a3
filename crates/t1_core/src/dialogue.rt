//! A whole dialogue: a list of commands, over a line.
ghost use Rattle.std.specs.Prelude.{◌≤◌, ℕ, List, None, IfOk, OnErr, length, map, take};
ghost use Rattle.t1_core.specs.Conversing.{Conversed};

use crate::applet::Applet;
use crate::card::rooms_for;
use crate::ends::Ends;
use crate::line::Line;
use crate::settings::Settings;
use crate::terminal::{Fault, TerminalEnd};
use std::alloc::{AllocError, Global};

/// The result of a dialogue.
#[derive(Drop)]
pub struct Conversation<C> {
    /// The card.
    pub applet: C,
    /// The responses, one for each of the first commands, in order.
    pub answers: Vec<Vec<u8>>,
    /// Why the terminal gave up, if it did.
    pub fault: Option<Fault>,
}

/// Sends commands to a card over a line, from a reset of both ends on, until all have their answers
/// or the terminal gives up. The card itself starts in the state of `applet`.
///
/// Whatever the line damages or loses, the card carries out the first ones of the commands, in
/// order, each once. Each answer is the card's response. At most one command that it carried out
/// has no answer, and the outcome in a fault is true. The dialogue ends. On a line that is mild
/// enough for the settings (`laws::mild_lines_are_survived`) there is no fault.
///
/// # Errors
/// - `AllocError`: memory ran out before the first block, or between two commands. Those before
///   have been carried out, and have their answers; both ends, the card and the answers are
///   dropped.
pub fn converse<C: Applet + Drop, L: Line>(
    alloc: Global,
    applet: C,
    line: &mut L,
    settings: Settings,
    commands: &[Vec<u8>],
) -> Result<Conversation<C>, AllocError>
    ensures talked { IfOk result (λ r. Conversed C.Applet settings (C.standing applet)
        (C.standing r.applet) (map (λ v. v.items) commands.now)
        (map (λ v. v.items) r.answers.items) r.fault (L.passed line.old) (L.passed line.new)) }
    ensures memory { OnErr result ((count : ℕ) × (count ≤ length commands.now)
        × (last : C.State) × (answers : List (List ℕ))
        × Conversed C.Applet settings (C.standing applet) last
        (map (λ v. v.items) (take count commands.now)) answers None
        (L.passed line.old) (L.passed line.new)) }
{
    let rooms = rooms_for::<C>(alloc)?;
    let terminal = TerminalEnd::new(alloc, settings)?;
    let mut ends = Ends::new(terminal, rooms, applet);
    let mut answers = Vec::new(alloc);
    for command in commands {
        ends.carry(line, command)?;
        if !ends.is_ready() {
            break;
        }
        let mut answer = Vec::new(alloc);
        answer.extend_from_slice(ends.response())?;
        answers.push(answer)?;
    }
    Ok(Conversation {
        fault: ends.fault(),
        applet: ends.into_applet(),
        answers,
    })
}
