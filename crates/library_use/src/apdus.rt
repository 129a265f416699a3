//! Selects an application by whole commands.

use apdu_core::Command;
use apdu_terminal::{ApduTerminal, COMMAND_LIMIT, respond, write_command};
use card_terminal::Answer;
use object_card::{Aid, ObjectCard};
use std::alloc::Global;
use t0_core::CardEnd;

/// Selects an application of a card of data objects, by whole commands as bytes. `None`: memory ran
/// out, or a step failed.
pub fn select(alloc: Global, card: &mut CardEnd<ObjectCard>, aid: &Aid) -> Option<Answer> {
    let mut terminal = ApduTerminal::new(alloc);
    let mut bytes = [0; COMMAND_LIMIT];
    terminal.select(aid).ok()?;
    for _ in 0..u64::MAX {
        let Some(command) = terminal.apdu() else {
            break;
        };
        let count = write_command(&command, &mut bytes)?;
        let sent = Command::read(bytes.get(..count)?).ok()?;
        let response = respond(alloc, card, sent).ok()?;
        let (data, status) = (response.data(), response.status()?);
        terminal.responded(data, status).ok()?;
    }
    terminal.into_answer()
}
