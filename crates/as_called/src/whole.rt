//! One command and all that follows it, by whole commands.
ghost use Rattle.std.specs.Prelude.{◌≡◌, ◌++◌, [], IfErr, IfOk, IfSome, MatchResult, OnOk};
ghost use Rattle.apdu_core.specs.CommandBytes as spec;
ghost use Rattle.apdu_core.specs.StatusWord.{StatusWord};
ghost use Rattle.exchange_core.specs.Gathered.{wanted_by};
ghost use Rattle.apdu_terminal.specs.ApduSide.{ComesTo};
ghost use Rattle.apdu_terminal.specs.declared.stage.Stage.TheVariants.{Done};
ghost use Rattle.command_card.specs.AtT1.{status_bytes};
ghost use Rattle.command_card.specs.Calls.{CallsFor};
ghost use Rattle.command_card.specs.View.{applet_in};
ghost use Rattle.as_called.specs.AsIfCalled.{AsIfCalled, By_whole};
ghost use Rattle.as_called.specs.Faults.{IsLeft, IsTrue, outcome_of};
ghost use Rattle.as_called.specs.Sending.{HasEnded, HasStopped, of_all};

use crate::fault::SendFault;
use crate::link::Link;
use apdu_core::{Command, Status};
use apdu_terminal::ApduExchange;
use command_card::Application;
use std::alloc::Allocator;
use t1_core::{Fault, Outcome};

/// Sends a command to an application by whole commands, and fetches the rest of the response. The
/// returned exchange has ended: `answer` returns its status and data. `link.is_ready()` must hold,
/// and holds again afterwards unless there is a fault.
///
/// The report is as if the application had been called directly (`AsIfCalled`), and it was called
/// so (`called`). After a fault its outcome is true.
///
/// # Errors
/// - `OutOfMemory`: memory ran out before the first command.
/// - `Line`: the line failed (`Link::carry`).
/// - `NoResponse`: the card's bytes are no response.
pub fn send<'c, A: Application, K: Link<A>, M: Allocator>(
    alloc: M,
    link: &mut K,
    command: Command<'c>,
) -> Result<ApduExchange<'c, M>, SendFault>
    requires ready { K.IsReady link.old }
    ensures as_if_called { IfOk result (λ ex. (status : StatusWord) × (ex.stage ≡ Done status)
        × AsIfCalled A.takes A.Does By_whole (applet_in A.standing (K.card link.old))
        command.entry ex.gather.bytes status (applet_in A.standing (K.card link.new))) }
    ensures called { OnOk result (CallsFor A.Called (A.takes (A.standing (K.card link.old).app))
        (K.card link.old).app command.entry (K.card link.new).app) }
    ensures left { IfErr result (λ fault. IsLeft A.takes A.Does
        (A.standing (K.card link.old).app) command.entry (outcome_of fault)
        (A.standing (K.card link.new).app)) }
    ensures left_called { IfErr result (λ fault. IsTrue (outcome_of fault)
        ((K.card link.new).app ≡ (K.card link.old).app)
        (CallsFor A.Called (A.takes (A.standing (K.card link.old).app))
        (K.card link.old).app command.entry (K.card link.new).app)) }
    ensures ready { OnOk result (K.IsReady link.new) }
{
    let Ok(mut exchange) = ApduExchange::start(alloc, command) else {
        return Err(SendFault::OutOfMemory);
    };
    match go_through(link, &mut exchange) {
        Ok(()) => Ok(exchange),
        Err(fault) => Err(fault),
    }
}

/// Carries the commands of an exchange that has begun, until it ends.
fn go_through<A: Application, K: Link<A>, M: Allocator>(
    link: &mut K,
    exchange: &mut ApduExchange<'_, M>,
) -> Result<(), SendFault>
    requires ready { K.IsReady link.old }
    ensures { (c : spec.Command) → ComesTo c (wanted_by c.le) [] exchange.old →
        MatchResult result
        (λ _. HasEnded A.Application (K.card link.old) c exchange.new (K.card link.new)
        × K.IsReady link.new)
        (λ fault. HasStopped A.Application (K.card link.old) c (outcome_of fault)
        (K.card link.new)) }
{
    let mut is_first = true;
    // For the proof: the label names the loop's goals.
    'talk: while let Some(due) = exchange.apdu() {
        match link.carry(&due) {
            Ok(()) => {}
            Err(fault) => return Err(SendFault::Line(of_all(is_first, fault))),
        }
        let Some(said) = parts(link.response()) else {
            return Err(SendFault::NoResponse);
        };
        match exchange.responded(said.0, said.1) {
            Ok(()) => {}
            Err(_) => return Err(SendFault::NoResponse),
        }
        is_first = false;
    }
    Ok(())
}

/// The fault of the whole command, by that of the first command or of a later one.
fn of_all(is_first: bool, fault: Fault) -> Fault
    ensures { result ≡ of_all is_first fault }
{
    if is_first {
        return fault;
    }
    Fault {
        cause: fault.cause,
        outcome: Outcome::InPart,
    }
}

/// Splits a response into data and status.
fn parts(response: &[u8]) -> Option<(&[u8], Status)>
    ensures { IfSome result (λ r. response.now ≡ r.0.now ++ status_bytes r.1) }
{
    if response.len() < 2 {
        return None;
    }
    let at = response.len() - 2;
    let status = Status::new(response[at], response[at + 1])?;
    Some((&response[..at], status))
}
