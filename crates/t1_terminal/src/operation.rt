//! One operation over T=1: a terminal runs its commands over both ends of a line.
ghost use Rattle.std.specs.Prelude.{◌≡◌, ◌≤◌, ◌++◌, ◌∷◌, [], ℕ, List, true, None, IfOk, OnErr, MatchResult, MatchOption, is_some, length, vec_capacity};
ghost use Rattle.apdu_core.specs.CommandBytes as spec;
ghost use Rattle.apdu_core.specs.CommandBytes.{command_bytes};
ghost use Rattle.apdu_core.specs.StatusWord.{StatusWord, IsStatusWord};
ghost use Rattle.exchange_core.specs.ExchangeSide.{response_limit};
ghost use Rattle.card_terminal.specs.Operations.{operation_of};
ghost use Rattle.card_terminal.specs.Talk.{AreCommandsOf};
ghost use Rattle.object_card.specs.OneStep.{Operation};
ghost use Rattle.object_card.specs.State.{IsCardState};
ghost use Rattle.apdu_terminal.specs.Apdus.{Pair};
ghost use Rattle.apdu_terminal.specs.ApduOperations.{ApduTerminalOf, KeepsLimit, LeadsTo, operation_answer};
ghost use Rattle.apdu_terminal.specs.ApduTalk.{IsApduTalkOf, talk_pairs};
ghost use Rattle.t1_core.specs.TerminalSide.{is_ready};
ghost use Rattle.t1_terminal.specs.CardCommand.{status_bytes};
ghost use Rattle.t1_terminal.specs.Operated.{GivesUp, HasTaken, Start, Takes, fault_at};

use crate::data_applet::DataApplet;
use apdu_core::{Command, Header, Status};
use apdu_terminal::stop_laws::{
    a_card_of_data_objects_is_taken, a_due_command_is_agreed, any_card_responds_so,
};
use apdu_terminal::{ApduTerminal, begin};
use card_terminal::{Answer, Op};
use object_card::DataCard;
use std::alloc::{AllocError, Allocator, Global};
use t1_core::{Applet, COMMAND_ROOM, Ends, Fault, Line, Outcome, carried_commands_are_a_dialogue};

/// Carries out one operation. `ends.is_ready()` must hold. Returns its answer, or the fault, after
/// which no command begins.
///
/// # Errors
/// - `AllocError`: memory ran out before the first block of the operation; nothing has changed.
pub fn operate<C: DataCard, L: Line, V: Allocator>(
    alloc: Global,
    ends: &mut Ends<DataApplet<C>>,
    line: &mut L,
    op: &Op<V>,
) -> Result<Result<Answer, Fault>, AllocError>
    requires ready { is_ready ends.old.terminal.phase ≡ true }
    requires started { (s : Start C.State) × (pairs : List Pair) × (card : C)
        × (C.standing card ≡ s.first) × IsCardState (C.state card)
        × HasTaken ⟦<DataApplet<C> as Applet>⟧ s pairs (L.passed line.old) ends.old }
    ensures operated { IfOk result (λ r. MatchResult r
        (λ answer. (is_ready ends.new.terminal.phase ≡ true) × ((exchanges : List (List Pair))
        × IsApduTalkOf (operation_of op.now) exchanges answer
        × Takes ⟦<DataApplet<C> as Applet>⟧ (L.passed line.old) ends.old (talk_pairs exchanges)
        (L.passed line.new) ends.new))
        (λ fault. GivesUp ⟦<DataApplet<C> as Applet>⟧ (L.passed line.old) ends.old
        (operation_of op.now) fault (L.passed line.new) ends.new)) }
    ensures nothing_sent { OnErr result
        ((ends.new ≡ ends.old) × (L.passed line.new ≡ L.passed line.old)) }
{
    let mut terminal = ApduTerminal::new(alloc);
    begin(&mut terminal, op)?;
    let mut command = Vec::new(alloc);
    command.reserve_exact(COMMAND_ROOM)?;
    if let Some(fault) = go_through(ends, line, &mut terminal, command) {
        return Ok(Err(fault));
    }
    let Some(answer) = terminal.into_answer() else {
        unreachable!()
    };
    Ok(Ok(answer))
}

/// Carries the commands of an operation that has begun, until the operation ends or the terminal's
/// end gives up. Returns the fault, if any. `command` has room for each command.
fn go_through<C: DataCard, L: Line>(
    ends: &mut Ends<DataApplet<C>>,
    line: &mut L,
    terminal: &mut ApduTerminal,
    mut command: Vec<u8>,
) -> Option<Fault>
    requires room { 261 ≤ vec_capacity command }
    requires ready { is_ready ends.old.terminal.phase ≡ true }
    requires started { (s : Start C.State) × (pairs : List Pair) × (card : C)
        × (C.standing card ≡ s.first) × IsCardState (C.state card)
        × HasTaken ⟦<DataApplet<C> as Applet>⟧ s pairs (L.passed line.old) ends.old }
    requires begun { (operation : Operation) × (commands : List spec.Command)
        × AreCommandsOf operation commands × LeadsTo commands [] terminal.old.operation }
    requires limit { (terminal.old.limit ≡ response_limit) × KeepsLimit terminal.old terminal.old }
    ensures { MatchOption result
        ((is_ready ends.new.terminal.phase ≡ true)
        × (is_some (operation_answer terminal.new.operation) ≡ true)
        × ((commands : List spec.Command) → LeadsTo commands [] terminal.old.operation
        → (here : List Pair) × LeadsTo commands here terminal.new.operation
        × Takes ⟦<DataApplet<C> as Applet>⟧ (L.passed line.old) ends.old here
        (L.passed line.new) ends.new))
        (λ fault. (operation : Operation) (commands : List spec.Command)
        → AreCommandsOf operation commands → LeadsTo commands [] terminal.old.operation
        → GivesUp ⟦<DataApplet<C> as Applet>⟧ (L.passed line.old) ends.old operation fault
        (L.passed line.new) ends.new) }
{
    a_due_command_is_agreed();
    a_card_of_data_objects_is_taken();
    any_card_responds_so::<C>();
    carried_commands_are_a_dialogue::<DataApplet<C>>();
    'talk: while let Some(due) = terminal.apdu() {
        let header = due.header();
        spell(&due, &mut command);
        let Ok(()) = ends.carry(line, &command) else {
            unreachable!()
        };
        if let Some(fault) = ends.fault() {
            return Some(told(header, fault));
        }
        let (content, status) = parts(ends.response());
        terminal.responded(content, status).unwrap();
    }
    None
}

/// Replaces the bytes by those of a command, for which there is room.
fn spell(command: &Command<'_>, out: &mut Vec<u8>)
    requires { 261 ≤ vec_capacity out.old }
    ensures bytes { out.new.items ≡ command_bytes command.now }
    ensures short { length out.new.items ≤ 261 }
    ensures room { vec_capacity out.old ≤ vec_capacity out.new }
{
    let Header { cla, ins, p1, p2 } = command.header();
    let data = command.data();
    out.fill(0);
    out.clear();
    out.push_reserved(cla);
    out.push_reserved(ins);
    out.push_reserved(p1);
    out.push_reserved(p2);
    if let Some(lc) = u8::try_from(data.len()).ok().filter(|lc| *lc > 0) {
        out.push_reserved(lc);
        if out.extend_from_slice(data).is_err() {
            unreachable!()
        }
    }
    if let Some(le) = command.le() {
        out.push_reserved((le % 256) as u8);
    }
}

/// Returns the fault of the operation, whose outcome also depends on the command in progress.
fn told(header: Header, fault: Fault) -> Fault
    ensures { result ≡ fault_at header fault }
{
    let outcome = match (header.ins, header.cla) {
        (0xC0, _) => Outcome::InPart,
        (_, 0x10) => Outcome::NotCarriedOut,
        _ => fault.outcome,
    };
    Fault {
        cause: fault.cause,
        outcome,
    }
}

/// Splits a response into data and status.
fn parts(response: &[u8]) -> (&[u8], Status)
    requires { (content : List ℕ) × (status : StatusWord) × IsStatusWord status
        × (response.now ≡ content ++ status_bytes status) }
    ensures { response.now ≡ result.0.now ++ status_bytes result.1 }
{
    let at = response.len() - 2;
    let Some(status) = Status::new(response[at], response[at + 1]) else {
        unreachable!()
    };
    (&response[..at], status)
}
