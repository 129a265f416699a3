//! Runs operations between a terminal of whole commands and a card of data objects.
ghost use Rattle.std.specs.Prelude.{◌≡◌, ◌<◌, ◌++◌, ◌∷◌, [], List, length, None, true, is_ok, is_some, MatchResult, OnErr, OnOk};
ghost use Rattle.std.specs.List.{AllByRecursion, flat_map};
ghost use Rattle.apdu_core.specs.CommandBytes as spec;
ghost use Rattle.object_card.specs.Agreed.{IsAgreed};
ghost use Rattle.object_card.specs.State.{IsCardState, is_idle};
ghost use Rattle.apdu_core.specs.Shared.{Reply};
ghost use Rattle.object_card.specs.OneStep.{AnswersAll};
ghost use Rattle.t0_core.specs.CardTpdu.{rests};
ghost use Rattle.exchange_core.specs.ExchangeSide.{response_limit};
ghost use Rattle.card_terminal.specs.Operations.{operation_of};
ghost use Rattle.card_terminal.specs.Running.{new_answers, carried_out};
ghost use Rattle.card_terminal.specs.Talk.{AreCommandsOf};
ghost use Rattle.apdu_terminal.specs.Apdus.{Pair};
ghost use Rattle.apdu_terminal.specs.ApduOperations.{HasResponded, KeepsLimit, LeadsTo, operation_answer};
ghost use Rattle.apdu_terminal.specs.ApduTalk.{AreApduTalksOf, IsApduTalkOf, talk_pairs};
ghost use Rattle.apdu_terminal.specs.CardApdu.{RespondsToAll};

use crate::card_response::answered;
use crate::terminal::ApduTerminal;
use card_terminal::{Answers, BeginFault, Op};
use object_card::DataCard;
use std::alloc::{AllocError, Allocator};
use t0_core::{CardEnd, Gather};

/// Carries out the operations, one after another, by whole commands, and appends the answer of each
/// to `out`, whatever its status. Before it, no chain may be pending at the card
/// (`DataCard::is_idle`) and no TPDU in progress (`CardEnd::is_at_rest`). The same holds
/// afterwards.
///
/// # Errors
/// - `AllocError`: memory ran out before an operation, which has not begun. The operations before
///   it are carried out, and `out` holds their answers.
pub fn run<C: DataCard, A: Allocator + Copy, V: Allocator>(
    alloc: A,
    end: &mut CardEnd<C>,
    ops: &[Op<V>],
    out: &mut Answers<A>,
) -> Result<(), AllocError>
    requires rests { rests end.old.stage ≡ true }
    requires idle { is_idle (C.state end.old.card).pending ≡ true }

    // The answers are appended, one for each operation. If memory ran out, only the operations
    // before that have answers.
    ensures answered { let answers = new_answers out.old.given out.new.given in
        (out.new.given ≡ out.old.given ++ answers)
        × MatchResult result (λ _. length answers ≡ length ops.now)
        (λ _. length answers < length ops.now) }

    // The answers and the tables are those of the card that carries out each in one step.
    ensures one_step { let answers = new_answers out.old.given out.new.given in
        AnswersAll (C.state end.old.card) (carried_out ops.now answers) answers
        (C.state end.new.card) }

    // The card has responded to the commands of these operations, and to no others.
    ensures talk { let answers = new_answers out.old.given out.new.given in
        (talks : List (List (List Pair)))
        × AreApduTalksOf (carried_out ops.now answers) talks answers
        × RespondsToAll C.Does (C.standing end.old.card) (flat_map talk_pairs talks)
        (C.standing end.new.card) }
    ensures idle { is_idle (C.state end.new.card).pending ≡ true }
    ensures rests { rests end.new.stage ≡ true }
{
    for op in ops {
        carry_out(alloc, end, op, out)?;
    }
    Ok(())
}

/// Carries out one operation, and appends its answer.
///
/// # Errors
/// - `AllocError`: memory ran out. Nothing changes.
fn carry_out<C: DataCard, A: Allocator + Copy, V: Allocator>(
    alloc: A,
    end: &mut CardEnd<C>,
    op: &Op<V>,
    out: &mut Answers<A>,
) -> Result<(), AllocError>
    requires rests { rests end.old.stage ≡ true }
    ensures memory { OnErr result ((end.new ≡ end.old) × (out.new.given ≡ out.old.given)) }
    ensures rests { rests end.new.stage ≡ true }
    ensures talk { OnOk result ((answer : Reply) × (out.new.given ≡ out.old.given ++ answer ∷ [])
        × ((exchanges : List (List Pair)) × IsApduTalkOf (operation_of op.now) exchanges answer
        × RespondsToAll C.Does (C.standing end.old.card) (talk_pairs exchanges)
        (C.standing end.new.card))) }
{
    out.make_room()?;
    let mut terminal = ApduTerminal::new(alloc);
    begin(&mut terminal, op)?;
    let room = Gather::with_room(alloc, 256)?;
    let mut gather = Gather::with_room(alloc, 256)?;
    let _room = go_through(end, &mut terminal, room, &mut gather);
    let Some(answer) = terminal.into_answer() else {
        unreachable!()
    };
    out.append(answer);
    Ok(())
}

/// Begins an operation at a terminal. It must have begun none since `new` or `reset`.
///
/// # Errors
/// - `AllocError`: memory ran out. No operation has begun.
pub fn begin<A: Allocator + Copy, V: Allocator>(
    terminal: &mut ApduTerminal<A>,
    op: &Op<V>,
) -> Result<(), AllocError>
    requires { terminal.old.operation ≡ None }
    ensures begun { OnOk result ((commands : List spec.Command)
        × AreCommandsOf (operation_of op.now) commands
        × LeadsTo commands [] terminal.new.operation) }
    ensures memory { OnErr result (terminal.new.operation ≡ None) }
    ensures limit { KeepsLimit terminal.old terminal.new }
{
    match op {
        Op::Select(aid) => has_begun(terminal.select(aid)),
        Op::Get(tag) => has_begun(terminal.get(*tag)),
        Op::Put(tag, value) => has_begun(terminal.put(*tag, value.bytes())),
    }
}

/// Returns the error as `AllocError`: a terminal with no operation can only run out of memory.
fn has_begun(begun: Result<(), BeginFault>) -> Result<(), AllocError>
    ensures { is_ok result ≡ is_ok begun }
{
    match begun {
        Ok(()) => Ok(()),
        Err(_) => Err(AllocError),
    }
}

/// Passes the operation's commands to the card and its responses to the terminal, until the
/// operation has ended. `room` is for a response, and returned; `gather` is for the data of one
/// TPDU.
fn go_through<C: DataCard, A: Allocator + Copy, B: Allocator>(
    end: &mut CardEnd<C>,
    terminal: &mut ApduTerminal<A>,
    mut room: Gather<B>,
    gather: &mut Gather<B>,
) -> Gather<B>
    requires rests { rests end.old.stage ≡ true }
    requires begun { (commands : List spec.Command)
        × AllByRecursion (λ c. IsAgreed C.MayReceive C.MaySend c) commands
        × LeadsTo commands [] terminal.old.operation }
    requires limit { (terminal.old.limit ≡ response_limit) × KeepsLimit terminal.old terminal.old }
    requires rooms { (room.limit ≡ 256) × (gather.old.limit ≡ 256) }
    ensures rests { rests end.new.stage ≡ true }
    ensures over { is_some (operation_answer terminal.new.operation) ≡ true }
    ensures led { (commands : List spec.Command) →
        AllByRecursion (λ c. IsAgreed C.MayReceive C.MaySend c) commands →
        LeadsTo commands [] terminal.old.operation →
        HasResponded C.Does commands (C.standing end.old.card) (C.standing end.new.card)
        terminal.new.operation }
{
    // For the proof: the card is in a sound state. The label names the loop's goals.
    let _sound = is_sound(end);
    'talk: while let Some(due) = terminal.apdu() {
        let response = answered(end, due, room, gather);
        let Some(status) = response.status() else {
            unreachable!()
        };
        room = response.into_gather();
        terminal.responded(room.bytes(), status).unwrap();
    }
    room
}

/// For the proof: states that the card is in a sound state.
fn is_sound<C: DataCard>(end: &CardEnd<C>) -> bool
    ensures { IsCardState (C.state end.now.card) }
{
    end.card().is_idle()
}
