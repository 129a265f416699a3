//! A list of operations over T=1, and the result if the terminal gives up.
ghost use Rattle.std.specs.Prelude.{◌≡◌, ◌⊎◌, map, true, IfOk, OnErr};
ghost use Rattle.card_terminal.specs.Operations.{operation_of};
ghost use Rattle.object_card.specs.State.{is_idle};
ghost use Rattle.t1_terminal.specs.Operated.{HasRun, StandsBetween};

use crate::data_applet::DataApplet;
use crate::operation::operate;
use apdu_terminal::laws::operations_by_whole_commands_are_single_steps;
use apdu_terminal::stop_laws::{an_operation_that_stops, any_card_responds_so};
use card_terminal::{Answers, Op};
use object_card::DataCard;
use std::alloc::{AllocError, Allocator, Global};
use t1_core::{
    Applet, Ends, Fault, Line, Settings, TerminalEnd, carried_commands_are_a_dialogue, rooms_for,
};

/// The result of operations over T=1.
#[derive(Drop)]
pub struct Operated<C: DataCard> {
    /// The card.
    pub card: DataApplet<C>,
    /// The answers, one for each of the first operations: for all if there is no fault.
    pub answers: Answers,
    /// Why the terminal gave up, if it did, and what is known of the operation in progress.
    pub fault: Option<Fault>,
}

/// Carries out operations with a card of data objects over a line, until all have answers or the
/// terminal gives up. Both ends start as after a reset; the card starts in its own state. No chain
/// may be pending at it (`DataCard::is_idle`), and without a fault none is afterwards.
///
/// Whatever the line damages or loses, the answers are the first ones of the card that answers each
/// operation in one step. After a fault the card has carried out the answered operations, and
/// at most the next one, and a chain may be pending. The outcome in the fault is true of that
/// operation. There is no fault on a mild line, where at most f blocks fail between two steps, if
/// the settings suffice. `tries` must be at least 2 f, `extensions` at least f, and `limit` at
/// least `t1_core::RESPONSE_ROOM`.
///
/// # Errors
/// - `AllocError`: memory ran out before the first block of an operation. Those before have been
///   carried out whole; both ends, the card and the answers are dropped.
pub fn run<C: DataCard + Drop, L: Line, V: Allocator>(
    alloc: Global,
    card: DataApplet<C>,
    line: &mut L,
    settings: Settings,
    ops: &[Op<V>],
) -> Result<Operated<C>, AllocError>
    requires idle { is_idle (C.state card.card).pending ≡ true }
    ensures ran { IfOk result (λ r. HasRun ⟦<DataApplet<C> as Applet>⟧ settings
        (C.standing card.card) (C.standing r.card.card) (C.state card.card)
        (C.state r.card.card) (map operation_of ops.now) r.answers.given r.fault
        (L.passed line.old) (L.passed line.new)) }
    ensures memory { OnErr result ((L.passed line.new ≡ L.passed line.old)
        ⊎ StandsBetween ⟦<DataApplet<C> as Applet>⟧
        (record { settings = settings; first = C.standing card.card; passed = L.passed line.old })
        (map operation_of ops.now) (L.passed line.new)) }
{
    operations_by_whole_commands_are_single_steps();
    an_operation_that_stops();
    any_card_responds_so::<C>();
    carried_commands_are_a_dialogue::<DataApplet<C>>();
    let _sound = card.card().is_idle();
    let mut answers = Answers::new(alloc);
    let rooms = rooms_for::<DataApplet<C>>(alloc)?;
    let terminal = TerminalEnd::new(alloc, settings)?;
    let mut ends = Ends::new(terminal, rooms, card);
    for op in ops {
        answers.make_room()?;
        match operate(alloc, &mut ends, line, op)? {
            Ok(answer) => answers.append(answer),
            Err(fault) => {
                return Ok(Operated {
                    card: ends.into_applet(),
                    answers,
                    fault: Some(fault),
                });
            }
        }
    }
    Ok(Operated {
        card: ends.into_applet(),
        answers,
        fault: None,
    })
}
