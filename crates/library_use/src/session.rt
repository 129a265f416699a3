//! Carries out operations with a card.

use card_terminal::{Answers, Op, Session, SessionFault};
use object_card::{Aid, ObjectCard};
use std::alloc::{AllocError, Global};
use t0_core::{CardEnd, Plans, Silent};
use tlv_core::ObjectTag;

/// Selects an application of a card of data objects, and reads an object.
pub fn carry_out(
    alloc: Global,
    card: CardEnd<ObjectCard>,
    aid: Aid,
    tag: ObjectTag,
) -> Result<Answers, SessionFault> {
    let mut session = Session::new(card);
    let mut ops: Vec<Op> = Vec::new(alloc);
    ops.push(Op::Select(aid)).map_err(AllocError::from)?;
    ops.push(Op::Get(tag)).map_err(AllocError::from)?;
    let mut plans = Plans::<Global>::over(&[]);
    let mut answers = Answers::new(alloc);
    if session.is_idle() {
        session.run(alloc, &ops, &mut plans, &mut Silent, &mut answers)?;
    }
    Ok(answers)
}
