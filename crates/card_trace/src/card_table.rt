//! The table of a script of `card`: the card's objects, its plans, and its answer to reset.
ghost use Rattle.std.specs.Prelude.{◌≡◌, Some, None, OnOk, IfErr};
ghost use Rattle.card_trace.specs.ScriptCard.{part_of};
ghost use Rattle.card_trace.specs.CardScripts.{card_script, IsBuilt, IsNotBuilt};
ghost use Rattle.card_trace.specs.CardPlaying.{built};
ghost use Rattle.card_trace.specs.AnswerToReset.{AreOfAnswer, RefusesAnswer};
ghost use Rattle.card_trace.specs.ScriptReasons.{OnReason};

use crate::script::card_line::CardPart;
use crate::script::reason::LineReason;
use crate::script::refusal::Refusal;
use crate::script::table_line::add;
use atr_core::Atr;
use card_terminal::Bytes;
use object_card::CardBuilder;
use std::alloc::{AllocError, Allocator};
use t0_core::Plan;

/// What the table lines have added.
#[derive(Drop)]
pub struct CardTable<A: Allocator + Copy> {
    pub builder: CardBuilder<A>,
    pub plans: Vec<Plan<A>, A>,
    pub answer: Option<Bytes<A>>,
}

impl<A: Allocator + Copy> CardTable<A> {
    /// Makes a table without applications, plans and answer to reset.
    pub fn new(alloc: A) -> CardTable<A>
        ensures { built result ≡ card_script.empty }
    {
        CardTable {
            builder: CardBuilder::new(alloc),
            plans: Vec::new(alloc),
            answer: None,
        }
    }

    /// Adds what a table line says. A plan comes after those before it.
    ///
    /// # Errors
    /// The script ends after either.
    /// - `Line`: the builder refuses it, or the answer to reset is invalid or the second one.
    /// - `OutOfMemory`: memory ran out.
    pub fn add(&mut self, part: CardPart<A>) -> Result<(), Refusal>
        ensures added { OnOk result (IsBuilt (built self.old) (part_of part) (built self.new)) }
        ensures refused { IfErr result (λ refusal.
            OnReason refusal (IsNotBuilt (built self.old) (part_of part))) }
    {
        match part {
            CardPart::Adds(addition) => add(&mut self.builder, addition)?,
            CardPart::Atr(answer) => self.answer(answer)?,
            CardPart::Plan(plan) => self.plans.push(plan).map_err(AllocError::from)?,
        }
        Ok(())
    }

    /// Stores the answer to reset with these characters.
    ///
    /// # Errors
    /// - `BadAtr`: they are no answer to reset; this is their first fault. The table is unchanged.
    /// - `AtrTwice`: they are one, but the table already has one. The table is unchanged.
    fn answer(&mut self, answer: Bytes<A>) -> Result<(), LineReason>
        ensures kept { OnOk result ((self.old.answer ≡ None) × AreOfAnswer answer
            × (self.new.answer ≡ Some answer)) }
        ensures refused { IfErr result (RefusesAnswer self.old.answer answer) }
        ensures builder { self.new.builder ≡ self.old.builder }
        ensures plans { self.new.plans.items ≡ self.old.plans.items }
    {
        Atr::read(answer.bytes())?;
        if self.answer.is_some() {
            return Err(LineReason::AtrTwice);
        }
        self.answer = Some(answer);
        Ok(())
    }
}
