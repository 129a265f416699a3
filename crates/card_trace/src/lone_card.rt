//! A card without a terminal, for scripts of `card`.
ghost use Rattle.std.specs.Prelude.{◌≡◌, ◌<◌, ℕ, [], ◌∷◌, length, None, Some, nat_lt, true, IfOk, IfSome, MatchOption};
ghost use Rattle.t0_core.specs.declared.end.End.TheVariants.{Card};
ghost use Rattle.t0_core.specs.Character.{sent_by};
ghost use Rattle.t0_core.specs.CardSide.{listens};
ghost use Rattle.card_trace.specs.ScriptCard.{part_of as card_part, act_of as card_act};
ghost use Rattle.card_trace.specs.CardScripts.{card_script, Takes, HandsOutNext, IsEnough};
ghost use Rattle.card_trace.specs.CardPlaying.{built, may_hand_out, LeadOn, LeadsTo, StandsFor};
ghost use Rattle.card_trace.specs.PrintedText.{printed_text};

use crate::card_table::CardTable;
use crate::opening::Opening;
use crate::printed::Printed;
use crate::runner::Runner;
use crate::script::card_line::{CardAct, CardPart, read_act, read_part};
use crate::script::keyword::Keyword;
use crate::script::line::Line;
use crate::script::refusal::Refusal;
use crate::script::section::Section;
use crate::text::{handed_out_text, table_text};
use object_card::ObjectCard;
use std::alloc::{AllocError, Allocator};
use t0_core::{CardEnd, PlanQueue, Turn};

/// A card without a terminal: its answer to reset, its end of the line, and the plans for its
/// TPDUs.
#[derive(Drop)]
pub struct LoneCard<A: Allocator + Copy> {
    opening: Opening<A>,
    end: CardEnd<ObjectCard<A>>,
    plans: PlanQueue<A>,
}

impl<A: Allocator + Copy> Runner for LoneCard<A> {
    type Alloc = A;

    type Part = CardPart<A>;

    type Act = CardAct<A>;

    type Table = CardTable<A>;

    ghost script = { card_script };

    ghost part_of = { card_part };

    ghost act_of = { card_act };

    ghost table_of = { built };

    ghost StandsFor = { StandsFor };

    fn read(
        alloc: A,
        section: Section,
        keyword: Keyword,
        rest: &[u8],
    ) -> Result<Line<CardPart<A>, CardAct<A>>, Refusal> {
        match keyword {
            Keyword::Adds(_) | Keyword::Atr | Keyword::Plan => {
                section.takes_table_line()?;
                Ok(Line::Builds(read_part(alloc, keyword, rest)?))
            }
            _ => Ok(Line::Runs(read_act(alloc, keyword, rest)?)),
        }
    }

    fn table(alloc: A) -> CardTable<A> {
        CardTable::new(alloc)
    }

    fn add(table: &mut CardTable<A>, part: CardPart<A>) -> Result<(), Refusal> {
        table.add(part)
    }

    fn of(_alloc: A, table: CardTable<A>) -> Result<LoneCard<A>, AllocError> {
        let card = table.builder.finish()?;
        Ok(LoneCard {
            opening: Opening::of(table.answer),
            end: CardEnd::new(card),
            plans: PlanQueue::of(table.plans),
        })
    }

    fn carry_out(&mut self, alloc: A, act: CardAct<A>) -> Result<Printed<A>, AllocError> {
        match act {
            CardAct::Take(characters) => Ok(self.take(characters.bytes())),
            CardAct::HandOut(most) => {
                let text = self.hand_out(alloc, most)?;
                Ok(Printed::Lines(text))
            }
            CardAct::Reset => {
                self.opening.begin_anew();
                self.end.reset();
                Ok(Printed::Reset)
            }
            CardAct::Table => {
                let text = table_text(alloc, self.end.card())?;
                Ok(Printed::Lines(text))
            }
        }
    }
}

impl<A: Allocator + Copy> LoneCard<A> {
    /// Gives the card these characters, up to the first that it refuses; the rest is dropped. It
    /// refuses each character until it has handed out its whole answer to reset. Returns
    /// `NotListening` if it refused one, and otherwise `Nothing`.
    fn take(&mut self, characters: &[u8]) -> Printed<A>
        ensures { LeadsTo (λ old new. Takes old characters.now (printed_text result) new)
            self.old self.new }
    {
        if !self.opening.is_over() {
            return Printed::NotListening;
        }
        if self.end.take_bytes(characters) < characters.len() {
            return Printed::NotListening;
        }
        Printed::Nothing
    }

    /// Returns the line of the next characters, at most `most`, if given. They are those left of
    /// the answer to reset. After the last of these they are the card's end's, until it listens.
    ///
    /// # Errors
    /// - `AllocError`: memory ran out; the script ends.
    fn hand_out(&mut self, alloc: A, most: Option<u16>) -> Result<Vec<u8, A>, AllocError>
        ensures { IfOk result (λ text. LeadsTo (λ old new. HandsOutNext old most text.items new)
            self.old self.new) }
    {
        if self.opening.is_over() {
            let characters = handed_out(alloc, &mut self.end, &mut self.plans, most)?;
            return handed_out_text(alloc, &characters);
        }
        let text = handed_out_text(alloc, self.opening.next_characters(most))?;
        self.opening.pass(most);
        Ok(text)
    }
}

/// Returns the characters that the card's end hands out until it listens, at most `most`, if given.
///
/// # Errors
/// - `AllocError`: memory ran out; the script ends.
fn handed_out<A: Allocator + Copy>(
    alloc: A,
    end: &mut CardEnd<ObjectCard<A>>,
    plans: &mut PlanQueue<A>,
    most: Option<u16>,
) -> Result<Vec<u8, A>, AllocError>
    ensures enough { IfOk result (λ handed. IsEnough most (length handed.items) end.new.stage) }
    ensures led { IfOk result (λ handed.
        LeadOn (end.old, plans.old) (sent_by Card handed.items) (end.new, plans.new)) }
{
    let mut characters = Vec::new(alloc);
    'turns: while wants_more(most, characters.len()) {
        match next_of(end, plans) {
            None => return Ok(characters),
            Some(byte) => characters.push(byte)?,
        }
    }
    Ok(characters)
}

/// Returns the next character of the card's end, or `None` if it listens. A TPDU takes its plan
/// from `plans`.
fn next_of<A: Allocator + Copy>(
    end: &mut CardEnd<ObjectCard<A>>,
    plans: &mut PlanQueue<A>,
) -> Option<u8>
    ensures led { MatchOption result
        ((listens end.old.stage ≡ true) × (end.new ≡ end.old) × (plans.new ≡ plans.old))
        (λ byte. LeadOn (end.old, plans.old) ((Card, byte) ∷ []) (end.new, plans.new)) }
    ensures falls { IfSome result (λ _.
        may_hand_out end.new.stage plans.new < may_hand_out end.old.stage plans.old) }
{
    let takes_plan = end.takes_plan();
    match end.turn(&mut plans.cursor()) {
        Turn::Listens => None,
        Turn::Sends(byte) => {
            plans.advance_if(takes_plan);
            Some(byte)
        }
    }
}

/// Whether `most` allows more characters than the `handed` ones.
fn wants_more(most: Option<u16>, handed: usize) -> bool
    ensures none { most ≡ None → result ≡ true }
    ensures some { (n : ℕ) → most ≡ Some n → result ≡ nat_lt handed n }
{
    match most {
        None => true,
        Some(most) => handed < usize::from(most),
    }
}
