//! A terminal and a card in a session, for scripts of `play`.
ghost use Rattle.std.specs.Prelude.{◌≡◌, IfOk, false};
ghost use Rattle.card_terminal.specs.Operations.{operation_of};
ghost use Rattle.card_trace.specs.Playing.{in_session};
ghost use Rattle.card_trace.specs.PrintedText.{printed_text};
ghost use Rattle.card_trace.specs.ScriptFields.{AreOfAgreedCommand};
ghost use Rattle.card_trace.specs.ScriptPlay.{act_of as play_act};
ghost use Rattle.card_trace.specs.ScriptTable.{addition_of};
ghost use Rattle.card_trace.specs.Scripts.{play_script, IsRun, IsSent};
ghost use Rattle.card_trace.specs.TraceText.{operation_text as text_of_operation};

use crate::printed::Printed;
use crate::runner::Runner;
use crate::script::fields::agreed_command;
use crate::script::keyword::Keyword;
use crate::script::line::Line;
use crate::script::play_line::{PlayAct, read_act};
use crate::script::refusal::Refusal;
use crate::script::section::Section;
use crate::script::table_line::{TableLine, add, read_table_line};
use crate::text::{operation_text, table_text};
use card_terminal::{Answer, Op, Session};
use object_card::{CardBuilder, ObjectCard};
use std::alloc::{AllocError, Allocator};
use t0_core::{CardEnd, Plan, Plans, Recorder};

/// A card in a session with a terminal, and the plans for the next operation or command.
#[derive(Drop)]
pub struct BothEnds<A: Allocator + Copy> {
    session: Session<ObjectCard<A>>,
    plans: Vec<Plan<A>, A>,
}

impl<A: Allocator + Copy> Runner for BothEnds<A> {
    type Alloc = A;

    type Part = TableLine<A>;

    type Act = PlayAct<A>;

    type Table = CardBuilder<A>;

    ghost script = { play_script };

    ghost part_of = { addition_of };

    ghost act_of = { play_act };

    ghost table_of = { λ builder. builder };

    ghost StandsFor = { λ ends session. session ≡ in_session ends };

    fn read(
        alloc: A,
        section: Section,
        keyword: Keyword,
        rest: &[u8],
    ) -> Result<Line<TableLine<A>, PlayAct<A>>, Refusal> {
        match keyword {
            Keyword::Adds(word) => {
                section.takes_table_line()?;
                Ok(Line::Builds(read_table_line(alloc, word, rest)?))
            }
            _ => Ok(Line::Runs(read_act(alloc, keyword, rest)?)),
        }
    }

    fn table(alloc: A) -> CardBuilder<A> {
        CardBuilder::new(alloc)
    }

    fn add(table: &mut CardBuilder<A>, part: TableLine<A>) -> Result<(), Refusal> {
        add(table, part)
    }

    fn of(alloc: A, table: CardBuilder<A>) -> Result<BothEnds<A>, AllocError> {
        Ok(BothEnds {
            session: Session::new(CardEnd::new(table.finish()?)),
            plans: Vec::new(alloc),
        })
    }

    fn carry_out(&mut self, alloc: A, act: PlayAct<A>) -> Result<Printed<A>, AllocError> {
        match act {
            PlayAct::Plan(plan) => {
                self.plans.push(plan).map_err(AllocError::from)?;
                Ok(Printed::Nothing)
            }
            PlayAct::Run(op) => self.operate(alloc, &op),
            PlayAct::Send(command) => self.send(alloc, command.bytes()),
            PlayAct::Reset => {
                self.session.reset();
                Ok(Printed::Reset)
            }
            PlayAct::Table => {
                let text = table_text(alloc, self.session.card())?;
                Ok(Printed::Lines(text))
            }
        }
    }
}

impl<A: Allocator + Copy> BothEnds<A> {
    /// Carries out an operation under the plans, and returns its lines. If a chain is pending,
    /// sends nothing, and returns `CardBusy`. In both cases the plans are dropped.
    ///
    /// # Errors
    /// - `AllocError`: memory ran out, also for what the recorder hears; the script ends.
    fn operate(&mut self, alloc: A, op: &Op<A>) -> Result<Printed<A>, AllocError>
        ensures { IfOk result (λ printed. IsRun self.old.session.state self.old.plans.items
            (operation_of op.now) (printed_text printed) (in_session self.new)) }
    {
        if !self.session.is_idle() {
            self.plans.clear();
            return Ok(Printed::CardBusy);
        }
        let mut recorder = Recorder::new(alloc);
        let mut cursor = Plans::over(&self.plans);
        let answer = self.session.operate(alloc, op, &mut cursor, &mut recorder)?;
        self.plans.clear();
        lines_of(alloc, &recorder, &answer)
    }

    /// Sends one command under the plans, drops them, and returns its lines. The bytes must be a
    /// command that is agreed with the card. It may begin or continue a chain.
    ///
    /// # Errors
    /// - `AllocError`: memory ran out, also for what the recorder hears; the script ends.
    fn send(&mut self, alloc: A, bytes: &[u8]) -> Result<Printed<A>, AllocError>
        requires { AreOfAgreedCommand bytes.now }
        ensures { IfOk result (λ printed. IsSent self.old.session.state self.old.plans.items
            bytes.now (printed_text printed) (in_session self.new)) }
    {
        let Ok(command) = agreed_command(bytes) else {
            unreachable!()
        };
        let mut recorder = Recorder::new(alloc);
        let mut cursor = Plans::over(&self.plans);
        let answer = self
            .session
            .send(alloc, command, &mut cursor, &mut recorder)?;
        self.plans.clear();
        lines_of(alloc, &recorder, &answer)
    }
}

/// Returns the lines of what the recorder heard, and of the answer.
///
/// # Errors
/// - `AllocError`: memory ran out, also for what the recorder hears.
fn lines_of<A: Allocator + Copy>(
    alloc: A,
    recorder: &Recorder<A>,
    answer: &Answer<A>,
) -> Result<Printed<A>, AllocError>
    ensures { IfOk result (λ printed. (recorder.now.lost ≡ false)
        × (printed_text printed ≡ text_of_operation recorder.now.heard answer.now)) }
{
    if recorder.lost() {
        return Err(AllocError);
    }
    let text = operation_text(alloc, recorder.heard(), answer)?;
    Ok(Printed::Lines(text))
}
