//! A session: a terminal joined to a card, and how it carries out one command.
ghost use Rattle.std.specs.Prelude.{◌≡◌, ℕ, ◌<◌, ◌≤◌, ◌++◌, List, [], ◌⊎◌, true, false, MatchResult, OnOk, OnErr, IfOk, IfErr};
ghost use Rattle.apdu_core.specs.CommandBytes as spec;
ghost use Rattle.t0_core.specs.CardHistory.{Leads, LeadsUnder};
ghost use Rattle.t0_core.specs.CardSide.{Taking_header};
ghost use Rattle.t0_core.specs.Plan.{Course, Cursor};
ghost use Rattle.t0_core.specs.Watch.{Hearing};
ghost use Rattle.t0_core.specs.Buffers.{Steps};
ghost use Rattle.object_card.specs.Agreed.{IsAgreed};
ghost use Rattle.exchange_core.specs.ExchangeSide.{IsBounded, exchange_turn};
ghost use Rattle.card_terminal.specs.Conversing.{point, IsCaused};
ghost use Rattle.card_terminal.specs.Line.{Start, line, HearsOne, Begins, IsGoing, IsOneOf, Keeps, Passes, Converses};

mod run;

use crate::session_fault::SessionFault;
use apdu_core::Command;
use exchange_core::{Answer, Exchange};
use std::alloc::Allocator;
use std::marker::Model;
use t0_core::{CardEnd, End, HostTurn, LineFault, Plans, TpduCard, Turn, Watch};

/// A terminal and a card, joined by a line that delivers every character. Contracts see a session
/// as its card.
#[derive(Drop)]
pub struct Session<C: TpduCard> {
    end: CardEnd<C>,
}

impl<C: TpduCard> Model for Session<C> {
    ghost use Rattle.std.specs.Prelude.{◌≡◌, []};
    ghost use Rattle.t0_core.specs.CardSide.{Taking_header};

    ghost Value = { C };

    ghost view = { λ s. s.end.card };

    ghost invariant = { λ s. s.end.stage ≡ Taking_header [] };
}

impl<C: TpduCard> Session<C> {
    ghost use Rattle.std.specs.Prelude.{IsErrOf};
    ghost use Rattle.std.specs.List.{flat_map};
    ghost use Rattle.t0_core.specs.declared.line_fault.LineFault.{LineFault};
    ghost use Rattle.exchange_core.specs.Gathered.{UnitOf, Gathers, dialogues_of};
    ghost use Rattle.card_terminal.specs.Conversing.{HaveGone};

    /// Resets the card, and starts a session with it.
    pub fn new(mut end: CardEnd<C>) -> Session<C>
        ensures { C.standing result ≡ C.after_reset (C.standing end.card) }
    {
        end.reset();
        Session { end }
    }

    /// The card.
    pub fn card(&self) -> &C
        ensures { result.now ≡ self.now }
    {
        self.end.card()
    }

    /// Resets the card (`TpduCard::reset`). The caller's plans and watch stay as they are.
    pub fn reset(&mut self)
        ensures { C.standing self.new ≡ C.after_reset (C.standing self.old) }
    {
        self.end.reset();
    }

    /// Ends the session: resets the card, and returns its end of the line.
    pub fn into_end(self) -> CardEnd<C>
        ensures card { C.standing result.card ≡ C.after_reset (C.standing self) }
        ensures stage { result.stage ≡ Taking_header [] }
        ensures led { Leads C.Does C.after_reset (C.standing result.card) []
            (C.standing result.card) (C.prepared result.card) result.stage }
        ensures led_under { LeadsUnder C.Does (C.standing result.card) [] []
            (C.standing result.card) (C.prepared result.card) result.stage }
    {
        let Session { mut end } = self;
        end.reset();
        end
    }

    /// Carries out a command that is agreed with the card, under the plans at the cursor `plans`.
    /// For a card of data objects, `object_card::is_agreed` tests that. Returns the status of the
    /// last TPDU and all data, at most `RESPONSE_LIMIT` bytes. `watch` hears each character.
    ///
    /// # Errors
    ///
    /// - `OutOfMemory`: memory ran out before the first character; nothing has changed.
    /// - `Line`: the response exceeds the room (`TooLong`), or the card stalls (`Stalled`); the
    ///   card was reset. `plans` and `watch` are past the characters that were sent.
    pub fn transmit<A: Allocator, B: Allocator, W: Watch>(
        &mut self,
        alloc: A,
        command: Command,
        plans: &mut Plans<B>,
        watch: &mut W,
    ) -> Result<Answer<A>, SessionFault>
        requires { IsAgreed C.MayReceive C.MaySend command }
        ensures answers { IfOk result
            (λ reply. (units : List UnitOf) × Gathers command.entry units reply.content reply.status
            × HaveGone C.Does (point (C.standing self.old) plans.old.rest (W.hearing watch.old))
            (flat_map dialogues_of units)
            (point (C.standing self.new) plans.new.rest (W.hearing watch.new))) }
        ensures memory { IsErrOf result SessionFault.OutOfMemory →
            (self.new ≡ self.old) × (plans.new ≡ plans.old)
            × (W.hearing watch.new ≡ W.hearing watch.old) }
        ensures line { (fault : LineFault) → IsErrOf result (SessionFault.Line fault)
            → (standing : C.State) ×
            IsCaused C.Does (point (C.standing self.old) plans.old.rest (W.hearing watch.old))
            command.entry (point standing plans.new.rest (W.hearing watch.new)) fault
            × (C.standing self.new ≡ C.after_reset standing) }
    {
        let mut exchange = Exchange::start(alloc, command)?;
        match converse(&mut exchange, &mut self.end, plans, watch) {
            Ok(()) => Ok(exchange.into_answer().unwrap()),
            Err(fault) => {
                self.end.reset();
                Err(SessionFault::Line(fault))
            }
        }
    }
}

/// Passes the card's next character to the terminal and to the watch.
#[inline(always)]
fn pass_from_card<A: Allocator, B: Allocator, C: TpduCard, W: Watch>(
    exchange: &mut Exchange<'_, A>,
    end: &mut CardEnd<C>,
    plans: &mut Plans<B>,
    watch: &mut W,
) -> Result<(), LineFault>
    requires under_way { (s : Start C.State) ×
        IsGoing C.TpduCard s (line exchange.old end.old plans.old (W.hearing watch.old)) }
    requires listens { exchange_turn exchange.old ≡ HostTurn.Listens }
    ensures { Passes C.TpduCard (line exchange.old end.old plans.old (W.hearing watch.old))
        (line exchange.new end.new plans.new (W.hearing watch.new)) result (λ _. true) }
{
    let Turn::Sends(byte) = end.turn(plans) else {
        unreachable!()
    };
    watch.seen(End::Card, byte);
    exchange.take(byte)?;
    Ok(())
}

/// Lets the watch hear characters of an end. Apart from the loop of a session, a compiler asks once
/// for a run whether somebody listens.
#[inline(never)]
fn hear<W: Watch>(watch: &mut W, end: End, bytes: &[u8])
    ensures { Steps (HearsOne end) (W.hearing watch.old) bytes.now (W.hearing watch.new) }
{
    for at in 0..bytes.len() {
        watch.seen(end, bytes[at]);
    }
}

/// Passes the data that the terminal sends now to the card and to the watch, in one run. For speed:
/// the caller uses it only after a character of the card, since a call after each character slows
/// down GET DATA.
#[inline(always)]
fn pass_data<A: Allocator, C: TpduCard, W: Watch>(
    exchange: &mut Exchange<'_, A>,
    end: &mut CardEnd<C>,
    watch: &mut W,
)
    ensures { (cursor : Cursor) →
        Keeps C.TpduCard (line exchange.old end.old cursor (W.hearing watch.old))
        (line exchange.new end.new cursor (W.hearing watch.new)) }
{
    let run = exchange.next_data_run();
    end.take_bytes(run);
    hear(watch, End::Terminal, run);
}

/// Passes the data that the card sends now to the terminal and to the watch, as far as they lie in
/// a row and the terminal has room. For speed, and as `pass_data` after a character of the card.
#[inline(always)]
fn pass_run<A: Allocator, C: TpduCard, W: Watch>(
    exchange: &mut Exchange<'_, A>,
    end: &mut CardEnd<C>,
    watch: &mut W,
)
    ensures { (cursor : Cursor) →
        Keeps C.TpduCard (line exchange.old end.old cursor (W.hearing watch.old))
        (line exchange.new end.new cursor (W.hearing watch.new)) }
{
    let Some(run) = end.data_due() else {
        return;
    };
    let bytes = run.bytes();
    let count = exchange.take_data(bytes);
    hear(watch, End::Card, &bytes[..count]);
    end.skip_data(count);
}

/// Passes the next character from one end to the other, and to the watch. After a character of the
/// card it also passes the data that either end then sends. Returns false if the exchange has ended
/// and there was no character.
#[inline(always)]
fn pass_characters<A: Allocator, B: Allocator, C: TpduCard, W: Watch>(
    exchange: &mut Exchange<'_, A>,
    end: &mut CardEnd<C>,
    plans: &mut Plans<B>,
    watch: &mut W,
) -> Result<bool, LineFault>
    requires { (s : Start C.State) ×
        IsOneOf C.TpduCard s (line exchange.old end.old plans.old (W.hearing watch.old)) }
    ensures { Passes C.TpduCard (line exchange.old end.old plans.old (W.hearing watch.old))
        (line exchange.new end.new plans.new (W.hearing watch.new)) result (λ going. going) }
{
    match exchange.next() {
        HostTurn::Sends(byte) => {
            end.take(byte).unwrap();
            watch.seen(End::Terminal, byte);
            Ok(true)
        }
        HostTurn::Listens => {
            pass_from_card(exchange, end, plans, watch)?;
            pass_data(exchange, end, watch);
            pass_run(exchange, end, watch);
            Ok(true)
        }
        HostTurn::Done(_) => Ok(false),
        HostTurn::Failed => unreachable!(),
    }
}

/// Passes characters until the exchange has ended or failed.
#[inline(always)]
fn converse<A: Allocator, B: Allocator, C: TpduCard, W: Watch>(
    exchange: &mut Exchange<'_, A>,
    end: &mut CardEnd<C>,
    plans: &mut Plans<B>,
    watch: &mut W,
) -> Result<(), LineFault>
    requires rests { end.old.stage ≡ Taking_header [] }
    requires begun { (command : spec.Command) × Begins C.TpduCard command
        (line exchange.old end.old plans.old (W.hearing watch.old)) }
    ensures { Converses C.TpduCard (line exchange.old end.old plans.old (W.hearing watch.old))
        (line exchange.new end.new plans.new (W.hearing watch.new)) result }
{
    let mut going = true;

    // For the proof: the label names the loop's goals.
    'talk: while going {
        going = pass_characters(exchange, end, plans, watch)?;
    }
    Ok(())
}
