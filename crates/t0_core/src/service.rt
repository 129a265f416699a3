//! Moves the data of a TPDU at a card's end.
ghost use Rattle.std.specs.Prelude.{◌≡◌, ℕ, ◌+◌, ◌-◌, ◌<◌, ◌≤◌, ◌⊎◌, ◌++◌, List, [], length, min, take, drop, false, MatchOption, nat_lt, ◌&&◌};
ghost use Rattle.t0_core.specs.declared.plan.Step.{Step};
ghost use Rattle.t0_core.specs.declared.direction.Direction.TheVariants.{ToCard};
ghost use Rattle.t0_core.specs.CardContract.{IsDecided};
ghost use Rattle.t0_core.specs.CardView.{Fits, IsInService, IsNext, IsReadyFor, GivesStatus, KeepsDirection, phase_after, so_many_moved, stage_of};
ghost use Rattle.std.specs.Option.{option_map};
ghost use Rattle.t0_core.specs.CardSide.{whole_data, comes_from_terminal, Advances, GoesByCount, IsServed, Serving, left_to_send, listens, one_moved, still_to_go, whole_of};
ghost use Rattle.t0_core.specs.Answering.{awaited_in};
ghost use Rattle.t0_core.specs.Dialogue as dialogue;
ghost use Rattle.t0_core.specs.Dialogue.{Body};
ghost use Rattle.t0_core.specs.Front.{In_body};
ghost use Rattle.t0_core.specs.Plan.{Course, plan_kept, segments_of};

use crate::card_end::Awaited;
use crate::direction::Direction;
use crate::plan::{Plans, Step, next_step};
use crate::procedure::{moves, procedure_byte};
use crate::tpdu_card::TpduCard;
use apdu_core::{Header, Status};
use std::alloc::Allocator;

/// The progress of a TPDU's data, after the card accepted its header.
#[derive(Clone, Copy, Debug, PartialEq, Eq)]
pub struct Service {
    header: Header,
    p3: u8,
    direction: Direction,
    /// The number of data characters moved. For speed it has 32 bits: a 16-bit count, stored and
    /// read back at each character, goes through memory.
    moved: u32,
    /// The number of data characters that the procedure bytes so far move.
    until: u32,
    /// The number of steps of the plan that are carried out or skipped.
    done: usize,
}

impl Service {
    /// Makes a service that has moved no data.
    pub(crate) fn new(header: Header, p3: u8, direction: Direction) -> Service
        ensures { result ≡ record {
          header = header;
          p3 = p3;
          direction = direction;
          moved =
              0;
          until = 0;
          done = 0;
        } }
    {
        Service {
            header,
            p3,
            direction,
            moved: 0,
            until: 0,
            done: 0,
        }
    }

    /// The number of data characters moved.
    #[inline(always)]
    pub(crate) fn moved(&self) -> u32
        ensures { result ≡ self.now.moved }
    {
        self.moved
    }

    /// Whether the terminal sends a data character next.
    #[inline(always)]
    pub(crate) fn is_listening(&self) -> bool
        ensures { result
            ≡ (comes_from_terminal self.now.direction && nat_lt self.now.moved self.now.until) }
    {
        matches!(self.direction, Direction::ToCard) && self.moved < self.until
    }

    /// The character that the end expects or sends next.
    pub(crate) fn awaited(&self) -> Awaited
        ensures { (came : List ℕ) → result ≡ awaited_in (Serving self.now came) }
    {
        if self.moved < self.until {
            match self.direction {
                Direction::ToCard => Awaited::OfTerminal(self.moved),
                Direction::FromCard => Awaited::OfCard(self.moved),
            }
        } else {
            Awaited::Procedure
        }
    }

    /// Counts one more data character.
    #[inline(always)]
    pub(crate) fn one_moved(&mut self)
        requires { self.old.moved < 256 }
        ensures { self.new ≡ one_moved self.old }
    {
        self.moved += 1;
    }

    /// Stores the terminal's expected data characters in `came`, in one run. Returns how many.
    #[inline(always)]
    pub(crate) fn take_run(&mut self, bytes: &[u8], came: &mut [u8; 255]) -> usize
        requires within { (self.old.until ≤ whole_of self.old) × (self.old.p3 < 256) }
        requires room { length came.old ≡ 255 }
        ensures moved { self.new ≡ record self.old { moved = self.old.moved + result } }
        ensures due { (result ≡ 0) ⊎ ((self.old.direction ≡ ToCard)
            × (self.old.moved + result ≤ self.old.until)) }
        ensures came { take (self.old.moved + result) came.new
            ≡ take self.old.moved came.old ++ take result bytes.now }
        ensures none { result ≡ 0 → came.new ≡ came.old }
        ensures fits { result ≤ length bytes.now }
        ensures room { length came.new ≡ 255 }
    {
        if !self.is_listening() {
            return 0;
        }
        let place = self.moved as usize;
        let count = ((self.until - self.moved) as usize).min(bytes.len());
        came[place..place + count].copy_from_slice(&bytes[..count]);
        self.moved += count as u32;
        count
    }

    /// The terminal's data, once all of them came. `came` starts with them.
    pub(crate) fn whole_data<'a>(&self, came: &'a [u8; 255]) -> Option<&'a [u8]>
        requires room { length came.now ≡ 255 }
        ensures { option_map (λ bytes. bytes.now) result
            ≡ whole_data (Serving self.now (take self.now.moved came.now)) }
    {
        if matches!(self.direction, Direction::ToCard) && self.moved == u32::from(self.p3) {
            Some(&came[..self.p3 as usize])
        } else {
            None
        }
    }

    /// How many data characters the card sends next.
    #[inline(always)]
    pub(crate) fn due(&self) -> usize
        requires { self.now.moved ≤ self.now.until }
        ensures { result ≡ left_to_send self.now.direction self.now.moved self.now.until }
    {
        match self.direction {
            Direction::ToCard => 0,
            Direction::FromCard => (self.until - self.moved) as usize,
        }
    }

    /// Counts data characters of the card, at most as many as it sends next.
    #[inline(always)]
    pub(crate) fn skip(&mut self, count: usize)
        requires { self.old.moved ≤ self.old.until }
        ensures { self.new ≡ so_many_moved self.old
            (min count (left_to_send self.old.direction self.old.moved self.old.until)) }
    {
        self.moved += count.min(self.due()) as u32;
    }

    /// Returns the next procedure byte, once those so far have moved their data. `None`, with no
    /// change, if no data are left and no step is left that is a NULL.
    fn next(&mut self, steps: &[Step]) -> Option<u8>
        requires { (self.old.moved ≡ self.old.until) × (self.old.until ≤ whole_of self.old) }
        ensures { MatchOption result
            ((self.new ≡ self.old)
            × (segments_of (drop self.old.done steps.now) (whole_of self.old - self.old.until)
            ≡ []))
            (λ byte. (step : Step) × (byte ≡ dialogue.procedure_byte self.old.header.ins step)
            × IsNext self.old steps.now step self.new) }
    {
        let left = self.direction.foreseen(self.p3) - self.moved as u16;
        let (step, done) = next_step(steps, self.done, left)?;
        self.until = self.moved + u32::from(moves(step, left));
        self.done = done;
        Some(procedure_byte(self.header.ins, step))
    }
}

/// Returns a data character, the next procedure byte, or SW1 with its status. `came` starts with
/// the data characters from the terminal.
#[inline(always)]
pub(crate) fn serve<C: TpduCard, A: Allocator>(
    card: &mut C,
    service: &mut Service,
    came: &[u8; 255],
    plans: &Plans<A>,
) -> (u8, Option<Status>)
    requires fits { IsInService (C.prepared card.old) service.old }
    requires room { length came.now ≡ 255 }
    requires due { listens (Serving service.old (take service.old.moved came.now)) ≡ false }
    ensures fits { Fits (C.prepared card.new) (phase_after service.new result.1) }
    ensures falls { (plan : Course) → plan.steps ≡ (plan_kept plans.now).steps →
        still_to_go (stage_of (phase_after service.new result.1) came.now) plan
        < still_to_go (Serving service.old (take service.old.moved came.now)) plan }
    ensures counts { (plan : Course) → plan.steps ≡ (plan_kept plans.now).steps →
        GoesByCount (Serving service.old (take service.old.moved came.now)) plan result.0
        (stage_of (phase_after service.new result.1) came.now) }
    ensures keeps { KeepsDirection (Serving service.old (take service.old.moved came.now))
        (stage_of (phase_after service.new result.1) came.now) }
    ensures advances { (cut : ℕ) (plan : Course) (b : Body)
        → plan.steps ≡ (plan_kept plans.now).steps →
        IsServed (C.prepared card.old) service.old (take service.old.moved came.now) cut b →
        Advances C.Does cut plan (Serving service.old (take service.old.moved came.now)) (In_body b)
        result.0
        (C.standing card.old) (C.standing card.new) (C.prepared card.new)
        (stage_of (phase_after service.new result.1) came.now) }
{
    if service.moved < service.until {
        let byte = card.byte(service.moved as u16);
        service.one_moved();
        return (byte, None);
    }
    match service.next(plans.steps()) {
        Some(byte) => (byte, None),
        None => {
            let status = conclude(card, service.direction, &came[..service.p3 as usize]);
            (status.sw1(), Some(status))
        }
    }
}

/// The card's status, after all steps and all data.
fn conclude<C: TpduCard>(card: &mut C, direction: Direction, content: &[u8]) -> Status
    requires { IsReadyFor (C.prepared card.old) direction (length content.now) }
    ensures decided { IsDecided (C.prepared card.new) }
    ensures stands { C.standing card.new ≡ C.standing card.old }
    ensures answer { GivesStatus C.Does (C.standing card.old) (C.prepared card.old) direction
        content.now result (C.prepared card.new) }
{
    match direction {
        Direction::ToCard => card.data(content),
        Direction::FromCard => card.end_of_sending(),
    }
}
