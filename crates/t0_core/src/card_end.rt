//! The card's end of the line, which answers TPDUs character by character.
ghost use Rattle.std.specs.Prelude.{◌≡◌, ℕ, ◌+◌, ◌≤◌, ◌<◌, ◌++◌, List, [], ◌∷◌, length, replicate, take, true, is_ok, OnOk, OnErr, IsOk, if◌then◌else◌, slice_index, ◌==◌, IfOk, ◌↔◌, ◌⊎◌, false, MatchOption};
ghost use Rattle.apdu_core.specs.declared.header.Header.{Header};
ghost use Rattle.apdu_core.specs.HeaderBytes.{header_bytes, ins_is_valid};
ghost use Rattle.t0_core.specs.declared.service.Service.{Service};
ghost use Rattle.t0_core.specs.CardView.{Fits, IsBegun, IsForgotten, IsHeld, IsJudged, IsRun, IsVerdict, IsAfter, KeepsDirection, Refuses, skipped, stage_of};
ghost use Rattle.t0_core.specs.CardSide.{StandsAt, Advances, GoesByCount, IsOnPlan, SuitsFront, IsPermitted, begins_with, due_in, listens, with_character, Taking_header, Serving, takes_plan, still_to_go};
ghost use Rattle.t0_core.specs.History.{Event, Passed, Reset};
ghost use Rattle.t0_core.specs.CardHistory.{Leads, LeadsUnder, IsTakenLast};
ghost use Rattle.t0_core.specs.Plan.{Course, IsCut, advanced, plan_kept};
ghost use Rattle.t0_core.specs.declared.direction.Direction.{Direction};
ghost use Rattle.t0_core.specs.Front.{Front, In_body, header_only};
ghost use Rattle.t0_core.specs.Buffers.{Steps};
ghost use Rattle.t0_core.specs.CardTaking.{IsTaken};
ghost use Rattle.t0_core.specs.CardSending.{AreDue, IsHandedOut};
ghost use Rattle.t0_core.specs.DataRun.{bytes_of};

mod asking;
mod tpdu;

use crate::data_run::DataRun;
use crate::direction::Direction;
use crate::plan::{Plans, Step, next_step};
use crate::service::{Service, serve};
use crate::tpdu_card::{TpduCard, Verdict};
use apdu_core::{Header, Status};
use std::alloc::Allocator;
use std::error::Error;
use std::fmt;
use std::marker::Model;
pub use tpdu::Awaited;

/// What a card's end does next.
#[derive(Clone, Copy, Debug, PartialEq, Eq)]
pub enum Turn {
    /// It waits for a character of the terminal.
    Listens,
    /// It sends this character.
    Sends(u8),
}

/// The terminal offered a character, but the card sends next. Nothing changed.
#[derive(Clone, Copy, Debug, PartialEq, Eq)]
pub struct NotListening;

impl fmt::Display for NotListening {
    ghost use Rattle.std.specs.Prelude.{Some, codes};

    ghost output = { λ _. Some (codes "character out of turn") };

    fn fmt<W: fmt::Write>(&self, f: &mut fmt::Formatter<W>) -> fmt::Result {
        f.write_str("character out of turn")
    }
}

impl Error for NotListening {}

/// The progress of a card's end in a TPDU.
#[derive(Clone, Copy, Debug, PartialEq, Eq)]
pub enum Phase {
    /// The header is not judged yet. `taken` is the number of its characters so far, 0 to 5. At 5
    /// the card sends next.
    Opening {
        bytes: [u8; 5],
        taken: usize,
    },
    /// The card refused the header. `done` is the number of plan steps carried out or skipped.
    Refused {
        header: Header,
        p3: u8,
        status: Status,
        done: usize,
    },
    /// The card accepted the header.
    Accepted {
        service: Service,
    },
    /// The card sent SW1 and sends SW2 next.
    SecondStatus {
        status: Status,
    },
}

/// The card's end of the line, over a card (ISO/IEC 7816-3, 10.3).
///
/// `take` gives it each character of the terminal, and `turn` returns each character of the card.
/// After a header it carries out the steps of the next plan in `Plans`, moves the data, and sends
/// the card's status. If the card refuses the header, only the plan's NULLs precede the status.
#[derive(Drop)]
pub struct CardEnd<C: TpduCard> {
    card: C,
    phase: Phase,
    /// The data characters received from the terminal in this TPDU, at most P3.
    came: [u8; 255],
}

impl<C: TpduCard> Model for CardEnd<C> {
    ghost use Rattle.std.specs.Prelude.{◌≡◌, length};
    ghost use Rattle.t0_core.specs.CardSide.{EndOf};
    ghost use Rattle.t0_core.specs.CardView.{Fits, IsForgotten, stage_of};

    ghost Value = { EndOf C };

    ghost view = { λ e. record { card = e.card; stage = stage_of e.phase e.came } };

    ghost invariant = { λ e. Fits (C.prepared e.card) e.phase × (length e.came ≡ 255)
        × IsForgotten e.phase e.came };
}

impl<C: TpduCard> CardEnd<C> {
    ghost use Rattle.t0_core.specs.declared.end.End.TheVariants.{Terminal, Card};
    ghost use Rattle.t0_core.specs.Character.{Character};
    ghost use Rattle.t0_core.specs.Front.{GoesOn};

    /// Makes the end of a card, before any character.
    pub fn new(card: C) -> CardEnd<C>
        ensures fresh { result ≡ record { card = card; stage = Taking_header [] } }
        ensures led { Leads C.Does C.after_reset (C.standing card) []
            (C.standing result.card) (C.prepared result.card) result.stage }
        ensures led_under { LeadsUnder C.Does (C.standing card) [] []
            (C.standing result.card) (C.prepared result.card) result.stage }
    {
        CardEnd {
            card,
            phase: FRESH,
            came: [0; 255],
        }
    }

    /// Returns the card behind the end.
    pub fn card(&self) -> &C
        ensures { result.now ≡ self.now.card }
    {
        &self.card
    }

    /// The buffer for the terminal's data. It starts with those of the current TPDU. Between TPDUs,
    /// and while a header comes in, it holds zeros, so nothing is left of the last TPDU.
    pub fn held(&self) -> &[u8; 255]
        ensures begins { (s : Service) (bytes : List ℕ) → self.now.stage ≡ Serving s bytes →
            bytes ≡ take s.moved result.now }
        ensures between { (bytes : List ℕ) → self.now.stage ≡ Taking_header bytes →
            result.now ≡ replicate 255 0 }
    {
        &self.came
    }

    /// Whether header and P3 are complete, and the card has sent nothing of this TPDU. If so, the
    /// next `turn` takes the next plan.
    pub fn takes_plan(&self) -> bool
        ensures { result ≡ takes_plan self.now.stage }
    {
        begins_to_answer(&self.phase)
    }

    /// Resets the card (`TpduCard::reset`), and drops the TPDU in progress. The end then waits for
    /// a header. A cursor of plans is not rewound.
    pub fn reset(&mut self)
        ensures card { C.standing self.new.card ≡ C.after_reset (C.standing self.old.card) }
        ensures stage { self.new.stage ≡ Taking_header [] }

        // History: what led to the state before leads, with the reset, to the state after. A new
        // history starts here too.
        ensures led { (first : C.State) (events : List Event) →
            Leads C.Does C.after_reset first events
            (C.standing self.old.card) (C.prepared self.old.card) self.old.stage →
            Leads C.Does C.after_reset first (events ++ Reset ∷ [])
            (C.standing self.new.card) (C.prepared self.new.card) self.new.stage }
        ensures anew { Leads C.Does C.after_reset (C.standing self.new.card) []
            (C.standing self.new.card) (C.prepared self.new.card) self.new.stage }
        ensures led_under { LeadsUnder C.Does (C.standing self.new.card) [] []
            (C.standing self.new.card) (C.prepared self.new.card) self.new.stage }
    {
        self.card.reset();
        self.phase = FRESH;
        self.came = [0; 255];
    }

    /// Takes a character of the terminal, of the header or its data.
    ///
    /// # Errors
    ///
    /// - `NotListening`: the card sends the next character; nothing has changed.
    #[inline(always)]
    pub fn take(&mut self, byte: u8) -> Result<(), NotListening>
        ensures listening { is_ok result ≡ listens self.old.stage }
        ensures refused { OnErr result (self.new ≡ self.old) }
        ensures taken { OnOk result
            (self.new ≡ record self.old { stage = with_character self.old.stage byte }) }
        ensures falls { OnOk result ((plan : Course) →
            still_to_go self.new.stage plan < still_to_go self.old.stage plan) }

        // The dialogue continues with this character, and stays on its plan.
        ensures goes_on { (cut : ℕ) (front new : Front) →
            StandsAt C.Does (C.standing self.old.card) (C.prepared self.old.card)
            self.old.stage cut front →
            GoesOn front (Terminal, byte) new →
            IsOk result
            × StandsAt C.Does (C.standing self.new.card) (C.prepared self.new.card)
            self.new.stage cut new
            × ((plan : Course) →
            IsOnPlan self.old.stage plan front → IsOnPlan self.new.stage plan new) }

        // History: what led to the state before leads, with this character, to the state after.
        ensures led { (first : C.State) (events : List Event) →
            Leads C.Does C.after_reset first events
            (C.standing self.old.card) (C.prepared self.old.card) self.old.stage →
            OnOk result (Leads C.Does C.after_reset first (events ++ Passed (Terminal, byte) ∷ [])
            (C.standing self.new.card) (C.prepared self.new.card) self.new.stage) }
        ensures led_under { (first : C.State) (came : List Character) (taken : List Course) →
            LeadsUnder C.Does first came taken
            (C.standing self.old.card) (C.prepared self.old.card) self.old.stage →
            OnOk result (LeadsUnder C.Does first (came ++ (Terminal, byte) ∷ []) taken
            (C.standing self.new.card) (C.prepared self.new.card) self.new.stage) }
    {
        take_into(&mut self.phase, byte, &mut self.came)?;
        Ok(())
    }

    /// Takes characters of the terminal like `take`, one at a time, until the end stops listening
    /// or `bytes` ends. Returns how many it took. The others change nothing.
    #[inline(always)]
    pub fn take_bytes(&mut self, bytes: &[u8]) -> usize
        ensures taken { Steps (IsTaken C.TpduCard) self.old (take result bytes.now) self.new }
        ensures all { (result ≡ length bytes.now)
            ⊎ ((result < length bytes.now) × (listens self.new.stage ≡ false)) }

        // Where a dialogue continues with the terminal, the end listens.
        ensures due { (cut byte : ℕ) (front new : Front) →
            StandsAt C.Does (C.standing self.new.card) (C.prepared self.new.card)
            self.new.stage cut front → GoesOn front (Terminal, byte) new
            → listens self.new.stage ≡ true }
    {
        let count = self.take_data(bytes);
        for at in count..bytes.len() {
            let Ok(()) = self.take(bytes[at]) else {
                return at;
            };
        }
        bytes.len()
    }

    /// Takes the expected data characters in one run. Returns how many it took.
    #[inline(always)]
    fn take_data(&mut self, bytes: &[u8]) -> usize
        ensures taken { Steps (IsTaken C.TpduCard) self.old (take result bytes.now) self.new }
        ensures fits { result ≤ length bytes.now }
    {
        take_run(&mut self.phase, bytes, &mut self.came)
    }

    /// Returns the card's next character, or `Listens`, with no change, if the terminal sends next.
    ///
    /// The first character after a header takes the next plan of `plans`. Later ones continue the
    /// plan that `plans` keeps, after the number of steps done so far, so pass the same cursor.
    /// With SW2 the TPDU takes effect on the card.
    #[inline(always)]
    pub fn turn<A: Allocator>(&mut self, plans: &mut Plans<A>) -> Turn
        ensures whose { (result ≡ Turn.Listens) ↔ (listens self.old.stage ≡ true) }
        ensures listens { result ≡ Turn.Listens → self.new ≡ self.old }
        ensures plan { plans.new ≡
            (if takes_plan self.old.stage then advanced plans.old else plans.old) }
        ensures cut { (byte : ℕ) → result ≡ Turn.Sends byte →
            takes_plan self.old.stage ≡ true → IsCut (plan_kept plans.new).cut }
        ensures falls { (byte : ℕ) → result ≡ Turn.Sends byte →
            (self.new.stage ≡ Taking_header [])
            ⊎ (still_to_go self.new.stage (plan_kept plans.new)
            < still_to_go self.old.stage (plan_kept plans.new)) }

        // It continues from the number of steps done, in the plan that the cursor holds.
        ensures counts { (byte : ℕ) → result ≡ Turn.Sends byte →
            GoesByCount self.old.stage (plan_kept plans.new) byte self.new.stage }

        // The card may give this verdict to this instruction.
        ensures permitted { (header : Header) (p3 : ℕ) →
            self.old.stage ≡ Taking_header (begins_with header p3) →
            IsPermitted C.MayReceive C.MaySend header self.new.stage }
        ensures keeps { (byte : ℕ) → result ≡ Turn.Sends byte →
            takes_plan self.old.stage ≡ false → KeepsDirection self.old.stage self.new.stage }

        // The dialogue continues with this character, or ends.
        ensures advances { (byte cut : ℕ) (front : Front) → result ≡ Turn.Sends byte →
            (takes_plan self.old.stage ≡ true →
            (cut ≡ (plan_kept plans.new).cut) × SuitsFront self.new.stage front) →
            StandsAt C.Does (C.standing self.old.card) (C.prepared self.old.card)
            self.old.stage cut front →
            Advances C.Does cut (plan_kept plans.new) self.old.stage front byte
            (C.standing self.old.card)
            (C.standing self.new.card) (C.prepared self.new.card) self.new.stage }

        // History: what led to the state before leads, with this character, to the state after.
        ensures led { (first : C.State) (events : List Event) (byte : ℕ) →
            result ≡ Turn.Sends byte →
            Leads C.Does C.after_reset first events
            (C.standing self.old.card) (C.prepared self.old.card) self.old.stage →
            Leads C.Does C.after_reset first (events ++ Passed (Card, byte) ∷ [])
            (C.standing self.new.card) (C.prepared self.new.card) self.new.stage }
        ensures led_under { (first : C.State) (came : List Character) (taken : List Course)
            (byte : ℕ) → result ≡ Turn.Sends byte →
            LeadsUnder C.Does first came taken
            (C.standing self.old.card) (C.prepared self.old.card) self.old.stage →
            (takes_plan self.old.stage ≡ false → IsTakenLast (plan_kept plans.old) taken) →
            LeadsUnder C.Does first (came ++ (Card, byte) ∷ [])
            (if takes_plan self.old.stage then taken ++ plan_kept plans.new ∷ [] else taken)
            (C.standing self.new.card) (C.prepared self.new.card) self.new.stage }
    {
        if is_listening(&self.phase) {
            return Turn::Listens;
        }
        let byte = hand_out(&mut self.card, &mut self.phase, &self.came, plans);
        forget_data(&self.phase, &mut self.came);
        Turn::Sends(byte)
    }

    /// The data characters that the card sends next, or the first of them, in one run. `None` if it
    /// sends none next. `skip_data` counts them as sent.
    #[inline(always)]
    pub fn data_due(&self) -> Option<DataRun<'_>>
        ensures { MatchOption result (due_in self.now.stage ≡ 0)
            (λ run. AreDue C.TpduCard self.now (bytes_of run)) }
    {
        run_due(&self.card, &self.phase)
    }

    /// Returns the card's next character, as `turn` does, if it is data. Otherwise returns `None`,
    /// and nothing changes.
    #[inline(always)]
    pub fn next_data(&mut self) -> Option<u8>
        ensures { MatchOption result ((due_in self.old.stage ≡ 0) × (self.new ≡ self.old))
            (λ byte. IsHandedOut C.TpduCard self.old byte self.new) }
    {
        let Some(byte) = byte_due(&self.card, &self.phase) else {
            return None;
        };
        skip_in(&mut self.phase, 1);
        Some(byte)
    }

    /// Counts the first `count` characters of `data_due` as sent, as `turn` does for each. If
    /// `count` is more than the card sends next, it counts all of these.
    #[inline(always)]
    pub fn skip_data(&mut self, count: usize)
        ensures some { (run : List ℕ) → AreDue C.TpduCard self.old run → count ≤ length run →
            Steps (IsHandedOut C.TpduCard) self.old (take count run) self.new }
        ensures all { (run : List ℕ) → AreDue C.TpduCard self.old run →
            length run ≡ due_in self.old.stage → length run ≤ count →
            Steps (IsHandedOut C.TpduCard) self.old run self.new }
        ensures none { due_in self.old.stage ≡ 0 → self.new ≡ self.old }
    {
        skip_in(&mut self.phase, count);
    }
}

/// The start of a TPDU: no character of a header yet.
const FRESH: Phase = Phase::Opening {
    bytes: [0; 5],
    taken: 0,
};

/// Overwrites the terminal's data once the TPDU has ended.
#[inline(always)]
fn forget_data(phase: &Phase, came: &mut [u8; 255])
    ensures stage { stage_of phase.now came.new ≡ stage_of phase.now came.old }
    ensures gone { IsForgotten phase.now came.new }
    ensures room { length came.new ≡ length came.old }
{
    if let Phase::Opening { .. } = phase {
        *came = [0; 255];
    }
}

/// Whether the terminal sends next.
#[inline(always)]
fn is_listening(phase: &Phase) -> bool
    requires { IsHeld phase.now }
    ensures { (came : List ℕ) → result ≡ listens (stage_of phase.now came) }
{
    match phase {
        Phase::Opening { taken, .. } => *taken < 5,
        Phase::Accepted { service } => service.is_listening(),
        Phase::Refused { .. } | Phase::SecondStatus { .. } => false,
    }
}

/// Whether the card sends its first character of this TPDU next.
fn begins_to_answer(phase: &Phase) -> bool
    requires { IsHeld phase.now }
    ensures { (came : List ℕ) → result ≡ takes_plan (stage_of phase.now came) }
{
    match phase {
        Phase::Opening { taken, .. } => *taken == 5,
        Phase::Refused { .. } | Phase::Accepted { .. } | Phase::SecondStatus { .. } => false,
    }
}

/// Takes one more character of the terminal into the phase. A data character is stored in `came`.
#[inline(always)]
fn take_into(phase: &mut Phase, byte: u8, came: &mut [u8; 255]) -> Result<(), NotListening>
    requires held { IsHeld phase.old }
    requires room { length came.old ≡ 255 }
    ensures listening { is_ok result ≡ listens (stage_of phase.old came.old) }
    ensures taken { OnOk result
        (stage_of phase.new came.new ≡ with_character (stage_of phase.old came.old) byte) }
    ensures room { length came.new ≡ 255 }
    ensures refused { OnErr result ((phase.new ≡ phase.old) × (came.new ≡ came.old)) }
    ensures fits { OnOk result (IsAfter phase.old phase.new) }
    ensures none { IsForgotten phase.old came.old → OnOk result (IsForgotten phase.new came.new) }
{
    if let Phase::Accepted { service } = phase {
        if !service.is_listening() {
            return Err(NotListening);
        }
        came[service.moved() as usize] = byte;
        service.one_moved();
        return Ok(());
    }
    if let Phase::Opening { taken, .. } = phase {
        let place = *taken;
        if place < 5 {
            *taken = place + 1;
            if let Phase::Opening { bytes, .. } = phase {
                bytes[place] = byte;
            }
            return Ok(());
        }
    }
    Err(NotListening)
}

/// Stores the terminal's expected data characters in `came`, in one run. Returns how many.
#[inline(always)]
fn take_run(phase: &mut Phase, bytes: &[u8], came: &mut [u8; 255]) -> usize
    requires held { IsHeld phase.old }
    requires room { length came.old ≡ 255 }
    ensures run { IsRun phase.old came.old (take result bytes.now) phase.new came.new }
    ensures fits { result ≤ length bytes.now }
    ensures room { length came.new ≡ 255 }
{
    match phase {
        Phase::Accepted { service } => service.take_run(bytes, came),
        Phase::Opening { .. } | Phase::Refused { .. } | Phase::SecondStatus { .. } => 0,
    }
}

/// The data characters that the card sends next, in one run.
#[inline(always)]
fn run_due<'a, C: TpduCard>(card: &'a C, phase: &Phase) -> Option<DataRun<'a>>
    requires { Fits (C.prepared card.now) phase.now }
    ensures { (came : List ℕ) → MatchOption result (due_in (stage_of phase.now came) ≡ 0)
        (λ run. AreDue C.TpduCard (record { card = card.now; stage = stage_of phase.now came })
        (bytes_of run)) }
{
    let Phase::Accepted { service } = phase else {
        return None;
    };
    let due = service.due();
    if due == 0 {
        return None;
    }
    Some(card.run(service.moved() as u16).up_to(due))
}

/// The data character that the card sends next.
#[inline(always)]
fn byte_due<C: TpduCard>(card: &C, phase: &Phase) -> Option<u8>
    requires { Fits (C.prepared card.now) phase.now }
    ensures { (came : List ℕ) → MatchOption result (due_in (stage_of phase.now came) ≡ 0)
        (λ byte. AreDue C.TpduCard (record { card = card.now; stage = stage_of phase.now came })
        (byte ∷ [])) }
{
    let Phase::Accepted { service } = phase else {
        return None;
    };
    if service.due() == 0 {
        return None;
    }
    Some(card.byte(service.moved() as u16))
}

/// Counts data characters of the card, at most as many as it sends next.
#[inline(always)]
fn skip_in(phase: &mut Phase, count: usize)
    requires { IsBegun phase.old }
    ensures { phase.new ≡ skipped phase.old count }
{
    if let Phase::Accepted { service } = phase {
        service.skip(count);
    }
}

/// Returns the card's next character, and moves the phase past it.
#[inline(always)]
fn hand_out<C: TpduCard, A: Allocator>(
    card: &mut C,
    phase: &mut Phase,
    came: &[u8; 255],
    plans: &mut Plans<A>,
) -> u8
    requires fits { Fits (C.prepared card.old) phase.old }
    requires room { length came.now ≡ 255 }
    requires due { listens (stage_of phase.old came.now) ≡ false }
    ensures fits { Fits (C.prepared card.new) phase.new }
    ensures plan { plans.new
        ≡ (if takes_plan (stage_of phase.old came.now) then advanced plans.old else plans.old) }
    ensures cut { takes_plan (stage_of phase.old came.now) ≡ true →
        IsCut (plan_kept plans.new).cut }
    ensures falls { (stage_of phase.new came.now ≡ Taking_header [])
        ⊎ (still_to_go (stage_of phase.new came.now) (plan_kept plans.new)
        < still_to_go (stage_of phase.old came.now) (plan_kept plans.new)) }
    ensures counts { GoesByCount (stage_of phase.old came.now) (plan_kept plans.new) result
        (stage_of phase.new came.now) }
    ensures permitted { (header : Header) (p3 : ℕ)
        → stage_of phase.old came.now ≡ Taking_header (begins_with header p3) →
        IsPermitted C.MayReceive C.MaySend header (stage_of phase.new came.now) }
    ensures keeps { takes_plan (stage_of phase.old came.now) ≡ false →
        KeepsDirection (stage_of phase.old came.now) (stage_of phase.new came.now) }
    ensures advances { (cut : ℕ) (front : Front) →
        (takes_plan (stage_of phase.old came.now) ≡ true → (cut ≡ (plan_kept plans.new).cut)
        × SuitsFront (stage_of phase.new came.now) front) →
        StandsAt C.Does (C.standing card.old) (C.prepared card.old) (stage_of phase.old came.now)
        cut front →
        Advances C.Does cut (plan_kept plans.new) (stage_of phase.old came.now) front result
        (C.standing card.old) (C.standing card.new) (C.prepared card.new)
        (stage_of phase.new came.now) }
{
    if let Phase::Opening { bytes, .. } = phase {
        let header = *bytes;
        judge(card, phase, header, plans.advance());
    }
    go_on(card, phase, came, plans)
}

/// Moves the phase past a header, by the card's verdict on it. It is not inlined, so that the path
/// of each data character stays short.
#[inline(never)]
fn judge<C: TpduCard>(card: &mut C, phase: &mut Phase, bytes: [u8; 5], cut: u16)
    requires five { length bytes ≡ 5 }
    requires cut { (1 ≤ cut) × (cut ≤ 256) }
    ensures fits { Fits (C.prepared card.new) phase.new }
    ensures judged { IsVerdict phase.new }
    ensures due { (came : List ℕ) → listens (stage_of phase.new came) ≡ false }
    ensures falls { (came : List ℕ) (plan : Course)
        → still_to_go (stage_of phase.new came) plan < length plan.steps + 300 }
    ensures stands { C.standing card.new ≡ C.standing card.old }
    ensures permitted { (header : Header) (p3 : ℕ) (came : List ℕ)
        → bytes ≡ begins_with header p3 →
        IsPermitted C.MayReceive C.MaySend header (stage_of phase.new came) }
    ensures opens { (header : Header) (p3 : ℕ) (direction : Direction) (came : List ℕ)
        → bytes ≡ begins_with header p3 →
        SuitsFront (stage_of phase.new came) (In_body (header_only header p3 direction)) →
        StandsAt C.Does (C.standing card.old) (C.prepared card.new) (stage_of phase.new came) cut
        (In_body (header_only header p3 direction))
        × ((plan : Course) → IsOnPlan (stage_of phase.new came) plan
        (In_body (header_only header p3 direction))) }
{
    let [cla, ins, p1, p2, p3] = bytes;
    let header = Header { cla, ins, p1, p2 };
    *phase = match card.header(header, p3, cut) {
        Verdict::Refuse(status) => Phase::Refused {
            header,
            p3,
            status,
            done: 0,
        },
        Verdict::Receive => Phase::Accepted {
            service: Service::new(header, p3, Direction::ToCard),
        },
        Verdict::Send => Phase::Accepted {
            service: Service::new(header, p3, Direction::FromCard),
        },
    };
}

/// Returns the card's next character after its verdict, and moves the phase past it.
#[inline(always)]
fn go_on<C: TpduCard, A: Allocator>(
    card: &mut C,
    phase: &mut Phase,
    came: &[u8; 255],
    plans: &Plans<A>,
) -> u8
    requires judged { IsJudged phase.old }
    requires fits { Fits (C.prepared card.old) phase.old }
    requires room { length came.now ≡ 255 }
    requires due { listens (stage_of phase.old came.now) ≡ false }
    ensures fits { Fits (C.prepared card.new) phase.new }
    ensures falls { (plan : Course) → plan.steps ≡ (plan_kept plans.now).steps
        → (stage_of phase.new came.now ≡ Taking_header [])
        ⊎ (still_to_go (stage_of phase.new came.now) plan
        < still_to_go (stage_of phase.old came.now) plan) }
    ensures counts { (plan : Course) → plan.steps ≡ (plan_kept plans.now).steps →
        GoesByCount (stage_of phase.old came.now) plan result (stage_of phase.new came.now) }
    ensures keeps { KeepsDirection (stage_of phase.old came.now) (stage_of phase.new came.now) }
    ensures advances { (cut : ℕ) (plan : Course) (front : Front)
        → plan.steps ≡ (plan_kept plans.now).steps →
        StandsAt C.Does (C.standing card.old) (C.prepared card.old) (stage_of phase.old came.now)
        cut front →
        Advances C.Does cut plan (stage_of phase.old came.now) front result
        (C.standing card.old) (C.standing card.new) (C.prepared card.new)
        (stage_of phase.new came.now) }
{
    // For speed: the common case first, without a jump table, since all data pass here.
    if let Phase::Accepted { service } = phase {
        let (byte, status) = serve(card, service, came, plans);
        if let Some(status) = status {
            *phase = Phase::SecondStatus { status };
        }
        return byte;
    }
    match phase {
        Phase::Opening { .. } | Phase::Accepted { .. } => unreachable!(),
        Phase::Refused {
            header,
            p3,
            status,
            done,
        } => {
            let (next, byte) = refuse(*header, *p3, *status, *done, plans.steps());
            *phase = next;
            byte
        }
        Phase::SecondStatus { status } => {
            let byte = status.sw2();
            card.answered();
            *phase = FRESH;
            byte
        }
    }
}

/// The next character after a refused header, a NULL or SW1, and the phase after it.
#[inline(always)]
fn refuse(header: Header, p3: u8, status: Status, done: usize, steps: &[Step]) -> (Phase, u8)
    ensures { Refuses header p3 status done steps.now result.0 result.1 }
{
    match next_step(steps, done, 0) {
        Some((_, done)) => (
            Phase::Refused {
                header,
                p3,
                status,
                done,
            },
            0x60,
        ),
        None => (Phase::SecondStatus { status }, status.sw1()),
    }
}
