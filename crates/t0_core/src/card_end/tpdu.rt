//! Carries out a whole TPDU at a card's end, as a reader's firmware does.
ghost use Rattle.std.specs.Prelude.{◌≡◌, ℕ, ◌<◌, ◌⊎◌, List, [], ◌∷◌, length, false, true, MatchResult};
ghost use Rattle.apdu_core.specs.declared.header.Header.{Header};
ghost use Rattle.t0_core.specs.Plan.{Course, IsCut, advanced, plan_kept};
ghost use Rattle.t0_core.specs.CardView.{IsHeld, KeepsDirection, stage_of};
ghost use Rattle.t0_core.specs.TpduBytes.{asked_of};
ghost use Rattle.t0_core.specs.CardTpdu.{CarriesOut, HasGone, rests};
ghost use Rattle.t0_core.specs.Answering.{IsWhole, IsAnswering, Passes, Ends, Sticks, awaited_in};

use super::{CardEnd, Phase, Turn};
use crate::gather::Gather;
use crate::plan::Plans;
use crate::tpdu_card::TpduCard;
use crate::tpdu_fault::TpduFault;
use crate::whole_tpdu::WholeTpdu;
use apdu_core::{Header, Status};
use std::alloc::Allocator;

/// The next character at a card's end.
#[derive(Clone, Copy, Debug, PartialEq, Eq)]
pub enum Awaited {
    /// A header character.
    OfHeader,
    /// The terminal's data character with this index.
    OfTerminal(u32),
    /// The card's data character with this index.
    OfCard(u32),
    /// A procedure byte or SW1.
    Procedure,
    /// SW2, after this SW1.
    Second(u8),
}

impl<C: TpduCard> CardEnd<C> {
    ghost use Rattle.t0_core.specs.Front.{Front};
    ghost use Rattle.t0_core.specs.CardSide.{StandsAt, Advances, Taking_header, begins_with, listens, takes_plan, still_to_go};

    /// Carries out the whole TPDU `bytes` (see `WholeTpdu::read`) under the next plan, as a
    /// reader's firmware does. It passes the header, then the data in either direction, and returns
    /// the status. Data from the card are appended to `gather`.
    ///
    /// # Errors
    ///
    /// In this order (profile):
    ///
    /// - `UnderWay`: characters of another TPDU were sent already; nothing has changed.
    /// - `NoTpdu`: the bytes are not a whole TPDU; nothing has changed.
    /// - `WantsData`: the card expects data, and none were given; the card is reset.
    /// - `SendsData`: the card sends data, and none may come back; the card is reset.
    /// - `TooLong`: the card sends more data than `gather` has room for; the card is reset, and
    ///   `gather` is full.
    ///
    /// Except after the first two, the plan is used up, and the end waits for a header.
    pub fn tpdu<A: Allocator, B: Allocator>(
        &mut self,
        bytes: &[u8],
        plans: &mut Plans<A>,
        gather: &mut Gather<B>,
    ) -> Result<Status, TpduFault>
        ensures { CarriesOut C.TpduCard bytes.now self.old plans.old gather.old
            result self.new plans.new gather.new }
    {
        if !self.is_at_rest() {
            return Err(TpduFault::UnderWay);
        }
        let Some(tpdu) = WholeTpdu::read(bytes) else {
            return Err(TpduFault::NoTpdu);
        };
        self.carry_out(&tpdu, plans, gather)
    }

    /// Whether a whole TPDU may be carried out: no character of one was sent yet.
    pub fn is_at_rest(&self) -> bool
        ensures { result ≡ rests self.now.stage }
    {
        is_fresh(&self.phase)
    }

    /// Carries out a whole TPDU that was parsed.
    fn carry_out<A: Allocator, B: Allocator>(
        &mut self,
        tpdu: &WholeTpdu,
        plans: &mut Plans<A>,
        gather: &mut Gather<B>,
    ) -> Result<Status, TpduFault>
        requires rests { self.old.stage ≡ Taking_header [] }
        requires whole { IsWhole (asked_of tpdu.now) }
        ensures { HasGone C.TpduCard (asked_of tpdu.now) self.old plans.old gather.old
            result self.new plans.new gather.new }
    {
        self.open(tpdu.header, tpdu.p3);
        self.begin(tpdu, plans, gather);
        match self.answer(tpdu, plans, gather) {
            Ok(status) => Ok(status),
            Err(fault) => {
                self.reset();
                Err(fault)
            }
        }
    }

    /// Takes the five characters of a header.
    fn open(&mut self, header: Header, p3: u8)
        ensures card { self.new.card ≡ self.old.card }
        ensures stage { self.new.stage ≡ Taking_header (begins_with header p3) }
    {
        let Header { cla, ins, p1, p2 } = header;
        self.phase = Phase::Opening {
            bytes: [cla, ins, p1, p2, p3],
            taken: 5,
        };
        self.came = [0; 255];
    }

    /// Lets the card judge the header, and passes its first character.
    fn begin<A: Allocator, B: Allocator>(
        &mut self,
        tpdu: &WholeTpdu,
        plans: &mut Plans<A>,
        gather: &Gather<B>,
    )
        requires opened { self.old.stage ≡ Taking_header (begins_with tpdu.now.header tpdu.now.p3) }
        requires whole { IsWhole (asked_of tpdu.now) }
        ensures plan { plans.new ≡ advanced plans.old }
        ensures cut { IsCut (plan_kept plans.new).cut }
        ensures answering { IsAnswering C.TpduCard (C.standing self.old.card) (plan_kept plans.new)
            (asked_of tpdu.now) gather.now.bytes gather.now.bytes self.new }
    {
        let Turn::Sends(_) = self.turn(plans) else {
            unreachable!()
        };
    }

    /// Passes characters to and from a card that has begun to answer, up to its status.
    fn answer<A: Allocator, B: Allocator>(
        &mut self,
        tpdu: &WholeTpdu,
        plans: &mut Plans<A>,
        gather: &mut Gather<B>,
    ) -> Result<Status, TpduFault>
        requires cut { IsCut (plan_kept plans.old).cut }
        requires answering { (first : C.State) × (before : List ℕ) ×
            IsAnswering C.TpduCard first (plan_kept plans.old) (asked_of tpdu.now) before
            gather.old.bytes self.old }
        ensures plan { plans.new ≡ plans.old }
        ensures room { gather.new.limit ≡ gather.old.limit }
        ensures answers { (first : C.State) (before : List ℕ) →
            IsAnswering C.TpduCard first (plan_kept plans.old) (asked_of tpdu.now) before
            gather.old.bytes self.old →
            MatchResult result
            (λ status. Ends C.TpduCard first (plan_kept plans.old) (asked_of tpdu.now) before
            gather.new self.new status)
            (λ fault. Sticks C.TpduCard first (plan_kept plans.old) (asked_of tpdu.now) before
            gather.new self.new fault) }
    {
        // For the proof: the label names the loop's goals.
        'talk: loop {
            if let Some(status) = self.pass(tpdu, plans, gather)? {
                return Ok(status);
            }
        }
    }

    /// Passes the next character to or from a card that has begun to answer, or a run of data.
    /// Returns the status, after its second character.
    fn pass<A: Allocator, B: Allocator>(
        &mut self,
        tpdu: &WholeTpdu,
        plans: &mut Plans<A>,
        gather: &mut Gather<B>,
    ) -> Result<Option<Status>, TpduFault>
        requires cut { IsCut (plan_kept plans.old).cut }
        requires answering { (first : C.State) × (before : List ℕ) ×
            IsAnswering C.TpduCard first (plan_kept plans.old) (asked_of tpdu.now) before
            gather.old.bytes self.old }
        ensures plan { plans.new ≡ plans.old }
        ensures room { gather.new.limit ≡ gather.old.limit }
        ensures passes { (first : C.State) (before : List ℕ) →
            IsAnswering C.TpduCard first (plan_kept plans.old) (asked_of tpdu.now) before
            gather.old.bytes self.old →
            Passes C.TpduCard first (plan_kept plans.old) (asked_of tpdu.now) before
            self.old gather.new self.new result }
    {
        match self.awaited() {
            Awaited::OfTerminal(place) => match tpdu.content.get(place as usize) {
                None => Err(TpduFault::WantsData),
                Some(_) => {
                    self.take_bytes(&tpdu.content[place as usize..]);
                    Ok(None)
                }
            },
            Awaited::OfCard(place) => {
                if place >= u32::from(tpdu.may_come) {
                    return Err(TpduFault::SendsData);
                }
                if gather.is_full() {
                    return Err(TpduFault::TooLong);
                }
                let Some(run) = self.data_due() else {
                    unreachable!()
                };
                let most = u32::from(tpdu.may_come) - place;
                let count = gather.extend_up_to(run.bytes(), most as usize);
                self.skip_data(count);
                Ok(None)
            }
            Awaited::Procedure => {
                self.hand_on(plans);
                Ok(None)
            }
            Awaited::Second(sw1) => {
                let sw2 = self.hand_on(plans);
                Ok(Status::new(sw1, sw2))
            }
            Awaited::OfHeader => unreachable!(),
        }
    }

    /// Returns the next character of a card that has begun to answer.
    fn hand_on<A: Allocator>(&mut self, plans: &mut Plans<A>) -> u8
        requires due { listens self.old.stage ≡ false }
        requires begun { takes_plan self.old.stage ≡ false }
        ensures plan { plans.new ≡ plans.old }
        ensures falls { (self.new.stage ≡ Taking_header [])
            ⊎ (still_to_go self.new.stage (plan_kept plans.old)
            < still_to_go self.old.stage (plan_kept plans.old)) }
        ensures keeps { KeepsDirection self.old.stage self.new.stage }
        ensures advances { (cut : ℕ) (front : Front) →
            StandsAt C.Does (C.standing self.old.card) (C.prepared self.old.card)
            self.old.stage cut front →
            Advances C.Does cut (plan_kept plans.old) self.old.stage front result
            (C.standing self.old.card)
            (C.standing self.new.card) (C.prepared self.new.card) self.new.stage }
    {
        let Turn::Sends(byte) = self.turn(plans) else {
            unreachable!()
        };
        byte
    }

    /// The character that the end expects or sends next.
    fn awaited(&self) -> Awaited
        ensures { result ≡ awaited_in self.now.stage }
    {
        awaited_at(&self.phase)
    }
}

/// Whether no character of a TPDU was sent yet.
fn is_fresh(phase: &Phase) -> bool
    requires { IsHeld phase.now }
    ensures { (came : List ℕ) → result ≡ rests (stage_of phase.now came) }
{
    matches!(phase, Phase::Opening { taken: 0, .. })
}

/// The character that the end expects or sends next.
fn awaited_at(phase: &Phase) -> Awaited
    requires { IsHeld phase.now }
    ensures { (came : List ℕ) → result ≡ awaited_in (stage_of phase.now came) }
{
    match phase {
        Phase::Opening { .. } => Awaited::OfHeader,
        Phase::Refused { .. } => Awaited::Procedure,
        Phase::Accepted { service } => service.awaited(),
        Phase::SecondStatus { status } => Awaited::Second(status.sw1()),
    }
}
