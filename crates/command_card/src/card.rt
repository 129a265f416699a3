//! The card that speaks T=0 for an application.
use crate::answer::{buffer, judged, settle_if, took, wipe_ended};
use crate::application::Application;
use crate::ready::{Ready, Waiting};
use apdu_core::{Header, Status, count};
use std::alloc::Global;
use std::marker::Model;
use std::mem::swap;
use t0_core::{DataRun, TpduCard, Verdict};
use t1_core::wipe;

/// A card over an application (ISO/IEC 7816-3, 10.3 and 12.2). It carries out each command once, at
/// the header or after the data, and keeps the rest of a response.
///
/// - After `61XX` GET RESPONSE (INS `C0`, any class) fetches the rest. If no rest waits, `6985`.
/// - After `6CXX` the same header with that P3 gets the response, without another step.
/// - Any other command drops what waits. INS `6X` and `9X` get `6D00`.
/// - If memory runs out, the status is `6581`. For a response above `OWN_RESPONSE_LIMIT` it is
///   `6F00`. The application is unchanged after both.
#[derive(Drop)]
pub struct CommandCard<A: Application> {
    pub(crate) application: A,
    pub(crate) kept: Vec<u8>,
    pub(crate) fresh: Vec<u8>,
    pub(crate) waiting: Waiting,
    pub(crate) ready: Ready,
}

impl<A: Application> Model for CommandCard<A> {
    ghost use Rattle.apdu_core.specs.declared.header.Header.{Header};
    ghost use Rattle.command_card.specs.View.{CardOf, IsReady, IsEmptied, MaySend, WaitsFor, LeavesFor};

    ghost Value = { CardOf A };

    ghost view = { λ c. record {
      app = c.application;
      kept = c.kept.items;
      fresh = c.fresh.items;
      waiting = c.waiting;
      ready = c.ready;
    } };

    ghost invariant = { λ c. IsReady A.takes A.Does (A.standing c.application)
        (A.next c.application) c.kept.items c.fresh.items c.waiting c.ready
        × ((h : Header) → WaitsFor c.waiting h → MaySend A.takes h)
        × ((h : Header) → LeavesFor c.ready h → MaySend A.takes h)
        × IsEmptied c.waiting c.kept.items };
}

impl<A: Application> CommandCard<A> {
    ghost use Rattle.std.specs.Prelude.{◌≡◌};
    ghost use Rattle.command_card.specs.View.{new_card};

    /// Makes the card of an application. Nothing is pending.
    pub fn new(alloc: Global, application: A) -> CommandCard<A>
        ensures { result ≡ new_card application }
    {
        CommandCard {
            application,
            kept: Vec::new(alloc),
            fresh: Vec::new(alloc),
            waiting: Waiting::Nothing,
            ready: Ready::Nothing,
        }
    }

    /// Returns the application.
    pub fn application(&self) -> &A
        ensures { result.now ≡ self.now.app }
    {
        &self.application
    }
}

impl<A: Application> TpduCard for CommandCard<A> {
    ghost use Rattle.std.specs.Prelude.{◌≡◌, ◌≤◌, ◌∷◌, [], length, false};
    ghost use Rattle.apdu_core.specs.HeaderBytes.{ins_is_valid};
    ghost use Rattle.t0_core.specs.CardContract.{IsDecided, IsRefusal, Judges, Permits};
    ghost use Rattle.t0_core.specs.Meaning.{Decided, Decides, IsReceiving, IsSending, Nothing, answered_with, taken_with};
    ghost use Rattle.command_card.specs.Calls.{AreMade, CallsAfter, CallsAt, CallsOnce, Was_reset, settles_in};
    ghost use Rattle.command_card.specs.Carrying.{taking};
    ghost use Rattle.command_card.specs.State.{CardState};
    ghost use Rattle.command_card.specs.Meaning.{Does, kind_in};
    ghost use Rattle.command_card.specs.View.{standing_in, prepared_in, after_reset, MayReceive, MaySend};

    ghost State = { CardState A.State };

    ghost standing = { λ c. standing_in A.standing c };

    ghost Does = { Does A.takes A.Does };

    ghost after_reset = { after_reset A.after_reset };

    ghost MayReceive = { MayReceive A.takes };

    ghost MaySend = { MaySend A.takes };

    ghost prepared = { λ c. prepared_in A.standing A.next c };

    fn header(&mut self, header: Header, p3: u8, cut: u16) -> Verdict
        requires { (1 ≤ cut) × (cut ≤ 256) }
        ensures stands { standing_in A.standing self.new ≡ standing_in A.standing self.old }
        ensures judged { Judges (Does A.takes A.Does) (standing_in A.standing self.old)
            (record { header = header; p3 = p3; cut = cut }) result
            (prepared_in A.standing A.next self.new) }
        ensures invalid { ins_is_valid header.ins ≡ false → IsRefusal result }
        ensures permitted { Permits (MayReceive A.takes) (MaySend A.takes) header result }
        ensures called { CallsAt A.Called
            (kind_in A.takes (standing_in A.standing self.old) header p3) header p3
            self.old.app (settles_in self.new.ready) self.new.app }
    {
        let (verdict, ready) = judged(
            &mut self.application,
            &self.kept,
            self.waiting,
            &mut self.fresh,
            header,
            p3,
            cut,
        );
        self.ready = ready;
        verdict
    }

    fn data(&mut self, content: &[u8]) -> Status
        requires { IsReceiving (prepared_in A.standing A.next self.old)
            (λ ask. length content.now ≡ ask.p3) }
        ensures stands { standing_in A.standing self.new ≡ standing_in A.standing self.old }
        ensures decided { IsReceiving (prepared_in A.standing A.next self.old) (λ ask.
            Decides (Does A.takes A.Does) (standing_in A.standing self.old) ask.cut
            (taken_with ask content.now result) (prepared_in A.standing A.next self.new)) }
        ensures called { IsReceiving (prepared_in A.standing A.next self.old) (λ ask.
            CallsOnce A.Called self.old.app (taking ask.header content.now)
            (settles_in self.new.ready) self.new.app) }
    {
        let (status, ready) = took(
            &mut self.application,
            &self.kept,
            self.waiting,
            &mut self.fresh,
            self.ready,
            content,
        );
        self.ready = ready;
        status
    }

    #[inline(always)]
    fn byte(&self, at: u16) -> u8 {
        let Ready::Sends { from, ending, .. } = &self.ready else {
            unreachable!()
        };
        buffer(&self.kept, &self.fresh, ending.fresh)[*from + at as usize]
    }

    #[inline(always)]
    fn run(&self, at: u16) -> DataRun<'_> {
        let Ready::Sends {
            from,
            p3,
            ending,
            ..
        } = &self.ready
        else {
            unreachable!()
        };
        let left = &buffer(&self.kept, &self.fresh, ending.fresh)[*from + at as usize..];
        let most = count(*p3) as usize - at as usize;
        DataRun::Lent(&left[..most.min(left.len())])
    }

    fn end_of_sending(&mut self) -> Status
        requires { IsSending (prepared_in A.standing A.next self.old) (λ ask bytes. Unit {0}) }
        ensures stands { standing_in A.standing self.new ≡ standing_in A.standing self.old }
        ensures decided { IsSending (prepared_in A.standing A.next self.old) (λ ask bytes.
            Decides (Does A.takes A.Does) (standing_in A.standing self.old) ask.cut
            (answered_with ask bytes result) (prepared_in A.standing A.next self.new)) }
        ensures called { (self.new.app ≡ self.old.app)
            × (settles_in self.new.ready ≡ settles_in self.old.ready) }
    {
        let ready = self.ready;
        let Ready::Sends { status, ending, .. } = ready else {
            unreachable!()
        };
        self.ready = Ready::Leaves { ending };
        status
    }

    fn answered(&mut self)
        requires { IsDecided (prepared_in A.standing A.next self.old) }
        ensures stands { (next : CardState A.State) → prepared_in A.standing A.next self.old
            ≡ Decided next → standing_in A.standing self.new ≡ next }
        ensures done { prepared_in A.standing A.next self.new ≡ Nothing }
        ensures called { CallsAfter A.Called self.old.app (settles_in self.old.ready) self.new.app }
        ensures emptied { self.new.fresh ≡ [] }
    {
        let Ready::Leaves { ending } = self.ready else {
            unreachable!()
        };
        settle_if(ending.settles, &mut self.application);
        if ending.fresh {
            swap(&mut self.kept, &mut self.fresh);
        }
        wipe(&mut self.fresh);
        wipe_ended(&ending.left, &mut self.kept);
        self.waiting = ending.left;
        self.ready = Ready::Nothing;
    }

    fn reset(&mut self)
        ensures stands { standing_in A.standing self.new
            ≡ after_reset A.after_reset (standing_in A.standing self.old) }
        ensures dropped { prepared_in A.standing A.next self.new ≡ Nothing }
        ensures called { AreMade A.Called self.old.app (Was_reset ∷ []) self.new.app }
        ensures emptied { self.new.fresh ≡ [] }
    {
        self.application.reset();
        wipe(&mut self.kept);
        wipe(&mut self.fresh);
        self.waiting = Waiting::Nothing;
        self.ready = Ready::Nothing;
    }
}
