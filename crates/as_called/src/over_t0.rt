//! A card of an application at T=0, behind a line that delivers every character.
ghost use Rattle.std.specs.Prelude.{◌≡◌, IfOk, IsErrOf, List, false};
ghost use Rattle.std.specs.List.{flat_map};
ghost use Rattle.exchange_core.specs.Gathered.{Gathers, UnitOf, dialogues_of};
ghost use Rattle.card_terminal.specs.Conversing.{HaveGone, point};
ghost use Rattle.card_terminal.specs.declared.session_fault.SessionFault.TheVariants.{OutOfMemory};
ghost use Rattle.command_card.specs.Meaning.{Does as DoesTpdu};
ghost use Rattle.command_card.specs.State.{Nothing_left, is_fetch};
ghost use Rattle.command_card.specs.View.{MayReceive, MaySend, standing_in};
ghost use Rattle.object_card.specs.Agreed.{IsAgreed};
ghost use Rattle.as_called.specs.AsIfCalled.{AsIfCalled, By_plans};

use apdu_core::Command;
use card_terminal::{Session, SessionFault};
use command_card::laws::an_exchange_gathers_what_is_asked_for;
use command_card::{Application, CommandCard};
use exchange_core::Answer;
use std::alloc::Allocator;
use std::marker::Model;
use t0_core::{CardEnd, Plans, Watch};

/// A session at T=0 with an application's card.
#[derive(Drop)]
pub struct OverT0<A: Application> {
    session: Session<CommandCard<A>>,
}

impl<A: Application> Model for OverT0<A> {
    ghost use Rattle.command_card.specs.View.{CardOf, standing_in};
    ghost use Rattle.as_called.specs.AsIfCalled.{IsTidy};

    ghost Value = { CardOf A };

    ghost view = { λ o. o.session };

    ghost invariant = { λ o. IsTidy (standing_in A.standing o.session).left };
}

impl<A: Application> OverT0<A> {
    /// Resets the card, and starts a session with it. Nothing waits.
    pub fn new(end: CardEnd<CommandCard<A>>) -> OverT0<A>
        ensures { standing_in A.standing result ≡ record {
          app = A.after_reset (A.standing end.card.app);
          left = Nothing_left;
        } }
    {
        OverT0 {
            session: Session::new(end),
        }
    }

    /// The session.
    pub fn session(&self) -> &Session<CommandCard<A>>
        ensures { result.now ≡ self.now }
    {
        &self.session
    }

    /// Sends a command to the application, under the plans at the cursor `plans`, and fetches the
    /// rest of the response. `watch` hears each character. The application agrees on the direction
    /// of its data (`IsAgreed`), and its INS is not that of GET RESPONSE.
    ///
    /// The report is as if the application had been called directly (`AsIfCalled`).
    ///
    /// # Errors
    /// Those of `Session::transmit`.
    pub fn send<M: Allocator, P: Allocator, W: Watch>(
        &mut self,
        alloc: M,
        command: Command,
        plans: &mut Plans<P>,
        watch: &mut W,
    ) -> Result<Answer<M>, SessionFault>
        requires agreed { IsAgreed (MayReceive A.takes) (MaySend A.takes) command }
        requires no_fetch { is_fetch command.header ≡ false }
        ensures as_if_called { IfOk result (λ reply. AsIfCalled A.takes A.Does By_plans
            (standing_in A.standing self.old) command.entry reply.content reply.status
            (standing_in A.standing self.new)) }
        // The plans that were taken, and what the watch has heard.
        ensures passed { IfOk result (λ reply. (units : List UnitOf)
            × Gathers command.entry units reply.content reply.status
            × HaveGone (DoesTpdu A.takes A.Does)
            (point (standing_in A.standing self.old) plans.old.rest (W.hearing watch.old))
            (flat_map dialogues_of units)
            (point (standing_in A.standing self.new) plans.new.rest (W.hearing watch.new))) }
        ensures memory { IsErrOf result OutOfMemory →
            standing_in A.standing self.new ≡ standing_in A.standing self.old }
        ensures none_passed { IsErrOf result OutOfMemory →
            (plans.new ≡ plans.old) × (W.hearing watch.new ≡ W.hearing watch.old) }
    {
        an_exchange_gathers_what_is_asked_for::<A>();
        let _valid = command.header();
        let answer = self.session.transmit(alloc, command, plans, watch)?;
        Ok(answer)
    }
}
