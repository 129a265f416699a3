//! The card of an application behind a line at T=1, which may damage or lose any block.
ghost use Rattle.std.specs.Prelude.{◌≡◌, IfOk, true};
ghost use Rattle.command_card.specs.View.{applet_in};
ghost use Rattle.command_card.specs.State.{Nothing_left};
ghost use Rattle.t1_core.specs.TerminalSide.{is_ready};

use crate::link::{Link, spell};
use crate::noted::Noted;
use apdu_core::Command;
use apdu_terminal::COMMAND_LIMIT;
use command_card::{AppletOf, Application};
use std::alloc::{AllocError, Global};
use std::marker::Model;
use t1_core::{
    Ends, Fault, Line, Settings, TerminalEnd, carried_commands_are_a_dialogue, rooms_for,
};

/// Both ends of a line at T=1, with the card of an application. After a fault no command can be
/// carried.
#[derive(Drop)]
pub struct OverT1<A: Application, L: Line> {
    ends: Ends<Noted<A>>,
    line: L,
}

impl<A: Application, L: Line> Model for OverT1<A, L> {
    ghost use Rattle.t1_core.specs.Carried.{EndsOf, HasCarried, Past};
    ghost use Rattle.command_card.specs.View.{AppletView, applet_in};
    ghost use Rattle.as_called.specs.AsIfCalled.{IsTidy};
    ghost use Rattle.as_called.specs.Whole.{at_t1};

    ghost Value = { EndsOf (AppletView A) };

    ghost view = { λ o. o.ends };

    ghost invariant = { λ o. ((past : Past (AppletView A))
        × HasCarried (at_t1 A.Application) past (L.passed o.line) o.ends)
        × IsTidy (applet_in A.standing o.ends.card.card).left };
}

impl<A: Application + Drop, L: Line + Drop> OverT1<A, L> {
    /// Makes both ends of a line after a reset. Nothing waits.
    ///
    /// # Errors
    /// - `AllocError`: memory ran out.
    pub fn new(
        alloc: Global,
        application: A,
        line: L,
        settings: Settings,
    ) -> Result<OverT1<A, L>, AllocError>
        ensures stands { IfOk result (λ link. applet_in A.standing link.card.card
            ≡ record { app = A.standing application; left = Nothing_left }) }
        ensures ready { IfOk result (λ link. is_ready link.terminal.phase ≡ true) }
    {
        carried_commands_are_a_dialogue::<Noted<A>>();
        let rooms = rooms_for::<Noted<A>>(alloc)?;
        let terminal = TerminalEnd::new(alloc, settings)?;
        let card = Noted {
            card: AppletOf::new(alloc, application),
        };
        Ok(OverT1 {
            ends: Ends::new(terminal, rooms, card),
            line,
        })
    }

    /// Drops both ends and the line, and returns the card.
    pub fn into_card(self) -> AppletOf<A>
        ensures { result ≡ self.card.card }
    {
        let OverT1 { ends, .. } = self;
        let Noted { card } = ends.into_applet();
        card
    }
}

impl<A: Application, L: Line> Link<A> for OverT1<A, L> {
    ghost use Rattle.std.specs.Prelude.{◌≡◌, true};
    ghost use Rattle.t1_core.specs.TerminalSide.{is_ready};

    ghost card = { λ o. o.card.card };

    ghost response = { λ o. o.terminal.got };

    ghost IsReady = { λ o. is_ready o.terminal.phase ≡ true };

    fn is_ready(&self) -> bool {
        self.ends.is_ready()
    }

    fn carry(&mut self, command: &Command<'_>) -> Result<(), Fault> {
        let mut bytes = [0; COMMAND_LIMIT];
        let count = spell(command, &mut bytes);
        let Ok(()) = self.ends.carry(&mut self.line, &bytes[..count]) else {
            unreachable!()
        };
        match self.ends.fault() {
            Some(fault) => Err(fault),
            None => Ok(()),
        }
    }

    fn response(&self) -> &[u8] {
        self.ends.response()
    }
}
