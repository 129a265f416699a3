//! The card of an application without a line: it is called with whole commands.
ghost use Rattle.std.specs.Prelude.{◌≡◌, IfOk};
ghost use Rattle.command_card.specs.View.{applet_in};
ghost use Rattle.command_card.specs.State.{Nothing_left};

use crate::link::{Link, spell};
use apdu_core::Command;
use apdu_terminal::COMMAND_LIMIT;
use command_card::{AppletOf, Application};
use std::alloc::{AllocError, Global};
use std::marker::Model;
use t1_core::{Applet, Fault, RESPONSE_ROOM};

/// The card of an application that is called with whole commands, as by a reader that fetches
/// nothing by itself.
#[derive(Drop)]
pub struct Direct<A: Application> {
    card: AppletOf<A>,
    response: Vec<u8>,
}

impl<A: Application> Model for Direct<A> {
    ghost use Rattle.std.specs.Prelude.{◌≤◌, vec_capacity};
    ghost use Rattle.t1_core.specs.declared.applet.TheConstants.{RESPONSE_ROOM};
    ghost use Rattle.command_card.specs.View.{applet_in};
    ghost use Rattle.as_called.specs.AsIfCalled.{IsTidy};
    ghost use Rattle.as_called.specs.Whole.{DirectOf};

    ghost Value = { DirectOf A };

    ghost view = { λ d. record { card = d.card; said = d.response.items } };

    ghost invariant = { λ d. (RESPONSE_ROOM ≤ vec_capacity d.response)
        × IsTidy (applet_in A.standing d.card).left };
}

impl<A: Application + Drop> Direct<A> {
    /// Makes the card of an application. Nothing waits.
    ///
    /// # Errors
    /// - `AllocError`: memory ran out.
    pub fn new(alloc: Global, application: A) -> Result<Direct<A>, AllocError>
        ensures { IfOk result (λ link. applet_in A.standing link.card
            ≡ record { app = A.standing application; left = Nothing_left }) }
    {
        let mut response = Vec::new(alloc);
        response.reserve_exact(RESPONSE_ROOM)?;
        Ok(Direct {
            card: AppletOf::new(alloc, application),
            response,
        })
    }

    /// The application.
    pub fn application(&self) -> &A
        ensures { result.now ≡ self.now.card.app }
    {
        self.card.application()
    }
}

impl<A: Application> Link<A> for Direct<A> {
    ghost card = { λ d. d.card };

    ghost response = { λ d. d.said };

    ghost IsReady = { λ d. Unit {0} };

    fn is_ready(&self) -> bool {
        true
    }

    fn carry(&mut self, command: &Command<'_>) -> Result<(), Fault> {
        let mut bytes = [0; COMMAND_LIMIT];
        let count = spell(command, &mut bytes);
        let Ok(_) = self.card.carry_out(&bytes[..count], &mut self.response) else {
            unreachable!()
        };
        Ok(())
    }

    fn response(&self) -> &[u8] {
        &self.response
    }
}
