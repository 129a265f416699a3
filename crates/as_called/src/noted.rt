//! The card of an application at T=1, as `OverT1` keeps it. Contracts see its calls too.
use command_card::{AppletOf, Application};
use std::alloc::AllocError;
use std::marker::Model;
use t1_core::{Applet, COMMAND_ROOM, Requests};

/// The card of an application at T=1. Its state is all of `AppletOf`, so what it does to a command
/// includes the calls of the application.
#[derive(Drop)]
pub(crate) struct Noted<A: Application> {
    pub(crate) card: AppletOf<A>,
}

impl<A: Application> Model for Noted<A> {
    ghost use Rattle.command_card.specs.View.{AppletView};

    ghost Value = { AppletView A };

    ghost view = { λ n. n.card };
}

impl<A: Application> Applet for Noted<A> {
    ghost use Rattle.command_card.specs.View.{AppletView};
    ghost use Rattle.as_called.specs.Whole.{TakesBytes};

    const LIMIT: usize = COMMAND_ROOM;

    ghost LIMIT = { 261 };

    ghost State = { AppletView A };

    ghost standing = { λ n. n };

    ghost Does = { TakesBytes A.Application };

    ghost Refuses = { λ s command. ⊥ };

    fn carry_out(
        &mut self,
        command: &[u8],
        response: &mut Vec<u8>,
    ) -> Result<Requests, AllocError> {
        let Ok(asks) = self.card.carry_out(command, response) else {
            unreachable!()
        };
        Ok(asks)
    }

    fn too_long(&mut self, response: &mut Vec<u8>) -> Result<Requests, AllocError> {
        let Ok(asks) = self.card.too_long(response) else {
            unreachable!()
        };
        Ok(asks)
    }
}
