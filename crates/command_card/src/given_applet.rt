//! The card of given responses at T=1.
ghost use Rattle.std.specs.Prelude.{◌≡◌, ◌≤◌, [], vec_capacity};
ghost use Rattle.t1_core.specs.declared.applet.TheConstants.{RESPONSE_ROOM};

use crate::answer::word;
use crate::applet::{push, refuse};
use crate::card::CommandCard;
use crate::given::Given;
use crate::own::{Wanted, forget, respond_to, wanted_by_command};
use apdu_core::{ApduFault, Command};
use std::alloc::AllocError;
use t0_core::CardEnd;
use t1_core::{Applet, COMMAND_ROOM, Requests, wipe};

/// A card of given responses above its end of a line at T=1. It carries out no command without its
/// response and the direction of its data: a `t1_core::PatientCard` keeps the block until then.
#[derive(Drop)]
pub struct GivenApplet {
    /// The card as it was at T=0, where no TPDU may be in progress.
    pub end: CardEnd<CommandCard<Given>>,
}

impl Applet for GivenApplet {
    ghost use Rattle.command_card.specs.Given.{GivenState, at_rest};
    ghost use Rattle.std.specs.Prelude.{◌≡◌, MatchResult};
    ghost use Rattle.apdu_core.specs.CommandBytes as spec;
    ghost use Rattle.apdu_core.specs.CommandBytes.{IsCommand, command_bytes};
    ghost use Rattle.command_card.specs.AtT1.{DoesBytes};
    ghost use Rattle.command_card.specs.State.{CardState};
    ghost use Rattle.command_card.specs.View.{standing_in};
    ghost use Rattle.command_card.specs.Wanted.{RespondsAtT1};

    const LIMIT: usize = COMMAND_ROOM;

    ghost LIMIT = { 261 };

    ghost State = { CardState GivenState };

    ghost standing = { λ c. standing_in at_rest c.end.card };

    ghost Does = { DoesBytes RespondsAtT1 };

    // a command may wait for its response
    ghost Refuses = { λ s bytes. (c : spec.Command) × IsCommand c × (bytes ≡ command_bytes c) };

    #[tactic(auto, using(crate::proofs::AppletLemmas::forgotten_stands))]
    fn carry_out(&mut self, command: &[u8], response: &mut Vec<u8>) -> Result<Requests, AllocError>
        requires { RESPONSE_ROOM ≤ vec_capacity response.old }
        ensures does { MatchResult result
            (λ asks. DoesBytes RespondsAtT1 (standing_in at_rest self.old.end.card) (record {
              command = command.now;
              response = response.new.items;
              asks = asks;
            }) (standing_in at_rest self.new.end.card))
            (λ _. (standing_in at_rest self.new.end.card
            ≡ standing_in at_rest self.old.end.card)
            × (response.new.items ≡ response.old.items)
            × ((c : spec.Command) × IsCommand c × (command.now ≡ command_bytes c))) }
        ensures room { RESPONSE_ROOM ≤ vec_capacity response.new }
        ensures emptied { self.old.end.card.fresh ≡ [] → self.new.end.card.fresh ≡ [] }
    {
        match Command::read(command) {
            Ok(read) => {
                if !matches!(wanted_by_command(&self.end, &read), Wanted::Nothing) {
                    return Err(AllocError);
                }
                respond_to(&mut self.end, read.header(), read.data(), read.le())?;
                wipe(response);
                push(self.end.card().response(), response);
                forget(&mut self.end);
            }
            Err(ApduFault::InvalidIns) => refuse(word(0x6D, 0x00), response),
            Err(ApduFault::TooShort | ApduFault::BadLength) => refuse(word(0x67, 0x00), response),
        }
        Ok(Requests::default())
    }

    #[tactic(auto, using(crate::proofs::AppletLemmas::too_long_does))]
    fn too_long(&mut self, response: &mut Vec<u8>) -> Result<Requests, AllocError> {
        refuse(word(0x67, 0x00), response);
        Ok(Requests::default())
    }
}
