//! A card of data objects above its end of a line at T=1.
ghost use Rattle.std.specs.Prelude.{◌≡◌, ◌+◌, ◌≤◌, [], ◌++◌, length, true, IfOk, MatchResult, vec_capacity};
ghost use Rattle.apdu_core.specs.StatusWord.{StatusWord, IsStatusWord};
ghost use Rattle.t0_core.specs.CardTpdu.{rests};
ghost use Rattle.t1_core.specs.declared.applet.TheConstants.{RESPONSE_ROOM};
ghost use Rattle.t1_terminal.specs.CardCommand.{Answers, DoesAt, status_bytes};

use apdu_core::{ApduFault, Command, Status};
use apdu_terminal::{COMMAND_LIMIT, respond};
use object_card::DataCard;
use std::alloc::{AllocError, Global};
use std::marker::Model;
use t0_core::CardEnd;
use t1_core::{Applet, RESPONSE_ROOM, Requests, wipe};

/// A card of data objects above its end of a line at T=1. It carries out each command as
/// `apdu_terminal::respond` does, and makes no request before a response (profile). A response is
/// the data, then the status.
///
/// It responds `6700` to bytes that are no short command, so also to more than 261. It responds
/// `6D00` to an INS of `6X` or `9X`. The card is unchanged after both.
#[derive(Drop)]
pub struct DataApplet<C: DataCard> {
    alloc: Global,
    end: CardEnd<C>,
}

impl<C: DataCard> Model for DataApplet<C> {
    ghost use Rattle.std.specs.Prelude.{◌≡◌, true};
    ghost use Rattle.t0_core.specs.CardSide.{EndOf};
    ghost use Rattle.t0_core.specs.CardTpdu.{rests};

    ghost Value = { EndOf C };

    ghost view = { λ a. a.end };

    ghost invariant = { λ a. rests a.end.stage ≡ true };
}

impl<C: DataCard> DataApplet<C> {
    /// Makes the card from an end at T=0. No TPDU may be in progress there
    /// (`CardEnd::is_at_rest`).
    pub fn new(alloc: Global, end: CardEnd<C>) -> DataApplet<C>
        requires { rests end.stage ≡ true }
        ensures { result ≡ end }
    {
        DataApplet { alloc, end }
    }

    /// Returns the card of data objects.
    pub fn card(&self) -> &C
        ensures { result.now ≡ self.now.card }
    {
        self.end.card()
    }

    /// Returns the end at T=0, at which no TPDU is in progress.
    pub fn into_end(self) -> CardEnd<C>
        ensures end { result ≡ self }
        ensures rests { rests result.stage ≡ true }
    {
        self.end
    }

    /// Carries out a command, and writes its response, for which there is room.
    fn respond(&mut self, command: Command<'_>, response: &mut Vec<u8>) -> Result<(), AllocError>
        requires { RESPONSE_ROOM ≤ vec_capacity response.old }
        ensures responds { MatchResult result
            (λ _. Answers C.Does (C.standing self.old.card) command.entry
            response.new.items (C.standing self.new.card))
            (λ _. (self.new ≡ self.old) × (response.new.items ≡ response.old.items)) }
        ensures room { RESPONSE_ROOM ≤ vec_capacity response.new }
    {
        let Ok(exchange) = respond(self.alloc, &mut self.end, command) else {
            return Err(AllocError);
        };
        let Some(status) = exchange.status() else {
            unreachable!()
        };
        write(exchange.data(), status, response);
        Ok(())
    }
}

/// Replaces a response, for which there is room. The old bytes are overwritten.
fn write(content: &[u8], status: Status, response: &mut Vec<u8>)
    requires { length content.now + 2 ≤ vec_capacity response.old }
    ensures bytes { response.new.items ≡ content.now ++ status_bytes status }
    ensures status { IsStatusWord status }
    ensures room { vec_capacity response.old ≤ vec_capacity response.new }
{
    wipe(response);
    if response.extend_from_slice(content).is_err() {
        unreachable!()
    }
    response.push_reserved(status.sw1());
    response.push_reserved(status.sw2());
}

impl<C: DataCard> Applet for DataApplet<C> {
    ghost use Rattle.std.specs.Prelude.{◌≡◌};
    ghost use Rattle.apdu_core.specs.CommandBytes as spec;
    ghost use Rattle.apdu_core.specs.CommandBytes.{IsCommand, command_bytes};

    const LIMIT: usize = COMMAND_LIMIT;

    ghost LIMIT = { 261 };

    ghost State = { C.State };

    ghost standing = { λ a. C.standing a.card };

    ghost Does = { DoesAt C.Does };

    // memory may run out at a command
    ghost Refuses = { λ s bytes. (c : spec.Command) × IsCommand c × (bytes ≡ command_bytes c) };

    fn carry_out(
        &mut self,
        command: &[u8],
        response: &mut Vec<u8>,
    ) -> Result<Requests, AllocError> {
        match Command::read(command) {
            Ok(command) => self.respond(command, response)?,
            Err(ApduFault::InvalidIns) => write(&[], status(0x6D), response),
            Err(ApduFault::TooShort | ApduFault::BadLength) => write(&[], status(0x67), response),
        }
        Ok(Requests {
            extensions: 0,
            multiple: 0,
            size: None,
        })
    }

    #[tactic(auto, using(crate::proofs::AnswerLemmas::too_long_does))]
    fn too_long(&mut self, response: &mut Vec<u8>) -> Result<Requests, AllocError> {
        write(&[], status(0x67), response);
        Ok(Requests {
            extensions: 0,
            multiple: 0,
            size: None,
        })
    }
}

/// Returns the status with this SW1, and SW2 00.
fn status(sw1: u8) -> Status
    requires { (0x61 ≤ sw1) × (sw1 ≤ 0x6F) }
    ensures { result ≡ (sw1, 0x00) }
{
    Status::new(sw1, 0x00).unwrap()
}
