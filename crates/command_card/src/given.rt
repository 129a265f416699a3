//! An application whose responses come from outside, one for each command.
ghost use Rattle.std.specs.Prelude.{◌≡◌, ◌≢◌, ◌<◌, ◌≤◌, [], length, true, None, is_some, IfOk, OnOk, OnErr};
ghost use Rattle.command_card.specs.declared.application.TheConstants.{OWN_RESPONSE_LIMIT};
ghost use Rattle.command_card.specs.Carrying.{IsOwn};
ghost use Rattle.command_card.specs.Given.{IsGiven, after_drop, go_to_card, new_given, settled, with_answer, without_answer};
ghost use Rattle.command_card.specs.declared.given.Directions.TheVariants as way;

use crate::application::Application;
use apdu_core::{Command, Header, Status};
use std::alloc::{AllocError, Global};
use std::marker::Model;
use std::mem::swap;
use t1_core::wipe;

/// Which way the data of a command go.
#[derive(Clone, Copy, Debug)]
pub enum Directions {
    /// By INS: bit INS mod 8 of byte INS/8, the lowest bit first, is set if data go to the card.
    Table([u8; 32]),
    /// By header: the caller states it for each, and has not for the next one.
    Unknown,
    /// By header, stated for the next one: `true` if its data go to the card.
    Known(bool),
}

/// Whether data go to the card under this INS.
fn go_to_card(directions: &Directions, ins: u8) -> bool
    ensures { result ≡ go_to_card directions.now ins }
{
    match directions {
        Directions::Table(bytes) => { (bytes[(ins / 8) as usize] >> (ins % 8)) % 2 == 1 }
        Directions::Unknown => false,
        Directions::Known(to_card) => *to_card,
    }
}

/// An application that answers each command with the response that it was given for it. Without one
/// the status is `6581`. For callers without callbacks.
#[derive(Drop)]
pub struct Given {
    directions: Directions,
    /// The response, and its status if one was given.
    bytes: Vec<u8>,
    status: Option<Status>,
    /// A copy to hand out, so that no memory is needed then, unless it is used.
    spare: Vec<u8>,
    used: bool,
    settled: bool,
}

impl Model for Given {
    ghost use Rattle.std.specs.Prelude.{◌≡◌, ◌≤◌, ◌&&◌, [], length, is_some, MatchOption, if◌then◌else◌};
    ghost use Rattle.command_card.specs.declared.application.TheConstants.{OWN_RESPONSE_LIMIT};
    ghost use Rattle.command_card.specs.Carrying.{IsOwn};
    ghost use Rattle.command_card.specs.Given.{GivenState, answer_of};

    ghost Value = { GivenState };

    ghost view = { λ g. record {
      directions = g.directions;
      given = answer_of g.status g.bytes.items;
      settled = g.settled;
      handed = is_some g.status && g.used;
    } };

    ghost invariant = { λ g. (g.spare.items ≡ (if g.used then [] else g.bytes.items))
        × MatchOption g.status (g.bytes.items ≡ []) (λ status. IsOwn status
        × (length g.bytes.items ≤ OWN_RESPONSE_LIMIT)) };
}

impl Given {
    /// Makes the application, without a response. It counts as settled.
    pub fn new(alloc: Global, directions: Directions) -> Given
        ensures { result ≡ new_given directions }
    {
        Given {
            directions,
            bytes: Vec::new(alloc),
            status: None,
            spare: Vec::new(alloc),
            used: true,
            settled: true,
        }
    }

    /// Whether a response was given, for a command that has not settled.
    pub fn has_response(&self) -> bool
        ensures { result ≡ is_some self.now.given }
    {
        self.status.is_some()
    }

    /// Whether the last command that got a response has settled; `true` before the first. It stays
    /// `false` if a reset or `CommandCard::take_back` drops the command.
    pub fn has_settled(&self) -> bool
        ensures { result ≡ self.now.settled }
    {
        self.settled
    }

    /// Which way the data of commands go.
    pub fn directions(&self) -> Directions
        ensures { result ≡ self.now.directions }
    {
        self.directions
    }

    /// Takes the response to the next command.
    ///
    /// # Errors
    /// - `AllocError`: memory ran out; nothing has changed.
    pub(crate) fn give(&mut self, bytes: &[u8], status: Status) -> Result<(), AllocError>
        requires none { self.old.given ≡ None }
        requires own { IsOwn status }
        requires short { length bytes.now ≤ OWN_RESPONSE_LIMIT }
        ensures failed { OnErr result ((self.new ≡ self.old) × (bytes.now ≢ [])) }
        ensures done { OnOk result (self.new ≡ with_answer self.old bytes.now status) }
    {
        self.used = true;
        if copied(bytes, &mut self.bytes).is_err() {
            return Err(AllocError);
        }
        if copied(bytes, &mut self.spare).is_err() {
            wipe(&mut self.bytes);
            return Err(AllocError);
        }
        self.status = Some(status);
        self.used = false;
        self.settled = false;
        Ok(())
    }

    /// Answers which way the data of the next header go.
    pub(crate) fn decide(&mut self, to_card: bool)
        ensures { self.new ≡ record self.old { directions = way.Known to_card } }
    {
        self.directions = Directions::Known(to_card);
    }

    /// Carries out a command: moves its response to `into`, and settles. Returns the status.
    ///
    /// # Errors
    /// - `AllocError`: none was given; nothing has changed.
    pub(crate) fn hand_over(&mut self, into: &mut Vec<u8>) -> Result<Status, AllocError>
        ensures failed { OnErr result ((self.new ≡ self.old) × (into.new ≡ into.old)) }
        ensures own { IfOk result IsOwn }
        ensures given { IfOk result (λ status. IsGiven self.old.given into.new.items status
            × (length into.new.items ≤ OWN_RESPONSE_LIMIT) × (self.new ≡ settled self.old)) }
    {
        let Some(status) = self.status else {
            return Err(AllocError);
        };
        self.status = None;
        wipe(into);
        swap(&mut self.bytes, into);
        wipe(&mut self.spare);
        self.settle();
        Ok(status)
    }

    /// Forgets what was answered about the next header.
    pub(crate) fn forget_direction(&mut self)
        ensures { self.new ≡ without_answer self.old }
    {
        if matches!(self.directions, Directions::Known(_)) {
            self.directions = Directions::Unknown;
        }
    }

    /// Drops the response, and what was answered about one header.
    pub(crate) fn drop_response(&mut self)
        ensures { self.new ≡ after_drop self.old }
    {
        wipe(&mut self.bytes);
        wipe(&mut self.spare);
        self.status = None;
        self.used = true;
        self.forget_direction();
    }
}

/// Replaces the content of `into`. If memory runs out, nothing is left of it.
fn copied(bytes: &[u8], into: &mut Vec<u8>) -> Result<(), AllocError>
    ensures done { OnOk result (into.new.items ≡ bytes.now) }
    ensures failed { OnErr result ((into.new.items ≡ []) × (bytes.now ≢ [])) }
{
    wipe(into);
    if bytes.is_empty() {
        return Ok(());
    }
    into.extend_from_slice(bytes)
}

impl Application for Given {
    ghost use Rattle.std.specs.Prelude.{true, IfErr, is_ok};
    ghost use Rattle.command_card.specs.Carrying.{out_of_memory};
    ghost use Rattle.command_card.specs.Given.{GivenState, Answers, after_drop, at_rest, has_answer, settled, takes_data};

    ghost State = { GivenState };

    ghost standing = { at_rest };

    ghost next = { settled };

    ghost takes = { takes_data };

    ghost Does = { Answers };

    ghost after_reset = { after_drop };

    fn takes_data(&self, header: Header) -> bool {
        go_to_card(&self.directions, header.ins)
    }

    fn carry_out(
        &mut self,
        _command: Command<'_>,
        response: &mut Vec<u8>,
    ) -> Result<Status, AllocError>
        requires { response.old.items ≡ [] }
        ensures when { is_ok result ≡ has_answer self.old }
        ensures stands { at_rest self.new ≡ at_rest self.old }
        ensures done { IfOk result (λ status. Answers (at_rest self.old) (record {
          command = _command.entry;
          response = response.new.items;
          status = status;
        }) (settled self.new) × IsOwn status) }
        ensures failed { IfErr result (λ e. Answers (at_rest self.old)
            (out_of_memory _command.entry) (at_rest self.old)) }
        ensures handed { OnOk result (self.new ≡ record self.old { handed = true }) }
        ensures kept { OnErr result (self.new ≡ self.old) }
    {
        let Some(status) = self.status else {
            return Err(AllocError);
        };
        if self.used {
            return Err(AllocError);
        }
        self.used = true;
        swap(&mut self.spare, response);
        Ok(status)
    }

    fn settle(&mut self)
        ensures stands { at_rest self.new ≡ settled self.old }
        ensures settles { self.new ≡ settled self.old }
    {
        self.drop_response();
        self.settled = true;
    }

    fn reset(&mut self)
        ensures stands { at_rest self.new ≡ after_drop (at_rest self.old) }
        ensures resets { self.new ≡ after_drop self.old }
    {
        self.drop_response();
    }
}
