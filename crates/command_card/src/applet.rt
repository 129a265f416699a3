//! The same application at T=1, and for whole commands.
ghost use Rattle.std.specs.Prelude.{◌≡◌, ◌+◌, ◌≤◌, [], ◌++◌, length, drop, vec_capacity, Some, unwrap_or};
ghost use Rattle.t1_core.specs.declared.applet.TheConstants.{RESPONSE_ROOM};
ghost use Rattle.apdu_core.specs.declared.header.Header.{Header};
ghost use Rattle.command_card.specs.AtT1.{HandsOut, Responds, DoesAt, shown, status_bytes, may_bring};
ghost use Rattle.command_card.specs.Calls.{CallsFor};
ghost use Rattle.command_card.specs.State.{Nothing_left};
ghost use Rattle.command_card.specs.View.{WaitsFor, after_reset, left_of, state_of};

use crate::answer::{announcing, carried_out, fetch_left, settle_if, wipe_ended, word};
use crate::application::{Application, GET_RESPONSE};
use crate::ready::Waiting;
use apdu_core::{ApduFault, Command, Status};
use std::alloc::{AllocError, Global};
use std::marker::Model;
use t1_core::{Applet, COMMAND_ROOM, RESPONSE_ROOM, Requests, wipe};

/// An application above its end of a line at T=1, or for whole commands. It gets each command as
/// T=0 shows it, so it answers alike on both lines. At most Le bytes of a response come. `61XX`
/// announces the rest, which GET RESPONSE fetches. Of a response that is sent nothing is held.
///
/// Bytes that are no short command get `6700`, INS `6X` and `9X` `6D00`, and nothing changes. Data
/// in the wrong direction get `6700`. The other statuses are those of `CommandCard`. It refuses no
/// command: if memory runs out, the application's command gets `6581`.
#[derive(Drop)]
pub struct AppletOf<A: Application> {
    pub(crate) application: A,
    pub(crate) kept: Vec<u8>,
    pub(crate) waiting: Waiting,
}

impl<A: Application> Model for AppletOf<A> {
    ghost use Rattle.command_card.specs.View.{AppletView, IsEmptied};

    ghost Value = { AppletView A };

    ghost view = { λ c. record {
      app = c.application;
      kept = c.kept.items;
      waiting = c.waiting;
    } };

    ghost invariant = { λ c. IsEmptied c.waiting c.kept.items };
}

impl<A: Application> AppletOf<A> {
    ghost use Rattle.std.specs.Prelude.{◌∷◌, []};
    ghost use Rattle.command_card.specs.Calls.{AreMade, Was_reset};
    ghost use Rattle.command_card.specs.View.{applet_in};

    /// Makes the card of an application. Nothing is pending.
    pub fn new(alloc: Global, application: A) -> AppletOf<A>
        ensures { applet_in A.standing result
            ≡ record { app = A.standing application; left = Nothing_left } }
    {
        AppletOf {
            application,
            kept: Vec::new(alloc),
            waiting: Waiting::Nothing,
        }
    }

    /// Returns the application.
    pub fn application(&self) -> &A
        ensures { result.now ≡ self.now.app }
    {
        &self.application
    }

    /// Resets the card and its application, at any time between two commands. Nothing is pending
    /// afterwards.
    pub fn reset(&mut self)
        ensures stands { applet_in A.standing self.new
            ≡ after_reset A.after_reset (applet_in A.standing self.old) }
        ensures called { AreMade A.Called self.old.app (Was_reset ∷ []) self.new.app }
    {
        self.application.reset();
        wipe(&mut self.kept);
        self.waiting = Waiting::Nothing;
    }
}

/// The command as T=0 shows it to an application that takes data under this header, or none.
pub(crate) fn shown<'a>(takes: bool, command: &Command<'a>) -> Option<Command<'a>>
    ensures { result ≡ shown takes command.now.header command.now.content command.now.le }
{
    let (header, bytes, le) = (command.header(), command.data(), command.le());
    if takes {
        if bytes.is_empty() && le.is_some() {
            return None;
        }
        return Some(Command::new(header, bytes, None).unwrap());
    }
    if !bytes.is_empty() {
        return None;
    }
    Some(Command::new(header, &[], Some(le.unwrap_or(256))).unwrap())
}

/// Appends bytes, for which there is room.
pub(crate) fn push(content: &[u8], response: &mut Vec<u8>)
    requires { length response.old.items + length content.now ≤ vec_capacity response.old }
    ensures items { response.new.items ≡ response.old.items ++ content.now }
    ensures room { vec_capacity response.old ≤ vec_capacity response.new }
{
    if response.extend_from_slice(content).is_err() {
        unreachable!()
    }
}

/// Writes a response, for which there is room.
pub(crate) fn write(content: &[u8], status: Status, response: &mut Vec<u8>)
    requires empty { response.old.items ≡ [] }
    requires room { length content.now + 2 ≤ vec_capacity response.old }
    ensures bytes { response.new.items ≡ content.now ++ status_bytes status }
    ensures room { vec_capacity response.old ≤ vec_capacity response.new }
{
    push(content, response);
    response.push_reserved(status.sw1());
    response.push_reserved(status.sw2());
}

/// Replaces a response by a status, for which there is room. The old bytes are overwritten.
pub(crate) fn refuse(status: Status, response: &mut Vec<u8>)
    requires { 2 ≤ vec_capacity response.old }
    ensures bytes { response.new.items ≡ status_bytes status }
    ensures room { vec_capacity response.old ≤ vec_capacity response.new }
{
    wipe(response);
    write(&[], status, response);
}

/// Writes at most Le bytes of those from this place on, and their status. Returns what is pending.
pub(crate) fn hand_out(
    bytes: &Vec<u8>,
    from: usize,
    status: Status,
    le: Option<u16>,
    response: &mut Vec<u8>,
) -> Waiting
    requires le { may_bring le ≤ 256 }
    requires room { (response.old.items ≡ []) × (RESPONSE_ROOM ≤ vec_capacity response.old) }
    ensures hands { HandsOut (drop from bytes.now.items) status (may_bring le) response.new.items
        (left_of bytes.now.items result) }
    ensures under { (h : Header) → WaitsFor result h → ⊥ }
    ensures short { length response.new.items ≤ may_bring le + 2 }
    ensures room { vec_capacity response.old ≤ vec_capacity response.new }
{
    let first = from.min(bytes.len());
    let left = bytes.len() - first;
    let count = (le.unwrap_or(0) as usize).min(left);
    write(
        &bytes[first..first + count],
        announcing(left - count, status, 256),
        response,
    );
    fetch_left(left - count, first + count, status)
}

/// Carries out a command, and writes its response.
pub(crate) fn respond<A: Application>(
    application: &mut A,
    kept: &mut Vec<u8>,
    waiting: Waiting,
    command: &Command<'_>,
    response: &mut Vec<u8>,
) -> Waiting
    requires { (response.old.items ≡ []) × (RESPONSE_ROOM ≤ vec_capacity response.old) }
    ensures responds { Responds A.takes A.Does
        (state_of (A.standing application.old) kept.old.items waiting)
        command.now response.new.items
        (state_of (A.standing application.new) kept.new.items result) }
    ensures called { CallsFor A.Called (A.takes (A.standing application.old)) application.old
        command.now application.new }
    ensures under { (h : Header) → WaitsFor result h → ⊥ }
    ensures room { vec_capacity response.old ≤ vec_capacity response.new }
{
    let header = command.header();
    let le = command.le();
    if header.ins == GET_RESPONSE {
        return match waiting {
            Waiting::Fetch { from, status } => hand_out(kept, from, status, le, response),
            Waiting::Nothing | Waiting::Repeat { .. } => {
                write(&[], word(0x69, 0x85), response);
                Waiting::Nothing
            }
        };
    }
    let Some(told) = shown(application.takes_data(header), command) else {
        write(&[], word(0x67, 0x00), response);
        return Waiting::Nothing;
    };
    let (status, settles) = carried_out(application, told, kept);
    settle_if(settles, application);
    hand_out(kept, 0, status, le, response)
}

impl<A: Application> Applet for AppletOf<A> {
    ghost use Rattle.std.specs.Prelude.{◌≡◌, ◌<◌, ◌≤◌, ℕ, List, length, vec_capacity, MatchResult};
    ghost use Rattle.command_card.specs.Calls.{CallsForBytes};
    ghost use Rattle.command_card.specs.State.{CardState};
    ghost use Rattle.command_card.specs.View.{applet_in};

    const LIMIT: usize = COMMAND_ROOM;

    ghost LIMIT = { 261 };

    ghost State = { CardState A.State };

    ghost standing = { λ c. applet_in A.standing c };

    ghost Does = { DoesAt A.takes A.Does };

    ghost Refuses = { λ s command. ⊥ };

    fn carry_out(&mut self, command: &[u8], response: &mut Vec<u8>) -> Result<Requests, AllocError>
        requires { RESPONSE_ROOM ≤ vec_capacity response.old }
        ensures does { MatchResult result
            (λ asks. DoesAt A.takes A.Does (applet_in A.standing self.old) (record {
              command = command.now;
              response = response.new.items;
              asks = asks;
            }) (applet_in A.standing self.new))
            (λ _. (applet_in A.standing self.new ≡ applet_in A.standing self.old)
            × (response.new.items ≡ response.old.items) × ⊥) }
        ensures room { RESPONSE_ROOM ≤ vec_capacity response.new }
        ensures called { CallsForBytes A.Called (A.takes (A.standing self.old.app)) self.old.app
            command.now self.new.app }
    {
        match Command::read(command) {
            Ok(command) => {
                wipe(response);
                self.waiting = respond(
                    &mut self.application,
                    &mut self.kept,
                    self.waiting,
                    &command,
                    response,
                );
                wipe_ended(&self.waiting, &mut self.kept);
            }
            Err(ApduFault::InvalidIns) => refuse(word(0x6D, 0x00), response),
            Err(ApduFault::TooShort | ApduFault::BadLength) => refuse(word(0x67, 0x00), response),
        }
        Ok(Requests::default())
    }

    #[tactic(auto, using(crate::proofs::AppletLemmas::too_long_does))]
    fn too_long(&mut self, response: &mut Vec<u8>) -> Result<Requests, AllocError>
        requires { RESPONSE_ROOM ≤ vec_capacity response.old }
        ensures does { MatchResult result
            (λ asks. (command : List ℕ) → 261 < length command
            → DoesAt A.takes A.Does (applet_in A.standing self.old) (record {
              command = command;
              response = response.new.items;
              asks = asks;
            }) (applet_in A.standing self.new))
            (λ _. (applet_in A.standing self.new ≡ applet_in A.standing self.old)
            × (response.new.items ≡ response.old.items)
            × ((command : List ℕ) → 261 < length command → ⊥)) }
        ensures room { RESPONSE_ROOM ≤ vec_capacity response.new }
        ensures called { self.new.app ≡ self.old.app }
    {
        refuse(word(0x67, 0x00), response);
        Ok(Requests::default())
    }
}
