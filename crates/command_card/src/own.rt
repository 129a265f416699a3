//! The card of an application whose responses come from outside, and what it asks its caller.
ghost use Rattle.std.specs.Prelude.{◌≡◌, ◌+◌, ◌≤◌, [], length, vec_capacity, None, Some, true, false, OnOk, OnErr, IfOk, IfErr};
ghost use Rattle.apdu_core.specs.declared.header.Header.{Header};
ghost use Rattle.apdu_core.specs.CommandBytes.{IsCommand};
ghost use Rattle.command_card.specs.declared.given.Directions.TheVariants as way;
ghost use Rattle.t1_core.specs.declared.applet.TheConstants.{RESPONSE_ROOM};
ghost use Rattle.command_card.specs.Given.{Gives, at_rest, settled, takes_data};
ghost use Rattle.command_card.specs.Giving.{Decided, Gave, LeadsBy, LeadsStill, Responded, TookBack, reaches, shown_in};
ghost use Rattle.command_card.specs.AtT1.{Responds, may_bring};
ghost use Rattle.command_card.specs.View.{WaitsFor, standing_in, state_of, prepared_in};
ghost use Rattle.command_card.specs.Wanted.{AwaitsOwn, IsNotTaken, IsTaken, IsWanted, RespondsAs, forgotten_by, is_free, is_known, may_decide, need_in, taken_back, wanted_as, wanted_by, wanted_for, wanted_with};

use crate::answer::{pending_for, wipe_ended, word};
use crate::applet::{hand_out, shown, write};
use crate::application::{Application, GET_RESPONSE, OWN_RESPONSE_LIMIT};
use crate::card::CommandCard;
use crate::given::{Directions, Given};
use crate::ready::{Ready, Waiting};
use apdu_core::{Command, Header, Status, count};
use std::alloc::AllocError;
use t0_core::{CardEnd, Open, WholeTpdu};
use t1_core::{RESPONSE_ROOM, wipe};

/// What the application is needed for, to answer a header.
#[derive(Clone, Copy, Debug, PartialEq, Eq)]
pub enum Need {
    /// Nothing: the card answers alone.
    Nothing,
    /// Which way the data go.
    Direction,
    /// A response, before the first character of the answer.
    AtHeader,
    /// A response, after the data to the card.
    AfterData,
}

/// What a card of given responses asks its caller before it continues.
#[derive(Drop)]
pub enum Wanted<'a> {
    /// Nothing.
    Nothing,
    /// Which way the data of this header go.
    Direction(Header),
    /// The response to this command.
    Response(Command<'a>),
}

/// Why a card does not take what it is given. Nothing has changed.
#[derive(Clone, Copy, Debug, PartialEq, Eq)]
pub enum GiveFault {
    /// It has a response already, or has begun to answer.
    NotWanted,
    /// The response exceeds `OWN_RESPONSE_LIMIT`.
    TooLong,
    /// The status is `61XX` or `6CXX`, which are the card's own.
    CardsOwn,
    /// Memory ran out.
    OutOfMemory,
}

/// Whether the way of the next data is known.
fn is_known(directions: Directions) -> bool
    ensures { result ≡ is_known directions }
{
    !matches!(directions, Directions::Unknown)
}

impl Open for CommandCard<Given> {}

impl CommandCard<Given> {
    ghost use Rattle.std.specs.Prelude.{◌≡◌};
    ghost use Rattle.command_card.specs.View.{standing_in, prepared_in};

    /// What the application is needed for, to answer this header, whether or not a response was
    /// given already. Nothing for INS `6X` or `9X`, for GET RESPONSE, and for the header and P3
    /// that get a response after `6CXX`.
    pub fn need(&self, header: Header, p3: u8) -> Need
        ensures { result ≡ need_in (standing_in at_rest self.now) header p3 }
    {
        let pending = pending_for(&self.waiting, &self.kept, header, p3);
        if !header.ins_is_valid() || pending.is_some() || header.ins == GET_RESPONSE {
            return Need::Nothing;
        }
        if !is_known(self.application.directions()) {
            return Need::Direction;
        }
        if self.application.takes_data(header) {
            return Need::AfterData;
        }
        Need::AtHeader
    }

    /// Takes the response to the command in progress.
    ///
    /// # Errors
    /// In this order; nothing has changed:
    /// - `NotWanted`: the card has a response, or has begun to answer.
    /// - `TooLong`: the response exceeds `OWN_RESPONSE_LIMIT`.
    /// - `CardsOwn`: the status is `61XX` or `6CXX`.
    /// - `OutOfMemory`: memory ran out.
    pub fn give(&mut self, bytes: &[u8], status: Status) -> Result<(), GiveFault>
        ensures prepared { prepared_in at_rest settled self.new
            ≡ prepared_in at_rest settled self.old }
        ensures failed { OnErr result (self.new ≡ self.old) }
        ensures done { OnOk result (IsTaken self.old bytes.now status self.new) }
        ensures why { IfErr result (λ f. IsNotTaken self.old bytes.now status f) }
        ensures awaits { AwaitsOwn self.old }
    {
        let is_open = matches!(self.ready, Ready::Nothing | Ready::Receives { .. });
        if !is_open || self.application.has_response() {
            return Err(GiveFault::NotWanted);
        }
        if bytes.len() > OWN_RESPONSE_LIMIT {
            return Err(GiveFault::TooLong);
        }
        if status.announces().is_some() || status.corrects().is_some() {
            return Err(GiveFault::CardsOwn);
        }
        match self.application.give(bytes, status) {
            Ok(()) => Ok(()),
            Err(_) => Err(GiveFault::OutOfMemory),
        }
    }

    /// States which way the data of the next header go. Returns `true` if the card did not know,
    /// and no TPDU is in progress at it (from `header` to `answered`). Otherwise returns `false`,
    /// and nothing has changed.
    pub fn decide(&mut self, to_card: bool) -> bool
        ensures prepared { prepared_in at_rest settled self.new
            ≡ prepared_in at_rest settled self.old }
        ensures when { result ≡ may_decide self.old }
        ensures failed { result ≡ false → self.new ≡ self.old }
        ensures done { result ≡ true → self.new
            ≡ record self.old { app = record self.old.app { directions = way.Known to_card } } }
    {
        if !matches!(self.ready, Ready::Nothing) || is_known(self.application.directions()) {
            return false;
        }
        self.application.decide(to_card);
        true
    }

    /// Takes back the response that was given, and what was stated about the next header, for a
    /// command that is dropped. While a TPDU is in progress at the card (from `header` to
    /// `answered`) nothing changes.
    pub fn take_back(&mut self)
        ensures prepared { prepared_in at_rest settled self.new
            ≡ prepared_in at_rest settled self.old }
        ensures done { self.new ≡ taken_back self.old }
    {
        if let Ready::Nothing = self.ready {
            self.application.drop_response();
        }
    }

    /// Carries out a whole command, which settles. `response` has what the card answers. Le is 1 to
    /// 256, or `None`. If the direction of its data is not known, they count as the card's.
    ///
    /// # Errors
    /// - `AllocError`: memory ran out, a TPDU is in progress at the card, this is no command, or
    ///   the response that it needs was not given. Nothing is carried out, and the card no longer
    ///   holds the last response, as after `forget`.
    pub fn respond(
        &mut self,
        header: Header,
        bytes: &[u8],
        le: Option<u16>,
    ) -> Result<(), AllocError>
        ensures prepared { prepared_in at_rest settled self.new
            ≡ prepared_in at_rest settled self.old }
        ensures failed { OnErr result (self.new ≡ forgotten_by self.old) }
        ensures done { OnOk result (RespondsAs
            (standing_in at_rest self.old)
            (record { header = header; content = bytes.now; le = le }) self.new.fresh
            (standing_in at_rest self.new)) }
        ensures whole { OnOk result
            (IsCommand (record { header = header; content = bytes.now; le = le })) }
        ensures free { OnOk result
            ((is_free self.old.ready ≡ true) × (self.new.ready ≡ self.old.ready)) }
        ensures short { OnOk result (length self.new.fresh ≤ may_bring le + 2) }
    {
        if !matches!(self.ready, Ready::Nothing) {
            return Err(AllocError);
        }
        wipe(&mut self.fresh);
        let Some(command) = Command::new(header, bytes, le) else {
            return Err(AllocError);
        };
        self.fresh.reserve(RESPONSE_ROOM)?;
        self.waiting = respond_given(
            &mut self.application,
            &mut self.kept,
            self.waiting,
            &command,
            &mut self.fresh,
        )?;
        self.application.forget_direction();
        wipe_ended(&self.waiting, &mut self.kept);
        Ok(())
    }

    /// What the card answers to the last whole command: data, SW1 and SW2. It stays until the next,
    /// `forget`, a TPDU or a reset.
    pub fn response(&self) -> &[u8]
        ensures { result.now ≡ self.now.fresh }
    {
        &self.fresh
    }

    /// Drops what `response` returns. Its bytes are overwritten, which is tested and not proved.
    /// While a TPDU is in progress at the card (from `header` to `answered`) nothing changes.
    pub fn forget(&mut self)
        ensures prepared { prepared_in at_rest settled self.new
            ≡ prepared_in at_rest settled self.old }
        ensures stands { standing_in at_rest self.new ≡ standing_in at_rest self.old }
        ensures done { self.new ≡ forgotten_by self.old }
    {
        if matches!(self.ready, Ready::Nothing) {
            wipe(&mut self.fresh);
        }
    }
}

/// Carries out a command with the response that was given for it, and writes what goes out.
///
/// # Errors
/// - `AllocError`: no response was given, and it needs one; nothing has changed.
fn respond_given(
    application: &mut Given,
    kept: &mut Vec<u8>,
    waiting: Waiting,
    command: &Command<'_>,
    response: &mut Vec<u8>,
) -> Result<Waiting, AllocError>
    requires { (response.old.items ≡ []) × (RESPONSE_ROOM ≤ vec_capacity response.old) }
    ensures failed { OnErr result ((application.new ≡ application.old)
        × (kept.new.items ≡ kept.old.items) × (response.new.items ≡ [])) }
    ensures responds { IfOk result (λ left. Responds takes_data Gives
        (state_of (at_rest application.old) kept.old.items waiting)
        command.now response.new.items
        (state_of (at_rest application.new) kept.new.items left)) }
    ensures under { IfOk result (λ left. (h : Header) → WaitsFor left h → ⊥) }
    ensures short { length response.new.items ≤ may_bring command.now.le + 2 }
{
    let header = command.header();
    let le = command.le();
    if header.ins == GET_RESPONSE {
        return match waiting {
            Waiting::Fetch { from, status } => Ok(hand_out(kept, from, status, le, response)),
            Waiting::Nothing | Waiting::Repeat { .. } => {
                write(&[], word(0x69, 0x85), response);
                Ok(Waiting::Nothing)
            }
        };
    }
    if shown(application.takes_data(header), command).is_none() {
        write(&[], word(0x67, 0x00), response);
        return Ok(Waiting::Nothing);
    }
    let status = application.hand_over(kept)?;
    Ok(hand_out(kept, 0, status, le, response))
}

/// The body of `needed_by`, which `wanted_by` shares without a call.
#[inline(always)]
fn need_by(card: &CommandCard<Given>, header: Header, p3: u8, bytes: &[u8]) -> Need
    ensures needs { wanted_by card.now header p3 bytes.now
        ≡ wanted_as result header p3 bytes.now }
    ensures whole { result ≡ Need.AfterData → length bytes.now ≡ p3 }
{
    let is_given = card.application.has_response();
    if !header.ins_is_valid() || is_given && is_known(card.application.directions()) {
        return Need::Nothing;
    }
    match card.need(header, p3) {
        Need::AfterData if bytes.len() != p3 as usize => Need::Nothing,
        need => need,
    }
}

/// What is still needed of the application at a header, if `bytes` are the data to the card. A
/// response is not needed if one was given, or if the terminal sends data and `bytes` are not P3
/// in number.
#[inline(never)]
pub fn needed_by(card: &CommandCard<Given>, header: Header, p3: u8, bytes: &[u8]) -> Need
    ensures { wanted_by card.now header p3 bytes.now ≡ wanted_as result header p3 bytes.now }
{
    need_by(card, header, p3, bytes)
}

/// What is wanted of the caller at a header, if these are its data. Most characters end no header.
#[inline(never)]
fn wanted_by<'a>(card: &CommandCard<Given>, header: Header, p3: u8, bytes: &'a [u8]) -> Wanted<'a>
    ensures { result ≡ wanted_by card.now header p3 bytes.now }
{
    if !header.ins_is_valid() {
        return Wanted::Nothing;
    }
    match need_by(card, header, p3, bytes) {
        Need::Nothing => Wanted::Nothing,
        Need::Direction => Wanted::Direction(header),
        Need::AtHeader => { Wanted::Response(Command::new(header, &[], Some(count(p3))).unwrap()) }
        Need::AfterData => Wanted::Response(Command::new(header, bytes, None).unwrap()),
    }
}

/// What is wanted once the data are there.
fn wanted_after<'a>(card: &CommandCard<Given>, bytes: &'a [u8]) -> Wanted<'a>
    ensures { result ≡ wanted_with card.now (Some bytes.now) }
{
    let Ready::Receives { header, p3, .. } = card.ready else {
        return Wanted::Nothing;
    };
    let is_whole = header.ins_is_valid() && bytes.len() == p3 as usize;
    if card.application.has_response() || !is_whole {
        return Wanted::Nothing;
    }
    Wanted::Response(Command::new(header, bytes, None).unwrap())
}

/// What is wanted of the caller before the card's end sends its next character.
#[inline(always)]
pub fn wanted_next<'a>(end: &'a CardEnd<CommandCard<Given>>) -> Wanted<'a>
    ensures { IsWanted end.now result }
{
    if let Some((header, p3)) = end.whole_header() {
        return wanted_by(end.card(), header, p3, &[]);
    }
    match end.whole_data() {
        Some(bytes) => wanted_after(end.card(), bytes),
        None => Wanted::Nothing,
    }
}

/// What is wanted of the caller before an end at rest carries out this TPDU.
pub fn wanted_by_tpdu<'a>(end: &CardEnd<CommandCard<Given>>, tpdu: &WholeTpdu<'a>) -> Wanted<'a>
    ensures { result ≡ wanted_by end.now.card tpdu.now.header tpdu.now.p3 tpdu.now.content.now }
{
    wanted_by(end.card(), tpdu.header, tpdu.p3, tpdu.content)
}

/// What is wanted of the caller before an end at rest carries out this command.
pub fn wanted_by_command<'a>(end: &CardEnd<CommandCard<Given>>, command: &Command<'a>) -> Wanted<'a>
    ensures { result ≡ wanted_for end.now.card.app command.now }
{
    let header = command.header();
    if header.ins == GET_RESPONSE {
        return Wanted::Nothing;
    }
    let application = &end.card().application;
    if !is_known(application.directions()) {
        return Wanted::Direction(header);
    }
    if application.has_response() {
        return Wanted::Nothing;
    }
    match shown(application.takes_data(header), command) {
        Some(told) => Wanted::Response(told),
        None => Wanted::Nothing,
    }
}

/// Gives the response to the command in progress, with the errors of `CommandCard::give`.
pub fn give(
    end: &mut CardEnd<CommandCard<Given>>,
    bytes: &[u8],
    status: Status,
) -> Result<(), GiveFault>
    ensures stage { end.new.stage ≡ end.old.stage }
    ensures failed { OnErr result (end.new.card ≡ end.old.card) }
    ensures done { OnOk result (IsTaken end.old.card bytes.now status end.new.card) }
    ensures why { IfErr result (λ f. IsNotTaken end.old.card bytes.now status f) }
    ensures led { OnOk result ((w : Wanted) → IsWanted end.old w → LeadsBy
        (Gave (shown_in w) (record { bytes = bytes.now; status = status })) end.old end.new) }
    ensures still { OnErr result (LeadsStill end.old end.new) }
{
    lend_give(end, bytes, status)
}

/// The call of `give`, and what the card has prepared.
fn lend_give(
    end: &mut CardEnd<CommandCard<Given>>,
    bytes: &[u8],
    status: Status,
) -> Result<(), GiveFault>
    ensures stage { end.new.stage ≡ end.old.stage }
    ensures prepared { prepared_in at_rest settled end.new.card
        ≡ prepared_in at_rest settled end.old.card }
    ensures failed { OnErr result (end.new.card ≡ end.old.card) }
    ensures done { OnOk result (IsTaken end.old.card bytes.now status end.new.card) }
    ensures why { IfErr result (λ f. IsNotTaken end.old.card bytes.now status f) }
    ensures awaits { AwaitsOwn end.old.card }
{
    end.with_card(|card| card.give(bytes, status))
}

/// States which way the data of the next header go (`CommandCard::decide`).
pub fn decide(end: &mut CardEnd<CommandCard<Given>>, to_card: bool) -> bool
    ensures stage { end.new.stage ≡ end.old.stage }
    ensures when { result ≡ may_decide end.old.card }
    ensures failed { result ≡ false → end.new.card ≡ end.old.card }
    ensures done { result ≡ true → end.new.card ≡ record end.old.card {
      app = record end.old.card.app { directions = way.Known to_card };
    } }
    ensures led { result ≡ true → LeadsBy (Decided to_card) end.old end.new }
    ensures still { result ≡ false → LeadsStill end.old end.new }
{
    lend_decide(end, to_card)
}

/// The call of `decide`, and what the card has prepared.
fn lend_decide(end: &mut CardEnd<CommandCard<Given>>, to_card: bool) -> bool
    ensures stage { end.new.stage ≡ end.old.stage }
    ensures prepared { prepared_in at_rest settled end.new.card
        ≡ prepared_in at_rest settled end.old.card }
    ensures when { result ≡ may_decide end.old.card }
    ensures failed { result ≡ false → end.new.card ≡ end.old.card }
    ensures done { result ≡ true → end.new.card ≡ record end.old.card {
      app = record end.old.card.app { directions = way.Known to_card };
    } }
{
    end.with_card(|card| card.decide(to_card))
}

/// Takes back what was given for a command that is dropped (`CommandCard::take_back`).
pub fn take_back(end: &mut CardEnd<CommandCard<Given>>)
    ensures stage { end.new.stage ≡ end.old.stage }
    ensures done { end.new.card ≡ taken_back end.old.card }
    ensures led { is_free end.old.card.ready ≡ true → LeadsBy TookBack end.old end.new }
    ensures still { is_free end.old.card.ready ≡ false → LeadsStill end.old end.new }
{
    lend_take_back(end);
}

/// The call of `take_back`, and what the card has prepared.
fn lend_take_back(end: &mut CardEnd<CommandCard<Given>>)
    ensures stage { end.new.stage ≡ end.old.stage }
    ensures prepared { prepared_in at_rest settled end.new.card
        ≡ prepared_in at_rest settled end.old.card }
    ensures done { end.new.card ≡ taken_back end.old.card }
{
    end.with_card(|card| card.take_back())
}

/// Carries out a whole command at an end at rest, as `CommandCard::respond`.
///
/// # Errors
/// - `AllocError`: as there; nothing is carried out.
pub fn respond_to(
    end: &mut CardEnd<CommandCard<Given>>,
    header: Header,
    bytes: &[u8],
    le: Option<u16>,
) -> Result<(), AllocError>
    ensures stage { end.new.stage ≡ end.old.stage }
    ensures prepared { prepared_in at_rest settled end.new.card
        ≡ prepared_in at_rest settled end.old.card }
    ensures failed { OnErr result (end.new.card ≡ forgotten_by end.old.card) }
    ensures done { OnOk result (RespondsAs
        (standing_in at_rest end.old.card)
        (record { header = header; content = bytes.now; le = le }) end.new.card.fresh
        (standing_in at_rest end.new.card)) }
    ensures whole { OnOk result
        (IsCommand (record { header = header; content = bytes.now; le = le })) }
    ensures free { OnOk result ((is_free end.old.card.ready ≡ true)
        × (end.new.card.ready ≡ end.old.card.ready)) }
    ensures short { OnOk result (length end.new.card.fresh ≤ may_bring le + 2) }
    ensures led { OnOk result (LeadsBy (Responded
        (record { header = header; content = bytes.now; le = le })
        (reaches (standing_in at_rest end.old.card)
        (record { header = header; content = bytes.now; le = le })) end.new.card.fresh)
        end.old end.new) }
    ensures still { OnErr result (LeadsStill end.old end.new) }
{
    lend_respond(end, header, bytes, le)
}

/// The call of `respond`.
fn lend_respond(
    end: &mut CardEnd<CommandCard<Given>>,
    header: Header,
    bytes: &[u8],
    le: Option<u16>,
) -> Result<(), AllocError>
    ensures stage { end.new.stage ≡ end.old.stage }
    ensures prepared { prepared_in at_rest settled end.new.card
        ≡ prepared_in at_rest settled end.old.card }
    ensures failed { OnErr result (end.new.card ≡ forgotten_by end.old.card) }
    ensures done { OnOk result (RespondsAs
        (standing_in at_rest end.old.card)
        (record { header = header; content = bytes.now; le = le }) end.new.card.fresh
        (standing_in at_rest end.new.card)) }
    ensures whole { OnOk result
        (IsCommand (record { header = header; content = bytes.now; le = le })) }
    ensures free { OnOk result ((is_free end.old.card.ready ≡ true)
        × (end.new.card.ready ≡ end.old.card.ready)) }
    ensures short { OnOk result (length end.new.card.fresh ≤ may_bring le + 2) }
{
    end.with_card(|card| card.respond(header, bytes, le))
}

/// Drops what the card answered to the last whole command (`CommandCard::forget`).
pub fn forget(end: &mut CardEnd<CommandCard<Given>>)
    ensures stage { end.new.stage ≡ end.old.stage }
    ensures stands { standing_in at_rest end.new.card ≡ standing_in at_rest end.old.card }
    ensures done { end.new.card ≡ forgotten_by end.old.card }
    ensures still { LeadsStill end.old end.new }
{
    lend_forget(end);
}

/// The call of `forget`, and what the card has prepared.
fn lend_forget(end: &mut CardEnd<CommandCard<Given>>)
    ensures stage { end.new.stage ≡ end.old.stage }
    ensures prepared { prepared_in at_rest settled end.new.card
        ≡ prepared_in at_rest settled end.old.card }
    ensures stands { standing_in at_rest end.new.card ≡ standing_in at_rest end.old.card }
    ensures done { end.new.card ≡ forgotten_by end.old.card }
{
    end.with_card(|card| card.forget())
}
