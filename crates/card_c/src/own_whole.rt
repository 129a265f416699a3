//! Whole TPDUs and whole commands at a card of an own application.
ghost use Rattle.std.specs.Prelude.{◌≡◌, ◌≤◌, [], length, true};
ghost use Rattle.command_card.specs.declared.own.Wanted.{Wanted};
ghost use Rattle.command_card.specs.Wanted.{is_free, wanted_by};
ghost use Rattle.card_c.specs.Codes.{gt_ok};
ghost use Rattle.card_c.specs.Copying.{IsCopied};
ghost use Rattle.card_c.specs.OwnCalls.{IsWantedIn, is_response};
ghost use Rattle.card_c.specs.OwnWhole.{Begins, Continues, OwnCommand, OwnCommandOne, OwnTpdu, OwnTpduOne, TriesBytes, TriesCommand, TriesTpdu};

use crate::card_apdu::refuse;
use crate::card_side::CardSide;
use crate::card_tpdu::pass;
use crate::code;
use crate::copied::copied;
use crate::own::is_response;
use crate::own_side::{OwnSide, Whole};
use apdu_core::{ApduFault, Command};
use command_card::{
    CommandCard, Given, Need, Wanted, forget, needed_by, respond_to, wanted_by_command,
    wanted_by_tpdu, wanted_next,
};
use std::alloc::Global;
use t0_core::{CardEnd, Gather, PlanQueue, WholeTpdu};

/// How far a whole TPDU or command went, and the code.
pub(crate) enum Went {
    /// It waits for the application. Nothing has changed.
    Waits(i32),
    /// It is refused. Nothing has changed.
    Refused(i32),
    /// It is carried out, or the card was reset in it.
    Over(i32),
}

/// What is wanted of the caller at an end, if these bytes wait as a whole.
pub(crate) fn wanted_in<'a>(
    end: &'a CardEnd<CommandCard<Given>>,
    whole: Whole,
    asked: &'a Vec<u8>,
) -> Wanted<'a>
    ensures { IsWantedIn whole asked.now.items end.now result }
{
    match whole {
        Whole::Nothing => wanted_next(end),
        Whole::Null => Wanted::Nothing,
        Whole::Tpdu => match WholeTpdu::read(asked) {
            Some(tpdu) => wanted_by_tpdu(end, &tpdu),
            None => Wanted::Nothing,
        },
        Whole::Command => match Command::read(asked) {
            Ok(command) => wanted_by_command(end, &command),
            Err(_) => Wanted::Nothing,
        },
    }
}

/// Whether a response is wanted of the caller at an end, if these bytes wait as a whole.
pub(crate) fn wants_response(
    end: &CardEnd<CommandCard<Given>>,
    whole: Whole,
    asked: &Vec<u8>,
) -> bool
    ensures { (w : Wanted) × IsWantedIn whole asked.now.items end.now w
        × (result ≡ is_response w) }
{
    if !matches!(whole, Whole::Tpdu) {
        return is_response(wanted_in(end, whole, asked));
    }
    match WholeTpdu::read(asked) {
        Some(tpdu) => needs_response(end, &tpdu),
        None => false,
    }
}

/// Whether a response is wanted before an end at rest carries out this TPDU.
fn needs_response(end: &CardEnd<CommandCard<Given>>, tpdu: &WholeTpdu<'_>) -> bool
    ensures { result ≡ is_response
        (wanted_by end.now.card tpdu.now.header tpdu.now.p3 tpdu.now.content.now) }
{
    matches!(
        needed_by(end.card(), tpdu.header, tpdu.p3, tpdu.content),
        Need::AtHeader | Need::AfterData
    )
}

/// Carries out a whole TPDU, or the one that waits, if the card is one of an own application.
#[inline(never)]
pub(crate) fn tpdu_own(
    alloc: Global,
    side: &mut CardSide,
    tpdu: &[u8],
    answer: &mut [u8],
    len: &mut usize,
) -> i32
    ensures { OwnTpdu tpdu.now answer.old len.old answer.new len.new side.old result side.new }
{
    let CardSide::Own(own) = side else {
        return code::STATE;
    };
    tpdu_one(alloc, own, tpdu, answer, len)
}

fn tpdu_one(
    alloc: Global,
    own: &mut OwnSide,
    tpdu: &[u8],
    answer: &mut [u8],
    len: &mut usize,
) -> i32
    ensures { OwnTpduOne tpdu.now answer.old len.old answer.new len.new own.old result own.new }
{
    match own.whole {
        Whole::Nothing => {
            let went = try_tpdu(alloc, &mut own.end, &mut own.plans, tpdu, answer, len);
            begin(own, Whole::Tpdu, tpdu, went)
        }
        Whole::Tpdu => tpdu_again(alloc, own, tpdu, answer, len),
        Whole::Command | Whole::Null => code::STATE,
    }
}

/// Continues the TPDU that waits.
fn tpdu_again(
    alloc: Global,
    own: &mut OwnSide,
    tpdu: &[u8],
    answer: &mut [u8],
    len: &mut usize,
) -> i32
    requires { own.old.whole ≡ Whole.Tpdu }
    ensures { OwnTpduOne tpdu.now answer.old len.old answer.new len.new own.old result own.new }
{
    if !tpdu.is_empty() {
        return code::STATE;
    }
    let went = try_tpdu(alloc, &mut own.end, &mut own.plans, &own.asked, answer, len);
    proceed(own, went)
}

/// Carries out a whole TPDU at an end at rest, unless the application is needed first.
#[inline(always)]
fn try_tpdu(
    alloc: Global,
    end: &mut CardEnd<CommandCard<Given>>,
    plans: &mut PlanQueue,
    tpdu: &[u8],
    answer: &mut [u8],
    len: &mut usize,
) -> Went
    ensures { TriesTpdu tpdu.now answer.old len.old answer.new len.new (end.old, plans.old)
        result (end.new, plans.new) }
{
    if !end.is_at_rest() {
        return Went::Refused(code::STATE);
    }
    let Some(asked) = WholeTpdu::read(tpdu) else {
        return Went::Refused(code::NO_TPDU);
    };
    let may_come = usize::from(asked.may_come);
    if answer.len() < may_come + 2 {
        return Went::Refused(code::BUFFER);
    }
    match needed_by(end.card(), asked.header, asked.p3, asked.content) {
        Need::Nothing => {}
        Need::Direction => return Went::Waits(code::HEADER),
        Need::AtHeader | Need::AfterData => return Went::Waits(code::COMMAND),
    }
    match Gather::with_room(alloc, may_come) {
        Ok(mut gather) => Went::Over(pass(end, plans, tpdu, &mut gather, answer, len)),
        Err(_) => Went::Refused(code::MEMORY),
    }
}

/// Carries out a whole command, or the one that waits, if the card is one of an own application.
#[inline(never)]
pub(crate) fn command_own(
    side: &mut CardSide,
    apdu: &[u8],
    response: &mut [u8],
    len: &mut usize,
) -> i32
    ensures { OwnCommand apdu.now response.old len.old response.new len.new side.old
        result side.new }
{
    let CardSide::Own(own) = side else {
        return code::STATE;
    };
    command_one(own, apdu, response, len)
}

fn command_one(own: &mut OwnSide, apdu: &[u8], response: &mut [u8], len: &mut usize) -> i32
    ensures { OwnCommandOne apdu.now response.old len.old response.new len.new own.old
        result own.new }
{
    match own.whole {
        Whole::Nothing => {
            let went = try_bytes(&mut own.end, apdu, response, len);
            begin(own, Whole::Command, apdu, went)
        }
        Whole::Command => command_again(own, apdu, response, len),
        Whole::Tpdu | Whole::Null => code::STATE,
    }
}

/// Continues the command that waits.
fn command_again(own: &mut OwnSide, apdu: &[u8], response: &mut [u8], len: &mut usize) -> i32
    requires { own.old.whole ≡ Whole.Command }
    ensures { OwnCommandOne apdu.now response.old len.old response.new len.new own.old
        result own.new }
{
    if !apdu.is_empty() {
        return code::STATE;
    }
    let went = try_bytes(&mut own.end, &own.asked, response, len);
    proceed(own, went)
}

/// Carries out a whole command at an end at rest, unless the application is needed first.
fn try_bytes(
    end: &mut CardEnd<CommandCard<Given>>,
    apdu: &[u8],
    response: &mut [u8],
    len: &mut usize,
) -> Went
    ensures { TriesBytes apdu.now response.old len.old response.new len.new end.old result end.new }
{
    if !end.is_at_rest() {
        return Went::Refused(code::STATE);
    }
    match Command::read(apdu) {
        Ok(command) => try_command(end, command, response, len),
        Err(ApduFault::BadLength) => Went::Refused(refuse(response, len)),
        Err(fault) => Went::Refused(code::of_command(fault)),
    }
}

fn try_command(
    end: &mut CardEnd<CommandCard<Given>>,
    command: Command<'_>,
    response: &mut [u8],
    len: &mut usize,
) -> Went
    ensures { TriesCommand command.entry response.old len.old response.new len.new end.old
        result end.new }
{
    let le = command.le();
    let most = usize::from(le.unwrap_or(0));
    if response.len() < most + 2 {
        return Went::Refused(code::BUFFER);
    }
    match wanted_by_command(end, &command) {
        Wanted::Nothing => {}
        Wanted::Direction(_) => return Went::Waits(code::HEADER),
        Wanted::Response(_) => return Went::Waits(code::COMMAND),
    }
    match respond_to(end, command.header(), command.data(), le) {
        Ok(()) => {
            hand_over(end, response, len);
            Went::Over(code::OK)
        }
        Err(_) => Went::Refused(code::MEMORY),
    }
}

/// Writes the response to the last command, for which there is room. The card then holds none.
fn hand_over(end: &mut CardEnd<CommandCard<Given>>, response: &mut [u8], len: &mut usize)
    requires fits { length end.old.card.fresh ≤ length response.old }
    requires free { is_free end.old.card.ready ≡ true }
    ensures stage { end.new.stage ≡ end.old.stage }
    ensures emptied { end.new.card ≡ record end.old.card { fresh = [] } }
    ensures copied { IsCopied end.old.card.fresh response.old gt_ok response.new }
    ensures counted { len.new ≡ length end.old.card.fresh }
{
    copied(end.card().response(), response, len);
    forget(end);
}

/// Keeps the bytes that wait after their first try, and returns the code.
fn begin(own: &mut OwnSide, kind: Whole, bytes: &[u8], went: Went) -> i32
    requires { own.old.whole ≡ Whole.Nothing }
    ensures line { (own.new.end ≡ own.old.end) × (own.new.plans ≡ own.old.plans) }
    ensures begins { Begins kind bytes.now own.old went result own.new }
{
    let code = match went {
        Went::Waits(code) => code,
        Went::Refused(code) | Went::Over(code) => return code,
    };
    own.drop_whole();
    if own.asked.extend_from_slice(bytes).is_err() {
        return code::MEMORY;
    }
    own.whole = kind;
    code
}

/// Drops the bytes that waited once they are carried out, and returns the code.
fn proceed(own: &mut OwnSide, went: Went) -> i32
    ensures line { (own.new.end ≡ own.old.end) × (own.new.plans ≡ own.old.plans) }
    ensures continues { Continues own.old went result own.new }
{
    match went {
        Went::Waits(code) | Went::Refused(code) => code,
        Went::Over(code) => {
            own.drop_whole();
            code
        }
    }
}
