//! How the card answers commands: verdicts, statuses, and what waits afterwards.
ghost use Rattle.std.specs.Prelude.{◌≡◌, ◌≤◌, ◌<◌, ℕ, List, [], length, drop, true, false, Some, None, if◌then◌else◌};
ghost use Rattle.std.specs.Option.{option_map};
ghost use Rattle.apdu_core.specs.declared.header.Header.{Header};
ghost use Rattle.apdu_core.specs.HeaderBytes.{ins_is_valid};
ghost use Rattle.apdu_core.specs.StatusWord.{IsStatusWord, count};
ghost use Rattle.t0_core.specs.Meaning.{IsReceiving, Decides, taken_with};
ghost use Rattle.t0_core.specs.CardContract.{IsRefusal, Judges};
ghost use Rattle.command_card.specs.Calls.{CallsAfter, CallsAt, CallsOnce, settles_in};
ghost use Rattle.command_card.specs.Carrying.{Makes, taking};
ghost use Rattle.command_card.specs.State.{Hand, same_header, pending_for, announcing, fetch_left, handed, refusing};
ghost use Rattle.command_card.specs.Meaning.{Does, kind_in};
ghost use Rattle.command_card.specs.View.{left_of, state_of, ask_of, prepared_of, buffer_of, IsReady, IsEmptied, Prepares, MaySend, WaitsFor, LeavesFor};

use crate::application::{Application, GET_RESPONSE, OWN_RESPONSE_LIMIT};
use crate::ready::{Ending, Ready, Waiting};
use apdu_core::{Command, Header, Status, count};
use t0_core::Verdict;
use t1_core::wipe;

/// The status word of these two bytes.
pub(crate) fn word(sw1: u8, sw2: u8) -> Status
    requires { IsStatusWord (sw1, sw2) }
    ensures { result ≡ (sw1, sw2) }
{
    Status::new(sw1, sw2).unwrap()
}

fn same_header(first: Header, header: Header) -> bool
    ensures { result ≡ same_header first header }
{
    first.cla == header.cla
        && first.ins == header.ins
        && first.p1 == header.p1
        && first.p2 == header.p2
}

/// The pending response, if this header asks for it: where its bytes begin, and its status.
pub(crate) fn pending_for(
    waiting: &Waiting,
    kept: &Vec<u8>,
    header: Header,
    p3: u8,
) -> Option<(usize, Status)>
    ensures { option_map {U = Hand}
        (λ p. record { bytes = drop p.0 kept.now.items; status = p.1 }) result
        ≡ pending_for (left_of kept.now.items waiting.now) header p3 }
{
    match waiting {
        Waiting::Fetch { from, status } if header.ins == GET_RESPONSE => Some((*from, *status)),
        Waiting::Repeat {
            header: first,
            status,
        } if same_header(*first, header) && kept.len() == p3 as usize => { Some((0, *status)) }
        _ => None,
    }
}

/// The status if `left` bytes of a response with this status are left.
pub(crate) fn announcing(left: usize, status: Status, cut: u16) -> Status
    requires { (1 ≤ cut) × (cut ≤ 256) }
    ensures { (rest : List ℕ) → length rest ≡ left → result ≡ announcing rest status cut }
{
    if left == 0 {
        status
    } else {
        word(0x61, (left.min(cut as usize) % 256) as u8)
    }
}

/// What is pending if `left` bytes are left, from this place on.
pub(crate) fn fetch_left(left: usize, from: usize, status: Status) -> Waiting
    ensures left { (bytes : List ℕ) → length (drop from bytes) ≡ left →
        left_of bytes result ≡ fetch_left (drop from bytes) status }
    ensures under { (h : Header) → WaitsFor result h → ⊥ }
{
    if left == 0 {
        Waiting::Nothing
    } else {
        Waiting::Fetch { from, status }
    }
}

/// The application carries out a command. Returns its status, and whether it takes effect.
pub(crate) fn carried_out<A: Application>(
    application: &mut A,
    command: Command<'_>,
    response: &mut Vec<u8>,
) -> (Status, bool)
    ensures stands { A.standing application.new ≡ A.standing application.old }
    ensures makes { Makes A.Does (A.standing application.old) command.entry response.new.items
        result.0 (if result.1 then A.next application.new else A.standing application.old) }
    ensures called { CallsOnce A.Called application.old command.entry result.1 application.new }
{
    wipe(response);
    let Ok(status) = application.carry_out(command, response) else {
        wipe(response);
        return (word(0x65, 0x81), false);
    };
    if response.len() > OWN_RESPONSE_LIMIT {
        wipe(response);
        return (word(0x6F, 0x00), false);
    }
    (status, true)
}

/// The command that was carried out takes effect, if it is to.
#[inline(always)]
pub(crate) fn settle_if<A: Application>(settles: bool, application: &mut A)
    ensures stands { A.standing application.new
        ≡ (if settles then A.next application.old else A.standing application.old) }
    ensures called { CallsAfter A.Called application.old settles application.new }
{
    if settles {
        application.settle();
    }
}

/// Drops the kept bytes, as `wipe`, if nothing is pending.
pub(crate) fn wipe_ended(waiting: &Waiting, kept: &mut Vec<u8>)
    ensures left { left_of kept.new.items waiting.now ≡ left_of kept.old.items waiting.now }
    ensures emptied { IsEmptied waiting.now kept.new.items }
{
    if matches!(waiting, Waiting::Nothing) {
        wipe(kept);
    }
}

/// Nothing is sent but a status, and nothing is pending.
fn refused(status: Status, settles: bool, fresh: bool) -> (Verdict, Ready)
    ensures refuses { result.0 ≡ Verdict.Refuse status }
    ensures prepares { (bytes : List ℕ) (header : Header) (p3 cut : ℕ) →
        Prepares bytes (ask_of header p3 cut) (refusing status) settles fresh result.0 result.1 }
    ensures ending { settles_in result.1 ≡ settles }
    ensures under { (h : Header) → LeavesFor result.1 h → ⊥ }
{
    let ending = Ending {
        settles,
        fresh,
        left: Waiting::Nothing,
    };
    (Verdict::Refuse(status), Ready::Leaves { ending })
}

/// Hands over a response, from this place on. `ending` is for `6CXX`.
fn handed(
    header: Header,
    p3: u8,
    cut: u16,
    bytes: &Vec<u8>,
    from: usize,
    status: Status,
    ending: Ending,
) -> (Verdict, Ready)
    requires { (1 ≤ cut) × (cut ≤ 256) }
    ensures prepares { Prepares bytes.now.items (ask_of header p3 cut)
        (handed (left_of bytes.now.items ending.left) (drop from bytes.now.items) status
        (count p3) cut)
        ending.settles ending.fresh result.0 result.1 }
    ensures ending { settles_in result.1 ≡ ending.settles }
    ensures under { (h : Header) → LeavesFor result.1 h → WaitsFor ending.left h }
{
    let left = bytes.len().saturating_sub(from);
    let asked = count(p3) as usize;
    if left == 0 {
        return refused(status, ending.settles, ending.fresh);
    }
    if left < asked {
        return (
            Verdict::Refuse(word(0x6C, left as u8)),
            Ready::Leaves { ending },
        );
    }
    let rest = left - asked;
    let ending = Ending {
        settles: ending.settles,
        fresh: ending.fresh,
        left: fetch_left(rest, from + asked, status),
    };
    let ready = Ready::Sends {
        header,
        p3,
        cut,
        from,
        status: announcing(rest, status, cut),
        ending,
    };
    (Verdict::Send, ready)
}

/// The verdict on a header, and what is prepared.
pub(crate) fn judged<A: Application>(
    application: &mut A,
    kept: &Vec<u8>,
    waiting: Waiting,
    fresh: &mut Vec<u8>,
    header: Header,
    p3: u8,
    cut: u16,
) -> (Verdict, Ready)
    requires cut { (1 ≤ cut) × (cut ≤ 256) }
    requires under { (h : Header) → WaitsFor waiting h → MaySend A.takes h }
    ensures stands { A.standing application.new ≡ A.standing application.old }
    ensures judged { Judges (Does A.takes A.Does)
        (state_of (A.standing application.old) kept.now.items waiting) (ask_of header p3 cut)
        result.0 (prepared_of (A.standing application.new) (A.next application.new)
        kept.now.items fresh.new.items result.1)
        × IsReady A.takes A.Does (A.standing application.new) (A.next application.new)
        kept.now.items fresh.new.items waiting result.1 }
    ensures called { CallsAt A.Called (kind_in A.takes
        (state_of (A.standing application.old) kept.now.items waiting) header p3) header p3
        application.old (settles_in result.1) application.new }
    ensures invalid { ins_is_valid header.ins ≡ false → IsRefusal result.0 }
    ensures under { (h : Header) → LeavesFor result.1 h → MaySend A.takes h }
{
    if !header.ins_is_valid() {
        return refused(word(0x6D, 0x00), false, false);
    }
    if let Some(place) = pending_for(&waiting, kept, header, p3) {
        let ending = Ending {
            settles: false,
            fresh: false,
            left: waiting,
        };
        return handed(header, p3, cut, kept, place.0, place.1, ending);
    }
    if header.ins == GET_RESPONSE {
        return refused(word(0x69, 0x85), false, false);
    }
    if application.takes_data(header) {
        return (Verdict::Receive, Ready::Receives { header, p3, cut });
    }
    let command = Command::new(header, &[], Some(count(p3))).unwrap();
    let (status, settles) = carried_out(application, command, fresh);
    let ending = Ending {
        settles,
        fresh: true,
        left: Waiting::Repeat { header, status },
    };
    handed(header, p3, cut, fresh, 0, status, ending)
}

/// The status after the data of a command, and what is prepared.
pub(crate) fn took<A: Application>(
    application: &mut A,
    kept: &Vec<u8>,
    waiting: Waiting,
    fresh: &mut Vec<u8>,
    ready: Ready,
    content: &[u8],
) -> (Status, Ready)
    requires receives { IsReceiving (prepared_of (A.standing application.old)
        (A.next application.old) kept.now.items fresh.old.items ready)
        (λ ask. length content.now ≡ ask.p3) }
    requires fits { IsReady A.takes A.Does (A.standing application.old) (A.next application.old)
        kept.now.items fresh.old.items waiting ready }
    ensures stands { A.standing application.new ≡ A.standing application.old }
    ensures decided { IsReceiving (prepared_of (A.standing application.old)
        (A.next application.old) kept.now.items fresh.old.items ready) (λ ask.
        Decides (Does A.takes A.Does)
        (state_of (A.standing application.old) kept.now.items waiting) ask.cut
        (taken_with ask content.now result.0)
        (prepared_of (A.standing application.new) (A.next application.new) kept.now.items
        fresh.new.items result.1)) }
    ensures fits { IsReady A.takes A.Does (A.standing application.new) (A.next application.new)
        kept.now.items fresh.new.items waiting result.1 }
    ensures called { IsReceiving (prepared_of (A.standing application.old)
        (A.next application.old) kept.now.items fresh.old.items ready) (λ ask.
        CallsOnce A.Called application.old (taking ask.header content.now)
        (settles_in result.1) application.new) }
    ensures under { (h : Header) → LeavesFor result.1 h → MaySend A.takes h }
{
    let Ready::Receives { header, cut, .. } = ready else {
        unreachable!()
    };
    let command = Command::new(header, content, None).unwrap();
    let (status, settles) = carried_out(application, command, fresh);
    let left = fresh.len();
    let ending = Ending {
        settles,
        fresh: true,
        left: fetch_left(left, 0, status),
    };
    (announcing(left, status, cut), Ready::Leaves { ending })
}

/// The buffer that an answer is in.
#[inline(always)]
pub(crate) fn buffer<'a>(kept: &'a Vec<u8>, fresh: &'a Vec<u8>, is_fresh: bool) -> &'a Vec<u8>
    ensures { result.now.items ≡ buffer_of is_fresh kept.now.items fresh.now.items }
{
    if is_fresh { fresh } else { kept }
}
