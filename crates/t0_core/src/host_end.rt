//! The terminal's end of one TPDU, which opens it and follows the card's procedure bytes.
ghost use Rattle.std.specs.Prelude.{◌≡◌, ℕ, ◌+◌, ◌≤◌, ◌<◌, List, [], ◌∷◌, ◌++◌, true, OnOk, OnErr, IfErr, IsErrOf, MatchResult, IsOk, length, take, drop, IfOk, is_ok, false, if◌then◌else◌, ◌⊎◌, ◌↔◌, Some, None};
ghost use Rattle.std.specs.Option.{option_map};
ghost use Rattle.std.specs.Result.{result_err};
ghost use Rattle.apdu_core.specs.HeaderBytes.{ins_is_valid};
ghost use Rattle.apdu_core.specs.StatusWord.{StatusWord, count};
ghost use Rattle.t0_core.specs.declared.host_end.HostStage.TheVariants.{Awaiting, Moving};
ghost use Rattle.t0_core.specs.declared.direction.Direction.TheVariants.{ToCard, FromCard};
ghost use Rattle.t0_core.specs.DataSent.{sent_by_now, sent_in, Tells};
ghost use Rattle.t0_core.specs.HostSide.{IsInRange, IsStage, data_sent, turn_of, data_turn, data_due, after_turn, moving, fault_of, data_fault, procedure_fault, step_of, after_fault, after_taking, data_in, gathered};
ghost use Rattle.t0_core.specs.HostView.{host_of, direction_of, content_of};
ghost use Rattle.t0_core.specs.HostMark.{HasOnly, with_data};
ghost use Rattle.t0_core.specs.TpduBytes.{asked_by, asked_of, due_by};
ghost use Rattle.t0_core.specs.Buffers.{HandsOut, IsDataTurn, IsDataTaken, Steps, Taker, TakesNoData};
ghost use Rattle.t0_core.specs.HostAnswer.{is_start, may_come, excess, answer_fault, after_answer_fault, Gives};

mod in_place;

use crate::answer_fault::AnswerFault;
use crate::data_sent::DataSent;
use crate::direction::Direction;
use crate::gather::Gather;
use crate::host_mark::HostMark;
use crate::line_fault::LineFault;
use crate::procedure::{moves, step_of};
use crate::request::{Request, Transfer, foreseen, opening_character};
use crate::whole_tpdu::WholeTpdu;
use apdu_core::{Header, Status, count};
use std::alloc::Allocator;
use std::marker::Model;

/// What a terminal's end does next, or an exchange of several TPDUs, for which `Done` and `Failed`
/// are about all of them.
#[derive(Clone, Copy, Debug, PartialEq, Eq)]
pub enum HostTurn {
    /// It sends this character.
    Sends(u8),
    /// It waits for a character of the card.
    Listens,
    /// The TPDU has ended with this status.
    Done(Status),
    /// An error has ended the TPDU: the end has failed for good.
    Failed,
}

/// The progress of a terminal's end in its TPDU.
#[derive(Clone, Copy, Debug, PartialEq, Eq)]
pub enum HostStage {
    /// `sent` characters of the header are sent, 0 to 4.
    SendingHeader { sent: usize },
    /// A procedure byte or SW1 follows; `moved` data characters have moved.
    Awaiting { moved: u16 },
    /// Data characters follow, in one direction, until `until` have moved.
    Moving { moved: u16, until: u16 },
    /// SW2 follows; `sent` is what was sent before SW1.
    AwaitingSecond { sw1: u8, sent: DataSent },
    /// The TPDU has ended.
    Ended { status: Status, sent: DataSent },
    /// An error has ended it.
    Broken,
}

/// The terminal's end of one TPDU (ISO/IEC 7816-3, 10.3).
///
/// `next` returns each character to send, and `take` takes each character of the card. The end
/// sends the header and then follows the card. After each procedure byte, the data that it asks for
/// move. The status ends the TPDU, whether or not all data have moved.
#[derive(Drop)]
pub struct HostEnd<'a> {
    request: Request<'a>,
    stage: HostStage,
}

impl<'a> Model for HostEnd<'a> {
    ghost use Rattle.t0_core.specs.HostSide.{Hosting, IsInRange};
    ghost use Rattle.t0_core.specs.HostView.{host_of};

    ghost Value = { Hosting };

    ghost view = { λ e. host_of e.request e.stage };

    ghost invariant = { λ e. IsInRange (host_of e.request e.stage) };
}

impl<'a> HostEnd<'a> {
    ghost use Rattle.t0_core.specs.declared.end.End.TheVariants.{Terminal, Card};
    ghost use Rattle.t0_core.specs.declared.host_end.HostStage.TheVariants.{SendingHeader, AwaitingSecond, Ended};
    ghost use Rattle.t0_core.specs.Dialogue.{Dialogue, Body};
    ghost use Rattle.t0_core.specs.Front.{Front, In_body, After_first, GoesOn, Ends, brought, fresh};
    ghost use Rattle.t0_core.specs.HostSide.{at_stage, HostStandsAt, IsRequest};
    ghost use Rattle.t0_core.specs.HostMark.{HasOnly, with_data};

    /// Makes an end that sends `header` and then `content`, 0 to 255 bytes, to the card. P3 is the
    /// number of these bytes. INS must be valid: not `6X` or `9X`.
    pub fn sending(header: Header, content: &'a [u8]) -> HostEnd<'a>
        requires valid { ins_is_valid header.ins ≡ true }
        requires counts { length content.now ≤ 255 }
        ensures header { result.header ≡ header }
        ensures p3 { result.p3 ≡ length content.now }
        ensures data { (result.direction ≡ ToCard) × (result.content ≡ content.now) }
        ensures stage { result.stage ≡ SendingHeader 0 }
        ensures stands { HostStandsAt result fresh }
        ensures keeps { IsRequest result }
    {
        HostEnd {
            request: Request {
                header,
                p3: content.len() as u8,
                transfer: Transfer::Sending(content),
            },
            stage: HostStage::SendingHeader { sent: 0 },
        }
    }

    /// Makes an end that sends `header` and asks the card for `wanted` bytes, 1 to 256. P3 states
    /// that number; `00` means 256. INS must be valid: not `6X` or `9X`.
    pub fn asking(header: Header, wanted: u16) -> HostEnd<'a>
        requires valid { ins_is_valid header.ins ≡ true }
        requires counts { (1 ≤ wanted) × (wanted ≤ 256) }
        ensures header { result.header ≡ header }
        ensures p3 { (count result.p3 ≡ wanted) × (result.p3 < 256) }
        ensures data { (result.direction ≡ FromCard) × (result.content ≡ []) }
        ensures stage { result.stage ≡ SendingHeader 0 }
        ensures stands { HostStandsAt result fresh }
        ensures keeps { IsRequest result }
    {
        HostEnd {
            request: Request {
                header,
                p3: (wanted % 256) as u8,
                transfer: Transfer::Asking,
            },
            stage: HostStage::SendingHeader { sent: 0 },
        }
    }

    /// Returns the progress of the end. `at` makes the same end from it and the data.
    pub fn mark(&self) -> HostMark
        ensures again { (content : List ℕ) → HasOnly content self.now
            → with_data result content ≡ self.now }
        ensures range { IsInRange self.now }
    {
        mark_of(self.request, self.stage)
    }

    /// Makes the end with this progress again. `content` is the data that the end sends; it must be
    /// as long as before. It is ignored if the end asks the card for data.
    pub fn at(mark: HostMark, content: &'a [u8]) -> HostEnd<'a>
        requires { IsInRange (with_data mark content.now) }
        ensures { result ≡ with_data mark content.now }
    {
        let HostMark {
            header,
            p3,
            direction,
            stage,
        } = mark;
        let transfer = match direction {
            Direction::ToCard => Transfer::Sending(content),
            Direction::FromCard => Transfer::Asking,
        };
        HostEnd {
            request: Request {
                header,
                p3,
                transfer,
            },
            stage,
        }
    }

    /// Returns what the end does next. A character that it returns counts as sent, so the next call
    /// returns what follows it. Any other result changes nothing.
    #[inline(always)]
    pub fn next(&mut self) -> HostTurn
        ensures turn { result ≡ turn_of self.old }
        ensures after { self.new ≡ at_stage self.old (after_turn self.old) }
        ensures keeps { IsRequest self.new }
        ensures stays { ((byte : ℕ) → result ≡ HostTurn.Sends byte → ⊥) → self.new ≡ self.old }

        // A dialogue that the end opened continues with it.
        ensures goes_on { (front : Front) (byte : ℕ) → HostStandsAt self.old front
            → result ≡ HostTurn.Sends byte →
            (new : Front) × GoesOn front (Terminal, byte) new × HostStandsAt self.new new }
    {
        turn_at(&self.request, &mut self.stage)
    }

    /// Returns the next character of the command's data, as `next` does, if the end sends one next.
    /// Otherwise returns `None`, and nothing changes. A loop over it sends what a procedure byte
    /// asked for.
    #[inline(always)]
    pub fn next_data(&mut self) -> Option<u8>
        ensures due { result ≡ data_due self.old }
        ensures sends { (byte : ℕ) → result ≡ Some byte → (turn_of self.old ≡ HostTurn.Sends byte)
            × (self.new ≡ at_stage self.old (after_turn self.old)) }
        ensures stays { result ≡ None → self.new ≡ self.old }
        ensures keeps { IsRequest self.new }

        // A dialogue that the end opened continues with it.
        ensures goes_on { (front : Front) (byte : ℕ) → HostStandsAt self.old front
            → result ≡ Some byte →
            (new : Front) × GoesOn front (Terminal, byte) new × HostStandsAt self.new new }
    {
        data_at(&self.request, &mut self.stage)
    }

    /// Writes the next characters of the command's data to `bytes`, like `next_data` one at a time,
    /// until none is to be sent or `bytes` is full. Returns how many; the rest of `bytes` is
    /// unchanged.
    #[inline(always)]
    pub fn next_data_bytes(&mut self, bytes: &mut [u8]) -> usize
        ensures handed { HandsOut IsDataTurn self.old bytes.old bytes.new result self.new }
        ensures all { (result ≡ length bytes.old) ⊎ (data_due self.new ≡ None) }
        ensures keeps { IsRequest self.new }
    {
        data_bytes_at(&self.request, &mut self.stage, bytes)
    }

    /// Returns the data characters that the end sends next, all in one run, and counts them as
    /// sent. Empty if it sends none next.
    #[inline(always)]
    pub fn next_data_run(&mut self) -> &'a [u8]
        ensures sent { Steps IsDataTurn self.old result.now self.new }
        ensures all { data_due self.new ≡ None }
        ensures keeps { IsRequest self.new }
    {
        data_run_at(&self.request, &mut self.stage)
    }

    /// Takes the card's data characters at the front of `bytes` in one run, like `take` one at a
    /// time, as many as are expected and `gather` has room for. Returns how many.
    #[inline(always)]
    pub fn take_data_bytes<A: Allocator>(&mut self, bytes: &[u8], gather: &mut Gather<A>) -> usize
        ensures taken { Steps IsDataTaken (record { host = self.old; room = gather.old })
            (take result bytes.now) (record { host = self.new; room = gather.new }) }
        ensures fits { result ≤ length bytes.now }
        ensures all { (result ≡ length bytes.now)
            ⊎ TakesNoData (record { host = self.new; room = gather.new }) }
        ensures keeps { IsRequest self.new }
    {
        take_run_at(&self.request, &mut self.stage, bytes, gather)
    }

    /// The status, if the TPDU has ended; `None` before SW2 and after a failure.
    #[inline(always)]
    pub fn status(&self) -> Option<Status>
        ensures { (status : StatusWord) → (result ≡ Some status)
            ↔ (turn_of self.now ≡ HostTurn.Done status) }
    {
        match self.stage {
            HostStage::Ended { status, .. } => Some(status),
            _ => None,
        }
    }

    /// Whether the end has sent all data of its TPDU: as many characters as P3 states, or none if
    /// it asks for data. The value at SW1 stays: a card may end a TPDU before it takes the data
    /// (ISO/IEC 7816-3, 10.3.3). `NotKnown` after the answer to the whole TPDU, and after
    /// `BadProcedure` or `TooLong`.
    pub fn data_sent(&self) -> DataSent
        ensures value { result ≡ data_sent self.now }
        ensures in_body { (b : Body) → HostStandsAt self.now (In_body b) → result ≡ sent_in b }
        ensures after_sw1 { (b : Body) (sw1 : ℕ) → HostStandsAt self.now (After_first b sw1)
            → Tells result (sent_in b) }
    {
        match self.stage {
            HostStage::SendingHeader { .. } => {
                sent_by_now(&self.request.transfer, self.request.p3, 0)
            }
            HostStage::Awaiting { moved } | HostStage::Moving { moved, .. } => {
                sent_by_now(&self.request.transfer, self.request.p3, moved)
            }
            HostStage::AwaitingSecond { sent, .. } | HostStage::Ended { sent, .. } => sent,
            HostStage::Broken => DataSent::NotKnown,
        }
    }

    /// Takes a character of the card: a procedure byte, data, SW1 or SW2. A data character is
    /// appended to `gather`; SW2 ends the TPDU.
    ///
    /// # Errors
    ///
    /// `gather` is unchanged after each (profile):
    ///
    /// - `BadProcedure`: a procedure byte or SW1 is expected, and the byte is neither; the end has
    ///   failed for good.
    /// - `TooLong`: a data character is expected, and `gather` is full; the end has failed for
    ///   good.
    /// - `AfterEnd`: the TPDU has ended or failed; the end is unchanged.
    /// - `NotListening`: the end has header or data characters to send first; it is unchanged.
    #[inline(always)]
    pub fn take<A: Allocator>(&mut self, byte: u8, gather: &mut Gather<A>) -> Result<(), LineFault>
        ensures fault { result_err result ≡ fault_of self.old gather.old byte }
        ensures refused { IfErr result
            (λ fault. (self.new ≡ at_stage self.old (after_fault self.old.stage fault))
            × (gather.new ≡ gather.old)) }
        ensures taken { OnOk result ((self.new ≡ at_stage self.old (after_taking self.old byte))
            × (gather.new ≡ gathered gather.old (data_in self.old.stage byte))) }
        ensures unchanged { IsErrOf result LineFault.NotListening
            ⊎ IsErrOf result LineFault.AfterEnd → self.new ≡ self.old }
        ensures failed { IfErr result (λ fault. (fault ≡ LineFault.NotListening)
            ⊎ (fault ≡ LineFault.AfterEnd) ⊎ (turn_of self.new ≡ HostTurn.Failed)) }
        ensures keeps { IsRequest self.new }

        // It takes each dialogue that it opened, if there is room for the data.
        ensures goes_on { (front new : Front) → HostStandsAt self.old front
            → GoesOn front (Card, byte) new →
            MatchResult result (λ _. HostStandsAt self.new new)
            (λ fault. fault ≡ LineFault.TooLong) }
        ensures came { (front : Front) → HostStandsAt self.old front → OnOk result (
            ((new : Front) × GoesOn front (Card, byte) new × HostStandsAt self.new new)
            ⊎ ((d : Dialogue) × Ends front (Card, byte) d
            × (turn_of self.new ≡ HostTurn.Done d.status))) }
        ensures gathers { (front new : Front) (before : List ℕ) → HostStandsAt self.old front
            → GoesOn front (Card, byte) new →
            gather.old.bytes ≡ before ++ brought front
            → OnOk result (gather.new.bytes ≡ before ++ brought new) }
        ensures ends { (front : Front) (d : Dialogue) → HostStandsAt self.old front
            → Ends front (Card, byte) d →
            IsOk result × (self.new.stage ≡ Ended d.status (data_sent self.old)) }
        ensures done { (front : Front) (d : Dialogue) → HostStandsAt self.old front
            → Ends front (Card, byte) d →
            (turn_of self.new ≡ HostTurn.Done d.status) × (gather.new ≡ gather.old) }
    {
        match take_at(&self.request, &mut self.stage, byte, gather) {
            Ok(()) => Ok(()),
            Err(fault) => {
                self.stage = stage_after_fault(self.stage, fault);
                Err(fault)
            }
        }
    }

    /// The whole TPDU, if it has not begun. `None` if a character was sent, if `take_up_to_sw2`
    /// took an answer, or if the end has failed.
    pub fn whole(&self) -> Option<WholeTpdu<'a>>
        ensures { option_map asked_of result ≡ due_by self.now }
    {
        if is_at_start(self.stage) {
            Some(whole_of(self.request))
        } else {
            None
        }
    }

    /// Takes the answer to the whole TPDU (`whole`), which a transport of whole TPDUs has carried
    /// out. `bytes`, the data from the card, are appended to `gather`. They may be fewer than P3
    /// states. The end takes only SW1 of `status`. It then waits for SW2, which `take` still has to
    /// get.
    ///
    /// # Errors
    ///
    /// The first that holds; `gather` is unchanged after each (profile):
    ///
    /// - `NotDue`: the TPDU has begun, ended or failed; the end is unchanged.
    /// - `NotAsked`: the TPDU asks for no data, and `bytes` is not empty; the end is unchanged.
    /// - `TooMany`: `bytes` is longer than P3 states (`00`: 256); the end is unchanged.
    /// - `TooLong`: `gather` has too little room; the end has failed for good.
    pub fn take_up_to_sw2<A: Allocator>(
        &mut self,
        bytes: &[u8],
        status: Status,
        gather: &mut Gather<A>,
    ) -> Result<(), AnswerFault>
        ensures fault { result_err result ≡ answer_fault self.old gather.old bytes.now }
        ensures refused { IfErr result
            (λ fault. (self.new ≡ at_stage self.old (after_answer_fault self.old.stage fault))
            × (gather.new ≡ gather.old)) }
        ensures taken { OnOk result ((self.new
            ≡ at_stage self.old (AwaitingSecond status.0 DataSent.NotKnown))
            × (gather.new ≡ gathered gather.old bytes.now)) }
        ensures unchanged { IsErrOf result AnswerFault.NotDue
            ⊎ IsErrOf result AnswerFault.NotAsked
            ⊎ IsErrOf result AnswerFault.TooMany → self.new ≡ self.old }
        ensures failed { IsErrOf result AnswerFault.TooLong
            → turn_of self.new ≡ HostTurn.Failed }
        ensures keeps { IsRequest self.new }

        // It takes each dialogue that it opened, if there is room for the data.
        ensures stands { (d : Dialogue) → Gives self.old d bytes.now status →
            MatchResult result (λ _. HostStandsAt self.new (After_first d.body status.0))
            (λ fault. (fault ≡ AnswerFault.NotDue) ⊎ (fault ≡ AnswerFault.TooLong)) }

        // What it takes, or has no room for, is what some dialogue gives that it opened.
        ensures given { MatchResult result (λ _. (d : Dialogue) × Gives self.old d bytes.now status)
            (λ fault. fault ≡ AnswerFault.TooLong
            → (d : Dialogue) × Gives self.old d bytes.now status) }
    {
        let sw1 = status.sw1();
        match take_answer(&self.request, self.stage, bytes, gather) {
            Ok(()) => {
                self.stage = HostStage::AwaitingSecond {
                    sw1,
                    sent: DataSent::NotKnown,
                };
                Ok(())
            }
            Err(fault) => {
                self.stage = stage_after_answer_fault(self.stage, fault);
                Err(fault)
            }
        }
    }
}

/// Whether all data are sent once `moved` data characters have moved.
fn sent_by_now(transfer: &Transfer, p3: u8, moved: u16) -> DataSent
    ensures { result ≡ sent_by_now (direction_of transfer.now) p3 moved }
{
    match transfer {
        Transfer::Sending(_) if moved != u16::from(p3) => DataSent::NotAll,
        _ => DataSent::All,
    }
}

/// Whether no character of the TPDU was sent yet.
fn is_at_start(stage: HostStage) -> bool
    ensures { result ≡ is_start stage }
{
    matches!(stage, HostStage::SendingHeader { sent: 0 })
}

/// The whole TPDU that the end opens.
fn whole_of<'a>(request: Request<'a>) -> WholeTpdu<'a>
    ensures fields { (result.header ≡ request.entry.header) × (result.p3 ≡ request.entry.p3) }
    ensures content { result.content.now ≡ content_of request.entry.transfer }
    ensures comes { result.may_come
        ≡ may_come (direction_of request.entry.transfer) request.entry.p3 }
{
    let Request {
        header,
        p3,
        transfer,
    } = request;
    let content: &[u8] = match transfer {
        Transfer::Sending(content) => content,
        Transfer::Asking => &[],
    };
    WholeTpdu {
        header,
        p3,
        content,
        may_come: may_come(&transfer, p3),
    }
}

/// Appends the data of an answer to the gather, or returns an error and changes nothing.
fn take_answer<A: Allocator>(
    request: &Request,
    stage: HostStage,
    bytes: &[u8],
    gather: &mut Gather<A>,
) -> Result<(), AnswerFault>
    ensures fault { result_err result
        ≡ answer_fault (host_of request.now stage) gather.old bytes.now }
    ensures gathered { gather.new
        ≡ (if is_ok result then gathered gather.old bytes.now else gather.old) }
{
    if !is_at_start(stage) {
        return Err(AnswerFault::NotDue);
    }
    if bytes.len() > usize::from(may_come(&request.transfer, request.p3)) {
        return Err(excess(&request.transfer));
    }
    if !gather.has_room(bytes.len()) {
        return Err(AnswerFault::TooLong);
    }
    gather.extend(bytes);
    Ok(())
}

/// The most data characters that may come back.
fn may_come(transfer: &Transfer, p3: u8) -> u16
    ensures { result ≡ may_come (direction_of transfer.now) p3 }
{
    match transfer {
        Transfer::Sending(_) => 0,
        Transfer::Asking => count(p3),
    }
}

/// The error if more of them come back.
fn excess(transfer: &Transfer) -> AnswerFault
    ensures { result ≡ excess (direction_of transfer.now) }
{
    match transfer {
        Transfer::Sending(_) => AnswerFault::NotAsked,
        Transfer::Asking => AnswerFault::TooMany,
    }
}

/// The stage after such an error.
fn stage_after_answer_fault(stage: HostStage, fault: AnswerFault) -> HostStage
    ensures { result ≡ after_answer_fault stage fault }
{
    match fault {
        AnswerFault::TooLong | AnswerFault::Stalled => HostStage::Broken,
        _ => stage,
    }
}

/// The progress of an end at this stage.
fn mark_of(request: Request, stage: HostStage) -> HostMark
    ensures { (content : List ℕ) → HasOnly content (host_of request.entry stage)
        → with_data result content ≡ host_of request.entry stage }
{
    let Request {
        header,
        p3,
        transfer,
    } = request;
    let direction = match transfer {
        Transfer::Sending(_) => Direction::ToCard,
        Transfer::Asking => Direction::FromCard,
    };
    HostMark {
        header,
        p3,
        direction,
        stage,
    }
}

/// Returns the data character that an end at this stage sends, if any, and moves the stage past it.
#[inline(always)]
fn data_at(request: &Request, stage: &mut HostStage) -> Option<u8>
    requires { IsInRange (host_of request.now stage.old) }
    ensures due { result ≡ data_due (host_of request.now stage.old) }
    ensures sends { (byte : ℕ) → result ≡ Some byte →
        (turn_of (host_of request.now stage.old) ≡ HostTurn.Sends byte)
        × (stage.new ≡ after_turn (host_of request.now stage.old)) }
    ensures stays { result ≡ None → stage.new ≡ stage.old }
    ensures listens { (moved until : ℕ) → stage.old ≡ Moving moved until → result ≡ None →
        (turn_of (host_of request.now stage.old) ≡ HostTurn.Listens)
        × (after_turn (host_of request.now stage.old) ≡ stage.old) }
    ensures range { IsInRange (host_of request.now stage.new) }
{
    match stage {
        HostStage::Moving { moved, until } => match request.transfer {
            Transfer::Sending(content) => {
                let (place, end) = (*moved, *until);
                if place + 1 < end {
                    *moved = place + 1;
                } else {
                    *stage = HostStage::Awaiting { moved: place + 1 };
                }
                Some(content[usize::from(place)])
            }
            Transfer::Asking => None,
        },
        _ => None,
    }
}

/// Writes the data characters that an end at this stage sends to a buffer, in one run, as many as
/// it has room for.
#[inline(always)]
fn data_bytes_at(request: &Request, stage: &mut HostStage, bytes: &mut [u8]) -> usize
    requires { IsInRange (host_of request.now stage.old) }
    ensures handed { HandsOut IsDataTurn (host_of request.now stage.old) bytes.old bytes.new result
        (host_of request.now stage.new) }
    ensures all { (result ≡ length bytes.old)
        ⊎ (data_due (host_of request.now stage.new) ≡ None) }
    ensures range { IsInRange (host_of request.now stage.new) }
{
    match stage {
        HostStage::Moving { moved, until } => match request.transfer {
            Transfer::Sending(content) => {
                let (place, end) = (*moved, *until);
                let count = hand_run(content, place, end, bytes);
                *stage = stage_moving(place + count as u16, end);
                count
            }
            Transfer::Asking => 0,
        },
        _ => 0,
    }
}

/// Returns the data characters that an end at this stage sends next, all in one run.
#[inline(always)]
fn data_run_at<'a>(request: &Request<'a>, stage: &mut HostStage) -> &'a [u8]
    requires { IsInRange (host_of request.now stage.old) }
    ensures sent { Steps IsDataTurn (host_of request.now stage.old) result.now
        (host_of request.now stage.new) }
    ensures all { data_due (host_of request.now stage.new) ≡ None }
    ensures range { IsInRange (host_of request.now stage.new) }
{
    match stage {
        HostStage::Moving { moved, until } => match request.transfer {
            Transfer::Sending(content) => {
                let (place, end) = (*moved, *until);
                *stage = stage_moving(end, end);
                &content[place as usize..end as usize]
            }
            Transfer::Asking => &[],
        },
        _ => &[],
    }
}

/// Copies the data at `place..end` to the front of a buffer, as many as it has room for. Returns
/// how many.
#[inline(always)]
fn hand_run(content: &[u8], place: u16, end: u16, bytes: &mut [u8]) -> usize
    requires { (place ≤ end) × (end ≤ length content.now) }
    ensures fits { result ≤ length bytes.old }
    ensures within { place + result ≤ end }
    ensures all { (result ≡ length bytes.old) ⊎ (place + result ≡ end) }
    ensures copied { bytes.new ≡ take result (drop place content.now) ++ drop result bytes.old }
{
    let count = ((end - place) as usize).min(bytes.len());
    let from = &content[place as usize..];
    bytes[..count].copy_from_slice(&from[..count]);
    count
}

/// Returns what an end at this stage does next. A character to send moves the stage past it.
#[inline(always)]
fn turn_at(request: &Request, stage: &mut HostStage) -> HostTurn
    requires { IsInRange (host_of request.now stage.old) }
    ensures turn { result ≡ turn_of (host_of request.now stage.old) }
    ensures after { stage.new ≡ after_turn (host_of request.now stage.old) }
    ensures range { IsInRange (host_of request.now stage.new) }
{
    match stage {
        HostStage::Moving { .. } => match data_at(request, stage) {
            Some(byte) => HostTurn::Sends(byte),
            None => HostTurn::Listens,
        },
        HostStage::SendingHeader { sent } => {
            let byte = opening_character(&request.header, request.p3, *sent);
            if *sent < 4 {
                *sent += 1;
            } else {
                *stage = HostStage::Awaiting { moved: 0 };
            }
            HostTurn::Sends(byte)
        }
        HostStage::Awaiting { .. } | HostStage::AwaitingSecond { .. } => HostTurn::Listens,
        HostStage::Ended { status, .. } => HostTurn::Done(*status),
        HostStage::Broken => HostTurn::Failed,
    }
}

/// Data characters move until `until`, if they have not yet.
#[inline(always)]
fn stage_moving(moved: u16, until: u16) -> HostStage
    ensures value { result ≡ moving moved until }
    ensures range { (n : ℕ) → moved ≤ until → until ≤ n → IsStage n result }
{
    if moved < until {
        HostStage::Moving { moved, until }
    } else {
        HostStage::Awaiting { moved }
    }
}

/// Takes a character of the card and moves the stage past it, or returns an error and changes
/// nothing.
#[inline(always)]
fn take_at<A: Allocator>(
    request: &Request,
    stage: &mut HostStage,
    byte: u8,
    gather: &mut Gather<A>,
) -> Result<(), LineFault>
    requires { IsInRange (host_of request.now stage.old) }
    ensures fault { result_err result ≡ fault_of (host_of request.now stage.old) gather.old byte }
    ensures next { OnOk result ((stage.new ≡ after_taking (host_of request.now stage.old) byte)
        × IsInRange (host_of request.now stage.new)) }
    ensures gathered { gather.new
        ≡ (if is_ok result then gathered gather.old (data_in stage.old byte) else gather.old) }
    ensures refused { OnErr result (stage.new ≡ stage.old) }
{
    match stage {
        HostStage::Moving { moved, until } => {
            let (place, end) = (*moved, *until);
            take_data(&request.transfer, byte, gather)?;
            if place + 1 < end {
                *moved = place + 1;
            } else {
                *stage = HostStage::Awaiting { moved: place + 1 };
            }
        }
        HostStage::SendingHeader { .. } => return Err(LineFault::NotListening),
        HostStage::Awaiting { moved } => {
            *stage = after_procedure_byte(request, *moved, byte)?;
        }
        HostStage::AwaitingSecond { sw1, sent } => {
            *stage = HostStage::Ended {
                status: Status::new(*sw1, byte).unwrap(),
                sent: *sent,
            };
        }
        HostStage::Ended { .. } | HostStage::Broken => return Err(LineFault::AfterEnd),
    }
    Ok(())
}

/// The stage after a character where a procedure byte or SW1 is expected.
fn after_procedure_byte(request: &Request, moved: u16, byte: u8) -> Result<HostStage, LineFault>
    requires { IsInRange (host_of request.now (Awaiting moved)) }
    ensures fault { result_err result
        ≡ procedure_fault (step_of request.now.header.ins byte) byte }
    ensures next { IfOk result
        (λ next. (next ≡ after_taking (host_of request.now (Awaiting moved)) byte)
        × IsInRange (host_of request.now next)) }
{
    if let Some(step) = step_of(request.header.ins, byte) {
        let remain = foreseen(&request.transfer, request.p3) - moved;
        return Ok(stage_moving(moved, moved + moves(step, remain)));
    }
    match byte {
        0x61..=0x6F | 0x90..=0x9F => Ok(HostStage::AwaitingSecond {
            sw1: byte,
            sent: sent_by_now(&request.transfer, request.p3, moved),
        }),
        _ => Err(LineFault::BadProcedure(byte)),
    }
}

/// Takes the data characters of the card that an end at this stage expects, in one run, as many as
/// the buffer has room for.
#[inline(always)]
fn take_run_at<A: Allocator>(
    request: &Request,
    stage: &mut HostStage,
    bytes: &[u8],
    gather: &mut Gather<A>,
) -> usize
    requires { IsInRange (host_of request.now stage.old) }
    ensures taken { Steps IsDataTaken
        (record { host = host_of request.now stage.old; room = gather.old })
        (take result bytes.now)
        (record { host = host_of request.now stage.new; room = gather.new }) }
    ensures fits { result ≤ length bytes.now }
    ensures all { (result ≡ length bytes.now)
        ⊎ TakesNoData (record { host = host_of request.now stage.new; room = gather.new }) }
    ensures range { IsInRange (host_of request.now stage.new) }
{
    match stage {
        HostStage::Moving { moved, until } => match request.transfer {
            Transfer::Asking => {
                let (place, end) = (*moved, *until);
                let count = gather.extend_up_to(bytes, (end - place) as usize);
                *stage = stage_moving(place + count as u16, end);
                count
            }
            Transfer::Sending(_) => 0,
        },
        _ => 0,
    }
}

/// Takes a character of the card and moves the stage past it, if it is data and there is room.
/// Returns whether it has; if not, nothing changes.
#[inline(always)]
fn take_data_at<A: Allocator>(
    request: &Request,
    stage: &mut HostStage,
    byte: u8,
    gather: &mut Gather<A>,
) -> bool
    requires { IsInRange (host_of request.now stage.old) }
    ensures taken { result ≡ true → IsDataTaken
        (record { host = host_of request.now stage.old; room = gather.old }) byte
        (record { host = host_of request.now stage.new; room = gather.new }) }
    ensures none { result ≡ false → TakesNoData
        (record { host = host_of request.now stage.old; room = gather.old }) }
    ensures listens { result ≡ true →
        turn_of (host_of request.now stage.new) ≡ HostTurn.Listens }
    ensures stays { result ≡ false → (stage.new ≡ stage.old) × (gather.new ≡ gather.old) }
    ensures range { IsInRange (host_of request.now stage.new) }
    ensures limit { gather.new.limit ≡ gather.old.limit }
{
    match stage {
        HostStage::Moving { moved, until } => match request.transfer {
            Transfer::Asking => {
                let (place, end) = (*moved, *until);
                if gather.is_full() {
                    return false;
                }
                gather.push(byte);
                if place + 1 < end {
                    *moved = place + 1;
                } else {
                    *stage = HostStage::Awaiting { moved: place + 1 };
                }
                true
            }
            Transfer::Sending(_) => false,
        },
        _ => false,
    }
}

/// Takes a data character of the card.
#[inline(always)]
fn take_data<A: Allocator>(
    transfer: &Transfer,
    byte: u8,
    gather: &mut Gather<A>,
) -> Result<(), LineFault>
    ensures fault { result_err result ≡ data_fault (direction_of transfer.now) gather.old }
    ensures gathered { gather.new
        ≡ (if is_ok result then gathered gather.old (byte ∷ []) else gather.old) }
{
    if let Transfer::Sending(_) = transfer {
        return Err(LineFault::NotListening);
    }
    if gather.is_full() {
        return Err(LineFault::TooLong);
    }
    gather.push(byte);
    Ok(())
}

/// The stage after an error: one that the end can't continue from breaks it.
fn stage_after_fault(stage: HostStage, fault: LineFault) -> HostStage
    ensures { result ≡ after_fault stage fault }
{
    match fault {
        LineFault::BadProcedure(_) | LineFault::TooLong | LineFault::Stalled => {
            HostStage::Broken
        }
        LineFault::NotListening | LineFault::AfterEnd => stage,
    }
}
