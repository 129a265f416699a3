//! A third party on the line, which reads the characters of both ends.
ghost use Rattle.std.specs.Prelude.{◌≡◌, ◌≤◌, ◌<◌, ◌++◌, ◌∷◌, [], List, length, take, OnErr, IfOk, MatchResult, ◌↔◌, ℕ, IfErr, true};
ghost use Rattle.std.specs.Result.{result_err};
ghost use Rattle.t0_core.specs.Front.{Front, GoesOn, Ends};
ghost use Rattle.t0_core.specs.Dialogue.{Dialogue};
ghost use Rattle.t0_core.specs.TapSide.{TapStandsAt, Takes, Makes, Concludes, IsReadFront, IsSaid, foreseen_by, begun_by, begun_at, moved_to, after_opening, due_at, tap_fault_at, tap_byte_fault, tap_procedure_fault, heard_at, heard_procedure, after_hearing, afresh, may_come_from, other_end, HasTurn};
ghost use Rattle.t0_core.specs.TapHistory.{HasHeard, HearsOn};
ghost use Rattle.t0_core.specs.History.{Event, Reset};
ghost use Rattle.t0_core.specs.TapView.{place_of, IsHeldAt};

use crate::direction::Direction;
use crate::end::End;
use crate::heard::{Due, Heard, Said};
use crate::plan::Step;
use crate::procedure::{moves, step_of};
use crate::tap_fault::TapFault;
use apdu_core::{Header, Status};
use std::marker::Model;

/// The progress of a tap in a TPDU.
#[derive(Clone, Copy, Debug, PartialEq, Eq)]
pub enum TapStage {
    /// `taken` characters of CLA INS P1 P2 so far, 0 to 4.
    Opening { bytes: [u8; 4], taken: usize },
    /// A procedure byte or SW1 follows.
    Awaiting { said: Said },
    /// Data characters follow, until `until` have moved.
    Moving { said: Said, until: u16 },
    /// SW2 follows.
    AwaitingSecond { said: Said, sw1: u8 },
}

/// A third party on the line, which hears both ends (ISO/IEC 7816-3, 10.3).
///
/// A tap knows neither the terminal's intent nor the card's plan. It follows each dialogue by its
/// characters alone, and reads the direction of data from the sender of the first data character.
/// If INS or its complement may start data in either direction, the next character decides. P3 `00`
/// states 256 bytes from the card or none to it; a tap then expects data from the card.
#[derive(Drop)]
pub struct Tap {
    stage: TapStage,
}

impl Model for Tap {
    ghost use Rattle.t0_core.specs.TapSide.{Place};
    ghost use Rattle.t0_core.specs.TapHistory.{HasHeard, HearsOn};
    ghost use Rattle.t0_core.specs.History.{Event, Reset};
    ghost use Rattle.t0_core.specs.TapView.{place_of, IsHeldAt};

    ghost Value = { Place };

    ghost view = { λ t. place_of t.stage };

    ghost invariant = { λ t. IsHeldAt t.stage };
}

impl Tap {
    /// Makes a tap before any character.
    pub fn new() -> Tap
        ensures afresh { result ≡ afresh }
        ensures led { HasHeard [] result }
    {
        Tap { stage: FRESH }
    }

    /// The kind of character that the tap expects next.
    pub fn due(&self) -> Due
        ensures { result ≡ due_at self.now }
    {
        due_at(self.stage)
    }

    /// Takes a character that `from` sent, and returns what it was. Data characters are counted,
    /// not stored.
    ///
    /// # Errors
    ///
    /// After each, the tap is unchanged (profile):
    ///
    /// - `OutOfTurn`: the other end sends the next character.
    /// - `BadProcedure`: a procedure byte or SW1 is expected, and the byte is neither. If INS is
    ///   `6X` or `9X`, only NULL is a procedure byte.
    pub fn hear(&mut self, from: End, byte: u8) -> Result<Heard, TapFault>
        ensures fault { result_err result ≡ tap_fault_at self.old from byte }
        ensures refused { OnErr result (self.new ≡ self.old) }
        ensures taken { IfOk result (λ heard. (heard ≡ heard_at self.old from byte)
            × (self.new ≡ after_hearing self.old from byte)) }

        // It takes each dialogue that it can read, and returns what each character is.
        ensures goes_on { (front new : Front) → TapStandsAt self.old front
            → GoesOn front (from, byte) new → IsReadFront new →
            MatchResult result (λ heard. Makes heard front (from, byte) new) (λ _. ⊥)
            × TapStandsAt self.new new }
        ensures came { IfOk result (λ heard. (front : Front) → TapStandsAt self.old front →
            Takes heard front (from, byte) self.new) }
        ensures ends { (front : Front) (d : Dialogue) → TapStandsAt self.old front
            → Ends front (from, byte) d →
            MatchResult result (λ heard. Concludes heard d) (λ _. ⊥) × (self.new ≡ afresh) }

        // A refused character is out of turn exactly if the other end sends next.
        ensures reason { IfErr result (λ fault. (front : Front) → TapStandsAt self.old front →
            (fault ≡ TapFault.OutOfTurn) ↔ HasTurn (other_end from) front) }

        // The state after a data character does not depend on its value.
        ensures forgets { IfOk result (λ heard. (direction : Direction) (other : ℕ) →
            heard ≡ Heard.Data direction → self.new ≡ after_hearing self.old from other) }

        // History: what the tap has heard, it has heard with this character.
        ensures led { (events : List Event) (led : HasHeard events self.old) →
            IfOk result (λ heard. HearsOn led heard (from, byte) self.new) }
    {
        if !due_at(self.stage).may_come_from(from) {
            return Err(TapFault::OutOfTurn);
        }
        let (stage, heard) = after(self.stage, from, byte)?;
        self.stage = stage;
        Ok(heard)
    }

    /// Drops the dialogue in progress. The tap then expects a header.
    pub fn reset(&mut self)
        ensures afresh { self.new ≡ afresh }
        ensures led { (events : List Event) → HasHeard events self.old →
            HasHeard (events ++ Reset ∷ []) self.new }
    {
        self.stage = FRESH;
    }
}

/// The start of a TPDU: no character of a header yet.
const FRESH: TapStage = TapStage::Opening {
    bytes: [0; 4],
    taken: 0,
};

/// The kind of character that is expected at this stage.
fn due_at(stage: TapStage) -> Due
    ensures { result ≡ due_at (place_of stage) }
{
    match stage {
        TapStage::Opening { .. } => Due::Header,
        TapStage::Awaiting { .. } => Due::Procedure,
        TapStage::Moving { said, .. } => Due::Data(said.way()),
        TapStage::AwaitingSecond { .. } => Due::SecondStatus,
    }
}

/// The stage after a character of an end that may send one, and what the character was.
fn after(stage: TapStage, from: End, byte: u8) -> Result<(TapStage, Heard), TapFault>
    requires held { IsHeldAt stage }
    requires turn { may_come_from (due_at (place_of stage)) from ≡ true }
    ensures fault { result_err result ≡ tap_byte_fault (place_of stage) byte }
    ensures taken { IfOk result (λ next.
        (place_of next.0 ≡ after_hearing (place_of stage) from byte)
        × (next.1 ≡ heard_at (place_of stage) from byte) × IsHeldAt next.0) }
{
    match stage {
        TapStage::Opening { bytes, taken } => Ok((
            after_opening(bytes, taken, byte),
            Heard::Header,
        )),
        TapStage::Awaiting { said } => after_procedure_byte(said, byte),
        TapStage::Moving { said, until } => {
            let direction = Direction::from_sender(from);
            Ok((
                moving(said.with_one_more(direction), until),
                Heard::Data(direction),
            ))
        }
        TapStage::AwaitingSecond { said, sw1 } => {
            let status = Status::new(sw1, byte).unwrap();
            Ok((FRESH, Heard::SecondStatus { said, status }))
        }
    }
}

/// The stage after one more character of CLA INS P1 P2 P3.
fn after_opening(mut bytes: [u8; 4], taken: usize, byte: u8) -> TapStage
    requires room { (length bytes ≡ 4) × (taken ≤ 4) }
    ensures value { place_of result ≡ after_opening (take taken bytes ++ byte ∷ []) }
    ensures held { IsHeldAt result }
{
    if taken < 4 {
        bytes[taken] = byte;
        return TapStage::Opening {
            bytes,
            taken: taken + 1,
        };
    }
    let [cla, ins, p1, p2] = bytes;
    TapStage::Awaiting {
        said: Said {
            header: Header { cla, ins, p1, p2 },
            p3: byte,
            direction: None,
            moved: 0,
        },
    }
}

/// The stage after a character of the card, where a procedure byte or SW1 is expected.
fn after_procedure_byte(said: Said, byte: u8) -> Result<(TapStage, Heard), TapFault>
    requires { IsSaid said }
    ensures fault { result_err result ≡ tap_procedure_fault (begun_by said.header.ins byte) byte }
    ensures taken { IfOk result (λ next.
        (place_of next.0 ≡ begun_at (begun_by said.header.ins byte) said byte)
        × (next.1 ≡ heard_procedure (begun_by said.header.ins byte)) × IsHeldAt next.0) }
{
    if let Some(step) = begun_by(said.header, byte) {
        let until = said.moved + moves(step, said.foreseen() - said.moved);
        return Ok((moving(said, until), Heard::Procedure(step)));
    }
    match byte {
        0x61..=0x6F | 0x90..=0x9F => {
            Ok((
                TapStage::AwaitingSecond { said, sw1: byte },
                Heard::FirstStatus,
            ))
        }
        _ => Err(TapFault::BadProcedure),
    }
}

/// The step that a byte starts as a procedure byte of this header. If INS is invalid, only NULL is
/// a procedure byte, and `6X` and `9X` are read as SW1.
fn begun_by(header: Header, byte: u8) -> Option<Step>
    ensures { result ≡ begun_by header.ins byte }
{
    if header.ins_is_valid() {
        step_of(header.ins, byte)
    } else {
        (byte == 0x60).then_some(Step::Null)
    }
}

/// Data characters move until `until`, if they have not yet.
fn moving(said: Said, until: u16) -> TapStage
    requires said { IsSaid said }
    requires within { (said.moved ≤ until) × (until ≤ foreseen_by said.direction said.p3) }
    ensures value { place_of result ≡ moved_to said until }
    ensures held { IsHeldAt result }
{
    if said.moved < until {
        TapStage::Moving { said, until }
    } else {
        TapStage::Awaiting { said }
    }
}
