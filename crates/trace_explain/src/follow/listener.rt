//! A tap that keeps what it has heard of the current TPDU.
ghost use Rattle.std.specs.Prelude.{◌≡◌, ◌++◌, ◌∷◌, [], List, take, true, IfOk, IfErr, OnOk};
ghost use Rattle.t0_core.specs.declared.end.End.TheVariants.{Terminal};
ghost use Rattle.t0_core.specs.TapSide.{due_at};
ghost use Rattle.trace_explain.specs.Reports.{Report, ends_next, marked, noted, report_of, reports_of, no_report, is_last};
ghost use Rattle.trace_explain.specs.Noted.{AreStatus, Event, HasNoted, IsRefused, NotesRun, Passed, Reset, as_ended, ended_by, is_bare};

use crate::follow::tpdu::{Mark, Tpdu, first_line};
use std::alloc::{AllocError, Global};
use std::mem;
use t0_core::{Due, End, Heard, Tap, TapFault};

/// Why a listener took no character. `NoDialogue` changes nothing; after `OutOfMemory`, drop it.
#[derive(Clone, Copy)]
pub enum ListenerFault {
    /// No dialogue continues with it.
    NoDialogue(TapFault),
    /// Memory ran out.
    OutOfMemory,
}

impl From<AllocError> for ListenerFault {
    ghost use Rattle.std.specs.Prelude.{◌≡◌};
    ghost use Rattle.trace_explain.specs.declared.follow.listener.ListenerFault.TheVariants.{OutOfMemory};

    ghost from_gives = { λ _ fault. fault ≡ OutOfMemory };

    fn from(_error: AllocError) -> ListenerFault {
        ListenerFault::OutOfMemory
    }
}

/// A tap, and what it has heard of the current TPDU.
#[derive(Drop)]
pub struct Listener {
    alloc: Global,
    tap: Tap,
    /// What was heard of the current TPDU.
    pub under_way: Tpdu,
}

impl Listener {
    /// Starts before the first character.
    #[tactic(auto, using(crate::proofs::NotedLemmas::hears_nothing))]
    pub fn new(alloc: Global) -> Listener
        ensures { HasNoted [] [] result }
    {
        Listener {
            alloc,
            tap: Tap::new(),
            under_way: Tpdu::new(alloc),
        }
    }

    /// Returns what the current dialogue may continue with.
    pub fn expected(&self) -> Due
        ensures { result ≡ due_at self.now.tap }
    {
        self.tap.due()
    }

    /// Hears a character, and returns the TPDU that ends with it or has ended before it. If its
    /// mark is loose, so is the header of its TPDU: bytes that no dialogue explains precede it.
    ///
    /// # Errors
    ///
    /// - `NoDialogue`: no dialogue continues with the character. Nothing has changed.
    /// - `OutOfMemory`: don't use the listener any more.
    pub fn hear(&mut self, from: End, byte: u8, mark: Mark) -> Result<Option<Tpdu>, ListenerFault>
        ensures noted { (events : List Event) (before : List Report) →
            HasNoted events before self.old → IfOk result (λ tpdu. HasNoted
            (events ++ Passed (from, byte) mark ∷ []) (before ++ reports_of tpdu) self.new) }
        ensures refused { IfErr result (λ fault.
            IsRefused fault self.old (from, byte) self.new) }
    {
        if from == End::Terminal && self.under_way.is_bare() {
            return self.hear_behind_bare(byte, mark);
        }
        let heard = match self.tap.hear(from, byte) {
            Ok(heard) => heard,
            Err(fault) => return Err(ListenerFault::NoDialogue(fault)),
        };
        self.note(&heard, byte, mark)?;
        if is_last(&heard) {
            return Ok(Some(self.cut()));
        }
        Ok(None)
    }

    /// Hears the first of these characters of one end, up to one that ends a TPDU or that no
    /// dialogue continues with, and none after a bare status. Returns how many it has heard, or
    /// `AllocError` if memory ran out: don't use the listener any more.
    pub fn hear_run(&mut self, from: End, bytes: &[u8], mark: Mark) -> Result<usize, AllocError>
        ensures { (events : List Event) (before : List Report) →
            HasNoted events before self.old → IfOk result (λ count.
            NotesRun from mark (take count bytes.now) events before self.new) }
    {
        if from == End::Terminal && self.under_way.is_bare() {
            return Ok(0);
        }
        for place in 0..bytes.len() {
            if ends_next(self.tap.due()) {
                return Ok(place);
            }
            match self.tap.hear(from, bytes[place]) {
                Ok(heard) => self.note(&heard, bytes[place], mark)?,
                Err(_) => return Ok(place),
            }
        }
        Ok(bytes.len())
    }

    /// Hears a character of the terminal after a bare status: the card has repeated INS of a
    /// command without data, and sent its status. The character begins the next header.
    fn hear_behind_bare(&mut self, byte: u8, mark: Mark) -> Result<Option<Tpdu>, ListenerFault>
        requires bare { is_bare (report_of self.old.under_way) ≡ true }
        requires status { AreStatus self.old.under_way.moved.items }
        ensures noted { (events : List Event) (before : List Report) →
            HasNoted events before self.old → IfOk result (λ tpdu. HasNoted
            (events ++ Passed (Terminal, byte) mark ∷ []) (before ++ reports_of tpdu)
            self.new) }
        ensures wants { IfErr result (λ fault. fault ≡ ListenerFault.OutOfMemory) }
    {
        self.tap.reset();
        let whole = self.cut().bared();
        match self.tap.hear(End::Terminal, byte) {
            Ok(heard) => {
                self.note(&heard, byte, mark)?;
                Ok(Some(whole))
            }
            Err(fault) => Err(ListenerFault::NoDialogue(fault)),
        }
    }

    /// Notes a character of the current TPDU. Returns `AllocError` if memory ran out.
    fn note(&mut self, heard: &Heard, byte: u8, mark: Mark) -> Result<(), AllocError>
        ensures noted { OnOk result (report_of self.new.under_way
            ≡ marked mark (noted (report_of self.old.under_way) heard.now byte)) }
        ensures tap { self.new.tap ≡ self.old.tap }
    {
        self.under_way.note(heard, byte)?;
        self.under_way.is_loose |= mark.is_loose;
        self.under_way.line = first_line(self.under_way.line, mark.line);
        Ok(())
    }

    /// Hears the five characters of a loose header, in this line. No dialogue may be in progress.
    /// Returns `AllocError` if memory ran out, or if no dialogue continues with a character.
    pub fn hear_header(&mut self, bytes: &[u8], line: u64) -> Result<(), AllocError> {
        let is_loose = true;
        for &byte in bytes {
            let mark = Mark { is_loose, line };
            if self.hear(End::Terminal, byte, mark).is_err() {
                return Err(AllocError);
            }
        }
        Ok(())
    }

    /// Drops the current dialogue, and returns what was heard of it. It is a whole one if the card
    /// has repeated INS of a command without data, and sent its status.
    pub fn reset(&mut self) -> Tpdu
        ensures noted { (events : List Event) (reports : List Report) →
            HasNoted events reports self.old → HasNoted (events ++ Reset ∷ [])
            (reports ++ ended_by (report_of self.old.under_way))
            self.new }
        ensures part { report_of result ≡ as_ended (report_of self.old.under_way) }
        ensures left { report_of self.new.under_way ≡ no_report }
    {
        self.tap.reset();
        self.cut().as_ended()
    }

    /// Takes out what was heard of the current TPDU.
    fn cut(&mut self) -> Tpdu
        ensures cut { result ≡ self.old.under_way }
        ensures left { report_of self.new.under_way ≡ no_report }
        ensures tap { self.new.tap ≡ self.old.tap }
    {
        mem::replace(&mut self.under_way, Tpdu::new(self.alloc))
    }
}

/// Whether a TPDU ends with this character.
fn is_last(heard: &Heard) -> bool
    ensures { result ≡ is_last heard.now }
{
    matches!(heard, Heard::SecondStatus { .. })
}

/// Whether a TPDU ends with the next character.
fn ends_next(due: Due) -> bool
    ensures { result ≡ ends_next due }
{
    matches!(due, Due::SecondStatus)
}
