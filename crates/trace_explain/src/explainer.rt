//! Explains a trace line by line: finds who sent each character, hears it, and lets a `Teller`
//! print what ends with it.
ghost use Rattle.std.specs.Prelude.{◌≡◌, ◌∷◌, ◌==◌, ◌&&◌, List, [], None, take, true, false, length, OnOk, IfErr, IfOk};
ghost use Rattle.t0_core.specs.TapSide.{due_at};
ghost use Rattle.trace_explain.specs.Account.{AddsBoxes, HasWritten, first_out};
ghost use Rattle.trace_explain.specs.Explained.{HasExplained, ExplainsCharacters, ExplainsLine, ExplainsMore, Leaves, StopsAmong, StopsAtLine, TakesOrStops, is_astray, next_line, refused, position_of};
ghost use Rattle.trace_explain.specs.Lines.{Says, entered, first_of_all};
ghost use Rattle.trace_explain.specs.Noted.{Event, Reset, ended_by};
ghost use Rattle.trace_explain.specs.Openings.{begins_answer, opening_of, unopened};
ghost use Rattle.trace_explain.specs.Reports.{Report, report_of};
ghost use Rattle.trace_explain.specs.Trace.{IsOfEnd, IsOfLines};
ghost use Rattle.trace_explain.specs.Turns.{source_at};

use crate::describe::complaint::{Complaint, Seen};
use crate::describe::mask::Mask;
use crate::explain_fault::ExplainFault;
use crate::follow::listener::Listener;
use crate::follow::opening::begins_answer;
use crate::follow::pair::are_characters;
use crate::follow::preface::Preface;
use crate::follow::tpdu::Mark;
use crate::follow::turn::{TurnFault, turn_before, turn_within};
use crate::read::channels::Channels;
use crate::read::entry::{Entry, Source};
use crate::read::log::Log;
use crate::read::reading::Reading;
use crate::read::time::cut_time;
use crate::read::trace_line::{LineFault, read_line};
use crate::resuming::{Passed, Resuming};
use crate::write::layout::Layout;
use crate::write::notes::tell_passed;
use crate::write::teller::Teller;
use std::alloc::{AllocError, Global};
use std::mem;
use t0_core::End;

/// Explains the lines of a trace, one by one.
#[derive(Drop)]
pub struct Explainer {
    alloc: Global,
    reading: Reading,
    /// What `--resume` passes over.
    resuming: Resuming,
    has_characters: bool,
    /// The number of the current line.
    line: u64,
    /// Its number in its file.
    number: u64,
    preface: Preface,
    listener: Listener,
    log: Log,
    channels: Channels,
    /// What prints the explanation.
    pub teller: Teller,
    /// An empty list, whose memory the entries of the next line of a log take.
    entries: Vec<Entry>,
}

impl Explainer {
    /// Starts before the first line. A page has this title. If it resumes, it continues after an
    /// unexpected character.
    #[tactic(auto, using(crate::proofs::AccountLemmas::none_written))]
    pub fn new(
        alloc: Global,
        layout: Layout,
        title: &str,
        mask: Mask,
        resumes: bool,
        reading: Reading,
    ) -> Explainer
        ensures explained { resumes ≡ false → reading.of_tpdus ≡ false →
            HasExplained [] [] result }
        ensures blank { reading.of_tpdus ≡ false →
            HasWritten (first_out layout mask) [] result }
        ensures position { position_of result ≡ first_of_all reading }
        ensures line { result.line ≡ 0 }
    {
        let first_edc = reading.first_edc;
        Explainer {
            alloc,
            reading,
            resuming: Resuming::new(resumes),
            has_characters: false,
            line: 0,
            number: 0,
            preface: Preface::new(alloc, first_edc),
            listener: Listener::new(alloc),
            log: Log::new(alloc),
            channels: Channels::new(alloc),
            teller: Teller::new(alloc, layout, title, mask),
            entries: Vec::new(alloc),
        }
    }

    /// Returns the number of the next line, counted from 1.
    pub fn next_line(&self) -> u64
        ensures { result ≡ next_line self.now }
    {
        self.line.saturating_add(1)
    }

    /// Explains the next line.
    ///
    /// # Errors
    ///
    /// - `BadLine`: it can't be read.
    /// - `NoTurn`: who sends a character is unknown. If it resumes, it skips what follows an
    ///   invalid answer to reset instead.
    /// - `NoDialogue`: no dialogue continues with a character, and it does not resume.
    /// - `OutOfMemory`: a part of the line may have been explained.
    pub fn line(&mut self, line: &[u8]) -> Result<(), ExplainFault>
        ensures explained { (events : List Event) (before : List Report) →
            HasExplained events before self.old → OnOk result (ExplainsLine
            (entered (position_of self.old)) line.now events before self.old self.new) }
        ensures stops { (events : List Event) (before : List Report) →
            HasExplained events before self.old →
            IfErr result (λ fault. StopsAtLine (Leaves before self.old.teller self.new) fault
            (next_line self.old) line.now (entered (position_of self.old)) events before
            (report_of self.old.listener.under_way)) }
        ensures counts { OnOk result (self.new.line ≡ next_line self.old) }
        ensures of_lines { IfErr result IsOfLines }
    {
        self.line = self.line.saturating_add(1);
        self.number = self.reading.files.number(self.line);
        let (time, rest) = cut_time(line);
        let counted = self.reading.counted(time, rest);
        self.teller.pass(self.line, &self.reading.files, counted)?;
        if self.reading.of_tpdus {
            return self.log_line(line);
        }
        match read_line(self.alloc, &self.reading, line, time, rest) {
            Ok(entry) => self.take(entry, line),
            Err(why) => Err(refused(self.line, why)),
        }
    }

    /// Explains an entry of this line, which is the current one.
    fn take(&mut self, entry: Entry, line: &[u8]) -> Result<(), ExplainFault>
        ensures explained { (events : List Event) (before : List Report) →
            Says self.old.reading line.now entry → HasExplained events before self.old →
            OnOk result (ExplainsLine (position_of self.old) line.now events before self.old
            self.new) }
        ensures stops { (events : List Event) (before : List Report) →
            Says self.old.reading line.now entry → HasExplained events before self.old →
            IfErr result (λ fault. StopsAtLine (Leaves before self.old.teller self.new) fault
            self.old.line line.now (position_of self.old) events before
            (report_of self.old.listener.under_way)) }
        ensures counts { OnOk result (self.new.line ≡ self.old.line) }
        ensures of_lines { IfErr result IsOfLines }
    {
        match entry {
            Entry::Characters(source, bytes) => {
                self.reading.take(source);
                self.characters(source, bytes.as_slice())
            }
            Entry::Reset => Ok(self.reset()?),
            Entry::Note => Ok(self.teller.note(line)?),
            of_log => Ok(self.teller.tell_logged(&of_log)?),
        }
    }

    /// Explains the characters of a line, or passes over them.
    fn characters(&mut self, source: Source, bytes: &[u8]) -> Result<(), ExplainFault>
        ensures explained { (events : List Event) (before : List Report) →
            HasExplained events before self.old → OnOk result
            (ExplainsCharacters source bytes.now events before self.old self.new) }
        ensures stops { (events : List Event) (before : List Report) →
            HasExplained events before self.old →
            IfErr result (λ fault. StopsAmong (Leaves before self.old.teller self.new) fault source
            self.old.line (position_of self.old) bytes.now events before) }
        ensures counts { OnOk result (self.new.line ≡ self.old.line) }
        ensures of_lines { IfErr result IsOfLines }
    {
        let line = self.line;
        if self.is_passed_over(source, bytes) {
            return Ok(());
        }
        let heard = self.run(source, bytes)?;
        for place in heard..bytes.len() {
            match self.sender(source, bytes[place]) {
                Ok(from) => {
                    let stops = self.character(from, bytes[place], &bytes[place..])?;
                    if stops {
                        let complaint = self.complaint(from, bytes[place], place);
                        self.teller.complain(complaint, &mut self.listener)?;
                        if self.resuming.resumes {
                            self.resume(source, bytes, complaint)?;
                            return Ok(());
                        }
                        return Err(ExplainFault::NoDialogue(complaint));
                    }
                }
                Err(why) => {
                    if self.resuming.resumes && why == TurnFault::Answer {
                        self.resuming.pass_unsent(line, place);
                        return Ok(());
                    }
                    return Err(ExplainFault::NoTurn { line, place, why });
                }
            }
        }
        Ok(())
    }

    /// Hears the first characters of a line with a sign, if the dialogue at T=0 has begun: up to
    /// one that ends a TPDU or that no dialogue continues with. Returns how many.
    fn run(&mut self, source: Source, bytes: &[u8]) -> Result<usize, AllocError>
        ensures explained { (events : List Event) (before : List Report) →
            HasExplained events before self.old → IfOk result (λ count.
            ExplainsCharacters source (take count bytes.now) events before self.old self.new) }
        ensures counts { OnOk result (self.new.line ≡ self.old.line) }
    {
        let Source::Sign(_, of) = source else {
            return Ok(0);
        };
        if bytes.is_empty() || !self.has_characters || !self.preface.is_over() {
            return Ok(0);
        }
        let from = self.reading.sender(of);
        let mark = Mark {
            is_loose: false,
            line: self.number,
        };
        let count = self.teller.hear_run(&mut self.listener, from, bytes, mark)?;
        Ok(count)
    }

    /// Whether a line is passed over; a header ends that.
    fn is_passed_over(&mut self, source: Source, bytes: &[u8]) -> bool
        ensures none { self.old.resuming.passed ≡ None →
            (result ≡ false) × (self.new ≡ self.old) }
        ensures counts { self.new.line ≡ self.old.line }
    {
        let Some(passed) = self.resuming.passed else {
            return false;
        };
        if self.may_begin(source, bytes) {
            tell_passed(self.resuming.end(), &mut self.teller.output.page);
            return false;
        }
        let last = self.line;
        self.resuming.passed = Some(Passed { last, ..passed });
        true
    }

    /// Whether it continues with this line, as with a header. It does not if a mask hides
    /// something: a header is shown, and this one may be data.
    fn may_begin(&self, source: Source, bytes: &[u8]) -> bool {
        let is_terminals = match source {
            Source::Sign(_, from) => self.reading.sender(from) == End::Terminal,
            Source::Turn => false,
        };
        is_terminals && bytes.len() == 5 && !self.teller.mask.hides()
    }

    /// Returns who sends the next character: the end of the sign, or the one whose turn it is.
    fn sender(&self, source: Source, byte: u8) -> Result<End, TurnFault>
        ensures { result ≡ source_at source self.now.reading (opening_of self.now.preface)
            self.now.listener byte }
    {
        match source {
            Source::Sign(_, from) => Ok(self.reading.sender(from)),
            Source::Turn => {
                let stage = self.preface.stage;
                if stage.has_begun() {
                    turn_within(
                        &self.reading.ways,
                        self.listener.expected(),
                        &self.listener.under_way,
                        byte,
                    )
                } else if let Some(blocks) = &self.preface.blocks {
                    Ok(blocks.turn)
                } else {
                    turn_before(stage, self.preface.has_answered(), byte)
                }
            }
        }
    }

    /// Takes a character of an opening, of the dialogue, or the first of a later answer to reset.
    /// Returns true if it is not one of these. `rest` is its line from there on.
    fn character(&mut self, from: End, byte: u8, rest: &[u8]) -> Result<bool, AllocError>
        ensures takes { (events : List Event) (before : List Report) →
            HasExplained events before self.old → IfOk result
            (λ stops. TakesOrStops stops from byte events before self.old self.new) }
        ensures counts { OnOk result (self.new.line ≡ self.old.line) }
    {
        self.has_characters = true;
        let line = self.number;
        let role = self.preface.role_of(from, byte);
        if role.is_block() {
            let (preface, listener) = (&mut self.preface, &mut self.listener);
            self.teller.hear_block(preface, listener, role, byte, line)?;
            return Ok(false);
        }
        let begun = self.preface.stage.has_begun();
        let is_loose = self.preface.stage.is_loose();
        let opens = self.teller.open(&mut self.preface, from, byte, line, rest)?;
        if opens {
            return Ok(false);
        }
        let mark = Mark { is_loose, line };
        let continues = self.teller.hear(&mut self.listener, from, byte, mark)?;
        if continues {
            return Ok(false);
        }
        if self.answers_again(begun, from, byte) {
            self.listener.reset();
            self.teller
                .answer_again(&mut self.preface, from, byte, line, rest)?;
            return Ok(false);
        }
        Ok(true)
    }

    /// Whether the card answers again with this character, which no dialogue expects. `begun`: a
    /// dialogue had begun before.
    fn answers_again(&self, begun: bool, from: End, byte: u8) -> bool
        ensures { result ≡ (begun && begins_answer from byte
            && (length self.now.listener.under_way.header.items == 0)) }
    {
        begun && begins_answer(from, byte) && self.listener.under_way.is_empty()
    }

    /// Returns the protocol error of an unexpected byte at this place of the line.
    fn complaint(&self, from: End, byte: u8, place: usize) -> Complaint
        ensures { result ≡ record {
          line = self.now.line;
          place = place;
          expected = due_at self.now.listener.tap;
          from = from;
          received = record { byte = byte; hides = self.now.teller.mask.hides };
          is_astray = is_astray self.now;
        } }
    {
        Complaint {
            line: self.line,
            place,
            expected: self.listener.expected(),
            from,
            received: Seen {
                byte,
                hides: self.teller.mask.hides(),
            },
            is_astray: self.reading.is_unsigned && !self.teller.is_led,
        }
    }

    /// Continues after a protocol error: this line is a header, or what follows is passed over.
    fn resume(
        &mut self,
        source: Source,
        bytes: &[u8],
        complaint: Complaint,
    ) -> Result<(), AllocError>
        ensures counts { OnOk result (self.new.line ≡ self.old.line) }
    {
        self.resuming.first = Some(self.resuming.first.unwrap_or(complaint));
        if self.may_begin(source, bytes) {
            self.teller.begin_if(true);
            self.listener.hear_header(bytes, self.number)
        } else {
            self.resuming.pass(complaint.line, complaint.place);
            Ok(())
        }
    }

    /// Explains a reset.
    fn reset(&mut self) -> Result<(), AllocError>
        ensures explained { (events : List Event) (before : List Report) →
            HasExplained events before self.old →
            OnOk result (ExplainsMore (Reset ∷ []) events before self.old self.new) }
        ensures position { OnOk result
            (position_of self.new ≡ record (position_of self.old) { opening = unopened }) }
        ensures counts { OnOk result (self.new.line ≡ self.old.line) }
    {
        tell_passed(self.resuming.end(), &mut self.teller.output.page);
        self.teller.reset(&mut self.preface, &mut self.listener)
    }

    /// Explains a line of a log of whole TPDUs.
    fn log_line(&mut self, line: &[u8]) -> Result<(), ExplainFault>
        ensures counts { OnOk result (self.new.line ≡ self.old.line) }
        ensures of_lines { IfErr result IsOfLines }
    {
        let is_open = self.log.is_open();
        let mixes = self.channels.mixes(&self.reading.rows, is_open, line)?;
        if mixes {
            return Err(refused(self.line, LineFault::Mixed));
        }
        let mut entries = mem::replace(&mut self.entries, Vec::new(self.alloc));
        let taken = self.log.take(&self.reading.rows, line, &mut entries);
        self.has_characters = self.has_characters || self.log.has_begun();
        for place in &mut entries {
            let entry = mem::replace(place, Entry::Note);
            if let Entry::Pair(command, answer) = &entry
                && are_characters(command.as_slice(), answer.as_slice())
            {
                return Err(refused(self.line, LineFault::Characters));
            }
            self.take(entry, line)?;
        }
        entries.clear();
        self.entries = entries;
        taken.map_err(|why| refused(self.line, why))
    }

    /// Returns an error if the lines so far contain a protocol error after which it continued, or
    /// no character of either end.
    ///
    /// # Errors
    ///
    /// - `BadPairs`: commands or answers of a log are not those of a TPDU.
    /// - `Resumed`: it continued after unexpected characters.
    /// - `Skipped`: it passed over what follows an invalid answer to reset.
    /// - `NoCharacters`, `NoForm`: no line has a character of either end.
    /// - `NoValidBlock`: they have blocks, and no valid one.
    /// - `NothingWhole`: they have a note, and no whole TPDU, answer to reset or PPS.
    pub fn outcome(&self) -> Result<(), ExplainFault>
        ensures has_characters { OnOk result (self.now.has_characters ≡ true) }
        ensures ended { IfErr result (λ fault. IsOfEnd fault self.now.has_characters) }
    {
        let complaints = self.teller.counts.complaints();
        if let Some((line, why)) = self.teller.first_bad {
            return Err(ExplainFault::BadPairs {
                complaints,
                line,
                why,
            });
        }
        match (self.resuming.first, self.resuming.first_unsent) {
            (Some(first), _) => Err(ExplainFault::Resumed { complaints, first }),
            (None, Some((line, place))) => Err(ExplainFault::Skipped { line, place }),
            (None, None) if !self.has_characters => Err(match self.teller.first_bytes {
                Some((line, note)) => ExplainFault::NoForm { line, note },
                None => ExplainFault::NoCharacters,
            }),
            (None, None) => self.outcome_of_whole(),
        }
    }

    /// Returns an error if the lines have no valid block, or no whole TPDU.
    fn outcome_of_whole(&self) -> Result<(), ExplainFault>
        ensures { IfErr result (λ fault. IsOfEnd fault self.now.has_characters) }
    {
        let invalid = self.teller.counts.invalid_alone();
        if invalid > 0 {
            return Err(ExplainFault::NoValidBlock { invalid });
        }
        match self.teller.first_note {
            Some((line, note)) if !self.teller.has_whole() => {
                Err(ExplainFault::NothingWhole { line, note })
            }
            _ => Ok(()),
        }
    }

    /// Explains what the end cuts off, and writes the last block; nothing if memory ran out.
    pub fn end(&mut self) -> Result<(), AllocError>
        ensures position { OnOk result (position_of self.new ≡ position_of self.old) }
        ensures adds { self.old.reading.of_tpdus ≡ false → OnOk result (AddsBoxes
            (ended_by (report_of self.old.listener.under_way)) self.old.teller self.new.teller) }
    {
        if self.teller.output.outcome().is_err() {
            return Ok(());
        }
        if self.reading.of_tpdus {
            self.end_log()?;
            return self.teller.end(&self.preface, &mut self.listener);
        }
        tell_passed(self.resuming.end(), &mut self.teller.output.page);
        self.teller.end(&self.preface, &mut self.listener)
    }

    /// Explains what the end of a log leaves open.
    fn end_log(&mut self) -> Result<(), AllocError>
        ensures { OnOk result (position_of self.new ≡ position_of self.old) }
    {
        let mut entries = Vec::new(self.alloc);
        self.log.end(&mut entries)?;
        self.teller.tell_all(entries.as_slice())
    }
}

/// Returns the fault of a refused line.
fn refused(line: u64, why: LineFault) -> ExplainFault
    ensures { result ≡ refused line why }
{
    match why {
        LineFault::OutOfMemory => ExplainFault::OutOfMemory,
        _ => ExplainFault::BadLine { line, why },
    }
}
