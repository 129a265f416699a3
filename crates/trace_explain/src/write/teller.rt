//! Writes an explanation: the boxes of TPDUs in turn, notes between them, and the counts.
ghost use Rattle.std.specs.Prelude.{◌≡◌, ◌∷◌, ◌++◌, List, [], false, not, take, true, IfOk, OnOk};
ghost use Rattle.std.specs.String.{string_bytes};
ghost use Rattle.trace_explain.specs.Account.{AddsBox, AddsBoxes, HasBox, StaysWritten, account_of};
ghost use Rattle.trace_explain.specs.Boxes.{HasAsker};
ghost use Rattle.trace_explain.specs.Explained.{CarriesAll, Hears};
ghost use Rattle.trace_explain.specs.Noted.{Event, HasNoted, NotesRun, Reset, ended_by};
ghost use Rattle.trace_explain.specs.Openings.{is_block, is_dialogue, opening_of, opens, reports_with, role_of, unopened};
ghost use Rattle.trace_explain.specs.Overheard.{answered, exchanged, overheard_by};
ghost use Rattle.trace_explain.specs.Pairs.{is_refusal};
ghost use Rattle.trace_explain.specs.Reports.{Report, loose, no_report, report_of};

use crate::describe::clock::Clock;
use crate::describe::complaint::Complaint;
use crate::describe::mask::Mask;
use crate::follow::blocks::Blocks;
use crate::follow::command::Command;
use crate::follow::links::Links;
use crate::follow::listener::{Listener, ListenerFault};
use crate::follow::opening::{Role, Stage};
use crate::follow::pair::{PairFault, is_unasked, take_command, take_pair, tpdu_of_pair};
use crate::follow::preface::Preface;
use crate::follow::story::Story;
use crate::follow::tpdu::{Mark, Tpdu};
use crate::read::digits::has_bytes;
use crate::read::entry::Entry;
use crate::read::files::FileList;
use crate::read::time::cut_time;
use crate::write::command_box::{tell_begin, tell_end, tell_next};
use crate::write::complaint_box::{tell_bad_pair, tell_complaint};
use crate::write::counts::Counts;
use crate::write::kept::{Keeping, Kept};
use crate::write::layout::{Layout, Topic};
use crate::write::notes::{Excerpt, tell_bytes, tell_note};
use crate::write::output::Output;
use crate::write::preface_box::{tell_after, tell_dropped, tell_part};
use crate::write::tpdu_box::tell_box;
use std::alloc::{AllocError, Global};
use std::mem;
use t0_core::End;

/// Writes or keeps the box of each TPDU, links each to earlier ones, and counts them.
#[derive(Drop)]
pub struct Teller {
    alloc: Global,
    /// What is hidden.
    pub mask: Mask,
    /// The current line.
    line: u64,
    /// The line of its file where the current TPDU of a log began.
    began: u64,
    /// The last line whose characters were shown as before a header.
    strays: u64,
    /// Whether a trace had a character before a dialogue, such as one of an answer to reset, a line
    /// `reset` or a whole TPDU. A log leaves it false.
    pub is_led: bool,
    /// Whether the next pair of a log is loose: bytes that are no pair precede it.
    is_loose: bool,
    /// The last TPDU of a log. The next one takes its memory.
    spare: Tpdu,
    story: Story,
    /// The command whose TPDUs are written.
    command: Command,
    /// The times of the lines.
    clock: Clock,
    /// Why the first unexpected command or answer of a log is one. The line is that of its command.
    pub first_bad: Option<(u64, PairFault)>,
    /// The first note, and its line.
    pub first_note: Option<(u64, Excerpt)>,
    /// The same of the first note with bytes.
    pub first_bytes: Option<(u64, Excerpt)>,
    /// Whether an answer to reset or a PPS request or response was whole.
    has_opening: bool,
    /// The counts.
    pub counts: Counts,
    /// The TPDUs that a comparison keeps.
    pub keeping: Keeping,
    /// The output.
    pub output: Output,
}

impl Teller {
    /// A teller before the first line. A page has this title.
    pub fn new(alloc: Global, layout: Layout, title: &str, mask: Mask) -> Teller
        ensures writes { result.keeping.is_on ≡ false }
        ensures mask { result.mask ≡ mask }
        ensures number { result.story.number ≡ 0 }
        ensures layout { result.output.sheet.layout ≡ layout }
        ensures text { string_bytes result.output.sheet.text ≡ [] }
    {
        let mut output = Output::new(alloc, layout);
        output.page.begin(title);
        Teller {
            alloc,
            mask,
            line: 0,
            began: 0,
            strays: 0,
            is_led: false,
            is_loose: false,
            spare: Tpdu::new(alloc),
            story: Story::new(alloc),
            command: Command::new(alloc),
            clock: Clock::new(alloc),
            first_bad: None,
            first_note: None,
            first_bytes: None,
            has_opening: false,
            counts: Counts::new(alloc),
            keeping: Keeping {
                is_on: false,
                all: Vec::new(alloc),
            },
            output,
        }
    }

    /// Begins this line of these files, with its time. The time is empty if the line has none.
    /// Returns `AllocError` if memory ran out: drop the teller.
    pub fn pass(&mut self, line: u64, files: &FileList, time: &[u8]) -> Result<(), AllocError>
        ensures { StaysWritten self.old self.new }
    {
        self.line = line;
        self.output.page.enter(files, line)?;
        self.clock.pass(time)
    }

    /// Takes a character, and writes the parts of an opening that end before or with it. `number`
    /// is that of its line in its file, `rest` the line from that character. Returns false if the
    /// character is part of the dialogue: the opening has then ended, and the character is still to
    /// be heard. Returns `AllocError` if memory ran out: use neither the teller nor the preface any
    /// more.
    pub fn open(
        &mut self,
        preface: &mut Preface,
        from: End,
        byte: u8,
        number: u64,
        rest: &[u8],
    ) -> Result<bool, AllocError>
        ensures opens { OnOk result (opening_of preface.new ≡ opens (opening_of preface.old)
            (role_of (opening_of preface.old) from byte) byte number) }
        ensures dialogue { IfOk result (λ is_of.
            is_dialogue (role_of (opening_of preface.old) from byte) ≡ not is_of) }
        ensures boxes { OnOk result (AddsBoxes [] self.old self.new) }
    {
        self.clock.count(from == End::Card);
        if preface.is_over() {
            return Ok(false);
        }
        let role = preface.role_of(from, byte);
        self.tell_before(role, preface, rest);
        preface.take(role, byte, self.line, number)?;
        if role.is_dialogue() {
            return Ok(false);
        }
        self.is_led = true;
        self.has_opening |= matches!(preface.stage, Stage::Ready | Stage::Asked);
        let (mask, counts) = (&self.mask, &mut self.counts);
        tell_after(role, preface, mask, counts, &mut self.output.page);
        self.output.outcome()?;
        Ok(true)
    }

    /// Writes what ends before a character of this role.
    fn tell_before(&mut self, role: Role, preface: &Preface, rest: &[u8])
        ensures { StaysWritten self.old self.new }
    {
        if !role.continues() {
            tell_part(preface, &self.mask, &mut self.counts, &mut self.output.page);
        }
        if role.is_stray() && self.strays != self.line {
            self.strays = self.line;
            let what = "before a header, from the card:\n";
            tell_bytes(what, rest, &self.mask, &mut self.output.page);
        }
    }

    /// Writes a reset without a line `reset`, and takes the first character after it, as `open`
    /// does. Reset the listener first. Returns `AllocError` if memory ran out: use neither the
    /// teller nor the preface any more.
    pub fn answer_again(
        &mut self,
        preface: &mut Preface,
        from: End,
        byte: u8,
        number: u64,
        rest: &[u8],
    ) -> Result<bool, AllocError>
        ensures opened { OnOk result
            (opening_of preface.new ≡ opens unopened (role_of unopened from byte) byte number) }
        ensures boxes { OnOk result (AddsBoxes [] self.old self.new) }
    {
        self.begin_again(preface);
        self.open(preface, from, byte, number, rest)
    }

    /// Writes a reset without a line `reset`. `preface` starts again.
    fn begin_again(&mut self, preface: &mut Preface)
        ensures stays { StaysWritten self.old self.new }
        ensures opened { opening_of preface.new ≡ unopened }
    {
        self.tell_reset("reset, as the card's answer shows (no line says so)");
        preface.reset();
    }

    /// Writes the note of a reset, and whether it drops a chain.
    fn tell_reset(&mut self, words: &str)
        ensures { StaysWritten self.old self.new }
    {
        tell_end(&mut self.command, &mut self.output.page);
        let drops = self.story.reset();
        let dropped = if drops { ": the chain is dropped" } else { "" };
        writeln!(self.output.page.lines, "{words}{dropped}");
        self.output.page.note(Topic::Reset);
    }

    /// Hears a character of the dialogue, and writes the TPDU that ends with it or before it.
    /// Returns whether a dialogue continues with it; if not, nothing is changed or written. Returns
    /// `AllocError` if memory ran out: use neither the teller nor the listener any more.
    pub fn hear(
        &mut self,
        listener: &mut Listener,
        from: End,
        byte: u8,
        mark: Mark,
    ) -> Result<bool, AllocError>
        ensures { (events : List Event) (before : List Report) →
            HasNoted events before listener.old → IfOk result (λ continues.
            Hears continues (from, byte) mark events before listener.old listener.new
            self.old self.new) }
    {
        self.begin_if(from == End::Terminal && listener.under_way.is_empty());
        match listener.hear(from, byte, mark) {
            Ok(None) => Ok(true),
            Ok(Some(tpdu)) => {
                self.tell_whole(&tpdu, !listener.under_way.is_empty())?;
                Ok(true)
            }
            Err(ListenerFault::NoDialogue(_)) => Ok(false),
            Err(ListenerFault::OutOfMemory) => Err(AllocError),
        }
    }

    /// Hears the first of these characters of a dialogue, as `Listener::hear_run`, and notes the
    /// line where a TPDU begins. `bytes` is not empty. Returns how many it has heard, or
    /// `AllocError` if memory ran out: use neither the teller nor the listener any more.
    pub fn hear_run(
        &mut self,
        listener: &mut Listener,
        from: End,
        bytes: &[u8],
        mark: Mark,
    ) -> Result<usize, AllocError>
        ensures noted { (events : List Event) (before : List Report) →
            HasNoted events before listener.old → IfOk result (λ count.
            NotesRun from mark (take count bytes.now) events before listener.new) }
        ensures boxes { OnOk result (AddsBoxes [] self.old self.new) }
    {
        self.clock.count(from == End::Card);
        self.begin_if(from == End::Terminal && listener.under_way.is_empty());
        listener.hear_run(from, bytes, mark)
    }

    /// Hears a byte of a block, which has this role and is in the line with this number in its
    /// file, and writes the command that gets its response with it. Returns `AllocError` if memory
    /// ran out: drop the teller.
    pub fn hear_block(
        &mut self,
        preface: &mut Preface,
        listener: &mut Listener,
        role: Role,
        byte: u8,
        number: u64,
    ) -> Result<(), AllocError>
        requires block { is_block role ≡ true }
        ensures opened { OnOk result
            (opening_of preface.new ≡ opens (opening_of preface.old) role byte number) }
        ensures heard { (events : List Event) (before : List Report) →
            HasNoted events before listener.old → OnOk result (CarriesAll
            (reports_with role (opening_of preface.new).blocks) events before listener.new
            self.old self.new) }
    {
        self.lead_to_blocks(preface, matches!(role, Role::Block(End::Card)));
        preface.take(role, byte, self.line, number)?;
        match &mut preface.blocks {
            Some(blocks) => self.tell_blocks(blocks, listener),
            None => self.output.outcome(),
        }
    }

    /// Notes the time, and writes what ends before the first block.
    fn lead_to_blocks(&mut self, preface: &Preface, is_card: bool)
        ensures { StaysWritten self.old self.new }
    {
        self.is_led = true;
        self.clock.count(is_card);
        if preface.blocks.is_none() {
            self.tell_part(preface);
        }
    }

    /// Counts the block that ended, and writes the command that gets its response.
    fn tell_blocks(
        &mut self,
        blocks: &mut Blocks,
        listener: &mut Listener,
    ) -> Result<(), AllocError>
        ensures same { overheard_by blocks.new ≡ overheard_by blocks.old }
        ensures heard { (events : List Event) (before : List Report) →
            HasNoted events before listener.old → OnOk result (CarriesAll
            (answered (overheard_by blocks.old)) events before listener.new self.old self.new) }
    {
        self.begin_blocks(blocks);
        if !blocks.is_answered() {
            return self.output.outcome();
        }
        self.tell_carried(blocks, listener)?;
        self.output.outcome()
    }

    /// Notes where a command at T=1 begins, and counts the block that ended.
    fn begin_blocks(&mut self, blocks: &mut Blocks)
        ensures stays { StaysWritten self.old self.new }
        ensures same { overheard_by blocks.new ≡ overheard_by blocks.old }
    {
        self.begin_if(blocks.begins());
        if let Some(row) = blocks.newest {
            self.counts.take_ended(row);
        }
    }

    /// Writes a command that these blocks carried, with its response.
    fn tell_carried(
        &mut self,
        blocks: &mut Blocks,
        listener: &mut Listener,
    ) -> Result<(), AllocError>
        ensures same { overheard_by blocks.new ≡ overheard_by blocks.old }
        ensures heard { (events : List Event) (before : List Report) →
            HasNoted events before listener.old → OnOk result (CarriesAll
            (exchanged (overheard_by blocks.old).mark (overheard_by blocks.old).command
            (overheard_by blocks.old).gathered.bytes) events before listener.new
            self.old self.new) }
    {
        match tpdu_of_pair(self.alloc, blocks.command(), blocks.gathered()) {
            Ok(mut tpdu) => {
                tpdu.is_loose = blocks.is_loose;
                tpdu.line = blocks.line;
                tpdu.blocks = blocks.take_rows();
                self.tell_exchange(&tpdu, listener)
            }
            Err(why) => self.tell_refused(why, blocks),
        }
    }

    /// Writes a TPDU that blocks carried, after the one at T=0 that is in progress, if any.
    fn tell_exchange(&mut self, tpdu: &Tpdu, listener: &mut Listener) -> Result<(), AllocError>
        ensures { (events : List Event) (before : List Report) →
            HasNoted events before listener.old → OnOk result (CarriesAll
            (report_of tpdu.now ∷ []) events before listener.new self.old self.new) }
    {
        self.cut_off(listener)?;
        self.tell_one(tpdu)
    }

    /// Writes what blocks carried that is no TPDU for this reason, and the blocks.
    fn tell_refused(&mut self, why: PairFault, blocks: &mut Blocks) -> Result<(), AllocError>
        ensures same { overheard_by blocks.new ≡ overheard_by blocks.old }
        ensures stays { OnOk result (StaysWritten self.old self.new) }
        ensures refusal { OnOk result (is_refusal why ≡ true) }
    {
        if !why.is_refusal() {
            return Err(AllocError);
        }
        self.tell_bad(why, blocks.command(), Some(blocks.gathered()))?;
        tell_dropped(blocks.take_rows(), &mut self.output.page);
        Ok(())
    }

    /// Notes that a TPDU begins in the line, if so.
    pub fn begin_if(&mut self, begins: bool)
        ensures { StaysWritten self.old self.new }
    {
        if begins {
            self.began = self.output.page.begin_tpdu();
            self.clock.begin();
        }
    }

    /// Writes a TPDU that ended, and notes whether the next began in this line.
    fn tell_whole(&mut self, tpdu: &Tpdu, begins: bool) -> Result<(), AllocError>
        ensures { OnOk result (AddsBoxes (report_of tpdu.now ∷ []) self.old self.new) }
    {
        self.tell_one(tpdu)?;
        self.is_led = true;
        self.begin_if(begins);
        self.output.outcome()
    }

    /// Counts a TPDU, links it to earlier ones, and writes it.
    fn tell_one(&mut self, tpdu: &Tpdu) -> Result<(), AllocError>
        ensures { OnOk result (AddsBoxes (report_of tpdu.now ∷ []) self.old self.new) }
    {
        let is_hidden = self.mask.hides_header(tpdu.is_doubtful());
        self.counts.take(tpdu, is_hidden)?;
        self.counts.take_time(self.clock.took_us().0);
        let links = self.story.tell(tpdu)?.shown(is_hidden);
        self.tell_in_command(tpdu, links, is_hidden)
    }

    /// Writes a TPDU, whose header may be hidden, in its command.
    fn tell_in_command(
        &mut self,
        tpdu: &Tpdu,
        links: Links,
        is_hidden: bool,
    ) -> Result<(), AllocError>
        requires asker { HasAsker tpdu.now.header.items links }
        ensures { OnOk result (AddsBox links.number (report_of tpdu.now) (account_of self.old)
            (account_of self.new)) }
    {
        let joins = self.command.continues_with(links.link);
        let links = Links { joins, ..links };
        tell_begin(&mut self.command, links, &mut self.output.page);
        self.tell(tpdu, links)?;
        let (mask, page) = (&self.mask, &mut self.output.page);
        tell_next(&mut self.command, tpdu, links, is_hidden, mask, page)
    }

    /// Writes the box of a TPDU, or keeps the TPDU with its box.
    fn tell(&mut self, tpdu: &Tpdu, links: Links) -> Result<(), AllocError>
        requires asker { HasAsker tpdu.now.header.items links }
        ensures { OnOk result (AddsBox links.number (report_of tpdu.now) (account_of self.old)
            (account_of self.new)) }
    {
        if self.keeping.is_on {
            let empty = Output::new(self.alloc, self.output.sheet.layout());
            let kept = self.kept_of(tpdu, links, empty)?;
            return self.keeping.all.push(kept).map_err(AllocError::from);
        }
        let (clock, story, mask) = (&self.clock, &self.story, &self.mask);
        let output = &mut self.output;
        tell_box(tpdu, links, clock, story, mask, output);
        Ok(())
    }

    /// A TPDU with its box alone.
    fn kept_of(&self, tpdu: &Tpdu, links: Links, empty: Output) -> Result<Kept, AllocError>
        requires asker { HasAsker tpdu.now.header.items links }
        ensures { IfOk result (λ kept. HasBox self.now.mask links.number
            (report_of tpdu.now) empty.sheet (string_bytes kept.text)) }
    {
        let mut output = empty;
        let (clock, story, mask) = (&self.clock, &self.story, &self.mask);
        tell_box(tpdu, links, clock, story, mask, &mut output);
        let text = output.sheet.into_text()?;
        let tpdu = tpdu.copied()?;
        Ok(Kept { tpdu, text })
    }

    /// Writes the TPDU that is cut off, if there is one.
    fn cut_off(&mut self, listener: &mut Listener) -> Result<(), AllocError>
        ensures left { report_of listener.new.under_way ≡ no_report }
        ensures noted { (events : List Event) (before : List Report) →
            HasNoted events before listener.old → HasNoted (events ++ Reset ∷ [])
            (before ++ ended_by (report_of listener.old.under_way)) listener.new }
        ensures shown { OnOk result
            (AddsBoxes (ended_by (report_of listener.old.under_way)) self.old self.new) }
    {
        let part = listener.reset();
        if part.is_empty() {
            return Ok(());
        }
        self.tell_one(&part)
    }

    /// Writes what a reset cuts off, and the reset. `preface` and `listener` start again. Returns
    /// `AllocError` if memory ran out: drop the teller.
    pub fn reset(
        &mut self,
        preface: &mut Preface,
        listener: &mut Listener,
    ) -> Result<(), AllocError>
        ensures opened { opening_of preface.new ≡ unopened }
        ensures noted { (events : List Event) (before : List Report) →
            HasNoted events before listener.old → HasNoted (events ++ Reset ∷ [])
            (before ++ ended_by (report_of listener.old.under_way)) listener.new }
        ensures shown { OnOk result
            (AddsBoxes (ended_by (report_of listener.old.under_way)) self.old self.new) }
    {
        self.is_led = true;
        self.tell_part(preface);
        preface.reset();
        self.cut_off(listener)?;
        self.is_loose = false;
        self.tell_reset("reset");
        self.output.outcome()
    }

    /// Writes the part of an opening that is in progress.
    fn tell_part(&mut self, preface: &Preface)
        ensures { StaysWritten self.old self.new }
    {
        if let Some(blocks) = &preface.blocks
            && let Some(part) = blocks.part()
        {
            self.counts.take_block(part);
        }
        tell_part(preface, &self.mask, &mut self.counts, &mut self.output.page);
    }

    /// Counts an unexpected byte, and writes what it cuts off and its box. A response ends, and
    /// later pieces of a chain get no numbers. `listener` drops the TPDU in progress. Returns
    /// `AllocError` if memory ran out: drop the teller.
    pub fn complain(
        &mut self,
        complaint: Complaint,
        listener: &mut Listener,
    ) -> Result<(), AllocError>
        ensures left { report_of listener.new.under_way ≡ no_report }
        ensures shown { OnOk result (AddsBoxes
            (ended_by (loose (report_of listener.old.under_way))) self.old self.new) }
    {
        listener.under_way.is_loose = true;
        self.cut_off(listener)?;
        tell_end(&mut self.command, &mut self.output.page);
        self.story.lose_some();
        let anchor = self.counts.complain(complaint.line);
        tell_complaint(anchor, complaint, &mut self.output.page);
        self.output.outcome()
    }

    /// Whether it has met a whole TPDU, answer to reset or PPS.
    pub fn has_whole(&self) -> bool {
        self.has_opening || self.counts.has_whole()
    }

    /// Notes that bytes precede which are no pair.
    fn lose_some(&mut self)
        ensures { StaysWritten self.old self.new }
    {
        tell_end(&mut self.command, &mut self.output.page);
        self.is_loose = true;
        self.story.lose_some();
    }

    /// Writes a line without characters, as `tell_note`: nothing if it is empty, or for a summary.
    /// Returns `AllocError` if memory ran out: drop the teller.
    pub fn note(&mut self, note: &[u8]) -> Result<(), AllocError>
        ensures { OnOk result (AddsBoxes [] self.old self.new) }
    {
        self.keep_first(note);
        tell_note(note, &self.mask, &mut self.output.page);
        self.output.outcome()
    }

    /// Keeps a note that is not empty, if it is the first, or the first with bytes.
    fn keep_first(&mut self, note: &[u8])
        ensures { StaysWritten self.old self.new }
    {
        if note.is_empty() || self.first_bytes.is_some() {
            return;
        }
        let is_of_bytes = has_bytes(cut_time(note).1);
        if self.first_note.is_none() || is_of_bytes {
            let kept = Some((self.line, Excerpt::of(note, &self.mask)));
            self.first_note = self.first_note.or(kept);
            self.first_bytes = kept.filter(|_| is_of_bytes);
        }
    }

    /// Writes entries that only a log has. Returns `AllocError` if memory ran out: drop the teller.
    pub fn tell_all(&mut self, entries: &[Entry]) -> Result<(), AllocError> {
        for entry in entries {
            self.tell_logged(entry)?;
        }
        Ok(())
    }

    /// Writes one of them, with the same error.
    pub fn tell_logged(&mut self, entry: &Entry) -> Result<(), AllocError> {
        match entry {
            Entry::Begins => {
                self.clock.count(false);
                self.begin_if(true);
            }
            Entry::Pair(command, answer) => {
                self.clock.count(true);
                self.pair(command.as_slice(), Some(answer.as_slice()))?;
            }
            Entry::Unanswered(command) => self.pair(command.as_slice(), None)?,
            Entry::Stray(bytes) => {
                self.lose_some();
                self.tell_bytes("before a command, from the card:\n", bytes);
            }
            Entry::Part(End::Terminal, part) => self.tell_bytes("a part of a command:\n", part),
            Entry::Part(End::Card, part) => self.tell_bytes("a part of an answer:\n", part),
            Entry::Characters(..) | Entry::Reset | Entry::Note => {}
        }
        self.output.outcome()
    }

    /// Writes bytes of a log that are not a TPDU, after these words.
    fn tell_bytes(&mut self, what: &str, bytes: &[u8]) {
        tell_bytes(what, bytes, &self.mask, &mut self.output.page);
    }

    /// Writes a command with its answer, if any: as a TPDU, or as a protocol error.
    fn pair(&mut self, command: &[u8], answer: Option<&[u8]>) -> Result<(), AllocError> {
        let mut tpdu = mem::replace(&mut self.spare, Tpdu::new(self.alloc));
        let outcome = match answer {
            Some(bytes) if is_unasked(command, bytes) => Err(PairFault::Unasked),
            Some(bytes) => take_pair(&mut tpdu, command, bytes),
            None => take_command(&mut tpdu, command),
        };
        match outcome {
            Ok(()) => self.tell_pair(tpdu, answer.is_some()),
            Err(PairFault::OutOfMemory) => Err(AllocError),
            Err(why) => self.tell_bad(why, command, answer),
        }
    }

    /// Writes a TPDU of a log, and notes whether the log has its answer.
    fn tell_pair(&mut self, mut tpdu: Tpdu, is_answered: bool) -> Result<(), AllocError> {
        tpdu.is_loose = mem::replace(&mut self.is_loose, false);
        tpdu.line = self.began;
        self.tell_one(&tpdu)?;
        self.spare = tpdu;
        if !is_answered {
            self.lose_some();
        }
        Ok(())
    }

    /// Writes a command with its answer, if any, that is not a TPDU for this reason.
    fn tell_bad(
        &mut self,
        why: PairFault,
        command: &[u8],
        answer: Option<&[u8]>,
    ) -> Result<(), AllocError>
        ensures { OnOk result (StaysWritten self.old self.new) }
    {
        self.lose_some();
        let (mask, page) = (&self.mask, &mut self.output.page);
        let anchor = self.counts.complain(page.began);
        self.first_bad = Some(self.first_bad.unwrap_or((page.began, why)));
        tell_bad_pair(anchor, why, command, answer, mask, page);
        Ok(())
    }

    /// Writes what the end of the trace cuts off, and the last block. Returns `AllocError` if
    /// memory ran out: drop the teller.
    pub fn end(&mut self, preface: &Preface, listener: &mut Listener) -> Result<(), AllocError>
        ensures { OnOk result
            (AddsBoxes (ended_by (report_of listener.old.under_way)) self.old self.new) }
    {
        self.tell_part(preface);
        self.cut_off(listener)?;
        tell_end(&mut self.command, &mut self.output.page);
        self.counts.tell(&self.clock, &mut self.output.page);
        self.output.outcome()
    }
}
