//! What was heard of blocks at T=1: the command that waits for its response, and its blocks.
ghost use Rattle.std.specs.Prelude.{◌≡◌, ◌==◌, ◌&&◌, length, not, OnOk};
ghost use Rattle.t1_core.specs.Items.{seen};
ghost use Rattle.trace_explain.specs.Overheard.{answers, as_t1, commanded, edc_of, goes_on_from, is_answer, is_command, is_response, overheard_by, overhears, silent, turn_after};

use crate::follow::block_row::{BlockRow, BlockRows};
use crate::follow::tpdu::first_line;
use crate::read::reading::other_end;
use std::alloc::{AllocError, Global};
use std::mem;
use t0_core::End;
use t1_core::{Damage, Edc, End as BlockEnd, Found, Gathered, Item, Progress, Tap};

/// A tap at T=1, with the command in progress.
#[derive(Drop)]
pub struct Blocks {
    tap: Tap,
    gathered: Gathered,
    /// The whole command without a whole response before this byte; no bytes if no command waits.
    command: Vec<u8>,
    /// Whether its response is whole with this byte.
    is_answered: bool,
    /// Whether its header is loose: the trace began among blocks.
    pub is_loose: bool,
    /// Who sends the next byte, if no sign shows it: the same end within a block, otherwise the
    /// other one.
    pub turn: End,
    /// How many bytes of a block follow the last item of the tap.
    part: usize,
    /// The item that ended with this byte.
    pub newest: Option<BlockRow>,
    /// A tap for CRC that has heard the item before this byte, if its LRC is wrong.
    with_crc: Option<Tap>,
    /// The number, in its file, of the line where the first of them began; 0 before it.
    pub line: u64,
    /// The items since the last command that was answered.
    pub rows: BlockRows,
    alloc: Global,
}

impl Blocks {
    /// Starts before the first block. If it `is_loose`, so is the header of the first command.
    pub fn new(alloc: Global, edc: Edc, is_loose: bool) -> Blocks
        ensures { overheard_by result ≡ silent edc is_loose }
    {
        Blocks {
            tap: Tap::new(edc),
            gathered: Gathered::new(alloc),
            command: Vec::new(alloc),
            is_answered: false,
            is_loose,
            turn: End::Terminal,
            part: 0,
            newest: None,
            with_crc: None,
            line: 0,
            rows: BlockRows::new(alloc),
            alloc,
        }
    }

    /// Hears a byte of the line with this number in its file. Returns `AllocError` if memory ran
    /// out: drop it.
    pub fn hear(&mut self, from: End, byte: u8, line: u64) -> Result<(), AllocError>
        ensures { OnOk result
            (overheard_by self.new ≡ overhears (overheard_by self.old) from byte line) }
    {
        self.go_on(from, line);
        self.try_crc(byte);
        self.tap.hear(as_t1(from), byte);
        if let Some(item) = self.tap.item() {
            self.gathered.add(item)?;
            self.turn = turn_after(item.found, from);
            self.part = usize::from(matches!(item.found, Found::Cut));
            self.newest = Some(BlockRow::of(item));
            self.with_crc = with_crc(item);
            self.take_gathered()?;
            return self.keep_newest();
        }
        Ok(())
    }

    /// Forgets the command that was answered with the byte before the next one, of this end and
    /// line.
    fn go_on(&mut self, from: End, line: u64)
        ensures { overheard_by self.new ≡ goes_on_from (overheard_by self.old) from line }
    {
        if self.is_answered {
            self.command.clear();
            self.is_answered = false;
            self.is_loose = false;
            self.line = 0;
        }
        self.line = first_line(self.line, line);
        self.part = self.part.saturating_add(1);
        self.newest = None;
        self.turn = from;
    }

    /// Marks the item before this byte if its LRC is wrong, and with the byte its CRC is right.
    fn try_crc(&mut self, byte: u8)
        ensures { overheard_by self.new ≡ overheard_by self.old }
    {
        if self.with_crc.is_none() {
            return;
        }
        if let Some(mut tap) = self.with_crc.take() {
            tap.hear(BlockEnd::Terminal, byte);
            if let Some(item) = tap.item()
                && matches!(item.found, Found::Valid(_))
            {
                self.rows.mark_crc();
            }
        }
    }

    /// Keeps a whole command until its response is whole.
    fn take_gathered(&mut self) -> Result<(), AllocError>
        ensures { OnOk result (overheard_by self.new ≡ record (overheard_by self.old) {
          command = commanded self.old.gathered self.old.command.items;
          is_answered = answers self.old.gathered
              && not (length (commanded self.old.gathered self.old.command.items) == 0);
        }) }
    {
        let (from, progress) = (self.gathered.from(), self.gathered.progress());
        if is_command(from, progress) {
            self.command.clear();
            self.command.extend_from_slice(self.gathered.bytes())?;
        } else if !is_answer(from, progress) {
            self.command.clear();
        }
        self.is_answered = is_response(from, progress) && !self.command.is_empty();
        Ok(())
    }

    /// Keeps the row of the newest item.
    fn keep_newest(&mut self) -> Result<(), AllocError>
        ensures { OnOk result (overheard_by self.new ≡ overheard_by self.old) }
    {
        match self.newest {
            Some(row) => self.rows.push(row),
            None => Ok(()),
        }
    }

    /// Whether a command gets its whole response with this byte.
    pub fn is_answered(&self) -> bool
        ensures { result ≡ (overheard_by self.now).is_answered }
    {
        self.is_answered
    }

    /// Whether the newest byte is the first since the last command that was answered.
    pub fn begins(&self) -> bool {
        self.rows.is_empty() && self.part == 1
    }

    /// The command that waits for its response, or gets it with this byte.
    pub fn command(&self) -> &[u8]
        ensures { result.now ≡ (overheard_by self.now).command }
    {
        self.command.as_slice()
    }

    /// What was gathered of the newest command or response.
    pub fn gathered(&self) -> &[u8]
        ensures { result.now ≡ (overheard_by self.now).gathered.bytes }
    {
        self.gathered.bytes()
    }

    /// Whether nothing was heard since the last command that was answered.
    pub fn is_empty(&self) -> bool {
        self.rows.is_empty() && self.part == 0
    }

    /// What was heard of a command that was not answered: of the command, and of the response.
    pub fn unanswered(&self) -> (&[u8], &[u8]) {
        let so_far = self.gathered.bytes();
        match self.gathered.from() {
            _ if self.is_answered => (&[], &[]),
            BlockEnd::Terminal => (so_far, &[]),
            BlockEnd::Card if self.command.is_empty() => (&[], &[]),
            BlockEnd::Card => (self.command.as_slice(), so_far),
        }
    }

    /// The first bytes of a block that has not ended, if any were heard.
    pub fn part(&self) -> Option<BlockRow> {
        if self.part == 0 {
            return None;
        }
        Some(BlockRow::of_part(as_t1(self.turn), self.part))
    }

    /// Takes out the items.
    pub fn take_rows(&mut self) -> BlockRows
        ensures { overheard_by self.new ≡ overheard_by self.old }
    {
        mem::replace(&mut self.rows, BlockRows::new(self.alloc))
    }
}

/// A tap for CRC that has heard this item, if its LRC is wrong.
fn with_crc(item: Item<'_>) -> Option<Tap> {
    if !matches!(item.found, Found::Damaged(Damage::Lrc)) {
        return None;
    }
    let mut tap = Tap::new(Edc::Crc);
    tap.hear_run(BlockEnd::Terminal, item.bytes);
    Some(tap)
}

/// The error detection code of blocks.
pub fn edc_of(has_crc: bool) -> Edc
    ensures { result ≡ edc_of has_crc }
{
    if has_crc { Edc::Crc } else { Edc::Lrc }
}

/// This end, as `t1_core` names it.
fn as_t1(from: End) -> BlockEnd
    ensures { result ≡ as_t1 from }
{
    match from {
        End::Terminal => BlockEnd::Terminal,
        End::Card => BlockEnd::Card,
    }
}

/// Who sends the byte after an item that ended with a byte of this end.
fn turn_after(found: Found<'_>, from: End) -> End
    ensures { result ≡ turn_after (seen found.entry) from }
{
    match found {
        Found::Cut => from,
        _ => other_end(from),
    }
}

/// Whether this is a whole command.
fn is_command(from: BlockEnd, progress: Progress) -> bool
    ensures { result ≡ is_command from progress }
{
    matches!((from, progress), (BlockEnd::Terminal, Progress::Whole))
}

/// Whether this is a response, or its first bytes.
fn is_answer(from: BlockEnd, progress: Progress) -> bool
    ensures { result ≡ is_answer from progress }
{
    matches!(
        (from, progress),
        (BlockEnd::Card, Progress::Begun | Progress::Whole)
    )
}

/// Whether this is a whole response.
fn is_response(from: BlockEnd, progress: Progress) -> bool
    ensures { result ≡ is_response from progress }
{
    matches!((from, progress), (BlockEnd::Card, Progress::Whole))
}
