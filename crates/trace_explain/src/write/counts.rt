//! The counts over a whole trace, which the last block shows.

use crate::describe::clock::Clock;
use crate::describe::mask::HIDDEN;
use crate::follow::block_row::BlockRow;
use crate::follow::story::{header_of, status_of};
use crate::follow::tpdu::Tpdu;
use crate::instructions::name_of_command;
use crate::write::layout::{Anchor, Side};
use crate::write::page::Page;
use std::alloc::{AllocError, Global};
use std::collections::BTreeMap;

/// How many protocol errors and answers at fault have links on a page.
const FAULT_LINKS: usize = 4;

/// How many statuses have links on a page, to two TPDUs each.
const STATUS_LINKS: usize = 8;

/// How often a status came, and the numbers of the first TPDUs that have it: one or two.
#[derive(Clone, Copy)]
struct Seen {
    count: u64,
    first: u64,
    next: Option<u64>,
}

/// The counts of blocks in JSON: all, those that came again, damaged ones, and those that are in
/// part or follow a gap.
static BLOCK_WORDS: [&str; 4] = ["all", "again", "damaged", "gaps"];

/// The counts of TPDUs, commands, statuses and protocol errors.
#[derive(Drop)]
pub struct Counts {
    tpdus: u64,
    cut_off: u64,
    /// TPDUs without a whole header.
    parts: u64,
    /// TPDUs whose header is hidden.
    hidden: u64,
    named: BTreeMap<&'static str, u64>,
    /// Commands without a name, by INS.
    unnamed: BTreeMap<u8, u64>,
    /// Statuses other than `9000`.
    statuses: BTreeMap<u16, Seen>,
    /// Blocks at T=1, as `BLOCK_WORDS` names them.
    blocks: [u64; 4],
    /// Whether one of them was valid.
    has_block: bool,
    /// Those that ended and were invalid: damaged, or cut off by the other end.
    invalid: u64,
    complaints: u64,
    /// Protocol errors, and answers to reset at fault.
    faults: u64,
    /// The lines of the first of them.
    fault_lines: [u64; FAULT_LINKS],
    /// The longest time of a TPDU, in microseconds.
    most_us: u64,
}

impl Counts {
    /// The counts before the first TPDU.
    pub fn new(alloc: Global) -> Counts {
        Counts {
            tpdus: 0,
            cut_off: 0,
            parts: 0,
            hidden: 0,
            named: BTreeMap::new(alloc),
            unnamed: BTreeMap::new(alloc),
            statuses: BTreeMap::new(alloc),
            blocks: [0; 4],
            has_block: false,
            invalid: 0,
            complaints: 0,
            faults: 0,
            fault_lines: [0; FAULT_LINKS],
            most_us: 0,
        }
    }

    /// The number of protocol errors.
    pub fn complaints(&self) -> u64 {
        self.complaints
    }

    /// Whether a whole TPDU was counted.
    pub fn has_whole(&self) -> bool {
        self.tpdus > self.cut_off
    }

    /// The number of invalid blocks, if no block was valid; otherwise 0.
    pub fn invalid_alone(&self) -> u64 {
        if self.has_block { 0 } else { self.invalid }
    }

    /// Counts a protocol error in this line. Returns the name of its box.
    pub fn complain(&mut self, line: u64) -> Anchor {
        self.complaints = self.complaints.saturating_add(1);
        self.fault(line)
    }

    /// Counts an answer to reset at fault, or a protocol error. Returns the name of its box.
    pub fn fault(&mut self, line: u64) -> Anchor {
        let others = self.fault_lines.iter_mut().skip(self.faults as usize);
        for place in others.take(1) {
            *place = line;
        }
        self.faults = self.faults.saturating_add(1);
        Anchor::Error(self.faults)
    }

    /// Notes the time of a TPDU, in microseconds.
    pub fn take_time(&mut self, micros: u64) {
        self.most_us = self.most_us.max(micros);
    }

    /// Counts a TPDU, whose header may be hidden. Returns `AllocError` if memory ran out: the TPDU
    /// is counted; its command or status may be missing.
    pub fn take(&mut self, tpdu: &Tpdu, is_hidden: bool) -> Result<(), AllocError> {
        self.tpdus = self.tpdus.saturating_add(1);
        if is_hidden {
            self.hidden = self.hidden.saturating_add(1);
        } else {
            self.take_command(tpdu)?;
        }
        let Some(status) = status_of(tpdu) else {
            self.cut_off = self.cut_off.saturating_add(1);
            return Ok(());
        };
        if status.is_ok() {
            return Ok(());
        }
        self.take_status(u16::from_be_bytes([status.sw1(), status.sw2()]))
    }

    /// Counts a status other than `9000` of the last TPDU.
    fn take_status(&mut self, word: u16) -> Result<(), AllocError> {
        let number = self.tpdus;
        let seen = self.statuses.entry(word)?.or_insert(Seen {
            count: 0,
            first: number,
            next: None,
        });
        seen.count = seen.count.saturating_add(1);
        if seen.count == 2 {
            seen.next = Some(number);
        }
        Ok(())
    }

    /// Counts a block at T=1.
    pub fn take_block(&mut self, row: BlockRow) {
        let kinds = [true, row.is_again(), row.is_damaged(), row.is_lossy()];
        for (count, is) in self.blocks.iter_mut().zip(kinds) {
            *count = count.saturating_add(u64::from(is));
        }
    }

    /// Counts a block at T=1 that has ended.
    pub fn take_ended(&mut self, row: BlockRow) {
        self.take_block(row);
        self.has_block |= row.is_valid();
        self.invalid = self.invalid.saturating_add(u64::from(!row.is_valid()));
    }

    /// Counts the command of a TPDU.
    fn take_command(&mut self, tpdu: &Tpdu) -> Result<(), AllocError> {
        let Some((header, _)) = header_of(tpdu) else {
            self.parts = self.parts.saturating_add(1);
            return Ok(());
        };
        match name_of_command(header) {
            Some(name) => count(&mut self.named, name),
            None => count(&mut self.unnamed, header.ins),
        }
    }

    /// Adds the last block. Its time is the sum of the clock's steps, so that it may exceed a day.
    /// If one step is unknown, so is the time.
    pub fn tell(&self, clock: &Clock, page: &mut Page) {
        page.open_block();
        if page.is_json() {
            page.number("tpdus", self.tpdus);
            page.number("cut_off", self.cut_off);
            page.number("errors", self.complaints);
            page.number("atr_faults", self.faults.saturating_sub(self.complaints));
            if let Some(micros) = clock.whole_us() {
                page.number("time_us", micros);
            }
        } else {
            write!(page.lines, "{}", self.tpdus);
            if self.cut_off > 0 {
                write!(page.lines, " (cut off: {})", self.cut_off);
            }
            page.line_row("TPDUs", "\n");
        }
        self.tell_blocks(page);
        page.begin_counts("commands");
        self.count_commands(page);
        page.end_counts("commands", "none\n");
        page.begin_counts("statuses");
        self.count_statuses(page);
        page.end_counts("statuses", "none other than 9000\n");
        if !page.is_json() {
            writeln!(page.lines, "errors: {}", self.complaints);
            if self.faults > self.complaints {
                let answers = self.faults.saturating_sub(self.complaints);
                writeln!(page.lines, "answers to reset at fault: {answers}");
            }
            page.row(Side::Nobody, "protocol");
            clock.push_whole(&mut page.lines);
            page.push_most(self.most_us);
            page.row(Side::Nobody, "time");
        }
        page.link_faults(self.fault_lines.as_slice(), self.faults);
        self.link_statuses(page);
        page.close_block();
    }

    /// Adds the number of blocks, if there are any, and of those that are marked.
    fn tell_blocks(&self, page: &mut Page) {
        let [all, again, damaged, lossy] = self.blocks;
        if all == 0 {
            return;
        }
        if !page.is_json() {
            writeln!(
                page.lines,
                "{all}: {again} again, {damaged} damaged, {lossy} in part or after a gap"
            );
            page.row(Side::Nobody, "blocks");
            return;
        }
        page.begin_counts("blocks");
        for (word, number) in BLOCK_WORDS.iter().zip(self.blocks) {
            page.lines.push_str(word);
            page.count(number);
        }
        page.end_counts("blocks", "");
    }

    /// Adds a count for each name of a command, for each INS without a name, and for headers that
    /// are cut off or hidden.
    fn count_commands(&self, page: &mut Page) {
        for (name, count) in &self.named {
            page.lines.push_str(name);
            page.count(*count);
        }
        for (ins, count) in &self.unnamed {
            write!(page.lines, "INS {ins:02X}");
            page.count(*count);
        }
        for (name, count) in [("part of a header", self.parts), (HIDDEN, self.hidden)] {
            if count > 0 {
                page.lines.push_str(name);
                page.count(count);
            }
        }
    }

    /// Adds a count for each status other than `9000`, in the order of the words.
    fn count_statuses(&self, page: &mut Page) {
        for (word, seen) in &self.statuses {
            write!(page.lines, "{word:04X}");
            page.count(seen.count);
        }
    }

    /// Links statuses other than `61XX` and `6CXX`, in the order of the words. Text has no links.
    fn link_statuses(&self, page: &mut Page) {
        let mut left = STATUS_LINKS;
        let mut more: u64 = 0;
        for (word, seen) in &self.statuses {
            if matches!(word >> 8, 0x61 | 0x6C) {
                continue;
            }
            if left > 0 {
                left -= 1;
                page.link_status(*word, seen.count, seen.first, seen.next);
            } else {
                more = more.saturating_add(1);
            }
        }
        page.link_no_more(more);
    }
}

/// Adds one to the count of a key.
fn count<K: Ord + Drop>(counts: &mut BTreeMap<K, u64>, key: K) -> Result<(), AllocError> {
    let count = counts.entry(key)?.or_insert(0);
    *count = count.saturating_add(1);
    Ok(())
}
