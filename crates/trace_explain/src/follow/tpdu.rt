//! What was heard of one TPDU.
ghost use Rattle.std.specs.Prelude.{◌≡◌, ◌==◌, length, true, OnOk};
ghost use Rattle.trace_explain.specs.Reports.{first_line, is_doubtful, report_of, no_report, noted};
ghost use Rattle.trace_explain.specs.Noted.{AreStatus, are_status, as_ended, bared, is_bare};

use crate::follow::block_row::BlockRows;
use crate::follow::tally::Tally;
use apdu_core::Status;
use std::alloc::{AllocError, Global};
use std::mem;
use t0_core::{Direction, Heard};

/// What a character says of the header of its TPDU.
#[derive(Clone, Copy)]
pub struct Mark {
    /// Whether bytes that no dialogue explains precede the character.
    pub is_loose: bool,
    /// The number of its line in its file, counted from 1.
    pub line: u64,
}

/// What was heard of a TPDU: all of it, or its first characters.
#[derive(Drop)]
pub struct Tpdu {
    /// CLA INS P1 P2 P3, as far as received.
    pub header: Vec<u8>,
    /// The procedure bytes; a pair has none.
    pub tally: Tally,
    /// Which way the data went; `None` without data.
    pub way: Option<Direction>,
    /// The data that went this way, as far as received.
    pub moved: Vec<u8>,
    /// SW1 and SW2, as far as received.
    pub status: Vec<u8>,
    /// Le after the data of a command APDU; a TPDU has none.
    pub le: Option<u8>,
    /// The card's data beside the terminal's, which a pair may have.
    pub answer: Vec<u8>,
    /// Whether its header is loose: bytes that no dialogue explains precede it, or follow in the
    /// TPDU. A mask hides it.
    pub is_loose: bool,
    /// The number, in its file, of the line where it began; 0 before its first character.
    pub line: u64,
    /// Its blocks, if it was carried at T=1.
    pub blocks: BlockRows,
}

impl Tpdu {
    /// Starts before the first character.
    pub fn new(alloc: Global) -> Tpdu
        ensures { report_of result ≡ no_report }
    {
        Tpdu {
            header: Vec::new(alloc),
            tally: Tally::NONE,
            way: None,
            moved: Vec::new(alloc),
            status: Vec::new(alloc),
            le: None,
            answer: Vec::new(alloc),
            is_loose: false,
            line: 0,
            blocks: BlockRows::new(alloc),
        }
    }

    /// Returns a copy, or `AllocError` if memory ran out.
    pub fn copied(&self) -> Result<Tpdu, AllocError> {
        Ok(Tpdu {
            header: self.header.clone()?,
            moved: self.moved.clone()?,
            status: self.status.clone()?,
            answer: self.answer.clone()?,
            blocks: self.blocks.copied()?,
            ..*self
        })
    }

    /// Notes one more character: `byte`, which a tap took for this. Returns `AllocError` if memory
    /// ran out: `byte` is missing.
    pub fn note(&mut self, heard: &Heard, byte: u8) -> Result<(), AllocError>
        ensures { OnOk result (report_of self.new ≡ noted (report_of self.old) heard.now byte) }
    {
        match heard {
            Heard::Header => self.header.push(byte)?,
            Heard::Procedure(step) => self.tally = self.tally.with(*step),
            Heard::Data(direction) => {
                self.way = Some(*direction);
                self.moved.push(byte)?;
            }
            Heard::FirstStatus => self.status.push(byte)?,
            Heard::SecondStatus { said, .. } => {
                self.way = said.direction;
                self.status.push(byte)?;
            }
        }
        Ok(())
    }

    /// Whether P3 is `00`, and exactly two characters that may be a status follow INS. They are
    /// then the status of a command without data, unless a third one follows.
    pub fn is_bare(&self) -> bool
        ensures value { result ≡ is_bare (report_of self.now) }
        ensures status { result ≡ true → AreStatus self.now.moved.items }
    {
        self.header.get(4).copied().unwrap_or(0) == 0
            && self.tally.ones == 0
            && self.status.is_empty()
            && are_status(self.moved.as_slice())
    }

    /// Returns the TPDU with its data as its status, and without data or direction. Its old status
    /// is dropped. Call it if `is_bare` is true.
    pub fn bared(mut self) -> Tpdu
        ensures { report_of result ≡ bared (report_of self) }
    {
        self.way = None;
        mem::swap(&mut self.moved, &mut self.status);
        self.moved.clear();
        self
    }

    /// Returns what it is once no more characters follow: whole, if its data were its status.
    pub fn as_ended(self) -> Tpdu
        ensures value { report_of result ≡ as_ended (report_of self) }
        ensures status { is_bare (report_of self) ≡ true → AreStatus self.moved.items }
    {
        if self.is_bare() { self.bared() } else { self }
    }

    /// Whether its header may be something else: it is loose, or cut off.
    pub fn is_doubtful(&self) -> bool
        ensures { result ≡ is_doubtful (report_of self.now) }
    {
        self.is_loose || self.header.len() != 5
    }

    /// Whether nothing of it was received.
    pub fn is_empty(&self) -> bool
        ensures { result ≡ (length self.now.header.items == 0) }
    {
        self.header.is_empty()
    }
}

/// Returns the first of two lines that is not 0.
pub fn first_line(first: u64, line: u64) -> u64
    ensures { result ≡ first_line first line }
{
    if first == 0 { line } else { first }
}

/// Whether these are the two bytes of a status.
pub fn are_status(bytes: &[u8]) -> bool
    ensures value { result ≡ are_status bytes.now }
    ensures status { result ≡ true → AreStatus bytes.now }
{
    match bytes {
        [sw1, sw2] => Status::new(*sw1, *sw2).is_some(),
        _ => false,
    }
}
