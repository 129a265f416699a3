//! Patterns of lines: what each part marks in a line, and what follows it.
ghost use Rattle.std.specs.Prelude.{◌≡◌, ◌≤◌, Some, None, IfOk, IfErr, OnOk, length, replicate};
ghost use Rattle.trace_explain.specs.Patterns.{IsBadField, all_of, begun, behind, behind_field, behind_prefix, behind_row, column, dump, ends_word, field, has_gap, is_of_prefix, marked, marked_by, marks_in, number_in, row, row_in, unmarked, with_bytes};

use crate::read::digits::{append, spelled};
use crate::read::time::{behind_spaces, behind_time, place_of};
use crate::read::trace_line::LineFault;
use std::alloc::{AllocError, Global};

/// ESC, which begins a colour.
const ESC: u8 = 0x1B;

/// The most bytes in a line of a dump.
const ROW: usize = 16;

/// Where a field ends, or at the end of the line.
#[derive(Clone, Copy)]
pub enum Stop {
    /// At the end of the line.
    End,
    /// Before this character.
    Before(u8),
    /// Before two spaces, as between two columns.
    Column,
    /// The same, or behind 16 bytes with a space behind each.
    Dump,
}

/// One part of a pattern: a character, a field, or something else.
#[derive(Clone, Copy)]
pub enum Part {
    /// This character.
    Is(u8),
    /// No letter or digit follows.
    WordEnd,
    /// A space or the end follows.
    Gap,
    /// Any spaces, or none.
    Spaces,
    /// A time and the spaces behind it, or none.
    Time,
    /// Any digits, spaces, brackets and codes of colours, as `pcscd` writes them.
    Prefix,
    /// A field of anything.
    Any(Stop),
    /// A field of bytes, two digits each.
    Bytes(Stop),
    /// A field of bytes, two digits each, or one and a space.
    Short(Stop),
    /// A field of bytes that follow all others, as SW1-SW2 before the data.
    Status(Stop),
    /// A field of the number of bytes in the lines that follow.
    Count(Stop),
    /// Bytes of a dump with a space behind each: 16 of them, or all if fewer are left. Some are.
    Row,
    /// As many zeros as bytes are left, without characters. Some are.
    Zeros,
    /// This many bytes of a dump, which don't count.
    Skip(usize),
    /// The next line may continue the bytes, if these are as many.
    More(usize),
}

/// What a pattern marks in a line.
#[derive(Drop)]
pub struct Marks {
    /// The bytes of a command or answer, without what `status` has.
    pub bytes: Vec<u8>,
    /// The bytes behind these.
    pub status: Vec<u8>,
    /// The number of bytes in the lines that follow.
    pub count: usize,
    /// With how many bytes the next line may continue them; 0 if it may not.
    pub goes_on: usize,
}

/// Returns what follows a part at the beginning of a line; `None` if the line begins otherwise.
/// `left` is the number of bytes that are left of a dump.
#[inline(always)]
pub fn behind(part: Part, left: usize, line: &[u8]) -> Option<&[u8]>
    ensures { elim result [ None ↦ None | Some rest ↦ Some rest.now ]
        ≡ behind part left line.now }
{
    match part {
        Part::Is(wanted) => match line {
            [first, rest @ ..] if *first == wanted => Some(rest),
            _ => None,
        },
        Part::WordEnd if !ends_word(line) => None,
        Part::Gap if !has_gap(line) => None,
        Part::Row | Part::Zeros if left == 0 => None,
        Part::WordEnd | Part::Gap | Part::Zeros | Part::More(_) => Some(line),
        Part::Spaces => Some(behind_spaces(line)),
        Part::Time => Some(behind_time(line)),
        Part::Prefix => Some(behind_prefix(line)),
        Part::Row => behind_row(left.min(ROW), line),
        Part::Skip(count) => behind_row(count, line),
        Part::Any(stop)
        | Part::Bytes(stop)
        | Part::Short(stop)
        | Part::Status(stop)
        | Part::Count(stop) => Some(cut_field(stop, line).1),
    }
}

/// Returns what follows this many bytes of a dump; `None` if the line is too short.
fn behind_row(count: usize, line: &[u8]) -> Option<&[u8]>
    ensures { elim result [ None ↦ None | Some rest ↦ Some rest.now ]
        ≡ behind_row count line.now }
{
    let width = count.checked_mul(3)?;
    line.get(width..)
}

/// Returns what follows these parts at the beginning of a line.
#[inline(always)]
pub fn begun<'a>(parts: &[Part], line: &'a [u8]) -> Option<&'a [u8]>
    ensures { elim result [ None ↦ None | Some rest ↦ Some rest.now ] ≡ begun parts.now line.now }
{
    let mut rest = line;
    for &part in parts {
        rest = behind(part, 0, rest)?;
    }
    Some(rest)
}

/// Returns what these parts mark if they are the whole line.
///
/// # Errors
///
/// - `Hex`: they are not.
/// - `OutOfMemory`: memory ran out.
#[inline(always)]
pub fn marks_in(alloc: Global, parts: &[Part], left: usize, line: &[u8]) -> Result<Marks, LineFault>
    ensures says { IfOk result (λ m. marks_in parts.now left line.now ≡ Some (marked_by m)) }
    ensures refused { IfErr result (λ why. IsBadField why (marks_in parts.now left line.now)) }
{
    let mut marks = Marks::none(alloc);
    let mut rest = line;
    for &part in parts {
        marks.take(alloc, part, left, rest)?;
        rest = behind(part, left, rest).ok_or(LineFault::Hex)?;
    }
    if rest.is_empty() {
        Ok(marks)
    } else {
        Err(LineFault::Hex)
    }
}

impl Marks {
    /// Nothing is marked yet.
    fn none(alloc: Global) -> Marks
        ensures { marked_by result ≡ unmarked }
    {
        Marks {
            bytes: Vec::new(alloc),
            status: Vec::new(alloc),
            count: 0,
            goes_on: 0,
        }
    }

    /// Adds what a part marks at the beginning of a line.
    ///
    /// # Errors
    ///
    /// - `Hex`: the field of the part does not spell this.
    /// - `OutOfMemory`: memory ran out.
    #[inline(always)]
    fn take(&mut self, alloc: Global, part: Part, left: usize, line: &[u8]) -> Result<(), LineFault>
        ensures says { OnOk result (marked part left line.now (marked_by self.old)
            ≡ Some (marked_by self.new)) }
        ensures refused { IfErr result (λ why. IsBadField why
            (marked part left line.now (marked_by self.old))) }
    {
        match part {
            Part::Bytes(stop) => self.take_bytes(spelled(alloc, false, cut_field(stop, line).0)?)?,
            Part::Short(stop) => self.take_bytes(spelled(alloc, true, cut_field(stop, line).0)?)?,
            Part::Row => self.take_bytes(row(alloc, left, line)?)?,
            Part::Zeros => self.take_bytes(zeros(alloc, left)?)?,
            Part::Status(stop) => {
                append(
                    &mut self.status,
                    spelled(alloc, false, cut_field(stop, line).0)?,
                )?;
            }
            Part::Count(stop) => {
                self.count = number_of(cut_field(stop, line).0).ok_or(LineFault::Hex)?;
            }
            Part::More(count) => self.goes_on = count,
            Part::Is(_)
            | Part::WordEnd
            | Part::Gap
            | Part::Spaces
            | Part::Time
            | Part::Prefix
            | Part::Skip(_)
            | Part::Any(_) => {}
        }
        Ok(())
    }

    /// Returns all bytes, in turn.
    pub fn all(self) -> Result<Vec<u8>, AllocError>
        ensures { IfOk result (λ bytes. bytes.items ≡ all_of (marked_by self)) }
    {
        let mut bytes = self.bytes;
        append(&mut bytes, self.status)?;
        Ok(bytes)
    }

    /// Appends bytes.
    fn take_bytes(&mut self, bytes: Vec<u8>) -> Result<(), AllocError>
        ensures { OnOk result (Some (marked_by self.new)
            ≡ with_bytes (marked_by self.old) (Some bytes.items)) }
    {
        append(&mut self.bytes, bytes)
    }
}

/// Returns the next bytes of a dump, with a space behind each, if this many are left.
///
/// # Errors
///
/// - `Hex`: the line is too short, or does not begin with as many bytes.
/// - `OutOfMemory`: memory ran out.
fn row(alloc: Global, left: usize, line: &[u8]) -> Result<Vec<u8>, LineFault>
    ensures says { IfOk result (λ bytes. row_in (row left) line.now ≡ Some bytes.items) }
    ensures refused { IfErr result (λ why. IsBadField why (row_in (row left) line.now)) }
{
    let count = left.min(ROW);
    if line.len() < 3 * count {
        return Err(LineFault::Hex);
    }
    let bytes = spelled(alloc, false, &line[..3 * count])?;
    if bytes.len() == count {
        Ok(bytes)
    } else {
        Err(LineFault::Hex)
    }
}

/// Returns this many zeros.
fn zeros(alloc: Global, count: usize) -> Result<Vec<u8>, AllocError>
    ensures { IfOk result (λ bytes. bytes.items ≡ replicate count 0) }
{
    let mut bytes = Vec::new(alloc);
    bytes.resize(count, 0)?;
    Ok(bytes)
}

/// Returns a field at the beginning of a line, and what follows it.
fn cut_field(stop: Stop, line: &[u8]) -> (&[u8], &[u8])
    ensures field { result.0.now ≡ field stop line.now }
    ensures rest { result.1.now ≡ behind_field stop line.now }
{
    line.split_at(match stop {
        Stop::End => line.len(),
        Stop::Before(byte) => place_of(byte, line),
        Stop::Column => column(line),
        Stop::Dump => dump(line),
    })
}

/// Returns the number of bytes before two spaces; all without them.
fn column(line: &[u8]) -> usize
    ensures value { result ≡ column line.now }
    ensures within { result ≤ length line.now }
{
    for place in 0..line.len() {
        if matches!(&line[place..], [b' ', b' ', ..]) {
            return place;
        }
    }
    line.len()
}

/// The same, at most the size of 16 bytes with a space behind each.
fn dump(line: &[u8]) -> usize
    ensures value { result ≡ dump line.now }
    ensures within { result ≤ length line.now }
{
    column(&line[..line.len().min(3 * ROW)])
}

/// Whether a word ends before these bytes: the first is not a letter or digit.
fn ends_word(rest: &[u8]) -> bool
    ensures { result ≡ ends_word rest.now }
{
    !matches!(rest, [b'0'..=b'9' | b'A'..=b'Z' | b'a'..=b'z', ..])
}

/// Whether a space or the end follows.
fn has_gap(rest: &[u8]) -> bool
    ensures { result ≡ has_gap rest.now }
{
    matches!(rest, [] | [b' ', ..])
}

/// Returns what follows a thread number and the codes of colours.
fn behind_prefix(line: &[u8]) -> &[u8]
    ensures value { result.now ≡ behind_prefix line.now }
{
    for place in 0..line.len() {
        if !is_of_prefix(line[place]) {
            return &line[place..];
        }
    }
    &line[line.len()..]
}

/// Whether a byte may be part of these.
fn is_of_prefix(byte: u8) -> bool
    ensures { result ≡ is_of_prefix byte }
{
    matches!(byte, b'0'..=b'9' | b' ' | b'[' | b']' | b';' | b'm' | ESC)
}

/// Returns the number that at most seven decimal digits spell.
pub fn number_of(digits: &[u8]) -> Option<usize>
    ensures { result ≡ number_in digits.now }
{
    if digits.is_empty() {
        return None;
    }
    let mut number: usize = 0;
    for &digit in digits {
        if number > 999_999 || !digit.is_ascii_digit() {
            return None;
        }
        number = number * 10 + usize::from(digit - b'0');
    }
    Some(number)
}
