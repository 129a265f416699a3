//! A log of whole TPDUs or APDUs, read line by line: pairs each command with its answer.
ghost use Rattle.std.specs.Prelude.{◌≡◌, ◌≤◌, ◌+◌, ◌++◌, ◌∷◌, [], None, Some, IfErr, IfOk, OnOk, length, map, true};
ghost use Rattle.trace_explain.specs.Noted.{are_status};
ghost use Rattle.trace_explain.specs.Pairs.{status_in};
ghost use Rattle.trace_explain.specs.Patterns.{all_of, is_digits, marked_by};
ghost use Rattle.trace_explain.specs.Times.{behind_spaces};
ghost use Rattle.trace_explain.specs.declared.read.log.Open.TheVariants.{Nothing};
ghost use Rattle.trace_explain.specs.Logs.{IsBadFirst, IsBadIn, IsTooMuch, IsNoMemory, IsTwofold, Step, TakesFirst, TakesLogLine, TakesOff, Took, answered, at_first, begun, behind, both, closed, command_len, continued, ended, entry_of, given_up, left_of, len_with, log_at, noted, opens, paired, read_log, rest_in, resets, started, switched};

use crate::follow::tpdu::are_status;
use crate::instructions::instruction;
use crate::read::digits::{append, is_digits};
use crate::read::entry::Entry;
use crate::read::form_row::{Found, Rows, Saying, read_rows};
use crate::read::pattern::Marks;
use crate::read::time::{behind_spaces, cut_time};
use crate::read::trace_line::LineFault;
use std::alloc::{AllocError, Global};
use std::mem;
use t0_core::{Direction, End};

/// The most bytes of an answer or a dump in several lines (this project's profile).
const READ_LIMIT: usize = 4_194_304;

/// What the next line may continue.
#[derive(Clone, Copy)]
pub enum Open {
    /// Nothing.
    Nothing,
    /// The bytes of this end.
    Line(End),
    /// A dump of this end's bytes, with the number of bytes left.
    Dump(End, usize),
    /// Nothing, and lines of bytes are notes.
    Off,
}

/// A log: what may continue, and the last command if it has no answer yet.
#[derive(Drop)]
pub struct Log {
    alloc: Global,
    pending: Open,
    /// The bytes so far of what may continue.
    bytes: Vec<u8>,
    /// The bytes that follow all of these.
    status: Vec<u8>,
    command: Option<Vec<u8>>,
    has_begun: bool,
    /// Whether the last line has bytes.
    has_bytes: bool,
}

impl Log {
    /// Starts a log.
    pub fn new(alloc: Global) -> Log
        ensures { log_at result ≡ at_first }
    {
        Log {
            alloc,
            pending: Open::Nothing,
            bytes: Vec::new(alloc),
            status: Vec::new(alloc),
            command: None,
            has_begun: false,
            has_bytes: false,
        }
    }

    /// Whether a command or an answer has begun.
    pub fn has_begun(&self) -> bool {
        self.has_begun
    }

    /// Whether the next line may continue bytes.
    pub fn is_open(&self) -> bool {
        matches!(self.pending, Open::Line(_) | Open::Dump(..))
    }

    /// Takes the next line, and appends what it adds to `entries`.
    ///
    /// # Errors
    ///
    /// - `Hex`, `Loose`: the line can't be read. If something was open, it has ended before it.
    /// - `Twofold`, `TooLong`: the line may continue what is open, or exceeds the limit with it.
    ///   Nothing changes.
    /// - `OutOfMemory`: don't use the log any more.
    pub fn take(
        &mut self,
        rows: &Rows,
        line: &[u8],
        entries: &mut Vec<Entry>,
    ) -> Result<(), LineFault>
        ensures takes { OnOk result ((step : Step) × TakesLogLine rows.now (log_at self.old)
            line.now step × Took step entries.old.items entries.new.items self.new) }
        ensures refused { IfErr result (λ why.
            IsBadIn rows.now self.old.pending (log_at self.old) why line.now) }
    {
        match self.pending {
            Open::Nothing => self.take_line(rows, line, entries),
            Open::Off => self.take_off(rows, line, entries),
            Open::Line(from) => {
                let Some((says, marks)) = read_rest(self.alloc, rows, 0, line)? else {
                    return self.take_behind(from, rows, line, entries);
                };
                if self.is_full(marks.bytes.as_slice()) {
                    return Err(LineFault::TooLong);
                }
                if self.is_twofold(from, says, &marks)? {
                    return Err(LineFault::Twofold);
                }
                let next = opens(from, &marks);
                Ok(self.take_bytes(from, marks, next, entries)?)
            }
            Open::Dump(from, left) => {
                let rest = read_rest(self.alloc, rows, left, line)?;
                let Some((says, marks)) = rest else {
                    return Err(LineFault::Hex);
                };
                if !matches!(says, Saying::Rest) || marks.bytes.len() > left {
                    return Err(LineFault::Hex);
                }
                if self.is_full(marks.bytes.as_slice()) {
                    return Err(LineFault::TooLong);
                }
                let next = left_of(from, left - marks.bytes.len());
                Ok(self.take_bytes(from, marks, next, entries)?)
            }
        }
    }

    /// Whether what is open exceeds the limit with these bytes.
    fn is_full(&self, more: &[u8]) -> bool
        ensures { result ≡ true → IsTooMuch self.now.bytes.items more.now }
    {
        more.len() > READ_LIMIT.saturating_sub(self.bytes.len())
    }

    /// Whether the last bytes of a line may continue the open answer or not: only digits say so,
    /// and the answer ends with a status with and without them.
    fn is_twofold(&self, from: End, says: Saying, more: &Marks) -> Result<bool, AllocError>
        ensures { IfOk result (λ is. is ≡ true →
            IsTwofold from says self.now.bytes.items (marked_by more.now)) }
    {
        let is_last = matches!(opens(from, more), Open::Nothing);
        if from == End::Terminal
            || !is_last
            || !matches!(says, Saying::Perhaps)
            || !ends_well(self.bytes.as_slice())
        {
            return Ok(false);
        }
        let mut all = self.bytes.clone()?;
        all.extend_from_slice(more.bytes.as_slice())?;
        Ok(ends_well(all.as_slice()))
    }

    /// Takes a line that ends what is open and does not continue it.
    #[tactic(auto, using(crate::proofs::LogLemmas::both_took))]
    fn take_behind(
        &mut self,
        from: End,
        rows: &Rows,
        line: &[u8],
        entries: &mut Vec<Entry>,
    ) -> Result<(), LineFault>
        ensures takes { OnOk result ((next : Step)
            × TakesFirst rows.now (closed (log_at self.old) from).at line.now next
            × Took (behind (closed (log_at self.old) from).gives next) entries.old.items
            entries.new.items self.new) }
        ensures refused { IfErr result (λ why.
            IsBadFirst why self.old.has_bytes line.now (read_log rows.now line.now)) }
    {
        self.close(from, entries)?;
        self.take_line(rows, line, entries)
    }

    /// Takes a line while nothing is open.
    fn take_line(
        &mut self,
        rows: &Rows,
        line: &[u8],
        entries: &mut Vec<Entry>,
    ) -> Result<(), LineFault>
        ensures takes { OnOk result ((step : Step)
            × TakesFirst rows.now (log_at self.old) line.now step
            × Took step entries.old.items entries.new.items self.new) }
        ensures refused { IfErr result (λ why.
            IsBadFirst why self.old.has_bytes line.now (read_log rows.now line.now)) }
    {
        let (_, text) = cut_time(line);
        let found = read_rows(self.alloc, rows.first.as_slice(), 0, text)?;
        match found {
            Found::Other if self.has_bytes && (are_digits(line) || are_digits(text)) => {
                Err(LineFault::Loose)
            }
            Found::Row(_, Saying::Off, _) => Ok(self.switch(Open::Off, entries)?),
            Found::Row(_, Saying::Sends(from), marks) => Ok(self.take_first(from, marks, entries)?),
            Found::Row(_, Saying::Both, marks) => Ok(self.take_both(marks, entries)?),
            Found::Row(_, Saying::Apart, marks) => {
                Ok(self.pair(marks.bytes, marks.status, entries)?)
            }
            Found::Row(_, Saying::Reset, _) => Ok(self.reset(entries)?),
            Found::Row(_, Saying::Atr, _) => Ok(self.take_atr(entries)?),
            Found::Unread => Err(LineFault::Hex),
            Found::Other
            | Found::Row(_, Saying::Rest | Saying::Perhaps | Saying::Note | Saying::On, _) => {
                Ok(self.note(entries)?)
            }
        }
    }

    /// Takes a line between a row `off` and a row `on`.
    fn take_off(
        &mut self,
        rows: &Rows,
        line: &[u8],
        entries: &mut Vec<Entry>,
    ) -> Result<(), LineFault>
        ensures takes { OnOk result ((step : Step)
            × TakesOff (read_log rows.now line.now) (log_at self.old) step
            × Took step entries.old.items entries.new.items self.new) }
        ensures refused { IfErr result IsNoMemory }
    {
        let (_, text) = cut_time(line);
        match read_rows(self.alloc, rows.first.as_slice(), 0, text)? {
            Found::Row(_, Saying::On, _) => Ok(self.switch(Open::Nothing, entries)?),
            Found::Row(_, Saying::Reset, _) => Ok(self.reset(entries)?),
            Found::Row(_, Saying::Atr, _) => Ok(self.take_atr(entries)?),
            Found::Other
            | Found::Unread
            | Found::Row(
                _,
                Saying::Sends(_)
                | Saying::Both
                | Saying::Apart
                | Saying::Rest
                | Saying::Perhaps
                | Saying::Note
                | Saying::Off,
                _,
            ) => Ok(self.note(entries)?),
        }
    }

    /// Takes the first bytes of a command or an answer.
    fn take_first(
        &mut self,
        from: End,
        marks: Marks,
        entries: &mut Vec<Entry>,
    ) -> Result<(), AllocError>
        ensures { OnOk result (Took (started (log_at self.old) from (marked_by marks))
            entries.old.items entries.new.items self.new) }
    {
        self.has_begun = true;
        if from == End::Terminal {
            self.begin(entries)?;
        }
        let next = opens(from, &marks);
        self.take_bytes(from, marks, next, entries)
    }

    /// Takes a command with its answer behind it.
    fn take_both(&mut self, marks: Marks, entries: &mut Vec<Entry>) -> Result<(), AllocError>
        ensures { OnOk result (Took (both (log_at self.old) (all_of (marked_by marks)))
            entries.old.items entries.new.items self.new) }
    {
        let mut command = marks.all()?;
        let answer = command.split_off(command_len(command.as_slice()))?;
        self.pair(command, answer, entries)
    }

    /// Takes a command with its answer.
    #[tactic(auto, using(crate::proofs::LogLemmas::pair_took))]
    fn pair(
        &mut self,
        command: Vec<u8>,
        answer: Vec<u8>,
        entries: &mut Vec<Entry>,
    ) -> Result<(), AllocError>
        ensures { OnOk result (Took (paired (log_at self.old) command.items answer.items)
            entries.old.items entries.new.items self.new) }
    {
        self.has_begun = true;
        self.begin(entries)?;
        self.has_bytes = true;
        push(entries, Entry::Pair(command, answer))
    }

    /// Takes a reset.
    fn reset(&mut self, entries: &mut Vec<Entry>) -> Result<(), AllocError>
        ensures { OnOk result (Took (resets (log_at self.old)) entries.old.items
            entries.new.items self.new) }
    {
        self.cut_off(entries)?;
        self.has_bytes = false;
        push(entries, Entry::Reset)
    }

    /// Takes an answer to reset, which is shown as a note.
    #[tactic(auto, using(crate::proofs::LogLemmas::noted_took))]
    fn take_atr(&mut self, entries: &mut Vec<Entry>) -> Result<(), AllocError>
        ensures { OnOk result (Took (behind (resets (log_at self.old)).gives
            (noted (resets (log_at self.old)).at)) entries.old.items entries.new.items self.new) }
    {
        self.reset(entries)?;
        self.note(entries)
    }

    /// Takes a note.
    fn note(&mut self, entries: &mut Vec<Entry>) -> Result<(), AllocError>
        ensures { OnOk result (Took (noted (log_at self.old)) entries.old.items entries.new.items
            self.new) }
    {
        self.has_bytes = false;
        push(entries, Entry::Note)
    }

    /// Takes a note, from which on bytes count or not.
    fn switch(&mut self, next: Open, entries: &mut Vec<Entry>) -> Result<(), AllocError>
        ensures { OnOk result (Took (switched (log_at self.old) next) entries.old.items
            entries.new.items self.new) }
    {
        self.pending = next;
        self.has_bytes = false;
        push(entries, Entry::Note)
    }

    /// Takes bytes of a command or an answer. They are the last ones if it is not open.
    fn take_bytes(
        &mut self,
        from: End,
        marks: Marks,
        next: Open,
        entries: &mut Vec<Entry>,
    ) -> Result<(), AllocError>
        ensures { OnOk result (Took (continued (log_at self.old) from (marked_by marks) next)
            entries.old.items entries.new.items self.new) }
    {
        append(&mut self.bytes, marks.bytes)?;
        append(&mut self.status, marks.status)?;
        self.pending = next;
        self.has_bytes = true;
        match next {
            Open::Nothing => self.close(from, entries),
            Open::Line(_) | Open::Dump(..) | Open::Off => Ok(()),
        }
    }

    /// Ends an open command or answer, which is now whole.
    fn close(&mut self, from: End, entries: &mut Vec<Entry>) -> Result<(), AllocError>
        ensures { OnOk result (Took (closed (log_at self.old) from) entries.old.items
            entries.new.items self.new) }
    {
        let mut bytes = self.cut();
        let status = mem::replace(&mut self.status, Vec::new(self.alloc));
        append(&mut bytes, status)?;
        match from {
            End::Terminal => {
                self.command = Some(bytes);
                Ok(())
            }
            End::Card => self.answer(bytes, entries),
        }
    }

    /// Returns the bytes of what is open, and closes it.
    fn cut(&mut self) -> Vec<u8>
        ensures bytes { result.items ≡ self.old.bytes.items }
        ensures left { (self.new.pending ≡ Nothing) × (self.new.bytes.items ≡ [])
            × (self.new.status ≡ self.old.status) × (self.new.command ≡ self.old.command)
            × (self.new.has_bytes ≡ self.old.has_bytes) }
    {
        self.pending = Open::Nothing;
        mem::replace(&mut self.bytes, Vec::new(self.alloc))
    }

    /// Takes an answer.
    fn answer(&mut self, bytes: Vec<u8>, entries: &mut Vec<Entry>) -> Result<(), AllocError>
        ensures { OnOk result (Took (answered (log_at self.old) bytes.items) entries.old.items
            entries.new.items self.new) }
    {
        match self.command.take() {
            Some(command) => push(entries, Entry::Pair(command, bytes)),
            None => push(entries, Entry::Stray(bytes)),
        }
    }

    /// Begins a command.
    fn begin(&mut self, entries: &mut Vec<Entry>) -> Result<(), AllocError>
        ensures { OnOk result (Took (begun (log_at self.old)) entries.old.items
            entries.new.items self.new) }
    {
        self.cut_off(entries)?;
        push(entries, Entry::Begins)
    }

    /// Reports the last command without an answer, if it has none.
    fn cut_off(&mut self, entries: &mut Vec<Entry>) -> Result<(), AllocError>
        ensures { OnOk result (Took (given_up (log_at self.old)) entries.old.items
            entries.new.items self.new) }
    {
        match self.command.take() {
            Some(command) => push(entries, Entry::Unanswered(command)),
            None => Ok(()),
        }
    }

    /// Ends the log, and appends what that adds to `entries`. An open answer is then whole, an open
    /// dump is cut off, and the last command may have no answer. Returns `AllocError` if memory ran
    /// out: `entries` may lack some of it.
    pub fn end(&mut self, entries: &mut Vec<Entry>) -> Result<(), AllocError>
        ensures { OnOk result (map entry_of entries.new.items
            ≡ map entry_of entries.old.items ++ ended (log_at self.old)) }
    {
        match self.pending {
            Open::Nothing | Open::Off => {}
            Open::Line(from) => self.close(from, entries)?,
            Open::Dump(from, _) => {
                let bytes = self.cut();
                push(entries, Entry::Part(from, bytes))?;
            }
        }
        self.cut_off(entries)
    }
}

/// Returns what a line leaves open with these bytes of an end.
fn opens(from: End, marks: &Marks) -> Open
    ensures { result ≡ opens from (marked_by marks.now) }
{
    if marks.count > 0 {
        Open::Dump(from, marks.count)
    } else if marks.goes_on > 0 && marks.goes_on == marks.bytes.len() {
        Open::Line(from)
    } else {
        Open::Nothing
    }
}

/// Returns what a dump with `left` more bytes leaves open.
fn left_of(from: End, left: usize) -> Open
    ensures { result ≡ left_of from left }
{
    if left == 0 {
        Open::Nothing
    } else {
        Open::Dump(from, left)
    }
}

/// Returns what a line adds to what is open; `None` if it has no bytes for it.
fn read_rest(
    alloc: Global,
    rows: &Rows,
    left: usize,
    line: &[u8],
) -> Result<Option<(Saying, Marks)>, AllocError>
    ensures { IfOk result (λ rest. rest_in rows.now left line.now
        ≡ elim rest [ None ↦ None | Some pair ↦ Some (pair.0, marked_by pair.1) ]) }
{
    match read_rows(alloc, rows.rest.as_slice(), left, line)? {
        Found::Row(_, says, marks) if !marks.bytes.is_empty() => Ok(Some((says, marks))),
        _ => Ok(None),
    }
}

/// Returns the length of the command before its answer.
fn command_len(bytes: &[u8]) -> usize
    ensures value { result ≡ command_len bytes.now }
    ensures within { result ≤ length bytes.now }
{
    let [cla, ins, _, _, p3, ..] = bytes else {
        return bytes.len();
    };
    if bytes.len() < 8 {
        return 5;
    }
    let way = instruction(*cla, *ins).map(|(_, way, _)| way);
    len_with(way, *p3, bytes.len())
}

/// Returns the length of the command in a line of `all` bytes, with data before SW1-SW2. They are
/// those of the end that sends data this way, the terminal's as many as P3 says. Else the answer is
/// empty.
fn len_with(way: Option<Direction>, p3: u8, all: usize) -> usize
    requires { 5 ≤ all }
    ensures value { result ≡ len_with way p3 all }
    ensures within { result ≤ all }
{
    match way {
        Some(Direction::ToCard) => {
            if all < usize::from(p3) + 7 {
                all
            } else {
                usize::from(p3) + 5
            }
        }
        Some(Direction::FromCard) => 5,
        None => { if p3 == 0 { 5 } else { all } }
    }
}

/// Whether a text has digits and spaces alone, and some digit.
fn are_digits(text: &[u8]) -> bool
    ensures { result ≡ is_digits (behind_spaces text.now) }
{
    is_digits(behind_spaces(text))
}

/// Whether an answer of these bytes ends with a status.
fn ends_well(bytes: &[u8]) -> bool
    ensures { result ≡ are_status (status_in bytes.now) }
{
    let (_, status) = bytes.split_at(bytes.len().saturating_sub(2));
    are_status(status)
}

#[tactic(auto, using(crate::proofs::LogLemmas::entries_more))]
fn push(entries: &mut Vec<Entry>, one: Entry) -> Result<(), AllocError>
    ensures { OnOk result (map entry_of entries.new.items
        ≡ map entry_of entries.old.items ++ entry_of one ∷ []) }
{
    entries.push(one).map_err(AllocError::from)
}
