//! Forms of lines: which pattern says what. The program's own forms and those of a file are written
//! in the same language, which `docs/TRACES.md` teaches.

use crate::read::form_row::{Row, Rows, Saying};
use crate::read::pattern::{Part, Stop, number_of};
use crate::read::time::place_of;
use std::alloc::{AllocError, Global};
use std::fmt;
use t0_core::End;
use thiserror::Error;

/// ESC, which begins a colour.
const ESC: u8 = 0x1B;

/// The bytes of a line that may continue in the next one, unless its form says otherwise.
const ROW: usize = 16;

/// The form of a log without `--form`.
pub const LOG: &str = "pcsc";

/// The place of the first form of a file in rows of characters: behind the program's forms.
pub const OF_FILE: usize = 4096;

/// The program's forms. Those of characters at T=0 come first.
pub const FORMS: &str = "\
form angle: characters
command: > {bytes}
answer: < {bytes}
reset: reset
command: pps > {bytes}
answer: pps < {bytes}
form angles: characters
command: >> {bytes}
answer: << {bytes}
form arrow: characters
command: -> {bytes}
answer: <- {bytes}
form double: characters
command: => {bytes}
answer: <= {bytes}
form TX: characters
command: TX {bytes}
answer: RX {bytes}
form TX:: characters
command: TX: {bytes}
answer: RX: {bytes}
form Tx:: characters
command: Tx: {bytes}
answer: Rx: {bytes}
form T:: characters
command: T: {bytes}
answer: C: {bytes}
form IFD: characters
command: IFD {bytes}
answer: ICC {bytes}
form IFD:: characters
command: IFD: {bytes}
answer: ICC: {bytes}
form QXDM: characters
command: TX - {bytes}
answer: RX - {bytes}
form pcsc: commands
command: > {bytes}
answer: < {bytes}{more}
reset: reset
reset: > RESET{any}
note: < OK:{any}
note: < KO:{any}
note: <-{any}
answer: < [] {bytes}
answer: < {bytes}: {any}
rest: {row}{any}
rest: {bytes}:{any}
perhaps: {bytes}{more}
command: {prefix}APDU: {bytes}{colour}
answer: {prefix}SW: {bytes}{colour}
command: Outgoing APDU ({count} byte):{any}
command: Outgoing APDU ({count} bytes):{any}
answer: Incoming APDU ({count} byte):{any}
answer: Incoming APDU ({count} bytes):{any}
form pyscard: commands
command: > {bytes}
answer: < [] {short}
answer: < {short}
form C-APDU: commands
command: C-APDU: {bytes}
answer: R-APDU: {bytes}
form whole-angles: commands
command: >> {bytes}
answer: << {bytes}
form sent: commands
command: Sent APDU: {bytes}
answer: Received APDU: {bytes}
form gp: commands
command: A>> T={any} ({any}) {bytes}
answer: A<< ({any}) ({any}) {bytes}
form gpshell: commands
command: Command --> {bytes}
answer: Response <-- {bytes}
form gscriptor: commands
command: Sending: {bytes}
answer: Received: {bytes}{more}
perhaps: {bytes}{more}
form jcshell: commands
command: {spaces}=> {column}{any}{more}
answer: {spaces}<= {column}{any}{more}
rest:  {column}{any}{more}
form pysim: commands
command: -> {bytes}
answer: <- {status}: {bytes}
form scdaemon: commands
command: {any} DBG: PCSC_data: {bytes}
command: {any} DBG: PCSC_data: {more 32}{bytes} \\
answer: {any} DBG: response: sw={status} datalen={count}
rest: {time}{any} DBG: dump: [all zero]{zeros}
rest: {time}{any} DBG: dump: {bytes}
rest: {time}{any} DBG: dump: {bytes} \\
rest: {time}{any} DBG: {bytes}
rest: {time}{any} DBG: {more 32}{bytes} \\
form pcsc-spy: commands
on: {prefix}SCardTransmit{any}
off: {prefix}=> {any}
command: {prefix}i 0000 {dump}{any}{more}
answer: {prefix}o 0000 {dump}{any}{more}
rest: {prefix}i {skip 1}0 {dump}{any}{more}
rest: {prefix}o {skip 1}0 {dump}{any}{more}
form simtrace2: commands
both: TPDU: {bytes}
atr: Parsed ATR: {bytes}
";

/// A form: its name, and whether its bytes are whole commands and answers.
#[derive(Clone, Copy)]
pub struct Form<'t> {
    pub name: &'t str,
    pub is_whole: bool,
}

/// Forms with all their rows.
#[derive(Drop)]
pub struct Forms<'t> {
    pub forms: Vec<Form<'t>>,
    rows: Vec<Row>,
}

/// The two signs of the program's form at this place, the terminal's first; or words for the first
/// form of a file.
#[derive(Clone, Copy)]
pub struct Signs(pub usize);

impl fmt::Display for Signs {
    fn fmt<W: fmt::Write>(&self, f: &mut fmt::Formatter<W>) -> fmt::Result {
        let place = self.0.saturating_add(1);
        let Some(rows) = FORMS.split("form ").nth(place) else {
            return f.write_str("the first in the file of forms");
        };
        let mut between = "";
        for line in rows.split('\n') {
            if let Some((_, pattern)) = line.split_once(": ")
                && let Some(sign) = pattern.strip_suffix(" {bytes}")
                && !sign.starts_with("pps ")
            {
                write!(f, "{between}{sign}")?;
                between = " and ";
            }
        }
        Ok(())
    }
}

/// Why a text is not a list of forms, or of names.
#[derive(Clone, Copy, Debug, Error)]
pub enum FormsFault {
    /// The form is of whole commands, and `--resume` is for characters.
    #[error("error: `--resume` cannot be used with a form of whole commands")]
    Resume,
    /// The file of these rows can't be read.
    #[error("the file of {0} can't be read")]
    Open(&'static str),
    /// This line is neither the head of a form, nor a row of one.
    #[error("the file of forms, line {0}: neither the head of a form nor a row of one")]
    Line(usize),
    /// This line is no row of names.
    #[error("the file of names, line {0}: no row of a tag, an application identifier or a bit")]
    Name(usize),
    /// Memory ran out.
    #[error("out of memory")]
    OutOfMemory(#[from(alloc)] AllocError),
}

impl<'t> Forms<'t> {
    /// Reads forms. Empty lines and those that begin with `#` don't count.
    pub fn of(alloc: Global, text: &'t str) -> Result<Forms<'t>, FormsFault> {
        let mut forms = Vec::new(alloc);
        let mut rows = Vec::new(alloc);
        for (place, line) in text.split('\n').enumerate() {
            let bad = FormsFault::Line(place.saturating_add(1));
            if line.is_empty() || line.starts_with('#') {
                continue;
            }
            if let Some(head) = line.strip_prefix("form ") {
                forms.push(form_of(head).ok_or(bad)?)?;
            } else {
                let place = forms.len().checked_sub(1).ok_or(bad)?;
                let row = row_of(alloc, place, line)?.ok_or(bad)?;
                rows.push(row)?;
            }
        }
        Ok(Forms { forms, rows })
    }

    /// Returns the place of the form with this name.
    pub fn place_of(&self, name: &str) -> Option<usize> {
        self.forms.iter().position(|form| form.name == name)
    }

    /// Whether the bytes of this form are whole commands and answers.
    pub fn is_whole(&self, place: usize) -> bool {
        self.forms.get(place).is_some_and(|form| form.is_whole)
    }

    /// Returns the names of the forms.
    pub fn names(&self, alloc: Global) -> Result<Vec<&'t str>, AllocError> {
        let mut names = Vec::new(alloc);
        for form in &self.forms {
            names.push(form.name)?;
        }
        Ok(names)
    }

    /// Returns the rows of a log of this form, or without one those of characters, of all forms. If
    /// `swaps`, a row of one end is one of the other. The place of the first form becomes `first`.
    pub fn rows(
        &self,
        alloc: Global,
        log: Option<usize>,
        swaps: bool,
        first: usize,
    ) -> Result<Rows, AllocError> {
        let mut chosen = Rows::none(alloc);
        for row in &self.rows {
            let is_chosen = match log {
                Some(place) => row.form == place,
                None => !self.is_whole(row.form),
            };
            if is_chosen {
                let mut row = row.copied()?;
                row.form = row.form.saturating_add(first);
                if swaps {
                    row.says = row.says.swapped();
                }
                chosen.push(row)?;
            }
        }
        Ok(chosen)
    }
}

/// Returns the form of a head, behind `form `.
fn form_of(head: &str) -> Option<Form<'_>> {
    let whole = head.strip_suffix(": commands");
    let name = whole.or(head.strip_suffix(": characters"))?;
    let is_whole = whole.is_some();
    Some(Form { name, is_whole })
}

/// Returns a row; `None` if the line is not one.
fn row_of(alloc: Global, form: usize, line: &str) -> Result<Option<Row>, AllocError> {
    let Some((kind, pattern)) = line.split_once(": ") else {
        return Ok(None);
    };
    let Some(says) = saying_of(kind) else {
        return Ok(None);
    };
    let Some(mut parts) = parts_of(alloc, pattern.as_bytes())? else {
        return Ok(None);
    };
    let Some(says) = apart(says, parts.as_mut_slice()) else {
        return Ok(None);
    };
    let size = head_len(parts.as_slice()).min(parts.len());
    let mut head = parts;
    let tail = head.split_off(size)?;
    Ok(Some(Row {
        form,
        says,
        head,
        tail,
    }))
}

/// Returns what a row with these parts says. In a row `both` with two fields of bytes the second is
/// the answer's, and so are all statuses. `None` if there are more.
fn apart(says: Saying, parts: &mut [Part]) -> Option<Saying> {
    if !matches!(says, Saying::Both) {
        return Some(says);
    }
    let mut fields: usize = 0;
    for part in parts {
        if let Part::Bytes(stop) = *part {
            fields = fields.saturating_add(1);
            if fields == 2 {
                *part = Part::Status(stop);
            }
        }
    }
    match fields {
        0 | 1 => Some(says),
        2 => Some(Saying::Apart),
        _ => None,
    }
}

/// What rows of each kind say.
static KINDS: [(&str, Saying); 10] = [
    ("command", Saying::Sends(End::Terminal)),
    ("answer", Saying::Sends(End::Card)),
    ("both", Saying::Both),
    ("reset", Saying::Reset),
    ("atr", Saying::Atr),
    ("rest", Saying::Rest),
    ("perhaps", Saying::Perhaps),
    ("note", Saying::Note),
    ("on", Saying::On),
    ("off", Saying::Off),
];

/// Returns what a row of this kind says.
fn saying_of(kind: &str) -> Option<Saying> {
    Some(KINDS.iter().find(|row| row.0 == kind)?.1)
}

/// Returns the parts of a pattern; `None` if a brace is open, or has no part's name in it.
fn parts_of(alloc: Global, pattern: &[u8]) -> Result<Option<Vec<Part>>, AllocError> {
    let mut parts = Vec::new(alloc);
    let mut rest = pattern;
    for _place in 0..pattern.len() {
        match rest {
            [] => break,
            [b'{', name @ ..] => {
                let (name, behind) = name.split_at(place_of(b'}', name));
                let [_, behind @ ..] = behind else {
                    return Ok(None);
                };
                let Some(part) = part_of(name, stop_before(behind)) else {
                    return Ok(None);
                };
                parts.push(part)?;
                rest = behind;
            }
            [b' ', b' ', ..] => rest = &rest[1..],
            [b' ', behind @ ..] => {
                parts.push(Part::Gap)?;
                parts.push(Part::Spaces)?;
                rest = behind;
            }
            [byte, behind @ ..] => {
                parts.push(Part::Is(*byte))?;
                if byte.is_ascii_alphanumeric() && ends_word(behind) {
                    parts.push(Part::WordEnd)?;
                }
                rest = behind;
            }
        }
    }
    Ok(Some(parts))
}

/// Whether a word ends before this rest of a pattern. Digits of bytes may touch it.
fn ends_word(behind: &[u8]) -> bool {
    match behind {
        [] | [b' ', ..] => true,
        _ => behind.starts_with(b"{") && !behind.starts_with(b"{bytes}"),
    }
}

/// Returns the part with this name, if its field ends so.
fn part_of(name: &[u8], stop: Stop) -> Option<Part> {
    let parts = [
        ("any", Part::Any(stop)),
        ("bytes", Part::Bytes(stop)),
        ("short", Part::Short(stop)),
        ("status", Part::Status(stop)),
        ("count", Part::Count(stop)),
        ("column", Part::Bytes(Stop::Column)),
        ("dump", Part::Bytes(Stop::Dump)),
        ("colour", Part::Any(Stop::End)),
        ("row", Part::Row),
        ("zeros", Part::Zeros),
        ("spaces", Part::Spaces),
        ("time", Part::Time),
        ("prefix", Part::Prefix),
        ("more", Part::More(ROW)),
    ];
    match parts.iter().find(|row| row.0.as_bytes() == name) {
        Some((_, part)) => Some(*part),
        None => counted(name),
    }
}

/// Returns the part with a number behind this name.
fn counted(name: &[u8]) -> Option<Part> {
    match name.strip_prefix(b"skip ") {
        Some(digits) => Some(Part::Skip(number_of(digits)?)),
        None => Some(Part::More(number_of(name.strip_prefix(b"more ")?)?)),
    }
}

/// Returns where a field ends before this rest of a pattern.
fn stop_before(behind: &[u8]) -> Stop {
    match behind {
        _ if behind.starts_with(b"{colour}") => Stop::Before(ESC),
        [] | [b'{', ..] => Stop::End,
        [byte, ..] => Stop::Before(*byte),
    }
}

/// Returns the number of parts up to the end of the first text. Only parts without bytes precede
/// it.
fn head_len(parts: &[Part]) -> usize {
    let mut len = 0;
    for (place, part) in parts.iter().enumerate() {
        match part {
            Part::Is(_) | Part::WordEnd => len = place.saturating_add(1),
            Part::Gap | Part::Spaces => {}
            Part::Any(_) | Part::Time | Part::Prefix if len == 0 => {}
            _ => break,
        }
    }
    len
}
