//! How the lines of a trace are read.
ghost use Rattle.std.specs.Prelude.{◌≡◌};
ghost use Rattle.t0_core.specs.TapSide.{other_end};
ghost use Rattle.trace_explain.specs.Lines.{read_on};
ghost use Rattle.trace_explain.specs.Turns.{sender};

use crate::read::entry::Source;
use crate::read::files::FileList;
use crate::read::form_row::Rows;
use crate::read::forms::{Forms, LOG, OF_FILE};
use crate::read::time::are_decimal;
use crate::read::ways::Ways;
use std::alloc::{AllocError, Global};
use t0_core::End;
use t1_core::Edc;

/// What the command line says of the lines of a trace.
#[derive(Clone, Copy)]
pub struct Options<'a> {
    /// The name of their form.
    pub form: Option<&'a str>,
    /// The file whose first form is theirs.
    pub file: Option<&'a str>,
    /// As in `Reading`.
    pub swaps: bool,
    /// As in `Reading`.
    pub is_unsigned: bool,
    /// As in `Reading`.
    pub ways: Ways,
    /// Whether they are a log of whole TPDUs, whatever their form says.
    pub of_tpdus: bool,
    /// As in `Reading`.
    pub first_edc: Option<Edc>,
}

impl Options<'_> {
    /// Whether the lines show their form.
    pub fn is_open(&self) -> bool {
        !self.of_tpdus && !self.is_unsigned && self.form.is_none() && self.file.is_none()
    }

    /// Returns how the lines of a trace are read, with these forms.
    ///
    /// # Errors
    ///
    /// - `AllocError`: memory ran out.
    pub fn reading(&self, alloc: Global, forms: &Forms<'_>) -> Result<Reading, AllocError> {
        let (form, first) = match self.file {
            Some(_) => (Some(0), OF_FILE),
            None => (self.form.and_then(|name| forms.place_of(name)), 0),
        };
        let is_whole = form.is_some_and(|place| forms.is_whole(place));
        let of_tpdus = self.of_tpdus || is_whole;
        let log = if of_tpdus {
            form.or(forms.place_of(LOG))
        } else {
            None
        };
        Ok(Reading {
            rows: forms.rows(alloc, log, of_tpdus && self.swaps, first)?,
            form: form.map(|place| place.saturating_add(first)),
            swaps: self.swaps,
            is_unsigned: self.is_unsigned,
            ways: self.ways,
            of_tpdus,
            first_edc: self.first_edc,
            files: FileList::none(alloc),
        })
    }
}

/// How the lines of a trace are read, by the options and the lines before.
#[derive(Drop)]
pub struct Reading {
    /// The rows of the forms that lines may have.
    pub rows: Rows,
    /// The form of the lines, once it is known: its place among all forms.
    pub form: Option<usize>,
    /// Whether the other end sends what follows each sign.
    pub swaps: bool,
    /// Whether lines have no signs.
    pub is_unsigned: bool,
    /// The ways of instructions that the options give. They count without signs.
    pub ways: Ways,
    /// Whether the lines are a log of whole TPDUs or APDUs.
    pub of_tpdus: bool,
    /// The error detection code of the blocks of T=1 among which the trace begins; `None` if it
    /// does not.
    pub first_edc: Option<Edc>,
    /// The files of the trace.
    pub files: FileList,
}

impl Reading {
    /// Reads on after a line of characters of this source: the form is that of its sign, whatever
    /// it was before. Without a sign nothing changes.
    pub fn take(&mut self, source: Source)
        ensures { self.new ≡ read_on source self.old }
    {
        if let Source::Sign(form, _) = source {
            self.form = Some(form);
        }
    }

    /// Returns the time that counts, before this rest of a line. Without signs, digits alone are
    /// bytes. In a log they count only before a sign or `reset`.
    pub fn counted<'a>(&self, time: &'a [u8], rest: &[u8]) -> &'a [u8] {
        let counts = if self.of_tpdus && !matches!(rest, [b'>' | b'<', ..] | b"reset") {
            !are_decimal(time)
        } else {
            !(self.is_unsigned && are_decimal(time))
        };
        if counts { time } else { &[] }
    }

    /// Returns the end whose characters follow this end's sign.
    pub fn sender(&self, from: End) -> End
        ensures { result ≡ sender self.now from }
    {
        if self.swaps { other_end(from) } else { from }
    }
}

/// Returns the other end.
pub fn other_end(from: End) -> End
    ensures { result ≡ other_end from }
{
    match from {
        End::Terminal => End::Card,
        End::Card => End::Terminal,
    }
}
