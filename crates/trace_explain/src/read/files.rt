//! The files of a trace: each line of the trace is a line of one of them.
ghost use Rattle.std.specs.Prelude.{◌≡◌};
ghost use Rattle.std.specs.Option.{option_copied};
ghost use Rattle.trace_explain.specs.Files.{file_at, name_at, number_at};

use crate::read::digits::append;
use crate::read::wide::as_utf8;
use std::alloc::{AllocError, Global};
use std::fs::File;
use std::io::{ErrorKind, Read};
use std::rt::Files;
use thiserror::Error;

/// Why the files of a trace can't be read.
#[derive(Clone, Copy, Debug, Error)]
pub enum FileFault<'p> {
    /// This file can't be opened.
    #[error("{0}: can't be opened")]
    Open(&'p str),
    /// This file can't be read.
    #[error("{0}: read fault")]
    Read(&'p str),
    /// Memory ran out.
    #[error("out of memory")]
    OutOfMemory,
}

impl<'p> From<AllocError> for FileFault<'p> {
    fn from(_error: AllocError) -> FileFault<'p> {
        FileFault::OutOfMemory
    }
}

/// Reads several files, and returns them with all their bytes. `-` is `input`. The last line of
/// each ends before the next one, even if it has no LF.
pub fn joined<'p, D: Files, R: Read>(
    alloc: Global,
    paths: &[&'p str],
    files: &D,
    input: &mut R,
) -> Result<(FileList, Vec<u8>), FileFault<'p>> {
    let mut list = FileList::none(alloc);
    let mut all: Vec<u8> = Vec::new(alloc);
    let mut first: u64 = 1;
    for &path in paths {
        let begins = all.len();
        let mut own = Vec::new(alloc);
        let read = match path {
            "-" => input.read_to_end(&mut own),
            _ => File::open(files, path)
                .map_err(|_| FileFault::Open(path))?
                .read_to_end(&mut own),
        };
        if let Err(error) = read {
            return Err(match error.kind() {
                ErrorKind::OutOfMemory => FileFault::OutOfMemory,
                _ => FileFault::Read(path),
            });
        }
        append(&mut all, as_utf8(alloc, own)?)?;
        if all.len() > begins && all.last() != Some(&b'\n') {
            all.push(b'\n').map_err(AllocError::from)?;
        }
        list.push(path, first)?;
        let ends = all[begins..].iter().filter(|byte| **byte == b'\n').count();
        first = first.saturating_add(ends as u64);
    }
    Ok((list, all))
}

/// A file of a trace.
#[derive(Drop)]
struct Part {
    /// Its name, with `\xHH` for a byte that is not printable ASCII.
    name: String,
    /// The line of the trace that is its first, counted from 1.
    first: u64,
}

/// The files of a trace, in turn. A trace of standard input, or of one file, has none.
#[derive(Drop)]
pub struct FileList {
    alloc: Global,
    parts: Vec<Part>,
}

impl FileList {
    /// No files.
    pub fn none(alloc: Global) -> FileList {
        FileList {
            alloc,
            parts: Vec::new(alloc),
        }
    }

    /// Appends a file whose first line is this one. Returns `AllocError` if memory ran out.
    pub fn push(&mut self, path: &str, first: u64) -> Result<(), AllocError> {
        let mut name = String::new(self.alloc);
        for &byte in path.as_bytes() {
            match byte {
                b' '..=b'~' => name.push(char::from(byte))?,
                _ => write!(name, "\\x{byte:02X}")?,
            }
        }
        Ok(self.parts.push(Part { name, first })?)
    }

    /// Appends the next of `others`, those that begin with this line or before. Returns
    /// `AllocError` if memory ran out.
    pub fn extend(&mut self, others: &FileList, last: u64) -> Result<(), AllocError> {
        for part in others.parts.iter().skip(self.parts.len()) {
            if part.first <= last {
                self.push(part.name.as_str(), part.first)?;
            }
        }
        Ok(())
    }

    /// Returns the number of this line of the trace in its file.
    pub fn number(&self, line: u64) -> u64
        ensures { result ≡ number_at self.now.parts.items line }
    {
        self.at(line).1
    }

    /// Returns the file with this line of the trace: the last that begins with it or before.
    fn file(&self, line: u64) -> Option<&Part>
        ensures { option_copied result ≡ file_at self.now.parts.items line }
    {
        let mut found = None;
        for part in &self.parts {
            if part.first <= line {
                found = Some(part);
            }
        }
        found
    }

    /// Returns the name of the file with this line of the trace, if any, and the line's number in
    /// it.
    pub fn at(&self, line: u64) -> (Option<&str>, u64)
        ensures name { option_copied result.0 ≡ name_at self.now.parts.items line }
        ensures number { result.1 ≡ number_at self.now.parts.items line }
    {
        match self.file(line) {
            Some(part) => {
                let before = part.first.saturating_sub(1);
                (Some(part.name.as_str()), line.saturating_sub(before))
            }
            None => (None, line),
        }
    }
}
