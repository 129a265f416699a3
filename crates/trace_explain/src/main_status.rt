//! The program over any reader and writers.
ghost use Rattle.std.specs.Prelude.{◌≡◌, ◌≤◌, OnOk, IfErr};
ghost use Rattle.trace_explain.specs.Trace.{status_of};

use crate::command_line::{Request, parsed};
use crate::describe::mask::Mask;
use crate::describe::names::Names;
use crate::detect::{forms_of, head_of};
use crate::diff::{DiffFault, diff};
use crate::explain::explain;
use crate::explain_fault::ExplainFault;
use crate::help;
use crate::read::files::{FileFault, FileList, joined};
use crate::read::forms::{FORMS, Forms, FormsFault};
use crate::read::reading::{Options, Reading};
use crate::read::wide;
use crate::write::sink::Sink;
use clap::Error;
use clap::error::ErrorKind;
use std::alloc::Global;
use std::fs::File;
use std::io::{Read, Write, read_to_string};
use std::rt::Files;
use std::{fmt, io, mem};

/// Runs the program on its words, and returns its exit status. The first word is its name.
///
/// - 0: it explained the trace and found no protocol error, or found two traces alike. Or it wrote
///   help or the version to `output`, or nobody reads the explanation any more.
/// - 1: a fault or a protocol error, which it writes to `faults`. Or two traces differ: `output`
///   shows in what.
/// - 2: the command line is refused, for a reason that it writes to `faults`.
///
/// A failure of `faults` changes no status.
pub fn main_status<D: Files, R: Read, W: Write, F: Write>(
    alloc: Global,
    words: &[String],
    files: &D,
    input: &mut R,
    output: &mut W,
    faults: &mut F,
) -> u8
    ensures status { result ≤ 2 }
{
    let names = match names(alloc) {
        Ok(names) => names,
        Err(fault) => return print_fault(&fault, faults),
    };
    match parsed(alloc, words, names.as_slice()) {
        Ok(asked) => carry_out(alloc, asked, files, input, output, faults),
        Err(error) => answered(&error, output, faults),
    }
}

/// Does what the command line asks for. Returns the exit status.
fn carry_out<D: Files, R: Read, W: Write, F: Write>(
    alloc: Global,
    mut asked: Request<'_>,
    files: &D,
    input: &mut R,
    output: &mut W,
    faults: &mut F,
) -> u8
    ensures status { result ≤ 2 }
{
    let names = match tables(alloc, asked.names, files) {
        Ok(names) => names,
        Err(fault) => return print_fault(&fault, faults),
    };
    if asked.lists_names {
        return status(&output.put(names.text().as_bytes()), faults);
    }
    let mask = mem::replace(&mut asked.mask, Mask::none(alloc));
    asked.mask = mask.with(names);
    let Some(paths) = asked.compared else {
        return explained(alloc, asked, files, input, output, faults);
    };
    match diff_files(alloc, asked, files, paths, output) {
        Ok(alike) => u8::from(!alike),
        Err(DiffFault::Forms(fault)) => refused(fault, faults),
        Err(fault) => print_fault(&fault, faults),
    }
}

/// Explains the trace of the files, or of `input`. Returns the exit status.
fn explained<D: Files, R: Read, W: Write, F: Write>(
    alloc: Global,
    asked: Request<'_>,
    files: &D,
    input: &mut R,
    output: &mut W,
    faults: &mut F,
) -> u8
    ensures status { result ≤ 2 }
{
    match asked.path() {
        Some("-") => explained_one(alloc, asked, files, input, output, faults),
        Some(path) => match File::open(files, path) {
            Ok(mut file) => explained_one(alloc, asked, files, &mut file, output, faults),
            Err(_) => print_fault(&FileFault::Open(path), faults),
        },
        None => match joined(alloc, asked.paths.as_slice(), files, input) {
            Ok((list, text)) => {
                let mut input = text.as_slice();
                explained_by(alloc, asked, files, &list, &mut input, output, faults)
            }
            Err(fault) => print_fault(&fault, faults),
        },
    }
}

/// Explains the trace of one file, perhaps in UTF-16. Returns the exit status.
fn explained_one<D: Files, R: Read, W: Write, F: Write>(
    alloc: Global,
    asked: Request<'_>,
    files: &D,
    input: &mut R,
    output: &mut W,
    faults: &mut F,
) -> u8
    ensures status { result ≤ 2 }
{
    let none = FileList::none(alloc);
    match wide::begin(alloc, input) {
        Ok(begun) => {
            let mut whole = begun.as_slice().chain(input);
            explained_by(alloc, asked, files, &none, &mut whole, output, faults)
        }
        Err(_) => print_fault(&ExplainFault::OutOfMemory, faults),
    }
}

/// Explains a trace of these files. Returns the exit status.
fn explained_by<D: Files, R: Read, W: Write, F: Write>(
    alloc: Global,
    asked: Request<'_>,
    files: &D,
    list: &FileList,
    input: &mut R,
    output: &mut W,
    faults: &mut F,
) -> u8
    ensures status { result ≤ 2 }
{
    let (head, reading) = match begin(alloc, &asked, files, list, input, faults) {
        Ok(begun) => begun,
        Err(fault) => return refused(fault, faults),
    };
    let path = asked.path();
    let (layout, resumes) = (asked.layout, asked.resumes);
    let title = asked.title.unwrap_or("A trace, explained");
    let mask = asked.mask;
    let mut whole = head.as_slice().chain(input);
    let mut outcome = explain(
        alloc, layout, title, mask, resumes, reading, &mut whole, output,
    );
    print_place(&mut outcome, path, list, faults);
    status(&outcome, faults)
}

/// Writes the file of a fault before it, and makes its line one of this file. `path` is that of a
/// trace of one file, or `-`.
fn print_place<F: Write>(
    outcome: &mut Result<(), ExplainFault>,
    path: Option<&str>,
    list: &FileList,
    faults: &mut F,
) {
    if let Err(fault) = outcome {
        if let Some(line) = fault.line() {
            let (name, number) = list.at(*line);
            *line = number;
            if let Some(name) = name {
                let _ = write!(faults, "{name} ");
            }
        } else if let (ExplainFault::Read, Some(path)) = (fault, path)
            && path != "-"
        {
            let _ = write!(faults, "{path}: ");
        }
    }
}

/// Returns the bytes that were read to find the form of a trace of these files, and how its lines
/// are read. Writes the form to `faults` if it is one of whole commands.
fn begin<D: Files, R: Read, F: Write>(
    alloc: Global,
    asked: &Request<'_>,
    files: &D,
    list: &FileList,
    input: &mut R,
    faults: &mut F,
) -> Result<(Vec<u8>, Reading), FormsFault> {
    let mut options = asked.options;
    let mut head = Vec::new(alloc);
    if options.is_open() && !asked.resumes {
        head = head_of(alloc, input)?;
        let forms = forms_of(alloc, &options, head.as_slice())?;
        if let Some(form) = forms.first() {
            options.form = Some(*form);
            print_forms(forms.as_slice(), faults);
        }
    }
    let mut reading = reading(alloc, &options, files)?;
    if reading.of_tpdus && asked.resumes {
        return Err(FormsFault::Resume);
    }
    reading.files.extend(list, u64::MAX)?;
    Ok((head, reading))
}

/// Writes why the forms are refused to `faults`. Returns 2 for the command line, otherwise 1.
fn refused<F: Write>(fault: FormsFault, faults: &mut F) -> u8
    ensures status { result ≤ 2 }
{
    let _ = faults.writeln(&fault);
    match fault {
        FormsFault::Resume => 2,
        _ => 1,
    }
}

/// Writes the form, and others that read as many lines.
fn print_forms<F: Write>(forms: &[&str], faults: &mut F) {
    let mut before = "form: ";
    for form in forms {
        let _ = write!(faults, "{before}{form}");
        before = " or ";
    }
    let _ = faults.writeln("");
}

/// Returns the names of the forms.
fn names(alloc: Global) -> Result<Vec<&'static str>, FormsFault> {
    Ok(Forms::of(alloc, FORMS)?.names(alloc)?)
}

/// Returns how lines are read with these options.
fn reading<D: Files>(
    alloc: Global,
    options: &Options<'_>,
    files: &D,
) -> Result<Reading, FormsFault> {
    match options.file {
        Some(path) => read_by(
            alloc,
            options,
            text_of(alloc, files, path, "forms")?.as_str(),
        ),
        None => read_by(alloc, options, FORMS),
    }
}

/// The same by the forms in this text.
fn read_by(alloc: Global, options: &Options<'_>, text: &str) -> Result<Reading, FormsFault> {
    let forms = Forms::of(alloc, text)?;
    if forms.forms.is_empty() {
        return Err(FormsFault::Line(1));
    }
    Ok(options.reading(alloc, &forms)?)
}

/// Returns the names of the program, after those of the file at this path, if any.
fn tables<D: Files>(alloc: Global, path: Option<&str>, files: &D) -> Result<Names, FormsFault> {
    match path {
        Some(path) => Names::of(alloc, text_of(alloc, files, path, "names")?.as_str()),
        None => Names::of(alloc, ""),
    }
}

/// Returns the text of a file with rows of this kind.
fn text_of<D: Files>(
    alloc: Global,
    files: &D,
    path: &str,
    kind: &'static str,
) -> Result<String, FormsFault> {
    let fault = FormsFault::Open(kind);
    let file = File::open(files, path).ok().ok_or(fault)?;
    read_to_string(alloc, file).ok().ok_or(fault)
}

/// Compares the traces of two files.
fn diff_files<D: Files, W: Write>(
    alloc: Global,
    asked: Request<'_>,
    files: &D,
    paths: (&str, &str),
    output: &mut W,
) -> Result<bool, DiffFault> {
    let (mut a, mut b, readings) = open_both(alloc, &asked, files, paths)?;
    let title = asked.title.unwrap_or("Two traces, compared");
    let (mask, readers) = (asked.mask, (&mut a, &mut b));
    diff(
        alloc,
        asked.layout,
        title,
        mask,
        asked.resumes,
        readings,
        readers,
        output,
    )
}

/// Opens two files, and returns them with how the lines of each are read.
fn open_both<D: Files>(
    alloc: Global,
    asked: &Request<'_>,
    files: &D,
    paths: (&str, &str),
) -> Result<(D::File, D::File, (Reading, Reading)), DiffFault> {
    let a = File::open(files, paths.0).ok().ok_or(DiffFault::Open("A"))?;
    let b = File::open(files, paths.1).ok().ok_or(DiffFault::Open("B"))?;
    Ok((a, b, readings(alloc, asked, files)?))
}

/// Returns how the lines of two traces are read.
fn readings<D: Files>(
    alloc: Global,
    asked: &Request<'_>,
    files: &D,
) -> Result<(Reading, Reading), FormsFault> {
    let first = reading(alloc, &asked.options, files)?;
    let second = reading(alloc, &asked.options, files)?;
    if first.of_tpdus && asked.resumes {
        return Err(FormsFault::Resume);
    }
    Ok((first, second))
}

/// The status for an error of the parser. Help goes to `output`, and a refusal to `faults`.
fn answered<W: Write, F: Write>(error: &Error, output: &mut W, faults: &mut F) -> u8
    ensures status { result ≤ 2 }
{
    match error.kind() {
        ErrorKind::OutOfMemory => print_fault(&ExplainFault::OutOfMemory, faults),
        ErrorKind::DisplayHelp | ErrorKind::DisplayVersion => {
            let outcome = output.write_fmt(error);
            let outcome = outcome.map_err(|error| ExplainFault::of_writing(&error));
            status(&outcome, faults)
        }
        _ => {
            let _ = faults.write_fmt(error);
            2
        }
    }
}

/// Returns 0, or 1 for a fault, which it writes to `faults`. A closed output is no fault.
fn status<F: Write>(outcome: &Result<(), ExplainFault>, faults: &mut F) -> u8
    ensures success { OnOk outcome.now (result ≡ 0) }
    ensures fault { IfErr outcome.now (λ fault. result ≡ status_of fault) }
{
    match outcome {
        Ok(()) | Err(ExplainFault::Closed) => 0,
        Err(fault) => print_fault(fault, faults),
    }
}

/// Writes a fault to `faults` in one line, and returns its status.
fn print_fault<E: fmt::Display, F: Write>(fault: &E, faults: &mut F) -> u8
    ensures { result ≡ 1 }
{
    let _ = faults.writeln(fault);
    1
}

/// The exit status if the words can't be read: 1 if memory ran out, or 2 if a word is not UTF-8. It
/// writes the reason to `faults`. A failure of `faults` changes no status.
pub fn status_without_words<F: Write>(error: &io::Error, faults: &mut F) -> u8
    ensures status { result ≤ 2 }
{
    match error.kind() {
        io::ErrorKind::OutOfMemory => print_fault(&ExplainFault::OutOfMemory, faults),
        _ => {
            let _ = faults.write_all(help::NO_UTF_8.as_bytes());
            2
        }
    }
}
