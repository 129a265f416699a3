//! The program `atr_read`: prints what answers to reset mean. The words of the command line are one
//! answer in hexadecimal digits, or each line of standard input is.
#![tactic(auto)]

mod program_fault;
mod say;

use clap::error::ErrorKind;
use clap::{Arg, ArgAction, Command, Error};
use program_fault::ProgramFault;
use say::say;
use std::alloc::Global;
use std::io::{BufRead, BufReader, Write};
use std::process::ExitCode;
use std::{env, io};

/// What `--version` prints after the program's name.
const VERSION: &str = "0.3.0";

const ABOUT: &str = "Prints what answers to reset mean (ISO/IEC 7816-3), or what is wrong.";

const HEX: &str = "The answer, in one or more words";

const INPUT: &str = "\
HEX is hexadecimal digits, with or without spaces between the bytes. Without it
each line of standard input is an answer. The exit status is 0 if all answers
are, 1 if one is not or the input can't be read, and 2 if the command line is
refused.";

fn main(rt: HostRuntime) -> ExitCode {
    let status = match parsed(&rt) {
        Ok(words) => match all_said(&rt, words) {
            Ok(true) => 0,
            Ok(false) => 1,
            Err(fault) => stopped(&rt, &fault),
        },
        Err(error) => answered(&rt, &error),
    };
    ExitCode::from(status)
}

/// Prints the fault in one line on standard error, and returns the exit status.
fn stopped(rt: &HostRuntime, fault: &ProgramFault) -> u8 {
    let _ = io::writer(&rt.stderr()).writeln(fault);
    1
}

/// Returns the answer on the command line, with a space between its words, or `None` if it is
/// absent.
///
/// # Errors
/// - `DisplayHelp`, `DisplayVersion`: the words call for help or the version.
/// - `OutOfMemory`: memory ran out.
/// - Another kind: the words have a mistake.
fn parsed(rt: &HostRuntime) -> Result<Option<String>, Error> {
    let alloc = rt.alloc();
    let words: Vec<String> = match env::args(rt) {
        Ok(words) => words.collect(alloc)?,
        Err(_) => Vec::new(alloc),
    };
    let matches = Command::new(alloc, "atr_read")
        .version(VERSION)
        .about(ABOUT)
        .after_help(INPUT)
        .arg(
            Arg::new(alloc, "HEX")
                .action(ArgAction::Append)
                .num_args(1..)
                .help(HEX),
        )?
        .try_get_matches_from(words.as_slice())?;
    let Some(parts) = matches.get_strs("HEX") else {
        return Ok(None);
    };
    let mut answer = String::new(alloc);
    for part in parts {
        if !answer.is_empty() {
            answer.push(' ')?;
        }
        answer.push_str(part)?;
    }
    Ok(Some(answer))
}

/// Prints what the error of `parsed` says, and returns the exit status:
///
/// - 0: help or the version, on the output.
/// - 1: the output can't be written, or memory ran out. A line on standard error says which.
/// - 2: any other error, on standard error.
fn answered(rt: &HostRuntime, error: &Error) -> u8 {
    match error.kind() {
        ErrorKind::DisplayHelp | ErrorKind::DisplayVersion => {
            match io::writer(rt).write_fmt(error) {
                Ok(()) => 0,
                Err(error) => stopped(rt, &ProgramFault::of_writing(error)),
            }
        }
        ErrorKind::OutOfMemory => stopped(rt, &ProgramFault::OutOfMemory),
        _ => {
            let _ = io::writer(&rt.stderr()).write_fmt(error);
            2
        }
    }
}

/// Prints the meaning of the answer in these words. Without them, prints that of each line of the
/// input, and passes over blank ones. Returns whether all are answers to reset.
///
/// # Errors
/// - Those of `ProgramFault`: what the lines before print may be written.
fn all_said(rt: &HostRuntime, words: Option<String>) -> Result<bool, ProgramFault> {
    let mut output = io::writer(rt);
    if let Some(words) = words {
        return say(rt.alloc(), words.as_str(), &mut output).map_err(ProgramFault::of_writing);
    }
    let mut well = true;
    let input = BufReader::new(rt.alloc(), rt.reader()).map_err(|_| ProgramFault::OutOfMemory)?;
    for line in input.lines(rt.alloc()) {
        let line = line.map_err(ProgramFault::of_reading)?;
        if !line.trim().is_empty() {
            well &= say(rt.alloc(), line.as_str(), &mut output).map_err(ProgramFault::of_writing)?;
        }
    }
    Ok(well)
}
