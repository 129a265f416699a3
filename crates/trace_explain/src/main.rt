//! The program `trace_explain`: explains a trace of both ends of a line.
#![tactic(auto)]

mod command_line;
mod describe;
mod detect;
mod diff;
mod explain;
mod explain_fault;
mod explainer;
mod follow;
mod help;
mod instructions;
mod main_status;
mod read;
mod resuming;
mod tables;
mod write;

use main_status::{main_status, status_without_words};
use std::process::ExitCode;
use std::{env, io};

/// Runs the program on its own command line and streams.
fn main(rt: HostRuntime) -> ExitCode {
    let stderr = rt.stderr();
    let mut faults = io::writer(&stderr);
    let status = match words(&rt) {
        Ok(words) => main_status(
            rt.alloc(),
            words.as_slice(),
            &rt,
            &mut rt.stdin(),
            &mut io::writer(&rt),
            &mut faults,
        ),
        Err(error) => status_without_words(&error, &mut faults),
    };
    ExitCode::from(status)
}

/// Returns the words of the command line.
fn words(rt: &HostRuntime) -> io::Result<Vec<String>> {
    let words = env::args(rt)?;
    Ok(words.collect(rt.alloc())?)
}
