//! The program `card_trace`: plays scripts of a terminal and a smart card that talk T=0, and prints
//! the characters and the answers.
//!
//! `command_line::Request` is what the command line asks for. `player::run_script` is the one loop
//! over the lines of a script: `script::line::read_line` reads a line, and a `runner::Runner`
//! carries it out. `both_ends::BothEnds` is the runner of `play`, `lone_card::LoneCard` that of
//! `card`. `printed::Printed` is what a line prints, and `ending::Ending` is how the program ends.
//! The files `args`, `stdin` and `stdout` are an example, which the gate runs:
//!
//! ```console
//! $ card_trace play < crates/card_trace/stdin | grep '^='
//! = 9000 6F098407A0000000031010
//! = 9000 5F20034A4F45
//! ```
//!
//! Proved: the program writes what `specs/Script` says of the script's lines, or of those before a
//! fault. The exit status and the text on standard error are those of that fault. The README lists
//! the exceptions, and what is only tested.
#![tactic(auto)]

mod both_ends;
mod card_table;
mod command_line;
mod ending;
mod help;
mod lone_card;
mod main_status;
mod objects;
mod objects_fault;
mod opening;
mod play_fault;
mod player;
mod printed;
mod program_fault;
mod runner;
mod script;
mod scripts;
mod text;

use main_status::{ending_without_words, main_status};
use std::process::ExitCode;
use std::{env, io};

/// Runs the program with its command line and the standard streams.
fn main(rt: HostRuntime) -> ExitCode {
    let stderr = rt.stderr();
    let mut faults = io::writer(&stderr);
    let status = match words(&rt) {
        Ok(words) => main_status(
            rt.alloc(),
            words.as_slice(),
            &mut rt.stdin(),
            &mut io::writer(&rt),
            &mut faults,
        ),
        Err(error) => ending_without_words(&error, &mut faults).status,
    };
    ExitCode::from(status)
}

/// The words of the command line; the first is the program's name.
///
/// # Errors
/// - `OutOfMemory`: memory ran out.
/// - Another kind: a word is not UTF-8.
fn words(rt: &HostRuntime) -> io::Result<Vec<String>> {
    let words = env::args(rt)?;
    Ok(words.collect(rt.alloc())?)
}
