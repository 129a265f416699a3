//! The command line: a subcommand, and the digits of `objects`.
ghost use Rattle.std.specs.Prelude.{◌≡◌, [], map, false, IfOk, IfErr, Some, option_map, string_bytes};
ghost use Rattle.clap.specs.declared.builder.command.Command.TheViews.{out-Command};
ghost use Rattle.clap.specs.Words.{app_of, new_app, subcommand_of, fault_of, HasKind};
ghost use Rattle.card_trace.specs.CommandLine.{objects_shape, program, request_in, request_named, asked_by};

use crate::help;
use clap::{Arg, Command, Error};
use std::alloc::{AllocError, Global};

/// What the command line asks for.
#[derive(Clone, Copy)]
pub enum Request<'a> {
    /// Plays a script with a terminal and a card.
    Play,
    /// Plays a script with the card alone.
    Card,
    /// Prints the objects of these digits as a tree. It is not checked yet that they are
    /// hexadecimal.
    Objects(&'a str),
}

/// Returns what the words ask for. The first word is the program's name.
///
/// # Errors
/// - `DisplayHelp`, `DisplayVersion`: the words call for help or the version.
/// - `OutOfMemory`: memory ran out.
/// - Another kind: the words have a mistake.
pub fn parsed<'a>(alloc: Global, words: &'a [String]) -> Result<Request<'a>, Error>
    ensures ok { IfOk result (λ request. (fault_of program (map string_bytes words.entry.now) ≡ [])
        × (request_in (subcommand_of program (map string_bytes words.entry.now))
        ≡ Some (asked_by request))) }
    ensures err { IfErr result (HasKind (fault_of program (map string_bytes words.entry.now))) }
{
    let matches = command(alloc)?.try_get_matches_from(words)?;
    let (name, found) = matches.subcommand().unwrap();
    let digits = found.get_str("HEX").unwrap_or("");
    Ok(named(name, digits).unwrap())
}

/// Returns what the subcommand with this name and these digits asks for; `None` for any other name.
fn named<'a>(name: &str, digits: &'a str) -> Option<Request<'a>>
    ensures { option_map asked_by result ≡ request_named name.now digits.entry.now }
{
    match name {
        "play" => Some(Request::Play),
        "card" => Some(Request::Card),
        "objects" => Some(Request::Objects(digits)),
        _ => None,
    }
}

/// Returns the program's command, with its version and three subcommands; one of these is required.
/// If memory runs out, returns `AllocError`.
fn command<'a>(alloc: Global) -> Result<Command<'a>, AllocError>
    ensures { IfOk result (λ command. app_of command ≡ program) }
{
    let objects = of_objects(alloc)?;
    let command = Command::new(alloc, "card_trace")
        .about(help::PROGRAM)
        .version(help::VERSION)
        .after_help(help::PROGRAM_EXAMPLE)
        .subcommand_required(true);
    command
        .subcommand(of_scripts(alloc, "play", help::PLAY, help::PLAY_SCRIPT))?
        .subcommand(of_scripts(alloc, "card", help::CARD, help::CARD_SCRIPT))?
        .subcommand(objects)
}

/// Returns a subcommand that reads a script and takes no arguments.
fn of_scripts<'a>(alloc: Global, name: &'a str, about: &'a str, script: &'a str) -> Command<'a>
    ensures app { app_of result ≡ new_app name.entry.now }
    ensures local { (out-Command result).has_globals ≡ false }
{
    Command::new(alloc, name).about(about).after_help(script)
}

/// Returns the subcommand that takes digits, one word. If memory runs out, returns `AllocError`.
fn of_objects<'a>(alloc: Global) -> Result<Command<'a>, AllocError>
    ensures app { IfOk result (λ command. app_of command
        ≡ record { top = objects_shape; subs = [] }) }
    ensures local { IfOk result (λ command. (out-Command command).has_globals ≡ false) }
{
    let digits = Arg::new(alloc, "HEX").required(true).help(help::HEX);
    Command::new(alloc, "objects")
        .about(help::OBJECTS)
        .after_help(help::OBJECTS_EXAMPLE)
        .arg(digits)
}
