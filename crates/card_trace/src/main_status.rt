//! The program over any reader and writers; `main` runs it with the standard streams.
ghost use Rattle.std.specs.IoError.{error_kind};
ghost use Rattle.std.specs.Prelude.{◌≡◌, ◌≢◌, ◌≤◌, [], map, Ok, IfOk, IfErr, OnOk, Bool, string_bytes};
ghost use Rattle.hex.specs.Hex.{decode_of};
ghost use Rattle.clap.specs.Words.{subcommand_of, fault_of};
ghost use Rattle.card_trace.specs.CommandLine.{program, asked_by, Does, Runs, IsDigitsFault, Stops, StopsAt, AreCall, AreRefused, IsUnanswered};
ghost use Rattle.card_trace.specs.FaultTexts.{Prints};

use crate::command_line::{Request, parsed};
use crate::ending::{Ending, ending_after, ending_unparsed};
use crate::help;
use crate::objects::print_objects;
use crate::program_fault::ProgramFault;
use crate::scripts::{card_lines, play_lines};
use hex::FromHexError;
use std::alloc::Global;
use std::io::{Error, ErrorKind, Read, Write};

/// Runs the program, and returns its exit status. The first word is the program's name.
///
/// - 0: the subcommand succeeded, or the words call for help or the version, which is in `output`.
/// - 1: a fault; its text is in `faults`, in one line. What is in `output` depends on the fault.
/// - 2: the words are refused; the message is in `faults`, and `output` is unchanged.
///
/// `input` is read only if the words are accepted. The status is the same if `faults` fails;
/// `ended` also returns whether it did.
pub fn main_status<R: Read, W: Write, F: Write>(
    alloc: Global,
    words: &[String],
    input: &mut R,
    output: &mut W,
    faults: &mut F,
) -> u8
    ensures status { result ≤ 2 }
    ensures runs { fault_of program (map string_bytes words.now) ≡ [] → result ≡ 0 →
        Runs (subcommand_of program (map string_bytes words.now)) (R.remaining input.old)
        (W.contents output.old) (W.contents output.new) }
    ensures stops { fault_of program (map string_bytes words.now) ≡ [] → result ≡ 1 →
        (is_printed : Bool) × StopsAt (subcommand_of program (map string_bytes words.now))
        (R.remaining input.old) (W.contents output.old) (W.contents output.new)
        (Prints is_printed (F.contents faults.old) (F.contents faults.new)) }
    ensures taken { fault_of program (map string_bytes words.now) ≡ [] → result ≢ 2 }
    ensures called { fault_of program (map string_bytes words.now) ≢ [] → result ≡ 0 →
        AreCall (fault_of program (map string_bytes words.now)) }
    ensures refused { result ≡ 2 →
        AreRefused (fault_of program (map string_bytes words.now)) }
    ensures quiet { result ≡ 0 → F.contents faults.new ≡ F.contents faults.old }
    ensures unwritten { result ≡ 2 → W.contents output.new ≡ W.contents output.old }
    ensures unread { fault_of program (map string_bytes words.now) ≢ [] →
        R.remaining input.new ≡ R.remaining input.old }
{
    ended(alloc, words, input, output, faults).status
}

/// As `main_status`, but also returns whether `faults` took the whole text.
pub fn ended<R: Read, W: Write, F: Write>(
    alloc: Global,
    words: &[String],
    input: &mut R,
    output: &mut W,
    faults: &mut F,
) -> Ending
    ensures status { result.status ≤ 2 }
    ensures runs { fault_of program (map string_bytes words.now) ≡ [] → result.status ≡ 0 →
        Runs (subcommand_of program (map string_bytes words.now)) (R.remaining input.old)
        (W.contents output.old) (W.contents output.new) }
    ensures stops { fault_of program (map string_bytes words.now) ≡ [] → result.status ≡ 1 →
        StopsAt (subcommand_of program (map string_bytes words.now)) (R.remaining input.old)
        (W.contents output.old) (W.contents output.new)
        (Prints result.is_printed (F.contents faults.old) (F.contents faults.new)) }
    ensures taken { fault_of program (map string_bytes words.now) ≡ [] → result.status ≢ 2 }
    ensures called { fault_of program (map string_bytes words.now) ≢ [] → result.status ≡ 0 →
        AreCall (fault_of program (map string_bytes words.now)) }
    ensures unanswered { fault_of program (map string_bytes words.now) ≢ [] →
        result.status ≡ 1 → IsUnanswered (fault_of program (map string_bytes words.now))
        (Prints result.is_printed (F.contents faults.old) (F.contents faults.new)) }
    ensures refused { result.status ≡ 2 →
        AreRefused (fault_of program (map string_bytes words.now)) }
    ensures quiet { result.status ≡ 0 → F.contents faults.new ≡ F.contents faults.old }
    ensures unwritten { result.status ≡ 2 → W.contents output.new ≡ W.contents output.old }
    ensures unread { fault_of program (map string_bytes words.now) ≢ [] →
        R.remaining input.new ≡ R.remaining input.old }
{
    match parsed(alloc, words) {
        Ok(request) => ending_after(&run(alloc, request, input, output), faults),
        Err(error) => ending_unparsed(&error, output, faults),
    }
}

/// Carries out what the command line asks for.
///
/// # Errors
/// - `Play`, `Objects`: the fault of the subcommand, which says what is written.
/// - `BadHex`: the digits of `objects` are invalid; nothing is written.
/// - `OutOfMemory`: memory ran out for the bytes of the digits; nothing is written.
fn run<R: Read, W: Write>(
    alloc: Global,
    request: Request<'_>,
    input: &mut R,
    output: &mut W,
) -> Result<(), ProgramFault>
    ensures does { OnOk result (Does (asked_by request.entry) (R.remaining input.old)
        (W.contents output.old) (W.contents output.new)) }
    ensures stops { IfErr result (Stops (asked_by request.entry) (R.remaining input.old)
        (W.contents output.old) (W.contents output.new)) }
{
    match request {
        Request::Play => play_lines(alloc, input, output)?,
        Request::Card => card_lines(alloc, input, output)?,
        Request::Objects(digits) => {
            let bytes = bytes_of(alloc, digits)?;
            print_objects(alloc, bytes.as_slice(), output)?;
        }
    }
    Ok(())
}

/// Returns the bytes that the digits spell, at least one.
///
/// # Errors
/// - `BadHex`: there are no digits, or they spell no bytes.
/// - `OutOfMemory`: memory ran out.
fn bytes_of(alloc: Global, digits: &str) -> Result<Vec<u8>, ProgramFault>
    ensures spelled { IfOk result (λ bytes. (digits.now ≢ [])
        × (decode_of digits.now ≡ Ok bytes.items)) }
    ensures err { IfErr result (IsDigitsFault digits.now) }
{
    if digits.is_empty() {
        return Err(ProgramFault::BadHex);
    }
    match hex::decode(alloc, digits) {
        Ok(bytes) => Ok(bytes),
        Err(FromHexError::OutOfMemory) => Err(ProgramFault::OutOfMemory),
        Err(_) => Err(ProgramFault::BadHex),
    }
}

/// Returns how the program ends if it can't get its words. If memory ran out, prints that on
/// `faults`, with status 1. Otherwise a word is not UTF-8: prints `NO_UTF_8`, with status 2.
pub fn ending_without_words<F: Write>(error: &Error, faults: &mut F) -> Ending
    ensures memory { error_kind error.now ≡ ErrorKind.OutOfMemory → (result.status ≡ 1)
        × Prints result.is_printed (F.contents faults.old) (F.contents faults.new)
        ProgramFault.OutOfMemory }
    ensures refused { error_kind error.now ≢ ErrorKind.OutOfMemory → result.status ≡ 2 }
{
    match error.kind() {
        ErrorKind::OutOfMemory => ending_after(&Err(ProgramFault::OutOfMemory), faults),
        _ => Ending {
            status: 2,
            is_printed: faults.write_all(help::NO_UTF_8.as_bytes()).is_ok(),
        },
    }
}
