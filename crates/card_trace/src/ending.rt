//! How the program ends: its exit status, and what it prints on standard error.
ghost use Rattle.std.specs.Prelude.{◌≡◌, ◌≢◌, ◌≤◌, ◌⊎◌, OnOk, OnErr, IfErr};
ghost use Rattle.clap.specs.Words.{kind_of};
ghost use Rattle.card_trace.specs.CommandLine.{IsCall};
ghost use Rattle.card_trace.specs.FaultTexts.{Prints};

use crate::program_fault::ProgramFault;
use clap::Error;
use clap::error::ErrorKind;
use std::io::Write;

/// How the program ends.
#[derive(Clone, Copy)]
pub struct Ending {
    /// The exit status, 0 to 2.
    pub status: u8,
    /// Whether standard error took the whole text, if there is one. The status does not depend on
    /// it.
    pub is_printed: bool,
}

/// Returns status 0 after success. After a fault, prints its text in one line on `faults`, and
/// returns status 1.
pub fn ending_after<F: Write>(outcome: &Result<(), ProgramFault>, faults: &mut F) -> Ending
    ensures success { OnOk outcome.now (result.status ≡ 0) }
    ensures silent { OnOk outcome.now (F.contents faults.new ≡ F.contents faults.old) }
    ensures fault { OnErr outcome.now (result.status ≡ 1) }
    ensures prints { IfErr outcome.now
        (Prints result.is_printed (F.contents faults.old) (F.contents faults.new)) }
{
    match outcome {
        Ok(()) => Ending {
            status: 0,
            is_printed: true,
        },
        Err(fault) => Ending {
            status: 1,
            is_printed: faults.writeln(fault).is_ok(),
        },
    }
}

/// Returns how the program ends if the parser returns an error. Help and the version go to
/// `output`, with status 0. A mistake in the words goes to `faults`, with status 2; `output` is
/// unchanged. If memory ran out, or `output` fails, that fault goes to `faults`, with status 1.
pub fn ending_unparsed<W: Write, F: Write>(error: &Error, output: &mut W, faults: &mut F) -> Ending
    ensures status { result.status ≤ 2 }
    ensures memory { kind_of error.now ≡ ErrorKind.OutOfMemory →
        (result.status ≡ 1) × (W.contents output.new ≡ W.contents output.old)
        × Prints result.is_printed (F.contents faults.old) (F.contents faults.new)
        ProgramFault.OutOfMemory }
    ensures mistake { ¬ IsCall (kind_of error.now) →
        kind_of error.now ≢ ErrorKind.OutOfMemory → result.status ≡ 2 }
    ensures called { result.status ≡ 0 → IsCall (kind_of error.now) }
    ensures unanswered { result.status ≡ 1 → (kind_of error.now ≡ ErrorKind.OutOfMemory)
        ⊎ (IsCall (kind_of error.now) × Prints result.is_printed (F.contents faults.old)
        (F.contents faults.new) ProgramFault.Write) }
    ensures quiet { result.status ≡ 0 → F.contents faults.new ≡ F.contents faults.old }
    ensures refused { result.status ≡ 2 → ¬ IsCall (kind_of error.now)
        × (kind_of error.now ≢ ErrorKind.OutOfMemory)
        × (W.contents output.new ≡ W.contents output.old) }
{
    match error.kind() {
        ErrorKind::OutOfMemory => ending_after(&Err(ProgramFault::OutOfMemory), faults),
        ErrorKind::DisplayHelp | ErrorKind::DisplayVersion => {
            ending_after(&shown(error, output), faults)
        }
        _ => Ending {
            status: 2,
            is_printed: faults.write_fmt(error).is_ok(),
        },
    }
}

/// Writes the help or the version.
///
/// # Errors
/// - `Write`: the writer failed; it is not known how much it took.
fn shown<W: Write>(error: &Error, output: &mut W) -> Result<(), ProgramFault>
    ensures { IfErr result (λ fault. fault ≡ ProgramFault.Write) }
{
    output.write_fmt(error).map_err(|_| ProgramFault::Write)
}
