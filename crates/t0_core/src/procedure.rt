//! Procedure bytes: the step that each starts, and the number of data characters of a step.
ghost use Rattle.std.specs.Prelude.{◌≡◌, ◌≤◌};
ghost use Rattle.t0_core.specs.Dialogue.{moves, procedure_byte};
ghost use Rattle.t0_core.specs.HostSide.{step_of};

use crate::plan::Step;

/// Returns the step that a procedure byte starts (ISO/IEC 7816-3, 10.3.3). `None` if the byte is
/// not a procedure byte.
pub(crate) fn step_of(ins: u8, byte: u8) -> Option<Step>
    ensures { result ≡ step_of ins byte }
{
    if byte == 0x60 {
        Some(Step::Null)
    } else if byte == ins {
        Some(Step::All)
    } else if byte == ins ^ 0xFF {
        Some(Step::One)
    } else {
        None
    }
}

/// The procedure byte that starts a step.
pub(crate) fn procedure_byte(ins: u8, step: Step) -> u8
    ensures { result ≡ procedure_byte ins step }
{
    match step {
        Step::Null => 0x60,
        Step::One => ins ^ 0xFF,
        Step::All => ins,
    }
}

/// The number of data characters that a step moves if `remain` are left.
pub(crate) fn moves(step: Step, remain: u16) -> u16
    ensures value { result ≡ moves step remain }
    ensures within { result ≤ remain }
{
    match step {
        Step::Null => 0,
        Step::One => remain.min(1),
        Step::All => remain,
    }
}
