//! The errors of the program, with their texts.
use crate::objects_fault::ObjectsFault;
use crate::play_fault::PlayFault;
use std::fmt;

/// Why the program ends with status 1.
#[derive(Drop)]
pub enum ProgramFault {
    /// A script was not carried out to its end.
    Play(PlayFault),
    /// Objects were not printed.
    Objects(ObjectsFault),
    /// The digits of `objects` are not HEX, an even number of digits, at least two. Nothing was
    /// written.
    BadHex,
    /// The help or the version could not be written; it is not known how much was.
    Write,
    /// Memory ran out for the words of the command line or the digits. Nothing was written.
    OutOfMemory,
}

impl fmt::Display for ProgramFault {
    ghost use Rattle.std.specs.Prelude.{Some};
    ghost use Rattle.card_trace.specs.FaultTexts.{program_text};

    ghost output = { λ fault. Some (program_text fault) };

    fn fmt<W: fmt::Write>(&self, f: &mut fmt::Formatter<W>) -> fmt::Result {
        match self {
            ProgramFault::Play(fault) => write!(f, "{fault}"),
            ProgramFault::Objects(fault) => write!(f, "{fault}"),
            ProgramFault::BadHex => f.write_str("bad hex"),
            ProgramFault::Write => f.write_str("write fault"),
            ProgramFault::OutOfMemory => f.write_str("out of memory"),
        }
    }
}

impl From<PlayFault> for ProgramFault {
    ghost use Rattle.std.specs.Prelude.{◌≡◌};
    ghost use Rattle.card_trace.specs.declared.program_fault.ProgramFault.TheVariants.{Play};

    ghost from_gives = { λ fault e. e ≡ Play fault };

    fn from(fault: PlayFault) -> ProgramFault {
        ProgramFault::Play(fault)
    }
}

impl From<ObjectsFault> for ProgramFault {
    ghost use Rattle.std.specs.Prelude.{◌≡◌};
    ghost use Rattle.card_trace.specs.declared.program_fault.ProgramFault.TheVariants.{Objects};

    ghost from_gives = { λ fault e. e ≡ Objects fault };

    fn from(fault: ObjectsFault) -> ProgramFault {
        ProgramFault::Objects(fault)
    }
}
