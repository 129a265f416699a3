//! Why a line is not carried out: a reason to refuse it, or that memory ran out.
use crate::play_fault::PlayFault;
use crate::script::reason::LineReason;
use object_card::BuilderFault;
use std::alloc::AllocError;

/// Why a line of a script is not carried out.
#[derive(Clone, Copy)]
pub enum Refusal {
    /// The line is refused for this reason.
    Line(LineReason),
    /// Memory ran out.
    OutOfMemory,
}

impl Refusal {
    ghost use Rattle.std.specs.Prelude.{◌≡◌};
    ghost use Rattle.card_trace.specs.ScriptReasons.{fault_at};

    /// Returns the program's fault at this line, counted from 1.
    pub fn at(self, line: usize) -> PlayFault
        ensures { result ≡ fault_at line self }
    {
        match self {
            Refusal::Line(reason) => PlayFault::Script { line, reason },
            Refusal::OutOfMemory => PlayFault::OutOfMemory,
        }
    }
}

impl From<LineReason> for Refusal {
    ghost use Rattle.std.specs.Prelude.{◌≡◌};
    ghost use Rattle.card_trace.specs.declared.script.refusal.Refusal.TheVariants.{Line};

    ghost from_gives = { λ reason refusal. refusal ≡ Line reason };

    fn from(reason: LineReason) -> Refusal {
        Refusal::Line(reason)
    }
}

impl From<AllocError> for Refusal {
    ghost use Rattle.std.specs.Prelude.{◌≡◌};
    ghost use Rattle.card_trace.specs.declared.script.refusal.Refusal.TheVariants.{OutOfMemory};

    ghost from_gives = { λ _ refusal. refusal ≡ OutOfMemory };

    fn from(_error: AllocError) -> Refusal {
        Refusal::OutOfMemory
    }
}

impl From<BuilderFault> for Refusal {
    ghost use Rattle.std.specs.Prelude.{◌≡◌};
    ghost use Rattle.card_trace.specs.ScriptReasons.{refusal_of_builder};

    ghost from_gives = { λ fault refusal. refusal ≡ refusal_of_builder fault };

    fn from(fault: BuilderFault) -> Refusal {
        match fault {
            BuilderFault::Twice => Refusal::Line(LineReason::AidTwice),
            BuilderFault::TooManyApps => Refusal::Line(LineReason::TooManyApps),
            BuilderFault::NoApp => Refusal::Line(LineReason::NoApp),
            BuilderFault::ValueTooLong => Refusal::Line(LineReason::ValueTooLong),
            BuilderFault::NotObjects => Refusal::Line(LineReason::NotObjects),
            BuilderFault::Full => Refusal::Line(LineReason::TableFull),
            BuilderFault::OutOfMemory => Refusal::OutOfMemory,
        }
    }
}
