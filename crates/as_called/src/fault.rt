//! Why a whole command got no answer.
ghost use Rattle.std.specs.Prelude.{◌≡◌};
ghost use Rattle.as_called.specs.Faults.{outcome_of};

use t1_core::{Fault, Outcome};

/// Why a command got no answer. `outcome` says whether it was carried out.
#[derive(Clone, Copy, Debug, PartialEq, Eq)]
pub enum SendFault {
    /// Memory ran out before the first command. The card has got nothing.
    OutOfMemory,
    /// The terminal's end of the line gave up. The outcome is that of the whole command: once the
    /// first response has arrived, it is `InPart`.
    Line(Fault),
    /// The card's bytes are no response to the command. It was carried out.
    NoResponse,
}

impl SendFault {
    /// Whether the command was carried out: not (`NotCarriedOut`), once (`InPart`), or at most once
    /// (`Unknown`).
    pub fn outcome(&self) -> Outcome
        ensures { result ≡ outcome_of self.now }
    {
        match self {
            SendFault::OutOfMemory => Outcome::NotCarriedOut,
            SendFault::Line(fault) => fault.outcome,
            SendFault::NoResponse => Outcome::InPart,
        }
    }
}
