//! The error of `apdu` and `respond`: why a card does not carry out a whole command.
use std::alloc::AllocError;
use t0_core::{AnswerFault, TpduFault};

/// Why a card's end does not carry out a whole command, and the state after each fault.
#[derive(Clone, Copy, Debug, PartialEq, Eq)]
pub enum CarryFault {
    /// Memory for the response ran out. Nothing changes.
    OutOfMemory,
    /// A TPDU is in progress at the card's end. Nothing changes.
    UnderWay,
    /// The card did not finish a TPDU, because the command is not agreed with it. The TPDUs before
    /// it are carried out, and then the card is reset.
    Tpdu(TpduFault),
    /// `Stalled`: a GET RESPONSE brought no data, and the card announces more. The TPDUs so far are
    /// carried out.
    Response(AnswerFault),
}

impl From<AllocError> for CarryFault {
    ghost use Rattle.std.specs.Prelude.{◌≡◌};
    ghost use Rattle.apdu_terminal.specs.declared.apdu_fault.CarryFault.TheVariants.{OutOfMemory};

    ghost from_gives = { λ _ fault. fault ≡ OutOfMemory };

    fn from(_: AllocError) -> CarryFault {
        CarryFault::OutOfMemory
    }
}
