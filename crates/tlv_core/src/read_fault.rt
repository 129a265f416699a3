//! The errors of reading bytes as a forest.

use crate::fault::TlvFault;
use std::alloc::AllocError;
use std::fmt;

/// Why no forest was read.
#[derive(Clone, Copy, Debug, PartialEq, Eq, Hash)]
pub enum ReadFault {
    /// The bytes are not a list of objects: their first fault.
    Tlv(TlvFault),
    /// Memory ran out.
    OutOfMemory,
}

impl fmt::Display for ReadFault {
    ghost use Rattle.std.specs.Prelude.{Some};
    ghost use Rattle.tlv_core.specs.FaultText.{read_text};

    ghost output = { λ fault. Some (read_text fault) };

    fn fmt<W: fmt::Write>(&self, f: &mut fmt::Formatter<W>) -> fmt::Result {
        match self {
            ReadFault::Tlv(fault) => write!(f, "{fault}"),
            ReadFault::OutOfMemory => f.write_str("out of memory"),
        }
    }
}

impl std::error::Error for ReadFault {}

impl From<TlvFault> for ReadFault {
    ghost use Rattle.std.specs.Prelude.{◌≡◌};
    ghost use Rattle.tlv_core.specs.declared.read_fault.ReadFault.TheVariants.{Tlv};

    ghost from_gives = { λ fault e. e ≡ Tlv fault };

    fn from(fault: TlvFault) -> ReadFault {
        ReadFault::Tlv(fault)
    }
}

impl From<AllocError> for ReadFault {
    ghost use Rattle.std.specs.Prelude.{◌≡◌};
    ghost use Rattle.tlv_core.specs.declared.read_fault.ReadFault.TheVariants.{OutOfMemory};

    ghost from_gives = { λ _ e. e ≡ OutOfMemory };

    fn from(_: AllocError) -> ReadFault {
        ReadFault::OutOfMemory
    }
}
