//! The errors of printing objects, with their texts.
use std::alloc::AllocError;
use std::fmt;
use tlv_core::TlvFault;

/// Why objects were not printed.
#[derive(Drop)]
pub enum ObjectsFault {
    /// The bytes are not a list of objects; this is their first fault. Nothing was written.
    Tlv(TlvFault),
    /// The writer failed; it is not known how much it took.
    Write,
    /// Memory ran out; nothing was written.
    OutOfMemory,
}

impl fmt::Display for ObjectsFault {
    ghost use Rattle.std.specs.Prelude.{Some};
    ghost use Rattle.card_trace.specs.FaultTexts.{objects_text};

    ghost output = { λ fault. Some (objects_text fault) };

    fn fmt<W: fmt::Write>(&self, f: &mut fmt::Formatter<W>) -> fmt::Result {
        match self {
            ObjectsFault::Tlv(fault) => write!(f, "{fault}"),
            ObjectsFault::Write => f.write_str("write fault"),
            ObjectsFault::OutOfMemory => f.write_str("out of memory"),
        }
    }
}

impl From<TlvFault> for ObjectsFault {
    ghost use Rattle.std.specs.Prelude.{◌≡◌};
    ghost use Rattle.card_trace.specs.declared.objects_fault.ObjectsFault.TheVariants.{Tlv};

    ghost from_gives = { λ fault e. e ≡ Tlv fault };

    fn from(fault: TlvFault) -> ObjectsFault {
        ObjectsFault::Tlv(fault)
    }
}

impl From<AllocError> for ObjectsFault {
    ghost use Rattle.std.specs.Prelude.{◌≡◌};
    ghost use Rattle.card_trace.specs.declared.objects_fault.ObjectsFault.TheVariants.{OutOfMemory};

    ghost from_gives = { λ _ e. e ≡ OutOfMemory };

    fn from(_: AllocError) -> ObjectsFault {
        ObjectsFault::OutOfMemory
    }
}
