//! The errors of building a card.
use std::alloc::AllocError;
use std::error::Error;
use std::fmt;

/// Why a builder refuses an application or a data object (profile). After each, the builder is
/// unchanged.
#[derive(Clone, Copy, Debug, PartialEq, Eq, Hash)]
pub enum BuilderFault {
    /// An application before it has the same identifier.
    Twice,
    /// There are `APPLICATION_LIMIT` applications.
    TooManyApps,
    /// There is no application for the data object.
    NoApp,
    /// The value has more than `VALUE_LIMIT` bytes.
    ValueTooLong,
    /// The tag is constructed, and the value is not a list of objects within level 16.
    NotObjects,
    /// The tag is new, and the application has `ENTRY_LIMIT` data objects.
    Full,
    /// Memory ran out.
    OutOfMemory,
}

impl fmt::Display for BuilderFault {
    ghost use Rattle.std.specs.Prelude.{Some};
    ghost use Rattle.object_card.specs.Builder.{fault_text};

    ghost output = { λ fault. Some (fault_text fault) };

    fn fmt<W: fmt::Write>(&self, f: &mut fmt::Formatter<W>) -> fmt::Result {
        f.write_str(match self {
            BuilderFault::Twice => "aid twice",
            BuilderFault::TooManyApps => "too many apps",
            BuilderFault::NoApp => "no app",
            BuilderFault::ValueTooLong => "value too long",
            BuilderFault::NotObjects => "not objects",
            BuilderFault::Full => "table full",
            BuilderFault::OutOfMemory => "out of memory",
        })
    }
}

impl Error for BuilderFault {}

impl From<AllocError> for BuilderFault {
    ghost use Rattle.std.specs.Prelude.{◌≡◌};
    ghost use Rattle.object_card.specs.declared.builder_fault.BuilderFault.TheVariants.{OutOfMemory};

    ghost from_gives = { λ _ e. e ≡ OutOfMemory };

    fn from(_: AllocError) -> BuilderFault {
        BuilderFault::OutOfMemory
    }
}
