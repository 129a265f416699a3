//! The errors of adding an object to a forest.

use std::alloc::AllocError;
use std::fmt;

/// Why an object cannot be added to a forest. If several reasons hold, the error is the first.
/// After each, the forest is unchanged.
#[derive(Clone, Copy, Debug, PartialEq, Eq, Hash)]
pub enum BuildFault {
    /// The tag is constructed and the object is primitive, or the other way round.
    WrongKind,
    /// The value would have more than 65,535 bytes when written.
    TooLong,
    /// An object would be at level 17; the deepest level is 16 (profile).
    TooDeep,
    /// Memory ran out.
    OutOfMemory,
}

impl fmt::Display for BuildFault {
    ghost use Rattle.std.specs.Prelude.{Some};
    ghost use Rattle.tlv_core.specs.FaultText.{build_text};

    ghost output = { λ fault. Some (build_text fault) };

    fn fmt<W: fmt::Write>(&self, f: &mut fmt::Formatter<W>) -> fmt::Result {
        f.write_str(match self {
            BuildFault::WrongKind => "wrong kind of tag",
            BuildFault::TooLong => "content too long",
            BuildFault::TooDeep => "too deep",
            BuildFault::OutOfMemory => "out of memory",
        })
    }
}

impl std::error::Error for BuildFault {}

impl From<AllocError> for BuildFault {
    ghost use Rattle.std.specs.Prelude.{◌≡◌};
    ghost use Rattle.tlv_core.specs.declared.build_fault.BuildFault.TheVariants.{OutOfMemory};

    ghost from_gives = { λ _ e. e ≡ OutOfMemory };

    fn from(_: AllocError) -> BuildFault {
        BuildFault::OutOfMemory
    }
}
