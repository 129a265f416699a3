//! The errors of reading objects: a reason and its place.

ghost use Rattle.std.specs.Prelude.{◌≡◌};

use std::fmt;

/// Why no object is at a place (profile). If several reasons hold, the error is the first of
/// `TooDeep` and then the others in this order.
#[derive(Clone, Copy, Debug, PartialEq, Eq, Hash)]
pub enum Reason {
    /// The list ends inside a tag. For `Tag::read`: or there are no bytes.
    TagCut,
    /// No tag starts here.
    TagForm,
    /// The list ends right after a tag, or inside a length.
    LengthCut,
    /// No length follows the tag: its first byte is `80` or `83` to `FF`.
    LengthForm,
    /// The value extends past the end of the list.
    ValueCut,
    /// The object is at level 17; the deepest level is 16 (profile).
    TooDeep,
}

impl fmt::Display for Reason {
    ghost use Rattle.std.specs.Prelude.{Some};
    ghost use Rattle.tlv_core.specs.FaultText.{reason_text};

    ghost output = { λ reason. Some (reason_text reason) };

    fn fmt<W: fmt::Write>(&self, f: &mut fmt::Formatter<W>) -> fmt::Result {
        let name = match self {
            Reason::TagCut => "TagCut",
            Reason::TagForm => "TagForm",
            Reason::LengthCut => "LengthCut",
            Reason::LengthForm => "LengthForm",
            Reason::ValueCut => "ValueCut",
            Reason::TooDeep => "TooDeep",
        };
        f.write_str(name)
    }
}

/// The first fault, from the left, of bytes that are not a list of objects. `place` is the offset
/// of the first byte where an object should start and none does. A template around it is not the
/// fault, and nothing inside a cut template counts.
///
/// [`Tag::read`](crate::Tag::read) returns one at place 0 if the bytes start with no tag, also for
/// empty bytes and padding.
#[derive(Clone, Copy, Debug, PartialEq, Eq, Hash)]
pub struct TlvFault {
    pub place: usize,
    pub reason: Reason,
}

impl fmt::Display for TlvFault {
    ghost use Rattle.std.specs.Prelude.{Some};
    ghost use Rattle.tlv_core.specs.FaultText.{fault_text};

    ghost output = { λ fault. Some (fault_text fault) };

    fn fmt<W: fmt::Write>(&self, f: &mut fmt::Formatter<W>) -> fmt::Result {
        write!(f, "{} at {}", self.reason, self.place)
    }
}

impl std::error::Error for TlvFault {}

impl TlvFault {
    pub(crate) fn at_front(reason: Reason) -> TlvFault
        ensures { result ≡ record { place = 0; reason = reason } }
    {
        TlvFault { place: 0, reason }
    }
}
