//! The first four bytes of a command, and which INS are valid.
ghost use Rattle.std.specs.Prelude.{◌≡◌};

/// Bit 5 of CLA: more commands of the chain follow.
const MORE: u8 = 0x10;

/// The first four bytes of a command (ISO/IEC 7816-4, 5.1).
#[derive(Clone, Copy, Debug, PartialEq, Eq, Hash)]
pub struct Header {
    /// CLA, the class. Bit 5 means that more commands of a chain follow.
    pub cla: u8,
    /// INS, the instruction.
    pub ins: u8,
    /// P1, the first parameter.
    pub p1: u8,
    /// P2, the second parameter.
    pub p2: u8,
}

impl Header {
    ghost use Rattle.apdu_core.specs.HeaderBytes.{ins_is_valid};
    ghost use Rattle.apdu_core.specs.Chaining.{with_more, as_last};

    /// Whether INS is an instruction. `6X` and `9X` are not: they are the first bytes of statuses
    /// (ISO/IEC 7816-4, 5.1.2).
    pub fn ins_is_valid(self) -> bool
        ensures { result ≡ ins_is_valid self.ins }
    {
        !matches!(self.ins >> 4, 0x6 | 0x9)
    }

    /// The header with bit 5 of CLA set: more commands of the chain follow (ISO/IEC 7816-4,
    /// 5.1.1.1).
    pub(crate) fn with_more(self) -> Header
        ensures { result ≡ with_more self }
    {
        Header {
            cla: self.cla | MORE,
            ..self
        }
    }

    /// The header with bit 5 of CLA clear: the command is the last of its chain.
    pub(crate) fn as_last(self) -> Header
        ensures { result ≡ as_last self }
    {
        Header {
            cla: self.cla & !MORE,
            ..self
        }
    }
}
