//! The errors of reading an answer to reset: a reason and its place.

use std::fmt;

/// Why bytes are not an answer to reset (ISO/IEC 7816-3, 8.2).
#[derive(Clone, Copy, Debug, PartialEq, Eq, Hash)]
pub enum AtrReason {
    /// The first byte is neither `3B` nor `3F`.
    NoTs,
    /// The bytes end before an announced character, and there are fewer than 33. One more byte may
    /// mend this, so a reader may continue to read after this error or `CheckMissing`.
    Cut,
    /// More than 32 characters after TS are announced, counting the check byte. The place is 33,
    /// whether or not a byte is there.
    TooLong,
    /// The T of this TD is below the T before it, or is 15 in TD1.
    OutOfOrder,
    /// Bytes follow the end of the answer: at least one after the check byte, or at least two if no
    /// check byte is expected.
    Surplus,
    /// The check byte is missing at the end, and some T other than 0 is named. One more byte may
    /// mend this.
    CheckMissing,
    /// One byte follows the end, although no T other than 0 is named and so no check byte is
    /// expected.
    CheckNotDue,
    /// The exclusive-or of all characters after TS is not `00`.
    CheckWrong,
}

/// The first fault of bytes that are not an answer to reset. `place` is the offset of the first
/// wrong byte, with TS at 0. If a byte is missing, it is the number of bytes.
#[derive(Clone, Copy, Debug, PartialEq, Eq, Hash)]
pub struct AtrFault {
    pub place: usize,
    pub reason: AtrReason,
}

impl fmt::Display for AtrReason {
    ghost use Rattle.std.specs.Prelude.{Some};
    ghost use Rattle.atr_core.specs.FaultText.{reason_text};

    ghost output = { λ reason. Some (reason_text reason) };

    fn fmt<W: fmt::Write>(&self, f: &mut fmt::Formatter<W>) -> fmt::Result {
        f.write_str(match self {
            AtrReason::NoTs => "no TS",
            AtrReason::Cut => "cut",
            AtrReason::TooLong => "too long",
            AtrReason::OutOfOrder => "T out of order",
            AtrReason::Surplus => "characters behind the end",
            AtrReason::CheckMissing => "check byte missing",
            AtrReason::CheckNotDue => "check byte not due",
            AtrReason::CheckWrong => "wrong check byte",
        })
    }
}

impl fmt::Display for AtrFault {
    ghost use Rattle.std.specs.Prelude.{Some};
    ghost use Rattle.atr_core.specs.FaultText.{fault_text};

    ghost output = { λ fault. Some (fault_text fault) };

    fn fmt<W: fmt::Write>(&self, f: &mut fmt::Formatter<W>) -> fmt::Result {
        write!(f, "{} at {}", self.reason, self.place)
    }
}

impl std::error::Error for AtrFault {}
