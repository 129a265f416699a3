//! The errors of giving a terminal's end the answer to a whole TPDU.

use std::error::Error;
use std::fmt;

/// Why a terminal's end refuses the answer to a whole TPDU (profile).
///
/// After `TooLong` and `Stalled` the end has failed for good. After any other error it is
/// unchanged. A terminal of whole commands returns it too: there a command takes the place of the
/// TPDU, and Le that of P3.
#[derive(Clone, Copy, Debug, PartialEq, Eq)]
pub enum AnswerFault {
    /// No TPDU is about to start: it has begun, ended or failed, or no operation has begun.
    NotDue,
    /// The TPDU asks for no data, and the answer contains data.
    NotAsked,
    /// The answer contains more data than P3 asks for (`00`: 256).
    TooMany,
    /// The data, with those gathered before, exceed the room of the gather.
    TooLong,
    /// A `GET RESPONSE` that the exchange added, with its repetition, brought no data, and the card
    /// announces more. Only an exchange of several TPDUs returns this.
    Stalled,
}

impl fmt::Display for AnswerFault {
    ghost use Rattle.std.specs.Prelude.{Some};
    ghost use Rattle.t0_core.specs.FaultText.{answer_fault_text};

    ghost output = { λ fault. Some (answer_fault_text fault) };

    fn fmt<W: fmt::Write>(&self, f: &mut fmt::Formatter<W>) -> fmt::Result {
        match self {
            AnswerFault::NotDue => f.write_str("no answer due"),
            AnswerFault::NotAsked => f.write_str("data not asked for"),
            AnswerFault::TooMany => f.write_str("more data than asked for"),
            AnswerFault::TooLong => f.write_str("response too long"),
            AnswerFault::Stalled => f.write_str("response stalled"),
        }
    }
}

impl Error for AnswerFault {}
