//! Whole TPDUs, and answers to TPDUs and commands.
ghost use Rattle.std.specs.Prelude.{◌≡◌, ℕ, ◌+◌, ◌≤◌, ◌++◌, ◌∷◌, List, length, drop, MatchOption};
ghost use Rattle.std.specs.Option.{option_map};
ghost use Rattle.apdu_core.specs.StatusWord.{StatusWord};
ghost use Rattle.t0_core.specs.TpduBytes.{asked_of};
ghost use Rattle.card_c.specs.TpduCalls.{TellsTpdu, AreAnswer};

use crate::code;
use apdu_core::Status;
use t0_core::WholeTpdu;

/// Writes the next TPDU, its length, and the most bytes of its answer. If it is missing or does not
/// fit, nothing is written.
pub fn told(due: Option<WholeTpdu<'_>>, tpdu: &mut [u8], len: &mut usize, most: &mut usize) -> i32
    ensures { TellsTpdu (option_map asked_of due.entry) tpdu.old len.old most.old
        result tpdu.new len.new most.new }
{
    let Some(due) = due else {
        return code::NOT_DUE;
    };
    match due.write(tpdu) {
        Some(count) => {
            *len = count;
            *most = usize::from(due.may_come);
            code::OK
        }
        None => code::BUFFER,
    }
}

/// Returns the data and the status of an answer. `None` if it ends in no status, or has fewer than
/// two bytes.
pub fn answer_of(answer: &[u8]) -> Option<(&[u8], Status)>
    ensures { MatchOption result
        ((bytes : List ℕ) (status : StatusWord) → AreAnswer answer.now bytes status → ⊥)
        (λ parts. AreAnswer answer.now parts.0.now parts.1) }
{
    let [bytes @ .., sw1, sw2] = answer else {
        return None;
    };
    match Status::new(*sw1, *sw2) {
        Some(status) => Some((bytes, status)),
        None => None,
    }
}

/// Writes data and a status to the front of an array, which must have room for them, and their
/// number to `len`.
pub fn hand_out(bytes: &[u8], status: Status, answer: &mut [u8], len: &mut usize)
    requires { length bytes.now + 2 ≤ length answer.old }
    ensures answer { answer.new ≡ bytes.now ++ status.0 ∷ status.1
        ∷ drop (length bytes.now + 2) answer.old }
    ensures len { len.new ≡ length bytes.now + 2 }
{
    let count = bytes.len();
    answer[..count].copy_from_slice(bytes);
    answer[count..count + 2].copy_from_slice(&[status.sw1(), status.sw2()]);
    *len = count + 2;
}
