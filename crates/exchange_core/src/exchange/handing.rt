//! The bodies of `next_bytes` of an exchange and of its mark.
ghost use Rattle.std.specs.Prelude.{◌≡◌, ℕ, List, None, Some, length, ◌==◌, if◌then◌else◌};
ghost use Rattle.apdu_core.specs.StatusWord.{StatusWord};
ghost use Rattle.t0_core.specs.Room.{Room};
ghost use Rattle.t0_core.specs.HostMark.{HasOnly, with_data};
ghost use Rattle.t0_core.specs.HostSide.{IsInRange};
ghost use Rattle.exchange_core.specs.declared.attempt.Attempt.{Attempt};
ghost use Rattle.exchange_core.specs.declared.wanted.Wanted.{Wanted};
ghost use Rattle.exchange_core.specs.Buffers.{IsHandingOut};
ghost use Rattle.exchange_core.specs.ExchangeSide.{IsKept, exchange_turn};
ghost use Rattle.exchange_core.specs.ExchangeSteps.{IsTurn};
ghost use Rattle.exchange_core.specs.OwnedExchange.{of_parts};

use crate::handed_out::HandedOut;
use t0_core::{HostEnd, HostMark, HostTurn};

/// Writes the next characters to a buffer. The parameters are the fields of an exchange, wherever
/// its owner stores them. The clauses are those of `Exchange::next_bytes`, for any other fields.
#[inline(always)]
pub(crate) fn handed_by(end: &mut HostEnd<'_>, stalled: bool, bytes: &mut [u8]) -> HandedOut
    ensures handed { (gather : Room) (attempt : Attempt) (wanted : Wanted)
        → IsKept (of_parts end.old gather attempt wanted stalled)
        → IsHandingOut IsTurn (of_parts end.old gather attempt wanted stalled) bytes.old bytes.new
        result (of_parts end.new gather attempt wanted stalled) }
    ensures kept { (gather : Room) (attempt : Attempt) (wanted : Wanted)
        → IsKept (of_parts end.old gather attempt wanted stalled)
        → IsKept (of_parts end.new gather attempt wanted stalled) }
    ensures over { (gather : Room) (attempt : Attempt) (wanted : Wanted) (status : StatusWord)
        → exchange_turn (of_parts end.new gather attempt wanted stalled) ≡ HostTurn.Done status
        → end.new ≡ end.old }
    ensures data { (content : List ℕ) → HasOnly content end.old → HasOnly content end.new }
{
    if stalled {
        return none_by_failed(bytes.len());
    }
    // Data can only be first: a procedure byte of the card asks for them.
    let count = end.next_data_bytes(bytes);
    for at in count..bytes.len() {
        match end.next() {
            HostTurn::Sends(byte) => bytes[at] = byte,
            turn => {
                return HandedOut {
                    count: at,
                    stop: Some(turn),
                };
            }
        }
    }
    HandedOut {
        count: bytes.len(),
        stop: None,
    }
}

/// Does what `handed_by` does, on the mark of the end over these data.
#[inline(always)]
pub(crate) fn handed_in(
    end: &mut HostMark,
    content: &[u8],
    stalled: bool,
    bytes: &mut [u8],
) -> HandedOut
    requires { IsInRange (with_data end.old content.now) }
    ensures handed { (gather : Room) (attempt : Attempt) (wanted : Wanted)
        → IsKept (of_parts (with_data end.old content.now) gather attempt wanted stalled)
        → IsHandingOut IsTurn
        (of_parts (with_data end.old content.now) gather attempt wanted stalled) bytes.old
        bytes.new result
        (of_parts (with_data end.new content.now) gather attempt wanted stalled) }
    ensures kept { (gather : Room) (attempt : Attempt) (wanted : Wanted)
        → IsKept (of_parts (with_data end.old content.now) gather attempt wanted stalled)
        → IsKept (of_parts (with_data end.new content.now) gather attempt wanted stalled) }
    ensures over { (gather : Room) (attempt : Attempt) (wanted : Wanted) (status : StatusWord)
        → exchange_turn (of_parts (with_data end.new content.now) gather attempt wanted stalled)
        ≡ HostTurn.Done status
        → with_data end.new content.now ≡ with_data end.old content.now }
    ensures range { IsInRange (with_data end.new content.now) }
{
    if stalled {
        return none_by_failed(bytes.len());
    }
    let count = end.next_data_bytes(content, bytes);
    for at in count..bytes.len() {
        match end.next(content) {
            HostTurn::Sends(byte) => bytes[at] = byte,
            turn => {
                return HandedOut {
                    count: at,
                    stop: Some(turn),
                };
            }
        }
    }
    HandedOut {
        count: bytes.len(),
        stop: None,
    }
}

/// Returns what a failed exchange writes to a buffer of `room` bytes: no character.
fn none_by_failed(room: usize) -> HandedOut
    ensures count { result.count ≡ 0 }
    ensures stop { result.stop ≡ (if room == 0 then None else Some HostTurn.Failed) }
{
    let stop = match room {
        0 => None,
        _ => Some(HostTurn::Failed),
    };
    HandedOut { count: 0, stop }
}
