//! The bodies of `Exchange::take` and `take_bytes`, which an exchange and its mark share.
ghost use Rattle.std.specs.Prelude.{◌≡◌, ℕ, List};
ghost use Rattle.t0_core.specs.HostMark.{HasOnly};
ghost use Rattle.exchange_core.specs.ExchangeSide.{IsKept};
ghost use Rattle.exchange_core.specs.ExchangeSteps.{IsTaking};
ghost use Rattle.exchange_core.specs.Buffers.{IsTakingAll};
ghost use Rattle.exchange_core.specs.OwnedExchange.{of_parts};

use crate::attempt::{Attempt, Next};
use crate::taken::Taken;
use crate::wanted::Wanted;
use std::alloc::Allocator;
use t0_core::{Gather, HostEnd, LineFault};

/// Takes a character of the card. The parameters are the fields of an exchange, wherever its owner
/// stores them. The clauses and the errors are those of `Exchange::take`.
#[inline(always)]
pub(crate) fn taken_by<A: Allocator>(
    end: &mut HostEnd<'_>,
    gather: &mut Gather<A>,
    attempt: &mut Attempt,
    wanted: Wanted,
    stalled: &mut bool,
    byte: u8,
) -> Result<(), LineFault>
    requires { IsKept (of_parts end.old gather.old attempt.old wanted stalled.old) }
    ensures kept { IsKept (of_parts end.new gather.new attempt.new wanted stalled.new) }
    ensures taking { IsTaking (of_parts end.old gather.old attempt.old wanted stalled.old) byte
        result (of_parts end.new gather.new attempt.new wanted stalled.new) }
    ensures limit { gather.new.limit ≡ gather.old.limit }
    ensures data { (content : List ℕ) → HasOnly content end.old → HasOnly content end.new }
{
    end.take(byte, gather)?;
    let Some(status) = end.status() else {
        return Ok(());
    };
    let gathered = gather.bytes().len();
    let sent = attempt.sent.and(end.data_sent());
    let ended = Attempt { sent, ..*attempt };
    match ended.followed(gathered, wanted.less(gathered), status) {
        Next::Asks {
            attempt: next,
            count,
        } => {
            *end = HostEnd::asking(next.header, count);
            *attempt = next;
            Ok(())
        }
        Next::Stalls => {
            *stalled = true;
            Err(LineFault::Stalled)
        }
        Next::Ends => Ok(()),
    }
}

/// Takes the characters of a buffer, data in runs. The parameters are the fields of an exchange,
/// and the clauses are those of `Exchange::take_bytes`.
#[inline(always)]
pub(crate) fn all_taken_by<A: Allocator>(
    end: &mut HostEnd<'_>,
    gather: &mut Gather<A>,
    attempt: &mut Attempt,
    wanted: Wanted,
    stalled: &mut bool,
    bytes: &[u8],
) -> Taken
    requires { IsKept (of_parts end.old gather.old attempt.old wanted stalled.old) }
    ensures kept { IsKept (of_parts end.new gather.new attempt.new wanted stalled.new) }
    ensures taking { IsTakingAll IsTaking
        (of_parts end.old gather.old attempt.old wanted stalled.old) bytes.now result
        (of_parts end.new gather.new attempt.new wanted stalled.new) }
    ensures limit { gather.new.limit ≡ gather.old.limit }
    ensures data { (content : List ℕ) → HasOnly content end.old → HasOnly content end.new }
{
    // Data can only be first, and after a procedure byte.
    let mut at = end.take_data_bytes(bytes, gather);

    // For the proof: the label names the loop's goals.
    'rest: while at < bytes.len() {
        if let Err(fault) = taken_by(end, gather, attempt, wanted, stalled, bytes[at]) {
            return Taken {
                count: at,
                outcome: Err(fault),
            };
        }
        at += 1;
        at += end.take_data_bytes(&bytes[at..], gather);
    }
    Taken {
        count: bytes.len(),
        outcome: Ok(()),
    }
}
