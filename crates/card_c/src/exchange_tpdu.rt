//! The exports that carry out an exchange by whole TPDUs.
ghost use Rattle.std.specs.Prelude.{◌≡◌, ⊤, true, false};
ghost use Rattle.t0_core.specs.TpduBytes.{due_by};
ghost use Rattle.card_c.specs.Codes.{gt_state};
ghost use Rattle.card_c.specs.Handles.{exchange_in, OnHandle, OnLook};
ghost use Rattle.card_c.specs.ExchangeCalls.{ByTpdus, TellsTpduOf};
ghost use Rattle.card_c.specs.TpduCalls.{TellsTpdu, IsAnswered};

use crate::code;
use crate::exchange_side::ExchangeSide;
use crate::handle::{Handle, on};
use crate::held_exchange::ExchangeHandle;
use crate::whole_tpdu::{answer_of, told};
use std::alloc::Global;

/// Writes the next whole TPDU, its length, and the most data bytes of its answer, 0 to 256.
#[unsafe(no_mangle)]
pub extern "C" fn galliumtoad_exchange_tpdu(
    alloc: Global,
    exchange: &mut ExchangeHandle,
    tpdu: &mut [u8],
    len: &mut usize,
    most: &mut usize,
) -> i32
    ensures { OnLook ((tpdu.new ≡ tpdu.old) × (len.new ≡ len.old) × (most.new ≡ most.old))
        (λ side code. TellsTpduOf side tpdu.old len.old most.old code tpdu.new len.new most.new)
        (exchange_in exchange.old) result (exchange_in exchange.new) }
{
    on!(alloc, exchange, side => due(&side, tpdu, len, most))
}

fn due(side: &ExchangeSide, tpdu: &mut [u8], len: &mut usize, most: &mut usize) -> i32
    ensures refused { side.now.apdus.leads ≡ true → (result ≡ gt_state)
        × (tpdu.new ≡ tpdu.old) × (len.new ≡ len.old) × (most.new ≡ most.old) }
    ensures told { side.now.apdus.leads ≡ false → TellsTpdu (due_by side.now.exchange.host)
        tpdu.old len.old most.old result tpdu.new len.new most.new }
{
    if side.apdus.leads {
        return code::STATE;
    }
    told(side.exchange.tpdu(), tpdu, len, most)
}

/// Takes the answer to that TPDU: data, then the status. The next TPDU begins, if one follows.
#[unsafe(no_mangle)]
pub extern "C" fn galliumtoad_exchange_answered(
    alloc: Global,
    exchange: &mut ExchangeHandle,
    answer: &[u8],
) -> i32
    ensures { OnHandle (ByTpdus ⊤ (IsAnswered answer.now))
        (exchange_in exchange.old) result (exchange_in exchange.new) }
{
    on!(alloc, exchange, side => take_answer(&mut side, answer))
}

fn take_answer(side: &mut ExchangeSide, answer: &[u8]) -> i32
    ensures { ByTpdus ⊤ (IsAnswered answer.now) side.old result side.new }
{
    if side.apdus.leads {
        return code::STATE;
    }
    let Some((bytes, status)) = answer_of(answer) else {
        return code::NO_STATUS;
    };
    code::of_answer(side.exchange.answered(bytes, status))
}
