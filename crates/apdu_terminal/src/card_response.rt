//! Answers a whole command as a card of data objects does, also one that is not agreed with it.
ghost use Rattle.std.specs.Prelude.{◌≡◌, ◌⊎◌, ◌≤◌, [], false, true, IfOk, IfErr, length};
ghost use Rattle.object_card.specs.Agreed.{IsAgreed};
ghost use Rattle.object_card.specs.Instructions.{MayReceive, MaySend};
ghost use Rattle.t0_core.specs.CardTpdu.{rests};
ghost use Rattle.exchange_core.specs.ExchangeSide.{response_limit};
ghost use Rattle.apdu_terminal.specs.Apdus.{may_bring};
ghost use Rattle.apdu_terminal.specs.CardApdu.{HasResponse};
ghost use Rattle.apdu_terminal.specs.declared.apdu_fault.CarryFault.TheVariants as CarryFault;
ghost use Rattle.apdu_terminal.specs.declared.stage.Stage.TheVariants.{Done};

use crate::apdu_fault::CarryFault;
use crate::card_apdu::carry_out;
use crate::exchange::ApduExchange;
use apdu_core::{Command, Status};
use object_card::{DataCard, is_agreed};
use std::alloc::Allocator;
use t0_core::{CardEnd, Gather};

/// Answers a whole command, as a card of data objects does (profile). A command that is not agreed
/// with the card (`object_card::is_agreed`) gets `6700` before any other refusal. Then nothing
/// changes: a chain or a response stays pending. `apdu` carries out every other command. The
/// returned exchange has ended: it holds the data and the status.
///
/// # Errors
/// - `UnderWay`: a TPDU is in progress at the card's end. Nothing changes.
/// - `OutOfMemory`: memory for the response ran out. Nothing changes.
pub fn respond<'c, C: DataCard, A: Allocator + Copy>(
    alloc: A,
    end: &mut CardEnd<C>,
    command: Command<'c>,
) -> Result<ApduExchange<'c, A>, CarryFault>
    ensures refuses { (IsAgreed MayReceive MaySend command.entry → ⊥) →
        (end.new ≡ end.old) × IfOk result
        (λ ex. (ex.stage ≡ Done (0x67, 0x00)) × (ex.gather.bytes ≡ [])) }
    ensures responds { IsAgreed MayReceive MaySend command.entry → IfOk result
        (HasResponse C.Does (C.standing end.old.card) command.entry (C.standing end.new.card)) }
    ensures within { IfOk result (λ ex. length ex.gather.bytes ≤ may_bring command.entry.le) }
    ensures rests { rests end.new.stage ≡ rests end.old.stage }
    ensures fault { IfErr result (λ f. (end.new ≡ end.old)
        × (((f ≡ CarryFault.UnderWay) × (rests end.old.stage ≡ false))
        ⊎ ((f ≡ CarryFault.OutOfMemory) × (rests end.old.stage ≡ true)))) }
    ensures under_way { rests end.old.stage ≡ false → IfOk result (λ _. ⊥) }
{
    if !end.is_at_rest() {
        return Err(CarryFault::UnderWay);
    }
    if !is_agreed(&command) {
        return Ok(ApduExchange::refused(alloc, command, wrong_length())?);
    }
    let room = Gather::with_room(alloc, 256)?;
    let mut gather = Gather::with_room(alloc, 256)?;
    Ok(answered(end, command, room, &mut gather))
}

/// Answers a whole command that is agreed with the card: `room` is for the response, and `gather`
/// for the data of one TPDU.
pub(crate) fn answered<'c, C: DataCard, A: Allocator, B: Allocator>(
    end: &mut CardEnd<C>,
    command: Command<'c>,
    room: Gather<A>,
    gather: &mut Gather<B>,
) -> ApduExchange<'c, A>
    requires rests { rests end.old.stage ≡ true }
    requires room { (256 ≤ room.limit) × (room.limit ≤ response_limit) × (256 ≤ gather.old.limit) }
    requires agreed { IsAgreed C.MayReceive C.MaySend command }
    ensures responds { HasResponse C.Does (C.standing end.old.card) command.entry
        (C.standing end.new.card) result }
    ensures within { length result.gather.bytes ≤ may_bring command.entry.le }
    ensures rests { rests end.new.stage ≡ true }
    ensures room { result.gather.limit ≡ room.limit }
    ensures limit { gather.new.limit ≡ gather.old.limit }
{
    let Ok(exchange) = carry_out(end, command, room, gather) else {
        unreachable!()
    };
    exchange
}

/// Returns `6700`, wrong length.
fn wrong_length() -> Status
    ensures { result ≡ (0x67, 0x00) }
{
    Status::new(0x67, 0x00).unwrap()
}
