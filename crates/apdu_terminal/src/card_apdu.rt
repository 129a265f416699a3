//! Carries out a whole command at a card whose end takes TPDUs.
ghost use Rattle.std.specs.Prelude.{◌≡◌, ◌≤◌, ◌⊎◌, ℕ, [], Some, None, Err, false, true, IfOk, IfErr, OnOk, MatchResult, length};
ghost use Rattle.apdu_terminal.specs.declared.apdu_fault.CarryFault.TheVariants as CarryFault;
ghost use Rattle.apdu_core.specs.CommandBytes as spec;
ghost use Rattle.apdu_core.specs.StatusWord.{StatusWord};
ghost use Rattle.t0_core.specs.CardTpdu.{rests};
ghost use Rattle.t0_core.specs.Meaning.{Tpdu};
ghost use Rattle.exchange_core.specs.ExchangeSide.{response_limit};
ghost use Rattle.apdu_terminal.specs.Apdus.{may_bring};
ghost use Rattle.apdu_terminal.specs.ApduSide.{has_failed};
ghost use Rattle.apdu_terminal.specs.CardApdu.{HasCome, HasFailed, HasResponse, IsLeft, IsTpduOf, StopsBy, tpdu_command};
ghost use Rattle.apdu_terminal.specs.declared.stage.Stage.TheVariants.{Done};

use crate::apdu_fault::CarryFault;
use crate::command_bytes::{COMMAND_LIMIT, write_command};
use crate::exchange::ApduExchange;
use apdu_core::{Command, Status};
use card_terminal::Wanted;
use std::alloc::Allocator;
use t0_core::{CardEnd, Gather, Plan, Plans, TpduCard, TpduFault};

/// Carries out a whole command at a card's end, by TPDUs under cuts of 256 (profile). The first is
/// the command itself, in case 4 without its Le. After `6CXX` a TPDU of case 2 is sent once more
/// with that count, if Le still asks for as much. After `61XX` GET RESPONSE fetches as much as Le
/// asks for, 256 bytes for `00`, and nothing without Le. The rest stays pending, and the status
/// announces it. The returned exchange has ended: it holds the data and the status.
///
/// # Errors
/// - `UnderWay`: a TPDU is in progress at the card's end. Nothing changes.
/// - `OutOfMemory`: memory for the response ran out. Nothing changes.
/// - `Tpdu`: the card did not finish a TPDU, because the command is not agreed with it. It is
///   `WantsData` if the card takes data in a TPDU of case 2, `SendsData` if it sends data in one
///   of case 1 or 3. The TPDUs before it are carried out, and then the card is reset.
/// - `Response` of `Stalled`: a GET RESPONSE brought no data, and the card announces more. The
///   TPDUs so far are carried out.
pub fn apdu<'c, C: TpduCard, A: Allocator + Copy>(
    alloc: A,
    end: &mut CardEnd<C>,
    command: Command<'c>,
) -> Result<ApduExchange<'c, A>, CarryFault>
    ensures responds { IfOk result
        (HasResponse C.Does (C.standing end.old.card) command.entry (C.standing end.new.card)) }
    ensures within { IfOk result (λ ex. length ex.gather.bytes ≤ may_bring command.entry.le) }
    ensures left { IfErr result
        (λ f. IsLeft C.TpduCard command.entry end.old f end.new) }
    ensures rests { rests end.new.stage ≡ rests end.old.stage }
    ensures under_way { rests end.old.stage ≡ false → result ≡ Err CarryFault.UnderWay }
{
    if !end.is_at_rest() {
        return Err(CarryFault::UnderWay);
    }
    let room = Gather::with_room(alloc, 256)?;
    let mut gather = Gather::with_room(alloc, 256)?;
    carry_out(end, command, room, &mut gather)
}

/// The body of `apdu`: `room` is for the response, and `gather` for the data of one TPDU.
pub(crate) fn carry_out<'c, C: TpduCard, A: Allocator, B: Allocator>(
    end: &mut CardEnd<C>,
    command: Command<'c>,
    mut room: Gather<A>,
    gather: &mut Gather<B>,
) -> Result<ApduExchange<'c, A>, CarryFault>
    requires rests { rests end.old.stage ≡ true }
    requires room { (256 ≤ room.limit) × (room.limit ≤ response_limit) × (256 ≤ gather.old.limit) }
    ensures responds { IfOk result
        (HasResponse C.Does (C.standing end.old.card) command.entry (C.standing end.new.card)) }
    ensures within { IfOk result (λ ex. length ex.gather.bytes ≤ may_bring command.entry.le) }
    ensures failed { IfErr result (λ f. HasFailed C.TpduCard command.entry
        (C.standing end.old.card) f (C.standing end.new.card)) }
    ensures rests { rests end.new.stage ≡ true }
    ensures room { IfOk result (λ ex. ex.gather.limit ≡ room.limit) }
    ensures limit { gather.new.limit ≡ gather.old.limit }
{
    let wanted = Wanted::Bytes(command.le().unwrap_or(0));
    let first = without_le(command);
    room.clear();
    let mut exchange = ApduExchange::begin(room, first, wanted);
    converse(end, &mut exchange, gather)?;
    Ok(exchange)
}

/// Returns the command, in case 4 without its Le.
fn without_le(command: Command<'_>) -> Command<'_>
    ensures { result ≡ tpdu_command command.entry }
{
    let (content, le) = (command.data(), command.le());
    let le = if content.is_empty() { le } else { None };
    Command::new(command.header(), content, le).unwrap()
}

/// Carries out the exchange's commands, one TPDU each, until no command follows.
fn converse<C: TpduCard, A: Allocator, B: Allocator>(
    end: &mut CardEnd<C>,
    exchange: &mut ApduExchange<'_, A>,
    gather: &mut Gather<B>,
) -> Result<(), CarryFault>
    requires rests { rests end.old.stage ≡ true }
    requires going { has_failed exchange.old.stage ≡ false }
    requires room { (256 ≤ exchange.old.gather.limit) × (256 ≤ gather.old.limit) }
    requires come { (c : spec.Command) × (first : C.State) × (may_bring c.le ≤ 256)
        × HasCome C.Does c first (C.standing end.old.card) exchange.old }
    ensures rests { rests end.new.stage ≡ true }
    ensures over { OnOk result ((status : StatusWord) × (exchange.new.stage ≡ Done status)) }
    ensures limit { (exchange.new.gather.limit ≡ exchange.old.gather.limit)
        × (gather.new.limit ≡ gather.old.limit) }
    ensures come { (c : spec.Command) (first : C.State) → may_bring c.le ≤ 256 →
        HasCome C.Does c first (C.standing end.old.card) exchange.old → MatchResult result
        (λ _. HasCome C.Does c first (C.standing end.new.card) exchange.new)
        (λ f. HasFailed C.TpduCard c first f (C.standing end.new.card)) }
{
    // For the proof: the label names the loop's goals.
    'talk: while let Some(due) = exchange.apdu() {
        gather.clear();
        let status = match sent(end, &due, gather) {
            Ok(status) => status,
            Err(fault) => return Err(CarryFault::Tpdu(fault)),
        };
        match exchange.responded(gather.bytes(), status) {
            Ok(()) => {}
            Err(fault) => return Err(CarryFault::Response(fault)),
        }
    }
    Ok(())
}

/// Carries out a command of case 1, 2 or 3 as a TPDU, and gathers its data. If the card does not
/// finish the TPDU, it is reset.
fn sent<C: TpduCard, B: Allocator>(
    end: &mut CardEnd<C>,
    due: &Command<'_>,
    gather: &mut Gather<B>,
) -> Result<Status, TpduFault>
    requires rests { rests end.old.stage ≡ true }
    requires tpdu { (due.now.content ≡ []) ⊎ (due.now.le ≡ None) }
    requires empty { gather.old.bytes ≡ [] }
    requires room { 256 ≤ gather.old.limit }
    ensures rests { rests end.new.stage ≡ true }
    ensures limit { gather.new.limit ≡ gather.old.limit }
    ensures goes { MatchResult result
        (λ status. ((t : Tpdu)
        × IsTpduOf (record { command = due.now; content = gather.new.bytes; status = status }) t
        × C.Does (C.standing end.old.card) 256 t (C.standing end.new.card))
        × (length gather.new.bytes ≤ may_bring due.now.le))
        (λ fault. (C.standing end.new.card ≡ C.after_reset (C.standing end.old.card))
        × StopsBy C.MayReceive C.MaySend due.now fault) }
{
    // For the proof: states how long the data are, and which Le there may be.
    let _le = due.le();
    let mut bytes = [0; COMMAND_LIMIT];
    let Some(count) = write_command(due, &mut bytes) else {
        unreachable!()
    };
    let none: &[Plan] = &[];
    end.tpdu(&bytes[..count], &mut Plans::over(none), gather)
}
