//! The trait of every card that behaves like a card of data objects.
ghost use Rattle.std.specs.Prelude.{◌≡◌, ◌↔◌, ℕ, ◌≤◌, length};
ghost use Rattle.object_card.specs.State.{CardState, IsCardState, is_idle, waiting};
ghost use Rattle.object_card.specs.DataCard.{StandsFor};
ghost use Rattle.apdu_core.specs.declared.header.Header.{Header};
ghost use Rattle.object_card.specs.Instructions.{MayReceive, MaySend};

use apdu_core::RESPONSE_LIMIT;
use t0_core::TpduCard;

/// A card of data objects: each of its states stands for a state of the definitions, and a TPDU or
/// a reset does to it what the definitions say. The trait does not show the data objects.
///
/// The laws of this crate hold for any implementation. A call of `is_idle` shows that the card's
/// state is sound, and each TPDU leads to another sound state.
pub trait DataCard: TpduCard {
    /// The state of the definitions before the TPDU in progress.
    ghost state: { Self → CardState };

    /// Whether no chain is pending, before the TPDU in progress. A response may be pending.
    ///
    /// For the proof, the clauses also say that the state is sound: no value exceeds the limit, and
    /// a pending response fits into what a terminal gathers.
    fn is_idle(&self) -> bool
        ensures idle { result ≡ is_idle (state self.now).pending }
        ensures sound { IsCardState (state self.now) }
        ensures gathered { length (waiting (state self.now).pending) ≤ RESPONSE_LIMIT };

    /// Each of the card's own states stands for a state of the definitions.
    ghost means: { (state_of : Self.State → CardState)
        × ((card : Self) → state_of (Self.standing card) ≡ state card)
        × StandsFor Self.Does Self.after_reset state_of };

    /// Data go to the card only for SELECT and PUT DATA.
    ghost receives: { (h : Header) → Self.MayReceive h ↔ MayReceive h };

    /// Data come from the card only for GET DATA and GET RESPONSE.
    ghost sends: { (h : Header) → Self.MaySend h ↔ MaySend h };
}
