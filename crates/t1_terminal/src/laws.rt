//! A law of a card of data objects over T=1, for proofs in the crates above. The function is empty:
//! its contract is the law.
ghost use Rattle.std.specs.Prelude.{◌≡◌, ℕ, List};
ghost use Rattle.t0_core.specs.CardSide.{EndOf as CardEndOf};
ghost use Rattle.object_card.specs.DataCard.{StandsFor};
ghost use Rattle.object_card.specs.State.{CardState};
ghost use Rattle.t1_core.specs.CardHistory.{Call, HappenAll};
ghost use Rattle.t1_core.specs.CardSide.{Did};
ghost use Rattle.t1_core.specs.Doing.{DoesAll, EndOf, IsKeeping};
ghost use Rattle.t1_terminal.specs.CardCommand.{DoesAt, IsStored};

use crate::data_applet::DataApplet;
use apdu_terminal::laws::only_a_put_command_changes_entries;
use object_card::DataCard;
use t1_core::Applet;
use t1_core::laws::only_commands_change_a_card;

/// Whatever a terminal sends over T=1, only a whole PUT DATA with CLA `00` whose response ends with
/// `9000` changes applications and their entries. The card carries out `did` in turn, and each
/// other command keeps them, as do a reset of the card's end and a lack of memory. The premise on
/// the limit holds of a new end.
pub fn only_a_put_changes_entries<C: DataCard>()
    ensures { (state_of : C.State → CardState) → StandsFor C.Does C.after_reset state_of →
        (calls : List Call) (old new : EndOf (CardEndOf C)) (sent : List ℕ) →
        IsKeeping 261 old sent →
        HappenAll ⟦<DataApplet<C> as Applet>⟧ calls old new →
        (did : List Did) × DoesAll (λ s d t. DoesAt C.Does s d t
        × ((IsStored d → ⊥) → (state_of t).applications ≡ (state_of s).applications))
        (C.standing old.card.card) did (C.standing new.card.card) }
{
    only_commands_change_a_card::<DataApplet<C>>();
    only_a_put_command_changes_entries::<C>();
}
