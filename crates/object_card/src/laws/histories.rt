//! Laws of all that happens at the end of a card, since it was made or reset: the puts that a
//! history shows.
ghost use Rattle.std.specs.Prelude.{◌≡◌, ℕ, List};
ghost use Rattle.std.specs.List.{AllByRecursion};
ghost use Rattle.t0_core.specs.Character.{Character};
ghost use Rattle.t0_core.specs.CardSide.{Stage};
ghost use Rattle.t0_core.specs.History.{AreCutInto, Event, Item, IsByteEvent, AreAlikeInTurn};
ghost use Rattle.t0_core.specs.CardHistory.{Leads};
ghost use Rattle.object_card.specs.State.{IsFresh};
ghost use Rattle.object_card.specs.ShownPuts.{shown_puts, with_puts};

use crate::DataCard;
use t0_core::laws::events_have_one_cutting;

/// Items that differ only in a direction that nobody saw, because no data moved, show the same
/// puts.
pub fn alike_items_show_the_same_puts()
    ensures { (items others : List Item) → AreAlikeInTurn items others →
        shown_puts items ≡ shown_puts others }
{}

/// Whatever happens at the end of a card of data objects, its tables are the first ones with
/// exactly the shown puts applied, in order. The events can be cut into whole dialogues, parts that
/// resets cut off, and the part in progress. The law holds for each such cutting. The characters
/// must be bytes.
///
/// `first` is the card when the end was made, as `finish` makes one, or after a reset: nothing is
/// selected or pending. `card` is the card now, at an end of this stage. A reset keeps the tables.
pub fn an_end_holds_what_its_history_shows<C: DataCard>()
    ensures is_cut { (first card : C) (events : List Event) (stage : Stage) →
        Leads C.Does C.after_reset (C.standing first) events (C.standing card) (C.prepared card)
        stage → (items : List Item) × (part : List Character) × AreCutInto events items part }
    ensures shown { (first card : C) (events : List Event) (stage : Stage) (items : List Item)
        (part : List Character) → IsFresh (C.state first) →
        Leads C.Does C.after_reset (C.standing first) events (C.standing card) (C.prepared card)
        stage → AllByRecursion IsByteEvent events → AreCutInto events items part →
        (C.state card).applications ≡ with_puts (shown_puts items) (C.state first).applications }
    ensures fresh { (before after : C) → C.standing after ≡ C.after_reset (C.standing before) →
        IsFresh (C.state after) × ((C.state after).applications ≡ (C.state before).applications) }
{
    events_have_one_cutting();
}
