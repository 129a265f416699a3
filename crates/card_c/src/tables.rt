//! The exports that read the tables of a card, alone or in a session.
ghost use Rattle.std.specs.Prelude.{◌≡◌};
ghost use Rattle.object_card.specs.State.{entry_at};
ghost use Rattle.card_c.specs.Handles.{held_by, OnLook};
ghost use Rattle.card_c.specs.TableCalls.{TellsBytes, TellsAid, TellsEntry, TellsEntryAt, aid_at};

use crate::card_side::CardSide;
use crate::code;
use crate::copied::copied;
use crate::handle::{Handle, on};
use crate::held_card::CardHandle;
use crate::tag_number::number_of;
use object_card::{Aid, ObjectCard};
use std::alloc::Global;

/// Writes the identifier of the selected application, and its length.
#[unsafe(no_mangle)]
pub extern "C" fn galliumtoad_card_selected(
    alloc: Global,
    card: &mut CardHandle,
    aid: &mut [u8],
    len: &mut usize,
) -> i32
    ensures { OnLook ((aid.new ≡ aid.old) × (len.new ≡ len.old))
        (TellsAid (λ state. state.selected) aid.old len.old aid.new len.new)
        (held_by card.old) result (held_by card.new) }
{
    on!(alloc, card, side => selected(&side, aid, len))
}

fn selected(side: &CardSide, aid: &mut [u8], len: &mut usize) -> i32
    ensures { TellsAid (λ state. state.selected) aid.old len.old aid.new len.new side.now result }
{
    match side {
        CardSide::Building(_) | CardSide::Own(_) | CardSide::OwnAtT1(_) => code::STATE,
        CardSide::Standing(end, _) => tell(end.card().selected(), aid, len),
        CardSide::AtT1(at) => tell(at.end.applet().card().selected(), aid, len),
        CardSide::Joined(joined) => tell(joined.session.card().selected(), aid, len),
    }
}

/// Writes the identifier of the application at this place, and its length.
#[unsafe(no_mangle)]
pub extern "C" fn galliumtoad_card_app_at(
    alloc: Global,
    card: &mut CardHandle,
    place: usize,
    aid: &mut [u8],
    len: &mut usize,
) -> i32
    ensures { OnLook ((aid.new ≡ aid.old) × (len.new ≡ len.old))
        (TellsAid (aid_at place) aid.old len.old aid.new len.new)
        (held_by card.old) result (held_by card.new) }
{
    on!(alloc, card, side => app_at(&side, place, aid, len))
}

fn app_at(side: &CardSide, place: usize, aid: &mut [u8], len: &mut usize) -> i32
    ensures { TellsAid (aid_at place) aid.old len.old aid.new len.new side.now result }
{
    match side {
        CardSide::Building(_) | CardSide::Own(_) | CardSide::OwnAtT1(_) => code::STATE,
        CardSide::Standing(end, _) => tell(end.card().app_at(place), aid, len),
        CardSide::AtT1(at) => tell(at.end.applet().card().app_at(place), aid, len),
        CardSide::Joined(joined) => tell(joined.session.card().app_at(place), aid, len),
    }
}

fn tell(found: Option<Aid>, aid: &mut [u8], len: &mut usize) -> i32
    ensures { TellsBytes found aid.old len.old result aid.new len.new }
{
    match found {
        Some(found) => copied(found.bytes(), aid, len),
        None => code::NOT_FOUND,
    }
}

/// Writes the data object at a place of the application at a place: tag, lock, value, length.
#[unsafe(no_mangle)]
pub extern "C" fn galliumtoad_card_entry_at(
    alloc: Global,
    card: &mut CardHandle,
    app: usize,
    place: usize,
    tag: &mut u32,
    locked: &mut i32,
    value: &mut [u8],
    len: &mut usize,
) -> i32
    ensures { OnLook ((tag.new ≡ tag.old) × (locked.new ≡ locked.old) × (value.new ≡ value.old)
        × (len.new ≡ len.old))
        (TellsEntryAt app place tag.old locked.old value.old len.old tag.new locked.new value.new
        len.new) (held_by card.old) result (held_by card.new) }
{
    on!(alloc, card, side => entry_in(&side, app, place, tag, locked, value, len))
}

fn entry_in(
    side: &CardSide,
    app: usize,
    place: usize,
    tag: &mut u32,
    locked: &mut i32,
    value: &mut [u8],
    len: &mut usize,
) -> i32
    ensures { TellsEntryAt app place tag.old locked.old value.old len.old
        tag.new locked.new value.new len.new side.now result }
{
    match side {
        CardSide::Building(_) | CardSide::Own(_) | CardSide::OwnAtT1(_) => code::STATE,
        CardSide::Standing(end, _) => tell_entry(end.card(), app, place, tag, locked, value, len),
        CardSide::AtT1(at) => {
            tell_entry(at.end.applet().card(), app, place, tag, locked, value, len)
        }
        CardSide::Joined(joined) => {
            tell_entry(joined.session.card(), app, place, tag, locked, value, len)
        }
    }
}

fn tell_entry(
    card: &ObjectCard,
    app: usize,
    place: usize,
    tag: &mut u32,
    locked: &mut i32,
    value: &mut [u8],
    len: &mut usize,
) -> i32
    ensures { TellsEntry (entry_at app place card.now.state) tag.old locked.old value.old len.old
        result tag.new locked.new value.new len.new }
{
    let Some((name, bytes, is_locked)) = card.entry_at(app, place) else {
        return code::NOT_FOUND;
    };
    *tag = number_of(name);
    *locked = if is_locked { 1 } else { 0 };
    copied(bytes, value, len)
}

/// Does what `galliumtoad_card_selected` does, for the card of a session. C passes no other handle;
/// one of a card would do too.
#[unsafe(no_mangle)]
pub extern "C" fn galliumtoad_session_selected(
    alloc: Global,
    session: &mut CardHandle,
    aid: &mut [u8],
    len: &mut usize,
) -> i32
    ensures { OnLook ((aid.new ≡ aid.old) × (len.new ≡ len.old))
        (TellsAid (λ state. state.selected) aid.old len.old aid.new len.new)
        (held_by session.old) result (held_by session.new) }
{
    galliumtoad_card_selected(alloc, session, aid, len)
}

/// Does what `galliumtoad_card_app_at` does, for the card of a session. C passes no other handle;
/// one of a card would do too.
#[unsafe(no_mangle)]
pub extern "C" fn galliumtoad_session_app_at(
    alloc: Global,
    session: &mut CardHandle,
    place: usize,
    aid: &mut [u8],
    len: &mut usize,
) -> i32
    ensures { OnLook ((aid.new ≡ aid.old) × (len.new ≡ len.old))
        (TellsAid (aid_at place) aid.old len.old aid.new len.new)
        (held_by session.old) result (held_by session.new) }
{
    galliumtoad_card_app_at(alloc, session, place, aid, len)
}

/// Does what `galliumtoad_card_entry_at` does, for the card of a session. C passes no other handle;
/// one of a card would do too.
#[unsafe(no_mangle)]
pub extern "C" fn galliumtoad_session_entry_at(
    alloc: Global,
    session: &mut CardHandle,
    app: usize,
    place: usize,
    tag: &mut u32,
    locked: &mut i32,
    value: &mut [u8],
    len: &mut usize,
) -> i32
    ensures { OnLook ((tag.new ≡ tag.old) × (locked.new ≡ locked.old) × (value.new ≡ value.old)
        × (len.new ≡ len.old))
        (TellsEntryAt app place tag.old locked.old value.old len.old tag.new locked.new value.new
        len.new) (held_by session.old) result (held_by session.new) }
{
    galliumtoad_card_entry_at(alloc, session, app, place, tag, locked, value, len)
}
