//! The handle of a card that C keeps.
ghost use Rattle.std.specs.Prelude.{◌≡◌, true, Option, Some, None, IsSome};
ghost use Rattle.card_c.specs.declared.card_side.CardSide.{CardSide};

use crate::card_side::CardSide;
use crate::loose::Loose;
use std::alloc::Global;
use std::marker::Model;

/// A pointer to a box, or null. C does not see the type in the box.
#[repr(C)]
#[derive(Drop)]
pub struct HeldCard {
    at: *mut u8,
    alloc: Global,
    ghost value: { Option CardSide },
}

impl Model for HeldCard {
    ghost use Rattle.card_c.specs.HeldOwned.{held_owns};
    ghost use Rattle.card_c.specs.contracts.card_side.CardSide.{the_row};

    ghost also_owns = { λ h. held_owns the_row h.at h.alloc h.value };
}

// Neither its content nor the function that frees it names a thread.
unsafe impl Send for HeldCard {}

impl HeldCard {
    pub(crate) fn of(value: Loose<CardSide, Global>) -> HeldCard
        ensures { result.value ≡ Some value.value }
    {
        let Loose { at, alloc } = value;
        let at = at as *mut u8;
        HeldCard { at, alloc }
    }

    pub(crate) fn into_loose(self) -> Loose<CardSide, Global>
        requires { IsSome self.value }
        ensures { Some result.value ≡ self.value }
    {
        let HeldCard { at, alloc } = self;
        let at = at as *mut CardSide;
        Loose { at, alloc }
    }

    pub(crate) fn empty(alloc: Global) -> HeldCard
        ensures { result.value ≡ None }
    {
        HeldCard {
            at: std::ptr::null_mut(),
            alloc,
        }
    }
}

/// The handle of a card, or of a session with one. Empty, all its bytes are zero.
#[repr(C)]
#[derive(Drop)]
pub struct CardHandle {
    pub(crate) live: bool,
    pub(crate) held: HeldCard,
    ghost tells: { live ≡ true → IsSome held.value },
}
