//! The handle of an exchange that C keeps.
ghost use Rattle.std.specs.Prelude.{◌≡◌, true, Option, Some, None, IsSome};
ghost use Rattle.card_c.specs.declared.exchange_side.ExchangeSide.{ExchangeSide};

use crate::exchange_side::ExchangeSide;
use crate::loose::Loose;
use std::alloc::Global;
use std::marker::Model;

/// A pointer to a box, or null. C does not see the type in the box.
#[repr(C)]
#[derive(Drop)]
pub struct HeldExchange {
    at: *mut u8,
    alloc: Global,
    ghost value: { Option ExchangeSide },
}

impl Model for HeldExchange {
    ghost use Rattle.card_c.specs.HeldOwned.{held_owns};
    ghost use Rattle.card_c.specs.contracts.exchange_side.ExchangeSide.{the_row};

    ghost also_owns = { λ h. held_owns the_row h.at h.alloc h.value };
}

// Neither its content nor the function that frees it names a thread.
unsafe impl Send for HeldExchange {}

impl HeldExchange {
    pub(crate) fn of(value: Loose<ExchangeSide, Global>) -> HeldExchange
        ensures { result.value ≡ Some value.value }
    {
        let Loose { at, alloc } = value;
        let at = at as *mut u8;
        HeldExchange { at, alloc }
    }

    pub(crate) fn into_loose(self) -> Loose<ExchangeSide, Global>
        requires { IsSome self.value }
        ensures { Some result.value ≡ self.value }
    {
        let HeldExchange { at, alloc } = self;
        let at = at as *mut ExchangeSide;
        Loose { at, alloc }
    }

    pub(crate) fn empty(alloc: Global) -> HeldExchange
        ensures { result.value ≡ None }
    {
        HeldExchange {
            at: std::ptr::null_mut(),
            alloc,
        }
    }
}

/// The handle of an exchange. Empty, all its bytes are zero.
#[repr(C)]
#[derive(Drop)]
pub struct ExchangeHandle {
    pub(crate) live: bool,
    pub(crate) held: HeldExchange,
    ghost tells: { live ≡ true → IsSome held.value },
}
