//! The handle of an end at T=1 that C keeps.
ghost use Rattle.std.specs.Prelude.{◌≡◌, true, Option, Some, None, IsSome};
ghost use Rattle.card_c.specs.declared.t1_side.T1Side.{T1Side};

use crate::loose::Loose;
use crate::t1_side::T1Side;
use std::alloc::Global;
use std::marker::Model;

/// A pointer to a box, or null. C does not see the type in the box.
#[repr(C)]
#[derive(Drop)]
pub struct HeldT1 {
    at: *mut u8,
    alloc: Global,
    ghost value: { Option T1Side },
}

impl Model for HeldT1 {
    ghost use Rattle.card_c.specs.HeldOwned.{held_owns};
    ghost use Rattle.card_c.specs.contracts.t1_side.T1Side.{the_row};

    ghost also_owns = { λ h. held_owns the_row h.at h.alloc h.value };
}

// Neither its content nor the function that frees it names a thread.
unsafe impl Send for HeldT1 {}

impl HeldT1 {
    pub(crate) fn of(value: Loose<T1Side, Global>) -> HeldT1
        ensures { result.value ≡ Some value.value }
    {
        let Loose { at, alloc } = value;
        let at = at as *mut u8;
        HeldT1 { at, alloc }
    }

    pub(crate) fn into_loose(self) -> Loose<T1Side, Global>
        requires { IsSome self.value }
        ensures { Some result.value ≡ self.value }
    {
        let HeldT1 { at, alloc } = self;
        let at = at as *mut T1Side;
        Loose { at, alloc }
    }

    pub(crate) fn empty(alloc: Global) -> HeldT1
        ensures { result.value ≡ None }
    {
        HeldT1 {
            at: std::ptr::null_mut(),
            alloc,
        }
    }
}

/// The handle of an end at T=1. Empty, all its bytes are zero.
#[repr(C)]
#[derive(Drop)]
pub struct T1Handle {
    pub(crate) live: bool,
    pub(crate) held: HeldT1,
    ghost tells: { live ≡ true → IsSome held.value },
}
