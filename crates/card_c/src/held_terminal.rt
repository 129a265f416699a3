//! The handle of a terminal that C keeps.
ghost use Rattle.std.specs.Prelude.{◌≡◌, true, Option, Some, None, IsSome};
ghost use Rattle.card_c.specs.declared.terminal_side.TerminalSide.{TerminalSide};

use crate::loose::Loose;
use crate::terminal_side::TerminalSide;
use std::alloc::Global;
use std::marker::Model;

/// A pointer to a box, or null. C does not see the type in the box.
#[repr(C)]
#[derive(Drop)]
pub struct HeldTerminal {
    at: *mut u8,
    alloc: Global,
    ghost value: { Option TerminalSide },
}

impl Model for HeldTerminal {
    ghost use Rattle.card_c.specs.HeldOwned.{held_owns};
    ghost use Rattle.card_c.specs.contracts.terminal_side.TerminalSide.{the_row};

    ghost also_owns = { λ h. held_owns the_row h.at h.alloc h.value };
}

// Neither its content nor the function that frees it names a thread.
unsafe impl Send for HeldTerminal {}

impl HeldTerminal {
    pub(crate) fn of(value: Loose<TerminalSide, Global>) -> HeldTerminal
        ensures { result.value ≡ Some value.value }
    {
        let Loose { at, alloc } = value;
        let at = at as *mut u8;
        HeldTerminal { at, alloc }
    }

    pub(crate) fn into_loose(self) -> Loose<TerminalSide, Global>
        requires { IsSome self.value }
        ensures { Some result.value ≡ self.value }
    {
        let HeldTerminal { at, alloc } = self;
        let at = at as *mut TerminalSide;
        Loose { at, alloc }
    }

    pub(crate) fn empty(alloc: Global) -> HeldTerminal
        ensures { result.value ≡ None }
    {
        HeldTerminal {
            at: std::ptr::null_mut(),
            alloc,
        }
    }
}

/// The handle of a terminal. Empty, all its bytes are zero.
#[repr(C)]
#[derive(Drop)]
pub struct TerminalHandle {
    pub(crate) live: bool,
    pub(crate) held: HeldTerminal,
    ghost tells: { live ≡ true → IsSome held.value },
}
