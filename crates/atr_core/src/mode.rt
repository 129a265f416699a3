//! Negotiable and specific mode.

ghost use Rattle.std.specs.Prelude.{◌≡◌};
ghost use Rattle.atr_core.specs.Values.{mode_of};

/// The mode of a card after its answer (ISO/IEC 7816-3, 6.3.1 and 8.3, TA2).
#[derive(Clone, Copy, Debug, PartialEq, Eq)]
pub enum Mode {
    /// The terminal may propose other values by PPS.
    Negotiable,
    /// The card uses protocol `t` at once. `can_change`: it can change to negotiable mode.
    /// `is_implicit`: Fi and Di are implicit, not those of TA1.
    Specific {
        t: u8,
        can_change: bool,
        is_implicit: bool,
    },
}

impl Mode {
    /// The mode that TA2 states.
    pub(crate) fn of(ta2: Option<u8>) -> Mode
        ensures { result ≡ mode_of ta2 }
    {
        match ta2 {
            None => Mode::Negotiable,
            Some(byte) => Mode::Specific {
                t: byte % 16,
                can_change: byte / 128 == 0,
                is_implicit: byte / 16 % 2 == 1,
            },
        }
    }
}
