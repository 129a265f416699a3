//! How long an end waits between characters.

use std::fmt;

/// The guard time: the least time between the starts of two characters to the card (ISO/IEC 7816-3,
/// 8.3). It is `etu` elementary time units at the current rate, plus `indicated` times Fi/Di clock
/// cycles, with the Fi and Di of TA1.
#[derive(Clone, Copy, Debug, PartialEq, Eq)]
pub struct GuardTime {
    pub etu: u16,
    pub indicated: u16,
}

/// BWT: the longest time from the last character of a block to the card to the first character of
/// its answer (ISO/IEC 7816-3, clause 11). It is `etu` elementary time units at the current rate,
/// plus `cycles` clock cycles. Neither is rounded.
#[derive(Clone, Copy, Debug, PartialEq, Eq)]
pub struct BlockWaitingTime {
    pub etu: u16,
    pub cycles: u64,
}

impl fmt::Display for GuardTime {
    ghost use Rattle.std.specs.Prelude.{Some};
    ghost use Rattle.atr_core.specs.ValueTexts.{guard_time_text};

    ghost output = { λ time. Some (guard_time_text time) };

    fn fmt<W: fmt::Write>(&self, f: &mut fmt::Formatter<W>) -> fmt::Result {
        if self.indicated == 0 {
            write!(f, "{} etu", self.etu)
        } else {
            write!(f, "{} etu and {} Fi/Di cycles", self.etu, self.indicated)
        }
    }
}

impl fmt::Display for BlockWaitingTime {
    ghost use Rattle.std.specs.Prelude.{Some};
    ghost use Rattle.atr_core.specs.ValueTexts.{block_waiting_text};

    ghost output = { λ time. Some (block_waiting_text time) };

    fn fmt<W: fmt::Write>(&self, f: &mut fmt::Formatter<W>) -> fmt::Result {
        write!(f, "{} etu and {} cycles", self.etu, self.cycles)
    }
}
