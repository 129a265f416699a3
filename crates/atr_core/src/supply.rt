//! Clock stop and voltage classes, from the first TA for T=15.

ghost use Rattle.std.specs.Prelude.{◌≡◌};
ghost use Rattle.atr_core.specs.Values.{clock_stop_of, classes_of};

use crate::rate::Rfu;

/// Whether the clock may stop, and at which level (ISO/IEC 7816-3, 8.3).
#[derive(Clone, Copy, Debug, PartialEq, Eq)]
pub enum ClockStop {
    /// It may not.
    NotSupported,
    /// It may, at the low level alone.
    AtLow,
    /// It may, at the high level alone.
    AtHigh,
    /// It may, at both.
    AtEither,
}

impl ClockStop {
    /// Decodes bits 8 and 7 of the first TA for T=15.
    pub(crate) fn of(code: u8) -> ClockStop
        ensures { result ≡ clock_stop_of code }
    {
        match code / 64 {
            0 => ClockStop::NotSupported,
            1 => ClockStop::AtLow,
            2 => ClockStop::AtHigh,
            _ => ClockStop::AtEither,
        }
    }
}

/// The voltage classes of a card: A is 5 V, B is 3 V, C is 1.8 V (ISO/IEC 7816-3, 8.3).
#[derive(Clone, Copy, Debug, PartialEq, Eq)]
pub struct Classes {
    pub a: bool,
    pub b: bool,
    pub c: bool,
}

impl Classes {
    /// Decodes bits 6 to 1 of the first TA for T=15.
    pub(crate) fn of(code: u8) -> Result<Classes, Rfu>
        ensures { result ≡ classes_of code }
    {
        let (a, b, c) = match code % 64 {
            1 => (true, false, false),
            2 => (false, true, false),
            4 => (false, false, true),
            3 => (true, true, false),
            6 => (false, true, true),
            7 => (true, true, true),
            _ => return Err(Rfu),
        };
        Ok(Classes { a, b, c })
    }
}
