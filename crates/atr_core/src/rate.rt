//! Fi and Di, which state the number of clock cycles per bit.

ghost use Rattle.std.specs.Prelude.{◌≡◌, ◌≤◌, IfOk};
ghost use Rattle.atr_core.specs.Values.{fi_of, di_of};

use std::fmt;

/// The code is reserved for future use by the standard.
#[derive(Clone, Copy, Debug, PartialEq, Eq)]
pub struct Rfu;

impl fmt::Display for Rfu {
    ghost use Rattle.std.specs.Prelude.{Some, codes};

    ghost output = { λ _. Some (codes "reserved for future use") };

    fn fmt<W: fmt::Write>(&self, f: &mut fmt::Formatter<W>) -> fmt::Result {
        f.write_str("reserved for future use")
    }
}

impl std::error::Error for Rfu {}

/// Fi, the clock rate conversion integer, and the highest clock frequency for it, in kHz.
#[derive(Clone, Copy, Debug, PartialEq, Eq)]
pub struct Fi {
    pub value: u16,
    pub max_khz: u16,
}

impl Fi {
    /// Decodes bits 8 to 5 of TA1 or PPS1 (ISO/IEC 7816-3, 8.3).
    ///
    /// # Errors
    ///
    /// - `Rfu`: the code is reserved.
    pub fn of(code: u8) -> Result<Fi, Rfu>
        ensures value { result ≡ fi_of code }
        ensures bound { IfOk result (λ fi. fi.value ≤ 2048) }
    {
        let (value, max_khz) = match code / 16 {
            0 => (372, 4_000),
            1 => (372, 5_000),
            2 => (558, 6_000),
            3 => (744, 8_000),
            4 => (1_116, 12_000),
            5 => (1_488, 16_000),
            6 => (1_860, 20_000),
            9 => (512, 5_000),
            10 => (768, 7_500),
            11 => (1_024, 10_000),
            12 => (1_536, 15_000),
            13 => (2_048, 20_000),
            _ => return Err(Rfu),
        };
        Ok(Fi { value, max_khz })
    }
}

impl fmt::Display for Fi {
    ghost use Rattle.std.specs.Prelude.{Some};
    ghost use Rattle.atr_core.specs.ValueTexts.{fi_text};

    ghost output = { λ fi. Some (fi_text fi) };

    fn fmt<W: fmt::Write>(&self, f: &mut fmt::Formatter<W>) -> fmt::Result {
        write!(f, "{}, up to {} kHz", self.value, self.max_khz)
    }
}

/// Decodes Di, the baud rate adjustment integer, 1 to 64, from bits 4 to 1 of TA1 or PPS1 (ISO/IEC
/// 7816-3, 8.3).
///
/// # Errors
///
/// - `Rfu`: the code is reserved.
pub fn di(code: u8) -> Result<u8, Rfu>
    ensures { result ≡ di_of code }
{
    match code % 16 {
        1 => Ok(1),
        2 => Ok(2),
        3 => Ok(4),
        4 => Ok(8),
        5 => Ok(16),
        6 => Ok(32),
        7 => Ok(64),
        8 => Ok(12),
        9 => Ok(20),
        _ => Err(Rfu),
    }
}
