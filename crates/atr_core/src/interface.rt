//! The values in the interface bytes of an answer.

ghost use Rattle.std.specs.Prelude.{◌≡◌, ◌≤◌, length};
ghost use Rattle.atr_core.specs.Values.{second, ta_of_15, names_15, offered, protocols_of, rate_code, fi_of, di_of, extra_guard_time, guard_time, waiting_integer, waiting_time, mode_of, supply_code, clock_stop_of, classes_of};

use crate::answer::Atr;
use crate::characters::MOST_GROUPS;
use crate::group::{Group, TypedGroup};
use crate::mode::Mode;
use crate::rate::{Fi, Rfu, di};
use crate::supply::{Classes, ClockStop};
use crate::timing::GuardTime;
use arrayvec::ArrayVec;

/// TA1 if it is absent: Fi 372 and Di 1.
const DEFAULT_RATE: u8 = 0x11;

/// WI if TC2 is absent.
const DEFAULT_WI: u8 = 10;

/// Class A alone and no clock stop, if no TA is for T=15.
const DEFAULT_SUPPLY: u8 = 0x01;

/// The N that means the least guard time of the protocol.
const LEAST_GUARD_TIME: u8 = 255;

impl Atr {
    /// Returns the protocols that the card offers, in its order, each once. T=0 alone if TD1 is
    /// absent. T=15 is not a protocol.
    pub fn protocols(&self) -> ArrayVec<u8, MOST_GROUPS>
        ensures { result.items ≡ protocols_of self.now.others }
    {
        protocols_of(self.others())
    }

    /// Whether a TD names T=15. The bytes after that TD hold for all protocols.
    pub fn names_15(&self) -> bool
        ensures { result ≡ names_15 self.now.others }
    {
        names_15(self.others())
    }

    /// Returns TA1, the code of Fi and Di, or `11` if it is absent.
    pub fn rate_code(&self) -> u8
        ensures { result ≡ rate_code self.now }
    {
        self.first().ta.unwrap_or(DEFAULT_RATE)
    }

    /// Returns Fi and the highest clock frequency, by TA1; 372 and 5 MHz if it is absent.
    ///
    /// # Errors
    ///
    /// - `Rfu`: bits 8 to 5 of TA1 are a reserved code.
    pub fn fi(&self) -> Result<Fi, Rfu>
        ensures { result ≡ fi_of (rate_code self.now) }
    {
        Fi::of(self.rate_code())
    }

    /// Returns Di, by TA1; 1 if it is absent.
    ///
    /// # Errors
    ///
    /// - `Rfu`: bits 4 to 1 of TA1 are a reserved code.
    pub fn di(&self) -> Result<u8, Rfu>
        ensures { result ≡ di_of (rate_code self.now) }
    {
        di(self.rate_code())
    }

    /// Returns N, the extra guard time: TC1, or 0 if it is absent (ISO/IEC 7816-3, 8.3). 255 has a
    /// meaning of its own: see `guard_time`.
    pub fn extra_guard_time(&self) -> u8
        ensures { result ≡ extra_guard_time self.now }
    {
        self.first().tc.unwrap_or(0)
    }

    /// Returns the guard time of T=`protocol`: 12 etu and N. N counts etu, or Fi/Di clock cycles if
    /// a TD names T=15. N = 255 means the least of the protocol: 11 etu for T=1, 12 for any other.
    pub fn guard_time(&self, protocol: u8) -> GuardTime
        ensures { result ≡ guard_time self.now protocol }
    {
        let n = self.extra_guard_time();
        if n == LEAST_GUARD_TIME {
            let etu = if protocol == 1 { 11 } else { 12 };
            return GuardTime { etu, indicated: 0 };
        }
        if self.names_15() {
            GuardTime {
                etu: 12,
                indicated: u16::from(n),
            }
        } else {
            GuardTime {
                etu: 12 + u16::from(n),
                indicated: 0,
            }
        }
    }

    /// Returns WI, 1 to 255: TC2, or 10 if it is absent (ISO/IEC 7816-3, 10.2).
    ///
    /// # Errors
    ///
    /// - `Rfu`: TC2 is 0.
    pub fn waiting_integer(&self) -> Result<u8, Rfu>
        ensures { result ≡ waiting_integer self.now }
    {
        match second(self.others()).tc.unwrap_or(DEFAULT_WI) {
            0 => Err(Rfu),
            wi => Ok(wi),
        }
    }

    /// Returns the waiting time of T=0 in clock cycles: WI times 960 times Fi.
    ///
    /// # Errors
    ///
    /// - `Rfu`: TC2 is 0, or Fi is a reserved code.
    pub fn waiting_time(&self) -> Result<u32, Rfu>
        ensures { result ≡ waiting_time self.now }
    {
        let wi = self.waiting_integer()?;
        let fi = self.fi()?;
        Ok(u32::from(wi) * 960 * u32::from(fi.value))
    }

    /// Returns the mode: specific, as TA2 states, or negotiable if TA2 is absent.
    pub fn mode(&self) -> Mode
        ensures { result ≡ mode_of (second self.now.others).ta }
    {
        Mode::of(second(self.others()).ta)
    }

    /// Returns whether the clock may stop, by bits 8 and 7 of the first TA for T=15. It may not if
    /// there is no such TA.
    pub fn clock_stop(&self) -> ClockStop
        ensures { result ≡ clock_stop_of (supply_code self.now) }
    {
        ClockStop::of(self.supply_code())
    }

    /// Returns the voltage classes of the card, by bits 6 to 1 of the first TA for T=15. If there
    /// is no such TA, it is class A alone.
    ///
    /// # Errors
    ///
    /// - `Rfu`: these bits are a reserved code.
    pub fn classes(&self) -> Result<Classes, Rfu>
        ensures { result ≡ classes_of (supply_code self.now) }
    {
        Classes::of(self.supply_code())
    }

    fn supply_code(&self) -> u8
        ensures { result ≡ supply_code self.now }
    {
        ta_of_15(self.others()).unwrap_or(DEFAULT_SUPPLY)
    }
}

/// The protocols that these groups offer.
fn protocols_of(others: &[TypedGroup]) -> ArrayVec<u8, MOST_GROUPS>
    requires { length others.now ≤ 31 }
    ensures { result.items ≡ protocols_of others.now }
{
    let mut protocols = ArrayVec::new();
    if others.is_empty() {
        protocols.push(0);
        return protocols;
    }
    let mut last = None;
    for named in others {
        if named.t != 15 && last != Some(named.t) {
            protocols.push(named.t);
        }
        last = Some(named.t);
    }
    protocols
}

/// Whether a TD names T=15.
fn names_15(others: &[TypedGroup]) -> bool
    ensures { result ≡ names_15 others.now }
{
    others.iter().any(|named| named.t == 15)
}

/// TA2, TB2 and TC2.
fn second(others: &[TypedGroup]) -> Group
    ensures { result ≡ second others.now }
{
    match others {
        [] => Group {
            ta: None,
            tb: None,
            tc: None,
        },
        [named, ..] => named.group,
    }
}

/// The first TA for T=15.
fn ta_of_15(others: &[TypedGroup]) -> Option<u8>
    ensures { result ≡ ta_of_15 others.now }
{
    for named in others {
        if named.t == 15 && named.group.ta.is_some() {
            return named.group.ta;
        }
    }
    None
}
