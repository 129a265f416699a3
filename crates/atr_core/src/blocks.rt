//! The values of an answer for T=1: field size, error detection code and times.

ghost use Rattle.std.specs.Prelude.{◌≡◌, ◌≤◌, ◌<◌, ◌^◌, drop, IfOk};
ghost use Rattle.atr_core.specs.BlockValues.{first_of_t1, characters_of_t1, with_group, ifsc, edc_of, edc_code, waiting_code, block_waiting_integer, character_waiting_integer, character_waiting_time, block_waiting_time, block_guard_time};

use crate::answer::Atr;
use crate::edc::Edc;
use crate::group::{Group, TypedGroup};
use crate::rate::Rfu;
use crate::timing::BlockWaitingTime;

/// IFSC if no TA is for T=1.
const DEFAULT_IFSC: u8 = 32;

/// BWI 4 and CWI 13, if no TB is for T=1.
const DEFAULT_WAITING: u8 = 0x4D;

/// LRC, if no TC is for T=1.
const DEFAULT_EDC: u8 = 0;

impl Atr {
    /// Returns IFSC, the longest information field in bytes that a block to the card may have, 1 to
    /// 254. It is the first TA for T=1 from TA3 on, or 32 (ISO/IEC 7816-3, clause 11).
    ///
    /// # Errors
    ///
    /// - `Rfu`: the byte is 0 or 255.
    pub fn ifsc(&self) -> Result<u8, Rfu>
        ensures { result ≡ ifsc self.now }
    {
        match first_of_t1(self.others()).ta.unwrap_or(DEFAULT_IFSC) {
            0 | 255 => Err(Rfu),
            size => Ok(size),
        }
    }

    /// Returns the error detection code of blocks: the first TC for T=1 from TC3 on, or LRC.
    ///
    /// # Errors
    ///
    /// - `Rfu`: one of bits 8 to 2 is set.
    pub fn edc(&self) -> Result<Edc, Rfu>
        ensures { result ≡ edc_of (edc_code self.now) }
    {
        match first_of_t1(self.others()).tc.unwrap_or(DEFAULT_EDC) {
            0 => Ok(Edc::Lrc),
            1 => Ok(Edc::Crc),
            _ => Err(Rfu),
        }
    }

    /// Returns BWI, 0 to 9: bits 8 to 5 of the first TB for T=1 from TB3 on, or 4.
    ///
    /// # Errors
    ///
    /// - `Rfu`: it is above 9.
    pub fn block_waiting_integer(&self) -> Result<u8, Rfu>
        ensures is { result ≡ block_waiting_integer self.now }
        ensures bound { IfOk result (λ bwi. bwi ≤ 9) }
    {
        let bwi = self.waiting_code() / 16;
        if bwi > 9 { Err(Rfu) } else { Ok(bwi) }
    }

    /// Returns CWI, 0 to 15: bits 4 to 1 of the first TB for T=1 from TB3 on, or 13.
    pub fn character_waiting_integer(&self) -> u8
        ensures is { result ≡ character_waiting_integer self.now }
        ensures bound { result < 16 }
    {
        self.waiting_code() % 16
    }

    /// Returns CWT in etu, 11 + 2^CWI: the longest time from one character of a block to the next.
    pub fn character_waiting_time(&self) -> u16
        ensures { result ≡ character_waiting_time self.now }
    {
        11 + power_of_two(self.character_waiting_integer())
    }

    /// Returns BWT times `multiplier`: the longest time from the last character of a block to the
    /// card to the first character of its answer. The multiplier is 1, or for one block that of the
    /// card's S(WTX). A multiplier of 0 counts as 1 (profile).
    ///
    /// # Errors
    ///
    /// - `Rfu`: BWI is above 9.
    pub fn block_waiting_time(&self, multiplier: u8) -> Result<BlockWaitingTime, Rfu>
        ensures { result ≡ block_waiting_time self.now multiplier }
    {
        let bwi = self.block_waiting_integer()?;
        let times = multiplier.max(1);
        Ok(BlockWaitingTime {
            etu: u16::from(times) * 11,
            cycles: u64::from(times) * u64::from(power_of_two(bwi)) * 960 * 372,
        })
    }

    fn waiting_code(&self) -> u8
        ensures { result ≡ waiting_code self.now }
    {
        first_of_t1(self.others()).tb.unwrap_or(DEFAULT_WAITING)
    }
}

/// Returns BGT in etu, 22: the shortest time from the last character of a block to the first of a
/// block in the other direction.
pub fn block_guard_time() -> u16
    ensures { result ≡ block_guard_time }
{
    22
}

/// 2 to the power of `exponent`.
fn power_of_two(exponent: u8) -> u16
    requires { exponent < 16 }
    ensures is { result ≡ 2 ^ exponent }
    ensures bound { result ≤ 32768 }
{
    1 << exponent
}

/// The first TA, TB and TC for T=1. Those after TD1 are never for T=1.
fn first_of_t1(others: &[TypedGroup]) -> Group
    ensures { result ≡ first_of_t1 others.now }
{
    match others {
        [] => Group::default(),
        [_, behind @ ..] => characters_of_t1(behind),
    }
}

/// The first TA, TB and TC of the groups whose TD names T=1.
fn characters_of_t1(named: &[TypedGroup]) -> Group
    ensures { result ≡ characters_of_t1 named.now }
{
    let mut first = Group::default();
    let mut place = named.len();
    // For the proof: the label names the loop's goals.
    'groups: while place > 0 {
        place -= 1;
        first = with_group(named[place], first);
    }
    first
}

/// The first characters for T=1 of this group and of those after it.
fn with_group(named: TypedGroup, behind: Group) -> Group
    ensures { result ≡ with_group named behind }
{
    if named.t != 1 {
        return behind;
    }
    Group {
        ta: named.group.ta.or(behind.ta),
        tb: named.group.tb.or(behind.tb),
        tc: named.group.tc.or(behind.tc),
    }
}
