//! What the bytes of an item are: a valid block, a damaged one, or the first bytes of one.
ghost use Rattle.std.specs.Prelude.{◌≡◌};
ghost use Rattle.t1_core.specs.Items.{crc_onto, crc_bit, found_in, is_complete, seen};

use crate::block::Block;
use crate::pcb::Pcb;
use crate::settings::Edc;
use crate::spelling::{block_in, lrc};

/// What the bytes of an item are.
#[derive(Clone, Copy, Debug)]
pub enum Found<'a> {
    /// A whole valid block.
    Valid(Block<'a>),
    /// An invalid block, as long as its LEN states.
    Damaged(Damage),
    /// The first bytes of a block.
    Cut,
}

/// Why a block is invalid: the first that holds.
#[derive(Clone, Copy, Debug, PartialEq, Eq)]
pub enum Damage {
    /// The LRC is wrong.
    Lrc,
    /// The CRC is wrong.
    Crc,
    /// NAD sets bit 8 or 4, or its SAD and DAD are the same but not 0.
    Nad,
    /// The PCB has no meaning (`Pcb::of`).
    Pcb,
    /// LEN is `FF`, or does not suit the PCB (`spelling::read`).
    Len,
}

pub(crate) fn is_complete(edc: Edc, bytes: &[u8]) -> bool
    ensures { result ≡ is_complete edc bytes.now }
{
    bytes.len() >= 4 && bytes.len() >= usize::from(bytes[2]) + 4 + edc as usize
}

pub(crate) fn found_in(edc: Edc, bytes: &[u8]) -> Found<'_>
    ensures { seen result ≡ found_in edc bytes.now }
{
    if !is_complete(edc, bytes) {
        return Found::Cut;
    }
    let end = usize::from(bytes[2]) + 3;
    match edc {
        Edc::Lrc if bytes[end] != lrc(&bytes[..end]) => return Found::Damaged(Damage::Lrc),
        Edc::Crc if crc(&bytes[..end + 2]) != 0xF0B8 => return Found::Damaged(Damage::Crc),
        _ => {}
    }
    let nad = bytes[0];
    if nad != 0 && (nad >= 128 || nad / 8 % 2 != 0 || nad % 8 == nad / 16) {
        return Found::Damaged(Damage::Nad);
    }
    let Some(pcb) = Pcb::of(bytes[1]) else {
        return Found::Damaged(Damage::Pcb);
    };
    match block_in(pcb, &bytes[3..end]) {
        Some(block) if bytes[2] < 255 => Found::Valid(block),
        _ => Found::Damaged(Damage::Len),
    }
}

/// The remainder of all bytes and their CRC (ISO/IEC 13239).
fn crc(bytes: &[u8]) -> u16
    ensures { result ≡ crc_onto 65535 bytes.now }
{
    let mut sum = 0xFFFF;
    for byte in bytes {
        let half = crc_bit(crc_bit(crc_bit(crc_bit(sum ^ u16::from(*byte)))));
        sum = crc_bit(crc_bit(crc_bit(crc_bit(half))));
    }
    sum
}

fn crc_bit(sum: u16) -> u16
    ensures { result ≡ crc_bit sum }
{
    if sum % 2 == 1 {
        sum / 2 ^ 0x8408
    } else {
        sum / 2
    }
}
