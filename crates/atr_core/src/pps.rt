//! PPS: how a terminal proposes other values, and what a card may respond.

ghost use Rattle.std.specs.Prelude.{◌≡◌, ◌↔◌, ◌<◌, ◌≤◌, ◌+◌, ◌++◌, [], ◌==◌, length, slice_index, Some, None, Ok, Err, IfOk, if◌then◌else◌};
ghost use Rattle.atr_core.specs.Answer.{before, bit};
ghost use Rattle.atr_core.specs.PpsBytes.{pps_characters, pps_end, pps_fault, answers, agreed, pps_rate_code};
ghost use Rattle.atr_core.specs.declared.pps.Pps as spec;
ghost use Rattle.atr_core.specs.declared.pps.PpsFault as fault;

use crate::characters::xor_of;
use arrayvec::ArrayVec;
use std::fmt;

/// The most characters of a PPS request or response.
const LONGEST: usize = 6;

/// PPS1 if it is absent: Fi 372 and Di 1.
const DEFAULT_RATE: u8 = 0x11;

/// A PPS request or response (ISO/IEC 7816-3, 9.2): the T of PPS0, 0 to 15, and PPS1 to PPS3, each
/// `None` if absent.
#[derive(Clone, Copy, Debug, PartialEq, Eq)]
pub struct Pps {
    pub t: u8,
    pub pps1: Option<u8>,
    pub pps2: Option<u8>,
    pub pps3: Option<u8>,
}

/// Why bytes are not a PPS request or response. The error is the leftmost; a wrong PCK counts last
/// (profile).
#[derive(Clone, Copy, Debug, PartialEq, Eq)]
pub enum PpsFault {
    /// The first byte is not `FF`.
    NoPpss,
    /// The bytes are empty, or end before an announced character.
    Cut,
    /// Bit 8 of PPS0, which is reserved, is set.
    Reserved,
    /// Characters follow PCK.
    Surplus,
    /// The exclusive-or of all characters is not `00`.
    CheckWrong,
}

impl fmt::Display for PpsFault {
    ghost use Rattle.std.specs.Prelude.{Some};
    ghost use Rattle.atr_core.specs.FaultText.{pps_text};

    ghost output = { λ fault. Some (pps_text fault) };

    fn fmt<W: fmt::Write>(&self, f: &mut fmt::Formatter<W>) -> fmt::Result {
        f.write_str(match self {
            PpsFault::NoPpss => "no PPSS",
            PpsFault::Cut => "cut",
            PpsFault::Reserved => "PPS0 reserved",
            PpsFault::Surplus => "characters behind the end",
            PpsFault::CheckWrong => "wrong check byte",
        })
    }
}

impl std::error::Error for PpsFault {}

impl Pps {
    /// Parses a request or response that takes up all of `bytes`.
    ///
    /// # Errors
    ///
    /// The leftmost that holds, and `CheckWrong` only if nothing else is wrong (profile):
    ///
    /// - `NoPpss`: the first byte is not `FF`.
    /// - `Cut`: the bytes are empty, or end before an announced character.
    /// - `Reserved`: bit 8 of PPS0 is set.
    /// - `Surplus`: characters follow PCK.
    /// - `CheckWrong`: the exclusive-or of all characters is not `00`.
    pub fn read(bytes: &[u8]) -> Result<Pps, PpsFault>
        ensures pps { IfOk result (λ p. (p.t < 16) × (bytes.now ≡ pps_characters p)) }
        ensures each { (p : spec.Pps) → p.t < 16 → bytes.now ≡ pps_characters p → result ≡ Ok p }
        ensures fault { (f : fault.PpsFault) →
            (result ≡ Err f) ↔ (pps_fault bytes.now ≡ Some f) }
    {
        match pps_fault(bytes) {
            Some(fault) => Err(fault),
            None => Ok(parts(bytes)),
        }
    }

    /// The number of characters of a request or response with this PPS0, PPSS and PCK included: 3
    /// to 6. Bit 8, which is reserved, is ignored: a card that receives a request character by
    /// character must know where it ends, even if it is invalid.
    pub fn size(pps0: u8) -> usize
        ensures { result ≡ pps_end pps0 + 1 }
    {
        pps_end(pps0) + 1
    }

    /// Returns the characters of the request or response, 3 to 6 bytes. `t` must be at most 15.
    pub fn write(&self) -> ArrayVec<u8, LONGEST>
        requires { self.now.t < 16 }
        ensures { result.items ≡ pps_characters self.now }
    {
        let mut out = ArrayVec::new();
        out.push(0xFF);
        out.push(self.t + 16 * bit(self.pps1) + 32 * bit(self.pps2) + 64 * bit(self.pps3));
        push_maybe(&mut out, self.pps1);
        push_maybe(&mut out, self.pps2);
        push_maybe(&mut out, self.pps3);
        let check = xor_of(&out);
        out.push(check);
        out
    }

    /// The code of Fi and Di, in the format of TA1: PPS1, or `11` if it is absent.
    pub fn rate_code(&self) -> u8
        ensures { result ≡ pps_rate_code self.now }
    {
        self.pps1.unwrap_or(DEFAULT_RATE)
    }
}

/// Returns whether the response accepts the request (ISO/IEC 7816-3, 9.3): it names the same T, and
/// repeats or omits each of PPS1 to PPS3. An omitted one is not agreed: without PPS1, Fi is 372 and
/// Di 1, as `rate_code` of the response returns.
pub fn agreed(request: &Pps, response: &Pps) -> bool
    ensures { result ≡ agreed request.now response.now }
{
    request.t == response.t
        && answers(request.pps1, response.pps1)
        && answers(request.pps2, response.pps2)
        && answers(request.pps3, response.pps3)
}

/// Whether a character of a response repeats the one of the request, or is absent.
fn answers(asked: Option<u8>, answered: Option<u8>) -> bool
    ensures { result ≡ answers asked answered }
{
    match (asked, answered) {
        (_, None) => true,
        (Some(asked), Some(answered)) => asked == answered,
        (None, Some(_)) => false,
    }
}

/// 1 if the character is present, else 0.
fn bit(byte: Option<u8>) -> u8
    ensures { result ≡ bit byte }
{
    u8::from(byte.is_some())
}

/// Appends the character if it is present.
fn push_maybe(out: &mut ArrayVec<u8, LONGEST>, byte: Option<u8>)
    requires { length out.old.items + bit byte ≤ 6 }
    ensures { out.new.items ≡ out.old.items ++ before byte [] }
{
    if let Some(byte) = byte {
        out.push(byte);
    }
}

/// The fault of the bytes, if any.
fn pps_fault(bytes: &[u8]) -> Option<PpsFault>
    ensures { result ≡ pps_fault bytes.now }
{
    if bytes.is_empty() {
        return Some(PpsFault::Cut);
    }
    if bytes[0] != 0xFF {
        return Some(PpsFault::NoPpss);
    }
    if bytes.len() == 1 {
        return Some(PpsFault::Cut);
    }
    let pps0 = bytes[1];
    if pps0 >= 128 {
        return Some(PpsFault::Reserved);
    }
    let end = pps_end(pps0);
    if bytes.len() <= end {
        Some(PpsFault::Cut)
    } else if bytes.len() > end + 1 {
        Some(PpsFault::Surplus)
    } else if bytes[end] == xor_of(&bytes[..end]) {
        None
    } else {
        Some(PpsFault::CheckWrong)
    }
}

/// The index of PCK, by PPS0.
fn pps_end(pps0: u8) -> usize
    ensures { result ≡ pps_end pps0 }
{
    2 + usize::from(pps0 / 16 % 2) + usize::from(pps0 / 32 % 2) + usize::from(pps0 / 64 % 2)
}

/// The values in bytes that have no fault.
fn parts(bytes: &[u8]) -> Pps
    requires { pps_fault bytes.now ≡ None }
    ensures t { result.t < 16 }
    ensures bytes { bytes.now ≡ pps_characters result }
{
    let pps0 = bytes[1];
    let pps1 = taken(bytes, 2, pps0 / 16 % 2);
    let second = 2 + usize::from(pps0 / 16 % 2);
    let pps2 = taken(bytes, second, pps0 / 32 % 2);
    let third = second + usize::from(pps0 / 32 % 2);
    let pps3 = taken(bytes, third, pps0 / 64 % 2);
    Pps {
        t: pps0 % 16,
        pps1,
        pps2,
        pps3,
    }
}

/// The character at this index if `bit` is 1.
fn taken(bytes: &[u8], place: usize, bit: u8) -> Option<u8>
    requires { place < length bytes.now }
    ensures { result ≡ (if bit == 1 then Some (slice_index bytes.now place) else None) }
{
    if bit == 1 { Some(bytes[place]) } else { None }
}
