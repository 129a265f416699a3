//! Bytes as hexadecimal digits, with separators between them.
ghost use Rattle.std.specs.Prelude.{◌≡◌, ◌<◌, ◌≤◌, ◌++◌, ◌∷◌, [], Bool, List, ℕ, drop, length, true, IfOk, IfErr, IfSome, OnOk};
ghost use Rattle.hex.specs.Hex.{hex_digit_value};
ghost use Rattle.trace_explain.specs.Patterns.{IsBadField, begins, byte_at, byte_of, bytes_in, is_digits, next_spot, spelled, spelled_from};
ghost use Rattle.trace_explain.specs.declared.read.digits.Spot.TheVariants.{Behind};

use crate::read::trace_line::LineFault;
use std::alloc::{AllocError, Global};

/// A place in the digits of bytes.
#[derive(Clone, Copy)]
pub enum Spot {
    /// Before the first byte, or behind a space or comma.
    Between,
    /// Right behind a byte.
    Behind,
    /// Behind a colon or `0x`: a byte follows.
    Bound,
    /// Behind the first digit of a byte.
    Within(u8),
}

/// Returns the bytes that digits spell: two each, in either case, with any spaces around bytes.
/// Right behind a byte, a comma or a colon may precede the next one, and `0x` each. If `is_short`,
/// the last byte may be one digit before a space.
///
/// # Errors
///
/// - `Hex`: `digits` contains anything else.
/// - `OutOfMemory`: memory ran out.
pub fn spelled(alloc: Global, is_short: bool, digits: &[u8]) -> Result<Vec<u8>, LineFault>
    ensures says { IfOk result (λ bytes. spelled is_short digits.now ≡ Some bytes.items) }
    ensures refused { IfErr result (λ why. IsBadField why (spelled is_short digits.now)) }
{
    let mut bytes = Vec::with_capacity(alloc, digits.len() / 2)?;
    let mut spot = Spot::Between;
    let mut rest = digits;
    'pairs: while let Some(byte) = pair_at(spot, rest) {
        push(&mut bytes, byte)?;
        (spot, rest) = behind_pair(&rest[2..]);
    }
    'digits: while !rest.is_empty() {
        if let Some(byte) = pair_at(spot, rest) {
            push(&mut bytes, byte)?;
            (spot, rest) = behind_pair(&rest[2..]);
            continue 'digits;
        }
        let digit = rest[0];
        rest = &rest[1..];
        if let Spot::Within(high) = spot {
            if high == b'0' && digit == b'x' {
                spot = Spot::Bound;
                continue 'digits;
            }
            let byte = byte_at(is_short && rest.is_empty(), high, digit).ok_or(LineFault::Hex)?;
            push(&mut bytes, byte)?;
        }
        spot = next_spot(spot, digit);
    }
    match spot {
        Spot::Between | Spot::Behind => Ok(bytes),
        Spot::Bound | Spot::Within(_) => Err(LineFault::Hex),
    }
}

/// Returns the byte of the first two characters, if a byte may begin there and both are digits.
fn pair_at(spot: Spot, digits: &[u8]) -> Option<u8>
    ensures { IfSome result (λ byte. (1 < length digits.now) × ((is_short : Bool)
        (bytes : List ℕ) → spelled_from is_short bytes spot digits.now
        ≡ spelled_from is_short (bytes ++ byte ∷ []) Behind (drop 2 digits.now))) }
{
    if !begins(spot) {
        return None;
    }
    if !has_pair(digits) {
        return None;
    }
    byte_of(digits[0], digits[1])
}

/// Returns the place right behind a byte, or behind a space there, and what follows.
fn behind_pair(digits: &[u8]) -> (Spot, &[u8])
    ensures on { (is_short : Bool) (bytes : List ℕ) →
        spelled_from is_short bytes Behind digits.now
        ≡ spelled_from is_short bytes result.0 result.1.now }
    ensures left { length result.1.now ≤ length digits.now }
{
    match digits {
        [b' ', rest @ ..] => (Spot::Between, rest),
        _ => (Spot::Behind, digits),
    }
}

/// Whether a byte may begin here.
fn begins(spot: Spot) -> bool
    ensures { result ≡ begins spot }
{
    matches!(spot, Spot::Between | Spot::Behind)
}

/// Whether there are two characters.
fn has_pair(digits: &[u8]) -> bool
    ensures { result ≡ true → 1 < length digits.now }
{
    digits.len() > 1
}

/// Returns the place behind this character.
fn next_spot(spot: Spot, digit: u8) -> Spot
    ensures { result ≡ next_spot spot digit }
{
    match (spot, digit) {
        (Spot::Between | Spot::Behind | Spot::Within(_), b' ') | (Spot::Behind, b',') => {
            Spot::Between
        }
        (Spot::Behind, b':') => Spot::Bound,
        (Spot::Within(_), _) => Spot::Behind,
        _ => Spot::Within(digit),
    }
}

/// Returns the byte that ends with this character; `None` if no byte does.
fn byte_at(is_short: bool, high: u8, low: u8) -> Option<u8>
    ensures { result ≡ byte_at is_short high low }
{
    if is_short && low == b' ' {
        value_of(high)
    } else {
        byte_of(high, low)
    }
}

/// Appends a byte. Returns `AllocError` if memory ran out: `bytes` is unchanged.
pub fn push(bytes: &mut Vec<u8>, byte: u8) -> Result<(), AllocError>
    ensures { OnOk result (bytes.new.items ≡ bytes.old.items ++ byte ∷ []) }
{
    bytes.push(byte).map_err(AllocError::from)
}

/// Appends bytes. Returns `AllocError` if memory ran out: `bytes` is unchanged.
pub fn append(bytes: &mut Vec<u8>, more: Vec<u8>) -> Result<(), AllocError>
    ensures { OnOk result (bytes.new.items ≡ bytes.old.items ++ more.items) }
{
    if bytes.is_empty() {
        *bytes = more;
        return Ok(());
    }
    bytes.extend_from_slice(more.as_slice())
}

/// Returns the byte of two hexadecimal digits; `None` if one of them is not one.
pub fn byte_of(high: u8, low: u8) -> Option<u8>
    ensures { result ≡ byte_of (hex_digit_value high) (hex_digit_value low) }
{
    Some(value_of(high)? * 16 + value_of(low)?)
}

/// Whether a line has four bytes in a row: two digits each, with spaces, colons, commas or `0x`
/// between them.
pub fn has_bytes(line: &[u8]) -> bool {
    let mut digits: usize = 0;
    for &byte in line {
        digits = match byte {
            b' ' | b':' | b',' if digits % 2 == 0 => digits,
            b'x' if digits % 2 == 1 => digits.saturating_sub(1),
            _ if value_of(byte).is_none() => 0,
            _ if digits == 7 => return true,
            _ => digits.saturating_add(1),
        };
    }
    false
}

/// Whether a line begins with a hexadecimal digit, and contains these and spaces alone.
pub fn is_digits(line: &[u8]) -> bool
    ensures { result ≡ is_digits line.now }
{
    let mut has_digit = false;
    for &byte in line {
        if value_of(byte).is_some() {
            has_digit = true;
        } else if byte != b' ' || !has_digit {
            return false;
        }
    }
    has_digit
}

/// Returns the value of a hexadecimal digit, in either case; `None` if it is not one.
pub fn value_of(digit: u8) -> Option<u8>
    ensures { result ≡ hex_digit_value digit }
{
    match digit {
        b'A'..=b'F' => Some(digit - b'A' + 10),
        b'a'..=b'f' => Some(digit - b'a' + 10),
        b'0'..=b'9' => Some(digit - b'0'),
        _ => None,
    }
}
