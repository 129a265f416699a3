//! A trace in UTF-16, as some shells write it, becomes one in UTF-8.

use crate::explain::{CHUNK, TRACE_LIMIT};
use std::alloc::{AllocError, Global};
use std::io::Read;

/// The byte order mark.
const MARK: u32 = 0xFEFF;

/// In place of what is no character.
const UNKNOWN: u32 = 0xFFFD;

/// The bytes of a unit: which one comes first.
#[derive(Clone, Copy)]
enum Order {
    /// The low one.
    Low,
    /// The high one.
    High,
}

/// A text in UTF-16, byte by byte.
#[derive(Drop)]
struct Wide {
    order: Order,
    /// The first byte of a unit.
    first: Option<u8>,
    /// The first unit of a pair, without its upper bits.
    high: Option<u32>,
    /// The text so far, in UTF-8.
    text: Vec<u8>,
}

/// Returns the first bytes of a trace, two at most. In UTF-16 it is all, as UTF-8 without a mark.
/// A reader that fails ends them. Returns `AllocError` if memory ran out.
pub fn begin<R: Read>(alloc: Global, reader: &mut R) -> Result<Vec<u8>, AllocError> {
    let mut head = Vec::new(alloc);
    for _byte in 0..2 {
        let mut byte = [0; 1];
        match reader.read(&mut byte) {
            Ok(0) | Err(_) => break,
            Ok(_) => head.push(byte[0])?,
        }
    }
    match order_of(head.as_slice()) {
        Some(order) => rest_of(alloc, order, head.as_slice(), reader),
        None => Ok(head),
    }
}

/// Returns bytes as they are; or those of UTF-16 as UTF-8. Returns `AllocError` if memory ran out.
pub fn as_utf8(alloc: Global, bytes: Vec<u8>) -> Result<Vec<u8>, AllocError> {
    let Some(order) = order_of(bytes.as_slice()) else {
        return Ok(bytes);
    };
    let mut wide = Wide::new(alloc, order);
    wide.take_all(bytes.as_slice())?;
    wide.end()
}

/// Returns all of a trace that begins with these bytes.
fn rest_of<R: Read>(
    alloc: Global,
    order: Order,
    head: &[u8],
    reader: &mut R,
) -> Result<Vec<u8>, AllocError> {
    let mut wide = Wide::new(alloc, order);
    wide.take_all(head)?;
    for _chunk in 0..TRACE_LIMIT {
        let mut chunk = [0; CHUNK];
        match reader.read(&mut chunk) {
            Ok(0) | Err(_) => break,
            Ok(count) => wide.take_all(&chunk[..count])?,
        }
    }
    wide.end()
}

/// Returns the order of the bytes of UTF-16 by its byte order mark, or by a first letter of ASCII;
/// `None` if these bytes begin neither.
fn order_of(head: &[u8]) -> Option<Order> {
    match head {
        [0xFF, 0xFE, ..] | [1..=0x7F, 0, ..] => Some(Order::Low),
        [0xFE, 0xFF, ..] | [0, 1..=0x7F, ..] => Some(Order::High),
        _ => None,
    }
}

impl Wide {
    /// No byte is read yet.
    fn new(alloc: Global, order: Order) -> Wide {
        Wide {
            order,
            first: None,
            high: None,
            text: Vec::new(alloc),
        }
    }

    /// Takes the next bytes.
    fn take_all(&mut self, bytes: &[u8]) -> Result<(), AllocError> {
        for &byte in bytes {
            self.take(byte)?;
        }
        Ok(())
    }

    /// Takes the next byte.
    fn take(&mut self, byte: u8) -> Result<(), AllocError> {
        match (self.first.take(), self.order) {
            (None, _) => {
                self.first = Some(byte);
                Ok(())
            }
            (Some(low), Order::Low) => self.take_unit(u16::from_be_bytes([byte, low])),
            (Some(high), Order::High) => self.take_unit(u16::from_be_bytes([high, byte])),
        }
    }

    /// Takes the next unit: a character, or one of the two of a pair.
    fn take_unit(&mut self, unit: u16) -> Result<(), AllocError> {
        let unit = u32::from(unit);
        match (self.high.take(), unit) {
            (Some(high), 0xDC00..=0xDFFF) => {
                let low = unit.saturating_sub(0xDC00);
                let both = high.saturating_mul(0x400).saturating_add(low);
                return self.push(both.saturating_add(0x10000));
            }
            (Some(_), _) => self.push(UNKNOWN)?,
            (None, _) => {}
        }
        match unit {
            0xD800..=0xDBFF => {
                self.high = Some(unit.saturating_sub(0xD800));
                Ok(())
            }
            0xDC00..=0xDFFF => self.push(UNKNOWN),
            MARK if self.text.is_empty() => Ok(()),
            _ => self.push(unit),
        }
    }

    /// Appends a character in UTF-8.
    fn push(&mut self, code: u32) -> Result<(), AllocError> {
        match code {
            0..=0x7F => self.push_byte(code),
            0x80..=0x7FF => {
                self.push_byte(0xC0 | code / 0x40)?;
                self.push_byte(0x80 | code % 0x40)
            }
            0x800..=0xFFFF => {
                self.push_byte(0xE0 | code / 0x1000)?;
                self.push_byte(0x80 | code / 0x40 % 0x40)?;
                self.push_byte(0x80 | code % 0x40)
            }
            _ => {
                self.push_byte(0xF0 | code / 0x40000 % 8)?;
                self.push_byte(0x80 | code / 0x1000 % 0x40)?;
                self.push_byte(0x80 | code / 0x40 % 0x40)?;
                self.push_byte(0x80 | code % 0x40)
            }
        }
    }

    /// Appends a byte.
    fn push_byte(&mut self, byte: u32) -> Result<(), AllocError> {
        Ok(self.text.push(u8::try_from(byte).unwrap_or(b'?'))?)
    }

    /// Returns the text. A unit or a pair that is cut off is no character.
    fn end(mut self) -> Result<Vec<u8>, AllocError> {
        if self.first.is_some() || self.high.is_some() {
            self.push(UNKNOWN)?;
        }
        Ok(self.text)
    }
}
