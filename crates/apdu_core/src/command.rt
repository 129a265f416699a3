//! Commands of the four cases, parsed from bytes and written as bytes.
ghost use Rattle.std.specs.Prelude.{◌≡◌, ◌≢◌, ℕ, List, Option, IfNone, ◌<◌, ◌≤◌, ◌++◌, ◌↔◌, length, vec_len, IfOk, OnOk, OnErr, IfSome, IsSome, MatchOption, ⊤};
ghost use Rattle.std.specs.Option.{SomeIff};
ghost use Rattle.apdu_core.specs.declared.command.ApduFault.TheVariants.{TooShort, BadLength, InvalidIns};
ghost use Rattle.apdu_core.specs.CommandBytes as spec;
ghost use Rattle.apdu_core.specs.CommandBytes.{IsCommand, HasSizes, HasForm, HasInvalidIns, command_bytes, lc_field, le_field};

use crate::header::Header;
use crate::status::count;
use std::alloc::{AllocError, Allocator};
use std::error::Error;
use std::fmt;
use std::marker::Model;

/// Why bytes are not a command.
#[derive(Clone, Copy, Debug, PartialEq, Eq)]
pub enum ApduFault {
    /// There are fewer than four bytes.
    TooShort,
    /// The bytes after the header fit none of the four cases.
    BadLength,
    /// INS is `6X` or `9X`.
    InvalidIns,
}

impl fmt::Display for ApduFault {
    ghost use Rattle.std.specs.Prelude.{Some};
    ghost use Rattle.apdu_core.specs.FaultText.{fault_text};

    ghost output = { λ fault. Some (fault_text fault) };

    fn fmt<W: fmt::Write>(&self, f: &mut fmt::Formatter<W>) -> fmt::Result {
        match self {
            ApduFault::TooShort => f.write_str("command too short"),
            ApduFault::BadLength => f.write_str("bad command length"),
            ApduFault::InvalidIns => f.write_str("invalid INS"),
        }
    }
}

impl Error for ApduFault {}

/// A command APDU of one of the four cases (ISO/IEC 7816-4, 5.1): neither data nor Le; Le; data;
/// both. INS is not `6X` or `9X`. Extended lengths are not supported.
#[derive(Debug, Drop)]
pub struct Command<'a> {
    header: Header,
    content: &'a [u8],
    le: Option<u16>,
}

impl<'a> Model for Command<'a> {
    ghost use Rattle.apdu_core.specs.CommandBytes as spec;
    ghost use Rattle.apdu_core.specs.CommandBytes.{IsCommand};

    ghost Value = { spec.Command };

    ghost view = { λ c. record { header = c.header; content = c.content.now; le = c.le } };

    ghost invariant = { λ c.
        IsCommand (record { header = c.header; content = c.content.now; le = c.le }) };
}

impl Clone for Command<'_> {
    ghost is_clone = { λ command copy. copy ≡ command };

    ghost is_infallible = { λ _. ⊤ };

    fn clone(&self) -> Result<Self, AllocError> {
        Ok(Command {
            header: self.header,
            content: self.content,
            le: self.le,
        })
    }
}

impl<'a> Command<'a> {
    /// Parses a command that takes up all of `bytes`.
    ///
    /// # Errors
    ///
    /// In this order:
    ///
    /// - `TooShort`: there are fewer than four bytes.
    /// - `BadLength`: the bytes after the header fit none of the four cases.
    /// - `InvalidIns`: INS is `6X` or `9X`.
    pub fn read(bytes: &'a [u8]) -> Result<Command<'a>, ApduFault>
        ensures command { IfOk result (λ c. IsCommand c × (bytes.now ≡ command_bytes c)) }
        ensures each { (c : spec.Command) →
            IsCommand c → bytes.now ≡ command_bytes c → result ≡ Ok c }
        ensures too_short { (result ≡ Err TooShort) ↔ (length bytes.now < 4) }
        ensures bad_length { (result ≡ Err BadLength) ↔
            ((4 ≤ length bytes.now) × ¬ HasForm bytes.now) }
        ensures invalid_ins { (result ≡ Err InvalidIns) ↔
            ((c : spec.Command) × HasInvalidIns c × (bytes.now ≡ command_bytes c)) }
    {
        let [cla, ins, p1, p2, rest @ ..] = bytes else {
            return Err(ApduFault::TooShort);
        };
        let header = Header {
            cla: *cla,
            ins: *ins,
            p1: *p1,
            p2: *p2,
        };
        let Some((content, le)) = fields(rest) else {
            return Err(ApduFault::BadLength);
        };
        if !header.ins_is_valid() {
            return Err(ApduFault::InvalidIns);
        }
        Ok(Command {
            header,
            content,
            le,
        })
    }

    /// Makes a command of these parts. `None` if INS is `6X` or `9X`, `content` exceeds 255 bytes,
    /// or `le` is not 1 to 256.
    pub fn new(header: Header, content: &'a [u8], le: Option<u16>) -> Option<Command<'a>>
        ensures { let parts : spec.Command =
            record { header = header; content = content.now; le = le } in
            SomeIff result (IsCommand parts) parts }
    {
        if !header.ins_is_valid() || content.len() > 255 || le.is_some_and(|n| n == 0 || n > 256) {
            return None;
        }
        Some(Command {
            header,
            content,
            le,
        })
    }

    /// The header: CLA, INS, P1 and P2.
    pub fn header(&self) -> Header
        ensures value { result ≡ self.now.header }
        ensures command { IsCommand self.now }
    {
        self.header
    }

    /// The data to the card, at most 255 bytes. They are empty in cases 1 and 2.
    pub fn data(&self) -> &'a [u8]
        ensures value { result.now ≡ self.now.content }
        ensures command { IsCommand self.now }
    {
        self.content
    }

    /// Le, the number of bytes that the command asks for, 1 to 256. `None` in cases 1 and 3.
    pub fn le(&self) -> Option<u16>
        ensures value { result ≡ self.now.le }
        ensures command { IsCommand self.now }
    {
        self.le
    }

    /// Appends the bytes of the command to `out`, 4 to 261. Le 256 is written as `00`.
    ///
    /// # Errors
    ///
    /// - `AllocError`: memory ran out; `out` is unchanged.
    pub fn write<A: Allocator>(&self, out: &mut Vec<u8, A>) -> Result<(), AllocError>
        ensures ok { OnOk result (out.new.items ≡ out.old.items ++ command_bytes self.now) }
        ensures err { OnErr result (out.new.items ≡ out.old.items) }
    {
        let Header { cla, ins, p1, p2 } = self.header;
        let lc = u8::try_from(self.content.len()).ok().filter(|lc| *lc > 0);
        let lc_size = usize::from(lc.is_some());
        let le_size = usize::from(self.le.is_some());
        out.reserve(4 + lc_size + self.content.len() + le_size)?;
        out.extend_from_slice(&[cla, ins, p1, p2])?;
        if let Some(lc) = lc {
            out.push(lc)?;
        }
        out.extend_from_slice(self.content)?;
        if let Some(le) = self.le {
            out.push((le % 256) as u8)?;
        }
        Ok(())
    }
}

/// Parses the bytes after a header as data and Le. `None` if they fit none of the four cases.
fn fields(bytes: &[u8]) -> Option<(&[u8], Option<u16>)>
    ensures none { IfNone result ((content : List ℕ) (le : Option ℕ) →
        HasSizes content le → bytes.now ≢ lc_field content ++ le_field le) }
    ensures some { IfSome result (λ f. HasSizes f.0.now f.1
        × (bytes.now ≡ lc_field f.0.now ++ le_field f.1)) }
{
    match bytes {
        [] => Some((&[], None)),
        [le] => Some((&[], Some(count(*le)))),
        [0, ..] => None,
        [lc, rest @ ..] => {
            let (content, after) = rest.split_at_checked(usize::from(*lc))?;
            match after {
                [] => Some((content, None)),
                [le] => Some((content, Some(count(*le)))),
                _ => None,
            }
        }
    }
}
