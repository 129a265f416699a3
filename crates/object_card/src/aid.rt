//! Application identifiers.
ghost use Rattle.std.specs.Prelude.{◌≡◌, ◌↔◌, ℕ, List, IsSome, IfSome};
ghost use Rattle.object_card.specs.Tables.{IsAid};

use std::marker::Model;

/// An application identifier (AID) of 5 to 16 bytes (ISO/IEC 7816-4). Contracts see it as its
/// bytes.
#[derive(Clone, Copy, Debug, PartialEq, Eq, Hash)]
pub struct Aid {
    bytes: [u8; 16],
    len: usize,
}

impl Model for Aid {
    ghost use Rattle.std.specs.Prelude.{List, ℕ, take, length};
    ghost use Rattle.object_card.specs.Tables.{IsAid};
    ghost use Rattle.tlv_core.specs.PaddedCells.{ArePadded, padded};

    ghost Value = { List ℕ };

    ghost view = { λ a. take a.len a.bytes };

    ghost invariant = { λ a. ArePadded IsAid 16 a.bytes a.len };

    ghost inverse = { λ bytes. record { bytes = padded 16 bytes; len = length bytes } };

    ghost inverse_ok = { λ a h i. record { bytes = h.is_padded i; len = h.has_len i } };
}

impl Aid {
    /// Makes an identifier of these bytes. `None` unless there are 5 to 16.
    pub fn new(bytes: &[u8]) -> Option<Aid>
        ensures takes { IsSome result ↔ IsAid bytes.now }
        ensures same { IfSome result (λ aid. aid ≡ bytes.now) }
    {
        let len = bytes.len();
        if len < 5 || len > 16 {
            return None;
        }
        let mut cells = [0; 16];
        cells[..len].copy_from_slice(bytes);
        Some(Aid { bytes: cells, len })
    }

    /// The bytes of the identifier, 5 to 16.
    pub fn bytes(&self) -> &[u8]
        ensures bytes { result.now ≡ self.now }
        ensures aid { IsAid self.now }
    {
        &self.bytes[..self.len]
    }
}
