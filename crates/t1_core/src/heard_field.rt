//! A field that a tap keeps, without an allocator.
ghost use Rattle.std.specs.Prelude.{◌≡◌, ◌≤◌, length};

use std::marker::Model;

/// At most 254 bytes.
#[derive(Drop)]
pub(crate) struct HeardField {
    bytes: [u8; 254],
    len: usize,
}

impl Model for HeardField {
    ghost use Rattle.std.specs.Prelude.{List, ℕ, take, ◌≤◌, length, ◌≡◌};

    ghost Value = { List ℕ };

    ghost view = { λ f. take f.len f.bytes };

    ghost invariant = { λ f. (f.len ≤ 254) × (length f.bytes ≡ 254) };
}

impl HeardField {
    /// Copies a field.
    pub(crate) fn of(field: &[u8]) -> HeardField
        requires { length field.now ≤ 254 }
        ensures { result ≡ field.now }
    {
        let mut bytes = [0; 254];
        bytes[..field.len()].copy_from_slice(field);
        HeardField {
            bytes,
            len: field.len(),
        }
    }

    /// Returns the bytes.
    pub(crate) fn bytes(&self) -> &[u8]
        ensures { result.now ≡ self.now }
    {
        &self.bytes[..self.len]
    }
}
