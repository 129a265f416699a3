//! The bytes of a head, which is a tag followed by a length.

ghost use Rattle.std.specs.Prelude.{◌≡◌};

use std::marker::Model;

/// A tag and a length in its shortest spelling: two to six bytes. Contracts see it as these bytes.
#[derive(Drop)]
pub struct Head {
    pub(crate) bytes: [u8; 6],
    pub(crate) len: usize,
}

impl Model for Head {
    ghost use Rattle.std.specs.Prelude.{List, ℕ, ◌≤◌, length, take};
    ghost use Rattle.tlv_core.specs.PaddedCells.{ArePadded};

    ghost Value = { List ℕ };

    ghost view = { λ h. take h.len h.bytes };

    ghost invariant = { λ h. ArePadded (λ bytes. length bytes ≤ 6) 6 h.bytes h.len };
}

impl Head {
    ghost use Rattle.tlv_core.specs.PaddedCells.{padded};

    /// The bytes: the tag and then the length.
    pub fn bytes(&self) -> &[u8]
        ensures { result.now ≡ self.now }
    {
        &self.bytes[..self.len]
    }

    /// The bytes, followed by `00` up to six, so that a caller can copy them all at once.
    pub fn padded(&self) -> [u8; 6]
        ensures { result ≡ padded 6 self.now }
    {
        self.bytes
    }
}
