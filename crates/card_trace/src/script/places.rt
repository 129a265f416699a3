//! Finds a byte in bytes.
ghost use Rattle.std.specs.Prelude.{◌≡◌, ◌==◌, position};

/// Returns the index of the first such byte, or `None`.
pub fn place_of(byte: u8, bytes: &[u8]) -> Option<usize>
    ensures { result ≡ position (λ other. other == byte) bytes.now }
{
    bytes.iter().position(|other| *other == byte)
}
