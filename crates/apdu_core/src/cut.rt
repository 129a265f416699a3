//! Cuts a value into the commands of a chain.
ghost use Rattle.std.specs.Prelude.{◌≡◌, ℕ, List, true};
ghost use Rattle.apdu_core.specs.HeaderBytes.{ins_is_valid};
ghost use Rattle.apdu_core.specs.Chaining.{IsPieces, IsLast, chain_commands};

mod iter;

use crate::header::Header;
pub use iter::Pieces;

/// Returns the commands that carry `value` in a chain (ISO/IEC 7816-4, 5.1.1.1). Bit 5 of CLA is
/// set in each command except the last.
///
/// `header` is the header of the last command: its INS must be valid (`Header::ins_is_valid`), and
/// bit 5 of its CLA clear. Each command except the last carries 255 bytes, the last 1 to 255
/// (profile). An empty value makes one command without data. No command has an Le.
pub fn pieces(header: Header, value: &[u8]) -> Pieces<'_>
    requires valid_ins { ins_is_valid header.ins ≡ true }
    requires last { IsLast header }
    ensures { (p : List (List ℕ)) × IsPieces value.now p × (result ≡ chain_commands header p) }
{
    Pieces::new(header, value)
}
