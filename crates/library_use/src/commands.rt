//! Writes the commands that put a value.

ghost use Rattle.std.specs.Prelude.{◌≡◌, true};
ghost use Rattle.apdu_core.specs.HeaderBytes.{ins_is_valid};
ghost use Rattle.apdu_core.specs.Chaining.{IsLast};

use apdu_core::{Header, pieces};
use std::alloc::{AllocError, Allocator};

/// Appends the commands that put a value, one after another. INS of the header must be valid, and
/// bit 5 of its CLA clear. If memory runs out, `out` may contain some of the commands.
pub fn write_put<A: Allocator>(
    header: Header,
    value: &[u8],
    out: &mut Vec<u8, A>,
) -> Result<(), AllocError>
    requires valid_ins { ins_is_valid header.ins ≡ true }
    requires last { IsLast header }
{
    // Each command carries at most 255 bytes of the value.
    for command in pieces(header, value) {
        command.write(out)?;
    }
    Ok(())
}
