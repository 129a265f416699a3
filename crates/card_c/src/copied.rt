//! Copies bytes into a buffer of C.
ghost use Rattle.std.specs.Prelude.{◌≡◌, ◌≤◌, length};
ghost use Rattle.t1_core.specs.Block.{said};
ghost use Rattle.t1_core.specs.BlockBytes.{bytes_of, info_of};
ghost use Rattle.card_c.specs.Copying.{IsCopied};

use crate::code;
use t1_core::Block;
use t1_core::spelling::{size, write};

/// Copies bytes to the front of `to` if they fit, and writes their number to `len` in any case. If
/// they don't fit, `to` is unchanged, and the code is `BUFFER`.
pub fn copied(from: &[u8], to: &mut [u8], len: &mut usize) -> i32
    ensures copied { IsCopied from.now to.old result to.new }
    ensures counted { len.new ≡ length from.now }
{
    let count = from.len();
    *len = count;
    if count > to.len() {
        return code::BUFFER;
    }
    to[..count].copy_from_slice(from);
    code::OK
}

/// Writes a block as `copied` copies its bytes, which are nowhere else. Its field must have at most
/// 254 bytes.
pub fn block_copied(block: Block<'_>, to: &mut [u8], len: &mut usize) -> i32
    requires { length (info_of (said block)) ≤ 254 }
    ensures copied { IsCopied (bytes_of (said block.entry)) to.old result to.new }
    ensures counted { len.new ≡ length (bytes_of (said block.entry)) }
{
    let count = size(block);
    *len = count;
    if count > to.len() {
        return code::BUFFER;
    }
    write(block, to);
    code::OK
}
