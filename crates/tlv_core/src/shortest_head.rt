//! Makes the head of an object: its tag and the shortest length.

ghost use Rattle.std.specs.Prelude.{◌≡◌, ◌≤◌, ◌++◌, length};
ghost use Rattle.tlv_core.specs.Length.{shortest};

use crate::head_bytes::Head;
use crate::tag::Tag;

/// Returns the tag followed by `len`, the length of the value in bytes, in its shortest spelling.
pub fn head(tag: Tag, len: u16) -> Head
    ensures { result ≡ tag ++ shortest len }
{
    let [high, low] = len.to_be_bytes();
    match len {
        0..=0x7F => joined(tag, &[low]),
        0x80..=0xFF => joined(tag, &[0x81, low]),
        _ => joined(tag, &[0x82, high, low]),
    }
}

/// The tag followed by a spelled length. The tag is copied with its padding; the length overwrites
/// the padding from the tag's end on.
fn joined(tag: Tag, size: &[u8]) -> Head
    requires { length size.now ≤ 3 }
    ensures { result ≡ tag ++ size.now }
{
    let [first, second, third] = tag.padded();
    let mut bytes = [first, second, third, 0, 0, 0];
    let place = tag.bytes().len();
    let len = place + size.len();
    bytes[place..len].copy_from_slice(size);
    Head { bytes, len }
}
