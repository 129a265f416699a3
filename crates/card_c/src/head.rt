//! The export that spells the head of an object.
ghost use Rattle.std.specs.Prelude.{◌≡◌, ◌⊎◌, ◌++◌, ℕ, List, length};
ghost use Rattle.tlv_core.specs.Length.{shortest};
ghost use Rattle.card_c.specs.Codes.{gt_argument};
ghost use Rattle.card_c.specs.Copying.{IsCopied};
ghost use Rattle.card_c.specs.TagNumbers.{IsTagNumber};

use crate::code;
use crate::copied::copied;
use crate::tag_number::tag_with;
use tlv_core::head;

/// Writes the tag with this number, this length in its shortest form, and the size of both.
#[unsafe(no_mangle)]
pub extern "C" fn galliumtoad_head(number: u32, size: u16, out: &mut [u8], len: &mut usize) -> i32
    ensures { ((tag : List ℕ) × IsTagNumber number tag
        × IsCopied (tag ++ shortest size) out.old result out.new
        × (len.new ≡ length (tag ++ shortest size)))
        ⊎ (((tag : List ℕ) → ¬ IsTagNumber number tag) × (result ≡ gt_argument)
        × (out.new ≡ out.old) × (len.new ≡ len.old)) }
{
    match tag_with(number) {
        Some(tag) => copied(head(tag, size).bytes(), out, len),
        None => code::ARGUMENT,
    }
}
