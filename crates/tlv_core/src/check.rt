//! Finds the first fault of a list of objects, at all levels, in one loop without recursion.

ghost use Rattle.std.specs.Prelude.{◌≡◌, ◌↔◌, ◌≤◌, ◌+◌, true, IsNone, IfSome, MatchOption};
ghost use Rattle.tlv_core.specs.FirstFault.{IsFirstFault};
ghost use Rattle.tlv_core.specs.Spelling.{AreObjects, deepest};
ghost use Rattle.tlv_core.specs.TagForm.{is_constructed};

use crate::fault::TlvFault;
use crate::front::{DEEPEST, front_parts};
use crate::tag::{Tag, starts_template};

/// Returns the first fault of `value`, read as the value of an object at level 1 with the tag
/// `tag`. The fault's place counts from the start of the value. `None` if `value` has no fault or
/// the tag is primitive.
pub fn value_fault(tag: Tag, value: &[u8]) -> Option<TlvFault>
    ensures fits { IsNone result ↔ (is_constructed tag ≡ true → AreObjects value.now 2) }
    ensures fault { IfSome result (λ fault. (is_constructed tag ≡ true)
        × IsFirstFault value.now 2 fault.place fault.reason) }
{
    if tag.is_constructed() {
        first_fault(value, 2)
    } else {
        None
    }
}

/// Returns the first fault of `bytes`, read as a list of objects at `level`, which is 1 to 17.
/// `None` if the bytes are such a list.
pub(crate) fn first_fault(bytes: &[u8], level: usize) -> Option<TlvFault>
    requires above { 1 ≤ level }
    requires in_depth { level ≤ deepest + 1 }
    ensures { MatchOption result (AreObjects bytes.now level)
        (λ fault. IsFirstFault bytes.now level fault.place fault.reason) }
{
    let mut ends = [0; DEEPEST as usize];
    let mut open = 0;
    let mut place = 0;
    let mut end = bytes.len();
    // For the proof: the labels name the goals of both loops.
    'reading: loop {
        'closing: while place == end {
            if open == 0 {
                return None;
            }
            open -= 1;
            end = ends[open];
        }
        if bytes[place] == 0 {
            place += 1;
        } else {
            let parts = match front_parts(&bytes[place..end], level + open) {
                Ok(parts) => parts,
                Err(reason) => return Some(TlvFault { place, reason }),
            };
            let value = place + parts.head;
            let after = value + parts.value;
            if starts_template(bytes[place]) {
                ends[open] = end;
                open += 1;
                place = value;
                end = after;
            } else {
                place = after;
            }
        }
    }
}
