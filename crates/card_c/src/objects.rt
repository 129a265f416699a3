//! The export that lists all objects of some bytes.
ghost use Rattle.std.specs.Prelude.{◌≡◌, ◌+◌, ◌-◌, ◌≤◌, ◌<◌, ◌⊎◌, List, [], ◌∷◌, length, map};
ghost use Rattle.tlv_core.specs.Listing.{Placed, Lists};
ghost use Rattle.tlv_core.specs.declared.fault.Reason.{Reason};
ghost use Rattle.tlv_core.specs.FirstFault.{IsFirstFault};
ghost use Rattle.card_c.specs.Codes.{gt_ok, gt_buffer, reason_code};
ghost use Rattle.card_c.specs.Reading.{with_from, with_front, recorded};

use crate::code;
use crate::reader::ObjectRecord;
use crate::tag_number::number;
use tlv_core::{Obj, Objects};

/// Writes the objects of all levels in the order of their bytes, and the number of all.
#[unsafe(no_mangle)]
pub extern "C" fn galliumtoad_objects(
    bytes: &[u8],
    objects: &mut [ObjectRecord],
    count: &mut usize,
    place: &mut usize,
) -> i32
    ensures { ((all : List Placed) × Lists bytes.now 0 1 all × (count.new ≡ length all)
        × (objects.new ≡ with_front objects.old (map recorded all)) × (place.new ≡ place.old)
        × (((0 < length objects.old) × (length objects.old < length all) × (result ≡ gt_buffer))
        ⊎ (((length objects.old ≡ 0) ⊎ (length all ≤ length objects.old)) × (result ≡ gt_ok))))
        ⊎ ((reason : Reason) × IsFirstFault bytes.now 1 place.new reason
        × (result ≡ reason_code reason) × (objects.new ≡ objects.old) × (count.new ≡ count.old)) }
{
    match Objects::over(bytes) {
        Ok(list) => {
            let room = objects.len();
            let all = counted(bytes, list, objects);
            *count = all;
            if 0 < room && room < all {
                code::BUFFER
            } else {
                code::OK
            }
        }
        Err(fault) => {
            *place = fault.place;
            code::of_reason(fault.reason)
        }
    }
}

/// Writes all objects of the bytes, as many as fit, and returns their number.
fn counted(bytes: &[u8], list: Objects<'_>, objects: &mut [ObjectRecord]) -> usize
    requires { list ≡ record { bytes = bytes.now; level = 1 } }
    ensures { (all : List Placed) × Lists bytes.now 0 1 all × (result ≡ length all)
        × (objects.new ≡ with_front objects.old (map recorded all)) }
{
    listed(list, bytes.len(), objects, 0)
}

/// Writes the objects of a list, and those in them, from a place of the array on, and returns the
/// place after them. `end` is where the list ends in the bytes.
fn listed(list: Objects<'_>, end: usize, objects: &mut [ObjectRecord], before: usize) -> usize
    requires inside { before + length list.bytes ≤ end }
    ensures { (all : List Placed)
        × Lists list.entry.bytes (end - length list.entry.bytes) list.entry.level all
        × (result ≡ before + length all)
        × (objects.new ≡ with_from objects.old before (map recorded all))
        × (result ≤ end) }
{
    let mut list = list;
    let mut count = before;
    'listing: while let Some(object) = list.next() {
        let after = end - list.left();
        put(objects, count, record(&object, after));
        count += 1;
        if let Some(children) = object.children() {
            count = listed(children, after, objects, count);
        }
    }
    count
}

/// Returns the record of an object that ends at this place.
pub fn record(object: &Obj<'_>, after: usize) -> ObjectRecord
    requires { length object.now.tag + length object.now.size + length object.now.value ≤ after }
    ensures { result ≡ recorded (record {
      tag = object.now.tag;
      level = object.now.level;
      place = after - (length object.now.tag + length object.now.size + length object.now.value);
      size = length object.now.tag + length object.now.size + length object.now.value;
      value = after - length object.now.value;
      value_size = length object.now.value;
    }) }
{
    let size = object.size();
    let length = object.value().len();
    ObjectRecord {
        tag: number(object.tag()),
        level: object.level(),
        constructed: u8::from(object.tag().is_constructed()),
        place: after - size,
        size,
        value: after - length,
        length,
    }
}

/// Writes an object at this place of the array, if it is inside.
fn put(objects: &mut [ObjectRecord], at: usize, object: ObjectRecord)
    ensures { objects.new ≡ with_from objects.old at (object ∷ []) }
{
    if at < objects.len() {
        objects[at] = object;
    }
}
