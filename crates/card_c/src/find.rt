//! The export that finds an object by a path of tags.
ghost use Rattle.std.specs.Prelude.{◌≡◌, ◌⊎◌, ◌<◌, ◌≤◌, ℕ, List, length, take, MatchOption};
ghost use Rattle.tlv_core.specs.FirstFault.{IsFirstFault};
ghost use Rattle.tlv_core.specs.Spelling.{AreObjects, deepest};
ghost use Rattle.tlv_core.specs.declared.fault.Reason.{Reason};
ghost use Rattle.card_c.specs.Codes.{gt_not_found, reason_code};
ghost use Rattle.card_c.specs.Reading.{Finds, FindsOn};
ghost use Rattle.card_c.specs.TagNumbers.{AreTagNumbers};

use crate::code;
use crate::objects::record;
use crate::reader::ObjectRecord;
use crate::tag_number::tag_with;
use tlv_core::{Objects, Tag, find_placed};

/// The deepest level of an object. No longer path leads to one.
const DEEPEST: usize = 16;

/// Writes the first object, in the order of the bytes, on a path of tags from level 1 down.
#[unsafe(no_mangle)]
pub extern "C" fn galliumtoad_find(
    bytes: &[u8],
    path: &[u32],
    object: &mut ObjectRecord,
    place: &mut usize,
) -> i32
    ensures { Finds bytes.now path.now object.old place.old result object.new place.new }
{
    if path.is_empty() {
        return find_on(bytes, &[], object, place);
    }
    let Some(tags) = tags_of(path) else {
        return code::ARGUMENT;
    };
    if path.len() > DEEPEST {
        return find_none(bytes, place);
    }
    find_on(bytes, &tags[..path.len()], object, place)
}

/// Returns the tags with these numbers at the front of an array, or `None` if one is the number of
/// no tag.
fn tags_of(path: &[u32]) -> Option<[Tag; DEEPEST]>
    requires { 0 < length path.now }
    ensures { MatchOption result ((tags : List (List ℕ)) → ¬ AreTagNumbers path.now tags)
        (λ cells. (tags : List (List ℕ)) × AreTagNumbers path.now tags × (length cells ≡ deepest)
        × (length path.now ≤ deepest → take (length path.now) cells ≡ tags)) }
{
    let mut tags = [tag_with(path[0])?; DEEPEST];
    for at in 0..path.len() {
        let tag = tag_with(path[at])?;
        if at < DEEPEST {
            tags[at] = tag;
        }
    }
    Some(tags)
}

/// Finds the first object on a path of tags.
fn find_on(bytes: &[u8], path: &[Tag], object: &mut ObjectRecord, place: &mut usize) -> i32
    ensures { FindsOn bytes.now path.now object.old place.old result object.new place.new }
{
    match find_placed(bytes, path) {
        Ok(Some((start, found))) => {
            *object = record(&found, start + found.size());
            code::OK
        }
        Ok(None) => code::NOT_FOUND,
        Err(fault) => {
            *place = fault.place;
            code::of_reason(fault.reason)
        }
    }
}

/// Returns why no object is on a path that is longer than the deepest level: the first fault, whose
/// place is written, or `NOT_FOUND`.
fn find_none(bytes: &[u8], place: &mut usize) -> i32
    ensures { ((reason : Reason) × IsFirstFault bytes.now 1 place.new reason
        × (result ≡ reason_code reason))
        ⊎ (AreObjects bytes.now 1 × (result ≡ gt_not_found) × (place.new ≡ place.old)) }
{
    match Objects::over(bytes) {
        Ok(_) => code::NOT_FOUND,
        Err(fault) => {
            *place = fault.place;
            code::of_reason(fault.reason)
        }
    }
}
