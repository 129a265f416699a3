//! Finds the first object on a path of tags, and its place.

ghost use Rattle.std.specs.Prelude.{◌↔◌, IsOk, IfOk, IfErr, MatchOption};
ghost use Rattle.tlv_core.specs.FirstFault.{IsFirstFault};
ghost use Rattle.tlv_core.specs.Path.{IsFirstAt, IsFirstPlaced, NoneLiesAt, StandsAt};
ghost use Rattle.tlv_core.specs.Spelling.{AreObjects};

use crate::fault::TlvFault;
use crate::front::{DEEPEST, front_object};
use crate::objects::{Obj, Objects};
use crate::tag::Tag;

/// Finds the first object, in the order of the bytes, at the end of `path` (profile). The path
/// lists the tags from level 1 down to the object's own. `None` if there is no such object, or the
/// path is empty.
///
/// # Errors
///
/// - `TlvFault`: the bytes are not a list of objects; the fault is the first one, with its place.
pub fn find<'a>(bytes: &'a [u8], path: &[Tag]) -> Result<Option<Obj<'a>>, TlvFault>
    ensures objects { IsOk result ↔ AreObjects bytes.now 1 }
    ensures found { IfOk result (λ found. MatchOption found (NoneLiesAt bytes.now 1 path.now)
        (IsFirstAt bytes.now 1 path.now)) }
    ensures fault { IfErr result (λ fault. IsFirstFault bytes.now 1 fault.place fault.reason) }
{
    match find_placed(bytes, path)? {
        Some((_, object)) => Ok(Some(object)),
        None => Ok(None),
    }
}

/// Finds the same object as `find`, and the offset of its first byte.
///
/// # Errors
///
/// - `TlvFault`: the bytes are not a list of objects; the fault is the first one, with its place.
pub fn find_placed<'a>(bytes: &'a [u8], path: &[Tag]) -> Result<Option<(usize, Obj<'a>)>, TlvFault>
    ensures objects { IsOk result ↔ AreObjects bytes.now 1 }
    ensures found { IfOk result (λ found. MatchOption found (NoneLiesAt bytes.now 1 path.now)
        (λ f. IsFirstPlaced bytes.now 1 path.now f.0 f.1 × StandsAt bytes.now f.0 f.1)) }
    ensures fault { IfErr result (λ fault. IsFirstFault bytes.now 1 fault.place fault.reason) }
{
    Objects::over(bytes)?;
    Ok(find_in(bytes, path))
}

/// The first object on the path, and its place.
fn find_in<'a>(bytes: &'a [u8], path: &[Tag]) -> Option<(usize, Obj<'a>)>
    requires { AreObjects bytes.now 1 }
    ensures { MatchOption result (NoneLiesAt bytes.now 1 path.now)
        (λ f. IsFirstPlaced bytes.now 1 path.now f.0 f.1 × StandsAt bytes.now f.0 f.1) }
{
    if path.is_empty() {
        return None;
    }
    let mut ends = [0; DEEPEST as usize];
    let mut open = 0u8;
    let mut place = 0;
    let mut end = bytes.len();
    // For the proof: the label names the loop's goals.
    'seeking: loop {
        if place == end {
            if open == 0 {
                return None;
            }
            open -= 1;
            end = ends[open as usize];
        } else if bytes[place] == 0 {
            place += 1;
        } else {
            let object = front_object(&bytes[place..end]);
            let after = end - object.rest.len();
            if object.tag != path[open as usize] {
                place = after;
            } else if open as usize + 1 == path.len() {
                return Some((place, Obj::at_level(object, open + 1)));
            } else if object.tag.is_constructed() {
                ends[open as usize] = end;
                open += 1;
                place = after - object.value.len();
                end = after;
            } else {
                place = after;
            }
        }
    }
}
