//! Iterates over objects in bytes, without copying them.

ghost use Rattle.std.specs.Prelude.{◌≡◌, ◌↔◌, ◌≤◌, ◌+◌, ◌++◌, length, true, false, IsOk, IfOk, IfErr, IsNone, IfSome};
ghost use Rattle.std.specs.Iterator.{at_most};
ghost use Rattle.tlv_core.specs.FirstFault.{IsFirstFault};
ghost use Rattle.tlv_core.specs.Object.{IsObject, IsObjectList, GivesNext};
ghost use Rattle.tlv_core.specs.Spelling.{AreObjects, deepest};
ghost use Rattle.tlv_core.specs.TagForm.{is_constructed};

use crate::check::first_fault;
use crate::fault::TlvFault;
use crate::front::{FirstObject, front_object, past_padding};
use crate::tag::Tag;
use std::marker::Model;

/// An iterator over a list of objects (EMV Book 3, Annex B), in order; it skips padding.
/// `Objects::over` checks all levels at once, so the iteration never fails. Contracts see it as the
/// bytes that are left, with the level of their objects.
#[derive(Debug, Drop)]
pub struct Objects<'a> {
    bytes: &'a [u8],
    level: u8,
}

impl<'a> Model for Objects<'a> {
    ghost use Rattle.tlv_core.specs.Object.{ObjectList, IsObjectList};

    ghost Value = { ObjectList };

    ghost view = { λ o. record { bytes = o.bytes.now; level = o.level } };

    ghost invariant = { λ o. IsObjectList (record { bytes = o.bytes.now; level = o.level }) };
}

/// One object of a list, borrowed from its bytes. Contracts see it as its tag, its length as
/// spelled, its value and its level.
#[derive(Debug, Drop)]
pub struct Obj<'a> {
    tag: Tag,
    size: &'a [u8],
    value: &'a [u8],
    level: u8,
}

impl<'a> Model for Obj<'a> {
    ghost use Rattle.tlv_core.specs.Object.{Object, IsObject};

    ghost Value = { Object };

    ghost view = { λ o.
        record { tag = o.tag; size = o.size.now; value = o.value.now; level = o.level } };

    ghost invariant = { λ o. IsObject
        (record { tag = o.tag; size = o.size.now; value = o.value.now; level = o.level }) };
}

impl<'a> Objects<'a> {
    /// Checks that the bytes are a list of objects at level 1, at all levels down to 16, and
    /// returns an iterator over it. No bytes, or padding alone, are an empty list.
    ///
    /// # Errors
    ///
    /// - `TlvFault`: the bytes are not such a list; the fault is the first one, with its place.
    pub fn over(bytes: &'a [u8]) -> Result<Objects<'a>, TlvFault>
        ensures objects { IsOk result ↔ AreObjects bytes.now 1 }
        ensures list { IfOk result (λ list. list ≡ record { bytes = bytes.now; level = 1 }) }
        ensures fault { IfErr result (λ fault. IsFirstFault bytes.now 1 fault.place fault.reason) }
    {
        match first_fault(bytes, 1) {
            Some(fault) => Err(fault),
            None => Ok(Objects { bytes, level: 1 }),
        }
    }

    /// The number of bytes that are left of the list, padding included.
    pub fn left(&self) -> usize
        ensures { result ≡ length self.now.bytes }
    {
        self.bytes.len()
    }
}

impl<'a> Iterator for Objects<'a> {
    type Item = Obj<'a>;

    ghost next_gives = { GivesNext };

    ghost remaining = { λ list. at_most (length list.bytes) };

    fn next(&mut self) -> Option<Obj<'a>> {
        let bytes = past_padding(self.bytes);
        let level = self.level;
        if bytes.is_empty() {
            self.bytes = bytes;
            return None;
        }
        let front = front_object(bytes);
        self.bytes = front.rest;
        Some(Obj::at_level(front, level))
    }
}

impl<'a> Obj<'a> {
    /// The object that was found at the front of a list at this level.
    pub(crate) fn at_level(front: FirstObject<'a>, level: u8) -> Obj<'a>
        requires { IsObject (record {
          tag = front.tag;
          size = front.size.now;
          value = front.value.now;
          level = level;
        }) }
        ensures { result ≡ record {
          tag = front.entry.tag;
          size = front.entry.size.now;
          value = front.entry.value.now;
          level = level;
        } }
    {
        Obj {
            tag: front.tag,
            size: front.size,
            value: front.value,
            level,
        }
    }

    /// The tag.
    pub fn tag(&self) -> Tag
        ensures { result ≡ self.now.tag }
    {
        self.tag
    }

    /// The level, 1 to 16. An object of the outermost list is at level 1.
    pub fn level(&self) -> u8
        ensures { result ≡ self.now.level }
    {
        self.level
    }

    /// The bytes of the value; of a constructed object the list inside, with its padding.
    pub fn value(&self) -> &'a [u8]
        ensures { result.now ≡ self.now.value }
    {
        self.value
    }

    /// The size of the whole object in bytes: its tag, its length as spelled, and its value.
    pub fn size(&self) -> usize
        ensures { result ≡ length (self.now.tag ++ self.now.size ++ self.now.value) }
    {
        let head = self.tag.bytes().len() + self.size.len();
        head + self.value.len()
    }

    /// Iterates over the objects in the value. `Objects::over` checked them, so nothing is checked
    /// again. `None` for a primitive object.
    pub fn children(&self) -> Option<Objects<'a>>
        ensures primitive { IsNone result ↔ (is_constructed self.now.tag ≡ false) }
        ensures list { IfSome result (λ list.
            (list ≡ record { bytes = self.now.value; level = self.now.level + 1 })
            × IsObjectList list) }
    {
        if self.tag.is_constructed() {
            Some(Objects {
                bytes: self.value,
                level: self.level + 1,
            })
        } else {
            None
        }
    }
}
