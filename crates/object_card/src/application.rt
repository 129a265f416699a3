//! An application of a card: its identifier, and its data objects in a map.
ghost use Rattle.std.specs.Prelude.{◌≡◌, ◌<◌, [], length, map, Some, None, true, is_some, MatchOption, IfSome, IfOk, IsOk, OnOk, slice_get};
ghost use Rattle.std.specs.Option.{option_map};
ghost use Rattle.object_card.specs.Tables.{value_under, is_locked, with_entry};
ghost use Rattle.object_card.specs.CardFields.{HasPlace, value_at};

use crate::aid::Aid;
use indexmap::IndexMap;
use std::alloc::{AllocError, Allocator};
use std::hash::{BuildHasherDefault, FoldHasher};
use std::marker::Model;
use tlv_core::ObjectTag;

/// A value that is stored under a tag.
#[derive(Drop)]
pub(crate) struct Stored<A: Allocator> {
    value: Vec<u8, A>,
    locked: bool,
}

impl<A: Allocator> Stored<A> {
    pub(crate) fn value(&self) -> &[u8]
        ensures { result.now ≡ self.now.value.items }
    {
        &self.value
    }
}

/// The data objects of an application, in the order in which their tags were first stored.
pub(crate) type Objects<A> = IndexMap<ObjectTag, Stored<A>, BuildHasherDefault<FoldHasher>, A>;

/// An application: its identifier, and its data objects.
#[derive(Drop)]
pub(crate) struct Application<A: Allocator> {
    aid: Aid,
    objects: Objects<A>,
}

impl<A: Allocator> Model for Application<A> {
    ghost use Rattle.std.specs.Prelude.{map};
    ghost use Rattle.indexmap.specs.IndexMap.{spare};
    ghost use Rattle.object_card.specs.CardFields as fields;

    ghost Value = { fields.ApplicationView };

    ghost view = { λ a. record {
      aid = a.aid;
      entries = map (λ e. record { tag = e.0; value = e.1.value.items; locked = e.1.locked })
          a.objects.entries;
      room = spare a.objects;
    } };
}

impl<A: Allocator + Copy> Application<A> {
    /// Makes an application without data objects. It allocates nothing.
    pub(crate) fn new(alloc: A, aid: Aid) -> Application<A>
        ensures aid { result.aid ≡ aid }
        ensures none { result.entries ≡ [] }
    {
        Application {
            aid,
            objects: IndexMap::new(alloc),
        }
    }

    /// Returns a copy of these bytes, or `AllocError` if memory runs out.
    pub(crate) fn copied(&self, bytes: &[u8]) -> Result<Vec<u8, A>, AllocError>
        ensures { IfOk result (λ copy. copy.items ≡ bytes.now) }
    {
        Vec::from_slice(*self.objects.allocator(), bytes)
    }
}

impl<A: Allocator> Application<A> {
    pub(crate) fn aid(&self) -> Aid
        ensures { result ≡ self.now.aid }
    {
        self.aid
    }

    pub(crate) fn objects(&self) -> &Objects<A>
        ensures { map (λ e. record { tag = e.0; value = e.1.value.items; locked = e.1.locked })
            result.now.entries ≡ self.now.entries }
    {
        &self.objects
    }

    /// The number of data objects.
    pub(crate) fn len(&self) -> usize
        ensures { result ≡ length self.now.entries }
    {
        self.objects.len()
    }

    /// The place of the data object with this tag.
    pub(crate) fn find(&self, tag: ObjectTag) -> Option<usize>
        ensures value { option_map (λ place. value_at self.now.entries (Some place)) result
            ≡ value_under tag self.now.entries }
        ensures within { IfSome result (λ place. place < length self.now.entries) }
    {
        self.objects.get_index_of(&tag)
    }

    /// The value of the data object at this place.
    pub(crate) fn value(&self, place: usize) -> &[u8]
        requires { place < length self.now.entries }
        ensures { result.now ≡ value_at self.now.entries (Some place) }
    {
        self.objects[place].value()
    }

    /// Whether there is a data object with this tag, and it is locked.
    pub(crate) fn is_locked(&self, tag: ObjectTag) -> bool
        ensures { result ≡ is_locked tag self.now.entries }
    {
        match self.objects.get(&tag) {
            Some(held) => held.locked,
            None => false,
        }
    }

    /// The data object at this place: its tag, its value, and whether it is locked.
    pub(crate) fn at(&self, place: usize) -> Option<(ObjectTag, &[u8], bool)>
        ensures { MatchOption result (slice_get self.now.entries place ≡ None)
            (λ e. slice_get self.now.entries place
            ≡ Some (record { tag = e.0; value = e.1.now; locked = e.2 })) }
    {
        let (tag, held) = self.objects.get_index(place)?;
        Some((*tag, held.value(), held.locked))
    }

    /// Allocates a place for a data object with this tag. If there is one already, it keeps its
    /// place and nothing is allocated.
    pub(crate) fn make_room(&mut self, tag: ObjectTag) -> Result<(), AllocError>
        ensures aid { self.new.aid ≡ self.old.aid }
        ensures entries { self.new.entries ≡ self.old.entries }
        ensures ok { OnOk result (HasPlace self.new tag) }
        ensures held { is_some (value_under tag self.old.entries) ≡ true →
            IsOk result × (self.new ≡ self.old) }
    {
        if self.objects.len() < self.objects.capacity() {
            return Ok(());
        }
        if self.objects.contains_key(&tag) {
            return Ok(());
        }
        self.objects.reserve(1)
    }

    /// Stores a value in the place of its tag, or in the place allocated for it.
    pub(crate) fn store(&mut self, tag: ObjectTag, value: Vec<u8, A>, locked: bool)
        requires { HasPlace self.old tag }
        ensures aid { self.new.aid ≡ self.old.aid }
        ensures entries { self.new.entries ≡ with_entry tag value.items locked self.old.entries }
    {
        let _ = self.objects.insert(tag, Stored { value, locked }).unwrap();
    }
}
