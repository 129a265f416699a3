//! Iterators over the contents of a card.
ghost use Rattle.std.specs.Prelude.{◌≡◌, map};
ghost use Rattle.std.specs.Iterator.{YieldsFirst, YieldsFirstBy, item_count};

use crate::aid::Aid;
use crate::application::{Application, Stored};
use std::alloc::{Allocator, Global};
use std::marker::Model;
use tlv_core::ObjectTag;

/// Iterates over the identifiers of a card's applications, in order. Contracts see the list of
/// those that are left.
#[derive(Drop)]
pub struct Apps<'a, A: Allocator = Global> {
    rest: &'a [Application<A>],
}

impl<'a, A: Allocator> Model for Apps<'a, A> {
    ghost use Rattle.std.specs.Prelude.{ℕ, List, map};

    ghost Value = { List (List ℕ) };

    ghost view = { λ s. map (λ a. a.aid) s.rest.now };
}

impl<'a, A: Allocator> Apps<'a, A> {
    pub(crate) fn over(applications: &'a [Application<A>]) -> Apps<'a, A>
        ensures { result ≡ map (λ a. a.aid) applications.now }
    {
        Apps { rest: applications }
    }
}

impl<'a, A: Allocator> Iterator for Apps<'a, A> {
    type Item = Aid;

    ghost next_gives = { YieldsFirst (λ rest. rest) };

    ghost remaining = { item_count (λ rest. rest) };

    fn next(&mut self) -> Option<Aid> {
        let (first, rest) = self.rest.split_first()?;
        self.rest = rest;
        Some(first.aid())
    }
}

/// Iterates over the data objects of an application, in order, each as its tag and its value.
/// Contracts see the list of those that are left.
#[derive(Drop)]
pub struct Entries<'a, A: Allocator = Global> {
    objects: indexmap::map::Iter<'a, ObjectTag, Stored<A>>,
}

impl<'a, A: Allocator> Model for Entries<'a, A> {
    ghost use Rattle.std.specs.Prelude.{ℕ, List, map};

    ghost Value = { List (List ℕ × List ℕ) };

    ghost view = { λ s. map (λ e. (e.0, e.1.value.items)) s.objects };
}

impl<'a, A: Allocator> Entries<'a, A> {
    pub(crate) fn of(application: &'a Application<A>) -> Entries<'a, A>
        ensures { result ≡ map (λ e. (e.tag, e.value)) application.now.entries }
    {
        Entries {
            objects: application.objects().iter(),
        }
    }
}

impl<'a, A: Allocator> Iterator for Entries<'a, A> {
    type Item = (ObjectTag, &'a [u8]);

    ghost next_gives = { YieldsFirstBy (λ entry. (entry.0, entry.1.now)) (λ rest. rest) };

    ghost remaining = { item_count (λ rest. rest) };

    fn next(&mut self) -> Option<(ObjectTag, &'a [u8])> {
        let (tag, held) = self.objects.next()?;
        Some((*tag, held.value()))
    }
}
