//! Builds a card of applications and data objects, one by one.
ghost use Rattle.std.specs.Prelude.{◌≡◌, List, [], length, None, true, false, OnOk, OnErr, IfOk, IfErr, MatchResult};
ghost use Rattle.tlv_core.specs.Address.{IsAddressable};
ghost use Rattle.object_card.specs.Tables.{with_entry};
ghost use Rattle.object_card.specs.CardFields.{applications_of};
ghost use Rattle.object_card.specs.Builder.{TakesApplication, RefusesApplication, TakesEntry, RefusesEntry, TakesObject, RefusesObject, with_application, with_last_entry, new_card};

use crate::aid::Aid;
use crate::application::Application;
use crate::builder_fault::BuilderFault;
use crate::card::ObjectCard;
use crate::limits::{APPLICATION_LIMIT, ENTRY_LIMIT, VALUE_LIMIT};
use crate::select_command::find;
use apdu_core::Chain;
use std::alloc::{AllocError, Allocator, Global};
use std::marker::Model;
use tlv_core::{ObjectTag, value_fault};

/// Builds a card: `app` adds an application, `object` and `locked` add data objects to the last
/// one, and `finish` returns the card. Contracts see the builder as the list of its applications.
#[derive(Drop)]
pub struct CardBuilder<A: Allocator = Global> {
    alloc: A,
    applications: Vec<Application<A>, A>,
}

impl<A: Allocator> Model for CardBuilder<A> {
    ghost use Rattle.std.specs.Prelude.{List};
    ghost use Rattle.object_card.specs.Tables as tables;
    ghost use Rattle.object_card.specs.Tables.{AreApplications};
    ghost use Rattle.object_card.specs.CardFields.{applications_of};

    ghost Value = { List tables.Application };

    ghost view = { λ b. applications_of b.applications.items };

    ghost invariant = { λ b. AreApplications (applications_of b.applications.items) };
}

impl<A: Allocator + Copy> CardBuilder<A> {
    /// Makes a builder without applications. It allocates nothing.
    pub fn new(alloc: A) -> CardBuilder<A>
        ensures { result ≡ [] }
    {
        CardBuilder {
            alloc,
            applications: Vec::new(alloc),
        }
    }

    /// Adds an application without data objects.
    ///
    /// # Errors
    ///
    /// The first that holds; the builder is unchanged after each (profile):
    ///
    /// - `Twice`: an application has this identifier already.
    /// - `TooManyApps`: there are `APPLICATION_LIMIT` applications.
    /// - `OutOfMemory`: memory ran out.
    pub fn app(&mut self, aid: Aid) -> Result<(), BuilderFault>
        ensures ok { OnOk result (TakesApplication aid self.old
            × (self.new ≡ with_application aid self.old)) }
        ensures err { IfErr result (RefusesApplication aid self.old) }
        ensures stays { OnErr result (self.new ≡ self.old) }
    {
        if find(&self.applications, aid.bytes()).is_some() {
            return Err(BuilderFault::Twice);
        }
        if self.applications.len() >= APPLICATION_LIMIT {
            return Err(BuilderFault::TooManyApps);
        }
        let application = Application::new(self.alloc, aid);
        if self.applications.push(application).is_err() {
            return Err(BuilderFault::OutOfMemory);
        }
        Ok(())
    }

    /// Adds a data object to the last application. If the tag is there already, its value is
    /// replaced in place, and the object is no longer locked.
    ///
    /// # Errors
    ///
    /// The first that holds; the builder is unchanged after each (profile):
    ///
    /// - `NoApp`: there is no application.
    /// - `ValueTooLong`: the value has more than `VALUE_LIMIT` bytes.
    /// - `NotObjects`: the tag is constructed, and the value is not a list of objects, or one of
    ///   them is deeper than level 16. The object itself is at level 1.
    /// - `Full`: the tag is new, and the application has `ENTRY_LIMIT` data objects.
    /// - `OutOfMemory`: memory ran out.
    pub fn object(&mut self, tag: ObjectTag, value: &[u8]) -> Result<(), BuilderFault>
        ensures ok { OnOk result (TakesObject tag value.now self.old
            × (self.new ≡ with_last_entry tag value.now false self.old)) }
        ensures err { IfErr result (RefusesObject tag value.now self.old) }
        ensures stays { OnErr result (self.new ≡ self.old) }
    {
        add_to_last(&mut self.applications, tag, value, false)
    }

    /// Adds a data object that no command can change, like `object`. If the tag is there already,
    /// its value is replaced in place, and the object is now locked.
    ///
    /// # Errors
    ///
    /// Those of `object`, in the same order; the builder is unchanged after each.
    pub fn locked(&mut self, tag: ObjectTag, value: &[u8]) -> Result<(), BuilderFault>
        ensures ok { OnOk result (TakesObject tag value.now self.old
            × (self.new ≡ with_last_entry tag value.now true self.old)) }
        ensures err { IfErr result (RefusesObject tag value.now self.old) }
        ensures stays { OnErr result (self.new ≡ self.old) }
    {
        add_to_last(&mut self.applications, tag, value, true)
    }

    /// Makes the card with these applications, nothing selected and nothing pending. Only the
    /// buffer for a chain is allocated.
    ///
    /// # Errors
    ///
    /// - `AllocError`: memory ran out; the builder and its data objects are dropped.
    pub fn finish(self) -> Result<ObjectCard<A>, AllocError>
        ensures { IfOk result (λ card. card ≡ new_card self) }
    {
        self.try_finish().map_err(|_| AllocError)
    }

    /// Makes the card like `finish`. If memory runs out, it returns the builder unchanged.
    pub fn try_finish(self) -> Result<ObjectCard<A>, CardBuilder<A>>
        ensures { MatchResult result (λ card. card ≡ new_card self) (λ builder. builder ≡ self) }
    {
        let CardBuilder {
            alloc,
            applications,
        } = self;
        // A put may bring a value of any length up to the limit, whatever is stored now.
        match Chain::with_room(alloc, VALUE_LIMIT) {
            Ok(chain) => Ok(ObjectCard::new(applications, chain)),
            Err(_) => Err(CardBuilder {
                alloc,
                applications,
            }),
        }
    }
}

/// Adds a data object to the last of the applications.
fn add_to_last<A: Allocator + Copy>(
    applications: &mut [Application<A>],
    tag: ObjectTag,
    value: &[u8],
    locked: bool,
) -> Result<(), BuilderFault>
    ensures addressable { OnOk result (IsAddressable tag) }
    ensures ok { OnOk result (TakesObject tag value.now (applications_of applications.old)
        × (applications_of applications.new
        ≡ with_last_entry tag value.now locked (applications_of applications.old))) }
    ensures err { IfErr result (RefusesObject tag value.now (applications_of applications.old)) }
    ensures stays { OnErr result
        (applications_of applications.new ≡ applications_of applications.old) }
{
    let Some(application) = applications.last_mut() else {
        return Err(BuilderFault::NoApp);
    };
    add(application, tag, value, locked)
}

/// Adds a data object to the application.
fn add<A: Allocator + Copy>(
    application: &mut Application<A>,
    tag: ObjectTag,
    value: &[u8],
    locked: bool,
) -> Result<(), BuilderFault>
    ensures addressable { OnOk result (IsAddressable tag) }
    ensures aid { application.new.aid ≡ application.old.aid }
    ensures ok { OnOk result (TakesEntry tag value.now application.old.entries
        × (application.new.entries ≡ with_entry tag value.now locked application.old.entries)) }
    ensures err { IfErr result (RefusesEntry tag value.now application.old.entries) }
    ensures stays { OnErr result (application.new.entries ≡ application.old.entries) }
{
    if value.len() > VALUE_LIMIT {
        return Err(BuilderFault::ValueTooLong);
    }
    if value_fault(tag.tag(), value).is_some() {
        return Err(BuilderFault::NotObjects);
    }
    if application.find(tag).is_none() && application.len() >= ENTRY_LIMIT {
        return Err(BuilderFault::Full);
    }
    let copy = application.copied(value)?;
    application.make_room(tag)?;
    application.store(tag, copy, locked);
    Ok(())
}
