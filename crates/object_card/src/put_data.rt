//! PUT DATA: whether a value is put, the memory for it, and its place.
ghost use Rattle.std.specs.Prelude.{◌≡◌, ◌<◌, ◌≤◌, length, true, false, None, is_some, IfSome, ◌≢◌, IfNone, IfOk, IfErr};
ghost use Rattle.std.specs.Option.{option_map};
ghost use Rattle.object_card.specs.Tables.{is_locked, value_under};
ghost use Rattle.object_card.specs.PutData.{CanPut, IsPut, CanBeStored, IsStored, DoesNotStore};
ghost use Rattle.apdu_core.specs.StatusWord.{ok};
ghost use Rattle.object_card.specs.OneStep.{PutStatus};
ghost use Rattle.object_card.specs.CardFields.{HasPlace};
ghost use Rattle.object_card.specs.CardView.{NewValue};

use crate::application::Application;
use crate::command_data::Taken;
use crate::limits::{ENTRY_LIMIT, VALUE_LIMIT};
use crate::lookup::named;
use crate::ready::{Put, Ready};
use crate::status_words::{DONE, MEMORY_FAILURE, TABLE_FULL, WRONG_DATA, status};
use apdu_core::{Header, Status};
use std::alloc::Allocator;
use tlv_core::{ObjectTag, value_fault};

/// The status of a PUT DATA of this value, and what is prepared.
pub(crate) fn put_value<A: Allocator + Copy>(
    applications: &mut [Application<A>],
    selected: usize,
    header: Header,
    value: &[u8],
) -> Taken<A>
    requires within { selected < length applications.old }
    requires can { CanPut applications.old selected header value.now }
    ensures { IsPut applications.old selected header value.now applications.new result.status
        result.ready (option_map (λ put. (put.tag, put.value.items)) result.put) }
{
    let tag = named(header).unwrap();
    let application = &mut applications[selected];
    match value_to_put(application, tag, value) {
        Ok(value) => Taken {
            status: status(DONE),
            ready: Ready::Stores,
            put: Some(Put { tag, value }),
        },
        Err(status) => not_put(status),
    }
}

/// The result if a value is not put: nothing stays pending.
fn not_put<A: Allocator>(status: Status) -> Taken<A>
    ensures status { result.status ≡ status }
    ensures ready { result.ready ≡ Ready.Leaves None }
    ensures put { option_map {U = NewValue} (λ put. (put.tag, put.value.items)) result.put ≡ None }
{
    Taken {
        ready: Ready::Leaves { response: None },
        status,
        put: None,
    }
}

/// Copies the value and allocates a place for its tag, or returns the status of why it is not put.
pub(crate) fn value_to_put<A: Allocator + Copy>(
    application: &mut Application<A>,
    tag: ObjectTag,
    value: &[u8],
) -> Result<Vec<u8, A>, Status>
    requires free { is_locked tag application.old.entries ≡ false }
    requires within { length value.now ≤ VALUE_LIMIT }
    ensures aid { application.new.aid ≡ application.old.aid }
    ensures entries { application.new.entries ≡ application.old.entries }
    ensures held { is_some (value_under tag application.old.entries) ≡ true →
        application.new ≡ application.old }
    ensures ok { IfOk result (λ copy. (copy.items ≡ value.now) × HasPlace application.new tag
        × PutStatus application.old.entries tag value.now ok) }
    ensures err { IfErr result (λ status.
        DoesNotStore application.old.entries tag value.now status) }
{
    if let Some(status) = refused_value(application, tag, value) {
        return Err(status);
    }
    if application.make_room(tag).is_err() {
        return Err(status(MEMORY_FAILURE));
    }
    let Ok(copy) = application.copied(value) else {
        return Err(status(MEMORY_FAILURE));
    };
    Ok(copy)
}

/// Why a value within the limit is refused, as a status, if it is.
fn refused_value<A: Allocator>(
    application: &Application<A>,
    tag: ObjectTag,
    value: &[u8],
) -> Option<Status>
    requires free { is_locked tag application.now.entries ≡ false }
    requires within { length value.now ≤ VALUE_LIMIT }
    ensures stored { IfNone result (PutStatus application.now.entries tag value.now ok) }
    ensures refused { IfSome result (λ status. (status ≢ ok)
        × PutStatus application.now.entries tag value.now status) }
{
    if value_fault(tag.tag(), value).is_some() {
        return Some(status(WRONG_DATA));
    }
    if application.len() >= ENTRY_LIMIT && application.find(tag).is_none() {
        return Some(status(TABLE_FULL));
    }
    None
}

/// Stores the value to put, if there is one.
pub(crate) fn store<A: Allocator>(
    applications: &mut [Application<A>],
    selected: Option<usize>,
    put: Option<Put<A>>,
)
    requires { CanBeStored applications.old selected
        (option_map (λ p. (p.tag, p.value.items)) put) }
    ensures { IsStored applications.old selected (option_map (λ p. (p.tag, p.value.items)) put)
        applications.new }
{
    if let Some(put) = put {
        let application = &mut applications[selected.unwrap()];
        application.store(put.tag, put.value, false);
    }
}
