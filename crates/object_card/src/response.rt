//! A response, as a place in the card's data.
ghost use Rattle.std.specs.Prelude.{◌≡◌, ◌+◌, ◌<◌, ◌≤◌, ◌++◌, length, take, slice_get, Some, None, IfSome};
ghost use Rattle.object_card.specs.OneStep.{control_information};
ghost use Rattle.object_card.specs.CardFields.{IsResponse, IsWhole, entries_at, left_of, value_at};
ghost use Rattle.t0_core.specs.DataRun.{IsRunAt};

use crate::aid::Aid;
use crate::application::Application;
use std::alloc::Allocator;
use tlv_core::Head;

/// The most bytes before a value, or of the file control information.
const ROOM: usize = 20;

/// A response, or what is left of it: bytes of its own, and then a value of the selected
/// application, if any. `value` is the place of that value, `sent` the number of bytes sent.
#[derive(Clone, Copy, Debug)]
pub struct Response {
    front: [u8; 20],
    len: usize,
    value: Option<usize>,
    sent: usize,
}

impl Response {
    /// The whole file control information of an application.
    pub(crate) fn information(aid: Aid) -> Response
        ensures { IsWhole result (control_information aid) None }
    {
        let bytes = aid.bytes();
        let len = bytes.len() as u8;
        Response::new(&[0x6F, len + 2, 0x84, len], bytes)
    }

    /// The whole data object with this head, whose value is at this place. For speed the head is
    /// copied with its padding, since copying six bytes is faster than copying a varying number.
    pub(crate) fn object(head: &Head, place: usize) -> Response
        ensures { IsWhole result head.now (Some place) }
    {
        let mut front = [0; ROOM];
        front[..6].copy_from_slice(&head.padded());
        Response {
            front,
            len: head.bytes().len(),
            value: Some(place),
            sent: 0,
        }
    }

    fn new(first: &[u8], second: &[u8]) -> Response
        requires { length first.now + length second.now ≤ 20 }
        ensures { IsWhole result (first.now ++ second.now) None }
    {
        let mut front = [0; ROOM];
        let len = first.len() + second.len();
        front[..first.len()].copy_from_slice(first);
        front[first.len()..len].copy_from_slice(second);
        Response {
            front,
            len,
            value: None,
            sent: 0,
        }
    }

    /// What is left after `count` more bytes are sent.
    pub(crate) fn after(self, count: usize) -> Response
        requires { self.sent + count < 65536 }
        ensures { result ≡ record self { sent = self.sent + count } }
    {
        Response {
            sent: self.sent + count,
            ..self
        }
    }

    /// The number of bytes left.
    pub(crate) fn left<A: Allocator>(
        &self,
        applications: &[Application<A>],
        selected: Option<usize>,
    ) -> usize
        requires selected { IfSome selected (λ place. place < length applications.now) }
        requires response { IsResponse (entries_at applications.now selected) self.now }
        ensures { result ≡ length (left_of (entries_at applications.now selected) self.now) }
    {
        self.len + self.value(applications, selected).len() - self.sent
    }

    /// The byte at index `at` of those left.
    #[inline(always)]
    pub(crate) fn byte<A: Allocator>(
        &self,
        applications: &[Application<A>],
        selected: Option<usize>,
        at: u16,
    ) -> u8
        requires selected { IfSome selected (λ place. place < length applications.now) }
        requires response { IsResponse (entries_at applications.now selected) self.now }
        requires within { at < length (left_of (entries_at applications.now selected) self.now) }
        ensures { slice_get (left_of (entries_at applications.now selected) self.now) at
            ≡ Some result }
    {
        let value = self.value(applications, selected);
        let place = self.sent + at as usize;
        if place < self.len {
            self.front[place]
        } else {
            value[place - self.len]
        }
    }

    /// The bytes from index `at` on of those left, to the end of the front or of the value: at
    /// least one, and at most `most`.
    #[inline(always)]
    pub(crate) fn run<'a, A: Allocator>(
        &'a self,
        applications: &'a [Application<A>],
        selected: Option<usize>,
        at: u16,
        most: usize,
    ) -> &'a [u8]
        requires selected { IfSome selected (λ place. place < length applications.now) }
        requires response { IsResponse (entries_at applications.now selected) self.now }
        requires within { at < length (left_of (entries_at applications.now selected) self.now) }
        requires most { 0 < most }
        ensures run { IsRunAt (left_of (entries_at applications.now selected) self.now) at
            result.now }
        ensures most { length result.now ≤ most }
    {
        let value = self.value(applications, selected);
        let place = self.sent + at as usize;
        if place < self.len {
            first(&self.front[place..self.len], most)
        } else {
            first(&value[place - self.len..], most)
        }
    }

    /// The value that follows the front.
    #[inline(always)]
    fn value<'a, A: Allocator>(
        &self,
        applications: &'a [Application<A>],
        selected: Option<usize>,
    ) -> &'a [u8]
        requires selected { IfSome selected (λ place. place < length applications.now) }
        requires value { IfSome self.now.value (λ place.
            place < length (entries_at applications.now selected)) }
        ensures { result.now ≡ value_at (entries_at applications.now selected) self.now.value }
    {
        match (selected, self.value) {
            (Some(application), Some(place)) => applications[application].value(place),
            _ => &[],
        }
    }
}

/// The first of some bytes, at most `most`.
#[inline(always)]
fn first(bytes: &[u8], most: usize) -> &[u8]
    ensures { result.now ≡ take most bytes.now }
{
    &bytes[..most.min(bytes.len())]
}
