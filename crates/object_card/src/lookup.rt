//! Finds what a command names: the selected application, the tag of P1-P2, and the data object of a
//! GET DATA.
ghost use Rattle.std.specs.Prelude.{◌≡◌, IfSome};
ghost use Rattle.std.specs.Option.{option_map, option_copied};
ghost use Rattle.object_card.specs.CardFields.{IsResponse, held_at, left_of};
ghost use Rattle.object_card.specs.Refusals.{named_tag, object_asked};
ghost use Rattle.object_card.specs.ViewState.{state_seen, entries_seen, IsStandingView};

use crate::application::Application;
use crate::response::Response;
use crate::view::View;
use apdu_core::Header;
use std::alloc::Allocator;
use tlv_core::{ObjectTag, head};

/// The selected application.
pub(crate) fn chosen<'a, A: Allocator>(
    applications: &'a [Application<A>],
    selected: Option<usize>,
) -> Option<&'a Application<A>>
    ensures { option_copied result ≡ held_at applications.now selected }
{
    applications.get(selected?)
}

/// The tag that P1-P2 name.
pub(crate) fn named(header: Header) -> Option<ObjectTag>
    ensures { result ≡ named_tag header.p1 header.p2 }
{
    ObjectTag::from_p1p2(header.p1, header.p2)
}

/// The data object that a GET DATA asks for, as a whole response.
pub(crate) fn object_asked<A: Allocator>(view: &View<A>, header: Header) -> Option<Response>
    requires standing { IsStandingView view.now }
    ensures response { IfSome result (IsResponse (entries_seen view.now)) }
    ensures asked { option_map (left_of (entries_seen view.now)) result
        ≡ object_asked (state_seen view.now) header }
{
    let application = chosen(view.applications, view.selected)?;
    let tag = named(header)?;
    let Some(place) = application.find(tag) else {
        return None;
    };
    let len = application.value(place).len();
    Some(Response::object(&head(tag.tag(), len as u16), place))
}
