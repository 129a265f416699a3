//! SELECT: finds the application with an identifier, and decides the answer.
ghost use Rattle.std.specs.Prelude.{◌≡◌, Some, None, ◌<◌, length, true, MatchOption};
ghost use Rattle.t0_core.specs.Meaning.{Decides, taken_with};
ghost use Rattle.object_card.specs.CardMeaning.{Does};
ghost use Rattle.object_card.specs.CardFields.{applications_of, aid_at};
ghost use Rattle.object_card.specs.CardView.{standing_chain, IsAsked};
ghost use Rattle.object_card.specs.Refusals.{is_select};
ghost use Rattle.object_card.specs.Tables.{entries_in};
ghost use Rattle.object_card.specs.ViewState.{state_seen, IsStandingView, prepared_seen, FitsView};

use crate::application::Application;
use crate::ready::Ready;
use crate::response::Response;
use crate::status_words::{NO_APPLICATION, announcing, status};
use crate::view::View;
use apdu_core::{Header, Status};
use std::alloc::Allocator;

/// The status of a SELECT of this identifier, and what is prepared.
pub(crate) fn select<A: Allocator>(
    view: &View<A>,
    header: Header,
    aid: &[u8],
    cut: u16,
) -> (Ready, Status)
    requires standing { IsStandingView view.now }
    requires asked { IsAsked (state_seen view.now) header (length aid.now) cut }
    requires select { is_select header ≡ true }
    ensures decided { Decides Does (state_seen view.now) cut
        (taken_with (record { header = header; p3 = length aid.now; cut = cut }) aid.now result.1)
        (prepared_seen view.now result.0) }
    ensures fits { FitsView view.now result.0 }
    ensures keeps { standing_chain view.now.chain.now result.0 ≡ view.now.chain.now }
{
    let Some(application) = find(view.applications, aid) else {
        return (Ready::Leaves { response: None }, status(NO_APPLICATION));
    };
    let response = Response::information(view.applications[application].aid());
    let left = response.left(view.applications, Some(application));
    let ready = Ready::Selects {
        application,
        response,
    };
    (ready, announcing(left, cut))
}

/// The place of the application with this identifier.
pub(crate) fn find<A: Allocator>(applications: &[Application<A>], aid: &[u8]) -> Option<usize>
    ensures { MatchOption result (entries_in aid.now (applications_of applications.now) ≡ None)
        (λ place. (place < length applications.now)
        × (aid_at applications.now (Some place) ≡ Some aid.now)) }
{
    for place in 0..applications.len() {
        if aid == applications[place].aid().bytes() {
            return Some(place);
        }
    }
    None
}
