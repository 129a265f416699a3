//! The status after the bytes of a response are sent.
ghost use Rattle.std.specs.Prelude.{◌≡◌, Some, None, if◌then◌else◌, ◌==◌};
ghost use Rattle.t0_core.specs.Meaning.{IsSending, Decides, answered_with};
ghost use Rattle.object_card.specs.CardMeaning.{Does};
ghost use Rattle.object_card.specs.CardView.{standing_chain};
ghost use Rattle.object_card.specs.ViewState.{state_seen, IsStandingView, prepared_seen, FitsView};

use crate::ready::Ready;
use crate::response::Response;
use crate::status_words::announcing;
use crate::view::View;
use apdu_core::{Status, count};
use std::alloc::Allocator;

/// The status after the bytes are sent, and what is prepared.
pub(crate) fn sent<A: Allocator>(view: &View<A>, ready: Ready) -> (Ready, Status)
    requires standing { IsStandingView view.now }
    requires fits { FitsView view.now ready }
    requires sends { IsSending (prepared_seen view.now ready) (λ ask bytes. Unit {0}) }
    ensures decided { IsSending (prepared_seen view.now ready) (λ ask bytes.
        Decides Does (state_seen view.now) ask.cut (answered_with ask bytes result.1)
        (prepared_seen view.now result.0)) }
    ensures fits { FitsView view.now result.0 }
    ensures keeps { standing_chain view.now.chain.now result.0 ≡ view.now.chain.now }
{
    let Ready::Sends {
        p3,
        cut,
        response,
        ..
    } = ready
    else {
        unreachable!()
    };
    let rest = response.after(count(p3) as usize);
    let left = rest.left(view.applications, view.selected);
    let response = unless_sent(left, rest);
    (Ready::Leaves { response }, announcing(left, cut))
}

/// The pending response if `left` bytes of it are left.
fn unless_sent(left: usize, rest: Response) -> Option<Response>
    ensures { result ≡ (if left == 0 then None else Some rest) }
{
    if left == 0 { None } else { Some(rest) }
}
