//! The data of a SELECT or a PUT DATA, and the answer to them.
ghost use Rattle.std.specs.Prelude.{◌≡◌, ◌≢◌, None, length, true, false};
ghost use Rattle.t0_core.specs.Meaning.{Decides, IsReceiving, taken_with};
ghost use Rattle.object_card.specs.CardMeaning.{Does};
ghost use Rattle.object_card.specs.CardFields.{state_of};
ghost use Rattle.object_card.specs.CardView.{IsAsked, IsReady, IsStanding, prepared_of, standing_chain, IsCard};
ghost use Rattle.object_card.specs.PutData.{TakesPut};
ghost use Rattle.object_card.specs.Refusals.{is_put};
ghost use Rattle.std.specs.Option.{option_map};

use crate::application::Application;
use crate::instructions::{CHAINED, SELECT};
use crate::pending_chain::{join, pending_len, restore};
use crate::put_data::put_value;
use crate::ready::{Put, Ready};
use crate::response::Response;
use crate::select_command::select;
use crate::status_words::{DONE, status};
use crate::view::View;
use apdu_core::{Chain, Header, Status};
use std::alloc::Allocator;

/// The decision on the data to the card.
#[derive(Drop)]
pub(crate) struct Taken<A: Allocator> {
    pub(crate) status: Status,
    pub(crate) ready: Ready,
    pub(crate) put: Option<Put<A>>,
}

/// Takes the data of a SELECT or a PUT DATA, and decides the answer. It checks the refusals of a
/// put before it allocates anything, and allocates here all that the put needs.
pub(crate) fn take_data<A: Allocator + Copy>(
    applications: &mut [Application<A>],
    selected: Option<usize>,
    chain: &mut Chain<A>,
    response: Option<Response>,
    ready: Ready,
    content: &[u8],
) -> Taken<A>
    requires standing { IsStanding applications.old selected chain.old response }
    requires fits { IsReady applications.old selected chain.old response ready None }
    requires receives { IsReceiving
        (prepared_of applications.old selected chain.old response ready None)
        (λ ask. length content.now ≡ ask.p3) }
    ensures decided { IsReceiving
        (prepared_of applications.old selected chain.old response ready None) (λ ask.
        Decides Does (state_of applications.old selected chain.old response) ask.cut
        (taken_with ask content.now result.status)
        (prepared_of applications.new selected chain.new response result.ready
        (option_map (λ put. (put.tag, put.value.items)) result.put))) }
    ensures fits { IsCard applications.new selected chain.new response result.ready
        (option_map (λ put. (put.tag, put.value.items)) result.put) }
    ensures keeps { state_of applications.new selected (standing_chain chain.new result.ready)
        response ≡ state_of applications.old selected chain.old response }
{
    let Ready::Receives { header, cut, .. } = ready else {
        unreachable!()
    };
    if header.ins == SELECT {
        let view = View {
            applications,
            selected,
            chain,
            response,
        };
        let (ready, status) = select(&view, header, content, cut);
        return Taken {
            status,
            ready,
            put: None,
        };
    }
    take_put(
        applications,
        selected,
        chain,
        response,
        header,
        cut,
        content,
    )
}

/// Takes the data of a PUT DATA. A piece joins the chain. The last one completes the value to put;
/// the chain then stays unchanged until SW2 is sent.
fn take_put<A: Allocator + Copy>(
    applications: &mut [Application<A>],
    selected: Option<usize>,
    chain: &mut Chain<A>,
    response: Option<Response>,
    header: Header,
    cut: u16,
    content: &[u8],
) -> Taken<A>
    requires standing { IsStanding applications.old selected chain.old response }
    requires asked { IsAsked (state_of applications.old selected chain.old response) header
        (length content.now) cut }
    requires put { is_put header ≡ true }
    ensures { TakesPut applications.old applications.new selected chain.old chain.new response
        header cut content.now result.status result.ready
        (option_map (λ put. (put.tag, put.value.items)) result.put) }
{
    let before = pending_len(chain);
    join(chain, header, content);
    if is_piece(header) {
        return Taken {
            status: status(DONE),
            ready: Ready::Joins { before },
            put: None,
        };
    }
    let taken = put_value(applications, selected.unwrap(), header, chain.bytes());
    restore(chain, before);
    taken
}

/// Whether more commands of the chain follow (ISO/IEC 7816-4, 5.1.1.1).
fn is_piece(header: Header) -> bool
    ensures piece { result ≡ true → header.cla ≡ 0x10 }
    ensures last { result ≡ false → header.cla ≢ 0x10 }
{
    header.cla == CHAINED
}
