//! The verdict on a header.
ghost use Rattle.std.specs.Prelude.{◌≡◌, None, if◌then◌else◌, ◌==◌, ◌≤◌, false, IfSome, ◌&&◌, ◌||◌, [], true, unwrap_or};
ghost use Rattle.object_card.specs.CardMeaning.{Does};
ghost use Rattle.object_card.specs.CardFields.{IsResponse, left_of};
ghost use Rattle.object_card.specs.CardView.{standing_chain};
ghost use Rattle.std.specs.Option.{option_map};
ghost use Rattle.apdu_core.specs.HeaderBytes.{ins_is_valid};
ghost use Rattle.t0_core.specs.CardContract.{IsRefusal, Judges, Permits};
ghost use Rattle.object_card.specs.Instructions.{MayReceive, MaySend};
ghost use Rattle.object_card.specs.Refusals.{is_get, is_get_response, object_asked, to_send};
ghost use Rattle.object_card.specs.ViewState.{state_seen, entries_seen, IsStandingView, prepared_seen, FitsView};

use crate::header_refusals::refusal;
use crate::instructions::{GET_RESPONSE, Instruction};
use crate::lookup::object_asked;
use crate::ready::Ready;
use crate::response::Response;
use crate::status_words::FEWER;
use crate::view::View;
use apdu_core::{Header, Status};
use std::alloc::Allocator;
use t0_core::Verdict;

/// The verdict on a header, and what is prepared.
pub(crate) fn judged<A: Allocator>(
    view: &View<A>,
    header: Header,
    p3: u8,
    cut: u16,
) -> (Verdict, Ready)
    requires standing { IsStandingView view.now }
    requires cut { (1 ≤ cut) × (cut ≤ 256) }
    ensures judged { Judges Does (state_seen view.now)
        (record { header = header; p3 = p3; cut = cut }) result.0
        (prepared_seen view.now result.1) }
    ensures fits { FitsView view.now result.1 }
    ensures keeps { standing_chain view.now.chain.now result.1 ≡ view.now.chain.now }
    ensures invalid { ins_is_valid header.ins ≡ false → IsRefusal result.0 }
    ensures permitted { Permits MayReceive MaySend header result.0 }
{
    let sends = to_send(view, header);
    if let Some(status) = refusal(view, header, p3, &sends) {
        let response = kept(view.response, header, &status);
        return (Verdict::Refuse(status), Ready::Leaves { response });
    }
    if Instruction::of(header.ins).unwrap().takes_data() {
        return (Verdict::Receive, Ready::Receives { header, p3, cut });
    }
    let response = sends.unwrap();
    let ready = Ready::Sends {
        header,
        p3,
        cut,
        response,
    };
    (Verdict::Send, ready)
}

/// The response that stays pending after a refusal: only after `6CXX` to a GET RESPONSE.
fn kept(response: Option<Response>, header: Header, status: &Status) -> Option<Response>
    ensures { result
        ≡ (if is_get_response header && (status.now.0 == 0x6C) then response else None) }
{
    if header.ins == GET_RESPONSE && status.sw1() == FEWER {
        response
    } else {
        None
    }
}

/// The response that a GET DATA or a GET RESPONSE sends.
fn to_send<A: Allocator>(view: &View<A>, header: Header) -> Option<Response>
    requires standing { IsStandingView view.now }
    ensures response { IfSome result (IsResponse (entries_seen view.now)) }
    ensures asked { header.ins ≡ 0xCA →
        option_map (left_of (entries_seen view.now)) result
        ≡ object_asked (state_seen view.now) header }
    ensures left { (is_get header || is_get_response header) ≡ true →
        unwrap_or (option_map (left_of (entries_seen view.now)) result) []
        ≡ to_send (state_seen view.now) header }
{
    match Instruction::of(header.ins) {
        Some(Instruction::GetData) => object_asked(view, header),
        Some(Instruction::GetResponse) => view.response,
        Some(Instruction::Select | Instruction::PutData) | None => None,
    }
}
