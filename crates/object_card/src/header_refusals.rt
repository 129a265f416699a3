//! Why a header is refused.
ghost use Rattle.std.specs.Prelude.{◌≡◌, Some, None, if◌then◌else◌, true, IfSome, ℕ, nat_lt};
ghost use Rattle.object_card.specs.CardFields.{IsResponse, left_of};
ghost use Rattle.std.specs.Option.{option_map};
ghost use Rattle.object_card.specs.Refusals.{class_is_known, instruction_is_known, parameters_fit, first_of_them, object_asked, refusal};
ghost use Rattle.apdu_core.specs.StatusWord.{count};
ghost use Rattle.apdu_core.specs.declared.header.Header.{Header};
ghost use Rattle.object_card.specs.State.{CardState};
ghost use Rattle.object_card.specs.HeaderReasons.{of_form, of_state};
ghost use Rattle.object_card.specs.ViewState.{state_seen, entries_seen, IsStandingView};

use crate::instructions::{CHAINED, GET_DATA, Instruction, PUT_DATA};
use crate::limits::VALUE_LIMIT;
use crate::lookup::{chosen, named};
use crate::response::Response;
use crate::status_words::{
    CHAIN_PENDING, FEWER, LOCKED, NO_OBJECT, NOT_CHAINED, NOT_NOW, UNKNOWN_CLASS,
    UNKNOWN_INSTRUCTION, WRONG_LENGTH, WRONG_PARAMETERS, status,
};
use crate::view::View;
use apdu_core::{Header, Status, count};
use std::alloc::Allocator;

/// Why a header is refused, as a status, if it is. `asked` is the object that a GET DATA asks for,
/// if there is one.
pub(crate) fn refusal<A: Allocator>(
    view: &View<A>,
    header: Header,
    p3: u8,
    asked: &Option<Response>,
) -> Option<Status>
    requires standing { IsStandingView view.now }
    requires response { IfSome asked.now (IsResponse (entries_seen view.now)) }
    requires asked { header.ins ≡ 0xCA →
        option_map (left_of (entries_seen view.now)) asked.now
        ≡ object_asked (state_seen view.now) header }
    ensures { result ≡ refusal (state_seen view.now) header p3 }
{
    if !view.chain.accepts(header) {
        return Some(status(CHAIN_PENDING));
    }
    if let Some(status) = form_refusal(header) {
        return Some(status);
    }
    match Instruction::of(header.ins).unwrap() {
        Instruction::Select => select_refusal(p3),
        Instruction::PutData => put_refusal(view, header, p3),
        Instruction::GetData => get_refusal(view, header, p3, asked),
        Instruction::GetResponse => get_response_refusal(view, header, p3),
    }
}

/// Why a header is refused for its form alone, as a status, if it is.
fn form_refusal(header: Header) -> Option<Status>
    ensures { (state : CardState) (p3 : ℕ) → result ≡ first_of_them state header p3 of_form }
{
    if !class_is_known(header) {
        return Some(status(UNKNOWN_CLASS));
    }
    if !instruction_is_known(header) {
        return Some(status(UNKNOWN_INSTRUCTION));
    }
    if header.cla == CHAINED && header.ins != PUT_DATA {
        return Some(status(NOT_CHAINED));
    }
    if !parameters_fit(header) {
        return Some(status(WRONG_PARAMETERS));
    }
    None
}

fn class_is_known(header: Header) -> bool
    ensures { result ≡ class_is_known header }
{
    match header.cla {
        0x00 | CHAINED => true,
        0x80 => header.ins == GET_DATA,
        _ => false,
    }
}

fn instruction_is_known(header: Header) -> bool
    ensures { result ≡ instruction_is_known header }
{
    Instruction::of(header.ins).is_some()
}

fn parameters_fit(header: Header) -> bool
    ensures { result ≡ parameters_fit header }
{
    match Instruction::of(header.ins) {
        Some(Instruction::Select) => header.p1 == 0x04 && header.p2 == 0x00,
        Some(Instruction::GetResponse) => header.p1 == 0x00 && header.p2 == 0x00,
        Some(Instruction::GetData | Instruction::PutData) | None => named(header).is_some(),
    }
}

fn select_refusal(p3: u8) -> Option<Status>
    ensures { (state : CardState) (header : Header) → header.ins ≡ 0xA4 →
        result ≡ first_of_them state header p3 of_state }
{
    if p3 < 5 || p3 > 16 {
        Some(status(WRONG_LENGTH))
    } else {
        None
    }
}

fn put_refusal<A: Allocator>(view: &View<A>, header: Header, p3: u8) -> Option<Status>
    requires standing { IsStandingView view.now }
    requires ins { header.ins ≡ 0xDA }
    requires fits { parameters_fit header ≡ true }
    ensures { result ≡ first_of_them (state_seen view.now) header p3 of_state }
{
    let Some(application) = chosen(view.applications, view.selected) else {
        return Some(status(NOT_NOW));
    };
    let tag = named(header).unwrap();
    if application.is_locked(tag) {
        return Some(status(LOCKED));
    }
    if view.chain.len() + p3 as usize > VALUE_LIMIT {
        return Some(status(WRONG_LENGTH));
    }
    None
}

fn get_refusal<A: Allocator>(
    view: &View<A>,
    header: Header,
    p3: u8,
    asked: &Option<Response>,
) -> Option<Status>
    requires standing { IsStandingView view.now }
    requires ins { header.ins ≡ 0xCA }
    requires response { IfSome asked.now (IsResponse (entries_seen view.now)) }
    requires asked { option_map (left_of (entries_seen view.now)) asked.now
        ≡ object_asked (state_seen view.now) header }
    ensures { result ≡ first_of_them (state_seen view.now) header p3 of_state }
{
    if chosen(view.applications, view.selected).is_none() {
        return Some(status(NOT_NOW));
    }
    let Some(response) = asked else {
        return Some(status(NO_OBJECT));
    };
    too_much(response.left(view.applications, view.selected), p3)
}

fn get_response_refusal<A: Allocator>(view: &View<A>, header: Header, p3: u8) -> Option<Status>
    requires standing { IsStandingView view.now }
    requires ins { header.ins ≡ 0xC0 }
    ensures { result ≡ first_of_them (state_seen view.now) header p3 of_state }
{
    let Some(response) = view.response else {
        return Some(status(NOT_NOW));
    };
    too_much(response.left(view.applications, view.selected), p3)
}

/// The status if more bytes are asked for than are left.
fn too_much(left: usize, p3: u8) -> Option<Status>
    ensures { result ≡ (if nat_lt left (count p3) then Some (0x6C, left) else None) }
{
    if left < count(p3) as usize {
        Some(status((FEWER, left as u8)))
    } else {
        None
    }
}
