//! Answers to reset: the exports that read them.
ghost use Rattle.std.specs.Prelude.{◌≡◌, ◌≤◌, ◌+◌, ◌++◌, drop, length, replicate};
ghost use Rattle.atr_core.specs.Answer.{IsAnswer, characters, check_field, names_other_than_0};
ghost use Rattle.card_c.specs.AtrCalls.{ReadsAtr, atr_recorded, blocks_recorded, bwt_cycles, bwt_etu, category_number, class_bits, clock_stop_number, convention_number, edc_size, fi_value, fi_max_khz, historical_place, mode_numbers};

use crate::atr_record::{AtrRecord, BlockRecord};
use crate::code;
use atr_core::{
    Atr, BlockWaitingTime, Category, Classes, ClockStop, Convention, Edc, Fi, Mode, Rfu,
    TypedGroup, block_guard_time,
};

/// The most protocols that an answer offers: T=0 to T=14.
const MOST_PROTOCOLS: usize = 15;

/// Reads an answer to reset, which is all of `bytes`, and writes what it says to `atr`.
#[unsafe(no_mangle)]
pub extern "C" fn galliumtoad_atr_read(bytes: &[u8], atr: &mut AtrRecord, place: &mut usize) -> i32
    ensures { ReadsAtr bytes.now atr.old place.old result atr.new place.new }
{
    match Atr::read(bytes) {
        Ok(answer) => {
            *atr = recorded(&answer, bytes.len());
            code::OK
        }
        Err(fault) => {
            *place = fault.place;
            code::of_atr(fault.reason)
        }
    }
}

/// Returns what an answer of `size` bytes says. `size` must be the number of its characters.
fn recorded(answer: &Atr, size: usize) -> AtrRecord
    requires answer { IsAnswer answer.now }
    requires size { length (characters answer.now) ≡ size }
    ensures { result ≡ atr_recorded answer.now }
{
    let protocols = answer.protocols();
    let (fi, max_khz) = fi_parts(answer.fi());
    let guard = answer.guard_time(0);
    let (specific, specific_t, can_change, implicit) = mode_parts(answer.mode());
    AtrRecord {
        length: size,
        historical: historical_place(answer, size),
        historical_count: answer.historical().len(),
        category: category_number(answer.category()),
        convention: convention_number(answer.convention()),
        protocol_count: protocols.len() as u8,
        protocols: listed(&protocols),
        names_15: u8::from(answer.names_15()),
        rate_code: answer.rate_code(),
        di: answer.di().unwrap_or(0),
        extra_guard_time: answer.extra_guard_time(),
        waiting_integer: answer.waiting_integer().unwrap_or(0),
        specific,
        specific_t,
        can_change,
        implicit,
        clock_stop: clock_stop_number(answer.clock_stop()),
        classes: class_bits(answer.classes()),
        fi,
        max_khz,
        guard_etu: guard.etu,
        guard_etu_t1: answer.guard_time(1).etu,
        guard_indicated: guard.indicated,
        waiting_time: answer.waiting_time().unwrap_or(0),
        t1: blocks(answer),
    }
}

/// Returns what an answer says about T=1.
fn blocks(answer: &Atr) -> BlockRecord
    ensures { result ≡ blocks_recorded answer.now }
{
    let (bwt_etu, bwt_cycles) = block_parts(answer.block_waiting_time(1));
    BlockRecord {
        ifsc: answer.ifsc().unwrap_or(0),
        edc: edc_size(answer.edc()),
        bwi: answer.block_waiting_integer().unwrap_or(0),
        cwi: answer.character_waiting_integer(),
        cwt_etu: answer.character_waiting_time(),
        bwt_etu,
        bgt_etu: block_guard_time(),
        bwt_cycles,
    }
}

/// Returns where the historical bytes of an answer begin. Only TCK follows them.
fn historical_place(answer: &Atr, size: usize) -> usize
    requires { length (characters answer.now) ≡ size }
    ensures { result ≡ historical_place answer.now }
{
    size - (answer.historical().len() + check_size(answer))
}

/// Returns the number of check bytes at the end.
fn check_size(answer: &Atr) -> usize
    ensures { result ≡ length (check_field answer.now) }
{
    if names_other_than_0(answer.others()) {
        1
    } else {
        0
    }
}

/// Returns whether the answer names a T other than 0, so that it ends in TCK.
fn names_other_than_0(others: &[TypedGroup]) -> bool
    ensures { result ≡ names_other_than_0 others.now }
{
    others.iter().any(|named| named.t != 0)
}

/// Returns these protocols, and zeros after them.
fn listed(protocols: &[u8]) -> [u8; MOST_PROTOCOLS]
    requires few { length protocols.now ≤ 15 }
    ensures { result ≡ protocols.now ++ drop (length protocols.now) (replicate 15 0) }
{
    let mut list = [0; MOST_PROTOCOLS];
    list[..protocols.len()].copy_from_slice(protocols);
    list
}

/// Returns the number of a category.
fn category_number(category: Category) -> u8
    ensures { result ≡ category_number category }
{
    match category {
        Category::Absent => 0,
        Category::StatusBehind => 1,
        Category::DirReference => 2,
        Category::Objects => 3,
        Category::Reserved => 4,
        Category::Proprietary => 5,
    }
}

/// Returns the number of a convention.
fn convention_number(convention: Convention) -> u8
    ensures { result ≡ convention_number convention }
{
    match convention {
        Convention::Direct => 0,
        Convention::Inverse => 1,
    }
}

/// Returns Fi and the highest clock frequency in kHz, or zeros if the code is reserved.
fn fi_parts(fi: Result<Fi, Rfu>) -> (u16, u16)
    ensures { result ≡ (fi_value fi, fi_max_khz fi) }
{
    match fi {
        Ok(fi) => (fi.value, fi.max_khz),
        Err(_) => (0, 0),
    }
}

/// Returns the numbers of a mode: 1 for specific mode, and its values.
fn mode_parts(mode: Mode) -> (u8, u8, u8, u8)
    ensures { result ≡ mode_numbers mode }
{
    match mode {
        Mode::Negotiable => (0, 0, 0, 0),
        Mode::Specific {
            t,
            can_change,
            is_implicit,
        } => (1, t, u8::from(can_change), u8::from(is_implicit)),
    }
}

/// Returns the number for whether the clock may stop.
fn clock_stop_number(stop: ClockStop) -> u8
    ensures { result ≡ clock_stop_number stop }
{
    match stop {
        ClockStop::NotSupported => 0,
        ClockStop::AtLow => 1,
        ClockStop::AtHigh => 2,
        ClockStop::AtEither => 3,
    }
}

/// Returns the sum of 1 for class A, 2 for B and 4 for C, or 0 if the code is reserved.
fn class_bits(classes: Result<Classes, Rfu>) -> u8
    ensures { result ≡ class_bits classes }
{
    match classes {
        Ok(classes) => u8::from(classes.a) + 2 * u8::from(classes.b) + 4 * u8::from(classes.c),
        Err(_) => 0,
    }
}

/// Returns the length of an error detection code in bytes, or 0 if the code is reserved.
fn edc_size(edc: Result<Edc, Rfu>) -> u8
    ensures { result ≡ edc_size edc }
{
    match edc {
        Ok(Edc::Lrc) => 1,
        Ok(Edc::Crc) => 2,
        Err(_) => 0,
    }
}

/// Returns the etu and the clock cycles of BWT, or zeros if BWI is reserved.
fn block_parts(time: Result<BlockWaitingTime, Rfu>) -> (u16, u64)
    ensures { result ≡ (bwt_etu time, bwt_cycles time) }
{
    match time {
        Ok(time) => (time.etu, time.cycles),
        Err(_) => (0, 0),
    }
}
