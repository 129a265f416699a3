//! What a character is before the dialogue: part of an answer to reset, a PPS exchange, or neither.
ghost use Rattle.std.specs.Prelude.{◌≡◌, ◌+◌, ◌*◌, ◌<◌, ◌≤◌, get_or};
ghost use Rattle.atr_core.specs.FirstFault.{first_fault};
ghost use Rattle.trace_explain.specs.Openings.{after_answer, announced_by, as_ts, begins_answer, crc_from, has_begun, has_crc, is_block, is_dialogue, is_direct, is_full, is_loose, is_short, protocol_after, protocol_of, role_at, td_behind, turned_by};

use atr_core::{Atr, AtrFault, AtrReason, Convention, Pps};
use t0_core::End;

/// PPSS, the first character of a PPS request and of a response (ISO/IEC 7816-3, 9.2).
pub const PPSS: u8 = 0xFF;

/// TS of the inverse convention as a receiver of the direct one reads it (ISO/IEC 7816-3, 8.1).
const TURNED_TS: u8 = 0x03;

/// Where the characters are that followed the beginning of the trace or the last reset.
#[derive(Clone, Copy)]
pub enum Stage {
    /// An answer may begin: nothing was received, or an answer or a response has ended.
    Ready,
    /// An answer has started.
    Answer,
    /// The card sent an invalid answer, or characters that are not part of one.
    Astray,
    /// A PPS request has started. The card may respond, or begin an answer.
    Request,
    /// The response to it is next, or an answer.
    Asked,
    /// The response has started.
    Response,
    /// The dialogue at T=0 has begun.
    Begun,
    /// The dialogue at T=1 has begun.
    Blocks,
}

/// What a character is.
#[derive(Clone, Copy)]
pub enum Role {
    /// TS of an answer whose characters this convention turns.
    Ts(Convention),
    /// Another character of an answer.
    Answer,
    /// The first character of a PPS request.
    RequestPpss,
    /// Another character of a request.
    Request,
    /// The first character of a response.
    ResponsePpss,
    /// Another character of a response.
    Response,
    /// The card's, and none of these.
    Stray,
    /// Part of the dialogue at T=0.
    Dialogue,
    /// Part of a block of this end, at T=1.
    Block(End),
}

impl Role {
    /// Whether it continues a part that has started.
    pub fn continues(self) -> bool {
        matches!(
            self,
            Role::Answer | Role::Request | Role::ResponsePpss | Role::Response | Role::Block(_)
        )
    }

    /// Whether it is the card's, and of no part.
    pub fn is_stray(self) -> bool {
        matches!(self, Role::Stray)
    }

    /// Whether it is part of a block.
    pub fn is_block(self) -> bool
        ensures { result ≡ is_block self }
    {
        matches!(self, Role::Block(_))
    }

    /// Whether it is part of the dialogue at T=0.
    pub fn is_dialogue(self) -> bool
        ensures { result ≡ is_dialogue self }
    {
        matches!(self, Role::Dialogue)
    }
}

impl Stage {
    /// Whether the dialogue has begun.
    pub fn has_begun(self) -> bool
        ensures { result ≡ has_begun self }
    {
        matches!(self, Stage::Begun)
    }

    /// Whether a header that begins here is loose: it follows bytes that are neither a whole answer
    /// nor PPS.
    pub fn is_loose(self) -> bool
        ensures { result ≡ is_loose self }
    {
        matches!(self, Stage::Answer | Stage::Astray | Stage::Response)
    }
}

/// Returns what a character of this end is. `may_ask`: the terminal may ask by PPS, since an answer
/// without turned characters has begun.
pub fn role_at(stage: Stage, may_ask: bool, from: End, byte: u8) -> Role
    ensures { result ≡ role_at stage may_ask from byte }
{
    match (from, stage) {
        (_, Stage::Begun) => Role::Dialogue,
        (_, Stage::Blocks) => Role::Block(from),
        (End::Terminal, Stage::Request) => Role::Request,
        (End::Terminal, _) if may_ask && byte == PPSS => Role::RequestPpss,
        (End::Terminal, _) => Role::Dialogue,
        (End::Card, Stage::Answer) => Role::Answer,
        (End::Card, Stage::Astray) => Role::Stray,
        (End::Card, Stage::Response) => Role::Response,
        (End::Card, Stage::Request | Stage::Asked) if byte == PPSS => Role::ResponsePpss,
        (End::Card, _) => as_ts(byte),
    }
}

/// Returns what a character of the card is where an answer may begin.
fn as_ts(byte: u8) -> Role
    ensures { result ≡ as_ts (turned_by byte) }
{
    match turned_by(byte) {
        Some(turned) => Role::Ts(turned),
        None => Role::Stray,
    }
}

/// Returns the convention that turns the characters of an answer that begins with this one. `3B`
/// and `3F` need no turning, and `03` the inverse convention. `None`: no answer begins with it.
pub fn turned_by(byte: u8) -> Option<Convention>
    ensures { result ≡ turned_by byte }
{
    if byte == TURNED_TS {
        Some(Convention::Inverse)
    } else if Convention::of_ts(byte).is_some() {
        Some(Convention::Direct)
    } else {
        None
    }
}

/// Whether this end may begin an answer to reset with this character: the card may, with `3B`,
/// `3F` or `03`. `03` is `3F` as the direct convention reads it.
pub fn begins_answer(from: End, byte: u8) -> bool
    ensures { result ≡ begins_answer from byte }
{
    matches!(from, End::Card) && turned_by(byte).is_some()
}

/// Whether characters of this convention need no turning.
pub fn is_direct(turned: Convention) -> bool
    ensures { result ≡ is_direct turned }
{
    matches!(turned, Convention::Direct)
}

/// Returns the stage after these characters of an answer, turned by its convention: `Answer` if
/// more must follow, `Ready` if it is whole, or `Astray` if it is invalid.
pub fn after_answer(bytes: &[u8]) -> Stage
    ensures { result ≡ after_answer (first_fault bytes.now) }
{
    after_reading(Atr::read(bytes).err())
}

/// Returns the stage of an answer with this first fault, or without one.
fn after_reading(fault: Option<AtrFault>) -> Stage
    ensures { result ≡ after_answer fault }
{
    match fault {
        None => Stage::Ready,
        Some(fault) if is_short(fault.reason) => Stage::Answer,
        Some(_) => Stage::Astray,
    }
}

/// Whether the only fault is that characters are missing.
pub fn is_short(reason: AtrReason) -> bool
    ensures { result ≡ is_short reason }
{
    matches!(reason, AtrReason::Cut | AtrReason::CheckMissing)
}

/// Returns the protocol after an answer and the response to a PPS request, or no response. Without
/// one it is that of TA2, or else the first that is offered (ISO/IEC 7816-3, 8.3 and 9).
pub fn protocol_after(answer: &[u8], response: &[u8]) -> u8
    ensures { result ≡ protocol_after answer.now response.now }
{
    match response {
        [_, pps0, ..] => pps0 % 16,
        _ => protocol_of(answer),
    }
}

/// The same without PPS.
fn protocol_of(answer: &[u8]) -> u8
    ensures { result ≡ protocol_of answer.now }
{
    let t0 = at(answer, 1);
    if t0 < 128 {
        return 0;
    }
    let place = td_behind(answer, 1);
    let td1 = at(answer, place);
    if td1 / 16 % 2 == 1 {
        at(answer, place + 1) % 16
    } else {
        td1 % 16
    }
}

/// Returns the place of the TD that an indicator (T0 or a TD) at this place announces, if it does.
fn td_behind(answer: &[u8], place: usize) -> usize
    requires { place < 4_096 }
    ensures { result ≡ td_behind answer.now place }
{
    place + 1 + announced_by(at(answer, place))
}

/// Returns how many of TA, TB and TC an indicator announces.
fn announced_by(indicator: u8) -> usize
    ensures is { result ≡ announced_by indicator }
    ensures few { result ≤ 3 }
{
    usize::from(indicator / 16 % 2)
        + usize::from(indicator / 32 % 2)
        + usize::from(indicator / 64 % 2)
}

/// Whether blocks have CRC after this answer: bit 1 of the first TC for T=1, after TD2 or a later
/// TD.
pub fn has_crc(answer: &[u8]) -> bool
    ensures { result ≡ has_crc answer.now }
{
    let td1 = td_behind(answer, 1);
    if at(answer, 1) < 128 {
        return false;
    }
    if at(answer, td1) < 128 {
        return false;
    }
    crc_from(answer.len().min(33), answer, td_behind(answer, td1))
}

/// The same, if at most this many TDs follow, the first of them at this place.
fn crc_from(tds: usize, answer: &[u8], place: usize) -> bool
    requires { place + 4 * tds < 4_096 }
    ensures { result ≡ crc_from tds answer.now place }
{
    if tds == 0 {
        return false;
    }
    let td = at(answer, place);
    if td % 16 == 1 && td / 64 % 2 == 1 {
        return at(answer, place + announced_by(td)) % 2 == 1;
    }
    td >= 128 && crc_from(tds - 1, answer, td_behind(answer, place))
}

/// Returns the character at this place, or 0.
fn at(bytes: &[u8], place: usize) -> u8
    ensures { result ≡ get_or bytes.now place 0 }
{
    bytes.get(place).copied().unwrap_or(0)
}

/// Whether a request or response has as many characters as it announces.
pub fn is_full(bytes: &[u8]) -> bool
    ensures { result ≡ is_full bytes.now }
{
    match bytes {
        [_, pps0, ..] => bytes.len() == Pps::size(*pps0),
        _ => false,
    }
}
