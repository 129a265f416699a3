//! What a mask hides of a trace, so that the explanation can be passed on.
ghost use Rattle.std.specs.Prelude.{◌≡◌, ◌↔◌, ◌&&◌, ℕ, List, [], None, Some, false, get_or, length, true, IfOk, IfSome, IsSome, IsTrue};
ghost use Rattle.std.specs.List.{Contains};
ghost use Rattle.t0_core.specs.declared.direction.Direction.TheVariants.{FromCard, ToCard};
ghost use Rattle.trace_explain.specs.Boxes.{whole_way};
ghost use Rattle.trace_explain.specs.Secrets.{NamesObject, Shows, ShowsValue, carries_secret, has_secret, is_name, may_be_cut, whole_or_nothing};
ghost use Rattle.trace_explain.specs.Reports.{IsOfCommand};

use crate::describe::names::Names;
use crate::follow::chain::has_more;
use crate::follow::links::{Links, Whole};
use crate::follow::response::waiting;
use crate::follow::story::{header_of, status_of};
use crate::follow::tpdu::Tpdu;
use crate::instructions::{has_messaging, is_secret};
use crate::write::ascii::push_hex_lines;
use crate::write::sheet::Sheet;
use apdu_core::Header;
use std::alloc::{AllocError, Global};
use t0_core::Direction;
use tlv_core::{ObjectTag, Tag};

/// What is shown in place of hidden data.
pub const HIDDEN: &str = "**";

/// What is hidden: nothing; or reference data, bytes of unknown meaning, objects with these tags.
///
/// With tags it also hides data that may be part of such an object: parts of longer data, and data
/// that are not a list of objects. It still shows the name of SELECT, and what GET DATA and PUT
/// DATA move under another tag of a primitive object.
///
/// It also has the names of what is shown.
#[derive(Drop)]
pub struct Mask {
    hides: bool,
    tags: Vec<Tag>,
    /// The names. A new mask has none.
    pub names: Names,
}

/// Why a text is not a list of tags.
#[derive(Clone, Copy)]
pub enum TagsFault {
    /// A part of it is not a tag of one to three bytes.
    Form,
    /// Memory ran out.
    OutOfMemory,
}

impl From<AllocError> for TagsFault {
    fn from(_error: AllocError) -> TagsFault {
        TagsFault::OutOfMemory
    }
}

/// The command whose data a TPDU moves.
#[derive(Clone, Copy)]
pub struct Origin {
    /// The header of the command. For a response in parts it is that of the first command.
    pub header: Header,
    /// Which way the data go.
    pub way: Direction,
    /// Whether an earlier TPDU moved other parts of the data.
    pub continues: bool,
    /// Whether more of the data must follow: of a chain, of a response, or of a TPDU cut off.
    pub goes_on: bool,
    /// Whether the header of the TPDU is loose, so that the data may be anything.
    pub is_loose: bool,
    /// The second byte of the terminal's data, the INS of a command in them; 0 without one.
    pub inner: u8,
}

impl Origin {
    /// The origin of the data that go this way in a TPDU. `None` if its header is cut off.
    pub fn of(tpdu: &Tpdu, links: Links, way: Direction) -> Option<Origin>
        ensures way { IfSome result (λ origin. origin.way ≡ way) }
        ensures own { IfSome result (λ origin. way ≡ ToCard →
            IsOfCommand tpdu.now.header.items origin.header) }
        ensures asked { IfSome links.asker (IsOfCommand tpdu.now.header.items) →
            IfSome result (λ origin. IsOfCommand tpdu.now.header.items origin.header) }
        ensures loose { IfSome result (λ origin. origin.is_loose ≡ tpdu.now.is_loose) }
        ensures inner { IfSome result (λ origin. origin.inner ≡ get_or tpdu.now.moved.items 1 0) }
        ensures whole { length tpdu.now.header.items ≡ 5 → IsSome result }
    {
        let (header, _) = header_of(tpdu)?;
        let header = match (way, links.asker) {
            (Direction::FromCard, Some(asker)) => asker,
            _ => header,
        };
        Some(Origin {
            header,
            way,
            continues: links.continues,
            goes_on: goes_on(tpdu, way),
            is_loose: tpdu.is_loose,
            inner: tpdu.moved.get(1).copied().unwrap_or(0),
        })
    }

    /// The origin of the data that the card returned in one exchange with data of the terminal.
    /// `None` if the header of the TPDU is cut off.
    pub fn of_answer(tpdu: &Tpdu, links: Links) -> Option<Origin>
        ensures way { IfSome result (λ origin. origin.way ≡ FromCard) }
        ensures asked { IfSome links.asker (IsOfCommand tpdu.now.header.items) →
            IfSome result (λ origin. IsOfCommand tpdu.now.header.items origin.header) }
        ensures loose { IfSome result (λ origin. origin.is_loose ≡ tpdu.now.is_loose) }
        ensures whole { length tpdu.now.header.items ≡ 5 → IsSome result }
    {
        let mut origin = Origin::of(tpdu, links, Direction::FromCard)?;
        origin.continues = links.answer_continues;
        Some(origin)
    }

    /// The origin of `bytes`, which are shown together with a TPDU: those of `Links::whole`. `None`
    /// without such data, or if the header of the TPDU is cut off.
    pub fn of_whole(tpdu: &Tpdu, links: Links, bytes: &[u8]) -> Option<Origin>
        ensures way { IfSome result (λ origin. whole_way links.whole ≡ Some origin.way) }
        ensures own { IfSome result (λ origin. origin.way ≡ ToCard →
            IsOfCommand tpdu.now.header.items origin.header) }
        ensures asked { IfSome links.asker (IsOfCommand tpdu.now.header.items) →
            IfSome result (λ origin. IsOfCommand tpdu.now.header.items origin.header) }
        ensures loose { IfSome result (λ origin. origin.is_loose ≡ tpdu.now.is_loose) }
        ensures inner { IfSome result (λ origin. origin.inner ≡ get_or bytes.now 1 0) }
    {
        let way = match links.whole {
            Whole::None => return None,
            Whole::Value(_) => Direction::ToCard,
            Whole::Response(_) => Direction::FromCard,
        };
        let mut origin = Origin::of(tpdu, links, way)?;
        origin.continues = false;
        origin.goes_on = false;
        origin.inner = bytes.get(1).copied().unwrap_or(0);
        Some(origin)
    }
}

/// How much of some data is shown.
#[derive(Clone, Copy)]
pub enum Shown {
    /// All.
    All,
    /// Objects, without the values that the mask hides. Nothing if the data are no list of them.
    Objects,
    /// Nothing.
    Nothing,
}

impl Mask {
    /// The mask that hides nothing.
    pub fn none(alloc: Global) -> Mask
        ensures { result.hides ≡ false }
    {
        Mask {
            hides: false,
            tags: Vec::new(alloc),
            names: Names::none(alloc),
        }
    }

    /// The mask that hides reference data and bytes of unknown meaning. With tags in `words` it
    /// also hides objects with these, and what may be part of one. Tags are hexadecimal digits,
    /// separated by commas. An empty text has no tag.
    ///
    /// # Errors
    ///
    /// - `Form`: a part of `words` between commas is not a tag of one to three bytes.
    /// - `OutOfMemory`: memory ran out.
    pub fn of(alloc: Global, words: &str) -> Result<Mask, TagsFault>
        ensures hides { IfOk result (λ mask. mask.hides ≡ true) }
        ensures no_tags { words.now ≡ [] → IfOk result (λ mask. mask.tags.items ≡ []) }
    {
        let mut tags = Vec::new(alloc);
        if !words.is_empty() {
            for word in words.split(',') {
                let tag = tag_of(alloc, word)?;
                tags.push(tag).map_err(AllocError::from)?;
            }
        }
        let names = Names::none(alloc);
        Ok(Mask {
            hides: true,
            tags,
            names,
        })
    }

    /// Returns a copy, with a copy of the names, or `AllocError` if memory ran out.
    pub fn copied(&self, alloc: Global) -> Result<Mask, AllocError>
        ensures { IfOk result (λ mask. (mask.hides ≡ self.now.hides)
            × (mask.tags.items ≡ self.now.tags.items)) }
    {
        let mut tags = Vec::new(alloc);
        tags.extend_from_slice(self.tags.as_slice())?;
        Ok(Mask {
            hides: self.hides,
            tags,
            names: self.names.copied(alloc).map_err(|_| AllocError)?,
        })
    }

    /// The mask with these names.
    pub fn with(self, names: Names) -> Mask {
        Mask {
            hides: self.hides,
            tags: self.tags,
            names,
        }
    }

    /// Whether it hides anything. If so it hides all bytes of unknown meaning, such as notes and
    /// unexpected bytes. Then no line after an unexpected byte is taken for a header.
    pub fn hides(&self) -> bool
        ensures { result ≡ self.now.hides }
    {
        self.hides
    }

    /// Whether it hides a header that is doubtful, or is not.
    pub fn hides_header(&self, is_doubtful: bool) -> bool
        ensures { result ≡ (self.now.hides && is_doubtful) }
    {
        self.hides && is_doubtful
    }

    /// Whether it hides objects with this tag.
    pub fn has(&self, tag: Tag) -> bool
        ensures { IsTrue result ↔ Contains self.now.tags.items tag }
    {
        for other in &self.tags {
            if is_same(*other, tag) {
                return true;
            }
        }
        false
    }

    /// How much is shown of data of this origin. `Objects` hides data that are no list of these.
    pub fn shown(&self, origin: Origin) -> Shown
        ensures { Shows self.now.hides self.now.tags.items origin result }
    {
        if !self.hides {
            return Shown::All;
        }
        if has_secret(origin) {
            return Shown::Nothing;
        }
        if self.tags.is_empty() || is_name(origin.header, origin.way) {
            return Shown::All;
        }
        match named(origin.header) {
            Some(tag) => self.shown_of(tag, origin.continues, origin.goes_on),
            None => whole_or_nothing(origin.continues || may_be_cut(origin.header)),
        }
    }

    /// Whether it hides some of the data of this origin, perhaps by hiding all but the objects.
    pub fn hides_some(&self, origin: Origin) -> bool {
        !matches!(self.shown(origin), Shown::All)
    }

    /// How much is shown of an object whose tag P1-P2 name.
    fn shown_of(&self, named: Tag, continues: bool, goes_on: bool) -> Shown
        ensures { ShowsValue self.now.tags.items named continues goes_on result }
    {
        if self.has(named) {
            Shown::Nothing
        } else if named.is_constructed() {
            whole_or_nothing(continues)
        } else if continues || goes_on {
            Shown::Nothing
        } else {
            Shown::All
        }
    }

    /// Adds bytes of unknown meaning as lines of digits, or `**` if the mask hides anything.
    pub fn push_unknown(&self, text: &mut Sheet, bytes: &[u8]) {
        if self.hides {
            push_hidden_line(text);
        } else {
            push_hex_lines(text, bytes);
        }
    }
}

/// Whether more of the data of a TPDU must follow: another piece, another part, or the rest of it.
fn goes_on(tpdu: &Tpdu, way: Direction) -> bool {
    let (Some((header, _)), Some(status)) = (header_of(tpdu), status_of(tpdu)) else {
        return true;
    };
    match way {
        Direction::ToCard => has_more(header),
        Direction::FromCard => waiting(header, status).is_some(),
    }
}

/// Whether data may be reference data, or a part of a command with some.
fn has_secret(origin: Origin) -> bool
    ensures { result ≡ has_secret origin }
{
    origin.is_loose
        || is_secret(origin.header.ins)
        || carries_secret(
            origin.way,
            origin.header.ins,
            origin.continues,
            origin.inner,
        )
}

/// Whether data of the terminal are those of ENVELOPE, and may be a part of such a command.
fn carries_secret(way: Direction, ins: u8, continues: bool, inner: u8) -> bool
    ensures { result ≡ carries_secret way ins continues inner }
{
    matches!(way, Direction::ToCard)
        && (ins == 0xC3 || (ins == 0xC2 && (continues || is_secret(inner))))
}

/// Whether two tags are the same.
fn is_same(tag: Tag, other: Tag) -> bool
    ensures { IsTrue result ↔ (tag ≡ other) }
{
    tag.bytes() == other.bytes()
}

/// Whether the data are the name or path of SELECT.
fn is_name(header: Header, way: Direction) -> bool
    ensures { result ≡ is_name header way }
{
    matches!(way, Direction::ToCard) && header.ins == 0xA4 && !has_messaging(header.cla)
}

/// The tag that P1-P2 of GET DATA or PUT DATA name.
fn named(header: Header) -> Option<Tag>
    ensures some { IfSome result (NamesObject header) }
    ensures none { result ≡ None → (tag : List ℕ) → NamesObject header tag → ⊥ }
{
    match header.ins {
        0xCA | 0xDA => Some(ObjectTag::from_p1p2(header.p1, header.p2)?.tag()),
        _ => None,
    }
}

/// How much is shown of objects, or of parts of objects.
fn whole_or_nothing(part: bool) -> Shown
    ensures { result ≡ whole_or_nothing part }
{
    if part { Shown::Nothing } else { Shown::Objects }
}

/// Whether the data of a command may begin or end within an object. They may if they are a part of
/// a file or record after its start, the data of ENVELOPE, or of a GET RESPONSE that stands alone.
fn may_be_cut(header: Header) -> bool
    ensures { result ≡ may_be_cut header }
{
    let Header { ins, p1, p2, .. } = header;
    match ins {
        0x0E | 0xB0 | 0xD0 | 0xD6 => p2 != 0 || (p1 < 0x80 && p1 != 0),
        0xB1 | 0xB3 | 0xC0 | 0xC2 | 0xC3 | 0xD1 | 0xD7 | 0xDD => true,
        _ => false,
    }
}

/// Reads a tag in hexadecimal digits.
fn tag_of(alloc: Global, digits: &str) -> Result<Tag, TagsFault> {
    let bytes = match hex::decode(alloc, digits.as_bytes()) {
        Ok(bytes) => bytes,
        Err(hex::FromHexError::OutOfMemory) => return Err(TagsFault::OutOfMemory),
        Err(_) => return Err(TagsFault::Form),
    };
    match Tag::read(bytes.as_slice()) {
        Ok((tag, size)) if size == bytes.len() => Ok(tag),
        _ => Err(TagsFault::Form),
    }
}

/// Adds the line `**`, with its end, in place of hidden data.
pub fn push_hidden_line(text: &mut Sheet) {
    writeln!(text, "{HIDDEN}");
    text.hide();
}
