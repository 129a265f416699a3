//! The names of tags, application identifiers and bits, from the rows of tables.

use crate::describe::format::{Format, format_of, separate};
use crate::read::forms::FormsFault;
use crate::tables::{AIDS, BITS, TAGS};
use crate::write::ascii::are_printable;
use crate::write::sheet::Sheet;
use std::alloc::{AllocError, Global};
use tlv_core::Tag;

/// The number of lists of each table, one for each value of the last byte of a key.
const LISTS: u64 = 256;

/// The place of the last byte of the provider in an application identifier. Most differ there.
const RID: usize = 4;

/// The most bytes of an application identifier.
const AID: usize = 16;

/// The tags of the templates around an object, as numbers whose digits are theirs: that of the
/// innermost, and that behind the next one's. Both are 0 without a template.
#[derive(Clone, Copy)]
pub struct Place(u64, u64);

impl Place {
    /// The place of an object without a template.
    pub const TOP: Place = Place(0, 0);

    /// The place of the objects in a template with this tag.
    pub fn within(self, tag: Tag) -> Place {
        Place(joined(0, tag.bytes()), joined(self.0, tag.bytes()))
    }

    /// Whether the place of a row stands for it.
    fn is(self, place: Option<u64>) -> bool {
        place.is_none_or(|it| it == self.0 || it == self.1)
    }
}

/// The digits of a number, and then those of bytes.
pub fn joined(number: u64, bytes: &[u8]) -> u64 {
    let mut number = number;
    for &byte in bytes {
        number = number.wrapping_mul(256) | u64::from(byte);
    }
    number
}

/// Words of a row, by their place in the text of all tables.
#[derive(Clone, Copy)]
struct Words(usize, usize);

/// A row of a tag.
#[derive(Clone, Copy)]
pub struct TagRow {
    tag: u64,
    /// The number of the template around it; 0 without one, `None` for any.
    place: Option<u64>,
    /// The least and the greatest size of its value.
    sizes: (usize, usize),
    /// How the value is shown as words.
    pub format: Format,
    name: Words,
}

/// A row of an application identifier: its bytes, and how many of them it has.
#[derive(Clone, Copy)]
struct AidRow {
    bytes: [u8; AID],
    size: usize,
    name: Words,
}

/// A row of bits: their set, the place of their byte, their mask and value, and the words for them.
#[derive(Clone, Copy)]
struct BitRow(u64, usize, u8, u8, Words);

/// All tables. Their rows are in lists, by the last bytes of their keys: tags, the providers of
/// application identifiers, and the names of sets.
#[derive(Drop)]
pub struct Names {
    /// Their text. It begins with the rows of a file, which have this size.
    text: String,
    own: usize,
    tags: Vec<Vec<TagRow>>,
    aids: Vec<Vec<AidRow>>,
    bits: Vec<Vec<BitRow>>,
}

impl Names {
    /// No names.
    pub fn none(alloc: Global) -> Names {
        Names {
            text: String::new(alloc),
            own: 0,
            tags: Vec::new(alloc),
            aids: Vec::new(alloc),
            bits: Vec::new(alloc),
        }
    }

    /// Reads the rows of `own`, which come first, and those of the program. Empty lines and those
    /// that begin with `#` don't count.
    ///
    /// # Errors
    ///
    /// - `Name`: a line of `own` is no row.
    /// - `OutOfMemory`: memory ran out.
    pub fn of(alloc: Global, own: &str) -> Result<Names, FormsFault> {
        let mut names = Names::none(alloc);
        let mut text = String::from_str(alloc, own)?;
        for table in [TAGS, AIDS, BITS] {
            text.push_str("\n")?;
            text.push_str(table)?;
        }
        names.tags = lists(alloc)?;
        names.aids = lists(alloc)?;
        names.bits = lists(alloc)?;
        let mut begin: usize = 0;
        for (place, line) in text.as_str().split('\n').enumerate() {
            let end = begin.saturating_add(line.len());
            begin = end.saturating_add(1);
            let is_row = !line.is_empty() && !line.starts_with('#');
            if is_row && !names.take(line, end)? {
                return Err(FormsFault::Name(place.saturating_add(1)));
            }
        }
        names.text = text;
        names.own = own.len();
        Ok(names)
    }

    /// Reads the same rows again.
    pub fn copied(&self, alloc: Global) -> Result<Names, FormsFault> {
        Names::of(alloc, self.text.as_str().get(..self.own).unwrap_or(""))
    }

    /// Takes a row that ends at this place of the text. Returns whether it is one.
    fn take(&mut self, line: &str, end: usize) -> Result<bool, AllocError> {
        match line.split_once(' ') {
            Some(("tag", row)) => self.take_tag(row, end),
            Some(("aid", row)) => taken(&mut self.aids, aid_row(row, end)),
            Some(("bit", row)) => taken(&mut self.bits, bit_row(row, end)),
            _ => Ok(false),
        }
    }

    /// Takes the row of a tag, once for each of its places. Returns whether it is one.
    fn take_tag(&mut self, row: &str, end: usize) -> Result<bool, AllocError> {
        if let Some((row, places)) = tag_row(row, end)
            && let Some(rows) = self.tags.get_mut(list_of(row.tag))
        {
            for word in places.split(',') {
                let place = place_in(word);
                rows.push(TagRow { place, ..row })?;
            }
            return Ok(true);
        }
        Ok(false)
    }

    /// The rows of all tables.
    pub fn text(&self) -> &str {
        self.text.as_str()
    }

    /// The row of an object at this place, with a value of this size.
    pub fn tag(&self, tag: Tag, place: Place, size: usize) -> Option<&TagRow> {
        let tag = joined(0, tag.bytes());
        for row in self.tags.get(list_of(tag))? {
            let is_of_size = row.sizes.0 <= size && size <= row.sizes.1;
            if row.tag == tag && is_of_size && place.is(row.place) {
                return Some(row);
            }
        }
        None
    }

    /// The name of a row; empty without one.
    pub fn name(&self, row: Option<&TagRow>) -> &str {
        row.map_or("", |row| self.words(row.name))
    }

    /// Words of a row.
    fn words(&self, words: Words) -> &str {
        self.text.as_str().get(words.0..words.1).unwrap_or("")
    }

    /// The name of the longest application identifier that begins this one.
    pub fn aid(&self, value: &[u8]) -> Option<&str> {
        let key = u64::from(*value.get(RID)?);
        let mut best: Option<&AidRow> = None;
        for row in self.aids.get(list_of(key))? {
            let is_longer = best.is_none_or(|it| it.size < row.size);
            if is_longer && value.starts_with(row.bytes.get(..row.size)?) {
                best = Some(row);
            }
        }
        best.map(|row| self.words(row.name))
    }

    /// Adds the words for the bits of a value, with commas between, after a separator.
    pub fn push_bits(&self, text: &mut Sheet, set: u64, value: &[u8], separator: &str) {
        let mut separator = separator;
        let Some(rows) = self.bits.get(list_of(set)) else {
            return;
        };
        for BitRow(other, place, mask, bits, words) in rows {
            let byte = value.get(*place).copied();
            if *other == set && byte.is_some_and(|byte| byte & *mask == *bits) {
                separate(text, separator);
                text.push_str(self.words(*words));
                separator = ", ";
            }
        }
    }
}

/// Empty lists.
fn lists<T: Drop>(alloc: Global) -> Result<Vec<Vec<T>>, AllocError> {
    let mut lists = Vec::new(alloc);
    for _ in 0..LISTS {
        lists.push(Vec::new(alloc))?;
    }
    Ok(lists)
}

/// Takes a row with its key, if it is one.
fn taken<T: Drop>(lists: &mut Vec<Vec<T>>, row: Option<(u64, T)>) -> Result<bool, AllocError> {
    if let Some((key, row)) = row
        && let Some(rows) = lists.get_mut(list_of(key))
    {
        rows.push(row)?;
        return Ok(true);
    }
    Ok(false)
}

/// The place of the list with this key.
fn list_of(key: u64) -> usize {
    usize::try_from(key % LISTS).unwrap_or(0)
}

/// The words before this end. `None` if they are not printable ASCII.
fn words_before(end: usize, words: &str) -> Option<Words> {
    let is_well = !words.is_empty() && are_printable(words.as_bytes());
    is_well.then_some(Words(end.checked_sub(words.len())?, end))
}

/// Returns the place that a word stands for. No tag ends with `FF`.
fn place_in(word: &str) -> Option<u64> {
    match word {
        "*" => None,
        "." => Some(0),
        _ => Some(u64::from_str_radix(word, 16).unwrap_or(u64::MAX)),
    }
}

/// Reads the row of a tag, without its places, and these.
fn tag_row(row: &str, end: usize) -> Option<(TagRow, &str)> {
    let (tag, row) = row.split_once(' ')?;
    let (places, row) = row.split_once(' ')?;
    let (sizes, row) = row.split_once(' ')?;
    let (format, name) = row.split_once(' ')?;
    let is_place = |word| matches!(word, "*" | ".") || is_hex(word);
    let row = TagRow {
        tag: tag_of(tag)?,
        place: None,
        sizes: sizes_of(sizes)?,
        format: format_of(format)?,
        name: words_before(end, name)?,
    };
    places.split(',').all(is_place).then_some((row, places))
}

/// Whether a word is hexadecimal digits in capitals, two for each byte.
fn is_hex(word: &str) -> bool {
    let is_digit = |letter: &u8| matches!(letter, b'0'..=b'9' | b'A'..=b'F');
    let is_of_bytes = !word.is_empty() && word.len() % 2 == 0;
    is_of_bytes && word.as_bytes().iter().all(is_digit)
}

/// Reads a tag as a number.
fn tag_of(digits: &str) -> Option<u64> {
    if !is_hex(digits) {
        return None;
    }
    let number = u64::from_str_radix(digits, 16).ok()?;
    let size = digits.len() / 2;
    let bytes = number.to_be_bytes();
    let (_, read) = Tag::read(bytes.get(8usize.checked_sub(size)?..)?).ok()?;
    (read == size).then_some(number)
}

/// Reads sizes, as `3` or `1-8`; `*` are all.
fn sizes_of(sizes: &str) -> Option<(usize, usize)> {
    if sizes == "*" {
        return Some((0, usize::MAX));
    }
    let (least, most) = sizes.split_once('-').unwrap_or((sizes, sizes));
    Some((least.parse().ok()?, most.parse().ok()?))
}

/// Reads the row of an application identifier of 5 to 16 bytes. Its key is the last byte of its
/// provider.
fn aid_row(row: &str, end: usize) -> Option<(u64, AidRow)> {
    let (digits, name) = row.split_once(' ')?;
    let name = words_before(end, name)?;
    if !is_hex(digits) {
        return None;
    }
    let size = digits.len() / 2;
    let mut bytes = [0; AID];
    let aid = bytes.get_mut(..size)?;
    hex::decode_to_slice(digits.as_bytes(), aid).ok()?;
    let key = *bytes.get(..size)?.get(RID)?;
    Some((u64::from(key), AidRow { bytes, size, name }))
}

/// Reads a row of bits. Its key is its set.
fn bit_row(row: &str, end: usize) -> Option<(u64, BitRow)> {
    let (set, row) = row.split_once(' ')?;
    let (place, row) = row.split_once(' ')?;
    let (bits, words) = row.split_once(' ')?;
    let (mask, value) = bits.split_once('=').unwrap_or((bits, bits));
    let set = joined(0, set.as_bytes());
    let place: usize = place.parse().ok()?;
    let row = BitRow(
        set,
        place.checked_sub(1)?,
        u8::from_str_radix(mask, 16).ok()?,
        u8::from_str_radix(value, 16).ok()?,
        words_before(end, words)?,
    );
    Some((set, row))
}
