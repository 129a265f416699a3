//! The values in the historical bytes of an answer.

ghost use Rattle.std.specs.Prelude.{◌≡◌, ◌/◌, ◌%◌, ◌==◌, ◌&&◌};
ghost use Rattle.atr_core.specs.HistoricalBytes.{category_of, compact_status, status_from, status_of};

use crate::answer::Atr;

/// The format of the historical bytes, by the first of them (ISO/IEC 7816-4, 12.1.1).
#[derive(Clone, Copy, Debug, PartialEq, Eq)]
pub enum Category {
    /// There are no historical bytes.
    Absent,
    /// `00`: objects in COMPACT-TLV, and then a status: the last three bytes, if three or more
    /// follow the `00`.
    StatusBehind,
    /// `10`: the next byte refers to a record of EF.DIR.
    DirReference,
    /// `80`: objects in COMPACT-TLV; the last may be a status.
    Objects,
    /// `81` to `8F`: reserved.
    Reserved,
    /// Any other: the format is the maker's own.
    Proprietary,
}

/// The card status in the historical bytes (ISO/IEC 7816-4, 12.1.1): the life cycle, or SW1 and
/// SW2, or both. What is absent is `None`.
#[derive(Clone, Copy, Debug, PartialEq, Eq)]
pub struct CardStatus {
    pub life_cycle: Option<u8>,
    pub sw: Option<(u8, u8)>,
}

impl Atr {
    /// Returns the format of the historical bytes.
    pub fn category(&self) -> Category
        ensures { result ≡ category_of self.now.historical }
    {
        match self.historical() {
            [] => Category::Absent,
            [0x00, ..] => Category::StatusBehind,
            [0x10, ..] => Category::DirReference,
            [0x80, ..] => Category::Objects,
            [0x81..=0x8F, ..] => Category::Reserved,
            _ => Category::Proprietary,
        }
    }

    /// Returns the card status in the historical bytes. In category `00` it is the last three
    /// bytes, if at least three follow the first. In category `80` it is the value of the last
    /// object, if that has tag 8 and 1 to 3 bytes. Otherwise `None`.
    pub fn card_status(&self) -> Option<CardStatus>
        ensures { result ≡ status_of self.now.historical }
    {
        status_of(self.historical())
    }
}

/// The card status in historical bytes.
fn status_of(historical: &[u8]) -> Option<CardStatus>
    ensures { result ≡ status_of historical.now }
{
    let [category, bytes @ ..] = historical else {
        return None;
    };
    if *category == 0x80 {
        return compact_status(bytes);
    }
    if *category != 0x00 || bytes.len() < 3 {
        return None;
    }
    status_from(&bytes[bytes.len() - 3..])
}

/// The card status, if the last object in COMPACT-TLV is one.
fn compact_status(bytes: &[u8]) -> Option<CardStatus>
    ensures { result ≡ compact_status 0 bytes.now }
{
    let mut place = 0;
    // For the proof: the label names the loop's goals.
    'objects: while place < bytes.len() {
        let head = bytes[place];
        let behind = bytes.len() - place - 1;
        if is_status(head, behind) {
            return status_from(&bytes[place + 1..]);
        }
        if behind < usize::from(head % 16) {
            return None;
        }
        place += 1 + usize::from(head % 16);
    }
    None
}

/// Whether an object in COMPACT-TLV is the last and a status, by its first byte and the number of
/// bytes that follow it.
fn is_status(head: u8, behind: usize) -> bool
    ensures { result ≡ (head / 16 == 8 && behind == head % 16) }
{
    head / 16 == 8 && behind == usize::from(head % 16)
}

/// A card status of one to three bytes.
fn status_from(bytes: &[u8]) -> Option<CardStatus>
    ensures { result ≡ status_from bytes.now }
{
    match bytes {
        [life_cycle] => Some(CardStatus {
            life_cycle: Some(*life_cycle),
            sw: None,
        }),
        [sw1, sw2] => Some(CardStatus {
            life_cycle: None,
            sw: Some((*sw1, *sw2)),
        }),
        [life_cycle, sw1, sw2] => Some(CardStatus {
            life_cycle: Some(*life_cycle),
            sw: Some((*sw1, *sw2)),
        }),
        _ => None,
    }
}
