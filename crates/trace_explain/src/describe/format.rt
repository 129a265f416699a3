//! How the value of an object is shown as words, by the format of its row.

use crate::describe::file_names::file_name;
use crate::describe::meaning::push_meaning;
use crate::describe::names::{Names, TagRow, joined};
use crate::write::ascii::{are_printable, is_text};
use crate::write::sheet::Sheet;
use apdu_core::{Header, Status};
use tlv_core::Tag;

/// How the value of an object is shown as words. `names/tags.txt` says what each means.
#[derive(Clone, Copy)]
pub enum Format {
    /// Not at all: bytes, or a template.
    Silent,
    /// `n`, a number.
    Number,
    /// `n3`, the last digits of a number.
    LastThree,
    /// `cn`, digits with `F` behind them.
    Padded,
    /// `an`, a text.
    Letters,
    /// `date`.
    Date,
    /// `time`.
    Time,
    /// `uint`, a binary number.
    Binary,
    /// `aid`, an application identifier.
    Aid,
    /// `cvm`, a list of cardholder verification methods.
    Methods,
    /// `fd`, a file descriptor.
    Descriptor,
    /// `sfi`, a short EF identifier.
    ShortFile,
    /// `file`, a file identifier.
    File,
    /// `status`, a status word.
    Status,
    /// `toolkit`, a command of the card: its details come first.
    Toolkit,
    /// `afl`, files and their records to read.
    Records,
    /// `dol`, tags and sizes of values.
    Sizes,
    /// A set of bits, by its name as a number.
    Bits(u64),
}

/// The formats with a name of their own.
static FORMATS: [(&str, Format); 18] = [
    ("b", Format::Silent),
    ("t", Format::Silent),
    ("n", Format::Number),
    ("n3", Format::LastThree),
    ("cn", Format::Padded),
    ("an", Format::Letters),
    ("date", Format::Date),
    ("time", Format::Time),
    ("uint", Format::Binary),
    ("aid", Format::Aid),
    ("cvm", Format::Methods),
    ("fd", Format::Descriptor),
    ("sfi", Format::ShortFile),
    ("file", Format::File),
    ("status", Format::Status),
    ("toolkit", Format::Toolkit),
    ("afl", Format::Records),
    ("dol", Format::Sizes),
];

/// The format with this name. `=SET` is a set of bits, whose name is printable.
pub fn format_of(name: &str) -> Option<Format> {
    if let Some(set) = name.strip_prefix('=') {
        let set = set.as_bytes();
        return are_printable(set).then_some(Format::Bits(joined(0, set)));
    }
    for (other, format) in &FORMATS {
        if *other == name {
            return Some(*format);
        }
    }
    None
}

/// Adds a value in words, if there is a row and its format has any. A value that is not of the
/// format has none. Separators precede them if there is a name.
pub fn push_words(text: &mut Sheet, names: &Names, row: Option<&TagRow>, value: &[u8]) {
    let Some(row) = row else {
        return;
    };
    match row.format {
        Format::Silent => {}
        Format::Number => {
            if let Some(number) = decimal(value) {
                push_number(text, " ", number);
            }
        }
        Format::LastThree => push_last_three(text, value),
        Format::Padded => push_padded(text, value),
        Format::Letters => push_letters(text, value),
        Format::Date => push_date(text, value),
        Format::Time => push_time(text, value),
        Format::Binary => push_binary(text, value),
        Format::Aid => push_aid(text, names, value),
        Format::Methods => push_methods(text, names, value),
        Format::Descriptor => push_descriptor(text, names, value),
        Format::ShortFile => push_short_file(text, value),
        Format::File => push_file(text, value),
        Format::Status => push_status(text, value),
        Format::Toolkit => push_toolkit(text, names, value),
        Format::Records => push_records(text, value),
        Format::Sizes => push_sizes(text, value),
        Format::Bits(set) => names.push_bits(text, set, value, ": "),
    }
}

/// Adds a separator, unless it would come first.
pub fn separate(text: &mut Sheet, separator: &str) {
    if !text.is_empty() {
        text.push_str(separator);
    }
}

/// The number that the hexadecimal digits of a value are, if they are decimal ones and some, and
/// it has 64 bits.
fn decimal(value: &[u8]) -> Option<u64> {
    let mut number: Option<u64> = None;
    for byte in value {
        let (high, low) = (byte >> 4, byte & 0x0F);
        if high > 9 || low > 9 {
            return None;
        }
        let both = u64::from(high) * 10 + u64::from(low);
        number = Some(number.unwrap_or(0).checked_mul(100)?.checked_add(both)?);
    }
    number
}

/// Adds the last three decimal digits.
fn push_last_three(text: &mut Sheet, value: &[u8]) {
    if let Some(number) = decimal(value) {
        separate(text, " ");
        write!(text, "{:03}", number % 1000);
    }
}

/// Adds the name of an application identifier, if it has one.
fn push_aid(text: &mut Sheet, names: &Names, value: &[u8]) {
    if let Some(name) = names.aid(value) {
        separate(text, ", ");
        text.push_str(name);
    }
}

/// Adds a number.
fn push_number(text: &mut Sheet, separator: &str, number: u64) {
    separate(text, separator);
    text.push_number(number);
}

/// Adds a binary number of at most 64 bits.
fn push_binary(text: &mut Sheet, value: &[u8]) {
    let zeros = value.iter().take_while(|byte| **byte == 0).count();
    if !value.is_empty() && value.len().saturating_sub(zeros) <= 8 {
        push_number(text, ": ", joined(0, value));
    }
}

/// Adds decimal digits, if at least one `F` follows them.
fn push_padded(text: &mut Sheet, value: &[u8]) {
    let padding = value.iter().rev().take_while(|byte| **byte == 0xFF).count();
    let number = &value[..value.len().saturating_sub(padding)];
    let (pairs, last) = match number {
        [pairs @ .., last] if last & 0x0F == 0x0F => (pairs, Some(last >> 4)),
        _ => (number, None),
    };
    let is_well = !number.is_empty() && (padding > 0 || last.is_some());
    let are_digits = pairs.iter().all(|byte| decimal(&[*byte]).is_some());
    if is_well && are_digits && last.is_none_or(|digit| digit <= 9) {
        separate(text, " ");
        text.push_hex(pairs);
        if let Some(digit) = last {
            text.push_number(u64::from(digit));
        }
    }
}

/// Adds a text. After a name it is in quotes, if it is too short to be beside the digits.
fn push_letters(text: &mut Sheet, value: &[u8]) {
    let Ok(letters) = str::from_utf8(value) else {
        return;
    };
    if value.is_empty() || !are_printable(value) {
        return;
    }
    if text.is_empty() {
        text.push_str(letters);
    } else if !is_text(value) {
        write!(text, " \"{letters}\"");
    }
}

/// Adds a date. Years from 50 on are those before 2000 (EMV 4.3, Book 4, 6.7.3).
fn push_date(text: &mut Sheet, value: &[u8]) {
    let Some((year, month, day)) = three_pairs(value) else {
        return;
    };
    let century = if year < 50 { 20 } else { 19 };
    if (1..=12).contains(&month) && (1..=days_in(year, month)).contains(&day) {
        separate(text, " ");
        write!(text, "{century}{year:02}-{month:02}-{day:02}");
    }
}

/// The days of this month. From 1950 to 2049 each fourth year is a leap year.
fn days_in(year: u64, month: u64) -> u64 {
    match month {
        2 if year % 4 == 0 => 29,
        2 => 28,
        4 | 6 | 9 | 11 => 30,
        _ => 31,
    }
}

/// Adds a time of the day.
fn push_time(text: &mut Sheet, value: &[u8]) {
    if let Some((hour, minute, second)) = three_pairs(value)
        && hour < 24
        && minute < 60
        && second < 60
    {
        separate(text, " ");
        write!(text, "{hour:02}:{minute:02}:{second:02}");
    }
}

/// The three numbers of two decimal digits each.
fn three_pairs(value: &[u8]) -> Option<(u64, u64, u64)> {
    match value {
        [first, second, third] => {
            Some((
                decimal(&[*first])?,
                decimal(&[*second])?,
                decimal(&[*third])?,
            ))
        }
        _ => None,
    }
}

/// Adds the amounts X and Y, if not 0, and the rules (EMV 4.3, Book 3, 10.5).
fn push_methods(text: &mut Sheet, names: &Names, value: &[u8]) {
    let (amounts, rules) = value.split_at(value.len().min(8));
    let (x, y) = amounts.split_at(amounts.len().min(4));
    let (x, y) = (joined(0, x), joined(0, y));
    push_amount(text, true, "X", x);
    push_amount(text, x == 0, "Y", y);
    for (place, rule) in rules.chunks(2).enumerate() {
        let is_first = place == 0 && x == 0 && y == 0;
        names.push_bits(text, joined(0, b"cvm"), rule, before_part(is_first));
    }
}

/// Adds an amount, if not 0.
fn push_amount(text: &mut Sheet, is_first: bool, name: &str, amount: u64) {
    if amount != 0 {
        separate(text, before_part(is_first));
        write!(text, "{name} {amount}");
    }
}

/// The separator before a part of a list of methods.
fn before_part(is_first: bool) -> &'static str {
    if is_first { ": " } else { "; " }
}

/// Adds the kind of a file, and its records (ISO/IEC 7816-4, 5.3.3.2).
fn push_descriptor(text: &mut Sheet, names: &Names, value: &[u8]) {
    names.push_bits(text, joined(0, b"fd"), value, ": ");
    let [_, _, size @ ..] = value else {
        return;
    };
    let (size, count) = size.split_at(size.len().min(2));
    if size.is_empty() {
        return;
    }
    separate(text, ", ");
    if !count.is_empty() {
        write!(text, "{} ", joined(0, count));
    }
    write!(text, "records of at most {} bytes", joined(0, size));
}

/// Adds a short EF identifier.
fn push_short_file(text: &mut Sheet, value: &[u8]) {
    if let [byte] = value
        && byte & 0x07 == 0
        && byte >> 3 != 0
    {
        push_number(text, " ", u64::from(byte >> 3));
    }
}

/// Adds the name of a file, if it has one.
fn push_file(text: &mut Sheet, value: &[u8]) {
    let name = file_name(0, value);
    if !name.is_empty() {
        separate(text, ": ");
        text.push_str(name);
    }
}

/// Adds what a status word means.
fn push_status(text: &mut Sheet, value: &[u8]) {
    if let [sw1, sw2] = value
        && let Some(status) = Status::new(*sw1, *sw2)
    {
        let none = Header {
            cla: 0,
            ins: 0,
            p1: 0,
            p2: 0,
        };
        separate(text, ": ");
        push_meaning(text, none, status);
    }
}

/// Adds the name of a command of the card, if its details are first (ETSI TS 102 223, 6.6 and 8.6).
fn push_toolkit(text: &mut Sheet, names: &Names, value: &[u8]) {
    if let [0x01 | 0x81, 3, ..] = value {
        names.push_bits(text, joined(0, b"toolkit"), value, ": ");
    }
}

/// Adds which records to read: of each file the first and the last, and how many are signed (EMV
/// 4.3, Book 3, 10.2). Nothing if an entry is invalid.
fn push_records(text: &mut Sheet, value: &[u8]) {
    if !are_entries(value) {
        return;
    }
    let mut separator = ": ";
    for place in 0..value.len() / 4 {
        if let Some([file, first, last, signed]) = entry_at(value, place) {
            separate(text, separator);
            write!(text, "file {}, record", file >> 3);
            if first == last {
                write!(text, " {first}");
            } else {
                write!(text, "s {first} to {last}");
            }
            if *signed > 0 {
                write!(text, ", {signed} signed");
            }
            separator = "; ";
        }
    }
}

/// Whether these are entries of a list of files, and some.
fn are_entries(value: &[u8]) -> bool {
    for place in 0..value.len() / 4 {
        if !entry_at(value, place).is_some_and(is_entry) {
            return false;
        }
    }
    !value.is_empty() && value.len() % 4 == 0
}

/// Returns the entry of four bytes at this place.
fn entry_at(value: &[u8], place: usize) -> Option<&[u8]> {
    let begin = place.checked_mul(4)?;
    value.get(begin..begin.checked_add(4)?)
}

/// Whether this is an entry of a list of files: a short file identifier, records, and no more of
/// them are signed.
fn is_entry(entry: &[u8]) -> bool {
    match entry {
        [file, first @ 1.., last, signed] => {
            let is_file = file & 0x07 == 0 && (1..=30).contains(&(file >> 3));
            let count = last
                .checked_sub(*first)
                .and_then(|more| more.checked_add(1));
            is_file && count.is_some_and(|count| *signed <= count)
        }
        _ => false,
    }
}

/// Adds the tags and sizes of values that a terminal is to send (EMV 4.3, Book 3, 5.4). Nothing if
/// one is cut off.
fn push_sizes(text: &mut Sheet, value: &[u8]) {
    if !are_sizes(value) {
        return;
    }
    let (mut rest, mut separator) = (value, ": ");
    for _tag in 0..value.len() {
        let Some((tag, size, behind)) = next_size(rest) else {
            return;
        };
        separate(text, separator);
        text.push_hex(tag);
        write!(text, " {size}");
        (rest, separator) = (behind, ", ");
    }
}

/// Whether these are tags and sizes up to the end.
fn are_sizes(value: &[u8]) -> bool {
    let mut rest = value;
    for _tag in 0..value.len() {
        if let Some((_, _, behind)) = next_size(rest) {
            rest = behind;
        }
    }
    rest.is_empty()
}

/// Returns the first tag, its size, and what follows them.
fn next_size(list: &[u8]) -> Option<(&[u8], u8, &[u8])> {
    let (_, count) = Tag::read(list).ok()?;
    let [size, behind @ ..] = list.get(count..)? else {
        return None;
    };
    Some((list.get(..count)?, *size, behind))
}
