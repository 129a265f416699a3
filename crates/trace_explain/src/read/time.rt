//! The time before the sign of a line, or before digits without one.
ghost use Rattle.std.specs.Prelude.{◌≡◌, ◌≤◌, ◌+◌, length, true};
ghost use Rattle.trace_explain.specs.Times.{are_decimal, are_of_time, begins_dash, behind_clock, behind_label, behind_mark, behind_spaces, behind_tag, behind_time, behind_time_of, behind_word, bracket_len, dated_len, ends_tag, is_date, is_labelled, is_month, is_stamp, is_unit, place_of, shift_len, time_in, time_len};

/// Returns the time that a line begins with, and what follows it and its spaces. Without a time the
/// first is empty, and the second is the whole line. A byte order mark before it is skipped.
pub fn cut_time(line: &[u8]) -> (&[u8], &[u8])
    ensures time { result.0.now ≡ time_in line.now }
    ensures rest { result.1.now ≡ behind_time line.now }
{
    let line = behind_mark(line);
    let size = time_len(line);
    if size == 0 {
        return (&line[..0], line);
    }
    let (time, rest) = line.split_at(size);
    (time, behind_label(behind_spaces(rest)))
}

/// Returns what follows the time that a line begins with, and its spaces.
pub fn behind_time(line: &[u8]) -> &[u8]
    ensures { result.now ≡ behind_time_of line.now }
{
    let size = time_len(line);
    if size == 0 {
        return line;
    }
    behind_label(behind_spaces(&line[size..]))
}

/// Returns what follows the labels `- WORD - ` or `- WORD - WORD - ` of Python's `logging`, or the
/// host and program of syslog.
fn behind_label(line: &[u8]) -> &[u8]
    ensures { result.now ≡ behind_label line.now }
{
    if !is_labelled(line) {
        return behind_tag(line);
    }
    let next = behind_word(line);
    if is_labelled(next) {
        &behind_word(next)[2..]
    } else {
        &next[2..]
    }
}

/// Returns what follows a host and a program with its number: `host program[123]: `.
fn behind_tag(line: &[u8]) -> &[u8]
    ensures { result.now ≡ behind_tag line.now }
{
    let tag = behind_spaces(&line[place_of(b' ', line)..]);
    let size = place_of(b']', tag);
    if size < place_of(b' ', tag) && ends_tag(&tag[size..]) {
        behind_spaces(&tag[size + 2..])
    } else {
        line
    }
}

/// Whether the number of a program ends here.
fn ends_tag(line: &[u8]) -> bool
    ensures value { result ≡ ends_tag line.now }
    ensures within { result ≡ true → 3 ≤ length line.now }
{
    matches!(line, [b']', b':', b' ', ..])
}

/// Whether the line begins with a dash, a word and another dash, with a space after each.
fn is_labelled(line: &[u8]) -> bool
    ensures { result ≡ is_labelled line.now }
{
    begins_dash(line) && begins_dash(behind_word(line))
}

/// Returns what follows a dash, a word and a space.
fn behind_word(line: &[u8]) -> &[u8]
    ensures { result.now ≡ behind_word line.now }
{
    let word = line.get(2..).unwrap_or(&[]);
    word.get(place_of(b' ', word) + 1..).unwrap_or(&[])
}

/// Whether the line begins with a dash and a space.
fn begins_dash(line: &[u8]) -> bool
    ensures { result ≡ begins_dash line.now }
{
    matches!(line, [b'-', b' ', ..])
}

/// Returns a line without the byte order mark of UTF-8 before it.
pub fn behind_mark(line: &[u8]) -> &[u8]
    ensures { result.now ≡ behind_mark line.now }
{
    match line {
        [0xEF, 0xBB, 0xBF, rest @ ..] => rest,
        _ => line,
    }
}

/// Returns what follows the time of a line without a sign. Decimal digits alone are not a time
/// there, because bytes look the same. `time` and `rest` are the parts of the line.
pub fn behind_clock<'a>(line: &'a [u8], time: &[u8], rest: &'a [u8]) -> &'a [u8]
    requires time { time.now ≡ time_in line.now }
    requires rest { rest.now ≡ behind_time line.now }
    ensures { result.now ≡ behind_clock line.now }
{
    if are_decimal(time) {
        behind_mark(line)
    } else {
        rest
    }
}

/// Whether the bytes are decimal digits alone, or none.
pub fn are_decimal(bytes: &[u8]) -> bool
    ensures { result ≡ are_decimal bytes.now }
{
    for &byte in bytes {
        if !matches!(byte, b'0'..=b'9') {
            return false;
        }
    }
    true
}

/// Returns the length of the time that a line begins with; 0 if it has none.
fn time_len(line: &[u8]) -> usize
    ensures value { result ≡ time_len line.now }
    ensures within { result ≤ length line.now }
{
    match line {
        [b'[', rest @ ..] => bracket_len(rest),
        [b'+', rest @ ..] => shift_len(rest),
        _ if is_date(line) => dated_len(true, 11, &line[11..]),
        _ if is_month(line) => dated_len(true, 7, &line[7..]),
        _ => dated_len(false, 0, line),
    }
}

/// Whether a date precedes a time: `2026-11-27`, and `T` or a space.
fn is_date(line: &[u8]) -> bool
    ensures value { result ≡ is_date line.now }
    ensures within { result ≡ true → 11 ≤ length line.now }
{
    matches!(
        line,
        [
            b'0'..=b'9',
            b'0'..=b'9',
            b'0'..=b'9',
            b'0'..=b'9',
            b'-',
            b'0'..=b'9',
            b'0'..=b'9',
            b'-',
            b'0'..=b'9',
            b'0'..=b'9',
            b'T' | b' ',
            ..
        ]
    )
}

/// Whether a date of syslog precedes a time of day: `Nov 28 12:`.
fn is_month(line: &[u8]) -> bool
    ensures value { result ≡ is_month line.now }
    ensures within { result ≡ true → 7 ≤ length line.now }
{
    matches!(
        line,
        [
            b'A'..=b'Z',
            b'a'..=b'z',
            b'a'..=b'z',
            b' ',
            b' ' | b'0'..=b'9',
            b'0'..=b'9',
            b' ',
            b'0'..=b'9',
            b'0'..=b'9',
            b':',
            ..
        ]
    )
}

/// The same for a date of this length, 0 if it has none, and what follows it: a time of day, and
/// perhaps a zone if `has_zone`.
fn dated_len(has_zone: bool, date: usize, time: &[u8]) -> usize
    requires date { date ≤ 11 }
    ensures value { result ≡ dated_len has_zone date time.now }
    ensures within { result ≤ length time.now + date }
{
    let size = place_of(b' ', time);
    if is_stamp(has_zone, &time[..size]) {
        date + size
    } else {
        0
    }
}

/// The same for such digits in brackets, with any spaces before. `rest` follows the first bracket.
fn bracket_len(rest: &[u8]) -> usize
    ensures value { result ≡ bracket_len rest.now }
    ensures within { result ≤ length rest.now + 1 }
{
    let size = place_of(b']', rest);
    if size < rest.len() && is_stamp(false, behind_spaces(&rest[..size])) {
        size + 2
    } else {
        0
    }
}

/// The same for `+`, digits and a unit. `rest` is the line behind `+`.
fn shift_len(rest: &[u8]) -> usize
    ensures value { result ≡ shift_len rest.now }
    ensures within { result ≤ length rest.now + 1 }
{
    let (shift, behind) = rest.split_at(place_of(b' ', rest));
    let unit = behind_spaces(behind);
    let size = place_of(b' ', unit);
    if is_stamp(false, shift) && is_unit(&unit[..size]) {
        rest.len() - unit.len() + size + 1
    } else {
        0
    }
}

/// Returns the place of the first byte that equals `byte`; the length if it is missing.
pub fn place_of(byte: u8, line: &[u8]) -> usize
    ensures value { result ≡ place_of byte line.now }
    ensures within { result ≤ length line.now }
{
    for place in 0..line.len() {
        if line[place] == byte {
            return place;
        }
    }
    line.len()
}

/// Returns the line without its leading spaces.
pub fn behind_spaces(line: &[u8]) -> &[u8]
    ensures value { result.now ≡ behind_spaces line.now }
    ensures within { length result.now ≤ length line.now }
{
    for place in 0..line.len() {
        if line[place] != b' ' {
            return &line[place..];
        }
    }
    &[]
}

/// Whether the word is a digit, and then bytes of a time, or of a zone if `has_zone`.
fn is_stamp(has_zone: bool, word: &[u8]) -> bool
    ensures { result ≡ is_stamp has_zone word.now }
{
    match word {
        [b'0'..=b'9', rest @ ..] => are_of_time(has_zone, rest),
        _ => false,
    }
}

/// Whether the word is a unit of time.
fn is_unit(word: &[u8]) -> bool
    ensures { result ≡ is_unit word.now }
{
    matches!(word, b"s" | b"ms" | b"us")
}

/// Whether each byte is a digit, a point, a colon or a comma, or may be part of a zone if
/// `has_zone`.
fn are_of_time(has_zone: bool, bytes: &[u8]) -> bool
    ensures { result ≡ are_of_time has_zone bytes.now }
{
    for &byte in bytes {
        match byte {
            b'0'..=b'9' | b'.' | b':' | b',' => {}
            b'+' | b'-' | b'Z' if has_zone => {}
            _ => return false,
        }
    }
    true
}
