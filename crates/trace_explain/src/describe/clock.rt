//! When each TPDU of a trace began, by the times before the signs of its lines.

use crate::write::sheet::Sheet;
use std::alloc::{AllocError, Global};
use std::mem;

/// The nanoseconds of a second.
const SECOND: u64 = 1_000_000_000;

/// The nanoseconds of a day.
const DAY: u64 = 86_400_000_000_000;

/// A clock of days that goes back by fewer nanoseconds was set back (profile).
const SET_BACK: u64 = 60_000_000_000;

/// The start from which a time counts.
#[derive(Clone, Copy, PartialEq, Eq)]
enum Measure {
    /// Midnight: `12:34:56.789`.
    Day,
    /// An unknown start, in seconds: `[0.001234]`.
    Seconds,
    /// The line before: `+0.5 ms`.
    Shift,
    /// An unknown start, in microseconds.
    Count,
}

/// A time in nanoseconds. A shift counts from the first one.
#[derive(Clone, Copy)]
struct Moment {
    measure: Measure,
    nanos: u64,
}

/// The time of the last line, and of the line where the last TPDU began.
#[derive(Drop)]
pub struct Clock {
    /// The text of the last line's time.
    text: Vec<u8>,
    /// The last time.
    now: Option<Moment>,
    /// The text of the time when the last TPDU began.
    shown: Vec<u8>,
    /// The last time when a TPDU began.
    began: Option<Moment>,
    /// How much later that is than the time before it.
    since: Option<u64>,
    /// The time of the last line of characters with a time.
    counted: Option<Moment>,
    /// The time from the first such line to the last, if known.
    whole: Option<u64>,
    /// Whether a TPDU began in the last line.
    has_begun: bool,
    /// How much of the time since the last TPDU began is the card's, if known.
    card: Option<u64>,
}

impl Clock {
    /// The clock before the first line.
    pub fn new(alloc: Global) -> Clock {
        Clock {
            text: Vec::new(alloc),
            now: None,
            shown: Vec::new(alloc),
            began: None,
            since: None,
            counted: None,
            whole: Some(0),
            has_begun: false,
            card: None,
        }
    }

    /// Takes the time of the next line: the text, which is empty if the line has none. Returns
    /// `AllocError` if memory ran out: the line counts as one without a time.
    pub fn pass(&mut self, time: &[u8]) -> Result<(), AllocError> {
        self.has_begun = false;
        self.text.clear();
        self.text.extend_from_slice(time)?;
        if let Some(moment) = Moment::of(time) {
            self.now = Some(moment.behind(self.now));
        }
        Ok(())
    }

    /// Notes that the last line has characters, the card's or not: no effect without a time, or
    /// once it has a TPDU. The time since the line before is of the end that sent the first one.
    pub fn count(&mut self, is_card: bool) {
        if self.text.is_empty() || self.has_begun {
            return;
        }
        let step = span(self.counted, self.now);
        if self.counted.is_some() {
            self.whole = sum(self.whole, step);
        }
        if is_card {
            self.card = sum(self.card, step);
        }
        self.counted = self.now;
    }

    /// Notes that a TPDU begins in the last line. How much later a second one began is unknown.
    pub fn begin(&mut self) {
        self.since = None;
        self.card = (!self.has_begun).then_some(0);
        if self.has_begun {
            return;
        }
        self.has_begun = true;
        if !self.text.is_empty() {
            self.since = span(self.began, self.now);
            self.began = self.now;
        }
        mem::swap(&mut self.text, &mut self.shown);
    }

    /// Adds the time of the line in which the last TPDU began. If known, it adds how much later
    /// that is than for the TPDU before. Adds nothing if the line has no time.
    pub fn push_begin(&self, text: &mut Sheet) {
        if self.shown.is_empty() {
            return;
        }
        text.push_str(str::from_utf8(self.shown.as_slice()).unwrap_or(""));
        if let Some(nanos) = self.since {
            text.push_str(", ");
            push_duration(text, nanos);
            text.push_str(" later");
        }
        text.push('\n');
    }

    /// The time of the line in which the last TPDU began, in microseconds from where times count.
    /// `None` if the line has no time.
    pub fn began_us(&self) -> Option<u64> {
        Moment::of(self.shown.as_slice())?;
        Some(self.began?.nanos / 1_000)
    }

    /// The time from the first line of characters with a time to the last, in microseconds.
    pub fn whole_us(&self) -> Option<u64> {
        self.counted?;
        Some(self.whole? / 1_000)
    }

    /// The time from the line in which the last TPDU began to the last line of characters, and how
    /// much of it is the card's, in microseconds; 0 if unknown.
    pub fn took_us(&self) -> (u64, u64) {
        let began = self.began.filter(|_| !self.shown.is_empty());
        match (span(began, self.counted), self.card) {
            (Some(all), Some(card)) => (all / 1_000, card.min(all) / 1_000),
            _ => (0, 0),
        }
    }

    /// Adds the time from the first line of characters with a time to the last, or that it is
    /// unknown. Adds nothing if no line of characters has a time.
    pub fn push_whole(&self, text: &mut Sheet) {
        if self.counted.is_none() {
            return;
        }
        match self.whole {
            Some(nanos) => push_duration(text, nanos),
            None => text.push_str("unknown: times go back, or are of two kinds"),
        }
        text.push('\n');
    }
}

impl Moment {
    /// The moment of this text. `None` if it is empty, or too large a number.
    fn of(time: &[u8]) -> Option<Moment> {
        let time = of_day(time);
        let measure = Measure::of(time)?;
        let mut fields: u64 = 0;
        let mut field: u64 = 0;
        let mut scale: u64 = 0;
        let mut fraction: u64 = 0;
        for &byte in time {
            let digit = u64::from(byte.wrapping_sub(b'0'));
            match byte {
                b'0'..=b'9' if scale == 0 => field = field.saturating_mul(10).saturating_add(digit),
                b'0'..=b'9' => {
                    scale /= 10;
                    fraction = fraction.saturating_add(digit.saturating_mul(scale));
                }
                b':' => {
                    fields = fields.saturating_add(field).saturating_mul(60);
                    field = 0;
                }
                b'.' | b',' => scale = SECOND,
                _ => {}
            }
        }
        let unit = measure.unit(time);
        let whole = fields.saturating_add(field).saturating_mul(unit);
        let nanos = whole.saturating_add(fraction.saturating_mul(unit) / SECOND);
        (nanos < u64::MAX).then_some(Moment { measure, nanos })
    }

    /// The moment after the one before it, from which a shift counts.
    fn behind(self, before: Option<Moment>) -> Moment {
        match before {
            Some(other) if self.measure == Measure::Shift && other.measure == Measure::Shift => {
                let nanos = self.nanos.saturating_add(other.nanos);
                Moment { nanos, ..self }
            }
            _ => self,
        }
    }
}

impl Measure {
    /// The start from which this text counts. `None` if it is empty.
    fn of(time: &[u8]) -> Option<Measure> {
        Some(match time {
            [] => return None,
            _ if time.contains(&b'+') => Measure::Shift,
            _ if time.contains(&b':') => Measure::Day,
            _ if time.contains(&b'.') || time.contains(&b'[') => Measure::Seconds,
            _ => Measure::Count,
        })
    }

    /// The nanoseconds of the unit of this text.
    fn unit(self, time: &[u8]) -> u64 {
        match self {
            Measure::Day | Measure::Seconds => SECOND,
            Measure::Count => 1_000,
            Measure::Shift if time.contains(&b'm') => 1_000_000,
            Measure::Shift if time.contains(&b'u') => 1_000,
            Measure::Shift => SECOND,
        }
    }
}

/// Returns a time of day without the date before it and the zone behind it; another time as it is.
fn of_day(time: &[u8]) -> &[u8] {
    let ([_, _, _, _, b'-', _, _, _, _, _, _, time @ ..] | [_, _, _, b' ', _, _, b' ', time @ ..]) =
        time
    else {
        return time;
    };
    time.split(|byte| matches!(byte, b'Z' | b'+' | b'-'))
        .next()
        .unwrap_or(time)
}

/// How much later the second moment is, if both count from the same start. A clock of days that
/// goes back has passed midnight, unless it was set back.
fn span(before: Option<Moment>, now: Option<Moment>) -> Option<u64> {
    let (before, now) = (before?, now?);
    if before.measure != now.measure {
        return None;
    }
    match now.nanos.checked_sub(before.nanos) {
        None if now.measure == Measure::Day && before.nanos.saturating_sub(now.nanos) >= SET_BACK =>
            { now.nanos.checked_add(DAY)?.checked_sub(before.nanos) }
        known => known,
    }
}

/// The sum, if both are known.
fn sum(one: Option<u64>, other: Option<u64>) -> Option<u64> {
    one?.checked_add(other?)
}

/// Adds a duration in nanoseconds.
pub fn push_duration(text: &mut Sheet, nanos: u64) {
    let micros = nanos / 1_000;
    if nanos < SECOND {
        write!(text, "{}.{:03} ms", micros / 1_000, micros % 1_000);
    } else {
        write!(text, "{}.{:06} s", micros / 1_000_000, micros % 1_000_000);
    }
}
