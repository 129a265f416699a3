//! A text with proved contents: the contract of each call says what it adds.
ghost use Rattle.std.specs.Prelude.{◌≡◌, ◌<◌, ◌∷◌, ℕ, List, [], slice_index, true, false, IfErr, IfOk, IfSome, OnOk};
ghost use Rattle.std.specs.String.{string_bytes};
ghost use Rattle.std.specs.Char.{encode_utf8};
ghost use Rattle.std.specs.Fmt.{decimal};
ghost use Rattle.hex.specs.Hex.{encode_upper, upper_digits};
ghost use Rattle.trace_explain.specs.Sheets.{Adds};
ghost use Rattle.trace_explain.specs.Written.{spaces};

use crate::write::layout::Layout;
use std::alloc::{AllocError, Global};
use std::fmt;

/// The hexadecimal digits.
const DIGITS: &[u8; 16] = b"0123456789ABCDEF";

/// A text to which parts are added until memory runs out. Callers ask `is_whole` once, at the end.
#[derive(Drop)]
pub struct Sheet {
    layout: Layout,
    text: String,
    is_cut: bool,
    /// Whether a part of the text is `**` in place of hidden data.
    hides: bool,
}

impl Sheet {
    /// An empty text.
    pub fn new(alloc: Global, layout: Layout) -> Sheet
        ensures layout { result.layout ≡ layout }
        ensures text { string_bytes result.text ≡ [] }
    {
        Sheet {
            layout,
            text: String::new(alloc),
            is_cut: false,
            hides: false,
        }
    }

    /// The layout.
    pub fn layout(&self) -> Layout
        ensures { result ≡ self.now.layout }
    {
        self.layout
    }

    /// Adds words.
    pub fn push_str(&mut self, words: &str)
        ensures { Adds self.old words.now self.new }
    {
        if !self.is_cut {
            self.is_cut = self.text.push_str(words).is_err();
        }
    }

    /// Adds a letter.
    pub fn push(&mut self, letter: char)
        ensures { Adds self.old (encode_utf8 letter) self.new }
    {
        if !self.is_cut {
            self.is_cut = self.text.push(letter).is_err();
        }
    }

    /// Adds a number in decimal digits.
    pub fn push_number(&mut self, number: u64)
        ensures { Adds self.old (decimal number) self.new }
    {
        if !self.is_cut {
            self.is_cut = self.text.write(number).is_err();
        }
    }

    /// Adds bytes as hexadecimal digits in upper case.
    pub fn push_hex(&mut self, bytes: &[u8])
        ensures { Adds self.old (encode_upper bytes.now) self.new }
    {
        for &byte in bytes {
            self.push(digit(byte / 16));
            self.push(digit(byte % 16));
        }
    }

    /// Adds spaces.
    pub fn push_spaces(&mut self, count: usize)
        ensures { Adds self.old (spaces count) self.new }
    {
        match few_spaces(count) {
            Some(few) => self.push_str(few),
            None => self.push_many_spaces(count),
        }
    }

    /// Adds spaces, one by one.
    fn push_many_spaces(&mut self, count: usize)
        ensures { Adds self.old (spaces count) self.new }
    {
        for _ in 0..count {
            self.push(' ');
        }
    }

    /// Adds what `write!` and `writeln!` format.
    pub fn write_fmt<D: fmt::Display + Drop>(&mut self, value: D) {
        if !self.is_cut {
            self.is_cut = self.text.write_fmt(value).is_err();
        }
    }

    /// Notes that memory ran out elsewhere, so that a part is missing.
    pub fn cut(&mut self)
        ensures { (more : List ℕ) → Adds self.old more self.new }
    {
        self.is_cut = true;
    }

    /// Notes that the text shows `**` in place of hidden data.
    pub fn hide(&mut self) {
        self.hides = true;
    }

    /// Whether it does.
    pub fn hides(&self) -> bool {
        self.hides
    }

    /// The text since the last call of `clear`.
    pub fn as_str(&self) -> &str
        ensures { result.now ≡ string_bytes self.now.text }
    {
        self.text.as_str()
    }

    /// Whether the text is empty.
    pub fn is_empty(&self) -> bool {
        self.text.is_empty()
    }

    /// Whether memory ran out.
    pub fn is_cut(&self) -> bool
        ensures { result ≡ self.now.is_cut }
    {
        self.is_cut
    }

    /// Clears the text, but not the note that memory ran out.
    pub fn clear(&mut self)
        ensures text { string_bytes self.new.text ≡ [] }
        ensures layout { self.new.layout ≡ self.old.layout }
        ensures is_cut { self.new.is_cut ≡ self.old.is_cut }
    {
        self.text.clear();
        self.hides = false;
    }

    /// Returns an error if memory ran out.
    pub fn is_whole(&self) -> Result<(), AllocError>
        ensures whole { OnOk result (self.now.is_cut ≡ false) }
        ensures cut { IfErr result (λ _. self.now.is_cut ≡ true) }
    {
        if self.is_cut { Err(AllocError) } else { Ok(()) }
    }

    /// Returns the text, or `AllocError` if memory ran out.
    pub fn into_text(self) -> Result<String, AllocError>
        ensures { IfOk result (λ text. (self.is_cut ≡ false) × (text ≡ self.text)) }
    {
        self.is_whole()?;
        Ok(self.text)
    }
}

/// As many spaces, if they are at most nine.
fn few_spaces(count: usize) -> Option<&'static str>
    ensures { IfSome result (λ few. few.now ≡ spaces count) }
{
    match count {
        0 => Some(""),
        1 => Some(" "),
        2 => Some("  "),
        3 => Some("   "),
        4 => Some("    "),
        5 => Some("     "),
        6 => Some("      "),
        7 => Some("       "),
        8 => Some("        "),
        9 => Some("         "),
        _ => None,
    }
}

/// Returns the hexadecimal digit of this value, in upper case.
fn digit(value: u8) -> char
    requires { value < 16 }
    ensures { encode_utf8 result ≡ slice_index upper_digits value ∷ [] }
{
    char::from(DIGITS[usize::from(value)])
}
