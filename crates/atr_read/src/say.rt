//! Prints what one answer to reset means.

use atr_core::{Atr, CardStatus, Classes, ClockStop, Group, Mode, Rfu, block_guard_time};
use hex::FromHexError;
use std::alloc::{AllocError, Global};
use std::fmt::Display;
use std::io;
use std::io::Write;

/// Prints what the answer in this text means, or why it is not one. The text is hexadecimal digits,
/// with or without spaces between them. Returns whether it is an answer to reset.
///
/// # Errors
/// - `io::Error`: the output can't be written, or memory ran out. A part may be written.
pub fn say<W: Write>(alloc: Global, text: &str, output: &mut W) -> io::Result<bool> {
    let Some(bytes) = bytes_of(alloc, text)? else {
        writeln!(output, "{text}: bad hex")?;
        return Ok(false);
    };
    match Atr::read(&bytes) {
        Ok(answer) => {
            writeln!(output, "{text}: an answer to reset")?;
            say_groups(&answer, output)?;
            say_values(&answer, output)?;
            Ok(true)
        }
        Err(fault) => {
            writeln!(output, "{text}: {fault}")?;
            Ok(false)
        }
    }
}

/// Returns the bytes of the digits in this text, or `None` if it has another form.
fn bytes_of(alloc: Global, text: &str) -> Result<Option<Vec<u8>>, AllocError> {
    let mut digits = String::new(alloc);
    for word in text.split_ascii_whitespace() {
        digits.push_str(word)?;
    }
    match hex::decode(alloc, digits.as_str()) {
        Ok(bytes) => Ok(Some(bytes)),
        Err(FromHexError::OutOfMemory) => Err(AllocError),
        Err(_) => Ok(None),
    }
}

/// Prints the convention, each interface byte by its name, and the historical bytes.
fn say_groups<W: Write>(answer: &Atr, output: &mut W) -> io::Result<()> {
    writeln!(output, "  convention    {}", answer.convention())?;
    say_group(1, answer.first(), output)?;
    let mut number = 1u32;
    for named in answer.others() {
        writeln!(output, "  TD{number}           T={}", named.t)?;
        number = number.saturating_add(1);
        say_group(number, named.group, output)?;
    }
    say_historical(answer.historical(), output)?;
    match answer.card_status() {
        Some(status) => say_card_status(status, output),
        None => Ok(()),
    }
}

fn say_historical<W: Write>(bytes: &[u8], output: &mut W) -> io::Result<()> {
    write!(output, "  historical    ")?;
    if bytes.is_empty() {
        write!(output, "none")?;
    }
    for byte in bytes {
        write!(output, "{byte:02X}")?;
    }
    writeln!(output)
}

/// Prints the life cycle and the status word that the historical bytes end with.
fn say_card_status<W: Write>(status: CardStatus, output: &mut W) -> io::Result<()> {
    write!(output, "  card status  ")?;
    if let Some(life_cycle) = status.life_cycle {
        write!(output, " life cycle {life_cycle:02X}")?;
    }
    if let Some((sw1, sw2)) = status.sw {
        write!(output, " {sw1:02X}{sw2:02X}")?;
    }
    writeln!(output)
}

/// Prints the TA, TB and TC with this number that are present.
fn say_group<W: Write>(number: u32, group: Group, output: &mut W) -> io::Result<()> {
    for (name, byte) in [("TA", group.ta), ("TB", group.tb), ("TC", group.tc)] {
        if let Some(byte) = byte {
            writeln!(output, "  {name}{number}           {byte:02X}")?;
        }
    }
    Ok(())
}

/// Prints the values of the interface bytes: a reserved code as that, and those for T=1 only if the
/// card offers T=1.
fn say_values<W: Write>(answer: &Atr, output: &mut W) -> io::Result<()> {
    write!(output, "  protocols    ")?;
    for t in &answer.protocols() {
        write!(output, " T={t}")?;
    }
    writeln!(output)?;
    say_value("Fi", answer.fi(), "", output)?;
    say_value("Di", answer.di(), "", output)?;
    for t in &answer.protocols() {
        let guard = answer.guard_time(*t);
        writeln!(output, "  guard time    T={t}: {guard}")?;
    }
    say_value("waiting time", answer.waiting_time(), " cycles", output)?;
    if answer.protocols().iter().any(|t| *t == 1) {
        say_blocks(answer, output)?;
    }
    say_mode(answer.mode(), output)?;
    say_supply(answer, output)
}

/// Prints a value in its unit after its name, or that its code is reserved.
fn say_value<W: Write, T: Display + Copy>(
    name: &str,
    value: Result<T, Rfu>,
    unit: &str,
    output: &mut W,
) -> io::Result<()> {
    match value {
        Ok(value) => writeln!(output, "  {name:<14}{value}{unit}"),
        Err(rfu) => writeln!(output, "  {name:<14}{rfu}"),
    }
}

/// Prints the values for T=1: IFSC, the error detection code, CWT, BWT and BGT.
fn say_blocks<W: Write>(answer: &Atr, output: &mut W) -> io::Result<()> {
    say_value("IFSC", answer.ifsc(), "", output)?;
    say_value("EDC", answer.edc(), "", output)?;
    let wait = answer.character_waiting_time();
    writeln!(output, "  CWT           {wait} etu")?;
    say_value("BWT", answer.block_waiting_time(1), "", output)?;
    writeln!(output, "  BGT           {} etu", block_guard_time())
}

fn say_mode<W: Write>(mode: Mode, output: &mut W) -> io::Result<()> {
    match mode {
        Mode::Negotiable => writeln!(output, "  mode          negotiable"),
        Mode::Specific {
            t,
            can_change,
            is_implicit,
        } => {
            let change = if can_change { "can" } else { "can't" };
            let rate = if is_implicit { "implicit" } else { "of TA1" };
            writeln!(
                output,
                "  mode          specific, T={t}, {change} change, Fi and Di {rate}"
            )
        }
    }
}

fn say_supply<W: Write>(answer: &Atr, output: &mut W) -> io::Result<()> {
    let stop = match answer.clock_stop() {
        ClockStop::NotSupported => "not supported",
        ClockStop::AtLow => "at low",
        ClockStop::AtHigh => "at high",
        ClockStop::AtEither => "at either level",
    };
    writeln!(output, "  clock stop    {stop}")?;
    match answer.classes() {
        Ok(Classes { a, b, c }) => {
            write!(output, "  classes      ")?;
            for (name, is_there) in [("A", a), ("B", b), ("C", c)] {
                if is_there {
                    write!(output, " {name}")?;
                }
            }
            writeln!(output)
        }
        Err(rfu) => writeln!(output, "  classes       {rfu}"),
    }
}
