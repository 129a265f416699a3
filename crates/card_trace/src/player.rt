//! Carries out a script in one loop over its lines, and writes what they print.
ghost use Rattle.std.specs.Prelude.{◌≡◌, ◌<◌, ℕ, List, [], length, OnOk, IfOk, IfErr, IfSome};
ghost use Rattle.std.specs.Io.KnownBytes.{Appends};
ghost use Rattle.card_trace.specs.LineFaults.{IsFaultOfLine};
ghost use Rattle.card_trace.specs.Playing.{IsAt};
ghost use Rattle.card_trace.specs.Script.{State, section_of, RunsOn, DoesLine, RefusesLine, DoesMeaning, Builds, RefusesMeaning, ScriptWrites};
ghost use Rattle.card_trace.specs.ScriptFaults.{ScriptStops, IsNotBegun};
ghost use Rattle.card_trace.specs.ScriptReasons.{OnReason};

use crate::play_fault::PlayFault;
use crate::runner::Runner;
use crate::script::line::{Line, read_line};
use crate::script::lines::Lines;
use crate::script::reading::{SCRIPT_LIMIT, read_script};
use crate::script::reason::LineReason;
use crate::script::refusal::Refusal;
use crate::script::section::Section;
use std::alloc::AllocError;
use std::io::{Read, Write};

/// Where a script is: its lines build a table, or run a card.
#[derive(Drop)]
pub enum Player<T, R> {
    /// There was no run line yet.
    Building(T),
    /// There was a run line.
    Running(R),
}

/// Reads a whole script, carries out its lines in order, and writes what each prints.
///
/// # Errors
/// - `InputTooLong`: the script has more than `SCRIPT_LIMIT` bytes; no line is carried out, and
///   nothing is written.
/// - `Read`: the reader failed; no line is carried out, and nothing is written.
/// - `Script`: the first line that is refused, counted from 1; what the lines before it print is
///   written.
/// - `OutOfMemory`: memory ran out; what some lines from the first on print is written.
/// - `Write`: the writer failed; it is not known how much it took.
pub fn run_script<R: Runner, I: Read, W: Write>(
    alloc: R::Alloc,
    reader: &mut I,
    writer: &mut W,
) -> Result<(), PlayFault>
    ensures written { OnOk result (ScriptWrites R.script
        (I.remaining reader.old) (W.contents writer.old) (W.contents writer.new)) }
    ensures stops { IfErr result (ScriptStops R.script
        (I.remaining reader.old) (W.contents writer.old) (W.contents writer.new)) }
    ensures limited { IfSome (I.remaining reader.old) (λ bytes. SCRIPT_LIMIT < length bytes →
        IsNotBegun result (W.contents writer.old) (W.contents writer.new)) }
{
    let script = read_script(alloc, reader)?;
    let mut player = Player::Building(R::table(alloc));
    let mut number: usize = 0;
    for line in Lines::of(script.as_slice()) {
        number = number.saturating_add(1);
        player = play::<R, W>(player, alloc, line, number, writer)?;
    }
    Ok(())
}

/// Carries out the line with this number, and writes what it prints.
///
/// # Errors
/// - `Script`: the line is refused; nothing is written for it.
/// - `OutOfMemory`: memory ran out; nothing is written for the line.
/// - `Write`: the writer failed; it is not known how much it took.
fn play<R: Runner, W: Write>(
    player: Player<R::Table, R>,
    alloc: R::Alloc,
    line: &[u8],
    number: usize,
    writer: &mut W,
) -> Result<Player<R::Table, R>, PlayFault>
    ensures played { (state : State R.script) →
        IsAt R.script R.table_of R.StandsFor player state →
        IfOk result (λ player. (text : List ℕ) × (next : State R.script)
        × IsAt R.script R.table_of R.StandsFor player next
        × Appends (W.contents writer.old) (W.contents writer.new) text
        × DoesLine R.script state line.now text next) }
    ensures fault { (state : State R.script) →
        IsAt R.script R.table_of R.StandsFor player state →
        IfErr result (IsFaultOfLine (RefusesLine R.script state line.now) number
        (W.contents writer.old) (W.contents writer.new)) }
{
    match read_line::<R>(alloc, section::<R>(&player), line) {
        Err(refusal) => Err(refusal.at(number)),
        Ok(None) => Ok(player),
        Ok(Some(Line::Builds(part))) => match add::<R>(player, part) {
            Ok(player) => Ok(player),
            Err(refusal) => Err(refusal.at(number)),
        },
        Ok(Some(Line::Runs(act))) => {
            let mut runner = running::<R>(alloc, player)?;
            let printed = runner.carry_out(alloc, act)?;
            match writer.write_all(printed.text()) {
                Ok(()) => Ok(Player::Running(runner)),
                Err(_) => Err(PlayFault::Write),
            }
        }
    }
}

/// Returns the section of the next line.
fn section<R: Runner>(player: &Player<R::Table, R>) -> Section
    ensures { (state : State R.script) → IsAt R.script R.table_of R.StandsFor player.now state →
        result ≡ section_of R.script state }
{
    match player {
        Player::Building(_) => Section::Building,
        Player::Running(_) => Section::Running,
    }
}

/// Adds a part to the table.
///
/// # Errors
/// The script ends after either.
/// - `Line`: the reason to refuse the part; `LateTableLine` after a run line.
/// - `OutOfMemory`: memory ran out.
fn add<R: Runner>(
    player: Player<R::Table, R>,
    part: R::Part,
) -> Result<Player<R::Table, R>, Refusal>
    ensures added { (state : State R.script) →
        IsAt R.script R.table_of R.StandsFor player state →
        IfOk result (λ player. (next : State R.script)
        × IsAt R.script R.table_of R.StandsFor player next
        × DoesMeaning R.script state (Builds (R.part_of part)) [] next) }
    ensures refused { (state : State R.script) →
        IsAt R.script R.table_of R.StandsFor player state →
        section_of R.script state ≡ Section.Building → IfErr result (λ refusal.
        OnReason refusal (RefusesMeaning R.script state (Builds (R.part_of part)))) }
{
    match player {
        Player::Running(_) => Err(Refusal::Line(LineReason::LateTableLine)),
        Player::Building(mut table) => {
            R::add(&mut table, part)?;
            Ok(Player::Building(table))
        }
    }
}

/// Returns the card that runs; the first run line makes it from the table.
///
/// # Errors
/// - `AllocError`: memory ran out.
fn running<R: Runner>(alloc: R::Alloc, player: Player<R::Table, R>) -> Result<R, AllocError>
    ensures { (state : State R.script) → IsAt R.script R.table_of R.StandsFor player state →
        IfOk result (λ runner. (card : R.script.Card) × RunsOn R.script state card
        × R.StandsFor runner card) }
{
    match player {
        Player::Running(runner) => Ok(runner),
        Player::Building(table) => R::of(alloc, table),
    }
}
