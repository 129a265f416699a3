//! Carries out scripts of `play` and of `card`.
ghost use Rattle.std.specs.Prelude.{◌<◌, length, OnOk, IfErr, IfSome};
ghost use Rattle.card_trace.specs.CardScripts.{card_script};
ghost use Rattle.card_trace.specs.Script.{ScriptWrites};
ghost use Rattle.card_trace.specs.ScriptFaults.{ScriptStops, IsNotBegun};
ghost use Rattle.card_trace.specs.Scripts.{play_script};

use crate::both_ends::BothEnds;
use crate::lone_card::LoneCard;
use crate::play_fault::PlayFault;
use crate::player::run_script;
use crate::script::reading::SCRIPT_LIMIT;
use std::alloc::Allocator;
use std::io::{Read, Write};

/// Carries out a script of `play` with a terminal and a card, and writes what its lines print. The
/// errors are those of `run_script`.
pub fn play_lines<A: Allocator + Copy, R: Read, W: Write>(
    alloc: A,
    reader: &mut R,
    writer: &mut W,
) -> Result<(), PlayFault>
    ensures written { OnOk result (ScriptWrites play_script
        (R.remaining reader.old) (W.contents writer.old) (W.contents writer.new)) }
    ensures stops { IfErr result (ScriptStops play_script
        (R.remaining reader.old) (W.contents writer.old) (W.contents writer.new)) }
    ensures limited { IfSome (R.remaining reader.old) (λ bytes. SCRIPT_LIMIT < length bytes →
        IsNotBegun result (W.contents writer.old) (W.contents writer.new)) }
{
    run_script::<BothEnds<A>, R, W>(alloc, reader, writer)
}

/// Carries out a script of `card` with the card alone, and writes what its lines print. The errors
/// are those of `run_script`.
pub fn card_lines<A: Allocator + Copy, R: Read, W: Write>(
    alloc: A,
    reader: &mut R,
    writer: &mut W,
) -> Result<(), PlayFault>
    ensures written { OnOk result (ScriptWrites card_script
        (R.remaining reader.old) (W.contents writer.old) (W.contents writer.new)) }
    ensures stops { IfErr result (ScriptStops card_script
        (R.remaining reader.old) (W.contents writer.old) (W.contents writer.new)) }
    ensures limited { IfSome (R.remaining reader.old) (λ bytes. SCRIPT_LIMIT < length bytes →
        IsNotBegun result (W.contents writer.old) (W.contents writer.new)) }
{
    run_script::<LoneCard<A>, R, W>(alloc, reader, writer)
}
