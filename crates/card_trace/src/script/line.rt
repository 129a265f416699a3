//! Reads a line of a script.
ghost use Rattle.std.specs.Prelude.{◌≡◌, [], IfOk, IfErr, MatchOption};
ghost use Rattle.card_trace.specs.LineMeaning.{meaning_of};
ghost use Rattle.card_trace.specs.Script.{Says, SaysNothing, DeniesWords};
ghost use Rattle.card_trace.specs.ScriptReasons.{OnReason};
ghost use Rattle.card_trace.specs.ScriptWords.{words_of};

use crate::runner::Runner;
use crate::script::keyword::Keyword;
use crate::script::reason::LineReason;
use crate::script::refusal::Refusal;
use crate::script::section::Section;
use crate::script::words::first_of_line;

/// What a line of a script says.
#[derive(Drop)]
pub enum Line<P, A> {
    /// A table line: a part of the card.
    Builds(P),
    /// A run line: what to do with the card.
    Runs(A),
}

/// Reads a line; `None` if it is empty, has only spaces or starts with `#`, and is passed over.
///
/// # Errors
/// - `Line`: the first reason that holds: an unknown word, a table line in the run section, a wrong
///   number of words, or the first invalid field from the left.
/// - `OutOfMemory`: memory ran out for a field.
pub fn read_line<R: Runner>(
    alloc: R::Alloc,
    section: Section,
    line: &[u8],
) -> Result<Option<Line<R::Part, R::Act>>, Refusal>
    ensures ok { IfOk result (λ read. MatchOption read (words_of line.now ≡ [])
        (λ meant. Says R.script section (words_of line.now)
        (meaning_of R.script R.part_of R.act_of meant))) }
    ensures refused { IfErr result (λ refusal.
        OnReason refusal (λ reason. SaysNothing R.script section line.now
        × DeniesWords R.script section (words_of line.now) reason)) }
{
    let Some((word, rest)) = first_of_line(line) else {
        return Ok(None);
    };
    let keyword = Keyword::of(word).ok_or(LineReason::UnknownWord)?;
    let meant = R::read(alloc, section, keyword, rest)?;
    Ok(Some(meant))
}
