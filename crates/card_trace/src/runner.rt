//! The trait of what carries out a script, of either kind.
ghost use Rattle.std.specs.Prelude.{◌≡◌, List, ℕ, OnOk, IfOk, IfErr};
ghost use Rattle.card_trace.specs.LineMeaning.{meaning_of};
ghost use Rattle.card_trace.specs.PrintedText.{printed_text};
ghost use Rattle.card_trace.specs.Script.{Script, Meaning, SaysBy};
ghost use Rattle.card_trace.specs.ScriptReasons.{OnReason};
ghost use Rattle.card_trace.specs.ScriptWords.{words_in};
ghost use Rattle.card_trace.specs.declared.script.keyword.Keyword.{Keyword};

use crate::printed::Printed;
use crate::script::keyword::Keyword;
use crate::script::line::Line;
use crate::script::refusal::Refusal;
use crate::script::section::Section;
use std::alloc::{AllocError, Allocator};

/// What carries out run lines: a terminal and a card in a session (`play`), or a card alone
/// (`card`).
pub trait Runner: Drop {
    /// The allocator.
    type Alloc: Allocator + Copy;
    /// What a table line says.
    type Part: Drop;
    /// What a run line says.
    type Act: Drop;
    /// What table lines have added.
    type Table: Drop;

    /// What the lines say and do.
    ghost script: { Script };

    /// What values of these types stand for.
    ghost part_of: { Self.Part → script.Part };

    ghost act_of: { Self.Act → script.Act };

    ghost table_of: { Self.Table → script.Table };

    ghost StandsFor: { Self → script.Card → Type 0 };

    /// Reads a line with this first word; `rest` is what follows it.
    ///
    /// # Errors
    /// - `Line`: the first reason that holds: an unknown word, a late table line, a wrong number of
    ///   words, or the first invalid field.
    /// - `OutOfMemory`: memory ran out for a field.
    fn read(
        alloc: Self::Alloc,
        section: Section,
        keyword: Keyword,
        rest: &[u8],
    ) -> Result<Line<Self::Part, Self::Act>, Refusal>
        ensures ok { IfOk result (λ line. SaysBy script section keyword (words_in rest.now)
            (meaning_of script part_of act_of line)) }
        ensures refused { IfErr result (λ refusal. OnReason refusal (λ reason.
            script.Denies section keyword (words_in rest.now) reason
            × ((meaning : Meaning script) → ¬ SaysBy script section keyword (words_in rest.now)
            meaning))) };

    /// The empty table.
    fn table(alloc: Self::Alloc) -> Self::Table
        ensures { table_of result ≡ script.empty };

    /// Adds a part to the table.
    ///
    /// # Errors
    /// The script ends after either.
    /// - `Line`: the reason to refuse the part.
    /// - `OutOfMemory`: memory ran out.
    fn add(table: &mut Self::Table, part: Self::Part) -> Result<(), Refusal>
        ensures added { OnOk result
            (script.Adds (table_of table.old) (part_of part) (table_of table.new)) }
        ensures refused { IfErr result (λ refusal.
            OnReason refusal (script.Refuses (table_of table.old) (part_of part))) };

    /// Makes the card of a table, with nothing selected or pending.
    ///
    /// # Errors
    /// - `AllocError`: memory ran out; the script ends.
    fn of(alloc: Self::Alloc, table: Self::Table) -> Result<Self, AllocError>
        ensures { IfOk result (λ runner. (card : script.Card)
            × script.Begins (table_of table) card × StandsFor runner card) };

    /// Carries out an act, and returns what it prints. The act must be one that a line can say.
    ///
    /// # Errors
    /// - `AllocError`: memory ran out; the script ends.
    fn carry_out(
        &mut self,
        alloc: Self::Alloc,
        act: Self::Act,
    ) -> Result<Printed<Self::Alloc>, AllocError>
        requires { (keyword : Keyword) × (fields : List (List ℕ))
            × script.SaysAct (act_of act) keyword fields }
        ensures { IfOk result (λ printed. (card : script.Card) → StandsFor self.old card →
            (next : script.Card) × StandsFor self.new next
            × script.Does card (act_of act) (printed_text printed) next) };
}
