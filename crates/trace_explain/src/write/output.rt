//! The output: proved boxes of TPDUs, joined with words.
ghost use Rattle.std.specs.Prelude.{◌≡◌, [], true, false, IfErr, OnOk};
ghost use Rattle.std.specs.String.{string_bytes};
ghost use Rattle.trace_explain.specs.Sheets.{IsRow, Joins, Puts};

use crate::write::layout::{Layout, Side};
use crate::write::page::Page;
use crate::write::row::{ROW_INDENT, push_row_of};
use crate::write::sheet::Sheet;
use std::alloc::{AllocError, Global};

/// The output, and the words that are still to be joined to it.
#[derive(Drop)]
pub struct Output {
    /// Words, about which nothing is proved.
    pub page: Page,
    /// The output so far.
    pub sheet: Sheet,
}

impl Output {
    /// An empty output.
    pub fn new(alloc: Global, layout: Layout) -> Output
        ensures layout { result.sheet.layout ≡ layout }
        ensures text { string_bytes result.sheet.text ≡ [] }
    {
        Output {
            page: Page::new(alloc, layout),
            sheet: Sheet::new(alloc, layout),
        }
    }

    /// Joins the words to the output, and clears them.
    pub fn join(&mut self)
        ensures { Joins self.old.sheet self.new.sheet }
    {
        self.page.write_to(&mut self.sheet);
        self.page.clear();
    }

    /// Adds the lines of the page as a row of a TPDU with this label. Adds nothing without lines.
    /// Words that wait must be joined before.
    pub fn row(&mut self, side: Side, label: &str)
        ensures { Puts (IsRow side label.now) self.old.sheet self.new.sheet }
    {
        if self.page.is_blank() {
            return;
        }
        self.page.wrap(ROW_INDENT.len());
        push_row_of(&mut self.sheet, side, label, &self.page.text);
        self.page.text.clear();
    }

    /// Joins the words. Returns an error if memory ran out, now or before.
    pub fn outcome(&mut self) -> Result<(), AllocError>
        ensures joins { Joins self.old.sheet self.new.sheet }
        ensures whole { OnOk result (self.new.sheet.is_cut ≡ false) }
        ensures cut { IfErr result (λ _. self.new.sheet.is_cut ≡ true) }
    {
        self.join();
        self.sheet.is_whole()
    }
}
