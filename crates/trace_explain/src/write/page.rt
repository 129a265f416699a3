//! The words of an explanation, with one call for each part.
ghost use Rattle.std.specs.Prelude.{◌≡◌, true};
ghost use Rattle.trace_explain.specs.Sheets.{Joins};
ghost use Rattle.trace_explain.specs.Words.{has_own, is_own};

use crate::describe::clock::push_duration;
use crate::read::files::FileList;
use crate::write::layout::{Anchor, Kind, Layout, Medium, Side, Topic};
use crate::write::notes::push_printable;
use crate::write::row::ROW_INDENT;
use crate::write::script::SCRIPT;
use crate::write::sheet::Sheet;
use crate::write::style::STYLE;
use crate::write::words::{Form, Piece, push_pieces};
use std::alloc::{AllocError, Global};

/// The most columns of a line of text.
const COLUMNS: usize = 100;

/// The number of the first TPDU of a page that is in a part of its own.
const FIRST_PART: u64 = 2_001;

/// About how many TPDUs a part has: it ends with a command.
const PART_SIZE: u64 = 1_000;

/// Words to which parts are added: for a summary the last block alone. Once memory ran out, nothing
/// is added. A call that adds the lines clears them.
#[derive(Drop)]
pub struct Page {
    layout: Layout,
    /// The files of the trace so far.
    files: FileList,
    /// The current line of the trace.
    line: u64,
    /// The line of the trace where the current TPDU began.
    pub began: u64,
    /// Whether a field of the current object of JSON is hidden.
    is_masked: bool,
    /// Whether objects of JSON are those of a list.
    is_list: bool,
    /// Whether the next count is the first of its object.
    is_first: bool,
    pieces: Vec<Piece>,
    /// The texts of the pieces, one after another, or that of a row in the box of a TPDU.
    pub text: Sheet,
    /// Where the text of the next piece begins.
    begins: usize,
    /// From which TPDU on a page begins the next part.
    next_part: u64,
    /// The text of the next part: the title of a box, or the lines of a row or a note.
    pub lines: Sheet,
}

impl Page {
    /// An empty page.
    pub fn new(alloc: Global, layout: Layout) -> Page {
        Page {
            layout,
            files: FileList::none(alloc),
            line: 0,
            began: 0,
            is_masked: false,
            is_list: false,
            is_first: true,
            pieces: Vec::new(alloc),
            text: Sheet::new(alloc, layout),
            begins: 0,
            next_part: FIRST_PART,
            lines: Sheet::new(alloc, layout),
        }
    }

    /// Adds the words since the last `clear` to a sheet, which is cut if memory ran out for them.
    pub fn write_to(&self, sheet: &mut Sheet)
        ensures { Joins sheet.old sheet.new }
    {
        if self.is_cut() {
            sheet.cut();
        } else {
            push_pieces(sheet, self.pieces.as_slice(), self.text.as_str().as_bytes());
        }
    }

    /// Clears the words.
    pub fn clear(&mut self) {
        self.pieces.clear();
        self.text.clear();
        self.begins = 0;
    }

    /// Whether memory ran out.
    pub fn is_cut(&self) -> bool {
        self.text.is_cut() || self.lines.is_cut()
    }

    /// Whether there are no lines, and memory did not run out for them.
    pub fn is_blank(&self) -> bool {
        self.lines.is_empty() && !self.lines.is_cut()
    }

    /// Whether TPDUs are joined to commands.
    pub fn joins(&self) -> bool {
        self.layout.joins
    }

    /// Whether it is JSON.
    pub fn is_json(&self) -> bool {
        matches!(self.layout.medium, Medium::Json)
    }

    /// Whether the next part is added.
    fn prints(&self) -> bool {
        !self.layout.is_summary && !self.lines.is_cut()
    }

    /// Adds a piece with the text after that of the last one.
    fn add(&mut self, form: Form)
        requires own { has_own form ≡ true }
    {
        let end = self.text.as_str().len();
        let size = end.saturating_sub(self.begins);
        self.begins = end;
        if self.pieces.push(Piece { form, size }).is_err() {
            self.text.cut();
        }
    }

    /// Whether it is a page of HTML.
    pub fn is_html(&self) -> bool {
        matches!(self.layout.medium, Medium::Html)
    }

    /// Adds the start of a page of HTML with this title. Text has none.
    pub fn begin(&mut self, title: &str) {
        if self.is_html() {
            push_printable(&mut self.text, title.as_bytes());
            self.add(Form::Head);
            self.text.push_str(STYLE);
            self.add(Form::Style);
            self.text.push_str(SCRIPT);
            self.add(Form::Script);
            push_printable(&mut self.text, title.as_bytes());
            self.add(Form::Heading);
        }
    }

    /// Begins a part of a page with the TPDU of this number, if the one before is full. A browser
    /// that runs the script reads a part when it is opened. Any other reads all parts at once.
    pub fn begin_part(&mut self, number: u64) {
        if self.prints() && number >= self.next_part {
            self.end_part();
            self.add(Form::Part(number));
            self.next_part = number.saturating_add(PART_SIZE);
        }
    }

    /// Ends the part of a page, if there is one.
    fn end_part(&mut self) {
        if self.next_part > FIRST_PART {
            self.add(Form::PartEnd);
        }
    }

    /// Begins this line of the trace, of these files. Returns `AllocError` if memory ran out.
    pub fn enter(&mut self, files: &FileList, line: u64) -> Result<(), AllocError> {
        self.line = line;
        self.files.extend(files, line)
    }

    /// Notes that a TPDU begins in the current line, and returns its number in its file.
    pub fn begin_tpdu(&mut self) -> u64 {
        self.began = self.line;
        self.files.number(self.line)
    }

    /// Adds the name of the file where the current TPDU began, if any, to the lines.
    pub fn push_file(&mut self) {
        let _ = push_file(&mut self.lines, &self.files, self.began);
    }

    /// Adds a line of the trace, after the name of its file, if any, to the lines.
    pub fn push_place(&mut self, line: u64) {
        push_place(&mut self.lines, &self.files, line);
    }

    /// Opens a box about this.
    pub fn open(&mut self, kind: Kind, anchor: Anchor, topic: Topic, line: u64) {
        if self.prints() {
            if self.is_list {
                self.add(Form::Comma);
            }
            let number = self.files.number(line);
            self.add(Form::Box(kind, anchor, topic, number));
            if push_file(&mut self.text, &self.files, line) {
                self.add(Form::Row(Side::Nobody, "file"));
            }
        }
    }

    /// Closes the box. Text has no end of a box.
    pub fn close(&mut self) {
        if self.prints() {
            if self.is_masked {
                self.add(Form::True("masked"));
                self.is_masked = false;
            }
            self.add(Form::BoxEnd);
            self.end_line();
        }
    }

    /// Ends the line of an object of JSON, unless it is in a list.
    pub fn end_line(&mut self) {
        if self.is_json() && self.prints() && !self.is_list {
            self.add(Form::LineEnd);
        }
    }

    /// Adds the lines as a row with this label. Adds nothing if there are no lines.
    pub fn row(&mut self, side: Side, label: &'static str)
        requires own { is_own label.now ≡ true }
    {
        if self.prints() {
            if self.is_json() && self.lines.hides() {
                self.add(Form::Null(label));
                self.is_masked = true;
            } else {
                self.wrap(ROW_INDENT.len());
                self.add(Form::Row(side, label));
            }
        }
        self.lines.clear();
    }

    /// Adds bytes with this label to an object of JSON.
    pub fn bytes(&mut self, label: &'static str, bytes: &[u8])
        requires own { is_own label.now ≡ true }
    {
        if self.prints() {
            self.text.push_str("\n");
            self.text.push_hex(bytes);
            self.add(Form::Row(Side::Nobody, label));
        }
    }

    /// Adds a field without a value to an object of JSON.
    pub fn null(&mut self, label: &'static str)
        requires own { is_own label.now ≡ true }
    {
        if self.prints() {
            self.add(Form::Null(label));
        }
    }

    /// Adds a number with this label to an object of JSON.
    pub fn number(&mut self, label: &'static str, number: u64)
        requires own { is_own label.now ≡ true }
    {
        if self.prints() {
            self.add(Form::Number(label, number));
        }
    }

    /// Begins counts with this label.
    pub fn begin_counts(&mut self, label: &'static str)
        requires own { is_own label.now ≡ true }
    {
        if self.is_json() {
            self.add(Form::Map(label));
            self.is_first = true;
        }
    }

    /// Adds a count of what the last line names.
    pub fn count(&mut self, number: u64) {
        if !self.is_json() {
            writeln!(self.lines, ": {number}");
            return;
        }
        if !self.is_first {
            self.add(Form::Comma);
        }
        self.is_first = false;
        self.text.push_str(self.lines.as_str());
        self.add(Form::Count(number));
        self.lines.clear();
    }

    /// Ends these counts, with this line if it has no count.
    pub fn end_counts(&mut self, label: &'static str, none: &str)
        requires own { is_own label.now ≡ true }
    {
        if self.is_json() {
            self.add(Form::BoxEnd);
            return;
        }
        if self.lines.is_empty() {
            self.lines.push_str(none);
        }
        self.row(Side::Nobody, label);
    }

    /// Begins the list of the TPDUs of a command.
    pub fn begin_list(&mut self) {
        if self.prints() {
            self.add(Form::List);
            self.is_list = self.is_json();
        }
    }

    /// Separates a TPDU from those before it in the list.
    pub fn separate(&mut self) {
        if self.prints() && self.is_list {
            self.add(Form::Comma);
        }
    }

    /// Ends the list.
    pub fn end_list(&mut self) {
        if self.prints() {
            self.add(Form::ListEnd);
            self.is_list = false;
        }
    }

    /// Adds the lines as the line of a command.
    pub fn command(&mut self) {
        if self.prints() {
            self.wrap(2);
            self.add(Form::Command);
        }
        self.lines.clear();
    }

    /// Adds the lines that are not empty to the text, each after LF, the first from this column on.
    pub fn wrap(&mut self, begins: usize) {
        let mut begins = begins;
        for line in self.lines.as_str().lines() {
            if !line.is_empty() {
                self.text.push('\n');
                push_wrapped(&mut self.text, line, begins, "\n", ROW_INDENT.len());
                begins = ROW_INDENT.len();
            }
        }
        self.clear_lines();
    }

    /// Adds the lines to the text as a TPDU's title, with this number and the line where it began.
    pub fn wrap_title(&mut self, number: u64, line: u64) {
        let begins = "# ".len().saturating_add(digits(number));
        let column = push_wrapped(&mut self.text, self.lines.as_str(), begins, "\n", 4);
        if matches!(self.layout.medium, Medium::Text) {
            let width = "  (line )".len().saturating_add(digits(line));
            let is_long = column.saturating_add(width) > COLUMNS;
            self.text.push_str(if is_long { "\n" } else { "  " });
        }
        self.clear_lines();
    }

    /// Clears the lines. If memory ran out for them, it has for the text.
    fn clear_lines(&mut self) {
        if self.lines.is_cut() {
            self.text.cut();
        }
        self.lines.clear();
    }

    /// Adds a row of the program with this label, and this text after the lines.
    pub fn line_row(&mut self, label: &'static str, line: &str)
        requires own { is_own label.now ≡ true }
    {
        self.lines.push_str(line);
        self.row(Side::Nobody, label);
    }

    /// Opens the last block, which is always written. A page shows it first.
    pub fn open_block(&mut self) {
        self.end_part();
        self.layout.is_summary = false;
        self.add(Form::Block);
    }

    /// Closes the last block, and ends a page.
    pub fn close_block(&mut self) {
        self.add(Form::BlockEnd);
    }

    /// Adds the scale of the bars on a page to the lines, by the longest time of a TPDU in
    /// microseconds; nothing if no time is known.
    pub fn push_most(&mut self, micros: u64) {
        if self.is_html() && micros > 0 {
            self.add(Form::Most(micros));
            self.lines.push_str("the longest bar: ");
            push_duration(&mut self.lines, micros.saturating_mul(1_000));
            self.lines.push_str("; its solid part is the card's\n");
        }
    }

    /// Adds links to the first of `all` faults, which are in these lines, and how many are left.
    /// Text has no links.
    pub fn link_faults(&mut self, lines: &[u64], all: u64) {
        if all == 0 {
            return;
        }
        self.text.push_str("faults in");
        self.add(Form::Links);
        let mut number: u64 = 0;
        for line in lines {
            if number < all {
                number = number.saturating_add(1);
                push_place(&mut self.text, &self.files, *line);
                self.add(Form::Link(Anchor::Error(number)));
            }
        }
        if all > number {
            write!(self.text, " and {} more", all.saturating_sub(number));
        }
        self.add(Form::More);
    }

    /// Adds links to the first of `all` TPDUs with this status, and to the next one, by their
    /// numbers. Text has no links.
    pub fn link_status(&mut self, word: u16, all: u64, first: u64, next: Option<u64>) {
        let warning = if matches!(word >> 8, 0x62 | 0x63) {
            " a warning"
        } else {
            ""
        };
        let times = if all == 1 { "time" } else { "times" };
        write!(self.text, "{word:04X}{warning}, {all} {times}:");
        self.add(Form::Links);
        self.link_tpdu("first", first);
        if let Some(number) = next {
            self.link_tpdu("next", number);
        }
        self.add(Form::More);
    }

    /// Adds a link with this word to the TPDU with this number.
    fn link_tpdu(&mut self, word: &str, number: u64) {
        write!(self.text, "{word} (#{number})");
        self.add(Form::Link(Anchor::Tpdu(number)));
    }

    /// Adds how many statuses have no link, if any.
    pub fn link_no_more(&mut self, statuses: u64) {
        if statuses > 0 {
            let word = if statuses == 1 { "status" } else { "statuses" };
            write!(self.text, "{statuses} more {word}");
            self.add(Form::Links);
            self.add(Form::More);
        }
    }

    /// Adds the lines as a note, with their empty lines; nothing if there are no lines. In JSON it
    /// is an object about this topic.
    pub fn note(&mut self, topic: Topic) {
        if self.is_json() && !self.lines.is_empty() {
            self.open(Kind::Well, Anchor::None, topic, self.line);
            self.row(Side::Nobody, "text");
            self.close();
        }
        if self.prints() && !self.lines.is_empty() {
            match self.layout.medium {
                Medium::Html | Medium::Json => self.text.push_str(self.lines.as_str()),
                Medium::Text => {
                    for line in self.lines.as_str().lines() {
                        self.text.push('\n');
                        push_wrapped(&mut self.text, line, 2, "\n  ", 4);
                    }
                }
            }
            self.add(Form::Note);
        }
        self.lines.clear();
    }

    /// Adds a note that ends with this text, after the lines.
    pub fn note_line(&mut self, line: &str) {
        self.lines.push_str(line);
        self.note(Topic::Note);
    }
}

/// Adds words that begin in this column, counted from 0. Where a line of text is full, `wrap`
/// replaces a space, and the words continue in column `indent`. Returns the column after the words.
fn push_wrapped(out: &mut Sheet, words: &str, begins: usize, wrap: &str, indent: usize) -> usize {
    let behind = begins.saturating_add(words.len());
    if behind <= COLUMNS || !matches!(out.layout().medium, Medium::Text) {
        out.push_str(words);
        return behind;
    }
    let mut column = begins;
    let mut is_first = true;
    for word in words.split(' ') {
        let behind = column.saturating_add(word.len());
        if is_first {
            column = behind;
        } else if behind < COLUMNS {
            out.push(' ');
            column = behind.saturating_add(1);
        } else {
            out.push_str(wrap);
            column = indent.saturating_add(word.len());
        }
        out.push_str(word);
        is_first = false;
    }
    column
}

/// Adds the name of the file of a line, after LF. Returns whether it has one.
fn push_file(text: &mut Sheet, files: &FileList, line: u64) -> bool {
    match files.at(line).0 {
        Some(name) => {
            write!(text, "\n{name}");
            true
        }
        None => false,
    }
}

/// Adds a line, after the name of its file, if any.
fn push_place(text: &mut Sheet, files: &FileList, line: u64) {
    let (name, number) = files.at(line);
    if let Some(name) = name {
        write!(text, "{name} ");
    }
    write!(text, "line {number}");
}

/// The number of decimal digits of a number.
fn digits(number: u64) -> usize {
    (number.checked_ilog10().unwrap_or(0) as usize).saturating_add(1)
}
