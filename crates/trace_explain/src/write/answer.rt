//! The box of an answer to reset.
ghost use Rattle.std.specs.Prelude.{◌≡◌};
ghost use Rattle.atr_core.specs.Values.{protocols_of};
ghost use Rattle.trace_explain.specs.Openings.{unread};

use crate::describe::mask::Mask;
use crate::follow::opening::{is_direct, is_short};
use crate::follow::preface::Preface;
use crate::write::ascii::push_digits;
use crate::write::counts::Counts;
use crate::write::layout::{Anchor, Kind, Side, Topic};
use crate::write::page::Page;
use crate::write::pps::push_characters;
use crate::write::sheet::Sheet;
use atr_core::{Atr, AtrFault, Category, Fi, di};

/// Adds the box of an answer, and counts one that is cut off or invalid. A mask that hides anything
/// hides the characters of one that is not whole, since they may be the end of some data.
pub fn tell_answer(mask: &Mask, preface: &Preface, counts: &mut Counts, page: &mut Page) {
    let bytes = preface.answer.as_slice();
    let read = Atr::read(bytes);
    let (kind, anchor) = match &read {
        Ok(_) => (Kind::Well, Anchor::None),
        Err(fault) => (kind_of(fault), counts.fault(preface.line)),
    };
    page.open(kind, anchor, Topic::Answer, preface.line);
    push_characters(&mut page.lines, mask, bytes, read.is_ok());
    page.row(Side::Card, "characters");
    if !is_direct(preface.turned) {
        let turned = "by the direct convention, so that TS was 03; all characters are shown turned
";
        page.line_row("read", turned);
    }
    match read {
        Ok(answer) => tell_values(&answer, page),
        Err(fault) => {
            writeln!(page.lines, "{fault} (TS is at 0)");
            page.row(Side::Nobody, "fault");
        }
    }
    page.close();
}

/// The kind of the box of an answer that is cut off or invalid.
fn kind_of(fault: &AtrFault) -> Kind {
    if is_short(fault.reason) {
        Kind::CutOff
    } else {
        Kind::Error
    }
}

/// Adds the values of a whole answer.
fn tell_values(answer: &Atr, page: &mut Page) {
    writeln!(page.lines, "{}", answer.convention());
    page.row(Side::Nobody, "convention");
    push_protocols(&mut page.lines, answer);
    page.row(Side::Nobody, "protocols");
    tell_unread(answer, page);
    push_rate(&mut page.lines, answer.rate_code());
    page.line_row("rate", "\n");
    push_guard_times(&mut page.lines, answer);
    page.row(Side::Nobody, "guard time");
    push_waiting_time(&mut page.lines, answer);
    page.row(Side::Nobody, "waiting");
    push_digits(&mut page.lines, answer.historical());
    page.lines.push('\n');
    page.line_row("historical", form_of(answer));
}

/// Adds a hint, if the program does not read the protocol that the card offers first.
fn tell_unread(answer: &Atr, page: &mut Page) {
    if let Some(t) = unread(answer) {
        write!(page.lines, "the card offers T={t} first");
        page.line_row("hint", ", and this program reads T=0 and T=1\n");
    }
}

/// Returns the first protocol that an answer offers, if it is neither T=0 nor T=1.
fn unread(answer: &Atr) -> Option<u8>
    ensures { result ≡ unread (protocols_of answer.now.others) }
{
    match answer.protocols().as_slice() {
        [t, ..] if *t > 1 => Some(*t),
        _ => None,
    }
}

/// Adds the protocols, in the order of the offer.
fn push_protocols(text: &mut Sheet, answer: &Atr) {
    for t in &answer.protocols() {
        if !text.is_empty() {
            text.push_str(", ");
        }
        write!(text, "T={t}");
    }
    text.push('\n');
}

/// Adds Fi with its clock frequency, and Di, by their code in TA1 or PPS1; or that one is reserved.
pub fn push_rate(text: &mut Sheet, code: u8) {
    match Fi::of(code) {
        Ok(fi) => write!(text, "Fi {fi}; "),
        Err(rfu) => write!(text, "Fi {rfu}; "),
    }
    match di(code) {
        Ok(di) => write!(text, "Di {di}"),
        Err(rfu) => write!(text, "Di {rfu}"),
    }
}

/// Adds the guard time of each protocol.
fn push_guard_times(text: &mut Sheet, answer: &Atr) {
    for t in &answer.protocols() {
        writeln!(text, "T={t}: {}", answer.guard_time(*t));
    }
}

/// Adds the waiting time of T=0, if offered.
fn push_waiting_time(text: &mut Sheet, answer: &Atr) {
    match answer.waiting_time() {
        _ if !answer.protocols().contains(&0) => {}
        Ok(cycles) => writeln!(text, "T=0: {cycles} clock cycles"),
        Err(rfu) => writeln!(text, "T=0: {rfu}"),
    }
}

/// The form of the historical bytes.
fn form_of(answer: &Atr) -> &'static str {
    match answer.category() {
        Category::Absent => "none\n",
        Category::StatusBehind => "objects in COMPACT-TLV, and a status of three bytes\n",
        Category::DirReference => "a reference to EF.DIR\n",
        Category::Objects => "objects in COMPACT-TLV\n",
        Category::Reserved => "a reserved form\n",
        Category::Proprietary => "a proprietary form\n",
    }
}
