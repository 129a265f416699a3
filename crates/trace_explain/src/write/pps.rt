//! The box of a PPS exchange.

use crate::describe::mask::Mask;
use crate::follow::preface::Preface;
use crate::write::answer::push_rate;
use crate::write::ascii::push_hex_lines;
use crate::write::layout::{Anchor, Kind, Side, Topic};
use crate::write::page::Page;
use crate::write::sheet::Sheet;
use atr_core::{Pps, PpsFault, agreed};

/// Adds the box of a PPS exchange: request and response with their values, or what is wrong with
/// them. A mask that hides anything hides the characters of one that is cut off or invalid.
pub fn tell_pps(mask: &Mask, preface: &Preface, page: &mut Page) {
    let asked = preface.request.as_slice();
    let answered = preface.response.as_slice();
    let request = Pps::read(asked);
    let response = Pps::read(answered);
    let is_whole = request.is_ok() && response.is_ok();
    let kind = if is_whole { Kind::Well } else { Kind::CutOff };
    page.open(kind, Anchor::None, Topic::Pps, preface.line);
    push_characters(&mut page.lines, mask, asked, request.is_ok());
    push_pps(&mut page.lines, &request);
    page.row(Side::Terminal, "request");
    if answered.is_empty() {
        page.line_row("response", "none\n");
    } else {
        push_characters(&mut page.lines, mask, answered, response.is_ok());
        push_agreed(&mut page.lines, &request, &response);
        push_pps(&mut page.lines, &response);
        page.row(Side::Card, "response");
    }
    page.close();
}

/// Adds characters of an answer, request or response. A mask hides invalid ones: they may be data.
pub fn push_characters(text: &mut Sheet, mask: &Mask, bytes: &[u8], is_one: bool) {
    if is_one {
        push_hex_lines(text, bytes);
    } else {
        mask.push_unknown(text, bytes);
    }
}

/// Adds whether a response accepts the request, if both are whole.
fn push_agreed(
    text: &mut Sheet,
    request: &Result<Pps, PpsFault>,
    response: &Result<Pps, PpsFault>,
) {
    if let (Ok(request), Ok(response)) = (request, response) {
        let agree = agreed(request, response);
        text.push_str(if agree { "agreed: " } else { "not agreed: " });
    }
}

/// Adds the values of a request or response, or what is wrong with it.
fn push_pps(text: &mut Sheet, read: &Result<Pps, PpsFault>) {
    match read {
        Ok(pps) => {
            write!(text, "T={}; ", pps.t);
            push_rate(text, pps.rate_code());
            push_other(text, "PPS2", pps.pps2);
            push_other(text, "PPS3", pps.pps3);
            text.push('\n');
        }
        Err(fault) => writeln!(text, "{fault}"),
    }
}

/// Adds PPS2 or PPS3, if present.
fn push_other(text: &mut Sheet, name: &str, byte: Option<u8>) {
    if let Some(byte) = byte {
        write!(text, "; {name} {byte:02X}");
    }
}
