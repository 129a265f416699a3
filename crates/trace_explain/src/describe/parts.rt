//! Words for commands: their names, and what P1-P2 mean.

use crate::describe::file_names::file_name;
use crate::instructions::{Parts, instruction, name_of_command};
use crate::write::sheet::Sheet;
use apdu_core::Header;
use tlv_core::ObjectTag;

/// The most bytes of an identifier or a path that a title shows.
const LONGEST_NAME: usize = 16;

/// Bit 8 of P1 in commands for bytes: bits 5 to 1 are a short file identifier.
const SHORT: u8 = 0x80;

/// The short file identifier that names no file.
const NO_FILE: u8 = 0x1F;

/// Adds the name of a command, what P1-P2 mean, and its class if that is not `00` or `10`. If the
/// instruction is unknown, it adds INS and P1-P2 as digits. `sent` is the data of SELECT.
pub fn push_command(text: &mut Sheet, header: Header, sent: &[u8]) {
    match instruction(header.cla, header.ins) {
        Some((name, _, parts)) => {
            text.push_str(name);
            match parts {
                Parts::Selected => push_selected(text, header, sent),
                Parts::Object => push_object(text, header),
                Parts::Place => push_place(text, header),
                Parts::Records => push_records(text, header),
                Parts::Reference => push_reference(text, header),
                Parts::Channel => push_channel(text, header),
                Parts::Cryptogram => push_cryptogram(text, header),
                Parts::Others => push_others(text, header),
            }
        }
        None => push_unlisted(text, header),
    }
    match header.cla {
        0x00 | 0x10 => {}
        cla => write!(text, ", class {cla:02X}"),
    }
}

/// Adds the name of a command that P1 tells from others, or INS; and P1-P2.
fn push_unlisted(text: &mut Sheet, header: Header) {
    if let Some(name) = name_of_command(header) {
        text.push_str(name);
        return push_others(text, header);
    }
    write!(text, "INS {:02X}", header.ins);
    push_parameters(text, header);
}

/// Adds P1 and P2 as they are.
fn push_parameters(text: &mut Sheet, header: Header) {
    write!(text, " with P1-P2 {:02X}{:02X}", header.p1, header.p2);
}

/// Adds P1 and P2, if they are not `0000`.
fn push_others(text: &mut Sheet, header: Header) {
    if header.p1 != 0 || header.p2 != 0 {
        push_parameters(text, header);
    }
}

/// Adds the tag of the object that P1-P2 name, or P1 and P2 if they name none.
fn push_object(text: &mut Sheet, header: Header) {
    match ObjectTag::from_p1p2(header.p1, header.p2) {
        Some(tag) => {
            text.push_str(" of ");
            text.push_hex(tag.tag().bytes());
        }
        None => push_others(text, header),
    }
}

/// Adds what SELECT selects. P1 says what its data are, and bits 2-1 of P2 which of several files
/// (ISO/IEC 7816-4, 7.1.1).
fn push_selected(text: &mut Sheet, header: Header, name: &[u8]) {
    let what = match header.p1 {
        0x00 => "file",
        0x01 => "child DF",
        0x02 => "EF",
        0x03 => "parent DF",
        0x04 => "by identifier",
        0x08 => "by path from the MF",
        0x09 => "by path from the current DF",
        _ => return push_parameters(text, header),
    };
    let is_named = (1..=LONGEST_NAME).contains(&name.len());
    if !is_named || header.p1 != 0x04 {
        write!(text, " {what}");
    }
    if is_named {
        text.push(' ');
        text.push_hex(name);
        push_file(text, header, name);
    } else if !name.is_empty() {
        text.push_str(", a long one");
    }
    let which = header.p2 & 0x03;
    if which != 0 {
        text.push_str(occurrence(which));
    }
}

/// Adds the name of the file with this identifier or path, if it has one.
fn push_file(text: &mut Sheet, header: Header, path: &[u8]) {
    let name = file_name(header.cla, path);
    if header.p1 != 0x04 && !name.is_empty() {
        write!(text, " ({name})");
    }
}

/// Adds where the bytes are. P1-P2 are the offset, or P1 contains a short file identifier and P2 is
/// the offset (ISO/IEC 7816-4, 7.2.2).
fn push_place(text: &mut Sheet, header: Header) {
    let Header { p1, p2, .. } = header;
    if p1 & SHORT == 0 {
        let offset = u16::from_be_bytes([p1, p2]);
        return write!(text, " from byte {offset} on");
    }
    let file = p1 & NO_FILE;
    if p1 & 0x60 != 0 || file == 0 || file == NO_FILE {
        return push_parameters(text, header);
    }
    write!(text, " of file {file} from byte {p2} on");
}

/// Adds which records. P1 is a number or an identifier, bits 3-1 of P2 say which, and bits 8-4 are
/// a short file identifier (ISO/IEC 7816-4, 7.3.2).
fn push_records(text: &mut Sheet, header: Header) {
    let Header { ins, p1, p2, .. } = header;
    let file = p2 >> 3;
    if file == NO_FILE {
        return push_parameters(text, header);
    }
    match (ins, p2 & 0x07, p1) {
        (0xE2, 0, 0) => {}
        (0xE2, _, _) => return push_parameters(text, header),
        (_, 4, 0) => text.push_str(", the current one"),
        (_, 4, _) => write!(text, " {p1}"),
        (0xB2 | 0x0C, 5, 1..) => write!(text, "S {p1} to the last"),
        (0xB2, 6, 1..) => write!(text, "S from the last to {p1}"),
        (0xB2 | 0xD2 | 0xDC, which @ 0..=3, 0) => text.push_str(occurrence(which)),
        (0xB2, which @ 0..=3, _) => write!(text, "{} with identifier {p1:02X}", occurrence(which)),
        _ => return push_parameters(text, header),
    }
    if file != 0 {
        write!(text, " of file {file}");
    }
}

/// Which of several records, by bits 2-1 of P2.
fn occurrence(which: u8) -> &'static str {
    match which {
        0 => ", the first one",
        1 => ", the last one",
        2 => ", the next one",
        _ => ", the previous one",
    }
}

/// Adds the reference in P2. Bit 8 says whether it belongs to the application, and bits 5-1 are a
/// number (ISO/IEC 7816-4, 7.5.1).
fn push_reference(text: &mut Sheet, header: Header) {
    let p2 = header.p2;
    let number = p2 & 0x1F;
    let kind = if p2 & 0x80 == 0 { "global" } else { "specific" };
    match (p2 & 0x60, number) {
        (0, 0) if p2 == 0 => {}
        (0, 0) => write!(text, ", {kind} reference"),
        (0, _) => write!(text, ", {kind} reference {number}"),
        _ => write!(text, ", reference {p2:02X}"),
    }
}

/// Adds what MANAGE CHANNEL does (ISO/IEC 7816-4, 7.1.2).
fn push_channel(text: &mut Sheet, header: Header) {
    let Header { p1, p2, .. } = header;
    match (p1, p2) {
        (0x00, 0x00) => text.push_str(", opens one"),
        (0x00, 0x01..=0x13) => write!(text, ", opens channel {p2}"),
        (0x80, 0x00) => text.push_str(", closes its own"),
        (0x80, 0x01..=0x13) => write!(text, ", closes channel {p2}"),
        _ => push_parameters(text, header),
    }
}

/// Adds which cryptogram GENERATE AC asks for (bits 8-7 of P1), and whether signed (bit 5; EMV 4.3,
/// Book 3, 6.5.5).
fn push_cryptogram(text: &mut Sheet, header: Header) {
    let signed = match header.p1 & 0x3F {
        0x00 => "",
        0x10 => ", signed",
        _ => return push_parameters(text, header),
    };
    text.push_str(match header.p1 >> 6 {
        0 => ", an AAC",
        1 => ", a TC",
        2 => ", an ARQC",
        _ => return push_parameters(text, header),
    });
    text.push_str(signed);
}
