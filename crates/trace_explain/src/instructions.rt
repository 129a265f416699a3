//! The instructions that the program knows: one table for names, ways of data, P1-P2 and secrets.
ghost use Rattle.std.specs.Prelude.{◌≡◌};
ghost use Rattle.trace_explain.specs.Secrets.{brings_none, has_messaging, is_secret};
ghost use Rattle.trace_explain.specs.WaysOf.{by_standard, everywhere, interindustry, interindustry_brings_none, is_among, own_way, proprietary, sim, sim_brings_none, way_in};

use crate::instructions::Parts::{
    Channel, Cryptogram, Object, Others, Place, Records, Reference, Selected,
};
use apdu_core::Header;
use t0_core::Direction;
use t0_core::Direction::{FromCard, ToCard};

/// The class of a SIM card.
pub const SIM_CLASS: u8 = 0xA0;

/// What P1 and P2 of a command mean (ISO/IEC 7816-4, 7).
#[derive(Clone, Copy)]
pub enum Parts {
    /// What is selected, and which of several.
    Selected,
    /// The tag of an object.
    Object,
    /// The offset of bytes in a file.
    Place,
    /// Which records.
    Records,
    /// The reference of data that both ends know.
    Reference,
    /// What is done with a channel.
    Channel,
    /// Which cryptogram is asked for (EMV 4.3, Book 3, 6.5.5).
    Cryptogram,
    /// Something else. The program shows their digits, unless they are `0000`.
    Others,
}

/// The name of an instruction, which way its data go if it has any, and what P1 and P2 mean.
pub type Instruction = (&'static str, Direction, Parts);

/// Returns the instruction with this CLA and INS; `None` if the program does not know it.
///
/// CLA `00` to `7F` are the classes of ISO/IEC 7816-4, `80` to `8F` those of EMV, a UICC and
/// GlobalPlatform, and `A0` is that of a SIM card. If the class has no such INS, SELECT, GET
/// RESPONSE, GET DATA and PUT DATA are read alike in every class (profile).
pub fn instruction(cla: u8, ins: u8) -> Option<Instruction>
    ensures { way_in result ≡ by_standard cla ins }
{
    match of_class(cla, ins) {
        None => everywhere(ins),
        own => own,
    }
}

/// Returns the name of a command. P1 tells STATUS of a UICC (ETSI TS 102 221, 11.1.2) from GET
/// STATUS (GlobalPlatform Card Specification 2.3, 11.4).
pub fn name_of_command(header: Header) -> Option<&'static str> {
    match (header.cla, header.ins, header.p1) {
        (0x80..=0x8F, 0xF2, 0x00..=0x02) => Some("STATUS"),
        (0x80..=0x8F, 0xF2, 0x10 | 0x20 | 0x40 | 0x80) => Some("GET STATUS"),
        (cla, ins, _) => instruction(cla, ins).map(|(name, ..)| name),
    }
}

/// Returns an instruction of the class's own standard.
fn of_class(cla: u8, ins: u8) -> Option<Instruction>
    ensures { way_in result ≡ own_way cla ins }
{
    match cla {
        0x00..=0x7F => interindustry(ins),
        0x80..=0x8F => proprietary(ins),
        SIM_CLASS => sim(ins),
        _ => None,
    }
}

/// Returns an instruction of ISO/IEC 7816-4 (7, and table 4 for its other parts); `everywhere` has
/// four more. With an odd INS the terminal also sends data, which name the part to read.
fn interindustry(ins: u8) -> Option<Instruction>
    ensures { way_in result ≡ interindustry ins }
{
    Some(match ins {
        0x04 => ("DEACTIVATE FILE", ToCard, Others),
        0x0C => ("ERASE RECORD", ToCard, Records),
        0x0E => ("ERASE BINARY", ToCard, Place),
        0x0F => ("ERASE BINARY", ToCard, Others),
        0x10 => ("PERFORM SCQL OPERATION", ToCard, Others),
        0x12 => ("PERFORM TRANSACTION OPERATION", ToCard, Others),
        0x14 => ("PERFORM USER OPERATION", ToCard, Others),
        0x20 | 0x21 => ("VERIFY", ToCard, Reference),
        0x22 => ("MANAGE SECURITY ENVIRONMENT", ToCard, Others),
        0x24 => ("CHANGE REFERENCE DATA", ToCard, Reference),
        0x26 => ("DISABLE VERIFICATION REQUIREMENT", ToCard, Reference),
        0x28 => ("ENABLE VERIFICATION REQUIREMENT", ToCard, Reference),
        0x2A => ("PERFORM SECURITY OPERATION", ToCard, Others),
        0x2C => ("RESET RETRY COUNTER", ToCard, Reference),
        0x44 => ("ACTIVATE FILE", ToCard, Others),
        0x46 => ("GENERATE ASYMMETRIC KEY PAIR", ToCard, Others),
        0x70 => ("MANAGE CHANNEL", FromCard, Channel),
        0x82 => ("EXTERNAL AUTHENTICATE", ToCard, Reference),
        0x84 => ("GET CHALLENGE", FromCard, Others),
        0x86 => ("GENERAL AUTHENTICATE", ToCard, Reference),
        0x87 => ("GENERAL AUTHENTICATE", ToCard, Others),
        0x88 => ("INTERNAL AUTHENTICATE", ToCard, Reference),
        0xA0 | 0xA1 => ("SEARCH BINARY", ToCard, Others),
        0xA2 => ("SEARCH RECORD", ToCard, Others),
        0xB0 => ("READ BINARY", FromCard, Place),
        0xB1 => ("READ BINARY", ToCard, Others),
        0xB2 => ("READ RECORD", FromCard, Records),
        0xB3 => ("READ RECORD", ToCard, Others),
        0xC2 | 0xC3 => ("ENVELOPE", ToCard, Others),
        0xCB => ("GET DATA", ToCard, Others),
        0xD0 => ("WRITE BINARY", ToCard, Place),
        0xD1 => ("WRITE BINARY", ToCard, Others),
        0xD2 => ("WRITE RECORD", ToCard, Records),
        0xD6 => ("UPDATE BINARY", ToCard, Place),
        0xD7 => ("UPDATE BINARY", ToCard, Others),
        0xDB => ("PUT DATA", ToCard, Others),
        0xDC => ("UPDATE RECORD", ToCard, Records),
        0xDD => ("UPDATE RECORD", ToCard, Others),
        0xE0 => ("CREATE FILE", ToCard, Others),
        0xE2 => ("APPEND RECORD", ToCard, Records),
        0xE4 => ("DELETE FILE", ToCard, Others),
        0xE6 => ("TERMINATE DF", ToCard, Others),
        0xE8 => ("TERMINATE EF", ToCard, Others),
        0xFE => ("TERMINATE CARD USAGE", ToCard, Others),
        _ => return None,
    })
}

/// Returns an instruction of the classes `80` to `8F`: of EMV (4.3, Book 3, 6.3.2), of a UICC (ETSI
/// TS 102 221, 10.1.2), or of GlobalPlatform (Card Specification 2.3, 11). Only `F2` is in two of
/// them, and left out: STATUS of a UICC, and GET STATUS.
fn proprietary(ins: u8) -> Option<Instruction>
    ensures { way_in result ≡ proprietary ins }
{
    Some(match ins {
        0x10 => ("TERMINAL PROFILE", ToCard, Others),
        0x12 => ("FETCH", FromCard, Others),
        0x14 => ("TERMINAL RESPONSE", ToCard, Others),
        0x16 => ("CARD BLOCK", ToCard, Others),
        0x18 => ("APPLICATION UNBLOCK", ToCard, Others),
        0x1E => ("APPLICATION BLOCK", ToCard, Others),
        0x24 => ("PIN CHANGE/UNBLOCK", ToCard, Others),
        0x32 => ("INCREASE", ToCard, Others),
        0x50 => ("INITIALIZE UPDATE", ToCard, Others),
        0x82 => ("EXTERNAL AUTHENTICATE", ToCard, Others),
        0xA8 => ("GET PROCESSING OPTIONS", ToCard, Others),
        0xAA => ("TERMINAL CAPABILITY", ToCard, Others),
        0xAE => ("GENERATE AC", ToCard, Cryptogram),
        0xC2 => ("ENVELOPE", ToCard, Others),
        0xD8 => ("PUT KEY", ToCard, Others),
        0xE2 => ("STORE DATA", ToCard, Others),
        0xE4 => ("DELETE", ToCard, Others),
        0xE6 => ("INSTALL", ToCard, Others),
        0xE8 => ("LOAD", ToCard, Others),
        0xF0 => ("SET STATUS", ToCard, Others),
        _ => return None,
    })
}

/// Returns an instruction of a SIM card's class `A0` (3GPP TS 51.011, 9.2).
fn sim(ins: u8) -> Option<Instruction>
    ensures { way_in result ≡ sim ins }
{
    Some(match ins {
        0x04 => ("INVALIDATE", ToCard, Others),
        0x10 => ("TERMINAL PROFILE", ToCard, Others),
        0x12 => ("FETCH", FromCard, Others),
        0x14 => ("TERMINAL RESPONSE", ToCard, Others),
        0x20 => ("VERIFY CHV", ToCard, Others),
        0x24 => ("CHANGE CHV", ToCard, Others),
        0x26 => ("DISABLE CHV", ToCard, Others),
        0x28 => ("ENABLE CHV", ToCard, Others),
        0x2C => ("UNBLOCK CHV", ToCard, Others),
        0x32 => ("INCREASE", ToCard, Others),
        0x44 => ("REHABILITATE", ToCard, Others),
        0x88 => ("RUN GSM ALGORITHM", ToCard, Others),
        0xA2 => ("SEEK", ToCard, Others),
        0xB0 => ("READ BINARY", FromCard, Place),
        0xB2 => ("READ RECORD", FromCard, Records),
        0xC2 => ("ENVELOPE", ToCard, Others),
        0xD6 => ("UPDATE BINARY", ToCard, Place),
        0xDC => ("UPDATE RECORD", ToCard, Records),
        0xF2 => ("STATUS", FromCard, Others),
        0xFA => ("SLEEP", ToCard, Others),
        _ => return None,
    })
}

/// Returns an instruction of ISO/IEC 7816-4 that the program reads alike in every class (profile).
fn everywhere(ins: u8) -> Option<Instruction>
    ensures { way_in result ≡ everywhere ins }
{
    Some(match ins {
        0xA4 => ("SELECT", ToCard, Selected),
        0xC0 => ("GET RESPONSE", FromCard, Others),
        0xCA => ("GET DATA", FromCard, Object),
        0xDA => ("PUT DATA", ToCard, Object),
        _ => return None,
    })
}

/// Whether the data of commands with this INS may be secret, in any class. These are VERIFY, CHANGE
/// REFERENCE DATA, DISABLE and ENABLE VERIFICATION REQUIREMENT, RESET RETRY COUNTER and PUT KEY.
pub fn is_secret(ins: u8) -> bool
    ensures { result ≡ is_secret ins }
{
    matches!(
        ins,
        0x20 | 0x21 | 0x24 | 0x25 | 0x26 | 0x28 | 0x2C | 0x2D | 0xD8
    )
}

/// Whether the answer to this CLA and INS never has data: these write, erase, create, delete,
/// verify or switch (ISO/IEC 7816-4 and 7816-9; 3GPP TS 51.011). With secure messaging it may.
pub fn brings_none(cla: u8, ins: u8) -> bool
    ensures { result ≡ brings_none cla ins }
{
    match cla {
        0x00..=0x7F => !has_messaging(cla) && interindustry_brings_none(ins),
        SIM_CLASS => sim_brings_none(ins),
        _ => false,
    }
}

/// The same of an interindustry class without secure messaging.
fn interindustry_brings_none(ins: u8) -> bool
    ensures { result ≡ is_among ins interindustry_brings_none }
{
    matches!(
        ins,
        0x04 | 0x0C
            | 0x0E
            | 0x0F
            | 0x20
            | 0x21
            | 0x22
            | 0x24
            | 0x26
            | 0x28
            | 0x2C
            | 0x44
            | 0xD0
            | 0xD1
            | 0xD2
            | 0xD6
            | 0xD7
            | 0xDA
            | 0xDB
            | 0xDC
            | 0xDD
            | 0xE0
            | 0xE2
            | 0xE4
            | 0xE6
            | 0xE8
            | 0xFE
    )
}

/// The same of a SIM card's class.
fn sim_brings_none(ins: u8) -> bool
    ensures { result ≡ is_among ins sim_brings_none }
{
    matches!(
        ins,
        0x04 | 0x10 | 0x14 | 0x20 | 0x24 | 0x26 | 0x28 | 0x2C | 0x44 | 0xD6 | 0xDC | 0xFA
    )
}

/// Whether commands of this class have secure messaging (ISO/IEC 7816-4, 5.4.1).
pub fn has_messaging(cla: u8) -> bool
    ensures { result ≡ has_messaging cla }
{
    matches!(cla, 0x04..=0x0F | 0x14..=0x1F | 0x60..=0x7F)
}

/// Whether the terminal's data may be objects. With secure messaging they may. Else a name, a path
/// and reference data are not, unless bit 1 of INS is set (ISO/IEC 7816-4, 5.4.2, 7.1.1, 7.5).
pub fn may_have_objects(header: Header) -> bool {
    let Header { cla, ins, .. } = header;
    has_messaging(cla) || (ins != 0xA4 && (ins & 1 == 1 || !is_secret(ins)))
}
