//! The commands of operations: SELECT, GET DATA, and the header of PUT DATA.
ghost use Rattle.std.specs.Prelude.{◌≡◌, ℕ};
ghost use Rattle.tlv_core.specs.Address.{NamesTag};
ghost use Rattle.object_card.specs.Tables.{IsAid};
ghost use Rattle.object_card.specs.CarryingOut as carrying;
ghost use Rattle.card_terminal.specs.Talk as talk;

use apdu_core::{Command, Header};
use object_card::{Aid, GET_DATA, PUT_DATA, SELECT};
use tlv_core::ObjectTag;

/// The SELECT of the application with this identifier, with Le `00` (ISO/IEC 7816-4, SELECT).
pub fn select_command(aid: &Aid) -> Command<'_>
    ensures command { result ≡ talk.select_command aid.now }
    ensures aid { IsAid aid.now }
{
    let header = Header {
        cla: 0x00,
        ins: SELECT,
        p1: 0x04,
        p2: 0x00,
    };
    Command::new(header, aid.bytes(), Some(256)).unwrap()
}

/// The GET DATA of the object with this tag, with Le `00` (ISO/IEC 7816-4, GET DATA).
pub fn get_command(tag: ObjectTag) -> Command<'static>
    ensures { (p1 p2 : ℕ) × NamesTag tag p1 p2 × (result ≡ talk.get_command p1 p2) }
{
    let (p1, p2) = tag.p1p2();
    let header = Header {
        cla: 0x00,
        ins: GET_DATA,
        p1,
        p2,
    };
    Command::new(header, &[], Some(256)).unwrap()
}

/// The header of the last PUT DATA of a chain, with CLA `00`. `p1` and `p2` name the tag (ISO/IEC
/// 7816-4, PUT DATA).
pub fn put_header(p1: u8, p2: u8) -> Header
    ensures { result ≡ carrying.put_header p1 p2 }
{
    Header {
        cla: 0x00,
        ins: PUT_DATA,
        p1,
        p2,
    }
}
