//! The instructions of a card of data objects, and the commands on whose direction both ends agree.
ghost use Rattle.std.specs.Prelude.{◌≡◌, ◌↔◌, true};
ghost use Rattle.object_card.specs.Agreed.{IsAgreed};
ghost use Rattle.object_card.specs.Instructions.{MayReceive, MaySend, ins_of, instruction_of, takes_data};

use apdu_core::Command;
pub use apdu_core::GET_RESPONSE;

/// INS of SELECT (ISO/IEC 7816-4, SELECT).
pub const SELECT: u8 = 0xA4;

/// INS of GET DATA (ISO/IEC 7816-4, GET DATA).
pub const GET_DATA: u8 = 0xCA;

/// INS of PUT DATA (ISO/IEC 7816-4, PUT DATA).
pub const PUT_DATA: u8 = 0xDA;

/// CLA of a command that is followed by more of its chain.
pub(crate) const CHAINED: u8 = 0x10;

/// An instruction of a card of data objects (ISO/IEC 7816-4; which ones: profile).
#[derive(Clone, Copy, Debug, PartialEq, Eq)]
pub enum Instruction {
    /// SELECT by identifier: P1-P2 are `0400`, and the identifier goes to the card.
    Select,
    /// GET DATA: P1-P2 name a tag, and its data object comes from the card.
    GetData,
    /// PUT DATA: P1-P2 name a tag, and its value goes to the card. With CLA `10` it is a piece of
    /// the value, and more follow.
    PutData,
    /// GET RESPONSE: P1-P2 are `0000`, and the rest of a response comes from the card.
    GetResponse,
}

impl Instruction {
    /// Returns the instruction with this INS. `None` for any other byte, which the card does not
    /// support (`6D00`).
    pub fn of(ins: u8) -> Option<Instruction>
        ensures { result ≡ instruction_of ins }
    {
        match ins {
            SELECT => Some(Instruction::Select),
            GET_DATA => Some(Instruction::GetData),
            PUT_DATA => Some(Instruction::PutData),
            GET_RESPONSE => Some(Instruction::GetResponse),
            _ => None,
        }
    }

    /// The byte INS.
    pub fn ins(self) -> u8
        ensures { result ≡ ins_of self }
    {
        match self {
            Instruction::Select => SELECT,
            Instruction::GetData => GET_DATA,
            Instruction::PutData => PUT_DATA,
            Instruction::GetResponse => GET_RESPONSE,
        }
    }

    /// Whether data go to the card. Otherwise they come from it.
    pub fn takes_data(self) -> bool
        ensures { result ≡ takes_data self }
    {
        match self {
            Instruction::Select | Instruction::PutData => true,
            Instruction::GetData | Instruction::GetResponse => false,
        }
    }
}

/// Whether terminal and card agree on the direction of a command's data (ISO/IEC 7816-3, 10.3.1). A
/// command with Le and without data must not be a SELECT or PUT DATA. Any other command must not be
/// a GET DATA or GET RESPONSE. With any other INS the ends agree.
pub fn is_agreed(command: &Command) -> bool
    ensures { (result ≡ true) ↔ IsAgreed MayReceive MaySend command.now }
{
    let only_asks = command.data().is_empty() && command.le().is_some();
    match Instruction::of(command.header().ins) {
        Some(instruction) => instruction.takes_data() != only_asks,
        None => true,
    }
}
