//! The status words of this card, and their meanings (ISO/IEC 7816-4, 5.1.3).
ghost use Rattle.std.specs.Prelude.{◌≡◌, ◌≤◌, length, ℕ, List};
ghost use Rattle.apdu_core.specs.StatusWord.{IsStatusWord};
ghost use Rattle.object_card.specs.CardMeaning.{announcing};

use apdu_core::Status;

/// Normal processing.
pub(crate) const DONE: (u8, u8) = (0x90, 0x00);

/// Memory failure.
pub(crate) const MEMORY_FAILURE: (u8, u8) = (0x65, 0x81);

/// Wrong length.
pub(crate) const WRONG_LENGTH: (u8, u8) = (0x67, 0x00);

/// The last command of the chain is expected.
pub(crate) const CHAIN_PENDING: (u8, u8) = (0x68, 0x83);

/// Chaining is not supported.
pub(crate) const NOT_CHAINED: (u8, u8) = (0x68, 0x84);

/// The security status is not satisfied: the data object is locked.
pub(crate) const LOCKED: (u8, u8) = (0x69, 0x82);

/// Conditions of use are not satisfied: nothing is selected, or no response is pending.
pub(crate) const NOT_NOW: (u8, u8) = (0x69, 0x85);

/// Incorrect parameters in the data: the value is not a list of objects.
pub(crate) const WRONG_DATA: (u8, u8) = (0x6A, 0x80);

/// File or application not found.
pub(crate) const NO_APPLICATION: (u8, u8) = (0x6A, 0x82);

/// Not enough memory space: the table is full.
pub(crate) const TABLE_FULL: (u8, u8) = (0x6A, 0x84);

/// Incorrect parameters P1-P2.
pub(crate) const WRONG_PARAMETERS: (u8, u8) = (0x6A, 0x86);

/// Referenced data not found.
pub(crate) const NO_OBJECT: (u8, u8) = (0x6A, 0x88);

/// SW1 of `6CXX`: only `XX` bytes are there, fewer than asked for.
pub(crate) const FEWER: u8 = 0x6C;

/// The instruction is not supported.
pub(crate) const UNKNOWN_INSTRUCTION: (u8, u8) = (0x6D, 0x00);

/// The class is not supported.
pub(crate) const UNKNOWN_CLASS: (u8, u8) = (0x6E, 0x00);

/// The status word of these two bytes.
pub(crate) fn status(word: (u8, u8)) -> Status
    requires { IsStatusWord word }
    ensures { result ≡ word }
{
    Status::new(word.0, word.1).unwrap()
}

/// The status if `left` bytes of a response are left.
pub(crate) fn announcing(left: usize, cut: u16) -> Status
    requires { cut ≤ 256 }
    ensures { (rest : List ℕ) → length rest ≡ left → result ≡ announcing rest cut }
{
    if left == 0 {
        status(DONE)
    } else {
        status((0x61, (left.min(cut as usize) % 256) as u8))
    }
}
