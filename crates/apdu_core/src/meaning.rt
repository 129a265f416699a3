//! The meanings of status words: one table, for the programs and for the bindings.
ghost use Rattle.std.specs.Prelude.{◌≡◌};
ghost use Rattle.std.specs.List.{find};
ghost use Rattle.apdu_core.specs.Meanings.{counts_tries, fits, is_of, number_of, word_of};

use crate::meaning::Commands::{Any, Sim, Tries};
use crate::status::Status;

/// The commands whose statuses a meaning is for.
#[derive(Clone, Copy, Debug, PartialEq, Eq)]
pub enum Commands {
    /// All.
    Any,
    /// Those of class `A0`, that of a SIM card.
    Sim,
    /// Those after which `63CX` counts tries: VERIFY, CHANGE REFERENCE DATA, DISABLE and ENABLE
    /// VERIFICATION REQUIREMENT, RESET RETRY COUNTER and EXTERNAL AUTHENTICATE. Bit 8 of CLA is 0.
    Tries,
}

/// What status words mean.
#[derive(Clone, Copy, Debug, PartialEq, Eq)]
pub struct Meaning {
    /// The commands that it is for.
    pub commands: Commands,
    /// The first word, as `0x6200`.
    pub first: u16,
    /// The last word.
    pub last: u16,
    /// The meaning. `X` or `XX` in it is a number: see [`Meaning::number`].
    pub words: &'static str,
}

macro_rules! meanings {
    ($($commands:ident $first:literal $last:literal $words:literal,)*) => {
        [$(Meaning { commands: $commands, first: $first, last: $last, words: $words }),*]
    };
}

/// The meaning of each status: the first of these that fits. So those of a SIM card come first, and
/// single words before their range.
///
/// Most are those of ISO/IEC 7816-4 (5.1.3, tables 5 and 6). SIM cards have those of 3GPP TS 51.011
/// (9.4). `6100` is at least 256 bytes (ISO/IEC 7816-3, 12). The header for C and the crate for
/// Rust have copies, which need no code of the archive: `checks/bindings/statuses` writes and
/// compares them.
pub static MEANINGS: [Meaning; 87] = meanings! {
    Sim 0x9100 0x91FF "normal processing: a command of the card waits, of XX bytes",
    Sim 0x9200 0x920F "normal processing, with X retries of an update",
    Sim 0x9240 0x9240 "memory problem",
    Sim 0x9300 0x9300 "the SIM application toolkit is busy",
    Sim 0x9400 0x9400 "no elementary file is selected",
    Sim 0x9402 0x9402 "out of range: invalid address",
    Sim 0x9404 0x9404 "file or pattern not found",
    Sim 0x9408 0x9408 "the command does not fit the file",
    Sim 0x9802 0x9802 "no CHV is initialized",
    Sim 0x9804 0x9804 "access condition not fulfilled, CHV wrong, or authentication failed",
    Sim 0x9808 0x9808 "in contradiction with the CHV status",
    Sim 0x9810 0x9810 "in contradiction with the invalidation status",
    Sim 0x9840 0x9840 "CHV wrong, and no try is left, or CHV is blocked",
    Sim 0x9850 0x9850 "increase not possible: the maximum is reached",
    Sim 0x9E00 0x9EFF "an error of data download: XX bytes of the response wait",
    Sim 0x9F00 0x9F00 "256 bytes of the response wait",
    Sim 0x9F01 0x9F01 "1 byte of the response waits",
    Sim 0x9F00 0x9FFF "XX bytes of the response wait",
    Tries 0x63C0 0x63C0 "a warning: no try is left",
    Tries 0x63C1 0x63C1 "a warning: 1 try is left",
    Tries 0x63C0 0x63CF "a warning: X tries are left",
    Any 0x9000 0x9000 "normal processing",
    Any 0x6100 0x6100 "at least 256 bytes of the response wait",
    Any 0x6101 0x6101 "1 byte of the response waits",
    Any 0x6100 0x61FF "XX bytes of the response wait",
    Any 0x6200 0x6201 "a warning: what the card holds is unchanged",
    Any 0x6200 0x6280 "a warning: the card has a query of XX bytes",
    Any 0x6281 0x6281 "a warning: part of the data may be corrupted",
    Any 0x6282 0x6282 "a warning: the file or record ended before Le bytes",
    Any 0x6283 0x6283 "a warning: the selected file is deactivated",
    Any 0x6284 0x6284 "a warning: the control information is not formatted by the standard",
    Any 0x6285 0x6285 "a warning: the selected file is in termination state",
    Any 0x6286 0x6286 "a warning: a sensor on the card has no input data",
    Any 0x6287 0x6287 "a warning: a record that is referenced is deactivated",
    Any 0x6200 0x62FF "a warning: what the card holds is unchanged",
    Any 0x6340 0x6340 "a warning: the comparison was unsuccessful",
    Any 0x6381 0x6381 "a warning: the last write filled up the file",
    Any 0x63C0 0x63CF "a warning: a counter is at X",
    Any 0x6300 0x63FF "a warning: what the card holds may have changed",
    Any 0x6401 0x6401 "an error of execution: the card requires a response at once",
    Any 0x6400 0x6400 "an error of execution: what the card holds is unchanged",
    Any 0x6400 0x6480 "an error of execution: the card has a query of XX bytes",
    Any 0x6481 0x6481 "an error of execution: shared access by a channel is denied",
    Any 0x6482 0x6482 "an error of execution: the opening of a channel is denied",
    Any 0x6400 0x64FF "an error of execution: what the card holds is unchanged",
    Any 0x6581 0x6581 "memory failure",
    Any 0x6500 0x65FF "an error of execution: what the card holds may have changed",
    Any 0x6600 0x66FF "an error of execution, for security",
    Any 0x6700 0x6700 "wrong length",
    Any 0x6701 0x6701 "the form of the command is not that of the standard",
    Any 0x6702 0x6702 "wrong length: another Lc was expected",
    Any 0x6700 0x67FF "an error of checking, of the length",
    Any 0x6881 0x6881 "logical channels are not supported",
    Any 0x6882 0x6882 "secure messaging is not supported",
    Any 0x6883 0x6883 "the last command of the chain was expected",
    Any 0x6884 0x6884 "chaining is not supported",
    Any 0x6800 0x68FF "an error of checking: a function in CLA is not supported",
    Any 0x6981 0x6981 "the command does not fit the structure of the file",
    Any 0x6982 0x6982 "security status not satisfied",
    Any 0x6983 0x6983 "the method of authentication is blocked",
    Any 0x6984 0x6984 "the reference data are not usable",
    Any 0x6985 0x6985 "conditions of use not satisfied",
    Any 0x6986 0x6986 "the command is not allowed: there is no current elementary file",
    Any 0x6987 0x6987 "expected data objects for secure messaging are missing",
    Any 0x6988 0x6988 "data objects for secure messaging are incorrect",
    Any 0x6900 0x69FF "an error of checking: the command is not allowed",
    Any 0x6A80 0x6A80 "wrong data field",
    Any 0x6A81 0x6A81 "the function is not supported",
    Any 0x6A82 0x6A82 "file or application not found",
    Any 0x6A83 0x6A83 "record not found",
    Any 0x6A84 0x6A84 "not enough memory space",
    Any 0x6A85 0x6A85 "Lc is inconsistent with the structure of the objects",
    Any 0x6A86 0x6A86 "wrong P1-P2",
    Any 0x6A87 0x6A87 "Lc is inconsistent with P1-P2",
    Any 0x6A88 0x6A88 "referenced data not found",
    Any 0x6A89 0x6A89 "the file exists already",
    Any 0x6A8A 0x6A8A "the name of the application exists already",
    Any 0x6A00 0x6AFF "an error of checking: wrong parameters",
    Any 0x6B00 0x6B00 "wrong P1-P2",
    Any 0x6C00 0x6C00 "wrong Le: ask for 256 bytes",
    Any 0x6C01 0x6C01 "wrong Le: ask for 1 byte",
    Any 0x6C00 0x6CFF "wrong Le: ask for XX bytes",
    Any 0x6D00 0x6D00 "INS not supported",
    Any 0x6E00 0x6E00 "CLA not supported",
    Any 0x6F00 0x6F00 "no precise diagnosis",
    Any 0x6B00 0x6FFF "an error of checking",
    Any 0x0000 0xFFFF "no known meaning",
};

impl Meaning {
    /// Returns the first of these that fits a status after a command with this CLA and INS. `None`
    /// if none does; one of [`MEANINGS`] always does. Without a command, CLA and INS are 0.
    pub fn find(meanings: &[Meaning], cla: u8, ins: u8, status: Status) -> Option<Meaning>
        ensures { result ≡ find (fits cla ins (word_of status)) meanings.now }
    {
        let word = status.word();
        for meaning in meanings {
            if meaning.fits(cla, ins, word) {
                return Some(*meaning);
            }
        }
        None
    }

    /// Returns the number of a status that the meaning fits: how far its word is from the first.
    pub fn number(self, status: Status) -> u16
        ensures { result ≡ number_of self (word_of status) }
    {
        status.word().saturating_sub(self.first)
    }

    /// Whether it is for this word after a command with this CLA and INS.
    fn fits(self, cla: u8, ins: u8, word: u16) -> bool
        ensures { result ≡ fits cla ins word self }
    {
        self.commands.contains(cla, ins) && self.first <= word && word <= self.last
    }
}

impl Commands {
    /// Whether a command with this CLA and INS is one of them.
    fn contains(self, cla: u8, ins: u8) -> bool
        ensures { result ≡ is_of self cla ins }
    {
        match self {
            Any => true,
            Sim => cla == 0xA0,
            Tries => counts_tries(cla, ins),
        }
    }
}

/// Whether `63CX` counts tries after a command with this CLA and INS.
fn counts_tries(cla: u8, ins: u8) -> bool
    ensures { result ≡ counts_tries cla ins }
{
    cla < 0x80 && matches!(ins, 0x20 | 0x21 | 0x24..=0x26 | 0x28 | 0x2C | 0x2D | 0x82)
}
