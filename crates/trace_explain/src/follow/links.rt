//! How a TPDU is linked to those before it: as a piece, a part, or a command that is sent again.

ghost use Rattle.std.specs.Prelude.{◌≡◌};

use apdu_core::Header;

/// How a command continues those before it.
#[derive(Clone, Copy)]
pub enum Link {
    /// Not at all.
    None,
    /// It repeats the one before it, whose status was `6CXX`, for this many bytes.
    AskedAgain(u16),
    /// A GET RESPONSE that the last status asks for, for this many bytes, before any of its data.
    Fetches(u16),
    /// The same after data of the response, from an earlier GET RESPONSE or the command itself.
    FetchesMore(u16),
    /// The piece with this number of a chain that continues.
    Piece(u64),
    /// The last piece of a chain, with this number.
    LastPiece(u64),
    /// A piece of a continuing chain, of unknown number: earlier pieces or bytes may be missing.
    LaterPiece,
    /// The same for the last piece of a chain.
    LastOfLater,
}

/// What is complete with a TPDU.
#[derive(Clone, Copy)]
pub enum Whole {
    /// Nothing; or something that is in this TPDU alone, too long to show, or with missing parts.
    None,
    /// A response, in this many parts.
    Response(u64),
    /// The value of a chain, in this many pieces.
    Value(u64),
}

/// How a TPDU is linked to the others.
#[derive(Clone, Copy)]
pub struct Links {
    /// The number of the TPDU, counted from 1.
    pub number: u64,
    /// How it continues those before it.
    pub link: Link,
    /// It does not continue the chain that was pending, which is dropped.
    pub drops_before: bool,
    /// It is of a chain, and its status drops that.
    pub drops_after: bool,
    /// What is complete with it.
    pub whole: Whole,
    /// The command whose response the card's data are; `None` if the header is cut off.
    pub asker: Option<Header>,
    /// Its data continue those of earlier TPDUs: of a chain, or of a response in parts.
    pub continues: bool,
    /// The same for the card's data beside the terminal's.
    pub answer_continues: bool,
    /// It continues the command of the TPDU right before it.
    pub joins: bool,
}

impl Links {
    /// Returns the same without anything that is shown and depends on a header that is hidden.
    pub fn shown(self, is_hidden: bool) -> Links
        ensures number { result.number ≡ self.number }
        ensures asker { result.asker ≡ self.asker }
    {
        if !is_hidden {
            return self;
        }
        Links {
            link: Link::None,
            drops_before: false,
            drops_after: false,
            whole: Whole::None,
            ..self
        }
    }
}
