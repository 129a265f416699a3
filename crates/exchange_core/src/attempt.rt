//! The place of one TPDU in its exchange, and which TPDU follows it.
ghost use Rattle.std.specs.Prelude.{◌≡◌, ◌≤◌};
ghost use Rattle.apdu_core.specs.StatusWord.{corrects, announces};
ghost use Rattle.exchange_core.specs.Gathered.{fetched_of};
ghost use Rattle.exchange_core.specs.ExchangeSide.{response_limit};
ghost use Rattle.exchange_core.specs.Attempts.{again_with, following, IsCounted, IsNext};

use crate::wanted::Wanted;
use apdu_core::{Header, Status};
use t0_core::DataSent;

/// The header of a GET RESPONSE, `00C00000` (ISO/IEC 7816-4, GET RESPONSE).
pub const GET_RESPONSE: Header = Header {
    cla: 0x00,
    ins: apdu_core::GET_RESPONSE,
    p1: 0x00,
    p2: 0x00,
};

/// The place of the current TPDU in its exchange.
#[derive(Clone, Copy, Debug, PartialEq, Eq)]
pub struct Attempt {
    /// CLA INS P1 P2.
    pub header: Header,
    /// It asks the card for data.
    pub asks: bool,
    /// It is a GET RESPONSE that fetches what a `61XX` announced.
    pub fetches: bool,
    /// It repeats the TPDU before it, with the count of a `6CXX`.
    pub repeats: bool,
    /// The number of bytes gathered before it and the TPDU that it repeats.
    pub before: usize,
    /// Its number in the exchange, from 1.
    pub number: usize,
    /// Whether the TPDUs before it have sent all their data; `NotKnown` among whole commands.
    pub sent: DataSent,
}

/// What follows when a TPDU has ended.
#[derive(Clone, Copy, Debug, PartialEq, Eq)]
pub enum Next {
    /// One more TPDU, at the place `attempt`, which asks for `count` bytes, 1 to 256.
    Asks { attempt: Attempt, count: u16 },
    /// The exchange has stalled: this TPDU fetched and brought nothing, and more is announced.
    Stalls,
    /// The exchange has ended.
    Ends,
}

impl Attempt {
    /// Returns what follows this TPDU, which ended with `status` (ISO/IEC 7816-3, clause 12;
    /// bounds: profile). `gathered` is the number of bytes that the exchange has gathered, at most
    /// `RESPONSE_LIMIT`, and `left` is what it wants after them. `self` must be the place of a TPDU
    /// that an exchange has reached.
    ///
    /// - After `6CXX`, if this TPDU asks for data and repeats none, and the count is not above
    ///   `left`: the same TPDU for the count.
    /// - After `61XX`, if `left` is not nothing: a GET RESPONSE for the count, or for `left` if
    ///   that is less. If this TPDU fetches and brought nothing, the exchange stalls.
    /// - Otherwise the exchange ends.
    pub fn followed(self, gathered: usize, left: Wanted, status: Status) -> Next
        requires counted { IsCounted self gathered }
        requires room { gathered ≤ response_limit }
        ensures value { result ≡ following self gathered left status }
        ensures next { IsNext result gathered }
    {
        let (corrected, announced) = (status.corrects(), status.announces());
        if let Some(count) = self.repeated_with(left, corrected) {
            return Next::Asks {
                attempt: Attempt {
                    repeats: true,
                    number: self.number + 1,
                    ..self
                },
                count,
            };
        }
        match fetched(left, announced) {
            None => Next::Ends,
            Some(_) if self.fetches && gathered == self.before => Next::Stalls,
            Some(count) => Next::Asks {
                attempt: Attempt {
                    header: GET_RESPONSE,
                    asks: true,
                    fetches: true,
                    repeats: false,
                    before: gathered,
                    number: self.number + 1,
                    sent: self.sent,
                },
                count,
            },
        }
    }

    /// The count to repeat this TPDU with, if it is repeated.
    fn repeated_with(self, left: Wanted, corrected: Option<u16>) -> Option<u16>
        ensures { result ≡ again_with self left corrected }
    {
        if self.asks && !self.repeats {
            corrected.filter(|count| left.is_at_least(*count))
        } else {
            None
        }
    }
}

/// The count of the GET RESPONSE that follows, if one does.
fn fetched(left: Wanted, announced: Option<u16>) -> Option<u16>
    ensures { result ≡ fetched_of left announced }
{
    match announced {
        Some(count) if left.is_some() => Some(left.up_to(count)),
        _ => None,
    }
}
