//! What a tap reports about each character, and which one it expects next.
ghost use Rattle.std.specs.Prelude.{◌≡◌, ◌+◌, ◌≤◌, Some};
ghost use Rattle.t0_core.specs.TapSide.{foreseen_by, may_come_from, way_of};

use crate::direction::Direction;
use crate::end::End;
use crate::plan::Step;
use apdu_core::{Header, Status};

/// The state of a TPDU that a tap follows, since its header was complete.
#[derive(Clone, Copy, Debug, PartialEq, Eq)]
pub struct Said {
    /// CLA INS P1 P2.
    pub header: Header,
    /// P3, the fifth character of the header. It states the number of data characters; `00` means
    /// 256 from the card, or none to it.
    pub p3: u8,
    /// The direction of the data; `None` before the first data character.
    pub direction: Option<Direction>,
    /// The number of data characters so far, 0 to 256.
    pub moved: u16,
}

impl Said {
    /// The number of data characters that P3 states. While the direction is unknown, P3 counts data
    /// from the card, so `00` means 256.
    pub(crate) fn foreseen(self) -> u16
        ensures value { result ≡ foreseen_by self.direction self.p3 }
        ensures range { result ≤ 256 }
    {
        self.direction
            .unwrap_or(Direction::FromCard)
            .foreseen(self.p3)
    }

    /// The direction of the data that a procedure byte has started, if it is known. With P3 `00`
    /// they are from the card.
    pub(crate) fn way(self) -> Option<Direction>
        ensures { result ≡ way_of self.direction self.p3 }
    {
        if self.direction.is_none() && self.p3 == 0 {
            return Some(Direction::FromCard);
        }
        self.direction
    }

    /// The same with one more data character in this direction.
    pub(crate) fn with_one_more(self, direction: Direction) -> Said
        requires { self.moved ≤ 256 }
        ensures { result ≡ record self { direction = Some direction; moved = self.moved + 1 } }
    {
        Said {
            direction: Some(direction),
            moved: self.moved + 1,
            ..self
        }
    }
}

/// What a character was that a tap took (ISO/IEC 7816-3, 10.3).
#[derive(Clone, Copy, Debug, PartialEq, Eq)]
pub enum Heard {
    /// One of the five characters of a header.
    Header,
    /// A procedure byte, which starts this step.
    Procedure(Step),
    /// A data character in this direction.
    Data(Direction),
    /// SW1.
    FirstStatus,
    /// SW2. The TPDU has ended with this status; `said` is what the tap has read of it.
    SecondStatus { said: Said, status: Status },
}

/// The kind of character that a tap expects next.
#[derive(Clone, Copy, Debug, PartialEq, Eq)]
pub enum Due {
    /// A header character, from the terminal.
    Header,
    /// A procedure byte or SW1, from the card.
    Procedure,
    /// A data character in this direction; `None` if either end may send it.
    Data(Option<Direction>),
    /// SW2, from the card.
    SecondStatus,
}

impl Due {
    /// Whether this end may send such a character.
    pub fn may_come_from(self, from: End) -> bool
        ensures { result ≡ may_come_from self from }
    {
        match self {
            Due::Header => from == End::Terminal,
            Due::Procedure | Due::SecondStatus => from == End::Card,
            Due::Data(None) => true,
            Due::Data(Some(direction)) => direction == Direction::from_sender(from),
        }
    }
}
