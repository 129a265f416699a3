//! A whole TPDU, for a transport that takes no single characters.
ghost use Rattle.std.specs.Prelude.{◌≡◌, ◌<◌, ◌++◌, length, drop, MatchOption};
ghost use Rattle.std.specs.Option.{option_map};
ghost use Rattle.t0_core.specs.TpduBytes.{asked_of, asked_in, tpdu_bytes};

use apdu_core::{Header, count};

/// A whole command TPDU, as a transport of whole TPDUs takes it.
#[derive(Clone, Copy, Debug)]
pub struct WholeTpdu<'a> {
    /// CLA INS P1 P2.
    pub header: Header,
    /// The number of data bytes to the card, or from it (`00`: 256). It is `00` if no data move.
    pub p3: u8,
    /// The data to the card, 0 to 255 bytes.
    pub content: &'a [u8],
    /// The most bytes that may come back before the status, 0 to 256.
    pub may_come: u16,
}

impl<'a> WholeTpdu<'a> {
    /// Parses a TPDU that takes up all of `bytes`, in one of three forms. INS may be any byte.
    /// `None` if no form fits.
    ///
    /// - A header: no data move, and P3 is `00`.
    /// - A header and P3: as many bytes may come back as P3 states, 1 to 256.
    /// - A header, P3 of 1 to 255, and that number of data bytes for the card.
    pub fn read(bytes: &'a [u8]) -> Option<WholeTpdu<'a>>
        ensures { option_map asked_of result ≡ asked_in bytes.now }
    {
        let [cla, ins, p1, p2, rest @ ..] = bytes else {
            return None;
        };
        let header = Header {
            cla: *cla,
            ins: *ins,
            p1: *p1,
            p2: *p2,
        };
        match rest {
            [] => Some(WholeTpdu {
                header,
                p3: 0,
                content: rest,
                may_come: 0,
            }),
            [p3] => Some(WholeTpdu {
                header,
                p3: *p3,
                content: &[],
                may_come: count(*p3),
            }),
            [p3, content @ ..] => {
                if content.len() != usize::from(*p3) {
                    return None;
                }
                Some(WholeTpdu {
                    header,
                    p3: *p3,
                    content,
                    may_come: 0,
                })
            }
        }
    }

    /// Writes the TPDU to the front of `out`, in the format of `read`, and returns its size in
    /// bytes. It is 4 if no data move, else 5 and the data to the card; at most 260 for a TPDU of a
    /// terminal's end. The rest of `out` stays. `None`, with no change, if `out` is too short.
    pub fn write(&self, out: &mut [u8]) -> Option<usize>
        ensures { let bytes = tpdu_bytes (asked_of self.now) in MatchOption result
            ((length out.old < length bytes) × (out.new ≡ out.old))
            (λ n. (n ≡ length bytes) × (out.new ≡ bytes ++ drop n out.old)) }
    {
        let Header { cla, ins, p1, p2 } = self.header;
        let opening = [cla, ins, p1, p2, self.p3];
        let first = if self.content.is_empty() && self.may_come == 0 {
            4
        } else {
            5
        };
        let len = first + self.content.len();
        if len > out.len() {
            return None;
        }
        out[..first].copy_from_slice(&opening[..first]);
        out[first..len].copy_from_slice(self.content);
        Some(len)
    }
}
