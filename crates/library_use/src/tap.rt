//! Follows a trace as a third party on the line.

use apdu_core::Status;
use t0_core::{End, Heard, Tap, TapFault};

/// Returns the number of whole TPDUs in a trace, and the status of the last; `None` if there are no
/// such TPDUs. It is an error if no dialogue continues with a character.
pub fn followed(trace: &[(End, u8)]) -> Result<(usize, Option<Status>), TapFault> {
    let mut tap = Tap::new();
    let mut tpdus = 0usize;
    let mut last = None;
    for &(from, byte) in trace {
        if let Heard::SecondStatus { said: _, status } = tap.hear(from, byte)? {
            tpdus = tpdus.saturating_add(1);
            last = Some(status);
        }
    }
    Ok((tpdus, last))
}
