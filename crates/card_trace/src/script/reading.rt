//! Reads a whole script.
ghost use Rattle.std.specs.Prelude.{◌≡◌, ◌<◌, ◌≤◌, length, IfOk, IfErr, IfSome, IsErrOf};
ghost use Rattle.card_trace.specs.ScriptReading.{IsReadingFault};

use crate::play_fault::PlayFault;
use std::alloc::Allocator;
use std::io::Read;

/// The most bytes of a script (profile).
pub const SCRIPT_LIMIT: usize = 1_048_576;

/// The most bytes of one read.
const CHUNK: usize = 4096;

/// Reads all bytes of the reader, at most `SCRIPT_LIMIT`.
///
/// # Errors
/// - `Read`: the reader failed.
/// - `InputTooLong`: it has more than `SCRIPT_LIMIT` bytes, or has no end.
/// - `OutOfMemory`: memory ran out.
pub fn read_script<A: Allocator, R: Read>(alloc: A, reader: &mut R) -> Result<Vec<u8, A>, PlayFault>
    ensures whole { IfOk result (λ script.
        IfSome (R.remaining reader.old) (λ bytes. script.items ≡ bytes)) }
    ensures fits { IfOk result (λ script. length script.items ≤ SCRIPT_LIMIT) }
    ensures too_long { IsErrOf result PlayFault.InputTooLong →
        IfSome (R.remaining reader.old) (λ bytes. SCRIPT_LIMIT < length bytes) }
    ensures fault { IfErr result IsReadingFault }
{
    let mut script = Vec::new(alloc);
    let mut chunk = [0; CHUNK];
    'reading: while script.len() <= SCRIPT_LIMIT {
        match reader.read(&mut chunk) {
            Ok(0) => return Ok(script),
            Ok(count) => script.extend_from_slice(&chunk[..count])?,
            Err(_) => return Err(PlayFault::Read),
        }
    }
    Err(PlayFault::InputTooLong)
}
