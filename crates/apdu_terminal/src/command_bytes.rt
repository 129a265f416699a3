//! Writes a whole command as bytes, for a reader or a line.
ghost use Rattle.std.specs.Prelude.{◌≡◌, ◌<◌, ◌≤◌, ◌++◌, length, drop, MatchOption};
ghost use Rattle.apdu_core.specs.CommandBytes.{command_bytes};

use apdu_core::{Command, Header};

/// The most bytes of a command: header, Lc, 255 bytes of data, Le.
pub const COMMAND_LIMIT: usize = 261;

/// Writes the command's bytes to the front of `out`, and returns their number, 4 to
/// `COMMAND_LIMIT`. The rest of `out` stays. If `out` is too short, returns `None` and changes
/// nothing.
pub fn write_command(command: &Command<'_>, out: &mut [u8]) -> Option<usize>
    ensures { let bytes = command_bytes command.now in MatchOption result
        ((length out.old < length bytes) × (out.new ≡ out.old))
        (λ n. (n ≡ length bytes) × (out.new ≡ bytes ++ drop n out.old)) }
{
    let Header { cla, ins, p1, p2 } = command.header();
    let content = command.data();
    let opening = [cla, ins, p1, p2, content.len() as u8];
    let first = if content.is_empty() { 4 } else { 5 };
    match command.le() {
        None => write_parts(&opening[..first], content, &[], out),
        Some(le) => write_parts(&opening[..first], content, &[(le % 256) as u8], out),
    }
}

/// Writes the three parts, one after another, to the front of `out`.
fn write_parts(first: &[u8], second: &[u8], third: &[u8], out: &mut [u8]) -> Option<usize>
    requires { (length first.now ≤ 5) × (length second.now ≤ 255) × (length third.now ≤ 1) }
    ensures { let bytes = first.now ++ second.now ++ third.now in MatchOption result
        ((length out.old < length bytes) × (out.new ≡ out.old))
        (λ n. (n ≡ length bytes) × (out.new ≡ bytes ++ drop n out.old)) }
{
    let (from, until) = (first.len(), first.len() + second.len());
    let len = until + third.len();
    if len > out.len() {
        return None;
    }
    out[..from].copy_from_slice(first);
    out[from..until].copy_from_slice(second);
    out[until..len].copy_from_slice(third);
    Some(len)
}
