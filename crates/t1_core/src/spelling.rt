//! The bytes of a block: NAD 00, PCB, LEN, the field and the LRC.
ghost use Rattle.std.specs.Prelude.{◌≡◌, ◌≤◌, ◌<◌, ◌+◌, ◌++◌, ◌∷◌, [], List, ℕ, true, length, drop, IfSome, Some, None};
ghost use Rattle.std.specs.Option.{option_map};
ghost use Rattle.t1_core.specs.Block.{Block as Sent, is_filled, said};
ghost use Rattle.t1_core.specs.BlockBytes.{lrc, spelled, parts_of, block_of, block_in, bytes_of, fault_of, info_of, control_of, field_of, subject_of};
ghost use Rattle.t1_core.specs.declared.pcb.Pcb.{Pcb};
ghost use Rattle.t1_core.specs.declared.pcb.Pcb.TheVariants.{Supervisory};

use crate::block::{Block, Control};
use crate::field::copy_at;
use crate::pcb::{BlockReason, Pcb, Subject};

/// The exclusive-or of all bytes (ISO/IEC 7816-3, clause 11: LRC).
pub fn lrc(bytes: &[u8]) -> u8
    ensures { result ≡ lrc bytes.now }
{
    let mut sum = 0;
    for byte in bytes {
        sum ^= *byte;
    }
    sum
}

/// Returns how many bytes a block has: 4 to 258. Its field must have at most 254 bytes.
pub fn size(block: Block<'_>) -> usize
    requires { length (info_of (said block)) ≤ 254 }
    ensures { result ≡ length (bytes_of (said block.entry)) }
{
    let info = match block {
        Block::Information { info, .. } => info.len(),
        Block::Ready { .. } => 0,
        Block::Request(control) | Block::Response(control) => match control {
            Control::Ifs(_) | Control::Wtx(_) => 1,
            Control::Resynch | Control::Abort => 0,
        },
    };
    info + 4
}

/// Writes the bytes of a block to the front of `out`, which has at least `size` of them. The rest
/// stays. The block's field must have at most 254 bytes.
pub fn write(block: Block<'_>, out: &mut [u8])
    requires field { length (info_of (said block)) ≤ 254 }
    requires room { length (bytes_of (said block)) ≤ length out.old }
    ensures { out.new ≡ bytes_of (said block.entry)
        ++ drop (length (bytes_of (said block.entry))) out.old }
{
    match block {
        Block::Information { number, more, info } => {
            spell(Pcb::Information { number, more }, info, out)
        }
        Block::Ready { number, reason } => {
            let error = reason.code();
            spell(Pcb::Ready { number, error }, &[], out)
        }
        Block::Request(control) => write_control(false, control, out),
        Block::Response(control) => write_control(true, control, out),
    }
}

fn write_control(response: bool, control: Control, out: &mut [u8])
    requires { length (spelled (Supervisory response (subject_of control)) (field_of control))
        ≤ length out.old }
    ensures { out.new ≡ spelled (Supervisory response (subject_of control)) (field_of control)
        ++ drop (length (spelled (Supervisory response (subject_of control)) (field_of control)))
        out.old }
{
    let pcb = |subject| Pcb::Supervisory { response, subject };
    match control {
        Control::Resynch => spell(pcb(Subject::Resynch), &[], out),
        Control::Ifs(size) => spell(pcb(Subject::Ifs), &[size], out),
        Control::Abort => spell(pcb(Subject::Abort), &[], out),
        Control::Wtx(multiple) => spell(pcb(Subject::Wtx), &[multiple], out),
    }
}

fn spell(pcb: Pcb, info: &[u8], out: &mut [u8])
    requires field { length info.now ≤ 254 }
    requires room { length (spelled pcb info.now) ≤ length out.old }
    ensures { out.new ≡ spelled pcb info.now ++ drop (length (spelled pcb info.now)) out.old }
{
    copy_at(out, 0, &[0, pcb.byte(), info.len() as u8]);
    copy_at(out, 3, info);
    let end = info.len() + 3;
    let check = lrc(&out[..end]);
    copy_at(out, end, &[check]);
}

/// Decodes a whole block. `None` if `parts` returns `None`, or if the field has a wrong size. An
/// end's `take_bytes` tells a wrong LRC from the other reasons.
///
/// S(IFS) and S(WTX) have one byte, whose value is not checked. R-blocks and other S-blocks have no
/// field. An I-block with the more-data bit has at least one byte (profile).
pub fn read(bytes: &[u8]) -> Option<Block<'_>>
    ensures exact { option_map said result ≡ block_of bytes.now }

    // A block that was written is decoded.
    ensures written { (block : Sent) → length (info_of block) ≤ 254 → is_filled block ≡ true →
        bytes.now ≡ bytes_of block → option_map said result ≡ Some block }
    ensures filled { IfSome result (λ b. is_filled (said b) ≡ true) }
{
    parts(bytes).and_then(|(pcb, info)| block_in(pcb, info))
}

/// Returns the error that R reports of bytes that are no valid block: `Edc` if their LRC is wrong,
/// otherwise `Other`.
pub(crate) fn fault(bytes: &[u8]) -> BlockReason
    ensures { result ≡ fault_of bytes.now }
{
    if lrc(bytes) == 0 {
        BlockReason::Other
    } else {
        BlockReason::Edc
    }
}

/// Returns the PCB and the field, 0 to 254 bytes, of a whole block. Unlike `read`, it accepts any
/// field with any PCB.
///
/// `None` if there are fewer than 4 bytes, NAD is not `00`, the PCB is invalid, LEN is `FF` or not
/// the size of the field, or the LRC is wrong.
pub fn parts(bytes: &[u8]) -> Option<(Pcb, &[u8])>
    ensures exact { option_map (λ b. (b.0, b.1.now)) result ≡ parts_of bytes.now }

    // A block that was decoded is written again, byte for byte.
    ensures spelled { IfSome result (λ b. (length b.1.now ≤ 254)
        × (bytes.now ≡ spelled b.0 b.1.now)) }
{
    if bytes.len() < 4 {
        return None;
    }
    let len = bytes[2];
    if len == 255 {
        return None;
    }
    let end = usize::from(len) + 3;
    if bytes.len() != end + 1 || bytes[0] != 0 || bytes[end] != lrc(&bytes[..end]) {
        return None;
    }
    let pcb = Pcb::of(bytes[1])?;
    Some((pcb, &bytes[3..end]))
}

pub(crate) fn block_in(pcb: Pcb, info: &[u8]) -> Option<Block<'_>>
    ensures { option_map said result ≡ block_in (Some (pcb, info.now)) }
{
    match pcb {
        Pcb::Information { more: true, .. } if info.is_empty() => None,
        Pcb::Information { number, more } => Some(Block::Information { number, more, info }),
        Pcb::Ready { number, error } if info.is_empty() => {
            let reason = BlockReason::of(error);
            Some(Block::Ready { number, reason })
        }
        Pcb::Ready { .. } => None,
        Pcb::Supervisory { response, subject } => {
            let control = control_of(subject, info)?;
            Some(if response {
                Block::Response(control)
            } else {
                Block::Request(control)
            })
        }
    }
}

fn control_of(subject: Subject, info: &[u8]) -> Option<Control>
    ensures { result ≡ control_of subject info.now }
{
    match (subject, info) {
        (Subject::Resynch, []) => Some(Control::Resynch),
        (Subject::Ifs, [size]) => Some(Control::Ifs(*size)),
        (Subject::Abort, []) => Some(Control::Abort),
        (Subject::Wtx, [multiple]) => Some(Control::Wtx(*multiple)),
        _ => None,
    }
}
