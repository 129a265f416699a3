//! Prints data objects as a tree.
ghost use Rattle.std.specs.Prelude.{◌≡◌, OnOk, IsErrOf};
ghost use Rattle.std.specs.Io.KnownBytes.{Appends};
ghost use Rattle.tlv_core.specs.FirstFault.{IsFirstFault};
ghost use Rattle.tlv_core.specs.Spelling.{AreObjects, Forest, Spells};
ghost use Rattle.tlv_core.specs.declared.fault.TlvFault.{TlvFault as Fault};
ghost use Rattle.card_trace.specs.ForestText.{forest_text};

use crate::objects_fault::ObjectsFault;
use crate::text::push_objects;
use std::alloc::Allocator;
use std::io::Write;
use tlv_core::Objects;

/// Writes the objects that the bytes spell, a line for each: two spaces for each level below the
/// first, and the tag. Unless it is a template the value follows, or `-` if it is empty.
///
/// # Errors
/// - `Tlv`: the bytes are not a list of objects; this is their first fault, and nothing is written.
/// - `OutOfMemory`: memory ran out; nothing is written.
/// - `Write`: the writer failed; it is not known how much it took.
pub fn print_objects<A: Allocator + Copy, W: Write>(
    alloc: A,
    bytes: &[u8],
    writer: &mut W,
) -> Result<(), ObjectsFault>
    ensures written { OnOk result ((forest : Forest) × Spells forest bytes.now 1
        × Appends (W.contents writer.old) (W.contents writer.new) (forest_text forest)) }
    ensures fault { (fault : Fault) → IsErrOf result (ObjectsFault.Tlv fault) →
        IsFirstFault bytes.now 1 fault.place fault.reason }
    ensures refuses { ¬ AreObjects bytes.now 1 →
        (fault : Fault) × IsErrOf result (ObjectsFault.Tlv fault) }
    ensures silent { (fault : Fault) → IsErrOf result (ObjectsFault.Tlv fault) →
        W.contents writer.new ≡ W.contents writer.old }
    ensures unwritten { IsErrOf result ObjectsFault.OutOfMemory →
        W.contents writer.new ≡ W.contents writer.old }
{
    let objects = Objects::over(bytes)?;
    let mut text = Vec::new(alloc);
    push_objects(alloc, &mut text, objects, 0)?;
    match writer.write_all(text.as_slice()) {
        Ok(()) => Ok(()),
        Err(_) => Err(ObjectsFault::Write),
    }
}
