//! Reads bytes as a forest.

ghost use Rattle.std.specs.Prelude.{◌≡◌, ◌↔◌, ◌≤◌, ◌<◌, IfOk, IsErrOf};
ghost use Rattle.tlv_core.specs.FirstFault.{IsFirstFault};
ghost use Rattle.tlv_core.specs.Object.{IsObjectList};
ghost use Rattle.tlv_core.specs.Spelling.{Spells};
ghost use Rattle.tlv_core.specs.declared.fault.TlvFault.{TlvFault as Fault};

use crate::forest::Forest;
use crate::objects::Objects;
use crate::read_fault::ReadFault;
use std::alloc::{AllocError, Allocator};

/// Reads bytes as a forest, by `Tree::read`.
pub struct Tree;

impl Tree {
    /// Reads `bytes` as a list of objects at level 1, and copies it. The memory comes from clones
    /// of `alloc`.
    ///
    /// # Errors
    ///
    /// No forest exists after either:
    ///
    /// - `Tlv`: the bytes are not a list of objects; it holds the first fault.
    /// - `OutOfMemory`: memory ran out.
    pub fn read<A: Allocator + Clone>(alloc: A, bytes: &[u8]) -> Result<Forest<A>, ReadFault>
        ensures forest { IfOk result (λ forest. Spells forest bytes.now 1) }
        ensures fault { (fault : Fault) → IsErrOf result (ReadFault.Tlv fault)
            ↔ IsFirstFault bytes.now 1 fault.place fault.reason }
    {
        let objects = Objects::over(bytes)?;
        Ok(grow(&alloc, objects)?)
    }
}

/// The forest of a list of objects.
fn grow<A: Allocator + Clone>(alloc: &A, objects: Objects<'_>) -> Result<Forest<A>, AllocError>
    requires list { IsObjectList objects }
    requires level { 0 < objects.level }
    ensures { IfOk result (λ forest. Spells forest objects.entry.bytes objects.entry.level) }
{
    let mut forest = Forest::new(alloc.clone()?);
    for object in objects {
        let tag = object.tag();
        match object.children() {
            None => forest.add_primitive(tag, Vec::from_slice(alloc.clone()?, object.value())?)?,
            Some(children) => forest.add_template(tag, grow(alloc, children)?)?,
        }
    }
    Ok(forest)
}
