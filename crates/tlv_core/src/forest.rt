//! A list of objects in memory: built object by object, written with the shortest lengths.

ghost use Rattle.std.specs.Prelude.{◌≡◌, ◌≢◌, ℕ, ◌+◌, ◌<◌, ◌≤◌, ◌++◌, ◌==◌, ◌↔◌, length, slice_get, true, false, IsErrOf, OnErr, OnOk, IfOk};
ghost use Rattle.std.specs.Option.{option_copied};
ghost use Rattle.tlv_core.specs.TagForm.{IsTag, is_constructed};
ghost use Rattle.tlv_core.specs.Length.{shortest};
ghost use Rattle.tlv_core.specs.Spelling.{Empty, HasSoundObjects, IsWritable, object_bytes, encoding, levels, longest, deepest};
ghost use Rattle.tlv_core.specs.Items.{PrimitiveItem, TemplateItem, items, with_first, with_last};

use crate::build_fault::BuildFault;
use crate::front::DEEPEST;
use crate::node::{Content, Node};
use crate::shortest_head::head;
use crate::tag::Tag;
use std::alloc::{AllocError, Allocator, Global};
use std::marker::Model;

/// One more than the longest value, in bytes.
const TOO_LONG: usize = 65_536;

/// A list of objects that can be written. Each tag suits its object, each value has at most 65,535
/// bytes when written, and no object is deeper than level 16.
///
/// `push_primitive` and `push_template` add objects, `write` returns their bytes, and `Tree::read`
/// makes a forest of bytes. Objects and values use memory of the allocator `A`. Contracts see a
/// forest as the definitions' `Forest`.
#[cycle(forest)]
#[derive(Drop)]
pub struct Forest<A: Allocator = Global> {
    nodes: Vec<Node<A>, A>,
    /// The number of bytes that the objects take when written, up to `TOO_LONG`.
    written: usize,
    /// The number of levels of objects: 0 for an empty forest.
    levels: u8,
}

impl<A: Allocator> Model for Forest<A> {
    ghost use Rattle.tlv_core.specs.Spelling as spelling;
    ghost use Rattle.tlv_core.specs.Items.{forest_of};
    ghost use Rattle.tlv_core.specs.ItemCodes.{forest_code};

    ghost Value = { spelling.Forest };

    ghost coded = { forest_code };

    ghost use Rattle.tlv_core.specs.Nodes.{forest_size, IsKept};

    ghost view = { λ f. forest_of f.nodes.items };

    ghost invariant = { λ f. IsKept A.Allocator (forest_of f.nodes.items) f.written f.levels };

    ghost size = { forest_size };

    ghost use Rattle.std.proofs.Common.{arith};
    ghost use Rattle.tlv_core.specs.NodesFall.{most_le-forest_size};

    ghost size_decreases = { λ a h. omega (arith, most_le-forest_size a.nodes.items) };
}

impl<A: Allocator> Forest<A> {
    /// Makes an empty forest. It allocates nothing.
    pub fn new(alloc: A) -> Forest<A>
        ensures { result ≡ Empty }
    {
        Forest {
            nodes: Vec::new(alloc),
            written: 0,
            levels: 0,
        }
    }

    /// The number of objects at level 1.
    pub fn len(&self) -> usize
        ensures { result ≡ length (items self.now) }
    {
        self.nodes.len()
    }

    /// Whether the forest is empty.
    pub fn is_empty(&self) -> bool
        ensures { result ≡ (length (items self.now) == 0) }
    {
        self.nodes.is_empty()
    }

    /// Returns the object with this index, from 0, among those at level 1. `None` past the last.
    pub fn get(&self, index: usize) -> Option<&Node<A>>
        ensures { option_copied result ≡ slice_get (items self.now) index }
    {
        self.nodes.get(index)
    }

    /// Appends a primitive object at level 1.
    ///
    /// # Errors
    ///
    /// After each, the forest is unchanged and `value` is dropped:
    ///
    /// - `WrongKind`: the tag is that of a constructed object.
    /// - `TooLong`: the tag is primitive, and the value has more than 65,535 bytes.
    /// - `OutOfMemory`: memory ran out.
    ///
    /// `TooDeep` never occurs.
    pub fn push_primitive(&mut self, tag: Tag, value: Vec<u8, A>) -> Result<(), BuildFault>
        ensures ok { OnOk result (self.new ≡ with_last self.old (PrimitiveItem tag value.items)) }
        ensures err { OnErr result (self.new ≡ self.old) }
        ensures wrong_kind { IsErrOf result BuildFault.WrongKind ↔ (is_constructed tag ≡ true) }
        ensures too_long { IsErrOf result BuildFault.TooLong
            ↔ (is_constructed tag ≡ false) × (longest < length value.items) }
        ensures never_too_deep { result ≢ Err BuildFault.TooDeep }
    {
        if !tag.is_primitive() {
            return Err(BuildFault::WrongKind);
        }
        if value.len() >= TOO_LONG {
            return Err(BuildFault::TooLong);
        }
        self.add_primitive(tag, value)?;
        Ok(())
    }

    /// Appends a template at level 1 that contains the objects of `children`.
    ///
    /// # Errors
    ///
    /// In this order. After each, the forest is unchanged and `children` is dropped:
    ///
    /// - `WrongKind`: the tag is that of a primitive object.
    /// - `TooLong`: the children take more than 65,535 bytes when written.
    /// - `TooDeep`: `children` has 16 levels, so an object would be at level 17.
    /// - `OutOfMemory`: memory ran out.
    pub fn push_template(&mut self, tag: Tag, children: Forest<A>) -> Result<(), BuildFault>
        ensures ok { OnOk result (self.new ≡ with_last self.old (TemplateItem tag children)) }
        ensures err { OnErr result (self.new ≡ self.old) }
        ensures wrong_kind { IsErrOf result BuildFault.WrongKind ↔ (is_constructed tag ≡ false) }
        ensures too_long { IsErrOf result BuildFault.TooLong
            ↔ (is_constructed tag ≡ true) × (longest < length (encoding children)) }
        ensures too_deep { IsErrOf result BuildFault.TooDeep
            ↔ (is_constructed tag ≡ true) × (length (encoding children) ≤ longest)
            × (deepest ≤ levels children) }
    {
        if tag.is_primitive() {
            return Err(BuildFault::WrongKind);
        }
        if children.written >= TOO_LONG {
            return Err(BuildFault::TooLong);
        }
        if children.levels >= DEEPEST {
            return Err(BuildFault::TooDeep);
        }
        self.add_template(tag, children)?;
        Ok(())
    }

    /// Appends a primitive object that can be written.
    pub(crate) fn add_primitive(&mut self, tag: Tag, value: Vec<u8, A>) -> Result<(), AllocError>
        requires tag { IsTag tag }
        requires kind { is_constructed tag ≡ false }
        requires fits { length value.items ≤ longest }
        ensures ok { OnOk result (self.new ≡ with_last self.old (PrimitiveItem tag value.items)) }
        ensures err { OnErr result (self.new ≡ self.old) }
    {
        let size = object_size(tag, value.len());
        let content = Content::Primitive(value);
        self.add(Node { tag, content }, size, 1)
    }

    /// Appends a template that can be written.
    pub(crate) fn add_template(&mut self, tag: Tag, children: Forest<A>) -> Result<(), AllocError>
        requires tag { IsTag tag }
        requires kind { is_constructed tag ≡ true }
        requires fits { length (encoding children) ≤ longest }
        requires in_depth { levels children < deepest }
        ensures ok { OnOk result (self.new ≡ with_last self.old (TemplateItem tag children)) }
        ensures err { OnErr result (self.new ≡ self.old) }
    {
        let size = object_size(tag, children.written);
        let depth = children.levels + 1;
        let content = Content::Template(children);
        self.add(Node { tag, content }, size, depth)
    }

    /// Appends an object of `size` bytes and `depth` levels.
    fn add(&mut self, node: Node<A>, size: usize, depth: u8) -> Result<(), AllocError>
        requires sound { HasSoundObjects (with_first node Empty) }
        requires is_size { size ≡ length (encoding (with_first node Empty)) }
        requires is_depth { depth ≡ levels (with_first node Empty) }
        requires in_depth { depth ≤ deepest }
        ensures ok { OnOk result (self.new ≡ with_last self.old node) }
        ensures err { OnErr result (self.new ≡ self.old) }
    {
        self.nodes.push(node)?;
        self.written = self.written.saturating_add(size).min(TOO_LONG);
        self.levels = self.levels.max(depth);
        Ok(())
    }

    /// Appends the bytes of the objects to `bytes`.
    fn append_to(&self, bytes: &mut Vec<u8, A>) -> Result<(), AllocError>
        ensures { OnOk result (bytes.new.items ≡ bytes.old.items ++ encoding self.now) }
    {
        for node in &self.nodes {
            match &node.content {
                Content::Primitive(value) => append_primitive(bytes, node.tag, value)?,
                Content::Template(children) => {
                    append_head(bytes, node.tag, children.written as u16)?;
                    children.append_to(bytes)?;
                }
            }
        }
        Ok(())
    }
}

impl<A: Allocator + Clone> Forest<A> {
    /// Returns the bytes of the objects, with the shortest lengths and without padding. They spell
    /// exactly these objects. The memory comes from a clone of the allocator.
    ///
    /// # Errors
    ///
    /// - `AllocError`: memory ran out; the forest is unchanged.
    pub fn write(&self) -> Result<Vec<u8, A>, AllocError>
        ensures bytes { IfOk result (λ bytes. bytes.items ≡ encoding self.now) }
        ensures writable { IsWritable self.now }
    {
        let mut bytes = Vec::new(self.nodes.allocator().clone()?);
        self.append_to(&mut bytes)?;
        Ok(bytes)
    }
}

/// The size in bytes of an object with this tag and a value of `len` bytes.
fn object_size(tag: Tag, len: usize) -> usize
    requires tag { IsTag tag }
    requires fits { len ≤ longest }
    ensures { result ≡ length tag + length (shortest len) + len }
{
    head(tag, len as u16).bytes().len() + len
}

/// Appends a tag, and `len` in its shortest spelling.
fn append_head<A: Allocator>(bytes: &mut Vec<u8, A>, tag: Tag, len: u16) -> Result<(), AllocError>
    ensures { OnOk result (bytes.new.items ≡ bytes.old.items ++ (tag ++ shortest len)) }
{
    bytes.extend_from_slice(head(tag, len).bytes())
}

/// Appends a primitive object.
fn append_primitive<A: Allocator>(
    bytes: &mut Vec<u8, A>,
    tag: Tag,
    value: &[u8],
) -> Result<(), AllocError>
    requires { length value.now ≤ longest }
    ensures { OnOk result (bytes.new.items ≡ bytes.old.items ++ object_bytes tag value.now) }
{
    append_head(bytes, tag, value.len() as u16)?;
    bytes.extend_from_slice(value)
}
