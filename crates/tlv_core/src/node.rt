//! One object of a forest: a primitive with its value, or a template with its objects.

ghost use Rattle.std.specs.Prelude.{◌≡◌};
ghost use Rattle.std.specs.Option.{option_copied};
ghost use Rattle.tlv_core.specs.Items.{PrimitiveItem, TemplateItem, item_tag, item_value, item_children};

use crate::forest::Forest;
use crate::tag::Tag;
use std::alloc::{Allocator, Global};
use std::marker::Model;

/// One object of a forest. Contracts see it as its tag with its value or its children.
#[cycle(forest)]
#[derive(Drop)]
pub struct Node<A: Allocator = Global> {
    pub(crate) tag: Tag,
    pub(crate) content: Content<A>,
}

#[cycle(forest)]
#[derive(Drop)]
pub(crate) enum Content<A: Allocator> {
    Primitive(Vec<u8, A>),
    Template(Forest<A>),
}

impl<A: Allocator> Model for Node<A> {
    ghost use Rattle.tlv_core.specs.Items.{Item};
    ghost use Rattle.tlv_core.specs.ItemCodes.{item_code};

    ghost Value = { Item };

    ghost coded = { item_code };

    ghost use Rattle.tlv_core.specs.Nodes.{item_of, item_size};

    ghost view = { λ n. item_of n.tag n.content };

    ghost size = { item_size };

    ghost use Rattle.tlv_core.specs.NodesFall.{depth_le-item_size};

    ghost size_decreases = { λ a h. depth_le-item_size A.Allocator a.tag a.content };
}

impl<A: Allocator> Node<A> {
    /// The object's tag.
    pub fn tag(&self) -> Tag
        ensures { result ≡ item_tag self.now }
    {
        self.tag
    }

    /// The value of a primitive object; `None` for a template.
    pub fn value(&self) -> Option<&[u8]>
        ensures { option_copied result ≡ item_value self.now }
    {
        match &self.content {
            Content::Primitive(value) => Some(value),
            Content::Template(_) => None,
        }
    }

    /// The objects in a template; `None` for a primitive object.
    pub fn children(&self) -> Option<&Forest<A>>
        ensures { option_copied result ≡ item_children self.now }
    {
        match &self.content {
            Content::Primitive(_) => None,
            Content::Template(children) => Some(children),
        }
    }
}
