//! BER-TLV data objects of smart cards: tag, length and value (EMV Book 3, Annex B).
//!
//! [`Objects::over`] checks bytes once, at all levels, and iterates over their objects without
//! copying. Each is an [`Obj`] with a [`Tag`]; [`find`] goes by a path of tags. [`Tree::read`]
//! copies bytes into a [`Forest`], which can also be built object by object and written. An
//! [`ObjectTag`] is a tag that P1-P2 can name. [`TlvFault`], [`ReadFault`] and [`BuildFault`] are
//! the errors. This lists the objects inside each template:
//!
//! ```rust
//! // crates/library_use/src/objects.rt
//! for object in Objects::over(bytes)? {
//!     if let Some(inside) = object.children() {
//!         for child in inside {
//!             push(alloc, &mut text, child.tag(), child.value())?;
//!         }
//!     }
//! }
//! ```
//!
//! Proved: exactly the bytes that spell some objects are accepted; otherwise the error is the first
//! fault, with its place. What is written spells the same objects, and nothing shorter does. The
//! README lists the contracts; `reader_laws` and `forest_laws` hold laws for the crates above.
#![tactic(auto)]

mod build_fault;
mod check;
mod fault;
mod forest;
pub mod forest_laws;
mod front;
mod head_bytes;
mod node;
mod object_tag;
mod objects;
mod path;
mod read_fault;
pub mod reader_laws;
mod shortest_head;
mod tag;
mod tree;

pub use build_fault::BuildFault;
pub use check::value_fault;
pub use fault::{Reason, TlvFault};
pub use forest::Forest;
pub use head_bytes::Head;
pub use node::Node;
pub use object_tag::ObjectTag;
pub use objects::{Obj, Objects};
pub use path::{find, find_placed};
pub use read_fault::ReadFault;
pub use shortest_head::head;
pub use tag::Tag;
pub use tree::Tree;
