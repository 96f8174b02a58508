//! The entries of a unit: attributes with their values, and the tree that entries are.
#![tactic(auto)]

mod arena;
mod attribute;
mod attribute_walk;
mod attributes;
mod content;
mod copy;
mod entries;
mod entry;
mod key;
mod own_parts;
mod settle;
mod size;
mod tree;
mod value;

pub use attribute::Attribute;
pub use attribute_walk::{AttrMut, AttributeWalk, AttrsMut};
pub use content::Content;
pub use dw_writer::Bytes;
pub use entries::Entries;
pub use entry::DebuggingInformationEntry;
pub use own_parts::{OwnLists, OwnParts};
pub use size::sum;
pub use tree::{Item, flatten};
pub use value::{AttributeValue, info_place_size, reference_form};
