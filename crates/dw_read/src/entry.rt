//! Entries, as they are read.

ghost use Rattle.std.specs.Prelude.{◌≡◌, []};

use crate::attribute::Attribute;
use crate::reader::Reader;
use dw_base::{DwTag, UnitOffset};
use std::alloc::Global;

/// An entry of a unit. It is read again and again in the same place, so that its attributes take
/// memory once.
///
/// ```
/// let mut entry = DebuggingInformationEntry::new(alloc);
/// let is_entry = rows.read_entry(&mut entry)?;
/// ```
#[derive(Drop)]
pub struct DebuggingInformationEntry<R: Reader> {
    /// The entry's place in its unit.
    pub offset: UnitOffset,
    /// How many lists of children are open where it stands; 0 for the root.
    pub depth: isize,
    pub tag: DwTag,
    /// Whether a list of children follows it.
    pub has_children: bool,
    /// The attributes, in the order of the declaration.
    pub attrs: Vec<Attribute<R>>,
}

impl<R: Reader> DebuggingInformationEntry<R> {
    /// An empty entry, to be read into.
    pub fn new(alloc: Global) -> DebuggingInformationEntry<R>
        ensures { result.attrs.items ≡ [] }
    {
        DebuggingInformationEntry {
            offset: UnitOffset(0),
            depth: 0,
            tag: DwTag(0),
            has_children: false,
            attrs: Vec::new(alloc),
        }
    }
}
