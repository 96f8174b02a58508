//! What a line of a script asks of one unit.

use dw_base::{DwAt, DwTag};
use dw_script_fields::Value;

/// A change of a unit's entries.
#[derive(Drop)]
pub enum Change<'a> {
    /// A new entry, the last child of another.
    Add {
        parent: u64,
        tag: DwTag,
    },
    /// An id for an entry that is added later.
    Reserve,
    /// An entry of a reserved id, the last child of another.
    AddReserved {
        entry: u64,
        parent: u64,
        tag: DwTag,
    },
    /// Whether an entry names the place past its children.
    Sibling {
        entry: u64,
        sibling: bool,
    },
    /// A value for an attribute of an entry.
    Set {
        entry: u64,
        name: DwAt,
        value: Value<'a>,
    },
    /// An attribute that is left out of an entry.
    Delete {
        entry: u64,
        name: DwAt,
    },
    /// A child that is taken out of its parent's children.
    DeleteChild {
        parent: u64,
        entry: u64,
    },
}
