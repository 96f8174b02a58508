//! The ids of entries by their places.

ghost use Rattle.std.specs.Prelude.{◌≡◌, ℕ, None, OnOk, IfErr};
ghost use Rattle.dw_read.specs.declared.error.ReadError.TheVariants.{NoMemory};
ghost use Rattle.dw_entry_ids.specs.Ids.{ids_at, later_or, begins_at};

use dw_base::{UnitEntryId, UnitId, UnitSectionOffset};
use dw_read::ReadResult;
use std::alloc::Global;
use std::collections::HashMap;

/// The units and the numbers of entries, by the places in `.debug_info` where they begin.
///
/// ```
/// let found = number_units(alloc, &dwarf)?;
/// let (unit, entry) = found.ids.get(UnitSectionOffset(12)).unwrap_or(root);
/// ```
#[derive(Drop)]
pub struct EntryIds {
    ids: HashMap<UnitSectionOffset, (UnitId, UnitEntryId)>,
}

impl EntryIds {
    /// No entries.
    pub(crate) fn new(alloc: Global) -> EntryIds
        ensures { (p : ℕ) → ids_at result p ≡ None }
    {
        EntryIds {
            ids: HashMap::new(alloc),
        }
    }

    /// The unit and the number of the entry that begins at a place, if one does.
    pub fn get(&self, place: UnitSectionOffset) -> Option<(UnitId, UnitEntryId)>
        ensures { result ≡ ids_at self.now place.0 }
    {
        self.ids.get(&place).copied()
    }

    /// Keeps that an entry begins at a place.
    pub(crate) fn insert(
        &mut self,
        place: UnitSectionOffset,
        id: (UnitId, UnitEntryId),
    ) -> ReadResult<()>
        ensures ok { OnOk result ((p : ℕ) → ids_at self.new p
            ≡ later_or (begins_at place.0 id p) (ids_at self.old p)) }
        ensures err { IfErr result (λ e. e ≡ NoMemory) }
    {
        self.ids.insert(place, id)?;
        Ok(())
    }
}
