//! What the entries became that a unit names.

ghost use Rattle.std.specs.Prelude.{◌≡◌};
ghost use Rattle.dw_dwarf.specs.EntryRefs.{entry_of, info_of};

use crate::convert::skeleton::placed_id;
use dw_base::{DebugInfoOffset, DebugInfoRef, UnitEntryId, UnitId, UnitOffset, UnitSectionOffset};
use dw_convert::ConvertDebugInfoRef;
use dw_entry_ids::EntryIds;
use dw_sources::{ConvertError, ConvertResult};

/// Knows the entries that a unit may name: those of its own, by their places in it, and those of
/// all units that are converted, by their places in `.debug_info`.
#[derive(Clone, Copy)]
pub(crate) struct UnitRefs<'a> {
    ids: &'a EntryIds,
    /// The unit among those that are read, and where it begins.
    unit: UnitId,
    start: usize,
    /// The number that the first of the units gets.
    first: usize,
    /// The id at which those of entries behind the root begin, if that is given.
    behind: Option<usize>,
}

impl<'a> UnitRefs<'a> {
    /// Of a unit that begins at a place, where the first unit is that of an id, and the ids of
    /// entries behind the root may begin at another than their own.
    pub(crate) fn new(
        ids: &'a EntryIds,
        unit: UnitId,
        start: DebugInfoOffset,
        first: UnitId,
        behind: Option<usize>,
    ) -> UnitRefs<'a>
        ensures ids { result.ids.now ≡ ids.now }
        ensures unit { result.unit ≡ unit }
        ensures start { result.start ≡ start.0 }
        ensures first { result.first ≡ first.0 }
        ensures behind { result.behind ≡ behind }
    {
        UnitRefs {
            ids,
            unit,
            start: start.0,
            first: first.0,
            behind,
        }
    }
}

impl ConvertDebugInfoRef for UnitRefs<'_> {
    ghost entries = { entry_of };

    ghost infos = { info_of };

    fn convert_unit_ref(&self, entry: UnitOffset) -> ConvertResult<UnitEntryId> {
        let id = match self.start.checked_add(entry.0) {
            Some(place) => self.ids.get(UnitSectionOffset(place)),
            None => None,
        };
        let id = match id {
            Some((unit, id)) if unit.index() == self.unit.index() => placed_id(self.behind, id),
            _ => None,
        };
        id.ok_or(ConvertError::InvalidUnitRef)
    }

    fn convert_debug_info_ref(&self, entry: DebugInfoOffset) -> ConvertResult<DebugInfoRef> {
        let Some((unit, id)) = self.ids.get(UnitSectionOffset(entry.0)) else {
            return Err(ConvertError::InvalidDebugInfoRef);
        };
        let number = self.first.checked_add(unit.index());
        match (number, placed_id(self.behind, id)) {
            (Some(number), Some(id)) => Ok(DebugInfoRef::Entry(UnitId::new(number), id)),
            _ => Err(ConvertError::InvalidDebugInfoRef),
        }
    }
}
