//! Reading the unit of a split file, and giving it to a conversion.

ghost use Rattle.std.specs.Prelude.{◌≡◌, ◌⊎◌, ◌≤◌, ◌<◌, ◌^◌, take, false, IfOk, IfErr};
ghost use Rattle.dw_entry_ids.specs.KeptRows.{keep_of};
ghost use Rattle.dw_entry_ids.specs.KeptUnits.{AreUnitsBehind};
ghost use Rattle.dw_sources.specs.declared.convert_error.ConvertError.TheVariants.{NoMemory};
ghost use Rattle.dw_dwarf.specs.ConvertedUnits.{AreClosed};
ghost use Rattle.dw_dwarf.specs.SplitUnits.{CannotPutBack, IsGivenSplit, IsSplit};
ghost use Rattle.dw_dwarf.specs.UnitIds.{id_behind};

use crate::convert::found::GivenUnit;
use crate::convert::found_units::entries_of;
use crate::convert::refs::UnitRefs;
use crate::convert::skeleton::Skeleton;
use crate::convert::split_unit::SplitUnit;
use dw_base::UnitId;
use dw_entry_ids::{Kept, NumberedUnits, number_kept};
use dw_read::{ReadError, Reader};
use dw_read_units::{Dwarf, Unit as ReadUnit, UnitRef};
use dw_sources::{ConvertError, ConvertResult};
use dw_unit::Unit;
use std::alloc::Global;

impl<'a, R: Reader> SplitUnit<'a, R> {
    /// Numbers the entries that are kept of the first of units that were read from a split file,
    /// and gives it what its skeleton says of addresses.
    pub(crate) fn of(
        alloc: Global,
        read: &'a Dwarf<R>,
        mut units: Vec<ReadUnit<R>>,
        kept: Kept,
        skeleton: Skeleton<'a, R>,
    ) -> ConvertResult<SplitUnit<'a, R>>
        requires in_order { AreUnitsBehind R.reading read.now 0 units.items }
        requires closed { AreClosed (keep_of kept) R.reading units.items }
        requires free { 1 ≤ skeleton.first }
        ensures ok { IfOk result
            (IsSplit R.reading read.entry (take 1 units.items) kept skeleton.entry) }
        ensures err { IfErr result (λ e. (e ≡ NoMemory)
            ⊎ CannotPutBack R.reading (take 1 units.items) e) }
    {
        units.truncate(1);
        let NumberedUnits { mut units, ids } = number_kept(alloc, read, units, &kept)?;
        if units.is_empty() {
            return Err(ReadError::MissingSplitUnit.into());
        }
        let mut numbered = units.swap_remove(0);
        numbered.unit.copy_relocated_attributes(skeleton.read.unit);
        // No more ids can be handed out than there are numbers.
        if skeleton.first.checked_add(entries_of(&numbered)).is_none() {
            return Err(ConvertError::NoMemory);
        }
        Ok(SplitUnit {
            read,
            numbered,
            ids,
            kept,
            skeleton,
        })
    }

    /// The unit, where its skeleton's becomes that of an id.
    pub(crate) fn give(&self, id: UnitId) -> GivenUnit<'_, R>
        ensures { IsGivenSplit self.now id.0 result }
    {
        let start = self.numbered.unit.header.offset();
        let behind = Some(self.skeleton.first);
        GivenUnit {
            read: UnitRef {
                dwarf: self.read,
                unit: &self.numbered.unit,
            },
            refs: UnitRefs::new(&self.ids, UnitId::new(0), start, id, behind),
            kept: &self.kept,
            entries: self.numbered.entries,
            skeleton: Some(self.skeleton),
        }
    }
}

/// Hands out the ids of so many entries but for the root.
pub(crate) fn reserve_ids(unit: &mut Unit, entries: usize)
    requires some { 1 ≤ entries }
    requires room { id_behind unit.old.reserved entries < 2 ^ 64 }
    requires not_freed { unit.old.is_freed ≡ false }
    ensures { unit.new ≡ record unit.old { reserved = id_behind unit.old.reserved entries } }
{
    for _ in 1..entries {
        unit.reserve();
    }
}
