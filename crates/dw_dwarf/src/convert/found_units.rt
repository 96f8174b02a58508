//! Reading all units of a file, and giving one of them.

ghost use Rattle.std.specs.Prelude.{◌≡◌, ◌⊎◌, ◌<◌, ◌++◌, length, map, None, OnOk, IfOk, IfErr};
ghost use Rattle.dw_entry_ids.specs.Units.{NumbersUnits};
ghost use Rattle.dw_sources.specs.declared.convert_error.ConvertError.TheVariants.{NoMemory};
ghost use Rattle.dw_dwarf.specs.ConvertedUnits.{AreClosed, CannotRead};
ghost use Rattle.dw_dwarf.specs.FilteredDwarf.{AreFilterUnits, CannotBegin, CannotReadEntries, KeepsOf};
ghost use Rattle.dw_dwarf.specs.FilteredDwarf.{NumbersFiltered};
ghost use Rattle.dw_entry_ids.specs.KeptRows.{keep_of};
ghost use Rattle.dw_entry_ids.specs.KeptUnits.{AreUnitsBehind};
ghost use Rattle.dw_dwarf.specs.FoundUnits.{IsGiven};
ghost use Rattle.dw_dwarf.specs.NewUnits.{unit_for};

use crate::convert::found::{FoundUnits, GivenUnit};
use crate::convert::refs::UnitRefs;
use crate::convert::units::new_unit;
use dw_base::UnitId;
use dw_entry_ids::{Kept, NumberedUnit, first_units, number_kept, number_units};
use dw_filter::{FilterUnitSection, kept_entries};
use dw_read::Reader;
use dw_read_units::{Dwarf, Unit, UnitRef};
use dw_sources::{ConvertError, ConvertResult};
use dw_unit::UnitTable;
use std::alloc::Global;

impl<'a, R: Reader> FoundUnits<'a, R> {
    /// Reads all units, and numbers their entries.
    pub(crate) fn read(alloc: Global, dwarf: &'a Dwarf<R>) -> ConvertResult<FoundUnits<'a, R>>
        ensures ok { IfOk result (λ f. NumbersUnits R.reading dwarf.now f.found) }
        ensures file { IfOk result (λ f. f.read.now ≡ dwarf.now) }
        ensures kept { IfOk result (λ f. f.kept ≡ None) }
        ensures err { IfErr result (λ e. (e ≡ NoMemory) ⊎ CannotRead R.reading dwarf.now e) }
    {
        let found = number_units(alloc, dwarf)?;
        Ok(FoundUnits {
            read: dwarf,
            found,
            kept: Kept::all(),
        })
    }

    /// Reads the units again that a filter has read, and numbers their entries that it keeps.
    pub(crate) fn filtered(
        alloc: Global,
        filter: FilterUnitSection<'a, R>,
    ) -> ConvertResult<FoundUnits<'a, R>>
        ensures ok { IfOk result (λ f.
            NumbersFiltered R.reading filter.entry f.kept f.found) }
        ensures file { IfOk result (λ f. f.read.now ≡ filter.entry.dwarf.now) }
        ensures err { IfErr result (λ e. (e ≡ NoMemory)
            ⊎ CannotBegin R.reading filter.entry e) }
    {
        let read = filter.dwarf();
        let units = first_units(alloc, read, filter.counts().len())?;
        let kept = kept_of(alloc, &filter, &units)?;
        let found = number_kept(alloc, read, units, &kept)?;
        Ok(FoundUnits { read, found, kept })
    }

    /// The unit of an index in its file, where the first of all becomes that of an id.
    pub(crate) fn give(&self, index: usize, first: UnitId) -> GivenUnit<'_, R>
        requires { index < length self.now.found.units.items }
        ensures { IsGiven self.now index first.0 result }
    {
        let numbered = &self.found.units[index];
        let start = numbered.unit.header.offset();
        let entries = entries_of(numbered);
        GivenUnit {
            read: UnitRef {
                dwarf: self.read,
                unit: &numbered.unit,
            },
            refs: UnitRefs::new(&self.found.ids, UnitId::new(index), start, first, None),
            kept: &self.kept,
            entries,
            skeleton: None,
        }
    }

    /// Adds a new unit for each of them behind those of the table: in its encoding, with its root
    /// alone, and with an id for each of its entries that are kept.
    pub(crate) fn add_new(&self, alloc: Global, units: &mut UnitTable) -> ConvertResult<()>
        ensures ok { OnOk result
            (units.new ≡ units.old ++ map unit_for self.now.found.units.items) }
        ensures err { IfErr result (λ e. e ≡ NoMemory) }
    {
        'units: for numbered in &self.found.units {
            let unit = new_unit(alloc, numbered.unit.header.encoding(), numbered.entries)?;
            match units.add(unit) {
                Ok(_) => {}
                Err(_) => return Err(ConvertError::NoMemory),
            }
        }
        Ok(())
    }
}

/// How many entries of a unit are kept.
pub(crate) fn entries_of<R: Reader>(numbered: &NumberedUnit<R>) -> usize
    ensures { result ≡ numbered.now.entries }
{
    numbered.entries
}

/// Which entries of its units a filter keeps.
pub(crate) fn kept_of<R: Reader>(
    alloc: Global,
    filter: &FilterUnitSection<'_, R>,
    units: &[Unit<R>],
) -> ConvertResult<Kept>
    requires are { AreFilterUnits R.reading filter.now units.now }
    requires in_order { AreUnitsBehind R.reading filter.now.dwarf.now 0 units.now }
    ensures ok { IfOk result (KeepsOf R.reading filter.now units.now) }
    ensures closed { IfOk result (λ k. AreClosed (keep_of k) R.reading units.now) }
    ensures err { IfErr result (λ e. (e ≡ NoMemory) ⊎ CannotReadEntries R.reading filter.now e) }
{
    let (read, counts) = (filter.dwarf(), filter.counts());
    let places = kept_entries(alloc, read, units, counts, filter.required())?;
    Ok(Kept::at(places))
}
