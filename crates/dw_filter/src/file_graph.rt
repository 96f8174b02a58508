//! Which entries of the units of a file are kept.

ghost use Rattle.std.specs.Prelude.{◌≡◌, ◌⊎◌, ◌≤◌, [], OnOk, IfOk, IfErr, All};
ghost use Rattle.std.specs.Prelude.{map, ◌↔◌, Some};
ghost use Rattle.std.specs.List.{Contains};
ghost use Rattle.std.specs.List.Sorted.{IsStrictlyIncreasing};
ghost use Rattle.dw_base.specs.declared.offsets.UnitSectionOffset.{UnitSectionOffset};
ghost use Rattle.dw_entry_ids.specs.KeptRows.{keep_of};
ghost use Rattle.dw_entry_ids.specs.KeptUnits.{AreUnitsBehind};
ghost use Rattle.dw_sources.specs.declared.convert_error.ConvertError.TheVariants.{NoMemory};
ghost use Rattle.dw_filter.specs.FileGraph.{KeptIn, IsLeastKeptIn, MissesRows, MissesPlaces};
ghost use Rattle.dw_filter.specs.FileGraph.{KnownIn, LeadsIn, IsWhole, IsClosedIn, CannotRead};
ghost use Rattle.dw_filter.specs.Dependencies.{Known, Leads, targets};
ghost use Rattle.dw_filter.specs.Links.{AddsUnit, RefusesUnit, IsRequired, HasRows, StandsInUnit};

use crate::dependencies::FilterDependencies;
use crate::links::{add_links, as_parent, links_of, parent_at};
use dw_base::UnitSectionOffset;
use dw_entry_ids::UnitRows;
use dw_read::{DebuggingInformationEntry, Reader};
use dw_read_units::{Dwarf, Unit, UnitRef};
use dw_sources::ConvertResult;
use std::alloc::Global;

/// The entries of a file that a filter keeps, by their places in `.debug_info`, in bytes from the
/// section's begin, in ascending order. Of each unit the entries behind the root count that were
/// read: the first so many as `counts` has at the unit's index, and none where it has nothing
/// there. An entry leads to its parent, unless that is the root, and to what its attributes name
/// (DWARF 5, 2.2), but for those that conversions leave out, as a sibling; and to those of its
/// children that `leads_to_child` tells. Kept are the required ones, and those to which kept ones
/// lead. A required place at which no entry was read is none.
///
/// All rows of the units are read again. Refused as `ConvertError::Read` where a row of one of the
/// units can't be read, or the location list of an entry that counts, and as `NoMemory`.
///
/// ```
/// let required = [UnitSectionOffset(0x2a)];
/// let kept = kept_entries(alloc, &dwarf, &units, &counts, &required)?;
/// ```
pub fn kept_entries<R: Reader>(
    alloc: Global,
    dwarf: &Dwarf<R>,
    units: &[Unit<R>],
    counts: &[usize],
    required: &[UnitSectionOffset],
) -> ConvertResult<Vec<UnitSectionOffset>>
    requires { All (λ u. u.header.offset.0 ≤ (R.reading u.header.body).place) units.now }
    ensures sorted { IfOk result (λ v. IsStrictlyIncreasing (map (λ e. e.0) v.items)) }
    ensures kept { IfOk result (λ v. (q : UnitSectionOffset) → Contains v.items q
        ↔ KeptIn R.reading dwarf.now units.now counts.now required.now q) }
    // Nothing that can't be read was passed over.
    ensures whole { OnOk result (IsWhole R.reading dwarf.now units.now counts.now) }
    // They are the least set with the required entries that were read that is closed along edges.
    ensures least { IfOk result (λ v.
        IsLeastKeptIn R.reading dwarf.now units.now counts.now required.now v.items) }
    // Of units read from the file in order, with an entry its own parent is kept, but for the root.
    ensures closed { AreUnitsBehind R.reading dwarf.now 0 units.now → IfOk result (λ v.
        All (IsClosedIn R.reading (keep_of (Some v.items))) units.now) }
    ensures err { IfErr result (λ e. (e ≡ NoMemory)
        ⊎ (MissesRows R.reading units.now e
        ⊎ MissesPlaces R.reading dwarf.now units.now counts.now e)) }
{
    let mut dependencies = read_units(alloc, dwarf, units, counts)?;
    require_all(&mut dependencies, required)?;
    dependencies.get_reachable()
}

/// The known entries of the units, with their edges.
fn read_units<R: Reader>(
    alloc: Global,
    dwarf: &Dwarf<R>,
    units: &[Unit<R>],
    counts: &[usize],
) -> ConvertResult<FilterDependencies>
    requires { All (λ u. u.header.offset.0 ≤ (R.reading u.header.body).place) units.now }
    ensures known { IfOk result (λ d. (q : UnitSectionOffset) → Known (targets d) q
        ↔ KnownIn R.reading units.now counts.now q) }
    ensures leads { IfOk result (λ d. (p q : UnitSectionOffset) → Leads (targets d) p q
        ↔ LeadsIn R.reading dwarf.now units.now counts.now p q) }
    ensures required { IfOk result (λ d. d.required ≡ []) }
    ensures whole { OnOk result (IsWhole R.reading dwarf.now units.now counts.now) }
    ensures err { IfErr result (λ e. (e ≡ NoMemory)
        ⊎ (MissesRows R.reading units.now e
        ⊎ MissesPlaces R.reading dwarf.now units.now counts.now e)) }
{
    let mut dependencies = FilterDependencies::new(alloc);
    'units: for (index, unit) in units.iter().enumerate() {
        let count = counts.get(index).copied().unwrap_or(0);
        add_unit(alloc, UnitRef { dwarf, unit }, count, &mut dependencies)?;
    }
    Ok(dependencies)
}

/// Makes the first so many entries of a unit behind its root known, with their edges.
fn add_unit<R: Reader>(
    alloc: Global,
    unit: UnitRef<'_, R>,
    count: usize,
    dependencies: &mut FilterDependencies,
) -> ConvertResult<()>
    requires { unit.unit.now.header.offset.0 ≤ (R.reading unit.unit.now.header.body).place }
    ensures ok { OnOk result (AddsUnit R.reading unit.entry.dwarf.now unit.entry.unit.now count
        dependencies.old dependencies.new) }
    ensures err { IfErr result (λ e. (e ≡ NoMemory)
        ⊎ (CannotRead R.reading unit.entry.unit.now e
        ⊎ RefusesUnit R.reading unit.entry.dwarf.now unit.entry.unit.now count e)) }
{
    let mut rows = UnitRows::new(alloc, unit.unit);
    let mut entry = DebuggingInformationEntry::new(alloc);
    let mut read = Vec::new(alloc);
    'rows: while let Some((id, parent)) = rows.next(&mut entry)? {
        if id.index() > count {
            return pass_rest(unit, &mut rows, &mut entry);
        }
        let seen = as_parent(unit, &entry);
        read.push(seen)?;
        if id.index() == 0 {
            continue;
        }
        let parent = parent_at(&read, parent);
        let links = match links_of(alloc, unit, &mut entry, seen.place, parent) {
            Ok(links) => links,
            Err(error) => {
                // A row that can't be read is the reason before a location list is.
                pass_rest(unit, &mut rows, &mut entry)?;
                return Err(error);
            }
        };
        add_links(dependencies, links)?;
    }
    Ok(())
}

/// Passes the rows of a unit that are left, so that it is known that they can be read.
fn pass_rest<R: Reader>(
    unit: UnitRef<'_, R>,
    rows: &mut UnitRows<'_, R>,
    entry: &mut DebuggingInformationEntry<R>,
) -> ConvertResult<()>
    requires { StandsInUnit R.reading unit.unit.now rows.old }
    ensures ok { OnOk result (HasRows R.reading unit.entry.unit.now) }
    ensures err { IfErr result (λ e. (e ≡ NoMemory)
        ⊎ CannotRead R.reading unit.entry.unit.now e) }
{
    'rows: while let Some(_) = rows.next(entry)? {}
    Ok(())
}

/// Requires entries.
fn require_all(
    dependencies: &mut FilterDependencies,
    required: &[UnitSectionOffset],
) -> ConvertResult<()>
    ensures ok { OnOk result (IsRequired dependencies.old dependencies.new required.now) }
    ensures err { IfErr result (λ e. e ≡ NoMemory) }
{
    'entries: for entry in required {
        dependencies.require_entry(*entry)?;
    }
    Ok(())
}
