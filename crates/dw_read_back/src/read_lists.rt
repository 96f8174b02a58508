//! Whole lists of a unit, item by item.

ghost use Rattle.std.specs.Prelude.{IfOk, IfErr};
ghost use Rattle.dw_read_back.specs.ReadLists.{AreReadRanges, AreToldRanges};
ghost use Rattle.dw_read_back.specs.ReadLists.{AreReadLocations, AreToldLocations};
ghost use Rattle.dw_read_back.specs.ReadLists.{MissesRanges, MissesLocations};

use dw_base::{LocationListsOffset, RangeListsOffset};
use dw_read::{ReadResult, Reader};
use dw_read_units::UnitRef;
use dw_sources::{RawLocListEntry, RawRngListEntry, raw_locations, raw_ranges};
use std::alloc::Global;

/// The items of the range list at an offset of `.debug_rnglists`, or up to version 4 of
/// `.debug_ranges`, without its close: just those that were written there.
///
/// Refused are an offset past the section, an unknown kind, an item that ends past the section, an
/// address that doesn't have 1, 2, 4 or 8 bytes, and want of memory.
///
/// ```
/// let items = all_ranges(alloc, unit, offset)?;
/// ```
pub fn all_ranges<R: Reader>(
    alloc: Global,
    unit: UnitRef<'_, R>,
    offset: RangeListsOffset,
) -> ReadResult<Vec<RawRngListEntry>>
    ensures read { IfOk result (λ ranges.
        AreReadRanges R.reading unit.entry offset.0 ranges.items) }
    ensures told { IfOk result (λ ranges.
        AreToldRanges R.reading unit.entry offset.0 ranges.items) }
    ensures err { IfErr result (MissesRanges R.reading unit.entry offset.0) }
{
    let mut items = raw_ranges(unit, offset)?;
    let mut ranges = Vec::new(alloc);
    'items: while let Some(item) = items.next()? {
        ranges.push(item)?;
    }
    Ok(ranges)
}

/// The items of the location list at an offset of `.debug_loclists`, or up to version 4 of
/// `.debug_loc`, without its close: just those that were written there, with the bytes of their
/// expressions.
///
/// It is refused as `all_ranges` is.
///
/// ```
/// let items = all_locations(alloc, unit, offset)?;
/// ```
pub fn all_locations<R: Reader>(
    alloc: Global,
    unit: UnitRef<'_, R>,
    offset: LocationListsOffset,
) -> ReadResult<Vec<RawLocListEntry<R>>>
    ensures read { IfOk result (λ locations.
        AreReadLocations R.reading unit.entry offset.0 locations.items) }
    ensures told { IfOk result (λ locations.
        AreToldLocations R.reading unit.entry offset.0 locations.items) }
    ensures err { IfErr result (MissesLocations R.reading unit.entry offset.0) }
{
    let mut items = raw_locations(unit, offset)?;
    let mut locations = Vec::new(alloc);
    'items: while let Some(item) = items.next()? {
        locations.push(item)?;
    }
    Ok(locations)
}
