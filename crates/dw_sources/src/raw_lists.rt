//! The range lists and location lists of a unit, item by item (DWARF 5, 2.6.2 and 2.17.3).

ghost use Rattle.std.specs.Prelude.{◌≡◌, List, false, IfOk, IfErr};
ghost use Rattle.dw_base.specs.Numbers.{bytes_at};
ghost use Rattle.dw_read.specs.Reading.{Refuses};
ghost use Rattle.dw_read.specs.Reasons.{bytes_read};
ghost use Rattle.dw_sources.specs.RawListIters.{ranges_section, locations_section};
ghost use Rattle.dw_sources.specs.RawListIters.{BeginsRanges, BeginsLocations};
ghost use Rattle.dw_sources.specs.RawListIters.{ReadsRange, ReadsLocation};

use crate::location_item::{RawLocListEntry, read_location};
use crate::range_item::{RawRngListEntry, read_range};
use dw_base::{Encoding, LocationListsOffset, RangeListsOffset};
use dw_read::{ReadResult, Reader};
use dw_read_units::UnitRef;

/// The items of the range list at an offset of `.debug_rnglists`, or up to version 4 of
/// `.debug_ranges`.
pub fn raw_ranges<R: Reader>(
    unit: UnitRef<'_, R>,
    offset: RangeListsOffset,
) -> ReadResult<RawRngListIter<R>>
    ensures ok { IfOk result (BeginsRanges R.reading unit.entry offset.0) }
    ensures err { IfErr result (Refuses _ (bytes_at offset.0) (bytes_read offset.0)
        (ranges_section R.reading unit.entry)) }
{
    let encoding = unit.encoding();
    let mut input = range_lists(unit);
    input.skip(offset.0)?;
    Ok(RawRngListIter::new(input, encoding))
}

/// The items of the location list at an offset of `.debug_loclists`, or up to version 4 of
/// `.debug_loc`.
pub fn raw_locations<R: Reader>(
    unit: UnitRef<'_, R>,
    offset: LocationListsOffset,
) -> ReadResult<RawLocListIter<R>>
    ensures ok { IfOk result (BeginsLocations R.reading unit.entry offset.0) }
    ensures err { IfErr result (Refuses _ (bytes_at offset.0) (bytes_read offset.0)
        (locations_section R.reading unit.entry)) }
{
    let encoding = unit.encoding();
    let mut input = location_lists(unit);
    input.skip(offset.0)?;
    Ok(RawLocListIter::new(input, encoding))
}

/// A reader of the section of a unit's range lists.
fn range_lists<R: Reader>(unit: UnitRef<'_, R>) -> R
    ensures { R.reading result ≡ ranges_section R.reading unit.entry }
{
    if unit.encoding().version == 5 {
        unit.dwarf.debug_rnglists.duplicate()
    } else {
        unit.dwarf.debug_ranges.duplicate()
    }
}

/// A reader of the section of a unit's location lists.
fn location_lists<R: Reader>(unit: UnitRef<'_, R>) -> R
    ensures { R.reading result ≡ locations_section R.reading unit.entry }
{
    if unit.encoding().version == 5 {
        unit.dwarf.debug_loclists.duplicate()
    } else {
        unit.dwarf.debug_loc.duplicate()
    }
}

/// The items of a range list, as they stand in the section.
///
/// ```
/// let mut items = raw_ranges(unit, offset)?;
/// let first = items.next()?;
/// ```
#[derive(Drop)]
pub struct RawRngListIter<R: Reader> {
    pub(crate) input: R,
    pub(crate) encoding: Encoding,
    pub(crate) has_ended: bool,
}

impl<R: Reader> RawRngListIter<R> {
    /// The items of the range list that a reader stands at, as `.debug_rnglists` has them, or up to
    /// version 4 `.debug_ranges`.
    pub fn new(input: R, encoding: Encoding) -> RawRngListIter<R>
        ensures input { result.input ≡ input }
        ensures encoding { result.encoding ≡ encoding }
        ensures going { result.has_ended ≡ false }
    {
        RawRngListIter {
            input,
            encoding,
            has_ended: false,
        }
    }

    /// The next item. None comes at the list's close, and once an error was answered.
    pub fn next(&mut self) -> ReadResult<Option<RawRngListEntry>>
        ensures { ReadsRange R.reading self.old self.new result }
    {
        if self.has_ended {
            return Ok(None);
        }
        let mut after = self.input.duplicate();
        match read_range(&mut after, self.encoding) {
            Ok(Some(item)) => {
                self.input = after;
                Ok(Some(item))
            }
            Ok(None) => {
                self.input = after;
                self.has_ended = true;
                Ok(None)
            }
            Err(error) => {
                self.has_ended = true;
                Err(error)
            }
        }
    }
}

/// The items of a location list, as they stand in the section.
///
/// ```
/// let mut items = raw_locations(unit, offset)?;
/// let first = items.next()?;
/// ```
#[derive(Drop)]
pub struct RawLocListIter<R: Reader> {
    pub(crate) input: R,
    pub(crate) encoding: Encoding,
    pub(crate) has_ended: bool,
}

impl<R: Reader> RawLocListIter<R> {
    /// The items of the location list that a reader stands at, as `.debug_loclists` has them, or up
    /// to version 4 `.debug_loc`.
    pub fn new(input: R, encoding: Encoding) -> RawLocListIter<R>
        ensures input { result.input ≡ input }
        ensures encoding { result.encoding ≡ encoding }
        ensures going { result.has_ended ≡ false }
    {
        RawLocListIter {
            input,
            encoding,
            has_ended: false,
        }
    }

    /// The next item. None comes at the list's close, and once an error was answered.
    pub fn next(&mut self) -> ReadResult<Option<RawLocListEntry<R>>>
        ensures { ReadsLocation R.reading self.old self.new result }
    {
        if self.has_ended {
            return Ok(None);
        }
        let mut after = self.input.duplicate();
        match read_location(&mut after, self.encoding) {
            Ok(Some(item)) => {
                self.input = after;
                Ok(Some(item))
            }
            Ok(None) => {
                self.input = after;
                self.has_ended = true;
                Ok(None)
            }
            Err(error) => {
                self.has_ended = true;
                Err(error)
            }
        }
    }
}
