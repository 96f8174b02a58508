//! The entries of a file that have a live address.

ghost use Rattle.std.specs.Prelude.{◌≡◌, ◌⊎◌, ◌+◌, ◌<◌, ◌^◌, ◌≤◌, Bool, List, Err, length};
ghost use Rattle.std.specs.Prelude.{IfOk, IfErr, OnOk};
ghost use Rattle.dw_read.specs.Reading.{left};
ghost use Rattle.dw_read.specs.Rows.{row_read};
ghost use Rattle.dw_read.specs.declared.error.ReadError.TheVariants.{NoMemory};
ghost use Rattle.dw_read_units.specs.Passes.{rows_reading, unit_reading, units_reading};
ghost use Rattle.dw_entry_ranges.specs.Attributes.{values_in, AreInOrder};
ghost use Rattle.dw_entry_ranges.specs.Entries.{entry_ranges};
ghost use Rattle.dw_entry_ranges.specs.Live.{IsMadeOf};
ghost use Rattle.dw_entry_ranges.specs.Required.{FindsRequired, MissesEntry, MissesRow};
ghost use Rattle.dw_entry_ranges.specs.RequiredRows.{AddsEntry, AddsRow, AddsRows, AddsUnit};
ghost use Rattle.dw_entry_ranges.specs.RequiredRows.{AreRowsOf, MissesMark, MissesUnitRow};
ghost use Rattle.dw_entry_ranges.specs.declared.live.LiveRange.{LiveRange as Live};

use crate::entry::entry_ranges;
use crate::live::{LiveRange, LiveRanges};
use dw_base::UnitSectionOffset;
use dw_read::{DebuggingInformationEntry, EntriesRaw, ReadResult, Reader, UnitHeader};
use dw_read_units::{Dwarf, UnitRef};
use std::alloc::Global;

/// The places in `.debug_info` of the entries that have a live address, in the order in which they
/// stand: those of which one of their own ranges, as `entry_ranges` answers them, meets a live one.
/// Roots of units aren't among them. Live ranges may overlap, and none has to be there.
///
/// Refused is a unit or a row that can't be read, and an entry behind a root whose ranges can't be
/// told, for the reason that `entry_ranges` is refused for; and want of memory (`NoMemory`).
///
/// ```
/// let live = [LiveRange { begin: 0x1000, end: 0x1010 }];
/// for place in &required_entries(alloc, &dwarf, &live)? {
///     let offset = place.0;
/// }
/// ```
pub fn required_entries<R: Reader>(
    alloc: Global,
    dwarf: &Dwarf<R>,
    live: &[LiveRange],
) -> ReadResult<Vec<UnitSectionOffset>>
    ensures ok { IfOk result (λ v. FindsRequired R.reading dwarf.now live.now v.items) }
    ensures err { IfErr result (λ e. (e ≡ NoMemory) ⊎
        ((units_reading R.reading dwarf.now ≡ Err e) ⊎ MissesEntry R.reading dwarf.now e)) }
{
    let live = LiveRanges::new(alloc, live)?;
    live_entries(alloc, dwarf, &live)
}

/// The same, of live ranges that are kept.
fn live_entries<R: Reader>(
    alloc: Global,
    dwarf: &Dwarf<R>,
    live: &LiveRanges,
) -> ReadResult<Vec<UnitSectionOffset>>
    ensures ok { IfOk result (λ v. (list : List Live) → IsMadeOf live.now list →
        FindsRequired R.reading dwarf.now list v.items) }
    ensures err { IfErr result (λ e. (e ≡ NoMemory) ⊎
        ((units_reading R.reading dwarf.now ≡ Err e) ⊎ MissesEntry R.reading dwarf.now e)) }
{
    let mut required = Vec::new(alloc);
    let mut headers = dwarf.units();
    'units: while let Some(header) = headers.next()? {
        add_unit(alloc, dwarf, header, live, &mut required)?;
    }
    Ok(required)
}

/// Adds the places of the required entries of the unit of a header.
fn add_unit<R: Reader>(
    alloc: Global,
    dwarf: &Dwarf<R>,
    header: UnitHeader<R>,
    live: &LiveRanges,
    required: &mut Vec<UnitSectionOffset>,
) -> ReadResult<()>
    requires { header.offset.0 ≤ (R.reading header.body).place }
    ensures ok { OnOk result (AddsUnit R.reading dwarf.now header live.now
        required.old.items required.new.items) }
    ensures err { IfErr result (λ e. (e ≡ NoMemory) ⊎
        ((unit_reading R.reading dwarf.now header ≡ Err e)
        ⊎ MissesUnitRow R.reading dwarf.now header e)) }
{
    let unit = dwarf.unit(alloc, header)?;
    add_rows(alloc, UnitRef { dwarf, unit: &unit }, live, required)
}

/// Adds the places of the required entries of a unit, all of whose rows are read.
fn add_rows<R: Reader>(
    alloc: Global,
    unit: UnitRef<'_, R>,
    live: &LiveRanges,
    required: &mut Vec<UnitSectionOffset>,
) -> ReadResult<()>
    requires behind { unit.unit.now.header.offset.0
        ≤ (R.reading unit.unit.now.header.body).place }
    requires root { 0 < length (left (R.reading unit.unit.now.header.body)) }
    ensures ok { OnOk result
        (AddsRows R.reading unit.entry live.now required.old.items required.new.items) }
    ensures err { IfErr result (λ e. (e ≡ NoMemory) ⊎ ((rows_reading R.reading
        unit.entry.unit.now.header unit.entry.unit.now.abbreviations ≡ Err e)
        ⊎ MissesRow R.reading unit.entry e)) }
{
    let mut rows = unit.entries_raw(alloc, None)?;
    let mut entry = DebuggingInformationEntry::new(alloc);
    rows.read_entry(&mut entry)?;
    'rows: while !rows.is_empty() {
        add_row(alloc, unit, &mut rows, &mut entry, live, required)?;
    }
    Ok(())
}

/// Reads the next row, and adds the place of its entry, if it is one that is required.
fn add_row<R: Reader>(
    alloc: Global,
    unit: UnitRef<'_, R>,
    rows: &mut EntriesRaw<'_, R>,
    entry: &mut DebuggingInformationEntry<R>,
    live: &LiveRanges,
    required: &mut Vec<UnitSectionOffset>,
) -> ReadResult<()>
    requires { AreRowsOf R.reading unit.unit.now.header rows.old }
    ensures ok { OnOk result (AddsRow R.reading unit.entry live.now rows.old rows.new
        required.old.items required.new.items) }
    ensures err { IfErr result (λ e. (e ≡ NoMemory) ⊎
        ((row_read R.reading rows.old rows.new (left (R.reading rows.old.input)) ≡ Err e)
        ⊎ MissesMark R.reading unit.entry rows.old rows.new e)) }
{
    if rows.read_entry(entry)? {
        add_entry(alloc, unit, entry, live, required)?;
    }
    Ok(())
}

/// Adds the place of an entry, if that is required.
fn add_entry<R: Reader>(
    alloc: Global,
    unit: UnitRef<'_, R>,
    entry: &DebuggingInformationEntry<R>,
    live: &LiveRanges,
    required: &mut Vec<UnitSectionOffset>,
) -> ReadResult<()>
    requires { unit.unit.now.header.offset.0 + entry.now.offset.0 < 2 ^ 64 }
    ensures ok { (big : Bool) → AreInOrder R.reading big entry.now.attrs.items →
        OnOk result (AddsEntry R.reading unit.entry live.now big entry.now
        required.old.items required.new.items) }
    ensures err { (big : Bool) → AreInOrder R.reading big entry.now.attrs.items →
        IfErr result (λ e. (e ≡ NoMemory) ⊎ (entry_ranges R.reading unit.entry big
        (values_in R.reading entry.now.attrs.items) ≡ Err e)) }
{
    let ranges = entry_ranges(alloc, unit, entry.attrs.as_slice())?;
    if live.meets_any(ranges.as_slice()) {
        let place = unit.unit.header.offset().0 + entry.offset.0;
        required.push(UnitSectionOffset(place))?;
    }
    Ok(())
}
