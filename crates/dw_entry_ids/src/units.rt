//! The loops over the units of a file and over the rows of each.

ghost use Rattle.std.specs.Prelude.{◌≡◌, ◌⊎◌, ◌≤◌, ℕ, IfOk, IfErr, Err};
ghost use Rattle.dw_read.specs.Reading.{left};
ghost use Rattle.dw_read.specs.Rows.{row_read};
ghost use Rattle.dw_read.specs.declared.error.ReadError.TheVariants.{NoMemory};
ghost use Rattle.dw_read_units.specs.Passes.{rows_reading, units_reading};
ghost use Rattle.dw_entry_ids.specs.KeptRows.{keep_of};
ghost use Rattle.dw_entry_ids.specs.Units.{NumbersRow, NumbersRows, NumbersUnits};

use crate::ids::EntryIds;
use crate::kept::Kept;
use dw_base::{UnitEntryId, UnitId, UnitSectionOffset};
use dw_read::{DebuggingInformationEntry, EntriesRaw, ReadResult, Reader};
use dw_read_units::{Dwarf, Unit, UnitRef};
use std::alloc::Global;

/// A unit with how many entries it has, its root among them.
#[derive(Drop)]
pub struct NumberedUnit<R: Reader> {
    pub unit: Unit<R>,
    pub entries: usize,
}

/// The units of a file in their order, with the numbers of their entries: those of a unit are
/// numbered in the order in which they are read, from its root on, which is 0.
#[derive(Drop)]
pub struct NumberedUnits<R: Reader> {
    pub units: Vec<NumberedUnit<R>>,
    pub ids: EntryIds,
}

/// Reads all units once, to know how many entries each has and where they begin. It is refused
/// where a unit or a row can't be read, for that reason, and for want of memory.
///
/// ```
/// let found = number_units(alloc, &dwarf)?;
/// for read in &found.units {
///     let count = read.entries;
/// }
/// ```
pub fn number_units<R: Reader>(alloc: Global, dwarf: &Dwarf<R>) -> ReadResult<NumberedUnits<R>>
    ensures ok { IfOk result (NumbersUnits R.reading dwarf.now) }
    ensures err { IfErr result (λ e. (e ≡ NoMemory) ⊎
        (units_reading R.reading dwarf.now ≡ Err e)) }
{
    let all = Kept::all();
    let mut units = Vec::new(alloc);
    let mut ids = EntryIds::new(alloc);
    let mut headers = dwarf.units();
    'units: while let Some(header) = headers.next()? {
        let unit = dwarf.unit(alloc, header)?;
        let id = UnitId::new(units.len());
        let read = UnitRef { dwarf, unit: &unit };
        let entries = number_entries(alloc, read, id, &all, &mut ids)?;
        units.push(NumberedUnit { unit, entries })?;
    }
    Ok(NumberedUnits { units, ids })
}

/// Numbers the entries of a unit that are kept, and answers how many there are.
pub(crate) fn number_entries<R: Reader>(
    alloc: Global,
    unit: UnitRef<'_, R>,
    id: UnitId,
    kept: &Kept,
    ids: &mut EntryIds,
) -> ReadResult<usize>
    requires { unit.unit.now.header.offset.0 ≤ (R.reading unit.unit.now.header.body).place }
    ensures ok { IfOk result (NumbersRows (keep_of kept.now) R.reading unit.entry.unit.now.header
        unit.entry.unit.now.abbreviations id ids.old ids.new) }
    ensures err { IfErr result (λ e. (e ≡ NoMemory) ⊎ (rows_reading R.reading
        unit.entry.unit.now.header unit.entry.unit.now.abbreviations ≡ Err e)) }
{
    let start = unit.unit.header.offset().0;
    let mut rows = unit.entries_raw(alloc, None)?;
    let mut entry = DebuggingInformationEntry::new(alloc);
    let mut count = 0;
    'rows: while !rows.is_empty() {
        let number = (id, UnitEntryId::new(count));
        if number_row(&mut rows, &mut entry, start, number, kept, ids)? {
            count += 1;
        }
    }
    Ok(count)
}

/// Reads the next row, and numbers its entry, if it is one that is kept. The first is a root.
fn number_row<R: Reader>(
    rows: &mut EntriesRaw<'_, R>,
    entry: &mut DebuggingInformationEntry<R>,
    start: usize,
    number: (UnitId, UnitEntryId),
    kept: &Kept,
    ids: &mut EntryIds,
) -> ReadResult<bool>
    requires start { start ≡ rows.old.start }
    requires behind { start ≤ (R.reading rows.old.input).place }
    ensures ok { IfOk result
        (NumbersRow (keep_of kept.now) R.reading rows.old rows.new number ids.old ids.new) }
    ensures err { IfErr result (λ e. (e ≡ NoMemory) ⊎
        (row_read R.reading rows.old rows.new (left (R.reading rows.old.input)) ≡ Err e)) }
{
    if !rows.read_entry(entry)? {
        return Ok(false);
    }
    let place = UnitSectionOffset(start + entry.offset.0);
    if kept.keeps_numbered(number.1, place) {
        ids.insert(place, number)?;
        return Ok(true);
    }
    Ok(false)
}
