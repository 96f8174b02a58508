//! The loop over the units of a file and over the rows of each.

ghost use Rattle.std.specs.Prelude.{◌≡◌, ◌⊎◌, ◌≤◌, IfOk, IfErr, Err, Some, All, List};
ghost use Rattle.dw_base.specs.Info.{ReadUnit};
ghost use Rattle.dw_read.specs.Reading.{left};
ghost use Rattle.dw_read.specs.Rows.{row_read};
ghost use Rattle.dw_read.specs.declared.error.ReadError.TheVariants.{NoMemory};
ghost use Rattle.dw_read_units.specs.Passes.{rows_reading, unit_reading, units_reading};
ghost use Rattle.dw_read_units.specs.Passes.{units_there, info_there};
ghost use Rattle.dw_read_units.specs.Walks.{HasRoot};
ghost use Rattle.example_read.specs.Seen.{SeesRow, SeesRows, SeesUnit, SeesUnits, AreSeen};

use crate::row::{Row, UnitRows};
use dw_read::{DebuggingInformationEntry, EntriesRaw, ReadResult, Reader, UnitHeader};
use dw_read_units::{Dwarf, Unit, UnitRef};
use std::alloc::Global;

/// Reads all units with all their rows.
pub fn read_units<R: Reader>(alloc: Global, dwarf: &Dwarf<R>) -> ReadResult<Vec<UnitRows<R>>>
    ensures ok { IfOk result (λ us. SeesUnits R.reading dwarf.now us.items) }
    ensures strict { (units : List ReadUnit) → (R.reading dwarf.now.debug_info).place ≡ 0
        → info_there R.reading dwarf.now ≡ Some units
        → IfOk result (λ us. AreSeen R.reading us.items units) }
    ensures err { IfErr result (λ e. (e ≡ NoMemory) ⊎
        (units_reading R.reading dwarf.now ≡ Err e)) }
    ensures complete { (units : List ReadUnit) → units_there R.reading dwarf.now ≡ Some units
        → All (HasRoot (R.reading dwarf.now.debug_addr)) units
        → IfErr result (λ e. e ≡ NoMemory) }
{
    let mut units = Vec::new(alloc);
    let mut headers = dwarf.units();
    'units: while let Some(header) = headers.next()? {
        let unit = read_unit(alloc, dwarf, header)?;
        units.push(unit)?;
    }
    Ok(units)
}

/// Reads the unit of a header.
fn read_unit<R: Reader>(
    alloc: Global,
    dwarf: &Dwarf<R>,
    header: UnitHeader<R>,
) -> ReadResult<UnitRows<R>>
    requires { header.offset.0 ≤ (R.reading header.body).place }
    ensures ok { IfOk result (SeesUnit R.reading dwarf.now header) }
    ensures err { IfErr result (λ e. (e ≡ NoMemory) ⊎
        (unit_reading R.reading dwarf.now header ≡ Err e)) }
{
    let unit = dwarf.unit(alloc, header)?;
    let rows = read_rows(alloc, dwarf, &unit)?;
    Ok(UnitRows { unit, rows })
}

/// Reads the rows of a unit.
fn read_rows<R: Reader>(alloc: Global, dwarf: &Dwarf<R>, unit: &Unit<R>) -> ReadResult<Vec<Row<R>>>
    requires { unit.now.header.offset.0 ≤ (R.reading unit.now.header.body).place }
    ensures ok { IfOk result (λ rows.
        SeesRows R.reading unit.now.header unit.now.abbreviations rows.items) }
    ensures err { IfErr result (λ e. (e ≡ NoMemory) ⊎
        (rows_reading R.reading unit.now.header unit.now.abbreviations ≡ Err e)) }
{
    let mut entries = UnitRef { dwarf, unit }.entries_raw(alloc, None)?;
    let mut rows = Vec::new(alloc);
    'rows: while !entries.is_empty() {
        let row = read_row(alloc, &mut entries)?;
        rows.push(row)?;
    }
    Ok(rows)
}

/// Reads the next row.
fn read_row<R: Reader>(alloc: Global, entries: &mut EntriesRaw<'_, R>) -> ReadResult<Row<R>>
    ensures ok { IfOk result (SeesRow R.reading entries.old entries.new) }
    ensures err { IfErr result (λ e. (e ≡ NoMemory) ⊎
        (row_read R.reading entries.old entries.new (left (R.reading entries.old.input)) ≡ Err e)) }
{
    let offset = entries.next_offset();
    let mut entry = DebuggingInformationEntry::new(alloc);
    if entries.read_entry(&mut entry)? {
        Ok(Row::Entry(entry))
    } else {
        Ok(Row::Null(offset))
    }
}
