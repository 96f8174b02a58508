//! The first units of a file.

ghost use Rattle.std.specs.Prelude.{◌≡◌, ◌⊎◌, IfOk, IfErr};
ghost use Rattle.dw_read.specs.declared.error.ReadError.TheVariants.{NoMemory};
ghost use Rattle.dw_entry_ids.specs.FirstUnits.{AreFirstUnits, MissesFirst};
ghost use Rattle.dw_entry_ids.specs.KeptUnits.{AreUnitsBehind};

use dw_read::{ReadResult, Reader};
use dw_read_units::{Dwarf, Unit};
use std::alloc::Global;

/// Reads the first so many units of a file, by their headers, tables and roots alone; all of them,
/// where there are fewer. It is refused where one of these can't be read, for that reason, and for
/// want of memory.
///
/// ```
/// for unit in &first_units(alloc, &dwarf, 2)? {
///     let offset = unit.header.offset();
/// }
/// ```
pub fn first_units<R: Reader>(
    alloc: Global,
    dwarf: &Dwarf<R>,
    count: usize,
) -> ReadResult<Vec<Unit<R>>>
    ensures first { IfOk result (λ v. AreFirstUnits R.reading dwarf.now count v.items) }
    ensures in_order { IfOk result (λ v. AreUnitsBehind R.reading dwarf.now 0 v.items) }
    ensures err { IfErr result (λ e. (e ≡ NoMemory) ⊎ MissesFirst R.reading dwarf.now e) }
{
    let mut units = Vec::new(alloc);
    let mut headers = dwarf.units();
    'units: while units.len() < count {
        let Some(header) = headers.next()? else {
            return Ok(units);
        };
        let unit = dwarf.unit(alloc, header)?;
        units.push(unit)?;
    }
    Ok(units)
}
