//! All units of a file.

ghost use Rattle.std.specs.Prelude.{◌≡◌, ◌⊎◌, IfOk, IfErr};
ghost use Rattle.dw_read.specs.declared.error.ReadError.TheVariants.{NoMemory};
ghost use Rattle.dw_entry_ids.specs.FirstUnits.{MissesFirst};
ghost use Rattle.dw_entry_ids.specs.KeptUnits.{AreUnitsBehind};
ghost use Rattle.dw_live_code.specs.FileUnits.{AreAllUnits, CountAll};

use dw_read::{ReadResult, Reader};
use dw_read_units::{Dwarf, Unit};
use std::alloc::Global;

/// Reads all units of a file, by their headers, tables and roots alone. It is refused where one
/// can't be read, for that reason, and for want of memory.
pub(crate) fn file_units<R: Reader>(alloc: Global, dwarf: &Dwarf<R>) -> ReadResult<Vec<Unit<R>>>
    ensures all { IfOk result (λ v. AreAllUnits R.reading dwarf.now v.items) }
    ensures in_order { IfOk result (λ v. AreUnitsBehind R.reading dwarf.now 0 v.items) }
    ensures err { IfErr result (λ e. (e ≡ NoMemory) ⊎ MissesFirst R.reading dwarf.now e) }
{
    let mut units = Vec::new(alloc);
    let mut headers = dwarf.units();
    'units: while let Some(header) = headers.next()? {
        let unit = dwarf.unit(alloc, header)?;
        units.push(unit)?;
    }
    Ok(units)
}

/// For each of some units a number of entries that none exceeds, so that all entries count.
pub(crate) fn all_counts<R: Reader>(alloc: Global, units: &[Unit<R>]) -> ReadResult<Vec<usize>>
    ensures ok { IfOk result (λ v. CountAll units.now v.items) }
    ensures err { IfErr result (λ e. e ≡ NoMemory) }
{
    let mut counts = Vec::new(alloc);
    for _ in 0..units.len() {
        counts.push(usize::MAX)?;
    }
    Ok(counts)
}
