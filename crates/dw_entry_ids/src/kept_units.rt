//! The loop over the units of which some entries are kept.

ghost use Rattle.std.specs.Prelude.{◌≡◌, ◌⊎◌, IfOk, IfErr, Err};
ghost use Rattle.dw_read.specs.declared.error.ReadError.TheVariants.{NoMemory};
ghost use Rattle.dw_entry_ids.specs.KeptRows.{keep_of};
ghost use Rattle.dw_entry_ids.specs.KeptUnits.{AreUnitsBehind, NumbersKept, all_rows};

use crate::ids::EntryIds;
use crate::kept::Kept;
use crate::units::{NumberedUnit, NumberedUnits, number_entries};
use dw_base::UnitId;
use dw_read::{ReadResult, Reader};
use dw_read_units::{Dwarf, Unit, UnitRef};
use std::alloc::Global;

/// Reads all rows of units that were read from a file, in its order, and numbers the entries of
/// each that are kept, in the order in which they are read, from its root on, which is 0. It is
/// refused where a row can't be read, for that reason, and for want of memory.
///
/// ```
/// let kept = Kept::at(places);
/// let found = number_kept(alloc, &dwarf, units, &kept)?;
/// ```
pub fn number_kept<R: Reader>(
    alloc: Global,
    dwarf: &Dwarf<R>,
    units: Vec<Unit<R>>,
    kept: &Kept,
) -> ReadResult<NumberedUnits<R>>
    requires { AreUnitsBehind R.reading dwarf.now 0 units.items }
    ensures ok { IfOk result
        (NumbersKept R.reading dwarf.now (keep_of kept.now) units.items) }
    ensures err { IfErr result (λ e. (e ≡ NoMemory)
        ⊎ (all_rows R.reading units.items ≡ Err e)) }
{
    let mut numbered = Vec::new(alloc);
    let mut ids = EntryIds::new(alloc);
    'units: for unit in units {
        let id = UnitId::new(numbered.len());
        let read = UnitRef { dwarf, unit: &unit };
        let entries = number_entries(alloc, read, id, kept, &mut ids)?;
        numbered.push(NumberedUnit { unit, entries })?;
    }
    Ok(NumberedUnits {
        units: numbered,
        ids,
    })
}
