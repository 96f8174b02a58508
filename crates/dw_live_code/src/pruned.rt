//! A file that is pruned.

ghost use Rattle.std.specs.Prelude.{◌≡◌, ◌⊎◌, Some, IfOk, IfErr};
ghost use Rattle.dw_sources.specs.declared.convert_error.ConvertError.TheVariants.{NoMemory};
ghost use Rattle.dw_dwarf.specs.DwarfValue.{dwarf_in};
ghost use Rattle.dw_live_code.specs.FileUnits.{AreAllUnits};
ghost use Rattle.dw_live_code.specs.Pruned.{AreLive, CannotPrune, IsPruned};

use crate::file_units::{all_counts, file_units};
use dw_base::{Address, UnitSectionOffset};
use dw_dwarf::{ConvertResult, Dwarf, convert_kept};
use dw_entry_ids::Kept;
use dw_entry_ranges::{LiveRange, required_entries};
use dw_filter::kept_entries;
use dw_read::Reader;
use dw_read_units::{Dwarf as ReadDwarf, Unit};
use std::alloc::Global;

/// Converts a file that was read, as `Dwarf::from` does with each address as it is, but for the
/// entries that describe dead code. Of each unit of `.debug_info` there stay the root and the
/// required entries, with all to which these lead: their parents, what their attributes name
/// (DWARF 5, 2.2), and those of their children that describe them. Required is an entry of which
/// one of its own ranges of addresses meets a live range (DWARF 5, 2.17); a range that has no
/// address meets nothing, live ranges may overlap, in any order, and none has to be there. So every
/// reference leads to an entry that stays, or to a root.
///
/// Refused as `Read` where a unit or a row can't be read, where the ranges of an entry can't be
/// told, as where its range list can't be read, or where the location list of any entry can't be
/// read; for the reasons for which `Dwarf::from` is, where what stays becomes nothing; and as
/// `NoMemory`.
///
/// ```
/// let live = [LiveRange { begin: 0x1000, end: 0x1010 }];
/// let mut dwarf = prune(alloc, &read, &live)?;
/// dwarf.write(&mut sections)?;
/// ```
pub fn prune<R: Reader>(
    alloc: Global,
    dwarf: &ReadDwarf<R>,
    live: &[LiveRange],
) -> ConvertResult<Dwarf>
    ensures ok { IfOk result (λ d. IsPruned R.reading dwarf.now live.now (dwarf_in d)) }
    ensures err { IfErr result (λ e. (e ≡ NoMemory)
        ⊎ CannotPrune R.reading dwarf.now live.now e) }
{
    let required = required_entries(alloc, dwarf, live)?;
    let units = file_units(alloc, dwarf)?;
    let counts = all_counts(alloc, &units)?;
    let places = kept_entries(alloc, dwarf, &units, &counts, &required)?;
    let kept = Kept::at(places);
    let mut pruned = Dwarf::new(alloc);
    convert_kept(
        alloc,
        dwarf,
        units,
        &kept,
        &mut pruned.units,
        &mut pruned.strings,
        &mut pruned.line_strings,
        &constant,
    )
    .and(Ok(pruned))
}

/// What an address becomes: itself.
fn constant(address: u64) -> Option<Address>
    ensures { result ≡ Some (Address.Constant address) }
{
    Some(Address::Constant(address))
}
