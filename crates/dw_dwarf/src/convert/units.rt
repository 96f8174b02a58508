//! The units of a file.

ghost use Rattle.std.specs.Prelude.{◌⊎◌, ◌≡◌, ◌≤◌, All, length, OnOk, IfOk, IfErr};
ghost use Rattle.dw_entry_ids.specs.KeptRows.{keep_of};
ghost use Rattle.dw_entry_ids.specs.KeptUnits.{AreUnitsBehind};
ghost use Rattle.dw_sources.specs.declared.convert_error.ConvertError.TheVariants.{NoMemory};
ghost use Rattle.dw_convert_lines.specs.Views.{tables};
ghost use Rattle.dw_dwarf.specs.ConvertedUnits.{AreClosed, ConvertsKept, ConvertsUnits, FoundBecome, IsRead, RefusesKept, RefusesOne, RefusesUnits, UnitBecomes, UnitRefuses};
ghost use Rattle.dw_dwarf.specs.EntryRefs.{entry_of, info_of};
ghost use Rattle.dw_dwarf.specs.NewUnits.{unit_with};

use crate::convert::refs::UnitRefs;
use crate::convert::unit::convert_unit;
use dw_base::{Address, Encoding, UnitId};
use dw_entry_ids::{Kept, NumberedUnit, NumberedUnits, number_kept, number_units};
use dw_read::Reader;
use dw_read_units::{Dwarf, Unit as ReadUnit, UnitRef};
use dw_sources::{ConvertError, ConvertResult};
use dw_strings::{LineStringTable, StringTable};
use dw_unit::{LineProgram, Unit, UnitTable};
use std::alloc::Global;

/// Converts all units of `.debug_info`, read to its end, and adds them in their order behind those
/// of the table: each with its encoding, its line program and its entries, whose lists go into the
/// tables of the new unit and whose strings into the two tables of the file. Entries that others
/// name (DWARF 5, 7.5.4) are found by the places where they begin. `convert_address` says what an
/// address of the read file becomes, and `None` refuses it.
///
/// All units are read first. They are refused where one can't be read, where the line program or
/// an attribute of one becomes nothing, each for that reason, and for want of memory. After an
/// error the tables may have what was converted before it.
///
/// ```
/// let constant = |address: u64| Some(Address::Constant(address));
/// convert_units(alloc, &read, &mut units, &mut strings, &mut line_strings, &constant)?;
/// ```
pub fn convert_units<R: Reader, F: Fn(u64) -> Option<Address>>(
    alloc: Global,
    dwarf: &Dwarf<R>,
    units: &mut UnitTable,
    strings: &mut StringTable,
    line_strings: &mut LineStringTable,
    convert_address: &F,
) -> ConvertResult<()>
    requires { F.IsAlwaysCallable convert_address.now }
    ensures ok { OnOk result (ConvertsUnits R.reading (F.post convert_address.now) dwarf.now
        units.old (tables strings.old line_strings.old)
        units.new (tables strings.new line_strings.new)) }
    ensures err { IfErr result (λ e. (e ≡ NoMemory) ⊎ RefusesUnits R.reading
        (F.post convert_address.now) dwarf.now
        units.old (tables strings.old line_strings.old) e) }
{
    let all = Kept::all();
    let found = number_units(alloc, dwarf)?;
    convert_found(
        alloc,
        dwarf,
        &found,
        &all,
        units,
        strings,
        line_strings,
        convert_address,
    )
}

/// Converts units that were read from a file, as `convert_units` does all, but those of their
/// entries alone that are kept; roots are. Each is added under the image of its own parent, which
/// is kept with it. An entry that isn't kept is none that others can name.
///
/// All rows of the units are read first. They are refused where one can't be read, where the line
/// program of a unit or an attribute of a kept entry becomes nothing, each for that reason, and for
/// want of memory. After an error the tables may have what was converted before it.
///
/// ```
/// let kept = Kept::at(places);
/// convert_kept(
///     alloc, &read, read_units, &kept, &mut units, &mut strings, &mut line_strings, &constant,
/// )?;
/// ```
pub fn convert_kept<R: Reader, F: Fn(u64) -> Option<Address>>(
    alloc: Global,
    dwarf: &Dwarf<R>,
    read_units: Vec<ReadUnit<R>>,
    kept: &Kept,
    units: &mut UnitTable,
    strings: &mut StringTable,
    line_strings: &mut LineStringTable,
    convert_address: &F,
) -> ConvertResult<()>
    requires callable { F.IsAlwaysCallable convert_address.now }
    requires in_order { AreUnitsBehind R.reading dwarf.now 0 read_units.items }
    requires closed { AreClosed (keep_of kept.now) R.reading read_units.items }
    ensures ok { OnOk result (ConvertsKept (keep_of kept.now) R.reading
        (F.post convert_address.now) dwarf.now read_units.items
        units.old (tables strings.old line_strings.old)
        units.new (tables strings.new line_strings.new)) }
    ensures err { IfErr result (λ e. (e ≡ NoMemory) ⊎ RefusesKept (keep_of kept.now) R.reading
        (F.post convert_address.now) dwarf.now read_units.items
        units.old (tables strings.old line_strings.old) e) }
{
    let found = number_kept(alloc, dwarf, read_units, kept)?;
    convert_found(
        alloc,
        dwarf,
        &found,
        kept,
        units,
        strings,
        line_strings,
        convert_address,
    )
}

/// Converts units whose entries that are kept are numbered, and adds them behind those of the
/// table.
pub(crate) fn convert_found<R: Reader, F: Fn(u64) -> Option<Address>>(
    alloc: Global,
    dwarf: &Dwarf<R>,
    found: &NumberedUnits<R>,
    kept: &Kept,
    units: &mut UnitTable,
    strings: &mut StringTable,
    line_strings: &mut LineStringTable,
    convert_address: &F,
) -> ConvertResult<()>
    requires callable { F.IsAlwaysCallable convert_address.now }
    requires read { All (IsRead (keep_of kept.now) R.reading dwarf.now) found.now.units.items }
    ensures ok { OnOk result (FoundBecome (keep_of kept.now) R.reading
        (F.post convert_address.now) dwarf.now found.now.ids (length units.old)
        found.now.units.items units.old (tables strings.old line_strings.old)
        units.new (tables strings.new line_strings.new)) }
    ensures err { IfErr result (λ e. (e ≡ NoMemory) ⊎ RefusesOne (keep_of kept.now) R.reading
        (F.post convert_address.now) dwarf.now found.now.ids (length units.old)
        found.now.units.items (tables strings.old line_strings.old) e) }
{
    let first = UnitId::new(units.count());
    'units: for (index, numbered) in found.units.iter().enumerate() {
        let start = numbered.unit.header.offset();
        let refs = UnitRefs::new(&found.ids, UnitId::new(index), start, first, None);
        let unit = convert_numbered(
            alloc,
            dwarf,
            numbered,
            kept,
            strings,
            line_strings,
            convert_address,
            refs,
        )?;
        match units.add(unit) {
            Ok(_) => {}
            Err(_) => return Err(ConvertError::NoMemory),
        }
    }
    Ok(())
}

/// The unit that one becomes of its entries that are kept, where these are the entries that it may
/// name.
fn convert_numbered<'r, R: Reader, F: Fn(u64) -> Option<Address>>(
    alloc: Global,
    dwarf: &'r Dwarf<R>,
    numbered: &'r NumberedUnit<R>,
    kept: &Kept,
    strings: &mut StringTable,
    line_strings: &mut LineStringTable,
    convert_address: &F,
    refs: UnitRefs<'_>,
) -> ConvertResult<Unit>
    requires callable { F.IsAlwaysCallable convert_address.now }
    requires numbered { IsRead (keep_of kept.now) R.reading dwarf.now numbered.now }
    ensures ok { IfOk result (λ u. UnitBecomes (keep_of kept.now) R.reading
        (F.post convert_address.now) dwarf.now (entry_of refs.entry) (info_of refs.entry)
        numbered.now (tables strings.old line_strings.old) u
        (tables strings.new line_strings.new)) }
    ensures err { IfErr result (λ e. (e ≡ NoMemory) ⊎ UnitRefuses (keep_of kept.now) R.reading
        (F.post convert_address.now) dwarf.now (entry_of refs.entry) (info_of refs.entry)
        numbered.now (tables strings.old line_strings.old) e) }
{
    let read = UnitRef {
        dwarf,
        unit: &numbered.unit,
    };
    let mut unit = new_unit(alloc, read.encoding(), numbered.entries)?;
    let mut files = Vec::new(alloc);
    convert_unit(
        alloc,
        read,
        kept,
        None,
        &mut unit,
        &mut files,
        strings,
        line_strings,
        convert_address,
        &refs,
    )
    .and(Ok(unit))
}

/// A unit of its root alone, with so many ids.
pub(crate) fn new_unit(alloc: Global, encoding: Encoding, count: usize) -> ConvertResult<Unit>
    requires { 1 ≤ count }
    ensures ok { IfOk result (λ u. u ≡ unit_with encoding count) }
    ensures err { IfErr result (λ e. e ≡ NoMemory) }
{
    let Ok(mut unit) = Unit::new(alloc, encoding, LineProgram::none()) else {
        return Err(ConvertError::NoMemory);
    };
    for _ in 1..count {
        unit.reserve();
    }
    Ok(unit)
}
