//! The entries of a unit.

ghost use Rattle.std.specs.Prelude.{◌≡◌, ◌⊎◌, None, IfErr, OnOk};
ghost use Rattle.dw_sources.specs.declared.convert_error.ConvertError.TheVariants.{NoMemory};
ghost use Rattle.dw_entry_ids.specs.KeptRows.{keep_of};
ghost use Rattle.dw_dwarf.specs.ConvertSteps.{tables_in, CanConvert, ConvertsEntries, RefusesEntry};

use crate::convert::entry::convert_entry;
use crate::convert::skeleton::id_of;
use dw_base::{Address, FileId};
use dw_convert::ConvertDebugInfoRef;
use dw_entry_ids::{Kept, KeptRows};
use dw_read::{DebuggingInformationEntry, Reader};
use dw_read_units::UnitRef;
use dw_sources::ConvertResult;
use dw_strings::{LineStringTable, StringTable};
use dw_unit::Unit;
use std::alloc::Global;

/// Converts the entries of a unit that are kept, in their order, into a unit that has its root
/// alone and an id reserved for each other of them. The parent of an entry that is kept is kept,
/// too. Each entry is added under the image of its own parent, with its tag and with the attributes
/// that `convert_attributes` makes of its own; the root stays a `DW_TAG_compile_unit`. An entry
/// other than the root that names the place past its children (`DW_AT_sibling`) is to name that
/// again. `files` has the ids of the files of the unit's line program by the numbers that were
/// read.
///
/// Refused as attributes are, and for want of memory. After an error the unit and the tables may
/// have what was converted before it, and the unit the refused entry without attributes.
///
/// ```
/// let read = UnitRef { dwarf: &dwarf, unit: &read_unit };
/// convert_entries(
///     alloc, read, &kept, &files, &mut unit, &mut strings, &mut line_strings, &address, &refs,
/// )?;
/// ```
pub fn convert_entries<R: Reader, C: ConvertDebugInfoRef, F: Fn(u64) -> Option<Address>>(
    alloc: Global,
    read: UnitRef<'_, R>,
    kept: &Kept,
    files: &[FileId],
    unit: &mut Unit,
    strings: &mut StringTable,
    line_strings: &mut LineStringTable,
    convert_address: &F,
    refs: &C,
) -> ConvertResult<()>
    requires callable { F.IsAlwaysCallable convert_address.now }
    requires ready { CanConvert None (keep_of kept.now) R.reading read unit.old }
    ensures ok { OnOk result (ConvertsEntries (keep_of kept.now) R.reading
        (F.post convert_address.now) (C.entries refs.now) (C.infos refs.now) read.entry files.now
        None unit.old (tables_in strings.old line_strings.old unit.old)
        unit.new (tables_in strings.new line_strings.new unit.new)) }
    ensures err { IfErr result (λ e. (e ≡ NoMemory) ⊎ RefusesEntry (keep_of kept.now) R.reading
        (F.post convert_address.now) (C.entries refs.now) (C.infos refs.now) read.entry files.now
        (tables_in strings.old line_strings.old unit.old) e) }
{
    convert_rows(
        alloc,
        read,
        kept,
        None,
        files,
        unit,
        strings,
        line_strings,
        convert_address,
        refs,
    )
}

/// Does so where the ids of entries behind the root may begin at another than their own, which is
/// then the first that the unit hasn't handed out for others.
pub(crate) fn convert_rows<R: Reader, C: ConvertDebugInfoRef, F: Fn(u64) -> Option<Address>>(
    alloc: Global,
    read: UnitRef<'_, R>,
    kept: &Kept,
    behind: Option<usize>,
    files: &[FileId],
    unit: &mut Unit,
    strings: &mut StringTable,
    line_strings: &mut LineStringTable,
    convert_address: &F,
    refs: &C,
) -> ConvertResult<()>
    requires callable { F.IsAlwaysCallable convert_address.now }
    requires ready { CanConvert behind (keep_of kept.now) R.reading read unit.old }
    ensures ok { OnOk result (ConvertsEntries (keep_of kept.now) R.reading
        (F.post convert_address.now) (C.entries refs.now) (C.infos refs.now) read.entry files.now
        behind unit.old (tables_in strings.old line_strings.old unit.old)
        unit.new (tables_in strings.new line_strings.new unit.new)) }
    ensures err { IfErr result (λ e. (e ≡ NoMemory) ⊎ RefusesEntry (keep_of kept.now) R.reading
        (F.post convert_address.now) (C.entries refs.now) (C.infos refs.now) read.entry files.now
        (tables_in strings.old line_strings.old unit.old) e) }
{
    // The root is there, so an id is handed out for it, and there is a row.
    prove!(unit.count() <= unit.reserved());
    let mut rows = KeptRows::new(alloc, read.unit, kept);
    let mut entry = DebuggingInformationEntry::new(alloc);
    'rows: while let Some((id, parent)) = rows.next(&mut entry)? {
        let Some(id) = id else {
            continue;
        };
        convert_entry(
            alloc,
            read,
            files,
            &entry,
            id_of(behind, id),
            id_of(behind, parent),
            unit,
            strings,
            line_strings,
            convert_address,
            refs,
        )?;
    }
    Ok(())
}
