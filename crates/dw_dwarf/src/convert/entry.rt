//! One entry.

ghost use Rattle.std.specs.Prelude.{◌≡◌, ◌≢◌, ◌⊎◌, ◌<◌, ℕ, [], length, map, false, OnOk, IfOk, IfErr};
ghost use Rattle.dw_base.specs.declared.error.Error.TheVariants as written;
ghost use Rattle.dw_entries.specs.Attributes.{HaveDistinctNames};
ghost use Rattle.dw_entries.specs.Entries.{entry_at, filled_up};
ghost use Rattle.dw_read.specs.Rows.{entry_of};
ghost use Rattle.dw_sources.specs.declared.convert_error.ConvertError.TheVariants.{NoMemory};
ghost use Rattle.dw_tree.specs.UnitValue.{IsReserved, with_entry};
ghost use Rattle.dw_convert.specs.Attributes.{seen};
ghost use Rattle.dw_convert.specs.AttributeLists.{AreConverted, RefusesAttribute};
ghost use Rattle.dw_dwarf.specs.ConvertedEntries.{attribute_of};
ghost use Rattle.dw_dwarf.specs.Placed.{unconverted, with_placed, with_contents, plan_for};
ghost use Rattle.dw_entry_ids.specs.Plans.{names_sibling};
ghost use Rattle.dw_dwarf.specs.ConvertSteps.{tables_in, BecomesEntry};

use crate::convert::attributes::set_attributes;
use dw_base::constants::DW_AT_sibling;
use dw_base::{Address, DwAt, DwTag, FileId, Result, UnitEntryId};
use dw_convert::{ConvertDebugInfoRef, convert_attributes};
use dw_entries::AttributeValue;
use dw_read::{DebuggingInformationEntry, Reader};
use dw_read_units::UnitRef;
use dw_sources::{ConvertError, ConvertResult};
use dw_strings::{LineStringTable, StringTable};
use dw_unit::Unit;
use std::alloc::Global;

/// Adds an entry under its parent, whose id may be reserved alone, and converts its attributes. The
/// root is there, and keeps its tag.
pub(crate) fn convert_entry<R: Reader, C: ConvertDebugInfoRef, F: Fn(u64) -> Option<Address>>(
    alloc: Global,
    read: UnitRef<'_, R>,
    files: &[FileId],
    entry: &DebuggingInformationEntry<R>,
    id: UnitEntryId,
    parent: UnitEntryId,
    unit: &mut Unit,
    strings: &mut StringTable,
    line_strings: &mut LineStringTable,
    convert_address: &F,
    refs: &C,
) -> ConvertResult<()>
    requires callable { F.IsAlwaysCallable convert_address.now }
    requires some { 0 < length unit.old.entries }
    requires id_in { id.0 < unit.old.reserved }
    requires parent_in { parent.0 < unit.old.reserved }
    requires tagged { entry.now.tag.0 ≢ 0 }
    requires not_yet { entry_at (filled_up unit.old.reserved unit.old.entries) id.0
        ≡ unconverted id.0 }
    requires not_freed { unit.old.is_freed ≡ false }
    ensures ok { OnOk result ((code : ℕ) → BecomesEntry R.reading (F.post convert_address.now)
        (C.entries refs.now) (C.infos refs.now) read.entry files.now
        (map (seen R.reading) entry.now.attrs.items)
        (plan_for R.reading code id parent entry.now)
        unit.old (tables_in strings.old line_strings.old unit.old)
        unit.new (tables_in strings.new line_strings.new unit.new)) }
    ensures err { IfErr result (λ e. (e ≡ NoMemory) ⊎ RefusesAttribute R.reading
        (F.post convert_address.now) (C.entries refs.now) (C.infos refs.now) read.entry files.now
        (map (seen R.reading) entry.now.attrs.items)
        (tables_in strings.old line_strings.old unit.old) e) }
{
    let Ok(()) = place(unit, id, parent, entry.tag) else {
        return Err(ConvertError::NoMemory);
    };
    let attributes = convert_values(
        alloc,
        read,
        files,
        entry,
        unit,
        strings,
        line_strings,
        convert_address,
        refs,
    )?;
    let sibling = id != unit.root() && names_sibling(entry);
    let Ok(()) = fill(unit, id, sibling, attributes) else {
        return Err(ConvertError::NoMemory);
    };
    Ok(())
}

/// Converts the attributes of an entry, with the lists of the unit that it is written to.
fn convert_values<R: Reader, C: ConvertDebugInfoRef, F: Fn(u64) -> Option<Address>>(
    alloc: Global,
    read: UnitRef<'_, R>,
    files: &[FileId],
    entry: &DebuggingInformationEntry<R>,
    unit: &mut Unit,
    strings: &mut StringTable,
    line_strings: &mut LineStringTable,
    convert_address: &F,
    refs: &C,
) -> ConvertResult<Vec<(DwAt, AttributeValue)>>
    requires callable { F.IsAlwaysCallable convert_address.now }
    ensures ok { IfOk result (λ v. AreConverted R.reading (F.post convert_address.now)
        (C.entries refs.now) (C.infos refs.now) read.entry files.now
        (map (seen R.reading) entry.now.attrs.items)
        (tables_in strings.old line_strings.old unit.old) v.items
        (tables_in strings.new line_strings.new unit.new)) }
    ensures err { IfErr result (λ e. (e ≡ NoMemory) ⊎ RefusesAttribute R.reading
        (F.post convert_address.now) (C.entries refs.now) (C.infos refs.now) read.entry files.now
        (map (seen R.reading) entry.now.attrs.items)
        (tables_in strings.old line_strings.old unit.old) e) }
    ensures others { unit.new ≡ record unit.old
        { ranges = unit.new.ranges; locations = unit.new.locations } }
{
    convert_attributes(
        alloc,
        read,
        files,
        &entry.attrs,
        convert_address,
        refs,
        strings,
        line_strings,
        &mut unit.ranges,
        &mut unit.locations,
    )
}

/// Adds an entry under its parent, but for the root, which is there.
fn place(unit: &mut Unit, id: UnitEntryId, parent: UnitEntryId, tag: DwTag) -> Result<()>
    requires some { 0 < length unit.old.entries }
    requires reserved { id.0 ≢ 0 → IsReserved unit.old id.0 }
    requires id_in { id.0 < unit.old.reserved }
    requires parent_in { parent.0 < unit.old.reserved }
    requires tagged { tag.0 ≢ 0 }
    requires not_freed { unit.old.is_freed ≡ false }
    ensures ok { OnOk result (unit.new ≡ record unit.old
        { entries = with_placed unit.old.reserved id.0 parent.0 tag.0 unit.old.entries }) }
    ensures there { OnOk result (id.0 < length unit.new.entries) }
    ensures err { IfErr result (λ e. e ≡ written.NoMemory) }
{
    if id == unit.root() {
        return Ok(());
    }
    unit.add_reserved(id, parent, tag)
}

/// Gives an entry that has no attributes its flag and its attributes.
fn fill(
    unit: &mut Unit,
    id: UnitEntryId,
    sibling: bool,
    attributes: Vec<(DwAt, AttributeValue)>,
) -> Result<()>
    requires there { id.0 < length unit.old.entries }
    requires none { (entry_at unit.old.entries id.0).attributes ≡ [] }
    requires distinct { HaveDistinctNames (map attribute_of attributes.items) }
    ensures ok { OnOk result (unit.new ≡ with_entry unit.old id.0
        (with_contents sibling (map attribute_of attributes.items))) }
    ensures err { IfErr result (λ e. e ≡ written.NoMemory) }
{
    let mut entry = unit.get_mut(id);
    entry.set_sibling(sibling);
    set_attributes(&mut entry, attributes)
}

/// Whether an entry names the place past its children.
pub(crate) fn names_sibling<R: Reader>(entry: &DebuggingInformationEntry<R>) -> bool
    ensures { (code : ℕ) → result ≡ names_sibling (entry_of R.reading code entry.now) }
{
    entry
        .attrs
        .iter()
        .any(|attribute| attribute.name() == DW_AT_sibling)
}
