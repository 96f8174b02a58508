//! Units that are generated, whose bytes are known without a script.

ghost use Rattle.std.specs.Prelude.{◌≡◌, ◌≢◌, [], ◌∷◌, ◌++◌, ◌+◌, ◌<◌, ◌≤◌, ◌^◌, true, false, length, OnOk, IfOk, IfErr};
ghost use Rattle.dw_base.specs.declared.error.Error.TheVariants.{NoMemory};
ghost use Rattle.dw_entries.specs.Entries.{with_attribute};
ghost use Rattle.dw_dwarf.specs.DwarfValue.{dwarf_in};
ghost use Rattle.dw_dwarf.specs.Valid.{AreUnwritten, IsValid};
ghost use Rattle.dw_line.specs.LinePrograms.{no_line_program};
ghost use Rattle.dw_tree.specs.UnitValue.{IsReserved, new_unit, with_entry};
ghost use Rattle.dw_build.specs.Drafted.{with_base_type, with_described, with_variable};
ghost use Rattle.dw_build.specs.Generated.{first_root, generated, generated_encoding, generated_unit};

use dw_base::constants::{
    DW_AT_byte_size, DW_AT_sibling, DW_AT_specification, DW_AT_type, DW_TAG_base_type,
    DW_TAG_variable,
};
use dw_base::{DebugInfoRef, DwAt, Encoding, Format, Result, UnitEntryId, UnitId};
use dw_dwarf::Dwarf;
use dw_unit::{AttributeValue, LineProgram, Unit, UnitTable};
use std::alloc::Global;

/// The most variables that are generated.
pub const MOST_VARIABLES: u64 = 1_000_000;

/// The most variables that a unit holds.
const UNIT_VARIABLES: u64 = 1000;

/// How the units are encoded.
const ENCODING: Encoding = Encoding {
    address_size: 8,
    format: Format::Dwarf32,
    version: 5,
};

/// Generates so many variables, a thousand a unit, in units of version 5 with addresses of 8 bytes
/// in the 32-bit format. Each names its unit's base type, and every hundredth the root of the first
/// unit. It is refused only as `NoMemory`.
///
/// ```
/// let mut dwarf = generate(alloc, 100_000)?;
/// dwarf.write(&mut sections)?;
/// ```
pub fn generate(alloc: Global, count: u64) -> Result<Dwarf>
    ensures ok { IfOk result (λ d. dwarf_in d ≡ generated count) }
    ensures unwritten { IfOk result (λ d. AreUnwritten (dwarf_in d)) }
    ensures valid { count ≤ MOST_VARIABLES → IfOk result (λ d. IsValid true (dwarf_in d)) }
    ensures err { IfErr result (λ e. e ≡ NoMemory) }
{
    let mut dwarf = Dwarf::new(alloc);
    add_units(alloc, &mut dwarf.units, count)?;
    Ok(dwarf)
}

// Adds the units of so many variables in all to an empty table.
fn add_units(alloc: Global, units: &mut UnitTable, count: u64) -> Result<()>
    requires { units.old ≡ [] }
    ensures ok { OnOk result (units.new ≡ (generated count).units) }
    ensures err { IfErr result (λ e. e ≡ NoMemory) }
{
    for index in 0..count / UNIT_VARIABLES + 1 {
        let from = index * UNIT_VARIABLES;
        add_unit(alloc, units, from, UNIT_VARIABLES.min(count - from))?;
    }
    Ok(())
}

// Adds a unit of so many variables from a number on.
fn add_unit(alloc: Global, units: &mut UnitTable, from: u64, count: u64) -> Result<()>
    requires few { count ≤ 1000 }
    requires numbered { from + count < 2 ^ 64 }
    ensures ok { OnOk result (units.new ≡ units.old ++ generated_unit from count ∷ []) }
    ensures err { IfErr result (λ e. e ≡ NoMemory) }
{
    let unit = Unit::new(alloc, ENCODING, LineProgram::none())?;
    let id = units.add(unit)?;
    add_entries(units.get_mut(id), from, count)
}

// Adds so many variables from a number on to a unit that has its root alone. Their base type is the
// root's last child, so that they name an entry that stands behind them.
fn add_entries(unit: &mut Unit, from: u64, count: u64) -> Result<()>
    requires few { count ≤ 1000 }
    requires numbered { from + count < 2 ^ 64 }
    requires bare { unit.old ≡ new_unit generated_encoding no_line_program }
    ensures ok { OnOk result (unit.new ≡ generated_unit from count) }
    ensures err { IfErr result (λ e. e ≡ NoMemory) }
{
    let base_type = unit.reserve();
    for index in 0..count {
        add_variable(unit, from + index, base_type)?;
    }
    add_base_type(unit, base_type)
}

// Adds the base type behind the root's other children.
fn add_base_type(unit: &mut Unit, id: UnitEntryId) -> Result<()>
    requires reserved { IsReserved unit.old id.0 }
    requires rooted { 0 < unit.old.reserved }
    requires not_freed { unit.old.is_freed ≡ false }
    ensures ok { OnOk result (unit.new ≡ with_base_type id.0 unit.old) }
    ensures err { IfErr result (λ e. e ≡ NoMemory) }
{
    let root = unit.root();
    unit.add_reserved(id, root, DW_TAG_base_type)?;
    set(unit, id, DW_AT_byte_size, AttributeValue::Data1(4))
}

// Adds the variable of a number behind the root's other children.
fn add_variable(unit: &mut Unit, number: u64, base_type: UnitEntryId) -> Result<()>
    requires room { unit.old.reserved < usize.MAX }
    requires rooted { 0 < unit.old.reserved }
    requires not_freed { unit.old.is_freed ≡ false }
    ensures ok { OnOk result (unit.new ≡ with_variable base_type.0 number unit.old) }
    ensures err { IfErr result (λ e. e ≡ NoMemory) }
{
    let root = unit.root();
    let id = unit.add(root, DW_TAG_variable)?;
    let names_first_root = number % 100 == 0;
    // Without it the list would get room for four.
    unit.get_mut(id)
        .reserve(if names_first_root { 3 } else { 2 })?;
    describe(unit, id, number, base_type)?;
    if names_first_root {
        return name_first_root(unit, id);
    }
    Ok(())
}

// Gives a variable what each of them has: its number for a size, and the type.
fn describe(unit: &mut Unit, id: UnitEntryId, number: u64, base_type: UnitEntryId) -> Result<()>
    requires { id.0 < length unit.old.entries }
    ensures ok { OnOk result (unit.new ≡ with_described id.0 base_type.0 number unit.old) }
    ensures count { OnOk result (length unit.new.entries ≡ length unit.old.entries) }
    ensures err { IfErr result (λ e. e ≡ NoMemory) }
{
    set(unit, id, DW_AT_byte_size, AttributeValue::Udata(number))?;
    set(unit, id, DW_AT_type, AttributeValue::UnitRef(base_type))
}

// Has a variable name the root of the first unit.
fn name_first_root(unit: &mut Unit, id: UnitEntryId) -> Result<()>
    requires { id.0 < length unit.old.entries }
    ensures ok { OnOk result
        (unit.new
        ≡ with_entry unit.old id.0 (with_attribute DW_AT_specification.0 first_root)) }
    ensures err { IfErr result (λ e. e ≡ NoMemory) }
{
    let root = DebugInfoRef::Entry(UnitId::new(0), UnitEntryId::new(0));
    set(
        unit,
        id,
        DW_AT_specification,
        AttributeValue::DebugInfoRef(root),
    )
}

// Gives an attribute of an entry a value.
fn set(unit: &mut Unit, id: UnitEntryId, name: DwAt, value: AttributeValue) -> Result<()>
    requires within { id.0 < length unit.old.entries }
    requires named { name.0 ≢ 0 }
    requires not_sibling { name ≢ DW_AT_sibling }
    ensures ok { OnOk result
        (unit.new ≡ with_entry unit.old id.0 (with_attribute name.0 value)) }
    ensures count { OnOk result (length unit.new.entries ≡ length unit.old.entries) }
    ensures err { IfErr result (λ e. e ≡ NoMemory) }
{
    unit.get_mut(id).set(name, value)
}
