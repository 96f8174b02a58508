//! What the lines of a script do to the entries of a unit.

ghost use Rattle.std.specs.Prelude.{◌≡◌, ◌<◌, ◌≤◌, false, IsFalse, IfOk, IfErr, OnOk};
ghost use Rattle.dw_entries.specs.Entries.{with_sibling, without_attribute, without_child};
ghost use Rattle.dw_tree.specs.UnitValue.{is_reserved, IsReserved};
ghost use Rattle.dw_script_units.specs.Changes.{attribute_value, after_change, after_add, after_reserve, after_add_reserved, with_entry_changed, after_set};
ghost use Rattle.dw_script_units.specs.Refused.{RefusedFor};

use crate::command_error::{CommandError, index_below};
use crate::expressions::owned_expression;
use dw_base::constants::DW_AT_sibling;
use dw_base::{
    DwAt, DwTag, FileId, LineStringId, LocationListId, RangeListId, StringId, UnitEntryId,
};
use dw_script::{Change, Reason, Value};
use dw_unit::{AttributeValue, Unit};
use dw_writer::Bytes;
use std::alloc::{AllocError, Global};

/// Does to a unit's entries what a line asks for. It is refused with the first reason that holds,
/// in the order in which docs/FORMAT.md lists a line's refusals, and as `NoMemory`; the unit is not
/// to be used again then.
///
/// ```
/// apply_change(alloc, &mut unit, Change::Reserve)?;
/// ```
pub fn apply_change(alloc: Global, unit: &mut Unit, change: Change<'_>) -> Result<(), CommandError>
    requires { unit.old.is_freed ≡ false }
    ensures ok { OnOk result (after_change change.entry unit.old ≡ Ok unit.new) }
    ensures err { IfErr result (RefusedFor (after_change change.entry unit.old)) }
{
    match change {
        Change::Add { parent, tag } => add_entry(unit, parent, tag),
        Change::Reserve => reserve(unit),
        Change::AddReserved { entry, parent, tag } => add_reserved(unit, entry, parent, tag),
        Change::Sibling { entry, sibling } => set_sibling(unit, entry, sibling),
        Change::Set { entry, name, value } => set_attribute(alloc, unit, entry, name, value),
        Change::Delete { entry, name } => delete_attribute(unit, entry, name),
        Change::DeleteChild { parent, entry } => delete_child(unit, parent, entry),
    }
}

// Adds an entry behind its parent's other children.
fn add_entry(unit: &mut Unit, parent: u64, tag: DwTag) -> Result<(), CommandError>
    requires { unit.old.is_freed ≡ false }
    ensures ok { OnOk result (after_add parent tag.0 unit.old ≡ Ok unit.new) }
    ensures err { IfErr result (RefusedFor (after_add parent tag.0 unit.old)) }
{
    let parent = index_below(parent, unit.reserved(), Reason::NoSuchEntry)?;
    if tag.0 == 0 {
        return Err(CommandError::Refused(Reason::BadTag));
    }
    check_room(unit)?;
    match unit.add(UnitEntryId::new(parent), tag) {
        Ok(_) => Ok(()),
        Err(_) => Err(CommandError::NoMemory),
    }
}

// Hands out an id.
fn reserve(unit: &mut Unit) -> Result<(), CommandError>
    requires { unit.old.is_freed ≡ false }
    ensures ok { OnOk result (after_reserve unit.old ≡ Ok unit.new) }
    ensures err { IfErr result (RefusedFor (after_reserve unit.old)) }
{
    check_room(unit)?;
    unit.reserve();
    Ok(())
}

// Adds the entry of a reserved id behind its parent's other children.
fn add_reserved(unit: &mut Unit, entry: u64, parent: u64, tag: DwTag) -> Result<(), CommandError>
    requires { unit.old.is_freed ≡ false }
    ensures ok { OnOk result (after_add_reserved entry parent tag.0 unit.old ≡ Ok unit.new) }
    ensures err { IfErr result (RefusedFor (after_add_reserved entry parent tag.0 unit.old)) }
{
    let parent = index_below(parent, unit.reserved(), Reason::NoSuchEntry)?;
    let child = reserved_id(unit, entry)?;
    if tag.0 == 0 {
        return Err(CommandError::Refused(Reason::BadTag));
    }
    match unit.add_reserved(child, UnitEntryId::new(parent), tag) {
        Ok(()) => Ok(()),
        Err(_) => Err(CommandError::NoMemory),
    }
}

// The id that a line gives, if it waits for its entry.
fn reserved_id(unit: &Unit, number: u64) -> Result<UnitEntryId, CommandError>
    ensures ok { IfOk result (λ id. (id.0 ≡ number) × IsReserved unit.now number) }
    ensures err { IfErr result (λ e.
        (e ≡ CommandError.Refused Reason.NotReserved) × IsFalse (is_reserved unit.now number)) }
{
    let index = index_below(number, unit.reserved(), Reason::NotReserved)?;
    let id = UnitEntryId::new(index);
    if !unit.is_reserved(id) {
        return Err(CommandError::Refused(Reason::NotReserved));
    }
    Ok(id)
}

// Says whether an entry is to name the place past its children.
fn set_sibling(unit: &mut Unit, entry: u64, sibling: bool) -> Result<(), CommandError>
    ensures ok { OnOk result
        (with_entry_changed entry (with_sibling sibling) unit.old ≡ Ok unit.new) }
    ensures err { IfErr result
        (RefusedFor (with_entry_changed entry (with_sibling sibling) unit.old)) }
{
    let index = index_below(entry, unit.count(), Reason::NoSuchEntry)?;
    unit.get_mut(UnitEntryId::new(index)).set_sibling(sibling);
    Ok(())
}

// Leaves an attribute of an entry out.
fn delete_attribute(unit: &mut Unit, entry: u64, name: DwAt) -> Result<(), CommandError>
    ensures ok { OnOk result
        (with_entry_changed entry (without_attribute name.0) unit.old ≡ Ok unit.new) }
    ensures err { IfErr result
        (RefusedFor (with_entry_changed entry (without_attribute name.0) unit.old)) }
{
    let index = index_below(entry, unit.count(), Reason::NoSuchEntry)?;
    unit.get_mut(UnitEntryId::new(index)).delete(name);
    Ok(())
}

// Takes a child out of its parent's children, if it is there.
fn delete_child(unit: &mut Unit, parent: u64, entry: u64) -> Result<(), CommandError>
    ensures ok { OnOk result
        (with_entry_changed parent (without_child entry) unit.old ≡ Ok unit.new) }
    ensures err { IfErr result
        (RefusedFor (with_entry_changed parent (without_child entry) unit.old)) }
{
    let index = index_below(parent, unit.count(), Reason::NoSuchEntry)?;
    unit.get_mut(UnitEntryId::new(index))
        .delete_child(id_of(entry));
    Ok(())
}

// The id that a number stands for.
fn id_of(number: u64) -> UnitEntryId
    ensures { result.0 ≡ number }
{
    UnitEntryId::new(number as usize)
}

// Want of ids is want of memory: no script is long enough for as many entries as there are ids.
fn check_room(unit: &Unit) -> Result<(), CommandError>
    ensures ok { OnOk result (unit.now.reserved < usize.MAX) }
    ensures err { IfErr result (λ e. e ≡ CommandError.NoMemory) }
{
    if unit.reserved() == usize::MAX {
        return Err(CommandError::NoMemory);
    }
    Ok(())
}

// Gives an attribute of an entry a value.
fn set_attribute(
    alloc: Global,
    unit: &mut Unit,
    entry: u64,
    name: DwAt,
    value: Value<'_>,
) -> Result<(), CommandError>
    ensures ok { OnOk result
        (after_set entry name.0 (attribute_value value.entry) unit.old ≡ Ok unit.new) }
    ensures err { IfErr result
        (RefusedFor (after_set entry name.0 (attribute_value value.entry) unit.old)) }
{
    let index = index_below(entry, unit.count(), Reason::NoSuchEntry)?;
    if name.0 == 0 || name == DW_AT_sibling {
        return Err(CommandError::Refused(Reason::BadName));
    }
    let value = owned_value(alloc, value).map_err(|_| CommandError::NoMemory)?;
    match unit.get_mut(UnitEntryId::new(index)).set(name, value) {
        Ok(()) => Ok(()),
        Err(_) => Err(CommandError::NoMemory),
    }
}

// The value, in memory of its own.
fn owned_value(alloc: Global, value: Value<'_>) -> Result<AttributeValue, AllocError>
    ensures { IfOk result (λ v. v ≡ attribute_value value.entry) }
{
    let stored = match value {
        Value::Address(address) => AttributeValue::Address(address),
        Value::Block(bytes) => AttributeValue::Block(Bytes::from(bytes.decode(alloc)?)),
        Value::Data1(number) => AttributeValue::Data1(number),
        Value::Data2(number) => AttributeValue::Data2(number),
        Value::Data4(number) => AttributeValue::Data4(number),
        Value::Data8(number) => AttributeValue::Data8(number),
        Value::Data16(number) => AttributeValue::Data16(number),
        Value::Sdata(number) => AttributeValue::Sdata(number),
        Value::Udata(number) => AttributeValue::Udata(number),
        Value::ImplicitConst(number) => AttributeValue::ImplicitConst(number),
        Value::Flag(is_set) => AttributeValue::Flag(is_set),
        Value::FlagPresent => AttributeValue::FlagPresent,
        Value::UnitRef(entry) => AttributeValue::UnitRef(id_of(entry)),
        Value::DebugInfoRef(entry) => AttributeValue::DebugInfoRef(entry),
        Value::DebugInfoRefSup(offset) => AttributeValue::DebugInfoRefSup(offset),
        Value::DebugMacinfoRef(offset) => AttributeValue::DebugMacinfoRef(offset),
        Value::DebugMacroRef(offset) => AttributeValue::DebugMacroRef(offset),
        Value::DebugTypesRef(signature) => AttributeValue::DebugTypesRef(signature),
        Value::DebugStrRefSup(offset) => AttributeValue::DebugStrRefSup(offset),
        Value::String(bytes) => AttributeValue::String(Bytes::from(bytes.decode(alloc)?)),
        Value::StringRef(string) => AttributeValue::StringRef(StringId::new(string as usize)),
        Value::LineStringRef(string) => {
            AttributeValue::LineStringRef(LineStringId::new(string as usize))
        }
        Value::RangeListRef(list) => {
            AttributeValue::RangeListRef(RangeListId::new(list as usize))
        }
        Value::RangeListsBase => AttributeValue::RangeListsBase,
        Value::LocationListRef(list) => {
            AttributeValue::LocationListRef(LocationListId::new(list as usize))
        }
        Value::LocationListsBase => AttributeValue::LocationListsBase,
        Value::LineProgramRef => AttributeValue::LineProgramRef,
        Value::FileIndex(None) => AttributeValue::FileIndex(None),
        Value::FileIndex(Some(file)) => AttributeValue::FileIndex(Some(FileId::new(file))),
        Value::Encoding(code) => AttributeValue::Encoding(code),
        Value::DecimalSign(code) => AttributeValue::DecimalSign(code),
        Value::Endianity(code) => AttributeValue::Endianity(code),
        Value::Accessibility(code) => AttributeValue::Accessibility(code),
        Value::Visibility(code) => AttributeValue::Visibility(code),
        Value::Virtuality(code) => AttributeValue::Virtuality(code),
        Value::Language(code) => AttributeValue::Language(code),
        Value::AddressClass(code) => AttributeValue::AddressClass(code),
        Value::IdentifierCase(code) => AttributeValue::IdentifierCase(code),
        Value::CallingConvention(code) => AttributeValue::CallingConvention(code),
        Value::Inline(code) => AttributeValue::Inline(code),
        Value::Ordering(code) => AttributeValue::Ordering(code),
        Value::Exprloc(fields) => AttributeValue::Exprloc(owned_expression(alloc, &fields)?),
    };
    Ok(stored)
}
