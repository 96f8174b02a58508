//! Units that tests build from tables of calls.

use dw_base::DebugMacroOffset;
use dw_base::constants::DW_AT_sibling;
use dw_dwarf::{
    Address, AttributeValue, Bytes, DebugInfoRef, DwAt, DwTag, EntryMut, Error, Expression,
    Location, LocationList, LocationListId, Range, RangeList, RangeListId, Result, StringId, Unit,
    UnitEntryId,
};
use std::alloc::Global;

/// The value of an attribute.
pub(crate) enum Value {
    Text(&'static [u8]),
    InTable(StringId),
    Data1(u8),
    UnitRef(UnitEntryId),
    InfoRef(DebugInfoRef),
    Address(Address),
    Macros(usize),
    Ranges(usize),
    Locations(usize),
}

/// How a value is put under a name.
#[derive(Clone, Copy)]
pub(crate) enum How {
    Set,
    /// In the place of the value that stands there, by `get_mut`.
    Replace,
    /// In the place of the first attribute's, which has this name, by a walk.
    ReplaceFirst,
}

/// A call of a unit.
pub(crate) enum Call {
    Reserve,
    /// A parent and a tag.
    Add(usize, DwTag),
    /// A reserved id, a parent and a tag.
    AddReserved(usize, usize, DwTag),
    /// An entry, a name and a value.
    Put(How, usize, DwAt, Value),
    /// A range list of one item.
    List(Range),
    /// A location list of one item. Its expression is empty, or the object is what the expression
    /// of another entry tells.
    Locate(Range, Option<DebugInfoRef>),
    Skip,
}

/// The value, in memory of its own.
fn value_of(alloc: Global, value: &Value) -> Result<AttributeValue> {
    Ok(match value {
        Value::Text(text) => AttributeValue::String(Bytes::new(alloc, text)?),
        Value::InTable(id) => AttributeValue::StringRef(*id),
        Value::Data1(number) => AttributeValue::Data1(*number),
        Value::UnitRef(entry) => AttributeValue::UnitRef(*entry),
        Value::InfoRef(entry) => AttributeValue::DebugInfoRef(*entry),
        Value::Address(address) => AttributeValue::Address(*address),
        Value::Macros(place) => AttributeValue::DebugMacroRef(DebugMacroOffset(*place)),
        Value::Ranges(index) => AttributeValue::RangeListRef(RangeListId::new(*index)),
        Value::Locations(index) => AttributeValue::LocationListRef(LocationListId::new(*index)),
    })
}

/// Sets an attribute of an entry, with room that was made for it.
fn set(entry: &mut EntryMut<'_>, name: DwAt, value: AttributeValue) -> Result<()> {
    if name.0 == 0 || name == DW_AT_sibling {
        return Err(Error::InvalidAttributeValue);
    }
    entry.set(name, value)
}

/// Replaces the value under a name.
fn replace(entry: &mut EntryMut<'_>, name: DwAt, value: AttributeValue) -> Result<()> {
    match entry.get_mut(name) {
        Some(old) => *old = value,
        None => return Err(Error::InvalidAttributeValue),
    }
    Ok(())
}

/// Replaces the value of the first attribute, which has this name.
fn replace_first(entry: &mut EntryMut<'_>, name: DwAt, value: AttributeValue) -> Result<()> {
    match entry.attrs_mut().next() {
        Some(mut attribute) if attribute.name() == name => attribute.set(value),
        _ => return Err(Error::InvalidAttributeValue),
    }
    Ok(())
}

/// Puts a value under a name of an entry.
fn put_value(entry: &mut EntryMut<'_>, how: How, name: DwAt, value: AttributeValue) -> Result<()> {
    match how {
        How::Set => set(entry, name, value),
        How::Replace => replace(entry, name, value),
        How::ReplaceFirst => replace_first(entry, name, value),
    }
}

/// Puts a value under a name of the entry of an index, with room for one attribute more.
pub(crate) fn put(
    alloc: Global,
    unit: &mut Unit,
    how: How,
    index: usize,
    name: DwAt,
    value: &Value,
) -> Result<()> {
    if index >= unit.count() {
        return Err(Error::InvalidReference);
    }
    let mut entry = unit.get_mut(UnitEntryId::new(index));
    entry.reserve(1)?;
    put_value(&mut entry, how, name, value_of(alloc, value)?)
}

/// Adds an entry, which has the next id.
fn add(unit: &mut Unit, parent: usize, tag: DwTag) -> Result<()> {
    let next = unit.reserved();
    let has_room = next < usize::MAX;
    if unit.is_freed() || !has_room || parent >= next || tag.0 == 0 {
        return Err(Error::InvalidReference);
    }
    match unit.add(UnitEntryId::new(parent), tag) {
        Ok(id) if id.index() == next => Ok(()),
        Ok(_) => Err(Error::InvalidReference),
        Err(error) => Err(error),
    }
}

/// Adds the entry of a reserved id.
fn add_reserved(unit: &mut Unit, child: usize, parent: usize, tag: DwTag) -> Result<()> {
    let child = UnitEntryId::new(child);
    if unit.is_freed() || !unit.is_reserved(child) || parent >= unit.reserved() || tag.0 == 0 {
        return Err(Error::InvalidReference);
    }
    unit.add_reserved(child, UnitEntryId::new(parent), tag)
}

/// An expression that is empty, or calls that of an entry.
fn expression_of(alloc: Global, entry: Option<DebugInfoRef>) -> Result<Expression> {
    let mut expression = Expression::new(alloc);
    if let Some(entry) = entry {
        expression.op_call_ref(entry)?;
    }
    Ok(expression)
}

/// An item of a location list: the same addresses, with an expression.
fn located(range: Range, expression: Expression) -> Location {
    match range {
        Range::BaseAddress { address } => Location::BaseAddress { address },
        Range::OffsetPair { begin, end } => Location::OffsetPair {
            begin,
            end,
            expression,
        },
        Range::StartEnd { begin, end } => Location::StartEnd {
            begin,
            end,
            expression,
        },
        Range::StartLength { begin, length } => Location::StartLength {
            begin,
            length,
            expression,
        },
    }
}

/// Adds a range list of one item.
fn list(alloc: Global, unit: &mut Unit, range: Range) -> Result<()> {
    unit.ranges.add(RangeList(vec![in alloc; range]?))?;
    Ok(())
}

/// Adds a location list of one item.
fn locate(alloc: Global, unit: &mut Unit, range: Range, entry: Option<DebugInfoRef>) -> Result<()> {
    let item = located(range, expression_of(alloc, entry)?);
    unit.locations.add(LocationList(vec![in alloc; item]?))?;
    Ok(())
}

/// Hands out an id for a later entry.
fn reserve(unit: &mut Unit) -> Result<()> {
    let has_room = unit.reserved() < usize::MAX;
    if unit.is_freed() || !has_room {
        return Err(Error::InvalidReference);
    }
    unit.reserve();
    Ok(())
}

/// Has the unit left out when its table is written.
fn skip(unit: &mut Unit) -> Result<()> {
    if unit.is_written() {
        return Err(Error::InvalidReference);
    }
    unit.skip();
    Ok(())
}

/// Makes a call of a unit. One that the unit's state forbids is `InvalidReference`.
fn make_call(alloc: Global, unit: &mut Unit, call: &Call) -> Result<()> {
    match call {
        Call::Reserve => reserve(unit),
        Call::Add(parent, tag) => add(unit, *parent, *tag),
        Call::AddReserved(child, parent, tag) => add_reserved(unit, *child, *parent, *tag),
        Call::Put(how, index, name, value) => put(alloc, unit, *how, *index, *name, value),
        Call::List(range) => list(alloc, unit, *range),
        Call::Locate(range, entry) => locate(alloc, unit, *range, *entry),
        Call::Skip => skip(unit),
    }
}

/// Makes calls of a unit, one after another.
pub(crate) fn make_calls(alloc: Global, unit: &mut Unit, calls: &[Call]) -> Result<()> {
    for call in calls {
        make_call(alloc, unit, call)?;
    }
    Ok(())
}
