//! Entries that are built by steps, so that a table can hold them. What the calls ask for is asked
//! at run time, so that a test owes nothing.

use dw_base::{DwAt, DwTag, Error, Result, UnitEntryId};
use dw_entries::{AttributeValue, Entries, Item, flatten};
use dw_expr::Expression;
use dw_writer::Bytes;
use std::alloc::Global;

/// The value of an attribute.
pub enum Sample {
    Number(u64),
    /// The text `int`.
    Text,
    /// The bytes of `int`.
    Block,
    /// A conversion to the base type of an entry.
    Conversion(usize),
}

/// A call that changes entries.
pub enum Step {
    /// An entry under a parent.
    Add(usize, DwTag),
    Reserve,
    /// The entry of a reserved id, under a parent.
    AddReserved(usize, usize, DwTag),
    /// Room for so many attributes of an entry.
    Room(usize, usize),
    /// An attribute of an entry.
    Set(usize, DwAt, Sample),
}

/// What a helper answers where a test calls it amiss.
fn amiss() -> Result<()> {
    Err(Error::OffsetOutOfBounds)
}

fn conversion(alloc: Global, entry: usize) -> Result<AttributeValue> {
    let mut expression = Expression::new(alloc);
    expression.op_convert(Some(UnitEntryId::new(entry)))?;
    Ok(AttributeValue::Exprloc(expression))
}

pub fn value_of(alloc: Global, sample: &Sample) -> Result<AttributeValue> {
    match sample {
        Sample::Number(number) => Ok(AttributeValue::Udata(*number)),
        Sample::Text => Ok(AttributeValue::String(Bytes::new(alloc, b"int")?)),
        Sample::Block => Ok(AttributeValue::Block(Bytes::new(alloc, b"int")?)),
        Sample::Conversion(entry) => conversion(alloc, *entry),
    }
}

fn add(entries: &mut Entries, parent: usize, tag: DwTag) -> Result<()> {
    if entries.count() == 0 || parent >= entries.reserved() {
        return amiss();
    }
    if entries.reserved() == usize::MAX || tag.0 == 0 {
        return amiss();
    }
    entries.add(UnitEntryId::new(parent), tag)?;
    Ok(())
}

fn add_reserved(entries: &mut Entries, child: usize, parent: usize, tag: DwTag) -> Result<()> {
    let child = UnitEntryId::new(child);
    if entries.count() == 0 || parent >= entries.reserved() {
        return amiss();
    }
    if !entries.is_reserved(child) || tag.0 == 0 {
        return amiss();
    }
    entries.add_reserved(child, UnitEntryId::new(parent), tag)
}

fn reserve(entries: &mut Entries) -> Result<()> {
    if entries.reserved() == usize::MAX {
        return amiss();
    }
    entries.reserve();
    Ok(())
}

fn set(entries: &mut Entries, index: usize, name: DwAt, value: AttributeValue) -> Result<()> {
    // The name 1 is that of siblings, and 0 is none.
    if index >= entries.count() || name.0 <= 1 {
        return amiss();
    }
    entries.set(index, name, value)
}

fn set_sample(
    alloc: Global,
    entries: &mut Entries,
    index: usize,
    name: DwAt,
    sample: &Sample,
) -> Result<()> {
    set(entries, index, name, value_of(alloc, sample)?)
}

fn take(alloc: Global, entries: &mut Entries, step: &Step) -> Result<()> {
    match step {
        Step::Add(parent, tag) => add(entries, *parent, *tag),
        Step::Reserve => reserve(entries),
        Step::AddReserved(child, parent, tag) => add_reserved(entries, *child, *parent, *tag),
        Step::Room(index, _) if *index >= entries.count() => amiss(),
        Step::Room(index, additional) => entries.reserve_attributes(*index, *additional),
        Step::Set(index, name, sample) => set_sample(alloc, entries, *index, *name, sample),
    }
}

/// Takes these steps, behind those that were taken.
pub fn take_all(alloc: Global, entries: &mut Entries, steps: &[Step]) -> Result<()> {
    for step in steps {
        take(alloc, entries, step)?;
    }
    Ok(())
}

/// Tells that the tree in preorder is this one.
pub fn is_flattened(alloc: Global, entries: &Entries, items: &[Item]) -> bool {
    match flatten(alloc, entries.as_slice()) {
        Ok(found) => found.as_slice() == items,
        Err(_) => false,
    }
}

/// Tells that an entry has attributes of these names in this order.
pub fn has_names(entries: &Entries, index: usize, names: &[DwAt]) -> bool {
    if index >= entries.count() {
        return false;
    }
    let attributes = entries.get(UnitEntryId::new(index)).attributes();
    attributes.len() == names.len()
        && attributes
            .iter()
            .zip(names)
            .all(|(attribute, name)| attribute.name() == *name)
}

/// Tells that the copy of each attribute of an entry is the same.
pub fn are_copied(entries: &Entries, index: usize) -> Result<bool> {
    if index >= entries.count() {
        return Ok(false);
    }
    for attribute in entries.get(UnitEntryId::new(index)).attributes() {
        if !attribute.try_clone()?.is_same(attribute) {
            return Ok(false);
        }
    }
    Ok(true)
}
