//! Entries of units that are read, one at a time and all of them.

use crate::building::{How, Value, put};
use crate::converting::{Slice, TWO_UNITS};
use crate::filtering::sections_of;
use crate::plans::VERSION_4;
use crate::writing::drop;
use dw_base::constants::{DW_AT_producer, DW_TAG_compile_unit, DW_TAG_variable};
use dw_base::{DwTag, RunTimeEndian, UnitEntryId, UnitOffset};
use dw_dwarf::{
    AttributeValue, Bytes, ConvertError, ConvertResult, ConvertUnitEntry, LineProgram, Result,
    Unit, UnitTable,
};
use dw_entry_ids::number_units;
use dw_read::ReadError;
use dw_read_units::{Dwarf as ReadDwarf, UnitRef};
use std::alloc::Global;

/// Offsets in the first of the two units: those of its entries with their tags, and one of its
/// header, one where a null entry stands and one behind its end.
const OFFSETS: &[(usize, ConvertResult<DwTag>)] = &[
    (12, Ok(DW_TAG_compile_unit)),
    (17, Ok(DW_TAG_variable)),
    (
        11,
        Err(ConvertError::Read(ReadError::OffsetOutOfBounds(11))),
    ),
    (
        26,
        Err(ConvertError::Read(ReadError::NoEntryAtGivenOffset(26))),
    ),
    (
        28,
        Err(ConvertError::Read(ReadError::OffsetOutOfBounds(28))),
    ),
];

/// They, of which no other proof sees more.
fn offsets() -> &'static [(usize, ConvertResult<DwTag>)] {
    OFFSETS
}

/// The tag of the entry at an offset of a unit.
fn tag_in(alloc: Global, unit: UnitRef<'_, Slice>, offset: usize) -> ConvertResult<DwTag> {
    let entry = ConvertUnitEntry::read(alloc, unit, UnitOffset(offset))?;
    Ok(entry.read_entry.tag)
}

/// The tag of the entry at an offset of the first unit.
fn tag_at(alloc: Global, read: &ReadDwarf<Slice>, offset: usize) -> ConvertResult<DwTag> {
    let found = number_units(alloc, read)?;
    let tag = match found.units.first() {
        Some(first) => {
            let unit = UnitRef {
                dwarf: read,
                unit: &first.unit,
            };
            tag_in(alloc, unit, offset)
        }
        None => Err(ConvertError::UnsupportedOperation),
    };
    drop(found);
    tag
}

#[test]
fn reads_entries_at_their_offsets(rt: HostRuntime) {
    let read = sections_of(&TWO_UNITS, RunTimeEndian::Little);
    for (offset, tag) in offsets() {
        assert!(rt; tag_at(rt.alloc(), &read, *offset) == *tag, "at {offset}");
    }
}

/// Whether a root's producer is this text, as it is found and as it is lent to be changed.
fn producer(unit: &mut Unit, wanted: &AttributeValue) -> [Option<bool>; 2] {
    if unit.count() == 0 {
        return [None; 2];
    }
    let found = unit
        .get(UnitEntryId(0))
        .get(DW_AT_producer)
        .map(|value| value.is_same(wanted));
    let lent = match unit.get_mut(UnitEntryId(0)).get_mut(DW_AT_producer) {
        Some(value) => Some(value.is_same(wanted)),
        None => None,
    };
    [found, lent]
}

/// What is said of a new root's producer before it is set, and then.
fn producers(
    alloc: Global,
    units: &mut UnitTable,
    wanted: &AttributeValue,
) -> Result<[[Option<bool>; 2]; 2]> {
    let id = units.add(Unit::new(alloc, VERSION_4, LineProgram::none())?)?;
    let unit = units.get_mut(id);
    let before = producer(unit, wanted);
    put(
        alloc,
        unit,
        How::Set,
        0,
        DW_AT_producer,
        &Value::Text(b"root"),
    )?;
    Ok([before, producer(unit, wanted)])
}

/// The same in a new table.
fn producers_of_new(alloc: Global) -> Result<[[Option<bool>; 2]; 2]> {
    let wanted = AttributeValue::String(Bytes::new(alloc, b"root")?);
    let mut units = UnitTable::new(alloc);
    let found = producers(alloc, &mut units, &wanted);
    drop(units);
    drop(wanted);
    found
}

#[test]
fn finds_a_producer_once_it_is_set(rt: HostRuntime) {
    let wanted = [[None; 2], [Some(true); 2]];
    assert!(rt; producers_of_new(rt.alloc()) == Ok(wanted));
}
