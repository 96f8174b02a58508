//! Files of three units of different encodings, as they are built, written, read and converted back
//! (DWARF 5, 7.5).

use crate::building::{Call, How, Value};
use crate::filtering::require_one;
use crate::plans::{Told, add_unit};
use crate::reading::Slice;
use crate::writing::{Written, drop, refusal};
use crate::{finding, reading};
use dw_base::constants::{DW_AT_name, DW_AT_producer, DW_TAG_compile_unit, DW_TAG_subprogram};
use dw_base::{DwAt, DwTag, UnitOffset};
use dw_dwarf::{Address, ConvertResult, Dwarf, Encoding, Format, Result, RunTimeEndian, StringId};
use dw_filter::{FilterUnit, FilterUnitSection};
use std::alloc::Global;

/// Where a text is kept: in its entry, or in `.debug_str`.
#[derive(Clone, Copy, PartialEq, Eq)]
pub(crate) enum Kept {
    InEntry,
    InTable,
}

/// The name of an attribute and its text.
pub(crate) type Named = (DwAt, Kept, &'static [u8]);

/// An entry: its parent, its tag, its children, and its attribute.
pub(crate) type Row = (Option<usize>, DwTag, &'static [usize], Option<Named>);

/// A root alone.
const ALONE: &[Row] = &[(None, DW_TAG_compile_unit, &[], None)];

/// A unit whose root has a producer and two subprograms.
const FAMILY: &[Row] = &[
    (
        None,
        DW_TAG_compile_unit,
        &[1, 2],
        Some((DW_AT_producer, Kept::InEntry, b"root")),
    ),
    (
        Some(0),
        DW_TAG_subprogram,
        &[],
        Some((DW_AT_name, Kept::InTable, b"child1")),
    ),
    (
        Some(0),
        DW_TAG_subprogram,
        &[],
        Some((DW_AT_name, Kept::InTable, b"child2")),
    ),
];

/// How that unit is built: the first subprogram has its name by a walk, the second by a second
/// call.
const FAMILY_CALLS: &[Call] = &[
    Call::Put(How::Set, 0, DW_AT_producer, Value::Text(b"root")),
    Call::Add(0, DW_TAG_subprogram),
    Call::Put(How::Set, 1, DW_AT_name, Value::Text(b"tmp")),
    Call::Put(
        How::ReplaceFirst,
        1,
        DW_AT_name,
        Value::InTable(StringId(0)),
    ),
    Call::Add(0, DW_TAG_subprogram),
    Call::Put(How::Set, 2, DW_AT_name, Value::Text(b"tmp")),
    Call::Put(How::Set, 2, DW_AT_name, Value::InTable(StringId(1))),
];

/// The entries of the units of each file.
pub(crate) fn unit_rows() -> [&'static [Row]; 3] {
    [FAMILY, ALONE, ALONE]
}

/// How many files there are: one for each encoding of their first unit and order of bytes.
pub(crate) const FILES: usize = 32;

/// The order of bytes of a file.
pub(crate) fn endian(file: usize) -> RunTimeEndian {
    [RunTimeEndian::Little, RunTimeEndian::Big][file % 2]
}

/// The encoding of a number: versions, formats and sizes of addresses.
fn numbered(number: usize) -> Encoding {
    Encoding {
        address_size: [4, 8][number % 2],
        format: [Format::Dwarf32, Format::Dwarf64][number / 2 % 2],
        version: [2, 3, 4, 5][number / 4 % 4],
    }
}

/// The encoding of a unit of a file. The numbers of a file's three units differ in these bits, so
/// that one of the files has a unit of version 4 with 8-byte addresses in the 32-bit format (9),
/// one of version 2 with 4-byte addresses in the 64-bit format (2), and one of version 5 with
/// 4-byte addresses in the 32-bit format (12).
pub(crate) fn encoding(file: usize, unit: usize) -> Encoding {
    numbered(file / 2 % 16 ^ [0, 11, 5][unit % 3])
}

/// Adds the units of a file and their strings.
fn build(alloc: Global, file: usize, dwarf: &mut Dwarf) -> Result<()> {
    dwarf.strings.add(b"child1")?;
    dwarf.strings.add(b"child2")?;
    for (number, calls) in [FAMILY_CALLS, &[], &[]].iter().enumerate() {
        add_unit(alloc, &mut dwarf.units, encoding(file, number), calls)?;
    }
    Ok(())
}

/// Builds the units of a file and writes them. Tells whether they are found as they are built.
fn write_built(
    alloc: Global,
    file: usize,
    dwarf: &mut Dwarf,
    sections: &mut Written,
) -> Result<Told> {
    build(alloc, file, dwarf)?;
    let is_found = finding::are_found(file, dwarf);
    Ok((refusal(dwarf, sections), is_found))
}

/// What the sections of a file become.
fn converted(alloc: Global, file: usize, sections: &Written) -> ConvertResult<Dwarf> {
    let address = |address| Some(Address::Constant(address));
    Dwarf::from(alloc, &reading::read(sections, endian(file)), &address)
}

/// Tells whether the sections of a file become what was built.
fn come_back(alloc: Global, file: usize, sections: &Written) -> bool {
    match converted(alloc, file, sections) {
        Ok(dwarf) => {
            let is_found = finding::are_found(file, &dwarf);
            drop(dwarf);
            is_found
        }
        Err(_) => false,
    }
}

/// Reads the next entry of a unit, and gives its offset, if one is left.
fn next_offset(unit: &mut FilterUnit<'_, Slice<'_>>) -> ConvertResult<Option<UnitOffset>> {
    let mut entry = unit.null_entry();
    let is_read = unit.read_entry(&mut entry);
    let offset = entry.read_entry.offset;
    drop(entry);
    match is_read {
        Ok(true) => Ok(Some(offset)),
        Ok(false) => Ok(None),
        Err(error) => Err(error),
    }
}

/// Reads the next entry of a unit, and requires it.
fn require_next(unit: &mut FilterUnit<'_, Slice<'_>>) -> ConvertResult<()> {
    match next_offset(unit) {
        Ok(Some(offset)) => require_one(unit, offset),
        Ok(None) => Ok(()),
        Err(error) => Err(error),
    }
}

/// Requires each entry of a unit behind its root.
fn require_entries(unit: &mut FilterUnit<'_, Slice<'_>>) -> ConvertResult<()> {
    for _ in FAMILY {
        require_next(unit)?;
    }
    Ok(())
}

/// The same of the next unit of a file.
fn require_unit(filter: &mut FilterUnitSection<'_, Slice<'_>>) -> ConvertResult<()> {
    match filter.read_unit() {
        Ok(Some(mut unit)) => {
            let required = require_entries(&mut unit);
            drop(unit);
            required
        }
        Ok(None) => Ok(()),
        Err(error) => Err(error),
    }
}

/// The same of each unit of a file.
fn require_units(filter: &mut FilterUnitSection<'_, Slice<'_>>) -> ConvertResult<()> {
    for _ in unit_rows() {
        require_unit(filter)?;
    }
    Ok(())
}

/// What the sections of a file become where a filter keeps all their entries.
fn filtered(alloc: Global, file: usize, sections: &Written) -> ConvertResult<Dwarf> {
    let read = reading::read(sections, endian(file));
    let mut filter = FilterUnitSection::new(alloc, &read)?;
    match require_units(&mut filter) {
        Ok(()) => Dwarf::from_filter(alloc, filter, &|address| Some(Address::Constant(address))),
        Err(error) => {
            drop(filter);
            Err(error)
        }
    }
}

/// Tells whether a filter that keeps all leads to what was built.
fn are_kept(alloc: Global, file: usize, sections: &Written) -> bool {
    match filtered(alloc, file, sections) {
        Ok(dwarf) => {
            let is_found = finding::are_found(file, &dwarf);
            drop(dwarf);
            is_found
        }
        Err(_) => false,
    }
}

/// Tells whether the sections of a file are read as what was built.
fn are_read(alloc: Global, file: usize, sections: &Written) -> bool {
    let dwarf = reading::read(sections, endian(file));
    reading::are_read(alloc, file, &dwarf)
}

/// Builds the units of a file, writes, reads and converts them.
pub(crate) fn write_file(
    alloc: Global,
    file: usize,
    dwarf: &mut Dwarf,
    sections: &mut Written,
) -> Result<Told> {
    let (refused, is_built) = write_built(alloc, file, dwarf, sections)?;
    let is_read = are_read(alloc, file, sections);
    Ok((
        refused,
        is_built && is_read && come_back(alloc, file, sections) && are_kept(alloc, file, sections),
    ))
}
