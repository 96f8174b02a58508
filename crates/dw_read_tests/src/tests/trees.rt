//! The rows of units (DWARF 5, 7.5).

use crate::tests::sections::{Bytes, NONE, Slice, sections};
use crate::tests::told::told;
use dw_base::RunTimeEndian;
use dw_base::RunTimeEndian::{Big, Little};
use dw_read::{DebuggingInformationEntry, EntriesRaw, ReadResult, Reader, UnitHeader};
use dw_read_units::{Dwarf, UnitRef};
use std::alloc::Global;

/// A row of a unit: the place of the unit and that of the row in it, the depth, the tag, and the
/// first attribute with its name, its kind and its number. All but the places are zero in the zero
/// that closes a list of children.
pub(crate) type Row = (usize, usize, isize, u16, u16, &'static str, u128);

fn row_of(unit: usize, entry: &DebuggingInformationEntry<Slice<'_>>) -> Row {
    let (offset, depth, tag) = (entry.offset.0, entry.depth, entry.tag.0);
    match entry.attrs.first() {
        Some(attribute) => {
            let (kind, number) = told(&attribute.value());
            (unit, offset, depth, tag, attribute.name().0, kind, number)
        }
        None => (unit, offset, depth, tag, 0, "", 0),
    }
}

/// The next row, of the unit at a place. The entry is room for it.
fn next_row<'a>(
    rows: &mut EntriesRaw<'_, Slice<'a>>,
    entry: &mut DebuggingInformationEntry<Slice<'a>>,
    place: usize,
) -> ReadResult<Row> {
    let offset = rows.next_offset().0;
    match rows.read_entry(entry) {
        Ok(true) => Ok(row_of(place, entry)),
        Ok(false) => Ok((place, offset, 0, 0, 0, "", 0)),
        Err(reason) => Err(reason),
    }
}

/// Appends rows, at most so many.
fn push_rows(
    alloc: Global,
    mut rows: EntriesRaw<'_, Slice<'_>>,
    place: usize,
    most: usize,
    all: &mut Vec<Row>,
) -> ReadResult<()> {
    let mut entry = DebuggingInformationEntry::new(alloc);
    for _ in 0..most {
        if rows.is_empty() {
            return Ok(());
        }
        all.push(next_row(&mut rows, &mut entry, place)?)?;
    }
    Ok(())
}

/// Appends the rows of a unit. A row takes a byte at least.
fn push_unit(
    alloc: Global,
    dwarf: &Dwarf<Slice<'_>>,
    header: UnitHeader<Slice<'_>>,
    all: &mut Vec<Row>,
) -> ReadResult<()> {
    let place = header.offset().0;
    let most = dwarf.debug_info.len();
    let unit = dwarf.unit(alloc, header)?;
    let rows = UnitRef { dwarf, unit: &unit }.entries_raw(alloc, None);
    match rows {
        Ok(rows) => push_rows(alloc, rows, place, most, all),
        Err(reason) => Err(reason),
    }
}

/// The rows of all units.
pub(crate) fn rows_of(alloc: Global, bytes: &Bytes<'_>) -> ReadResult<Vec<Row>> {
    let dwarf = sections(bytes);
    let mut all = Vec::new(alloc);
    let mut headers = dwarf.units();
    for _ in 0..bytes.info.len() {
        let Some(header) = headers.next()? else {
            break;
        };
        push_unit(alloc, &dwarf, header, &mut all)?;
    }
    Ok(all)
}

/// The order of bytes, `.debug_info`, `.debug_abbrev`, and the rows.
type Case = (RunTimeEndian, &'static [u8], &'static [u8], &'static [Row]);

const ROOT: &[u8] = b"\x01\x11\x00\x00\x00\x00";

// A root alone; a root of version 4 with two children, of which the second names the first; a root
// with a child that tells its sibling, and a child of that; two units, of which the first names the
// second's root; a unit of the 64-bit format with the highest byte of numbers first.
const CASES: &[Case] = &[
    (
        Little,
        b"\x09\x00\x00\x00\x05\x00\x01\x08\x00\x00\x00\x00\x01",
        ROOT,
        &[(0, 12, 0, 0x11, 0, "", 0)],
    ),
    (
        Little,
        b"\x10\x00\x00\x00\x04\x00\x00\x00\x00\x00\x04\x01\x02\x04\x03\x0c\x00\x00\x00\x00",
        b"\x01\x11\x01\x00\x00\x02\x24\x00\x0b\x0b\x00\x00\x03\x2e\x00\x49\x13\x00\x00\x00",
        &[
            (0, 11, 0, 0x11, 0, "", 0),
            (0, 12, 1, 0x24, 0x0b, "data1", 4),
            (0, 14, 1, 0x2e, 0x49, "unit_ref", 12),
            (0, 19, 0, 0, 0, "", 0),
        ],
    ),
    (
        Little,
        b"\x11\x00\x00\x00\x05\x00\x01\x08\x00\x00\x00\x00\
        \x01\x02\x14\x00\x00\x00\x03\x00\x00",
        b"\x01\x11\x01\x00\x00\x02\x2e\x01\x01\x13\x00\x00\x03\x34\x00\x00\x00\x00",
        &[
            (0, 12, 0, 0x11, 0, "", 0),
            (0, 13, 1, 0x2e, 0x01, "unit_ref", 20),
            (0, 18, 2, 0x34, 0, "", 0),
            (0, 19, 0, 0, 0, "", 0),
            (0, 20, 0, 0, 0, "", 0),
        ],
    ),
    (
        Little,
        b"\x0d\x00\x00\x00\x05\x00\x01\x08\x00\x00\x00\x00\x01\x1d\x00\x00\x00\
        \x09\x00\x00\x00\x05\x00\x01\x08\x08\x00\x00\x00\x01",
        b"\x01\x11\x00\x49\x10\x00\x00\x00\x01\x11\x00\x00\x00\x00",
        &[
            (0, 12, 0, 0x11, 0x49, "info_ref", 29),
            (17, 12, 0, 0x11, 0, "", 0),
        ],
    ),
    (
        Big,
        b"\xff\xff\xff\xff\x00\x00\x00\x00\x00\x00\x00\x0c\
        \x00\x03\x00\x00\x00\x00\x00\x00\x00\x00\x04\x01",
        ROOT,
        &[(0, 23, 0, 0x11, 0, "", 0)],
    ),
];

// A root in each type of unit, behind what the header of the type has.
const TYPES: &[Case] = &[
    (
        Little,
        b"\x15\x00\x00\x00\x05\x00\x02\x08\x00\x00\x00\x00\
        \x08\x07\x06\x05\x04\x03\x02\x01\x18\x00\x00\x00\x01",
        ROOT,
        &[(0, 24, 0, 0x11, 0, "", 0)],
    ),
    (
        Little,
        b"\x09\x00\x00\x00\x05\x00\x03\x08\x00\x00\x00\x00\x01",
        ROOT,
        &[(0, 12, 0, 0x11, 0, "", 0)],
    ),
    (
        Little,
        b"\x11\x00\x00\x00\x05\x00\x04\x08\x00\x00\x00\x00\
        \x08\x07\x06\x05\x04\x03\x02\x01\x01",
        ROOT,
        &[(0, 20, 0, 0x11, 0, "", 0)],
    ),
    (
        Little,
        b"\x11\x00\x00\x00\x05\x00\x05\x08\x00\x00\x00\x00\
        \x08\x07\x06\x05\x04\x03\x02\x01\x01",
        ROOT,
        &[(0, 20, 0, 0x11, 0, "", 0)],
    ),
    (
        Little,
        b"\x15\x00\x00\x00\x05\x00\x06\x08\x00\x00\x00\x00\
        \x08\x07\x06\x05\x04\x03\x02\x01\x18\x00\x00\x00\x01",
        ROOT,
        &[(0, 24, 0, 0x11, 0, "", 0)],
    ),
];

fn cases() -> [&'static [Case]; 2] {
    [CASES, TYPES]
}

/// Whether the units of a case have its rows.
fn is_read(alloc: Global, case: &Case) -> bool {
    let (endian, info, abbrev, wanted) = *case;
    let bytes = Bytes {
        endian,
        info,
        abbrev,
        ..NONE
    };
    match rows_of(alloc, &bytes) {
        Ok(rows) => rows.as_slice() == wanted,
        Err(_) => false,
    }
}

/// The first case of a table that isn't read so.
fn first_missed(alloc: Global, table: &[Case]) -> Option<usize> {
    for (row, case) in table.iter().enumerate() {
        if !is_read(alloc, case) {
            return Some(row);
        }
    }
    None
}

#[test]
fn reads_the_rows_of_units(rt: HostRuntime) {
    for (number, table) in cases().iter().enumerate() {
        assert_eq!(rt; first_missed(rt.alloc(), table), None, "of table {number}");
    }
}
