//! The units of files as they are read.

use crate::table_files::{Kept, Named, Row, encoding, unit_rows};
use crate::writing::Written;
use dw_base::{Encoding, RunTimeEndian};
use dw_read::{
    Attribute, AttributeValue, DebuggingInformationEntry, EndianSlice, EntriesRaw, Reader,
    UnitHeader, UnitHeadersIter,
};
use dw_read_units::{Dwarf, UnitRef};
use std::alloc::Global;

pub(crate) type Slice<'a> = EndianSlice<'a, RunTimeEndian>;

/// A reader of these bytes. No proof but this function's knows what it reads.
pub(crate) fn reader(bytes: &[u8], endian: RunTimeEndian) -> Slice<'_> {
    EndianSlice::new(bytes, endian)
}

/// Sections that were written, to be read.
pub(crate) fn read(sections: &Written, endian: RunTimeEndian) -> Dwarf<Slice<'_>> {
    Dwarf {
        debug_abbrev: reader(sections.debug_abbrev.0.slice(), endian),
        debug_str: reader(sections.debug_str.0.slice(), endian),
        debug_line_str: reader(sections.debug_line_str.0.slice(), endian),
        debug_line: reader(sections.debug_line.0.slice(), endian),
        debug_ranges: reader(sections.debug_ranges.0.slice(), endian),
        debug_rnglists: reader(sections.debug_rnglists.0.slice(), endian),
        debug_loc: reader(sections.debug_loc.0.slice(), endian),
        debug_loclists: reader(sections.debug_loclists.0.slice(), endian),
        debug_info: reader(sections.debug_info.0.slice(), endian),
        debug_addr: reader(b"", endian),
        debug_str_offsets: reader(b"", endian),
    }
}

/// Whether a value is a text that is kept so.
fn is_text(
    unit: UnitRef<'_, Slice<'_>>,
    value: AttributeValue<Slice<'_>>,
    kept: Kept,
    wanted: &[u8],
) -> bool {
    match (value, kept) {
        (AttributeValue::String(text), Kept::InEntry) => text.to_slice() == wanted,
        (AttributeValue::DebugStrRef(offset), Kept::InTable) => match unit.string(offset) {
            Ok(text) => text.to_slice() == wanted,
            Err(_) => false,
        },
        _ => false,
    }
}

/// Whether the attributes are the one that a row has, or none.
fn are_named(
    unit: UnitRef<'_, Slice<'_>>,
    attributes: &[Attribute<Slice<'_>>],
    named: &Option<Named>,
) -> bool {
    match (attributes, named) {
        ([], None) => true,
        ([attribute], Some((name, kept, wanted))) => {
            attribute.name() == *name && is_text(unit, attribute.raw_value(), *kept, wanted)
        }
        _ => false,
    }
}

/// Whether an entry was read as a row has it: its depth, its tag, and whether it has children.
fn is_row(entry: &DebuggingInformationEntry<Slice<'_>>, row: &Row) -> bool {
    let (parent, tag, children, _) = row;
    let depth = if parent.is_some() { 1 } else { 0 };
    entry.depth == depth && entry.tag == *tag && entry.has_children != children.is_empty()
}

/// Whether the next entry is as a row has it.
fn reads_row<'a>(
    unit: UnitRef<'_, Slice<'a>>,
    entries: &mut EntriesRaw<'_, Slice<'a>>,
    entry: &mut DebuggingInformationEntry<Slice<'a>>,
    row: &Row,
) -> bool {
    entries.read_entry(entry) == Ok(true)
        && is_row(entry, row)
        && are_named(unit, &entry.attrs, &row.3)
}

/// Whether the entries are as the rows have them, and end behind a null entry, where the root has
/// children.
fn reads_rows<'a>(
    unit: UnitRef<'_, Slice<'a>>,
    entries: &mut EntriesRaw<'_, Slice<'a>>,
    entry: &mut DebuggingInformationEntry<Slice<'a>>,
    rows: &[Row],
) -> bool {
    for row in rows {
        if !reads_row(unit, entries, entry, row) {
            return false;
        }
    }
    if rows.len() > 1 && entries.read_entry(entry) != Ok(false) {
        return false;
    }
    entries.is_empty()
}

/// Whether the entries of a unit are those of the rows.
fn reads_entries(alloc: Global, unit: UnitRef<'_, Slice<'_>>, rows: &[Row]) -> bool {
    match unit.entries_raw(alloc, None) {
        Ok(mut entries) => {
            let mut entry = DebuggingInformationEntry::new(alloc);
            reads_rows(unit, &mut entries, &mut entry, rows)
        }
        Err(_) => false,
    }
}

/// Whether a unit is read with this encoding and the entries of the rows.
fn reads_unit(
    alloc: Global,
    dwarf: &Dwarf<Slice<'_>>,
    header: UnitHeader<Slice<'_>>,
    encoding: Encoding,
    rows: &[Row],
) -> bool {
    if header.encoding() != encoding {
        return false;
    }
    match &dwarf.unit(alloc, header) {
        Ok(unit) => reads_entries(alloc, UnitRef { dwarf, unit }, rows),
        Err(_) => false,
    }
}

/// Whether the next unit is so.
fn reads_next(
    alloc: Global,
    dwarf: &Dwarf<Slice<'_>>,
    headers: &mut UnitHeadersIter<Slice<'_>>,
    encoding: Encoding,
    rows: &[Row],
) -> bool {
    match headers.next() {
        Ok(Some(header)) => reads_unit(alloc, dwarf, header, encoding, rows),
        _ => false,
    }
}

/// Whether the units are read as their file has them, and no others.
pub(crate) fn are_read(alloc: Global, file: usize, dwarf: &Dwarf<Slice<'_>>) -> bool {
    let mut headers = dwarf.units();
    for (number, rows) in unit_rows().iter().enumerate() {
        if !reads_next(alloc, dwarf, &mut headers, encoding(file, number), rows) {
            return false;
        }
    }
    matches!(headers.next(), Ok(None))
}
