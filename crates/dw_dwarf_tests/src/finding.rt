//! Whether units are those of a file.

use crate::table_files::{Kept, Named, Row, encoding, unit_rows};
use dw_base::{StringId, UnitEntryId};
use dw_dwarf::{
    Attribute, AttributeValue, DebuggingInformationEntry, Dwarf, Encoding, StringTable, Unit,
};

/// A string of the table.
fn string(strings: &StringTable, id: StringId) -> Option<&[u8]> {
    if id.0 < strings.count() {
        return Some(strings.get(id));
    }
    None
}

/// Whether a value is a text that is kept so.
fn is_text(strings: &StringTable, value: &AttributeValue, kept: Kept, wanted: &[u8]) -> bool {
    match (value, kept) {
        (AttributeValue::String(text), Kept::InEntry) => text.slice() == wanted,
        (AttributeValue::StringRef(id), Kept::InTable) => string(strings, *id) == Some(wanted),
        _ => false,
    }
}

/// Whether the attributes are the one that a row has, or none.
fn are_named(strings: &StringTable, attributes: &[Attribute], named: &Option<Named>) -> bool {
    match (attributes, named) {
        ([], None) => true,
        ([found], Some((name, kept, wanted))) => {
            found.name() == *name && is_text(strings, found.get(), *kept, wanted)
        }
        _ => false,
    }
}

fn are_children(ids: &[UnitEntryId], wanted: &[usize]) -> bool {
    ids.len() == wanted.len() && ids.iter().zip(wanted).all(|(id, index)| id.0 == *index)
}

/// Whether an entry is as a row has it.
fn is_row(strings: &StringTable, entry: &DebuggingInformationEntry, row: &Row) -> bool {
    let (parent, tag, children, named) = row;
    entry.parent().map(|id| id.index()) == *parent
        && entry.tag() == *tag
        && are_children(entry.child_ids(), children)
        && are_named(strings, entry.attributes(), named)
}

/// Whether the entries of a unit are as the rows have them.
fn are_rows(strings: &StringTable, unit: &Unit, rows: &[Row]) -> bool {
    for (index, row) in rows.iter().enumerate() {
        if index >= unit.count() {
            return false;
        }
        let entry = unit.get(UnitEntryId(index));
        if entry.id().0 != index || !is_row(strings, entry, row) {
            return false;
        }
    }
    unit.count() == rows.len() && unit.reserved() == rows.len()
}

/// Whether a unit tells this encoding.
fn is_encoded(unit: &Unit, encoding: Encoding) -> bool {
    unit.root() == UnitEntryId(0)
        && unit.encoding() == encoding
        && unit.version() == encoding.version
        && unit.address_size() == encoding.address_size
        && unit.format() == encoding.format
}

/// Whether the units of a `Dwarf` are those of a file.
pub(crate) fn are_found(file: usize, dwarf: &Dwarf) -> bool {
    for (number, rows) in unit_rows().iter().enumerate() {
        if number >= dwarf.units.count() {
            return false;
        }
        let unit = dwarf.units.get(dwarf.units.id(number));
        if !is_encoded(unit, encoding(file, number)) || !are_rows(&dwarf.strings, unit, rows) {
            return false;
        }
    }
    dwarf.units.count() == unit_rows().len()
}
