//! The entries that attributes name, and the children that are led to (DWARF 5, 2.2 and 2.3).

use crate::tests::sections::{Bytes, NONE, Slice, sections};
use crate::tests::units::first;
use dw_base::constants::DW_TAG_structure_type;
use dw_base::{UnitOffset, UnitSectionOffset};
use dw_filter::{add_entry_places, leads_to_child};
use dw_read::DebuggingInformationEntry;
use dw_read_units::UnitRef;
use dw_sources::ConvertResult;
use std::alloc::Global;

/// Variables: with a type in the unit, an expression and a specification in the section; with a
/// list by its place; with one by its index. A function that is declared, and one that isn't. A
/// variable with an expression alone.
const ABBREV: &[u8] = &[
    0x01, 0x11, 0x01, 0, 0, 0x02, 0x34, 0x00, 0x49, 0x13, 0x02, 0x18, 0x47, 0x10, 0, 0, 0x03, 0x34,
    0x00, 0x02, 0x17, 0, 0, 0x04, 0x34, 0x00, 0x02, 0x22, 0, 0, 0x05, 0x2e, 0x00, 0x3c, 0x19, 0, 0,
    0x06, 0x2e, 0x00, 0, 0, 0x07, 0x34, 0x00, 0x02, 0x18, 0, 0, 0,
];

/// The expression has one within it, which converts to the type at 13. Those at 41 and 48 convert
/// to it, have the unknown operation 2, and convert to it again, the second within another
/// operation and once more behind that; the one at 59 converts, and then an operation is cut.
const INFO: &[u8] = &[
    0x48, 0, 0, 0, 0x05, 0, 0x01, 0x08, 0, 0, 0, 0, 0x01, 0x02, 0x0d, 0, 0, 0, 0x04, 0xa3, 0x02,
    0xa8, 0x0d, 0x99, 0, 0, 0, 0x03, 0x04, 0, 0, 0, 0x04, 0x00, 0x05, 0x06, 0x03, 0x40, 0, 0, 0,
    0x07, 0x05, 0xa8, 0x0d, 0x02, 0xa8, 0x0d, 0x07, 0x09, 0xa3, 0x05, 0xa8, 0x0d, 0x02, 0xa8, 0x0d,
    0xa8, 0x0d, 0x07, 0x04, 0xa8, 0x0d, 0xa3, 0x7f, 0x03, 0x09, 0, 0, 0, 0x03, 0x0f, 0, 0, 0, 0,
];

/// The offset of the first list, and the list: a default location that converts to the type at 13.
/// At 9 one whose expression does so, and then has an unknown operation; at 15 one of an unknown
/// kind.
const LISTS: &[u8] = &[
    0x04, 0, 0, 0, 0x05, 0x02, 0xa8, 0x0d, 0x00, 0x05, 0x03, 0xa8, 0x0d, 0x02, 0x00, 0x0f,
];

/// An entry's offset; the places that its attributes name, where its list can be read; whether a
/// structure leads to it.
type Row = (usize, Option<&'static [usize]>, bool);

const ROWS: &[Row] = &[
    (13, Some(&[13, 13, 0x99]), true),
    (27, Some(&[13]), true),
    (32, Some(&[13]), true),
    (34, Some(&[]), true),
    (35, Some(&[]), false),
    (36, None, true),
    (41, Some(&[13]), true),
    (48, Some(&[13, 13]), true),
    (59, Some(&[13]), true),
    (65, Some(&[13]), true),
    (70, None, true),
];

/// They, of which no other proof sees more.
fn rows() -> &'static [Row] {
    ROWS
}

/// Adds the places that the entry at an offset names, and tells whether a structure leads to it.
fn add_named(
    alloc: Global,
    unit: UnitRef<'_, Slice<'_>>,
    offset: usize,
    places: &mut Vec<UnitSectionOffset>,
) -> ConvertResult<bool> {
    let mut entry = DebuggingInformationEntry::new(alloc);
    unit.entries_raw(alloc, Some(UnitOffset(offset)))?
        .read_entry(&mut entry)?;
    add_entry_places(alloc, unit, &entry.attrs, places)?;
    Ok(leads_to_child(DW_TAG_structure_type, &entry))
}

/// Tells whether places are these.
pub(crate) fn are(places: &[UnitSectionOffset], wanted: &[usize]) -> bool {
    places.len() == wanted.len()
        && places
            .iter()
            .zip(wanted)
            .all(|(place, wanted)| place.0 == *wanted)
}

fn is_met(alloc: Global, unit: UnitRef<'_, Slice<'_>>, row: &Row) -> bool {
    let (offset, wanted, is_led_to) = *row;
    let mut places = Vec::new(alloc);
    let added = add_named(alloc, unit, offset, &mut places);
    match wanted {
        Some(wanted) => added == Ok(is_led_to) && are(&places, wanted),
        None => added.is_err() && places.is_empty(),
    }
}

#[test]
fn finds_what_attributes_name(rt: HostRuntime) {
    let dwarf = sections(&Bytes {
        info: INFO,
        abbrev: ABBREV,
        lists: LISTS,
        ..NONE
    });
    let unit = first(rt.alloc(), &dwarf);
    let Ok(unit) = &unit else {
        panic!(rt; "the unit isn't read");
    };
    let unit = UnitRef {
        dwarf: &dwarf,
        unit,
    };
    for row in rows() {
        assert!(rt; is_met(rt.alloc(), unit, row), "entry at {}", row.0);
    }
}
