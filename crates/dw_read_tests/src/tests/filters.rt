//! What a filter reads of a file (DWARF 5, 2.3 and 7.5).

use crate::tests::sections::{Bytes, NONE, Slice, sections};
use crate::tests::units::first;
use dw_base::UnitOffset;
use dw_filter::{FilterUnit, FilterUnitEntry, FilterUnitSection};
use dw_read::ReadError;
use dw_read_units::{Dwarf, UnitRef};
use dw_sources::{ConvertError, ConvertResult};
use std::alloc::Global;

/// A root; a namespace with a sibling; a function with a name and a sibling; a variable; one with a
/// location list by its index; a root with its low address.
const ABBREV: &[u8] = &[
    0x01, 0x11, 0x01, 0, 0, 0x02, 0x39, 0x01, 0x01, 0x13, 0, 0, 0x03, 0x2e, 0x00, 0x03, 0x08, 0x01,
    0x11, 0, 0, 0x04, 0x34, 0x00, 0, 0, 0x05, 0x34, 0x00, 0x02, 0x22, 0, 0, 0x06, 0x11, 0x00, 0x11,
    0x01, 0, 0, 0,
];

/// A namespace with two functions, and a variable behind it.
const TREE: &[u8] = &[
    0x19, 0, 0, 0, 0x05, 0, 0x01, 0x04, 0, 0, 0, 0, 0x01, 0x02, 0x1b, 0, 0, 0, 0x03, 0x66, 0, 0x16,
    0x03, 0x67, 0, 0x1a, 0x00, 0x04, 0x00,
];

/// An entry's offset and tag; those of the entry under which it stands, unless that is the root;
/// how many of its attributes are left.
type Entry = (usize, u16, Option<(usize, u16)>, usize);

/// The entries of `.debug_info`'s first unit, and what comes then, twice.
type Row = (&'static [u8], &'static [Entry], ConvertResult<bool>);

const ROWS: &[Row] = &[
    (
        TREE,
        &[
            (13, 0x39, None, 0),
            (18, 0x2e, Some((13, 0x39)), 1),
            (22, 0x2e, Some((13, 0x39)), 1),
            (27, 0x34, None, 0),
        ],
        Ok(false),
    ),
    // The namespace lacks two bytes of its sibling.
    (
        &[
            0x0d, 0, 0, 0, 0x05, 0, 0x01, 0x04, 0, 0, 0, 0, 0x01, 0x04, 0x02, 0x1b, 0,
        ],
        &[(13, 0x34, None, 0)],
        Err(ConvertError::Read(ReadError::UnexpectedEof)),
    ),
    // No declaration has the code 9.
    (
        &[0x0a, 0, 0, 0, 0x05, 0, 0x01, 0x04, 0, 0, 0, 0, 0x01, 0x09],
        &[],
        Err(ConvertError::Read(ReadError::UnknownAbbreviation(9))),
    ),
    // There are no location lists.
    (
        &[
            0x0c, 0, 0, 0, 0x05, 0, 0x01, 0x04, 0, 0, 0, 0, 0x01, 0x04, 0x05, 0x00,
        ],
        &[(13, 0x34, None, 0)],
        Err(ConvertError::Read(ReadError::UnexpectedEof)),
    ),
];

/// They, of which no other proof sees more.
fn rows() -> &'static [Row] {
    ROWS
}

/// An entry as plain data.
fn told(entry: &FilterUnitEntry<'_, Slice<'_>>) -> Entry {
    let parent = match (entry.parent, entry.parent_tag) {
        (Some(offset), Some(tag)) => Some((offset.0, tag.0)),
        _ => None,
    };
    let read = &entry.read_entry;
    (read.offset.0, read.tag.0, parent, read.attrs.len())
}

/// Tells whether a unit has these entries, and what comes then twice.
fn are_read(unit: &mut FilterUnit<'_, Slice<'_>>, row: &Row) -> bool {
    let (_, entries, end) = *row;
    let mut entry = unit.null_entry();
    for wanted in entries {
        if unit.read_entry(&mut entry) != Ok(true) || told(&entry) != *wanted {
            return false;
        }
    }
    unit.read_entry(&mut entry) == end && unit.read_entry(&mut entry) == end
}

/// The sections of a file of these units.
fn file_of(info: &'static [u8]) -> Dwarf<Slice<'static>> {
    sections(&Bytes {
        info,
        abbrev: ABBREV,
        ..NONE
    })
}

fn is_met_in(section: &mut FilterUnitSection<'_, Slice<'_>>, row: &Row) -> bool {
    match section.read_unit() {
        Ok(Some(mut unit)) => are_read(&mut unit, row),
        _ => false,
    }
}

fn is_met(alloc: Global, row: &Row) -> bool {
    let dwarf = file_of(row.0);
    match FilterUnitSection::new(alloc, &dwarf) {
        Ok(mut section) => is_met_in(&mut section, row),
        Err(_) => false,
    }
}

#[test]
fn reads_entries_with_their_parents(rt: HostRuntime) {
    for (number, row) in rows().iter().enumerate() {
        assert!(rt; is_met(rt.alloc(), row), "{number}");
    }
}

/// The skeleton of split units, with its low address.
const SKELETON: &[u8] = &[
    0x0d, 0, 0, 0, 0x05, 0, 0x01, 0x04, 0, 0, 0, 0, 0x06, 0x44, 0x33, 0x22, 0x11,
];

/// The bytes of `.debug_info`, and why no third unit can be read, where that is so.
type File = (&'static [u8], Option<ReadError>);

/// A unit of a root and a variable, and a unit of a root with its low address. What would be a
/// third is nothing, a unit whose first row is a null entry, or a piece of a header.
const FILES: &[File] = &[
    (
        &[
            0x0a, 0, 0, 0, 0x05, 0, 0x01, 0x04, 0, 0, 0, 0, 0x01, 0x04, 0x0d, 0, 0, 0, 0x05, 0,
            0x01, 0x04, 0, 0, 0, 0, 0x06, 0x78, 0x56, 0x34, 0x12,
        ],
        None,
    ),
    (
        &[
            0x0a, 0, 0, 0, 0x05, 0, 0x01, 0x04, 0, 0, 0, 0, 0x01, 0x04, 0x0d, 0, 0, 0, 0x05, 0,
            0x01, 0x04, 0, 0, 0, 0, 0x06, 0x78, 0x56, 0x34, 0x12, 0x09, 0, 0, 0, 0x05, 0, 0x01,
            0x04, 0, 0, 0, 0, 0x00,
        ],
        Some(ReadError::MissingUnitDie),
    ),
    (
        &[
            0x0a, 0, 0, 0, 0x05, 0, 0x01, 0x04, 0, 0, 0, 0, 0x01, 0x04, 0x0d, 0, 0, 0, 0x05, 0,
            0x01, 0x04, 0, 0, 0, 0, 0x06, 0x78, 0x56, 0x34, 0x12, 0x09, 0, 0,
        ],
        Some(ReadError::UnexpectedEof),
    ),
];

/// They, of which no other proof sees more.
fn files() -> &'static [File] {
    FILES
}

/// Reads a unit's next entry, requires the one at an offset, and tells whether an entry was read.
fn read_and_require(
    unit: &mut FilterUnit<'_, Slice<'_>>,
    offset: UnitOffset,
) -> ConvertResult<bool> {
    let read = unit.read_unit;
    if read.contains(offset) {
        unit.require_entry(offset)?;
    }
    let mut entry = unit.null_entry();
    unit.read_entry(&mut entry)
}

/// Hands out the next unit, and does this. Answers the low address and whether an entry was read.
fn pass(
    section: &mut FilterUnitSection<'_, Slice<'_>>,
    offset: UnitOffset,
) -> ConvertResult<Option<(u64, bool)>> {
    match section.read_unit() {
        Ok(Some(mut unit)) => {
            let low_pc = unit.read_unit.unit.low_pc;
            match read_and_require(&mut unit, offset) {
                Ok(is_read) => Ok(Some((low_pc, is_read))),
                Err(error) => Err(error),
            }
        }
        Ok(None) => Ok(None),
        Err(error) => Err(error),
    }
}

/// Tells whether two units come, with a skeleton's low address where there is one, and then what
/// comes instead of a third, and None.
fn come(
    section: &mut FilterUnitSection<'_, Slice<'_>>,
    low_pc: u64,
    end: &Option<ReadError>,
) -> bool {
    let offset = UnitOffset(13);
    let skeleton = section.skeleton_unit().is_some();
    let first = if skeleton { low_pc } else { 0 };
    if pass(section, offset) != Ok(Some((first, true))) {
        return false;
    }
    if pass(section, offset) != Ok(Some((low_pc, false))) {
        return false;
    }
    let last = pass(section, offset);
    let is_last = match end {
        Some(error) => last == Err(ConvertError::Read(*error)),
        None => last == Ok(None),
    };
    is_last && pass(section, offset) == Ok(None)
}

/// Tells whether numbers are these.
fn are(numbers: &[usize], wanted: &[usize]) -> bool {
    numbers.len() == wanted.len()
        && numbers
            .iter()
            .zip(wanted)
            .all(|(number, wanted)| *number == *wanted)
}

/// Tells whether a section has two units, of which one entry was read, and two required places.
fn is_kept(section: &FilterUnitSection<'_, Slice<'_>>) -> bool {
    section.units().len() == 2
        && are(section.counts(), &[1, 0])
        && section.required().len() == 2
        && section
            .required()
            .iter()
            .zip(&[13, 27])
            .all(|(place, wanted)| place.0 == *wanted)
}

/// Tells whether a section hands out what it is to.
fn hands_out(
    section: &mut FilterUnitSection<'_, Slice<'_>>,
    low_pc: u64,
    end: &Option<ReadError>,
) -> bool {
    come(section, low_pc, end) && is_kept(section)
}

fn are_handed_out(alloc: Global, dwarf: &Dwarf<Slice<'_>>, end: &Option<ReadError>) -> bool {
    match FilterUnitSection::new(alloc, dwarf) {
        Ok(mut section) => hands_out(&mut section, 0x1234_5678, end),
        Err(_) => false,
    }
}

/// The same of split units, whose skeleton has another low address.
fn are_split(
    alloc: Global,
    dwarf: &Dwarf<Slice<'_>>,
    skeleton: UnitRef<'_, Slice<'_>>,
    end: &Option<ReadError>,
) -> bool {
    match FilterUnitSection::new_split(alloc, dwarf, skeleton) {
        Ok(mut section) => hands_out(&mut section, skeleton.unit.low_pc, end),
        Err(_) => false,
    }
}

/// The same of the skeleton above.
fn are_split_off(alloc: Global, dwarf: &Dwarf<Slice<'_>>, end: &Option<ReadError>) -> bool {
    let held = file_of(SKELETON);
    match &first(alloc, &held) {
        Ok(unit) => {
            let skeleton = UnitRef { dwarf: &held, unit };
            are_split(alloc, dwarf, skeleton, end)
        }
        Err(_) => false,
    }
}

/// Tells whether the units of a file are handed out, and as split units, too.
fn is_handed_out(alloc: Global, (info, end): &File) -> bool {
    let dwarf = file_of(info);
    are_handed_out(alloc, &dwarf, end) && are_split_off(alloc, &dwarf, end)
}

#[test]
fn hands_out_units_in_order(rt: HostRuntime) {
    for (number, file) in files().iter().enumerate() {
        assert!(rt; is_handed_out(rt.alloc(), file), "{number}");
    }
}
