//! Strings and lists that values name.

use crate::items::{Item, location_list_of, range_list_of};
use dw_base::{LineStringId, LocationListId, RangeListId, Result, StringId};
use dw_lists::{LocationListTable, RangeListTable};
use dw_strings::{LineStringTable, StringTable};
use std::alloc::Global;

/// A table of each kind.
#[derive(Drop)]
pub(crate) struct Tables {
    pub(crate) strings: StringTable,
    pub(crate) line_strings: LineStringTable,
    pub(crate) ranges: RangeListTable,
    pub(crate) locations: LocationListTable,
}

pub(crate) fn none(alloc: Global) -> Tables {
    Tables {
        strings: StringTable::new(alloc),
        line_strings: LineStringTable::new(alloc),
        ranges: RangeListTable::new(alloc),
        locations: LocationListTable::new(alloc),
    }
}

/// A list that nothing names.
const UNNAMED: &[Item] = &[Item::Ends(1, 2)];

/// A list of one item.
const SHORT: &[Item] = &[Item::Ends(0x1234, 0x2345)];

/// An address with a length, two addresses, a base, and a pair that counts from it.
const LONG: &[Item] = &[
    Item::Start(6666, 7777),
    Item::Ends(4444, 5555),
    Item::Base(1111),
    Item::Pair(2222, 3333),
];

/// The same with a default location, which version 5 has.
const DEFAULT: &[Item] = &[
    Item::Start(6666, 7777),
    Item::Ends(4444, 5555),
    Item::Base(1111),
    Item::Pair(2222, 3333),
    Item::Default,
];

/// What it is up to version 4, where a length is an end.
const OLD: &[Item] = &[
    Item::Ends(6666, 14443),
    Item::Ends(4444, 5555),
    Item::Base(1111),
    Item::Pair(2222, 3333),
];

/// The items of the long list, where it is of locations or of ranges.
fn long(version: u16, are_locations: bool) -> &'static [Item] {
    if version == 5 && are_locations {
        DEFAULT
    } else {
        LONG
    }
}

/// Adds to each table of strings one that nothing names, and one that values name.
pub(crate) fn add_strings(
    strings: &mut StringTable,
    line_strings: &mut LineStringTable,
) -> Result<()> {
    strings.add(b"none")?;
    strings.add(b"text")?;
    line_strings.add(b"nothing")?;
    line_strings.add(b"line text")?;
    Ok(())
}

fn add_ranges(alloc: Global, ranges: &mut RangeListTable, items: &[Item]) -> Result<()> {
    ranges.add(range_list_of(alloc, items)?)?;
    Ok(())
}

fn add_locations(
    alloc: Global,
    locations: &mut LocationListTable,
    items: &[Item],
    number: u64,
) -> Result<()> {
    locations.add(location_list_of(alloc, items, number)?)?;
    Ok(())
}

/// Adds a range list that nothing names, and two that values name.
fn add_range_lists(alloc: Global, version: u16, ranges: &mut RangeListTable) -> Result<()> {
    for items in [UNNAMED, SHORT, long(version, false)] {
        add_ranges(alloc, ranges, items)?;
    }
    Ok(())
}

/// The same of location lists.
fn add_location_lists(
    alloc: Global,
    version: u16,
    locations: &mut LocationListTable,
) -> Result<()> {
    for (items, number) in [(UNNAMED, 57), (SHORT, 57), (long(version, true), 0)] {
        add_locations(alloc, locations, items, number)?;
    }
    Ok(())
}

/// Adds to both tables of lists one that nothing names, and two that values name.
pub(crate) fn add_lists(
    alloc: Global,
    version: u16,
    ranges: &mut RangeListTable,
    locations: &mut LocationListTable,
) -> Result<()> {
    add_range_lists(alloc, version, ranges)?;
    add_location_lists(alloc, version, locations)
}

/// How many strings, strings of lines, location lists and range lists there are.
pub(crate) fn counts(tables: &Tables) -> [usize; 4] {
    [
        tables.strings.count(),
        tables.line_strings.count(),
        tables.locations.count(),
        tables.ranges.count(),
    ]
}

/// What a table has that values name.
#[derive(Clone, Copy, PartialEq, Eq)]
pub(crate) enum Named {
    Nothing,
    String,
    LineString,
    ShortLocations,
    ShortRanges,
    LongLocations,
    LongRanges,
}

/// Whether what stands in the tables is this alone.
pub(crate) fn have(alloc: Global, tables: &Tables, named: Named, version: u16) -> bool {
    let wanted = match named {
        Named::Nothing => [0, 0, 0, 0],
        Named::String => [1, 0, 0, 0],
        Named::LineString => [0, 1, 0, 0],
        Named::ShortLocations | Named::LongLocations => [0, 0, 1, 0],
        Named::ShortRanges | Named::LongRanges => [0, 0, 0, 1],
    };
    counts(tables) == wanted && has(alloc, tables, named, version)
}

fn has(alloc: Global, tables: &Tables, named: Named, version: u16) -> bool {
    let old = version < 5;
    match named {
        Named::Nothing => true,
        Named::String => is_string(&tables.strings),
        Named::LineString => is_line_string(&tables.line_strings),
        Named::ShortLocations => are_locations(alloc, &tables.locations, SHORT, 57),
        Named::ShortRanges => are_ranges(alloc, &tables.ranges, SHORT),
        Named::LongLocations if old => are_locations(alloc, &tables.locations, OLD, 0),
        Named::LongLocations => are_locations(alloc, &tables.locations, DEFAULT, 0),
        Named::LongRanges if old => are_ranges(alloc, &tables.ranges, OLD),
        Named::LongRanges => are_ranges(alloc, &tables.ranges, LONG),
    }
}

fn is_string(strings: &StringTable) -> bool {
    strings.count() != 0 && strings.get(StringId(0)) == b"text".as_slice()
}

fn is_line_string(strings: &LineStringTable) -> bool {
    strings.count() != 0 && strings.get(LineStringId(0)) == b"line text".as_slice()
}

fn are_ranges(alloc: Global, lists: &RangeListTable, items: &[Item]) -> bool {
    match range_list_of(alloc, items) {
        Ok(wanted) => lists.count() != 0 && *lists.get(RangeListId(0)) == wanted,
        Err(_) => false,
    }
}

fn are_locations(alloc: Global, lists: &LocationListTable, items: &[Item], number: u64) -> bool {
    match location_list_of(alloc, items, number) {
        Ok(wanted) => lists.count() != 0 && *lists.get(LocationListId(0)) == wanted,
        Err(_) => false,
    }
}
