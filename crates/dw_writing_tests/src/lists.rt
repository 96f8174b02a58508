//! Range lists and location lists. The bytes are taken from the layouts of the standards (DWARF 5,
//! 7.7.3, 7.25, 7.28 and 7.29; DWARF 4, 2.6.2, 2.17.3 and 7.7.3).

use crate::expressions::Places;
use crate::list_calls::Call::{self, CallRef, Convert};
use crate::list_calls::FAR;
use crate::list_tables::{
    Answer, Body, EMPTY, Item, Lists, NOP, NOTHING, Row, Way, add_location_lists, add_range_lists,
    write_row,
};
use dw_base::{
    Address, DebugInfoRef, Encoding, Error, Format, LocationListId, RangeListId, Result,
    RunTimeEndian, UnitEntryId, UnitId,
};
use dw_lists::{LocationList, LocationListTable, Range, RangeList, RangeListTable};
use dw_writer::{DebugInfoFixup, Relocation, RelocationTarget};
use std::alloc::Global;

/// A base.
macro_rules! base {
    ($address:expr) => {
        Range::BaseAddress {
            address: Address::Constant($address),
        }
    };
}

/// Two offsets.
macro_rules! pair {
    ($begin:expr, $end:expr) => {
        Range::OffsetPair {
            begin: $begin,
            end: $end,
        }
    };
}

/// Two ends.
macro_rules! ends {
    ($begin:expr, $end:expr) => {
        Range::StartEnd {
            begin: Address::Constant($begin),
            end: Address::Constant($end),
        }
    };
}

/// A begin and a length.
macro_rules! start {
    ($begin:expr, $length:expr) => {
        Range::StartLength {
            begin: Address::Constant($begin),
            length: $length,
        }
    };
}

/// A symbol's address of two bytes that is left to a linker.
macro_rules! record {
    ($offset:expr, $addend:expr) => {
        Relocation {
            offset: $offset,
            size: 2,
            target: RelocationTarget::Symbol(1),
            addend: $addend,
            eh_pe: None,
        }
    };
}

const LITTLE: RunTimeEndian = RunTimeEndian::Little;

const BIG: RunTimeEndian = RunTimeEndian::Big;

/// A version, a format, an address size and a byte order, with no base, and an entry at 44.
macro_rules! way {
    ($version:expr, $format:expr, $address_size:expr, $endian:expr) => {
        Way {
            encoding: Encoding {
                address_size: $address_size,
                format: $format,
                version: $version,
            },
            endian: $endian,
            has_base: false,
            places: Some(Places { places: &[0x2c] }),
        }
    };
}

const FIVE: Way = way!(5, Format::Dwarf32, 4, LITTLE);

const FOUR: Way = way!(4, Format::Dwarf32, 4, LITTLE);

/// With addresses of two bytes.
const SHORT_FIVE: Way = way!(5, Format::Dwarf32, 2, LITTLE);

const SHORT_FOUR: Way = way!(4, Format::Dwarf32, 2, LITTLE);

/// Where a base is in force.
const BASED_FIVE: Way = Way {
    has_base: true,
    ..FIVE
};

const BASED_FOUR: Way = Way {
    has_base: true,
    ..FOUR
};

const UNPLACED: Way = Way {
    places: None,
    ..FIVE
};

const SYMBOL: Address = Address::Symbol {
    symbol: 1,
    addend: -1,
};

/// A range from a symbol to itself.
const EQUAL: Range = Range::StartEnd {
    begin: SYMBOL,
    end: SYMBOL,
};

/// A range from a symbol to its next byte.
const UNEQUAL: Range = Range::StartEnd {
    begin: SYMBOL,
    end: Address::Symbol {
        symbol: 1,
        addend: 0,
    },
};

/// A range from a constant, which equals no symbol.
const MIXED: Range = Range::StartEnd {
    begin: Address::Constant(0),
    end: SYMBOL,
};

/// A range of three bytes at a symbol.
const THREE: Range = Range::StartLength {
    begin: SYMBOL,
    length: 3,
};

/// A base at a symbol.
const BASE: Range = Range::BaseAddress { address: SYMBOL };

/// A table of one list, in the 32-bit format of version 5 and before.
const ONE_OF_FIVE: Answer = (1, Some(12), Some(16));

const ONE: Answer = (1, None, Some(0));

/// A place of an entry of another unit.
macro_rules! fixup {
    ($offset:expr, $size:expr) => {
        Some(DebugInfoFixup {
            offset: $offset,
            size: $size,
            unit: UnitId(2),
            entry: UnitEntryId(1),
        })
    };
}

/// A table of one list of ranges.
macro_rules! ranges {
    ($($item:expr),*) => {
        Lists::Ranges(&[&[$($item),*]])
    };
}

/// A table of one list of locations.
macro_rules! locations {
    ($($item:expr),*) => {
        Lists::Locations(&[&[$($item),*]])
    };
}

const FAR_CALL: Body = Body::Of(&[CallRef(FAR)]);

/// Where the last of many lists stands in version 5: behind the header, an entry for each list, six
/// bytes for each of the first 127 lists, seven for the next one, and then eight.
const LAST: usize = 12 + 40_000 + 127 * 6 + 7 + (9_999 - 128) * 8;

/// Tables of ranges.
const RANGE_ROWS: &[Row] = &[
    // Every item of version 5.
    (
        ranges!(
            base!(0x1000),
            pair!(1, 0x80),
            ends!(0x10, 0x20),
            start!(0x30, 0x200)
        ),
        FIVE,
        Ok((
            ONE_OF_FIVE,
            (
                b"\x26\x00\x00\x00\x05\x00\x04\x00\x01\x00\x00\x00\x04\x00\x00\x00\x05\x00\x10\
                \x00\x00\x04\x01\x80\x01\x06\x10\x00\x00\x00\x20\x00\x00\x00\x07\x30\x00\x00\
                \x00\x80\x04\x00",
                0,
                &[],
                None,
            ),
        )),
    ),
    // The second list has no items. The header has 20 bytes, and two entries 16.
    (
        Lists::Ranges(&[&[start!(0x1234, 3)], &[]]),
        way!(5, Format::Dwarf64, 2, BIG),
        Ok((
            (2, Some(20), Some(41)),
            (
                b"\xff\xff\xff\xff\x00\x00\x00\x00\x00\x00\x00\x1e\x00\x05\x02\x00\x00\x00\x00\
                \x02\x00\x00\x00\x00\x00\x00\x00\x10\x00\x00\x00\x00\x00\x00\x00\x15\x07\x12\
                \x34\x03\x00\x00",
                0,
                &[],
                None,
            ),
        )),
    ),
    // Version 5 spells what the others refuse, but for what has no bytes.
    (
        ranges!(pair!(2, 2)),
        FIVE,
        Ok((
            ONE_OF_FIVE,
            (
                b"\x10\x00\x00\x00\x05\x00\x04\x00\x01\x00\x00\x00\x04\x00\x00\x00\x04\x02\x02\
                \x00",
                0,
                &[],
                None,
            ),
        )),
    ),
    (
        ranges!(start!(0xffff_fffe, 2)),
        BASED_FIVE,
        Ok((
            ONE_OF_FIVE,
            (
                b"\x13\x00\x00\x00\x05\x00\x04\x00\x01\x00\x00\x00\x04\x00\x00\x00\x07\xfe\xff\
                \xff\xff\x02\x00",
                0,
                &[],
                None,
            ),
        )),
    ),
    (
        ranges!(ends!(1, 0x1_0000_0000)),
        BASED_FIVE,
        Err(Error::ValueTooLarge),
    ),
    // The marker of a base, and addresses up to version 4.
    (
        ranges!(base!(0x10), pair!(1, 2)),
        way!(2, Format::Dwarf32, 1, LITTLE),
        Ok((ONE, (b"\xff\x10\x01\x02\x00\x00", 0, &[], None))),
    ),
    (
        ranges!(base!(0x10), pair!(1, 2)),
        way!(3, Format::Dwarf64, 2, LITTLE),
        Ok((
            ONE,
            (
                b"\xff\xff\x10\x00\x01\x00\x02\x00\x00\x00\x00\x00",
                0,
                &[],
                None,
            ),
        )),
    ),
    (
        Lists::Ranges(&[&[ends!(0x10, 0x20), start!(0x30, 5)], &[]]),
        way!(4, Format::Dwarf32, 4, BIG),
        Ok((
            (2, None, Some(24)),
            (
                b"\x00\x00\x00\x10\x00\x00\x00\x20\x00\x00\x00\x30\x00\x00\x00\x35\x00\x00\x00\
                \x00\x00\x00\x00\x00\x00\x00\x00\x00\x00\x00\x00\x00",
                0,
                &[],
                None,
            ),
        )),
    ),
    // What up to version 4 would be read as something else.
    (ranges!(pair!(1, 2)), FOUR, Err(Error::MissingBaseAddress)),
    (ranges!(pair!(2, 2)), BASED_FOUR, Err(Error::InvalidRange)),
    (
        ranges!(pair!(0xffff_ffff, 2)),
        BASED_FOUR,
        Err(Error::InvalidRange),
    ),
    (
        ranges!(ends!(0xff, 2)),
        way!(4, Format::Dwarf32, 1, LITTLE),
        Err(Error::InvalidRange),
    ),
    (
        ranges!(ends!(0xffff_ffff_ffff_ffff, 2)),
        way!(3, Format::Dwarf32, 8, LITTLE),
        Err(Error::InvalidRange),
    ),
    (
        ranges!(ends!(1, 2)),
        BASED_FOUR,
        Err(Error::UnexpectedBaseAddress),
    ),
    (
        ranges!(start!(0xffff_fffe, 2)),
        FOUR,
        Err(Error::ValueTooLarge),
    ),
    (
        ranges!(base!(1)),
        way!(4, Format::Dwarf32, 3, LITTLE),
        Err(Error::UnsupportedWordSize(3)),
    ),
    (
        ranges!(base!(1)),
        way!(6, Format::Dwarf32, 4, LITTLE),
        Err(Error::UnsupportedVersion(6)),
    ),
    // Symbols, which are left to a linker. Equal ones are equal ends.
    (ranges!(EQUAL), SHORT_FOUR, Err(Error::InvalidRange)),
    (
        ranges!(UNEQUAL, MIXED),
        SHORT_FOUR,
        Ok((
            ONE,
            (
                b"\x00\x00\x00\x00\x00\x00\x00\x00\x00\x00\x00\x00",
                0,
                &[record!(0, -1), record!(2, 0), record!(6, -1)],
                None,
            ),
        )),
    ),
    (
        ranges!(THREE, BASE),
        SHORT_FOUR,
        Ok((
            ONE,
            (
                b"\x00\x00\x00\x00\xff\xff\x00\x00\x00\x00\x00\x00",
                0,
                &[record!(0, -1), record!(2, 2), record!(6, -1)],
                None,
            ),
        )),
    ),
    (
        ranges!(THREE, EQUAL),
        SHORT_FIVE,
        Ok((
            ONE_OF_FIVE,
            (
                b"\x16\x00\x00\x00\x05\x00\x02\x00\x01\x00\x00\x00\x04\x00\x00\x00\x07\x00\x00\
                \x03\x06\x00\x00\x00\x00\x00",
                0,
                &[record!(17, -1), record!(21, -1), record!(23, -1)],
                None,
            ),
        )),
    ),
];

/// Tables of locations.
const LOCATION_ROWS: &[Row] = &[
    // An item of each kind.
    (
        locations!(
            (Some(base!(0x1000)), EMPTY),
            (Some(pair!(1, 0x80)), NOP),
            (Some(ends!(0x10, 0x20)), EMPTY),
            (Some(start!(0x30, 0x200)), NOP),
            (None, NOP)
        ),
        FIVE,
        Ok((
            ONE_OF_FIVE,
            (
                b"\x2e\x00\x00\x00\x05\x00\x04\x00\x01\x00\x00\x00\x04\x00\x00\x00\x06\x00\x10\
                \x00\x00\x04\x01\x80\x01\x01\x96\x07\x10\x00\x00\x00\x20\x00\x00\x00\x00\x08\
                \x30\x00\x00\x00\x80\x04\x01\x96\x05\x01\x96\x00",
                0,
                &[],
                None,
            ),
        )),
    ),
    (
        locations!((Some(base!(0x10)), EMPTY), (Some(pair!(1, 2)), NOP)),
        way!(2, Format::Dwarf32, 1, LITTLE),
        Ok((ONE, (b"\xff\x10\x01\x02\x01\x00\x96\x00\x00", 0, &[], None))),
    ),
    (
        locations!((Some(base!(0x10)), EMPTY), (Some(pair!(1, 2)), NOP)),
        way!(3, Format::Dwarf64, 2, BIG),
        Ok((
            ONE,
            (
                b"\xff\xff\x00\x10\x00\x01\x00\x02\x00\x01\x96\x00\x00\x00\x00",
                0,
                &[],
                None,
            ),
        )),
    ),
    (
        locations!(
            (Some(ends!(0x10, 0x20)), EMPTY),
            (Some(start!(0x30, 5)), NOP)
        ),
        FOUR,
        Ok((
            ONE,
            (
                b"\x10\x00\x00\x00\x20\x00\x00\x00\x00\x00\x30\x00\x00\x00\x35\x00\x00\x00\x01\
                \x00\x96\x00\x00\x00\x00\x00\x00\x00\x00",
                0,
                &[],
                None,
            ),
        )),
    ),
    // An entry of the unit is placed, and one of another unit left open.
    (
        locations!((None, Body::Of(&[Call::Call(0)]))),
        FIVE,
        Ok((
            ONE_OF_FIVE,
            (
                b"\x14\x00\x00\x00\x05\x00\x04\x00\x01\x00\x00\x00\x04\x00\x00\x00\x05\x05\x99\
                \x2c\x00\x00\x00\x00",
                0,
                &[],
                None,
            ),
        )),
    ),
    (
        locations!((Some(start!(1, 2)), FAR_CALL)),
        SHORT_FOUR,
        Ok((
            ONE,
            (
                b"\x01\x00\x03\x00\x05\x00\x9a\x00\x00\x00\x00\x00\x00\x00\x00",
                0,
                &[],
                fixup!(7, 4),
            ),
        )),
    ),
    // The header has 20 bytes, the entry 8, and the item 5 before its expression.
    (
        locations!((Some(start!(1, 2)), FAR_CALL)),
        way!(5, Format::Dwarf64, 2, LITTLE),
        Ok((
            (1, Some(20), Some(28)),
            (
                b"\xff\xff\xff\xff\x1f\x00\x00\x00\x00\x00\x00\x00\x05\x00\x02\x00\x01\x00\x00\
                \x00\x08\x00\x00\x00\x00\x00\x00\x00\x08\x01\x00\x02\x09\x9a\x00\x00\x00\x00\
                \x00\x00\x00\x00\x00",
                0,
                &[],
                fixup!(20 + 8 + 5 + 1, 8),
            ),
        )),
    ),
    // Default locations and long expressions are of version 5.
    (
        locations!((None, NOP)),
        BASED_FOUR,
        Err(Error::InvalidRange),
    ),
    (
        locations!((Some(pair!(1, 2)), Body::Long)),
        BASED_FOUR,
        Err(Error::ValueTooLarge),
    ),
    (
        locations!((Some(pair!(1, 2)), Body::Long)),
        FIVE,
        Ok((
            ONE_OF_FIVE,
            (
                b"\x13\x00\x01\x00\x05\x00\x04\x00\x01\x00\x00\x00\x04\x00\x00\x00\x04\x01\x02\
                \x80\x80\x04",
                0x1_0000 + 1,
                &[],
                None,
            ),
        )),
    ),
    // The causes of ranges and of expressions. The length of a base type's operand hangs on its
    // place.
    (
        locations!((Some(pair!(1, 2)), EMPTY)),
        FOUR,
        Err(Error::MissingBaseAddress),
    ),
    (
        locations!((Some(ends!(1, 2)), EMPTY)),
        BASED_FOUR,
        Err(Error::UnexpectedBaseAddress),
    ),
    (
        locations!((Some(start!(1, 1)), EMPTY)),
        BASED_FOUR,
        Err(Error::UnexpectedBaseAddress),
    ),
    (
        locations!((None, Body::Of(&[CallRef(DebugInfoRef::Symbol(0))]))),
        FIVE,
        Err(Error::InvalidReference),
    ),
    (
        locations!((None, Body::Of(&[Call::Call(1)]))),
        FIVE,
        Err(Error::UnsupportedExpressionForwardReference),
    ),
    (
        locations!((None, Body::Of(&[Call::Call(0)]))),
        UNPLACED,
        Err(Error::UnsupportedCfiExpressionReference),
    ),
    (
        locations!((None, Body::Of(&[Convert(Some(0))]))),
        UNPLACED,
        Err(Error::UnsupportedCfiExpressionReference),
    ),
    // Symbols.
    (
        locations!((Some(EQUAL), NOP)),
        SHORT_FOUR,
        Err(Error::InvalidRange),
    ),
    (
        locations!((Some(UNEQUAL), NOP), (Some(MIXED), NOP)),
        SHORT_FOUR,
        Ok((
            ONE,
            (
                b"\x00\x00\x00\x00\x01\x00\x96\x00\x00\x00\x00\x01\x00\x96\x00\x00\x00\x00",
                0,
                &[record!(0, -1), record!(2, 0), record!(9, -1)],
                None,
            ),
        )),
    ),
    (
        locations!((Some(THREE), NOP), (Some(BASE), EMPTY)),
        SHORT_FOUR,
        Ok((
            ONE,
            (
                b"\x00\x00\x00\x00\x01\x00\x96\xff\xff\x00\x00\x00\x00\x00\x00",
                0,
                &[record!(0, -1), record!(2, 2), record!(9, -1)],
                None,
            ),
        )),
    ),
    (
        locations!((Some(EQUAL), NOP), (Some(THREE), NOP)),
        SHORT_FIVE,
        Ok((
            ONE_OF_FIVE,
            (
                b"\x1a\x00\x00\x00\x05\x00\x02\x00\x01\x00\x00\x00\x04\x00\x00\x00\x07\x00\x00\
                \x00\x00\x01\x96\x08\x00\x00\x03\x01\x96\x00",
                0,
                &[record!(17, -1), record!(19, -1), record!(24, -1)],
                None,
            ),
        )),
    ),
    // Their number doesn't slow each of them down. Up to version 4 a pair and the close have 16
    // bytes each, and the operation one behind its length in two.
    (
        Lists::Many,
        BASED_FIVE,
        Ok(((10_000, Some(12), Some(LAST)), (&[], LAST + 8, &[], None))),
    ),
    (
        Lists::Many,
        Way {
            has_base: true,
            ..way!(4, Format::Dwarf32, 8, LITTLE)
        },
        Ok((
            (10_000, None, Some(9_999 * 35)),
            (&[], 10_000 * 35, &[], None),
        )),
    ),
];

/// The tables, which no proof but these functions' looks into.
fn range_rows() -> &'static [Row] {
    RANGE_ROWS
}

fn location_rows() -> &'static [Row] {
    LOCATION_ROWS
}

/// Whether a row's lists are written, or refused, as they are to be.
fn is_as_wanted(alloc: Global, row: Row) -> Result<bool> {
    match row.2 {
        Ok((answer, text)) => Ok(write_row(alloc, row, text)? == (Ok(answer), true)),
        Err(error) => Ok(write_row(alloc, row, NOTHING)?.0 == Err(error)),
    }
}

#[test]
fn writes_or_refuses_range_lists(rt: HostRuntime) {
    for (i, row) in range_rows().iter().enumerate() {
        assert!(rt; is_as_wanted(rt.alloc(), *row) == Ok(true), "at {i}");
    }
}

#[test]
fn writes_or_refuses_location_lists(rt: HostRuntime) {
    for (i, row) in location_rows().iter().enumerate() {
        assert!(rt; is_as_wanted(rt.alloc(), *row) == Ok(true), "at {i}");
    }
}

/// A list with an item of each kind, and one that differs from it in one place.
const RANGES: &[&[Range]] = &[
    &[base!(1), pair!(2, 3), ends!(4, 5), start!(6, 7)],
    &[base!(1), pair!(2, 3), ends!(4, 5), start!(6, 0)],
    &[base!(1), pair!(2, 3), ends!(4, 5), start!(6, 7)],
];

/// The same with expressions, one of which differs.
const LOCATIONS: &[&[Item]] = &[EACH, OTHER, EACH];

const EACH: &[Item] = &[
    (Some(base!(1)), EMPTY),
    (Some(pair!(2, 3)), NOP),
    (Some(ends!(4, 5)), NOP),
    (Some(start!(6, 7)), NOP),
    (None, NOP),
];

const OTHER: &[Item] = &[
    (Some(base!(1)), EMPTY),
    (Some(pair!(2, 3)), NOP),
    (Some(ends!(4, 5)), NOP),
    (Some(start!(6, 7)), NOP),
    (None, EMPTY),
];

/// Whether a list and its items equal their copies.
fn are_ranges_copied(list: &RangeList) -> Result<bool> {
    let mut are_equal = list.try_clone()? == *list;
    for item in &list.0 {
        are_equal &= item.try_clone()? == *item;
    }
    Ok(are_equal)
}

/// Adds the lists to a table: the id of the last, how many lists there are, and whether the first
/// is copied.
fn keep_ranges(alloc: Global, table: &mut RangeListTable) -> Result<(Option<usize>, usize, bool)> {
    let last = add_range_lists(alloc, table, RANGES)?;
    let is_copied = table.count() > 0 && are_ranges_copied(table.get(RangeListId(0)))?;
    Ok((last, table.count(), is_copied))
}

fn are_locations_copied(list: &LocationList) -> Result<bool> {
    let mut are_equal = list.try_clone()? == *list;
    for item in &list.0 {
        are_equal &= item.try_clone()? == *item;
    }
    Ok(are_equal)
}

fn keep_locations(
    alloc: Global,
    table: &mut LocationListTable,
) -> Result<(Option<usize>, usize, bool)> {
    let last = add_location_lists(alloc, table, LOCATIONS)?;
    let is_copied = table.count() > 0 && are_locations_copied(table.get(LocationListId(0)))?;
    Ok((last, table.count(), is_copied))
}

/// Whether a new table keeps two of the range lists.
fn are_ranges_kept(alloc: Global) -> bool {
    let mut table = RangeListTable::new(alloc);
    keep_ranges(alloc, &mut table) == Ok((Some(0), 2, true))
}

/// Whether a new table keeps two of the location lists.
fn are_locations_kept(alloc: Global) -> bool {
    let mut table = LocationListTable::new(alloc);
    keep_locations(alloc, &mut table) == Ok((Some(0), 2, true))
}

#[test]
fn equal_lists_are_kept_once(rt: HostRuntime) {
    let are_kept = [are_ranges_kept(rt.alloc()), are_locations_kept(rt.alloc())];
    assert_eq!(rt; are_kept, [true; 2]);
}
