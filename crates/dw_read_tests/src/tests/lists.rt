//! Each kind of item of range lists and location lists, with its bytes by hand (DWARF 4, 2.17.3 and
//! 2.6.2; DWARF 5, 7.25 and 7.7.3).

use crate::tests::sections::{Bytes, NONE, Slice, encoding, little, sections};
use crate::tests::told::number_of;
use crate::tests::units::first;
use dw_base::{LocationListsOffset, RangeListsOffset};
use dw_read::{ReadError, ReadResult, Reader};
use dw_read_units::UnitRef;
use dw_sources::{
    RawLocListEntry, RawLocListIter, RawRngListEntry, RawRngListIter, raw_locations, raw_ranges,
};
use std::alloc::Global;

/// The item's kind and its numbers, and for locations the bytes of its expression as a number whose
/// first byte is the highest.
pub(crate) type Told = (&'static str, u64, u64, u128);

pub(crate) const END: Told = ("", 0, 0, 0);

fn told_range(item: &RawRngListEntry) -> Told {
    match item {
        RawRngListEntry::AddressOrOffsetPair { begin, end } => ("pair", *begin, *end, 0),
        RawRngListEntry::BaseAddress { addr } => ("base", *addr, 0, 0),
        RawRngListEntry::BaseAddressx { addr } => ("base index", *addr, 0, 0),
        RawRngListEntry::StartxEndx { begin, end } => ("indices", *begin, *end, 0),
        RawRngListEntry::StartxLength { begin, length } => ("index, length", *begin, *length, 0),
        RawRngListEntry::OffsetPair { begin, end } => ("offsets", *begin, *end, 0),
        RawRngListEntry::StartEnd { begin, end } => ("ends", *begin, *end, 0),
        RawRngListEntry::StartLength { begin, length } => ("length", *begin, *length, 0),
    }
}

/// A location's item that has no expression, or whose begin and end have numbers of their own.
fn told_location(item: &RawLocListEntry<Slice<'_>>) -> Told {
    match item {
        RawLocListEntry::BaseAddress { addr } => ("base", *addr, 0, 0),
        RawLocListEntry::BaseAddressx { addr } => ("base index", *addr, 0, 0),
        RawLocListEntry::AddressOrOffsetPair {
            begin,
            end,
            expression,
        } => ("pair", *begin, *end, number_of(expression.0.to_slice())),
        RawLocListEntry::OffsetPair {
            begin,
            end,
            expression,
        } => ("offsets", *begin, *end, number_of(expression.0.to_slice())),
        other => told_start(other),
    }
}

fn told_start(item: &RawLocListEntry<Slice<'_>>) -> Told {
    match item {
        RawLocListEntry::DefaultLocation { expression } => {
            ("default", 0, 0, number_of(expression.0.to_slice()))
        }
        RawLocListEntry::StartxEndx {
            begin,
            end,
            expression,
        } => ("indices", *begin, *end, number_of(expression.0.to_slice())),
        RawLocListEntry::StartxLength {
            begin,
            length,
            expression,
        } => (
            "index, length",
            *begin,
            *length,
            number_of(expression.0.to_slice()),
        ),
        RawLocListEntry::StartEnd {
            begin,
            end,
            expression,
        } => ("ends", *begin, *end, number_of(expression.0.to_slice())),
        RawLocListEntry::StartLength {
            begin,
            length,
            expression,
        } => (
            "length",
            *begin,
            *length,
            number_of(expression.0.to_slice()),
        ),
        _ => ("other", 0, 0, 0),
    }
}

/// The next item of a range list.
pub(crate) fn next_range(items: &mut RawRngListIter<Slice<'_>>) -> ReadResult<Told> {
    match items.next() {
        Ok(Some(item)) => Ok(told_range(&item)),
        Ok(None) => Ok(END),
        Err(reason) => Err(reason),
    }
}

/// The next item of a location list.
pub(crate) fn next_location(items: &mut RawLocListIter<Slice<'_>>) -> ReadResult<Told> {
    match items.next() {
        Ok(Some(item)) => Ok(told_location(&item)),
        Ok(None) => Ok(END),
        Err(reason) => Err(reason),
    }
}

/// Bytes, the version, the size of addresses, and the items.
type Case = (&'static [u8], u16, u8, &'static [Told]);

// Version 5, addresses of 4 bytes: each kind once, the close, and a byte behind it.
pub(crate) const RANGES: &[u8] = b"\x01\x85\x01\x02\x01\x02\x03\x01\x10\x04\x01\x02\
    \x05\x00\x10\x00\x00\x06\x00\x10\x00\x00\x00\x20\x00\x00\x07\x00\x10\x00\x00\x20\x00\xff";

// A base, a pair, a pair with equal ends and the close, with addresses of 4 bytes.
pub(crate) const PAIRS: &[u8] = b"\xff\xff\xff\xff\x00\x10\x00\x00\x01\x00\x00\x00\x02\x00\x00\x00\
    \x05\x00\x00\x00\x05\x00\x00\x00\x00\x00\x00\x00\x00\x00\x00\x00";

const OF_PAIRS: &[Told] = &[
    ("base", 0x1000, 0, 0),
    ("pair", 1, 2, 0),
    ("pair", 5, 5, 0),
    END,
];

const RANGE_LISTS: &[Case] = &[
    (
        RANGES,
        5,
        4,
        &[
            ("base index", 133, 0, 0),
            ("indices", 1, 2, 0),
            ("index, length", 1, 16, 0),
            ("offsets", 1, 2, 0),
            ("base", 0x1000, 0, 0),
            ("ends", 0x1000, 0x2000, 0),
            ("length", 0x1000, 32, 0),
            END,
            END,
        ],
    ),
    (PAIRS, 2, 4, OF_PAIRS),
    (PAIRS, 3, 4, OF_PAIRS),
    (PAIRS, 4, 4, OF_PAIRS),
    // A number of four bytes of ones is no base where addresses have 8 bytes.
    (
        b"\xff\xff\xff\xff\x00\x00\x00\x00\x01\x00\x00\x00\x00\x00\x00\x00\
        \xff\xff\xff\xff\xff\xff\xff\xff\x01\x00\x00\x00\x00\x00\x00\x00",
        4,
        8,
        &[("pair", 0xffff_ffff, 1, 0), ("base", 1, 0, 0)],
    ),
];

fn range_lists() -> &'static [Case] {
    RANGE_LISTS
}

/// Whether the items of a range list are read so.
fn are_ranges(case: &Case) -> bool {
    let (bytes, version, size, wanted) = *case;
    let mut items = RawRngListIter::new(little(bytes), encoding(version, size));
    for told in wanted {
        if next_range(&mut items) != Ok(*told) {
            return false;
        }
    }
    true
}

#[test]
fn reads_range_lists(rt: HostRuntime) {
    for (row, case) in range_lists().iter().enumerate() {
        assert!(rt; are_ranges(case), "{row}");
    }
}

// Version 5, addresses of 4 bytes: each kind once, the close, and a byte behind it.
pub(crate) const LOCATIONS: &[u8] =
    b"\x01\x85\x01\x02\x01\x02\x01\x96\x03\x01\x10\x00\x04\x01\x02\x02\x31\x9f\
    \x05\x01\x30\x06\x00\x10\x00\x00\x07\x00\x10\x00\x00\x00\x20\x00\x00\x01\x50\
    \x08\x00\x10\x00\x00\x20\x01\x51\x00\xff";

// A base, a pair with an expression of one byte, and the close, which has none.
pub(crate) const OLD_LOCATIONS: &[u8] =
    b"\xff\xff\xff\xff\x00\x10\x00\x00\x01\x00\x00\x00\x02\x00\x00\x00\
    \x01\x00\x96\x00\x00\x00\x00\x00\x00\x00\x00";

const OF_OLD: &[Told] = &[("base", 0x1000, 0, 0), ("pair", 1, 2, 0x96), END];

const LOCATION_LISTS: &[Case] = &[
    (
        LOCATIONS,
        5,
        4,
        &[
            ("base index", 133, 0, 0),
            ("indices", 1, 2, 0x96),
            ("index, length", 1, 16, 0),
            ("offsets", 1, 2, 0x319f),
            ("default", 0, 0, 0x30),
            ("base", 0x1000, 0, 0),
            ("ends", 0x1000, 0x2000, 0x50),
            ("length", 0x1000, 32, 0x51),
            END,
        ],
    ),
    (OLD_LOCATIONS, 2, 4, OF_OLD),
    (OLD_LOCATIONS, 3, 4, OF_OLD),
    (OLD_LOCATIONS, 4, 4, OF_OLD),
];

fn location_lists() -> &'static [Case] {
    LOCATION_LISTS
}

/// Whether the items of a location list are read so.
fn are_locations(case: &Case) -> bool {
    let (bytes, version, size, wanted) = *case;
    let mut items = RawLocListIter::new(little(bytes), encoding(version, size));
    for told in wanted {
        if next_location(&mut items) != Ok(*told) {
            return false;
        }
    }
    true
}

#[test]
fn reads_location_lists(rt: HostRuntime) {
    for (row, case) in location_lists().iter().enumerate() {
        assert!(rt; are_locations(case), "{row}");
    }
}

// A root alone, in versions 5 and 4, with addresses of 4 bytes.
const FIVE: &[u8] = b"\x09\x00\x00\x00\x05\x00\x01\x04\x00\x00\x00\x00\x01";

const FOUR: &[u8] = b"\x08\x00\x00\x00\x04\x00\x00\x00\x00\x00\x04\x01";

/// The first items of the range list and of the location list at an offset of a unit.
fn at_offset(
    alloc: Global,
    info: &[u8],
    offset: usize,
) -> ReadResult<(ReadResult<Told>, ReadResult<Told>)> {
    let dwarf = sections(&Bytes {
        info,
        abbrev: b"\x01\x11\x00\x00\x00\x00",
        lists: b"...\x04\x01\x02\x01\x50\x00\x05\x01\x51",
        old_lists: b"..\x03\x00\x00\x00\x04\x00\x00\x00\x00\x00",
        ..NONE
    });
    match first(alloc, &dwarf) {
        Ok(unit) => {
            let both = UnitRef {
                dwarf: &dwarf,
                unit: &unit,
            };
            Ok((range_at(both, offset), location_at(both, offset)))
        }
        Err(reason) => Err(reason),
    }
}

fn range_at(both: UnitRef<'_, Slice<'_>>, offset: usize) -> ReadResult<Told> {
    match raw_ranges(both, RangeListsOffset(offset)) {
        Ok(mut items) => next_range(&mut items),
        Err(reason) => Err(reason),
    }
}

fn location_at(both: UnitRef<'_, Slice<'_>>, offset: usize) -> ReadResult<Told> {
    match raw_locations(both, LocationListsOffset(offset)) {
        Ok(mut items) => next_location(&mut items),
        Err(reason) => Err(reason),
    }
}

/// A unit, an offset, and the first items there.
type OfUnit = (&'static [u8], usize, ReadResult<Told>, ReadResult<Told>);

const CUT: ReadResult<Told> = Err(ReadError::UnexpectedEof);

// An offset at a section's end leads to no item, one past it to no list.
const OF_UNITS: &[OfUnit] = &[
    (
        FIVE,
        3,
        Ok(("offsets", 1, 2, 0)),
        Ok(("offsets", 1, 2, 0x50)),
    ),
    (FIVE, 8, Ok(END), Ok(END)),
    (FIVE, 9, CUT, Ok(("default", 0, 0, 0x51))),
    (FIVE, 12, CUT, CUT),
    (FIVE, 13, CUT, CUT),
    (FOUR, 2, Ok(("pair", 3, 4, 0)), Ok(("pair", 3, 4, 0))),
];

fn of_units() -> &'static [OfUnit] {
    OF_UNITS
}

#[test]
fn reads_lists_of_units(rt: HostRuntime) {
    for (info, offset, range, location) in of_units() {
        let read = at_offset(rt.alloc(), info, *offset);
        assert!(rt; read == Ok((*range, *location)), "at {offset}");
    }
}
