//! Lists by their places, and what is refused: addresses without an image, symbols behind a base,
//! indices and entries where there is no unit, and what is too deep (DWARF 5, 2.5.1.7, 2.6.2 and
//! 2.17.3).

use crate::entries::{Evens, moved};
use crate::items::{Item, location_list_of, range_list_of};
use crate::layouts::{Slice, reader};
use crate::owned::drop;
use crate::reading::{EMPTY, Texts, dwarf_of, first};
use dw_base::RunTimeEndian::Little;
use dw_base::{Encoding, Format, LocationListsOffset, RangeListsOffset};
use dw_convert::{NoConvertDebugInfoRef, expression, location_list, range_list};
use dw_read::{Expression, ReadError};
use dw_read_units::UnitRef;
use dw_sources::ConvertError;
use std::alloc::Global;

// Roots alone: the first kind has no attribute, the second an address and a base of addresses.
const ABBREV: &[u8] = b"\x01\x11\x00\x00\x00\x02\x11\x00\x11\x01\x73\x17\x00\x00\x00";

/// A unit of version 5 with addresses of 4 bytes, which begins at 0x1000.
pub(crate) const FIVE: &[u8] =
    b"\x11\x00\x00\x00\x05\x00\x01\x04\x00\x00\x00\x00\x02\x00\x10\x00\x00\x08\x00\x00\x00";

/// A unit of version 4 with addresses of 4 bytes.
pub(crate) const FOUR: &[u8] = b"\x08\x00\x00\x00\x04\x00\x00\x00\x00\x00\x04\x01";

/// Sections with a unit, and these bytes in each section of lists.
fn texts<'a>(info: &'a [u8], lists: &'a [u8]) -> Texts<'a> {
    Texts {
        abbrev: ABBREV,
        info,
        addr: b"........\x00\x10\x00\x00\x00\x20\x00\x00",
        ranges: lists,
        rnglists: lists,
        loc: lists,
        loclists: lists,
        ..EMPTY
    }
}

/// What is converted of bytes: an expression, a range list or a location list.
#[derive(Clone, Copy)]
pub(crate) enum Kind {
    Expression,
    Ranges,
    Locations,
}

fn refusal_in(
    alloc: Global,
    kind: Kind,
    unit: UnitRef<'_, Slice<'_>>,
    bytes: &[u8],
) -> Option<ConvertError> {
    match kind {
        Kind::Expression => {
            let read = Expression(reader(bytes, Little));
            expression(alloc, read, unit.encoding(), Some(unit), &moved, &Evens).err()
        }
        Kind::Ranges => range_list(alloc, unit, RangeListsOffset(0), &moved).err(),
        Kind::Locations => {
            location_list(alloc, unit, LocationListsOffset(0), &moved, &Evens).err()
        }
    }
}

/// Why bytes aren't converted, in the unit of `info`.
pub(crate) fn refusal(
    alloc: Global,
    kind: Kind,
    info: &[u8],
    bytes: &[u8],
) -> Option<ConvertError> {
    let dwarf = dwarf_of(&texts(info, bytes), Little);
    match first(alloc, &dwarf) {
        Ok(unit) => {
            let both = UnitRef {
                dwarf: &dwarf,
                unit: &unit,
            };
            let refused = refusal_in(alloc, kind, both, bytes);
            drop(unit);
            refused
        }
        Err(error) => Some(ConvertError::Read(error)),
    }
}

/// So many expressions within each other, up to 513, with the size of each in two bytes: the bytes,
/// of which the others are none of them.
fn deep(depth: usize) -> [u8; 1536] {
    let mut bytes = [0; 1536];
    for level in 1..depth.min(513) {
        let size = depth.saturating_sub(level + 1).saturating_mul(3);
        let begin = (level - 1) * 3;
        bytes[begin] = 0xa3;
        bytes[begin + 1] = 0x80 + (size % 128) as u8;
        bytes[begin + 2] = (size / 128 % 128) as u8;
    }
    bytes
}

/// Why so many expressions within each other are refused.
fn refusal_of_deep(alloc: Global, depth: usize) -> Option<ConvertError> {
    let bytes = deep(depth);
    let bytes = bytes.get(..depth.min(513).saturating_sub(1) * 3);
    refusal(alloc, Kind::Expression, FIVE, bytes.unwrap_or_default())
}

/// Why an expression is refused without a unit, where an index leads nowhere, and no entry is
/// known.
fn refusal_alone(alloc: Global, bytes: &[u8]) -> Option<ConvertError> {
    let encoding = Encoding {
        address_size: 4,
        format: Format::Dwarf32,
        version: 5,
    };
    let read = Expression(reader(bytes, Little));
    let unit = None::<UnitRef<'_, Slice<'_>>>;
    expression(alloc, read, encoding, unit, &moved, &NoConvertDebugInfoRef).err()
}

/// What is converted.
#[derive(Clone, Copy)]
enum Given {
    /// Bytes, in the unit of others.
    In(Kind, &'static [u8], &'static [u8]),
    /// An expression without a unit.
    Alone(&'static [u8]),
    /// So many expressions within each other.
    Deep(usize),
}

/// Why it is refused, if it is.
type Row = (Given, Option<ConvertError>);

const ROWS: &[Row] = &[
    (
        Given::In(Kind::Expression, FIVE, b"\x03\x01\x80\x00\x00"),
        Some(ConvertError::InvalidAddress),
    ),
    // The index of an address that isn't there.
    (
        Given::In(Kind::Expression, FIVE, b"\xa1\x02"),
        Some(ConvertError::Read(ReadError::UnexpectedEof)),
    ),
    (
        Given::In(Kind::Ranges, FIVE, b"\x05\x01\x80\x00\x00\x00"),
        Some(ConvertError::InvalidAddress),
    ),
    (
        Given::In(
            Kind::Locations,
            FIVE,
            b"\x07\x00\x10\x00\x00\x01\x80\x00\x00\x00\x00",
        ),
        Some(ConvertError::InvalidAddress),
    ),
    // A base, and a pair that counts from it, of which the end is a symbol.
    (
        Given::In(
            Kind::Ranges,
            FOUR,
            b"\xff\xff\xff\xff\x00\x10\x00\x00\x01\x00\x00\x00\x00\x80\x00\x00",
        ),
        Some(ConvertError::InvalidRangeRelativeAddress),
    ),
    (
        Given::In(
            Kind::Locations,
            FOUR,
            b"\xff\xff\xff\xff\x00\x10\x00\x00\x01\x00\x00\x00\x00\x80\x00\x00\x00\x00\x00",
        ),
        Some(ConvertError::InvalidRangeRelativeAddress),
    ),
    (
        Given::Alone(b"\xa1\x01"),
        Some(ConvertError::UnsupportedOperation),
    ),
    (
        Given::Alone(b"\xa2\x01"),
        Some(ConvertError::UnsupportedOperation),
    ),
    (
        Given::Alone(b"\xa8\x02"),
        Some(ConvertError::InvalidUnitRef),
    ),
    (
        Given::Alone(b"\x9a\x02\x00\x00\x00"),
        Some(ConvertError::InvalidDebugInfoRef),
    ),
    (Given::Deep(512), None),
    (Given::Deep(513), Some(ConvertError::NoMemory)),
];

/// They, of which no other proof sees more.
fn rows() -> &'static [Row] {
    ROWS
}

/// Why what is given is refused.
fn refusal_of(alloc: Global, given: Given) -> Option<ConvertError> {
    match given {
        Given::In(kind, info, bytes) => refusal(alloc, kind, info, bytes),
        Given::Alone(bytes) => refusal_alone(alloc, bytes),
        Given::Deep(depth) => refusal_of_deep(alloc, depth),
    }
}

#[test]
fn refuses_what_it_has_to(rt: HostRuntime) {
    for (number, (given, wanted)) in rows().iter().enumerate() {
        assert!(rt; refusal_of(rt.alloc(), *given) == *wanted, "at {number}");
    }
}

/// A list of ranges of all kinds, of which the second, with equal ends, and the fourth, of length
/// 0, are left out.
const RANGES: &[u8] = b"\x01\x01\x02\x00\x00\x02\x00\x01\x03\x01\x00\x04\x01\x02\
    \x07\x00\x10\x00\x00\x10\x00";

const RANGE_ITEMS: &[Item] = &[
    Item::Base(0x2000),
    Item::Ends(0x1000, 0x2000),
    Item::Pair(1, 2),
    Item::Start(0x1000, 16),
];

/// A list of locations, of which the third is left out; each is the number 0.
const LOCATIONS: &[u8] = b"\x01\x01\x02\x00\x01\x01\x30\x02\x00\x00\x01\x30\
    \x04\x01\x02\x01\x30\x05\x01\x30\x06\x00\x10\x00\x00\x08\x00\x10\x00\x00\x10\x01\x30\x00";

const LOCATION_ITEMS: &[Item] = &[
    Item::Base(0x2000),
    Item::Ends(0x1000, 0x2000),
    Item::Pair(1, 2),
    Item::Default,
    Item::Base(0x1000),
    Item::Start(0x1000, 16),
];

/// Whether the range list at the begin of its section becomes these items.
fn are_ranges(alloc: Global, unit: UnitRef<'_, Slice<'_>>, items: &[Item]) -> bool {
    let Ok(list) = range_list(alloc, unit, RangeListsOffset(0), &moved) else {
        return false;
    };
    range_list_of(alloc, items) == Ok(list)
}

/// Whether the location list at the begin of its section becomes these items.
fn are_locations(alloc: Global, unit: UnitRef<'_, Slice<'_>>, items: &[Item]) -> bool {
    let Ok(list) = location_list(alloc, unit, LocationListsOffset(0), &moved, &Evens) else {
        return false;
    };
    location_list_of(alloc, items, 0) == Ok(list)
}

/// Whether both lists become their items.
fn are_lists(alloc: Global) -> Option<[bool; 2]> {
    let mut texts = texts(FIVE, RANGES);
    texts.loclists = LOCATIONS;
    let dwarf = dwarf_of(&texts, Little);
    match first(alloc, &dwarf) {
        Ok(unit) => {
            let both = UnitRef {
                dwarf: &dwarf,
                unit: &unit,
            };
            let are_items = [
                are_ranges(alloc, both, RANGE_ITEMS),
                are_locations(alloc, both, LOCATION_ITEMS),
            ];
            drop(unit);
            Some(are_items)
        }
        Err(_) => None,
    }
}

#[test]
fn converts_lists_by_their_places(rt: HostRuntime) {
    assert_eq!(rt; are_lists(rt.alloc()), Some([true; 2]));
}
