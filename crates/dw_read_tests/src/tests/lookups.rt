//! What operands of entries lead to, by the bases of their unit (DWARF 5, 7.26 to 7.29).

use crate::tests::lookups::File::{Cut, CutTwice, Far, Whole};
use crate::tests::lookups::Sought::{
    Address, LineString, Locations, Ranges, Rows, String, StringOffset,
};
use crate::tests::sections::{Bytes, Slice, sections};
use crate::tests::told::number_of;
use crate::tests::units::first;
use dw_base::{DebugLineStrOffset, DebugStrOffset, RunTimeEndian, UnitOffset};
use dw_read::{ReadError, ReadResult, Reader};
use dw_read_units::UnitRef;
use std::alloc::Global;

/// What is looked for, at an index or an offset.
#[derive(Clone, Copy)]
enum Sought {
    StringOffset,
    Address,
    Ranges,
    Locations,
    String,
    LineString,
    /// The rows of the unit from an offset on: how many bytes of them there are is 0 or above.
    Rows,
}

/// The number that is found, of a text one whose first byte is the highest.
fn found(alloc: Global, both: UnitRef<'_, Slice<'_>>, sought: Sought, at: u64) -> ReadResult<u128> {
    match sought {
        Sought::StringOffset => string_offset(both, at),
        Sought::Address => address(both, at),
        Sought::Ranges => ranges_offset(both, at),
        Sought::Locations => locations_offset(both, at),
        Sought::String => string(both, at as usize),
        Sought::LineString => line_string(both, at as usize),
        Sought::Rows => rows(alloc, both, at as usize),
    }
}

fn string_offset(both: UnitRef<'_, Slice<'_>>, at: u64) -> ReadResult<u128> {
    Ok(both.string_offset(at)?.0 as u128)
}

fn address(both: UnitRef<'_, Slice<'_>>, at: u64) -> ReadResult<u128> {
    Ok(both.address(at)? as u128)
}

fn ranges_offset(both: UnitRef<'_, Slice<'_>>, at: u64) -> ReadResult<u128> {
    Ok(both.ranges_offset(at)?.0 as u128)
}

fn locations_offset(both: UnitRef<'_, Slice<'_>>, at: u64) -> ReadResult<u128> {
    Ok(both.locations_offset(at)?.0 as u128)
}

/// The number of a text that stands at its offset, in the order of its section; else the highest.
fn number_at(text: &Slice<'_>, at: usize) -> u128 {
    if text.place() == at && text.endian() == RunTimeEndian::Little {
        number_of(text.to_slice())
    } else {
        u128::MAX
    }
}

fn string(both: UnitRef<'_, Slice<'_>>, at: usize) -> ReadResult<u128> {
    Ok(number_at(&both.string(DebugStrOffset(at))?, at))
}

fn line_string(both: UnitRef<'_, Slice<'_>>, at: usize) -> ReadResult<u128> {
    Ok(number_at(&both.line_string(DebugLineStrOffset(at))?, at))
}

fn rows(alloc: Global, both: UnitRef<'_, Slice<'_>>, at: usize) -> ReadResult<u128> {
    match both.entries_raw(alloc, Some(UnitOffset(at))) {
        Ok(rows) => Ok(if rows.is_empty() { 0 } else { 1 }),
        Err(reason) => Err(reason),
    }
}

/// What the first unit leads to.
fn looked_up(alloc: Global, bytes: &Bytes<'_>, sought: Sought, at: u64) -> ReadResult<u128> {
    let dwarf = sections(bytes);
    match first(alloc, &dwarf) {
        Ok(unit) => {
            let both = UnitRef {
                dwarf: &dwarf,
                unit: &unit,
            };
            found(alloc, both, sought, at)
        }
        Err(reason) => Err(reason),
    }
}

const OFFSETS: &[u8] = b"\x0c\x00\x00\x00\x05\x00\x00\x00\
    \x00\x00\x00\x00\x02\x00\x00\x00";

const ADDRESSES: &[u8] = b"\x14\x00\x00\x00\x05\x00\x08\x00\
    \x10\x00\x00\x00\x00\x00\x00\x00\x20\x00\x00\x00\x00\x00\x00\x00";

const LISTS: &[u8] = b"............\x08\x00\x00\x00\x0a\x00\x00\x00";

// Version 5: a root with the four bases.
const INFO: &[u8] = b"\x1a\x00\x00\x00\x05\x00\x01\x08\x00\x00\x00\x00\
    \x01\x08\x00\x00\x00\x08\x00\x00\x00\x0c\x00\x00\x00\x0c\x00\x00\x00\x00";

const ABBREV: &[u8] = b"\x01\x11\x01\x72\x17\x73\x17\x74\x17\x8c\x01\x17\x00\x00\x00";

const WHOLE: Bytes<'static> = Bytes {
    endian: RunTimeEndian::Little,
    info: INFO,
    abbrev: ABBREV,
    strings: b"a\x00bc\x00",
    line_strings: b"de\x00f",
    offsets: OFFSETS,
    addresses: ADDRESSES,
    lists: LISTS,
    old_lists: b"",
    line: b"",
};

// The second word of each table is cut.
const CUT: Bytes<'static> = Bytes {
    endian: RunTimeEndian::Little,
    info: INFO,
    abbrev: ABBREV,
    strings: b"a\x00bc\x00",
    line_strings: b"de\x00f",
    offsets: b"\x0c\x00\x00\x00\x05\x00\x00\x00\x00\x00\x00\x00\x02\x00\x00",
    addresses: b"\x14\x00\x00\x00\x05\x00\x08\x00\
        \x10\x00\x00\x00\x00\x00\x00\x00\x20\x00\x00\x00\x00\x00\x00",
    lists: b"............\x08\x00\x00\x00\x0a\x00\x00",
    old_lists: b"",
    line: b"",
};

// The first word of each table is cut.
const CUT_TWICE: Bytes<'static> = Bytes {
    endian: RunTimeEndian::Little,
    info: INFO,
    abbrev: ABBREV,
    strings: b"a\x00bc\x00",
    line_strings: b"de\x00f",
    offsets: b"\x0c\x00\x00\x00\x05\x00\x00\x00\x00\x00\x00",
    addresses: b"\x14\x00\x00\x00\x05\x00\x08\x00\x10\x00\x00\x00\x00\x00\x00",
    lists: b"............\x08\x00\x00",
    old_lists: b"",
    line: b"",
};

// A split unit of the 64-bit format, whose first list lies 2^64 - 1 bytes behind the base.
const FAR: Bytes<'static> = Bytes {
    endian: RunTimeEndian::Little,
    info: b"\xff\xff\xff\xff\x15\x00\x00\x00\x00\x00\x00\x00\
        \x05\x00\x05\x08\x00\x00\x00\x00\x00\x00\x00\x00\
        \x07\x00\x00\x00\x00\x00\x00\x00\x01",
    abbrev: b"\x01\x11\x00\x00\x00\x00",
    strings: b"",
    line_strings: b"",
    offsets: b"",
    addresses: b"",
    lists: b"....................\xff\xff\xff\xff\xff\xff\xff\xff",
    old_lists: b"",
    line: b"",
};

/// The sections in which is looked up.
#[derive(Clone, Copy)]
enum File {
    Whole,
    Cut,
    CutTwice,
    Far,
}

fn bytes_of(file: File) -> Bytes<'static> {
    match file {
        File::Whole => WHOLE,
        File::Cut => CUT,
        File::CutTwice => CUT_TWICE,
        File::Far => FAR,
    }
}

const PAST: ReadResult<u128> = Err(ReadError::UnexpectedEof);

type Case = (File, Sought, u64, ReadResult<u128>);

// Indices.
const INDEXED: &[Case] = &[
    (Whole, StringOffset, 0, Ok(0)),
    (Whole, StringOffset, 1, Ok(2)),
    (Whole, StringOffset, 2, PAST),
    (Whole, Address, 0, Ok(0x10)),
    (Whole, Address, 1, Ok(0x20)),
    (Whole, Address, 2, PAST),
    (Whole, Ranges, 0, Ok(20)),
    (Whole, Ranges, 1, Ok(22)),
    (Whole, Ranges, 2, PAST),
    (Whole, Locations, 0, Ok(20)),
    (Whole, Locations, 1, Ok(22)),
    (Whole, Locations, 2, PAST),
    (Cut, StringOffset, 0, Ok(0)),
    (Cut, StringOffset, 1, PAST),
    (Cut, Address, 0, Ok(0x10)),
    (Cut, Address, 1, PAST),
    (Cut, Ranges, 0, Ok(20)),
    (Cut, Ranges, 1, PAST),
    (Cut, Locations, 0, Ok(20)),
    (Cut, Locations, 1, PAST),
    (CutTwice, StringOffset, 0, PAST),
    (CutTwice, Address, 0, PAST),
    (CutTwice, Ranges, 0, PAST),
    (CutTwice, Locations, 0, PAST),
    (Far, Ranges, 0, Err(ReadError::OffsetOutOfBounds(u64::MAX))),
    (
        Far,
        Locations,
        0,
        Err(ReadError::OffsetOutOfBounds(u64::MAX)),
    ),
    (Far, Ranges, 1, PAST),
];

// Places of indices that pass 64 bits don't come round to the first ones.
const HUGE: &[Case] = &[
    (Whole, StringOffset, 1 << 62, PAST),
    (Whole, StringOffset, 1 << 63, PAST),
    (Whole, StringOffset, u64::MAX, PAST),
    (Whole, Address, 1 << 61, PAST),
    (Whole, Address, 1 << 63, PAST),
    (Whole, Address, u64::MAX, PAST),
    (Whole, Ranges, 1 << 62, PAST),
    (Whole, Ranges, 1 << 63, PAST),
    (Whole, Ranges, u64::MAX, PAST),
    (Whole, Locations, 1 << 62, PAST),
    (Whole, Locations, 1 << 63, PAST),
    (Whole, Locations, u64::MAX, PAST),
];

// Offsets. The rows of the unit go from 12 to 30.
const PLACED: &[Case] = &[
    (Whole, String, 0, Ok(0x61)),
    (Whole, String, 2, Ok(0x6263)),
    (Whole, String, 4, Ok(0)),
    (Whole, String, 5, PAST),
    (Whole, String, 6, PAST),
    (Whole, String, u64::MAX, PAST),
    (Whole, LineString, 0, Ok(0x6465)),
    (Whole, LineString, 3, PAST),
    (Whole, Rows, 12, Ok(1)),
    (Whole, Rows, 29, Ok(1)),
    (Whole, Rows, 30, Ok(0)),
    (Whole, Rows, 0, Err(ReadError::OffsetOutOfBounds(0))),
    (Whole, Rows, 11, Err(ReadError::OffsetOutOfBounds(11))),
    (Whole, Rows, 31, Err(ReadError::OffsetOutOfBounds(31))),
    (
        Whole,
        Rows,
        u64::MAX,
        Err(ReadError::OffsetOutOfBounds(u64::MAX)),
    ),
];

fn cases() -> [&'static [Case]; 3] {
    [INDEXED, HUGE, PLACED]
}

/// The first row of a table that leads elsewhere.
fn first_missed(alloc: Global, table: &[Case]) -> Option<usize> {
    for (row, (file, sought, at, wanted)) in table.iter().enumerate() {
        if looked_up(alloc, &bytes_of(*file), *sought, *at) != *wanted {
            return Some(row);
        }
    }
    None
}

#[test]
fn finds_what_operands_lead_to(rt: HostRuntime) {
    for (number, table) in cases().iter().enumerate() {
        assert_eq!(rt; first_missed(rt.alloc(), table), None, "of table {number}");
    }
}
