//! `.debug_aranges` by the calls of the library: what no listing shows, since a listing has no such
//! section.

use dw_arange_table::{ArangeSet, ArangeTable, RangeDescriptor};
use dw_base::{DebugInfoOffset, Error, Format, Result, RunTimeEndian};
use dw_read::{EndianSlice, ReadError};
use dw_writer::EndianVec;
use std::alloc::Global;

/// A set: its format, the size of an address, the unit's place, and the address and the length of
/// each range.
type Set = (Format, u8, usize, &'static [(u64, u64)]);

/// A section, its byte order, and its sets or why it is refused.
type Case = (
    &'static [u8],
    RunTimeEndian,
    std::result::Result<&'static [Set], ReadError>,
);

const SHORT: Format = Format::Dwarf32;

const LONG: Format = Format::Dwarf64;

const LITTLE: RunTimeEndian = RunTimeEndian::Little;

const BIG: RunTimeEndian = RunTimeEndian::Big;

// What gcc 12 wrote for two files, as llvm-dwarfdump tells it.
const GCC: &[u8] = b"\x3c\0\0\0\x02\0\0\0\0\0\x08\0\0\0\0\0\
    \0\x10\x40\0\0\0\0\0\x04\0\0\0\0\0\0\0\x04\x10\x40\0\0\0\0\0\x04\0\0\0\0\0\0\0\
    \0\0\0\0\0\0\0\0\0\0\0\0\0\0\0\0\
    \x2c\0\0\0\x02\0\x86\0\0\0\x08\0\0\0\0\0\
    \x08\x10\x40\0\0\0\0\0\x0a\0\0\0\0\0\0\0\0\0\0\0\0\0\0\0\0\0\0\0\0\0\0\0";

// Sections that are written as they were read.
const WRITTEN: &[Case] = &[
    (b"", LITTLE, Ok(&[])),
    (
        GCC,
        LITTLE,
        Ok(&[
            (SHORT, 8, 0, &[(0x401000, 4), (0x401004, 4)]),
            (SHORT, 8, 0x86, &[(0x401008, 10)]),
        ]),
    ),
    // What llvm-dwarfutil 15 wrote for two files of which a function was dropped.
    (
        b"\x2c\0\0\0\x02\0\0\0\0\0\x08\0\0\0\0\0\
        \x29\x11\0\0\0\0\0\0\x04\0\0\0\0\0\0\0\0\0\0\0\0\0\0\0\0\0\0\0\0\0\0\0\
        \x2c\0\0\0\x02\0\x5e\0\0\0\x08\0\0\0\0\0\
        \x2d\x11\0\0\0\0\0\0\x14\0\0\0\0\0\0\0\0\0\0\0\0\0\0\0\0\0\0\0\0\0\0\0",
        LITTLE,
        Ok(&[
            (SHORT, 8, 0, &[(0x1129, 4)]),
            (SHORT, 8, 0x5e, &[(0x112d, 20)]),
        ]),
    ),
    (
        b"\xff\xff\xff\xff\0\0\0\0\0\0\0\x34\0\x02\x01\x02\x03\x04\x05\x06\x07\x08\x08\0\
        \0\0\0\0\0\0\0\0\xff\xff\xff\xff\xff\xff\xff\xff\0\0\0\0\0\0\0\x02\
        \0\0\0\0\0\0\0\0\0\0\0\0\0\0\0\0",
        BIG,
        Ok(&[(LONG, 8, 0x0102030405060708, &[(u64::MAX, 2)])]),
    ),
    (
        b"\xff\xff\xff\xff\x1c\0\0\0\0\0\0\0\x02\0\x09\0\0\0\0\0\0\0\x04\0\
        \0\0\0\0\x01\0\0\0\0\0\0\0\0\0\0\0",
        LITTLE,
        Ok(&[(LONG, 4, 9, &[(0, 1)])]),
    ),
    (
        b"\0\0\0\x1c\0\x02\0\0\0\x09\x04\0\0\0\0\0\x01\x02\x03\x04\0\0\0\x05\0\0\0\0\0\0\0\0",
        BIG,
        Ok(&[(SHORT, 4, 9, &[(0x01020304, 5)])]),
    ),
    (
        b"\x10\0\0\0\x02\0\0\0\0\0\x02\0\x34\x12\x02\x01\0\0\0\0",
        LITTLE,
        Ok(&[(SHORT, 2, 0, &[(0x1234, 0x0102)])]),
    ),
    (
        b"\x0a\0\0\0\x02\0\0\0\0\0\x01\0\0\0",
        LITTLE,
        Ok(&[(SHORT, 1, 0, &[])]),
    ),
];

// Sections that others wrote, and broken ones. Clang 14 fills up with ff. Behind two zeros nothing
// of a set is read; where less than a pair is left, its ranges end.
const READ: &[Case] = &[
    (
        b"\x3c\0\0\0\x02\0\0\0\0\0\x08\0\xff\xff\xff\xff\
        \0\x10\x40\0\0\0\0\0\x04\0\0\0\0\0\0\0\x10\x10\x40\0\0\0\0\0\x04\0\0\0\0\0\0\0\
        \0\0\0\0\0\0\0\0\0\0\0\0\0\0\0\0\
        \x2c\0\0\0\x02\0\x64\0\0\0\x08\0\xff\xff\xff\xff\
        \x20\x10\x40\0\0\0\0\0\x16\0\0\0\0\0\0\0\0\0\0\0\0\0\0\0\0\0\0\0\0\0\0\0",
        LITTLE,
        Ok(&[
            (SHORT, 8, 0, &[(0x401000, 4), (0x401010, 4)]),
            (SHORT, 8, 0x64, &[(0x401020, 22)]),
        ]),
    ),
    (
        b"\x10\0\0\0\x02\0\0\0\0\0\x01\0\x05\x06\0\0\x07\x08\0\0\
        \x0a\0\0\0\x02\0\x03\0\0\0\x01\0\x07\x08",
        LITTLE,
        Ok(&[(SHORT, 1, 0, &[(5, 6)]), (SHORT, 1, 3, &[(7, 8)])]),
    ),
    (
        b"\x0f\0\0\0\x02\0\0\0\0\0\x01\0\0\x06\x05\0\x07",
        LITTLE,
        Err(ReadError::UnexpectedEof),
    ),
    (
        b"\x0d\0\0\0\x02\0\0\0\0\0\x01\0\0\x06\x05\0\x07",
        LITTLE,
        Ok(&[(SHORT, 1, 0, &[(0, 6), (5, 0)])]),
    ),
    (
        b"\x0c\0\0\0\x02\0\0\0\0\0\x08\0\0\0\0\0",
        LITTLE,
        Ok(&[(SHORT, 8, 0, &[])]),
    ),
    (
        b"\x0b\0\0\0\x02\0\0\0\0\0\x08\0\0\0\0\0",
        LITTLE,
        Err(ReadError::UnexpectedEof),
    ),
    (
        b"\x03\0\0\0\x03\0\0",
        LITTLE,
        Err(ReadError::UnknownVersion(3)),
    ),
    (
        b"\0\0\0\x02\x02\0",
        BIG,
        Err(ReadError::UnknownVersion(0x200)),
    ),
    (b"\x01\0\0\0\x02\0", LITTLE, Err(ReadError::UnexpectedEof)),
    (
        b"\x05\0\0\0\x02\0\0\0\0\0\x08\0",
        LITTLE,
        Err(ReadError::UnexpectedEof),
    ),
    (
        b"\x07\0\0\0\x02\0\0\0\0\0\x08\0",
        LITTLE,
        Err(ReadError::UnexpectedEof),
    ),
    (
        b"\x08\0\0\0\x05\0\0\0\0\0\x03\x01",
        LITTLE,
        Err(ReadError::UnknownVersion(5)),
    ),
    (
        b"\x08\0\0\0\x02\0\0\0\0\0\x03\x01",
        LITTLE,
        Err(ReadError::UnsupportedAddressSize(3)),
    ),
    (
        b"\x08\0\0\0\x02\0\0\0\0\0\0\0",
        LITTLE,
        Err(ReadError::UnsupportedAddressSize(0)),
    ),
    (
        b"\x08\0\0\0\x02\0\0\0\0\0\x10\0",
        LITTLE,
        Err(ReadError::UnsupportedAddressSize(16)),
    ),
    (
        b"\x08\0\0\0\x02\0\0\0\0\0\x08\x04",
        LITTLE,
        Err(ReadError::UnsupportedSegmentSize(4)),
    ),
    (
        b"\xf0\xff\xff\xff\x02\0",
        LITTLE,
        Err(ReadError::UnknownReservedLength),
    ),
    (
        b"\xff\xff\xff\xfe\0\x02",
        BIG,
        Err(ReadError::UnknownReservedLength),
    ),
    (
        b"\xef\xff\xff\xff\x02\0",
        LITTLE,
        Err(ReadError::UnexpectedEof),
    ),
    (
        b"\xff\xff\xff\xff\xff\xff\xff\xff\xff\xff\xff\xff\x02\0",
        LITTLE,
        Err(ReadError::UnexpectedEof),
    ),
    (
        b"\x0a\0\0\0\x02\0\0\0\0\0\x01\0\0\0\x0a\0\0\0\x01\0\0\0\0\0\x01\0\0\0",
        LITTLE,
        Err(ReadError::UnknownVersion(1)),
    ),
];

fn written() -> &'static [Case] {
    WRITTEN
}

fn read() -> &'static [Case] {
    READ
}

/// Whether a set is this one.
fn is_set(found: &ArangeSet, (format, size, unit, ranges): &Set) -> bool {
    for (range, (address, length)) in found.ranges().iter().zip(*ranges) {
        if (range.address, range.length) != (*address, *length) {
            return false;
        }
    }
    found.ranges().len() == ranges.len()
        && (found.format(), found.address_size(), found.unit().0) == (*format, *size, *unit)
}

/// Whether sets are these.
fn are_sets(found: &[ArangeSet], sets: &[Set]) -> bool {
    for (found, set) in found.iter().zip(sets) {
        if !is_set(found, set) {
            return false;
        }
    }
    found.len() == sets.len()
}

/// Whether a section is read, or refused, as a case tells.
fn is_read(alloc: Global, (bytes, endian, wanted): &Case) -> bool {
    match (
        ArangeTable::read(alloc, EndianSlice::new(*bytes, *endian)),
        wanted,
    ) {
        (Ok(table), Ok(sets)) => are_sets(table.sets(), *sets),
        (Err(error), Err(reason)) => error == *reason,
        _ => false,
    }
}

/// A set that is built by hand.
fn set_of(alloc: Global, (format, size, unit, ranges): &Set) -> Result<ArangeSet> {
    let mut set = ArangeSet::new(alloc, *format, *size, DebugInfoOffset(*unit))?;
    for (address, length) in *ranges {
        set.add(RangeDescriptor {
            address: *address,
            length: *length,
        })?;
    }
    Ok(set)
}

/// A table that is built by hand.
fn table_of(alloc: Global, sets: &[Set]) -> Result<ArangeTable> {
    let mut table = ArangeTable::new(alloc);
    for set in sets {
        table.add(set_of(alloc, set)?)?;
    }
    Ok(table)
}

/// The bytes of sets that are built by hand.
fn bytes_of(alloc: Global, endian: RunTimeEndian, sets: &[Set]) -> Result<Vec<u8>> {
    let table = table_of(alloc, sets)?;
    let mut section = EndianVec::new(alloc, endian);
    table.write(&mut section)?;
    Ok(section.into_vec())
}

/// Whether the sets of a case are written as its section.
fn is_written(alloc: Global, (bytes, endian, wanted): &Case) -> bool {
    match wanted {
        Ok(sets) => bytes_of(alloc, *endian, *sets).map(|b| b.as_slice() == *bytes) == Ok(true),
        Err(_) => false,
    }
}

/// Whether what gcc wrote is read where it is cut between sets alone.
fn is_read_cut(alloc: Global, size: usize) -> bool {
    let section = EndianSlice::new(&GCC[..size.min(GCC.len())], LITTLE);
    match ArangeTable::read(alloc, section) {
        Ok(table) => (size, table.sets().len()) == (0, 0) || (size, table.sets().len()) == (64, 1),
        Err(error) => error == ReadError::UnexpectedEof && size != 0 && size != 64,
    }
}

#[test]
fn reads_and_writes_address_ranges(rt: HostRuntime) {
    for case in written() {
        assert!(rt; is_read(rt.alloc(), case), "of {:?}", case.0);
        assert!(rt; is_written(rt.alloc(), case), "of {:?}", case.0);
    }
    for case in read() {
        assert!(rt; is_read(rt.alloc(), case), "of {:?}", case.0);
    }
    for size in 0..112 {
        assert!(rt; is_read_cut(rt.alloc(), size), "at {size}");
    }
}

/// Sets that can't be built or written, and why.
const REFUSED: &[(Set, Error)] = &[
    ((SHORT, 3, 0, &[]), Error::UnsupportedWordSize(3)),
    ((SHORT, 4, 0, &[(1 << 32, 1)]), Error::ValueTooLarge),
    ((LONG, 1, 0, &[(1, 1 << 8)]), Error::ValueTooLarge),
    ((SHORT, 8, 1 << 32, &[]), Error::ValueTooLarge),
];

fn refused() -> &'static [(Set, Error)] {
    REFUSED
}

/// Sets of two units, of which one has two.
const SHARED: &[Set] = &[
    (SHORT, 8, 7, &[(0x10, 0x10), (0x18, 0)]),
    (SHORT, 4, 0, &[(0x18, 0x10)]),
    (SHORT, 8, 7, &[(0x18, 1)]),
];

fn shared() -> &'static [Set] {
    SHARED
}

/// How many units have an address, and the last of them.
fn found(alloc: Global, address: u64) -> Option<(usize, usize)> {
    let table = table_of(alloc, shared()).ok()?;
    let units = table.find(address).ok()?;
    let last = units.as_slice().last()?.0;
    Some((units.len(), last))
}

#[test]
fn builds_address_ranges(rt: HostRuntime) {
    for (set, error) in refused() {
        assert_eq!(rt; bytes_of(rt.alloc(), LITTLE, &[*set]).err(), Some(*error));
    }
    for (address, units) in [(0x10, (1, 7)), (0x18, (2, 0)), (0x27, (1, 0))] {
        assert_eq!(rt; found(rt.alloc(), address), Some(units));
    }
    assert_eq!(rt; found(rt.alloc(), 0x28), None);
}
