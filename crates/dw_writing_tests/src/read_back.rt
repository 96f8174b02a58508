//! Whole lists of units are read. The bytes are taken from the layouts of the standards (DWARF 4,
//! 2.6.2 and 2.17.3; DWARF 5, 7.7.3 and 7.25).

use dw_base::{LittleEndian, LocationListsOffset, RangeListsOffset};
use dw_read::{EndianSlice, ReadError, ReadResult};
use dw_read_back::{all_locations, all_ranges};
use dw_read_units::{Dwarf, Unit, UnitRef};
use dw_sources::RawRngListEntry;
use std::alloc::Global;

type Little<'a> = EndianSlice<'a, LittleEndian>;

fn section(bytes: &[u8]) -> Little<'_> {
    EndianSlice::new(bytes, LittleEndian)
}

// A root alone, in versions 5 and 4, with addresses of 4 bytes.
const FIVE: &[u8] = b"\x09\x00\x00\x00\x05\x00\x01\x04\x00\x00\x00\x00\x01";

const FOUR: &[u8] = b"\x08\x00\x00\x00\x04\x00\x00\x00\x00\x00\x04\x01";

/// A base, a pair and the close, behind a byte of none.
const RANGES: &[u8] = b".\xff\xff\xff\xff\x00\x10\x00\x00\x01\x00\x00\x00\x02\x00\x00\x00\
    \x00\x00\x00\x00\x00\x00\x00\x00";

/// A list in each section of lists, behind a byte of none.
fn sections(info: &[u8]) -> Dwarf<Little<'_>> {
    Dwarf {
        debug_abbrev: section(b"\x01\x11\x00\x00\x00\x00"),
        debug_str: section(b""),
        debug_line_str: section(b""),
        debug_line: section(b""),
        debug_ranges: section(RANGES),
        debug_rnglists: section(b".\x04\x01\x02\x07\x00\x10\x00\x00\x20\x00"),
        debug_loc: section(
            b".\x01\x00\x00\x00\x02\x00\x00\x00\x01\x00\x96\x00\x00\x00\x00\x00\x00\x00\x00",
        ),
        debug_loclists: section(b".\x06\x00\x10\x00\x00\x05\x01\x96\x00"),
        debug_info: section(info),
        debug_addr: section(b""),
        debug_str_offsets: section(b""),
    }
}

fn first<'a>(alloc: Global, dwarf: &Dwarf<Little<'a>>) -> ReadResult<Unit<Little<'a>>> {
    let Some(header) = dwarf.units().next()? else {
        return Err(ReadError::UnexpectedEof);
    };
    dwarf.unit(alloc, header)
}

/// A unit, the items of its range list, and how many its location list has.
type Row = (&'static [u8], [RawRngListEntry; 2], usize);

const ROWS: &[Row] = &[
    (
        FIVE,
        [
            RawRngListEntry::OffsetPair { begin: 1, end: 2 },
            RawRngListEntry::StartLength {
                begin: 0x1000,
                length: 0x20,
            },
        ],
        2,
    ),
    (
        FOUR,
        [
            RawRngListEntry::BaseAddress { addr: 0x1000 },
            RawRngListEntry::AddressOrOffsetPair { begin: 1, end: 2 },
        ],
        1,
    ),
];

/// The table, which no proof but this function's looks into.
fn rows() -> &'static [Row] {
    ROWS
}

/// Whether a unit has these ranges.
fn has_ranges(
    alloc: Global,
    unit: UnitRef<'_, Little<'_>>,
    wanted: &[RawRngListEntry],
) -> ReadResult<bool> {
    let ranges = all_ranges(alloc, unit, RangeListsOffset(1))?;
    Ok(ranges.as_slice() == wanted)
}

/// How many locations stand at a place.
fn locations_at(alloc: Global, unit: UnitRef<'_, Little<'_>>, offset: usize) -> ReadResult<usize> {
    Ok(all_locations(alloc, unit, LocationListsOffset(offset))?.len())
}

/// Whether a row's lists are read, and what is answered past all sections.
fn read_row(alloc: Global, row: &Row) -> ReadResult<(ReadResult<bool>, [ReadResult<usize>; 2])> {
    let dwarf = sections(row.0);
    let unit = first(alloc, &dwarf)?;
    let both = UnitRef {
        dwarf: &dwarf,
        unit: &unit,
    };
    let locations = [locations_at(alloc, both, 1), locations_at(alloc, both, 99)];
    Ok((has_ranges(alloc, both, &row.1), locations))
}

#[test]
fn reads_whole_lists(rt: HostRuntime) {
    for (i, row) in rows().iter().enumerate() {
        let locations = [Ok(row.2), Err(ReadError::UnexpectedEof)];
        let read = read_row(rt.alloc(), row);
        assert!(rt; read == Ok((Ok(true), locations)), "at {i}");
    }
}
