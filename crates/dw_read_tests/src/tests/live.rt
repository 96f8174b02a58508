//! The entries that have a live address (DWARF 5, 2.17).

use crate::tests::named::are;
use crate::tests::sections::{Bytes, NONE, sections};
use dw_base::UnitSectionOffset;
use dw_entry_ranges::{LiveRange, required_entries};
use dw_read::{ReadError, ReadResult};
use std::alloc::Global;

/// Roots with a low address; functions with an address and a length, with a list, with doubled
/// addresses, and with an index; a label, and a variable with a location.
const ABBREV: &[u8] = &[
    0x01, 0x11, 0x01, 0x11, 0x01, 0, 0, 0x02, 0x2e, 0x00, 0x11, 0x01, 0x12, 0x0b, 0, 0, 0x03, 0x2e,
    0x00, 0x55, 0x17, 0, 0, 0x04, 0x0a, 0x00, 0x11, 0x01, 0, 0, 0x05, 0x34, 0x00, 0x02, 0x18, 0, 0,
    0x06, 0x2e, 0x00, 0x11, 0x01, 0x11, 0x01, 0x12, 0x0b, 0, 0, 0x07, 0x2e, 0x00, 0x11, 0x1b, 0, 0,
    0,
];

/// Two units, whose roots have the addresses 0x1000 and 0x9000. In the first stand, at 17, 0x1000
/// to 0x1010; at 23, no address from 0x1010; at 29, the list at 0; at 34, 0x2000 alone; at 39, the
/// location 0x3000; at 46, 0x4000 and then 0x5000, and 8. In the second, at 74, 0x6000 to 0x6001.
const INFO: &[u8] = &[
    0x35, 0, 0, 0, 0x05, 0, 0x01, 0x04, 0, 0, 0, 0, 0x01, 0, 0x10, 0, 0, 0x02, 0, 0x10, 0, 0, 0x10,
    0x02, 0x10, 0x10, 0, 0, 0x00, 0x03, 0, 0, 0, 0, 0x04, 0, 0x20, 0, 0, 0x05, 0x05, 0x03, 0, 0x30,
    0, 0, 0x06, 0, 0x40, 0, 0, 0, 0x50, 0, 0, 0x08, 0x00, 0x14, 0, 0, 0, 0x05, 0, 0x01, 0x04, 0, 0,
    0, 0, 0x01, 0, 0x90, 0, 0, 0x02, 0, 0x60, 0, 0, 0x01, 0x00,
];

/// An offset pair, 0x20 to 0x30 from the root's address.
const LISTS: &[u8] = &[0x04, 0x20, 0x30, 0x00];

/// A function whose index leads to no address.
const WITHOUT: &[u8] = &[
    0x10, 0, 0, 0, 0x05, 0, 0x01, 0x04, 0, 0, 0, 0, 0x01, 0, 0x10, 0, 0, 0x07, 0x00, 0x00,
];

/// Where live ranges begin and end, and the places of the entries that have an address of them.
type Row = (&'static [(u64, u64)], &'static [usize]);

const ROWS: &[Row] = &[
    (&[], &[]),
    // The first function alone, though the root has its address too.
    (&[(0x1000, 0x1010)], &[17]),
    (&[(0x100f, 0x1010)], &[17]),
    // Between two ranges, over one without an address.
    (&[(0x1010, 0x1020)], &[]),
    (&[(0x100f, 0x1021)], &[17, 29]),
    // The offsets of the list's pair, which aren't addresses.
    (&[(0x20, 0x30)], &[]),
    (&[(0x102f, 0x1030)], &[29]),
    // Around the address of the label, and that address.
    (&[(0x1fff, 0x2000), (0x2001, 0x3000)], &[]),
    (&[(0x2000, 0x2001)], &[34]),
    (&[(0x3000, 0x3001)], &[39]),
    // Of doubled addresses the last counts.
    (&[(0x4000, 0x4008)], &[]),
    (&[(0x5007, 0x6000)], &[46]),
    // Live ranges that overlap, repeat and lie in each other, in no order.
    (
        &[
            (0x5000, 0x5001),
            (0x1000, 0x5000),
            (0x1000, 0x1001),
            (0x1000, 0x1001),
            (0x1800, 0x1801),
        ],
        &[17, 29, 34, 39, 46],
    ),
    (&[(0x1010, u64::MAX)], &[29, 34, 39, 46, 74]),
    // Live ranges without an address.
    (&[(0x1008, 0x1008), (0x1008, 0x1000)], &[]),
];

/// They, of which no other proof sees more.
fn rows() -> &'static [Row] {
    ROWS
}

/// The places of the entries of units that have a live address.
fn found(alloc: Global, info: &[u8], live: &[(u64, u64)]) -> ReadResult<Vec<UnitSectionOffset>> {
    let mut ranges = Vec::new(alloc);
    for (begin, end) in live {
        ranges.push(LiveRange {
            begin: *begin,
            end: *end,
        })?;
    }
    let dwarf = sections(&Bytes {
        info,
        abbrev: ABBREV,
        lists: LISTS,
        ..NONE
    });
    required_entries(alloc, &dwarf, &ranges)
}

fn is_met(alloc: Global, row: &Row) -> bool {
    let (live, wanted) = *row;
    match found(alloc, INFO, live) {
        Ok(places) => are(&places, wanted),
        Err(_) => false,
    }
}

#[test]
fn finds_entries_with_a_live_address(rt: HostRuntime) {
    for row in rows() {
        assert!(rt; is_met(rt.alloc(), row), "{} live ranges", row.0.len());
    }
}

#[test]
fn tells_why_ranges_are_unknown(rt: HostRuntime) {
    let refused = matches!(
        found(rt.alloc(), WITHOUT, &[]),
        Err(ReadError::UnexpectedEof)
    );
    assert!(rt; refused, "an index without an address");
}
