//! Bytes that are refused, by their cause, at each cut, and with bits turned.

use crate::tests::frames::DEBUG_FRAME;
use crate::tests::input::Input::{
    DebugFrame, Declarations, Directories, EhFrame, Entries, Headers, Lines, Locations, Operations,
    Ranges, Tables,
};
use crate::tests::input::{Input, ending};
use crate::tests::joined::turned;
use crate::tests::lines::TWO;
use crate::tests::lists::{LOCATIONS, OLD_LOCATIONS, PAIRS, RANGES};
use crate::tests::sections::{encoding, narrow};
use dw_base::constants::{DW_FORM_implicit_const, DW_FORM_indirect, DW_OP_WASM_location};
use dw_base::{DwEhPe, DwForm, DwOp};
use dw_read::{ReadError, ReadResult};
use std::alloc::Global;

/// What bytes are read as, in which version, and how that ends.
type Case = (Input, u16, &'static [u8], ReadResult<bool>);

const CUT: ReadResult<bool> = Err(ReadError::UnexpectedEof);

const LARGE: ReadResult<bool> = Err(ReadError::BadLeb128);

const WHOLE: ReadResult<bool> = Ok(true);

/// A root that has a name by an indirect form.
const INDIRECT: &[u8] = b"\x01\x11\x00\x25\x16\x00\x00\x00";

/// A root with children, a subprogram that tells its sibling, and a variable.
const NESTED: &[u8] = b"\x01\x11\x01\x00\x00\x02\x2e\x01\x01\x13\x00\x00\x03\x34\x00\x00\x00\x00";

const ENTRIES: &[u8] = b"\x11\x00\x00\x00\x05\x00\x01\x08\x00\x00\x00\x00\
    \x01\x02\x14\x00\x00\x00\x03\x00\x00";

const OF_TABLES: &[Case] = &[
    (
        Declarations,
        5,
        b"\x01\x11\x00\x00\x00\x01\x11\x00\x00\x00\x00",
        Err(ReadError::DuplicateAbbreviationCode(1)),
    ),
    (
        Declarations,
        5,
        b"\x01\x00\x00\x00\x00\x00",
        Err(ReadError::AbbreviationTagZero),
    ),
    (
        Declarations,
        5,
        b"\x01\x11\x02\x00\x00\x00",
        Err(ReadError::BadHasChildren(2)),
    ),
    (
        Declarations,
        5,
        b"\x01\x11\x00\x00\x03\x00\x00\x00",
        Err(ReadError::AttributeNameZero),
    ),
    (Declarations, 5, b"\x01\x80\x80\x04\x00\x00\x00\x00", LARGE),
    // A code of 2^60, and a cut behind another.
    (
        Declarations,
        5,
        b"\x80\x80\x80\x80\x80\x80\x80\x80\x10\x11\x00\x00\x00\
        \xff\xff\xff\xff\xff\xff\xff\xff\xff\x01\x12\x00\x00\x00",
        CUT,
    ),
];

const OF_UNITS: &[Case] = &[
    // The header alone is read; the root's code isn't in the table.
    (
        Headers,
        5,
        b"\x09\x00\x00\x00\x05\x00\x01\x08\x00\x00\x00\x00\x07",
        WHOLE,
    ),
    (
        Entries(b"\x01\x11\x00\x00\x00\x00"),
        5,
        b"\x09\x00\x00\x00\x05\x00\x01\x08\x00\x00\x00\x00\x07",
        Err(ReadError::UnknownAbbreviation(7)),
    ),
    (
        Entries(NESTED),
        5,
        b"\x0a\x00\x00\x00\x05\x00\x01\x08\x00\x00\x00\x00\xfe\x02",
        Err(ReadError::UnknownAbbreviation(0x7e + 0x80 * 0x02)),
    ),
    // Units that end in a row, which can't be read, and lists that nothing closes, which can.
    (
        Entries(NESTED),
        5,
        b"\x08\x00\x00\x00\x05\x00\x01\x08\x00\x00\x00\x00",
        CUT,
    ),
    (
        Entries(NESTED),
        5,
        b"\x09\x00\x00\x00\x05\x00\x01\x08\x00\x00\x00\x00\x01",
        WHOLE,
    ),
    (
        Entries(NESTED),
        5,
        b"\x0a\x00\x00\x00\x05\x00\x01\x08\x00\x00\x00\x00\x01\x02",
        CUT,
    ),
    (
        Entries(NESTED),
        5,
        b"\x0d\x00\x00\x00\x05\x00\x01\x08\x00\x00\x00\x00\x01\x02\x14\x00\x00",
        CUT,
    ),
    (
        Entries(NESTED),
        5,
        b"\x0e\x00\x00\x00\x05\x00\x01\x08\x00\x00\x00\x00\x01\x02\x14\x00\x00\x00",
        WHOLE,
    ),
    (
        Entries(NESTED),
        5,
        b"\x0f\x00\x00\x00\x05\x00\x01\x08\x00\x00\x00\x00\x01\x02\x14\x00\x00\x00\x03",
        WHOLE,
    ),
    // Forms that indirect can't lead to, and one that there isn't.
    (
        Entries(INDIRECT),
        5,
        b"\x0b\x00\x00\x00\x05\x00\x01\x08\x00\x00\x00\x00\x01\x16\x0b",
        Err(ReadError::UnknownForm(DW_FORM_indirect)),
    ),
    (
        Entries(INDIRECT),
        5,
        b"\x0b\x00\x00\x00\x05\x00\x01\x08\x00\x00\x00\x00\x01\x21\x0b",
        Err(ReadError::UnknownForm(DW_FORM_implicit_const)),
    ),
    (
        Entries(INDIRECT),
        5,
        b"\x0b\x00\x00\x00\x05\x00\x01\x08\x00\x00\x00\x00\x01\x02\x0b",
        Err(ReadError::UnknownForm(DwForm(2))),
    ),
    (Entries(NESTED), 4, b"\x0d\x00\x00\x00\x04\x00", CUT),
    (
        Entries(NESTED),
        4,
        b"\x08\x00\x00\x00\x04\x00\x00\x00\x00\x00\x08\x00",
        Err(ReadError::MissingUnitDie),
    ),
    (
        Entries(NESTED),
        4,
        b"\x09\x00\x00\x00\x04\x00\x00\x00\x00\x00\x08\x01\x07",
        Err(ReadError::UnknownAbbreviation(7)),
    ),
    (
        Entries(NESTED),
        4,
        b"\x08\x00\x00\x00\x04\x00\x00\x00\x00\x00\x08\x01\
        \x07\x00\x00\x00\x06\x00\x00\x00\x00\x00\x08",
        Err(ReadError::UnknownVersion(6)),
    ),
];

const OF_FRAMES: &[Case] = &[
    (
        DebugFrame,
        5,
        b"\xf0\xff\xff\xff",
        Err(ReadError::UnknownReservedLength),
    ),
    (
        DebugFrame,
        5,
        b"\x06\x00\x00\x00\xff\xff\xff\xff\x02\x00",
        Err(ReadError::UnknownVersion(2)),
    ),
    (
        DebugFrame,
        5,
        b"\x0a\x00\x00\x00\xff\xff\xff\xff\x01x\x00\x01\x7c\x08",
        Err(ReadError::UnknownAugmentation),
    ),
    (
        DebugFrame,
        5,
        b"\x0c\x00\x00\x00\xff\xff\xff\xff\x01zB\x00\x01\x7c\x08\x00",
        Err(ReadError::UnknownAugmentation),
    ),
    (
        DebugFrame,
        5,
        b"\x08\x00\x00\x00\xff\xff\xff\xff\x04\x00\x03\x00",
        Err(ReadError::UnsupportedAddressSize(3)),
    ),
    (
        DebugFrame,
        5,
        b"\x08\x00\x00\x00\xff\xff\xff\xff\x04\x00\x04\x01",
        Err(ReadError::UnsupportedSegmentSize(1)),
    ),
    (
        DebugFrame,
        5,
        b"\x0b\x00\x00\x00\xff\xff\xff\xff\x03\x00\x01\x7c\x80\x80\x04",
        LARGE,
    ),
    (
        EhFrame,
        5,
        b"\x04\x00\x00\x00\x05\x00\x00\x00",
        Err(ReadError::InvalidCiePointer(5)),
    ),
    (
        EhFrame,
        5,
        b"\x11\x00\x00\x00\x00\x00\x00\x00\x01zP\x00\x01\x7c\x08\x05\x20\x00\x00\x00\x00",
        Err(ReadError::UnknownPointerEncoding(DwEhPe(0x20))),
    ),
];

const OF_LINES: &[Case] = &[
    (
        Lines,
        5,
        b"\xf0\xff\xff\xff",
        Err(ReadError::UnknownReservedLength),
    ),
    (
        Lines,
        5,
        b"\x02\x00\x00\x00\x06\x00",
        Err(ReadError::UnknownVersion(6)),
    ),
    (
        Lines,
        5,
        b"\x04\x00\x00\x00\x05\x00\x03\x00",
        Err(ReadError::UnsupportedAddressSize(3)),
    ),
    (
        Lines,
        5,
        b"\x04\x00\x00\x00\x05\x00\x08\x02",
        Err(ReadError::UnsupportedSegmentSize(2)),
    ),
    // A directory of a form that there isn't.
    (
        Directories,
        5,
        b"\x1e\x00\x00\x00\x05\x00\x08\x00\x16\x00\x00\x00\
        \x01\x01\x01\xfb\x0e\x0d\x00\x01\x01\x01\x01\x00\x00\x00\x01\x00\x00\x01\
        \x01\x01\x7f\x01",
        Err(ReadError::UnknownForm(DwForm(0x7f))),
    ),
];

const OF_LISTS: &[Case] = &[
    (
        Ranges,
        5,
        b"\x08\x00\x00\x00\x00\x00",
        Err(ReadError::UnknownRangeListsEntry(8)),
    ),
    (
        Locations,
        5,
        b"\x09\x00\x00\x00\x00\x00",
        Err(ReadError::UnknownLocListsEntry(9)),
    ),
    (
        Ranges,
        5,
        b"\x01\xff\xff\xff\xff\xff\xff\xff\xff\xff\x02\x00",
        LARGE,
    ),
];

// Numbers of registers, of parts of other machines, of constants and of pieces.
const OF_OPERATIONS: &[Case] = &[
    (
        Operations,
        5,
        b"\xed\x04\x05",
        Err(ReadError::InvalidExpression(DW_OP_WASM_location)),
    ),
    (
        Operations,
        5,
        b"\x96\x07\x96",
        Err(ReadError::InvalidExpression(DwOp(7))),
    ),
    (Operations, 5, b"\x90\x80\x80\x04", LARGE),
    (Operations, 5, b"\x90\xff\xff\x03", WHOLE),
    (Operations, 5, b"\xed\x00\x80\x80\x80\x80\x10", LARGE),
    (Operations, 5, b"\xed\x00\xff\xff\xff\xff\x0f", WHOLE),
    (
        Operations,
        5,
        b"\x10\xff\xff\xff\xff\xff\xff\xff\xff\xff\x02",
        LARGE,
    ),
    (
        Operations,
        5,
        b"\x93\x80\x80\x80\x80\x80\x80\x80\x80\x20",
        Err(ReadError::InvalidPiece),
    ),
    (
        Operations,
        5,
        b"\x93\xff\xff\xff\xff\xff\xff\xff\xff\x1f",
        WHOLE,
    ),
];

fn cases() -> [&'static [Case]; 6] {
    [
        OF_TABLES,
        OF_UNITS,
        OF_FRAMES,
        OF_LINES,
        OF_LISTS,
        OF_OPERATIONS,
    ]
}

// The codes that are no operation's.
const UNKNOWN: &[u8] = b"\x00\x01\x02\x04\x05\x07\xaa\xdf\xe1\xec\xee\xef\xf1\xf8\xfb\xfc\xfe\xff";

/// The first case of a table that ends otherwise.
fn first_ending_otherwise(alloc: Global, table: &[Case]) -> Option<usize> {
    for (row, (input, version, bytes, wanted)) in table.iter().enumerate() {
        if ending(alloc, *input, narrow(*version), bytes) != *wanted {
            return Some(row);
        }
    }
    None
}

#[test]
fn refuses_by_the_cause(rt: HostRuntime) {
    for (number, table) in cases().iter().enumerate() {
        let row = first_ending_otherwise(rt.alloc(), table);
        assert_eq!(rt; row, None, "of table {number}");
    }
}

/// Whether an operation of this code is refused.
fn is_unknown(alloc: Global, code: u8) -> bool {
    let wanted = Err(ReadError::InvalidExpression(DwOp(code)));
    ending(alloc, Operations, narrow(5), &[code, 0, 0, 0, 0]) == wanted
}

#[test]
fn refuses_unknown_operations(rt: HostRuntime) {
    for code in UNKNOWN {
        assert!(rt; is_unknown(rt.alloc(), *code), "the code {code:#x}");
    }
}

const ODD: ReadResult<bool> = Err(ReadError::UnsupportedAddressSize(3));

// Where addresses have 3 bytes. Version 2 has places in `.debug_info` as wide as an address.
const OF_THREE: &[Case] = &[
    (Ranges, 4, PAIRS, ODD),
    (Ranges, 5, b"\x05\x00\x00\x00\x00", ODD),
    (Operations, 2, b"\x03\x00\x00\x00", ODD),
    (Operations, 2, b"\xf2\x00\x00\x00\x00", ODD),
    (Operations, 5, b"\xa0\x00\x00\x00\x00\x00", WHOLE),
];

fn of_three() -> &'static [Case] {
    OF_THREE
}

/// Whether bytes end so where addresses have 3 bytes.
fn is_ended(alloc: Global, case: &Case) -> bool {
    let (input, version, bytes, wanted) = *case;
    ending(alloc, input, encoding(version, 3), bytes) == wanted
}

#[test]
fn refuses_addresses_of_three_bytes(rt: HostRuntime) {
    for (row, case) in of_three().iter().enumerate() {
        assert!(rt; is_ended(rt.alloc(), case), "{row}");
    }
}

/// What bytes are read as, in which versions, the bytes, and the sizes at which a cut is whole.
type Whole = (Input, u16, u16, &'static [u8], &'static [usize]);

// Sections, tables and lists. Behind the first entry of `.debug_frame` nothing is cut; a byte
// stands behind the close of the newer lists.
const SECTIONS: &[Whole] = &[
    (
        Headers,
        5,
        5,
        b"\x09\x00\x00\x00\x05\x00\x01\x08\x00\x00\x00\x00\x07",
        &[0],
    ),
    (
        Declarations,
        5,
        5,
        b"\x01\x11\x01\x03\x08\x0b\x21\x7f\x00\x00\x80\x01\x11\x00\x00\x00\x00",
        &[],
    ),
    (Entries(NESTED), 5, 5, ENTRIES, &[0]),
    (Tables(ENTRIES), 5, 5, NESTED, &[]),
    (DebugFrame, 5, 5, DEBUG_FRAME, &[0, 20]),
    (Lines, 5, 5, TWO, &[]),
    (Ranges, 5, 5, RANGES, &[33]),
    (Ranges, 2, 4, PAIRS, &[]),
    (Locations, 5, 5, LOCATIONS, &[46]),
    (Locations, 2, 4, OLD_LOCATIONS, &[]),
];

// One operation of each layout of operands.
const LAYOUTS: &[Whole] = &[
    (Operations, 2, 5, b"\x03\x78\x56\x34\x12", &[0]),
    (Operations, 2, 5, b"\x08\x01", &[0]),
    (Operations, 2, 5, b"\x0b\x01\x02", &[0]),
    (Operations, 2, 5, b"\x0d\x01\x02\x03\x04", &[0]),
    (
        Operations,
        2,
        5,
        b"\x0e\x01\x02\x03\x04\x05\x06\x07\x08",
        &[0],
    ),
    (Operations, 2, 5, b"\x10\x80\x81\x01", &[0]),
    (Operations, 2, 5, b"\x11\x80\x81\x40", &[0]),
    (Operations, 2, 5, b"\x15\x02", &[0]),
    (Operations, 2, 5, b"\x28\x01\x00", &[0]),
    (Operations, 2, 5, b"\x75\x80\x7f", &[0]),
    (Operations, 2, 5, b"\x90\x80\x01", &[0]),
    (Operations, 2, 5, b"\x92\x80\x01\x80\x7f", &[0]),
    (Operations, 2, 5, b"\x93\x80\x01", &[0]),
    (Operations, 2, 5, b"\x98\x01\x02", &[0]),
    (Operations, 2, 5, b"\x99\x01\x02\x03\x04", &[0]),
    (Operations, 2, 5, b"\x9a\x01\x02\x03\x04", &[0]),
    (Operations, 2, 5, b"\x9d\x80\x01\x80\x02", &[0]),
    (Operations, 2, 5, b"\x9e\x02\x01\x02", &[0]),
    (Operations, 2, 5, b"\xa0\x01\x02\x03\x04\x80\x7f", &[0]),
    (Operations, 2, 5, b"\xa3\x01\x96", &[0]),
    (Operations, 2, 5, b"\xa4\x80\x01\x02\x01\x02", &[0]),
    (Operations, 2, 5, b"\xa5\x80\x01\x80\x02", &[0]),
    (Operations, 2, 5, b"\xa7\x04\x80\x02", &[0]),
    (Operations, 2, 5, b"\xa8\x80\x02", &[0]),
    (Operations, 2, 5, b"\xed\x00\x80\x01", &[0]),
    (Operations, 2, 5, b"\xed\x03\x01\x02\x03\x04", &[0]),
];

fn inputs() -> [&'static [Whole]; 2] {
    [SECTIONS, LAYOUTS]
}

/// The first size at which a cut is neither whole as it should nor refused as one.
fn first_other(alloc: Global, whole: &Whole, version: u16) -> Option<usize> {
    let (input, _, _, bytes, sizes) = *whole;
    for size in 0..bytes.len() {
        let wanted = if sizes.contains(&size) { WHOLE } else { CUT };
        if ending(alloc, input, narrow(version), &bytes[..size]) != wanted {
            return Some(size);
        }
    }
    None
}

/// The first version in which the whole isn't read to its end, or a cut isn't as it should be.
fn first_version(alloc: Global, whole: &Whole) -> Option<u16> {
    for version in whole.1..=whole.2 {
        let end = ending(alloc, whole.0, narrow(version), whole.3);
        if end != WHOLE || first_other(alloc, whole, version).is_some() {
            return Some(version);
        }
    }
    None
}

/// The first row of a table of which a cut isn't as it should be.
fn first_cut(alloc: Global, table: &[Whole]) -> Option<usize> {
    for (row, whole) in table.iter().enumerate() {
        if first_version(alloc, whole).is_some() {
            return Some(row);
        }
    }
    None
}

#[test]
fn refuses_each_cut(rt: HostRuntime) {
    for (number, table) in inputs().iter().enumerate() {
        assert_eq!(rt; first_cut(rt.alloc(), table), None, "of table {number}");
    }
}

/// The first byte of which a bit can be turned so that reading doesn't end behind an error, or
/// after as many items as there are bytes.
fn first_endless(alloc: Global, whole: &Whole) -> Option<usize> {
    let (input, version, _, bytes, _) = *whole;
    for place in 0..bytes.len() {
        for mask in [1, 2, 4, 8, 16, 32, 64, 128] {
            let changed = turned(bytes, place, mask);
            if ending(alloc, input, narrow(version), changed.as_slice()) == Ok(false) {
                return Some(place);
            }
        }
    }
    None
}

/// The first row of a table in which a bit can be turned so.
fn first_turned(alloc: Global, table: &[Whole]) -> Option<usize> {
    for (row, whole) in table.iter().enumerate() {
        if first_endless(alloc, whole).is_some() {
            return Some(row);
        }
    }
    None
}

#[test]
fn ends_whatever_bit_is_turned(rt: HostRuntime) {
    for (number, table) in inputs().iter().enumerate() {
        assert_eq!(rt; first_turned(rt.alloc(), table), None, "of table {number}");
    }
}
