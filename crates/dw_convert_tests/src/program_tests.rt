//! Line programs that are converted, also to another version, what is refused where the caller
//! makes nothing of an address, programs that are cut, and programs with a byte that is turned
//! (DWARF 4 and 5, 6.2.4 and 6.2.5).

use crate::damage::{MASKS, turned};
use crate::programs::{Target, becomes, refusal};
use dw_base::RunTimeEndian::{Big, Little};
use dw_base::{Encoding, Format, RunTimeEndian};
use dw_read::ReadError;
use dw_sources::ConvertError;
use std::alloc::Global;

/// A directory and a file in version 4; the instructions begin at 41, and the rows at 50.
const FOUR: &[u8] =
    b"\x00\x00\x00\x3b\x00\x04\x00\x00\x00\x1f\x01\x01\x01\xfb\x0e\x0d\x00\x01\x01\x01\x01\x00\
    \x00\x00\x01\x00\x00\x01\x69\x6e\x63\x00\x00\x61\x2e\x63\x00\x01\x02\x03\x00\x00\x05\x02\
    \x00\x00\x10\x00\x04\x01\x14\x08\x09\x00\x10\x03\x7f\x01\x02\x0c\x00\x01\x01";

/// A directory and a file by the places of their names in version 5, in little endian; the
/// instructions begin at 49, and the rows at 66.
const FIVE: &[u8] =
    b"\x4b\x00\x00\x00\x05\x00\x08\x00\x25\x00\x00\x00\x01\x01\x01\xfb\x0e\x0d\x00\x01\x01\x01\
    \x01\x00\x00\x00\x01\x00\x00\x01\x01\x01\x1f\x01\x00\x00\x00\x00\x02\x01\x1f\x02\x0f\x01\
    \x05\x00\x00\x00\x00\x00\x09\x02\x00\x10\x00\x00\x00\x00\x00\x00\x04\x00\x05\x05\x03\x02\
    \x01\x05\x00\x03\x01\x02\x04\x01\x02\x0c\x00\x01\x01";

/// The same in version 4: names are strings in the program itself, and files are counted from 1.
const FIVE_AS_FOUR: &[u8] =
    b"\x3d\x00\x00\x00\x04\x00\x1b\x00\x00\x00\x01\x01\x01\xfb\x0e\x0d\x00\x01\x01\x01\x01\x00\
    \x00\x00\x01\x00\x00\x01\x00\x61\x2e\x63\x00\x00\x00\x00\x00\x00\x09\x02\x00\x10\x00\x00\
    \x00\x00\x00\x00\x05\x05\x03\x02\x01\x05\x00\x03\x01\x02\x04\x01\x02\x0c\x00\x01\x01";

const VERSION_4: Target = Some(Encoding {
    address_size: 8,
    format: Format::Dwarf32,
    version: 4,
});

/// How a program of version 5 is converted, and what it is written as.
fn programs() -> [(Target, &'static [u8]); 2] {
    [(None, FIVE), (VERSION_4, FIVE_AS_FOUR)]
}

/// The program of version 5, of which no other proof sees more.
fn five() -> &'static [u8] {
    FIVE
}

#[test]
fn converts_programs(rt: HostRuntime) {
    for (target, wanted) in programs() {
        let answer = becomes(rt.alloc(), Little, five(), target, wanted);
        assert!(rt; answer, "not {wanted:?}");
    }
}

/// A directory with an empty name, which would close a list of version 4, in big endian.
const EMPTY_NAME: &[u8] =
    b"\x00\x00\x00\x25\x00\x05\x04\x00\x00\x00\x00\x1d\x01\x01\x01\xfb\x0e\x0d\x00\x01\x01\x01\
    \x01\x00\x00\x00\x01\x00\x00\x01\x01\x01\x08\x02\x2f\x00\x00\x01\x01\x08\x00";

/// Programs of version 2 with two files, in little endian. Of the address 0x9000 the caller makes
/// nothing: it is that of a row, or that of an end.
const NO_ROW: &[u8] =
    b"\x32\x00\x00\x00\x02\x00\x21\x00\x00\x00\x01\x01\xfb\x0e\x0d\x00\x01\x01\x01\x01\x00\x00\
    \x00\x01\x00\x00\x01\x00\x61\x2e\x63\x00\x00\x00\x00\x62\x2e\x63\x00\x00\x00\x00\x00\x00\
    \x05\x02\x00\x90\x00\x00\x01\x00\x01\x01";

const NO_END: &[u8] =
    b"\x31\x00\x00\x00\x02\x00\x21\x00\x00\x00\x01\x01\xfb\x0e\x0d\x00\x01\x01\x01\x01\x00\x00\
    \x00\x01\x00\x00\x01\x00\x61\x2e\x63\x00\x00\x00\x00\x62\x2e\x63\x00\x00\x00\x00\x00\x00\
    \x05\x02\x00\x90\x00\x00\x00\x01\x01";

const VERSION_4_OF_4: Target = Some(Encoding {
    address_size: 4,
    format: Format::Dwarf32,
    version: 4,
});

type Refused = (RunTimeEndian, &'static [u8], Target, Option<ConvertError>);

/// Programs, what they are converted to, and why they are refused.
const REFUSED: &[Refused] = &[
    (Big, EMPTY_NAME, None, None),
    (
        Big,
        EMPTY_NAME,
        VERSION_4_OF_4,
        Some(ConvertError::UnsupportedLineProgram),
    ),
    (Little, NO_ROW, None, Some(ConvertError::InvalidAddress)),
    (Little, NO_END, None, Some(ConvertError::InvalidAddress)),
];

/// They, of which no other proof sees more.
fn refused() -> &'static [Refused] {
    REFUSED
}

#[test]
fn refuses_programs(rt: HostRuntime) {
    for (number, row) in refused().iter().enumerate() {
        let (endian, bytes, target, wanted) = *row;
        let answer = refusal(rt.alloc(), endian, bytes, target);
        assert!(rt; answer == wanted, "at {number}");
    }
}

/// A program with the place of the lowest byte that tells its length. Where it is cut and its
/// length is told, it is whole at some lengths, and has a sequence without an end at others. The
/// causes are those for which it is refused where a byte is turned.
struct Row {
    endian: RunTimeEndian,
    program: &'static [u8],
    told_at: usize,
    whole: &'static [usize],
    open: &'static [usize],
    causes: &'static [&'static str],
}

const ROWS: &[Row] = &[
    Row {
        endian: Big,
        program: FOUR,
        told_at: 3,
        whole: &[41, 48, 50, 63],
        open: &[51, 52, 55, 57, 58, 60],
        causes: &[
            "UnexpectedEof",
            "UnknownVersion",
            "UnsupportedAddressSize",
            "InvalidAddress",
            "InvalidFileIndex",
            "InvalidDirectoryIndex",
            "IntegerOverflow",
            "UnsupportedLineProgram",
        ],
    },
    Row {
        endian: Little,
        program: FIVE,
        told_at: 0,
        whole: &[49, 60, 62, 64, 66, 79],
        open: &[67, 69, 71, 73, 74, 76],
        causes: &[
            "UnexpectedEof",
            "UnknownVersion",
            "UnsupportedAddressSize",
            "UnsupportedSegmentSize",
            "UnknownForm",
            "InvalidAddress",
            "InvalidFileIndex",
            "InvalidDirectoryIndex",
            "IntegerOverflow",
            "UnsupportedLineProgram",
        ],
    },
];

/// Why a copy of a row's program is refused, cut to a length.
fn refusal_of(alloc: Global, row: &Row, copy: &[u8], length: usize) -> Option<ConvertError> {
    refusal(
        alloc,
        row.endian,
        copy.get(..length).unwrap_or_default(),
        None,
    )
}

const CUT: Option<ConvertError> = Some(ConvertError::Read(ReadError::UnexpectedEof));

/// What is answered for a program that is cut to a length and tells it.
fn wanted(row: &Row, length: usize) -> Option<ConvertError> {
    if row.whole.contains(&length) {
        None
    } else if row.open.contains(&length) {
        Some(ConvertError::UnsupportedLineProgram)
    } else {
        CUT
    }
}

/// The bits in which the length that a row's program tells differs from another.
fn change(row: &Row, length: usize) -> u8 {
    (row.program.len().wrapping_sub(4) % 256) as u8 ^ (length.wrapping_sub(4) % 256) as u8
}

/// The first length to which a program can be cut with another answer than the one that is wanted,
/// where it tells its whole length or the other.
fn first_missed(alloc: Global, row: &Row) -> Option<usize> {
    for length in 4..row.program.len() {
        let told = turned(row.program, row.told_at, change(row, length));
        if refusal_of(alloc, row, row.program, length) != CUT
            || refusal_of(alloc, row, &told, length) != wanted(row, length)
        {
            return Some(length);
        }
    }
    None
}

/// They, of which no other proof sees more.
fn rows() -> &'static [Row] {
    ROWS
}

/// The number among a row's causes of the one for which its program is refused with a byte turned.
fn cause(alloc: Global, row: &Row, way: usize) -> Option<usize> {
    let copy = turned(row.program, way / 9, MASKS[way % 9]);
    let error = refusal_of(alloc, row, &copy, row.program.len())?;
    let name = error.name();
    Some(
        row.causes
            .iter()
            .position(|cause| *cause == name)
            .unwrap_or(15),
    )
}

/// The causes to which bytes that are turned lead, a bit for each; the highest stands for others.
fn causes(alloc: Global, row: &Row) -> u16 {
    let mut found = 0;
    for way in 0..row.program.len().saturating_mul(9) {
        if let Some(number) = cause(alloc, row, way) {
            found |= 1 << (number % 16);
        }
    }
    found
}

/// A bit for each of a row's causes.
fn told(row: &Row) -> u16 {
    (1 << (row.causes.len() % 16)) - 1
}

/// Whether a row's program is answered as it tells, cut and with bytes that are turned.
fn is_answered(alloc: Global, row: &Row) -> bool {
    first_missed(alloc, row).is_none() && causes(alloc, row) == told(row)
}

#[test]
fn answers_each_cut_and_refuses_turned_bytes_for_the_told_causes(rt: HostRuntime) {
    for (number, row) in rows().iter().enumerate() {
        assert!(rt; is_answered(rt.alloc(), row), "of program {number}");
    }
}
