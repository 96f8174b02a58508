//! Sections that are cut, and sections of which a byte is turned.

use crate::damage::{LONGEST, MASKS, turned};
use crate::refusal_tests::{FIVE, FOUR, Kind, refusal};
use dw_read::ReadError;
use dw_sources::ConvertError;
use std::alloc::Global;

// An address, two indices, a constant, an entry's place, a nested expression and a piece.
const EXPRESSION: &[u8] = b"\x03\x00\x10\x00\x00\xa1\x01\xa2\x01\x10\x80\x01\x9a\x02\x00\x00\x00\
    \xa3\x02\x10\x05\x93\x04";

// Each kind of version 5, and the kinds of older ones.
const RANGES: &[u8] = b"\x01\x01\x02\x00\x01\x03\x01\x10\x04\x01\x02\x05\x00\x10\x00\x00\
    \x06\x00\x10\x00\x00\x00\x20\x00\x00\x07\x00\x10\x00\x00\x10\x00";

const OLD_RANGES: &[u8] = b"\x01\x00\x00\x00\x02\x00\x00\x00\xff\xff\xff\xff\x00\x10\x00\x00\
    \x03\x00\x00\x00\x04\x00\x00\x00\x00\x00\x00\x00\x00\x00\x00\x00";

const LOCATIONS: &[u8] = b"\x01\x01\x02\x00\x01\x01\x30\x03\x00\x10\x01\x30\x04\x01\x02\x01\x30\
    \x05\x01\x30\x06\x00\x10\x00\x00\x07\x00\x10\x00\x00\x00\x20\x00\x00\x01\x30\
    \x08\x00\x10\x00\x00\x10\x01\x30\x00";

const OLD_LOCATIONS: &[u8] = b"\x01\x00\x00\x00\x02\x00\x00\x00\x01\x00\x30\
    \xff\xff\xff\xff\x00\x10\x00\x00\x03\x00\x00\x00\x04\x00\x00\x00\x02\x00\x10\x05\
    \x00\x00\x00\x00\x00\x00\x00\x00";

// What comes of the bytes where one of them is turned: a group for each byte, with a letter for
// each of the nine ways to turn it. A reader in another language told them.
const EXPRESSION_TURNED: &[u8] = b"\
    XXXXXXXXX ......... .......AA AAAAAAAAA AAAAAAAAA DX.UX.XXX .EEEEEEEE EX.XX.XXX .EEEEEEEE \
    ....X...X .......XX .......XX XXXXXXXXX DD......D ......... ......... ......... EEXXX.X.X \
    X.EEEEEEE .XXXXXX.X .......EE E.XX.XXXX .......EE";

const RANGES_TURNED: &[u8] = b"\
    ..AKKKKKK .EEEEEEEE ..AKKKKKK .EEEEEEEE .EEEEEEEE EKAKKKKKK .EEEEEEEE .......EE AA.KKKKKK \
    ......... ......... ..KKKKKKK ......... .......AA AAAAAAAAA AAAAAAAAA K.EKKKKKK ......... \
    .......AA AAAAAAAAA AAAAAAAAA ......... .......AA AAAAAAAAA AAAAAAAAA EK.KKKKKK ......... \
    .......AA AAAAAAAAA AAAAAAAAA .......EE EEEKKKKKK";

const OLD_RANGES_TURNED: &[u8] = b"\
    ......... .......AA AAAAAAAAA AAAAAAAAA ......... .......AA AAAAAAAAA AAAAAAAAA AAAAAAAAA \
    AAAAAAAAA AAAAAAAAA AAAAAAAAA ......... .......AA AAAAAAAAA AAAAAAAAA ......... .......AA \
    AAAAAAAAA AAAAAAAAA ......... .......AA AAAAAAAAA AAAAAAAAA EEEEEEEEE EEEEEEERA AAAAAAAAA \
    AAAAAAAAA EEEEEEEEE EEEEEEERA AAAAAAAAA AAAAAAAAA";

const LOCATIONS_TURNED: &[u8] = b"\
    .KXKKKKKK .EEEEEEEE ..AKKKKKK .EEEEEEEE .EEEEEEEE KEEXXXEEE .....EEXX EKEKKKKKK .EEEEEEEE \
    .......EE KXXXXXEEE .....EEXX XA.KKKKKK .......EE .......EE KXXXXEEEE .....EEXX XAKKKKKKK \
    KXXXXEEEE .....EEXX A.EKKKKKK ......... .......AA AAAAAAAAA AAAAAAAAA .K.KKKKKK ......... \
    .......AA AAAAAAAAA AAAAAAAAA ......... .......AA AAAAAAAAA AAAAAAAAA KK.XEEEEE .....EEXX \
    KKK.KKKKK ......... .......AA AAAAAAAAA AAAAAAAAA .......EE KEEEEEEEE .....EEXX EEEEKKKKK";

const OLD_LOCATIONS_TURNED: &[u8] = b"\
    ......... .......AA AAAAAAAAA AAAAAAAAA ......... .......AA AAAAAAAAA AAAAAAAAA EXXXXEEEE \
    EEEEEEEEE .....EEXX AAAAAAAAA AAAAAAAAA AAAAAAAAA AAAAAAAAA ......... .......AA AAAAAAAAA \
    AAAAAAAAA ......... .......AA AAAAAAAAA AAAAAAAAA ......... .......AA AAAAAAAAA AAAAAAAAA \
    XEXXEEEEE EEEEEEEEE .XXXXXX.X .......EE EEEEEEEEE EEEEEEEEE EEEEEEEEE EEEEEEEEE EEEEEEEEE \
    EEEEEEEEE EEEEEEEEE EEEEEEEEE";

/// What is converted, in which unit, the lengths to which it can be cut and still be whole, and
/// what comes of it where a byte is turned. A list is whole at its close alone, an expression
/// behind any operation.
type Row = (
    Kind,
    &'static [u8],
    &'static [u8],
    &'static [usize],
    &'static [u8],
);

const ROWS: &[Row] = &[
    (
        Kind::Expression,
        FIVE,
        EXPRESSION,
        &[0, 5, 7, 9, 12, 17, 21, 23],
        EXPRESSION_TURNED,
    ),
    (Kind::Ranges, FIVE, RANGES, &[32], RANGES_TURNED),
    (Kind::Ranges, FOUR, OLD_RANGES, &[32], OLD_RANGES_TURNED),
    (Kind::Locations, FIVE, LOCATIONS, &[45], LOCATIONS_TURNED),
    (
        Kind::Locations,
        FOUR,
        OLD_LOCATIONS,
        &[39],
        OLD_LOCATIONS_TURNED,
    ),
];

/// They, of which no other proof sees more.
fn rows() -> &'static [Row] {
    ROWS
}

/// The first length to which the bytes can be cut with another answer than the one that is told.
fn first_missed(
    alloc: Global,
    kind: Kind,
    info: &[u8],
    bytes: &[u8],
    whole: &[usize],
) -> Option<usize> {
    for length in 0..=bytes.len() {
        let wanted = if whole.contains(&length) {
            None
        } else {
            Some(ConvertError::Read(ReadError::UnexpectedEof))
        };
        if refusal(alloc, kind, info, &bytes[..length]) != wanted {
            return Some(length);
        }
    }
    None
}

/// The letter of an answer, a dot where the bytes are converted.
fn letter(refused: Option<ConvertError>) -> u8 {
    match refused {
        None => b'.',
        Some(ConvertError::Read(ReadError::UnexpectedEof)) => b'E',
        Some(ConvertError::Read(ReadError::InvalidExpression(_))) => b'X',
        Some(ConvertError::Read(ReadError::UnknownRangeListsEntry(_))) => b'K',
        Some(ConvertError::Read(ReadError::UnknownLocListsEntry(_))) => b'K',
        Some(ConvertError::InvalidAddress) => b'A',
        Some(ConvertError::InvalidUnitRef) => b'U',
        Some(ConvertError::InvalidDebugInfoRef) => b'D',
        Some(ConvertError::InvalidRangeRelativeAddress) => b'R',
        Some(_) => b'?',
    }
}

/// The first byte and way to turn it of which something else comes than is told.
fn first_untold(
    alloc: Global,
    kind: Kind,
    info: &[u8],
    bytes: &[u8],
    told: &[u8],
) -> Option<(usize, usize)> {
    for (number, letter_told) in told.iter().enumerate() {
        let (place, way) = (number / 10, number % 10);
        let Some(mask) = MASKS.get(way) else {
            continue;
        };
        let copy = turned(bytes, place, *mask);
        let length = bytes.len().min(LONGEST);
        if letter(refusal(alloc, kind, info, &copy[..length])) != *letter_told {
            return Some((place, way));
        }
    }
    None
}

/// Whether a row's bytes are answered as it tells, cut and turned.
fn is_answered(alloc: Global, (kind, info, bytes, whole, told): Row) -> bool {
    told.len() + 1 == bytes.len().saturating_mul(10)
        && first_missed(alloc, kind, info, bytes, whole).is_none()
        && first_untold(alloc, kind, info, bytes, told).is_none()
}

#[test]
fn answers_each_cut_and_each_byte_that_is_turned(rt: HostRuntime) {
    for (number, row) in rows().iter().enumerate() {
        assert!(rt; is_answered(rt.alloc(), *row), "at {number}");
    }
}
