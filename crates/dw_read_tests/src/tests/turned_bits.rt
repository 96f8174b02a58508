//! Units with bits turned.

use crate::tests::input::units_end;
use crate::tests::joined::turned;
use dw_read::ReadError;
use std::alloc::Global;

/// `.debug_info` and `.debug_abbrev` with their letters: a line for each byte, with why the units
/// can't be read with one bit of it turned, from the lowest bit on, and at last with all of them. A
/// point says that they can. The reasons are those of a reader that was written from the standard
/// in another language.
#[derive(Clone, Copy)]
struct Case {
    info: &'static [u8],
    info_letters: &'static str,
    abbrev: &'static [u8],
    abbrev_letters: &'static str,
}

// In version 4 a root and two children, of which the second names the first.
const NAMING: Case = Case {
    info: b"\x10\x00\x00\x00\x04\x00\x00\x00\x00\x00\x04\x01\x02\x04\x03\x0c\x00\x00\x00\x00",
    info_letters: "EEEEEEEEE
EEEEEEEEE
EEEEEEEEE
EEEEEEEEE
UVVVVVVVV
VVVVVVVVV
NTCNTEEEE
EEEEEEEEE
EEEEEEEEE
EEEEEEEEE
AAAAAAAAA
M.CCCCCCC
.CCCCCCCC
.........
.CCCCCCCC
.........
.........
.........
.........
.ECCCCCEE",
    abbrev: b"\x01\x11\x01\x00\x00\x02\x24\x00\x0b\x0b\x00\x00\x03\x2e\x00\x49\x13\x00\x00\x00",
    abbrev_letters: "CDCCCCCNN
.......NN
.HHHHHHHH
NNNNNNNNF
NNNNNNNNN
DCCCCCCTT
.......HH
.HHHHHHHH
.......NN
...E..FNN
NNNNNNNNE
NNNNNNNNN
DDCCCCCTT
.......HH
.HHHHHHHH
.......EE
....EFFEE
EEEEEEEEE
NNNNNNNEN
EEEEEEEEE",
};

// In version 5 a root, a child that tells its sibling, and a child of that.
const NESTED: Case = Case {
    info: b"\x11\x00\x00\x00\x05\x00\x01\x08\x00\x00\x00\x00\x01\x02\x14\x00\x00\x00\x03\x00\
        \x00",
    info_letters: "EEEEEEEEE
EEEEEEEEE
EEEEEEEEE
EEEEEEEEE
AVVVVVVVV
VVVVVVVVV
U.MUUUUUU
AAAAAAAAA
NTCNCEEEE
EEEEEEEEE
EEEEEEEEE
EEEEEEEEE
M.CCCCCCC
CCCCCCCCC
.........
.........
.........
.........
E.CCCCC.C
.ECCCCC.C
.ECCCCCEE",
    abbrev: b"\x01\x11\x01\x00\x00\x02\x2e\x01\x01\x13\x00\x00\x03\x34\x00\x00\x00\x00",
    abbrev_letters: "CDCCCCCNN
.......NN
.HHHHHHHH
NNNNNNNNF
NNNNNNNNN
DCCCCCCNN
.......NN
.HHHHHHHH
N......NN
....EFFNN
FFFFFFFNE
NNNNNNNNN
DDCCCCCTT
.......EE
.HHHHHHHH
EEEEEEEEE
NNNNNNNEN
EEEEEEEEE",
};

// Two units of version 5 with a table each; the first names the second's root.
const TWICE: Case = Case {
    info: b"\x0d\x00\x00\x00\x05\x00\x01\x08\x00\x00\x00\x00\x01\x1d\x00\x00\x00\x09\x00\x00\
        \x00\x05\x00\x01\x08\x08\x00\x00\x00\x01",
    info_letters: "ECEEEEEEE
EEEEEEEEE
EEEEEEEEE
EEEEEEEEE
AVVVVVVVV
VVVVVVVVV
U.EUUUUUU
AAAAAAAAA
TCTCEEEEE
EEEEEEEEE
EEEEEEEEE
EEEEEEEEE
MCCCCCCCC
.........
.........
.........
.........
EEEEEEEEE
EEEEEEEEE
EEEEEEEEE
EEEEEEEEE
AVVVVVVVV
VVVVVVVVV
U.EUUUUUU
AAAAAAAAA
TCCEEEEEE
EEEEEEEEE
EEEEEEEEE
EEEEEEEEE
MCCCCCCEE",
    abbrev: b"\x01\x11\x00\x49\x10\x00\x00\x00\x01\x11\x00\x00\x00\x00",
    abbrev_letters: "CCCCCCCTT
.......HH
.HHHHHHHH
.......DD
..EEFFFDD
NNNNNNNDF
NNNNNNNDN
HHHHHHH..
CCCCCCCTT
.......EE
.HHHHHHHH
EEEEEEEEE
NNNNNNNEN
EEEEEEEEE",
};

fn cases() -> [Case; 3] {
    [NAMING, NESTED, TWICE]
}

const MASKS: [u8; 9] = [1, 2, 4, 8, 16, 32, 64, 128, 255];

fn letter(reason: Option<ReadError>) -> u8 {
    match reason {
        None => b'.',
        Some(ReadError::UnexpectedEof) => b'E',
        Some(ReadError::UnknownVersion(_)) => b'V',
        Some(ReadError::UnsupportedAddressSize(_)) => b'A',
        Some(ReadError::UnknownUnitType(_)) => b'U',
        Some(ReadError::AbbreviationTagZero) => b'T',
        Some(ReadError::AttributeNameZero) => b'N',
        Some(ReadError::BadHasChildren(_)) => b'H',
        Some(ReadError::DuplicateAbbreviationCode(_)) => b'D',
        Some(ReadError::UnknownForm(_)) => b'F',
        Some(ReadError::UnknownAbbreviation(_)) => b'C',
        Some(ReadError::MissingUnitDie) => b'M',
        Some(_) => b'?',
    }
}

/// The section in which a byte is turned.
#[derive(Clone, Copy)]
enum Part {
    Info,
    Abbrev,
}

/// Why the units can't be read with bits of one byte turned.
fn letter_at(alloc: Global, case: &Case, part: Part, place: usize, mask: u8) -> u8 {
    let end = match part {
        Part::Info => {
            let changed = turned(case.info, place, mask);
            units_end(alloc, changed.as_slice(), case.abbrev)
        }
        Part::Abbrev => {
            let changed = turned(case.abbrev, place, mask);
            units_end(alloc, case.info, changed.as_slice())
        }
    };
    letter(end.err())
}

/// Whether these are the letters of one byte, one for each mask.
fn are_letters(alloc: Global, case: &Case, part: Part, place: usize, letters: &[u8]) -> bool {
    for (mask, letter) in MASKS.iter().zip(letters) {
        if letter_at(alloc, case, part, place, *mask) != *letter {
            return false;
        }
    }
    letters.len() == MASKS.len()
}

/// The first byte of a section whose letters are others.
fn first_other(alloc: Global, case: &Case, part: Part) -> Option<usize> {
    let letters = match part {
        Part::Info => case.info_letters,
        Part::Abbrev => case.abbrev_letters,
    };
    for (place, row) in letters.lines().enumerate() {
        if !are_letters(alloc, case, part, place, row.as_bytes()) {
            return Some(place);
        }
    }
    None
}

#[test]
fn refuses_turned_bits(rt: HostRuntime) {
    for (number, case) in cases().iter().enumerate() {
        let info = first_other(rt.alloc(), case, Part::Info);
        let abbrev = first_other(rt.alloc(), case, Part::Abbrev);
        assert_eq!(rt; (info, abbrev), (None, None), "of case {number}");
    }
}
