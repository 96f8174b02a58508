//! Programs of what scripts don't have, with their bytes, which were put down by hand. The others
//! are cases of `dwarf_build`.

use crate::programs::Name::{A, B, Included, LineStringAt, Root, Source, StringAt};
use crate::programs::Step::{Begin, Directory, End, File, Known, Row};
use crate::programs::{Built, Step, Told, begun, take_all};
use crate::writing::Wanted::{Answer, Bytes, FaultAt, Records};
use crate::writing::{Wanted, is_as};
use dw_base::Format::{Dwarf32, Dwarf64};
use dw_base::RunTimeEndian::{Big, Little};
use dw_base::{Address, Error, FileId, Result, SectionId};
use dw_line::LineRow;
use dw_writer::{Relocation, RelocationTarget};
use std::alloc::Global;
use std::test::Fail;

/// The row that a sequence begins with.
const FIRST: LineRow = LineRow {
    address_offset: 0,
    file: FileId(0),
    line: 1,
    column: 0,
    discriminator: 0,
    is_statement: true,
    basic_block: false,
    prologue_end: false,
    epilogue_begin: false,
    isa: 0,
};

/// A row that differs in everything from the one that a sequence begins with.
const FULL: LineRow = LineRow {
    address_offset: 8,
    file: FileId(1),
    line: 5,
    column: 129,
    discriminator: 3,
    is_statement: false,
    basic_block: true,
    prologue_end: true,
    epilogue_begin: true,
    isa: 5,
};

/// The same without what holds for one row.
const BEHIND: LineRow = LineRow {
    address_offset: 12,
    discriminator: 0,
    basic_block: false,
    prologue_end: false,
    epilogue_begin: false,
    ..FULL
};

const NOTHING: Told = Told {
    timestamp: 0,
    size: 0,
    md5: None,
    source: None,
};

const EMPTY_SUM: Told = Told {
    md5: Some([0; 16]),
    ..NOTHING
};

/// With the first text of `.debug_str`.
const BY_PLACE: Told = Told {
    source: Some(StringAt(0)),
    ..NOTHING
};

const DISAGREE: Option<Error> = Some(Error::IncompatibleLineProgramEncoding);

const NEEDS_5: Option<Error> = Some(Error::NeedVersion(5));

const ONE_BY_PLACE: &[Step] = &[File(A, 0), Known(B, 0, BY_PLACE)];

const ONE_SUM: &[Step] = &[File(A, 0), Known(B, 0, EMPTY_SUM)];

/// Names by their places, which a writer without records takes, too.
const NAMED: &[Step] = &[File(LineStringAt(1), 0)];

/// The records of two strings' places, and of a symbol.
const RECORDS: &[Relocation] = &[
    Relocation {
        offset: 34,
        size: 4,
        target: RelocationTarget::Section(SectionId::DebugLineStr),
        addend: 0,
        eh_pe: None,
    },
    Relocation {
        offset: 44,
        size: 4,
        target: RelocationTarget::Section(SectionId::DebugLineStr),
        addend: 5,
        eh_pe: None,
    },
    Relocation {
        offset: 52,
        size: 8,
        target: RelocationTarget::Symbol(1),
        addend: -1,
        eh_pe: None,
    },
];

/// A program, and what its writing comes to.
type Case = (Built, Wanted);

const CASES: &[Case] = &[
    (
        (
            (2, Dwarf32, 4),
            1,
            Root,
            &[
                Directory(Included),
                Known(
                    A,
                    1,
                    Told {
                        timestamp: 3,
                        size: 200,
                        ..NOTHING
                    },
                ),
                Begin(Some(Address::Constant(0x1000))),
                Row(LineRow { line: 3, ..FIRST }),
                End(2),
            ],
        ),
        Bytes(
            Little,
            "35000000 0200 20000000 0101fb0e0d 000101010100000001000001
        2f696e6300 00 612e6300 01 03 c801 00
        00050200100000 0302 01 0202 000101",
        ),
    ),
    // Each register, and a row behind it.
    (
        (
            (4, Dwarf32, 2),
            4,
            Root,
            &[
                File(A, 0),
                File(B, 0),
                Begin(Some(Address::Constant(0x1234))),
                Row(FULL),
                Row(BEHIND),
                End(16),
            ],
        ),
        Bytes(
            Big,
            "00000049 0004 00000022 040101fb0e0d 000101010100000001000001
        00 612e6300000000 622e6300000000 00
        0003021234 00020403 07 0a 0b 06 0402 058101 0c05 0304 0202 01
        0201 01 0201 000101",
        ),
    ),
    (
        (
            (5, Dwarf64, 8),
            1,
            Root,
            &[
                Known(
                    A,
                    0,
                    Told {
                        timestamp: 1,
                        size: 2,
                        md5: Some([7; 16]),
                        source: Some(Source),
                    },
                ),
                File(B, 0),
            ],
        ),
        Bytes(
            Big,
            "ffffffff 0000000000000064 0005 0800 0000000000000058 010101fb0e0d
        000101010100000001000001 01010801 2f00
        06 0108 020f 030f 040f 051e 814008 02
        612e6300 00 01 02 07070707070707070707070707070707 7800
        622e6300 00 00 00 00000000000000000000000000000000 00",
        ),
    ),
    // No file and no sequence.
    (
        ((5, Dwarf32, 8), 1, Root, &[]),
        Bytes(
            Little,
            "26000000 0500 0800 1e000000 010101fb0e0d 000101010100000001000001
        01010801 2f00 020108020f 00",
        ),
    ),
    (
        (
            (5, Dwarf64, 4),
            1,
            Root,
            &[Known(
                A,
                0,
                Told {
                    source: Some(StringAt(1)),
                    ..NOTHING
                },
            )],
        ),
        Bytes(
            Little,
            "ffffffff 3a00000000000000 0500 0400 2e00000000000000 010101fb0e0d
        000101010100000001000001 01010801 2f00 03 0108 020f 81400e01
        612e6300 00 0200000000000000",
        ),
    ),
    // What is told last of a file holds.
    (
        (
            (4, Dwarf32, 8),
            1,
            Root,
            &[
                Known(A, 0, Told { size: 1, ..NOTHING }),
                Known(A, 0, Told { size: 2, ..NOTHING }),
                File(A, 0),
            ],
        ),
        Bytes(
            Little,
            "21000000 0400 1b000000 010101fb0e0d 000101010100000001000001
        00 612e6300 00 00 02 00",
        ),
    ),
    // Names by their places, and an empty sequence at a symbol.
    (
        (
            (5, Dwarf32, 8),
            1,
            LineStringAt(0),
            &[
                File(LineStringAt(1), 0),
                Begin(Some(Address::Symbol {
                    symbol: 1,
                    addend: -1,
                })),
                End(0),
            ],
        ),
        Records(
            "3b000000 0500 0800 25000000 010101fb0e0d 000101010100000001000001
        01011f01 00000000 02011f020f01 00000000 00
        00090200000000 00000000 000101",
            RECORDS,
        ),
    ),
    // A fault at the first call, at one in the middle, and at the patch of the program's length.
    (((5, Dwarf32, 8), 1, LineStringAt(0), NAMED), FaultAt(1)),
    (((5, Dwarf32, 8), 1, LineStringAt(0), NAMED), FaultAt(12)),
    (((5, Dwarf32, 8), 1, LineStringAt(0), NAMED), FaultAt(22)),
    // Encodings that aren't their unit's; up to version 4 they agree.
    (
        ((5, Dwarf32, 8), 1, Root, &[]),
        Answer((5, Dwarf64, 8), DISAGREE),
    ),
    (
        ((5, Dwarf32, 8), 1, Root, &[]),
        Answer((5, Dwarf32, 4), DISAGREE),
    ),
    (
        ((5, Dwarf32, 8), 1, Root, &[]),
        Answer((4, Dwarf32, 8), DISAGREE),
    ),
    (
        ((2, Dwarf32, 8), 1, Root, &[]),
        Answer((4, Dwarf32, 8), None),
    ),
    // Encodings without a spelling.
    (
        ((1, Dwarf32, 8), 1, Root, &[]),
        Answer((1, Dwarf32, 8), Some(Error::UnsupportedVersion(1))),
    ),
    (
        ((6, Dwarf32, 8), 1, Root, &[]),
        Answer((6, Dwarf32, 8), Some(Error::UnsupportedVersion(6))),
    ),
    (
        ((4, Dwarf32, 3), 1, Root, &[]),
        Answer((4, Dwarf32, 3), Some(Error::UnsupportedWordSize(3))),
    ),
    // Checksums and texts need version 5.
    (
        ((2, Dwarf32, 8), 1, Root, ONE_SUM),
        Answer((2, Dwarf32, 8), NEEDS_5),
    ),
    (
        ((3, Dwarf32, 8), 1, Root, ONE_SUM),
        Answer((3, Dwarf32, 8), NEEDS_5),
    ),
    (
        ((4, Dwarf32, 8), 1, Root, ONE_SUM),
        Answer((4, Dwarf32, 8), NEEDS_5),
    ),
    (
        ((4, Dwarf32, 8), 1, Root, ONE_BY_PLACE),
        Answer((4, Dwarf32, 8), NEEDS_5),
    ),
    // A text by its place, beside an empty one.
    (
        ((5, Dwarf32, 8), 1, Root, ONE_BY_PLACE),
        Answer((5, Dwarf32, 8), Some(Error::LineStringFormMismatch)),
    ),
];

/// The table, which no proof but this function's looks into.
fn cases() -> &'static [Case] {
    CASES
}

/// Tells that a program is written as its case tells. No other function owns a program.
fn is_met(alloc: Global, case: &Case) -> Result<bool> {
    let mut program = begun(alloc, &case.0)?;
    let taken = take_all(alloc, &mut program, case.0.3);
    Ok(taken == Ok(()) && is_as(alloc, &program, &case.1))
}

#[test]
fn writes_programs(rt: HostRuntime) -> std::result::Result<(), Fail> {
    for (i, case) in cases().iter().enumerate() {
        assert!(rt; is_met(rt.alloc(), case)?, "at {i}");
    }
    Ok(())
}
