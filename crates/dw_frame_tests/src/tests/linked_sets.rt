//! Sets of sections that are joined, with relocations made by hand. Pointers of call frame tables
//! are those of Linux Standard Base Core 5.0, 10.5.1.

use dw_base::{DwEhPe, Result, RunTimeEndian, SectionId};
use dw_link::{LinkError, link};
use dw_writer::{
    EndianVec, RelocVec, RelocateWriter, Relocation, RelocationTarget, Sections, Writer,
};
use std::alloc::Global;

type Set = Sections<RelocVec<RunTimeEndian>>;

type Joined = std::result::Result<Sections<EndianVec<RunTimeEndian>>, LinkError>;

type Answer = std::result::Result<bool, LinkError>;

/// What a set has in a section: `.debug_str`, `.eh_frame`, or else `.debug_info`.
#[derive(Clone, Copy)]
struct Part {
    section: SectionId,
    bytes: &'static [u8],
    relocations: &'static [Relocation],
}

/// Sets, each with its order of bytes, and what becomes of them: whether a joined section holds
/// some bytes.
#[derive(Clone, Copy)]
struct Row {
    endian: RunTimeEndian,
    sets: &'static [(RunTimeEndian, &'static [Part])],
    symbols: &'static [u64],
    section: SectionId,
    wanted: Answer,
    bytes: &'static [u8],
}

const LITTLE: RunTimeEndian = RunTimeEndian::Little;

const BIG: RunTimeEndian = RunTimeEndian::Big;

const INFO: SectionId = SectionId::DebugInfo;

macro_rules! to_symbol {
    ($offset:expr, $size:expr, $symbol:expr, $addend:expr) => {
        Relocation {
            offset: $offset,
            size: $size,
            target: RelocationTarget::Symbol($symbol),
            addend: $addend,
            eh_pe: None,
        }
    };
}

macro_rules! to_section {
    ($offset:expr, $size:expr, $section:expr, $addend:expr) => {
        Relocation {
            offset: $offset,
            size: $size,
            target: RelocationTarget::Section($section),
            addend: $addend,
            eh_pe: None,
        }
    };
}

/// A fault of a relocation in `.debug_info` of the first set.
macro_rules! at_info {
    ($fault:ident, $index:expr) => {
        Err(LinkError::$fault {
            set: 0,
            section: INFO,
            index: $index,
        })
    };
}

/// A set with `.debug_info` alone.
macro_rules! info {
    ($bytes:expr, $relocations:expr, $symbols:expr, $wanted:expr, $joined:expr) => {
        Row {
            endian: LITTLE,
            sets: &[(
                LITTLE,
                &[Part {
                    section: INFO,
                    bytes: $bytes,
                    relocations: $relocations,
                }],
            )],
            symbols: $symbols,
            section: INFO,
            wanted: $wanted,
            bytes: $joined,
        }
    };
}

/// A set of six zeros whose relocation is refused, without symbols.
macro_rules! refused {
    ($relocation:expr, $fault:ident) => {
        info!(&[0; 6], &[$relocation], &[], at_info!($fault, 0), &[])
    };
}

/// The largest number in some bytes, and one more.
macro_rules! largest {
    ($size:expr, $number:expr, $bytes:expr) => {
        info!(&[0; 8], &[to_symbol!(0, $size, 0, 0)], &[$number], Ok(true), $bytes)
    };
}

macro_rules! past_the_largest {
    ($size:expr, $number:expr) => {
        info!(
            &[0; 8],
            &[to_symbol!(0, $size, 0, 1)],
            &[$number],
            at_info!(ValueTooLarge, 0),
            &[]
        )
    };
}

const ALONE: &[Row] = &[
    // Places outside the section, widths that no number has, and what has no place or no value.
    refused!(to_section!(4, 4, INFO, 0), RecordOutOfPlace),
    refused!(to_section!(0, 3, INFO, 0), RecordOutOfPlace),
    refused!(to_section!(usize::MAX, 8, INFO, 0), RecordOutOfPlace),
    refused!(to_section!(6, 1, INFO, 0), RecordOutOfPlace),
    refused!(
        to_section!(0, 4, SectionId::DebugMacinfo, 0),
        UnknownSection
    ),
    refused!(to_section!(0, 4, SectionId::DebugAddr, 0), UnknownSection),
    refused!(to_symbol!(0, 4, 0, 0), UnknownSymbol),
    refused!(to_section!(0, 4, INFO, -1), ValueTooLarge),
    // The last byte.
    info!(
        &[0; 6],
        &[to_symbol!(5, 1, 0, 0)],
        &[7],
        Ok(true),
        &[0, 0, 0, 0, 0, 7]
    ),
    largest!(1, 0xff, &[0xff, 0, 0, 0, 0, 0, 0, 0]),
    past_the_largest!(1, 0xff),
    largest!(2, 0xffff, &[0xff, 0xff, 0, 0, 0, 0, 0, 0]),
    past_the_largest!(2, 0xffff),
    largest!(4, 0xffff_ffff, &[0xff, 0xff, 0xff, 0xff, 0, 0, 0, 0]),
    past_the_largest!(4, 0xffff_ffff),
    largest!(8, u64::MAX, &[0xff; 8]),
    past_the_largest!(8, u64::MAX),
    // The number in the place is added to, also by a second relocation of the same place.
    info!(&[5, 9], &[to_symbol!(0, 1, 0, -6)], &[1], Ok(true), &[0, 9]),
    info!(
        &[1, 9],
        &[to_symbol!(0, 1, 0, 0), to_symbol!(0, 1, 0, 0)],
        &[0x7f],
        Ok(true),
        &[0xff, 9]
    ),
    info!(
        &[0, 9],
        &[to_symbol!(0, 1, 0, 0), to_symbol!(0, 1, 0, 0)],
        &[0x80],
        at_info!(ValueTooLarge, 1),
        &[]
    ),
    // The first fault counts.
    info!(
        &[0],
        &[
            to_symbol!(0, 1, 0, 0),
            to_symbol!(0, 1, 5, 0),
            to_symbol!(0, 1, 6, 0)
        ],
        &[1],
        at_info!(UnknownSymbol, 1),
        &[]
    ),
    info!(&[], &[], &[], Ok(true), &[]),
];

/// A string, and numbers of all widths that lead to sections and to symbols. What stands in the
/// first number's place is added to it.
macro_rules! with_string {
    ($endian:expr, $string:expr) => {
        (
            $endian,
            &[
                Part {
                    section: SectionId::DebugStr,
                    bytes: $string,
                    relocations: &[],
                },
                Part {
                    section: INFO,
                    bytes: &[0x10, 0, 0, 0, 0, 0, 0, 0, 0, 0, 0, 0, 0, 0, 0],
                    relocations: &[
                        to_section!(0, 1, SectionId::DebugStr, 1),
                        to_symbol!(1, 2, 0, -2),
                        to_section!(3, 4, INFO, 0x0b),
                        to_symbol!(7, 8, 1, 0),
                    ],
                },
            ],
        )
    };
}

macro_rules! three {
    ($endian:expr, $section:expr, $joined:expr) => {
        Row {
            endian: $endian,
            sets: &[
                with_string!($endian, b"a\0"),
                with_string!($endian, b"bcd\0"),
                with_string!($endian, b"e\0"),
            ],
            symbols: &[0x0304, 0x1122_3344_5566_7788],
            section: $section,
            wanted: Ok(true),
            bytes: $joined,
        }
    };
}

/// Sets without a byte.
macro_rules! empty {
    ($endian:expr, $sets:expr, $wanted:expr) => {
        Row {
            endian: $endian,
            sets: $sets,
            symbols: &[],
            section: INFO,
            wanted: $wanted,
            bytes: &[],
        }
    };
}

const TOGETHER: &[Row] = &[
    three!(
        LITTLE,
        INFO,
        &[
            0x11, 0x02, 0x03, 0x0b, 0, 0, 0, 0x88, 0x77, 0x66, 0x55, 0x44, 0x33, 0x22, 0x11, 0x13,
            0x02, 0x03, 0x1a, 0, 0, 0, 0x88, 0x77, 0x66, 0x55, 0x44, 0x33, 0x22, 0x11, 0x17, 0x02,
            0x03, 0x29, 0, 0, 0, 0x88, 0x77, 0x66, 0x55, 0x44, 0x33, 0x22, 0x11,
        ]
    ),
    three!(
        BIG,
        INFO,
        &[
            0x11, 0x03, 0x02, 0, 0, 0, 0x0b, 0x11, 0x22, 0x33, 0x44, 0x55, 0x66, 0x77, 0x88, 0x13,
            0x03, 0x02, 0, 0, 0, 0x1a, 0x11, 0x22, 0x33, 0x44, 0x55, 0x66, 0x77, 0x88, 0x17, 0x03,
            0x02, 0, 0, 0, 0x29, 0x11, 0x22, 0x33, 0x44, 0x55, 0x66, 0x77, 0x88,
        ]
    ),
    three!(BIG, SectionId::DebugStr, b"a\0bcd\0e\0"),
    empty!(BIG, &[], Ok(true)),
    // A set of another order is refused, and the first such set is named.
    empty!(
        LITTLE,
        &[(BIG, &[])],
        Err(LinkError::MixedByteOrder { set: 0 })
    ),
    empty!(
        LITTLE,
        &[(LITTLE, &[]), (BIG, &[]), (BIG, &[])],
        Err(LinkError::MixedByteOrder { set: 1 })
    ),
];

/// Eight zeros with a pointer to symbol 0.
macro_rules! pointer {
    ($offset:expr, $size:expr, $encoding:expr, $target:expr) => {
        (
            LITTLE,
            &[Part {
                section: SectionId::EhFrame,
                bytes: &[0; 8],
                relocations: &[Relocation {
                    offset: $offset,
                    size: $size,
                    target: $target,
                    addend: 0,
                    eh_pe: Some(DwEhPe($encoding)),
                }],
            }],
        )
    };
}

/// Two such sets, where symbol 0 has a value.
macro_rules! pointers {
    ($offset:expr, $size:expr, $encoding:expr, $value:expr, $wanted:expr, $joined:expr) => {
        Row {
            endian: LITTLE,
            sets: &[
                pointer!($offset, $size, $encoding, RelocationTarget::Symbol(0)),
                pointer!($offset, $size, $encoding, RelocationTarget::Symbol(0)),
            ],
            symbols: &[$value],
            section: SectionId::EhFrame,
            wanted: $wanted,
            bytes: $joined,
        }
    };
}

/// A fault of the relocation of a set.
macro_rules! at_frame {
    ($fault:ident, $set:expr) => {
        Err(LinkError::$fault {
            set: $set,
            section: SectionId::EhFrame,
            index: 0,
        })
    };
}

macro_rules! refused_pointers {
    ($offset:expr, $size:expr, $encoding:expr) => {
        pointers!($offset, $size, $encoding, 0, at_frame!(PointerEncoding, 0), &[])
    };
}

const POINTERS: &[Row] = &[
    // From zero, in each width: of an address twice, unsigned and signed.
    pointers!(
        0,
        8,
        0x00,
        0x1234,
        Ok(true),
        &[0x34, 0x12, 0, 0, 0, 0, 0, 0, 0x34, 0x12, 0, 0, 0, 0, 0, 0]
    ),
    pointers!(
        4,
        2,
        0x00,
        0x1234,
        Ok(true),
        &[0, 0, 0, 0, 0x34, 0x12, 0, 0, 0, 0, 0, 0, 0x34, 0x12, 0, 0]
    ),
    pointers!(
        2,
        2,
        0x02,
        0x1234,
        Ok(true),
        &[0, 0, 0x34, 0x12, 0, 0, 0, 0, 0, 0, 0x34, 0x12, 0, 0, 0, 0]
    ),
    pointers!(
        2,
        2,
        0x0a,
        0x1234,
        Ok(true),
        &[0, 0, 0x34, 0x12, 0, 0, 0, 0, 0, 0, 0x34, 0x12, 0, 0, 0, 0]
    ),
    pointers!(
        0,
        4,
        0x03,
        0x1234,
        Ok(true),
        &[0x34, 0x12, 0, 0, 0, 0, 0, 0, 0x34, 0x12, 0, 0, 0, 0, 0, 0]
    ),
    pointers!(
        0,
        8,
        0x04,
        0x1234,
        Ok(true),
        &[0x34, 0x12, 0, 0, 0, 0, 0, 0, 0x34, 0x12, 0, 0, 0, 0, 0, 0]
    ),
    // From their place, also indirect ones, and backward.
    pointers!(
        4,
        4,
        0x1b,
        0x1000,
        Ok(true),
        &[0, 0, 0, 0, 0xfc, 0x0f, 0, 0, 0, 0, 0, 0, 0xf4, 0x0f, 0, 0]
    ),
    pointers!(
        4,
        4,
        0x9b,
        0x1000,
        Ok(true),
        &[0, 0, 0, 0, 0xfc, 0x0f, 0, 0, 0, 0, 0, 0, 0xf4, 0x0f, 0, 0]
    ),
    pointers!(
        0,
        4,
        0x1b,
        0,
        Ok(true),
        &[0, 0, 0, 0, 0, 0, 0, 0, 0xf8, 0xff, 0xff, 0xff, 0, 0, 0, 0]
    ),
    pointers!(
        0,
        8,
        0x10,
        0,
        Ok(true),
        &[
            0, 0, 0, 0, 0, 0, 0, 0, 0xf8, 0xff, 0xff, 0xff, 0xff, 0xff, 0xff, 0xff,
        ]
    ),
    // LEB128, what counts from the text, another width than the format's, also outside the section,
    // and a pointer to a section.
    refused_pointers!(0, 8, 0x01),
    refused_pointers!(0, 8, 0x09),
    refused_pointers!(0, 4, 0x2b),
    refused_pointers!(0, 8, 0x1b),
    refused_pointers!(9, 2, 0x03),
    Row {
        endian: LITTLE,
        sets: &[pointer!(0, 4, 0x1b, RelocationTarget::Section(SectionId::EhFrame))],
        symbols: &[],
        section: SectionId::EhFrame,
        wanted: at_frame!(PointerEncoding, 0),
        bytes: &[],
    },
    // A width that no number has, and pointers that don't fit: one that counts backward without a
    // sign, and one past the largest number without and with a sign.
    pointers!(0, 3, 0x00, 0, at_frame!(RecordOutOfPlace, 0), &[]),
    pointers!(0, 2, 0x12, 0, at_frame!(ValueTooLarge, 1), &[]),
    pointers!(0, 2, 0x02, 0x1_0000, at_frame!(ValueTooLarge, 0), &[]),
    pointers!(0, 4, 0x0b, 0x8000_0000, at_frame!(ValueTooLarge, 0), &[]),
];

/// The tables, behind a function so that no proof but this one's looks into them.
fn tables() -> [&'static [Row]; 3] {
    [ALONE, TOGETHER, POINTERS]
}

/// Adds bytes and relocations to a section.
fn fill_section(section: &mut RelocVec<RunTimeEndian>, part: &Part) -> Result<()> {
    section.write(part.bytes)?;
    for relocation in part.relocations {
        section.relocate(*relocation)?;
    }
    Ok(())
}

fn fill(set: &mut Set, parts: &[Part]) -> Result<()> {
    for part in parts {
        match part.section {
            SectionId::DebugStr => fill_section(&mut set.debug_str.0, part)?,
            SectionId::EhFrame => fill_section(&mut set.eh_frame.0, part)?,
            _ => fill_section(&mut set.debug_info.0, part)?,
        }
    }
    Ok(())
}

/// Adds a set to a list: whether there is memory for it.
fn add_set(alloc: Global, sets: &mut Vec<Set>, endian: RunTimeEndian, parts: &[Part]) -> bool {
    let Ok(mut set) = Sections::new(alloc, RelocVec::new(alloc, endian)) else {
        return false;
    };
    let filled = fill(&mut set, parts);
    sets.push(set).is_ok() && filled.is_ok()
}

fn add_sets(alloc: Global, sets: &mut Vec<Set>, row: Row) -> bool {
    for (endian, parts) in row.sets {
        if !add_set(alloc, sets, *endian, parts) {
            return false;
        }
    }
    true
}

/// Whether a joined section holds the bytes of a row.
fn seen(joined: &Joined, row: Row) -> Answer {
    match joined {
        Ok(sections) => {
            let found = match row.section {
                SectionId::DebugStr => sections.debug_str.0.slice(),
                SectionId::EhFrame => sections.eh_frame.0.slice(),
                _ => sections.debug_info.0.slice(),
            };
            Ok(found == row.bytes)
        }
        Err(error) => Err(*error),
    }
}

/// What becomes of the sets of a row; None where memory lacks for them.
fn answer(alloc: Global, row: Row) -> Option<Answer> {
    let mut sets = Vec::new(alloc);
    let Ok(symbols) = Vec::from_slice(alloc, row.symbols) else {
        return None;
    };
    if !add_sets(alloc, &mut sets, row) {
        return None;
    }
    Some(seen(&link(alloc, row.endian, &sets, &symbols), row))
}

/// The first row of a table with another answer than the one that is wanted.
fn first_missed(alloc: Global, rows: &[Row]) -> Option<(usize, Option<Answer>)> {
    for (number, row) in rows.iter().enumerate() {
        let found = answer(alloc, *row);
        if found != Some(row.wanted) {
            return Some((number, found));
        }
    }
    None
}

#[test]
fn joins_sets(rt: HostRuntime) {
    for (table, rows) in tables().iter().enumerate() {
        let missed = first_missed(rt.alloc(), rows);
        assert_eq!(rt; (table, missed), (table, None));
    }
}
