//! Tables of call frames that are linked. The bytes are taken from the layouts of the standards
//! (DWARF 5, 6.4.1; Linux Standard Base Core 5.0, 10.6).

use super::{PLAIN, Plan, add};
use dw_base::{Address, DwEhPe, Error, RunTimeEndian, SectionId};
use dw_frame::FrameTable;
use dw_link::LinkError;
use dw_link_frames::{LinkFrameError, link_tables};
use dw_writer::{EndianVec, Sections, Writer};
use std::alloc::Global;

type Joined = std::result::Result<Sections<EndianVec<RunTimeEndian>>, LinkFrameError>;

type Answer = std::result::Result<bool, LinkFrameError>;

/// Tables of one FDE each, and what becomes of them: whether the section of their kind holds some
/// bytes, and the other none.
#[derive(Clone, Copy)]
struct Row {
    endian: RunTimeEndian,
    id: SectionId,
    tables: &'static [Plan<'static>],
    wanted: Answer,
    bytes: &'static [u8],
}

const LITTLE: RunTimeEndian = RunTimeEndian::Little;

const BIG: RunTimeEndian = RunTimeEndian::Big;

const DEBUG: SectionId = SectionId::DebugFrame;

const EH: SectionId = SectionId::EhFrame;

/// A table whose FDE has its address in an encoding.
macro_rules! at {
    ($encoding:expr, $address:expr) => {
        Plan {
            fde_address_encoding: DwEhPe($encoding),
            address: $address,
            ..PLAIN
        }
    };
}

macro_rules! symbol {
    ($symbol:expr, $addend:expr) => {
        Address::Symbol {
            symbol: $symbol,
            addend: $addend,
        }
    };
}

/// Two tables.
macro_rules! two {
    ($endian:expr, $id:expr, $encoding:expr, $one:expr, $two:expr, $wanted:expr, $bytes:expr) => {
        Row {
            endian: $endian,
            id: $id,
            tables: &[at!($encoding, $one), at!($encoding, $two)],
            wanted: $wanted,
            bytes: $bytes,
        }
    };
}

/// A fault of what was written of a table.
macro_rules! not_linked {
    ($fault:ident, $set:expr) => {
        Err(LinkFrameError::Link(LinkError::$fault {
            set: $set,
            section: EH,
            index: 0,
        }))
    };
}

const ROWS: &[Row] = &[
    // Pointers count from where they come to stand.
    two!(
        LITTLE,
        EH,
        0x1b,
        symbol!(0, 0),
        symbol!(1, 0),
        Ok(true),
        &[
            0x14, 0, 0, 0, 0, 0, 0, 0, 0x01, 0x7a, 0x52, 0, 0x01, 0x08, 0x10, 0x01, 0x1b, 0, 0, 0,
            0, 0, 0, 0, //
            0x14, 0, 0, 0, 0x1c, 0, 0, 0, 0xe0, 0x0f, 0, 0, 0x10, 0, 0, 0, 0, 0, 0, 0, 0, 0, 0, 0,
            //
            0x14, 0, 0, 0, 0, 0, 0, 0, 0x01, 0x7a, 0x52, 0, 0x01, 0x08, 0x10, 0x01, 0x1b, 0, 0, 0,
            0, 0, 0, 0, //
            0x14, 0, 0, 0, 0x1c, 0, 0, 0, 0xb0, 0x1f, 0, 0, 0x10, 0, 0, 0, 0, 0, 0, 0, 0, 0, 0, 0,
        ]
    ),
    // Each FDE leads to the CIE of its own table.
    two!(
        LITTLE,
        DEBUG,
        0x00,
        symbol!(0, 0),
        symbol!(1, 0),
        Ok(true),
        &[
            0x0c, 0, 0, 0, 0xff, 0xff, 0xff, 0xff, 0x01, 0x00, 0x01, 0x08, 0x10, 0, 0, 0, //
            0x14, 0, 0, 0, 0, 0, 0, 0, 0x00, 0x10, 0, 0, 0, 0, 0, 0, 0x10, 0, 0, 0, 0, 0, 0, 0, //
            0x0c, 0, 0, 0, 0xff, 0xff, 0xff, 0xff, 0x01, 0x00, 0x01, 0x08, 0x10, 0, 0, 0, //
            0x14, 0, 0, 0, 0x28, 0, 0, 0, 0x00, 0x20, 0, 0, 0, 0, 0, 0, 0x10, 0, 0, 0, 0, 0, 0, 0,
        ]
    ),
    two!(
        BIG,
        DEBUG,
        0x00,
        symbol!(0, 0),
        symbol!(1, 4),
        Ok(true),
        &[
            0, 0, 0, 0x0c, 0xff, 0xff, 0xff, 0xff, 0x01, 0x00, 0x01, 0x08, 0x10, 0, 0, 0, //
            0, 0, 0, 0x14, 0, 0, 0, 0, 0, 0, 0, 0, 0, 0, 0x10, 0x00, 0, 0, 0, 0, 0, 0, 0, 0x10, //
            0, 0, 0, 0x0c, 0xff, 0xff, 0xff, 0xff, 0x01, 0x00, 0x01, 0x08, 0x10, 0, 0, 0, //
            0, 0, 0, 0x14, 0, 0, 0, 0x28, 0, 0, 0, 0, 0, 0, 0x20, 0x04, 0, 0, 0, 0, 0, 0, 0, 0x10,
        ]
    ),
    // A linker learns nothing of a pointer to a known address, so that the second counts from its
    // own table's begin.
    two!(
        BIG,
        EH,
        0x1b,
        symbol!(0, 0),
        Address::Constant(0x1000),
        Ok(true),
        &[
            0, 0, 0, 0x14, 0, 0, 0, 0, 0x01, 0x7a, 0x52, 0, 0x01, 0x08, 0x10, 0x01, 0x1b, 0, 0, 0,
            0, 0, 0, 0, //
            0, 0, 0, 0x14, 0, 0, 0, 0x1c, 0, 0, 0x0f, 0xe0, 0, 0, 0, 0x10, 0, 0, 0, 0, 0, 0, 0, 0,
            //
            0, 0, 0, 0x14, 0, 0, 0, 0, 0x01, 0x7a, 0x52, 0, 0x01, 0x08, 0x10, 0x01, 0x1b, 0, 0, 0,
            0, 0, 0, 0, //
            0, 0, 0, 0x14, 0, 0, 0, 0x1c, 0, 0, 0x0f, 0xe0, 0, 0, 0, 0x10, 0, 0, 0, 0, 0, 0, 0, 0,
        ]
    ),
    Row {
        endian: LITTLE,
        id: EH,
        tables: &[],
        wanted: Ok(true),
        bytes: &[],
    },
    // The first table that isn't written, a symbol that isn't there, a pointer that doesn't fit,
    // and one that counts from the text.
    two!(
        LITTLE,
        EH,
        0x1b,
        symbol!(0, 0),
        Address::Constant(0x1_0000_0000),
        Err(LinkFrameError::Write {
            set: 1,
            error: Error::ValueTooLarge,
        }),
        &[]
    ),
    two!(
        LITTLE,
        EH,
        0x00,
        symbol!(0, 0),
        symbol!(2, 0),
        not_linked!(UnknownSymbol, 1),
        &[]
    ),
    two!(
        LITTLE,
        EH,
        0x1b,
        symbol!(0, 0x8000_0000),
        symbol!(1, 0),
        not_linked!(ValueTooLarge, 0),
        &[]
    ),
    two!(
        LITTLE,
        EH,
        0x2b,
        symbol!(0, 0),
        symbol!(1, 0),
        not_linked!(PointerEncoding, 0),
        &[]
    ),
];

fn rows() -> &'static [Row] {
    ROWS
}

/// Adds the table of a plan to a list: whether there is memory for it.
fn add_table(alloc: Global, tables: &mut Vec<FrameTable>, plan: &Plan<'_>) -> bool {
    let mut frames = FrameTable::new(alloc);
    let added = add(alloc, &mut frames, plan);
    tables.push(frames).is_ok() && added.is_ok()
}

fn add_tables(alloc: Global, tables: &mut Vec<FrameTable>, plans: &[Plan<'_>]) -> bool {
    for plan in plans {
        if !add_table(alloc, tables, plan) {
            return false;
        }
    }
    true
}

/// Whether the section of a row's kind holds its bytes, and the other none.
fn seen(joined: &Joined, row: Row) -> Answer {
    match joined {
        Ok(sections) => {
            let eh_frame = sections.eh_frame.0.slice();
            let debug_frame = sections.debug_frame.0.slice();
            let none: &[u8] = &[];
            let wanted = if row.id == EH {
                (row.bytes, none)
            } else {
                (none, row.bytes)
            };
            Ok((eh_frame, debug_frame) == wanted)
        }
        Err(error) => Err(*error),
    }
}

/// What becomes of the tables of a row, where symbol 0 is 0x1000 and symbol 1 is 0x2000; None where
/// memory lacks for them.
fn answer(alloc: Global, row: Row) -> Option<Answer> {
    let mut tables = Vec::new(alloc);
    let Ok(symbols) = Vec::from_slice(alloc, &[0x1000, 0x2000]) else {
        return None;
    };
    if !add_tables(alloc, &mut tables, row.tables) {
        return None;
    }
    let joined = link_tables(alloc, row.endian, &tables, row.id == EH, &symbols);
    Some(seen(&joined, row))
}

#[test]
fn links_tables(rt: HostRuntime) {
    for (number, row) in rows().iter().enumerate() {
        let found = answer(rt.alloc(), *row);
        assert_eq!(rt; (number, found), (number, Some(row.wanted)));
    }
}
