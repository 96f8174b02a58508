//! Units, written with relocations. Zeros stand for what a linker puts in.

use crate::building::{Call, How, Value};
use crate::plans::{Plan, ROOT, Told, write_plans};
use crate::writing::drop;
use dw_base::constants::{DW_AT_location, DW_AT_low_pc, DW_AT_macros, DW_AT_ranges, DW_AT_type};
use dw_dwarf::{
    Address, DebugInfoRef, Error, LittleEndian, Range, Result, SectionId, Sections, UnitEntryId,
    UnitId,
};
use dw_writer::{RelocVec, Relocation, RelocationTarget};
use std::alloc::Global;

/// Units with why they are refused, or the bytes and relocations that they are written as.
struct Row {
    name: &'static str,
    units: &'static [Plan],
    refusal: Option<Error>,
    info: &'static [u8],
    abbrevs: &'static [u8],
    in_info: &'static [Relocation],
    in_lists: &'static [Relocation],
    in_locations: &'static [Relocation],
}

/// What a linker puts into the first unit: the start of the table's section.
const FIRST_TABLE: Relocation = Relocation {
    offset: 8,
    size: 4,
    target: RelocationTarget::Section(SectionId::DebugAbbrev),
    addend: 0,
    eh_pe: None,
};

/// An address 16 bytes behind symbol 3.
const SYMBOL: Address = Address::Symbol {
    symbol: 3,
    addend: 16,
};

/// Where symbol 0 is.
const FIRST_SYMBOL: Address = Address::Symbol {
    symbol: 0,
    addend: 0,
};

/// 16 bytes behind symbol 0.
const RANGE: Range = Range::StartLength {
    begin: FIRST_SYMBOL,
    length: 16,
};

const OWN_ROOT: DebugInfoRef = DebugInfoRef::Entry(UnitId(0), UnitEntryId(0));

const NEXT_ROOT: DebugInfoRef = DebugInfoRef::Entry(UnitId(1), UnitEntryId(0));

const ROWS: &[Row] = &[
    // Behind the root's code an address and an offset (DWARF 5, 7.5.1.1). The table has code 1,
    // DW_TAG_compile_unit, no children, DW_AT_low_pc as DW_FORM_addr and DW_AT_macros as
    // DW_FORM_sec_offset (7.5.3).
    Row {
        name: "a symbol and a place in another section",
        units: &[Plan {
            calls: &[
                Call::Put(How::Set, 0, DW_AT_low_pc, Value::Address(SYMBOL)),
                Call::Put(How::Set, 0, DW_AT_macros, Value::Macros(0x22)),
            ],
            ..ROOT
        }],
        refusal: None,
        info: &[
            21, 0, 0, 0, 5, 0, 1, 8, 0, 0, 0, 0, 1, 0, 0, 0, 0, 0, 0, 0, 0, 0, 0, 0, 0,
        ],
        abbrevs: &[1, 0x11, 0, 0x11, 1, 0x79, 0x17, 0, 0, 0],
        in_info: &[
            FIRST_TABLE,
            Relocation {
                offset: 13,
                size: 8,
                target: RelocationTarget::Symbol(3),
                addend: 16,
                ..FIRST_TABLE
            },
            Relocation {
                offset: 21,
                target: RelocationTarget::Section(SectionId::DebugMacro),
                addend: 0x22,
                ..FIRST_TABLE
            },
        ],
        in_lists: &[],
        in_locations: &[],
    },
    // The table of the second unit stands at 8, and its root at 12 behind the 17 bytes of the
    // first. The reference comes last, as it is filled in once both units stand.
    Row {
        name: "a reference across units",
        units: &[
            Plan {
                calls: &[Call::Put(How::Set, 0, DW_AT_type, Value::InfoRef(NEXT_ROOT))],
                ..ROOT
            },
            ROOT,
        ],
        refusal: None,
        info: &[
            13, 0, 0, 0, 5, 0, 1, 8, 0, 0, 0, 0, 1, 0, 0, 0, 0, 9, 0, 0, 0, 5, 0, 1, 8, 0, 0, 0, 0,
            1,
        ],
        abbrevs: &[1, 0x11, 0, 0x49, 0x10, 0, 0, 0, 1, 0x11, 0, 0, 0, 0],
        in_info: &[
            FIRST_TABLE,
            Relocation {
                offset: 25,
                addend: 8,
                ..FIRST_TABLE
            },
            Relocation {
                offset: 13,
                target: RelocationTarget::Section(SectionId::DebugInfo),
                addend: 29,
                ..FIRST_TABLE
            },
        ],
        in_lists: &[],
        in_locations: &[],
    },
    // The index of the list and its offset entry hang on no section's start, but the place of the
    // first offset entry does (DWARF 5, 7.28).
    Row {
        name: "the base of range lists",
        units: &[Plan {
            calls: &[
                Call::List(RANGE),
                Call::Put(How::Set, 0, DW_AT_ranges, Value::Ranges(0)),
            ],
            ..ROOT
        }],
        refusal: None,
        info: &[14, 0, 0, 0, 5, 0, 1, 8, 0, 0, 0, 0, 1, 0, 0, 0, 0, 0],
        abbrevs: &[1, 0x11, 0, 0x55, 0x23, 0x74, 0x17, 0, 0, 0],
        in_info: &[
            FIRST_TABLE,
            Relocation {
                offset: 14,
                target: RelocationTarget::Section(SectionId::DebugRngLists),
                addend: 12,
                ..FIRST_TABLE
            },
        ],
        in_lists: &[Relocation {
            offset: 17,
            size: 8,
            target: RelocationTarget::Symbol(0),
            ..FIRST_TABLE
        }],
        in_locations: &[],
    },
    // The table has a header of 12 bytes, the list's entry, and at 16 the list: the kind
    // DW_LLE_start_length, the address at 17, one byte each for the length and for that of the
    // expression, and at 27 DW_OP_call_ref with the root's place, which is put in last, as it is
    // filled in once the unit stands (DWARF 5, 2.6.2, 7.7.1 and 7.29).
    Row {
        name: "a location list that names an entry",
        units: &[Plan {
            calls: &[
                Call::Locate(RANGE, Some(OWN_ROOT)),
                Call::Put(How::Set, 0, DW_AT_location, Value::Locations(0)),
            ],
            ..ROOT
        }],
        refusal: None,
        info: &[14, 0, 0, 0, 5, 0, 1, 8, 0, 0, 0, 0, 1, 0, 0, 0, 0, 0],
        abbrevs: &[1, 0x11, 0, 2, 0x22, 0x8c, 1, 0x17, 0, 0, 0],
        in_info: &[
            FIRST_TABLE,
            Relocation {
                offset: 14,
                target: RelocationTarget::Section(SectionId::DebugLocLists),
                addend: 12,
                ..FIRST_TABLE
            },
        ],
        in_lists: &[],
        in_locations: &[
            Relocation {
                offset: 17,
                size: 8,
                target: RelocationTarget::Symbol(0),
                ..FIRST_TABLE
            },
            Relocation {
                offset: 28,
                target: RelocationTarget::Section(SectionId::DebugInfo),
                addend: 12,
                ..FIRST_TABLE
            },
        ],
    },
    // A writer that records takes no offset that isn't below 2^63.
    Row {
        name: "a place past the largest addend",
        units: &[Plan {
            calls: &[
                Call::Put(How::Set, 0, DW_AT_low_pc, Value::Address(SYMBOL)),
                Call::Put(How::Set, 0, DW_AT_macros, Value::Macros(1 << 63)),
            ],
            is_written: false,
            ..ROOT
        }],
        refusal: Some(Error::ValueTooLarge),
        info: &[],
        abbrevs: &[],
        in_info: &[],
        in_lists: &[],
        in_locations: &[],
    },
];

/// The table, into which no other proof looks.
fn rows() -> &'static [Row] {
    ROWS
}

/// Tells whether the sections hold the bytes and the relocations that they are to.
fn holds(row: &Row, sections: &Sections<RelocVec<LittleEndian>>) -> bool {
    let is_written = (
        sections.debug_info.0.slice(),
        sections.debug_abbrev.0.slice(),
    ) == (row.info, row.abbrevs);
    let is_recorded = (
        sections.debug_info.0.relocations(),
        sections.debug_rnglists.0.relocations(),
        sections.debug_loclists.0.relocations(),
    ) == (row.in_info, row.in_lists, row.in_locations);
    is_written && is_recorded && sections.debug_abbrev.0.relocations().is_empty()
}

/// Writes the units of a row into these sections.
fn write_row(
    alloc: Global,
    row: &Row,
    sections: &mut Sections<RelocVec<LittleEndian>>,
) -> Result<Told> {
    let (refusal, is_planned) = write_plans(alloc, row.units, sections)?;
    let is_recorded = refusal.is_some() || holds(row, sections);
    Ok((refusal, is_planned && is_recorded))
}

/// Writes the units of a row into new sections.
fn write_new(alloc: Global, row: &Row) -> Result<Told> {
    let mut sections = Sections::new(alloc, RelocVec::new(alloc, LittleEndian))?;
    let told = write_row(alloc, row, &mut sections);
    drop(sections);
    told
}

#[test]
fn records_what_a_linker_puts_in(rt: HostRuntime) {
    for row in rows() {
        let told = write_new(rt.alloc(), row);
        assert!(rt; told == Ok((row.refusal, true)), "{}", row.name);
    }
}
