//! Tables as whole sections, by the layouts of the standards (DWARF 5, 6.4.1; Linux Standard Base
//! Core 5.0, 10.6).

use super::rules::Rule;
use super::{ENCODING, PLAIN, Plan, SMALL, add, cie_of, is_section, section_of};
use dw_base::constants::DW_EH_PE_absptr;
use dw_base::{
    Address, DwEhPe, Encoding, Error, Format, Register, Result, RunTimeEndian, SectionId,
};
use dw_frame::FrameTable;
use std::alloc::Global;

const DEBUG: SectionId = SectionId::DebugFrame;

const EH: SectionId = SectionId::EhFrame;

const WIDE: Plan<'static> = Plan {
    encoding: Encoding {
        format: Format::Dwarf64,
        ..ENCODING
    },
    ..PLAIN
};

const FIRST: Plan<'static> = Plan {
    address: Address::Constant(1),
    length: 2,
    ..PLAIN
};

const SECOND: Plan<'static> = Plan {
    code_factor: 2,
    ..FIRST
};

/// Everything that can be announced, each pointer in four bytes from its place.
const AUGMENTED: Plan<'static> = Plan {
    personality: Some((DwEhPe(0x1b), Address::Constant(0x1235))),
    lsda_encoding: Some(DwEhPe(0x1b)),
    fde_address_encoding: DwEhPe(0x1b),
    signal_trampoline: true,
    address: Address::Constant(0x5000),
    lsda: Some(Address::Constant(0x6000)),
    ..PLAIN
};

macro_rules! versioned {
    ($version:expr, $address_size:expr) => {
        Plan {
            encoding: Encoding {
                address_size: $address_size,
                format: Format::Dwarf32,
                version: $version,
            },
            register: Register(256),
            ..PLAIN
        }
    };
}

macro_rules! with_data {
    ($encoding:expr, $data:expr) => {
        Plan {
            lsda_encoding: $encoding,
            address: Address::Constant(0),
            length: 0,
            lsda: $data,
            ..PLAIN
        }
    };
}

const ZERO: Option<Address> = Some(Address::Constant(0));

const SYMBOL: Option<Address> = Some(Address::Symbol {
    symbol: 0,
    addend: 0,
});

/// Tables and what a section holds of them, or why it refuses them.
const WRITTEN: &[(&[Plan<'static>], SectionId, Result<bool>, &[u8])] = &[
    (&[PLAIN], DEBUG, Ok(true), SMALL),
    (
        &[PLAIN],
        EH,
        Ok(true),
        &[
            0x0c, 0, 0, 0, 0, 0, 0, 0, 0x01, 0x00, 0x01, 0x08, 0x10, 0, 0, 0, //
            0x14, 0, 0, 0, 0x14, 0, 0, 0, 0x00, 0x10, 0, 0, 0, 0, 0, 0, 0x10, 0, 0, 0, 0, 0, 0, 0,
        ],
    ),
    // The address size stands in version 4.
    (
        &[Plan {
            encoding: Encoding {
                address_size: 4,
                format: Format::Dwarf32,
                version: 4,
            },
            code_factor: 4,
            data_factor: -4,
            register: Register(14),
            cie: &[Rule::Cfa(13, 0)],
            ..PLAIN
        }],
        DEBUG,
        Ok(true),
        &[
            0x10, 0, 0, 0, 0xff, 0xff, 0xff, 0xff, 4, 0, 4, 0, 4, 0x7c, 0x0e, 0x0c, 0x0d, 0, 0, 0,
            0x0c, 0, 0, 0, 0, 0, 0, 0, 0, 0x10, 0, 0, 0x10, 0, 0, 0,
        ],
    ),
    // From version 3 on the register is as wide as it has to be.
    (
        &[Plan {
            encoding: Encoding {
                version: 3,
                ..ENCODING
            },
            data_factor: -8,
            register: Register(200),
            ..PLAIN
        }],
        DEBUG,
        Ok(true),
        &[
            0x0c, 0, 0, 0, 0xff, 0xff, 0xff, 0xff, 3, 0, 1, 0x78, 0xc8, 1, 0, 0, //
            0x14, 0, 0, 0, 0, 0, 0, 0, 0, 0x10, 0, 0, 0, 0, 0, 0, 0x10, 0, 0, 0, 0, 0, 0, 0,
        ],
    ),
    // In `.eh_frame` version 1 has wide registers too.
    (
        &[versioned!(1, 8)],
        EH,
        Ok(true),
        &[
            0x0c, 0, 0, 0, 0, 0, 0, 0, 1, 0, 1, 8, 0x80, 2, 0, 0, //
            0x14, 0, 0, 0, 0x14, 0, 0, 0, 0, 0x10, 0, 0, 0, 0, 0, 0, 0x10, 0, 0, 0, 0, 0, 0, 0,
        ],
    ),
    (
        &[WIDE],
        DEBUG,
        Ok(true),
        &[
            0xff, 0xff, 0xff, 0xff, 0x10, 0, 0, 0, 0, 0, 0, 0, //
            0xff, 0xff, 0xff, 0xff, 0xff, 0xff, 0xff, 0xff, 1, 0, 1, 8, 0x10, 0, 0, 0, //
            0xff, 0xff, 0xff, 0xff, 0x18, 0, 0, 0, 0, 0, 0, 0, 0, 0, 0, 0, 0, 0, 0, 0, //
            0, 0x10, 0, 0, 0, 0, 0, 0, 0x10, 0, 0, 0, 0, 0, 0, 0,
        ],
    ),
    (
        &[WIDE],
        EH,
        Ok(true),
        &[
            0xff, 0xff, 0xff, 0xff, 0x10, 0, 0, 0, 0, 0, 0, 0, //
            0, 0, 0, 0, 1, 0, 1, 8, 0x10, 0, 0, 0, 0, 0, 0, 0, //
            0xff, 0xff, 0xff, 0xff, 0x18, 0, 0, 0, 0, 0, 0, 0, 0x28, 0, 0, 0, //
            0, 0x10, 0, 0, 0, 0, 0, 0, 0x10, 0, 0, 0, 0, 0, 0, 0, 0, 0, 0, 0,
        ],
    ),
    // An entry stands before its first use, and later uses lead back to it.
    (
        &[FIRST, SECOND, FIRST],
        DEBUG,
        Ok(true),
        &[
            0x0c, 0, 0, 0, 0xff, 0xff, 0xff, 0xff, 1, 0, 1, 8, 0x10, 0, 0, 0, //
            0x14, 0, 0, 0, 0, 0, 0, 0, 1, 0, 0, 0, 0, 0, 0, 0, 2, 0, 0, 0, 0, 0, 0, 0, //
            0x0c, 0, 0, 0, 0xff, 0xff, 0xff, 0xff, 1, 0, 2, 8, 0x10, 0, 0, 0, //
            0x14, 0, 0, 0, 0x28, 0, 0, 0, 1, 0, 0, 0, 0, 0, 0, 0, 2, 0, 0, 0, 0, 0, 0, 0, //
            0x14, 0, 0, 0, 0, 0, 0, 0, 1, 0, 0, 0, 0, 0, 0, 0, 2, 0, 0, 0, 0, 0, 0, 0,
        ],
    ),
    (
        &[FIRST, SECOND, FIRST],
        EH,
        Ok(true),
        &[
            0x0c, 0, 0, 0, 0, 0, 0, 0, 1, 0, 1, 8, 0x10, 0, 0, 0, //
            0x14, 0, 0, 0, 0x14, 0, 0, 0, 1, 0, 0, 0, 0, 0, 0, 0, 2, 0, 0, 0, 0, 0, 0, 0, //
            0x0c, 0, 0, 0, 0, 0, 0, 0, 1, 0, 2, 8, 0x10, 0, 0, 0, //
            0x14, 0, 0, 0, 0x14, 0, 0, 0, 1, 0, 0, 0, 0, 0, 0, 0, 2, 0, 0, 0, 0, 0, 0, 0, //
            0x14, 0, 0, 0, 0x54, 0, 0, 0, 1, 0, 0, 0, 0, 0, 0, 0, 2, 0, 0, 0, 0, 0, 0, 0,
        ],
    ),
    // Instructions of both entries.
    (
        &[Plan {
            data_factor: -8,
            cie: &[Rule::Cfa(7, 8)],
            address: Address::Constant(0),
            length: 1,
            fde: &[(4, Rule::CfaOffset(16)), (4, Rule::Offset(6, -16))],
            ..PLAIN
        }],
        DEBUG,
        Ok(true),
        &[
            0x0c, 0, 0, 0, 0xff, 0xff, 0xff, 0xff, 1, 0, 1, 0x78, 0x10, 0x0c, 7, 8, //
            0x1c, 0, 0, 0, 0, 0, 0, 0, 0, 0, 0, 0, 0, 0, 0, 0, 1, 0, 0, 0, 0, 0, 0, 0, //
            0x44, 0x0e, 0x10, 0x86, 2, 0, 0, 0,
        ],
    ),
    // Pointers to data alone, and then everything.
    (
        &[Plan {
            lsda_encoding: Some(DW_EH_PE_absptr),
            lsda: Some(Address::Constant(0x2000)),
            ..PLAIN
        }],
        DEBUG,
        Ok(true),
        &[
            0x14, 0, 0, 0, 0xff, 0xff, 0xff, 0xff, 1, b'z', b'L', 0, 1, 8, 0x10, 1, 0, 0, 0, 0, 0,
            0, 0, 0, //
            0x24, 0, 0, 0, 0, 0, 0, 0, 0, 0x10, 0, 0, 0, 0, 0, 0, 0x10, 0, 0, 0, 0, 0, 0, 0, //
            8, 0, 0x20, 0, 0, 0, 0, 0, 0, 0, 0, 0, 0, 0, 0, 0,
        ],
    ),
    (
        &[AUGMENTED],
        EH,
        Ok(true),
        &[
            0x1c, 0, 0, 0, 0, 0, 0, 0, 1, b'z', b'L', b'P', b'R', b'S', 0, 1, 8, 0x10, //
            7, 0x1b, 0x1b, 0x20, 0x12, 0, 0, 0x1b, 0, 0, 0, 0, 0, 0, //
            0x14, 0, 0, 0, 0x24, 0, 0, 0, 0xd8, 0x4f, 0, 0, 0x10, 0, 0, 0, //
            4, 0xcf, 0x5f, 0, 0, 0, 0, 0,
        ],
    ),
    // A signed format counts backward too: the FDE lies 16 bytes before the place of its address.
    (
        &[Plan {
            fde_address_encoding: DwEhPe(0x1b),
            address: Address::Constant(0x10),
            ..PLAIN
        }],
        DEBUG,
        Ok(true),
        &[
            0x14, 0, 0, 0, 0xff, 0xff, 0xff, 0xff, 1, b'z', b'R', 0, 1, 8, 0x10, 1, 0x1b, 0, 0, 0,
            0, 0, 0, 0, //
            0x14, 0, 0, 0, 0, 0, 0, 0, 0xf0, 0xff, 0xff, 0xff, 0x10, 0, 0, 0, 0, 0, 0, 0, 0, 0, 0,
            0,
        ],
    ),
    // An address in LEB128, and one in two signed bytes that count from the place 32.
    (
        &[Plan {
            fde_address_encoding: DwEhPe(0x01),
            ..PLAIN
        }],
        DEBUG,
        Ok(true),
        &[
            0x14, 0, 0, 0, 0xff, 0xff, 0xff, 0xff, 1, b'z', b'R', 0, 1, 8, 0x10, 1, 0x01, 0, 0, 0,
            0, 0, 0, 0, //
            0x0c, 0, 0, 0, 0, 0, 0, 0, 0x80, 0x20, 0x10, 0, 0, 0, 0, 0,
        ],
    ),
    (
        &[Plan {
            fde_address_encoding: DwEhPe(0x1a),
            ..PLAIN
        }],
        DEBUG,
        Ok(true),
        &[
            0x14, 0, 0, 0, 0xff, 0xff, 0xff, 0xff, 1, b'z', b'R', 0, 1, 8, 0x10, 1, 0x1a, 0, 0, 0,
            0, 0, 0, 0, //
            0x0c, 0, 0, 0, 0, 0, 0, 0, 0xe0, 0x0f, 0x10, 0, 0, 0, 0, 0,
        ],
    ),
    (
        &[versioned!(2, 8)],
        DEBUG,
        Err(Error::UnsupportedVersion(2)),
        &[],
    ),
    (
        &[versioned!(3, 8)],
        EH,
        Err(Error::UnsupportedVersion(3)),
        &[],
    ),
    (
        &[versioned!(4, 3)],
        DEBUG,
        Err(Error::UnsupportedWordSize(3)),
        &[],
    ),
    // In version 1 `.debug_frame` has a byte for the register.
    (&[versioned!(1, 8)], DEBUG, Err(Error::ValueTooLarge), &[]),
    // The address 0x1000 has no room in one byte, nor this length in two.
    (&[versioned!(1, 1)], EH, Err(Error::ValueTooLarge), &[]),
    (
        &[Plan {
            address: Address::Constant(0),
            length: 0x1_0000,
            ..versioned!(1, 2)
        }],
        EH,
        Err(Error::ValueTooLarge),
        &[],
    ),
    (
        &[with_data!(None, ZERO)],
        DEBUG,
        Err(Error::LsdaMismatch),
        &[],
    ),
    (
        &[with_data!(Some(DwEhPe(0)), None)],
        DEBUG,
        Err(Error::LsdaMismatch),
        &[],
    ),
    (
        &[with_data!(Some(DwEhPe(0x20)), ZERO)],
        DEBUG,
        Err(Error::UnsupportedPointerEncoding(DwEhPe(0x20))),
        &[],
    ),
    // A plain section takes no symbols.
    (
        &[with_data!(Some(DwEhPe(0)), SYMBOL)],
        DEBUG,
        Err(Error::InvalidAddress),
        &[],
    ),
    // An unsigned format doesn't count backward.
    (
        &[Plan {
            fde_address_encoding: DwEhPe(0x13),
            address: Address::Constant(0x10),
            ..PLAIN
        }],
        DEBUG,
        Err(Error::ValueTooLarge),
        &[],
    ),
];

/// The table, behind a function so that no proof but this one's looks into it.
fn written() -> &'static [(
    &'static [Plan<'static>],
    SectionId,
    Result<bool>,
    &'static [u8],
)] {
    WRITTEN
}

/// Whether a table is written as these bytes.
fn is_written(alloc: Global, plans: &[Plan<'_>], id: SectionId, bytes: &[u8]) -> Result<bool> {
    let section = section_of(alloc, plans, id)?;
    Ok(section.slice() == bytes)
}

#[test]
fn writes_whole_sections(rt: HostRuntime) {
    for (number, case) in written().iter().enumerate() {
        let (plans, id, wanted, bytes) = *case;
        let answer = is_written(rt.alloc(), plans, id, bytes);
        assert_eq!(rt; (number, answer), (number, wanted));
    }
}

const UNUSED: Plan<'static> = Plan {
    code_factor: 4,
    data_factor: -8,
    ..PLAIN
};

/// Adds a CIE, the plain entries, and the CIE again: its ids.
fn add_twice(alloc: Global, frames: &mut FrameTable) -> Result<[usize; 2]> {
    let first = frames.add_cie(cie_of(alloc, &UNUSED)?)?.index();
    add(alloc, frames, &PLAIN)?;
    let again = frames.add_cie(cie_of(alloc, &UNUSED)?)?.index();
    Ok([first, again])
}

#[test]
fn keeps_equal_entries_once(rt: HostRuntime) {
    let alloc = rt.alloc();
    let mut frames = FrameTable::new(alloc);
    let ids = add_twice(alloc, &mut frames);
    let counts = [frames.cie_count(), frames.fde_count()];
    // What isn't used isn't written.
    let is_small = is_section(alloc, &frames, DEBUG, RunTimeEndian::Little, SMALL);
    assert_eq!(rt; (ids, counts, is_small), (Ok([0, 0]), [2, 1], Ok(true)));
}
