//! Tables that are written and read back: each field of each entry, in every version, format, order
//! of bytes and size of addresses.

use super::conversions::read_in;
use super::rules::{Body, Rule};
use super::{PLAIN, Plan, add, is_section, write};
use dw_base::constants::DW_EH_PE_absptr;
use dw_base::{Address, DwEhPe, Encoding, Format, Register, Result, RunTimeEndian, SectionId};
use dw_frame::FrameTable;
use std::alloc::Global;

/// The versions of each section.
const VERSIONS: [(u16, SectionId); 4] = [
    (1, SectionId::DebugFrame),
    (3, SectionId::DebugFrame),
    (4, SectionId::DebugFrame),
    (1, SectionId::EhFrame),
];

/// Formats, sizes of addresses and orders of bytes.
const LAYOUTS: [(Format, u8, RunTimeEndian); 8] = [
    (Format::Dwarf32, 4, RunTimeEndian::Little),
    (Format::Dwarf32, 4, RunTimeEndian::Big),
    (Format::Dwarf32, 8, RunTimeEndian::Little),
    (Format::Dwarf32, 8, RunTimeEndian::Big),
    (Format::Dwarf64, 4, RunTimeEndian::Little),
    (Format::Dwarf64, 4, RunTimeEndian::Big),
    (Format::Dwarf64, 8, RunTimeEndian::Little),
    (Format::Dwarf64, 8, RunTimeEndian::Big),
];

/// A section of some version, and how it is laid out.
#[derive(Clone, Copy)]
struct Kind {
    encoding: Encoding,
    id: SectionId,
    endian: RunTimeEndian,
}

/// Adds plans in one encoding.
fn add_in(
    alloc: Global,
    frames: &mut FrameTable,
    plans: &[Plan<'_>],
    encoding: Encoding,
) -> Result<()> {
    for plan in plans {
        add(alloc, frames, &Plan { encoding, ..*plan })?;
    }
    Ok(())
}

/// Whether a section is read as a table that writes the same section, in which each CIE of the
/// plans stands already: the entries come back equal.
fn is_read(
    alloc: Global,
    bytes: &[u8],
    counts: [usize; 2],
    plans: &[Plan<'_>],
    kind: Kind,
) -> bool {
    let size = kind.encoding.address_size;
    let Ok(mut back) = read_in(alloc, kind.id, kind.endian, size, bytes) else {
        return false;
    };
    let is_same = is_section(alloc, &back, kind.id, kind.endian, bytes);
    let counted = [back.cie_count(), back.fde_count()];
    let added = add_in(alloc, &mut back, plans, kind.encoding);
    (is_same, counted, added, back.cie_count()) == (Ok(true), counts, Ok(()), counts[0])
}

/// Whether a table of plans comes back from its section.
fn comes_back(alloc: Global, plans: &[Plan<'_>], kind: Kind) -> bool {
    let mut frames = FrameTable::new(alloc);
    let added = add_in(alloc, &mut frames, plans, kind.encoding);
    let counts = [frames.cie_count(), frames.fde_count()];
    let Ok(section) = write(alloc, &frames, kind.id, kind.endian) else {
        return false;
    };
    added.is_ok() && is_read(alloc, section.slice(), counts, plans, kind)
}

/// The first layout in which a table of a version doesn't come back.
fn first_changed(
    alloc: Global,
    plans: &[Plan<'_>],
    version: u16,
    id: SectionId,
) -> Option<(Format, u8, RunTimeEndian)> {
    for (format, address_size, endian) in LAYOUTS {
        let encoding = Encoding {
            address_size,
            format,
            version,
        };
        let kind = Kind {
            encoding,
            id,
            endian,
        };
        if !comes_back(alloc, plans, kind) {
            return Some((format, address_size, endian));
        }
    }
    None
}

/// Four signed bytes that count from their place (DW_EH_PE_pcrel and DW_EH_PE_sdata4).
const RELATIVE: DwEhPe = DwEhPe(0x1b);

/// An FDE with data, of a CIE with all letters.
macro_rules! augmented {
    ($address:expr, $length:expr, $data:expr, $encoding:expr, $personality:expr) => {
        Plan {
            personality: Some(($encoding, Address::Constant($personality))),
            lsda_encoding: Some($encoding),
            fde_address_encoding: $encoding,
            signal_trampoline: true,
            address: Address::Constant($address),
            length: $length,
            lsda: Some(Address::Constant($data)),
            ..PLAIN
        }
    };
}

/// A register whose number stands in the code of an instruction, and one that needs two bytes.
const ONE: u16 = 1;

const FAR: u16 = 200;

const INSTRUCTED: Plan<'static> = Plan {
    code_factor: 2,
    cie: &[Rule::Cfa(7, 8), Rule::Offset(16, -8)],
    ..PLAIN
};

/// Two FDEs with a plain CIE, three with two CIEs that have all letters, some with CIEs that differ
/// from the plain one in one field each, and two with many instructions.
const PLANS: &[Plan<'static>] = &[
    PLAIN,
    Plan {
        address: Address::Constant(0x2000),
        length: 0x20,
        ..PLAIN
    },
    augmented!(0x3000, 0x30, 0x5555, DW_EH_PE_absptr, 0x1234),
    augmented!(0x4000, 0x40, 0x6666, DW_EH_PE_absptr, 0x1234),
    augmented!(0x5000, 0x50, 0x7777, RELATIVE, 0x1235),
    Plan {
        code_factor: 4,
        ..PLAIN
    },
    Plan {
        data_factor: -128,
        ..PLAIN
    },
    Plan {
        register: Register(255),
        ..PLAIN
    },
    Plan {
        personality: Some((DW_EH_PE_absptr, Address::Constant(0x1234))),
        ..PLAIN
    },
    Plan {
        lsda_encoding: Some(DW_EH_PE_absptr),
        lsda: Some(Address::Constant(0x6000)),
        ..PLAIN
    },
    Plan {
        fde_address_encoding: RELATIVE,
        ..PLAIN
    },
    Plan {
        signal_trampoline: true,
        ..PLAIN
    },
    Plan {
        fde: &[
            (0, Rule::Cfa(ONE, 0)),
            (0, Rule::Cfa(ONE, 8)),
            (2, Rule::Cfa(ONE, -8)),
            (4, Rule::CfaRegister(FAR)),
            (6, Rule::CfaOffset(0)),
            (8, Rule::CfaOffset(16)),
            (10, Rule::CfaOffset(-16)),
            (12, Rule::CfaExpression(Body::Zero)),
            (14, Rule::RememberState),
            (16, Rule::RestoreState),
            (18, Rule::ArgsSize(23)),
            (20, Rule::NegateRaState),
        ],
        ..INSTRUCTED
    },
    // The ways between them are told in each width.
    Plan {
        fde: &[
            (22, Rule::Restore(ONE)),
            (22, Rule::Restore(FAR)),
            (152, Rule::Undefined(ONE)),
            (152, Rule::SameValue(ONE)),
            (666, Rule::Offset(ONE, 16)),
            (666, Rule::Offset(ONE, -8)),
            (668, Rule::Offset(FAR, 8)),
            (670, Rule::ValOffset(ONE, 24)),
            (670, Rule::ValOffset(ONE, -8)),
            (0x2029c, Rule::Register(ONE, FAR)),
            (0x2029c, Rule::Expression(ONE, Body::Zero)),
            (0x2029c, Rule::ValExpression(FAR, Body::Zero)),
        ],
        ..INSTRUCTED
    },
];

fn plans() -> &'static [Plan<'static>] {
    PLANS
}

#[test]
fn gives_tables_back(rt: HostRuntime) {
    for (version, id) in VERSIONS {
        let changed = first_changed(rt.alloc(), plans(), version, id);
        assert!(rt; changed.is_none(), "version {version} of {id:?}");
    }
}
