//! Relocating vectors: their bytes, their records, what they refuse, and their copies.

use crate::trials::{Fork, Kind, Trial};
use crate::vector_tests::{EACH, PCREL_SDATA4};
use crate::writer_calls::Call::{Address, Offset, OffsetAt, Pointer, Reference, U8, U8At, U128};
use crate::writer_calls::{Answer, Answered, Left, SYMBOL};
use dw_base::Address::{Constant, Symbol};
use dw_base::RunTimeEndian::{Big, Little};
use dw_base::constants::DW_EH_PE_uleb128;
use dw_base::{Error, SectionId};
use dw_writer::{Relocation, RelocationTarget};

/// The records of each call.
const EACH_RECORDS: &[Relocation] = &[
    Relocation {
        offset: 55,
        size: 1,
        target: RelocationTarget::Section(SectionId::DebugStr),
        addend: 0x28,
        eh_pe: None,
    },
    Relocation {
        offset: 56,
        size: 8,
        target: RelocationTarget::Section(SectionId::DebugLine),
        addend: 0x292a,
        eh_pe: None,
    },
    Relocation {
        offset: 0,
        size: 2,
        target: RelocationTarget::Section(SectionId::DebugInfo),
        addend: 0x3132,
        eh_pe: None,
    },
];

/// What each call leaves, with zeros for its three offsets.
const BIG_WITH_ZEROS: [u8; 64] = [
    0x00, 0x00, 0x33, 0x34, 0x35, 0x36, 0x37, 0x38, 0x39, 0x3a, 0x3b, 0x3c, 0x3d, 0x3e, 0x3f, 0x40,
    0x41, 0x12, 0x13, 0x14, 0x15, 0x16, 0x17, 0x18, 0x19, 0x1a, 0x1b, 0x1c, 0x1d, 0x1e, 0x1f, 0x20,
    0x21, 0x42, 0x43, 0x44, 0x45, 0x81, 0x01, 0x80, 0x7f, 0xff, 0xff, 0xff, 0xff, 0x00, 0x00, 0x00,
    0x00, 0x00, 0x00, 0x24, 0x25, 0x26, 0x27, 0x00, 0x00, 0x00, 0x00, 0x00, 0x00, 0x00, 0x00, 0x00,
];

const LITTLE_WITH_ZEROS: [u8; 64] = [
    0x00, 0x00, 0x33, 0x35, 0x34, 0x39, 0x38, 0x37, 0x36, 0x41, 0x40, 0x3f, 0x3e, 0x3d, 0x3c, 0x3b,
    0x3a, 0x21, 0x20, 0x1f, 0x1e, 0x1d, 0x1c, 0x1b, 0x1a, 0x19, 0x18, 0x17, 0x16, 0x15, 0x14, 0x13,
    0x12, 0x43, 0x42, 0x44, 0x45, 0x81, 0x01, 0x80, 0x7f, 0xff, 0xff, 0xff, 0xff, 0x25, 0x24, 0x00,
    0x00, 0x00, 0x00, 0x00, 0x00, 0x27, 0x26, 0x00, 0x00, 0x00, 0x00, 0x00, 0x00, 0x00, 0x00, 0x00,
];

/// An offset that has no room in an addend.
const TOO_LARGE: usize = 0x8000_0000_0000_0000;

/// Calls, and the bytes and records that they leave.
const HELD: &[(Kind, Trial)] = &[
    (
        Kind::Relocating(Big),
        Trial::Leaves(Left {
            calls: EACH,
            bytes: &BIG_WITH_ZEROS,
            records: EACH_RECORDS,
        }),
    ),
    (
        Kind::Relocating(Little),
        Trial::Leaves(Left {
            calls: EACH,
            bytes: &LITTLE_WITH_ZEROS,
            records: EACH_RECORDS,
        }),
    ),
    // A patch may write over a place, and a place may have two records.
    (
        Kind::Relocating(Little),
        Trial::Leaves(Left {
            calls: &[
                Address(
                    Symbol {
                        symbol: 1,
                        addend: 0x1234_5678,
                    },
                    4,
                ),
                Address(
                    Symbol {
                        symbol: 0,
                        addend: i64::MIN,
                    },
                    8,
                ),
                Address(
                    Symbol {
                        symbol: usize::MAX,
                        addend: i64::MAX,
                    },
                    1,
                ),
                Address(
                    Symbol {
                        symbol: 2,
                        addend: -1,
                    },
                    2,
                ),
                U8At(3, 9),
                OffsetAt(4, 7, SectionId::EhFrame, 8),
            ],
            bytes: b"\0\0\0\x09\0\0\0\0\0\0\0\0\0\0\0",
            records: &[
                Relocation {
                    offset: 0,
                    size: 4,
                    target: RelocationTarget::Symbol(1),
                    addend: 0x1234_5678,
                    eh_pe: None,
                },
                Relocation {
                    offset: 4,
                    size: 8,
                    target: RelocationTarget::Symbol(0),
                    addend: i64::MIN,
                    eh_pe: None,
                },
                Relocation {
                    offset: 12,
                    size: 1,
                    target: RelocationTarget::Symbol(usize::MAX),
                    addend: i64::MAX,
                    eh_pe: None,
                },
                Relocation {
                    offset: 13,
                    size: 2,
                    target: RelocationTarget::Symbol(2),
                    addend: -1,
                    eh_pe: None,
                },
                Relocation {
                    offset: 4,
                    size: 8,
                    target: RelocationTarget::Section(SectionId::EhFrame),
                    addend: 7,
                    eh_pe: None,
                },
            ],
        }),
    ),
    (
        Kind::Relocating(Little),
        Trial::Leaves(Left {
            calls: &[Offset(TOO_LARGE - 1, SectionId::DebugStr, 1)],
            bytes: b"\0",
            records: &[Relocation {
                offset: 0,
                size: 1,
                target: RelocationTarget::Section(SectionId::DebugStr),
                addend: i64::MAX,
                eh_pe: None,
            }],
        }),
    ),
    // A pointer to a number counts from its own place, and one to a symbol is left out.
    (
        Kind::Relocating(Little),
        Trial::Leaves(Left {
            calls: &[
                U128(0),
                Pointer(Constant(8), PCREL_SDATA4, 8),
                Pointer(
                    Symbol {
                        symbol: 1,
                        addend: -3,
                    },
                    PCREL_SDATA4,
                    8,
                ),
            ],
            bytes: b"\0\0\0\0\0\0\0\0\0\0\0\0\0\0\0\0\xf8\xff\xff\xff\0\0\0\0",
            records: &[Relocation {
                offset: 20,
                size: 4,
                target: RelocationTarget::Symbol(1),
                addend: -3,
                eh_pe: Some(PCREL_SDATA4),
            }],
        }),
    ),
];

/// What a linker puts in is recorded. No other proof looks into the table.
pub fn held() -> &'static [(Kind, Trial)] {
    HELD
}

/// Calls that an empty vector refuses.
const REFUSED: &[Answer] = &[
    (Address(SYMBOL, 3), Err(Error::UnsupportedWordSize(3))),
    (Address(Constant(256), 1), Err(Error::ValueTooLarge)),
    (
        Offset(TOO_LARGE, SectionId::DebugStr, 0),
        Err(Error::UnsupportedWordSize(0)),
    ),
    (
        Offset(TOO_LARGE, SectionId::DebugStr, 8),
        Err(Error::ValueTooLarge),
    ),
    (
        OffsetAt(0, TOO_LARGE, SectionId::DebugStr, 8),
        Err(Error::ValueTooLarge),
    ),
    (
        OffsetAt(1, 0, SectionId::DebugStr, 4),
        Err(Error::OffsetOutOfBounds),
    ),
    (
        OffsetAt(0, 0, SectionId::DebugStr, 4),
        Err(Error::LengthOutOfBounds),
    ),
    (Reference(0, 4), Err(Error::InvalidReference)),
    (
        Pointer(SYMBOL, DW_EH_PE_uleb128, 8),
        Err(Error::UnsupportedPointerEncoding(DW_EH_PE_uleb128)),
    ),
];

const REFUSES: &[(Kind, Trial)] = &[(
    Kind::Relocating(Little),
    Trial::Answers(Answered {
        calls: REFUSED,
        bytes: &[],
        records: &[],
    }),
)];

/// Calls that are refused record nothing. No other proof looks into the table.
pub fn refuses() -> &'static [(Kind, Trial)] {
    REFUSES
}

/// A record that both have, and one that the copy doesn't get.
pub const FORKED: Fork = Fork {
    before: &[(Offset(1, SectionId::DebugStr, 2), Ok(()))],
    own: Answered {
        calls: &[(Offset(2, SectionId::DebugLine, 1), Ok(()))],
        bytes: b"\0\0\0",
        records: &[
            Relocation {
                offset: 0,
                size: 2,
                target: RelocationTarget::Section(SectionId::DebugStr),
                addend: 1,
                eh_pe: None,
            },
            Relocation {
                offset: 2,
                size: 1,
                target: RelocationTarget::Section(SectionId::DebugLine),
                addend: 2,
                eh_pe: None,
            },
        ],
    },
    copied: Answered {
        calls: &[(U8(5), Ok(()))],
        bytes: b"\0\0\x05",
        records: &[Relocation {
            offset: 0,
            size: 2,
            target: RelocationTarget::Section(SectionId::DebugStr),
            addend: 1,
            eh_pe: None,
        }],
    },
};
