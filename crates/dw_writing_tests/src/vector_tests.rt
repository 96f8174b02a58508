//! Plain vectors and vectors of faults: what they hold, what they refuse, and their copies.

use crate::relocation_tests::FORKED;
use crate::trials::{Fork, Kind, Trial, pass_over};
use crate::writer_calls::Call::{
    Address, Bytes, BytesAt, Length, LengthAt, Offset, OffsetAt, Pointer, Reference, Sdata,
    Sleb128, U8, U8At, U16, U16At, U32, U32At, U64, U64At, U128, Udata, UdataAt, Uleb128,
};
use crate::writer_calls::{Answer, Answered, Call, FAULT, Left, SYMBOL};
use dw_base::Address::Constant;
use dw_base::RunTimeEndian::{Big, Little};
use dw_base::constants::{
    DW_EH_PE_absptr, DW_EH_PE_pcrel, DW_EH_PE_sdata2, DW_EH_PE_sdata4, DW_EH_PE_sdata8,
    DW_EH_PE_sleb128, DW_EH_PE_textrel, DW_EH_PE_udata2, DW_EH_PE_udata4, DW_EH_PE_udata8,
    DW_EH_PE_uleb128,
};
use dw_base::{DwEhPe, Error, Format, RunTimeEndian, SectionId};
use std::alloc::Global;

/// Bytes, a number of each width, numbers by their widths, and LEB128; a length, an address and
/// offsets; and then each call that patches.
pub const EACH: &[Call] = &[
    Bytes(&[1, 2]),
    U8(3),
    U16(0x0405),
    U32(0x0607_0809),
    U64(0x0a0b_0c0d_0e0f_1011),
    U128(0x1213_1415_1617_1819_1a1b_1c1d_1e1f_2021),
    Udata(0x2223, 2),
    Sdata(-2, 2),
    Uleb128(0x81),
    Sleb128(-0x80),
    Length(0x2425, Format::Dwarf64),
    Address(Constant(0x2627), 2),
    Offset(0x28, SectionId::DebugStr, 1),
    Offset(0x292a, SectionId::DebugLine, 8),
    U8At(2, 0x33),
    U16At(3, 0x3435),
    U32At(5, 0x3637_3839),
    U64At(9, 0x3a3b_3c3d_3e3f_4041),
    OffsetAt(0, 0x3132, SectionId::DebugInfo, 2),
    UdataAt(33, 0x4243, 2),
    BytesAt(35, &[0x44, 0x45]),
];

const BIG: [u8; 64] = [
    0x31, 0x32, 0x33, 0x34, 0x35, 0x36, 0x37, 0x38, 0x39, 0x3a, 0x3b, 0x3c, 0x3d, 0x3e, 0x3f, 0x40,
    0x41, 0x12, 0x13, 0x14, 0x15, 0x16, 0x17, 0x18, 0x19, 0x1a, 0x1b, 0x1c, 0x1d, 0x1e, 0x1f, 0x20,
    0x21, 0x42, 0x43, 0x44, 0x45, 0x81, 0x01, 0x80, 0x7f, 0xff, 0xff, 0xff, 0xff, 0x00, 0x00, 0x00,
    0x00, 0x00, 0x00, 0x24, 0x25, 0x26, 0x27, 0x28, 0x00, 0x00, 0x00, 0x00, 0x00, 0x00, 0x29, 0x2a,
];

const LITTLE: [u8; 64] = [
    0x32, 0x31, 0x33, 0x35, 0x34, 0x39, 0x38, 0x37, 0x36, 0x41, 0x40, 0x3f, 0x3e, 0x3d, 0x3c, 0x3b,
    0x3a, 0x21, 0x20, 0x1f, 0x1e, 0x1d, 0x1c, 0x1b, 0x1a, 0x19, 0x18, 0x17, 0x16, 0x15, 0x14, 0x13,
    0x12, 0x43, 0x42, 0x44, 0x45, 0x81, 0x01, 0x80, 0x7f, 0xff, 0xff, 0xff, 0xff, 0x25, 0x24, 0x00,
    0x00, 0x00, 0x00, 0x00, 0x00, 0x27, 0x26, 0x28, 0x2a, 0x29, 0x00, 0x00, 0x00, 0x00, 0x00, 0x00,
];

/// Encodings with the application pcrel, and with the bit that says indirect.
pub const PCREL_SDATA4: DwEhPe = DwEhPe(0x1b);

const INDIRECT_UDATA2: DwEhPe = DwEhPe(0x82);

/// Two below zero, in two's complement.
const MINUS_TWO: u64 = 0xffff_ffff_ffff_fffe;

const SIXTEEN: &[Call] = &[U128(0x0001_0203_0405_0607_0809_0a0b_0c0d_0e0f)];

/// Calls, and the bytes that they leave in a vector of this order.
const HELD: &[(RunTimeEndian, Trial)] = &[
    (
        Big,
        Trial::Leaves(Left {
            calls: EACH,
            bytes: &BIG,
            records: &[],
        }),
    ),
    (
        Little,
        Trial::Leaves(Left {
            calls: EACH,
            bytes: &LITTLE,
            records: &[],
        }),
    ),
    (
        Big,
        Trial::Leaves(Left {
            calls: SIXTEEN,
            bytes: &[0, 1, 2, 3, 4, 5, 6, 7, 8, 9, 10, 11, 12, 13, 14, 15],
            records: &[],
        }),
    ),
    (
        Little,
        Trial::Leaves(Left {
            calls: SIXTEEN,
            bytes: &[15, 14, 13, 12, 11, 10, 9, 8, 7, 6, 5, 4, 3, 2, 1, 0],
            records: &[],
        }),
    ),
    // The examples of DWARF 5, 7.6 and appendix C.
    (
        Little,
        Trial::Leaves(Left {
            calls: &[
                Uleb128(2),
                Uleb128(127),
                Uleb128(128),
                Uleb128(129),
                Uleb128(12857),
                Uleb128(624485),
            ],
            bytes: b"\x02\x7f\x80\x01\x81\x01\xb9\x64\xe5\x8e\x26",
            records: &[],
        }),
    ),
    (
        Little,
        Trial::Leaves(Left {
            calls: &[
                Sleb128(2),
                Sleb128(-2),
                Sleb128(127),
                Sleb128(-127),
                Sleb128(128),
                Sleb128(-128),
            ],
            bytes: b"\x02\x7e\xff\x00\x81\x7f\x80\x01\x80\x7f",
            records: &[],
        }),
    ),
    (
        Little,
        Trial::Leaves(Left {
            calls: &[Uleb128(u64::MAX), Sleb128(i64::MIN)],
            bytes: b"\xff\xff\xff\xff\xff\xff\xff\xff\xff\x01\
                \x80\x80\x80\x80\x80\x80\x80\x80\x80\x7f",
            records: &[],
        }),
    ),
    (
        Big,
        Trial::Leaves(Left {
            calls: &[
                Length(2, Format::Dwarf32),
                Bytes(b"hi"),
                Length(2, Format::Dwarf64),
                Bytes(b"hi"),
            ],
            bytes: b"\0\0\0\x02hi\xff\xff\xff\xff\0\0\0\0\0\0\0\x02hi",
            records: &[],
        }),
    ),
    // A pointer in each format; the last but one counts from its own place, which is 35.
    (
        Little,
        Trial::Leaves(Left {
            calls: &[
                Pointer(Constant(0x0102), DW_EH_PE_absptr, 4),
                Pointer(Constant(0x80), DW_EH_PE_uleb128, 4),
                Pointer(Constant(0x0304), DW_EH_PE_udata2, 4),
                Pointer(Constant(5), DW_EH_PE_udata4, 4),
                Pointer(Constant(6), DW_EH_PE_udata8, 4),
                Pointer(Constant(MINUS_TWO), DW_EH_PE_sleb128, 4),
                Pointer(Constant(MINUS_TWO), DW_EH_PE_sdata2, 4),
                Pointer(Constant(MINUS_TWO), DW_EH_PE_sdata4, 4),
                Pointer(Constant(MINUS_TWO), DW_EH_PE_sdata8, 4),
                Pointer(Constant(33), PCREL_SDATA4, 4),
                Pointer(Constant(7), INDIRECT_UDATA2, 4),
            ],
            bytes: &[
                0x02, 0x01, 0x00, 0x00, 0x80, 0x01, 0x04, 0x03, 0x05, 0x00, 0x00, 0x00, 0x06, 0x00,
                0x00, 0x00, 0x00, 0x00, 0x00, 0x00, 0x7e, 0xfe, 0xff, 0xfe, 0xff, 0xff, 0xff, 0xfe,
                0xff, 0xff, 0xff, 0xff, 0xff, 0xff, 0xff, 0xfe, 0xff, 0xff, 0xff, 0x07, 0x00,
            ],
            records: &[],
        }),
    ),
];

/// The table, into which no other proof looks.
fn held() -> &'static [(RunTimeEndian, Trial)] {
    HELD
}

/// The vectors of an order that record nothing: the last one has its order when the program is
/// built.
fn kinds(order: RunTimeEndian) -> [Kind; 3] {
    let fixed = match order {
        Big => Kind::Big,
        Little => Kind::Little,
    };
    [Kind::Failing(order, &[]), Kind::Plain(order), fixed]
}

/// Tells that vectors of each of these kinds pass a trial.
fn all_pass(alloc: Global, order: RunTimeEndian, trial: &Trial) -> bool {
    for kind in kinds(order) {
        if pass_over(alloc, kind, trial) != Ok(true) {
            return false;
        }
    }
    true
}

#[test]
fn holds_what_calls_leave(rt: HostRuntime) {
    for (i, (order, trial)) in held().iter().enumerate() {
        assert!(rt; all_pass(rt.alloc(), *order, trial), "at {i}");
    }
}

/// Four zeros, and calls that a vector of these refuses that records nothing.
const REFUSED: &[Answer] = &[
    (U32(0), Ok(())),
    (Udata(0, 3), Err(Error::UnsupportedWordSize(3))),
    (Udata(256, 1), Err(Error::ValueTooLarge)),
    (Sdata(128, 1), Err(Error::ValueTooLarge)),
    (Sdata(-129, 1), Err(Error::ValueTooLarge)),
    (Address(SYMBOL, 8), Err(Error::InvalidAddress)),
    (Reference(0, 4), Err(Error::InvalidReference)),
    (U16At(5, 1), Err(Error::OffsetOutOfBounds)),
    (U16At(3, 1), Err(Error::LengthOutOfBounds)),
    (
        LengthAt(0, 0xffff_fff0, Format::Dwarf32),
        Err(Error::InitialLengthOverflow),
    ),
    (
        Pointer(Constant(0), DW_EH_PE_absptr, 3),
        Err(Error::UnsupportedWordSize(3)),
    ),
    (
        Pointer(Constant(0x1_0000), DW_EH_PE_udata2, 8),
        Err(Error::ValueTooLarge),
    ),
    (
        Pointer(Constant(0x8000), DW_EH_PE_sdata2, 8),
        Err(Error::ValueTooLarge),
    ),
    (
        Pointer(Constant(0), DwEhPe(5), 8),
        Err(Error::UnsupportedPointerEncoding(DwEhPe(5))),
    ),
    (
        Pointer(Constant(0), DW_EH_PE_textrel, 8),
        Err(Error::UnsupportedPointerEncoding(DW_EH_PE_textrel)),
    ),
    (
        Pointer(SYMBOL, DW_EH_PE_pcrel, 8),
        Err(Error::InvalidAddress),
    ),
];

const REFUSES: Trial = Trial::Answers(Answered {
    calls: REFUSED,
    bytes: &[0; 4],
    records: &[],
});

const REFUSING: &[(Kind, Trial)] = &[
    (Kind::Failing(Big, &[]), REFUSES),
    (Kind::Plain(Big), REFUSES),
];

/// Calls that are refused add nothing. No other proof looks into the table.
pub fn refusing() -> &'static [(Kind, Trial)] {
    REFUSING
}

const PATCHED: Fork = Fork {
    before: &[
        (Address(Constant(0x1234), 8), Ok(())),
        (Offset(0x56, SectionId::DebugStr, 4), Ok(())),
    ],
    own: Answered {
        calls: &[
            (OffsetAt(8, 0x78, SectionId::DebugStr, 4), Ok(())),
            (UdataAt(0, 0x9abc, 2), Ok(())),
            (U16At(2, 0x0102), Ok(())),
            (U8At(4, 0x03), Ok(())),
        ],
        bytes: b"\xbc\x9a\x02\x01\x03\0\0\0\x78\0\0\0",
        records: &[],
    },
    copied: Answered {
        calls: &[(U16(0x0304), Ok(()))],
        bytes: b"\x34\x12\0\0\0\0\0\0\x56\0\0\0\x04\x03",
        records: &[],
    },
};

/// Of the calls that write bytes, those with the numbers 0, 3, 5 and 6 fail. A call whose width is
/// amiss is refused before it is counted. A copy counts its own calls on, from those that were made
/// before it.
const FAILING: Fork = Fork {
    before: &[
        (Bytes(&[1]), FAULT),
        (U16(0x0102), Ok(())),
        (Udata(1, 3), Err(Error::UnsupportedWordSize(3))),
        (U8At(9, 1), Err(Error::OffsetOutOfBounds)),
        (U8At(0, 9), FAULT),
        (Offset(7, SectionId::DebugStr, 1), Ok(())),
    ],
    own: Answered {
        calls: &[
            (OffsetAt(0, 9, SectionId::DebugStr, 1), FAULT),
            (Address(Constant(9), 1), FAULT),
            (U8At(0, 9), Ok(())),
        ],
        bytes: b"\x09\x02\x07",
        records: &[],
    },
    copied: Answered {
        calls: &[(Uleb128(0), FAULT)],
        bytes: b"\x01\x02\x07",
        records: &[],
    },
};

/// Writers of each kind, whose copies are apart.
const COPIED: &[(Kind, Trial)] = &[
    (Kind::Little, Trial::Forks(PATCHED)),
    (Kind::Relocating(Big), Trial::Forks(FORKED)),
    (Kind::Failing(Big, &[0, 3, 5, 6]), Trial::Forks(FAILING)),
];

/// Copies are apart. No other proof looks into the table.
pub fn copied() -> &'static [(Kind, Trial)] {
    COPIED
}
