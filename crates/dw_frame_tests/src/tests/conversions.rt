//! Sections that are read into tables, and sections that are cut. The bytes are taken from the
//! layouts of the standards (DWARF 5, 6.4.1 and 7.24; Linux Standard Base Core 5.0, 10.6).

use super::{SMALL, is_section};
use dw_base::{Address, RunTimeEndian, SectionId};
use dw_frame::FrameTable;
use dw_read::{EndianSlice, ReadError};
use dw_read_frames::{DebugFrame, EhFrame};
use dw_sources::{ConvertError, ConvertResult};
use std::alloc::Global;

/// Each address below 0x8000 stays, and none above has an image.
fn moved(address: u64) -> Option<Address> {
    if address >= 0x8000 {
        return None;
    }
    Some(Address::Constant(address))
}

/// A reader of these bytes. No proof but this function's knows what it reads.
fn reader(bytes: &[u8], endian: RunTimeEndian) -> EndianSlice<'_, RunTimeEndian> {
    EndianSlice::new(bytes, endian)
}

/// The table of `.eh_frame`, or else of `.debug_frame`, in an order of bytes and with addresses of
/// so many bytes, where it doesn't tell.
pub(super) fn read_in(
    alloc: Global,
    id: SectionId,
    endian: RunTimeEndian,
    address_size: u8,
    bytes: &[u8],
) -> ConvertResult<FrameTable> {
    let reader = reader(bytes, endian);
    if id == SectionId::EhFrame {
        FrameTable::from(alloc, &EhFrame::new(reader, address_size), &moved)
    } else {
        FrameTable::from(alloc, &DebugFrame::new(reader, address_size), &moved)
    }
}

/// The same in little endian, with addresses of 8 bytes.
fn read(alloc: Global, id: SectionId, bytes: &[u8]) -> ConvertResult<FrameTable> {
    read_in(alloc, id, RunTimeEndian::Little, 8, bytes)
}

/// Whether `.debug_frame` becomes a table that writes these bytes.
fn becomes(alloc: Global, bytes: &[u8], written: &[u8]) -> ConvertResult<bool> {
    let id = SectionId::DebugFrame;
    let table = read(alloc, id, bytes)?;
    Ok(is_section(alloc, &table, id, RunTimeEndian::Little, written) == Ok(true))
}

macro_rules! instructed {
    ([$($cie:expr),*], [$($fde:expr),*]) => {
        &[
            0x0c, 0, 0, 0, 0xff, 0xff, 0xff, 0xff, 0x01, 0x00, 0x02, 0x78, 0x10, $($cie),*, //
            0x1c, 0, 0, 0, 0, 0, 0, 0, 0x00, 0x10, 0, 0, 0, 0, 0, 0, 0x10, 0, 0, 0, 0, 0, 0, 0, //
            $($fde),*
        ]
    };
}

/// Sections, what the call answers, and what the tables write. Some have the factors 2 and -8, and
/// three bytes of instructions in the CIE and eight in the FDE.
const CONVERTED: &[(&[u8], ConvertResult<bool>, &[u8])] = &[
    (SMALL, Ok(true), SMALL),
    // Register 16 at 1 * -8, and the frame's address at -2 * -8.
    (
        instructed!(
            [0x90, 0x01, 0],
            [0x13, 0x7e, 0x41, 0x0e, 0x08, 0x02, 0x01, 0x0a]
        ),
        Ok(true),
        instructed!(
            [0x90, 0x01, 0],
            [0x0e, 0x10, 0x41, 0x0e, 0x08, 0x41, 0x0a, 0]
        ),
    ),
    // An advance in the CIE, and advances and nops around one in the FDE.
    (
        instructed!([0x41, 0x0a, 0], [0, 0x41, 0, 0x42, 0x0b, 0, 0x44, 0]),
        Ok(true),
        instructed!([0x0a, 0, 0], [0x43, 0x0b, 0, 0, 0, 0, 0, 0]),
    ),
    // An instruction that sets the location, to an address of eight bytes.
    (
        &[
            0x0c, 0, 0, 0, 0xff, 0xff, 0xff, 0xff, 0x01, 0x00, 0x01, 0x08, 0x10, 0, 0, 0, //
            0x1d, 0, 0, 0, 0, 0, 0, 0, 0x00, 0x10, 0, 0, 0, 0, 0, 0, 0x10, 0, 0, 0, 0, 0, 0, 0, //
            0x01, 0x00, 0x20, 0, 0, 0, 0, 0, 0,
        ],
        Err(ConvertError::UnsupportedCfiInstruction),
        &[],
    ),
    // The factor 256 of code offsets, which takes two bytes.
    (
        &[
            0x0c, 0, 0, 0, 0xff, 0xff, 0xff, 0xff, 0x01, 0x00, 0x80, 0x02, 0x08, 0x10, 0, 0, //
            0x14, 0, 0, 0, 0, 0, 0, 0, 0x00, 0x10, 0, 0, 0, 0, 0, 0, 0x10, 0, 0, 0, 0, 0, 0, 0,
        ],
        Err(ConvertError::IntegerOverflow),
        &[],
    ),
    // An address without an image.
    (
        &[
            0x0c, 0, 0, 0, 0xff, 0xff, 0xff, 0xff, 0x01, 0x00, 0x01, 0x08, 0x10, 0, 0, 0, //
            0x14, 0, 0, 0, 0, 0, 0, 0, 0xad, 0xde, 0, 0, 0, 0, 0, 0, 0x10, 0, 0, 0, 0, 0, 0, 0,
        ],
        Err(ConvertError::InvalidAddress),
        &[],
    ),
    // An FDE that leads to itself.
    (
        &[
            0x0c, 0, 0, 0, 0xff, 0xff, 0xff, 0xff, 0x01, 0x00, 0x01, 0x08, 0x10, 0, 0, 0, //
            0x14, 0, 0, 0, 0x10, 0, 0, 0, 0x00, 0x10, 0, 0, 0, 0, 0, 0, 0x10, 0, 0, 0, 0, 0, 0, 0,
        ],
        Err(ConvertError::Read(ReadError::InvalidCiePointer(0x10))),
        &[],
    ),
    (
        instructed!([0, 0, 0], [0x41, 0x3f, 0, 0, 0, 0, 0, 0]),
        Err(ConvertError::Read(ReadError::UnknownCallFrameInstruction(0x3f))),
        &[],
    ),
    // An offset of 2 ^ 31, the size 2 ^ 32 of arguments, and two ways of 2 ^ 31 units of 2 bytes.
    (
        instructed!([0, 0, 0], [0x0e, 0x80, 0x80, 0x80, 0x80, 0x08, 0, 0]),
        Err(ConvertError::IntegerOverflow),
        &[],
    ),
    (
        instructed!([0, 0, 0], [0x2e, 0x80, 0x80, 0x80, 0x80, 0x10, 0, 0]),
        Err(ConvertError::IntegerOverflow),
        &[],
    ),
    (
        instructed!([0, 0, 0], [0x04, 0, 0, 0, 0x80, 0x0a, 0, 0]),
        Err(ConvertError::IntegerOverflow),
        &[],
    ),
];

/// The table, behind a function so that no proof but this one's looks into it.
fn converted() -> &'static [(&'static [u8], ConvertResult<bool>, &'static [u8])] {
    CONVERTED
}

#[test]
fn converts_sections(rt: HostRuntime) {
    for (number, case) in converted().iter().enumerate() {
        let (bytes, wanted, written) = *case;
        let answer = becomes(rt.alloc(), bytes, written);
        assert_eq!(rt; (number, answer), (number, wanted));
    }
}

/// A section in little endian of a CIE and an FDE, with addresses of 8 bytes where it doesn't tell,
/// and the lengths to which it can be cut and still be whole: the ends of its entries.
type Whole = (SectionId, &'static [u8], &'static [usize]);

const WHOLE: &[Whole] = &[
    // An FDE at 16, whose instructions move on, set the frame's address, also by an expression with
    // a branch, save a register, tell a size and remember the state.
    (
        SectionId::DebugFrame,
        &[
            0x0c, 0, 0, 0, 0xff, 0xff, 0xff, 0xff, 1, 0, 2, 0x78, 0x10, 0x0c, 0x07, 0x08, //
            0x26, 0, 0, 0, 0, 0, 0, 0, 0, 0x10, 0, 0, 0, 0, 0, 0, 0x10, 0, 0, 0, 0, 0, 0, 0, //
            0x41, 0x0e, 0x10, 0x02, 0x40, 0x0f, 0x05, 0x77, 0x08, 0x2f, 0, 0, 0x05, 0x40, 0x02, //
            0x2e, 0x10, 0x0a,
        ],
        &[0, 16, 58],
    ),
    // Version 4 in the 64-bit format, with addresses of 4 bytes; an FDE at 32.
    (
        SectionId::DebugFrame,
        &[
            0xff, 0xff, 0xff, 0xff, 0x14, 0, 0, 0, 0, 0, 0, 0, //
            0xff, 0xff, 0xff, 0xff, 0xff, 0xff, 0xff, 0xff, 4, 0, 4, 0, 1, 0x7c, 8, //
            0x0c, 0x04, 0x04, 0, 0, //
            0xff, 0xff, 0xff, 0xff, 0x17, 0, 0, 0, 0, 0, 0, 0, 0, 0, 0, 0, 0, 0, 0, 0, //
            0, 0x10, 0, 0, 0x10, 0, 0, 0, 0x03, 0x10, 0, 0x0e, 0x08, 0x07, 0x05,
        ],
        &[0, 32, 67],
    ),
    // A CIE with all letters, whose pointers have four signed bytes that count from their place; an
    // FDE at 32, and at 56 the length that ends the section.
    (
        SectionId::EhFrame,
        &[
            0x1c, 0, 0, 0, 0, 0, 0, 0, 1, b'z', b'L', b'P', b'R', b'S', 0, 1, 0x78, 0x10, //
            7, 0x1b, 0x1b, 0x1f, 0x12, 0, 0, 0x1b, 0x0c, 0x07, 0x08, 0x90, 0x01, 0, //
            0x14, 0, 0, 0, 0x24, 0, 0, 0, 0xd8, 0x0f, 0, 0, 0x10, 0, 0, 0, //
            4, 0xcf, 0x1f, 0, 0, 0x41, 0x0e, 0x10, //
            0, 0, 0, 0,
        ],
        &[0, 32, 56, 60],
    ),
];

fn whole() -> &'static [Whole] {
    WHOLE
}

/// What is answered for a section that is cut to a length.
fn refusal(alloc: Global, id: SectionId, bytes: &[u8]) -> Option<ConvertError> {
    read(alloc, id, bytes).err()
}

/// What is wanted, where bytes that are cut are whole at these lengths alone.
fn wanted(length: usize, whole: &[usize]) -> Option<ConvertError> {
    if whole.contains(&length) {
        None
    } else {
        Some(ConvertError::Read(ReadError::UnexpectedEof))
    }
}

/// The first length to which a section can be cut with another answer than the one that is wanted.
fn first_missed(alloc: Global, section: Whole) -> Option<usize> {
    let (id, bytes, whole) = section;
    for length in 0..=bytes.len() {
        if refusal(alloc, id, &bytes[..length]) != wanted(length, whole) {
            return Some(length);
        }
    }
    None
}

#[test]
fn refuses_each_cut(rt: HostRuntime) {
    for (number, section) in whole().iter().enumerate() {
        let missed = first_missed(rt.alloc(), *section);
        assert_eq!(rt; (number, missed), (number, None));
    }
}
