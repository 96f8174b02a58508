//! Encodings and orders of bytes.

use dw_base::{Encoding, Format, RunTimeEndian};
use dw_read::EndianSlice;

pub(crate) type Slice<'a> = EndianSlice<'a, RunTimeEndian>;

/// In what a unit is written: an encoding and an order of bytes.
#[derive(Clone, Copy)]
pub(crate) struct Layout {
    pub(crate) encoding: Encoding,
    pub(crate) endian: RunTimeEndian,
}

/// Versions, formats, sizes of addresses and orders of bytes.
pub(crate) const LAYOUTS: usize = 32;

/// The layout of a number.
pub(crate) fn numbered(number: usize) -> Layout {
    let version = [2, 3, 4, 5][number / 8 % 4];
    let format = [Format::Dwarf32, Format::Dwarf64][number / 4 % 2];
    let address_size = [4, 8][number / 2 % 2];
    let endian = [RunTimeEndian::Little, RunTimeEndian::Big][number % 2];
    Layout {
        encoding: Encoding {
            address_size,
            format,
            version,
        },
        endian,
    }
}

/// A reader of these bytes. No proof but this function's knows what it reads.
pub(crate) fn reader(bytes: &[u8], endian: RunTimeEndian) -> Slice<'_> {
    EndianSlice::new(bytes, endian)
}
