//! Sections by hand.

use dw_base::{Encoding, Format, RunTimeEndian};
use dw_read::EndianSlice;
use dw_read_units::Dwarf;

pub(crate) type Slice<'a> = EndianSlice<'a, RunTimeEndian>;

/// A section whose numbers begin with their lowest byte.
pub(crate) fn little(bytes: &[u8]) -> Slice<'_> {
    EndianSlice::new(bytes, RunTimeEndian::Little)
}

/// Words of 4 bytes.
pub(crate) fn encoding(version: u16, address_size: u8) -> Encoding {
    Encoding {
        address_size,
        format: Format::Dwarf32,
        version,
    }
}

/// Addresses and words of 4 bytes.
pub(crate) fn narrow(version: u16) -> Encoding {
    encoding(version, 4)
}

/// The bytes of a file's sections.
#[derive(Clone, Copy)]
pub(crate) struct Bytes<'a> {
    pub(crate) endian: RunTimeEndian,
    pub(crate) info: &'a [u8],
    pub(crate) abbrev: &'a [u8],
    pub(crate) strings: &'a [u8],
    pub(crate) line_strings: &'a [u8],
    pub(crate) offsets: &'a [u8],
    pub(crate) addresses: &'a [u8],
    /// The range lists and the location lists of version 5.
    pub(crate) lists: &'a [u8],
    /// Those of older versions.
    pub(crate) old_lists: &'a [u8],
    pub(crate) line: &'a [u8],
}

/// Sections without bytes, whose numbers begin with their lowest byte.
pub(crate) const NONE: Bytes<'static> = Bytes {
    endian: RunTimeEndian::Little,
    info: b"",
    abbrev: b"",
    strings: b"",
    line_strings: b"",
    offsets: b"",
    addresses: b"",
    lists: b"",
    old_lists: b"",
    line: b"",
};

/// The sections for readers.
pub(crate) fn sections<'a>(bytes: &Bytes<'a>) -> Dwarf<Slice<'a>> {
    let endian = bytes.endian;
    Dwarf {
        debug_abbrev: EndianSlice::new(bytes.abbrev, endian),
        debug_str: EndianSlice::new(bytes.strings, endian),
        debug_line_str: EndianSlice::new(bytes.line_strings, endian),
        debug_line: EndianSlice::new(bytes.line, endian),
        debug_ranges: EndianSlice::new(bytes.old_lists, endian),
        debug_rnglists: EndianSlice::new(bytes.lists, endian),
        debug_loc: EndianSlice::new(bytes.old_lists, endian),
        debug_loclists: EndianSlice::new(bytes.lists, endian),
        debug_info: EndianSlice::new(bytes.info, endian),
        debug_addr: EndianSlice::new(bytes.addresses, endian),
        debug_str_offsets: EndianSlice::new(bytes.offsets, endian),
    }
}
