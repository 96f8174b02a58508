//! Sections that are read, by their bytes.

use crate::layouts::{Slice, reader};
use dw_base::RunTimeEndian;
use dw_read::{ReadError, ReadResult};
use dw_read_units::{Dwarf, Unit};
use std::alloc::Global;

/// The bytes of sections.
#[derive(Clone, Copy)]
pub(crate) struct Texts<'a> {
    pub(crate) abbrev: &'a [u8],
    pub(crate) info: &'a [u8],
    pub(crate) addr: &'a [u8],
    pub(crate) str: &'a [u8],
    pub(crate) line_str: &'a [u8],
    pub(crate) line: &'a [u8],
    pub(crate) ranges: &'a [u8],
    pub(crate) rnglists: &'a [u8],
    pub(crate) loc: &'a [u8],
    pub(crate) loclists: &'a [u8],
}

/// No bytes in any of them.
pub(crate) const EMPTY: Texts<'static> = Texts {
    abbrev: b"",
    info: b"",
    addr: b"",
    str: b"",
    line_str: b"",
    line: b"",
    ranges: b"",
    rnglists: b"",
    loc: b"",
    loclists: b"",
};

/// The sections, to be read.
pub(crate) fn dwarf_of<'a>(texts: &Texts<'a>, endian: RunTimeEndian) -> Dwarf<Slice<'a>> {
    Dwarf {
        debug_abbrev: reader(texts.abbrev, endian),
        debug_str: reader(texts.str, endian),
        debug_line_str: reader(texts.line_str, endian),
        debug_line: reader(texts.line, endian),
        debug_ranges: reader(texts.ranges, endian),
        debug_rnglists: reader(texts.rnglists, endian),
        debug_loc: reader(texts.loc, endian),
        debug_loclists: reader(texts.loclists, endian),
        debug_info: reader(texts.info, endian),
        debug_addr: reader(texts.addr, endian),
        debug_str_offsets: reader(b"", endian),
    }
}

/// The first unit.
pub(crate) fn first<'a>(alloc: Global, dwarf: &Dwarf<Slice<'a>>) -> ReadResult<Unit<Slice<'a>>> {
    match dwarf.units().next() {
        Ok(Some(header)) => dwarf.unit(alloc, header),
        Ok(None) => Err(ReadError::UnexpectedEof),
        Err(error) => Err(error),
    }
}
