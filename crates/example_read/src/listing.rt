//! Listings of sections, as `dwarf_build` prints them.

use dw_base::RunTimeEndian;
use dw_read::EndianSlice;
use dw_read_units::Dwarf;
use hex::FromHexError;
use std::alloc::Global;

/// The bytes of the sections that reading units looks at.
#[derive(Drop)]
pub struct Listing {
    endian: RunTimeEndian,
    abbrev: Vec<u8>,
    info: Vec<u8>,
    strings: Vec<u8>,
    line_strings: Vec<u8>,
    addresses: Vec<u8>,
    string_offsets: Vec<u8>,
}

impl Listing {
    /// Reads a listing: a line for the order of bytes, and one for each section. A section that
    /// has no line has no bytes.
    pub fn parse(alloc: Global, text: &str) -> Result<Listing, FromHexError> {
        let is_big = text.lines().next() == Some("order big");
        Ok(Listing {
            endian: if is_big {
                RunTimeEndian::Big
            } else {
                RunTimeEndian::Little
            },
            abbrev: bytes_of(alloc, text, ".debug_abbrev")?,
            info: bytes_of(alloc, text, ".debug_info")?,
            strings: bytes_of(alloc, text, ".debug_str")?,
            line_strings: bytes_of(alloc, text, ".debug_line_str")?,
            addresses: bytes_of(alloc, text, ".debug_addr")?,
            string_offsets: bytes_of(alloc, text, ".debug_str_offsets")?,
        })
    }

    /// The sections, for readers.
    pub fn sections(&self) -> Dwarf<EndianSlice<'_, RunTimeEndian>> {
        let none: &[u8] = b"";
        Dwarf {
            debug_abbrev: self.reader(&self.abbrev),
            debug_str: self.reader(&self.strings),
            debug_line_str: self.reader(&self.line_strings),
            debug_line: self.reader(none),
            debug_ranges: self.reader(none),
            debug_rnglists: self.reader(none),
            debug_loc: self.reader(none),
            debug_loclists: self.reader(none),
            debug_info: self.reader(&self.info),
            debug_addr: self.reader(&self.addresses),
            debug_str_offsets: self.reader(&self.string_offsets),
        }
    }

    fn reader<'a>(&self, bytes: &'a [u8]) -> EndianSlice<'a, RunTimeEndian> {
        EndianSlice::new(bytes, self.endian)
    }
}

/// The bytes of a section: the last word of its line, in hex.
fn bytes_of(alloc: Global, text: &str, section: &str) -> Result<Vec<u8>, FromHexError> {
    for line in text.lines() {
        let mut words = line.split(' ');
        if words.next() == Some(section) {
            return hex::decode(alloc, words.nth(1).unwrap_or(""));
        }
    }
    Ok(Vec::new(alloc))
}
