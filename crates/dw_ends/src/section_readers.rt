//! The sections of a listing, as they are read.

ghost use Rattle.std.specs.Prelude.{◌≡◌, ◌<◌, [], length, get_or};
ghost use Rattle.dw_base.specs.Order.{is_big_of};
ghost use Rattle.dw_read.specs.Reading.{whole};
ghost use Rattle.dw_ends.specs.Readers.{ReadsSections, slice_reading};

use crate::listing_reader::Listing;
use dw_base::RunTimeEndian;
use dw_read::EndianSlice;
use dw_read_units::Dwarf;

/// Readers of the sections of a listing, in its byte order, each at the first byte of exactly those
/// that the listing says. The frame sections have none, as no unit leads to them.
///
/// ```
/// let listing = read_listing(alloc, b".debug_info 1 00")?;
/// let info = read_sections(&listing).debug_info;
/// ```
pub fn read_sections(listing: &Listing) -> Dwarf<EndianSlice<'_, RunTimeEndian>>
    requires { length listing.now.sections.items ≡ 13 }
    ensures { ReadsSections slice_reading (is_big_of listing.now.endian)
        listing.now.sections.items result }
{
    Dwarf {
        debug_abbrev: reader_at(listing, 0),
        debug_str: reader_at(listing, 1),
        debug_line_str: reader_at(listing, 2),
        debug_line: reader_at(listing, 3),
        debug_ranges: reader_at(listing, 4),
        debug_rnglists: reader_at(listing, 5),
        debug_loc: reader_at(listing, 6),
        debug_loclists: reader_at(listing, 7),
        debug_info: reader_at(listing, 8),
        debug_addr: reader_at(listing, 11),
        debug_str_offsets: reader_at(listing, 12),
    }
}

// A reader of the whole section at a place of the listing.
fn reader_at(listing: &Listing, place: usize) -> EndianSlice<'_, RunTimeEndian>
    requires { place < length listing.now.sections.items }
    ensures { slice_reading result
        ≡ whole (get_or listing.now.sections.items place []) (is_big_of listing.now.endian) }
{
    EndianSlice::new(listing.sections[place].slice(), listing.endian)
}
