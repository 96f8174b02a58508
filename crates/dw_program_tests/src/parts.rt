//! Parts of scripts and listings, by the calls that read them.

use dw_base::RunTimeEndian;
use dw_ends::{HexBytes, LineError, Listing, ListingReader};
use std::alloc::{AllocError, Global};

/// Lines of a listing, in turn: whether one is refused, and whether a line stands before the next.
const LINES: &[(&str, bool, bool)] = &[
    ("# a remark", false, false),
    (".debug_str 2 00", true, false),
    ("order", true, false),
    ("order big", false, true),
    ("order little", true, true),
    (".debug_str 1 61", false, true),
    (".debug_str 1 62", true, true),
    (".debug_info 1 0g", true, true),
];

fn lines() -> &'static [(&'static str, bool, bool)] {
    LINES
}

/// Tells whether a listing says what the lines that are taken say.
fn is_kept(listing: &Listing) -> bool {
    for (place, section) in listing.sections.iter().enumerate() {
        let want: &[u8] = if place == 1 { b"a" } else { b"" };
        if section.slice() != want {
            return false;
        }
    }
    listing.endian == RunTimeEndian::Big
}

/// The first line that is answered otherwise.
fn first_missed(reader: &mut ListingReader) -> Option<&'static str> {
    for (line, is_refused, is_begun) in lines() {
        let refused = reader.line(line.as_bytes()).is_err();
        if (refused, reader.is_begun()) != (*is_refused, *is_begun) {
            return Some(*line);
        }
    }
    None
}

/// The first line that is answered otherwise, and whether what stood before the others is kept.
fn kept(alloc: Global) -> Result<(Option<&'static str>, bool), LineError> {
    match ListingReader::new(alloc) {
        Ok(mut reader) => {
            let missed = first_missed(&mut reader);
            Ok((missed, is_kept(&reader.finish())))
        }
        Err(error) => Err(error),
    }
}

#[test]
fn keeps_what_stood_before_a_refused_line(rt: HostRuntime) {
    assert_eq!(rt; kept(rt.alloc()), Ok((None, true)));
}

/// Tells whether a field spells these bytes.
fn is_spelled(alloc: Global, field: &[u8], bytes: &[u8]) -> Result<bool, AllocError> {
    match HexBytes::read(field) {
        Some(spelled) => Ok(spelled.decode(alloc)?.as_slice() == bytes),
        None => Ok(false),
    }
}

const SPELLED: &[(&[u8], &[u8])] = &[
    (b"61", b"a"),
    (b"4a6B00fF", b"Jk\x00\xff"),
    (b"00ff10", b"\x00\xff\x10"),
    (b"-", b""),
];

fn spelled() -> &'static [(&'static [u8], &'static [u8])] {
    SPELLED
}

#[test]
fn decodes_bytes(rt: HostRuntime) {
    for (field, bytes) in spelled() {
        assert_eq!(rt; is_spelled(rt.alloc(), field, bytes), Ok(true), "{field:?}");
    }
}
