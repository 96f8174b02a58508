//! A listing that is converted to itself, and is too long to be written down.

use crate::runs::{shown, words_of};
use std::alloc::{AllocError, Global};
use std::fmt::Write;

/// The status and the text of `convert` over a listing.
pub fn converted(alloc: Global, listing: &str) -> Result<String, AllocError> {
    shown(
        alloc,
        &words_of(alloc, "convert")?,
        listing.as_bytes(),
        u64::MAX,
    )
}

/// The listing, as it is printed, of abbreviations, strings and units.
pub fn listing_of(
    alloc: Global,
    order: &str,
    (abbrev, strings, info): (&str, &str, &str),
) -> Result<String, AllocError> {
    let abbrev_size = abbrev.len() / 2;
    let string_size = strings.len() / 2;
    let info_size = info.len() / 2;
    let blank = if strings.is_empty() { "" } else { " " };
    format!(in alloc;
        "order {order}
.debug_abbrev {abbrev_size} {abbrev}
.debug_str {string_size}{blank}{strings}
.debug_line_str 0
.debug_line 0
.debug_ranges 0
.debug_rnglists 0
.debug_loc 0
.debug_loclists 0
.debug_info {info_size} {info}
.debug_frame 0
.eh_frame 0
"
    )
}

/// Appends all variables but the last one.
fn push_variables(info: &mut String) -> Result<(), AllocError> {
    let mut place = 13_u32;
    for _ in 1..100_000 {
        place = place.wrapping_add(5);
        write!(info, "02{place:08x}")?;
    }
    Ok(())
}

/// Variables of 5 bytes each, from 13 on, each of which has the next one for its type, and the last
/// one the first: 500,010 bytes stand behind the length, which is 0x7a12a.
fn push_circle(info: &mut String) -> Result<(), AllocError> {
    info.push_str("0007a12a000501080000000001")?;
    push_variables(info)?;
    info.push_str("020000000d00")
}

/// Whether the circle is converted to itself.
fn is_kept(alloc: Global) -> Result<bool, AllocError> {
    let mut info = String::new(alloc);
    push_circle(&mut info)?;
    let sections = ("01110100000234004913000000", "", info.as_str());
    let listing = listing_of(alloc, "big", sections)?;
    let text = converted(alloc, listing.as_str())?;
    Ok(text.as_str().strip_prefix("0 ") == Some(listing.as_str()))
}

#[test]
fn converts_a_long_circle(rt: HostRuntime) {
    assert_eq!(rt; is_kept(rt.alloc()), Ok(true));
}
