//! The texts of errors.

use dw_base::DwEhPe;
use dw_dwarf::Error;
use std::alloc::{AllocError, Global};

/// Errors with their texts, each with its number.
const ROWS: &[(Error, &str)] = &[
    (
        Error::UnsupportedWordSize(3),
        "a width of 3 bytes is not supported",
    ),
    (
        Error::UnsupportedVersion(65_535),
        "version 65535 is not supported",
    ),
    (Error::NeedVersion(4), "version 4 is needed"),
    (
        Error::InvalidFrameCodeOffset(4_294_967_295),
        "the code offset 4294967295 can't be factored",
    ),
    (
        Error::InvalidFrameDataOffset(-7),
        "the data offset -7 can't be factored",
    ),
    (
        Error::UnsupportedPointerEncoding(DwEhPe(0x1b)),
        "the pointer encoding DwEhPe(27) is not supported",
    ),
    (
        Error::OffsetOutOfBounds,
        "a patch begins past the end of its section",
    ),
    (
        Error::LengthOutOfBounds,
        "a patch ends past the end of its section",
    ),
    (
        Error::InitialLengthOverflow,
        "a length is too large for the 32-bit format",
    ),
    (
        Error::InvalidReference,
        "a reference names nothing that is written",
    ),
];

/// The table, into which no other proof looks.
fn rows() -> &'static [(Error, &'static str)] {
    ROWS
}

/// Whether an error has this text.
fn says(alloc: Global, error: Error, wanted: &str) -> Result<bool, AllocError> {
    let text = format!(in alloc; "{error}")?;
    Ok(text.as_str() == wanted)
}

#[test]
fn says_why_it_refused(rt: HostRuntime) {
    for (error, text) in rows() {
        assert!(rt; says(rt.alloc(), *error, text) == Ok(true), "not {text}");
    }
}
