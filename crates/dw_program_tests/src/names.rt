//! Attributes of each form under all names: what a name makes of a value, and which names are left
//! out (DWARF 5, 7.5.4 and 7.5.5). The root of one unit has them all.

use crate::circle::{converted, listing_of};
use std::alloc::{AllocError, Global};
use std::fmt::Write;

/// What values of a form may be under some names.
#[derive(Clone, Copy, PartialEq, Eq)]
enum Kind {
    /// A number, which is 0.
    Number,
    /// Bytes, which spell `DW_OP_call_frame_cfa`.
    Bytes,
    Other,
}

/// A form, the operand, and what they become under names that make no more of it; in hex.
type Row = (Kind, &'static str, &'static str, &'static str, &'static str);

/// The root is at 12, and the string at 0.
const ROWS: &[Row] = &[
    (Kind::Other, "01", "44332211", "01", "44332211"),
    (Kind::Bytes, "0a", "019c", "09", "019c"),
    (Kind::Bytes, "03", "01009c", "09", "019c"),
    (Kind::Bytes, "04", "010000009c", "09", "019c"),
    (Kind::Bytes, "09", "019c", "09", "019c"),
    (Kind::Number, "0b", "00", "0b", "00"),
    (Kind::Number, "05", "0000", "05", "0000"),
    (Kind::Number, "06", "00000000", "06", "00000000"),
    (
        Kind::Number,
        "07",
        "0000000000000000",
        "07",
        "0000000000000000",
    ),
    (Kind::Number, "0d", "00", "0d", "00"),
    (Kind::Number, "0f", "00", "0f", "00"),
    (Kind::Number, "16", "0b00", "0b", "00"),
    (
        Kind::Other,
        "1e",
        "00000000000000000000000000000000",
        "1e",
        "00000000000000000000000000000000",
    ),
    (Kind::Other, "08", "6100", "08", "6100"),
    (Kind::Other, "0c", "01", "0c", "01"),
    (Kind::Other, "0e", "00000000", "0e", "00000000"),
    (Kind::Other, "1d", "77000000", "1d", "77000000"),
    (Kind::Other, "1c", "77000000", "1c", "77000000"),
    (Kind::Other, "10", "0c000000", "10", "0c000000"),
    (Kind::Other, "11", "0c", "13", "0c000000"),
    (Kind::Other, "14", "0c00000000000000", "13", "0c000000"),
    (Kind::Other, "15", "0c", "13", "0c000000"),
    (Kind::Other, "18", "019c", "18", "019c"),
    (Kind::Other, "19", "", "19", ""),
    (
        Kind::Other,
        "20",
        "7700000000000000",
        "20",
        "7700000000000000",
    ),
];

fn rows() -> &'static [Row] {
    ROWS
}

/// Names of the siblings and of what is told of other files, and views of locations.
const DROPPED: [u16; 11] = [
    0x01, 0x72, 0x73, 0x74, 0x76, 0x8c, 0x2130, 0x2131, 0x2132, 0x2133, 0x2137,
];

/// Names whose blocks are expressions.
const EXPRESSIONS: [u16; 23] = [
    0x02, 0x0b, 0x0d, 0x19, 0x22, 0x2a, 0x2e, 0x2f, 0x37, 0x38, 0x40, 0x46, 0x48, 0x4a, 0x4d, 0x4e,
    0x4f, 0x50, 0x51, 0x2111, 0x2112, 0x2113, 0x2114,
];

/// Names whose numbers have meanings of their own.
const MEANINGS: [u16; 12] = [
    0x09, 0x13, 0x17, 0x20, 0x32, 0x33, 0x36, 0x3e, 0x42, 0x4c, 0x5e, 0x65,
];

/// Names that a unit without a line program can't have: its own, and its files.
const LINES: [u16; 3] = [0x10, 0x3a, 0x58];

fn has(names: &[u16], name: u16) -> bool {
    names.iter().any(|found| *found == name)
}

/// The form and the operand that an attribute becomes, if it isn't left out.
fn becomes(name: u16, row: &Row) -> Option<(&'static str, &'static str)> {
    let (kind, _, _, form, operand) = *row;
    if has(&DROPPED, name) {
        None
    } else if kind == Kind::Number && has(&MEANINGS, name) {
        Some(("0f", "00"))
    } else if kind == Kind::Bytes && has(&EXPRESSIONS, name) {
        Some(("18", "019c"))
    } else {
        Some((form, operand))
    }
}

/// Appends an attribute to a declaration.
fn push(abbrev: &mut String, name: u16, form: &str) -> Result<(), AllocError> {
    if name < 0x80 {
        return write!(abbrev, "{name:02x}{form}");
    }
    let low = name % 0x80 + 0x80;
    let high = name / 0x80;
    write!(abbrev, "{low:02x}{high:02x}{form}")
}

/// The listing of a unit of version 5, whose root has these attributes.
fn listed(
    alloc: Global,
    attributes: &str,
    operands: &str,
    strings: &str,
) -> Result<String, AllocError> {
    let abbrev = format!(in alloc; "011100{attributes}000000")?;
    let length = (operands.len() / 2).saturating_add(9);
    let low = length % 0x100;
    let high = length / 0x100 % 0x100;
    let info = format!(in alloc; "{low:02x}{high:02x}0000050001040000000001{operands}")?;
    let sections = (abbrev.as_str(), strings, info.as_str());
    listing_of(alloc, "little", sections)
}

/// Appends an attribute of a row to a declaration and its operand to a unit, as it is read, or as
/// what it becomes.
fn push_attribute(
    (abbrev, info): (&mut String, &mut String),
    name: u16,
    row: &Row,
    is_read: bool,
) -> Result<(), AllocError> {
    let told = if is_read {
        Some((row.1, row.2))
    } else {
        becomes(name, row)
    };
    match told {
        Some((form, operand)) => push_both((abbrev, info), name, form, operand),
        None => Ok(()),
    }
}

/// Appends an attribute to a declaration, and its operand to a unit.
fn push_both(
    (abbrev, info): (&mut String, &mut String),
    name: u16,
    form: &str,
    operand: &str,
) -> Result<(), AllocError> {
    push(abbrev, name, form)?;
    info.push_str(operand)
}

/// Appends the attributes of a row under names from one up to another.
fn push_names(
    (abbrev, info): (&mut String, &mut String),
    (first, end): (u16, u16),
    row: &Row,
    is_read: bool,
) -> Result<(), AllocError> {
    for name in first..end {
        if !has(&LINES, name) {
            push_attribute((abbrev, info), name, row, is_read)?;
        }
    }
    Ok(())
}

/// Appends the attributes of a row under all names up to that of the last attribute, and those of
/// GNU.
fn push_row(
    (abbrev, info): (&mut String, &mut String),
    row: &Row,
    is_read: bool,
) -> Result<(), AllocError> {
    push_names((abbrev, info), (0x01, 0x8d), row, is_read)?;
    push_names((abbrev, info), (0x2101, 0x2140), row, is_read)
}

/// The listing that is read of a row, or the one that it becomes.
fn listing_of_row(alloc: Global, row: &Row, is_read: bool) -> Result<String, AllocError> {
    let mut abbrev = String::new(alloc);
    let mut info = String::new(alloc);
    push_row((&mut abbrev, &mut info), row, is_read)?;
    let strings = if row.1 == "0e" { "6100" } else { "" };
    listed(alloc, abbrev.as_str(), info.as_str(), strings)
}

/// Whether the listing that is read of a row is converted to the one that it becomes.
fn is_converted(alloc: Global, row: &Row) -> Result<bool, AllocError> {
    let read = listing_of_row(alloc, row, true)?;
    let want = listing_of_row(alloc, row, false)?;
    let text = converted(alloc, read.as_str())?;
    Ok(text.as_str().strip_prefix("0 ") == Some(want.as_str()))
}

#[test]
fn converts_forms_under_all_names(rt: HostRuntime) {
    for row in rows() {
        assert_eq!(rt; is_converted(rt.alloc(), row), Ok(true), "form {}", row.1);
    }
}
