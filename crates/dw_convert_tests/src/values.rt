//! The values: under which name each is set, how it is read, and what it becomes.

use crate::items::constant;
use crate::seen::Seen;
use crate::tables::Named;
use dw_base::constants::*;
use dw_base::{
    Address, DebugInfoOffset, DebugMacinfoOffset, DebugMacroOffset, DebugStrOffset,
    DebugTypeSignature, DwAt, Encoding, LineStringId, LocationListId, RangeListId, Result,
    StringId,
};
use dw_entries::AttributeValue;
use dw_writer::Bytes;
use std::alloc::Global;

/// The name of a value, and how it is read by its form.
pub(crate) type Row = (DwAt, Seen);

/// How many values there are.
pub(crate) const VALUES: usize = 37;

/// Values that are read alike in each version.
const ROWS: &[Row] = &[
    (DW_AT_name, ("Addr", 0x1234)),
    (DW_AT_name, ("Data1", 0x12)),
    (DW_AT_name, ("Data2", 0x1234)),
    (DW_AT_name, ("Data4", 0x1234)),
    (DW_AT_name, ("Data8", 0x1234)),
    (DW_AT_name, ("Data16", 0x1234)),
    (DW_AT_name, ("Sdata", 0x1234)),
    (DW_AT_name, ("Udata", 0x1234)),
    (DW_AT_name, ("Flag", 0)),
    // Places in other files and in other sections, and a signature.
    (DW_AT_name, ("DebugInfoRefSup", 0x1234)),
    (DW_AT_macro_info, ("SecOffset", 0x1234)),
    (DW_AT_macros, ("SecOffset", 0x1234)),
    (DW_AT_name, ("DebugTypesRef", 0x1234)),
    (DW_AT_name, ("DebugStrRefSup", 0x1234)),
    // Bytes, by the number that they are in big-endian order.
    (DW_AT_name, ("Block", 0x0102_0304)),
    (DW_AT_name, ("String", 0x0102_0304)),
    // Constants with meanings of their own.
    (DW_AT_encoding, ("Udata", 0x12)),
    (DW_AT_decimal_sign, ("Udata", 0x12)),
    (DW_AT_endianity, ("Udata", 0x12)),
    (DW_AT_accessibility, ("Udata", 0x12)),
    (DW_AT_visibility, ("Udata", 0x12)),
    (DW_AT_virtuality, ("Udata", 0x12)),
    (DW_AT_language, ("Udata", 0x12)),
    (DW_AT_address_class, ("Udata", 0x12)),
    (DW_AT_identifier_case, ("Udata", 0x12)),
    (DW_AT_calling_convention, ("Udata", 0x12)),
    (DW_AT_ordering, ("Udata", 0x12)),
    (DW_AT_inline, ("Udata", 0x12)),
];

fn rows() -> &'static [Row] {
    ROWS
}

fn plain_row(number: usize) -> Row {
    match rows().get(number) {
        Some(row) => *row,
        None => (DwAt(0), ("none", 0)),
    }
}

/// The others. Below version 4 an expression is a block, and up to version 4 a list is named by its
/// place, behind others: four addresses for each, and of locations as many with a length of two
/// bytes and an expression of two. Strings stand behind others with their zeros.
pub(crate) fn row(number: usize, encoding: Encoding) -> Row {
    let version = encoding.version;
    let size = encoding.address_size as u64;
    match number {
        0..28 => plain_row(number),
        28 if version >= 4 => (DW_AT_location, ("Exprloc", 0x1039)),
        28 => (DW_AT_location, ("Block", 0x1039)),
        29 => (DW_AT_name, ("Flag", 1)),
        30 => (DW_AT_language, ("Sdata", 0x12)),
        31 => (DW_AT_name, ("DebugStrRef", 5)),
        32 => (DW_AT_name, ("DebugLineStrRef", 8)),
        33 if version == 5 => (DW_AT_location, ("DebugLocListsIndex", 1)),
        33 => (DW_AT_location, ("SecOffset", 4 * size + 4)),
        34 if version == 5 => (DW_AT_ranges, ("DebugRngListsIndex", 1)),
        34 => (DW_AT_ranges, ("SecOffset", 4 * size)),
        35 if version == 5 => (DW_AT_location, ("DebugLocListsIndex", 2)),
        35 => (DW_AT_location, ("SecOffset", 8 * size + 8)),
        _ if version == 5 => (DW_AT_ranges, ("DebugRngListsIndex", 2)),
        _ => (DW_AT_ranges, ("SecOffset", 8 * size)),
    }
}

/// How a list is read by its name too: in version 5 still by its index.
pub(crate) fn list(number: usize, encoding: Encoding) -> Option<Seen> {
    let (_, (kind, place)) = row(number, encoding);
    match (number, encoding.version) {
        (33..VALUES, 5) => Some((kind, place)),
        (33 | 35, _) => Some(("LocationListsRef", place)),
        (34 | 36, _) => Some(("RangeListsRef", place)),
        _ => None,
    }
}

/// What a value names in a table.
pub(crate) fn named(number: usize) -> Named {
    match number {
        31 => Named::String,
        32 => Named::LineString,
        33 => Named::ShortLocations,
        34 => Named::ShortRanges,
        35 => Named::LongLocations,
        36 => Named::LongRanges,
        _ => Named::Nothing,
    }
}

/// The numbers.
fn numeral(number: usize) -> AttributeValue {
    match number {
        0 => AttributeValue::Address(Address::Constant(0x1234)),
        1 => AttributeValue::Data1(0x12),
        2 => AttributeValue::Data2(0x1234),
        3 => AttributeValue::Data4(0x1234),
        4 => AttributeValue::Data8(0x1234),
        5 => AttributeValue::Data16(0x1234),
        6 => AttributeValue::Sdata(0x1234),
        7 => AttributeValue::Udata(0x1234),
        _ => AttributeValue::Flag(false),
    }
}

fn place(number: usize) -> AttributeValue {
    match number {
        9 => AttributeValue::DebugInfoRefSup(DebugInfoOffset(0x1234)),
        10 => AttributeValue::DebugMacinfoRef(DebugMacinfoOffset(0x1234)),
        11 => AttributeValue::DebugMacroRef(DebugMacroOffset(0x1234)),
        12 => AttributeValue::DebugTypesRef(DebugTypeSignature(0x1234)),
        _ => AttributeValue::DebugStrRefSup(DebugStrOffset(0x1234)),
    }
}

fn code(number: usize) -> AttributeValue {
    match number {
        16 => AttributeValue::Encoding(DwAte(0x12)),
        17 => AttributeValue::DecimalSign(DwDs(0x12)),
        18 => AttributeValue::Endianity(DwEnd(0x12)),
        19 => AttributeValue::Accessibility(DwAccess(0x12)),
        20 => AttributeValue::Visibility(DwVis(0x12)),
        21 => AttributeValue::Virtuality(DwVirtuality(0x12)),
        22 => AttributeValue::Language(DwLang(0x12)),
        23 => AttributeValue::AddressClass(DwAddr(0x12)),
        24 => AttributeValue::IdentifierCase(DwId(0x12)),
        25 => AttributeValue::CallingConvention(DwCc(0x12)),
        26 => AttributeValue::Ordering(DwOrd(0x12)),
        _ => AttributeValue::Inline(DwInl(0x12)),
    }
}

/// The bytes of blocks and texts.
fn four(alloc: Global) -> Result<Bytes> {
    Bytes::new(alloc, &[1, 2, 3, 4])
}

/// What a value becomes, where the version makes nothing else of it, and it names no table.
fn plain(alloc: Global, number: usize) -> Result<AttributeValue> {
    Ok(match number {
        0..9 => numeral(number),
        9..14 => place(number),
        14 => AttributeValue::Block(four(alloc)?),
        15 => AttributeValue::String(four(alloc)?),
        16..28 => code(number),
        28 => AttributeValue::Exprloc(constant(alloc, 57)?),
        29 => AttributeValue::FlagPresent,
        _ => AttributeValue::ImplicitConst(0x12),
    })
}

/// A value of a table by its index there.
fn in_table(number: usize, index: usize) -> AttributeValue {
    match number {
        31 => AttributeValue::StringRef(StringId(index)),
        32 => AttributeValue::LineStringRef(LineStringId(index)),
        33 | 35 => AttributeValue::LocationListRef(LocationListId(index)),
        _ => AttributeValue::RangeListRef(RangeListId(index)),
    }
}

/// The value that is set: in tables the second or the third.
pub(crate) fn value(alloc: Global, number: usize) -> Result<AttributeValue> {
    match number {
        0..31 => plain(alloc, number),
        31..35 => Ok(in_table(number, 1)),
        _ => Ok(in_table(number, 2)),
    }
}

/// What comes back. A flag without bytes has one below version 4, and a constant of the declaration
/// has its meaning below version 5. In tables it is the first, as no other is named.
pub(crate) fn wanted(alloc: Global, number: usize, version: u16) -> Result<AttributeValue> {
    match number {
        29 if version < 4 => Ok(AttributeValue::Flag(true)),
        30 if version < 5 => Ok(AttributeValue::Language(DwLang(0x12))),
        0..31 => plain(alloc, number),
        _ => Ok(in_table(number, 0)),
    }
}
