//! Units and their entries as text.

use crate::row::{Row, UnitRows};
use dw_read::{Attribute, AttributeValue, DebuggingInformationEntry, Reader};
use std::alloc::AllocError;
use std::fmt::Write;

/// What a value holds.
#[derive(Clone, Copy)]
pub enum Held<'a> {
    Number(u128),
    Signed(i64),
    Bytes(&'a [u8]),
}

/// Appends a unit: a line for the unit, for each entry, and for each attribute.
pub fn push_unit<R: Reader>(text: &mut String, unit: &UnitRows<R>) -> Result<(), AllocError> {
    let header = &unit.unit.header;
    let place = header.offset().0;
    let version = header.encoding().version;
    write!(text, "unit {place:#x} version {version}\n")?;
    for row in &unit.rows {
        if let Row::Entry(entry) = row {
            push_entry(text, entry)?;
        }
    }
    Ok(())
}

/// Appends an entry and its attributes.
fn push_entry<R: Reader>(
    text: &mut String,
    entry: &DebuggingInformationEntry<R>,
) -> Result<(), AllocError> {
    let depth = entry.depth;
    let place = entry.offset.0;
    let tag = entry.tag.0;
    write!(text, "<{depth}> {place:#x} tag {tag:#x}\n")?;
    for attribute in &entry.attrs {
        push_attribute(text, attribute)?;
    }
    Ok(())
}

/// Appends an attribute: its name, the kind of its value, and what the value holds.
fn push_attribute<R: Reader>(
    text: &mut String,
    attribute: &Attribute<R>,
) -> Result<(), AllocError> {
    let value = attribute.value();
    let (kind, held) = held_by(&value);
    push_held(text, attribute.name().0, kind, held)
}

/// Appends the name of an attribute, the kind of its value, and what the value holds.
fn push_held(text: &mut String, name: u16, kind: &str, held: Held<'_>) -> Result<(), AllocError> {
    write!(text, "    {name:#x} {kind} ")?;
    match held {
        Held::Number(number) => write!(text, "{number}\n"),
        Held::Signed(number) => write!(text, "{number}\n"),
        Held::Bytes(bytes) => push_bytes(text, bytes),
    }
}

/// Appends bytes in hex.
fn push_bytes(text: &mut String, bytes: &[u8]) -> Result<(), AllocError> {
    for byte in bytes {
        write!(text, "{byte:02x}")?;
    }
    write!(text, "\n")
}

/// The kind of a value, and what it holds.
pub fn held_by<R: Reader>(value: &AttributeValue<R>) -> (&'static str, Held<'_>) {
    match value {
        AttributeValue::Block(bytes) => ("block", Held::Bytes(bytes.to_slice())),
        AttributeValue::Exprloc(expression) => { ("exprloc", Held::Bytes(expression.0.to_slice())) }
        AttributeValue::String(bytes) => ("string", Held::Bytes(bytes.to_slice())),
        AttributeValue::Sdata(number) => ("sdata", Held::Signed(*number)),
        _ => {
            let (kind, number) = numbered(value);
            (kind, Held::Number(number))
        }
    }
}

/// The kind and the number of a value without bytes.
fn numbered<R: Reader>(value: &AttributeValue<R>) -> (&'static str, u128) {
    match value {
        AttributeValue::Addr(n) => ("addr", *n as u128),
        AttributeValue::Data1(n) => ("data1", *n as u128),
        AttributeValue::Data2(n) => ("data2", *n as u128),
        AttributeValue::Data4(n) => ("data4", *n as u128),
        AttributeValue::Data8(n) => ("data8", *n as u128),
        AttributeValue::Data16(n) => ("data16", *n),
        AttributeValue::Udata(n) => ("udata", *n as u128),
        AttributeValue::Flag(is_set) => ("flag", if *is_set { 1 } else { 0 }),
        AttributeValue::UnitRef(place) => ("unit_ref", place.0 as u128),
        AttributeValue::DebugInfoRef(place) => ("info_ref", place.0 as u128),
        AttributeValue::DebugInfoRefSup(place) => ("info_ref_sup", place.0 as u128),
        AttributeValue::DebugTypesRef(signature) => ("types_ref", signature.0 as u128),
        AttributeValue::DebugAddrIndex(n) => ("addr_index", *n as u128),
        AttributeValue::DebugStrOffsetsIndex(n) => ("str_index", *n as u128),
        AttributeValue::DebugLocListsIndex(n) => ("loc_index", *n as u128),
        AttributeValue::DebugRngListsIndex(n) => ("range_index", *n as u128),
        AttributeValue::FileIndex(n) => ("file_index", *n as u128),
        AttributeValue::DwoId(id) => ("dwo_id", id.0 as u128),
        _ => placed(value),
    }
}

/// The kind and the place of a value that leads to another section.
fn placed<R: Reader>(value: &AttributeValue<R>) -> (&'static str, u128) {
    match value {
        AttributeValue::SecOffset(place) => ("sec_offset", *place as u128),
        AttributeValue::DebugStrRef(place) => ("str_ref", place.0 as u128),
        AttributeValue::DebugStrRefSup(place) => ("str_ref_sup", place.0 as u128),
        AttributeValue::DebugLineStrRef(place) => ("line_str_ref", place.0 as u128),
        AttributeValue::DebugLineRef(place) => ("line_ref", place.0 as u128),
        AttributeValue::DebugMacinfoRef(place) => ("macinfo_ref", place.0 as u128),
        AttributeValue::DebugMacroRef(place) => ("macro_ref", place.0 as u128),
        AttributeValue::RangeListsRef(place) => ("range_ref", place.0 as u128),
        AttributeValue::LocationListsRef(place) => ("loc_ref", place.0 as u128),
        _ => coded(value),
    }
}

/// The kind and the code of a constant that its name gives a type.
fn coded<R: Reader>(value: &AttributeValue<R>) -> (&'static str, u128) {
    match value {
        AttributeValue::Encoding(code) => ("encoding", code.0 as u128),
        AttributeValue::DecimalSign(code) => ("decimal_sign", code.0 as u128),
        AttributeValue::Endianity(code) => ("endianity", code.0 as u128),
        AttributeValue::Accessibility(code) => ("accessibility", code.0 as u128),
        AttributeValue::Visibility(code) => ("visibility", code.0 as u128),
        AttributeValue::Virtuality(code) => ("virtuality", code.0 as u128),
        AttributeValue::Language(code) => ("language", code.0 as u128),
        AttributeValue::AddressClass(code) => ("address_class", code.0 as u128),
        AttributeValue::IdentifierCase(code) => ("identifier_case", code.0 as u128),
        AttributeValue::CallingConvention(code) => ("calling_convention", code.0 as u128),
        AttributeValue::Inline(code) => ("inline", code.0 as u128),
        AttributeValue::Ordering(code) => ("ordering", code.0 as u128),
        _ => ("other", 0),
    }
}
