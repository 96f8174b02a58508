//! Values of attributes as plain data.

use crate::tests::sections::Slice;
use dw_read::{AttributeValue, Reader};

/// The kind of a value and its number, a signed one modulo 2^64.
pub(crate) type Told = (&'static str, u128);

/// Bytes as a number whose first byte is the highest.
pub(crate) fn number_of(bytes: &[u8]) -> u128 {
    let mut number = 0u128;
    for byte in bytes {
        number = number.wrapping_mul(256).wrapping_add(*byte as u128);
    }
    number
}

pub(crate) fn told(value: &AttributeValue<Slice<'_>>) -> Told {
    match value {
        AttributeValue::Block(bytes) => ("block", number_of(bytes.to_slice())),
        AttributeValue::Exprloc(expression) => ("exprloc", number_of(expression.0.to_slice())),
        AttributeValue::String(bytes) => ("string", number_of(bytes.to_slice())),
        AttributeValue::Sdata(number) => ("sdata", number.cast_unsigned() as u128),
        _ => numbered(value),
    }
}

/// A value without bytes.
fn numbered(value: &AttributeValue<Slice<'_>>) -> Told {
    match value {
        AttributeValue::Addr(n) => ("addr", *n as u128),
        AttributeValue::Data1(n) => ("data1", *n as u128),
        AttributeValue::Data2(n) => ("data2", *n as u128),
        AttributeValue::Data4(n) => ("data4", *n as u128),
        AttributeValue::Data8(n) => ("data8", *n as u128),
        AttributeValue::Data16(n) => ("data16", *n),
        AttributeValue::Udata(n) => ("udata", *n as u128),
        AttributeValue::Flag(is_set) => ("flag", if *is_set { 1 } else { 0 }),
        AttributeValue::UnitRef(place) => ("unit_ref", place.0 as u128),
        AttributeValue::DebugInfoRef(place) => ("info_ref", place.0 as u128),
        AttributeValue::DebugInfoRefSup(place) => ("info_ref_sup", place.0 as u128),
        AttributeValue::DebugTypesRef(signature) => ("types_ref", signature.0 as u128),
        AttributeValue::DebugAddrIndex(n) => ("addr_index", *n as u128),
        AttributeValue::DebugStrOffsetsIndex(n) => ("str_index", *n as u128),
        AttributeValue::DebugLocListsIndex(n) => ("loc_index", *n as u128),
        AttributeValue::DebugRngListsIndex(n) => ("range_index", *n as u128),
        AttributeValue::FileIndex(n) => ("file_index", *n as u128),
        AttributeValue::DwoId(id) => ("dwo_id", id.0 as u128),
        _ => placed(value),
    }
}

/// A value that leads to another section, or a constant that its name gives a type.
fn placed(value: &AttributeValue<Slice<'_>>) -> Told {
    match value {
        AttributeValue::SecOffset(place) => ("sec_offset", *place as u128),
        AttributeValue::DebugStrRef(place) => ("str_ref", place.0 as u128),
        AttributeValue::DebugStrRefSup(place) => ("str_ref_sup", place.0 as u128),
        AttributeValue::DebugLineStrRef(place) => ("line_str_ref", place.0 as u128),
        AttributeValue::DebugLineRef(place) => ("line_ref", place.0 as u128),
        AttributeValue::DebugMacinfoRef(place) => ("macinfo_ref", place.0 as u128),
        AttributeValue::DebugMacroRef(place) => ("macro_ref", place.0 as u128),
        AttributeValue::RangeListsRef(place) => ("range_ref", place.0 as u128),
        AttributeValue::LocationListsRef(place) => ("loc_ref", place.0 as u128),
        AttributeValue::Encoding(code) => ("encoding", code.0 as u128),
        AttributeValue::Language(code) => ("language", code.0 as u128),
        AttributeValue::AddressClass(code) => ("address_class", code.0 as u128),
        _ => ("other", 0),
    }
}
