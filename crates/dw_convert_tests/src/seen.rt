//! Values as they are read.

use crate::layouts::Slice;
use dw_read::{AttributeValue, Reader};

/// The variant of a value, and its number. Bytes are one in big-endian order.
pub(crate) type Seen = (&'static str, u64);

/// The number that bytes are.
fn number_of(bytes: &Slice<'_>) -> u64 {
    let mut number = 0u64;
    for byte in bytes.to_slice() {
        number = number.wrapping_mul(0x100).wrapping_add(*byte as u64);
    }
    number
}

pub(crate) fn seen(value: &AttributeValue<Slice<'_>>) -> Seen {
    match value {
        AttributeValue::Addr(address) => ("Addr", *address),
        AttributeValue::Data1(number) => ("Data1", *number as u64),
        AttributeValue::Data2(number) => ("Data2", *number as u64),
        AttributeValue::Data4(number) => ("Data4", *number as u64),
        AttributeValue::Data8(number) => ("Data8", *number),
        AttributeValue::Data16(number) if *number < 0x1_0000 => ("Data16", *number as u64),
        AttributeValue::Sdata(number) if *number >= 0 => ("Sdata", *number as u64),
        AttributeValue::Udata(number) => ("Udata", *number),
        AttributeValue::Flag(is_set) => ("Flag", *is_set as u64),
        AttributeValue::Block(bytes) => ("Block", number_of(bytes)),
        AttributeValue::String(text) => ("String", number_of(text)),
        AttributeValue::Exprloc(expression) => ("Exprloc", number_of(&expression.0)),
        _ => seen_place(value),
    }
}

/// A value that names a place, or the index of one.
fn seen_place(value: &AttributeValue<Slice<'_>>) -> Seen {
    match value {
        AttributeValue::SecOffset(place) => ("SecOffset", *place as u64),
        AttributeValue::DebugInfoRefSup(place) => ("DebugInfoRefSup", place.0 as u64),
        AttributeValue::DebugTypesRef(signature) => ("DebugTypesRef", signature.0),
        AttributeValue::DebugStrRef(place) => ("DebugStrRef", place.0 as u64),
        AttributeValue::DebugStrRefSup(place) => ("DebugStrRefSup", place.0 as u64),
        AttributeValue::DebugLineStrRef(place) => ("DebugLineStrRef", place.0 as u64),
        AttributeValue::DebugLocListsIndex(index) => ("DebugLocListsIndex", *index),
        AttributeValue::DebugRngListsIndex(index) => ("DebugRngListsIndex", *index),
        _ => ("another", 0),
    }
}

/// A value that names a list.
pub(crate) fn seen_list(value: &AttributeValue<Slice<'_>>) -> Option<Seen> {
    match value {
        AttributeValue::DebugLocListsIndex(index) => Some(("DebugLocListsIndex", *index)),
        AttributeValue::DebugRngListsIndex(index) => Some(("DebugRngListsIndex", *index)),
        AttributeValue::LocationListsRef(place) => Some(("LocationListsRef", place.0 as u64)),
        AttributeValue::RangeListsRef(place) => Some(("RangeListsRef", place.0 as u64)),
        _ => None,
    }
}
