//! The values of an entry's attributes, and the addresses that they lead to.

ghost use Rattle.std.specs.Prelude.{◌≡◌, Bool};
ghost use Rattle.dw_read.specs.Orders.{attribute_order, IsInOrder};
ghost use Rattle.dw_read.specs.Took.{option_of};
ghost use Rattle.dw_read.specs.Values.{value_of, constant_in};
ghost use Rattle.dw_read_units.specs.Roots.{named_in, last_value, later};
ghost use Rattle.dw_entry_ranges.specs.Addresses.{indexed_address, address_of, not_negative};
ghost use Rattle.dw_entry_ranges.specs.Attributes.{values_in, order_of, AreInOrder};

use dw_base::DwAt;
use dw_read::{Attribute, AttributeValue, ReadResult, Reader};
use dw_read_units::UnitRef;

/// The value of the last attribute that has a name.
pub(crate) fn last_value<R: Reader>(attrs: &[Attribute<R>], name: DwAt) -> Option<AttributeValue<R>>
    ensures is { option_of (value_of R.reading) result
        ≡ last_value name.0 name.0 (values_in R.reading attrs.now) }
    ensures order { (big : Bool) → AreInOrder R.reading big attrs.now
        → IsInOrder big (order_of R.reading result) }
{
    let mut found = None;
    for attribute in attrs {
        found = later(found, attribute, name);
    }
    found
}

/// The value of an attribute that has a name, or the one that was found before it.
fn later<R: Reader>(
    found: Option<AttributeValue<R>>,
    attribute: &Attribute<R>,
    name: DwAt,
) -> Option<AttributeValue<R>>
    ensures is { option_of (value_of R.reading) result ≡ later name.0 name.0
        (option_of (value_of R.reading) found) (named_in R.reading attribute.now) }
    ensures order { (big : Bool) → IsInOrder big (order_of R.reading found)
        → IsInOrder big (attribute_order R.reading attribute.now)
        → IsInOrder big (order_of R.reading result) }
{
    if attribute.name().0 == name.0 {
        Some(attribute.value())
    } else {
        found
    }
}

/// The address that a value is, or that its index leads to.
pub(crate) fn address_of<R: Reader>(
    unit: UnitRef<'_, R>,
    value: &AttributeValue<R>,
) -> ReadResult<Option<u64>>
    ensures { result ≡ address_of (indexed_address R.reading unit.entry)
        (value_of R.reading value.now) }
{
    match value {
        AttributeValue::Addr(address) => Ok(Some(*address)),
        AttributeValue::DebugAddrIndex(index) => {
            let address = indexed_address(unit, *index)?;
            Ok(Some(address))
        }
        _ => Ok(None),
    }
}

/// The address of an index in the unit's part of `.debug_addr`.
pub(crate) fn indexed_address<R: Reader>(unit: UnitRef<'_, R>, index: u64) -> ReadResult<u64>
    ensures { result ≡ indexed_address R.reading unit.entry index }
{
    unit.address(index)
}

/// The constant that a value is, where it isn't negative.
pub(crate) fn constant_of<R: Reader>(value: &AttributeValue<R>) -> Option<u64>
    ensures { result ≡ constant_in (value_of R.reading value.now) }
{
    match value {
        AttributeValue::Data1(number) => Some(*number as u64),
        AttributeValue::Data2(number) => Some(*number as u64),
        AttributeValue::Data4(number) => Some(*number as u64),
        AttributeValue::Data8(number) => Some(*number),
        AttributeValue::Udata(number) => Some(*number),
        AttributeValue::Sdata(number) => not_negative(*number),
        _ => None,
    }
}

/// A number that isn't negative.
fn not_negative(number: i64) -> Option<u64>
    ensures { result ≡ not_negative number }
{
    if number < 0 {
        return None;
    }
    Some(number as u64)
}
