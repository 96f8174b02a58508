//! Locations that begin with an address (DWARF 5, 2.6 and 2.5.1.1).

ghost use Rattle.std.specs.Prelude.{◌≡◌, Bool};
ghost use Rattle.dw_read.specs.Reading.{left};
ghost use Rattle.dw_sources.specs.OperationViews.{operation_of};
ghost use Rattle.dw_sources.specs.RawListIters.{encoding_in};
ghost use Rattle.dw_entry_ranges.specs.Addresses.{indexed_address};
ghost use Rattle.dw_entry_ranges.specs.Attributes.{values_in, AreInOrder};
ghost use Rattle.dw_entry_ranges.specs.Locations.{location_address, first_address, pushed};

use crate::attribute::{indexed_address, last_value};
use dw_base::constants::DW_AT_location;
use dw_read::{Attribute, AttributeValue, Expression, ReadResult, Reader};
use dw_read_units::UnitRef;
use dw_sources::{Operation, OperationIter};

/// The address that the first operation of the last `DW_AT_location` of an entry pushes, as that
/// of a variable in static memory does: `DW_OP_addr`, or `DW_OP_addrx`, whose index leads to it
/// (DWARF 5, 2.6.1.1.2 and 2.5.1.1). None where the location is absent or no expression, and where
/// its first operation is another one or can't be read. The address is as wide as those of the
/// unit, in the byte order of the attribute's bytes.
///
/// Refused is an index that leads to no address, as by `UnitRef::address`: `UnexpectedEof`, or
/// `UnsupportedAddressSize`.
#[tactic(auto, unfolding(crate::specs::Locations::location_address))]
pub fn location_address<R: Reader>(
    unit: UnitRef<'_, R>,
    attrs: &[Attribute<R>],
) -> ReadResult<Option<u64>>
    ensures { (big : Bool) → AreInOrder R.reading big attrs.now → result ≡ location_address
        (indexed_address R.reading unit.entry) big (encoding_in unit.entry)
        (values_in R.reading attrs.now) }
{
    match last_value(attrs, DW_AT_location) {
        Some(AttributeValue::Exprloc(expression)) => first_address(unit, expression),
        _ => Ok(None),
    }
}

/// The address that the first operation of an expression pushes.
fn first_address<R: Reader>(
    unit: UnitRef<'_, R>,
    expression: Expression<R>,
) -> ReadResult<Option<u64>>
    ensures { result ≡ first_address (indexed_address R.reading unit.entry)
        (R.reading expression.0).is_big (encoding_in unit.entry)
        (left (R.reading expression.0)) }
{
    let mut operations = OperationIter::new(expression, unit.encoding());
    match operations.next() {
        Ok(Some(operation)) => pushed(unit, operation),
        Ok(None) => Ok(None),
        Err(_) => Ok(None),
    }
}

/// The address that an operation pushes.
fn pushed<R: Reader>(unit: UnitRef<'_, R>, operation: Operation<R>) -> ReadResult<Option<u64>>
    ensures { result ≡ pushed (indexed_address R.reading unit.entry)
        (operation_of R.reading operation) }
{
    match operation {
        Operation::Address(address) => Ok(Some(address)),
        Operation::AddressIndex(index) => {
            let address = indexed_address(unit, index)?;
            Ok(Some(address))
        }
        _ => Ok(None),
    }
}
