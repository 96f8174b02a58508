//! Addresses, as the caller of a conversion wants them.

ghost use Rattle.std.specs.Prelude.{◌≡◌, None};
ghost use Rattle.dw_convert.specs.Outcomes.{AddressOutcome, IndexOutcome};
ghost use Rattle.dw_convert.specs.Lookups.{address_of, addresses_in};

use dw_base::Address;
use dw_read::Reader;
use dw_read_units::UnitRef;
use dw_sources::{ConvertError, ConvertResult};

/// What the caller makes of an address.
pub(crate) fn converted<F: Fn(u64) -> Option<Address>>(
    address: u64,
    convert_address: &F,
) -> ConvertResult<Address>
    requires { F.IsAlwaysCallable convert_address.now }
    ensures { AddressOutcome (F.post convert_address.now) address result }
{
    match convert_address(address) {
        Some(converted) => Ok(converted),
        None => Err(ConvertError::InvalidAddress),
    }
}

/// What the caller makes of the address of an index in the unit's part of `.debug_addr`.
pub(crate) fn indexed<R: Reader, F: Fn(u64) -> Option<Address>>(
    unit: UnitRef<'_, R>,
    index: u64,
    convert_address: &F,
) -> ConvertResult<Address>
    requires { F.IsAlwaysCallable convert_address.now }
    ensures { IndexOutcome (F.post convert_address.now) (address_of R.reading unit.entry) index
        result }
{
    let address = unit.address(index)?;
    converted(address, convert_address)
}

/// The address of an index, which only a unit has.
pub(crate) fn address_in<R: Reader>(unit: Option<UnitRef<'_, R>>, index: u64) -> ConvertResult<u64>
    ensures { result ≡ addresses_in R.reading unit.entry index }
{
    let Some(unit) = unit else {
        return Err(ConvertError::UnsupportedOperation);
    };
    let found = unit.address(index)?;
    Ok(found)
}

/// What the caller makes of it.
pub(crate) fn indexed_in<R: Reader, F: Fn(u64) -> Option<Address>>(
    unit: Option<UnitRef<'_, R>>,
    index: u64,
    convert_address: &F,
) -> ConvertResult<Address>
    requires { F.IsAlwaysCallable convert_address.now }
    ensures { IndexOutcome (F.post convert_address.now) (addresses_in R.reading unit.entry) index
        result }
{
    let Some(unit) = unit else {
        return Err(ConvertError::UnsupportedOperation);
    };
    indexed(unit, index, convert_address)
}
