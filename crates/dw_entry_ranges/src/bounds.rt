//! Low and high addresses (DWARF 5, 2.17.1 and 2.17.2).

ghost use Rattle.std.specs.Prelude.{◌≡◌};
ghost use Rattle.dw_read.specs.Values.{value_of};
ghost use Rattle.dw_entry_ranges.specs.Addresses.{indexed_address};
ghost use Rattle.dw_entry_ranges.specs.Attributes.{values_in};
ghost use Rattle.dw_entry_ranges.specs.Bounds.{low_high, low_of, bounded, with_high, counted};

use crate::attribute::{address_of, constant_of, last_value};
use crate::range::{AddressRange, CodeAddresses};
use dw_base::constants::{DW_AT_high_pc, DW_AT_low_pc};
use dw_read::{Attribute, AttributeValue, ReadResult, Reader};
use dw_read_units::UnitRef;

/// What the `DW_AT_low_pc` and the `DW_AT_high_pc` of an entry say, of each name the last one
/// (DWARF 5, 2.17.1 and 2.17.2). The low one is an address, perhaps by an index; where it is none,
/// they say nothing. The high one is an address too, or a constant that counts from the low one.
/// Where it is absent, below zero or of another kind, `DW_FORM_data16` among them, the low address
/// stands alone. A high address may lie below the low one.
///
/// Refused is an index that leads to no address, as by `UnitRef::address`: `UnexpectedEof`, or
/// `UnsupportedAddressSize`. The high one is looked at only where the low one is an address.
#[tactic(auto, unfolding(crate::specs::Bounds::low_high))]
pub fn low_high<R: Reader>(
    unit: UnitRef<'_, R>,
    attrs: &[Attribute<R>],
) -> ReadResult<Option<CodeAddresses>>
    ensures { result ≡ low_high (indexed_address R.reading unit.entry)
        (values_in R.reading attrs.now) }
{
    match low_of(unit, attrs)? {
        Some(begin) => {
            let found = bounded(unit, attrs, begin)?;
            Ok(Some(found))
        }
        None => Ok(None),
    }
}

/// The address that the low value of an entry is or leads to.
fn low_of<R: Reader>(unit: UnitRef<'_, R>, attrs: &[Attribute<R>]) -> ReadResult<Option<u64>>
    ensures { result ≡ low_of (indexed_address R.reading unit.entry)
        (values_in R.reading attrs.now) }
{
    match last_value(attrs, DW_AT_low_pc) {
        Some(low) => address_of(unit, &low),
        None => Ok(None),
    }
}

/// The addresses of an entry that begins at one.
fn bounded<R: Reader>(
    unit: UnitRef<'_, R>,
    attrs: &[Attribute<R>],
    begin: u64,
) -> ReadResult<CodeAddresses>
    ensures { result ≡ bounded (indexed_address R.reading unit.entry)
        (values_in R.reading attrs.now) begin }
{
    match last_value(attrs, DW_AT_high_pc) {
        Some(high) => with_high(unit, begin, &high),
        None => Ok(CodeAddresses::Single(begin)),
    }
}

/// The same by its high value.
fn with_high<R: Reader>(
    unit: UnitRef<'_, R>,
    begin: u64,
    high: &AttributeValue<R>,
) -> ReadResult<CodeAddresses>
    ensures { result ≡ with_high (indexed_address R.reading unit.entry) begin
        (value_of R.reading high.now) }
{
    match address_of(unit, high)? {
        Some(end) => Ok(CodeAddresses::Contiguous(AddressRange::new(begin, end))),
        None => Ok(counted(begin, constant_of(high))),
    }
}

/// The same where a constant counts from the begin, or none.
fn counted(begin: u64, length: Option<u64>) -> CodeAddresses
    ensures { result ≡ counted begin length }
{
    match length {
        Some(length) => CodeAddresses::Contiguous(AddressRange::with_length(begin, length)),
        None => CodeAddresses::Single(begin),
    }
}
