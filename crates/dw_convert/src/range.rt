//! The items of range lists, and the addresses of the items of location lists.

ghost use Rattle.std.specs.Prelude.{◌≡◌, Ok};
ghost use Rattle.dw_lists.specs.declared.range.Range.TheVariants.{BaseAddress, StartEnd, StartLength};
ghost use Rattle.dw_sources.specs.RawListViews.{span_of};
ghost use Rattle.dw_convert.specs.Lookups.{address_of};
ghost use Rattle.dw_convert.specs.Ranges.{RangeOutcome, pair, with_address, is_base, is_empty};

use crate::address::{converted, indexed};
use dw_base::Address;
use dw_lists::Range;
use dw_read::Reader;
use dw_read_units::UnitRef;
use dw_sources::{ConvertError, ConvertResult, RawRngListEntry};

/// What an item becomes, where a base is in force or none.
pub(crate) fn convert_range<R: Reader, F: Fn(u64) -> Option<Address>>(
    item: RawRngListEntry,
    unit: UnitRef<'_, R>,
    has_base: bool,
    convert_address: &F,
) -> ConvertResult<Range>
    requires { F.IsAlwaysCallable convert_address.now }
    ensures { RangeOutcome (F.post convert_address.now) (address_of R.reading unit.entry) has_base
        (span_of item) result }
{
    match item {
        RawRngListEntry::AddressOrOffsetPair { begin, end } => {
            let begin = converted(begin, convert_address);
            let end = converted(end, convert_address);
            paired(begin, end, has_base)
        }
        RawRngListEntry::BaseAddress { addr } => based(converted(addr, convert_address)),
        RawRngListEntry::BaseAddressx { addr } => based(indexed(unit, addr, convert_address)),
        RawRngListEntry::StartxEndx { begin, end } => {
            let begin = indexed(unit, begin, convert_address);
            let end = indexed(unit, end, convert_address);
            spanned(begin, end)
        }
        RawRngListEntry::StartxLength { begin, length } => {
            counted(indexed(unit, begin, convert_address), length)
        }
        RawRngListEntry::OffsetPair { begin, end } => Ok(Range::OffsetPair { begin, end }),
        RawRngListEntry::StartEnd { begin, end } => {
            let begin = converted(begin, convert_address);
            let end = converted(end, convert_address);
            spanned(begin, end)
        }
        RawRngListEntry::StartLength { begin, length } => {
            counted(converted(begin, convert_address), length)
        }
    }
}

/// A base, if its address is known.
fn based(address: ConvertResult<Address>) -> ConvertResult<Range>
    ensures { result ≡ with_address (λ a. Ok (BaseAddress a)) address }
{
    match address {
        Ok(address) => Ok(Range::BaseAddress { address }),
        Err(why) => Err(why),
    }
}

/// A begin and a length, if the begin is known.
fn counted(begin: ConvertResult<Address>, length: u64) -> ConvertResult<Range>
    ensures { result ≡ with_address (λ a. Ok (StartLength a length)) begin }
{
    match begin {
        Ok(begin) => Ok(Range::StartLength { begin, length }),
        Err(why) => Err(why),
    }
}

/// A begin and an end, if both are known.
fn spanned(begin: ConvertResult<Address>, end: ConvertResult<Address>) -> ConvertResult<Range>
    ensures { result ≡ with_address (λ a. with_address (λ b. Ok (StartEnd a b)) end) begin }
{
    match (begin, end) {
        (Ok(begin), Ok(end)) => Ok(Range::StartEnd { begin, end }),
        (Err(why), _) => Err(why),
        (Ok(_), Err(why)) => Err(why),
    }
}

/// What two numbers are up to version 4, if both are known.
fn paired(
    begin: ConvertResult<Address>,
    end: ConvertResult<Address>,
    has_base: bool,
) -> ConvertResult<Range>
    ensures { result ≡ with_address (λ a. with_address (pair has_base a) end) begin }
{
    match (begin, end) {
        (Ok(begin), Ok(end)) => pair(begin, end, has_base),
        (Err(why), _) => Err(why),
        (Ok(_), Err(why)) => Err(why),
    }
}

/// What two converted numbers are up to version 4: offsets where a base is in force, else
/// addresses. No sum of a base and an address has a meaning.
fn pair(begin: Address, end: Address, has_base: bool) -> ConvertResult<Range>
    ensures { result ≡ pair has_base begin end }
{
    if !has_base {
        return Ok(Range::StartEnd { begin, end });
    }
    match (begin, end) {
        (Address::Constant(begin), Address::Constant(end)) => Ok(Range::OffsetPair { begin, end }),
        _ => Err(ConvertError::InvalidRangeRelativeAddress),
    }
}

/// Whether pairs count from an item, from there on.
pub(crate) fn is_base(item: RawRngListEntry) -> bool
    ensures { result ≡ is_base (span_of item) }
{
    matches!(
        item,
        RawRngListEntry::BaseAddress { .. } | RawRngListEntry::BaseAddressx { .. }
    )
}

/// Whether no address belongs to a range.
pub(crate) fn is_empty(range: Range) -> bool
    ensures { result ≡ is_empty range }
{
    match range {
        Range::BaseAddress { .. } => false,
        Range::OffsetPair { begin, end } => begin == end,
        Range::StartEnd { begin, end } => begin == end,
        Range::StartLength { length, .. } => length == 0,
    }
}
