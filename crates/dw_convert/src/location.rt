//! The items of location lists.

ghost use Rattle.std.specs.Prelude.{◌≡◌, ◌⊎◌, IfOk, IfErr};
ghost use Rattle.dw_sources.specs.RawListViews.{location_of};
ghost use Rattle.dw_sources.specs.declared.convert_error.ConvertError.TheVariants.{NoMemory};
ghost use Rattle.dw_convert.specs.LocationLists.{ItemOutcome};
ghost use Rattle.dw_convert.specs.LocationViews.{item_order, item_in, order_in};
ghost use Rattle.dw_convert.specs.Locations.{location_at_range, is_base_item, is_nowhere};

use crate::expressions::expression;
use crate::range::{self, convert_range};
use crate::references::ConvertDebugInfoRef;
use dw_base::Address;
use dw_expr::Expression;
use dw_lists::{Location, Range};
use dw_read::{Expression as ReadExpression, Reader};
use dw_read_units::UnitRef;
use dw_sources::{ConvertResult, RawLocListEntry, RawRngListEntry};
use std::alloc::Global;

/// An item in its parts: the default location has no addresses, and a base no expression.
#[derive(Drop)]
pub(crate) enum Parts<R: Reader> {
    Base(RawRngListEntry),
    Range(RawRngListEntry, ReadExpression<R>),
    Default(ReadExpression<R>),
}

/// What an item becomes, where a base is in force or none.
pub(crate) fn convert_location<R: Reader, C: ConvertDebugInfoRef, F: Fn(u64) -> Option<Address>>(
    alloc: Global,
    parts: Parts<R>,
    unit: UnitRef<'_, R>,
    has_base: bool,
    convert_address: &F,
    refs: &C,
) -> ConvertResult<Location>
    requires { F.IsAlwaysCallable convert_address.now }
    ensures ok { IfOk result (λ l. ItemOutcome R.reading (F.post convert_address.now)
        (C.entries refs.now) (C.infos refs.now) unit.entry (order_in R.reading parts) has_base
        (item_in R.reading parts) (Ok l)) }
    ensures err { IfErr result (λ e. (e ≡ NoMemory) ⊎ ItemOutcome R.reading
        (F.post convert_address.now) (C.entries refs.now) (C.infos refs.now) unit.entry
        (order_in R.reading parts) has_base (item_in R.reading parts) (Err e)) }
{
    let encoding = unit.encoding();
    match parts {
        Parts::Base(range) => {
            let range = convert_range(range, unit, has_base, convert_address)?;
            Ok(at_range(range, Expression::new(alloc)))
        }
        Parts::Range(range, read) => {
            let range = convert_range(range, unit, has_base, convert_address)?;
            let expression = expression(alloc, read, encoding, Some(unit), convert_address, refs)?;
            Ok(at_range(range, expression))
        }
        Parts::Default(read) => {
            let expression = expression(alloc, read, encoding, Some(unit), convert_address, refs)?;
            Ok(Location::DefaultLocation { expression })
        }
    }
}

/// An item's parts.
pub(crate) fn parts_of<R: Reader>(item: RawLocListEntry<R>) -> Parts<R>
    ensures is { item_in R.reading result ≡ location_of R.reading item }
    ensures order { order_in R.reading result ≡ item_order R.reading item }
{
    match item {
        RawLocListEntry::BaseAddress { addr } => Parts::Base(RawRngListEntry::BaseAddress { addr }),
        RawLocListEntry::BaseAddressx { addr } => {
            Parts::Base(RawRngListEntry::BaseAddressx { addr })
        }
        RawLocListEntry::AddressOrOffsetPair {
            begin,
            end,
            expression,
        } => Parts::Range(
            RawRngListEntry::AddressOrOffsetPair { begin, end },
            expression,
        ),
        RawLocListEntry::StartxEndx {
            begin,
            end,
            expression,
        } => Parts::Range(RawRngListEntry::StartxEndx { begin, end }, expression),
        RawLocListEntry::StartxLength {
            begin,
            length,
            expression,
        } => Parts::Range(RawRngListEntry::StartxLength { begin, length }, expression),
        RawLocListEntry::OffsetPair {
            begin,
            end,
            expression,
        } => Parts::Range(RawRngListEntry::OffsetPair { begin, end }, expression),
        RawLocListEntry::StartEnd {
            begin,
            end,
            expression,
        } => Parts::Range(RawRngListEntry::StartEnd { begin, end }, expression),
        RawLocListEntry::StartLength {
            begin,
            length,
            expression,
        } => Parts::Range(RawRngListEntry::StartLength { begin, length }, expression),
        RawLocListEntry::DefaultLocation { expression } => Parts::Default(expression),
    }
}

/// The item of a range with an expression; a base has none.
fn at_range(range: Range, expression: Expression) -> Location
    ensures { result ≡ location_at_range range expression }
{
    match range {
        Range::BaseAddress { address } => Location::BaseAddress { address },
        Range::OffsetPair { begin, end } => Location::OffsetPair {
            begin,
            end,
            expression,
        },
        Range::StartEnd { begin, end } => Location::StartEnd {
            begin,
            end,
            expression,
        },
        Range::StartLength { begin, length } => Location::StartLength {
            begin,
            length,
            expression,
        },
    }
}

/// Whether pairs count from an item, from there on.
pub(crate) fn is_base<R: Reader>(parts: &Parts<R>) -> bool
    ensures { result ≡ is_base_item (item_in R.reading parts.now) }
{
    match parts {
        Parts::Base(range) => range::is_base(*range),
        Parts::Range(range, _) => range::is_base(*range),
        Parts::Default(_) => false,
    }
}

/// Whether a location is for no address.
pub(crate) fn is_nowhere(location: &Location) -> bool
    ensures { result ≡ is_nowhere location.now }
{
    match location {
        Location::BaseAddress { .. } | Location::DefaultLocation { .. } => false,
        Location::OffsetPair { begin, end, .. } => begin == end,
        Location::StartEnd { begin, end, .. } => begin == end,
        Location::StartLength { length, .. } => *length == 0,
    }
}
