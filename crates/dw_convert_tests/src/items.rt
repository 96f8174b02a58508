//! The items of lists, as plain data.

use dw_base::{Address, Result};
use dw_expr::{Expression, Operation};
use dw_lists::{Location, LocationList, Range, RangeList};
use std::alloc::Global;

/// An item of a list, where all addresses are constants.
#[derive(Clone, Copy)]
pub(crate) enum Item {
    Base(u64),
    Pair(u64, u64),
    /// Two addresses.
    Ends(u64, u64),
    /// An address and a length.
    Start(u64, u64),
    /// The default location, which has no range.
    Default,
}

/// The range of an item.
fn range(item: Item) -> Option<Range> {
    Some(match item {
        Item::Base(address) => Range::BaseAddress {
            address: Address::Constant(address),
        },
        Item::Pair(begin, end) => Range::OffsetPair { begin, end },
        Item::Ends(begin, end) => Range::StartEnd {
            begin: Address::Constant(begin),
            end: Address::Constant(end),
        },
        Item::Start(begin, length) => Range::StartLength {
            begin: Address::Constant(begin),
            length,
        },
        Item::Default => return None,
    })
}

/// A list of the ranges among items.
pub(crate) fn range_list_of(alloc: Global, items: &[Item]) -> Result<RangeList> {
    let mut ranges = Vec::new(alloc);
    for item in items {
        if let Some(range) = range(*item) {
            ranges.push(range)?;
        }
    }
    Ok(RangeList(ranges))
}

/// An expression that is a number.
pub(crate) fn constant(alloc: Global, number: u64) -> Result<Expression> {
    let operations = vec![in alloc; Operation::UnsignedConstant(number)]?;
    Ok(Expression::from_operations(alloc, operations))
}

fn location(item: Item, expression: Expression) -> Location {
    match range(item) {
        Some(Range::BaseAddress { address }) => Location::BaseAddress { address },
        Some(Range::OffsetPair { begin, end }) => Location::OffsetPair {
            begin,
            end,
            expression,
        },
        Some(Range::StartEnd { begin, end }) => Location::StartEnd {
            begin,
            end,
            expression,
        },
        Some(Range::StartLength { begin, length }) => Location::StartLength {
            begin,
            length,
            expression,
        },
        None => Location::DefaultLocation { expression },
    }
}

/// A list of items, where all that can have an expression have this number.
pub(crate) fn location_list_of(alloc: Global, items: &[Item], number: u64) -> Result<LocationList> {
    let mut list = Vec::new(alloc);
    for item in items {
        list.push(location(*item, constant(alloc, number)?))?;
    }
    Ok(LocationList(list))
}
