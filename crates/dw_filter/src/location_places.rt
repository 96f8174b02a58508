//! The entries that the expressions of a location list name (DWARF 5, 2.6.2).

ghost use Rattle.std.specs.Prelude.{◌≡◌, ◌⊎◌, ◌++◌, OnOk, IfErr};
ghost use Rattle.dw_sources.specs.declared.convert_error.ConvertError.TheVariants.{NoMemory};
ghost use Rattle.dw_filter.specs.PlaceViews.{AddsList, AddsFaultyList};
ghost use Rattle.dw_filter.specs.PlaceViews.{named_by_list, named_by_item, held_expression};

use crate::expression_places::add_expression_places;
use dw_base::{LocationListsOffset, UnitSectionOffset};
use dw_read::{Expression, Reader};
use dw_read_units::UnitRef;
use dw_sources::{ConvertResult, RawLocListEntry, raw_locations};
use std::alloc::Global;

/// Adds the places in `.debug_info` of the entries that the items of a location list name: those
/// of each item's expression, as `add_expression_places` has them, in the order of the items. The
/// list stands at an offset of `.debug_loclists`, or up to version 4 of `.debug_loc`, in bytes from
/// the section's begin, and is read up to its close.
///
/// Where the offset lies past the section's end, or an item can't be read, that is the error
/// (`ConvertError::Read`), and what the items before name was added. An expression that can't be
/// read is no error: it counts up to there. Else refused only for want of memory (`NoMemory`); some
/// of the places may have been added then.
///
/// ```
/// let mut places = Vec::new(alloc);
/// add_location_list_places(alloc, unit, offset, &mut places)?;
/// ```
pub fn add_location_list_places<R: Reader>(
    alloc: Global,
    unit: UnitRef<'_, R>,
    offset: LocationListsOffset,
    places: &mut Vec<UnitSectionOffset>,
) -> ConvertResult<()>
    ensures ok { OnOk result (AddsList places.old.items places.new.items
        (named_by_list R.reading unit.entry offset.0)) }
    ensures err { IfErr result (λ e. (e ≡ NoMemory) ⊎ AddsFaultyList places.old.items
        places.new.items (named_by_list R.reading unit.entry offset.0) e) }
{
    let mut items = raw_locations(unit, offset)?;
    'items: while let Some(item) = items.next()? {
        add_item_places(alloc, unit, item, places)?;
    }
    Ok(())
}

/// Adds the places that the expression of an item names.
fn add_item_places<R: Reader>(
    alloc: Global,
    unit: UnitRef<'_, R>,
    item: RawLocListEntry<R>,
    places: &mut Vec<UnitSectionOffset>,
) -> ConvertResult<()>
    ensures ok { OnOk result (places.new.items ≡ places.old.items
        ++ named_by_item R.reading unit.entry (held_expression item)) }
    ensures err { IfErr result (λ e. e ≡ NoMemory) }
{
    match expression_of(item) {
        Some(expression) => add_expression_places(alloc, unit, expression, places),
        None => Ok(()),
    }
}

/// The expression of an item; a base has none.
fn expression_of<R: Reader>(item: RawLocListEntry<R>) -> Option<Expression<R>>
    ensures { result ≡ held_expression item }
{
    match item {
        RawLocListEntry::BaseAddress { .. } | RawLocListEntry::BaseAddressx { .. } => None,
        RawLocListEntry::AddressOrOffsetPair { expression, .. }
        | RawLocListEntry::StartxEndx { expression, .. }
        | RawLocListEntry::StartxLength { expression, .. }
        | RawLocListEntry::OffsetPair { expression, .. }
        | RawLocListEntry::DefaultLocation { expression }
        | RawLocListEntry::StartEnd { expression, .. }
        | RawLocListEntry::StartLength { expression, .. } => Some(expression),
    }
}
