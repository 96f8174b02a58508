//! The entries that attributes name (DWARF 5, 2.2).

ghost use Rattle.std.specs.Prelude.{◌≡◌, ◌⊎◌, map, OnOk, IfErr};
ghost use Rattle.dw_read.specs.Orders.{value_order};
ghost use Rattle.dw_read.specs.Values.{value_of};
ghost use Rattle.dw_sources.specs.declared.convert_error.ConvertError.TheVariants.{NoMemory};
ghost use Rattle.dw_filter.specs.AttributePlaces.{AddsIndexed, AddsFaultyIndexed, MissesIndexed, AddsValue, RefusesValue};
ghost use Rattle.dw_filter.specs.AttributePlaces.{AddsAttribute, RefusesAttribute, AddsAttributes, RefusesOne, order_or_little, seen};

use crate::expression_places::{add_expression_places, add_place};
use crate::location_places::add_location_list_places;
use crate::operation_places::place_in;
use dw_base::UnitSectionOffset;
use dw_read::{Attribute, AttributeValue, Reader};
use dw_read_units::UnitRef;
use dw_sources::ConvertResult;
use std::alloc::Global;

/// Adds the places in `.debug_info` of the entries that the attributes of an entry of a unit name,
/// in bytes from the section's begin, one attribute after the other, each as `add_attribute_places`
/// does. An error of one of them ends all.
///
/// ```
/// let mut places = Vec::new(alloc);
/// add_entry_places(alloc, unit, &entry.attrs, &mut places)?;
/// ```
pub fn add_entry_places<R: Reader>(
    alloc: Global,
    unit: UnitRef<'_, R>,
    attributes: &[Attribute<R>],
    places: &mut Vec<UnitSectionOffset>,
) -> ConvertResult<()>
    ensures ok { OnOk result (AddsAttributes R.reading unit.entry
        (map (seen R.reading) attributes.now) places.old.items places.new.items) }
    ensures err { IfErr result (λ e. (e ≡ NoMemory) ⊎ RefusesOne R.reading unit.entry
        (map (seen R.reading) attributes.now) places.old.items places.new.items e) }
{
    'attributes: for attribute in attributes {
        add_attribute_places(alloc, unit, attribute, places)?;
    }
    Ok(())
}

/// Adds the places in `.debug_info` of the entries that an attribute names: that which its value
/// refers to (DWARF 5, 7.5.5), and those that its expression or the expressions of its location
/// list name, as `add_expression_places` and `add_location_list_places` have them. A place in the
/// unit counts where it lies in the unit and behind its header; one in `.debug_info` counts
/// wherever it leads.
///
/// Refused as `ConvertError::Read` where the location list can't be found or read up to its close,
/// and as `NoMemory`; some of the places may have been added then.
///
/// ```
/// let mut places = Vec::new(alloc);
/// for attribute in &entry.attrs {
///     add_attribute_places(alloc, unit, attribute, &mut places)?;
/// }
/// ```
pub fn add_attribute_places<R: Reader>(
    alloc: Global,
    unit: UnitRef<'_, R>,
    attribute: &Attribute<R>,
    places: &mut Vec<UnitSectionOffset>,
) -> ConvertResult<()>
    ensures ok { OnOk result (AddsAttribute R.reading unit.entry
        places.old.items places.new.items (seen R.reading attribute.now)) }
    ensures err { IfErr result (λ e. (e ≡ NoMemory) ⊎ RefusesAttribute R.reading unit.entry
        places.old.items places.new.items (seen R.reading attribute.now) e) }
{
    add_value_places(alloc, unit, attribute.value(), places)
}

/// The same of a value.
fn add_value_places<R: Reader>(
    alloc: Global,
    unit: UnitRef<'_, R>,
    value: AttributeValue<R>,
    places: &mut Vec<UnitSectionOffset>,
) -> ConvertResult<()>
    ensures ok { OnOk result (AddsValue R.reading unit.entry places.old.items places.new.items
        (order_or_little (value_order R.reading value)) (value_of R.reading value)) }
    ensures err { IfErr result (λ e. (e ≡ NoMemory) ⊎ RefusesValue R.reading unit.entry
        places.old.items places.new.items (value_of R.reading value) e) }
{
    match value {
        AttributeValue::UnitRef(entry) => add_place(place_in(unit, entry), places),
        AttributeValue::DebugInfoRef(entry) => {
            add_place(Some(UnitSectionOffset(entry.0)), places)
        }
        AttributeValue::Exprloc(expression) => {
            add_expression_places(alloc, unit, expression, places)
        }
        AttributeValue::LocationListsRef(offset) => {
            add_location_list_places(alloc, unit, offset, places)
        }
        AttributeValue::DebugLocListsIndex(index) => {
            add_indexed_list_places(alloc, unit, index, places)
        }
        _ => Ok(()),
    }
}

/// Adds the places that a location list names, which stands at an index in the unit's part of
/// `.debug_loclists`.
fn add_indexed_list_places<R: Reader>(
    alloc: Global,
    unit: UnitRef<'_, R>,
    index: u64,
    places: &mut Vec<UnitSectionOffset>,
) -> ConvertResult<()>
    ensures ok { OnOk result
        (AddsIndexed R.reading unit.entry places.old.items places.new.items index) }
    ensures err { IfErr result (λ e. (e ≡ NoMemory) ⊎
        (MissesIndexed R.reading unit.entry places.old.items places.new.items index e) ⊎
        (AddsFaultyIndexed R.reading unit.entry places.old.items places.new.items index e)) }
{
    let offset = unit.locations_offset(index)?;
    add_location_list_places(alloc, unit, offset, places)
}
