//! What the lines of a script add to the location lists of a unit.

ghost use Rattle.std.specs.Prelude.{◌≡◌, IfErr, IfOk, Ok, OnOk};
ghost use Rattle.dw_script_units.specs.LocationLists.{after_location_list, locations_of, stored_location};
ghost use Rattle.dw_script_units.specs.Refused.{RefusedFor};

use crate::command_error::CommandError;
use crate::expressions::owned_expression;
use dw_lists::{Location, LocationList};
use dw_script::{LocationFields, ScriptLocation};
use dw_unit::Unit;
use std::alloc::{AllocError, Global};

/// Adds the location list of a line to a unit, unless an equal one stands there (DWARF 5, 2.6.2).
/// It is refused for want of memory alone.
///
/// ```
/// add_location_list(alloc, &mut unit, &locations)?;
/// ```
pub fn add_location_list(
    alloc: Global,
    unit: &mut Unit,
    locations: &LocationFields<'_>,
) -> Result<(), CommandError>
    ensures ok { OnOk result (after_location_list locations.now unit.old ≡ Ok unit.new) }
    ensures err { IfErr result (RefusedFor (after_location_list locations.now unit.old)) }
{
    let list = owned_list(alloc, locations).map_err(|_| CommandError::NoMemory)?;
    match unit.locations.add(list) {
        Ok(_) => Ok(()),
        Err(_) => Err(CommandError::NoMemory),
    }
}

// The list of a line, in memory of its own.
fn owned_list(alloc: Global, fields: &LocationFields<'_>) -> Result<LocationList, AllocError>
    ensures { IfOk result (λ list. list ≡ locations_of fields.now) }
{
    let mut locations = Vec::new(alloc);
    for location in fields.items() {
        locations.push(owned_location(alloc, location)?)?;
    }
    Ok(LocationList(locations))
}

// An item, as lists have it, in memory of its own.
fn owned_location(alloc: Global, location: ScriptLocation<'_>) -> Result<Location, AllocError>
    ensures { IfOk result (λ l. l ≡ stored_location location.entry) }
{
    let owned = match location {
        ScriptLocation::BaseAddress { address } => Location::BaseAddress { address },
        ScriptLocation::OffsetPair {
            begin,
            end,
            expression,
        } => Location::OffsetPair {
            begin,
            end,
            expression: owned_expression(alloc, &expression)?,
        },
        ScriptLocation::StartEnd {
            begin,
            end,
            expression,
        } => Location::StartEnd {
            begin,
            end,
            expression: owned_expression(alloc, &expression)?,
        },
        ScriptLocation::StartLength {
            begin,
            length,
            expression,
        } => Location::StartLength {
            begin,
            length,
            expression: owned_expression(alloc, &expression)?,
        },
        ScriptLocation::DefaultLocation { expression } => Location::DefaultLocation {
            expression: owned_expression(alloc, &expression)?,
        },
    };
    Ok(owned)
}
