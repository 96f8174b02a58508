//! Location lists of a line: checked once, and then read item by item.

ghost use Rattle.std.specs.Prelude.{◌≡◌};
ghost use Rattle.std.specs.Iterator.{YieldsFirst, item_count};
ghost use Rattle.dw_script_fields.specs.Items.{items_of, list_of};
ghost use Rattle.dw_script_fields.specs.Locations.{location_field, locations_left};
ghost use Rattle.dw_ends.specs.Pieces.{pieces_left};

use crate::location::{ScriptLocation, next_location};
use dw_ends::{Pieces, Reason};
use std::marker::Model;

/// The fields of a location list (DWARF 5, 2.6.2), which were looked at, so that a line is read
/// without memory. Contracts see the items.
#[derive(Drop)]
pub struct LocationFields<'a> {
    // The line's fields from the first item on.
    fields: Pieces<'a>,
}

impl<'a> Model for LocationFields<'a> {
    ghost use Rattle.std.specs.Prelude.{List};
    ghost use Rattle.dw_script_fields.specs.Items.{items_of};
    ghost use Rattle.dw_script_fields.specs.Locations.{location_field};
    ghost use Rattle.dw_ends.specs.Pieces.{pieces_left};
    ghost use Rattle.dw_script_fields.specs.declared.location.ScriptLocation.{ScriptLocation};

    ghost Value = { List ScriptLocation };

    ghost view = { λ l. (items_of location_field (pieces_left l.fields)).0 };
}

impl<'a> LocationFields<'a> {
    /// One item or more, up to the end of the line.
    pub fn read(fields: Pieces<'a>) -> Result<LocationFields<'a>, Reason>
        ensures { result ≡ list_of location_field (pieces_left fields.entry) }
    {
        if fields.is_at_end() {
            return Err(Reason::WrongFields);
        }
        pass_locations(fields)?;
        Ok(LocationFields { fields })
    }

    /// The items, from the first on.
    pub fn items(&self) -> LocationItems<'a>
        ensures { locations_left result ≡ self.now }
    {
        LocationItems {
            fields: self.fields,
        }
    }
}

/// The items of a location list that are still to come.
#[derive(Drop)]
pub struct LocationItems<'a> {
    fields: Pieces<'a>,
}

impl<'a> Iterator for LocationItems<'a> {
    type Item = ScriptLocation<'a>;

    ghost next_gives = { YieldsFirst locations_left };

    ghost remaining = { item_count locations_left };

    fn next(&mut self) -> Option<ScriptLocation<'a>> {
        if self.fields.is_at_end() {
            return None;
        }
        match next_location(&mut self.fields) {
            Ok(location) => Some(location),
            Err(_) => {
                self.fields.pass_all();
                None
            }
        }
    }
}

// Looks at all items up to the end of the line.
fn pass_locations(mut fields: Pieces<'_>) -> Result<(), Reason>
    ensures { result ≡ (items_of location_field (pieces_left fields.entry)).1 }
{
    while !fields.is_at_end() {
        next_location(&mut fields)?;
    }
    Ok(())
}
