//! The lines that add a list to a unit.

ghost use Rattle.std.specs.Prelude.{◌≡◌};
ghost use Rattle.dw_script.specs.Lists.{location_list_line, range_list_line};
ghost use Rattle.dw_ends.specs.Pieces.{pieces_left};

use crate::command::Command;
use dw_ends::{Pieces, Reason, next_u64};
use dw_script_fields::{LocationFields, RangeFields};

/// The fields after `range`.
pub(crate) fn parse_range_list<'a>(fields: &mut Pieces<'a>) -> Result<Command<'a>, Reason>
    ensures { result ≡ range_list_line (pieces_left fields.old) }
{
    let unit = next_u64(fields)?;
    let ranges = RangeFields::read(*fields)?;
    Ok(Command::RangeList { unit, ranges })
}

/// The fields after `loc`.
pub(crate) fn parse_location_list<'a>(fields: &mut Pieces<'a>) -> Result<Command<'a>, Reason>
    ensures { result ≡ location_list_line (pieces_left fields.old) }
{
    let unit = next_u64(fields)?;
    let locations = LocationFields::read(*fields)?;
    Ok(Command::LocationList { unit, locations })
}
