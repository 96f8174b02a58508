//! Range lists of a line: checked once, and then read item by item.

ghost use Rattle.std.specs.Prelude.{◌≡◌};
ghost use Rattle.std.specs.Iterator.{YieldsFirst, item_count};
ghost use Rattle.dw_script_fields.specs.Items.{items_of, list_of};
ghost use Rattle.dw_ends.specs.Pieces.{pieces_left};
ghost use Rattle.dw_script_fields.specs.Ranges.{range_field, ranges_left};

use crate::range::{ScriptRange, next_range};
use dw_ends::{Pieces, Reason};
use std::marker::Model;

/// The fields of a range list (DWARF 5, 2.17.3), which were looked at, so that a line is read
/// without memory. Contracts see the items.
#[derive(Drop)]
pub struct RangeFields<'a> {
    // The line's fields from the first item on.
    fields: Pieces<'a>,
}

impl<'a> Model for RangeFields<'a> {
    ghost use Rattle.std.specs.Prelude.{List};
    ghost use Rattle.dw_script_fields.specs.Items.{items_of};
    ghost use Rattle.dw_ends.specs.Pieces.{pieces_left};
    ghost use Rattle.dw_script_fields.specs.Ranges.{range_field};
    ghost use Rattle.dw_script_fields.specs.declared.range.ScriptRange.{ScriptRange};

    ghost Value = { List ScriptRange };

    ghost view = { λ r. (items_of range_field (pieces_left r.fields)).0 };
}

impl<'a> RangeFields<'a> {
    /// One item or more, up to the end of the line.
    pub fn read(fields: Pieces<'a>) -> Result<RangeFields<'a>, Reason>
        ensures { result ≡ list_of range_field (pieces_left fields.entry) }
    {
        if fields.is_at_end() {
            return Err(Reason::WrongFields);
        }
        pass_ranges(fields)?;
        Ok(RangeFields { fields })
    }

    /// The items, from the first on.
    pub fn items(&self) -> RangeItems<'a>
        ensures { ranges_left result ≡ self.now }
    {
        RangeItems {
            fields: self.fields,
        }
    }
}

/// The items of a range list that are still to come.
#[derive(Drop)]
pub struct RangeItems<'a> {
    fields: Pieces<'a>,
}

impl<'a> Iterator for RangeItems<'a> {
    type Item = ScriptRange;

    ghost next_gives = { YieldsFirst ranges_left };

    ghost remaining = { item_count ranges_left };

    fn next(&mut self) -> Option<ScriptRange> {
        if self.fields.is_at_end() {
            return None;
        }
        match next_range(&mut self.fields) {
            Ok(range) => Some(range),
            Err(_) => {
                self.fields.pass_all();
                None
            }
        }
    }
}

// Looks at all items up to the end of the line.
fn pass_ranges(mut fields: Pieces<'_>) -> Result<(), Reason>
    ensures { result ≡ (items_of range_field (pieces_left fields.entry)).1 }
{
    while !fields.is_at_end() {
        next_range(&mut fields)?;
    }
    Ok(())
}
