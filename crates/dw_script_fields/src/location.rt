//! Items of location lists, as lines spell them.

ghost use Rattle.std.specs.Prelude.{◌≡◌};
ghost use Rattle.dw_ends.specs.Fields.{with_rest};
ghost use Rattle.dw_script_fields.specs.Locations.{location_field, location_of_range, location_of_word};
ghost use Rattle.dw_ends.specs.Pieces.{pieces_left};

use crate::expression::ExpressionFields;
use crate::field::next_location_word;
use crate::location_word::LocationWord;
use crate::range::{ScriptRange, next_range_of_word};
use dw_base::Address;
use dw_ends::{Pieces, Reason};

/// An item of a location list: where an object is while the program counter is between two
/// addresses, the second of which doesn't belong to them, or the base that offset pairs count from
/// (DWARF 5, 2.6.2).
#[derive(Drop)]
pub enum ScriptLocation<'a> {
    /// What the offset pairs that follow count from.
    BaseAddress {
        address: Address,
    },
    /// Offsets in bytes from the base address.
    OffsetPair {
        begin: u64,
        end: u64,
        expression: ExpressionFields<'a>,
    },
    /// The two ends as addresses.
    StartEnd {
        begin: Address,
        end: Address,
        expression: ExpressionFields<'a>,
    },
    /// The first address, and how many bytes follow it.
    StartLength {
        begin: Address,
        length: u64,
        expression: ExpressionFields<'a>,
    },
    /// All addresses that no other item has.
    DefaultLocation {
        expression: ExpressionFields<'a>,
    },
}

/// An item, its word before it.
pub(crate) fn next_location<'a>(fields: &mut Pieces<'a>) -> Result<ScriptLocation<'a>, Reason>
    ensures { with_rest result (pieces_left fields.new) ≡
        location_field (pieces_left fields.old) }
{
    let word = next_location_word(fields)?;
    next_location_of_word(word, fields)
}

// The fields after a word, and what item they are.
fn next_location_of_word<'a>(
    word: LocationWord,
    fields: &mut Pieces<'a>,
) -> Result<ScriptLocation<'a>, Reason>
    ensures { with_rest result (pieces_left fields.new) ≡
        location_of_word word (pieces_left fields.old) }
{
    match word {
        LocationWord::Range(word) => {
            let range = next_range_of_word(word, fields)?;
            next_location_of_range(range, fields)
        }
        LocationWord::Default => {
            let expression = ExpressionFields::read(fields)?;
            Ok(ScriptLocation::DefaultLocation { expression })
        }
    }
}

// The fields after an item's addresses: an expression behind all but a base.
fn next_location_of_range<'a>(
    range: ScriptRange,
    fields: &mut Pieces<'a>,
) -> Result<ScriptLocation<'a>, Reason>
    ensures { with_rest result (pieces_left fields.new) ≡
        location_of_range range (pieces_left fields.old) }
{
    let location = match range {
        ScriptRange::BaseAddress { address } => ScriptLocation::BaseAddress { address },
        ScriptRange::OffsetPair { begin, end } => {
            let expression = ExpressionFields::read(fields)?;
            ScriptLocation::OffsetPair {
                begin,
                end,
                expression,
            }
        }
        ScriptRange::StartEnd { begin, end } => {
            let expression = ExpressionFields::read(fields)?;
            ScriptLocation::StartEnd {
                begin,
                end,
                expression,
            }
        }
        ScriptRange::StartLength { begin, length } => {
            let expression = ExpressionFields::read(fields)?;
            ScriptLocation::StartLength {
                begin,
                length,
                expression,
            }
        }
    };
    Ok(location)
}
