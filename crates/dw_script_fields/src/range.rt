//! Items of range lists, as lines spell them.

ghost use Rattle.std.specs.Prelude.{◌≡◌};
ghost use Rattle.dw_ends.specs.Fields.{with_rest};
ghost use Rattle.dw_ends.specs.Pieces.{pieces_left};
ghost use Rattle.dw_script_fields.specs.Ranges.{range_field, range_of_word};

use crate::field::{next_address, next_range_word};
use crate::range_word::RangeWord;
use dw_base::Address;
use dw_ends::{Pieces, Reason, next_u64};

/// An item of a range list: addresses that belong to it, from the first one up to the one behind
/// the last, or the base that offset pairs count from (DWARF 5, 2.17.3).
#[derive(Clone, Copy)]
pub enum ScriptRange {
    /// What the offset pairs that follow count from.
    BaseAddress { address: Address },
    /// Offsets in bytes from the base address.
    OffsetPair { begin: u64, end: u64 },
    /// The two ends as addresses.
    StartEnd { begin: Address, end: Address },
    /// The first address, and how many bytes follow it.
    StartLength { begin: Address, length: u64 },
}

/// An item, its word before it.
pub(crate) fn next_range(fields: &mut Pieces<'_>) -> Result<ScriptRange, Reason>
    ensures { with_rest result (pieces_left fields.new) ≡
        range_field (pieces_left fields.old) }
{
    let word = next_range_word(fields)?;
    next_range_of_word(word, fields)
}

/// The fields after a word, and what item they are.
pub(crate) fn next_range_of_word(
    word: RangeWord,
    fields: &mut Pieces<'_>,
) -> Result<ScriptRange, Reason>
    ensures { with_rest result (pieces_left fields.new) ≡
        range_of_word word (pieces_left fields.old) }
{
    let range = match word {
        RangeWord::Base => {
            let address = next_address(fields)?;
            ScriptRange::BaseAddress { address }
        }
        RangeWord::Pair => {
            let begin = next_u64(fields)?;
            let end = next_u64(fields)?;
            ScriptRange::OffsetPair { begin, end }
        }
        RangeWord::Ends => {
            let begin = next_address(fields)?;
            let end = next_address(fields)?;
            ScriptRange::StartEnd { begin, end }
        }
        RangeWord::Length => {
            let begin = next_address(fields)?;
            let length = next_u64(fields)?;
            ScriptRange::StartLength { begin, length }
        }
    };
    Ok(range)
}
