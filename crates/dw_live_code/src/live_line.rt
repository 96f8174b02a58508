//! A line that tells a live range.

ghost use Rattle.std.specs.Prelude.{◌≡◌};
ghost use Rattle.dw_ends.specs.Pieces.{pieces_left};
ghost use Rattle.dw_live_code.specs.LiveLines.{live_of, range_between};

use dw_ends::{Pieces, Reason, expect_end, next_u64};
use dw_entry_ranges::LiveRange;

/// The range that the fields behind the word tell: its begin and its end.
pub(crate) fn parse_live(fields: &mut Pieces<'_>) -> Result<LiveRange, Reason>
    ensures { result ≡ live_of (pieces_left fields.old) }
{
    let begin = next_u64(fields)?;
    let end = next_u64(fields)?;
    expect_end(fields)?;
    range_between(begin, end)
}

/// The addresses from a begin to before an end, if there are any.
fn range_between(begin: u64, end: u64) -> Result<LiveRange, Reason>
    ensures { result ≡ range_between begin end }
{
    if begin < end {
        Ok(LiveRange { begin, end })
    } else {
        Err(Reason::EmptyRange)
    }
}
