//! What the lines of a script add to the range lists of a unit.

ghost use Rattle.std.specs.Prelude.{◌≡◌, IfErr, IfOk, Ok, OnOk};
ghost use Rattle.dw_script_units.specs.RangeLists.{after_range_list, ranges_of, stored_range};
ghost use Rattle.dw_script_units.specs.Refused.{RefusedFor};

use crate::command_error::CommandError;
use dw_lists::{Range, RangeList};
use dw_script::{RangeFields, ScriptRange};
use dw_unit::Unit;
use std::alloc::{AllocError, Global};

/// Adds the range list of a line to a unit, unless an equal one stands there (DWARF 5, 2.17.3). It
/// is refused for want of memory alone.
///
/// ```
/// add_range_list(alloc, &mut unit, &ranges)?;
/// ```
pub fn add_range_list(
    alloc: Global,
    unit: &mut Unit,
    ranges: &RangeFields<'_>,
) -> Result<(), CommandError>
    ensures ok { OnOk result (after_range_list ranges.now unit.old ≡ Ok unit.new) }
    ensures err { IfErr result (RefusedFor (after_range_list ranges.now unit.old)) }
{
    let list = owned_list(alloc, ranges).map_err(|_| CommandError::NoMemory)?;
    match unit.ranges.add(list) {
        Ok(_) => Ok(()),
        Err(_) => Err(CommandError::NoMemory),
    }
}

// The list of a line, in memory of its own.
fn owned_list(alloc: Global, fields: &RangeFields<'_>) -> Result<RangeList, AllocError>
    ensures { IfOk result (λ list. list ≡ ranges_of fields.now) }
{
    let mut ranges = Vec::new(alloc);
    for range in fields.items() {
        ranges.push(stored_range(range))?;
    }
    Ok(RangeList(ranges))
}

// An item, as lists have it.
fn stored_range(range: ScriptRange) -> Range
    ensures { result ≡ stored_range range }
{
    match range {
        ScriptRange::BaseAddress { address } => Range::BaseAddress { address },
        ScriptRange::OffsetPair { begin, end } => Range::OffsetPair { begin, end },
        ScriptRange::StartEnd { begin, end } => Range::StartEnd { begin, end },
        ScriptRange::StartLength { begin, length } => Range::StartLength { begin, length },
    }
}
