//! All ranges of an entry.

ghost use Rattle.std.specs.Prelude.{◌≡◌, ◌⊎◌, ◌++◌, Bool, IfOk, IfErr, OnOk, Ok, Err};
ghost use Rattle.dw_read.specs.Took.{option_of};
ghost use Rattle.dw_read.specs.declared.error.ReadError.TheVariants.{NoMemory};
ghost use Rattle.dw_entry_ranges.specs.Attributes.{values_in, AreInOrder};
ghost use Rattle.dw_entry_ranges.specs.Entries.{entry_ranges, gathered, ranges_of};

use crate::bounds::low_high;
use crate::list::list_ranges;
use crate::location::location_address;
use crate::range::{AddressRange, CodeAddresses};
use dw_read::{Attribute, ReadResult, Reader};
use dw_read_units::UnitRef;
use std::alloc::Global;

/// The ranges of addresses of an entry: those of its range list, then that of its low and high
/// address, then the address with which its location begins. An address alone is a range of one.
///
/// Refused is what `low_high`, `location_address` and `list_ranges` are refused for, in this order,
/// and want of memory (`NoMemory`).
///
/// ```
/// for range in &entry_ranges(alloc, unit, &entry.attrs)? {
///     if range.begin < 0x1010 && 0x1000 < range.end {
///         // The entry has an address from 0x1000 to before 0x1010.
///     }
/// }
/// ```
#[tactic(auto, unfolding(crate::specs::Entries::entry_ranges))]
pub fn entry_ranges<R: Reader>(
    alloc: Global,
    unit: UnitRef<'_, R>,
    attrs: &[Attribute<R>],
) -> ReadResult<Vec<AddressRange>>
    ensures ok { (big : Bool) → AreInOrder R.reading big attrs.now → IfOk result (λ ranges.
        entry_ranges R.reading unit.entry big (values_in R.reading attrs.now)
        ≡ Ok ranges.items) }
    ensures err { (big : Bool) → AreInOrder R.reading big attrs.now → IfErr result (λ e.
        (e ≡ NoMemory) ⊎ (entry_ranges R.reading unit.entry big (values_in R.reading attrs.now)
        ≡ Err e)) }
{
    let code = low_high(unit, attrs)?;
    let location = location_address(unit, attrs)?;
    let listed = list_ranges(alloc, unit, attrs)?;
    let ranges = gathered(alloc, listed, code, location)?;
    Ok(ranges)
}

/// The ranges of a list, and behind them those of addresses that are there.
fn gathered(
    alloc: Global,
    listed: Option<Vec<AddressRange>>,
    code: Option<CodeAddresses>,
    location: Option<u64>,
) -> ReadResult<Vec<AddressRange>>
    ensures ok { IfOk result (λ ranges. ranges.items
        ≡ gathered (option_of (λ v. v.items) listed) code location) }
    ensures err { IfErr result (λ e. e ≡ NoMemory) }
{
    let mut ranges = listed.unwrap_or(Vec::new(alloc));
    add(&mut ranges, code)?;
    add(&mut ranges, location.map(CodeAddresses::Single))?;
    Ok(ranges)
}

/// Adds the range of addresses, where there are any.
fn add(ranges: &mut Vec<AddressRange>, found: Option<CodeAddresses>) -> ReadResult<()>
    ensures ok { OnOk result (ranges.new.items ≡ ranges.old.items ++ ranges_of found) }
    ensures err { IfErr result (λ e. e ≡ NoMemory) }
{
    match found {
        Some(addresses) => {
            ranges.push(addresses.range())?;
            Ok(())
        }
        None => Ok(()),
    }
}
