//! Addresses that are live, and which ranges have one of them.

ghost use Rattle.std.specs.Prelude.{◌≡◌, List, IfOk, IfErr};
ghost use Rattle.std.specs.List.{list_any};
ghost use Rattle.dw_read.specs.declared.error.ReadError.TheVariants.{NoMemory};
ghost use Rattle.dw_entry_ranges.specs.Live.{meets, IsMadeOf};
ghost use Rattle.dw_entry_ranges.specs.declared.live.LiveRange.{LiveRange as Live};

use crate::range::AddressRange;
use dw_read::ReadResult;
use std::alloc::Global;

/// Addresses that are live, from a begin to before an end. No address is in one whose end isn't
/// above its begin.
///
/// ```
/// let live = LiveRange { begin: 0x1000, end: 0x1010 };
/// ```
#[derive(Clone, Copy, PartialEq, Eq)]
pub struct LiveRange {
    pub begin: u64,
    pub end: u64,
}

/// Live ranges, kept so that a range is looked up among them by binary search. They may overlap and
/// repeat, in any order.
///
/// ```
/// let live = LiveRanges::new(alloc, &[LiveRange { begin: 0x1000, end: 0x1010 }])?;
/// let is_live = live.meets(AddressRange::with_length(0x100f, 1));
/// ```
#[derive(Drop)]
pub struct LiveRanges {
    /// Where those begin that have an address, in ascending order.
    begins: Vec<u64>,
    /// Where they end, in ascending order.
    ends: Vec<u64>,
}

impl LiveRanges {
    /// Keeps live ranges. It is refused for want of memory alone.
    pub fn new(alloc: Global, live: &[LiveRange]) -> ReadResult<LiveRanges>
        ensures ok { IfOk result (λ ranges. IsMadeOf ranges live.now) }
        ensures err { IfErr result (λ e. e ≡ NoMemory) }
    {
        let mut begins = Vec::new(alloc);
        let mut ends = Vec::new(alloc);
        for range in live {
            if range.begin < range.end {
                begins.push(range.begin)?;
                ends.push(range.end)?;
            }
        }
        begins.sort_unstable();
        ends.sort_unstable();
        Ok(LiveRanges { begins, ends })
    }

    /// Whether a range has an address that is live. It takes two binary searches: of the live
    /// ranges that begin before the range ends, those that end before it begins don't meet it, and
    /// all others do.
    pub fn meets(&self, range: AddressRange) -> bool
        ensures { (live : List Live) → IsMadeOf self.now live → result ≡ meets live range }
    {
        let begun = self
            .begins
            .partition_point(|begin| (*begin as u128) < range.end);
        let ended = self
            .ends
            .partition_point(|end| (*end as u128) <= range.begin);
        range.begin < range.end && ended < begun
    }

    /// Whether any of some ranges has an address that is live.
    pub fn meets_any(&self, ranges: &[AddressRange]) -> bool
        ensures { (live : List Live) → IsMadeOf self.now live →
            result ≡ list_any (meets live) ranges.now }
    {
        ranges.iter().any(|range| self.meets(*range))
    }
}
