//! What the items of range lists say (DWARF 5, 2.17.3).

ghost use Rattle.std.specs.Prelude.{◌≡◌};
ghost use Rattle.dw_sources.specs.RawListViews.{span_of};
ghost use Rattle.dw_entry_ranges.specs.Addresses.{indexed_address};
ghost use Rattle.dw_entry_ranges.specs.Items.{item_read, offset_range, base_behind};

use crate::attribute::indexed_address;
use crate::range::AddressRange;
use dw_read::{ReadResult, Reader};
use dw_read_units::UnitRef;
use dw_sources::RawRngListEntry;

/// What an item of a range list says.
#[derive(Clone, Copy)]
pub(crate) enum Item {
    /// The address from which offsets behind it count.
    Base(u64),
    /// Addresses of the entry.
    Range(AddressRange),
}

/// What an item says where offsets count from a base.
pub(crate) fn read_item<R: Reader>(
    unit: UnitRef<'_, R>,
    base: u64,
    item: RawRngListEntry,
) -> ReadResult<Item>
    ensures { result ≡ item_read (indexed_address R.reading unit.entry) base (span_of item) }
{
    match item {
        RawRngListEntry::AddressOrOffsetPair { begin, end } => Ok(offset_range(base, begin, end)),
        RawRngListEntry::OffsetPair { begin, end } => Ok(offset_range(base, begin, end)),
        RawRngListEntry::BaseAddress { addr } => Ok(Item::Base(addr)),
        RawRngListEntry::BaseAddressx { addr } => Ok(Item::Base(indexed_address(unit, addr)?)),
        RawRngListEntry::StartxEndx { begin, end } => {
            let begin = indexed_address(unit, begin)?;
            let end = indexed_address(unit, end)?;
            Ok(Item::Range(AddressRange::new(begin, end)))
        }
        RawRngListEntry::StartxLength { begin, length } => {
            let begin = indexed_address(unit, begin)?;
            Ok(Item::Range(AddressRange::with_length(begin, length)))
        }
        RawRngListEntry::StartEnd { begin, end } => Ok(Item::Range(AddressRange::new(begin, end))),
        RawRngListEntry::StartLength { begin, length } => Ok(Item::Range(AddressRange::with_length(
            begin, length,
        ))),
    }
}

/// The range between two offsets from a base.
fn offset_range(base: u64, begin: u64, end: u64) -> Item
    ensures { result ≡ offset_range base begin end }
{
    Item::Range(AddressRange {
        begin: base as u128 + begin as u128,
        end: base as u128 + end as u128,
    })
}

/// The base behind an item.
pub(crate) fn base_behind(base: u64, item: Item) -> u64
    ensures { result ≡ base_behind base item }
{
    match item {
        Item::Base(address) => address,
        Item::Range(_) => base,
    }
}
