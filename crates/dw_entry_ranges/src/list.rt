//! The ranges of range lists (DWARF 5, 2.17.3).

ghost use Rattle.std.specs.Prelude.{◌≡◌, ◌⊎◌, ◌++◌, IfOk, IfErr, OnOk, Ok, Err};
ghost use Rattle.dw_read.specs.Took.{option_of};
ghost use Rattle.dw_read.specs.Values.{value_of};
ghost use Rattle.dw_read.specs.declared.error.ReadError.TheVariants.{NoMemory};
ghost use Rattle.dw_entry_ranges.specs.Attributes.{values_in};
ghost use Rattle.dw_entry_ranges.specs.Items.{range_in};
ghost use Rattle.dw_entry_ranges.specs.Lists.{indexed_list, list_in, list_of};
ghost use Rattle.dw_entry_ranges.specs.Lists.{list_ranges, ranges_at};

use crate::attribute::last_value;
use crate::item::{Item, base_behind, read_item};
use crate::range::AddressRange;
use dw_base::RangeListsOffset;
use dw_base::constants::DW_AT_ranges;
use dw_read::{Attribute, AttributeValue, ReadResult, Reader};
use dw_read_units::UnitRef;
use dw_sources::raw_ranges;
use std::alloc::Global;

/// The ranges of the list to which the last `DW_AT_ranges` of an entry leads, by its offset or by
/// an index in the unit's part of `.debug_rnglists` (DWARF 5, 2.17.3 and 7.28). None where there is
/// no such attribute, or where its value leads to no list.
///
/// Refused is an index that leads to no list, as by `UnitRef::ranges_offset` (`UnexpectedEof`,
/// `OffsetOutOfBounds`), and what `ranges_at` is refused for.
#[tactic(auto, unfolding(crate::specs::Lists::list_ranges))]
pub fn list_ranges<R: Reader>(
    alloc: Global,
    unit: UnitRef<'_, R>,
    attrs: &[Attribute<R>],
) -> ReadResult<Option<Vec<AddressRange>>>
    ensures ok { IfOk result (λ ranges. list_ranges R.reading unit.entry
        (values_in R.reading attrs.now) ≡ Ok (option_of (λ v. v.items) ranges)) }
    ensures err { IfErr result (λ e. (e ≡ NoMemory) ⊎ (list_ranges R.reading unit.entry
        (values_in R.reading attrs.now) ≡ Err e)) }
{
    match list_of(unit, attrs)? {
        Some(offset) => {
            let ranges = ranges_at(alloc, unit, offset)?;
            Ok(Some(ranges))
        }
        None => Ok(None),
    }
}

/// The place of the list to which the last `DW_AT_ranges` leads.
fn list_of<R: Reader>(
    unit: UnitRef<'_, R>,
    attrs: &[Attribute<R>],
) -> ReadResult<Option<RangeListsOffset>>
    ensures { result ≡ list_of R.reading unit.entry (values_in R.reading attrs.now) }
{
    match last_value(attrs, DW_AT_ranges) {
        Some(value) => list_in(unit, &value),
        None => Ok(None),
    }
}

/// The place of the list to which a value leads.
fn list_in<R: Reader>(
    unit: UnitRef<'_, R>,
    value: &AttributeValue<R>,
) -> ReadResult<Option<RangeListsOffset>>
    ensures { result ≡ list_in R.reading unit.entry (value_of R.reading value.now) }
{
    match value {
        AttributeValue::RangeListsRef(offset) => Ok(Some(*offset)),
        AttributeValue::DebugRngListsIndex(index) => {
            let offset = indexed_list(unit, *index)?;
            Ok(Some(offset))
        }
        _ => Ok(None),
    }
}

/// The place of the list of an index in the unit's part of `.debug_rnglists`.
fn indexed_list<R: Reader>(unit: UnitRef<'_, R>, index: u64) -> ReadResult<RangeListsOffset>
    ensures { result ≡ indexed_list R.reading unit.entry index }
{
    let offset = unit.ranges_offset(index)?;
    Ok(offset)
}

/// The ranges of the list at an offset of `.debug_rnglists`, or up to version 4 of
/// `.debug_ranges`, in the order of its items, empty ones too (DWARF 5, 2.17.3 and 7.25). Offsets
/// count from the unit's low address at first, and from the last base before them; the two numbers
/// of an item up to version 4 are offsets. Addresses are as wide as those of the unit, numbers in
/// the byte order of the section.
///
/// Refused is an offset past the section's end (`UnexpectedEof`), an item that can't be read, as by
/// `RawRngListIter::next` (`UnexpectedEof`, `BadLeb128`, `UnsupportedAddressSize`,
/// `UnknownRangeListsEntry`), an index that leads to no address, as by `UnitRef::address`, and want
/// of memory (`NoMemory`). It allocates as much as was read.
pub fn ranges_at<R: Reader>(
    alloc: Global,
    unit: UnitRef<'_, R>,
    offset: RangeListsOffset,
) -> ReadResult<Vec<AddressRange>>
    ensures ok { IfOk result (λ ranges. ranges_at R.reading unit.entry offset.0
        ≡ Ok ranges.items) }
    ensures err { IfErr result (λ e. (e ≡ NoMemory)
        ⊎ (ranges_at R.reading unit.entry offset.0 ≡ Err e)) }
{
    let mut items = raw_ranges(unit, offset)?;
    let mut base = unit.unit.low_pc;
    let mut ranges = Vec::new(alloc);
    'items: while let Some(item) = items.next()? {
        let item = read_item(unit, base, item)?;
        base = base_behind(base, item);
        keep(&mut ranges, item)?;
    }
    Ok(ranges)
}

/// Adds the range of an item that says one.
fn keep(ranges: &mut Vec<AddressRange>, item: Item) -> ReadResult<()>
    ensures ok { OnOk result (ranges.new.items ≡ ranges.old.items ++ range_in item) }
    ensures err { IfErr result (λ e. e ≡ NoMemory) }
{
    match item {
        Item::Base(_) => Ok(()),
        Item::Range(range) => {
            ranges.push(range)?;
            Ok(())
        }
    }
}
