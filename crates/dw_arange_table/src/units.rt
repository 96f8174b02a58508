//! The address ranges that the units of a file cover (DWARF 5, 2.17 and 6.1.2).

ghost use Rattle.std.specs.Prelude.{◌≡◌, ◌⊎◌, ◌++◌, ℕ, List, IsTrue, IsFalse, OnOk, IfOk, IfErr};
ghost use Rattle.std.specs.List.{list_all};
ghost use Rattle.dw_base.specs.Numbers.{is_width};
ghost use Rattle.dw_base.specs.Entries.{ReadEntry};
ghost use Rattle.dw_read.specs.declared.error.ReadError.TheVariants as reasons;
ghost use Rattle.dw_read_units.specs.UnitReads.{MissesUnit};
ghost use Rattle.dw_sources.specs.declared.convert_error.ConvertError.TheVariants as errors;
ghost use Rattle.dw_entry_ranges.specs.Attributes.{values_in};
ghost use Rattle.dw_arange_table.specs.Sets.{is_range, range_fits};
ghost use Rattle.dw_arange_table.specs.Covers.{contiguous, covered, is_addressed, descriptor_of};
ghost use Rattle.dw_arange_table.specs.Covers.{descriptors_of, unit_set, set_if_any};
ghost use Rattle.dw_arange_table.specs.Covers.{MissesRanges, CoversAll, FailsAfter};
ghost use Rattle.dw_arange_table.specs.Found.{Answers, BeginsWith, covered_by, IsFound};

use crate::range::RangeDescriptor;
use crate::set::{ArangeSet, fits};
use crate::table::ArangeTable;
use dw_base::{DebugInfoOffset, Encoding};
use dw_entry_ranges::{AddressRange, CodeAddresses, list_ranges, low_high};
use dw_read::{Attribute, DebuggingInformationEntry, ReadError, ReadResult, Reader, UnitHeader};
use dw_read_units::{Dwarf, UnitRef};
use dw_sources::{ConvertError, ConvertResult};
use std::alloc::Global;

impl ArangeTable {
    /// The sets of the units of a file that cover any address, in the order of units. What a unit
    /// covers is what the last `DW_AT_ranges` of its root leads to, and where it leads to no list,
    /// the addresses from the root's `DW_AT_low_pc` to its `DW_AT_high_pc`. Ranges of length 0 are
    /// left out. Of a unit only its header, its abbreviation table, its root and what that leads to
    /// are read.
    ///
    /// Refused is what of these can't be read, as `Read`, and a range whose end is below its begin
    /// or isn't an address of the unit's size, as `IntegerOverflow`.
    pub fn from_units<R: Reader>(alloc: Global, dwarf: &Dwarf<R>) -> ConvertResult<ArangeTable>
        ensures ok { IfOk result (CoversAll R.reading dwarf.now) }
        ensures err { IfErr result (FailsAfter R.reading dwarf.now) }
    {
        let sets = unit_sets(alloc, dwarf)?;
        Ok(ArangeTable { sets })
    }
}

/// What was read of a unit: how its values are encoded, where its header stands, and what it
/// covers.
#[derive(Drop)]
struct UnitRanges {
    encoding: Encoding,
    unit: DebugInfoOffset,
    ranges: Vec<AddressRange>,
}

/// The sets of the units that cover any address.
fn unit_sets<R: Reader>(alloc: Global, dwarf: &Dwarf<R>) -> ConvertResult<Vec<ArangeSet>>
    ensures ok { IfOk result (λ sets. CoversAll R.reading dwarf.now sets.items) }
    ensures err { IfErr result (FailsAfter R.reading dwarf.now) }
{
    let mut sets = Vec::new(alloc);
    let mut headers = dwarf.units();
    'units: while let Some(header) = headers.next()? {
        let found = read_unit(alloc, dwarf, header)?;
        let set = set_of(alloc, found)?;
        keep(&mut sets, set)?;
    }
    Ok(sets)
}

/// Reads the unit of a header, and what it covers.
fn read_unit<R: Reader>(
    alloc: Global,
    dwarf: &Dwarf<R>,
    header: UnitHeader<R>,
) -> ReadResult<UnitRanges>
    ensures ok { IfOk result (IsFound R.reading dwarf.now header) }
    ensures err { IfErr result (λ e. (e ≡ reasons.NoMemory)
        ⊎ (MissesUnit R.reading dwarf.now header e ⊎ MissesRanges R.reading dwarf.now header e)) }
{
    let unit = dwarf.unit(alloc, header)?;
    let ranges = root_ranges(alloc, UnitRef { dwarf, unit: &unit })?;
    Ok(UnitRanges {
        encoding: unit.header.encoding(),
        unit: unit.header.offset(),
        ranges,
    })
}

/// Reads what a unit covers, by its root.
fn root_ranges<R: Reader>(alloc: Global, unit: UnitRef<'_, R>) -> ReadResult<Vec<AddressRange>>
    ensures { (root : ReadEntry) (rest : List ℕ) →
        BeginsWith R.reading unit.entry root rest →
        Answers (λ v. v.items) result (covered_by R.reading unit.entry root) }
{
    let mut rows = unit.entries_raw(alloc, None)?;
    let mut root = DebuggingInformationEntry::new(alloc);
    if !rows.read_entry(&mut root)? {
        return Err(ReadError::MissingUnitDie);
    }
    attribute_ranges(alloc, unit, root.attrs.as_slice())
}

/// Reads what a unit covers whose root has these attributes.
#[tactic(auto, unfolding(crate::specs::Covers::covered))]
fn attribute_ranges<R: Reader>(
    alloc: Global,
    unit: UnitRef<'_, R>,
    attrs: &[Attribute<R>],
) -> ReadResult<Vec<AddressRange>>
    ensures { Answers (λ v. v.items) result
        (covered R.reading unit.entry (values_in R.reading attrs.now)) }
{
    match list_ranges(alloc, unit, attrs)? {
        Some(ranges) => Ok(ranges),
        None => {
            let code = low_high(unit, attrs)?;
            between(alloc, code)
        }
    }
}

/// The range from a low address to a high one.
fn between(alloc: Global, code: Option<CodeAddresses>) -> ReadResult<Vec<AddressRange>>
    ensures ok { IfOk result (λ ranges. ranges.items ≡ contiguous code) }
    ensures err { IfErr result (λ e. e ≡ reasons.NoMemory) }
{
    let mut ranges = Vec::new(alloc);
    if let Some(CodeAddresses::Contiguous(range)) = code {
        ranges.push(range)?;
    }
    Ok(ranges)
}

/// The set of a unit.
fn set_of(alloc: Global, found: UnitRanges) -> ConvertResult<ArangeSet>
    requires { IsTrue (is_width found.encoding.address_size) }
    ensures ok { IfOk result (λ s. s
        ≡ unit_set found.encoding found.unit.0 found.ranges.items) }
    ensures addressed { OnOk result (IsTrue
        (list_all (is_addressed found.encoding.address_size) found.ranges.items)) }
    ensures err { IfErr result (λ e. (e ≡ errors.NoMemory) ⊎ ((e ≡ errors.IntegerOverflow)
        × IsFalse (list_all (is_addressed found.encoding.address_size) found.ranges.items))) }
{
    let size = found.encoding.address_size;
    let ranges = descriptors(alloc, found.ranges.as_slice(), size)?;
    Ok(ArangeSet {
        format: found.encoding.format,
        address_size: size,
        unit: found.unit,
        ranges,
    })
}

/// The descriptors of ranges, without those of length 0.
fn descriptors(
    alloc: Global,
    ranges: &[AddressRange],
    size: u8,
) -> ConvertResult<Vec<RangeDescriptor>>
    requires { IsTrue (is_width size) }
    ensures ok { IfOk result (λ found. found.items ≡ descriptors_of ranges.now) }
    ensures fit { IfOk result (λ found. IsTrue (list_all (is_range size) found.items)) }
    ensures addressed { OnOk result (IsTrue (list_all (is_addressed size) ranges.now)) }
    ensures err { IfErr result (λ e. (e ≡ errors.NoMemory) ⊎ ((e ≡ errors.IntegerOverflow)
        × IsFalse (list_all (is_addressed size) ranges.now))) }
{
    let mut found = Vec::new(alloc);
    for range in ranges {
        let descriptor = descriptor(range, size)?;
        if descriptor.length != 0 {
            found.push(descriptor)?;
        }
    }
    Ok(found)
}

/// The descriptor of a range.
fn descriptor(range: &AddressRange, size: u8) -> ConvertResult<RangeDescriptor>
    requires { IsTrue (is_width size) }
    ensures ok { IfOk result (λ d. d ≡ descriptor_of range.now) }
    ensures fit { IfOk result (λ d. IsTrue (range_fits size d)) }
    ensures addressed { OnOk result (IsTrue (is_addressed size range.now)) }
    ensures err { IfErr result (λ e. (e ≡ errors.IntegerOverflow)
        × IsFalse (is_addressed size range.now)) }
{
    if range.end < range.begin || !fits(size, range.end) {
        return Err(ConvertError::IntegerOverflow);
    }
    Ok(RangeDescriptor {
        address: range.begin as u64,
        length: (range.end - range.begin) as u64,
    })
}

/// Adds a set that has a range.
fn keep(sets: &mut Vec<ArangeSet>, set: ArangeSet) -> ConvertResult<()>
    ensures ok { OnOk result (sets.new.items ≡ sets.old.items ++ set_if_any set) }
    ensures err { IfErr result (λ e. e ≡ errors.NoMemory) }
{
    if !set.ranges().is_empty() {
        sets.push(set)?;
    }
    Ok(())
}
