//! How sets of address ranges are read (DWARF 5, 6.1.2).

ghost use Rattle.std.specs.Prelude.{◌≡◌, ◌⊎◌, ◌<◌, length, IsTrue};
ghost use Rattle.std.specs.Prelude.{IfSome, OnOk, IfOk, IfErr, Ok, Err};
ghost use Rattle.std.specs.List.{list_all};
ghost use Rattle.dw_base.specs.Numbers.{is_width};
ghost use Rattle.dw_read.specs.Reading.{left};
ghost use Rattle.dw_read.specs.Took.{Took};
ghost use Rattle.dw_read.specs.declared.error.ReadError.TheVariants.{NoMemory};
ghost use Rattle.dw_arange_table.specs.Sets.{is_range};
ghost use Rattle.dw_arange_table.specs.Reading.{FindsRange, ranges_in, fields_read, set_read};
ghost use Rattle.dw_arange_table.specs.Reading.{sets_read, SetsRefused, IsReason};

use crate::range::RangeDescriptor;
use crate::set::{ArangeSet, is_width};
use crate::table::ArangeTable;
use crate::write::padding;
use dw_base::{DebugInfoOffset, Format};
use dw_read::{ReadError, ReadResult, Reader};
use std::alloc::Global;

impl ArangeTable {
    /// Reads sets from the reader's place to its end. The ranges of a set end at a pair of zeros,
    /// or where less than a pair is left of the bytes that its length counts; what follows a pair
    /// of zeros there is passed. Memory is taken for what was read alone.
    ///
    /// The fields of a set are looked at in their order. Refused are lengths that are reserved, as
    /// `UnknownReservedLength`; versions but 2, as `UnknownVersion`; sizes of addresses but 1, 2, 4
    /// and 8, as `UnsupportedAddressSize`; segment selectors, as `UnsupportedSegmentSize`; and a
    /// length, a field or padding that passes the end of the section or of its set, as
    /// `UnexpectedEof`.
    pub fn read<R: Reader>(alloc: Global, section: R) -> ReadResult<ArangeTable>
        ensures ok { IfOk result (λ sets. sets_read (R.reading section).is_big
            (left (R.reading section)) ≡ Ok sets) }
        ensures err { IfErr result (SetsRefused (R.reading section)) }
        ensures reasons { IfErr result IsReason }
    {
        let mut rest = section;
        let sets = read_sets(alloc, &mut rest)?;
        Ok(ArangeTable { sets })
    }
}

/// Reads sets up to the reader's end.
fn read_sets<R: Reader>(alloc: Global, input: &mut R) -> ReadResult<Vec<ArangeSet>>
    ensures ok { IfOk result (λ sets. sets_read (R.reading input.old).is_big
        (left (R.reading input.old)) ≡ Ok sets.items) }
    ensures err { IfErr result (SetsRefused (R.reading input.old)) }
{
    let mut sets = Vec::new(alloc);
    'more: while input.len() > 0 {
        let set = read_set(alloc, input)?;
        sets.push(set)?;
    }
    Ok(sets)
}

/// Reads a set, and passes what its length counts.
fn read_set<R: Reader>(alloc: Global, input: &mut R) -> ReadResult<ArangeSet>
    ensures ok { IfOk result (Took _ (set_read (R.reading input.old).is_big)
        (R.reading input.old) (R.reading input.new)) }
    ensures shorter { OnOk result
        (length (left (R.reading input.new)) < length (left (R.reading input.old))) }
    ensures err { IfErr result (λ e. (e ≡ NoMemory)
        ⊎ (set_read (R.reading input.old).is_big (left (R.reading input.old)) ≡ Err e)) }
{
    let (length, format) = input.read_initial_length()?;
    let mut content = input.split(length)?;
    let (unit, address_size) = read_fields(&mut content, format)?;
    let ranges = read_ranges(alloc, &mut content, address_size)?;
    Ok(ArangeSet {
        format,
        address_size,
        unit: DebugInfoOffset(unit),
        ranges,
    })
}

/// Reads what follows the length, up to the first range: the unit's place and the size of an
/// address.
fn read_fields<R: Reader>(input: &mut R, format: Format) -> ReadResult<(usize, u8)>
    ensures ok { IfOk result (Took _ (fields_read (R.reading input.old).is_big format)
        (R.reading input.old) (R.reading input.new)) }
    ensures width { IfOk result (λ fields. IsTrue (is_width fields.1)) }
    ensures err { IfErr result (λ e. fields_read (R.reading input.old).is_big format
        (left (R.reading input.old)) ≡ Err e) }
{
    let version = input.read_u16()?;
    if version != 2 {
        return Err(ReadError::UnknownVersion(version));
    }
    let unit = input.read_word(format)?;
    let address_size = input.read_u8()?;
    if !is_width(address_size) {
        return Err(ReadError::UnsupportedAddressSize(address_size));
    }
    let selector_size = input.read_u8()?;
    if selector_size != 0 {
        return Err(ReadError::UnsupportedSegmentSize(selector_size));
    }
    input.skip(padding(format, address_size))?;
    Ok((unit, address_size))
}

/// Reads ranges up to a pair of zeros, or to where less than a pair is left.
fn read_ranges<R: Reader>(
    alloc: Global,
    input: &mut R,
    size: u8,
) -> ReadResult<Vec<RangeDescriptor>>
    requires { IsTrue (is_width size) }
    ensures ok { IfOk result (λ ranges. ranges.items
        ≡ ranges_in (R.reading input.old).is_big size (left (R.reading input.old))) }
    ensures fit { IfOk result (λ ranges. IsTrue (list_all (is_range size) ranges.items)) }
    ensures err { IfErr result (λ e. e ≡ NoMemory) }
{
    let mut ranges = Vec::new(alloc);
    'more: loop {
        let Some(range) = read_range(input, size) else {
            return Ok(ranges);
        };
        ranges.push(range)?;
    }
}

/// Reads a range. None comes where less than a pair is left, and at a pair of zeros.
fn read_range<R: Reader>(input: &mut R, size: u8) -> Option<RangeDescriptor>
    requires { IsTrue (is_width size) }
    ensures found { FindsRange size (R.reading input.old) (R.reading input.new) result }
    ensures fits { IfSome result (λ r. IsTrue (is_range size r)) }
{
    let Ok(address) = input.read_uint(size as usize) else {
        return None;
    };
    let Ok(length) = input.read_uint(size as usize) else {
        return None;
    };
    let range = RangeDescriptor { address, length };
    if range.is_end() {
        return None;
    }
    Some(range)
}
