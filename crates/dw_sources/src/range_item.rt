//! The items of range lists (DWARF 5, 2.17.3 and 7.25; up to version 4, 7.23 of DWARF 4).

ghost use Rattle.std.specs.Prelude.{◌≡◌, ◌<◌, IfOk, IfErr, OnOk, Err, true};
ghost use Rattle.dw_base.specs.Numbers.{is_width};
ghost use Rattle.dw_read.specs.Reading.{left};
ghost use Rattle.dw_read.specs.Took.{Took, option_of};
ghost use Rattle.dw_sources.specs.RawLists.{pair_read, range_behind, range_read, marker};
ghost use Rattle.dw_sources.specs.RawListViews.{span_of};

use dw_base::constants::{
    DW_RLE_base_address, DW_RLE_base_addressx, DW_RLE_end_of_list, DW_RLE_offset_pair,
    DW_RLE_start_end, DW_RLE_start_length, DW_RLE_startx_endx, DW_RLE_startx_length,
};
use dw_base::{DwRle, Encoding};
use dw_read::{ReadError, ReadResult, Reader};

/// An item of a range list, as it stands in the section: addresses are numbers or indices in the
/// unit's part of `.debug_addr`.
///
/// ```
/// let item = RawRngListEntry::StartLength { begin: 0x1000, length: 0x20 };
/// ```
#[derive(Clone, Copy, PartialEq, Eq)]
pub enum RawRngListEntry {
    /// Up to version 4: two addresses, or two offsets where a base is in force.
    AddressOrOffsetPair { begin: u64, end: u64 },
    /// What offsets count from, from here on.
    BaseAddress { addr: u64 },
    /// The same by an index.
    BaseAddressx { addr: u64 },
    /// Two indices of addresses.
    StartxEndx { begin: u64, end: u64 },
    /// The index of an address, and so many bytes.
    StartxLength { begin: u64, length: u64 },
    /// Two offsets.
    OffsetPair { begin: u64, end: u64 },
    /// Two addresses.
    StartEnd { begin: u64, end: u64 },
    /// An address, and so many bytes.
    StartLength { begin: u64, length: u64 },
}

/// Reads an item, and passes it. None is the list's close.
pub(crate) fn read_range<R: Reader>(
    input: &mut R,
    encoding: Encoding,
) -> ReadResult<Option<RawRngListEntry>>
    ensures ok { IfOk result (λ o. Took _ (range_read (R.reading input.old).is_big encoding)
        (R.reading input.old) (R.reading input.new) (option_of span_of o)) }
    ensures progress { OnOk result
        ((R.reading input.old).place < (R.reading input.new).place) }
    ensures err { IfErr result (λ e. range_read (R.reading input.old).is_big encoding
        (left (R.reading input.old)) ≡ Err e) }
{
    if encoding.version == 5 {
        let kind = input.read_u8()?;
        let item = read_range_kind(input, encoding.address_size, DwRle(kind))?;
        return Ok(item);
    }
    let item = read_pair(input, encoding.address_size)?;
    Ok(item)
}

/// Reads an item up to version 4, which has two addresses. None is the list's close, two zeros.
pub(crate) fn read_pair<R: Reader>(input: &mut R, size: u8) -> ReadResult<Option<RawRngListEntry>>
    ensures ok { IfOk result (λ o. Took _ (pair_read (R.reading input.old).is_big size)
        (R.reading input.old) (R.reading input.new) (option_of span_of o)) }
    ensures progress { OnOk result
        ((R.reading input.old).place < (R.reading input.new).place) }
    ensures err { IfErr result (λ e. pair_read (R.reading input.old).is_big size
        (left (R.reading input.old)) ≡ Err e) }
{
    let begin = input.read_address(size)?;
    let end = input.read_address(size)?;
    if begin == 0 && end == 0 {
        return Ok(None);
    }
    if begin == marker(size) {
        return Ok(Some(RawRngListEntry::BaseAddress { addr: end }));
    }
    Ok(Some(RawRngListEntry::AddressOrOffsetPair { begin, end }))
}

/// Reads what stands behind a kind of version 5. None is the list's close.
pub(crate) fn read_range_kind<R: Reader>(
    input: &mut R,
    size: u8,
    kind: DwRle,
) -> ReadResult<Option<RawRngListEntry>>
    ensures ok { IfOk result (λ o. Took _ (range_behind (R.reading input.old).is_big size kind.0)
        (R.reading input.old) (R.reading input.new) (option_of span_of o)) }
    ensures err { IfErr result (λ e. range_behind (R.reading input.old).is_big size kind.0
        (left (R.reading input.old)) ≡ Err e) }
{
    match kind {
        DW_RLE_end_of_list => Ok(None),
        DW_RLE_base_addressx => Ok(Some(RawRngListEntry::BaseAddressx {
            addr: input.read_uleb128()?,
        })),
        DW_RLE_startx_endx => Ok(Some(RawRngListEntry::StartxEndx {
            begin: input.read_uleb128()?,
            end: input.read_uleb128()?,
        })),
        DW_RLE_startx_length => Ok(Some(RawRngListEntry::StartxLength {
            begin: input.read_uleb128()?,
            length: input.read_uleb128()?,
        })),
        DW_RLE_offset_pair => Ok(Some(RawRngListEntry::OffsetPair {
            begin: input.read_uleb128()?,
            end: input.read_uleb128()?,
        })),
        DW_RLE_base_address => Ok(Some(RawRngListEntry::BaseAddress {
            addr: input.read_address(size)?,
        })),
        DW_RLE_start_end => Ok(Some(RawRngListEntry::StartEnd {
            begin: input.read_address(size)?,
            end: input.read_address(size)?,
        })),
        DW_RLE_start_length => Ok(Some(RawRngListEntry::StartLength {
            begin: input.read_address(size)?,
            length: input.read_uleb128()?,
        })),
        _ => Err(ReadError::UnknownRangeListsEntry(kind.0)),
    }
}

/// All bits one in an address of so many bytes.
fn marker(size: u8) -> u64
    requires { is_width size ≡ true }
    ensures { result ≡ marker size }
{
    match size {
        1 => 0xff,
        2 => 0xffff,
        4 => 0xffff_ffff,
        _ => u64::MAX,
    }
}
