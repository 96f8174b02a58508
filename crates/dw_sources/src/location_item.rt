//! The items of location lists (DWARF 5, 2.6.2 and 7.7.3; up to version 4, 7.7.3 of DWARF 4).

ghost use Rattle.std.specs.Prelude.{◌≡◌, ◌≢◌, ◌<◌, OnOk, ℕ, Bool, List, IfOk, IfErr, IfSome, IfNone, Err, Some};
ghost use Rattle.dw_base.specs.declared.constants.TheConstants.{DW_LLE_default_location};
ghost use Rattle.dw_read.specs.Reading.{Reading, left};
ghost use Rattle.dw_read.specs.Took.{Took, option_of};
ghost use Rattle.dw_read.specs.declared.error.ReadError.TheVariants.{UnknownLocListsEntry};
ghost use Rattle.dw_sources.specs.OperationViews.{IsWithin};
ghost use Rattle.dw_sources.specs.RawLists.{range_behind, location_behind, location_span_read};
ghost use Rattle.dw_sources.specs.RawLists.{expression_read, behind_span, location_read};
ghost use Rattle.dw_sources.specs.RawListViews.{span_of, before_span, spot_span};
ghost use Rattle.dw_sources.specs.RawListViews.{location_of, located_item, HoldsExpression};

use crate::operands::read_block;
use crate::range_item::{RawRngListEntry, read_pair, read_range_kind};
use dw_base::constants::{
    DW_LLE_base_address, DW_LLE_base_addressx, DW_LLE_default_location, DW_LLE_end_of_list,
    DW_LLE_offset_pair, DW_LLE_start_end, DW_LLE_start_length, DW_LLE_startx_endx,
    DW_LLE_startx_length, DW_RLE_base_address, DW_RLE_base_addressx, DW_RLE_end_of_list,
    DW_RLE_offset_pair, DW_RLE_start_end, DW_RLE_start_length, DW_RLE_startx_endx,
    DW_RLE_startx_length,
};
use dw_base::{DwLle, DwRle, Encoding};
use dw_read::{Expression, ReadError, ReadResult, Reader};

/// An item of a location list, as it stands in the section: addresses are numbers or indices in
/// the unit's part of `.debug_addr`. The expression is a part of the section.
///
/// ```
/// let item: RawLocListEntry<R> = RawLocListEntry::BaseAddress { addr: 0x1000 };
/// ```
#[derive(Drop)]
pub enum RawLocListEntry<R: Reader> {
    /// Up to version 4: two addresses, or two offsets where a base is in force.
    AddressOrOffsetPair {
        begin: u64,
        end: u64,
        expression: Expression<R>,
    },
    /// What offsets count from, from here on.
    BaseAddress {
        addr: u64,
    },
    /// The same by an index.
    BaseAddressx {
        addr: u64,
    },
    /// Two indices of addresses.
    StartxEndx {
        begin: u64,
        end: u64,
        expression: Expression<R>,
    },
    /// The index of an address, and so many bytes.
    StartxLength {
        begin: u64,
        length: u64,
        expression: Expression<R>,
    },
    /// Two offsets.
    OffsetPair {
        begin: u64,
        end: u64,
        expression: Expression<R>,
    },
    /// All addresses that no other item has.
    DefaultLocation {
        expression: Expression<R>,
    },
    /// Two addresses.
    StartEnd {
        begin: u64,
        end: u64,
        expression: Expression<R>,
    },
    /// An address, and so many bytes.
    StartLength {
        begin: u64,
        length: u64,
        expression: Expression<R>,
    },
}

/// What an item has before its expression, if it has one.
#[derive(Clone, Copy)]
pub(crate) enum Before {
    Base(u64),
    Basex(u64),
    Spot(Spot),
}

/// The addresses that an expression is for.
#[derive(Clone, Copy)]
pub(crate) enum Spot {
    Pair(u64, u64),
    StartxEndx(u64, u64),
    StartxLength(u64, u64),
    OffsetPair(u64, u64),
    Default,
    StartEnd(u64, u64),
    StartLength(u64, u64),
}

/// Reads an item, and passes it. None is the list's close.
pub(crate) fn read_location<R: Reader>(
    input: &mut R,
    encoding: Encoding,
) -> ReadResult<Option<RawLocListEntry<R>>>
    ensures ok { IfOk result (λ o. Took _ (location_read (R.reading input.old).is_big encoding)
        (R.reading input.old) (R.reading input.new) (option_of (location_of R.reading) o)) }
    ensures parts { IfOk result (λ o. IfSome o (HoldsExpression R.reading
        (R.reading input.old))) }
    ensures progress { OnOk result
        ((R.reading input.old).place < (R.reading input.new).place) }
    ensures err { IfErr result (λ e. location_read (R.reading input.old).is_big encoding
        (left (R.reading input.old)) ≡ Err e) }
{
    let Some(before) = read_before(input, encoding)? else {
        return Ok(None);
    };
    match before {
        Before::Base(addr) => Ok(Some(RawLocListEntry::BaseAddress { addr })),
        Before::Basex(addr) => Ok(Some(RawLocListEntry::BaseAddressx { addr })),
        Before::Spot(spot) => {
            let expression = read_counted(input, encoding)?;
            Ok(Some(at_spot(spot, Expression(expression))))
        }
    }
}

/// Reads what an item has before its expression.
fn read_before<R: Reader>(input: &mut R, encoding: Encoding) -> ReadResult<Option<Before>>
    ensures ok { IfOk result (λ o. Took _
        (location_span_read (R.reading input.old).is_big encoding)
        (R.reading input.old) (R.reading input.new) (option_of before_span o)) }
    ensures progress { OnOk result
        ((R.reading input.old).place < (R.reading input.new).place) }
    ensures err { IfErr result (λ e. location_span_read (R.reading input.old).is_big encoding
        (left (R.reading input.old)) ≡ Err e) }
{
    if encoding.version == 5 {
        let kind = input.read_u8()?;
        let before = read_location_kind(input, encoding.address_size, DwLle(kind))?;
        return Ok(before);
    }
    match read_pair(input, encoding.address_size)? {
        Some(range) => Ok(Some(before_of(range))),
        None => Ok(None),
    }
}

/// Reads what stands behind a kind of version 5, before an expression.
fn read_location_kind<R: Reader>(input: &mut R, size: u8, kind: DwLle) -> ReadResult<Option<Before>>
    ensures ok { IfOk result (λ o. Took _
        (location_behind (R.reading input.old).is_big size kind.0)
        (R.reading input.old) (R.reading input.new) (option_of before_span o)) }
    ensures err { IfErr result (λ e. location_behind (R.reading input.old).is_big size kind.0
        (left (R.reading input.old)) ≡ Err e) }
{
    if kind.0 == DW_LLE_default_location.0 {
        return Ok(Some(Before::Spot(Spot::Default)));
    }
    let Some(same) = range_kind_of(kind) else {
        return Err(ReadError::UnknownLocListsEntry(kind.0));
    };
    match read_range_kind(input, size, same)? {
        Some(range) => Ok(Some(before_of(range))),
        None => Ok(None),
    }
}

/// The kind of range lists that has the same operands.
fn range_kind_of(kind: DwLle) -> Option<DwRle>
    ensures some { IfSome result (λ k. (big : Bool) (w : ℕ) (bytes : List ℕ) →
        location_behind big w kind.0 bytes ≡ range_behind big w k.0 bytes) }
    ensures none { IfNone result ((big : Bool) (w : ℕ) (bytes : List ℕ) →
        kind.0 ≢ DW_LLE_default_location.0 →
        location_behind big w kind.0 bytes ≡ Err (UnknownLocListsEntry kind.0)) }
{
    match kind {
        DW_LLE_end_of_list => Some(DW_RLE_end_of_list),
        DW_LLE_base_addressx => Some(DW_RLE_base_addressx),
        DW_LLE_startx_endx => Some(DW_RLE_startx_endx),
        DW_LLE_startx_length => Some(DW_RLE_startx_length),
        DW_LLE_offset_pair => Some(DW_RLE_offset_pair),
        DW_LLE_base_address => Some(DW_RLE_base_address),
        DW_LLE_start_end => Some(DW_RLE_start_end),
        DW_LLE_start_length => Some(DW_RLE_start_length),
        _ => None,
    }
}

/// What an item of a location list has where one of a range list has this.
fn before_of(range: RawRngListEntry) -> Before
    ensures { before_span result ≡ span_of range }
{
    match range {
        RawRngListEntry::AddressOrOffsetPair { begin, end } => Before::Spot(Spot::Pair(begin, end)),
        RawRngListEntry::BaseAddress { addr } => Before::Base(addr),
        RawRngListEntry::BaseAddressx { addr } => Before::Basex(addr),
        RawRngListEntry::StartxEndx { begin, end } => Before::Spot(Spot::StartxEndx(begin, end)),
        RawRngListEntry::StartxLength { begin, length } => Before::Spot(Spot::StartxLength(
            begin, length,
        )),
        RawRngListEntry::OffsetPair { begin, end } => Before::Spot(Spot::OffsetPair(begin, end)),
        RawRngListEntry::StartEnd { begin, end } => Before::Spot(Spot::StartEnd(begin, end)),
        RawRngListEntry::StartLength { begin, length } => Before::Spot(Spot::StartLength(
            begin, length,
        )),
    }
}

/// Reads the bytes of an expression, which are counted in two bytes up to version 4.
fn read_counted<R: Reader>(input: &mut R, encoding: Encoding) -> ReadResult<R>
    ensures ok { IfOk result (λ r. Took _ (expression_read (R.reading input.old).is_big encoding)
        (R.reading input.old) (R.reading input.new) (left (R.reading r))) }
    ensures part { IfOk result (λ r. IsWithin (R.reading input.old) (R.reading r)) }
    ensures err { IfErr result (λ e. expression_read (R.reading input.old).is_big encoding
        (left (R.reading input.old)) ≡ Err e) }
{
    if encoding.version == 5 {
        let bytes = read_block(input)?;
        return Ok(bytes);
    }
    let size = input.read_u16()?;
    let bytes = input.split(size as usize)?;
    Ok(bytes)
}

/// An item with its expression.
fn at_spot<R: Reader>(spot: Spot, expression: Expression<R>) -> RawLocListEntry<R>
    ensures is { location_of R.reading result
        ≡ located_item (spot_span spot) (left (R.reading expression.0)) }
    ensures part { (old : Reading) → IsWithin old (R.reading expression.0) →
        HoldsExpression R.reading old result }
{
    match spot {
        Spot::Pair(begin, end) => RawLocListEntry::AddressOrOffsetPair {
            begin,
            end,
            expression,
        },
        Spot::StartxEndx(begin, end) => RawLocListEntry::StartxEndx {
            begin,
            end,
            expression,
        },
        Spot::StartxLength(begin, length) => RawLocListEntry::StartxLength {
            begin,
            length,
            expression,
        },
        Spot::OffsetPair(begin, end) => RawLocListEntry::OffsetPair {
            begin,
            end,
            expression,
        },
        Spot::Default => RawLocListEntry::DefaultLocation { expression },
        Spot::StartEnd(begin, end) => RawLocListEntry::StartEnd {
            begin,
            end,
            expression,
        },
        Spot::StartLength(begin, length) => RawLocListEntry::StartLength {
            begin,
            length,
            expression,
        },
    }
}
