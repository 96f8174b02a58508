//! The typed fields of a line, each taken from the front of those that are left. After an error
//! the fields are not read on.

ghost use Rattle.std.specs.Prelude.{◌≡◌, ◌<◌, ◌^◌, IfOk};
ghost use Rattle.dw_ends.specs.Pieces.{pieces_left};
ghost use Rattle.dw_ends.specs.Fields.{hex_field, number_field, with_rest};
ghost use Rattle.dw_script_fields.specs.Fields.{address_field, address_or_none_field, index_or_none_field, reference_field, flag_field, format_field, signed_field, target_field};
ghost use Rattle.dw_script_fields.specs.Locations.{location_word_field};
ghost use Rattle.dw_script_fields.specs.Operations.{opcode_field};
ghost use Rattle.dw_script_fields.specs.Ranges.{range_word_field};
ghost use Rattle.dw_script_fields.specs.Steps.{open_field, step_word_field};
ghost use Rattle.dw_script_fields.specs.Values.{attribute_field, kind_field, tag_field};

use crate::address::{parse_address, parse_address_or_none, parse_reference};
use crate::code::{parse_attribute, parse_opcode, parse_tag};
use crate::kind::Kind;
use crate::location_word::LocationWord;
use crate::number::{
    parse_i64, parse_index_or_none, parse_target, parse_u8, parse_u16, parse_u32, parse_u128,
    parse_usize,
};
use crate::operation_word::StepWord;
use crate::range_word::RangeWord;
use dw_base::{Address, DebugInfoRef, DwAt, DwOp, DwTag, Format};
use dw_ends::{HexBytes, Pieces, Reason, next_field};

/// How many expressions may be open at once, one within the other.
pub(crate) const MOST_OPEN: usize = 64;

/// A number below 2^128.
pub(crate) fn next_u128(fields: &mut Pieces<'_>) -> Result<u128, Reason>
    ensures { with_rest result (pieces_left fields.new) ≡
        number_field (2 ^ 128) (pieces_left fields.old) }
{
    parse_u128(next_field(fields)?).ok_or(Reason::BadNumber)
}

/// A place: a number below 2^64, or else `BadNumber`; `WrongFields` where no field is left.
pub fn next_usize(fields: &mut Pieces<'_>) -> Result<usize, Reason>
    ensures { with_rest result (pieces_left fields.new) ≡
        number_field (2 ^ 64) (pieces_left fields.old) }
{
    parse_usize(next_field(fields)?).ok_or(Reason::BadNumber)
}

/// An index, or `none`.
pub(crate) fn next_index_or_none(fields: &mut Pieces<'_>) -> Result<Option<usize>, Reason>
    ensures { with_rest result (pieces_left fields.new) ≡
        index_or_none_field (pieces_left fields.old) }
{
    parse_index_or_none(next_field(fields)?).ok_or(Reason::BadNumber)
}

/// The index that a branch leads to, or none.
pub(crate) fn next_target(fields: &mut Pieces<'_>) -> Result<Option<usize>, Reason>
    ensures { with_rest result (pieces_left fields.new) ≡
        target_field (pieces_left fields.old) }
{
    parse_target(next_field(fields)?).ok_or(Reason::BadNumber)
}

/// A number below 2^32.
pub(crate) fn next_u32(fields: &mut Pieces<'_>) -> Result<u32, Reason>
    ensures { with_rest result (pieces_left fields.new) ≡
        number_field (2 ^ 32) (pieces_left fields.old) }
{
    parse_u32(next_field(fields)?).ok_or(Reason::BadNumber)
}

/// A number below 2^16, or else `BadNumber`; `WrongFields` where no field is left.
pub fn next_u16(fields: &mut Pieces<'_>) -> Result<u16, Reason>
    ensures { with_rest result (pieces_left fields.new) ≡
        number_field (2 ^ 16) (pieces_left fields.old) }
{
    parse_u16(next_field(fields)?).ok_or(Reason::BadNumber)
}

/// A number below 2^8, or else `BadNumber`; `WrongFields` where no field is left.
pub fn next_u8(fields: &mut Pieces<'_>) -> Result<u8, Reason>
    ensures { with_rest result (pieces_left fields.new) ≡
        number_field (2 ^ 8) (pieces_left fields.old) }
{
    parse_u8(next_field(fields)?).ok_or(Reason::BadNumber)
}

/// A number from -2^63 to 2^63 - 1.
pub(crate) fn next_i64(fields: &mut Pieces<'_>) -> Result<i64, Reason>
    ensures { with_rest result (pieces_left fields.new) ≡
        signed_field (pieces_left fields.old) }
{
    parse_i64(next_field(fields)?).ok_or(Reason::BadNumber)
}

/// An address, by its number, or by a symbol and an addend.
pub(crate) fn next_address(fields: &mut Pieces<'_>) -> Result<Address, Reason>
    ensures { with_rest result (pieces_left fields.new) ≡
        address_field (pieces_left fields.old) }
{
    parse_address(next_field(fields)?).ok_or(Reason::BadNumber)
}

/// An address, or `none`, or else `BadNumber`; `WrongFields` where no field is left.
pub fn next_address_or_none(fields: &mut Pieces<'_>) -> Result<Option<Address>, Reason>
    ensures { with_rest result (pieces_left fields.new) ≡
        address_or_none_field (pieces_left fields.old) }
{
    parse_address_or_none(next_field(fields)?).ok_or(Reason::BadNumber)
}

/// A reference to an entry of any unit, by the numbers of both, or by a symbol.
pub(crate) fn next_reference(fields: &mut Pieces<'_>) -> Result<DebugInfoRef, Reason>
    ensures { with_rest result (pieces_left fields.new) ≡
        reference_field (pieces_left fields.old) }
{
    parse_reference(next_field(fields)?).ok_or(Reason::BadNumber)
}

/// A format (DWARF 5, 7.4), by the bits of its offsets, or else `BadNumber`; `WrongFields` where no
/// field is left.
pub fn next_format(fields: &mut Pieces<'_>) -> Result<Format, Reason>
    ensures { with_rest result (pieces_left fields.new) ≡
        format_field (pieces_left fields.old) }
{
    match next_u8(fields)? {
        32 => Ok(Format::Dwarf32),
        64 => Ok(Format::Dwarf64),
        _ => Err(Reason::BadNumber),
    }
}

/// Yes or no, as 1 or 0, or else `BadNumber`; `WrongFields` where no field is left.
pub fn next_flag(fields: &mut Pieces<'_>) -> Result<bool, Reason>
    ensures { with_rest result (pieces_left fields.new) ≡
        flag_field (pieces_left fields.old) }
{
    match next_u8(fields)? {
        0 => Ok(false),
        1 => Ok(true),
        _ => Err(Reason::BadNumber),
    }
}

/// A tag (DWARF 5, 7.5.3), by its number below 2^16, or else `BadNumber`, or by its name, or else
/// `UnknownWord`; `WrongFields` where no field is left.
pub fn next_tag(fields: &mut Pieces<'_>) -> Result<DwTag, Reason>
    ensures { with_rest result (pieces_left fields.new) ≡
        tag_field (pieces_left fields.old) }
{
    Ok(DwTag(parse_tag(next_field(fields)?)?))
}

/// The name of an attribute (DWARF 5, 7.5.4), by its number below 2^16, or else `BadNumber`, or
/// spelled, or else `UnknownWord`; `WrongFields` where no field is left.
pub fn next_attribute(fields: &mut Pieces<'_>) -> Result<DwAt, Reason>
    ensures { with_rest result (pieces_left fields.new) ≡
        attribute_field (pieces_left fields.old) }
{
    Ok(DwAt(parse_attribute(next_field(fields)?)?))
}

/// The code of an operation without operands, by its number or its name.
pub(crate) fn next_opcode(fields: &mut Pieces<'_>) -> Result<DwOp, Reason>
    ensures { with_rest result (pieces_left fields.new) ≡
        opcode_field (pieces_left fields.old) }
{
    Ok(DwOp(parse_opcode(next_field(fields)?)?))
}

/// The word of a step of an expression.
pub(crate) fn next_step_word(fields: &mut Pieces<'_>) -> Result<StepWord, Reason>
    ensures { with_rest result (pieces_left fields.new) ≡
        step_word_field (pieces_left fields.old) }
{
    StepWord::read(next_field(fields)?).ok_or(Reason::UnknownWord)
}

/// The bracket that opens an expression, within so many that are open.
pub(crate) fn expect_open(fields: &mut Pieces<'_>, depth: usize) -> Result<(), Reason>
    ensures field { with_rest result (pieces_left fields.new) ≡
        open_field depth (pieces_left fields.old) }
    ensures room { IfOk result (λ _. depth < 64) }
{
    match next_field(fields)? {
        b"[" if depth < MOST_OPEN => Ok(()),
        b"[" => Err(Reason::TooDeep),
        _ => Err(Reason::UnknownWord),
    }
}

/// The word of an item of a range list.
pub(crate) fn next_range_word(fields: &mut Pieces<'_>) -> Result<RangeWord, Reason>
    ensures { with_rest result (pieces_left fields.new) ≡
        range_word_field (pieces_left fields.old) }
{
    RangeWord::read(next_field(fields)?).ok_or(Reason::UnknownWord)
}

/// The word of an item of a location list.
pub(crate) fn next_location_word(fields: &mut Pieces<'_>) -> Result<LocationWord, Reason>
    ensures { with_rest result (pieces_left fields.new) ≡
        location_word_field (pieces_left fields.old) }
{
    LocationWord::read(next_field(fields)?).ok_or(Reason::UnknownWord)
}

/// The kind of a value.
pub(crate) fn next_kind(fields: &mut Pieces<'_>) -> Result<Kind, Reason>
    ensures { with_rest result (pieces_left fields.new) ≡
        kind_field (pieces_left fields.old) }
{
    Kind::read(next_field(fields)?).ok_or(Reason::UnknownWord)
}

/// Bytes in base 16, or else `BadHex`; `WrongFields` where no field is left.
pub fn next_hex_bytes<'a>(fields: &mut Pieces<'a>) -> Result<HexBytes<'a>, Reason>
    ensures { with_rest result (pieces_left fields.new) ≡
        hex_field (pieces_left fields.old) }
{
    HexBytes::read(next_field(fields)?).ok_or(Reason::BadHex)
}
