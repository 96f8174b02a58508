//! The operands of operations (DWARF 5, 7.7.1).

ghost use Rattle.std.specs.Prelude.{◌≡◌, IfOk, IfErr, Err};
ghost use Rattle.dw_read.specs.Reading.{left};
ghost use Rattle.dw_read.specs.Reasons.{uleb16_read};
ghost use Rattle.dw_read.specs.Took.{Took, option_of};
ghost use Rattle.dw_sources.specs.Operands.{signed_read, uleb32_read, base_read};
ghost use Rattle.dw_sources.specs.Operands.{block_read, short_block_read, info_place_read};
ghost use Rattle.dw_sources.specs.OperationViews.{IsWithin};

use dw_base::{DebugInfoOffset, Encoding, Register, UnitOffset};
use dw_read::{ReadError, ReadResult, Reader};

/// Reads the number of a register.
pub(crate) fn read_register<R: Reader>(input: &mut R) -> ReadResult<Register>
    ensures ok { IfOk result (λ r. Took _ uleb16_read
        (R.reading input.old) (R.reading input.new) r.0) }
    ensures err { IfErr result (λ e. uleb16_read (left (R.reading input.old)) ≡ Err e) }
{
    let number = input.read_uleb128()?;
    if number > 0xffff {
        return Err(ReadError::BadLeb128);
    }
    Ok(Register(number as u16))
}

/// Reads an index of 32 bits.
pub(crate) fn read_uleb32<R: Reader>(input: &mut R) -> ReadResult<u32>
    ensures ok { IfOk result (Took _ uleb32_read (R.reading input.old) (R.reading input.new)) }
    ensures err { IfErr result (λ e. uleb32_read (left (R.reading input.old)) ≡ Err e) }
{
    let number = input.read_uleb128()?;
    if number > 0xffff_ffff {
        return Err(ReadError::BadLeb128);
    }
    Ok(number as u32)
}

/// Reads a signed number of one byte.
pub(crate) fn read_i8<R: Reader>(input: &mut R) -> ReadResult<i8>
    ensures ok { IfOk result (Took _ (signed_read (R.reading input.old).is_big 1)
        (R.reading input.old) (R.reading input.new)) }
    ensures err { IfErr result (λ e. signed_read (R.reading input.old).is_big 1
        (left (R.reading input.old)) ≡ Err e) }
{
    let number = input.read_u8()?;
    Ok(number.cast_signed())
}

/// Reads a signed number of two bytes.
pub(crate) fn read_i16<R: Reader>(input: &mut R) -> ReadResult<i16>
    ensures ok { IfOk result (Took _ (signed_read (R.reading input.old).is_big 2)
        (R.reading input.old) (R.reading input.new)) }
    ensures err { IfErr result (λ e. signed_read (R.reading input.old).is_big 2
        (left (R.reading input.old)) ≡ Err e) }
{
    let number = input.read_u16()?;
    Ok(number.cast_signed())
}

/// Reads a signed number of four bytes.
pub(crate) fn read_i32<R: Reader>(input: &mut R) -> ReadResult<i32>
    ensures ok { IfOk result (Took _ (signed_read (R.reading input.old).is_big 4)
        (R.reading input.old) (R.reading input.new)) }
    ensures err { IfErr result (λ e. signed_read (R.reading input.old).is_big 4
        (left (R.reading input.old)) ≡ Err e) }
{
    let number = input.read_u32()?;
    Ok(number.cast_signed())
}

/// Reads a signed number of eight bytes.
pub(crate) fn read_i64<R: Reader>(input: &mut R) -> ReadResult<i64>
    ensures ok { IfOk result (Took _ (signed_read (R.reading input.old).is_big 8)
        (R.reading input.old) (R.reading input.new)) }
    ensures err { IfErr result (λ e. signed_read (R.reading input.old).is_big 8
        (left (R.reading input.old)) ≡ Err e) }
{
    let number = input.read_u64()?;
    Ok(number.cast_signed())
}

/// Reads the place of a base type in its unit; 0 is the generic type.
pub(crate) fn read_base<R: Reader>(input: &mut R) -> ReadResult<Option<UnitOffset>>
    ensures ok { IfOk result (λ b. Took _ base_read
        (R.reading input.old) (R.reading input.new) (option_of (λ o. o.0) b)) }
    ensures err { IfErr result (λ e. base_read (left (R.reading input.old)) ≡ Err e) }
{
    let place = input.read_uleb128()?;
    if place == 0 {
        return Ok(None);
    }
    Ok(Some(UnitOffset(place as usize)))
}

/// Reads bytes behind their number in ULEB128.
pub(crate) fn read_block<R: Reader>(input: &mut R) -> ReadResult<R>
    ensures ok { IfOk result (λ r. Took _ block_read
        (R.reading input.old) (R.reading input.new) (left (R.reading r))) }
    ensures part { IfOk result (λ r. IsWithin (R.reading input.old) (R.reading r)) }
    ensures err { IfErr result (λ e. block_read (left (R.reading input.old)) ≡ Err e) }
{
    let size = input.read_uleb128()?;
    let bytes = input.split(size as usize)?;
    Ok(bytes)
}

/// Reads bytes behind their number in one byte.
pub(crate) fn read_short_block<R: Reader>(input: &mut R) -> ReadResult<R>
    ensures ok { IfOk result (λ r. Took _ (short_block_read (R.reading input.old).is_big)
        (R.reading input.old) (R.reading input.new) (left (R.reading r))) }
    ensures part { IfOk result (λ r. IsWithin (R.reading input.old) (R.reading r)) }
    ensures err { IfErr result (λ e. short_block_read (R.reading input.old).is_big
        (left (R.reading input.old)) ≡ Err e) }
{
    let size = input.read_u8()?;
    let bytes = input.split(size as usize)?;
    Ok(bytes)
}

/// Reads a place in `.debug_info`, which version 2 gives the width of an address.
pub(crate) fn read_info_place<R: Reader>(
    input: &mut R,
    encoding: Encoding,
) -> ReadResult<DebugInfoOffset>
    ensures ok { IfOk result (λ o. Took _ (info_place_read (R.reading input.old).is_big encoding)
        (R.reading input.old) (R.reading input.new) o.0) }
    ensures err { IfErr result (λ e. info_place_read (R.reading input.old).is_big encoding
        (left (R.reading input.old)) ≡ Err e) }
{
    if encoding.version == 2 {
        let place = input.read_address(encoding.address_size)?;
        return Ok(DebugInfoOffset(place as usize));
    }
    let place = input.read_word(encoding.format)?;
    Ok(DebugInfoOffset(place))
}
