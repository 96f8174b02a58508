//! Pointers by their encodings (Linux Standard Base Core 5.0, 10.5.1).

ghost use Rattle.std.specs.Prelude.{◌≡◌, IfOk, IfErr, Err};
ghost use Rattle.dw_read.specs.Reading.{left};
ghost use Rattle.dw_read.specs.Took.{Took};
ghost use Rattle.dw_read_frames.specs.Pointers.{data_read, pointer_read, extended, in_bits};

use dw_base::DwEhPe;
use dw_base::constants::{
    DW_EH_PE_absptr, DW_EH_PE_pcrel, DW_EH_PE_sdata2, DW_EH_PE_sdata4, DW_EH_PE_sdata8,
    DW_EH_PE_sleb128, DW_EH_PE_udata2, DW_EH_PE_udata4, DW_EH_PE_udata8, DW_EH_PE_uleb128,
};
use dw_read::{ReadError, ReadResult, Reader};

/// Reads the address that the pointer at the reader's place leads to, where addresses have so many
/// bytes. An indirect pointer is read as the place at which the address stands.
pub(crate) fn read_pointer<R: Reader>(input: &mut R, size: u8, encoding: DwEhPe) -> ReadResult<u64>
    ensures ok { IfOk result (Took _
        (pointer_read (R.reading input.old).is_big size encoding (R.reading input.old).place)
        (R.reading input.old) (R.reading input.new)) }
    ensures err { IfErr result (λ e.
        pointer_read (R.reading input.old).is_big size encoding (R.reading input.old).place
        (left (R.reading input.old)) ≡ Err e) }
{
    let place = input.place();
    let number = read_data(input, size, encoding)?;
    match encoding.application() {
        DW_EH_PE_absptr => Ok(number),
        DW_EH_PE_pcrel => Ok(number.wrapping_add(place as u64)),
        _ => Err(ReadError::UnknownPointerEncoding(encoding)),
    }
}

/// Reads a number of 64 bits by the format of an encoding.
pub(crate) fn read_data<R: Reader>(input: &mut R, size: u8, encoding: DwEhPe) -> ReadResult<u64>
    ensures ok { IfOk result (Took _ (data_read (R.reading input.old).is_big size encoding)
        (R.reading input.old) (R.reading input.new)) }
    ensures err { IfErr result (λ e. data_read (R.reading input.old).is_big size encoding
        (left (R.reading input.old)) ≡ Err e) }
{
    match encoding.format() {
        DW_EH_PE_absptr => Ok(input.read_address(size)?),
        DW_EH_PE_uleb128 => Ok(input.read_uleb128()?),
        DW_EH_PE_udata2 => Ok(input.read_u16()? as u64),
        DW_EH_PE_udata4 => Ok(input.read_u32()? as u64),
        DW_EH_PE_udata8 => Ok(input.read_u64()?),
        DW_EH_PE_sleb128 => Ok(bits_of(input.read_sleb128()?)),
        DW_EH_PE_sdata2 => Ok(extended_16(input.read_u16()?)),
        DW_EH_PE_sdata4 => Ok(extended_32(input.read_u32()?)),
        DW_EH_PE_sdata8 => Ok(input.read_u64()?),
        _ => Err(ReadError::UnknownPointerEncoding(encoding)),
    }
}

/// The 64 bits of a signed number.
fn bits_of(number: i64) -> u64
    ensures { result ≡ in_bits number }
{
    number.cast_unsigned()
}

/// A signed number of two bytes in 64 bits.
fn extended_16(number: u16) -> u64
    ensures { result ≡ extended 2 number }
{
    let number = number as u64;
    if number < 0x8000 {
        number
    } else {
        number + 0xffff_ffff_ffff_0000
    }
}

/// A signed number of four bytes in 64 bits.
fn extended_32(number: u32) -> u64
    ensures { result ≡ extended 4 number }
{
    let number = number as u64;
    if number < 0x8000_0000 {
        number
    } else {
        number + 0xffff_ffff_0000_0000
    }
}
