//! The operands of frame instructions (DWARF 5, 7.24).

ghost use Rattle.std.specs.Prelude.{◌≡◌, IfOk, IfErr, Err};
ghost use Rattle.dw_read.specs.Reading.{left};
ghost use Rattle.dw_read.specs.Reasons.{uleb16_read};
ghost use Rattle.dw_read.specs.Took.{Took};
ghost use Rattle.dw_read_frames.specs.Instructions.{block_read};
ghost use Rattle.dw_read_frames.specs.InstructionViews.{IsWithin};

use dw_base::Register;
use dw_read::{ReadError, ReadResult, Reader};

/// Reads the number of a register.
pub(crate) fn read_register<R: Reader>(input: &mut R) -> ReadResult<Register>
    ensures ok { IfOk result (λ r. Took _ uleb16_read
        (R.reading input.old) (R.reading input.new) r.0) }
    ensures err { IfErr result (λ e. uleb16_read (left (R.reading input.old)) ≡ Err e) }
{
    let number = input.read_uleb128()?;
    if number > 0xffff {
        return Err(ReadError::BadLeb128);
    }
    Ok(Register(number as u16))
}

/// Reads bytes behind their number in ULEB128.
pub(crate) fn read_block<R: Reader>(input: &mut R) -> ReadResult<R>
    ensures ok { IfOk result (λ r. Took _ block_read
        (R.reading input.old) (R.reading input.new) (left (R.reading r))) }
    ensures part { IfOk result (λ r. IsWithin (R.reading input.old) (R.reading r)) }
    ensures err { IfErr result (λ e. block_read (left (R.reading input.old)) ≡ Err e) }
{
    let size = input.read_uleb128()?;
    let bytes = input.split(size as usize)?;
    Ok(bytes)
}
