//! Instructions that say where rules begin to hold, and those on all rules (DWARF 5, 6.4.2.1 and
//! 6.4.2.4).

ghost use Rattle.std.specs.Prelude.{◌≡◌, IfOk, IfErr, IfSome, Err};
ghost use Rattle.dw_read.specs.Reading.{left};
ghost use Rattle.dw_read.specs.Took.{Took, option_of};
ghost use Rattle.dw_read_frames.specs.Instructions.{place_row, coded_row, tried};
ghost use Rattle.dw_read_frames.specs.InstructionViews.{instruction_of, HoldsParts};

use crate::instruction::CallFrameInstruction;
use crate::pointer::read_pointer;
use dw_base::constants::{
    DW_CFA_AARCH64_negate_ra_state, DW_CFA_GNU_args_size, DW_CFA_advance_loc1, DW_CFA_advance_loc2,
    DW_CFA_advance_loc4, DW_CFA_nop, DW_CFA_remember_state, DW_CFA_restore_state, DW_CFA_set_loc,
};
use dw_base::{DwCfa, DwEhPe, Register};
use dw_read::{ReadResult, Reader};

/// Reads what stands behind a code of such an instruction; None for every other code.
pub(crate) fn read_location<R: Reader>(
    input: &mut R,
    size: u8,
    encoding: DwEhPe,
    code: DwCfa,
) -> ReadResult<Option<CallFrameInstruction<R>>>
    ensures ok { IfOk result (λ o. Took _
        (tried (place_row (R.reading input.old).is_big size encoding
        (R.reading input.old).place code.0))
        (R.reading input.old) (R.reading input.new) (option_of (instruction_of R.reading) o)) }
    ensures parts { IfOk result (λ o. IfSome o (HoldsParts R.reading (R.reading input.old))) }
    ensures err { IfErr result (λ e.
        tried (place_row (R.reading input.old).is_big size encoding
        (R.reading input.old).place code.0)
        (left (R.reading input.old)) ≡ Err e) }
{
    match code {
        DW_CFA_nop => Ok(Some(CallFrameInstruction::Nop)),
        DW_CFA_set_loc => Ok(Some(CallFrameInstruction::SetLoc {
            address: read_pointer(input, size, encoding)?,
        })),
        DW_CFA_advance_loc1 => Ok(Some(CallFrameInstruction::AdvanceLoc {
            delta: input.read_u8()? as u32,
        })),
        DW_CFA_advance_loc2 => Ok(Some(CallFrameInstruction::AdvanceLoc {
            delta: input.read_u16()? as u32,
        })),
        DW_CFA_advance_loc4 => Ok(Some(CallFrameInstruction::AdvanceLoc {
            delta: input.read_u32()?,
        })),
        DW_CFA_remember_state => Ok(Some(CallFrameInstruction::RememberState)),
        DW_CFA_restore_state => Ok(Some(CallFrameInstruction::RestoreState)),
        DW_CFA_AARCH64_negate_ra_state => Ok(Some(CallFrameInstruction::NegateRaState)),
        DW_CFA_GNU_args_size => Ok(Some(CallFrameInstruction::ArgsSize {
            size: input.read_uleb128()?,
        })),
        _ => Ok(None),
    }
}

/// Reads an instruction whose code has an operand in its low six bits; None for every other code.
pub(crate) fn read_coded<R: Reader>(
    input: &mut R,
    code: u8,
) -> ReadResult<Option<CallFrameInstruction<R>>>
    ensures ok { IfOk result (λ o. Took _
        (tried (coded_row code))
        (R.reading input.old) (R.reading input.new) (option_of (instruction_of R.reading) o)) }
    ensures parts { IfOk result (λ o. IfSome o (HoldsParts R.reading (R.reading input.old))) }
    ensures err { IfErr result (λ e. tried (coded_row code)
        (left (R.reading input.old)) ≡ Err e) }
{
    if code < 0x40 {
        return Ok(None);
    }
    if code < 0x80 {
        return Ok(Some(CallFrameInstruction::AdvanceLoc {
            delta: (code - 0x40) as u32,
        }));
    }
    if code < 0xc0 {
        let factored_offset = input.read_uleb128()?;
        return Ok(Some(CallFrameInstruction::Offset {
            register: Register((code - 0x80) as u16),
            factored_offset,
        }));
    }
    Ok(Some(CallFrameInstruction::Restore {
        register: Register((code - 0xc0) as u16),
    }))
}
