//! Instructions on the frame's address (DWARF 5, 6.4.2.2).

ghost use Rattle.std.specs.Prelude.{◌≡◌, IfOk, IfErr, IfSome, Err};
ghost use Rattle.dw_read.specs.Reading.{left};
ghost use Rattle.dw_read.specs.Took.{Took, option_of};
ghost use Rattle.dw_read_frames.specs.Instructions.{frame_row, tried};
ghost use Rattle.dw_read_frames.specs.InstructionViews.{instruction_of, HoldsParts};

use crate::instruction::CallFrameInstruction;
use crate::operand::{read_block, read_register};
use dw_base::DwCfa;
use dw_base::constants::{
    DW_CFA_def_cfa, DW_CFA_def_cfa_expression, DW_CFA_def_cfa_offset, DW_CFA_def_cfa_offset_sf,
    DW_CFA_def_cfa_register, DW_CFA_def_cfa_sf,
};
use dw_read::{Expression, ReadResult, Reader};

/// Reads what stands behind a code of such an instruction; None for every other code.
pub(crate) fn read_frame_rule<R: Reader>(
    input: &mut R,
    code: DwCfa,
) -> ReadResult<Option<CallFrameInstruction<R>>>
    ensures ok { IfOk result (λ o. Took _
        (tried (frame_row code.0))
        (R.reading input.old) (R.reading input.new) (option_of (instruction_of R.reading) o)) }
    ensures parts { IfOk result (λ o. IfSome o (HoldsParts R.reading (R.reading input.old))) }
    ensures err { IfErr result (λ e. tried (frame_row code.0)
        (left (R.reading input.old)) ≡ Err e) }
{
    match code {
        DW_CFA_def_cfa => Ok(Some(CallFrameInstruction::DefCfa {
            register: read_register(input)?,
            offset: input.read_uleb128()?,
        })),
        DW_CFA_def_cfa_sf => Ok(Some(CallFrameInstruction::DefCfaSf {
            register: read_register(input)?,
            factored_offset: input.read_sleb128()?,
        })),
        DW_CFA_def_cfa_register => Ok(Some(CallFrameInstruction::DefCfaRegister {
            register: read_register(input)?,
        })),
        DW_CFA_def_cfa_offset => Ok(Some(CallFrameInstruction::DefCfaOffset {
            offset: input.read_uleb128()?,
        })),
        DW_CFA_def_cfa_offset_sf => Ok(Some(CallFrameInstruction::DefCfaOffsetSf {
            factored_offset: input.read_sleb128()?,
        })),
        DW_CFA_def_cfa_expression => Ok(Some(CallFrameInstruction::DefCfaExpression {
            expression: Expression(read_block(input)?),
        })),
        _ => Ok(None),
    }
}
