//! Instructions on a register (DWARF 5, 6.4.2.3).

ghost use Rattle.std.specs.Prelude.{◌≡◌, IfOk, IfErr, IfSome, Err};
ghost use Rattle.dw_read.specs.Reading.{left};
ghost use Rattle.dw_read.specs.Took.{Took, option_of};
ghost use Rattle.dw_read_frames.specs.Instructions.{rule_row, tried};
ghost use Rattle.dw_read_frames.specs.InstructionViews.{instruction_of, HoldsParts};

use crate::instruction::CallFrameInstruction;
use crate::operand::{read_block, read_register};
use dw_base::DwCfa;
use dw_base::constants::{
    DW_CFA_expression, DW_CFA_offset_extended, DW_CFA_offset_extended_sf, DW_CFA_register,
    DW_CFA_restore_extended, DW_CFA_same_value, DW_CFA_undefined, DW_CFA_val_expression,
    DW_CFA_val_offset, DW_CFA_val_offset_sf,
};
use dw_read::{Expression, ReadResult, Reader};

/// Reads what stands behind a code of such an instruction; None for every other code.
pub(crate) fn read_register_rule<R: Reader>(
    input: &mut R,
    code: DwCfa,
) -> ReadResult<Option<CallFrameInstruction<R>>>
    ensures ok { IfOk result (λ o. Took _
        (tried (rule_row code.0))
        (R.reading input.old) (R.reading input.new) (option_of (instruction_of R.reading) o)) }
    ensures parts { IfOk result (λ o. IfSome o (HoldsParts R.reading (R.reading input.old))) }
    ensures err { IfErr result (λ e. tried (rule_row code.0)
        (left (R.reading input.old)) ≡ Err e) }
{
    match code {
        DW_CFA_offset_extended => Ok(Some(CallFrameInstruction::Offset {
            register: read_register(input)?,
            factored_offset: input.read_uleb128()?,
        })),
        DW_CFA_offset_extended_sf => Ok(Some(CallFrameInstruction::OffsetExtendedSf {
            register: read_register(input)?,
            factored_offset: input.read_sleb128()?,
        })),
        DW_CFA_restore_extended => Ok(Some(CallFrameInstruction::Restore {
            register: read_register(input)?,
        })),
        DW_CFA_undefined => Ok(Some(CallFrameInstruction::Undefined {
            register: read_register(input)?,
        })),
        DW_CFA_same_value => Ok(Some(CallFrameInstruction::SameValue {
            register: read_register(input)?,
        })),
        DW_CFA_register => Ok(Some(CallFrameInstruction::Register {
            dest_register: read_register(input)?,
            src_register: read_register(input)?,
        })),
        DW_CFA_expression => Ok(Some(CallFrameInstruction::Expression {
            register: read_register(input)?,
            expression: Expression(read_block(input)?),
        })),
        DW_CFA_val_expression => Ok(Some(CallFrameInstruction::ValExpression {
            register: read_register(input)?,
            expression: Expression(read_block(input)?),
        })),
        DW_CFA_val_offset => Ok(Some(CallFrameInstruction::ValOffset {
            register: read_register(input)?,
            factored_offset: input.read_uleb128()?,
        })),
        DW_CFA_val_offset_sf => Ok(Some(CallFrameInstruction::ValOffsetSf {
            register: read_register(input)?,
            factored_offset: input.read_sleb128()?,
        })),
        _ => Ok(None),
    }
}
