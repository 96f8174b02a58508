//! Operations on the stack, and branches (DWARF 5, 2.5.1.3 to 2.5.1.5).

ghost use Rattle.std.specs.Prelude.{◌≡◌, IfOk, IfErr, IfSome, Err};
ghost use Rattle.dw_read.specs.Reading.{left};
ghost use Rattle.dw_read.specs.Took.{Took, option_of};
ghost use Rattle.dw_sources.specs.OperationTable.{stack_operations};
ghost use Rattle.dw_sources.specs.OperationViews.{operation_of, HoldsParts};
ghost use Rattle.dw_sources.specs.Tries.{tried};

use crate::operands::read_i16;
use crate::operation::Operation;
use dw_base::constants::{
    DW_OP_bra, DW_OP_deref_size, DW_OP_pick, DW_OP_plus_uconst, DW_OP_skip, DW_OP_xderef_size,
};
use dw_base::{DwOp, Encoding};
use dw_read::{ReadResult, Reader};

/// Reads what stands behind a code of such an operation; None for every other code.
pub(crate) fn read_on_stack<R: Reader>(
    input: &mut R,
    encoding: Encoding,
    opcode: DwOp,
) -> ReadResult<Option<Operation<R>>>
    ensures ok { IfOk result (λ o. Took _
        (tried (stack_operations (R.reading input.old).is_big encoding opcode.0))
        (R.reading input.old) (R.reading input.new) (option_of (operation_of R.reading) o)) }
    ensures parts { IfOk result (λ o. IfSome o (HoldsParts R.reading (R.reading input.old))) }
    ensures err { IfErr result (λ e.
        tried (stack_operations (R.reading input.old).is_big encoding opcode.0)
        (left (R.reading input.old)) ≡ Err e) }
{
    match opcode {
        DW_OP_pick => Ok(Some(Operation::Pick(input.read_u8()?))),
        DW_OP_deref_size => Ok(Some(Operation::DerefSize {
            space: false,
            size: input.read_u8()?,
        })),
        DW_OP_xderef_size => Ok(Some(Operation::DerefSize {
            space: true,
            size: input.read_u8()?,
        })),
        DW_OP_plus_uconst => Ok(Some(Operation::PlusConstant(input.read_uleb128()?))),
        DW_OP_bra => Ok(Some(Operation::Branch(read_i16(input)?))),
        DW_OP_skip => Ok(Some(Operation::Skip(read_i16(input)?))),
        _ => Ok(None),
    }
}
