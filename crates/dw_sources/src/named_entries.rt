//! Operations that name an entry by its place (DWARF 5, 2.5.1.5 and 2.6.1.1.4).

ghost use Rattle.std.specs.Prelude.{◌≡◌, IfOk, IfErr, IfSome, Err};
ghost use Rattle.dw_read.specs.Reading.{left};
ghost use Rattle.dw_read.specs.Took.{Took, option_of};
ghost use Rattle.dw_sources.specs.OperationTable.{entry_operations};
ghost use Rattle.dw_sources.specs.OperationViews.{operation_of, HoldsParts};
ghost use Rattle.dw_sources.specs.Tries.{tried};

use crate::operands::read_info_place;
use crate::operation::Operation;
use dw_base::constants::{
    DW_OP_GNU_implicit_pointer, DW_OP_GNU_parameter_ref, DW_OP_GNU_variable_value, DW_OP_call_ref,
    DW_OP_call2, DW_OP_call4, DW_OP_implicit_pointer,
};
use dw_base::{DebugInfoOffset, DwOp, Encoding, UnitOffset};
use dw_read::{ReadResult, Reader};

/// Reads what stands behind a code of such an operation; None for every other code.
pub(crate) fn read_of_entry<R: Reader>(
    input: &mut R,
    encoding: Encoding,
    opcode: DwOp,
) -> ReadResult<Option<Operation<R>>>
    ensures ok { IfOk result (λ o. Took _
        (tried (entry_operations (R.reading input.old).is_big encoding opcode.0))
        (R.reading input.old) (R.reading input.new) (option_of (operation_of R.reading) o)) }
    ensures parts { IfOk result (λ o. IfSome o (HoldsParts R.reading (R.reading input.old))) }
    ensures err { IfErr result (λ e.
        tried (entry_operations (R.reading input.old).is_big encoding opcode.0)
        (left (R.reading input.old)) ≡ Err e) }
{
    match opcode {
        DW_OP_call2 => Ok(Some(Operation::Call(UnitOffset(input.read_u16()? as usize)))),
        DW_OP_call4 => Ok(Some(Operation::Call(UnitOffset(input.read_u32()? as usize)))),
        DW_OP_call_ref => Ok(Some(Operation::CallRef(DebugInfoOffset(input.read_word(
            encoding.format,
        )?)))),
        DW_OP_implicit_pointer | DW_OP_GNU_implicit_pointer => Ok(Some(
            Operation::ImplicitPointer {
                entry: read_info_place(input, encoding)?,
                byte_offset: input.read_sleb128()?,
            },
        )),
        DW_OP_GNU_parameter_ref => Ok(Some(Operation::ParameterRef(UnitOffset(
            input.read_u32()? as usize,
        )))),
        DW_OP_GNU_variable_value => Ok(Some(Operation::VariableValue(DebugInfoOffset(
            input.read_word(encoding.format)?,
        )))),
        _ => Ok(None),
    }
}
