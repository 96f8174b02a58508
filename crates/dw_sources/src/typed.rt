//! Operations on values of base types (DWARF 5, 2.5.1.1 to 2.5.1.3 and 2.5.1.6).

ghost use Rattle.std.specs.Prelude.{◌≡◌, IfOk, IfErr, IfSome, Err};
ghost use Rattle.dw_read.specs.Reading.{left};
ghost use Rattle.dw_read.specs.Took.{Took, option_of};
ghost use Rattle.dw_sources.specs.OperationTable.{typed_operations};
ghost use Rattle.dw_sources.specs.OperationViews.{operation_of, HoldsParts};
ghost use Rattle.dw_sources.specs.Tries.{tried};

use crate::operands::{read_base, read_register, read_short_block};
use crate::operation::Operation;
use dw_base::constants::{
    DW_OP_GNU_const_type, DW_OP_GNU_convert, DW_OP_GNU_deref_type, DW_OP_GNU_regval_type,
    DW_OP_GNU_reinterpret, DW_OP_const_type, DW_OP_convert, DW_OP_deref_type, DW_OP_regval_type,
    DW_OP_reinterpret, DW_OP_xderef_type,
};
use dw_base::{DwOp, Encoding, UnitOffset};
use dw_read::{ReadResult, Reader};

/// Reads what stands behind a code of such an operation; None for every other code.
pub(crate) fn read_typed<R: Reader>(
    input: &mut R,
    encoding: Encoding,
    opcode: DwOp,
) -> ReadResult<Option<Operation<R>>>
    ensures ok { IfOk result (λ o. Took _
        (tried (typed_operations (R.reading input.old).is_big encoding opcode.0))
        (R.reading input.old) (R.reading input.new) (option_of (operation_of R.reading) o)) }
    ensures parts { IfOk result (λ o. IfSome o (HoldsParts R.reading (R.reading input.old))) }
    ensures err { IfErr result (λ e.
        tried (typed_operations (R.reading input.old).is_big encoding opcode.0)
        (left (R.reading input.old)) ≡ Err e) }
{
    match opcode {
        DW_OP_const_type | DW_OP_GNU_const_type => Ok(Some(Operation::ConstantType(
            UnitOffset(input.read_uleb128()? as usize),
            read_short_block(input)?,
        ))),
        DW_OP_regval_type | DW_OP_GNU_regval_type => Ok(Some(Operation::RegisterType(
            read_register(input)?,
            UnitOffset(input.read_uleb128()? as usize),
        ))),
        DW_OP_deref_type | DW_OP_GNU_deref_type => Ok(Some(Operation::DerefType {
            space: false,
            size: input.read_u8()?,
            base: UnitOffset(input.read_uleb128()? as usize),
        })),
        DW_OP_xderef_type => Ok(Some(Operation::DerefType {
            space: true,
            size: input.read_u8()?,
            base: UnitOffset(input.read_uleb128()? as usize),
        })),
        DW_OP_convert | DW_OP_GNU_convert => Ok(Some(Operation::Convert(read_base(input)?))),
        DW_OP_reinterpret | DW_OP_GNU_reinterpret => Ok(Some(Operation::Reinterpret(read_base(
            input,
        )?))),
        _ => Ok(None),
    }
}
