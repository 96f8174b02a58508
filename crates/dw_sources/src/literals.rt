//! Operations that push a number or an address (DWARF 5, 2.5.1.1).

ghost use Rattle.std.specs.Prelude.{◌≡◌, IfOk, IfErr, IfSome, Err};
ghost use Rattle.dw_read.specs.Reading.{left};
ghost use Rattle.dw_read.specs.Took.{Took, option_of};
ghost use Rattle.dw_sources.specs.OperationTable.{literals};
ghost use Rattle.dw_sources.specs.OperationViews.{operation_of, HoldsParts};
ghost use Rattle.dw_sources.specs.Tries.{tried};

use crate::operands::{read_i8, read_i16, read_i32, read_i64};
use crate::operation::Operation;
use dw_base::constants::{
    DW_OP_addr, DW_OP_addrx, DW_OP_const1s, DW_OP_const1u, DW_OP_const2s, DW_OP_const2u,
    DW_OP_const4s, DW_OP_const4u, DW_OP_const8s, DW_OP_const8u, DW_OP_consts, DW_OP_constu,
    DW_OP_constx,
};
use dw_base::{DwOp, Encoding};
use dw_read::{ReadResult, Reader};

/// Reads what stands behind a code of such an operation; None for every other code.
pub(crate) fn read_literal<R: Reader>(
    input: &mut R,
    encoding: Encoding,
    opcode: DwOp,
) -> ReadResult<Option<Operation<R>>>
    ensures ok { IfOk result (λ o. Took _
        (tried (literals (R.reading input.old).is_big encoding opcode.0))
        (R.reading input.old) (R.reading input.new) (option_of (operation_of R.reading) o)) }
    ensures parts { IfOk result (λ o. IfSome o (HoldsParts R.reading (R.reading input.old))) }
    ensures err { IfErr result (λ e.
        tried (literals (R.reading input.old).is_big encoding opcode.0)
        (left (R.reading input.old)) ≡ Err e) }
{
    match opcode {
        DW_OP_addr => Ok(Some(Operation::Address(input.read_address(encoding.address_size)?))),
        DW_OP_const1u => Ok(Some(Operation::UnsignedConstant(input.read_u8()? as u64))),
        DW_OP_const1s => Ok(Some(Operation::SignedConstant(read_i8(input)? as i64))),
        DW_OP_const2u => Ok(Some(Operation::UnsignedConstant(input.read_u16()? as u64))),
        DW_OP_const2s => Ok(Some(Operation::SignedConstant(read_i16(input)? as i64))),
        DW_OP_const4u => Ok(Some(Operation::UnsignedConstant(input.read_u32()? as u64))),
        DW_OP_const4s => Ok(Some(Operation::SignedConstant(read_i32(input)? as i64))),
        DW_OP_const8u => Ok(Some(Operation::UnsignedConstant(input.read_u64()?))),
        DW_OP_const8s => Ok(Some(Operation::SignedConstant(read_i64(input)?))),
        DW_OP_constu => Ok(Some(Operation::UnsignedConstant(input.read_uleb128()?))),
        DW_OP_consts => Ok(Some(Operation::SignedConstant(input.read_sleb128()?))),
        DW_OP_addrx => Ok(Some(Operation::AddressIndex(input.read_uleb128()?))),
        DW_OP_constx => Ok(Some(Operation::ConstantIndex(input.read_uleb128()?))),
        _ => Ok(None),
    }
}
