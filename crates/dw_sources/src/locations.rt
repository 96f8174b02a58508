//! Registers and other locations (DWARF 5, 2.5.1.2, 2.5.1.7 and 2.6.1).

ghost use Rattle.std.specs.Prelude.{◌≡◌, IfOk, IfErr, IfSome, Err};
ghost use Rattle.dw_read.specs.Reading.{left};
ghost use Rattle.dw_read.specs.Took.{Took, option_of};
ghost use Rattle.dw_sources.specs.OperationTable.{location_rows, locations};
ghost use Rattle.dw_sources.specs.OperationTable.{piece_read, wasm_read};
ghost use Rattle.dw_sources.specs.OperationViews.{operation_of, HoldsParts};
ghost use Rattle.dw_sources.specs.Tries.{tried};

use crate::operands::{read_block, read_register, read_uleb32};
use crate::operation::Operation;
use crate::plain::number_from;
use dw_base::constants::{
    DW_OP_GNU_entry_value, DW_OP_WASM_location, DW_OP_bit_piece, DW_OP_breg0, DW_OP_bregx,
    DW_OP_entry_value, DW_OP_fbreg, DW_OP_implicit_value, DW_OP_piece, DW_OP_regx,
};
use dw_base::{DwOp, Encoding, Register};
use dw_read::{Expression, ReadError, ReadResult, Reader};

/// Reads what stands behind a code of such an operation; None for every other code.
fn read_location_row<R: Reader>(
    input: &mut R,
    encoding: Encoding,
    opcode: DwOp,
) -> ReadResult<Option<Operation<R>>>
    ensures ok { IfOk result (λ o. Took _
        (tried (location_rows (R.reading input.old).is_big encoding opcode.0))
        (R.reading input.old) (R.reading input.new) (option_of (operation_of R.reading) o)) }
    ensures parts { IfOk result (λ o. IfSome o (HoldsParts R.reading (R.reading input.old))) }
    ensures err { IfErr result (λ e.
        tried (location_rows (R.reading input.old).is_big encoding opcode.0)
        (left (R.reading input.old)) ≡ Err e) }
{
    match opcode {
        DW_OP_regx => Ok(Some(Operation::Register(read_register(input)?))),
        DW_OP_fbreg => Ok(Some(Operation::FrameOffset(input.read_sleb128()?))),
        DW_OP_bregx => Ok(Some(Operation::RegisterOffset(
            read_register(input)?,
            input.read_sleb128()?,
        ))),
        DW_OP_piece => Ok(Some(read_piece(input)?)),
        DW_OP_bit_piece => Ok(Some(Operation::BitPiece {
            size_in_bits: input.read_uleb128()?,
            bit_offset: input.read_uleb128()?,
        })),
        DW_OP_implicit_value => Ok(Some(Operation::ImplicitValue(read_block(input)?))),
        DW_OP_entry_value | DW_OP_GNU_entry_value => Ok(Some(Operation::EntryValue(Expression(
            read_block(input)?,
        )))),
        DW_OP_WASM_location => Ok(Some(read_wasm(input)?)),
        _ => Ok(None),
    }
}

/// Reads what stands behind a code of a location, the 32 codes with a register in them, too.
pub(crate) fn read_location<R: Reader>(
    input: &mut R,
    encoding: Encoding,
    opcode: DwOp,
) -> ReadResult<Option<Operation<R>>>
    ensures ok { IfOk result (λ o. Took _
        (tried (locations (R.reading input.old).is_big encoding opcode.0))
        (R.reading input.old) (R.reading input.new) (option_of (operation_of R.reading) o)) }
    ensures parts { IfOk result (λ o. IfSome o (HoldsParts R.reading (R.reading input.old))) }
    ensures err { IfErr result (λ e.
        tried (locations (R.reading input.old).is_big encoding opcode.0)
        (left (R.reading input.old)) ≡ Err e) }
{
    if let Some(number) = number_from(DW_OP_breg0, opcode) {
        let offset = input.read_sleb128()?;
        let register = Register(number as u16);
        return Ok(Some(Operation::RegisterOffset(register, offset)));
    }
    let operation = read_location_row(input, encoding, opcode)?;
    Ok(operation)
}

/// Reads the size of a piece, whose bits are a number of 64 bits, too.
fn read_piece<R: Reader>(input: &mut R) -> ReadResult<Operation<R>>
    ensures ok { IfOk result (λ o. Took _ piece_read
        (R.reading input.old) (R.reading input.new) (operation_of R.reading o)) }
    ensures parts { IfOk result (HoldsParts R.reading (R.reading input.old)) }
    ensures err { IfErr result (λ e. piece_read (left (R.reading input.old)) ≡ Err e) }
{
    let size_in_bytes = input.read_uleb128()?;
    if size_in_bytes > u64::MAX / 8 {
        return Err(ReadError::InvalidPiece);
    }
    Ok(Operation::Piece { size_in_bytes })
}

/// Reads what a location of WebAssembly is in, and its index.
fn read_wasm<R: Reader>(input: &mut R) -> ReadResult<Operation<R>>
    ensures ok { IfOk result (λ o. Took _ (wasm_read (R.reading input.old).is_big)
        (R.reading input.old) (R.reading input.new) (operation_of R.reading o)) }
    ensures parts { IfOk result (HoldsParts R.reading (R.reading input.old)) }
    ensures err { IfErr result (λ e. wasm_read (R.reading input.old).is_big
        (left (R.reading input.old)) ≡ Err e) }
{
    let kind = input.read_u8()?;
    match kind {
        0 => Ok(Operation::WasmLocal(read_uleb32(input)?)),
        1 => Ok(Operation::WasmGlobal(read_uleb32(input)?)),
        2 => Ok(Operation::WasmStack(read_uleb32(input)?)),
        3 => Ok(Operation::WasmGlobal(input.read_u32()?)),
        _ => Err(ReadError::InvalidExpression(DW_OP_WASM_location)),
    }
}
