//! Reads an operation: its code, and what stands behind it (DWARF 5, 7.7.1).

ghost use Rattle.std.specs.Prelude.{◌≡◌, ◌<◌, IfOk, IfErr, OnOk, Err};
ghost use Rattle.dw_read.specs.Reading.{left};
ghost use Rattle.dw_read.specs.Took.{Took};
ghost use Rattle.dw_sources.specs.OperationTable.{behind, operation_read};
ghost use Rattle.dw_sources.specs.OperationViews.{operation_of, HoldsParts};

use crate::literals::read_literal;
use crate::locations::read_location;
use crate::named_entries::read_of_entry;
use crate::operation::Operation;
use crate::plain::plain_operation;
use crate::stack::read_on_stack;
use crate::typed::read_typed;
use dw_base::{DwOp, Encoding};
use dw_read::{ReadError, ReadResult, Reader};

/// Reads an operation, and passes it.
pub(crate) fn read_operation<R: Reader>(
    input: &mut R,
    encoding: Encoding,
) -> ReadResult<Operation<R>>
    ensures ok { IfOk result (λ o. Took _ (operation_read (R.reading input.old).is_big encoding)
        (R.reading input.old) (R.reading input.new) (operation_of R.reading o)) }
    ensures parts { IfOk result (HoldsParts R.reading (R.reading input.old)) }
    ensures progress { OnOk result
        ((R.reading input.old).place < (R.reading input.new).place) }
    ensures err { IfErr result (λ e. operation_read (R.reading input.old).is_big encoding
        (left (R.reading input.old)) ≡ Err e) }
{
    let code = input.read_u8()?;
    let operation = read_behind(input, encoding, DwOp(code))?;
    Ok(operation)
}

/// Reads what stands behind a code.
fn read_behind<R: Reader>(
    input: &mut R,
    encoding: Encoding,
    opcode: DwOp,
) -> ReadResult<Operation<R>>
    ensures ok { IfOk result (λ o. Took _ (behind (R.reading input.old).is_big encoding opcode.0)
        (R.reading input.old) (R.reading input.new) (operation_of R.reading o)) }
    ensures parts { IfOk result (HoldsParts R.reading (R.reading input.old)) }
    ensures err { IfErr result (λ e. behind (R.reading input.old).is_big encoding opcode.0
        (left (R.reading input.old)) ≡ Err e) }
{
    if let Some(operation) = plain_operation(opcode) {
        return Ok(operation);
    }
    if let Some(operation) = read_literal(input, encoding, opcode)? {
        return Ok(operation);
    }
    if let Some(operation) = read_on_stack(input, encoding, opcode)? {
        return Ok(operation);
    }
    if let Some(operation) = read_of_entry(input, encoding, opcode)? {
        return Ok(operation);
    }
    if let Some(operation) = read_typed(input, encoding, opcode)? {
        return Ok(operation);
    }
    if let Some(operation) = read_location(input, encoding, opcode)? {
        return Ok(operation);
    }
    Err(ReadError::InvalidExpression(opcode))
}
