//! Operations without operands (DWARF 5, 2.5 and 2.6.1).

ghost use Rattle.std.specs.Prelude.{◌≡◌, ◌-◌, IfSome, IfNone, true, false};
ghost use Rattle.dw_read.specs.Reading.{Reading};
ghost use Rattle.dw_read.specs.Took.{option_of};
ghost use Rattle.dw_sources.specs.OperationTable.{plain_of, is_from, is_simple};
ghost use Rattle.dw_sources.specs.OperationViews.{operation_of, HoldsParts};

use crate::operation::Operation;
use dw_base::constants::*;
use dw_base::{DwOp, Register};
use dw_read::Reader;

/// The operation of a code that has no operands; None for every other code.
pub(crate) fn plain_operation<R: Reader>(opcode: DwOp) -> Option<Operation<R>>
    ensures is { option_of (operation_of R.reading) result ≡ plain_of opcode.0 }
    ensures parts { (old : Reading) → IfSome result (HoldsParts R.reading old) }
{
    if let Some(number) = number_from(DW_OP_lit0, opcode) {
        return Some(Operation::UnsignedConstant(number as u64));
    }
    if let Some(number) = number_from(DW_OP_reg0, opcode) {
        return Some(Operation::Register(Register(number as u16)));
    }
    if is_simple(opcode) {
        return Some(Operation::Simple(opcode));
    }
    match opcode {
        DW_OP_deref => Some(Operation::Deref { space: false }),
        DW_OP_xderef => Some(Operation::Deref { space: true }),
        DW_OP_dup => Some(Operation::Pick(0)),
        DW_OP_over => Some(Operation::Pick(1)),
        _ => None,
    }
}

/// The number in a code that is one of the 32 from a first one on.
pub(crate) fn number_from(first: DwOp, opcode: DwOp) -> Option<u8>
    ensures some { IfSome result (λ n. n ≡ opcode.0 - first.0) }
    ensures inside { IfSome result (λ _. is_from first opcode.0 ≡ true) }
    ensures none { IfNone result (is_from first opcode.0 ≡ false) }
{
    if opcode.0 < first.0 {
        return None;
    }
    let number = opcode.0 - first.0;
    if number >= 32 {
        return None;
    }
    Some(number)
}

/// Whether a code alone is an operation that is kept by its code.
fn is_simple(opcode: DwOp) -> bool
    ensures { result ≡ is_simple opcode.0 }
{
    match opcode {
        DW_OP_drop | DW_OP_swap | DW_OP_rot => true,
        DW_OP_abs | DW_OP_and | DW_OP_div | DW_OP_minus | DW_OP_mod | DW_OP_mul => true,
        DW_OP_neg | DW_OP_not | DW_OP_or | DW_OP_plus => true,
        DW_OP_shl | DW_OP_shr | DW_OP_shra | DW_OP_xor => true,
        DW_OP_eq | DW_OP_ge | DW_OP_gt | DW_OP_le | DW_OP_lt | DW_OP_ne => true,
        DW_OP_nop | DW_OP_push_object_address | DW_OP_form_tls_address => true,
        DW_OP_call_frame_cfa | DW_OP_stack_value => true,
        DW_OP_GNU_push_tls_address | DW_OP_GNU_uninit => true,
        _ => false,
    }
}
