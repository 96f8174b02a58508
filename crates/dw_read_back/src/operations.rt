//! Operations of expressions that are written are read as what they were (DWARF 5, 2.5).

ghost use Rattle.std.specs.Prelude.{◌≡◌, IsTrue};
ghost use Rattle.std.specs.Option.{is_some};
ghost use Rattle.dw_expr.specs.Views.{node_of};
ghost use Rattle.dw_read_back.specs.ReadAs.{is_within, code_as, is_read};
ghost use Rattle.dw_read_back.specs.ReadBack.{HaveOwnWidths, ReadsBack, OperationsReadBack, ExpressionsReadBack, NestedReadBack, LongPiecesAreUnread};

use dw_base::constants::*;
use dw_base::{DwOp, Register};
use dw_expr::Operation;

/// Does nothing: its clauses are laws. The bytes of an operation are read as it, whatever follows
/// them, in each byte order, version, format and address size, and those of an expression as its
/// operations to the end. Set apart are raw bytes, a code that isn't an operation by itself, and
/// a piece of 2^61 bytes or more, which is not read at all.
pub fn operations_read_back()
    ensures operations { OperationsReadBack }
    ensures expressions { ExpressionsReadBack }
    ensures nested { NestedReadBack }
    ensures unread { LongPiecesAreUnread }
{}

/// Whether the law holds of an operation: it is none of those that are set apart. Its numbers have
/// the widths for which the law asks.
pub fn is_read_back(operation: &Operation) -> bool
    ensures is { result ≡ is_read (node_of operation.now) }
    ensures law { IsTrue result → ReadsBack (node_of operation.now) }
    ensures widths { HaveOwnWidths (node_of operation.now) }
{
    operations_read_back();
    look_at_numbers(operation);
    match operation {
        Operation::Raw(_) => false,
        Operation::Simple(code) => is_alone(*code),
        Operation::Piece { size_in_bytes } => *size_in_bytes < 1 << 61,
        _ => true,
    }
}

/// Looks at each number of an operation, for what its type says of it.
fn look_at_numbers(operation: &Operation)
    ensures { HaveOwnWidths (node_of operation.now) }
{
    match operation {
        Operation::UnsignedConstant(number) | Operation::PlusConstant(number) => {
            let _number = *number;
        }
        Operation::SignedConstant(offset) | Operation::FrameOffset(offset) => {
            let _offset = *offset;
        }
        Operation::RegisterOffset(Register(number), offset) => {
            let _number = *number;
            let _offset = *offset;
        }
        Operation::RegisterType(Register(number), _) | Operation::Register(Register(number)) => {
            let _number = *number;
        }
        Operation::ImplicitValue(bytes) => {
            let _length = bytes.len();
        }
        Operation::ImplicitPointer { byte_offset, .. } => {
            let _offset = *byte_offset;
        }
        Operation::BitPiece {
            size_in_bits,
            bit_offset,
        } => {
            let _size = *size_in_bits;
            let _offset = *bit_offset;
        }
        Operation::WasmLocal(index) | Operation::WasmGlobal(index) => {
            let _index = *index;
        }
        Operation::WasmStack(index) => {
            let _index = *index;
        }
        _ => {}
    }
}

/// Whether a code is an operation by itself.
fn is_alone(code: DwOp) -> bool
    ensures { result ≡ is_some (code_as code.0) }
{
    match code {
        DW_OP_dup | DW_OP_over | DW_OP_deref | DW_OP_xderef => true,
        DW_OP_drop | DW_OP_swap | DW_OP_rot => true,
        DW_OP_abs | DW_OP_and | DW_OP_div | DW_OP_minus | DW_OP_mod | DW_OP_mul => true,
        DW_OP_neg | DW_OP_not | DW_OP_or | DW_OP_plus => true,
        DW_OP_shl | DW_OP_shr | DW_OP_shra | DW_OP_xor => true,
        DW_OP_eq | DW_OP_ge | DW_OP_gt | DW_OP_le | DW_OP_lt | DW_OP_ne => true,
        DW_OP_nop | DW_OP_push_object_address | DW_OP_form_tls_address => true,
        DW_OP_call_frame_cfa | DW_OP_stack_value => true,
        DW_OP_GNU_push_tls_address | DW_OP_GNU_uninit => true,
        _ => has_number(DW_OP_lit0, code) || has_number(DW_OP_reg0, code),
    }
}

/// Whether a code is one of the 32 from a first one on.
fn has_number(first: DwOp, code: DwOp) -> bool
    ensures { result ≡ is_within first code.0 }
{
    first.0 <= code.0 && code.0 - first.0 < 32
}
