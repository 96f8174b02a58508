//! The calls that add operations, six groups of six, and how what each adds is read.

use crate::entries::{ENTRY, REFERENCE};
use crate::operation_tests::Seen;
use dw_base::constants::*;
use dw_base::{Address, DwOp, Register, Result};
use dw_expr::{Expression, Operation};
use dw_writer::Bytes;
use std::alloc::Global;

/// How many calls there are.
pub(crate) const CALLS: usize = 36;

/// How the operation of each call is read.
const READ: [Seen; CALLS] = [
    // Memory.
    (DW_OP_deref, 0, 0, 0),
    (DW_OP_xderef, 0, 0, 0),
    (DW_OP_deref_size, 2, 0, 0),
    (DW_OP_xderef_size, 2, 0, 0),
    (DW_OP_deref_type, 4, 2, 0),
    (DW_OP_xderef_type, 4, 2, 0),
    // The stack.
    (DW_OP_pick, 0, 0, 0),
    (DW_OP_pick, 1, 0, 0),
    (DW_OP_pick, 2, 0, 0),
    (DW_OP_plus_uconst, 23, 0, 0),
    (DW_OP_constu, 23, 0, 0),
    (DW_OP_consts, 0, 0, -23),
    // Registers.
    (DW_OP_regx, 23, 0, 0),
    (DW_OP_regx, 123, 0, 0),
    (DW_OP_bregx, 23, 0, 34),
    (DW_OP_bregx, 123, 0, 34),
    (DW_OP_regval_type, 4, 23, 0),
    (DW_OP_fbreg, 0, 0, 34),
    // Entries.
    (DW_OP_call4, 4, 0, 0),
    (DW_OP_call_ref, 4, 0, 0),
    (DW_OP_GNU_variable_value, 4, 0, 0),
    (DW_OP_implicit_pointer, 4, 0, 23),
    (DW_OP_GNU_parameter_ref, 4, 0, 0),
    (DW_OP_const_type, 4, 23, 0),
    // Conversions and pieces.
    (DW_OP_convert, 0, 0, 0),
    (DW_OP_convert, 4, 0, 0),
    (DW_OP_reinterpret, 0, 0, 0),
    (DW_OP_reinterpret, 4, 0, 0),
    (DW_OP_piece, 23, 0, 0),
    (DW_OP_bit_piece, 23, 34, 0),
    // Values, of which the second is that of register 23 on entry.
    (DW_OP_addr, 23, 0, 0),
    (DW_OP_implicit_value, 0, 23, 0),
    (DW_OP_entry_value, 0, 0x67, 0),
    (DW_OP_WASM_location, 0, 1000, 0),
    (DW_OP_WASM_location, 1, 1000, 0),
    (DW_OP_WASM_location, 2, 1000, 0),
];

/// They, of which no other proof sees more.
pub(crate) fn read() -> &'static [Seen] {
    &READ
}

/// Operations without operands, which are added by their codes and read as these.
const SIMPLE: [DwOp; 29] = [
    DW_OP_drop,
    DW_OP_swap,
    DW_OP_rot,
    DW_OP_abs,
    DW_OP_and,
    DW_OP_div,
    DW_OP_minus,
    DW_OP_mod,
    DW_OP_mul,
    DW_OP_neg,
    DW_OP_not,
    DW_OP_or,
    DW_OP_plus,
    DW_OP_shl,
    DW_OP_shr,
    DW_OP_shra,
    DW_OP_xor,
    DW_OP_eq,
    DW_OP_ge,
    DW_OP_gt,
    DW_OP_le,
    DW_OP_lt,
    DW_OP_ne,
    DW_OP_nop,
    DW_OP_push_object_address,
    DW_OP_form_tls_address,
    DW_OP_call_frame_cfa,
    DW_OP_stack_value,
    DW_OP_GNU_uninit,
];

/// They, of which no other proof sees more.
pub(crate) fn simple() -> &'static [DwOp] {
    &SIMPLE
}

fn add_memory(x: &mut Expression, number: usize) -> Result<()> {
    match number {
        0 => x.op_deref(),
        1 => x.op_xderef(),
        2 => x.op_deref_size(2),
        3 => x.op_xderef_size(2),
        4 => x.op_deref_type(2, ENTRY),
        _ => x.op_xderef_type(2, ENTRY),
    }
}

fn add_stack(x: &mut Expression, number: usize) -> Result<()> {
    match number {
        0 => x.op_pick(0),
        1 => x.op_pick(1),
        2 => x.op_pick(2),
        3 => x.op_plus_uconst(23),
        4 => x.op_constu(23),
        _ => x.op_consts(-23),
    }
}

fn add_register(x: &mut Expression, number: usize) -> Result<()> {
    match number {
        0 => x.op_reg(Register(23)),
        1 => x.op_reg(Register(123)),
        2 => x.op_breg(Register(23), 34),
        3 => x.op_breg(Register(123), 34),
        4 => x.op_regval_type(Register(23), ENTRY),
        _ => x.op_fbreg(34),
    }
}

fn add_entry(alloc: Global, x: &mut Expression, number: usize) -> Result<()> {
    match number {
        0 => x.op_call(ENTRY),
        1 => x.op_call_ref(REFERENCE),
        2 => x.op_variable_value(REFERENCE),
        3 => x.op_implicit_pointer(REFERENCE, 23),
        4 => x.op_gnu_parameter_ref(ENTRY),
        _ => x.op_const_type(ENTRY, Bytes::new(alloc, &[23])?),
    }
}

fn add_piece(x: &mut Expression, number: usize) -> Result<()> {
    match number {
        0 => x.op_convert(None),
        1 => x.op_convert(Some(ENTRY)),
        2 => x.op_reinterpret(None),
        3 => x.op_reinterpret(Some(ENTRY)),
        4 => x.op_piece(23),
        _ => x.op_bit_piece(23, 34),
    }
}

/// An expression of register 23.
fn inner(alloc: Global) -> Result<Expression> {
    let operations = vec![in alloc; Operation::Register(Register(23))]?;
    Ok(Expression::from_operations(alloc, operations))
}

fn add_value(alloc: Global, x: &mut Expression, number: usize) -> Result<()> {
    match number {
        0 => x.op_addr(Address::Constant(23)),
        1 => x.op_implicit_value(Bytes::new(alloc, &[23])?),
        2 => x.op_entry_value(inner(alloc)?),
        3 => x.op_wasm_local(1000),
        4 => x.op_wasm_global(1000),
        _ => x.op_wasm_stack(1000),
    }
}

/// Adds an operation by the call of this number.
pub(crate) fn add(alloc: Global, x: &mut Expression, number: usize) -> Result<()> {
    let within = number % 6;
    match number / 6 {
        0 => add_memory(x, within),
        1 => add_stack(x, within),
        2 => add_register(x, within),
        3 => add_entry(alloc, x, within),
        4 => add_piece(x, within),
        _ => add_value(alloc, x, within),
    }
}
