//! The calls that add operations as plain values, so that tables can hold them.

use dw_base::{Address, DebugInfoRef, DwOp, Error, Register, Result, UnitEntryId, UnitId};
use dw_expr::Expression;
use dw_writer::Bytes;
use std::alloc::Global;

/// A call that adds an operation; entries of the unit by their indices, registers by their numbers,
/// and a branch with the operation to which it leads.
#[derive(Clone, Copy)]
pub enum Call {
    Op(DwOp),
    Addr(Address),
    Constu(u64),
    Consts(i64),
    ConstType(usize, &'static [u8]),
    Fbreg(i64),
    Breg(u16, i64),
    RegvalType(u16, usize),
    Pick(u8),
    Deref,
    Xderef,
    DerefSize(u8),
    XderefSize(u8),
    DerefType(u8, usize),
    XderefType(u8, usize),
    PlusUconst(u64),
    Skip(Option<usize>),
    Bra(Option<usize>),
    Call(usize),
    CallRef(DebugInfoRef),
    VariableValue(DebugInfoRef),
    Convert(Option<usize>),
    Reinterpret(Option<usize>),
    Reg(u16),
    ImplicitValue(&'static [u8]),
    ImplicitPointer(DebugInfoRef, i64),
    Piece(u64),
    BitPiece(u64, u64),
    ParameterRef(usize),
    WasmLocal(u32),
    WasmGlobal(u32),
    WasmStack(u32),
}

/// The second entry of the third unit, by its place in the section.
pub const FAR: DebugInfoRef = DebugInfoRef::Entry(UnitId(2), UnitEntryId(1));

/// An entry of the unit.
fn entry(index: usize) -> UnitEntryId {
    UnitEntryId::new(index)
}

fn optional(index: Option<usize>) -> Option<UnitEntryId> {
    match index {
        Some(index) => Some(entry(index)),
        None => None,
    }
}

/// Makes a call.
fn make(alloc: Global, e: &mut Expression, call: Call) -> Result<()> {
    match call {
        Call::Op(opcode) => e.op(opcode),
        Call::Addr(address) => e.op_addr(address),
        Call::Constu(value) => e.op_constu(value),
        Call::Consts(value) => e.op_consts(value),
        Call::Fbreg(offset) => e.op_fbreg(offset),
        Call::Breg(register, offset) => e.op_breg(Register(register), offset),
        Call::Pick(index) => e.op_pick(index),
        Call::Deref => e.op_deref(),
        Call::Xderef => e.op_xderef(),
        Call::DerefSize(size) => e.op_deref_size(size),
        Call::XderefSize(size) => e.op_xderef_size(size),
        Call::PlusUconst(value) => e.op_plus_uconst(value),
        Call::Reg(register) => e.op_reg(Register(register)),
        Call::Piece(size_in_bytes) => e.op_piece(size_in_bytes),
        Call::BitPiece(size_in_bits, bit_offset) => e.op_bit_piece(size_in_bits, bit_offset),
        Call::WasmLocal(index) => e.op_wasm_local(index),
        Call::WasmGlobal(index) => e.op_wasm_global(index),
        Call::WasmStack(index) => e.op_wasm_stack(index),
        Call::ConstType(_, bytes) | Call::ImplicitValue(bytes) => {
            make_of_bytes(e, call, Bytes::new(alloc, bytes)?)
        }
        _ => make_of_place(e, call),
    }
}

/// Makes a call that takes bytes.
fn make_of_bytes(e: &mut Expression, call: Call, bytes: Bytes) -> Result<()> {
    match call {
        Call::ConstType(base, _) => e.op_const_type(entry(base), bytes),
        _ => e.op_implicit_value(bytes),
    }
}

/// Makes a call that names an entry, or adds a branch, which leads nowhere yet.
fn make_of_place(e: &mut Expression, call: Call) -> Result<()> {
    match call {
        Call::RegvalType(register, base) => e.op_regval_type(Register(register), entry(base)),
        Call::DerefType(size, base) => e.op_deref_type(size, entry(base)),
        Call::XderefType(size, base) => e.op_xderef_type(size, entry(base)),
        Call::Call(index) => e.op_call(entry(index)),
        Call::CallRef(entry) => e.op_call_ref(entry),
        Call::VariableValue(entry) => e.op_variable_value(entry),
        Call::Convert(base) => e.op_convert(optional(base)),
        Call::Reinterpret(base) => e.op_reinterpret(optional(base)),
        Call::ImplicitPointer(entry, byte_offset) => e.op_implicit_pointer(entry, byte_offset),
        Call::ParameterRef(index) => e.op_gnu_parameter_ref(entry(index)),
        Call::Skip(_) => is_next(e.next_index(), e.op_skip()),
        Call::Bra(_) => is_next(e.next_index(), e.op_bra()),
        _ => Err(Error::InvalidReference),
    }
}

/// Looks at the index that was answered of a branch.
fn is_next(index: usize, answer: Result<usize>) -> Result<()> {
    match answer {
        Ok(found) if found == index => Ok(()),
        Ok(_) => Err(Error::InvalidReference),
        Err(error) => Err(error),
    }
}

/// Makes calls.
fn make_all(alloc: Global, e: &mut Expression, calls: &[Call]) -> Result<()> {
    for call in calls {
        make(alloc, e, *call)?;
    }
    Ok(())
}

/// Sets the target of a branch, where there is one and the target is another operation.
pub fn lead(e: &mut Expression, branch: usize, target: Option<usize>) {
    let Some(target) = target else {
        return;
    };
    if e.is_branch(branch) && target != branch && target <= e.next_index() {
        e.set_target(branch, target);
    }
}

/// Sets the targets of all branches.
fn lead_all(e: &mut Expression, calls: &[Call]) {
    for (i, call) in calls.iter().enumerate() {
        match call {
            Call::Skip(target) | Call::Bra(target) => lead(e, i, *target),
            _ => {}
        }
    }
}

/// The expression that calls make.
pub fn expression_of(alloc: Global, calls: &[Call]) -> Result<Expression> {
    let mut expression = Expression::new(alloc);
    make_all(alloc, &mut expression, calls)?;
    lead_all(&mut expression, calls);
    Ok(expression)
}

/// An expression of one operation, which holds another expression.
pub fn hold(alloc: Global, inner: Expression) -> Result<Expression> {
    let mut outer = Expression::new(alloc);
    outer.op_entry_value(inner)?;
    Ok(outer)
}
