//! Operations that are built by calls, written, read and converted back, in every version, format,
//! size of addresses and order of bytes (DWARF 5, 2.5 and 7.7.1).

use crate::calls::{self, CALLS, add};
use crate::entries::{Evens, fill, moved};
use crate::layouts::{LAYOUTS, Layout, Slice, numbered, reader};
use dw_base::constants::*;
use dw_base::{DwOp, Error, Result, RunTimeEndian};
use dw_convert::expression;
use dw_expr::Expression;
use dw_read::{Expression as ReadExpression, ReadResult, Reader};
use dw_read_units::UnitRef;
use dw_sources::{Operation, OperationIter};
use dw_writer::{Bytes, EndianVec, FixupList};
use std::alloc::Global;

/// The code by which version 5 spells an operation, its numbers, and its signed number. The place
/// of an entry is the first of the numbers, where 0 is the generic type, and of bytes it is the
/// last, where there is one byte.
pub(crate) type Seen = (DwOp, u64, u64, i64);

/// The only byte, or a number that isn't one.
fn only(bytes: &Slice<'_>) -> u64 {
    match bytes.to_slice() {
        [byte] => *byte as u64,
        _ => 0x100,
    }
}

fn seen(operation: &Operation<Slice<'_>>) -> Seen {
    match operation {
        Operation::Simple(code) => (*code, 0, 0, 0),
        Operation::Address(address) => (DW_OP_addr, *address, 0, 0),
        Operation::AddressIndex(index) => (DW_OP_addrx, *index, 0, 0),
        Operation::ConstantIndex(index) => (DW_OP_constx, *index, 0, 0),
        Operation::UnsignedConstant(number) => (DW_OP_constu, *number, 0, 0),
        Operation::SignedConstant(number) => (DW_OP_consts, 0, 0, *number),
        Operation::FrameOffset(offset) => (DW_OP_fbreg, 0, 0, *offset),
        Operation::RegisterOffset(register, offset) => {
            (DW_OP_bregx, register.0 as u64, 0, *offset)
        }
        Operation::Pick(index) => (DW_OP_pick, *index as u64, 0, 0),
        Operation::Deref { space: false } => (DW_OP_deref, 0, 0, 0),
        Operation::Deref { space: true } => (DW_OP_xderef, 0, 0, 0),
        Operation::DerefSize { space: false, size } => (DW_OP_deref_size, *size as u64, 0, 0),
        Operation::DerefSize { space: true, size } => (DW_OP_xderef_size, *size as u64, 0, 0),
        Operation::PlusConstant(number) => (DW_OP_plus_uconst, *number, 0, 0),
        Operation::Skip(distance) => (DW_OP_skip, 0, 0, *distance as i64),
        Operation::Branch(distance) => (DW_OP_bra, 0, 0, *distance as i64),
        Operation::EntryValue(inner) => (DW_OP_entry_value, 0, only(&inner.0), 0),
        Operation::Register(register) => (DW_OP_regx, register.0 as u64, 0, 0),
        Operation::ImplicitValue(bytes) => (DW_OP_implicit_value, 0, only(bytes), 0),
        Operation::Piece { size_in_bytes } => (DW_OP_piece, *size_in_bytes, 0, 0),
        Operation::BitPiece {
            size_in_bits,
            bit_offset,
        } => (DW_OP_bit_piece, *size_in_bits, *bit_offset, 0),
        Operation::WasmLocal(index) => (DW_OP_WASM_location, 0, *index as u64, 0),
        Operation::WasmGlobal(index) => (DW_OP_WASM_location, 1, *index as u64, 0),
        Operation::WasmStack(index) => (DW_OP_WASM_location, 2, *index as u64, 0),
        _ => seen_entry(operation),
    }
}

/// An operation that names an entry.
fn seen_entry(operation: &Operation<Slice<'_>>) -> Seen {
    match operation {
        Operation::ConstantType(base, value) => (DW_OP_const_type, base.0 as u64, only(value), 0),
        Operation::RegisterType(register, base) => {
            (DW_OP_regval_type, base.0 as u64, register.0 as u64, 0)
        }
        Operation::DerefType { space, size, base } => {
            let code = if *space {
                DW_OP_xderef_type
            } else {
                DW_OP_deref_type
            };
            (code, base.0 as u64, *size as u64, 0)
        }
        Operation::Call(entry) => (DW_OP_call4, entry.0 as u64, 0, 0),
        Operation::CallRef(entry) => (DW_OP_call_ref, entry.0 as u64, 0, 0),
        Operation::VariableValue(entry) => (DW_OP_GNU_variable_value, entry.0 as u64, 0, 0),
        Operation::Convert(Some(base)) => (DW_OP_convert, base.0 as u64, 0, 0),
        Operation::Convert(None) => (DW_OP_convert, 0, 0, 0),
        Operation::Reinterpret(Some(base)) => (DW_OP_reinterpret, base.0 as u64, 0, 0),
        Operation::Reinterpret(None) => (DW_OP_reinterpret, 0, 0, 0),
        Operation::ImplicitPointer { entry, byte_offset } => {
            (DW_OP_implicit_pointer, entry.0 as u64, 0, *byte_offset)
        }
        Operation::ParameterRef(entry) => (DW_OP_GNU_parameter_ref, entry.0 as u64, 0, 0),
        _ => (DwOp(0), 0, 0, 0),
    }
}

/// The next operation.
fn next(operations: &mut OperationIter<Slice<'_>>) -> ReadResult<Option<Seen>> {
    match operations.next() {
        Ok(Some(operation)) => Ok(Some(seen(&operation))),
        Ok(None) => Ok(None),
        Err(error) => Err(error),
    }
}

fn add_all(alloc: Global, x: &mut Expression) -> Result<()> {
    for number in 0..CALLS {
        add(alloc, x, number)?;
    }
    Ok(())
}

fn add_simple(x: &mut Expression) -> Result<()> {
    for code in calls::simple() {
        x.op(*code)?;
    }
    Ok(())
}

/// Lets a branch lead to an operation or to the end.
fn lead(x: &mut Expression, branch: usize, target: usize) -> Result<()> {
    if !x.is_branch(branch) || target == branch || target > x.next_index() {
        return Err(Error::UnsetBranchTarget);
    }
    x.set_target(branch, target);
    Ok(())
}

/// Adds a branch to the first operation, and one over an operation to the end.
fn add_branches(x: &mut Expression) -> Result<()> {
    let branch = x.op_bra()?;
    let skip = x.op_skip()?;
    x.op(DW_OP_nop)?;
    let end = x.next_index();
    lead(x, branch, 0)?;
    lead(x, skip, end)
}

/// Adds every operation.
fn add_every(alloc: Global, x: &mut Expression) -> Result<()> {
    add_all(alloc, x)?;
    add_simple(x)?;
    add_branches(x)
}

/// Writes an expression, and fills the places of entries in.
fn write(
    alloc: Global,
    built: &Expression,
    layout: Layout,
    w: &mut EndianVec<RunTimeEndian>,
) -> Result<()> {
    let mut fixups = FixupList::new(alloc);
    match built.write(w, Some(&mut fixups), layout.encoding, Some(&Evens)) {
        Ok(()) => fill(&fixups, w),
        Err(error) => Err(error),
    }
}

/// Whether what the calls added is read next.
fn reads_calls(read: &mut OperationIter<Slice<'_>>) -> bool {
    for wanted in calls::read() {
        if next(read) != Ok(Some(*wanted)) {
            return false;
        }
    }
    true
}

/// Whether the operations without operands are read next.
fn reads_simple(read: &mut OperationIter<Slice<'_>>) -> bool {
    for code in calls::simple() {
        if next(read) != Ok(Some((*code, 0, 0, 0))) {
            return false;
        }
    }
    true
}

/// What is to be read behind them of so many bytes. The branch leads back to the first of them from
/// the place behind it, which 4 bytes follow: a skip of 3 over 1.
fn last_wanted(length: usize) -> [Option<Seen>; 4] {
    let length = (length % 0x4000) as i64;
    [
        Some((DW_OP_bra, 0, 0, 4 - length)),
        Some((DW_OP_skip, 0, 0, 1)),
        Some((DW_OP_nop, 0, 0, 0)),
        None,
    ]
}

/// Whether these are read next, where none is the end.
fn reads(read: &mut OperationIter<Slice<'_>>, operations: &[Option<Seen>]) -> bool {
    for wanted in operations {
        if next(read) != Ok(*wanted) {
            return false;
        }
    }
    true
}

/// Whether the bytes of the expression are read as its operations.
fn is_read(bytes: &[u8], layout: Layout) -> bool {
    let read = ReadExpression(reader(bytes, layout.endian));
    let mut read = OperationIter::new(read, layout.encoding);
    reads_calls(&mut read) && reads_simple(&mut read) && reads(&mut read, &last_wanted(bytes.len()))
}

/// Whether bytes become an expression.
fn becomes(alloc: Global, bytes: &[u8], layout: Layout, wanted: &Expression) -> bool {
    let read = ReadExpression(reader(bytes, layout.endian));
    let unit = None::<UnitRef<'_, Slice<'_>>>;
    match expression(alloc, read, layout.encoding, unit, &moved, &Evens) {
        Ok(found) => found == *wanted,
        Err(_) => false,
    }
}

/// Whether every operation is written and read, and whether they come back.
fn every_returns(alloc: Global, layout: Layout) -> bool {
    let mut built = Expression::new(alloc);
    let is_built = add_every(alloc, &mut built).is_ok();
    let mut w = EndianVec::new(alloc, layout.endian);
    is_built
        && write(alloc, &built, layout, &mut w).is_ok()
        && is_read(w.slice(), layout)
        && becomes(alloc, w.slice(), layout, &built)
}

/// Bytes that were given as they are spelled: `DW_OP_constu` 23.
const RAW: [u8; 2] = [0x10, 23];

fn raw(alloc: Global) -> Result<Expression> {
    Expression::raw(alloc, Bytes::new(alloc, &RAW)?)
}

/// Whether bytes that were given are written as they are.
fn is_raw(alloc: Global, layout: Layout) -> bool {
    let mut w = EndianVec::new(alloc, layout.endian);
    match raw(alloc) {
        Ok(built) => { write(alloc, &built, layout, &mut w).is_ok() && w.slice() == RAW.as_slice() }
        Err(_) => false,
    }
}

/// Whether they are read as the operation that they spell, alone.
fn is_constant(layout: Layout) -> bool {
    let read = ReadExpression(reader(&RAW, layout.endian));
    let mut read = OperationIter::new(read, layout.encoding);
    reads(&mut read, &[Some((DW_OP_constu, 23, 0, 0)), None])
}

/// Whether they become that operation.
fn is_spelled(alloc: Global, layout: Layout) -> bool {
    let mut wanted = Expression::new(alloc);
    wanted.op_constu(23).is_ok() && becomes(alloc, &RAW, layout, &wanted)
}

/// Whether operations by calls come back, and bytes that were given.
fn all_return(alloc: Global, layout: Layout) -> bool {
    every_returns(alloc, layout)
        && is_raw(alloc, layout)
        && is_constant(layout)
        && is_spelled(alloc, layout)
}

#[test]
fn operations_come_back(rt: HostRuntime) {
    for number in 0..LAYOUTS {
        assert!(rt; all_return(rt.alloc(), numbered(number)), "at {number}");
    }
}
