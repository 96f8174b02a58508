//! Copies of expressions.

ghost use Rattle.std.specs.Prelude.{◌≡◌, IfOk, IfErr, IsTrue};
ghost use Rattle.dw_base.specs.declared.error.Error.TheVariants.{NoMemory};
ghost use Rattle.dw_expr.specs.Views.{node_of, nodes_in, owns_nothing};

use super::{Expression, Operation};
use dw_base::Result;
use std::alloc::{AllocError, Global};
use std::result;

impl Expression {
    /// A second expression of the same operations.
    pub fn try_clone(&self) -> Result<Expression>
        ensures ok { IfOk result (λ e. e ≡ self.now) }
        ensures memory { IfErr result (λ e. e ≡ NoMemory) }
    {
        Ok(self.clone()?)
    }
}

impl Clone for Expression {
    ghost is_clone = { λ a b. b ≡ a };

    fn clone(&self) -> result::Result<Expression, AllocError> {
        let alloc = *self.operations.allocator();
        let operations = copy_operations(alloc, self.operations.as_slice())?;
        Ok(Expression { operations })
    }
}

#[cycle(copy)]
fn copy_operations(
    alloc: Global,
    operations: &[Operation],
) -> result::Result<Vec<Operation>, AllocError>
    ensures { IfOk result (λ v. nodes_in v.items ≡ nodes_in operations.now) }
{
    let mut copies = Vec::with_capacity(alloc, operations.len())?;
    for operation in operations {
        let copy = copy_operation(alloc, operation)?;
        copies.push(copy)?;
    }
    Ok(copies)
}

#[cycle(copy)]
fn copy_operation(alloc: Global, operation: &Operation) -> result::Result<Operation, AllocError>
    ensures { IfOk result (λ o. node_of o ≡ node_of operation.now) }
{
    match operation {
        Operation::Raw(bytecode) => Ok(Operation::Raw(bytecode.clone()?)),
        Operation::ConstantType(base, value) => Ok(Operation::ConstantType(*base, value.clone()?)),
        Operation::ImplicitValue(bytes) => Ok(Operation::ImplicitValue(bytes.clone()?)),
        Operation::EntryValue(expression) => {
            let operations = copy_operations(alloc, expression.operations.as_slice())?;
            Ok(Operation::EntryValue(Expression { operations }))
        }
        _ => Ok(copy_values(operation)),
    }
}

/// A copy of an operation that owns neither bytes nor an expression.
fn copy_values(operation: &Operation) -> Operation
    requires { IsTrue (owns_nothing operation.now) }
    ensures { result ≡ operation.now }
{
    match operation {
        Operation::Simple(opcode) => Operation::Simple(*opcode),
        Operation::Address(address) => Operation::Address(*address),
        Operation::UnsignedConstant(value) => Operation::UnsignedConstant(*value),
        Operation::SignedConstant(value) => Operation::SignedConstant(*value),
        Operation::FrameOffset(offset) => Operation::FrameOffset(*offset),
        Operation::RegisterOffset(register, offset) => Operation::RegisterOffset(
            *register, *offset,
        ),
        Operation::RegisterType(register, base) => Operation::RegisterType(*register, *base),
        Operation::Pick(index) => Operation::Pick(*index),
        Operation::Deref { space } => Operation::Deref { space: *space },
        Operation::DerefSize { space, size } => Operation::DerefSize {
            space: *space,
            size: *size,
        },
        Operation::DerefType { space, size, base } => Operation::DerefType {
            space: *space,
            size: *size,
            base: *base,
        },
        Operation::PlusConstant(value) => Operation::PlusConstant(*value),
        Operation::Skip(target) => Operation::Skip(*target),
        Operation::Branch(target) => Operation::Branch(*target),
        Operation::Call(entry) => Operation::Call(*entry),
        Operation::CallRef(entry) => Operation::CallRef(*entry),
        Operation::VariableValue(entry) => Operation::VariableValue(*entry),
        Operation::Convert(base) => Operation::Convert(*base),
        Operation::Reinterpret(base) => Operation::Reinterpret(*base),
        Operation::Register(register) => Operation::Register(*register),
        Operation::ImplicitPointer { entry, byte_offset } => Operation::ImplicitPointer {
            entry: *entry,
            byte_offset: *byte_offset,
        },
        Operation::Piece { size_in_bytes } => Operation::Piece {
            size_in_bytes: *size_in_bytes,
        },
        Operation::BitPiece {
            size_in_bits,
            bit_offset,
        } => Operation::BitPiece {
            size_in_bits: *size_in_bits,
            bit_offset: *bit_offset,
        },
        Operation::ParameterRef(entry) => Operation::ParameterRef(*entry),
        Operation::WasmLocal(index) => Operation::WasmLocal(*index),
        Operation::WasmGlobal(index) => Operation::WasmGlobal(*index),
        Operation::WasmStack(index) => Operation::WasmStack(*index),
        Operation::Raw(_)
        | Operation::ConstantType(..)
        | Operation::ImplicitValue(_)
        | Operation::EntryValue(_) => unreachable!(),
    }
}
