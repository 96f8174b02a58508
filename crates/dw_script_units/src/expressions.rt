//! Expressions of a line, in memory of their own.

ghost use Rattle.std.specs.Prelude.{◌≡◌, IfOk, OnOk};
ghost use Rattle.std.specs.Option.{option_map};
ghost use Rattle.dw_expr.specs.Views.{node_of};
ghost use Rattle.dw_script_units.specs.Expressions.{after_step, expression_of, no_nodes, node_of_operation, with_node};

use dw_base::UnitEntryId;
use dw_expr::{Expression, Operation};
use dw_script::{ExpressionFields, ExpressionStep, HexBytes, ScriptOperation};
use dw_writer::Bytes;
use std::alloc::{AllocError, Global};
use std::mem;

// The operations of the expressions that are open.
#[derive(Drop)]
struct OpenOperations {
    // Those of the innermost one.
    current: Vec<Operation>,
    // Those of the ones around it, the outermost first.
    around: Vec<Vec<Operation>>,
}

impl OpenOperations {
    ghost use Rattle.dw_script_units.specs.OpenOperations.{open_in};

    // One expression, without operations.
    fn new(alloc: Global) -> OpenOperations
        ensures { open_in result ≡ no_nodes }
    {
        OpenOperations {
            current: Vec::new(alloc),
            around: Vec::new(alloc),
        }
    }

    // Goes on with a step.
    fn take(&mut self, alloc: Global, step: ExpressionStep<'_>) -> Result<(), AllocError>
        ensures { OnOk result (open_in self.new ≡ after_step step.entry (open_in self.old)) }
    {
        match step {
            ExpressionStep::Operation(operation) => self.add(operation_of(alloc, operation)?),
            ExpressionStep::Open => self.open(alloc),
            ExpressionStep::Close => self.close(alloc),
        }
    }

    // Adds an operation to the innermost one.
    fn add(&mut self, operation: Operation) -> Result<(), AllocError>
        ensures { OnOk result
            (open_in self.new ≡ with_node (node_of operation) (open_in self.old)) }
    {
        self.current.push(operation)?;
        Ok(())
    }

    // Opens one within.
    fn open(&mut self, alloc: Global) -> Result<(), AllocError>
        ensures { OnOk result
            (open_in self.new ≡ after_step ExpressionStep.Open (open_in self.old)) }
    {
        let outer = mem::replace(&mut self.current, Vec::new(alloc));
        self.around.push(outer)?;
        Ok(())
    }

    // Closes the innermost one, unless it is the whole.
    fn close(&mut self, alloc: Global) -> Result<(), AllocError>
        ensures { OnOk result
            (open_in self.new ≡ after_step ExpressionStep.Close (open_in self.old)) }
    {
        let Some(outer) = self.around.pop() else {
            return Ok(());
        };
        let inner = mem::replace(&mut self.current, outer);
        self.add(Operation::EntryValue(Expression::from_operations(alloc, inner)))
    }
}

/// The expression of a line.
pub(crate) fn owned_expression(
    alloc: Global,
    fields: &ExpressionFields<'_>,
) -> Result<Expression, AllocError>
    ensures { IfOk result (λ x. x ≡ expression_of fields.now) }
{
    let mut open = OpenOperations::new(alloc);
    for step in fields.steps() {
        open.take(alloc, step)?;
    }
    Ok(Expression::from_operations(alloc, open.current))
}

// The operation, in memory of its own.
fn operation_of(alloc: Global, operation: ScriptOperation<'_>) -> Result<Operation, AllocError>
    ensures { IfOk result (λ o. node_of o ≡ node_of_operation operation.entry) }
{
    let owned = match operation {
        ScriptOperation::Raw(bytes) => Operation::Raw(owned_bytes(alloc, &bytes)?),
        ScriptOperation::Simple(code) => Operation::Simple(code),
        ScriptOperation::Address(address) => Operation::Address(address),
        ScriptOperation::UnsignedConstant(number) => Operation::UnsignedConstant(number),
        ScriptOperation::SignedConstant(number) => Operation::SignedConstant(number),
        ScriptOperation::ConstantType { base, value } => {
            Operation::ConstantType(UnitEntryId::new(base), owned_bytes(alloc, &value)?)
        }
        ScriptOperation::FrameOffset(offset) => Operation::FrameOffset(offset),
        ScriptOperation::RegisterOffset { register, offset } => {
            Operation::RegisterOffset(register, offset)
        }
        ScriptOperation::RegisterType { register, base } => {
            Operation::RegisterType(register, UnitEntryId::new(base))
        }
        ScriptOperation::Pick(index) => Operation::Pick(index),
        ScriptOperation::Deref { space } => Operation::Deref { space },
        ScriptOperation::DerefSize { space, size } => Operation::DerefSize { space, size },
        ScriptOperation::DerefType { space, size, base } => {
            Operation::DerefType {
                space,
                size,
                base: UnitEntryId::new(base),
            }
        }
        ScriptOperation::PlusConstant(number) => Operation::PlusConstant(number),
        ScriptOperation::Skip(target) => Operation::Skip(target),
        ScriptOperation::Branch(target) => Operation::Branch(target),
        ScriptOperation::Call(entry) => Operation::Call(UnitEntryId::new(entry)),
        ScriptOperation::CallRef(entry) => Operation::CallRef(entry),
        ScriptOperation::VariableValue(entry) => Operation::VariableValue(entry),
        ScriptOperation::Convert(base) => Operation::Convert(base_of(base)),
        ScriptOperation::Reinterpret(base) => Operation::Reinterpret(base_of(base)),
        ScriptOperation::Register(register) => Operation::Register(register),
        ScriptOperation::ImplicitValue(bytes) => {
            Operation::ImplicitValue(owned_bytes(alloc, &bytes)?)
        }
        ScriptOperation::ImplicitPointer { entry, byte_offset } => {
            Operation::ImplicitPointer { entry, byte_offset }
        }
        ScriptOperation::Piece(size_in_bytes) => Operation::Piece { size_in_bytes },
        ScriptOperation::BitPiece {
            size_in_bits,
            bit_offset,
        } => {
            Operation::BitPiece {
                size_in_bits,
                bit_offset,
            }
        }
        ScriptOperation::ParameterRef(entry) => Operation::ParameterRef(UnitEntryId::new(entry)),
        ScriptOperation::WasmLocal(index) => Operation::WasmLocal(index),
        ScriptOperation::WasmGlobal(index) => Operation::WasmGlobal(index),
        ScriptOperation::WasmStack(index) => Operation::WasmStack(index),
    };
    Ok(owned)
}

// The entry of a base type, or none for the generic type.
fn base_of(base: Option<usize>) -> Option<UnitEntryId>
    ensures { result ≡ option_map (λ i. record { 0 = i }) base }
{
    match base {
        Some(entry) => Some(UnitEntryId::new(entry)),
        None => None,
    }
}

fn owned_bytes(alloc: Global, bytes: &HexBytes<'_>) -> Result<Bytes, AllocError>
    ensures { IfOk result (λ b. b ≡ bytes.now) }
{
    Ok(Bytes::from(bytes.decode(alloc)?))
}
