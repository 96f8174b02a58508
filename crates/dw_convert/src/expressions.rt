//! Expressions, with the expressions within them (DWARF 5, 2.5).

ghost use Rattle.std.specs.Prelude.{◌≡◌, ◌⊎◌, Ok, Err, IfOk, IfErr, IsFalse};
ghost use Rattle.std.specs.List.Sorted.{IsNonDecreasing};
ghost use Rattle.dw_expr.specs.Trees.{plain};
ghost use Rattle.dw_expr.specs.Views.{node_of};
ghost use Rattle.dw_read.specs.Reading.{left};
ghost use Rattle.dw_sources.specs.declared.operation.Operation.TheVariants.{EntryValue};
ghost use Rattle.dw_sources.specs.declared.convert_error.ConvertError.TheVariants.{NoMemory};
ghost use Rattle.dw_convert.specs.Expressions.{OutcomeWithin, ExpressionOutcome};
ghost use Rattle.dw_convert.specs.Listings.{StepOutcome, FlatOutcome, StaysAs, as_node, leads_on};
ghost use Rattle.dw_convert.specs.Lookups.{addresses_in};
ghost use Rattle.dw_convert.specs.Operations.{TypedConstant, same_code, deref};

use crate::address::{address_in, converted, indexed_in};
use crate::constant::copied;
use crate::listing::{Listing, Step, read_listing, target};
use crate::references::{ConvertDebugInfoRef, convert_base};
use dw_base::constants::{DW_OP_GNU_push_tls_address, DW_OP_form_tls_address};
use dw_base::{Address, DwOp, Encoding, UnitOffset};
use dw_expr::{Expression, Operation};
use dw_read::{Expression as ReadExpression, Reader};
use dw_read_units::UnitRef;
use dw_sources::{ConvertError, ConvertResult, Operation as ReadOperation};
use std::alloc::Global;

/// How many expressions may stand within each other, the outermost counted. Each of them takes the
/// machine's stack when it is converted, and what is built when it is written or dropped, so no
/// deeper one is built. In a program that LLVM builds, so many pass on a stack of 1 MB.
const MAX_DEPTH: usize = 512;

/// Converts an expression: each operation becomes the one of the same meaning. Addresses become
/// what `convert_address` answers for them, entries what `refs` knows of their places, and a branch
/// leads to an operation by its index.
///
/// Refused are an address without an answer (`InvalidAddress`), an index without a unit
/// (`UnsupportedOperation`), a branch that leads neither to the begin of an operation nor to the
/// end (`InvalidBranchTarget`), and what `refs` doesn't know. More than 512 expressions within each
/// other are `NoMemory`; up to 512 their depth is no cause of it.
///
/// ```
/// let address = |address| Some(Address::Constant(address));
/// let converted = expression(alloc, read, encoding, Some(unit), &address, &refs)?;
/// ```
pub fn expression<R: Reader, C: ConvertDebugInfoRef, F: Fn(u64) -> Option<Address>>(
    alloc: Global,
    expression: ReadExpression<R>,
    encoding: Encoding,
    unit: Option<UnitRef<'_, R>>,
    convert_address: &F,
    refs: &C,
) -> ConvertResult<Expression>
    requires { F.IsAlwaysCallable convert_address.now }
    ensures ok { IfOk result (λ x. ExpressionOutcome (F.post convert_address.now)
        (addresses_in R.reading unit.entry) (C.entries refs.now) (C.infos refs.now)
        (R.reading expression.0).is_big encoding (left (R.reading expression.0)) (Ok x)) }
    ensures err { IfErr result (λ e. (e ≡ NoMemory) ⊎ ExpressionOutcome
        (F.post convert_address.now) (addresses_in R.reading unit.entry) (C.entries refs.now)
        (C.infos refs.now) (R.reading expression.0).is_big encoding
        (left (R.reading expression.0)) (Err e)) }
{
    convert_within(
        alloc,
        expression,
        encoding,
        unit,
        convert_address,
        refs,
        MAX_DEPTH,
    )
}

/// Converts an expression in which it and others stand at most so deep.
#[cycle(nested)]
fn convert_within<R: Reader, C: ConvertDebugInfoRef, F: Fn(u64) -> Option<Address>>(
    alloc: Global,
    expression: ReadExpression<R>,
    encoding: Encoding,
    unit: Option<UnitRef<'_, R>>,
    convert_address: &F,
    refs: &C,
    depth: usize,
) -> ConvertResult<Expression>
    requires { F.IsAlwaysCallable convert_address.now }
    ensures ok { IfOk result (λ x. OutcomeWithin (F.post convert_address.now)
        (addresses_in R.reading unit.entry) (C.entries refs.now) (C.infos refs.now)
        (R.reading expression.0).is_big encoding depth (left (R.reading expression.0)) (Ok x)) }
    ensures err { IfErr result (λ e. (e ≡ NoMemory) ⊎ OutcomeWithin
        (F.post convert_address.now) (addresses_in R.reading unit.entry) (C.entries refs.now)
        (C.infos refs.now) (R.reading expression.0).is_big encoding depth
        (left (R.reading expression.0)) (Err e)) }
{
    if depth == 0 {
        return Err(ConvertError::NoMemory);
    }
    let listing = read_listing(alloc, expression, encoding)?;
    let mut operations = Vec::with_capacity(alloc, listing.steps.len())?;
    'steps: for step in &listing.steps {
        let operation = convert_operation(
            alloc,
            step,
            &listing,
            unit,
            convert_address,
            refs,
            depth - 1,
        )?;
        operations.push(operation)?;
    }
    Ok(Expression::from_operations(alloc, operations))
}

/// Converts an operation, with the expression within it where it has one.
#[cycle(nested)]
fn convert_operation<R: Reader, C: ConvertDebugInfoRef, F: Fn(u64) -> Option<Address>>(
    alloc: Global,
    step: &Step<R>,
    listing: &Listing<R>,
    unit: Option<UnitRef<'_, R>>,
    convert_address: &F,
    refs: &C,
    depth: usize,
) -> ConvertResult<Operation>
    requires callable { F.IsAlwaysCallable convert_address.now }
    requires rising { IsNonDecreasing listing.now.begins.items }
    ensures ok { IfOk result (λ o. StepOutcome R.reading (F.post convert_address.now)
        (addresses_in R.reading unit.entry) (C.entries refs.now) (C.infos refs.now) depth
        listing.now step.now (Ok (node_of o))) }
    ensures err { IfErr result (λ e. (e ≡ NoMemory) ⊎ StepOutcome R.reading
        (F.post convert_address.now) (addresses_in R.reading unit.entry) (C.entries refs.now)
        (C.infos refs.now) depth listing.now step.now (Err e)) }
{
    match &step.operation {
        ReadOperation::EntryValue(expression) => {
            let inner = ReadExpression(expression.0.duplicate());
            let encoding = listing.encoding;
            let inner = convert_within(alloc, inner, encoding, unit, convert_address, refs, depth)?;
            Ok(Operation::EntryValue(inner))
        }
        _ => convert_flat(alloc, step, listing, unit, convert_address, refs),
    }
}

/// Converts an operation without an expression within it, by the table of the operations that were
/// read. It is one match, since each of them has a row there. What it keeps on the stack stays out
/// of the frames of `convert_within`, which stand there once for each level.
#[inline(never)]
fn convert_flat<R: Reader, C: ConvertDebugInfoRef, F: Fn(u64) -> Option<Address>>(
    alloc: Global,
    step: &Step<R>,
    listing: &Listing<R>,
    unit: Option<UnitRef<'_, R>>,
    convert_address: &F,
    refs: &C,
) -> ConvertResult<Operation>
    requires callable { F.IsAlwaysCallable convert_address.now }
    requires rising { IsNonDecreasing listing.now.begins.items }
    requires flat { (x : _) → step.now.operation ≡ EntryValue x → ⊥ }
    ensures { (result ≡ Err NoMemory) ⊎ FlatOutcome R.reading (F.post convert_address.now)
        (addresses_in R.reading unit.entry) (C.entries refs.now) (C.infos refs.now) listing.now
        step.now result }
{
    match &step.operation {
        ReadOperation::Address(address) => {
            converted(*address, convert_address).map(Operation::Address)
        }
        ReadOperation::AddressIndex(index) => {
            indexed_in(unit, *index, convert_address).map(Operation::Address)
        }
        ReadOperation::ConstantIndex(index) => {
            address_in(unit, *index).map(Operation::UnsignedConstant)
        }
        ReadOperation::ConstantType(base, value) => constant_type(alloc, *base, value, refs),
        ReadOperation::RegisterType(register, base) => {
            let base = refs.convert_unit_ref(*base)?;
            Ok(Operation::RegisterType(*register, base))
        }
        ReadOperation::DerefType { space, size, base } => {
            let base = refs.convert_unit_ref(*base)?;
            Ok(Operation::DerefType {
                space: *space,
                size: *size,
                base,
            })
        }
        ReadOperation::Skip(distance) => {
            let target = target(&listing.begins, step.behind, *distance)?;
            Ok(Operation::Skip(Some(target)))
        }
        ReadOperation::Branch(distance) => {
            let target = target(&listing.begins, step.behind, *distance)?;
            Ok(Operation::Branch(Some(target)))
        }
        ReadOperation::Call(entry) => refs.convert_unit_ref(*entry).map(Operation::Call),
        ReadOperation::CallRef(entry) => {
            refs.convert_debug_info_ref(*entry).map(Operation::CallRef)
        }
        ReadOperation::VariableValue(entry) => {
            refs.convert_debug_info_ref(*entry)
                .map(Operation::VariableValue)
        }
        ReadOperation::Convert(base) => convert_base(*base, refs).map(Operation::Convert),
        ReadOperation::Reinterpret(base) => convert_base(*base, refs).map(Operation::Reinterpret),
        ReadOperation::ImplicitValue(bytes) => copied(alloc, bytes).map(Operation::ImplicitValue),
        ReadOperation::ImplicitPointer { entry, byte_offset } => {
            let entry = refs.convert_debug_info_ref(*entry)?;
            Ok(Operation::ImplicitPointer {
                entry,
                byte_offset: *byte_offset,
            })
        }
        ReadOperation::ParameterRef(entry) => {
            refs.convert_unit_ref(*entry).map(Operation::ParameterRef)
        }
        other => Ok(plain_operation(other, listing.encoding)),
    }
}

/// A constant of a type, which has a place in the unit.
fn constant_type<R: Reader, C: ConvertDebugInfoRef>(
    alloc: Global,
    base: UnitOffset,
    value: &R,
    refs: &C,
) -> ConvertResult<Operation>
    ensures { (result ≡ Err NoMemory) ⊎ TypedConstant (C.entries refs.now) base.0
        (left (R.reading value.now)) (as_node result) }
{
    let base = refs.convert_unit_ref(base)?;
    let value = copied(alloc, value)?;
    Ok(Operation::ConstantType(base, value))
}

/// An operation that leads to nothing that is converted, so that it stays what it is.
fn plain_operation<R: Reader>(operation: &ReadOperation<R>, encoding: Encoding) -> Operation
    requires { IsFalse (leads_on operation.now) }
    ensures { StaysAs R.reading encoding operation.now (node_of result) }
{
    match operation {
        ReadOperation::Simple(code) => Operation::Simple(same_code(*code)),
        ReadOperation::UnsignedConstant(value) => Operation::UnsignedConstant(*value),
        ReadOperation::SignedConstant(value) => Operation::SignedConstant(*value),
        ReadOperation::FrameOffset(offset) => Operation::FrameOffset(*offset),
        ReadOperation::RegisterOffset(register, offset) => {
            Operation::RegisterOffset(*register, *offset)
        }
        ReadOperation::Pick(index) => Operation::Pick(*index),
        ReadOperation::Deref { space } => Operation::Deref { space: *space },
        ReadOperation::DerefSize { space, size } => deref(*space, *size, encoding),
        ReadOperation::PlusConstant(value) => Operation::PlusConstant(*value),
        ReadOperation::Register(register) => Operation::Register(*register),
        ReadOperation::Piece { size_in_bytes } => Operation::Piece {
            size_in_bytes: *size_in_bytes,
        },
        ReadOperation::BitPiece {
            size_in_bits,
            bit_offset,
        } => Operation::BitPiece {
            size_in_bits: *size_in_bits,
            bit_offset: *bit_offset,
        },
        ReadOperation::WasmLocal(index) => Operation::WasmLocal(*index),
        ReadOperation::WasmGlobal(index) => Operation::WasmGlobal(*index),
        ReadOperation::WasmStack(index) => Operation::WasmStack(*index),
        _ => unreachable!(),
    }
}

/// The code of the standard where a GNU extension means the same.
fn same_code(code: DwOp) -> DwOp
    ensures { result ≡ same_code code.0 }
{
    match code {
        DW_OP_GNU_push_tls_address => DW_OP_form_tls_address,
        _ => code,
    }
}

/// Reads so many bytes at an address, or a word where an address has as many.
fn deref(space: bool, size: u8, encoding: Encoding) -> Operation
    ensures { node_of result ≡ plain (deref encoding space size) }
{
    if size == encoding.address_size {
        Operation::Deref { space }
    } else {
        Operation::DerefSize { space, size }
    }
}
