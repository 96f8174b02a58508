//! Call frame instructions as they were read, and what they become (DWARF 5, 6.4.2).

ghost use Rattle.std.specs.Prelude.{◌≡◌, ◌⊎◌, ◌*ℤ◌, None, IfOk, IfErr};
ghost use Rattle.dw_read_frames.specs.InstructionViews.{instruction_of};
ghost use Rattle.dw_sources.specs.declared.convert_error.ConvertError.TheVariants.{NoMemory};
ghost use Rattle.dw_read.specs.Reading.{left};
ghost use Rattle.dw_frame.specs.ConvertInstructions.{FrameExpression, InstructionOutcome, plain, with, in_i32, in_u32};
ghost use Rattle.dw_frame_instructions.specs.declared.instruction.CallFrameInstruction.TheVariants.{Cfa, CfaOffset, Offset, ValOffset, ArgsSize};
ghost use Rattle.dw_frame.specs.ConvertOrders.{order_of};

use dw_base::{Address, Encoding, Register};
use dw_convert::{NoConvertDebugInfoRef, expression};
use dw_expr::Expression;
use dw_frame_instructions::CallFrameInstruction;
use dw_read::{Expression as ReadExpression, Reader};
use dw_read_frames::CallFrameInstruction as ReadInstruction;
use dw_read_units::UnitRef;
use dw_sources::{ConvertError, ConvertResult};
use std::alloc::Global;

/// Converts an instruction by the encoding of its CIE and the factor of data offsets; None is one
/// that only moves on or pads.
pub(crate) fn convert_instruction<R: Reader, F: Fn(u64) -> Option<Address>>(
    alloc: Global,
    instruction: ReadInstruction<R>,
    encoding: Encoding,
    factor: i64,
    convert_address: &F,
) -> ConvertResult<Option<CallFrameInstruction>>
    requires { F.IsAlwaysCallable convert_address.now }
    ensures ok { IfOk result (λ x. InstructionOutcome (F.post convert_address.now)
        (order_of R.reading instruction) encoding factor
        (instruction_of R.reading instruction) (Ok x)) }
    ensures err { IfErr result (λ e. (e ≡ NoMemory) ⊎ InstructionOutcome
        (F.post convert_address.now) (order_of R.reading instruction) encoding factor
        (instruction_of R.reading instruction) (Err e)) }
{
    match instruction {
        ReadInstruction::DefCfaExpression { expression } => {
            let expression = convert_expression(alloc, expression, encoding, convert_address)?;
            Ok(Some(CallFrameInstruction::CfaExpression(expression)))
        }
        ReadInstruction::Expression {
            register,
            expression,
        } => {
            let expression = convert_expression(alloc, expression, encoding, convert_address)?;
            Ok(Some(CallFrameInstruction::Expression(register, expression)))
        }
        ReadInstruction::ValExpression {
            register,
            expression,
        } => {
            let expression = convert_expression(alloc, expression, encoding, convert_address)?;
            Ok(Some(CallFrameInstruction::ValExpression(register, expression)))
        }
        other => convert_plain(&other, factor),
    }
}

/// Converts an instruction without an expression; None is one that only moves on or pads. It is one
/// match, since each instruction has a row in the table.
fn convert_plain<R: Reader>(
    instruction: &ReadInstruction<R>,
    factor: i64,
) -> ConvertResult<Option<CallFrameInstruction>>
    ensures { result ≡ plain factor (instruction_of R.reading instruction.now) }
{
    match instruction {
        ReadInstruction::SetLoc { .. } => Err(ConvertError::UnsupportedCfiInstruction),
        ReadInstruction::DefCfa { register, offset } => { cfa(*register, in_i32(*offset as i128)) }
        ReadInstruction::DefCfaSf {
            register,
            factored_offset,
        } => cfa(*register, multiplied(*factored_offset as i128, factor)),
        ReadInstruction::DefCfaRegister { register } => {
            Ok(Some(CallFrameInstruction::CfaRegister(*register)))
        }
        ReadInstruction::DefCfaOffset { offset } => cfa_offset(in_i32(*offset as i128)),
        ReadInstruction::DefCfaOffsetSf { factored_offset } => {
            cfa_offset(multiplied(*factored_offset as i128, factor))
        }
        ReadInstruction::Undefined { register } => {
            Ok(Some(CallFrameInstruction::Undefined(*register)))
        }
        ReadInstruction::SameValue { register } => {
            Ok(Some(CallFrameInstruction::SameValue(*register)))
        }
        ReadInstruction::Offset {
            register,
            factored_offset,
        } => saved(*register, multiplied(*factored_offset as i128, factor)),
        ReadInstruction::OffsetExtendedSf {
            register,
            factored_offset,
        } => saved(*register, multiplied(*factored_offset as i128, factor)),
        ReadInstruction::ValOffset {
            register,
            factored_offset,
        } => valued(*register, multiplied(*factored_offset as i128, factor)),
        ReadInstruction::ValOffsetSf {
            register,
            factored_offset,
        } => valued(*register, multiplied(*factored_offset as i128, factor)),
        ReadInstruction::Register {
            dest_register,
            src_register,
        } => Ok(Some(CallFrameInstruction::Register(*dest_register, *src_register))),
        ReadInstruction::Restore { register } => {
            Ok(Some(CallFrameInstruction::Restore(*register)))
        }
        ReadInstruction::RememberState => Ok(Some(CallFrameInstruction::RememberState)),
        ReadInstruction::RestoreState => Ok(Some(CallFrameInstruction::RestoreState)),
        ReadInstruction::ArgsSize { size } => args_size(in_u32(*size)),
        ReadInstruction::NegateRaState => Ok(Some(CallFrameInstruction::NegateRaState)),
        ReadInstruction::AdvanceLoc { .. } | ReadInstruction::Nop => Ok(None),
        // These have arms of their own above.
        ReadInstruction::DefCfaExpression { .. }
        | ReadInstruction::Expression { .. }
        | ReadInstruction::ValExpression { .. } => Ok(None),
    }
}

/// The frame's address is at an offset from a register, if that fits.
fn cfa(
    register: Register,
    offset: ConvertResult<i32>,
) -> ConvertResult<Option<CallFrameInstruction>>
    ensures { result ≡ with (Cfa register) offset }
{
    match offset {
        Ok(offset) => Ok(Some(CallFrameInstruction::Cfa(register, offset))),
        Err(error) => Err(error),
    }
}

/// The frame's address is at another offset, if that fits.
fn cfa_offset(offset: ConvertResult<i32>) -> ConvertResult<Option<CallFrameInstruction>>
    ensures { result ≡ with CfaOffset offset }
{
    match offset {
        Ok(offset) => Ok(Some(CallFrameInstruction::CfaOffset(offset))),
        Err(error) => Err(error),
    }
}

/// A register is saved at an offset, if that fits.
fn saved(
    register: Register,
    offset: ConvertResult<i32>,
) -> ConvertResult<Option<CallFrameInstruction>>
    ensures { result ≡ with (Offset register) offset }
{
    match offset {
        Ok(offset) => Ok(Some(CallFrameInstruction::Offset(register, offset))),
        Err(error) => Err(error),
    }
}

/// A register's value is at an offset, if that fits.
fn valued(
    register: Register,
    offset: ConvertResult<i32>,
) -> ConvertResult<Option<CallFrameInstruction>>
    ensures { result ≡ with (ValOffset register) offset }
{
    match offset {
        Ok(offset) => Ok(Some(CallFrameInstruction::ValOffset(register, offset))),
        Err(error) => Err(error),
    }
}

/// The bytes of arguments, if their number fits.
fn args_size(size: ConvertResult<u32>) -> ConvertResult<Option<CallFrameInstruction>>
    ensures { result ≡ with ArgsSize size }
{
    match size {
        Ok(size) => Ok(Some(CallFrameInstruction::ArgsSize(size))),
        Err(error) => Err(error),
    }
}

/// Converts an expression, which belongs to no unit.
fn convert_expression<R: Reader, F: Fn(u64) -> Option<Address>>(
    alloc: Global,
    read: ReadExpression<R>,
    encoding: Encoding,
    convert_address: &F,
) -> ConvertResult<Expression>
    requires { F.IsAlwaysCallable convert_address.now }
    ensures ok { IfOk result (λ x. FrameExpression (F.post convert_address.now)
        (R.reading read.0).is_big encoding (left (R.reading read.0)) (Ok x)) }
    ensures err { IfErr result (λ e. (e ≡ NoMemory) ⊎ FrameExpression
        (F.post convert_address.now) (R.reading read.0).is_big encoding
        (left (R.reading read.0)) (Err e)) }
{
    let section = read.0.duplicate();
    let unit = no_unit(&section);
    expression(
        alloc,
        read,
        encoding,
        unit,
        convert_address,
        &NoConvertDebugInfoRef,
    )
}

/// None of the units that a reader of their sections could have.
fn no_unit<R: Reader>(_section: &R) -> Option<UnitRef<'_, R>>
    ensures { result ≡ None }
{
    None
}

/// A factored offset, multiplied out.
fn multiplied(factored: i128, factor: i64) -> ConvertResult<i32>
    ensures { result ≡ in_i32 (factored *ℤ factor) }
{
    match factored.checked_mul(factor as i128) {
        Some(offset) => in_i32(offset),
        None => Err(ConvertError::IntegerOverflow),
    }
}

/// An offset of 32 bits.
fn in_i32(offset: i128) -> ConvertResult<i32>
    ensures { result ≡ in_i32 offset }
{
    match i32::try_from(offset) {
        Ok(offset) => Ok(offset),
        Err(_) => Err(ConvertError::IntegerOverflow),
    }
}

/// A number of 32 bits.
pub(crate) fn in_u32(number: u64) -> ConvertResult<u32>
    ensures { result ≡ in_u32 number }
{
    match u32::try_from(number) {
        Ok(number) => Ok(number),
        Err(_) => Err(ConvertError::IntegerOverflow),
    }
}
