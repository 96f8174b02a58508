//! Call frame instructions (DWARF 5, 6.4.2).

ghost use Rattle.std.specs.Prelude.{◌<◌, ◌^◌, IsTrue};
ghost use Rattle.dw_base.specs.Leb128.{fits_i64};
ghost use Rattle.dw_read_back.specs.Instructions.{IsShort, HasWidths};
ghost use Rattle.dw_read_back.specs.Instructions.{AdvanceReadsBack, InstructionReadsBack};

use dw_base::{Encoding, Register};
use dw_frame::CallFrameInstruction;

/// Whatever stands behind the bytes of an instruction that is written, the reader's table reads
/// them as an instruction that means this one, and leaves what stands behind.
///
/// The factor is that of data offsets, and the encoding is that of the common entry.
pub fn instruction_reads_back(instruction: &CallFrameInstruction, encoding: Encoding, factor: i8)
    ensures { InstructionReadsBack encoding factor instruction.now }
{
    tell_widths(instruction);
    let _law = (encoding, factor);
}

/// The bytes of an advance from an offset to another are read as one that leads there by the factor
/// of code offsets. Where the offset stays there are none.
pub fn advance_reads_back(from: u32, to: u32, factor: u8)
    ensures { AdvanceReadsBack factor from to }
{
    tell_code_offset(to);
    let _law = (from, factor);
}

/// The numbers of an instruction have the widths of their types, which laws over all numbers have
/// to be told. Nothing is done.
pub(crate) fn tell_widths(instruction: &CallFrameInstruction)
    ensures { HasWidths instruction.now }
{
    match instruction {
        CallFrameInstruction::Cfa(register, offset) => {
            tell_register(*register);
            tell_offset(*offset);
        }
        CallFrameInstruction::CfaRegister(register)
        | CallFrameInstruction::Restore(register)
        | CallFrameInstruction::Undefined(register)
        | CallFrameInstruction::SameValue(register)
        | CallFrameInstruction::Offset(register, _)
        | CallFrameInstruction::ValOffset(register, _)
        | CallFrameInstruction::Expression(register, _)
        | CallFrameInstruction::ValExpression(register, _) => tell_register(*register),
        CallFrameInstruction::CfaOffset(offset) => tell_offset(*offset),
        CallFrameInstruction::Register(left, right) => {
            tell_register(*left);
            tell_register(*right);
        }
        CallFrameInstruction::ArgsSize(size) => tell_size(*size),
        CallFrameInstruction::CfaExpression(_)
        | CallFrameInstruction::RememberState
        | CallFrameInstruction::RestoreState
        | CallFrameInstruction::NegateRaState => (),
    }
}

fn tell_register(register: Register)
    ensures { IsShort register }
{
    let _number = u64::from(register.0);
}

fn tell_offset(offset: i32)
    ensures { IsTrue (fits_i64 offset) }
{
    let _number = i64::from(offset);
}

fn tell_code_offset(offset: u32)
    ensures { offset < 2 ^ 32 }
{
    let _number = u64::from(offset);
}

fn tell_size(size: u32)
    ensures { size < 2 ^ 64 }
{
    let _number = u64::from(size);
}
