//! Call frame instructions (DWARF 5, 6.4.2).

ghost use Rattle.std.specs.Prelude.{◌≡◌, ◌↔◌, IfOk, IfErr, IsTrue};
ghost use Rattle.dw_base.specs.declared.error.Error.TheVariants.{NoMemory};
ghost use Rattle.dw_frame_instructions.specs.Causes.{Writes};
ghost use Rattle.dw_frame_instructions.specs.Instructions.{instruction_piece, instruction_fails};

use dw_base::{Encoding, Register, Result};
use dw_expr::Expression;
use dw_writer::Writer;

/// An instruction of a call frame program, which changes the rules by which registers are found
/// (DWARF 5, 6.4.2). Offsets are in bytes; the factors of the CIE divide them when it is written.
///
/// ```
/// // The frame's address is 16 above the stack pointer, and the caller's register 16 lies below.
/// fde.add_instruction(4, CallFrameInstruction::CfaOffset(16))?;
/// fde.add_instruction(4, CallFrameInstruction::Offset(Register(16), -8))?;
/// ```
#[derive(PartialEq, Eq, Hash, Drop)]
pub enum CallFrameInstruction {
    /// The frame's address is a register plus an offset (6.4.2.2).
    Cfa(Register, i32),
    /// The frame's address is another register plus the same offset (6.4.2.2).
    CfaRegister(Register),
    /// The frame's address is the same register plus another offset (6.4.2.2).
    CfaOffset(i32),
    /// The frame's address is what an expression gives (6.4.2.2).
    CfaExpression(Expression),
    /// A register has its rule of the CIE again (6.4.2.3).
    Restore(Register),
    /// A register's value is lost (6.4.2.3).
    Undefined(Register),
    /// A register still has its value (6.4.2.3).
    SameValue(Register),
    /// A register is saved at an offset from the frame's address (6.4.2.3).
    Offset(Register, i32),
    /// A register's value is the frame's address plus an offset (6.4.2.3).
    ValOffset(Register, i32),
    /// The first register's value is in the second (6.4.2.3).
    Register(Register, Register),
    /// A register is saved where an expression says (6.4.2.3).
    Expression(Register, Expression),
    /// A register's value is what an expression gives (6.4.2.3).
    ValExpression(Register, Expression),
    /// The rules are put on a stack (6.4.2.4).
    RememberState,
    /// The rules are taken from the stack (6.4.2.4).
    RestoreState,
    /// The bytes of arguments on the stack, a GNU extension.
    ArgsSize(u32),
    /// Whether the return address is signed changes, an extension of AArch64.
    NegateRaState,
}

impl CallFrameInstruction {
    /// Writes the instruction.
    pub(crate) fn write<W: Writer>(&self, w: &mut W, encoding: Encoding, factor: i8) -> Result<()>
        ensures { Writes result (W.meaning w.old) (W.meaning w.new)
            (instruction_piece encoding factor self.now)
            (instruction_fails encoding factor (W.meaning w.old).is_plain self.now) }
    {
        let spelling = self.spelling(factor)?;
        w.write(&[spelling.code])?;
        spelling.first.write(w, encoding)?;
        spelling.second.write(w, encoding)
    }

    /// Tells that another instruction is the same.
    pub fn is_same(&self, other: &CallFrameInstruction) -> bool
        ensures { IsTrue result ↔ (self.now ≡ other.now) }
    {
        self == other
    }

    /// A second instruction that equals this one.
    pub fn try_clone(&self) -> Result<CallFrameInstruction>
        ensures ok { IfOk result (λ copy. copy ≡ self.now) }
        ensures err { IfErr result (λ e. e ≡ NoMemory) }
    {
        let copy = match self {
            CallFrameInstruction::Cfa(register, offset) => {
                CallFrameInstruction::Cfa(*register, *offset)
            }
            CallFrameInstruction::CfaRegister(register) => {
                CallFrameInstruction::CfaRegister(*register)
            }
            CallFrameInstruction::CfaOffset(offset) => CallFrameInstruction::CfaOffset(*offset),
            CallFrameInstruction::CfaExpression(expression) => {
                CallFrameInstruction::CfaExpression(expression.try_clone()?)
            }
            CallFrameInstruction::Restore(register) => CallFrameInstruction::Restore(*register),
            CallFrameInstruction::Undefined(register) => {
                CallFrameInstruction::Undefined(*register)
            }
            CallFrameInstruction::SameValue(register) => {
                CallFrameInstruction::SameValue(*register)
            }
            CallFrameInstruction::Offset(register, offset) => {
                CallFrameInstruction::Offset(*register, *offset)
            }
            CallFrameInstruction::ValOffset(register, offset) => {
                CallFrameInstruction::ValOffset(*register, *offset)
            }
            CallFrameInstruction::Register(left, right) => {
                CallFrameInstruction::Register(*left, *right)
            }
            CallFrameInstruction::Expression(register, expression) => {
                CallFrameInstruction::Expression(*register, expression.try_clone()?)
            }
            CallFrameInstruction::ValExpression(register, expression) => {
                CallFrameInstruction::ValExpression(*register, expression.try_clone()?)
            }
            CallFrameInstruction::RememberState => CallFrameInstruction::RememberState,
            CallFrameInstruction::RestoreState => CallFrameInstruction::RestoreState,
            CallFrameInstruction::ArgsSize(size) => CallFrameInstruction::ArgsSize(*size),
            CallFrameInstruction::NegateRaState => CallFrameInstruction::NegateRaState,
        };
        Ok(copy)
    }
}
