//! How a call frame instruction is spelled: a code, and up to two operands (DWARF 5, 7.24).

ghost use Rattle.std.specs.Prelude.{◌≡◌, ℤ, Some, None, MatchResult, OnErr, IfOk, IfErr, IsTrue};
ghost use Rattle.dw_base.specs.declared.error.Error.TheVariants.{InvalidFrameDataOffset};
ghost use Rattle.dw_frame_instructions.specs.Operands.{Nothing, Uleb, operand_in};
ghost use Rattle.dw_frame_instructions.specs.Instructions.{spell, spelling_in, spelled, restored, offset_rule, value_rule, frame_rule, frame_offset_rule, factor_fails, offset_of};

use crate::factor::{factored_data_offset, unsigned};
use crate::instruction::CallFrameInstruction;
use crate::operand::Operand;
use dw_base::constants::{
    DW_CFA_AARCH64_negate_ra_state, DW_CFA_GNU_args_size, DW_CFA_def_cfa,
    DW_CFA_def_cfa_expression, DW_CFA_def_cfa_offset, DW_CFA_def_cfa_offset_sf,
    DW_CFA_def_cfa_register, DW_CFA_def_cfa_sf, DW_CFA_expression, DW_CFA_offset,
    DW_CFA_offset_extended, DW_CFA_offset_extended_sf, DW_CFA_register, DW_CFA_remember_state,
    DW_CFA_restore, DW_CFA_restore_extended, DW_CFA_restore_state, DW_CFA_same_value,
    DW_CFA_undefined, DW_CFA_val_expression, DW_CFA_val_offset, DW_CFA_val_offset_sf,
};
use dw_base::{DwCfa, Register, Result};

/// A code, and the operands behind it.
#[derive(Clone, Copy)]
pub struct Spelling<'a> {
    pub code: u8,
    pub first: Operand<'a>,
    pub second: Operand<'a>,
}

impl<'a> Spelling<'a> {
    /// A code without operands.
    fn code(code: DwCfa) -> Spelling<'a>
        ensures { spelling_in result ≡ spell code.0 Nothing Nothing }
    {
        Spelling {
            code: code.0,
            first: Operand::Nothing,
            second: Operand::Nothing,
        }
    }

    /// A code with one operand.
    fn one(code: DwCfa, first: Operand<'a>) -> Spelling<'a>
        ensures { spelling_in result ≡ spell code.0 (operand_in first.entry) Nothing }
    {
        Spelling {
            code: code.0,
            first,
            second: Operand::Nothing,
        }
    }

    /// A code with two operands.
    fn two(code: DwCfa, first: Operand<'a>, second: Operand<'a>) -> Spelling<'a>
        ensures { spelling_in result ≡
            spell code.0 (operand_in first.entry) (operand_in second.entry) }
    {
        Spelling {
            code: code.0,
            first,
            second,
        }
    }
}

/// A register's number.
fn number<'a>(register: Register) -> Operand<'a>
    ensures { operand_in result ≡ Uleb register.0 }
{
    Operand::Uleb(u64::from(register.0))
}

/// A register has its first rule again.
fn restored<'a>(register: Register) -> Spelling<'a>
    ensures { spelling_in result ≡ restored register }
{
    if register.0 < 0x40 {
        return Spelling::code(DwCfa(DW_CFA_restore.0 + register.0 as u8));
    }
    Spelling::one(DW_CFA_restore_extended, number(register))
}

/// A register is saved at an offset, which is factored.
fn offset_rule<'a>(register: Register, offset: i32) -> Spelling<'a>
    ensures { spelling_in result ≡ offset_rule register offset }
{
    let Some(above) = unsigned(offset) else {
        let below = Operand::Sleb(i64::from(offset));
        return Spelling::two(DW_CFA_offset_extended_sf, number(register), below);
    };
    let above = Operand::Uleb(u64::from(above));
    if register.0 < 0x40 {
        return Spelling::one(DwCfa(DW_CFA_offset.0 + register.0 as u8), above);
    }
    Spelling::two(DW_CFA_offset_extended, number(register), above)
}

/// A register's value is at an offset, which is factored.
fn value_rule<'a>(register: Register, offset: i32) -> Spelling<'a>
    ensures { spelling_in result ≡ value_rule register offset }
{
    match unsigned(offset) {
        Some(above) => {
            let above = Operand::Uleb(u64::from(above));
            Spelling::two(DW_CFA_val_offset, number(register), above)
        }
        None => {
            let below = Operand::Sleb(i64::from(offset));
            Spelling::two(DW_CFA_val_offset_sf, number(register), below)
        }
    }
}

/// The frame's address is at an offset from a register.
fn frame_rule<'a>(register: Register, offset: i32, factor: i8) -> Result<Spelling<'a>>
    ensures ok { IfOk result (λ s. frame_rule factor register offset ≡ Some (spelling_in s)) }
    ensures err { IfErr result (λ e. e ≡ InvalidFrameDataOffset offset) }
    ensures none { OnErr result (frame_rule factor register offset ≡ None) }
{
    match unsigned(offset) {
        Some(above) => {
            let above = Operand::Uleb(u64::from(above));
            Ok(Spelling::two(DW_CFA_def_cfa, number(register), above))
        }
        None => {
            let below = Operand::Sleb(i64::from(factored_data_offset(offset, factor)?));
            Ok(Spelling::two(DW_CFA_def_cfa_sf, number(register), below))
        }
    }
}

/// The frame's address is at another offset.
fn frame_offset_rule<'a>(offset: i32, factor: i8) -> Result<Spelling<'a>>
    ensures ok { IfOk result (λ s. frame_offset_rule factor offset ≡ Some (spelling_in s)) }
    ensures err { IfErr result (λ e. e ≡ InvalidFrameDataOffset offset) }
    ensures none { OnErr result (frame_offset_rule factor offset ≡ None) }
{
    match unsigned(offset) {
        Some(above) => {
            let above = Operand::Uleb(u64::from(above));
            Ok(Spelling::one(DW_CFA_def_cfa_offset, above))
        }
        None => {
            let below = Operand::Sleb(i64::from(factored_data_offset(offset, factor)?));
            Ok(Spelling::one(DW_CFA_def_cfa_offset_sf, below))
        }
    }
}

impl CallFrameInstruction {
    /// The spelling by the factor of data offsets.
    pub(crate) fn spelling(&self, factor: i8) -> Result<Spelling<'_>>
        ensures { MatchResult result (λ s. spelled factor self.now ≡ Some (spelling_in s))
            (λ e. IsTrue (factor_fails (spelled factor self.now) (offset_of self.now) e)) }
    {
        match self {
            CallFrameInstruction::Cfa(register, offset) => frame_rule(*register, *offset, factor),
            CallFrameInstruction::CfaOffset(offset) => frame_offset_rule(*offset, factor),
            CallFrameInstruction::Offset(register, offset) => {
                Ok(offset_rule(*register, factored_data_offset(*offset, factor)?))
            }
            CallFrameInstruction::ValOffset(register, offset) => {
                Ok(value_rule(*register, factored_data_offset(*offset, factor)?))
            }
            other => Ok(other.plain_spelling()),
        }
    }

    /// The spelling of an instruction without an offset that may be factored.
    fn plain_spelling(&self) -> Spelling<'_>
        requires { offset_of self.now ≡ None }
        ensures { (f : ℤ) → spelled f self.now ≡ Some (spelling_in result) }
    {
        match self {
            CallFrameInstruction::CfaRegister(register) => {
                Spelling::one(DW_CFA_def_cfa_register, number(*register))
            }
            CallFrameInstruction::CfaExpression(expression) => {
                Spelling::one(DW_CFA_def_cfa_expression, Operand::Block(expression))
            }
            CallFrameInstruction::Restore(register) => restored(*register),
            CallFrameInstruction::Undefined(register) => {
                Spelling::one(DW_CFA_undefined, number(*register))
            }
            CallFrameInstruction::SameValue(register) => {
                Spelling::one(DW_CFA_same_value, number(*register))
            }
            CallFrameInstruction::Register(left, right) => {
                Spelling::two(DW_CFA_register, number(*left), number(*right))
            }
            CallFrameInstruction::Expression(register, expression) => {
                let block = Operand::Block(expression);
                Spelling::two(DW_CFA_expression, number(*register), block)
            }
            CallFrameInstruction::ValExpression(register, expression) => {
                let block = Operand::Block(expression);
                Spelling::two(DW_CFA_val_expression, number(*register), block)
            }
            CallFrameInstruction::RememberState => Spelling::code(DW_CFA_remember_state),
            CallFrameInstruction::RestoreState => Spelling::code(DW_CFA_restore_state),
            CallFrameInstruction::ArgsSize(size) => {
                Spelling::one(DW_CFA_GNU_args_size, Operand::Uleb(u64::from(*size)))
            }
            CallFrameInstruction::NegateRaState => {
                Spelling::code(DW_CFA_AARCH64_negate_ra_state)
            }
            CallFrameInstruction::Cfa(..)
            | CallFrameInstruction::CfaOffset(_)
            | CallFrameInstruction::Offset(..)
            | CallFrameInstruction::ValOffset(..) => unreachable!(),
        }
    }
}
