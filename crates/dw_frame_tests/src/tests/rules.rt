//! Instructions as constants can hold them, which take no value that owns memory.

use dw_base::{DebugInfoRef, Register, Result, UnitEntryId};
use dw_expr::{Expression, Operation};
use dw_frame::CallFrameInstruction;
use std::alloc::Global;

/// An instruction. Registers are named by their numbers.
#[derive(Clone, Copy)]
pub enum Rule {
    Cfa(u16, i32),
    CfaRegister(u16),
    CfaOffset(i32),
    CfaExpression(Body),
    Restore(u16),
    Undefined(u16),
    SameValue(u16),
    Offset(u16, i32),
    ValOffset(u16, i32),
    Register(u16, u16),
    Expression(u16, Body),
    ValExpression(u16, Body),
    RememberState,
    RestoreState,
    ArgsSize(u32),
    NegateRaState,
}

impl Rule {
    /// A copy of the instruction.
    pub fn instruction(&self, alloc: Global) -> Result<CallFrameInstruction> {
        let expression = self.body().expression(alloc)?;
        self.with(expression).try_clone()
    }

    /// What the expression does, if there is one.
    fn body(&self) -> Body {
        match self {
            Rule::CfaExpression(body) => *body,
            Rule::Expression(_, body) => *body,
            Rule::ValExpression(_, body) => *body,
            _ => Body::Empty,
        }
    }

    /// The instruction with this expression, if it has one.
    fn with(&self, expression: Expression) -> CallFrameInstruction {
        match self {
            Rule::CfaExpression(_) => CallFrameInstruction::CfaExpression(expression),
            Rule::Expression(of, _) => {
                CallFrameInstruction::Expression(Register(*of), expression)
            }
            Rule::ValExpression(of, _) => {
                CallFrameInstruction::ValExpression(Register(*of), expression)
            }
            other => other.without_expression(),
        }
    }

    fn without_expression(&self) -> CallFrameInstruction {
        match self {
            Rule::Cfa(base, offset) => CallFrameInstruction::Cfa(Register(*base), *offset),
            Rule::CfaRegister(base) => CallFrameInstruction::CfaRegister(Register(*base)),
            Rule::CfaOffset(offset) => CallFrameInstruction::CfaOffset(*offset),
            Rule::Restore(of) => CallFrameInstruction::Restore(Register(*of)),
            Rule::Undefined(of) => CallFrameInstruction::Undefined(Register(*of)),
            Rule::SameValue(of) => CallFrameInstruction::SameValue(Register(*of)),
            Rule::Offset(of, offset) => CallFrameInstruction::Offset(Register(*of), *offset),
            Rule::ValOffset(of, offset) => CallFrameInstruction::ValOffset(Register(*of), *offset),
            Rule::Register(of, at) => CallFrameInstruction::Register(Register(*of), Register(*at)),
            Rule::RestoreState => CallFrameInstruction::RestoreState,
            Rule::ArgsSize(size) => CallFrameInstruction::ArgsSize(*size),
            Rule::NegateRaState => CallFrameInstruction::NegateRaState,
            _ => CallFrameInstruction::RememberState,
        }
    }
}

/// The operation of an expression, which an expression without bytes has none of.
#[derive(Clone, Copy)]
pub enum Body {
    Empty,
    /// The offset 8 from register 7.
    Offset,
    /// The number 0.
    Zero,
    /// A conversion to the type of an entry of a unit.
    Convert,
    /// A call of an entry of another object.
    Call,
    /// A branch without a target.
    Skip,
}

impl Body {
    fn expression(&self, alloc: Global) -> Result<Expression> {
        let operation = match self {
            Body::Empty => return Ok(Expression::new(alloc)),
            Body::Offset => Operation::RegisterOffset(Register(7), 8),
            Body::Zero => Operation::UnsignedConstant(0),
            Body::Convert => Operation::Convert(Some(UnitEntryId(0))),
            Body::Call => Operation::CallRef(DebugInfoRef::Symbol(0)),
            Body::Skip => Operation::Skip(None),
        };
        let operations = vec![in alloc; operation]?;
        Ok(Expression::from_operations(alloc, operations))
    }
}
