//! Expressions of a line, step by step.

ghost use Rattle.std.specs.Prelude.{◌≡◌, ◌<◌, ◌≤◌, max, IfOk};
ghost use Rattle.dw_ends.specs.Fields.{with_rest};
ghost use Rattle.dw_ends.specs.Pieces.{pieces_left};
ghost use Rattle.dw_script_fields.specs.Steps.{depth_after, is_open, opened_field, raw_field, step_field};

use crate::field::{expect_open, next_hex_bytes, next_step_word};
use crate::operation::{ScriptOperation, next_operation, next_pair};
use crate::operation_word::StepWord;
use dw_ends::{Pieces, Reason};

/// A step of an expression (DWARF 5, 2.5): what stands in it, in order, with the expressions within
/// it in their places.
#[derive(Drop)]
pub enum ExpressionStep<'a> {
    /// An operation.
    Operation(ScriptOperation<'a>),
    /// An operation that evaluates an expression on entry to the function (2.5.1.7): the steps
    /// of that expression come next, up to its `Close`.
    Open,
    /// The end of the innermost expression that is open.
    Close,
}

impl<'a> ExpressionStep<'a> {
    /// Whether an expression begins with the step after this one.
    pub(crate) fn is_open(&self) -> bool
        ensures { result ≡ is_open self.now }
    {
        matches!(self, ExpressionStep::Open)
    }

    /// How many expressions are open after the step.
    pub(crate) fn depth_after(&self, depth: usize) -> usize
        requires { depth_after depth self.now ≤ usize.MAX }
        ensures { result ≡ depth_after depth self.now }
    {
        match self {
            ExpressionStep::Operation(_) => depth,
            ExpressionStep::Open => depth + 1,
            ExpressionStep::Close => depth.saturating_sub(1),
        }
    }
}

/// A step, within so many open expressions; `is_first` where it stands right after a bracket that
/// opens.
pub(crate) fn next_step<'a>(
    fields: &mut Pieces<'a>,
    depth: usize,
    is_first: bool,
) -> Result<ExpressionStep<'a>, Reason>
    ensures field { with_rest result (pieces_left fields.new) ≡
        step_field depth is_first (pieces_left fields.old) }
    ensures room { IfOk result (λ step. depth_after depth step ≤ max depth 64) }
{
    let operation = match next_step_word(fields)? {
        StepWord::Close => return Ok(ExpressionStep::Close),
        StepWord::EntryValue => return next_open(fields, depth),
        StepWord::Raw => next_raw(fields, is_first)?,
        StepWord::Operation(word) => next_operation(word, fields)?,
        StepWord::Pair(word) => next_pair(word, fields)?,
    };
    Ok(ExpressionStep::Operation(operation))
}

fn next_open<'a>(fields: &mut Pieces<'a>, depth: usize) -> Result<ExpressionStep<'a>, Reason>
    ensures field { with_rest result (pieces_left fields.new) ≡
        opened_field depth (pieces_left fields.old) }
    ensures room { IfOk result (λ step. (step ≡ ExpressionStep.Open) × (depth < 64)) }
{
    expect_open(fields, depth)?;
    Ok(ExpressionStep::Open)
}

fn next_raw<'a>(fields: &mut Pieces<'a>, is_first: bool) -> Result<ScriptOperation<'a>, Reason>
    ensures { with_rest result (pieces_left fields.new) ≡
        raw_field is_first (pieces_left fields.old) }
{
    if !is_first {
        return Err(Reason::UnknownWord);
    }
    Ok(ScriptOperation::Raw(next_hex_bytes(fields)?))
}
