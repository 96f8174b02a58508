//! Expressions of a line: checked once, and then read step by step.

ghost use Rattle.std.specs.Prelude.{◌≡◌, ◌<◌, ◌≤◌, [], Ok, Err, IfOk, IfSome, IsTrue, MatchResult, length};
ghost use Rattle.std.specs.Iterator.{YieldsFirst, item_count};
ghost use Rattle.dw_script_fields.specs.Expressions.{IsDeep, IsWalked, expression_field, judged, steps_left, walk_left};
ghost use Rattle.dw_ends.specs.Fields.{with_rest};
ghost use Rattle.dw_ends.specs.Pieces.{pieces_left};
ghost use Rattle.dw_script_fields.specs.Steps.{expression_walk};
ghost use Rattle.dw_script_fields.specs.Targets.{is_expression};

use crate::branches::OpenExpressions;
use crate::expression_step::{ExpressionStep, next_step};
use crate::field::expect_open;
use dw_ends::{Pieces, Reason};
use std::marker::Model;

/// The fields of an expression (DWARF 5, 2.5), which were looked at, so that a line is read without
/// memory. Contracts see the steps, up to the `Close` of the expression itself.
///
/// An expression is built of the steps with a stack of lists of operations, at first one without
/// any. An operation goes behind the others of the topmost list. `Open` puts another list on the
/// stack. `Close` takes the topmost off as an expression, and the list below gets that as the
/// operand of an operation; the last one is the whole. Each branch leads to another operation of
/// its list, or to the end, once the list is full.
#[derive(Drop)]
pub struct ExpressionFields<'a> {
    // The line's fields after the bracket that opens.
    fields: Pieces<'a>,
}

impl<'a> Model for ExpressionFields<'a> {
    ghost use Rattle.std.specs.Prelude.{◌≡◌, List, true};
    ghost use Rattle.dw_script_fields.specs.Targets.{is_expression};
    ghost use Rattle.dw_ends.specs.Pieces.{pieces_left};
    ghost use Rattle.dw_script_fields.specs.Steps.{expression_walk};
    ghost use Rattle.dw_script_fields.specs.declared.expression_step.ExpressionStep.{ExpressionStep};

    ghost Value = { List ExpressionStep };

    ghost view = { λ e. (expression_walk (pieces_left e.fields)).0 };

    ghost invariant = { λ e. is_expression (expression_walk (pieces_left e.fields)).0 ≡ true };
}

impl<'a> ExpressionFields<'a> {
    /// An expression, its brackets around it.
    pub(crate) fn read(fields: &mut Pieces<'a>) -> Result<ExpressionFields<'a>, Reason>
        ensures { with_rest result (pieces_left fields.new) ≡
            expression_field (pieces_left fields.old) }
    {
        expect_open(fields, 0)?;
        let inside = *fields;
        *fields = pass_expression(inside)?;
        Ok(ExpressionFields { fields: inside })
    }

    /// The steps, from the first on.
    pub fn steps(&self) -> ExpressionSteps<'a>
        ensures steps { steps_left result ≡ self.now }
        ensures whole { IsTrue (is_expression self.now) }
    {
        ExpressionSteps::new(self.fields)
    }
}

/// The steps of an expression that are still to come.
#[derive(Drop)]
pub struct ExpressionSteps<'a> {
    fields: Pieces<'a>,
    // How many expressions are open.
    depth: usize,
    // Whether the step before was a bracket that opens.
    is_first: bool,
}

impl<'a> ExpressionSteps<'a> {
    fn new(fields: Pieces<'a>) -> ExpressionSteps<'a>
        ensures walk { walk_left result ≡ expression_walk (pieces_left fields.entry) }
        ensures fields { result.fields ≡ fields.entry }
        ensures depth { result.depth ≡ 1 }
    {
        ExpressionSteps {
            fields,
            depth: 1,
            is_first: true,
        }
    }

    // The next step, none past the end.
    fn step(&mut self) -> Result<Option<ExpressionStep<'a>>, Reason>
        ensures walk { MatchResult result
            (λ step. IsWalked self.old step self.new)
            (λ reason. walk_left self.old ≡ ([], Err reason)) }
        ensures depth { IfOk result (λ r. IfSome r (λ step.
            IsDeep self.old.depth step self.new.depth)) }
        ensures fewer { IfOk result (λ r. IfSome r (λ step.
            length (pieces_left self.new.fields) < length (pieces_left self.old.fields))) }
    {
        if self.depth == 0 {
            return Ok(None);
        }
        let step = next_step(&mut self.fields, self.depth, self.is_first)?;
        self.depth = step.depth_after(self.depth);
        self.is_first = step.is_open();
        Ok(Some(step))
    }
}

impl<'a> Iterator for ExpressionSteps<'a> {
    type Item = ExpressionStep<'a>;

    ghost next_gives = { YieldsFirst steps_left };

    ghost remaining = { item_count steps_left };

    fn next(&mut self) -> Option<ExpressionStep<'a>> {
        match self.step() {
            Ok(step) => step,
            Err(_) => {
                self.depth = 0;
                None
            }
        }
    }
}

// The fields after an expression whose opening bracket was read.
fn pass_expression(fields: Pieces<'_>) -> Result<Pieces<'_>, Reason>
    ensures { MatchResult result
        (λ rest. judged (expression_walk (pieces_left fields.entry)) ≡ Ok (pieces_left rest))
        (λ reason. judged (expression_walk (pieces_left fields.entry)) ≡ Err reason) }
{
    // There are no more operations than fields, so they can be counted.
    let _most = fields.most_left();
    let mut expressions = OpenExpressions::new();
    let mut steps = ExpressionSteps::new(fields);
    while let Some(step) = steps.step()? {
        expressions.take(&step)?;
    }
    Ok(steps.fields)
}
