//! Where the branches of open expressions lead.

ghost use Rattle.std.specs.Prelude.{◌≡◌, ◌+◌, ◌<◌, ◌≤◌, [], ◌∷◌, length, MatchResult, Some, None};
ghost use Rattle.dw_script_fields.specs.Branches.{after_closed, after_kept, after_operation, closes, count_all, no_branches, with_operation};
ghost use Rattle.dw_script_fields.specs.Steps.{depth_after};
ghost use Rattle.dw_ends.specs.declared.reason.Reason.TheVariants.{BadTarget};

use crate::expression_step::ExpressionStep;
use crate::field::MOST_OPEN;
use dw_ends::Reason;
use std::marker::Model;

/// What is kept of the operations of one expression, so that their targets can be looked at once
/// their number is known.
#[derive(Clone, Copy)]
pub(crate) struct Branches {
    /// How many operations there are.
    count: usize,
    /// The highest index that one of them leads to, or 0.
    highest: usize,
    /// Whether one leads to itself.
    to_itself: bool,
}

impl Branches {
    fn new() -> Branches
        ensures { result ≡ no_branches }
    {
        Branches {
            count: 0,
            highest: 0,
            to_itself: false,
        }
    }

    // These branches and one more operation, which may lead somewhere.
    fn with(self, target: Option<usize>) -> Branches
        requires { self.count < usize.MAX }
        ensures { result ≡ with_operation target self }
    {
        let count = self.count + 1;
        match target {
            None => Branches { count, ..self },
            Some(target) => Branches {
                count,
                highest: self.highest.max(target),
                to_itself: self.to_itself || target == self.count,
            },
        }
    }

    // Whether each leads to another operation, or to the end.
    fn are_within(self) -> bool
        ensures { result ≡ closes self }
    {
        !self.to_itself && self.highest <= self.count
    }
}

/// The branches of the expressions that are open, the innermost first.
#[derive(Drop)]
pub(crate) struct OpenExpressions {
    // Those that are open stand from `room` on.
    expressions: [Branches; MOST_OPEN],
    room: usize,
}

impl Model for OpenExpressions {
    ghost use Rattle.std.specs.Prelude.{List, drop, ◌≤◌};
    ghost use Rattle.dw_script_fields.specs.declared.branches.Branches.{Branches};

    ghost Value = { List Branches };

    ghost view = { λ o. drop o.room o.expressions };

    ghost invariant = { λ o. o.room ≤ 64 };
}

impl OpenExpressions {
    /// One expression, without operations.
    pub(crate) fn new() -> OpenExpressions
        ensures { result ≡ no_branches ∷ [] }
    {
        OpenExpressions {
            expressions: [Branches::new(); MOST_OPEN],
            room: MOST_OPEN - 1,
        }
    }

    /// Goes on with a step.
    pub(crate) fn take(&mut self, step: &ExpressionStep<'_>) -> Result<(), Reason>
        requires some { 0 < length self.old }
        requires room { depth_after (length self.old) step.now ≤ 64 }
        requires few { count_all self.old < usize.MAX }
        ensures { MatchResult result
            (λ _. after_kept step.now self.old ≡ Some self.new)
            (λ reason. (reason ≡ BadTarget) × (after_kept step.now self.old ≡ None)) }
    {
        match step {
            ExpressionStep::Operation(operation) => {
                self.add_operation(operation.target());
                Ok(())
            }
            ExpressionStep::Open => {
                self.add_operation(None);
                self.open();
                Ok(())
            }
            ExpressionStep::Close => self.close(),
        }
    }

    // Adds an operation to the innermost one.
    fn add_operation(&mut self, target: Option<usize>)
        requires some { 0 < length self.old }
        requires few { count_all self.old < usize.MAX }
        ensures { self.new ≡ after_operation target self.old }
    {
        self.expressions[self.room] = self.expressions[self.room].with(target);
    }

    // Opens one within.
    fn open(&mut self)
        requires { length self.old < 64 }
        ensures { self.new ≡ no_branches ∷ self.old }
    {
        self.room -= 1;
        self.expressions[self.room] = Branches::new();
    }

    // Closes the innermost one.
    fn close(&mut self) -> Result<(), Reason>
        requires { 0 < length self.old }
        ensures { MatchResult result
            (λ _. after_closed self.old ≡ Some self.new)
            (λ reason. (reason ≡ BadTarget) × (after_closed self.old ≡ None)) }
    {
        let innermost = self.expressions[self.room];
        if !innermost.are_within() {
            return Err(Reason::BadTarget);
        }
        self.room += 1;
        Ok(())
    }
}
