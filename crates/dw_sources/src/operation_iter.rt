//! The operations of an expression, one after the other (DWARF 5, 2.5).

ghost use Rattle.std.specs.Prelude.{◌≡◌};
ghost use Rattle.dw_sources.specs.OperationIters.{begins, ReadsOperation};

use crate::operation::Operation;
use crate::read_operation::read_operation;
use dw_base::Encoding;
use dw_read::{Expression, ReadResult, Reader};

/// The operations of an expression that was read. Expressions within an operation are handed out
/// as they stand, so that no expression is too deep.
///
/// ```
/// let mut operations = OperationIter::new(expression, encoding);
/// let first = operations.next()?;
/// ```
#[derive(Drop)]
pub struct OperationIter<R: Reader> {
    pub(crate) input: R,
    pub(crate) encoding: Encoding,
    pub(crate) has_failed: bool,
}

impl<R: Reader> OperationIter<R> {
    /// The operations of an expression of a unit that is encoded so.
    pub fn new(expression: Expression<R>, encoding: Encoding) -> OperationIter<R>
        ensures { result ≡ begins expression encoding }
    {
        OperationIter {
            input: expression.0,
            encoding,
            has_failed: false,
        }
    }

    /// The place in the section at which the next operation begins.
    pub fn place(&self) -> usize
        ensures { result ≡ (R.reading self.now.input).place }
    {
        self.input.place()
    }

    /// The next operation. None comes at the expression's end, and once an error was answered.
    pub fn next(&mut self) -> ReadResult<Option<Operation<R>>>
        ensures { ReadsOperation R.reading self.old self.new result }
    {
        if self.has_failed || self.input.len() == 0 {
            return Ok(None);
        }
        let mut after = self.input.duplicate();
        match read_operation(&mut after, self.encoding) {
            Ok(operation) => {
                self.input = after;
                Ok(Some(operation))
            }
            Err(error) => {
                self.has_failed = true;
                Err(error)
            }
        }
    }
}
