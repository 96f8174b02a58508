//! Expressions as they are kept while they are converted.

ghost use Rattle.std.specs.Prelude.{◌≡◌, ◌⊎◌, IfOk, IfErr};
ghost use Rattle.std.specs.List.Sorted.{IsNonDecreasing};
ghost use Rattle.dw_read.specs.Reading.{left};
ghost use Rattle.dw_sources.specs.declared.convert_error.ConvertError.TheVariants.{NoMemory};
ghost use Rattle.dw_convert.specs.Branches.{TargetOutcome};
ghost use Rattle.dw_convert.specs.Expressions.{MissesOperation};
ghost use Rattle.dw_convert.specs.Listings.{IsListing};

use dw_base::Encoding;
use dw_read::{Expression, Reader};
use dw_sources::{ConvertError, ConvertResult, Operation, OperationIter};
use std::alloc::Global;

/// An operation, and how many bytes of its expression stand before what follows it.
#[derive(Drop)]
pub(crate) struct Step<R: Reader> {
    pub(crate) operation: Operation<R>,
    pub(crate) behind: usize,
}

/// The operations of an expression, and where in it they begin; the last place is the end.
#[derive(Drop)]
pub(crate) struct Listing<R: Reader> {
    pub(crate) encoding: Encoding,
    pub(crate) steps: Vec<Step<R>>,
    pub(crate) begins: Vec<usize>,
}

/// Reads an expression to its end. It is never made part of its caller, whose frames stand on the
/// stack once for each expression around this one.
#[inline(never)]
pub(crate) fn read_listing<R: Reader>(
    alloc: Global,
    expression: Expression<R>,
    encoding: Encoding,
) -> ConvertResult<Listing<R>>
    ensures ok { IfOk result (IsListing R.reading (R.reading expression.0) encoding) }
    ensures err { IfErr result (λ e. (e ≡ NoMemory) ⊎ MissesOperation
        (R.reading expression.0).is_big encoding (left (R.reading expression.0)) e) }
{
    let mut operations = OperationIter::new(expression, encoding);
    let begin = operations.place();
    let mut steps = Vec::new(alloc);
    let mut begins = Vec::new(alloc);
    begins.push(0)?;
    'operations: while let Some(operation) = operations.next()? {
        let behind = operations.place() - begin;
        steps.push(Step { operation, behind })?;
        begins.push(behind)?;
    }
    Ok(Listing {
        encoding,
        steps,
        begins,
    })
}

/// The index of the operation to which a branch leads, by the place behind the branch.
pub(crate) fn target(begins: &[usize], behind: usize, distance: i16) -> ConvertResult<usize>
    requires { IsNonDecreasing begins.now }
    ensures { TargetOutcome begins.now behind distance result }
{
    let Some(place) = behind.checked_add_signed(isize::from(distance)) else {
        return Err(ConvertError::InvalidBranchTarget);
    };
    match begins.binary_search(&place) {
        Ok(index) => Ok(index),
        Err(_) => Err(ConvertError::InvalidBranchTarget),
    }
}
