//! The entries that an expression names, with those of the expressions within it (DWARF 5, 2.5).

ghost use Rattle.std.specs.Prelude.{◌≡◌, [], ◌++◌, OnOk, IfErr};
ghost use Rattle.dw_sources.specs.declared.convert_error.ConvertError.TheVariants.{NoMemory};
ghost use Rattle.dw_filter.specs.NextNames.{ReadsNext, NamesNext, begun_in};
ghost use Rattle.dw_filter.specs.PlaceViews.{named_by, held_within};
ghost use Rattle.dw_filter.specs.Places.{if_any};

use crate::operation_places::place_named;
use dw_base::{Encoding, UnitSectionOffset};
use dw_read::{Expression, Reader};
use dw_read_units::UnitRef;
use dw_sources::{ConvertResult, Operation, OperationIter};
use std::alloc::Global;

/// Adds the places in `.debug_info` of the entries that an expression of a unit names, in bytes
/// from the section's begin and in the order of its operations. What an expression within an
/// operation names (`DW_OP_entry_value`) stands where that operation does.
///
/// A place in the unit counts where it lies in the unit and behind its header. A place in
/// `.debug_info` counts wherever it leads; that an entry begins there isn't looked at. An
/// expression that can't be read to its end counts up to the first operation that can't be read,
/// and one around it goes on behind it.
///
/// Refused only for want of memory (`NoMemory`); some of the places may have been added then.
///
/// ```
/// let mut places = Vec::new(alloc);
/// add_expression_places(alloc, unit, expression, &mut places)?;
/// ```
pub fn add_expression_places<R: Reader>(
    alloc: Global,
    unit: UnitRef<'_, R>,
    expression: Expression<R>,
    places: &mut Vec<UnitSectionOffset>,
) -> ConvertResult<()>
    ensures ok { OnOk result
        (places.new.items ≡ places.old.items ++ named_by R.reading unit.entry expression) }
    ensures err { IfErr result (λ e. e ≡ NoMemory) }
{
    let mut pending = Vec::new(alloc);
    read_all(unit, expression, &mut pending, places)
}

/// Reads an expression with those within it. Pending are those that aren't read to their end, each
/// within the one before it; none is before. Input may nest them as deep as it has bytes, so they
/// take memory and no stack.
fn read_all<R: Reader>(
    unit: UnitRef<'_, R>,
    expression: Expression<R>,
    pending: &mut Vec<OperationIter<R>>,
    places: &mut Vec<UnitSectionOffset>,
) -> ConvertResult<()>
    requires { pending.old.items ≡ [] }
    ensures ok { OnOk result
        (places.new.items ≡ places.old.items ++ named_by R.reading unit.entry expression) }
    ensures err { IfErr result (λ e. e ≡ NoMemory) }
{
    pending.push(OperationIter::new(expression, unit.encoding()))?;
    'walk: while let Some(operations) = pending.pop() {
        read_next(unit, operations, pending, places)?;
    }
    Ok(())
}

/// Reads the next operation of an expression. The expression is pending then, and the one within
/// the operation behind it, which is read first. Where no operation can be read, neither is.
fn read_next<R: Reader>(
    unit: UnitRef<'_, R>,
    mut operations: OperationIter<R>,
    pending: &mut Vec<OperationIter<R>>,
    places: &mut Vec<UnitSectionOffset>,
) -> ConvertResult<()>
    ensures ok { OnOk result (ReadsNext R.reading unit.entry operations
        pending.old.items pending.new.items places.old.items places.new.items) }
    ensures err { IfErr result (λ e. e ≡ NoMemory) }
{
    let Some(named) = next_named(unit, &mut operations) else {
        return Ok(());
    };
    pending.push(operations)?;
    begin(named.within, unit.encoding(), pending)?;
    add_place(named.place, places)
}

/// What an operation names: an entry, or what the expression within it does.
#[derive(Drop)]
struct Named<R: Reader> {
    place: Option<UnitSectionOffset>,
    within: Option<Expression<R>>,
}

/// What the next operation of an expression names. None comes at its end, and where the operation
/// can't be read: what was read before counts.
fn next_named<R: Reader>(
    unit: UnitRef<'_, R>,
    operations: &mut OperationIter<R>,
) -> Option<Named<R>>
    ensures { NamesNext R.reading unit.entry operations.old operations.new result }
{
    match operations.next() {
        Ok(Some(operation)) => Some(Named {
            place: place_named(unit, &operation),
            within: expression_within(operation),
        }),
        Ok(None) => None,
        Err(_) => None,
    }
}

/// The expression that stands within an operation.
fn expression_within<R: Reader>(operation: Operation<R>) -> Option<Expression<R>>
    ensures { result ≡ held_within operation }
{
    match operation {
        Operation::EntryValue(expression) => Some(expression),
        _other => None,
    }
}

/// Adds an expression, where there is one, to those that are pending.
fn begin<R: Reader>(
    expression: Option<Expression<R>>,
    encoding: Encoding,
    pending: &mut Vec<OperationIter<R>>,
) -> ConvertResult<()>
    ensures ok { OnOk result
        (pending.new.items ≡ pending.old.items ++ begun_in encoding expression) }
    ensures err { IfErr result (λ e. e ≡ NoMemory) }
{
    if let Some(expression) = expression {
        pending.push(OperationIter::new(expression, encoding))?;
    }
    Ok(())
}

/// Adds a place, where there is one, to others.
pub(crate) fn add_place(
    place: Option<UnitSectionOffset>,
    places: &mut Vec<UnitSectionOffset>,
) -> ConvertResult<()>
    ensures ok { OnOk result (places.new.items ≡ places.old.items ++ if_any place) }
    ensures err { IfErr result (λ e. e ≡ NoMemory) }
{
    if let Some(place) = place {
        places.push(place)?;
    }
    Ok(())
}
