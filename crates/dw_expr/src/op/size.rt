//! The size of expressions.

ghost use Rattle.std.specs.Prelude.{◌≡◌, ◌+◌, length, IfOk, IfErr, OnOk, IsTrue, IsFalse};
ghost use Rattle.dw_base.specs.declared.error.Error.{Error as AnError};
ghost use Rattle.dw_expr.specs.Causes.{base_fails, operands_size_fails, length_fails, node_size_fails, size_fails};
ghost use Rattle.dw_expr.specs.OperandViews.{operand_in, operands_in};
ghost use Rattle.dw_expr.specs.Places.{known_by, place_by, Sized};
ghost use Rattle.dw_expr.specs.Spelling.{operand_size, operands_size, node_part, expression_size};
ghost use Rattle.dw_expr.specs.Views.{node_of, nodes_in};

use super::operands::{Operand, Operands};
use super::{Expression, Operation};
use crate::places::{EntryPlaces, entry_place};
use dw_base::{Encoding, Error, Result, sleb128_size, uleb128_size};

impl Expression {
    /// How many bytes a `write` that succeeds adds. Takes no memory. An entry whose place in the
    /// unit is spelled in LEB128 has to have one among `places`: without any places it is refused
    /// as `UnsupportedCfiExpressionReference`, and one that has none as
    /// `UnsupportedExpressionForwardReference`; the others may get theirs later. A size that is no
    /// `usize` is `ValueTooLarge`.
    pub fn size<P: EntryPlaces>(&self, encoding: Encoding, places: Option<&P>) -> Result<usize>
        ensures ok { let place = place_by (known_by P.places places.entry) in
            IfOk result (λ n. n ≡ expression_size encoding place self.now) }
        ensures sound { let known = known_by P.places places.entry in
            OnOk result ((e : AnError) → IsFalse (size_fails encoding known self.now e)) }
        ensures err { let known = known_by P.places places.entry in
            IfErr result (λ e. IsTrue (size_fails encoding known self.now e)) }
    {
        operations_size(self.operations.as_slice(), encoding, places)
    }
}

/// The sum of two sizes.
pub fn sum(left: usize, right: usize) -> Result<usize>
    ensures { Sized result (left + right) (length_fails (left + right)) }
{
    match left.checked_add(right) {
        Some(size) => Ok(size),
        None => Err(Error::ValueTooLarge),
    }
}

/// The bytes of operations, one after another.
#[cycle(size)]
pub fn operations_size<P: EntryPlaces>(
    operations: &[Operation],
    encoding: Encoding,
    places: Option<&P>,
) -> Result<usize>
    ensures { let known = known_by P.places places.entry in
        Sized result (expression_size encoding (place_by known) (nodes_in operations.now))
        (size_fails encoding known (nodes_in operations.now)) }
{
    let mut size = 0;
    for operation in operations {
        let more = operation_size(operation, encoding, places)?;
        size = sum(size, more)?;
    }
    Ok(size)
}

/// The bytes of an operation.
#[cycle(size)]
pub fn operation_size<P: EntryPlaces>(
    operation: &Operation,
    encoding: Encoding,
    places: Option<&P>,
) -> Result<usize>
    ensures { let known = known_by P.places places.entry in
        Sized result (node_part encoding (place_by known) (node_of operation.now)).size
        (node_size_fails encoding known (node_of operation.now)) }
{
    if let Operation::EntryValue(expression) = operation {
        let inner = operations_size(expression.operations.as_slice(), encoding, places)?;
        let rest = sum(uleb128_size(inner as u64), inner)?;
        return sum(1, rest);
    }
    operands_bytes(&operation.operands(encoding), encoding, places)
}

/// The bytes of an operation's code and operands.
fn operands_bytes<P: EntryPlaces>(
    operands: &Operands<'_>,
    encoding: Encoding,
    places: Option<&P>,
) -> Result<usize>
    ensures { let known = known_by P.places places.entry in
        Sized result (operands_size encoding (place_by known) (operands_in operands.now))
        (operands_size_fails encoding known (operands_in operands.now)) }
{
    let code = operand_bytes(&operands.code, encoding, places)?;
    let first = operand_bytes(&operands.first, encoding, places)?;
    let second = operand_bytes(&operands.second, encoding, places)?;
    let third = operand_bytes(&operands.third, encoding, places)?;
    let last = sum(second, third)?;
    let behind = sum(first, last)?;
    sum(code, behind)
}

/// The bytes of an operand.
fn operand_bytes<P: EntryPlaces>(
    operand: &Operand<'_>,
    encoding: Encoding,
    places: Option<&P>,
) -> Result<usize>
    ensures ok { let place = place_by (known_by P.places places.entry) in
        IfOk result (λ n. n ≡ operand_size encoding place (operand_in operand.now)) }
    ensures sound { let known = known_by P.places places.entry in
        OnOk result ((e : AnError) → IsFalse
        (base_fails encoding known (operand_in operand.now) e)) }
    ensures err { let known = known_by P.places places.entry in
        IfErr result (λ e. IsTrue (base_fails encoding known (operand_in operand.now) e)) }
{
    match operand {
        Operand::Nothing => Ok(0),
        Operand::Byte(_) | Operand::Count(_) => Ok(1),
        Operand::Bytes(bytes) => Ok(bytes.len()),
        Operand::Uleb(number) => Ok(uleb128_size(*number)),
        Operand::Sleb(number) => Ok(sleb128_size(*number)),
        Operand::Target(_) => Ok(encoding.address_size as usize),
        Operand::Base(entry) => {
            let place = entry_place(places, *entry)?;
            Ok(uleb128_size(place))
        }
        Operand::Place(_) => Ok(4),
        Operand::Info(_, width) => Ok(*width as usize),
        Operand::Distance(_) => Ok(2),
    }
}
