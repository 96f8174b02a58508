//! Expressions that are values.

ghost use Rattle.std.specs.Prelude.{◌≡◌, ◌⊎◌, [], ◌∷◌, IfOk, IfErr, Ok, Err};
ghost use Rattle.dw_expr.specs.Trees.{plain, Raw};
ghost use Rattle.dw_read.specs.Reading.{left};
ghost use Rattle.dw_sources.specs.declared.convert_error.ConvertError.TheVariants.{NoMemory};
ghost use Rattle.dw_convert.specs.Exprlocs.{ExprlocOutcome, is_index, begins_with_constu};

use crate::constant::copied;
use crate::expressions::expression;
use crate::references::ConvertDebugInfoRef;
use dw_base::constants::{DW_AT_vtable_elem_location, DW_OP_constu};
use dw_base::{Address, DwAt};
use dw_expr::Expression;
use dw_read::{Expression as ReadExpression, Reader};
use dw_read_units::UnitRef;
use dw_sources::{ConvertError, ConvertResult};
use std::alloc::Global;

/// What the expression under a name becomes.
pub(crate) fn convert_exprloc<R: Reader, C: ConvertDebugInfoRef, F: Fn(u64) -> Option<Address>>(
    alloc: Global,
    unit: UnitRef<'_, R>,
    name: DwAt,
    read: ReadExpression<R>,
    convert_address: &F,
    refs: &C,
) -> ConvertResult<Expression>
    requires { F.IsAlwaysCallable convert_address.now }
    ensures ok { IfOk result (λ x. ExprlocOutcome R.reading (F.post convert_address.now)
        (C.entries refs.now) (C.infos refs.now) unit.entry (R.reading read.0).is_big name.0
        (left (R.reading read.0)) (Ok x)) }
    ensures err { IfErr result (λ e. (e ≡ NoMemory) ⊎ ExprlocOutcome R.reading
        (F.post convert_address.now) (C.entries refs.now) (C.infos refs.now) unit.entry
        (R.reading read.0).is_big name.0 (left (R.reading read.0)) (Err e)) }
{
    if is_index(name, read.0.to_slice()) {
        return spelled(alloc, &read.0);
    }
    let encoding = unit.encoding();
    expression(alloc, read, encoding, Some(unit), convert_address, refs)
}

/// An expression that stays as it is spelled.
fn spelled<R: Reader>(alloc: Global, bytes: &R) -> ConvertResult<Expression>
    ensures ok { IfOk result (λ x. x ≡ plain (Raw (left (R.reading bytes.now))) ∷ []) }
    ensures err { IfErr result (λ e. e ≡ NoMemory) }
{
    let bytes = copied(alloc, bytes)?;
    Expression::raw(alloc, bytes).map_err(|_| ConvertError::NoMemory)
}

/// Whether an expression is the index of a virtual function, which compilers write as a constant
/// and read again as it stands.
fn is_index(name: DwAt, bytes: &[u8]) -> bool
    ensures { result ≡ is_index name.0 bytes.now }
{
    name.0 == DW_AT_vtable_elem_location.0 && begins_with_constu(bytes)
}

fn begins_with_constu(bytes: &[u8]) -> bool
    ensures { result ≡ begins_with_constu bytes.now }
{
    match bytes.first() {
        Some(first) => *first == DW_OP_constu.0,
        None => false,
    }
}
