//! The entry that an operation names (DWARF 5, 2.5 and 2.6.1).

ghost use Rattle.std.specs.Prelude.{◌≡◌};
ghost use Rattle.dw_sources.specs.OperationViews.{operation_of};
ghost use Rattle.dw_filter.specs.Places.{place_in, base_place, place_named};
ghost use Rattle.dw_filter.specs.PlaceViews.{bounds_of};
ghost use Rattle.dw_read.specs.Took.{option_of};

use dw_base::{UnitOffset, UnitSectionOffset};
use dw_read::Reader;
use dw_read_units::UnitRef;
use dw_sources::Operation;

/// The place in `.debug_info` of the entry that an operation of a unit names.
pub(crate) fn place_named<R: Reader>(
    unit: UnitRef<'_, R>,
    operation: &Operation<R>,
) -> Option<UnitSectionOffset>
    ensures { result ≡ place_named (bounds_of R.reading unit.entry)
        (operation_of R.reading operation.now) }
{
    match operation {
        Operation::ConstantType(base, _) => place_in(unit, *base),
        Operation::RegisterType(_, base) => place_in(unit, *base),
        Operation::DerefType { base, .. } => place_in(unit, *base),
        Operation::Convert(base) => base_place(unit, *base),
        Operation::Reinterpret(base) => base_place(unit, *base),
        Operation::Call(entry) => place_in(unit, *entry),
        Operation::ParameterRef(entry) => place_in(unit, *entry),
        Operation::CallRef(entry) => Some(UnitSectionOffset(entry.0)),
        Operation::VariableValue(entry) => Some(UnitSectionOffset(entry.0)),
        Operation::ImplicitPointer { entry, .. } => Some(UnitSectionOffset(entry.0)),
        _ => None,
    }
}

/// That of a base type; the generic type has no entry.
fn base_place<R: Reader>(
    unit: UnitRef<'_, R>,
    base: Option<UnitOffset>,
) -> Option<UnitSectionOffset>
    ensures { result ≡ base_place (bounds_of R.reading unit.entry) (option_of (λ b. b.0) base) }
{
    match base {
        Some(base) => place_in(unit, base),
        None => None,
    }
}

/// The place in `.debug_info` of a place in the unit, where it lies in the unit and behind its
/// header: no entry begins elsewhere.
pub(crate) fn place_in<R: Reader>(
    unit: UnitRef<'_, R>,
    offset: UnitOffset,
) -> Option<UnitSectionOffset>
    ensures { result ≡ place_in (bounds_of R.reading unit.entry) offset.0 }
{
    if !unit.contains(offset) {
        return None;
    }
    match unit.unit.header.offset().0.checked_add(offset.0) {
        Some(place) => Some(UnitSectionOffset(place)),
        None => None,
    }
}
