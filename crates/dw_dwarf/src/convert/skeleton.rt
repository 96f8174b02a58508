//! What a unit that was split off takes from its skeleton.

ghost use Rattle.std.specs.Prelude.{◌≡◌, ◌≤◌, IfSome};
ghost use Rattle.dw_dwarf.specs.Skeletons.{first_of, lines_of, skeleton_unit};
ghost use Rattle.dw_dwarf.specs.UnitIds.{id_of, ids_of, placed_id};

use dw_base::UnitEntryId;
use dw_read::Reader;
use dw_read_units::UnitRef;

/// The skeleton of a unit (DWARF 5, 3.1.2), and where the unit goes that was split off.
#[derive(Drop)]
#[derive_where(Clone, Copy)]
pub(crate) struct Skeleton<'a, R: Reader> {
    /// The unit that is read, which has the line program and the encoding.
    pub(crate) read: UnitRef<'a, R>,
    /// The id of the first entry behind the root: the first that the skeleton's unit hasn't handed
    /// out.
    pub(crate) first: usize,
}

/// The id of the entry of a number, where those behind the root begin at an id, if that is given.
pub(crate) fn id_of(first: Option<usize>, number: UnitEntryId) -> UnitEntryId
    ensures { id_of first number.0 ≤ usize.MAX → result.0 ≡ id_of first number.0 }
{
    match (first, number.index()) {
        (None, _) | (_, 0) => number,
        (Some(first), number) => UnitEntryId::new(first.saturating_add(number - 1)),
    }
}

/// The same where it has room.
pub(crate) fn placed_id(first: Option<usize>, number: UnitEntryId) -> Option<UnitEntryId>
    ensures { result ≡ placed_id first number }
{
    match (first, number.index()) {
        (None, _) | (_, 0) => Some(number),
        (Some(first), number) => first.checked_add(number - 1).map(UnitEntryId::new),
    }
}

/// The ids of an entry that is kept, or isn't.
pub(crate) fn ids_of(first: Option<usize>, number: Option<UnitEntryId>) -> Option<UnitEntryId>
    ensures { IfSome number (λ n. id_of first n.0 ≤ usize.MAX) → result ≡ ids_of first number }
{
    match number {
        Some(number) => Some(id_of(first, number)),
        None => None,
    }
}

/// The id at which those of a unit's entries behind the root begin, if it was split off.
pub(crate) fn first_of<R: Reader>(skeleton: Option<Skeleton<'_, R>>) -> Option<usize>
    ensures { result ≡ first_of skeleton.entry }
{
    skeleton.map(|skeleton| skeleton.first)
}

/// The unit that has the line program and the encoding of one: its skeleton, where it was split
/// off, else itself.
pub(crate) fn lines_of<'a, R: Reader>(
    skeleton: Option<Skeleton<'a, R>>,
    read: UnitRef<'a, R>,
) -> UnitRef<'a, R>
    ensures { result ≡ lines_of skeleton.entry read.entry }
{
    match skeleton {
        Some(skeleton) => skeleton.read,
        None => read,
    }
}

/// The skeleton that was read.
pub(crate) fn skeleton_unit<'a, R: Reader>(
    skeleton: Option<Skeleton<'a, R>>,
) -> Option<UnitRef<'a, R>>
    ensures { result ≡ skeleton_unit skeleton.entry }
{
    skeleton.map(|skeleton| skeleton.read)
}
