//! The units of a table, one after another.

ghost use Rattle.std.specs.Prelude.{◌≡◌};
ghost use Rattle.std.specs.Iterator.{YieldsFirstBy, item_count};
ghost use Rattle.dw_unit.specs.UnitIds.{with_ids};

use crate::unit::Unit;
use dw_base::UnitId;
use std::iter::FusedIterator;
use std::marker::Model;

/// The units of a table with their ids, in order, seen as those that are still to come.
///
/// ```
/// for (id, unit) in dwarf.units.iter() {
///     println!(rt; "unit {} has {} entries", id.index(), unit.count())?;
/// }
/// ```
#[derive(Drop)]
pub struct UnitIter<'a> {
    units: &'a [Unit],
    // The index of the first of `units` in the table.
    index: usize,
}

impl<'a> Model for UnitIter<'a> {
    ghost use Rattle.std.specs.Prelude.{List, length, ◌+◌, ◌<◌, ◌^◌};
    ghost use Rattle.std.specs.Coded.{codes};
    ghost use Rattle.dw_expr.specs.Codes.{node_code};
    ghost use Rattle.dw_unit.specs.UnitIds.{UnitWithId, with_ids_from};

    ghost Value = { List UnitWithId };

    ghost coded = { Prim.hlevel (codes, node_code) };

    ghost view = { λ it. with_ids_from it.index it.units.now };

    // So each index is a number of its type.
    ghost invariant = { λ it. it.index + length it.units.now < 2 ^ 64 };
}

impl<'a> UnitIter<'a> {
    /// All of these units, the first of which has the index 0.
    pub(crate) fn new(units: &'a [Unit]) -> UnitIter<'a>
        ensures { result ≡ with_ids units.now }
    {
        UnitIter { units, index: 0 }
    }
}

impl<'a> Iterator for UnitIter<'a> {
    type Item = (UnitId, &'a Unit);

    ghost next_gives = { YieldsFirstBy (λ item. record { id = item.0.0; unit = item.1.now })
        (λ rest. rest) };

    ghost remaining = { item_count (λ rest. rest) };

    fn next(&mut self) -> Option<(UnitId, &'a Unit)> {
        let (unit, rest) = self.units.split_first()?;
        let id = UnitId::new(self.index);
        self.units = rest;
        self.index += 1;
        Some((id, unit))
    }
}

impl<'a> FusedIterator for UnitIter<'a> {}
