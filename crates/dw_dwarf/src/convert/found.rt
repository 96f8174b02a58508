//! The units of a file, all of which were read before one is converted.

ghost use Rattle.std.specs.Prelude.{◌<◌, ◌^◌, All};
ghost use Rattle.dw_entry_ids.specs.KeptRows.{keep_of};
ghost use Rattle.dw_dwarf.specs.FileUnits.{AreFound};
ghost use Rattle.dw_dwarf.specs.Readable.{IsReadable, IsReadableUnit};
ghost use Rattle.dw_dwarf.specs.Skeletons.{first_of};
ghost use Rattle.dw_dwarf.specs.UnitIds.{IsFree, id_of};

use crate::convert::refs::UnitRefs;
use crate::convert::skeleton::Skeleton;
use dw_entry_ids::{Kept, NumberedUnits};
use dw_read::Reader;
use dw_read_units::{Dwarf, UnitRef};

/// The units of a file in their order, with the ids of their entries that are kept.
#[derive(Drop)]
pub(crate) struct FoundUnits<'a, R: Reader> {
    pub(crate) read: &'a Dwarf<R>,
    pub(crate) found: NumberedUnits<R>,
    pub(crate) kept: Kept,
    ghost numbered: { ∥ AreFound R.reading read.now kept found ∥₁ },
    ghost readable: { All (IsReadableUnit R.reading (keep_of kept)) found.units.items },
}

/// One of them, and the entries that it may name.
#[derive(Drop)]
pub(crate) struct GivenUnit<'a, R: Reader> {
    pub(crate) read: UnitRef<'a, R>,
    pub(crate) refs: UnitRefs<'a>,
    /// Which of its entries are kept.
    pub(crate) kept: &'a Kept,
    /// How many are, its root among them.
    pub(crate) entries: usize,
    /// What it takes from its skeleton, where it was split off.
    pub(crate) skeleton: Option<Skeleton<'a, R>>,
    ghost free: { IsFree (first_of skeleton) },
    ghost room: { id_of (first_of skeleton) entries < 2 ^ 64 },
    ghost readable: { IsReadable R.reading (keep_of kept.now) read.unit.now entries },
}
