//! A unit that was split off, all of which was read.

ghost use Rattle.std.specs.Prelude.{◌≤◌, ◌<◌, ◌^◌};
ghost use Rattle.dw_entry_ids.specs.KeptRows.{keep_of};
ghost use Rattle.dw_dwarf.specs.Readable.{IsReadableUnit};
ghost use Rattle.dw_dwarf.specs.UnitIds.{id_behind};

use crate::convert::skeleton::Skeleton;
use dw_entry_ids::{EntryIds, Kept, NumberedUnit};
use dw_read::Reader;
use dw_read_units::Dwarf;

/// The unit of a split file, with the ids of its entries that are kept, and its skeleton.
#[derive(Drop)]
pub(crate) struct SplitUnit<'a, R: Reader> {
    pub(crate) read: &'a Dwarf<R>,
    /// The unit, with what its skeleton says of addresses, and how many of its entries are kept.
    pub(crate) numbered: NumberedUnit<R>,
    pub(crate) ids: EntryIds,
    pub(crate) kept: Kept,
    pub(crate) skeleton: Skeleton<'a, R>,
    ghost readable: { IsReadableUnit R.reading (keep_of kept) numbered },
    ghost free: { 1 ≤ skeleton.first },
    ghost room: { id_behind skeleton.first numbered.entries < 2 ^ 64 },
}
