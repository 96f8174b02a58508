//! The places of entries where there are none.

use dw_base::UnitEntryId;
use dw_expr::EntryPlaces;

/// No entry has a place.
pub(crate) struct NoPlaces;

impl EntryPlaces for NoPlaces {
    ghost use Rattle.std.specs.Prelude.{None};

    ghost places = { λ p i. None };

    fn unit_place(&self, _id: UnitEntryId) -> Option<u64> {
        None
    }
}
