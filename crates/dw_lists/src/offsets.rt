//! The places of written lists.

ghost use Rattle.std.specs.Prelude.{◌≡◌, slice_get};
ghost use Rattle.std.specs.Option.{option_map};

use dw_base::{LocationListId, LocationListsOffset, RangeListId, RangeListsOffset};
use std::marker::Model;

/// Where the first offset entry and the lists of a table were written.
#[derive(Drop)]
pub(crate) struct ListPlaces {
    pub(crate) base: Option<usize>,
    pub(crate) places: Vec<usize>,
}

impl Model for ListPlaces {
    ghost use Rattle.dw_lists.specs.Tables.{Offsets};

    ghost Value = { Offsets };

    ghost view = { λ list. record { base = list.base; places = list.places.items } };
}

/// Where the range lists of a table were written, in bytes from the section's begin.
///
/// ```
/// let offsets = ranges.write(&mut sections, encoding, false)?;
/// let place = offsets.get(id); // `Some`, as the table has a list of this id
/// ```
#[derive(Drop)]
pub struct RangeListOffsets {
    pub(crate) lists: ListPlaces,
}

impl Model for RangeListOffsets {
    ghost use Rattle.dw_lists.specs.Tables.{Offsets};

    ghost Value = { Offsets };

    ghost view = { λ offsets. offsets.lists };
}

impl RangeListOffsets {
    /// Where the list of an id stands, or `None` if the written table had no such list.
    pub fn get(&self, id: RangeListId) -> Option<RangeListsOffset>
        ensures { result ≡ option_map (λ place. record { 0 = place })
            (slice_get self.now.places id.0) }
    {
        let place = *self.lists.places.get(id.index())?;
        Some(RangeListsOffset(place))
    }

    /// Where the first offset entry of the table stands, which it has in version 5 alone: what
    /// `DW_AT_rnglists_base` holds (DWARF 5, 7.28).
    pub fn base(&self) -> Option<usize>
        ensures { result ≡ self.now.base }
    {
        self.lists.base
    }
}

/// Where the location lists of a table were written, in bytes from the section's begin.
///
/// ```
/// let offsets = locations.write(&mut sections, encoding, false, Some(&places))?;
/// let place = offsets.get(id); // `Some`, as the table has a list of this id
/// ```
#[derive(Drop)]
pub struct LocationListOffsets {
    pub(crate) lists: ListPlaces,
}

impl Model for LocationListOffsets {
    ghost use Rattle.dw_lists.specs.Tables.{Offsets};

    ghost Value = { Offsets };

    ghost view = { λ offsets. offsets.lists };
}

impl LocationListOffsets {
    /// Where the list of an id stands, or `None` if the written table had no such list.
    pub fn get(&self, id: LocationListId) -> Option<LocationListsOffset>
        ensures { result ≡ option_map (λ place. record { 0 = place })
            (slice_get self.now.places id.0) }
    {
        let place = *self.lists.places.get(id.index())?;
        Some(LocationListsOffset(place))
    }

    /// Where the first offset entry of the table stands, which it has in version 5 alone: what
    /// `DW_AT_loclists_base` holds (DWARF 5, 7.29).
    pub fn base(&self) -> Option<usize>
        ensures { result ≡ self.now.base }
    {
        self.lists.base
    }
}
