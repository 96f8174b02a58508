//! Where the entries of a written unit stand.

ghost use Rattle.std.specs.Prelude.{◌≡◌, ◌+◌, ◌<◌, ◌≤◌, ◌^◌, ℕ};
ghost use Rattle.std.specs.Option.{option_map};
ghost use Rattle.dw_tree.specs.Places.{offsets_in, in_info, placement_of};

use crate::places::Places;
use dw_base::{DebugInfoOffset, UnitEntryId};
use std::marker::Model;

/// The places of the entries of a unit that was written.
#[derive(Drop)]
pub struct UnitOffsets {
    /// Where the unit begins in `.debug_info`.
    start: usize,
    /// Where each entry of the tree stands, counted from there, and 0 for the others.
    places: Vec<u64>,
}

impl Model for UnitOffsets {
    ghost use Rattle.std.specs.Prelude.{slice_index, ◌+◌, ◌<◌, ◌^◌, ℕ};
    ghost use Rattle.dw_tree.specs.Places.{OffsetsValue};

    ghost Value = { OffsetsValue };

    ghost view = { λ o. record { start = o.start; places = o.places.items } };

    ghost invariant = { λ o. (i : ℕ) → o.start + slice_index o.places.items i < 2 ^ 64 };
}

impl UnitOffsets {
    /// The places of a unit that begins there.
    pub fn of(start: usize, places: Places) -> UnitOffsets
        requires bounded { (i : ℕ) → (placement_of places).place i ≤ places.end }
        requires room { start + places.end < 2 ^ 64 }
        ensures { result ≡ record { start = start; places = places.places.items } }
    {
        UnitOffsets {
            start,
            places: places.places,
        }
    }

    /// The place of an entry, counted from the unit's first byte. There is none exactly where the
    /// entry didn't stand in the tree that was written.
    pub fn unit_offset(&self, entry: UnitEntryId) -> Option<u64>
        ensures { result ≡ (offsets_in self.now).place entry.0 }
    {
        match self.places.get(entry.index()) {
            Some(place) if *place != 0 => Some(*place),
            _ => None,
        }
    }

    /// The place of an entry in `.debug_info`. There is none exactly where the entry didn't stand
    /// in the tree that was written.
    pub fn debug_info_offset(&self, entry: UnitEntryId) -> Option<DebugInfoOffset>
        ensures { result
            ≡ option_map (λ n. record { 0 = n }) (in_info (offsets_in self.now) entry.0) }
    {
        let place = self.unit_offset(entry)?;
        Some(DebugInfoOffset(self.start + place as usize))
    }
}
