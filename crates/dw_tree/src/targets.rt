//! What the operands of a unit lead to.

ghost use Rattle.std.specs.Prelude.{◌≡◌, slice_get};
ghost use Rattle.std.specs.Option.{is_some};
ghost use Rattle.dw_tree.specs.Elsewhere.{string_there, own_in};

use crate::places::Places;
use dw_base::{DebugLineOffset, LineStringId, LocationListId, RangeListId, SectionId, StringId};
use dw_lists::{LocationListOffsets, RangeListOffsets};
use dw_strings::{LineStringTable, StringTable};
use std::marker::Model;

/// Where what a unit leaves in other sections stands that hangs on no place of its entries: its
/// line program, if it has one there, and its range lists.
#[derive(Drop)]
pub struct PartPlaces {
    pub line_program: Option<DebugLineOffset>,
    pub ranges: RangeListOffsets,
}

impl Model for PartPlaces {
    ghost use Rattle.std.specs.Option.{option_map};
    ghost use Rattle.dw_tree.specs.Elsewhere.{PartPlaces as Stand};

    ghost Value = { Stand };

    ghost view = { λ parts. record {
      line_program = option_map (λ o. o.0) parts.line_program;
      ranges = parts.ranges;
    } };
}

impl PartPlaces {
    ghost use Rattle.dw_tree.specs.Elsewhere.{with_locations};

    /// Tells that the unit's line program is in use.
    pub fn has_line_program(&self) -> bool
        ensures { result ≡ is_some self.now.line_program }
    {
        self.line_program.is_some()
    }

    /// The same with the unit's location lists.
    pub(crate) fn with_locations(self, locations: LocationListOffsets) -> OwnPlaces
        ensures { result ≡ with_locations self locations }
    {
        OwnPlaces {
            line_program: self.line_program,
            ranges: self.ranges,
            locations,
        }
    }
}

/// Where what a unit leaves in other sections stands: its line program, if it has one there, its
/// range lists and its location lists.
#[derive(Drop)]
pub(crate) struct OwnPlaces {
    pub(crate) line_program: Option<DebugLineOffset>,
    pub(crate) ranges: RangeListOffsets,
    pub(crate) locations: LocationListOffsets,
}

impl Model for OwnPlaces {
    ghost use Rattle.std.specs.Option.{option_map};
    ghost use Rattle.dw_tree.specs.Elsewhere.{OwnPlaces as Stand};

    ghost Value = { Stand };

    ghost view = { λ own. record {
      line_program = option_map (λ o. o.0) own.line_program;
      ranges = own.ranges;
      locations = own.locations;
    } };
}

/// Where what operands name has its place: entries in the unit, the unit's own parts of other
/// sections, and strings in theirs.
#[derive(Drop)]
pub(crate) struct Targets<'a> {
    pub(crate) places: &'a Places,
    pub(crate) own: &'a OwnPlaces,
    pub(crate) line_strings: &'a LineStringTable,
    pub(crate) strings: &'a StringTable,
}

impl Targets<'_> {
    ghost use Rattle.dw_tree.specs.TargetsAt.{tables_at};

    /// The place in a section of what a table has under an index, if it has that.
    pub(crate) fn place_in_table(&self, section: SectionId, index: usize) -> Option<usize>
        ensures { result ≡ (tables_at self.now).part section index }
    {
        let own = self.own;
        match section {
            SectionId::DebugStr => string_place(self.strings, index),
            SectionId::DebugLineStr => line_string_place(self.line_strings, index),
            SectionId::DebugRanges => range_list_place(&own.ranges, index),
            SectionId::DebugRngLists => range_list_place(&own.ranges, index),
            SectionId::DebugLoc => location_list_place(&own.locations, index),
            SectionId::DebugLocLists => location_list_place(&own.locations, index),
            _ => None,
        }
    }
}

/// Where the unit's own part of a section begins, if it has one: its line program, or the first
/// offset entry of its lists.
pub(crate) fn own_place(section: SectionId, own: &OwnPlaces) -> Option<usize>
    ensures { result ≡ own_in own.now section }
{
    match section {
        SectionId::DebugLine => Some(own.line_program?.0),
        SectionId::DebugRngLists => own.ranges.base(),
        SectionId::DebugLocLists => own.locations.base(),
        _ => None,
    }
}

/// Where a range list of the unit begins in the section of its version.
fn range_list_place(ranges: &RangeListOffsets, index: usize) -> Option<usize>
    ensures { result ≡ slice_get ranges.now.places index }
{
    Some(ranges.get(RangeListId::new(index))?.0)
}

/// Where a location list of the unit begins in the section of its version.
fn location_list_place(locations: &LocationListOffsets, index: usize) -> Option<usize>
    ensures { result ≡ slice_get locations.now.places index }
{
    Some(locations.get(LocationListId::new(index))?.0)
}

/// Where a string begins in `.debug_str`.
fn string_place(strings: &StringTable, index: usize) -> Option<usize>
    ensures { result ≡ string_there strings.now index }
{
    if index >= strings.count() {
        return None;
    }
    Some(strings.offset(StringId::new(index)).0)
}

/// Where a string begins in `.debug_line_str`.
fn line_string_place(strings: &LineStringTable, index: usize) -> Option<usize>
    ensures { result ≡ string_there strings.now index }
{
    if index >= strings.count() {
        return None;
    }
    Some(strings.offset(LineStringId::new(index)).0)
}
