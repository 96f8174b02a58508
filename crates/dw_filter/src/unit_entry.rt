//! Entries that a filter reads.

ghost use Rattle.std.specs.Prelude.{◌≡◌, [], None};
ghost use Rattle.std.specs.Option.{option_map};
ghost use Rattle.dw_filter.specs.FilterEntries.{IsLess, spot_above};

use dw_base::{DwTag, UnitEntryId, UnitOffset};
use dw_read::{DebuggingInformationEntry, Reader};
use dw_read_units::UnitRef;
use dw_sources::is_left_out;
use std::alloc::Global;

/// An entry that a filter read from a unit, less the attributes that what is written has of its
/// own: where siblings and tables begin, and split files. It can be read into again and again.
///
/// ```
/// let mut entry = FilterUnitEntry::null(alloc, unit.read_unit);
/// if unit.read_entry(&mut entry)? && entry.parent_tag == Some(DW_TAG_namespace) {
///     unit.require_entry(entry.read_entry.offset)?;
/// }
/// ```
#[derive(Drop)]
pub struct FilterUnitEntry<'a, R: Reader> {
    /// The unit that it was read from.
    pub read_unit: UnitRef<'a, R>,
    /// The entry without those attributes.
    pub read_entry: DebuggingInformationEntry<R>,
    /// The place in the unit of the entry under which it stands; None where that is the root.
    pub parent: Option<UnitOffset>,
    /// The tag of that entry.
    pub parent_tag: Option<DwTag>,
}

impl<'a, R: Reader> FilterUnitEntry<'a, R> {
    /// No entry, to be read into.
    pub fn null(alloc: Global, read_unit: UnitRef<'a, R>) -> FilterUnitEntry<'a, R>
        ensures read_unit { result.read_unit ≡ read_unit.entry }
        ensures attributes { result.read_entry.attrs.items ≡ [] }
        ensures parent { result.parent ≡ None }
        ensures parent_tag { result.parent_tag ≡ None }
    {
        FilterUnitEntry {
            read_unit,
            read_entry: DebuggingInformationEntry::new(alloc),
            parent: None,
            parent_tag: None,
        }
    }

    /// Leaves out the attributes that what is written has of its own.
    pub(crate) fn leave_out(&mut self)
        ensures less { IsLess self.old.read_entry self.new.read_entry }
        ensures others { self.new ≡ record self.old { read_entry = self.new.read_entry } }
    {
        self.read_entry
            .attrs
            .retain(|attribute| !is_left_out(attribute.name()));
    }

    /// Lets it stand under another entry, or under the root.
    pub(crate) fn stand_under(&mut self, above: Option<Spot>)
        ensures { self.new ≡ record self.old {
          parent = option_map (λ s. s.0) above;
          parent_tag = option_map (λ s. s.1) above;
        } }
    {
        match above {
            Some((offset, tag)) => {
                self.parent = Some(offset);
                self.parent_tag = Some(tag);
            }
            None => {
                self.parent = None;
                self.parent_tag = None;
            }
        }
    }
}

/// Where an entry stands in its unit, and its tag.
pub(crate) type Spot = (UnitOffset, DwTag);

/// What is known of the entry of a number, of those of a unit by their numbers, unless it is the
/// root.
pub(crate) fn spot_above(spots: &[Spot], parent: UnitEntryId) -> Option<Spot>
    ensures { result ≡ spot_above spots.now parent.0 }
{
    if parent.index() == 0 {
        return None;
    }
    spots.get(parent.index()).copied()
}
