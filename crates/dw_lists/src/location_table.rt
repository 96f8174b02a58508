//! The location lists of a unit.

ghost use Rattle.std.specs.Prelude.{All, true, ◌≡◌, ◌<◌, [], length, Some, slice_get, OnOk, OnErr};
ghost use Rattle.std.specs.Prelude.{IfOk, IfErr};
ghost use Rattle.dw_base.specs.declared.error.Error.TheVariants.{NoMemory};
ghost use Rattle.dw_writer.specs.Drafts.{Drafts};
ghost use Rattle.dw_writer.specs.Meaning.{IsSameWriter};
ghost use Rattle.dw_expr.specs.Places.{known_by, place_by};
ghost use Rattle.dw_lists.specs.EqualLocations.{locations_eq};
ghost use Rattle.dw_lists.specs.Lists.{list_index, with_list, AllDiffer};
ghost use Rattle.dw_lists.specs.Items.{is_five};
ghost use Rattle.dw_lists.specs.Tables.{table_draft, offsets_from, locations_in, locations_of};
ghost use Rattle.dw_lists.specs.Tables.{fixups_of, AreNumbered, OtherListsStay, IsReadAgain};
ghost use Rattle.dw_lists.specs.Causes.{Refused, Is, IsNone, table_fails};

use crate::lists::write_table;
use crate::location::LocationList;
use crate::offsets::LocationListOffsets;
use dw_base::{Encoding, LocationListId, Result};
use dw_expr::EntryPlaces;
use dw_writer::{FixupList, Sections, Writer};
use indexmap::IndexSet;
use std::alloc::Global;
use std::marker::Model;

/// The location lists of a unit, which attributes name by their ids. Equal lists are kept once,
/// and ids stay as lists are added.
///
/// ```
/// let mut locations = LocationListTable::new(alloc);
/// let list = vec![in alloc; Location::DefaultLocation { expression }]?;
/// let id = locations.add(LocationList(list))?;
/// ```
#[derive(Drop)]
pub struct LocationListTable {
    lists: IndexSet<LocationList>,
}

impl Model for LocationListTable {
    ghost use Rattle.std.specs.Prelude.{List};
    ghost use Rattle.dw_lists.specs.declared.location.Location.{Location};
    ghost use Rattle.dw_lists.specs.Codes.{table_code};

    ghost Value = { List (List Location) };

    ghost coded = { table_code };

    ghost view = { λ table. table.lists.keys };
}

impl LocationListTable {
    /// A table of no lists.
    pub fn new(alloc: Global) -> LocationListTable
        ensures { result ≡ [] }
    {
        LocationListTable {
            lists: IndexSet::new(alloc),
        }
    }

    /// The id of a list, which is added if none equals it. One that is there already is dropped.
    pub fn add(&mut self, location_list: LocationList) -> Result<LocationListId>
        ensures id { IfOk result (λ id. id.0 ≡ list_index locations_eq self.old location_list) }
        ensures ok { OnOk result (self.new ≡ with_list locations_eq self.old location_list) }
        ensures named { IfOk result (λ id. slice_get self.new id.0 ≡ Some location_list) }
        ensures err { IfErr result (λ e. e ≡ NoMemory) }
        ensures kept { OnErr result (self.new ≡ self.old) }
    {
        let (index, _) = self.lists.insert_full(location_list)?;
        Ok(LocationListId::new(index))
    }

    /// How many lists there are. No two of them are equal.
    pub fn count(&self) -> usize
        ensures len { result ≡ length self.now }
        ensures differ { AllDiffer self.now }
    {
        self.lists.len()
    }

    /// The list of an id.
    pub fn get(&self, id: LocationListId) -> &LocationList
        requires { id.0 < length self.now }
        ensures { slice_get self.now id.0 ≡ Some result.now }
    {
        &self.lists.as_slice()[id.index()]
    }

    /// Writes the table: in version 5 to `.debug_loclists`, with an entry for each list (DWARF 5,
    /// 7.29), and up to version 4 to `.debug_loc` (DWARF 4, 7.7.3). A table without lists writes
    /// nothing. The places of entries in the unit are taken from `places`. Those in `.debug_info`
    /// are left as zeros, each with a fixup in the list of the section.
    ///
    /// Refused are what range lists are refused for, every cause of an expression, and up to
    /// version 4 a default location (`InvalidRange`) and an expression of more than 65,535 bytes
    /// (`ValueTooLarge`). Every list of the table is looked at.
    pub fn write<W: Writer, P: EntryPlaces>(
        &self,
        sections: &mut Sections<W>,
        encoding: Encoding,
        have_base_address: bool,
        places: Option<&P>,
    ) -> Result<LocationListOffsets>
        ensures ok { let place = place_by (known_by P.places places.entry) in
            OnOk result (Drafts (locations_of W.meaning encoding sections.old)
            (locations_of W.meaning encoding sections.new)
            (fixups_of encoding sections.old) (fixups_of encoding sections.new)
            (table_draft true encoding place (locations_in self.now))) }
        ensures offsets { let place = place_by (known_by P.places places.entry) in
            IfOk result (λ r. r ≡ offsets_from true encoding place
            (locations_of W.meaning encoding sections.old).size (locations_in self.now)) }
        ensures again { let place = place_by (known_by P.places places.entry) in
            OnOk result (IsReadAgain true encoding place (locations_in self.now)) }
        // A plain writer takes no symbols, so there each list is found.
        ensures numbered { OnOk result
            ((locations_of W.meaning encoding sections.old).is_plain ≡ true →
            All AreNumbered (locations_in self.now)) }
        ensures others { OtherListsStay (is_five encoding) sections.old sections.new }
        ensures sound { let known = known_by P.places places.entry in
            OnOk result (IsNone (table_fails true encoding known have_base_address
            (locations_of W.meaning encoding sections.old).is_plain (locations_in self.now))) }
        ensures err { let known = known_by P.places places.entry in
            IfErr result (Refused (locations_of W.meaning encoding sections.old)
            (locations_of W.meaning encoding sections.new)
            (Is (table_fails true encoding known have_base_address
            (locations_of W.meaning encoding sections.old).is_plain
            (locations_in self.now)))) }
        ensures same { IsSameWriter (locations_of W.meaning encoding sections.old)
            (locations_of W.meaning encoding sections.new) }
    {
        if encoding.version == 5 {
            let w = &mut sections.debug_loclists.0;
            let fixups = &mut sections.debug_loclists_fixups;
            self.write_to(encoding, have_base_address, places, w, fixups)
        } else {
            let w = &mut sections.debug_loc.0;
            let fixups = &mut sections.debug_loc_fixups;
            self.write_to(encoding, have_base_address, places, w, fixups)
        }
    }

    /// Writes the lists to the section of their version.
    fn write_to<W: Writer, P: EntryPlaces>(
        &self,
        encoding: Encoding,
        has_base: bool,
        places: Option<&P>,
        w: &mut W,
        fixups: &mut FixupList,
    ) -> Result<LocationListOffsets>
        ensures ok { let place = place_by (known_by P.places places.entry) in
            OnOk result (Drafts (W.meaning w.old) (W.meaning w.new) fixups.old fixups.new
            (table_draft true encoding place (locations_in self.now))) }
        ensures offsets { let place = place_by (known_by P.places places.entry) in
            IfOk result (λ r. r ≡ offsets_from true encoding place
            (W.meaning w.old).size (locations_in self.now)) }
        ensures again { let place = place_by (known_by P.places places.entry) in
            OnOk result (IsReadAgain true encoding place (locations_in self.now)) }
        ensures numbered { OnOk result
            ((W.meaning w.old).is_plain ≡ true → All AreNumbered (locations_in self.now)) }
        ensures sound { let known = known_by P.places places.entry in
            OnOk result (IsNone (table_fails true encoding known has_base
            (W.meaning w.old).is_plain (locations_in self.now))) }
        ensures err { let known = known_by P.places places.entry in
            IfErr result (Refused (W.meaning w.old) (W.meaning w.new)
            (Is (table_fails true encoding known has_base
            (W.meaning w.old).is_plain (locations_in self.now)))) }
        ensures same { IsSameWriter (W.meaning w.old) (W.meaning w.new) }
    {
        let alloc = *self.lists.allocator();
        let lists = self.lists.as_slice();
        let lists = write_table(alloc, lists, encoding, has_base, places, w, fixups)?;
        Ok(LocationListOffsets { lists })
    }
}
