//! The range lists of a unit.

ghost use Rattle.std.specs.Prelude.{All, false, true, ◌≡◌, ◌<◌, [], length, None, Some, slice_get};
ghost use Rattle.std.specs.Prelude.{OnOk, OnErr, IfOk, IfErr};
ghost use Rattle.dw_base.specs.declared.error.Error.TheVariants.{NoMemory};
ghost use Rattle.dw_writer.specs.Meaning.{IsSameWriter};
ghost use Rattle.dw_lists.specs.Equal.{list_eq};
ghost use Rattle.dw_lists.specs.Lists.{list_index, with_list, AllDiffer};
ghost use Rattle.dw_lists.specs.Items.{is_five};
ghost use Rattle.dw_lists.specs.Pieces.{IsWritten};
ghost use Rattle.dw_lists.specs.Tables.{table_draft, offsets_from, ranges_in, no_place, ranges_of};
ghost use Rattle.dw_lists.specs.Tables.{AreNumbered, OthersStay, IsReadAgain};
ghost use Rattle.dw_lists.specs.Causes.{Refused, Is, IsNone, table_fails};

use crate::lists::write_table;
use crate::offsets::RangeListOffsets;
use crate::places::NoPlaces;
use crate::range::RangeList;
use dw_base::{Encoding, RangeListId, Result};
use dw_writer::{FixupList, Sections, Writer};
use indexmap::IndexSet;
use std::alloc::Global;
use std::marker::Model;

/// The range lists of a unit, which attributes name by their ids. Equal lists are kept once, and
/// ids stay as lists are added.
///
/// ```
/// let mut ranges = RangeListTable::new(alloc);
/// let id = ranges.add(RangeList(vec![in alloc; Range::OffsetPair { begin: 0, end: 8 }]?))?;
/// ```
#[derive(Drop)]
pub struct RangeListTable {
    lists: IndexSet<RangeList>,
}

impl Model for RangeListTable {
    ghost use Rattle.std.specs.Prelude.{List};
    ghost use Rattle.dw_lists.specs.declared.range.Range.{Range};

    ghost Value = { List (List Range) };

    ghost view = { λ table. table.lists.keys };
}

impl RangeListTable {
    /// A table of no lists.
    pub fn new(alloc: Global) -> RangeListTable
        ensures { result ≡ [] }
    {
        RangeListTable {
            lists: IndexSet::new(alloc),
        }
    }

    /// The id of a list, which is added if none equals it. One that is there already is dropped.
    pub fn add(&mut self, range_list: RangeList) -> Result<RangeListId>
        ensures id { IfOk result (λ id. id.0 ≡ list_index list_eq self.old range_list) }
        ensures ok { OnOk result (self.new ≡ with_list list_eq self.old range_list) }
        ensures named { IfOk result (λ id. slice_get self.new id.0 ≡ Some range_list) }
        ensures err { IfErr result (λ e. e ≡ NoMemory) }
        ensures kept { OnErr result (self.new ≡ self.old) }
    {
        let (index, _) = self.lists.insert_full(range_list)?;
        Ok(RangeListId::new(index))
    }

    /// How many lists there are. No two of them are equal.
    pub fn count(&self) -> usize
        ensures len { result ≡ length self.now }
        ensures differ { AllDiffer self.now }
    {
        self.lists.len()
    }

    /// The list of an id.
    pub fn get(&self, id: RangeListId) -> &RangeList
        requires { id.0 < length self.now }
        ensures { slice_get self.now id.0 ≡ Some result.now }
    {
        &self.lists.as_slice()[id.index()]
    }

    /// Writes the table: in version 5 to `.debug_rnglists`, with an entry for each list (DWARF 5,
    /// 7.28), and up to version 4 to `.debug_ranges` (DWARF 4, 7.23). A table without lists writes
    /// nothing. `have_base_address` tells that the unit has a base address, so that offset pairs
    /// up to version 4 count from it; such a list has pairs where a base is in force, and
    /// addresses where none is (`MissingBaseAddress`, `UnexpectedBaseAddress`). There, equal ends
    /// and a begin of all ones would be read as the close and as a base, and are refused
    /// (`InvalidRange`).
    ///
    /// Every list of the table is looked at. A table with lists is refused, too, as
    /// `UnsupportedVersion` for a version that isn't 2 to 5, as `UnsupportedWordSize` for addresses
    /// that haven't 1, 2, 4 or 8 bytes, as `InvalidAddress` where an address is a symbol's and the
    /// writer records no relocations, as `ValueTooLarge` where a number has no room in its field,
    /// and in version 5 as `InitialLengthOverflow` where a 32-bit table has 0xffff_fff0 bytes or
    /// more after its length (DWARF 5, 7.4).
    pub fn write<W: Writer>(
        &self,
        sections: &mut Sections<W>,
        encoding: Encoding,
        have_base_address: bool,
    ) -> Result<RangeListOffsets>
        ensures ok { OnOk result
            (IsWritten (ranges_of W.meaning encoding sections.old)
            (ranges_of W.meaning encoding sections.new)
            (table_draft false encoding no_place (ranges_in self.now))) }
        ensures offsets { IfOk result
            (λ r. r ≡ offsets_from false encoding no_place
            (ranges_of W.meaning encoding sections.old).size (ranges_in self.now)) }
        ensures again { OnOk result (IsReadAgain false encoding no_place (ranges_in self.now)) }
        // A plain writer takes no symbols, so there each list is found.
        ensures numbered { OnOk result
            ((ranges_of W.meaning encoding sections.old).is_plain ≡ true →
            All AreNumbered (ranges_in self.now)) }
        ensures others { OthersStay (is_five encoding) sections.old sections.new }
        ensures sound { OnOk result
            (IsNone (table_fails false encoding None have_base_address
            (ranges_of W.meaning encoding sections.old).is_plain (ranges_in self.now))) }
        ensures err { IfErr result
            (Refused (ranges_of W.meaning encoding sections.old)
            (ranges_of W.meaning encoding sections.new)
            (Is (table_fails false encoding None have_base_address
            (ranges_of W.meaning encoding sections.old).is_plain (ranges_in self.now)))) }
        ensures same { IsSameWriter (ranges_of W.meaning encoding sections.old)
            (ranges_of W.meaning encoding sections.new) }
    {
        if encoding.version == 5 {
            self.write_to(encoding, have_base_address, &mut sections.debug_rnglists.0)
        } else {
            self.write_to(encoding, have_base_address, &mut sections.debug_ranges.0)
        }
    }

    /// Writes the lists to the section of their version.
    fn write_to<W: Writer>(
        &self,
        encoding: Encoding,
        has_base: bool,
        w: &mut W,
    ) -> Result<RangeListOffsets>
        ensures ok { OnOk result
            (IsWritten (W.meaning w.old) (W.meaning w.new)
            (table_draft false encoding no_place (ranges_in self.now))) }
        ensures offsets { IfOk result
            (λ r. r ≡ offsets_from false encoding no_place
            (W.meaning w.old).size (ranges_in self.now)) }
        ensures again { OnOk result (IsReadAgain false encoding no_place (ranges_in self.now)) }
        ensures numbered { OnOk result
            ((W.meaning w.old).is_plain ≡ true → All AreNumbered (ranges_in self.now)) }
        ensures sound { OnOk result
            (IsNone (table_fails false encoding None has_base
            (W.meaning w.old).is_plain (ranges_in self.now))) }
        ensures err { IfErr result
            (Refused (W.meaning w.old) (W.meaning w.new)
            (Is (table_fails false encoding None has_base
            (W.meaning w.old).is_plain (ranges_in self.now)))) }
        ensures same { IsSameWriter (W.meaning w.old) (W.meaning w.new) }
    {
        let alloc = *self.lists.allocator();
        let lists = self.lists.as_slice();
        let places = None::<&NoPlaces>;
        let mut fixups = FixupList::new(alloc);
        let lists = write_table(alloc, lists, encoding, has_base, places, w, &mut fixups)?;
        Ok(RangeListOffsets { lists })
    }
}
