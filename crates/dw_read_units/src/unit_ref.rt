//! A unit with the sections of its file: what operands of its entries lead to.

ghost use Rattle.std.specs.Prelude.{◌≡◌, ◌↔◌, IsTrue, IfOk, IfErr};
ghost use Rattle.dw_read.specs.UnitHeaders.{IsInside};
ghost use Rattle.dw_read_units.specs.Begins.{Begins, BeginsNowhere};
ghost use Rattle.dw_base.specs.Numbers.{number_at};
ghost use Rattle.dw_base.specs.Forms.{text_at};
ghost use Rattle.dw_read.specs.Reading.{left};
ghost use Rattle.dw_read.specs.Reasons.{text_read, number_read, address_at, address_read};
ghost use Rattle.dw_read_units.specs.Lookups.{StandsAt, IsMissing, indexed, FindsList, MissesList};
ghost use Rattle.dw_read_units.specs.Units.{word_in, address_in};

use crate::dwarf::{Dwarf, Unit};
use crate::lookup::{indexed_address, indexed_list, indexed_word, text_from};
use dw_base::{
    DebugLineStrOffset, DebugStrOffset, Encoding, LocationListsOffset, RangeListsOffset, UnitOffset,
};
use dw_read::{EntriesRaw, ReadResult, Reader};
use std::alloc::Global;

/// A unit with the sections of its file.
///
/// ```
/// let both = UnitRef { dwarf: &dwarf, unit: &unit };
/// let mut rows = both.entries_raw(alloc, None)?;
/// let text = both.string(DebugStrOffset(0))?;
/// ```
#[derive(Drop)]
#[derive_where(Clone, Copy)]
pub struct UnitRef<'a, R: Reader> {
    pub dwarf: &'a Dwarf<R>,
    pub unit: &'a Unit<R>,
}

impl<'a, R: Reader> UnitRef<'a, R> {
    /// How the unit's values are encoded.
    pub fn encoding(&self) -> Encoding
        ensures { result ≡ self.now.unit.now.header.fields.encoding }
    {
        self.unit.header.encoding()
    }

    /// Whether an offset lies behind the unit's header, and in the unit.
    pub fn contains(&self, offset: UnitOffset) -> bool
        ensures { IsTrue result ↔ IsInside R.reading self.now.unit.now.header offset.0 }
    {
        self.unit.header.contains(offset)
    }

    /// The unit's rows: from the first on, or from an offset at which a row begins. They take no
    /// memory.
    pub fn entries_raw(
        &self,
        _alloc: Global,
        offset: Option<UnitOffset>,
    ) -> ReadResult<EntriesRaw<'a, R>>
        ensures ok { IfOk result (Begins R.reading self.now.unit.now offset) }
        ensures err { IfErr result (BeginsNowhere R.reading self.now.unit.now offset) }
    {
        let unit = self.unit;
        match offset {
            Some(offset) => {
                let rows = EntriesRaw::at(&unit.header, &unit.abbreviations, offset)?;
                Ok(rows)
            }
            None => Ok(EntriesRaw::new(&unit.header, &unit.abbreviations)),
        }
    }

    /// The text at an offset of `.debug_str`.
    pub fn string(&self, offset: DebugStrOffset) -> ReadResult<R>
        ensures ok { IfOk result (λ r. StandsAt _ text_at offset.0
            (R.reading self.now.dwarf.now.debug_str) (left (R.reading r))) }
        ensures err { IfErr result (IsMissing _ text_at text_read offset.0
            (R.reading self.now.dwarf.now.debug_str)) }
    {
        text_from(&self.dwarf.debug_str, offset.0)
    }

    /// The text at an offset of `.debug_line_str`.
    pub fn line_string(&self, offset: DebugLineStrOffset) -> ReadResult<R>
        ensures ok { IfOk result (λ r. StandsAt _ text_at offset.0
            (R.reading self.now.dwarf.now.debug_line_str) (left (R.reading r))) }
        ensures err { IfErr result (IsMissing _ text_at text_read offset.0
            (R.reading self.now.dwarf.now.debug_line_str)) }
    {
        text_from(&self.dwarf.debug_line_str, offset.0)
    }

    /// The offset of the string of an index in the unit's part of `.debug_str_offsets`.
    pub fn string_offset(&self, index: u64) -> ReadResult<DebugStrOffset>
        ensures ok { IfOk result (λ o. StandsAt _
            (number_at (R.reading self.now.dwarf.now.debug_str_offsets).is_big (word_in self.now))
            (indexed self.now.unit.now.str_offsets_base index (word_in self.now))
            (R.reading self.now.dwarf.now.debug_str_offsets) o.0) }
        ensures err { IfErr result (IsMissing _
            (number_at (R.reading self.now.dwarf.now.debug_str_offsets).is_big (word_in self.now))
            (number_read (R.reading self.now.dwarf.now.debug_str_offsets).is_big (word_in self.now))
            (indexed self.now.unit.now.str_offsets_base index (word_in self.now))
            (R.reading self.now.dwarf.now.debug_str_offsets)) }
    {
        let format = self.encoding().format;
        let base = self.unit.str_offsets_base;
        let offset = indexed_word(&self.dwarf.debug_str_offsets, base, index, format)?;
        Ok(DebugStrOffset(offset))
    }

    /// The address of an index in the unit's part of `.debug_addr`.
    pub fn address(&self, index: u64) -> ReadResult<u64>
        ensures ok { IfOk result (StandsAt _
            (address_at (R.reading self.now.dwarf.now.debug_addr).is_big (address_in self.now))
            (indexed self.now.unit.now.addr_base index (address_in self.now))
            (R.reading self.now.dwarf.now.debug_addr)) }
        ensures err { IfErr result (IsMissing _
            (address_at (R.reading self.now.dwarf.now.debug_addr).is_big (address_in self.now))
            (address_read (R.reading self.now.dwarf.now.debug_addr).is_big (address_in self.now))
            (indexed self.now.unit.now.addr_base index (address_in self.now))
            (R.reading self.now.dwarf.now.debug_addr)) }
    {
        let size = self.encoding().address_size;
        indexed_address(&self.dwarf.debug_addr, self.unit.addr_base, index, size)
    }

    /// The place in `.debug_rnglists` of the list of an index in the unit's part of it.
    pub fn ranges_offset(&self, index: u64) -> ReadResult<RangeListsOffset>
        ensures ok { IfOk result (λ o. FindsList (word_in self.now)
            self.now.unit.now.rnglists_base index
            (R.reading self.now.dwarf.now.debug_rnglists) o.0) }
        ensures err { IfErr result (MissesList (word_in self.now)
            self.now.unit.now.rnglists_base index
            (R.reading self.now.dwarf.now.debug_rnglists)) }
    {
        let format = self.encoding().format;
        let base = self.unit.rnglists_base;
        let place = indexed_list(&self.dwarf.debug_rnglists, base, index, format)?;
        Ok(RangeListsOffset(place))
    }

    /// The place in `.debug_loclists` of the list of an index in the unit's part of it.
    pub fn locations_offset(&self, index: u64) -> ReadResult<LocationListsOffset>
        ensures ok { IfOk result (λ o. FindsList (word_in self.now)
            self.now.unit.now.loclists_base index
            (R.reading self.now.dwarf.now.debug_loclists) o.0) }
        ensures err { IfErr result (MissesList (word_in self.now)
            self.now.unit.now.loclists_base index
            (R.reading self.now.dwarf.now.debug_loclists)) }
    {
        let format = self.encoding().format;
        let base = self.unit.loclists_base;
        let place = indexed_list(&self.dwarf.debug_loclists, base, index, format)?;
        Ok(LocationListsOffset(place))
    }
}
