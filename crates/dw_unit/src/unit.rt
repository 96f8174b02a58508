//! One unit.

ghost use Rattle.std.specs.Prelude.{◌≡◌, ◌≢◌, ◌+◌, ◌<◌, true, false, [], length, None, Some, slice_get, OnOk, OnErr, IfOk, IfErr};
ghost use Rattle.std.specs.Option.{is_some, option_map};
ghost use Rattle.dw_base.specs.declared.error.Error.TheVariants.{NoMemory};
ghost use Rattle.dw_writer.specs.Sections.{NoFixups};
ghost use Rattle.dw_entries.specs.Entries.{with_added};
ghost use Rattle.dw_tree.specs.Places.{offsets_in};
ghost use Rattle.dw_tree.specs.UnitValue.{new_unit, offsets_of, is_reserved, IsReserved, IsSound};

use crate::entry_mut::EntryMut;
use dw_base::constants::DW_AT_low_pc;
use dw_base::{Address, DebugLineOffset, DwTag, Encoding, Error, Format, Result, UnitEntryId};
use dw_entries::{AttributeValue, DebuggingInformationEntry, Entries, OwnLists, OwnParts};
use dw_line::LineProgram;
use dw_lists::{LocationListTable, RangeListOffsets, RangeListTable};
use dw_strings::{LineStringTable, StringTable};
use dw_tree::{PartPlaces, UnitOffsets, check_encoding, write_tree};
use dw_writer::{Sections, Writer};
use std::alloc::Global;
use std::marker::Model;

/// A unit of `.debug_info`: an encoding, a line program, range lists and location lists, and
/// entries that ids name.
#[derive(Drop)]
pub struct Unit {
    /// The unit's line program.
    pub line_program: LineProgram,
    /// The unit's range lists, which attributes name by their ids.
    pub ranges: RangeListTable,
    /// The unit's location lists, which attributes name by their ids.
    pub locations: LocationListTable,
    encoding: Encoding,
    pub(crate) entries: Entries,
    is_written: bool,
    is_freed: bool,
    offsets: Option<UnitOffsets>,
}

impl Model for Unit {
    ghost use Rattle.dw_tree.specs.UnitValue.{UnitValue, IsKept};
    ghost use Rattle.std.specs.Coded.{codes};
    ghost use Rattle.dw_expr.specs.Codes.{node_code};

    ghost Value = { UnitValue };

    ghost coded = { Prim.hlevel (codes, node_code) };

    ghost view = { λ u. record {
      encoding = u.encoding;
      line_program = u.line_program;
      ranges = u.ranges;
      locations = u.locations;
      entries = u.entries.entries;
      reserved = u.entries.reserved;
      is_written = u.is_written;
      is_freed = u.is_freed;
      offsets = u.offsets;
    } };

    ghost invariant = { λ u. IsKept u.entries.entries u.is_written u.is_freed u.offsets };
}

impl Unit {
    /// A unit that has its root alone, a `DW_TAG_compile_unit` without attributes.
    pub fn new(alloc: Global, encoding: Encoding, line_program: LineProgram) -> Result<Unit>
        ensures ok { IfOk result (λ u. u ≡ new_unit encoding line_program) }
        ensures err { IfErr result (λ e. e ≡ NoMemory) }
    {
        let entries = Entries::new(alloc)?;
        Ok(Unit {
            line_program,
            ranges: RangeListTable::new(alloc),
            locations: LocationListTable::new(alloc),
            encoding,
            entries,
            is_written: false,
            is_freed: false,
            offsets: None,
        })
    }

    /// Changes how the unit will be written.
    pub fn set_encoding(&mut self, encoding: Encoding)
        ensures { self.new ≡ record self.old { encoding = encoding } }
    {
        self.encoding = encoding;
    }

    /// The unit's encoding.
    pub fn encoding(&self) -> Encoding
        ensures { result ≡ self.now.encoding }
    {
        self.encoding
    }

    /// The version of the DWARF standard that the unit is written in.
    pub fn version(&self) -> u16
        ensures { result ≡ self.now.encoding.version }
    {
        self.encoding.version
    }

    /// The bytes of an address on the target.
    pub fn address_size(&self) -> u8
        ensures { result ≡ self.now.encoding.address_size }
    {
        self.encoding.address_size
    }

    /// The unit's format: 32-bit or 64-bit.
    pub fn format(&self) -> Format
        ensures { result ≡ self.now.encoding.format }
    {
        self.encoding.format
    }

    /// How many entries there are. An id that is only handed out has a blank entry once another
    /// entry was added after it.
    pub fn count(&self) -> usize
        ensures value { result ≡ length self.now.entries }
        ensures sound { IsSound self.now }
    {
        self.entries.count()
    }

    /// How many ids were handed out, the root's among them.
    pub fn reserved(&self) -> usize
        ensures { result ≡ self.now.reserved }
    {
        self.entries.reserved()
    }

    /// Tells that an id was handed out for an entry that isn't added yet.
    pub fn is_reserved(&self, id: UnitEntryId) -> bool
        ensures { result ≡ is_reserved self.now id.0 }
    {
        self.entries.is_reserved(id)
    }

    /// The id of the unit's root.
    pub fn root(&self) -> UnitEntryId
        ensures { result.0 ≡ 0 }
    {
        UnitEntryId::new(0)
    }

    /// Tells that the unit was written.
    pub fn is_written(&self) -> bool
        ensures { result ≡ self.now.is_written }
    {
        self.is_written
    }

    /// Where the entries of the unit stand. There is none exactly where the unit isn't written, or
    /// was skipped.
    pub fn offsets(&self) -> Option<&UnitOffsets>
        ensures { option_map (λ o. offsets_in o.now) result ≡ offsets_of self.now }
    {
        self.offsets.as_ref()
    }

    /// Tells that the unit gave its entries up.
    pub fn is_freed(&self) -> bool
        ensures { result ≡ self.now.is_freed }
    {
        self.is_freed
    }
}

impl Unit {
    /// Hands out the id of an entry that is to be added later, which others may refer to before.
    pub fn reserve(&mut self) -> UnitEntryId
        requires room { self.old.reserved < usize.MAX }
        requires not_freed { self.old.is_freed ≡ false }
        ensures id { result.0 ≡ self.old.reserved }
        ensures unit { self.new ≡ record self.old { reserved = self.old.reserved + 1 } }
    {
        self.entries.reserve()
    }

    /// Adds the entry of a reserved id behind its parent's other children. The parent's own id may
    /// be reserved alone.
    pub fn add_reserved(
        &mut self,
        child: UnitEntryId,
        parent: UnitEntryId,
        tag: DwTag,
    ) -> Result<()>
        requires reserved { IsReserved self.old child.0 }
        requires parent_in { parent.0 < self.old.reserved }
        requires tagged { tag.0 ≢ 0 }
        requires not_freed { self.old.is_freed ≡ false }
        ensures ok { OnOk result
            (self.new ≡ record self.old
            { entries = with_added self.old.reserved child.0 parent.0 tag.0 self.old.entries }) }
        ensures count { OnOk result (length self.new.entries ≡ self.old.reserved) }
        ensures err { IfErr result (λ e. e ≡ NoMemory) }
        ensures kept { OnErr result (self.new ≡ self.old) }
    {
        self.entries.add_reserved(child, parent, tag)
    }

    /// Adds an entry behind its parent's other children, and answers its id.
    pub fn add(&mut self, parent: UnitEntryId, tag: DwTag) -> Result<UnitEntryId>
        requires room { self.old.reserved < usize.MAX }
        requires parent_in { parent.0 < self.old.reserved }
        requires tagged { tag.0 ≢ 0 }
        requires not_freed { self.old.is_freed ≡ false }
        ensures id { IfOk result (λ id. id.0 ≡ self.old.reserved) }
        ensures ok { OnOk result
            (self.new ≡ record self.old {
              entries = with_added (self.old.reserved + 1) self.old.reserved parent.0 tag.0
                  self.old.entries;
              reserved = self.old.reserved + 1;
            }) }
        ensures count { OnOk result (length self.new.entries ≡ self.old.reserved + 1) }
        ensures err { IfErr result (λ e. e ≡ NoMemory) }
        ensures kept { OnErr result (self.new ≡ self.old) }
    {
        self.entries.add(parent, tag)
    }

    /// An entry of the unit.
    pub fn get(&self, id: UnitEntryId) -> &DebuggingInformationEntry
        requires { id.0 < length self.now.entries }
        ensures entry { slice_get self.now.entries id.0 ≡ Some result.now }
        ensures id { result.now.id ≡ id.0 }
    {
        self.entries.get(id)
    }

    /// An entry of the unit, to be changed.
    pub fn get_mut(&mut self, id: UnitEntryId) -> EntryMut<'_>
        requires { id.0 < length self.old.entries }
        ensures same_unit { result.unit.ghost_name ≡ self.entry.ghost_name }
        ensures unit { result.unit.now ≡ self.old }
        ensures index { result.index ≡ id.0 }
    {
        EntryMut::of(self, id.index())
    }
}

impl Unit {
    ghost use Rattle.dw_entries.specs.Settled.{settled_entries};
    ghost use Rattle.dw_tree.specs.Whole.{parts_with};

    /// Names the line program in the root's `DW_AT_stmt_list` where there is one in use, and in
    /// version 5 the range lists in `DW_AT_rnglists_base` and the location lists in
    /// `DW_AT_loclists_base` where there are some, deletes these attributes where there is none,
    /// and moves the root's base types before its other children.
    fn settle(&mut self, has_line_program: bool) -> Result<()>
        ensures ok { OnOk result
            (self.new ≡ record self.old {
              entries = settled_entries (parts_with has_line_program self.old)
                  self.old.entries;
            }) }
        ensures err { IfErr result (λ e. e ≡ NoMemory) }
        ensures kept { OnErr result (self.new ≡ self.old) }
    {
        let parts = self.own_parts(has_line_program);
        self.entries.settle(parts)
    }

    /// What the root names of the unit's own parts of other sections.
    fn own_parts(&self, has_line_program: bool) -> OwnParts
        ensures { result ≡ parts_with has_line_program self.now }
    {
        let lists = OwnLists {
            ranges: self.ranges.count() > 0,
            locations: self.locations.count() > 0,
        };
        OwnParts {
            line_program: has_line_program,
            lists: (self.encoding.version == 5).then_some(lists),
        }
    }
}

impl Unit {
    ghost use Rattle.std.specs.Prelude.{◌⊎◌, ◌≤◌, [], IsFalse};
    ghost use Rattle.dw_writer.specs.Sections.{SomeHasRisen, fault_sum};
    ghost use Rattle.dw_unit.specs.Alone.{has_info_reference, AppendsAlone, AloneRefused};
    ghost use Rattle.dw_unit.specs.WrittenUnits.{ExtendsFile};
    ghost use Rattle.dw_tree.specs.Whole.{lines_in_use, settled, marked_written};
    ghost use Rattle.dw_tree.specs.Valid.{IsWritableAt};
    ghost use Rattle.dw_tree.specs.Pending.{PendsUnit, ExtendsPending};
    ghost use Rattle.dw_lists.specs.Tables.{ranges_of};
    ghost use Rattle.dw_line.specs.Parts.{NoCause};
    ghost use Rattle.dw_tree.specs.Elsewhere.{elsewhere, unit_tables, part_places, parts_fail, AppendsLine, AppendsRanges, PartsAreSound, KeepsAllButParts};
    ghost use Rattle.dw_tree.specs.Elsewhere.{line_place, line_fails, LinesAreSound};
    ghost use Rattle.dw_tree.specs.Elsewhere.{has_base_address, range_places_at, ranges_fail_in};
    ghost use Rattle.dw_tree.specs.Written.{KeepsOtherSections};
    ghost use Rattle.dw_tree.specs.Causes.{Because, Is, UnitRefused};

    /// Writes the unit at the end of `.debug_info`, its abbreviation table at the end of
    /// `.debug_abbrev` (DWARF 5, 7.5.1 to 7.5.3), its line program, where it is in use, at the end
    /// of `.debug_line` (6.2), its range lists at the end of `.debug_rnglists` (7.28) or up to
    /// version 4 of `.debug_ranges`, its location lists at the end of `.debug_loclists` (7.29) or
    /// up to version 4 of `.debug_loc`, and marks it written; from then on it keeps where its
    /// entries stand. A line program is in use where a sequence was begun in it or some entry names
    /// one of its files: then the root names its place in `DW_AT_stmt_list`, and else has no such
    /// attribute. In version 5 the root names the first offset entries of the range lists in
    /// `DW_AT_rnglists_base` and of the location lists in `DW_AT_loclists_base` where there are
    /// some, and else has no such attributes. The root's base types move before its other children.
    /// References to entries by their place in `.debug_info`, in values and in location lists, are
    /// left open, with a fixup each in the list of their section, until `UnitTable::write` fills
    /// them in.
    ///
    /// Refused as `UnsupportedVersion` or `UnsupportedWordSize` where the version isn't 2 to 5 or
    /// the address size isn't 1, 2, 4 or 8, for what `LineProgram::write`, `RangeListTable::write`
    /// or `LocationListTable::write` refuse, where the base address of the lists is that of the
    /// root's `DW_AT_low_pc`, unless it is a constant 0, as `InvalidAttributeValue` where a string
    /// has a zero byte or a value names a line program that isn't in use or the base of lists that
    /// there are none of, as `InvalidReference` where a reference within the unit names an entry
    /// outside its tree, one by its place in `.debug_info` names a symbol, or a string or a list
    /// isn't in its table, as `UnsetBranchTarget` where a branch of an expression has no target, as
    /// `UnsupportedExpressionForwardReference` where an expression spells in LEB128 the place of an
    /// entry that comes later in the tree, or any place in the unit of one outside it, as
    /// `InvalidAddress` where an address is a symbol's and the writer records no relocations, as
    /// `InitialLengthOverflow` where a 32-bit unit has 0xffff_fff0 bytes or more after its length
    /// (DWARF 5, 7.4), as `ValueTooLarge` where an address, an offset or the number of a file has
    /// no room in its width, the place of the table or of the line program none in a word, or the
    /// unit's size none in 64 bits, and as `WriteFault` or `NoMemory`. A refused unit is as it was,
    /// or settled, and the sections may have got some of the bytes.
    pub fn write<W: Writer>(
        &mut self,
        sections: &mut Sections<W>,
        line_strings: &LineStringTable,
        strings: &StringTable,
    ) -> Result<()>
        requires { self.old.is_written ≡ false }
        ensures unit { OnOk result
            (PendsUnit W.meaning sections.old sections.new (settled self.old)
            (unit_tables (elsewhere W.meaning sections.old line_strings.now strings.now) self.old)
            self.new.offsets) }
        ensures pending { OnOk result
            (ExtendsPending W.meaning sections.old sections.new (settled self.old)
            (unit_tables (elsewhere W.meaning sections.old line_strings.now strings.now) self.old)
            self.new.offsets) }
        // The same of all that it leaves in the sections of its file: whatever units were written
        // there, it stands behind them.
        ensures file { OnOk result
            (ExtendsFile W.meaning sections.old sections.new line_strings.now strings.now self.old
            self.new.offsets) }
        // Its line program, where it is in use, stands behind what `.debug_line` held, and its
        // range lists behind what the section of its version held.
        ensures lines { OnOk result
            (AppendsLine W.meaning sections.old sections.new line_strings.now strings.now
            self.old) }
        ensures ranges { OnOk result
            (AppendsRanges W.meaning sections.old sections.new self.old) }
        ensures writable { OnOk result
            (IsWritableAt (W.meaning sections.old.debug_info.0).is_plain
            (elsewhere W.meaning sections.old line_strings.now strings.now)
            (W.meaning sections.old.debug_abbrev.0).size self.old) }
        ensures marked { OnOk result
            (self.new ≡ marked_written self.new.offsets (settled self.old)) }

        ensures err { IfErr result
            (UnitRefused W.meaning sections.old sections.new self.old
            (elsewhere W.meaning sections.old line_strings.now strings.now)) }
        ensures kept { OnErr result ((self.new ≡ self.old) ⊎ (self.new ≡ settled self.old)) }
        // A unit that can be written is refused only for want of memory, or by a fault that was
        // counted. References across units are looked at when they are filled in.
        ensures complete { IsWritableAt (W.meaning sections.old.debug_info.0).is_plain
            (elsewhere W.meaning sections.old line_strings.now strings.now)
            (W.meaning sections.old.debug_abbrev.0).size self.old →
            (SomeHasRisen W.meaning sections.old sections.new → ⊥) →
            IfErr result (λ e. e ≡ NoMemory) }

        ensures others { KeepsOtherSections sections.old sections.new }
        ensures faults { fault_sum W.meaning sections.old ≤ fault_sum W.meaning sections.new }
    {
        let offsets = self.write_open(sections, line_strings, strings)?;
        self.mark_written(offsets);
        Ok(())
    }

    /// Writes the unit as `write` does, as the only one of its file.
    ///
    /// Refused as `write` refuses it, and as `InvalidReference` where a value or a location list
    /// names an entry by its place in `.debug_info`, also one of this unit: a unit alone has no
    /// number by which such a reference could name it.
    pub fn write_alone<W: Writer>(
        &mut self,
        sections: &mut Sections<W>,
        line_strings: &LineStringTable,
        strings: &StringTable,
    ) -> Result<()>
        requires unwritten { self.old.is_written ≡ false }
        requires none_open { NoFixups sections.old }
        ensures appends { OnOk result
            (AppendsAlone W.meaning sections.old sections.new (settled self.old)
            (unit_tables (elsewhere W.meaning sections.old line_strings.now strings.now) self.old)
            self.new.offsets) }
        ensures lines { OnOk result
            (AppendsLine W.meaning sections.old sections.new line_strings.now strings.now
            self.old) }
        ensures ranges { OnOk result
            (AppendsRanges W.meaning sections.old sections.new self.old) }
        ensures alone { OnOk result (IsFalse (has_info_reference self.old)) }
        ensures closed { OnOk result (NoFixups sections.new) }
        ensures writable { OnOk result
            (IsWritableAt (W.meaning sections.old.debug_info.0).is_plain
            (elsewhere W.meaning sections.old line_strings.now strings.now)
            (W.meaning sections.old.debug_abbrev.0).size self.old) }
        ensures marked { OnOk result
            (self.new ≡ marked_written self.new.offsets (settled self.old)) }

        ensures err { IfErr result
            (AloneRefused W.meaning sections.old sections.new self.old
            (elsewhere W.meaning sections.old line_strings.now strings.now)) }
        ensures kept { OnErr result ((self.new ≡ self.old) ⊎ (self.new ≡ settled self.old)) }

        ensures others { KeepsOtherSections sections.old sections.new }
        ensures faults { fault_sum W.meaning sections.old ≤ fault_sum W.meaning sections.new }
    {
        let offsets = self.write_open(sections, line_strings, strings)?;
        if has_fixups(sections) {
            return Err(Error::InvalidReference);
        }
        self.mark_written(offsets);
        Ok(())
    }

    /// Settles the unit and writes it with its table, without a mark, and answers where its entries
    /// stand. Its references to entries by their place in `.debug_info` are left open.
    fn write_open<W: Writer>(
        &mut self,
        sections: &mut Sections<W>,
        line_strings: &LineStringTable,
        strings: &StringTable,
    ) -> Result<UnitOffsets>
        requires { self.old.is_written ≡ false }
        ensures unit { IfOk result
            (λ o. PendsUnit W.meaning sections.old sections.new (settled self.old)
            (unit_tables (elsewhere W.meaning sections.old line_strings.now strings.now) self.old)
            (Some o)) }
        ensures lines { OnOk result
            (AppendsLine W.meaning sections.old sections.new line_strings.now strings.now
            self.old) }
        ensures ranges { OnOk result
            (AppendsRanges W.meaning sections.old sections.new self.old) }
        ensures writable { OnOk result
            (IsWritableAt (W.meaning sections.old.debug_info.0).is_plain
            (elsewhere W.meaning sections.old line_strings.now strings.now)
            (W.meaning sections.old.debug_abbrev.0).size self.old) }
        ensures settled { OnOk result (self.new ≡ settled self.old) }

        ensures err { IfErr result
            (UnitRefused W.meaning sections.old sections.new self.old
            (elsewhere W.meaning sections.old line_strings.now strings.now)) }
        ensures kept { OnErr result ((self.new ≡ self.old) ⊎ (self.new ≡ settled self.old)) }

        ensures others { KeepsOtherSections sections.old sections.new }
        ensures faults { fault_sum W.meaning sections.old ≤ fault_sum W.meaning sections.new }
    {
        check_encoding(self.encoding)?;
        let parts = self.write_parts(sections, line_strings, strings)?;
        let based = self.has_base_address();
        self.settle(parts.has_line_program())?;
        let start = sections.debug_info.0.len();
        let alloc = self.entries.allocator();
        let places = write_tree(
            alloc,
            self.encoding,
            self.entries.as_slice(),
            parts,
            &self.locations,
            based,
            line_strings,
            strings,
            sections,
        )?;
        Ok(UnitOffsets::of(start, places))
    }

    /// Writes what the unit leaves in other sections that hangs on no place of its entries, its
    /// line program, where it is in use, and its range lists, and answers where they stand.
    fn write_parts<W: Writer>(
        &self,
        sections: &mut Sections<W>,
        line_strings: &LineStringTable,
        strings: &StringTable,
    ) -> Result<PartPlaces>
        ensures lines { OnOk result
            (AppendsLine W.meaning sections.old sections.new line_strings.now strings.now
            self.now) }
        ensures ranges { OnOk result
            (AppendsRanges W.meaning sections.old sections.new self.now) }
        ensures places { IfOk result
            (λ p. p
            ≡ part_places (elsewhere W.meaning sections.old line_strings.now strings.now)
            self.now) }
        ensures used { IfOk result (λ p. is_some p.line_program ≡ lines_in_use self.now) }
        ensures sound { OnOk result
            (PartsAreSound (elsewhere W.meaning sections.old line_strings.now strings.now)
            self.now) }

        ensures err { IfErr result
            (Because (SomeHasRisen W.meaning sections.old sections.new)
            (Is (parts_fail (elsewhere W.meaning sections.old line_strings.now strings.now)
            self.now))) }

        ensures others { KeepsAllButParts sections.old sections.new }
        ensures faults { fault_sum W.meaning sections.old ≤ fault_sum W.meaning sections.new }
    {
        let line_program = self.write_line_program(sections, line_strings, strings)?;
        let ranges = self.write_ranges(sections)?;
        Ok(PartPlaces {
            line_program,
            ranges,
        })
    }

    /// Tells that the root's address is a base from which offset pairs count: any but a constant 0
    /// (DWARF 4, 2.17.3).
    fn has_base_address(&self) -> bool
        ensures { result ≡ has_base_address self.now.entries }
    {
        let Some(root) = self.entries.as_slice().first() else {
            return false;
        };
        match root.get(DW_AT_low_pc) {
            None => false,
            Some(AttributeValue::Address(Address::Constant(address))) => *address != 0,
            Some(_) => true,
        }
    }

    /// Writes the range lists to the section of the unit's version, and answers where they stand.
    fn write_ranges<W: Writer>(&self, sections: &mut Sections<W>) -> Result<RangeListOffsets>
        ensures ok { OnOk result (AppendsRanges W.meaning sections.old sections.new self.now) }
        ensures places { IfOk result
            (λ p. p
            ≡ range_places_at (ranges_of W.meaning self.now.encoding sections.old).size
            self.now) }
        ensures sound { OnOk result
            (NoCause (ranges_fail_in
            (ranges_of W.meaning self.now.encoding sections.old).is_plain self.now)) }
        ensures err { IfErr result
            (Because (SomeHasRisen W.meaning sections.old sections.new)
            (Is (ranges_fail_in
            (ranges_of W.meaning self.now.encoding sections.old).is_plain self.now))) }
        ensures others { sections.new ≡ record sections.old {
          debug_ranges = sections.new.debug_ranges;
          debug_rnglists = sections.new.debug_rnglists;
        } }
        ensures faults { fault_sum W.meaning sections.old ≤ fault_sum W.meaning sections.new }
    {
        self.ranges
            .write(sections, self.encoding, self.has_base_address())
    }

    /// Tells that the line program is written with the unit: there is one, and a sequence was begun
    /// in it, or some entry names one of its files.
    fn line_program_in_use(&self) -> bool
        ensures { result ≡ lines_in_use self.now }
    {
        !self.line_program.is_none() && (!self.line_program.is_empty() || self.entries.names_file())
    }

    /// Writes the line program, where it is in use, and answers its place in `.debug_line`.
    fn write_line_program<W: Writer>(
        &self,
        sections: &mut Sections<W>,
        line_strings: &LineStringTable,
        strings: &StringTable,
    ) -> Result<Option<DebugLineOffset>>
        ensures ok { OnOk result
            (AppendsLine W.meaning sections.old sections.new line_strings.now strings.now
            self.now) }
        ensures place { IfOk result
            (λ p. option_map (λ o. o.0) p
            ≡ line_place (elsewhere W.meaning sections.old line_strings.now strings.now)
            self.now) }
        ensures used { IfOk result (λ p. is_some p ≡ lines_in_use self.now) }
        ensures sound { OnOk result
            (LinesAreSound (elsewhere W.meaning sections.old line_strings.now strings.now)
            self.now) }

        ensures err { IfErr result
            (Because (SomeHasRisen W.meaning sections.old sections.new)
            (Is (line_fails (elsewhere W.meaning sections.old line_strings.now strings.now)
            self.now))) }

        ensures others { sections.new
            ≡ record sections.old { debug_line = sections.new.debug_line } }
        ensures faults { fault_sum W.meaning sections.old ≤ fault_sum W.meaning sections.new }
    {
        if !self.line_program_in_use() {
            return Ok(None);
        }
        let place = self.line_program.write(
            &mut sections.debug_line,
            self.encoding,
            line_strings,
            strings,
        )?;
        Ok(Some(place))
    }

    /// Marks the unit written, with where its entries stand.
    fn mark_written(&mut self, offsets: UnitOffsets)
        ensures { self.new ≡ marked_written (Some offsets) self.old }
    {
        self.offsets = Some(offsets);
        self.is_written = true;
    }
}

impl Unit {
    ghost use Rattle.dw_tree.specs.Whole.{marked_written};
    ghost use Rattle.dw_tree.specs.UnitValue.{freed};

    /// Marks the unit written without writing it, so that no later call writes it. A reference to
    /// one of its entries by the place in `.debug_info` is refused as `InvalidReference`.
    pub fn skip(&mut self)
        requires { self.old.is_written ≡ false }
        ensures { self.new ≡ marked_written None self.old }
    {
        self.is_written = true;
    }

    /// Gives the line program, the lists and the entries up, and the memory that they take.
    /// The places of the entries stay.
    pub fn free(&mut self)
        requires { self.old.is_written ≡ true }
        ensures { self.new ≡ freed self.old }
    {
        let alloc = self.entries.allocator();
        self.line_program = LineProgram::none();
        free_lists(alloc, &mut self.ranges, &mut self.locations);
        self.entries.free();
        self.is_freed = true;
    }
}

/// Gives the lists of tables up, and the memory that they take.
fn free_lists(alloc: Global, ranges: &mut RangeListTable, locations: &mut LocationListTable)
    ensures ranges { ranges.new ≡ [] }
    ensures locations { locations.new ≡ [] }
{
    *ranges = RangeListTable::new(alloc);
    *locations = LocationListTable::new(alloc);
}

/// Tells that the place of an entry in `.debug_info` is left open in some section.
fn has_fixups<W>(sections: &Sections<W>) -> bool
    ensures closed { result ≡ false → NoFixups sections.now }
    ensures open { result ≡ true → NoFixups sections.now → ⊥ }
{
    !sections.debug_info_fixups.is_empty()
        || !sections.debug_loc_fixups.is_empty()
        || !sections.debug_loclists_fixups.is_empty()
}
