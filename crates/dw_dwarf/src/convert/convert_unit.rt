//! A unit while it is converted.

ghost use Rattle.std.specs.Prelude.{◌≡◌, ◌↔◌, ◌<◌, ℕ, List, [], length, true, false, None, Ok, IsTrue, OnOk, IfOk, IfErr, IfSome, OnErr};
ghost use Rattle.dw_base.specs.Entries.{Row};
ghost use Rattle.dw_base.specs.declared.error.Error.TheVariants as written;
ghost use Rattle.dw_entries.specs.Entries.{with_sibling};
ghost use Rattle.dw_tree.specs.UnitValue.{IsReserved, with_entry};
ghost use Rattle.dw_sources.specs.declared.convert_error.ConvertError.TheVariants.{NoMemory};
ghost use Rattle.dw_convert.specs.References.{EntryOutcome, InfoOutcome};
ghost use Rattle.dw_dwarf.specs.Converters.{IsFresh, StandsAt, ReadsEntry};
ghost use Rattle.dw_dwarf.specs.Converters.{above, entries_in, infos_in, parent_of, added_under, id_or_next};

use crate::convert::found::GivenUnit;
use crate::convert::fresh::is_fresh_unit;
use crate::convert::program::set_program;
use crate::convert::skeleton::{first_of, id_of, ids_of, lines_of};
use crate::convert::unit_entry::ConvertUnitEntry;
use dw_base::{
    DebugInfoOffset, DebugInfoRef, DwTag, FileId, Result, UnitEntryId, UnitId, UnitOffset,
};
use dw_convert::ConvertDebugInfoRef;
use dw_entry_ids::KeptRows;
use dw_read::Reader;
use dw_read_units::UnitRef;
use dw_sources::{ConvertError, ConvertResult};
use dw_strings::{LineStringTable, StringTable};
use dw_unit::{LineProgram, Unit};
use std::alloc::Global;

/// A unit that was read, and the unit that it becomes. `convert` converts all of it; or its entries
/// are read one after the other, and what is wanted of them is added.
///
/// ```
/// let mut entry = unit.null_entry();
/// for _ in 0..rows {
///     let Some(Some(id)) = unit.read_entry(&mut entry)? else {
///         break;
///     };
///     let id = unit.add_entry(Some(id), &entry)?;
///     for attribute in &entry.read_entry.attrs {
///         let value = unit.convert_attribute_value(entry.read_unit, attribute, &constant)?;
///         unit.unit.get_mut(id).set(attribute.name(), value)?;
///     }
/// }
/// ```
#[derive(Drop)]
pub struct ConvertUnit<'a, R: Reader> {
    /// The unit that is read.
    pub read_unit: UnitRef<'a, R>,
    /// The unit that has the addresses, the encoding and the line program of one that was split
    /// off; None for others.
    pub read_skeleton_unit: Option<UnitRef<'a, R>>,
    /// The unit that is written.
    pub unit: &'a mut Unit,
    /// The strings of `.debug_line_str` that are written.
    pub line_strings: &'a mut LineStringTable,
    /// The strings of `.debug_str` that are written.
    pub strings: &'a mut StringTable,
    pub(crate) alloc: Global,
    pub(crate) given: GivenUnit<'a, R>,
    pub(crate) id: UnitId,
    /// The ids of the files of the unit's line program by the numbers that were read.
    pub(crate) files: Vec<FileId>,
    pub(crate) rows: KeptRows<'a, R>,
}

impl<'a, R: Reader> ConvertUnit<'a, R> {
    /// Whether the unit is as `read_unit` gave it: only its root was read, and the unit that is
    /// written has its root alone, without attributes, lists and line program, and is neither
    /// written nor skipped.
    pub fn is_fresh(&self) -> bool
        ensures { IsTrue result ↔ IsFresh self.now }
    {
        let encoding = lines_of(self.given.skeleton, self.given.read).encoding();
        let entries = UnitEntryId::new(self.given.entries);
        let ids = id_of(first_of(self.given.skeleton), entries).index();
        self.rows.is_behind_root() && is_fresh_unit(self.unit, encoding, ids)
    }

    /// The id of the unit that is written.
    pub fn unit_id(&self) -> UnitId
        ensures { result ≡ self.now.id }
    {
        self.id
    }

    /// No entry, for `read_entry` to read into.
    pub fn null_entry(&self) -> ConvertUnitEntry<'a, R>
        ensures read_unit { result.read_unit ≡ self.now.read_unit }
        ensures attributes { result.read_entry.attrs.items ≡ [] }
        ensures sibling { result.sibling ≡ false }
        ensures parent { result.parent ≡ None }
    {
        ConvertUnitEntry::null(self.alloc, self.read_unit)
    }

    /// Reads the next entry behind those that were read, in the order in which they stand, and
    /// answers the id that is reserved for it, or `Some(None)` where a filter doesn't keep it. Its
    /// parent is the nearest entry above it that is kept. Null entries are passed. None tells that
    /// no entry is left. All entries were read once before, so it is refused only as `NoMemory`;
    /// from then on entries may come with other ids.
    pub fn read_entry(
        &mut self,
        entry: &mut ConvertUnitEntry<'a, R>,
    ) -> ConvertResult<Option<Option<UnitEntryId>>>
        ensures reads { (front rest : List Row) → StandsAt R.reading self.old front rest →
            ReadsEntry R.reading front rest self.new entry.new result }
        ensures ended { self.old.rows.rows.is_ended ≡ true → result ≡ Ok None }
        ensures others { self.new ≡ record self.old { rows = self.new.rows } }
    {
        let Some((number, parent)) = self.rows.next(&mut entry.read_entry)? else {
            return Ok(None);
        };
        let behind = first_of(self.given.skeleton);
        entry.read_unit = self.read_unit;
        entry.parent = above(number, id_of(behind, parent));
        entry.filter_attributes();
        Ok(Some(ids_of(behind, number)))
    }

    /// Adds an entry with the tag that was read, under its parent, or under the root where that is
    /// None, and lets it name the place past its children where the entry that was read did. Its id
    /// is one that is reserved, or a new one. Attributes are not added.
    pub fn add_entry(
        &mut self,
        id: Option<UnitEntryId>,
        entry: &ConvertUnitEntry<'_, R>,
    ) -> ConvertResult<UnitEntryId>
        requires unwritten { self.old.unit.now.is_written ≡ false }
        requires reserved { IfSome id (λ i. IsReserved self.old.unit.now i.0) }
        requires room { id ≡ None → self.old.unit.now.reserved < usize.MAX }
        requires parent_in { parent_of entry.now.parent < self.old.unit.now.reserved }
        requires tagged { entry.now.read_entry.tag.0 ≡ 0 → ⊥ }
        ensures id { IfOk result (λ i. i.0 ≡ id_or_next id self.old.unit.now) }
        ensures ok { OnOk result (self.new.unit.now ≡ with_entry
            (added_under id (parent_of entry.now.parent) entry.now.read_entry.tag.0
            self.old.unit.now)
            (id_or_next id self.old.unit.now) (with_sibling entry.now.sibling)) }
        ensures err { IfErr result (λ e. e ≡ NoMemory) }
        ensures kept { OnErr result (self.new.unit.now ≡ self.old.unit.now) }
        ensures same_unit { self.new.unit.ghost_name ≡ self.old.unit.ghost_name }
        ensures others { self.new ≡ record self.old { unit = self.new.unit } }
    {
        let unit = &mut *self.unit;
        let parent = entry.parent.unwrap_or(unit.root());
        // A unit that isn't written still has its entries.
        prove!(unit.count() <= unit.reserved());
        let Ok(id) = add_under(unit, id, parent, entry.read_entry.tag) else {
            return Err(ConvertError::NoMemory);
        };
        unit.get_mut(id).set_sibling(entry.sibling);
        Ok(id)
    }

    /// Sets the line program of the unit that is written, and what its files became by the numbers
    /// that were read, as `ConvertLineProgram::convert` answers both.
    pub fn set_line_program(&mut self, line_program: LineProgram, line_program_files: Vec<FileId>)
        ensures unit { self.new.unit.now
            ≡ record self.old.unit.now { line_program = line_program } }
        ensures files { self.new.files ≡ line_program_files }
        ensures same_unit { self.new.unit.ghost_name ≡ self.old.unit.ghost_name }
        ensures others { self.new
            ≡ record self.old { unit = self.new.unit; files = self.new.files } }
    {
        set_program(self.unit, line_program);
        self.files = line_program_files;
    }

    /// What the entry at a place in the unit becomes. It is refused as `InvalidUnitRef` where none
    /// begins there.
    pub fn convert_unit_ref(&self, entry: UnitOffset) -> ConvertResult<UnitEntryId>
        ensures { EntryOutcome (entries_in self.now) entry.0 result }
    {
        self.given.refs.convert_unit_ref(entry)
    }

    /// What the entry at a place in `.debug_info` becomes. It is refused as `InvalidDebugInfoRef`
    /// where none begins there.
    pub fn convert_debug_info_ref(&self, entry: DebugInfoOffset) -> ConvertResult<DebugInfoRef>
        ensures { InfoOutcome (infos_in self.now) entry.0 result }
    {
        self.given.refs.convert_debug_info_ref(entry)
    }
}

impl<R: Reader> ConvertDebugInfoRef for ConvertUnit<'_, R> {
    ghost entries = { entries_in };

    ghost infos = { infos_in };

    fn convert_unit_ref(&self, entry: UnitOffset) -> ConvertResult<UnitEntryId> {
        self.given.refs.convert_unit_ref(entry)
    }

    fn convert_debug_info_ref(&self, entry: DebugInfoOffset) -> ConvertResult<DebugInfoRef> {
        self.given.refs.convert_debug_info_ref(entry)
    }
}

/// Adds an entry to a unit, under an id that is reserved or a new one.
fn add_under(
    unit: &mut Unit,
    id: Option<UnitEntryId>,
    parent: UnitEntryId,
    tag: DwTag,
) -> Result<UnitEntryId>
    requires not_freed { unit.old.is_freed ≡ false }
    requires reserved { IfSome id (λ i. IsReserved unit.old i.0) }
    requires room { id ≡ None → unit.old.reserved < usize.MAX }
    requires parent_in { parent.0 < unit.old.reserved }
    requires tagged { tag.0 ≡ 0 → ⊥ }
    ensures id { IfOk result (λ i. i.0 ≡ id_or_next id unit.old) }
    ensures there { IfOk result (λ i. i.0 < length unit.new.entries) }
    ensures ok { OnOk result (unit.new ≡ added_under id parent.0 tag.0 unit.old) }
    ensures err { IfErr result (λ e. e ≡ written.NoMemory) }
    ensures kept { OnErr result (unit.new ≡ unit.old) }
{
    let Some(id) = id else {
        return unit.add(parent, tag);
    };
    unit.add_reserved(id, parent, tag)?;
    Ok(id)
}

/// The parent of an entry that is kept under an id, or isn't: the root has none.
fn above(id: Option<UnitEntryId>, parent: UnitEntryId) -> Option<UnitEntryId>
    ensures { result ≡ above id parent.0 }
{
    match id {
        Some(id) if id.index() == 0 => None,
        _ => Some(parent),
    }
}
