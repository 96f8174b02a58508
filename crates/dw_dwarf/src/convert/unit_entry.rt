//! Entries of a unit that is converted.

ghost use Rattle.std.specs.Prelude.{◌≡◌, [], None, false, filter, not, IfOk, IfErr};
ghost use Rattle.dw_dwarf.specs.UnitEntries.{IsEntryAt, IsNoEntryAt, IsFiltered};

use crate::convert::entry::names_sibling;
use dw_base::{UnitEntryId, UnitOffset};
use dw_read::{DebuggingInformationEntry, ReadError, Reader};
use dw_read_units::UnitRef;
use dw_sources::{ConvertResult, is_left_out};
use std::alloc::Global;

/// An entry that was read from a unit, less the attributes that what is written has of its own:
/// where siblings and tables begin, and split files. It can be read into again and again.
///
/// ```
/// let mut entry = unit.null_entry();
/// for _ in 0..rows {
///     let Some(Some(id)) = unit.read_entry(&mut entry)? else {
///         break;
///     };
///     let id = unit.add_entry(Some(id), &entry)?;
/// }
/// ```
#[derive(Drop)]
pub struct ConvertUnitEntry<'a, R: Reader> {
    /// The unit that it was read from.
    pub read_unit: UnitRef<'a, R>,
    /// The entry without those attributes.
    pub read_entry: DebuggingInformationEntry<R>,
    /// Whether it had an attribute `DW_AT_sibling`, so named the place past its children.
    pub sibling: bool,
    /// What its parent in the unit becomes: None for the root, or where that isn't known.
    pub parent: Option<UnitEntryId>,
}

impl<'a, R: Reader> ConvertUnitEntry<'a, R> {
    /// No entry, to be read into.
    pub fn null(alloc: Global, read_unit: UnitRef<'a, R>) -> ConvertUnitEntry<'a, R>
        ensures read_unit { result.read_unit ≡ read_unit.entry }
        ensures attributes { result.read_entry.attrs.items ≡ [] }
        ensures sibling { result.sibling ≡ false }
        ensures parent { result.parent ≡ None }
    {
        ConvertUnitEntry {
            read_unit,
            read_entry: DebuggingInformationEntry::new(alloc),
            sibling: false,
            parent: None,
        }
    }

    /// Reads the entry at an offset of a unit; its depth and its parent aren't known. It is refused
    /// as `Read` where the offset lies outside the unit's rows (`OffsetOutOfBounds`), where a null
    /// entry stands there (`NoEntryAtGivenOffset`), and where no entry can be read there, and as
    /// `NoMemory`.
    ///
    /// ```
    /// let root = ConvertUnitEntry::read(alloc, read, UnitOffset(11))?;
    /// ```
    pub fn read(
        alloc: Global,
        read_unit: UnitRef<'a, R>,
        offset: UnitOffset,
    ) -> ConvertResult<ConvertUnitEntry<'a, R>>
        ensures ok { IfOk result (IsEntryAt R.reading read_unit.entry offset.0) }
        ensures err { IfErr result (IsNoEntryAt R.reading read_unit.entry offset.0) }
    {
        let mut rows = read_unit.entries_raw(alloc, Some(offset))?;
        let mut entry = ConvertUnitEntry::null(alloc, read_unit);
        if !rows.read_entry(&mut entry.read_entry)? {
            let offset = offset.0 as u64;
            return Err(ReadError::NoEntryAtGivenOffset(offset).into());
        }
        entry.filter_attributes();
        Ok(entry)
    }

    /// Leaves out the attributes that what is written has of its own, and remembers whether one of
    /// them was a sibling.
    pub(crate) fn filter_attributes(&mut self)
        ensures { IsFiltered R.reading self.old self.new }
    {
        self.sibling = names_sibling(&self.read_entry);
        self.read_entry
            .attrs
            .retain(|attribute| !is_left_out(attribute.name()));
    }
}
