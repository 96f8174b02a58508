//! A walk over the entries of a unit of which some are kept.

ghost use Rattle.std.specs.Prelude.{◌≡◌, ◌≤◌, ◌↔◌, List, [], Ok, Option, None, true, false, get_or, map, IsTrue};
ghost use Rattle.dw_base.specs.Entries.{Row};
ghost use Rattle.dw_base.specs.declared.offsets.UnitSectionOffset.{UnitSectionOffset as Place};
ghost use Rattle.dw_read_units.specs.Passes.{rows_reading};
ghost use Rattle.dw_read_units.specs.declared.dwarf.Unit.{Unit as UnitFields};
ghost use Rattle.dw_entry_ids.specs.KeptWalk.{StandsKept, WalksKept};

use crate::kept::Kept;
use crate::unit_rows::UnitRows;
use dw_base::{UnitEntryId, UnitSectionOffset};
use dw_read::{DebuggingInformationEntry, ReadResult, Reader};
use dw_read_units::Unit;
use std::alloc::Global;

/// Where the rows of a unit are read, as `UnitRows`, with the numbers of those entries alone that
/// are kept.
///
/// ```
/// let mut rows = KeptRows::new(alloc, &unit, &kept);
/// let mut entry = DebuggingInformationEntry::new(alloc);
/// while let Some((id, parent)) = rows.next(&mut entry)? {
///     let is_kept = id.is_some();
/// }
/// ```
#[derive(Drop)]
pub struct KeptRows<'a, R: Reader> {
    pub(crate) rows: UnitRows<'a, R>,
    pub(crate) kept: &'a Kept,
    /// The place where the unit begins.
    pub(crate) start: usize,
    /// How many entries that are kept were read, so the number of the next.
    pub(crate) count: usize,
    /// For each entry that was read the kept one that it is, or below which it stands.
    pub(crate) images: Vec<UnitEntryId>,
}

impl<'a, R: Reader> KeptRows<'a, R> {
    /// The rows of a unit, from the first on.
    pub fn new(alloc: Global, unit: &'a Unit<R>, kept: &'a Kept) -> KeptRows<'a, R>
        ensures { (all : List Row) →
            rows_reading R.reading unit.now.header unit.now.abbreviations ≡ Ok all →
            unit.now.header.offset.0 ≤ (R.reading unit.now.header.body).place →
            StandsKept R.reading unit.now kept.now result [] all }
    {
        KeptRows {
            rows: UnitRows::new(alloc, unit),
            kept,
            start: unit.header.offset().0,
            count: 0,
            images: Vec::new(alloc),
        }
    }

    /// Whether the root was read, and nothing behind it.
    pub fn is_behind_root(&self) -> bool
        ensures { IsTrue result ↔ (self.now.rows.count ≡ 1) × (self.now.rows.is_ended ≡ false) }
    {
        self.rows.is_behind_root()
    }

    /// Ends the walk: no entry is handed out any more.
    pub fn end(&mut self)
        ensures { self.new
            ≡ record self.old { rows = record self.old.rows { is_ended = true } } }
    {
        self.rows.is_ended = true;
    }

    /// Reads the next entry, and answers its id, if it is kept, and that of the kept entry below
    /// which it stands. Ids are numbered in the order of reading, the root as 0; the root's parent
    /// is the root. Null entries are passed. None tells that no entry is left. Where all rows of
    /// the unit can be read it is refused as `NoMemory` alone.
    pub fn next(
        &mut self,
        entry: &mut DebuggingInformationEntry<R>,
    ) -> ReadResult<Option<(Option<UnitEntryId>, UnitEntryId)>>
        ensures walks { (u : UnitFields R R.Endian) (kept : Option (List Place))
            (front rest : List Row) → StandsKept R.reading u kept self.old front rest →
            WalksKept R.reading u kept front rest self.new entry.new result }
        ensures ended { self.old.rows.is_ended ≡ true → result ≡ Ok None }
    {
        let Some((_, parent)) = self.rows.next(entry)? else {
            return Ok(None);
        };
        let parent = image_of(&self.images, parent);
        let id = UnitEntryId::new(self.count);
        let place = UnitSectionOffset(self.start.saturating_add(entry.offset.0));
        if !self.kept.keeps_numbered(id, place) {
            self.images.push(parent)?;
            return Ok(Some((None, parent)));
        }
        self.images.push(id)?;
        self.count = self.count.saturating_add(1);
        Ok(Some((Some(id), parent)))
    }
}

/// What stands for an entry that was read. Nothing but the root stands above all.
fn image_of(images: &[UnitEntryId], number: UnitEntryId) -> UnitEntryId
    ensures { result.0 ≡ get_or (map (λ i. i.0) images.now) number.0 0 }
{
    images
        .get(number.index())
        .copied()
        .unwrap_or(UnitEntryId::new(0))
}
