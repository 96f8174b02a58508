//! A walk over the entries of a unit.

ghost use Rattle.std.specs.Prelude.{◌≡◌, ◌↔◌, ◌≤◌, ◌++◌, ◌∷◌, List, Option, [], map, true, false, Ok, None, if◌then◌else◌, IfErr, IsTrue, OnOk};
ghost use Rattle.dw_base.specs.Entries.{Row};
ghost use Rattle.dw_read_units.specs.Passes.{rows_reading};
ghost use Rattle.dw_read_units.specs.declared.dwarf.Unit.{Unit as UnitFields};
ghost use Rattle.dw_read.specs.declared.error.ReadError.{ReadError};
ghost use Rattle.dw_read.specs.declared.error.ReadError.TheVariants.{NoMemory};
ghost use Rattle.dw_entry_ids.specs.Plans.{last_or_root};
ghost use Rattle.dw_entry_ids.specs.AnyUnit.{StandsAmong, WalksAmong};
ghost use Rattle.dw_entry_ids.specs.RowsUntil.{unit_rows_until};
ghost use Rattle.dw_entry_ids.specs.UnitCursor.{StandsBetween};
ghost use Rattle.dw_entry_ids.specs.UnitWalk.{WalksOn};

use dw_base::UnitEntryId;
use dw_read::{DebuggingInformationEntry, EntriesRaw, ReadResult, Reader};
use dw_read_units::Unit;
use std::alloc::Global;

/// Where the rows of a unit are read, with what is known of the entries before that: how many there
/// were, and under which of them the next one stands (DWARF 5, 2.3).
///
/// ```
/// let mut rows = UnitRows::new(alloc, &unit);
/// let mut entry = DebuggingInformationEntry::new(alloc);
/// while let Some((id, parent)) = rows.next(&mut entry)? {
///     let tag = entry.tag;
/// }
/// ```
#[derive(Drop)]
pub struct UnitRows<'a, R: Reader> {
    pub(crate) rows: EntriesRaw<'a, R>,
    /// How many entries were read, so the number of the next.
    pub(crate) count: usize,
    /// Those whose lists of children are open, the outermost first.
    pub(crate) parents: Vec<UnitEntryId>,
    /// Whether the walk has ended: no entry is handed out any more.
    pub(crate) is_ended: bool,
}

impl<'a, R: Reader> UnitRows<'a, R> {
    /// The rows of a unit, from the first on.
    pub fn new(alloc: Global, unit: &'a Unit<R>) -> UnitRows<'a, R>
        ensures between { (all : List Row) →
            rows_reading R.reading unit.now.header unit.now.abbreviations ≡ Ok all →
            unit.now.header.offset.0 ≤ (R.reading unit.now.header.body).place →
            StandsBetween R.reading unit.now result [] all }
        ensures among { unit.now.header.offset.0 ≤ (R.reading unit.now.header.body).place →
            StandsAmong R.reading unit.now result [] (unit_rows_until R.reading unit.now).rows
            (unit_rows_until R.reading unit.now).fault }
    {
        UnitRows {
            rows: EntriesRaw::new(&unit.header, &unit.abbreviations),
            count: 0,
            parents: Vec::new(alloc),
            is_ended: false,
        }
    }

    /// Whether the root was read, and nothing behind it.
    pub fn is_behind_root(&self) -> bool
        ensures { IsTrue result ↔ (self.now.count ≡ 1) × (self.now.is_ended ≡ false) }
    {
        self.count == 1 && !self.is_ended
    }

    /// Reads the next entry, and answers its id and that of its parent, both numbered in the order
    /// of reading, the root as 0; the root's parent is the root. Null entries are passed. None
    /// tells that no entry is left. Where a row of the unit can't be read, the entries before it
    /// come first, and then the reason why it can't. Else it is refused as `NoMemory` alone.
    pub fn next(
        &mut self,
        entry: &mut DebuggingInformationEntry<R>,
    ) -> ReadResult<Option<(UnitEntryId, UnitEntryId)>>
        ensures reads { (u : UnitFields R R.Endian) (front rest : List Row)
            (fault : Option ReadError) → StandsAmong R.reading u self.old front rest fault →
            WalksAmong R.reading u front rest fault self.new entry.new result }
        ensures walks { (u : UnitFields R R.Endian) (front rest : List Row) →
            StandsBetween R.reading u self.old front rest →
            WalksOn R.reading u front rest self.new entry.new result }
        ensures ended { self.old.is_ended ≡ true → result ≡ Ok None }
    {
        if self.is_ended {
            return Ok(None);
        }
        'rows: while !self.rows.is_empty() {
            if !self.rows.read_entry(entry)? {
                self.parents.pop();
                continue;
            }
            let id = UnitEntryId::new(self.count);
            let parent = last_or_root(&self.parents);
            open_list(&mut self.parents, entry.has_children, id)?;
            self.count = self.count.saturating_add(1);
            return Ok(Some((id, parent)));
        }
        Ok(None)
    }
}

/// The last of the entries whose lists of children are open, or the root, which is above all.
fn last_or_root(parents: &[UnitEntryId]) -> UnitEntryId
    ensures { result.0 ≡ last_or_root (map (λ i. i.0) parents.now) }
{
    parents.last().copied().unwrap_or(UnitEntryId::new(0))
}

/// Opens an entry's list of children behind the others, if it has one.
fn open_list(parents: &mut Vec<UnitEntryId>, has_children: bool, id: UnitEntryId) -> ReadResult<()>
    ensures ok { OnOk result (parents.new.items
        ≡ (if has_children then parents.old.items ++ id ∷ [] else parents.old.items)) }
    ensures err { IfErr result (λ e. e ≡ NoMemory) }
{
    if has_children {
        parents.push(id)?;
    }
    Ok(())
}
