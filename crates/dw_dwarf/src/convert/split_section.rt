//! A unit that was split off while it is put back into its skeleton's.

ghost use Rattle.std.specs.Prelude.{◌≡◌, ◌⊎◌, ◌≤◌, [], None, false, take, map, IfOk, IfErr};
ghost use Rattle.dw_entry_ids.specs.KeptRows.{keep_of};
ghost use Rattle.dw_entry_ids.specs.KeptUnits.{AreUnitsBehind};
ghost use Rattle.dw_sources.specs.declared.convert_error.ConvertError.TheVariants.{NoMemory};
ghost use Rattle.dw_dwarf.specs.ConvertedUnits.{AreClosed};
ghost use Rattle.dw_dwarf.specs.SplitSections.{BeginsPuttingBack, BeginsSplit, BeginsSplitFiltered};
ghost use Rattle.dw_dwarf.specs.SplitSections.{CannotSplit, CannotSplitFiltered, HandsOutSplit};
ghost use Rattle.dw_dwarf.specs.SplitUnits.{CannotPutBack};

use crate::convert::convert_unit::ConvertUnit;
use crate::convert::found_units::{entries_of, kept_of};
use crate::convert::skeleton::Skeleton;
use crate::convert::split_unit::SplitUnit;
use crate::convert::split_units::reserve_ids;
use crate::convert::unit_entry::ConvertUnitEntry;
use dw_base::UnitId;
use dw_entry_ids::{Kept, first_units};
use dw_filter::FilterUnitSection;
use dw_read::Reader;
use dw_read_units::{Dwarf, Unit as ReadUnit};
use dw_sources::ConvertResult;
use dw_strings::{LineStringTable, StringTable};
use dw_unit::Unit;
use std::alloc::Global;

/// The unit of a split file (DWARF 5, 3.1.3), all of which was read once, and the unit of its
/// skeleton, into which it is converted.
///
/// ```
/// let Some((mut skeleton, _)) = section.read_unit()? else {
///     return Ok(());
/// };
/// let mut split = skeleton.convert_split(&split_file)?;
/// let (mut unit, root) = split.read_unit()?;
/// unit.convert(root, &|address| Some(Address::Constant(address)))?;
/// ```
#[derive(Drop)]
pub struct ConvertSplitUnitSection<'a, R: Reader> {
    pub(crate) alloc: Global,
    pub(crate) split: SplitUnit<'a, R>,
    /// The unit of the skeleton that is written.
    pub(crate) unit: &'a mut Unit,
    pub(crate) id: UnitId,
    pub(crate) line_strings: &'a mut LineStringTable,
    pub(crate) strings: &'a mut StringTable,
}

impl<'a, R: Reader> ConvertSplitUnitSection<'a, R> {
    /// The split unit, with its root entry; each call begins with it anew. `convert` converts all
    /// of it into the unit of the skeleton. It was read before, so it is refused only as
    /// `NoMemory`.
    pub fn read_unit(&mut self) -> ConvertResult<(ConvertUnit<'_, R>, ConvertUnitEntry<'_, R>)>
        ensures { HandsOutSplit R.reading self.old result }
    {
        let ConvertSplitUnitSection {
            alloc,
            split,
            unit,
            id,
            line_strings,
            strings,
        } = self;
        let given = split.give(*id);
        let mut converter = ConvertUnit::of(*alloc, given, *id, unit, line_strings, strings);
        let mut root = converter.null_entry();
        converter.read_entry(&mut root).and(Ok((converter, root)))
    }
}

impl<'a, R: Reader> ConvertUnit<'a, R> {
    /// Begins to put the unit of a split file back into the unit of its skeleton, which is this
    /// one: the first of the file, with what the skeleton says of addresses. Its root becomes the
    /// unit's, and an id is handed out for each of its other entries, in the order of reading. The
    /// unit keeps its encoding, and its line program is the skeleton's.
    ///
    /// Refused as `Read` where the first unit of the split file or one of its rows can't be read,
    /// as `Read` with `MissingSplitUnit` where it has none, and as `NoMemory`.
    ///
    /// ```
    /// let mut split = skeleton.convert_split(&split_file)?;
    /// let (mut unit, root) = split.read_unit()?;
    /// ```
    pub fn convert_split<'b>(
        &'b mut self,
        split_dwarf: &'b Dwarf<R>,
    ) -> ConvertResult<ConvertSplitUnitSection<'b, R>>
        requires whole { self.old.read_skeleton_unit ≡ None }
        requires unwritten { self.old.unit.now.is_written ≡ false }
        ensures ok { IfOk result (BeginsSplit R.reading split_dwarf.entry self.old) }
        ensures err { IfErr result (λ e. (e ≡ NoMemory)
            ⊎ CannotSplit R.reading split_dwarf.now e) }
    {
        let units = first_units(self.alloc, split_dwarf, 1)?;
        self.put_back(split_dwarf, units, Kept::all())
    }

    /// The same for the first unit that a filter of the split file has read, and those of its
    /// entries that the filter keeps; the filter is one of `FilterUnitSection::new_split`.
    ///
    /// Refused as `Read` where a unit of the filter or one of its rows can't be read, or the
    /// location list of an entry that the filter has read, as `Read` with `MissingSplitUnit` where
    /// it has read no unit, and as `NoMemory`.
    ///
    /// ```
    /// let mut filter = FilterUnitSection::new_split(alloc, &split_file, skeleton.read_unit)?;
    /// let mut split = skeleton.convert_split_with_filter(filter)?;
    /// ```
    pub fn convert_split_with_filter<'b>(
        &'b mut self,
        filter: FilterUnitSection<'b, R>,
    ) -> ConvertResult<ConvertSplitUnitSection<'b, R>>
        requires whole { self.old.read_skeleton_unit ≡ None }
        requires unwritten { self.old.unit.now.is_written ≡ false }
        ensures ok { IfOk result (BeginsSplitFiltered R.reading filter.entry self.old) }
        ensures err { IfErr result (λ e. (e ≡ NoMemory)
            ⊎ CannotSplitFiltered R.reading filter.entry e) }
    {
        let alloc = self.alloc;
        let read = filter.dwarf();
        let units = first_units(alloc, read, filter.counts().len())?;
        let kept = kept_of(alloc, &filter, &units)?;
        self.put_back(read, units, kept)
    }

    /// Begins to put back the first of units that were read from a split file.
    fn put_back<'b>(
        &'b mut self,
        split_dwarf: &'b Dwarf<R>,
        units: Vec<ReadUnit<R>>,
        kept: Kept,
    ) -> ConvertResult<ConvertSplitUnitSection<'b, R>>
        requires unwritten { self.old.unit.now.is_written ≡ false }
        requires in_order { AreUnitsBehind R.reading split_dwarf.now 0 units.items }
        requires closed { AreClosed (keep_of kept) R.reading units.items }
        ensures ok { IfOk result (BeginsPuttingBack R.reading split_dwarf.entry
            (take 1 units.items) kept self.old) }
        ensures err { IfErr result (λ e. (e ≡ NoMemory)
            ⊎ CannotPutBack R.reading (take 1 units.items) e) }
    {
        let ConvertUnit {
            read_unit,
            read_skeleton_unit: _,
            unit,
            line_strings,
            strings,
            alloc,
            given: _,
            id,
            files: _,
            rows: _,
        } = self;
        // A unit that isn't written still has its entries, its root among them.
        prove!(unit.count() <= unit.reserved());
        let skeleton = Skeleton {
            read: *read_unit,
            first: unit.reserved(),
        };
        let split = SplitUnit::of(*alloc, split_dwarf, units, kept, skeleton)?;
        reserve_ids(unit, entries_of(&split.numbered));
        Ok(ConvertSplitUnitSection {
            alloc: *alloc,
            split,
            unit,
            id: *id,
            line_strings,
            strings,
        })
    }
}
