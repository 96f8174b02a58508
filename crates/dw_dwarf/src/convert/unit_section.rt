//! The units of a file that are converted one after the other.

ghost use Rattle.std.specs.Prelude.{◌≡◌, [], None};
ghost use Rattle.dw_dwarf.specs.Readable.{rows_held};
ghost use Rattle.dw_dwarf.specs.Skeletons.{skeleton_unit};
ghost use Rattle.dw_entry_ids.specs.KeptWalk.{StandsKept};
ghost use Rattle.dw_dwarf.specs.UnitSections.{PassesUnit, HandsOut};

use crate::convert::convert_unit::ConvertUnit;
use crate::convert::found::{FoundUnits, GivenUnit};
use crate::convert::skeleton::skeleton_unit;
use crate::convert::unit_entry::ConvertUnitEntry;
use crate::dwarf::Dwarf;
use dw_base::UnitId;
use dw_entry_ids::KeptRows;
use dw_read::Reader;
use dw_sources::ConvertResult;
use dw_strings::{LineStringTable, StringTable};
use dw_unit::Unit;
use std::alloc::Global;

/// The units of a file, all of which were read once, and the `Dwarf` that they are converted into.
///
/// ```
/// let mut section = dwarf.convert(&read)?;
/// for _ in 0..count {
///     let Some((mut unit, root)) = section.read_unit()? else {
///         break;
///     };
///     unit.convert(root, &|address| Some(Address::Constant(address)))?;
/// }
/// ```
#[derive(Drop)]
pub struct ConvertUnitSection<'a, R: Reader> {
    pub(crate) alloc: Global,
    pub(crate) found: FoundUnits<'a, R>,
    pub(crate) dwarf: &'a mut Dwarf,
    /// The number of the unit that the first of them becomes.
    pub(crate) first: usize,
    /// How many were handed out.
    pub(crate) next: usize,
}

impl<'a, R: Reader> ConvertUnitSection<'a, R> {
    /// The next unit, in the order of `.debug_info`, with its root entry; None where all were
    /// handed out. All units and their entries were read before, so it is refused only as
    /// `NoMemory`, and the unit is then passed.
    pub fn read_unit(
        &mut self,
    ) -> ConvertResult<Option<(ConvertUnit<'_, R>, ConvertUnitEntry<'_, R>)>>
        ensures { HandsOut R.reading self.old result }
    {
        let Some((index, id)) = self.pass() else {
            return Ok(None);
        };
        let ConvertUnitSection {
            alloc,
            found,
            dwarf,
            first,
            next: _,
        } = self;
        let Dwarf {
            units,
            line_programs: _,
            line_strings,
            strings,
        } = &mut **dwarf;
        let given = found.give(index, UnitId::new(*first));
        let unit = units.get_mut(id);
        let mut converter = ConvertUnit::of(*alloc, given, id, unit, line_strings, strings);
        let mut root = converter.null_entry();
        converter
            .read_entry(&mut root)
            .and(Ok(Some((converter, root))))
    }

    /// Passes the next unit, and answers its index and the id of the one that it becomes.
    fn pass(&mut self) -> Option<(usize, UnitId)>
        ensures { PassesUnit self.old self.new result }
    {
        let index = self.next;
        let written = self.dwarf.units.count().saturating_sub(self.first);
        if index >= written || index >= self.found.found.units.len() {
            return None;
        }
        self.next = index + 1;
        Some((index, UnitId::new(self.first + index)))
    }
}

impl<'a, R: Reader> ConvertUnit<'a, R> {
    /// A unit of which nothing was read yet.
    pub(crate) fn of(
        alloc: Global,
        given: GivenUnit<'a, R>,
        id: UnitId,
        unit: &'a mut Unit,
        line_strings: &'a mut LineStringTable,
        strings: &'a mut StringTable,
    ) -> ConvertUnit<'a, R>
        ensures unit { result.unit.ghost_name ≡ unit.entry.ghost_name }
        ensures unit_now { result.unit.now ≡ unit.old }
        ensures line_strings { result.line_strings.ghost_name ≡ line_strings.entry.ghost_name }
        ensures line_strings_now { result.line_strings.now ≡ line_strings.old }
        ensures strings { result.strings.ghost_name ≡ strings.entry.ghost_name }
        ensures strings_now { result.strings.now ≡ strings.old }
        ensures given { result.given ≡ given.entry }
        ensures read_unit { result.read_unit ≡ given.entry.read }
        ensures skeleton { result.read_skeleton_unit ≡ skeleton_unit given.entry.skeleton }
        ensures id { result.id ≡ id }
        ensures files { result.files.items ≡ [] }
        ensures rows { StandsKept R.reading given.entry.read.unit.now given.entry.kept.now
            result.rows [] (rows_held R.reading given.entry.read.unit.now) }
    {
        let (read, kept) = (given.read, given.kept);
        ConvertUnit {
            read_unit: read,
            read_skeleton_unit: skeleton_unit(given.skeleton),
            unit,
            line_strings,
            strings,
            alloc,
            given,
            id,
            files: Vec::new(alloc),
            rows: KeptRows::new(alloc, read.unit, kept),
        }
    }
}
