//! The units of a file that a filter reads one after the other.

ghost use Rattle.std.specs.Prelude.{◌≡◌, None, Some, true, false, IfOk, IfErr};
ghost use Rattle.dw_filter.specs.FilterSections.{Begins, HandsOut, KeepsUnit, with_skeleton};

use crate::unit::{FilterUnit, begin};
use dw_base::UnitSectionOffset;
use dw_read::{Reader, UnitHeadersIter};
use dw_read_units::{Dwarf, Unit, UnitRef};
use dw_sources::ConvertResult;
use std::alloc::Global;

/// The units of a file while a filter reads them: those that were handed out, how many entries were
/// read of each, and the entries that are required.
///
/// ```
/// let mut section = FilterUnitSection::new(alloc, &dwarf)?;
/// for _ in 0..count {
///     let Some(mut unit) = section.read_unit()? else {
///         break;
///     };
///     let mut entry = unit.null_entry();
///     if unit.read_entry(&mut entry)? {
///         unit.require_entry(entry.read_entry.offset)?;
///     }
/// }
/// ```
#[derive(Drop)]
pub struct FilterUnitSection<'a, R: Reader> {
    pub(crate) alloc: Global,
    pub(crate) dwarf: &'a Dwarf<R>,
    pub(crate) headers: UnitHeadersIter<R>,
    pub(crate) skeleton_unit: Option<UnitRef<'a, R>>,
    /// Whether an error was answered.
    pub(crate) has_failed: bool,
    /// Those that were handed out.
    pub(crate) units: Vec<Unit<R>>,
    /// How many entries behind the root were read of each.
    pub(crate) counts: Vec<usize>,
    pub(crate) required: Vec<UnitSectionOffset>,
}

impl<'a, R: Reader> FilterUnitSection<'a, R> {
    /// The units of a file. Nothing is read yet, and it is never refused.
    pub fn new(alloc: Global, dwarf: &'a Dwarf<R>) -> ConvertResult<Self>
        ensures ok { IfOk result (Begins R.reading dwarf.entry None) }
        ensures err { IfErr result (λ e. ⊥) }
    {
        Ok(FilterUnitSection::of(alloc, dwarf, None))
    }

    /// The units of a split file, which take what they say of addresses from their skeleton
    /// (DWARF 5, 3.1.3). Nothing is read yet, and it is never refused.
    pub fn new_split(
        alloc: Global,
        dwarf: &'a Dwarf<R>,
        skeleton_unit: UnitRef<'a, R>,
    ) -> ConvertResult<Self>
        ensures ok { IfOk result (Begins R.reading dwarf.entry (Some skeleton_unit.entry)) }
        ensures err { IfErr result (λ e. ⊥) }
    {
        Ok(FilterUnitSection::of(alloc, dwarf, Some(skeleton_unit)))
    }

    /// The next unit, in the order of `.debug_info`, with its root passed over. None comes where
    /// all were handed out, and once an error was answered.
    ///
    /// Refused as `Read`, where the next header, the unit's abbreviation table, its root or the
    /// root's address can't be read, as by `Dwarf::unit`, and as `NoMemory`.
    pub fn read_unit(&mut self) -> ConvertResult<Option<FilterUnit<'_, R>>>
        ensures { HandsOut R.reading self.old result }
    {
        if !self.keep_unit()? {
            return Ok(None);
        }
        let (alloc, dwarf, read_skeleton_unit) = (self.alloc, self.dwarf, self.skeleton_unit);
        let FilterUnitSection {
            alloc: _,
            dwarf: _,
            headers: _,
            skeleton_unit: _,
            has_failed,
            units,
            counts,
            required,
        } = self;
        let unit = &units[units.len() - 1];
        let last = counts.len() - 1;
        let (rows, seen) = match begin(alloc, unit) {
            Ok(begun) => begun,
            Err(error) => {
                *has_failed = true;
                return Err(error);
            }
        };
        Ok(Some(FilterUnit {
            read_unit: UnitRef { dwarf, unit },
            read_skeleton_unit,
            alloc,
            rows,
            seen,
            named: Vec::new(alloc),
            error: None,
            count: &mut counts[last],
            required,
        }))
    }

    /// The file that is read.
    pub fn dwarf(&self) -> &'a Dwarf<R>
        ensures { result ≡ self.now.dwarf }
    {
        self.dwarf
    }

    /// The skeleton of the units of a split file.
    pub fn skeleton_unit(&self) -> Option<UnitRef<'a, R>>
        ensures { result ≡ self.now.skeleton_unit }
    {
        self.skeleton_unit
    }

    /// The units that were handed out, in their order.
    pub fn units(&self) -> &[Unit<R>]
        ensures { result.now ≡ self.now.units.items }
    {
        &self.units
    }

    /// How many entries behind the root were read of each of these units.
    pub fn counts(&self) -> &[usize]
        ensures { result.now ≡ self.now.counts.items }
    {
        &self.counts
    }

    /// The places in `.debug_info` that were required, in the order of the calls.
    pub fn required(&self) -> &[UnitSectionOffset]
        ensures { result.now ≡ self.now.required.items }
    {
        &self.required
    }

    /// The units of a file, of which none was read.
    fn of(
        alloc: Global,
        dwarf: &'a Dwarf<R>,
        skeleton_unit: Option<UnitRef<'a, R>>,
    ) -> FilterUnitSection<'a, R>
        ensures { Begins R.reading dwarf.entry skeleton_unit.entry result }
    {
        FilterUnitSection {
            alloc,
            dwarf,
            headers: dwarf.units(),
            skeleton_unit,
            has_failed: false,
            units: Vec::new(alloc),
            counts: Vec::new(alloc),
            required: Vec::new(alloc),
        }
    }

    /// Reads the next unit, and keeps it. False tells that there is none, or that an error was
    /// answered.
    fn keep_unit(&mut self) -> ConvertResult<bool>
        ensures keeps { KeepsUnit R.reading self.old self.new result }
        ensures failed { IfErr result (λ e. self.new.has_failed ≡ true) }
    {
        if self.has_failed {
            return Ok(false);
        }
        match self.keep_next() {
            Ok(is_kept) => Ok(is_kept),
            Err(error) => {
                self.has_failed = true;
                Err(error)
            }
        }
    }

    /// The same without a look at the errors before.
    fn keep_next(&mut self) -> ConvertResult<bool>
        requires { self.old.has_failed ≡ false }
        ensures { KeepsUnit R.reading self.old self.new result }
    {
        let Some(header) = self.headers.next()? else {
            return Ok(false);
        };
        let mut unit = self.dwarf.unit(self.alloc, header)?;
        relocate(&mut unit, self.skeleton_unit);
        self.units.push(unit)?;
        self.counts.push(0)?;
        Ok(true)
    }
}

/// Gives a unit of a split file what its skeleton says of addresses.
fn relocate<R: Reader>(unit: &mut Unit<R>, skeleton: Option<UnitRef<'_, R>>)
    ensures { unit.new ≡ with_skeleton skeleton.entry unit.old }
{
    if let Some(skeleton) = skeleton {
        unit.copy_relocated_attributes(skeleton.unit);
    }
}
