//! A file of which a filter keeps some entries.

ghost use Rattle.std.specs.Prelude.{◌≡◌, ◌⊎◌, IfOk, IfErr};
ghost use Rattle.dw_sources.specs.declared.convert_error.ConvertError.TheVariants.{NoMemory};
ghost use Rattle.dw_dwarf.specs.DwarfValue.{dwarf_in};
ghost use Rattle.dw_dwarf.specs.FilteredDwarf.{IsFiltered, CannotBegin, CannotFilter};
ghost use Rattle.dw_dwarf.specs.UnitSections.{BeginsFiltered};
ghost use Rattle.dw_dwarf.specs.WholeFilter.{HasReadAll, IsFilteredWhole};

use crate::convert::found::FoundUnits;
use crate::convert::unit_section::ConvertUnitSection;
use crate::convert::units::convert_found;
use crate::dwarf::Dwarf;
use dw_base::Address;
use dw_filter::FilterUnitSection;
use dw_read::Reader;
use dw_sources::ConvertResult;
use std::alloc::Global;

impl Dwarf {
    /// Converts the units that a filter has read, each with its root and those of its entries that
    /// the filter keeps: the required ones that were read, and with an entry its parent, what its
    /// attributes name, and the children that it leads to. All else is as `Dwarf::from` does it.
    /// Units that the filter hasn't read are left out, and those of a split file are converted
    /// without their skeleton. Where it has read every unit to its end, all that kept entries name
    /// is kept.
    ///
    /// The units are read again, with all their rows. Refused as `Read` where one can't be read, or
    /// the location list of an entry that the filter has read, and for the reasons for which
    /// `Dwarf::from` is: as `InvalidUnitRef` or `InvalidDebugInfoRef` where an entry is named that
    /// isn't kept.
    ///
    /// ```
    /// let mut filter = FilterUnitSection::new(alloc, &read)?;
    /// if let Some(mut unit) = filter.read_unit()? {
    ///     let mut entry = unit.null_entry();
    ///     if unit.read_entry(&mut entry)? {
    ///         unit.require_entry(entry.read_entry.offset)?;
    ///     }
    /// }
    /// let constant = |address: u64| Some(Address::Constant(address));
    /// let mut dwarf = Dwarf::from_filter(alloc, filter, &constant)?;
    /// ```
    pub fn from_filter<'a, R: Reader, F: Fn(u64) -> Option<Address>>(
        alloc: Global,
        filter: FilterUnitSection<'a, R>,
        convert_address: &F,
    ) -> ConvertResult<Dwarf>
        requires { F.IsAlwaysCallable convert_address.now }
        ensures ok { IfOk result (λ d. IsFiltered R.reading filter.entry
            (F.post convert_address.now) (dwarf_in d)) }
        // Where it has read each unit to its end, all units become one each, and known are all
        // their entries but for roots.
        ensures whole { HasReadAll R.reading filter.entry → IfOk result (λ d. IsFilteredWhole
            R.reading filter.entry (F.post convert_address.now) (dwarf_in d)) }
        ensures err { IfErr result (λ e. (e ≡ NoMemory)
            ⊎ CannotFilter R.reading filter.entry (F.post convert_address.now) e) }
    {
        let given = FoundUnits::filtered(alloc, filter)?;
        let mut dwarf = Dwarf::new(alloc);
        convert_found(
            alloc,
            given.read,
            &given.found,
            &given.kept,
            &mut dwarf.units,
            &mut dwarf.strings,
            &mut dwarf.line_strings,
            convert_address,
        )
        .and(Ok(dwarf))
    }

    /// Begins to convert the units that a filter has read one by one, as `Dwarf::convert` does for
    /// all of a file. For each a new unit is added behind those that are there, with an id for each
    /// of its entries that the filter keeps, in the order of reading. `ConvertUnit::read_entry`
    /// hands out the others, too, without an id.
    ///
    /// Refused as `Read` where a unit of the filter or one of its rows can't be read, or the
    /// location list of an entry that the filter has read, and as `NoMemory`. After an error some
    /// new units may have been added.
    ///
    /// ```
    /// let mut section = dwarf.convert_with_filter(filter)?;
    /// let next = section.read_unit()?;
    /// ```
    pub fn convert_with_filter<'a, R: Reader>(
        &'a mut self,
        filter: FilterUnitSection<'a, R>,
    ) -> ConvertResult<ConvertUnitSection<'a, R>>
        ensures ok { IfOk result (BeginsFiltered R.reading filter.entry (dwarf_in self.old)) }
        ensures same { IfOk result (λ s. s.dwarf.ghost_name ≡ self.entry.ghost_name) }
        ensures err { IfErr result (λ e. (e ≡ NoMemory)
            ⊎ CannotBegin R.reading filter.entry e) }
    {
        let alloc = *self.line_programs.allocator();
        let found = FoundUnits::filtered(alloc, filter)?;
        let first = self.units.count();
        found.add_new(alloc, &mut self.units).and(Ok(ConvertUnitSection {
            alloc,
            found,
            dwarf: self,
            first,
            next: 0,
        }))
    }
}
