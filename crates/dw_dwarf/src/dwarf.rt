//! The DWARF of one file.

ghost use Rattle.std.specs.Prelude.{◌≡◌, ◌⊎◌, ◌≤◌, Bool, [], Some, Ok, Err, IsTrue, IfSome, IfOk, OnOk, OnErr, IfErr};
ghost use Rattle.dw_base.specs.declared.error.Error.TheVariants.{NoMemory};
ghost use Rattle.dw_writer.specs.New.{IsNew};
ghost use Rattle.dw_writer.specs.Sections.{SomeHasRisen, fault_sum, NoFixups};
ghost use Rattle.dw_line.specs.Parts.{NoCause};
ghost use Rattle.dw_tree.specs.Causes.{RefusesAny};
ghost use Rattle.dw_tree.specs.Elsewhere.{ends_of, AppendsAllRanges};
ghost use Rattle.dw_tree.specs.Pending.{starts_of};
ghost use Rattle.dw_tree.specs.Valid.{CanFollow};
ghost use Rattle.dw_tree.specs.Written.{AreWritten, AreStopped, CompletesAny};
ghost use Rattle.dw_sources.specs.declared.convert_error.ConvertError.TheVariants as refused;
ghost use Rattle.dw_convert_lines.specs.HeaderImages.{IsWritable};
ghost use Rattle.dw_convert_lines.specs.ReadPrograms.{ProgramOutcome};
ghost use Rattle.dw_convert_lines.specs.Views.{texts_of, tables, converting};
ghost use Rattle.dw_dwarf.specs.ConvertedDwarf.{IsConverted, CannotConvert};
ghost use Rattle.dw_dwarf.specs.ConvertedUnits.{CannotRead};
ghost use Rattle.dw_dwarf.specs.DwarfValue.{dwarf_in};
ghost use Rattle.dw_dwarf.specs.Left.{IsLeft};
ghost use Rattle.dw_dwarf.specs.LineNames.{IsThere, bytes_of};
ghost use Rattle.dw_dwarf.specs.UnitSections.{BeginsUnits};
ghost use Rattle.dw_dwarf.specs.Valid.{AreUnwritten, IsValid, IsValidAt, DwarfRefused, extra_fails, found_in};
ghost use Rattle.dw_dwarf.specs.WrittenFile.{HoldsWhole};
ghost use Rattle.dw_dwarf.specs.Written.{AreNewPlain, AreNew, HoldsDwarf, ResolvesTo, AddsLines, AddsStrings, KeepsOthers};

use crate::convert::{ConvertUnitSection, FoundUnits, convert_units};
use crate::line_string::line_string_bytes;
use crate::rest::write_rest;
use dw_base::{Address, Encoding, LineEncoding, Result};
use dw_convert_lines::{ConvertLineProgram, read_line_program};
use dw_read::Reader;
use dw_read_lines::IncompleteLineProgram;
use dw_read_units::Dwarf as ReadDwarf;
use dw_sources::ConvertResult;
use dw_strings::{LineStringTable, StringTable};
use dw_unit::{LineProgram, LineString, UnitTable};
use dw_writer::{Sections, Writer};
use std::alloc::Global;

/// What is written into the sections of one file: units with their line programs, further line
/// programs, and strings.
#[derive(Drop)]
pub struct Dwarf {
    /// The units of `.debug_info`, in the order in which they are written.
    pub units: UnitTable,
    /// Line programs of no unit, which are written behind those of units.
    pub line_programs: Vec<LineProgram>,
    /// The strings of `.debug_line_str`.
    pub line_strings: LineStringTable,
    /// The strings of `.debug_str`.
    pub strings: StringTable,
}

impl Dwarf {
    /// No units, no line programs and no strings.
    pub fn new(alloc: Global) -> Dwarf
        ensures { dwarf_in result
            ≡ record { units = []; line_programs = []; line_strings = []; strings = [] } }
    {
        Dwarf {
            units: UnitTable::new(alloc),
            line_programs: Vec::new(alloc),
            line_strings: LineStringTable::new(alloc),
            strings: StringTable::new(alloc),
        }
    }

    /// Writes the units that aren't written yet, each with an abbreviation table of its own, and
    /// marks them written, then the line programs of no unit and the strings. After Ok the three
    /// lists of fixups are empty.
    ///
    /// Over new plain sections, as `Sections::new` gives them over an empty `EndianVec`, and where
    /// none of the units was written before, `.debug_info` and `.debug_abbrev` then hold exactly
    /// these units, to their last byte (DWARF 5, 7.5), `.debug_line` the line programs in use and
    /// behind them those of no unit (6.2), `.debug_str` and `.debug_line_str` the strings (7.26),
    /// the four sections of lists those of the units (7.28 and 7.29; DWARF 4, 2.6.2 and 2.17.3),
    /// and the other sections are empty. In each unit the root names its line program in
    /// `DW_AT_stmt_list`, where that is in use, and its base types stand before its other children.
    ///
    /// Refused as `UnsupportedVersion` or `UnsupportedWordSize` where a unit's version isn't 2 to 5
    /// or its address size isn't 1, 2, 4 or 8, as `InvalidAttributeValue` where a string value has
    /// a zero byte, a value names a line program that isn't in use, or a base of lists stands below
    /// version 5 or in a unit without such lists, as `InvalidReference` where a reference names an
    /// entry outside its unit's tree, a unit that is absent or was skipped, a symbol, or a string
    /// or a list that isn't in its table, as `InvalidRange`, `MissingBaseAddress` or
    /// `UnexpectedBaseAddress` where the write of its table refuses a list, named or not, as
    /// `UnsetBranchTarget` where a branch of an expression has no target, as
    /// `UnsupportedExpressionForwardReference` where an expression spells in LEB128 the place of an
    /// entry that comes later in the tree, or any place in the unit of one outside it, as
    /// `InvalidAddress` where an address is a symbol's and the sections record no relocations, as
    /// `InitialLengthOverflow` where a 32-bit unit, line program or table of lists has 0xffff_fff0
    /// bytes or more after its length (DWARF 5, 7.4), as `NeedVersion`, `LineStringFormMismatch` or
    /// `IncompatibleLineProgramEncoding` where `LineProgram::write` refuses a line program, as
    /// `ValueTooLarge` where an address, an offset, the place of a table, of a string, of a line
    /// program or of an entry, the number of a file, a change of line, or the size of a unit has no
    /// room, and as `WriteFault` or `NoMemory`. The units before the one that was refused are
    /// written, it stays as it was or is settled, and those behind it stay as they were; the
    /// sections may have got some bytes.
    ///
    /// ```
    /// let mut dwarf = Dwarf::new(alloc);
    /// dwarf.units.add(Unit::new(alloc, encoding, LineProgram::none())?)?;
    /// let mut sections = Sections::new(alloc, EndianVec::new(alloc, LittleEndian))?;
    /// dwarf.write(&mut sections)?;
    /// ```
    pub fn write<W: Writer>(&mut self, sections: &mut Sections<W>) -> Result<()>
        // Over new plain sections, each in its own byte order: they are read back as the units.
        ensures built { OnOk result
            (AreNewPlain W.meaning sections.old → AreUnwritten (dwarf_in self.old) →
            HoldsDwarf W.meaning sections.new (dwarf_in self.old)) }
        // Over new sections of any kind: so they are once a linker has resolved them.
        ensures resolves { OnOk result
            (AreNew W.meaning sections.old → AreUnwritten (dwarf_in self.old) →
            ResolvesTo W.meaning sections.new (dwarf_in self.old)) }
        // So a linker finds it.
        ensures left { OnOk result
            ((big : Bool) → IsNew W.meaning big sections.old → AreUnwritten (dwarf_in self.old) →
            IsLeft W.meaning big sections.new (dwarf_in self.old)) }
        // Over sections that were new and plain before other units of the file were written there,
        // which may be given up since: they hold these units, and behind them its own.
        ensures whole { OnOk result
            (HoldsWhole W.meaning sections.old sections.new (dwarf_in self.old)) }
        // Over sections of any kind, behind whatever units are pending there: units that weren't
        // written before are added, and every reference that is open is filled in.
        ensures completes { OnOk result
            (CompletesAny W.meaning sections.old sections.new self.old.units self.new.units
            (found_in W.meaning sections.old (dwarf_in self.old))) }
        // The line programs in use stand behind what `.debug_line` held, in the order of the units,
        // and behind them those of no unit.
        ensures lines { OnOk result
            (AddsLines W.meaning sections.old sections.new (dwarf_in self.old)) }
        // The range lists of units stand behind what their two sections held, in the order of the
        // units, and each of them is found there and read as it was built.
        ensures ranges { OnOk result
            (AppendsAllRanges W.meaning sections.old sections.new self.old.units) }
        // The strings stand behind what their sections held.
        ensures strings { OnOk result
            (AddsStrings W.meaning sections.old sections.new self.old.line_strings
            self.old.strings) }
        ensures emptied { OnOk result (NoFixups sections.new) }
        // Each unit that wasn't written before keeps where its entries stand: in a row from where
        // the sections ended.
        ensures marked { OnOk result
            (AreWritten (starts_of W.meaning sections.old) (starts_of W.meaning sections.new)
            (found_in W.meaning sections.old (dwarf_in self.old)) self.old.units
            self.new.units) }
        ensures valid { OnOk result
            (NoFixups sections.old → AreUnwritten (dwarf_in self.old) →
            IsValidAt (W.meaning sections.old.debug_info.0).is_plain
            (starts_of W.meaning sections.old) (ends_of W.meaning sections.old)
            (dwarf_in self.old)) }

        ensures err { IfErr result
            (λ e. NoFixups sections.old → AreUnwritten (dwarf_in self.old) →
            DwarfRefused W.meaning sections.old sections.new (dwarf_in self.old) e) }
        ensures refused { IfErr result
            (λ e. RefusesAny W.meaning sections.old sections.new self.old.units self.new.units
            (found_in W.meaning sections.old (dwarf_in self.old)) e
            ⊎ IsTrue (extra_fails (W.meaning sections.old.debug_line.0).is_plain
            (dwarf_in self.old) e)) }
        ensures stopped { OnErr result
            (AreStopped (starts_of W.meaning sections.old)
            (found_in W.meaning sections.old (dwarf_in self.old)) self.old.units
            self.new.units) }
        // A valid Dwarf is refused over new sections only for want of memory, or by a fault that
        // was counted. What is valid hangs on whether symbols can be written.
        ensures complete { AreNew W.meaning sections.old → AreUnwritten (dwarf_in self.old) →
            IsValid (W.meaning sections.old.debug_info.0).is_plain (dwarf_in self.old) →
            (SomeHasRisen W.meaning sections.old sections.new → ⊥) →
            IfErr result (λ e. e ≡ NoMemory) }
        // The same behind units that are pending.
        ensures follows { CanFollow W.meaning sections.old self.old.units
            (found_in W.meaning sections.old (dwarf_in self.old)) →
            NoCause (extra_fails (W.meaning sections.old.debug_line.0).is_plain
            (dwarf_in self.old)) →
            (SomeHasRisen W.meaning sections.old sections.new → ⊥) →
            IfErr result (λ e. e ≡ NoMemory) }
        // Only the units change.
        ensures kept { self.new ≡ record self.old { units = self.new.units } }

        ensures others { KeepsOthers sections.old sections.new }
        ensures faults { fault_sum W.meaning sections.old ≤ fault_sum W.meaning sections.new }
    {
        self.units
            .write(sections, &self.line_strings, &self.strings)?;
        write_rest(
            self.line_programs.as_slice(),
            &self.line_strings,
            &self.strings,
            sections,
        )
    }

    /// The bytes of a string of a line program, without a closing zero (DWARF 5, 6.2.4.1). One that
    /// is named by its id has to be in its table.
    pub fn get_line_string<'a>(&'a self, string: &'a LineString) -> &'a [u8]
        requires { IsThere self.now.line_strings self.now.strings string.now }
        ensures { bytes_of self.now.line_strings self.now.strings string.now ≡ Some result.now }
    {
        line_string_bytes(string, &self.line_strings, &self.strings)
    }

    /// Converts a file that was read: all units of `.debug_info`, to its end, in their order, each
    /// with its encoding, its line program (DWARF 5, 6.2), its entries (2.3) under the images of
    /// their own parents, and the lists and the strings that these name. The root of each becomes a
    /// `DW_TAG_compile_unit`. Attributes that tell where tables begin, as `DW_AT_addr_base`, and
    /// `DW_AT_sibling` are dropped; an entry other than the root that had a sibling attribute is to
    /// have one again. `convert_address` says what an address of the read file becomes.
    ///
    /// Refused as `Read` where something that is read can't be, as `InvalidAddress` where
    /// `convert_address` answers `None`, as `InvalidUnitRef` or `InvalidDebugInfoRef` where no
    /// entry begins at a place that is named, for each other cause for which a line program or a
    /// value becomes nothing, and as `NoMemory`.
    ///
    /// ```
    /// let constant = |address: u64| Some(Address::Constant(address));
    /// let mut dwarf = Dwarf::from(alloc, &read, &constant)?;
    /// dwarf.write(&mut sections)?;
    /// ```
    pub fn from<R: Reader, F: Fn(u64) -> Option<Address>>(
        alloc: Global,
        from_dwarf: &ReadDwarf<R>,
        convert_address: &F,
    ) -> ConvertResult<Dwarf>
        requires { F.IsAlwaysCallable convert_address.now }
        ensures ok { IfOk result (λ d. IsConverted R.reading (F.post convert_address.now)
            from_dwarf.now (dwarf_in d)) }
        ensures err { IfErr result (λ e. (e ≡ refused.NoMemory) ⊎ CannotConvert R.reading
            (F.post convert_address.now) from_dwarf.now e) }
    {
        let mut dwarf = Dwarf::new(alloc);
        convert_units(
            alloc,
            from_dwarf,
            &mut dwarf.units,
            &mut dwarf.strings,
            &mut dwarf.line_strings,
            convert_address,
        )
        .and(Ok(dwarf))
    }

    /// Begins to convert a file that was read unit by unit. All units of `.debug_info` are read
    /// once, to its end, and for each a new unit is added behind those that are there: in its
    /// encoding, with its root alone, and with an id for each of its entries, so that units may
    /// name entries of others before those are converted.
    ///
    /// Refused as `Read` where a unit or one of its entries can't be read, and as `NoMemory`. After
    /// an error some new units may have been added.
    ///
    /// ```
    /// let mut section = dwarf.convert(&read)?;
    /// let next = section.read_unit()?;
    /// ```
    pub fn convert<'a, R: Reader>(
        &'a mut self,
        dwarf: &'a ReadDwarf<R>,
    ) -> ConvertResult<ConvertUnitSection<'a, R>>
        ensures ok { IfOk result (BeginsUnits R.reading dwarf.now (dwarf_in self.old)) }
        ensures same { IfOk result (λ s. s.dwarf.ghost_name ≡ self.entry.ghost_name) }
        ensures err { IfErr result (λ e. (e ≡ refused.NoMemory)
            ⊎ CannotRead R.reading dwarf.now e) }
    {
        let alloc = *self.line_programs.allocator();
        let found = FoundUnits::read(alloc, dwarf)?;
        let first = self.units.count();
        found.add_new(alloc, &mut self.units).and(Ok(ConvertUnitSection {
            alloc,
            found,
            dwarf: self,
            first,
            next: 0,
        }))
    }

    /// Begins to convert a line program that was read, by its parameters, directories and files, so
    /// that the strings that they lead to go into this `Dwarf`. An encoding or parameters that
    /// aren't given are those that were read (DWARF 5, 6.2.4).
    ///
    /// Refused as `UnsupportedLineProgram` where the parameters are none that a program here has, a
    /// description of directories or files can't be converted, a name, a number or a checksum has
    /// another form, or a name below version 5 is empty, as `InvalidDirectoryIndex` where a file's
    /// directory isn't there or version 5 has no directory, as `Read` where an entry or a string
    /// can't be read, and as `NoMemory`.
    ///
    /// ```
    /// let program = IncompleteLineProgram::new(&read, offset, 8)?;
    /// let converting = dwarf.read_line_program(&read, program, None, None)?;
    /// let (program, files) = converting.convert(&|address| Some(Address::Constant(address)))?;
    /// dwarf.line_programs.push(program)?;
    /// ```
    pub fn read_line_program<'a, R: Reader>(
        &mut self,
        dwarf: &'a ReadDwarf<R>,
        program: IncompleteLineProgram<R>,
        encoding: Option<Encoding>,
        line_encoding: Option<LineEncoding>,
    ) -> ConvertResult<ConvertLineProgram<'a, R>>
        requires { IfSome line_encoding IsWritable }
        ensures ok { IfOk result (λ c. ProgramOutcome R.reading (texts_of R.reading dwarf.now)
            program encoding line_encoding (tables self.old.strings self.old.line_strings)
            (Ok (converting c.program c.files.items self.new.strings self.new.line_strings))) }
        // Its sequences will be those of the program that was read.
        ensures read { IfOk result (λ c. c.read ≡ program) }
        ensures err { IfErr result (λ e. (e ≡ refused.NoMemory) ⊎ ProgramOutcome R.reading
            (texts_of R.reading dwarf.now) program encoding line_encoding
            (tables self.old.strings self.old.line_strings) (Err e)) }
        // Only the strings change.
        ensures kept { self.new ≡ record self.old
            { strings = self.new.strings; line_strings = self.new.line_strings } }
    {
        let alloc = *self.line_programs.allocator();
        read_line_program(
            alloc,
            dwarf,
            program,
            encoding,
            line_encoding,
            &mut self.line_strings,
            &mut self.strings,
        )
    }
}
