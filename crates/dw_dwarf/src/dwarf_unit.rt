//! The DWARF of a file that has one unit.

ghost use Rattle.std.specs.Prelude.{◌≡◌, ◌⊎◌, ◌≤◌, [], true, false, Some, IfOk, OnOk, OnErr, IfErr, IsFalse};
ghost use Rattle.dw_base.specs.declared.error.Error.TheVariants.{NoMemory};
ghost use Rattle.dw_writer.specs.Sections.{SomeHasRisen, fault_sum, NoFixups};
ghost use Rattle.dw_unit.specs.Alone.{has_info_reference, AppendsAlone, AloneRefused};
ghost use Rattle.dw_tree.specs.Elsewhere.{elsewhere, unit_tables, AppendsLine, AppendsRanges};
ghost use Rattle.dw_line.specs.LinePrograms.{no_line_program};
ghost use Rattle.dw_tree.specs.UnitValue.{new_unit};
ghost use Rattle.dw_tree.specs.Valid.{IsWritableAt};
ghost use Rattle.dw_tree.specs.Whole.{settled, marked_written};
ghost use Rattle.dw_dwarf.specs.DwarfValue.{dwarf_of};
ghost use Rattle.dw_dwarf.specs.LineNames.{IsThere, bytes_of};
ghost use Rattle.dw_dwarf.specs.Written.{AreNewPlain, AreNew, HoldsDwarf, ResolvesTo, AddsStrings, KeepsOthers};

use crate::line_string::line_string_bytes;
use crate::rest::write_rest;
use dw_base::{Encoding, Result};
use dw_strings::{LineStringTable, StringTable};
use dw_unit::{LineProgram, LineString, Unit};
use dw_writer::{Sections, Writer};
use std::alloc::Global;

/// A `Dwarf` of one unit, without a table of units.
///
/// ```
/// let mut dwarf = DwarfUnit::new(alloc, encoding)?;
/// let root = dwarf.unit.root();
/// dwarf.unit.add(root, DW_TAG_base_type)?;
/// let mut sections = Sections::new(alloc, EndianVec::new(alloc, LittleEndian))?;
/// dwarf.write(&mut sections)?;
/// ```
#[derive(Drop)]
pub struct DwarfUnit {
    /// The one unit of `.debug_info`.
    pub unit: Unit,
    /// The strings of `.debug_line_str`.
    pub line_strings: LineStringTable,
    /// The strings of `.debug_str`.
    pub strings: StringTable,
}

impl DwarfUnit {
    /// A unit that has its root alone, a `DW_TAG_compile_unit` without attributes, no line program
    /// and no strings.
    pub fn new(alloc: Global, encoding: Encoding) -> Result<DwarfUnit>
        ensures ok { IfOk result
            (λ d. d ≡ record {
              unit = new_unit encoding no_line_program;
              line_strings = [];
              strings = [];
            }) }
        ensures err { IfErr result (λ e. e ≡ NoMemory) }
    {
        Ok(DwarfUnit {
            unit: Unit::new(alloc, encoding, LineProgram::none())?,
            line_strings: LineStringTable::new(alloc),
            strings: StringTable::new(alloc),
        })
    }

    /// Writes the unit with its abbreviation table behind what the two sections hold, and marks it
    /// written, with its line program, where that is in use, and the strings. Over new sections
    /// they then hold exactly these, to their last byte (DWARF 5, 6.2, 7.5 and 7.26). The root
    /// names the line program in `DW_AT_stmt_list`, and its base types move before its other
    /// children.
    ///
    /// Refused as `Unit::write` refuses the unit, and as `InvalidReference` where a reference names
    /// an entry by its place in `.debug_info`, also one of this unit. A refused unit is as it was,
    /// or settled, or it is marked written, where only the strings were refused; the sections may
    /// have got some bytes.
    pub fn write<W: Writer>(&mut self, sections: &mut Sections<W>) -> Result<()>
        requires unwritten { self.old.unit.is_written ≡ false }
        requires fixups { NoFixups sections.old }
        // Over new plain sections, each in its own byte order: they are read back as the unit.
        ensures built { OnOk result
            (AreNewPlain W.meaning sections.old →
            HoldsDwarf W.meaning sections.new (dwarf_of self.old.line_strings
            self.old.strings self.old.unit)) }
        // Over new sections of any kind: so they are once a linker has resolved them.
        ensures resolves { OnOk result
            (AreNew W.meaning sections.old →
            ResolvesTo W.meaning sections.new (dwarf_of self.old.line_strings
            self.old.strings self.old.unit)) }
        // Over sections of any kind, behind whatever stands there.
        ensures appends { OnOk result
            (AppendsAlone W.meaning sections.old sections.new (settled self.old.unit)
            (unit_tables (elsewhere W.meaning sections.old self.old.line_strings
            self.old.strings) self.old.unit) self.new.unit.offsets) }
        // Its line program, where it is in use, stands behind what `.debug_line` held.
        ensures lines { OnOk result
            (AppendsLine W.meaning sections.old sections.new self.old.line_strings
            self.old.strings self.old.unit) }
        // Its range lists stand behind what the section of its version held.
        ensures ranges { OnOk result
            (AppendsRanges W.meaning sections.old sections.new self.old.unit) }
        // The strings stand behind what their sections held.
        ensures strings { OnOk result
            (AddsStrings W.meaning sections.old sections.new self.old.line_strings
            self.old.strings) }
        ensures emptied { OnOk result (NoFixups sections.new) }
        ensures marked { OnOk result
            (self.new.unit ≡ marked_written self.new.unit.offsets (settled self.old.unit)) }
        ensures writable { OnOk result
            (IsWritableAt (W.meaning sections.old.debug_info.0).is_plain
            (elsewhere W.meaning sections.old self.old.line_strings self.old.strings)
            (W.meaning sections.old.debug_abbrev.0).size self.old.unit) }
        ensures alone { OnOk result (IsFalse (has_info_reference self.old.unit)) }

        ensures err { IfErr result
            (AloneRefused W.meaning sections.old sections.new self.old.unit
            (elsewhere W.meaning sections.old self.old.line_strings self.old.strings)) }
        // A refused unit is as it was or settled, or was written, where only the strings were
        // refused.
        ensures kept { OnErr result
            ((self.new.unit ≡ self.old.unit) ⊎ ((self.new.unit ≡ settled self.old.unit)
            ⊎ (self.new.unit ≡ marked_written self.new.unit.offsets (settled self.old.unit)))) }
        // Only the unit changes.
        ensures strings_kept { self.new ≡ record self.old { unit = self.new.unit } }
        // A unit that can be written, without such references, is refused only for want of memory,
        // or by a fault that was counted.
        ensures complete { IsWritableAt (W.meaning sections.old.debug_info.0).is_plain
            (elsewhere W.meaning sections.old self.old.line_strings self.old.strings)
            (W.meaning sections.old.debug_abbrev.0).size self.old.unit →
            IsFalse (has_info_reference self.old.unit) →
            (SomeHasRisen W.meaning sections.old sections.new → ⊥) →
            IfErr result (λ e. e ≡ NoMemory) }

        ensures others { KeepsOthers sections.old sections.new }
        ensures faults { fault_sum W.meaning sections.old ≤ fault_sum W.meaning sections.new }
    {
        self.unit
            .write_alone(sections, &self.line_strings, &self.strings)?;
        write_rest(&[], &self.line_strings, &self.strings, sections)
    }

    /// The bytes of a string of a line program, as `Dwarf::get_line_string` gives them.
    pub fn get_line_string<'a>(&'a self, string: &'a LineString) -> &'a [u8]
        requires { IsThere self.now.line_strings self.now.strings string.now }
        ensures { bytes_of self.now.line_strings self.now.strings string.now ≡ Some result.now }
    {
        line_string_bytes(string, &self.line_strings, &self.strings)
    }
}
