//! A unit that is written as soon as it is converted, or skipped.

ghost use Rattle.std.specs.Prelude.{◌≡◌, ◌⊎◌, ◌≤◌, false, None, OnOk, OnErr, IfErr};
ghost use Rattle.dw_base.specs.declared.error.Error.TheVariants.{NoMemory};
ghost use Rattle.dw_writer.specs.Sections.{SomeHasRisen, fault_sum};
ghost use Rattle.dw_tree.specs.Causes.{UnitRefused};
ghost use Rattle.dw_tree.specs.Elsewhere.{elsewhere};
ghost use Rattle.dw_tree.specs.UnitValue.{freed};
ghost use Rattle.dw_tree.specs.Valid.{IsWritableAt};
ghost use Rattle.dw_tree.specs.Whole.{settled, marked_written};
ghost use Rattle.dw_tree.specs.Written.{KeepsOtherSections};
ghost use Rattle.dw_unit.specs.WrittenUnits.{ExtendsFile};

use crate::convert::convert_unit::ConvertUnit;
use dw_base::Result;
use dw_read::Reader;
use dw_writer::{Sections, Writer};

impl<R: Reader> ConvertUnit<'_, R> {
    /// Writes the unit at once, as `Unit::write` does, and gives its entries, its lists and its
    /// line program up. Only the places of its entries stay, by which references from units that
    /// are written later are filled in. So a file that is too large to hold can be converted unit
    /// by unit; `Dwarf::write` over the same sections then adds the strings and fills in the
    /// references across units (DWARF 5, 7.5).
    ///
    /// Refused as `Unit::write` refuses the unit. Then it is as it was, or settled, and the
    /// sections may have got some of its bytes.
    ///
    /// ```
    /// let mut section = dwarf.convert(&read)?;
    /// while let Some((mut unit, root)) = section.read_unit()? {
    ///     unit.convert(root, &constant)?;
    ///     unit.write(&mut sections)?;
    /// }
    /// dwarf.write(&mut sections)?;
    /// ```
    pub fn write<W: Writer>(&mut self, sections: &mut Sections<W>) -> Result<()>
        requires { self.old.unit.now.is_written ≡ false }
        // Whatever units of the file were written before, it stands behind them, with its line
        // program and its lists.
        ensures file { OnOk result
            (ExtendsFile W.meaning sections.old sections.new self.old.line_strings.now
            self.old.strings.now self.old.unit.now self.new.unit.now.offsets) }
        ensures freed { OnOk result (self.new.unit.now
            ≡ freed (marked_written self.new.unit.now.offsets (settled self.old.unit.now))) }
        ensures writable { OnOk result
            (IsWritableAt (W.meaning sections.old.debug_info.0).is_plain
            (elsewhere W.meaning sections.old self.old.line_strings.now self.old.strings.now)
            (W.meaning sections.old.debug_abbrev.0).size self.old.unit.now) }

        ensures err { IfErr result
            (UnitRefused W.meaning sections.old sections.new self.old.unit.now
            (elsewhere W.meaning sections.old self.old.line_strings.now self.old.strings.now)) }
        ensures kept { OnErr result
            ((self.new.unit.now ≡ self.old.unit.now)
            ⊎ (self.new.unit.now ≡ settled self.old.unit.now)) }
        // A unit that can be written is refused only for want of memory, or by a fault that was
        // counted.
        ensures complete { IsWritableAt (W.meaning sections.old.debug_info.0).is_plain
            (elsewhere W.meaning sections.old self.old.line_strings.now self.old.strings.now)
            (W.meaning sections.old.debug_abbrev.0).size self.old.unit.now →
            (SomeHasRisen W.meaning sections.old sections.new → ⊥) →
            IfErr result (λ e. e ≡ NoMemory) }

        ensures same_unit { self.new.unit.ghost_name ≡ self.old.unit.ghost_name }
        ensures others { self.new ≡ record self.old { unit = self.new.unit } }
        ensures sections { KeepsOtherSections sections.old sections.new }
        ensures faults { fault_sum W.meaning sections.old ≤ fault_sum W.meaning sections.new }
    {
        let unit = &mut *self.unit;
        unit.write(sections, &*self.line_strings, &*self.strings)?;
        unit.free();
        Ok(())
    }

    /// Leaves the unit out: it is marked, so that no later call writes it, and gives its entries,
    /// its lists and its line program up. A reference to one of its entries by the place in
    /// `.debug_info` is refused as `InvalidReference` when it is filled in.
    pub fn skip(&mut self)
        requires { self.old.unit.now.is_written ≡ false }
        ensures unit { self.new.unit.now ≡ freed (marked_written None self.old.unit.now) }
        ensures same_unit { self.new.unit.ghost_name ≡ self.old.unit.ghost_name }
        ensures others { self.new ≡ record self.old { unit = self.new.unit } }
    {
        let unit = &mut *self.unit;
        unit.skip();
        unit.free();
    }
}
