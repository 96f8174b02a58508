//! The units of a `Dwarf`.

ghost use Rattle.std.specs.Prelude.{◌≡◌, ◌⊎◌, ◌+◌, ◌<◌, ◌≤◌, ◌++◌, ◌∷◌, [], true, false, List, All, length, Some, IsTrue, OnOk, IfOk, OnErr, IfErr, slice_get};
ghost use Rattle.std.specs.Borrow.{sem};
ghost use Rattle.dw_base.specs.declared.error.Error.TheVariants.{NoMemory};
ghost use Rattle.dw_writer.specs.Causes.{IsNotMemory, NotAtAll};
ghost use Rattle.dw_writer.specs.Sections.{fault_sum, SomeHasRisen, NoFixups};
ghost use Rattle.dw_tree.specs.UnitValue.{UnitValue};
ghost use Rattle.dw_tree.specs.Elsewhere.{elsewhere, AppendsLines, AppendsAllRanges};
ghost use Rattle.dw_tree.specs.Valid.{IsWritableAt, AreWritable, CanFollow};
ghost use Rattle.dw_tree.specs.Pending.{starts_of};
ghost use Rattle.dw_tree.specs.Whole.{IsRefused};
ghost use Rattle.dw_tree.specs.Causes.{Because, UnitRefused, UnitsFail, RefusesAny};
ghost use Rattle.dw_tree.specs.Written.{AreWritten, AreStopped, CompletesAny, PendsUnits, WritesIfNew, KeepsOtherSections};

use crate::references::fill_all;
use crate::unit::Unit;
use crate::unit_iter::UnitIter;
use dw_base::{Result, UnitId};
use dw_strings::{LineStringTable, StringTable};
use dw_writer::{Sections, Writer};
use std::alloc::Global;
use std::marker::Model;

/// Units, in the order in which they were added and will be written.
#[derive(Drop)]
pub struct UnitTable {
    units: Vec<Unit>,
}

impl Model for UnitTable {
    ghost use Rattle.std.specs.Prelude.{List};
    ghost use Rattle.std.specs.Coded.{codes};
    ghost use Rattle.dw_expr.specs.Codes.{node_code};
    ghost use Rattle.dw_tree.specs.UnitValue.{UnitValue};

    ghost Value = { List UnitValue };

    ghost coded = { Prim.hlevel (codes, node_code) };

    ghost view = { λ t. t.units.items };
}

impl UnitTable {
    ghost use Rattle.dw_unit.specs.UnitIds.{with_ids};
    ghost use Rattle.dw_unit.specs.TableLends.{LendsUnit};
    ghost use Rattle.dw_unit.specs.WrittenUnits.{HoldsAllUnits};

    /// No units.
    pub fn new(alloc: Global) -> UnitTable
        ensures { result ≡ [] }
    {
        UnitTable {
            units: Vec::new(alloc),
        }
    }

    /// Adds a unit after the others, and answers its id. A refused unit is dropped.
    pub fn add(&mut self, unit: Unit) -> Result<UnitId>
        ensures ok { OnOk result (self.new ≡ self.old ++ unit ∷ []) }
        ensures id { IfOk result (λ i. i.0 ≡ length self.old) }
        ensures err { IfErr result (λ e. e ≡ NoMemory) }
        ensures kept { OnErr result (self.new ≡ self.old) }
    {
        let id = UnitId::new(self.units.len());
        self.units.push(unit)?;
        Ok(id)
    }

    /// How many units there are.
    pub fn count(&self) -> usize
        ensures { result ≡ length self.now }
    {
        self.units.len()
    }

    /// The id of the unit at an index.
    pub fn id(&self, index: usize) -> UnitId
        requires { index < length self.now }
        ensures { result.0 ≡ index }
    {
        UnitId::new(index)
    }

    /// A unit of the table.
    pub fn get(&self, id: UnitId) -> &Unit
        requires { id.0 < length self.now }
        ensures { slice_get self.now id.0 ≡ Some result.now }
    {
        &self.units[id.index()]
    }

    /// A unit of the table, to be changed.
    pub fn get_mut(&mut self, id: UnitId) -> &mut Unit
        requires { id.0 < length self.old }
        ensures* lends { sem 𝓛 (LendsUnit self.entry id.0 result) }
        ensures value { slice_get self.old id.0 ≡ Some result.now }
    {
        &mut self.units[id.index()]
    }

    /// The units with their ids, in order.
    pub fn iter(&self) -> UnitIter<'_>
        ensures { result ≡ with_ids self.now }
    {
        UnitIter::new(self.units.as_slice())
    }

    /// Writes the units that aren't written yet, each behind what `.debug_info`, `.debug_abbrev`,
    /// for its line program `.debug_line`, and for its lists `.debug_rnglists` and
    /// `.debug_loclists`, or `.debug_ranges` and `.debug_loc`, hold, marks them written, and fills
    /// in the references across units that are open: those of these units and their location
    /// lists, and those that `Unit::write` left in the three lists of fixups. After Ok these are
    /// empty.
    ///
    /// Refused as `Unit::write` refuses a unit that isn't written yet, and where a reference across
    /// units names an entry outside its unit's tree, or a unit that is absent or was skipped
    /// (`InvalidReference`), or where its place has no room (`ValueTooLarge`). The units before the
    /// one that was refused are written, it is as it was or settled, and those behind it are as
    /// they were. The sections may have got some bytes.
    pub fn write<W: Writer>(
        &mut self,
        sections: &mut Sections<W>,
        line_strings: &LineStringTable,
        strings: &StringTable,
    ) -> Result<()>
        ensures completes { OnOk result
            (CompletesAny W.meaning sections.old sections.new self.old self.new
            (elsewhere W.meaning sections.old line_strings.now strings.now)) }
        // Over sections that were empty and plain before other units of the file were written
        // there, which may be given up since: they are read as these units, and behind them its
        // own.
        ensures built { OnOk result
            (HoldsAllUnits W.meaning sections.old sections.new line_strings.now strings.now
            self.old) }
        ensures writable { OnOk result
            (AreWritable (W.meaning sections.old.debug_info.0).is_plain
            (elsewhere W.meaning sections.old line_strings.now strings.now)
            (W.meaning sections.old.debug_abbrev.0).size self.old) }
        // Each unit that wasn't written before keeps where its entries stand: in a row from where
        // the sections ended.
        ensures marked { OnOk result
            (AreWritten (starts_of W.meaning sections.old) (starts_of W.meaning sections.new)
            (elsewhere W.meaning sections.old line_strings.now strings.now) self.old self.new) }
        // The line programs in use stand behind what `.debug_line` held, in the order of the units,
        // and so do their range lists in both sections.
        ensures lines { OnOk result
            (AppendsLines W.meaning sections.old sections.new line_strings.now strings.now
            self.old) }
        ensures ranges { OnOk result
            (AppendsAllRanges W.meaning sections.old sections.new self.old) }
        ensures emptied { OnOk result (NoFixups sections.new) }

        ensures err { IfErr result
            (RefusesAny W.meaning sections.old sections.new self.old self.new
            (elsewhere W.meaning sections.old line_strings.now strings.now)) }
        // Where the units can be written behind those that are pending, and their references lead
        // to entries, they are refused only for want of memory, or by a fault that was counted.
        ensures complete { CanFollow W.meaning sections.old self.old
            (elsewhere W.meaning sections.old line_strings.now strings.now) →
            (SomeHasRisen W.meaning sections.old sections.new → ⊥) →
            IfErr result (λ e. e ≡ NoMemory) }
        // Where every unit is written already, references are patched, and no memory is taken.
        ensures memory { IsTrue W.patches_in_place → All (λ u. u.is_written ≡ true) self.old →
            IfErr result IsNotMemory }
        ensures stopped { OnErr result
            (AreStopped (starts_of W.meaning sections.old)
            (elsewhere W.meaning sections.old line_strings.now strings.now) self.old self.new) }

        ensures others { KeepsOtherSections sections.old sections.new }
        ensures faults { fault_sum W.meaning sections.old ≤ fault_sum W.meaning sections.new }
    {
        self.write_units(sections, line_strings, strings)?;
        fill_all(self.units.as_slice(), sections)?;
        sections.debug_info_fixups.clear();
        sections.debug_loc_fixups.clear();
        sections.debug_loclists_fixups.clear();
        Ok(())
    }

    /// Writes the units. Their references across units stay open.
    fn write_units<W: Writer>(
        &mut self,
        sections: &mut Sections<W>,
        line_strings: &LineStringTable,
        strings: &StringTable,
    ) -> Result<()>
        ensures pending { OnOk result
            (PendsUnits W.meaning sections.old sections.new self.old self.new
            (elsewhere W.meaning sections.old line_strings.now strings.now)) }
        ensures writable { OnOk result
            (AreWritable (W.meaning sections.old.debug_info.0).is_plain
            (elsewhere W.meaning sections.old line_strings.now strings.now)
            (W.meaning sections.old.debug_abbrev.0).size self.old) }
        ensures marked { OnOk result
            (AreWritten (starts_of W.meaning sections.old) (starts_of W.meaning sections.new)
            (elsewhere W.meaning sections.old line_strings.now strings.now) self.old self.new) }

        ensures err { IfErr result
            (Because (SomeHasRisen W.meaning sections.old sections.new)
            (UnitsFail (W.meaning sections.old.debug_info.0).is_plain
            (elsewhere W.meaning sections.old line_strings.now strings.now)
            (W.meaning sections.old.debug_abbrev.0).size self.old)) }
        ensures idle { All (λ u. u.is_written ≡ true) self.old → IfErr result NotAtAll }
        ensures stopped { OnErr result
            (AreStopped (starts_of W.meaning sections.old)
            (elsewhere W.meaning sections.old line_strings.now strings.now) self.old self.new) }

        ensures lines { OnOk result
            (AppendsLines W.meaning sections.old sections.new line_strings.now strings.now
            self.old) }
        ensures ranges { OnOk result
            (AppendsAllRanges W.meaning sections.old sections.new self.old) }
        ensures others { KeepsOtherSections sections.old sections.new }
        ensures faults { fault_sum W.meaning sections.old ≤ fault_sum W.meaning sections.new }
    {
        for index in 0..self.units.len() {
            write_if_new(&mut self.units[index], sections, line_strings, strings)?;
        }
        Ok(())
    }
}

/// Writes a unit, unless it is written already.
fn write_if_new<W: Writer>(
    unit: &mut Unit,
    sections: &mut Sections<W>,
    line_strings: &LineStringTable,
    strings: &StringTable,
) -> Result<()>
    ensures ok { OnOk result
        (WritesIfNew W.meaning sections.old sections.new unit.old unit.new
        (elsewhere W.meaning sections.old line_strings.now strings.now)) }
    ensures writable { OnOk result
        ((unit.old.is_written ≡ true)
        ⊎ IsWritableAt (W.meaning sections.old.debug_info.0).is_plain
        (elsewhere W.meaning sections.old line_strings.now strings.now)
        (W.meaning sections.old.debug_abbrev.0).size unit.old) }

    ensures err { IfErr result
        (λ e. (unit.old.is_written ≡ false)
        × UnitRefused W.meaning sections.old sections.new unit.old
        (elsewhere W.meaning sections.old line_strings.now strings.now) e) }
    ensures stopped { OnErr result (IsRefused unit.old unit.new) }

    ensures others { KeepsOtherSections sections.old sections.new }
    ensures faults { fault_sum W.meaning sections.old ≤ fault_sum W.meaning sections.new }
{
    if unit.is_written() {
        return Ok(());
    }
    unit.write(sections, line_strings, strings)
}
