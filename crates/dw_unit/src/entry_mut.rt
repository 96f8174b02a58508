//! An entry that is being changed, by a handle that borrows its whole unit.

ghost use Rattle.std.specs.Prelude.{◌≡◌, ◌≢◌, ◌<◌, length, Some, None, slice_get, OnOk, OnErr, IfErr};
ghost use Rattle.dw_base.specs.declared.error.Error.TheVariants.{NoMemory};
ghost use Rattle.dw_entries.specs.Entries.{with_sibling, with_attribute, without_attribute, without_child};
ghost use Rattle.dw_tree.specs.UnitValue.{with_entry, value_in, KeepsOtherValues};

use crate::unit::Unit;
use dw_base::constants::DW_AT_sibling;
use dw_base::{DwAt, Result, UnitEntryId};
use dw_entries::{AttributeValue, AttrsMut, DebuggingInformationEntry};

/// An entry of a unit, to be changed.
#[derive(Drop)]
pub struct EntryMut<'a> {
    unit: &'a mut Unit,
    index: usize,
    ghost within: { index < length unit.now.entries },
}

impl<'a> EntryMut<'a> {
    pub(crate) fn of(unit: &'a mut Unit, index: usize) -> EntryMut<'a>
        requires { index < length unit.old.entries }
        ensures same_unit { result.unit.ghost_name ≡ unit.entry.ghost_name }
        ensures unit { result.unit.now ≡ unit.old }
        ensures index { result.index ≡ index }
    {
        EntryMut { unit, index }
    }

    /// The entry as it is now.
    pub fn entry(&self) -> &DebuggingInformationEntry
        ensures entry { slice_get self.now.unit.now.entries self.now.index ≡ Some result.now }
        ensures id { result.now.id ≡ self.now.index }
    {
        self.unit.get(UnitEntryId::new(self.index))
    }

    /// Says whether the entry is to name the place past its children, if it has any, by
    /// `DW_AT_sibling` (DWARF 5, 2.3).
    pub fn set_sibling(&mut self, sibling: bool)
        ensures same_unit { self.new.unit.ghost_name ≡ self.old.unit.ghost_name }
        ensures index { self.new.index ≡ self.old.index }
        ensures unit { self.new.unit.now
            ≡ with_entry self.old.unit.now self.old.index (with_sibling sibling) }
        ensures count { length self.new.unit.now.entries ≡ length self.old.unit.now.entries }
    {
        let index = self.index;
        let unit = &mut *self.unit;
        unit.entries.set_sibling(index, sibling);
    }

    /// Replaces the value under a name in its position, which takes no memory, or appends an
    /// attribute. `DW_AT_sibling` is not among the names that are set. Refused only as `NoMemory`.
    pub fn set(&mut self, name: DwAt, value: AttributeValue) -> Result<()>
        requires named { name.0 ≢ 0 }
        requires not_sibling { name ≢ DW_AT_sibling }
        ensures same_unit { self.new.unit.ghost_name ≡ self.old.unit.ghost_name }
        ensures index { self.new.index ≡ self.old.index }

        ensures ok { OnOk result
            (self.new.unit.now ≡ with_entry self.old.unit.now self.old.index
            (with_attribute name.0 value)) }
        ensures count { length self.new.unit.now.entries ≡ length self.old.unit.now.entries }
        ensures stored { OnOk result
            (value_in self.new.unit.now self.old.index name.0 ≡ Some value) }
        ensures others { KeepsOtherValues self.old.unit.now self.new.unit.now
            self.old.index name.0 }

        ensures err { IfErr result (λ e. e ≡ NoMemory) }
        ensures kept { OnErr result (self.new.unit.now ≡ self.old.unit.now) }
        ensures in_place { OnErr result (value_in self.old.unit.now self.old.index name.0 ≡ None) }
    {
        let index = self.index;
        let unit = &mut *self.unit;
        unit.entries.set(index, name, value)
    }

    /// Appends an attribute under a name that the entry has no value under, which is looked for
    /// nowhere: many are appended in the time that they take. `DW_AT_sibling` is not among the
    /// names that are set. Refused only as `NoMemory`.
    pub fn push(&mut self, name: DwAt, value: AttributeValue) -> Result<()>
        requires named { name.0 ≢ 0 }
        requires not_sibling { name ≢ DW_AT_sibling }
        requires absent { value_in self.old.unit.now self.old.index name.0 ≡ None }
        ensures same_unit { self.new.unit.ghost_name ≡ self.old.unit.ghost_name }
        ensures index { self.new.index ≡ self.old.index }
        ensures ok { OnOk result
            (self.new.unit.now ≡ with_entry self.old.unit.now self.old.index
            (with_attribute name.0 value)) }
        ensures count { length self.new.unit.now.entries ≡ length self.old.unit.now.entries }
        ensures err { IfErr result (λ e. e ≡ NoMemory) }
        ensures kept { OnErr result (self.new.unit.now ≡ self.old.unit.now) }
    {
        let index = self.index;
        let unit = &mut *self.unit;
        unit.entries.push(index, name, value)
    }

    /// Leaves the attribute of a name out, if there is one.
    pub fn delete(&mut self, name: DwAt)
        ensures same_unit { self.new.unit.ghost_name ≡ self.old.unit.ghost_name }
        ensures index { self.new.index ≡ self.old.index }
        ensures unit { self.new.unit.now
            ≡ with_entry self.old.unit.now self.old.index (without_attribute name.0) }
        ensures count { length self.new.unit.now.entries ≡ length self.old.unit.now.entries }
        ensures gone { value_in self.new.unit.now self.old.index name.0 ≡ None }
        ensures others { KeepsOtherValues self.old.unit.now self.new.unit.now
            self.old.index name.0 }
    {
        let index = self.index;
        let unit = &mut *self.unit;
        unit.entries.delete(index, name);
    }

    /// Takes a child out of the entry's children, if it is there. The entry that was the child
    /// stays in the unit, and neither it nor what is under it is written.
    pub fn delete_child(&mut self, id: UnitEntryId)
        ensures same_unit { self.new.unit.ghost_name ≡ self.old.unit.ghost_name }
        ensures index { self.new.index ≡ self.old.index }
        ensures unit { self.new.unit.now
            ≡ with_entry self.old.unit.now self.old.index (without_child id.0) }
        ensures count { length self.new.unit.now.entries ≡ length self.old.unit.now.entries }
    {
        let index = self.index;
        let unit = &mut *self.unit;
        unit.entries.delete_child(index, id);
    }

    /// Makes room for so many more attributes, and for no others.
    pub fn reserve(&mut self, additional: usize) -> Result<()>
        ensures same_unit { self.new.unit.ghost_name ≡ self.old.unit.ghost_name }
        ensures index { self.new.index ≡ self.old.index }
        ensures unit { self.new.unit.now ≡ self.old.unit.now }
        ensures err { IfErr result (λ e. e ≡ NoMemory) }
    {
        let index = self.index;
        let unit = &mut *self.unit;
        unit.entries.reserve_attributes(index, additional)
    }
}

impl EntryMut<'_> {
    ghost use Rattle.std.specs.Option.{option_copied_mut};
    ghost use Rattle.std.specs.Borrow.{sem};
    ghost use Rattle.dw_entries.specs.Entries.{entry_at};
    ghost use Rattle.dw_unit.specs.Lends.{LendsOut, LendsWalkOut};

    /// The value under a name, to be changed.
    pub fn get_mut(&mut self, name: DwAt) -> Option<&mut AttributeValue>
        ensures* writes_back { sem 𝓛 (LendsOut self.entry name.0 result) }
        ensures value { option_copied_mut result
            ≡ value_in self.old.unit.now self.old.index name.0 }
    {
        let index = self.index;
        let unit = &mut *self.unit;
        unit.entries.value_mut(index, name)
    }

    /// A walk over the attributes, to change their values.
    pub fn attrs_mut(&mut self) -> AttrsMut<'_>
        ensures* writes_back { sem 𝓛 (LendsWalkOut self.entry result) }
        ensures attributes { result.now.attributes
            ≡ (entry_at self.old.unit.now.entries self.old.index).attributes }
        ensures next { result.now.next ≡ 0 }
    {
        let index = self.index;
        let unit = &mut *self.unit;
        unit.entries.walk_mut(index)
    }
}
