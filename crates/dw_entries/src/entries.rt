//! The entries of a unit, each under its id.

ghost use Rattle.std.specs.Prelude.{◌≡◌, ◌≢◌, ◌+◌, ◌<◌, ◌∷◌, [], IsTrue, length, None, Some, slice_get, OnOk, OnErr, IfOk, IfErr};
ghost use Rattle.dw_base.specs.declared.error.Error.TheVariants.{NoMemory};
ghost use Rattle.dw_entries.specs.Entries.{new_root, with_added, with_sibling, with_attribute, without_attribute, without_child, value_of};
ghost use Rattle.dw_entries.specs.Attributes.{IsOwnName};
ghost use Rattle.dw_entries.specs.Arena.{IsSound, is_reserved, with_entry};
ghost use Rattle.dw_entries.specs.Settled.{settled_entries, some_file};

use crate::arena::{add_entry, is_unadded};
use crate::attribute_walk::AttributeWalk;
use crate::attributes::Attributes;
use crate::entry::DebuggingInformationEntry;
use crate::own_parts::OwnParts;
use crate::settle::{names_file, settle};
use crate::value::AttributeValue;
use dw_base::constants::DW_TAG_compile_unit;
use dw_base::{DwAt, DwTag, Result, UnitEntryId};
use std::alloc::Global;
use std::marker::Model;

/// Entries, each at the index that its id names, and how many ids were handed out.
#[derive(Drop)]
pub struct Entries {
    entries: Vec<DebuggingInformationEntry>,
    reserved: usize,
}

impl Model for Entries {
    ghost use Rattle.std.specs.Coded.{codes};
    ghost use Rattle.dw_expr.specs.Codes.{node_code};
    ghost use Rattle.dw_entries.specs.Arena.{EntriesValue, IsArena};

    ghost Value = { EntriesValue };

    ghost coded = { Prim.hlevel (codes, node_code) };

    ghost view = { λ u. record { entries = u.entries.items; reserved = u.reserved } };

    ghost invariant = { λ u. IsArena u.entries.items u.reserved };
}

impl Entries {
    /// The root alone, a `DW_TAG_compile_unit` without attributes.
    pub fn new(alloc: Global) -> Result<Entries>
        ensures ok { IfOk result (λ u. u ≡ record { entries = new_root ∷ []; reserved = 1 }) }
        ensures err { IfErr result (λ e. e ≡ NoMemory) }
    {
        let mut root = DebuggingInformationEntry::blank(alloc, UnitEntryId::new(0));
        root.set_tag(DW_TAG_compile_unit);
        let mut entries = Vec::new(alloc);
        entries.push(root)?;
        Ok(Entries {
            entries,
            reserved: 1,
        })
    }

    /// The allocator that the entries were made with.
    pub fn allocator(&self) -> Global {
        *self.entries.allocator()
    }

    /// Gives the entries up, and the memory that they take. The ids that were handed out stay so.
    pub fn free(&mut self)
        ensures { self.new ≡ record self.old { entries = [] } }
    {
        self.entries = Vec::new(self.allocator());
    }

    /// The entries, each at the index that its id names.
    pub fn as_slice(&self) -> &[DebuggingInformationEntry]
        ensures value { result.now ≡ self.now.entries }
        ensures sound { IsSound self.now }
    {
        &self.entries
    }

    /// How many entries there are. An id that is only handed out has a blank entry once another
    /// entry was added after it.
    pub fn count(&self) -> usize
        ensures value { result ≡ length self.now.entries }
        ensures sound { IsSound self.now }
    {
        self.entries.len()
    }

    /// How many ids were handed out, the root's among them.
    pub fn reserved(&self) -> usize
        ensures { result ≡ self.now.reserved }
    {
        self.reserved
    }

    /// Tells that an id was handed out for an entry that isn't added yet.
    pub fn is_reserved(&self, id: UnitEntryId) -> bool
        ensures { result ≡ is_reserved self.now id.0 }
    {
        let index = id.index();
        index != 0 && index < self.reserved && is_unadded(&self.entries, index)
    }

    /// An entry.
    pub fn get(&self, id: UnitEntryId) -> &DebuggingInformationEntry
        requires { id.0 < length self.now.entries }
        ensures entry { slice_get self.now.entries id.0 ≡ Some result.now }
        ensures id { result.now.id ≡ id.0 }
    {
        &self.entries[id.index()]
    }
}

impl Entries {
    /// Hands out the id of an entry that is to be added later, which others may refer to before.
    pub fn reserve(&mut self) -> UnitEntryId
        requires { self.old.reserved < usize.MAX }
        ensures id { result.0 ≡ self.old.reserved }
        ensures entries { self.new ≡ record self.old { reserved = self.old.reserved + 1 } }
    {
        let id = UnitEntryId::new(self.reserved);
        self.reserved += 1;
        id
    }

    /// Adds the entry of a reserved id behind its parent's other children. The parent's own id may
    /// be reserved alone.
    pub fn add_reserved(
        &mut self,
        child: UnitEntryId,
        parent: UnitEntryId,
        tag: DwTag,
    ) -> Result<()>
        requires reserved { IsTrue (is_reserved self.old child.0) }
        requires parent_in { parent.0 < self.old.reserved }
        requires tagged { tag.0 ≢ 0 }
        requires rooted { 0 < length self.old.entries }
        ensures ok { OnOk result
            (self.new ≡ record self.old
            { entries = with_added self.old.reserved child.0 parent.0 tag.0 self.old.entries }) }
        ensures count { OnOk result (length self.new.entries ≡ self.old.reserved) }
        ensures err { IfErr result (λ e. e ≡ NoMemory) }
        ensures kept { OnErr result (self.new ≡ self.old) }
    {
        add_entry(&mut self.entries, self.reserved, child, parent, tag)
    }

    /// Adds an entry behind its parent's other children, and answers its id.
    pub fn add(&mut self, parent: UnitEntryId, tag: DwTag) -> Result<UnitEntryId>
        requires room { self.old.reserved < usize.MAX }
        requires parent_in { parent.0 < self.old.reserved }
        requires tagged { tag.0 ≢ 0 }
        requires rooted { 0 < length self.old.entries }
        ensures id { IfOk result (λ id. id.0 ≡ self.old.reserved) }
        ensures ok { OnOk result
            (self.new ≡ record {
              entries = with_added (self.old.reserved + 1) self.old.reserved
                  parent.0 tag.0 self.old.entries;
              reserved = self.old.reserved + 1;
            }) }
        ensures count { OnOk result (length self.new.entries ≡ self.old.reserved + 1) }
        ensures err { IfErr result (λ e. e ≡ NoMemory) }
        ensures kept { OnErr result (self.new ≡ self.old) }
    {
        let child = UnitEntryId::new(self.reserved);
        add_entry(&mut self.entries, self.reserved + 1, child, parent, tag)?;
        self.reserved += 1;
        Ok(child)
    }

    /// Puts the root's `DW_AT_stmt_list` in place where a line program is in use, and in version 5
    /// its `DW_AT_rnglists_base` and `DW_AT_loclists_base` where there are such lists, each in its
    /// position or else behind the others; those of what there isn't are left out. Then the root's
    /// base types are moved before its other children, so that expressions name them by short
    /// offsets. Base types further down stay.
    pub fn settle(&mut self, parts: OwnParts) -> Result<()>
        ensures ok { OnOk result
            (self.new ≡ record self.old { entries = settled_entries parts self.old.entries }) }
        ensures count { length self.new.entries ≡ length self.old.entries }
        ensures err { IfErr result (λ e. e ≡ NoMemory) }
        ensures kept { OnErr result (self.new ≡ self.old) }
    {
        settle(&mut self.entries, parts)
    }

    /// Tells that an attribute of any entry, in the tree or not, names a file: its value is a
    /// `FileIndex` of one.
    pub fn names_file(&self) -> bool
        ensures { result ≡ some_file self.now.entries }
    {
        self.entries
            .iter()
            .any(|entry| names_file(entry.attributes()))
    }
}

impl Entries {
    /// Puts a value under a name in the entry at an index, in its position, which takes no memory,
    /// or appends an attribute.
    pub fn set(&mut self, index: usize, name: DwAt, value: AttributeValue) -> Result<()>
        requires index_in { index < length self.old.entries }
        requires named { IsOwnName name.0 }
        ensures ok { OnOk result
            (self.new ≡ with_entry self.old index (with_attribute name.0 value)) }
        ensures err { IfErr result (λ e. e ≡ NoMemory) }
        ensures kept { OnErr result (self.new ≡ self.old) }
        ensures in_place { OnErr result (value_of self.old.entries index name.0 ≡ None) }
        ensures count { length self.new.entries ≡ length self.old.entries }
    {
        let entry = &mut self.entries[index];
        entry.set(name, value)
    }

    /// Appends an attribute to the entry at an index, under a name that it has no value under.
    pub fn push(&mut self, index: usize, name: DwAt, value: AttributeValue) -> Result<()>
        requires index_in { index < length self.old.entries }
        requires named { IsOwnName name.0 }
        requires absent { value_of self.old.entries index name.0 ≡ None }
        ensures ok { OnOk result
            (self.new ≡ with_entry self.old index (with_attribute name.0 value)) }
        ensures err { IfErr result (λ e. e ≡ NoMemory) }
        ensures kept { OnErr result (self.new ≡ self.old) }
        ensures count { length self.new.entries ≡ length self.old.entries }
    {
        let entry = &mut self.entries[index];
        entry.push(name, value)
    }

    /// Says whether the entry at an index is to name the place past its children, if it has any.
    pub fn set_sibling(&mut self, index: usize, sibling: bool)
        requires { index < length self.old.entries }
        ensures entries { self.new ≡ with_entry self.old index (with_sibling sibling) }
        ensures count { length self.new.entries ≡ length self.old.entries }
    {
        let entry = &mut self.entries[index];
        entry.set_sibling(sibling);
    }

    /// Leaves the attribute of a name out of the entry at an index.
    pub fn delete(&mut self, index: usize, name: DwAt)
        requires { index < length self.old.entries }
        ensures entries { self.new ≡ with_entry self.old index (without_attribute name.0) }
        ensures count { length self.new.entries ≡ length self.old.entries }
    {
        let entry = &mut self.entries[index];
        entry.delete(name);
    }

    /// Takes a child out of the children of the entry at an index.
    pub fn delete_child(&mut self, index: usize, id: UnitEntryId)
        requires { index < length self.old.entries }
        ensures entries { self.new ≡ with_entry self.old index (without_child id.0) }
        ensures count { length self.new.entries ≡ length self.old.entries }
    {
        let entry = &mut self.entries[index];
        entry.delete_child(id);
    }

    /// Makes room for more attributes in the entry at an index.
    pub fn reserve_attributes(&mut self, index: usize, additional: usize) -> Result<()>
        requires { index < length self.old.entries }
        ensures same { self.new ≡ self.old }
        ensures err { IfErr result (λ e. e ≡ NoMemory) }
    {
        let entry = &mut self.entries[index];
        entry.reserve(additional)
    }
}

impl Entries {
    ghost use Rattle.std.specs.Option.{option_copied_mut};
    ghost use Rattle.std.specs.Borrow.{sem};
    ghost use Rattle.dw_entries.specs.Entries.{entry_at};
    ghost use Rattle.dw_entries.specs.Lends.{LendsAttributesAt, LendsWalkAt, LendsNamedAt};

    fn attributes_mut(&mut self, index: usize) -> &mut Attributes
        requires { index < length self.old.entries }
        ensures* writes_back { sem 𝓛 (LendsAttributesAt self.entry index result) }
        ensures value { result.now ≡ (entry_at self.old.entries index).attributes }
    {
        let entry = &mut self.entries[index];
        entry.attributes_mut()
    }

    /// A walk over the attributes of the entry at an index, to change their values.
    pub fn walk_mut(&mut self, index: usize) -> &mut AttributeWalk
        requires { index < length self.old.entries }
        ensures* writes_back { sem 𝓛 (LendsWalkAt self.entry index result) }
        ensures attributes { result.now.attributes ≡ (entry_at self.old.entries index).attributes }
        ensures next { result.now.next ≡ 0 }
    {
        let entry = &mut self.entries[index];
        entry.walk_mut()
    }

    /// The value under a name in the entry at an index, to be changed.
    pub fn value_mut(&mut self, index: usize, name: DwAt) -> Option<&mut AttributeValue>
        requires { index < length self.old.entries }
        ensures* writes_back { sem 𝓛 (LendsNamedAt self.entry index name.0 result) }
        ensures value { option_copied_mut result ≡ value_of self.old.entries index name.0 }
    {
        let attributes = self.attributes_mut(index);
        match attributes.value_mut(name) {
            Some(value) => Some(value),
            None => None,
        }
    }
}
