//! One entry of a unit.

ghost use Rattle.std.specs.Prelude.{◌≡◌, ◌<◌, None, map, not, ◌==◌, filter, OnOk, OnErr, IfErr};
ghost use Rattle.std.specs.Option.{option_copied};
ghost use Rattle.std.specs.Slice.Iter.{iter_rest};
ghost use Rattle.std.specs.Iterator.Adapters.{IterYieldsInOrder};
ghost use Rattle.dw_base.specs.declared.error.Error.TheVariants.{NoMemory};
ghost use Rattle.dw_base.specs.declared.ids.UnitEntryId.{UnitEntryId};
ghost use Rattle.dw_entries.specs.declared.attribute.Attribute.{Attribute};
ghost use Rattle.dw_entries.specs.Attributes.{get_named, IsOwnName, HaveDistinctNames};
ghost use Rattle.dw_entries.specs.Entries.{index_of, parent_index, blank_entry, with_child, placed_under, with_sibling, with_attribute, without_attribute, without_child};

use crate::attribute::Attribute;
use crate::attribute_walk::AttributeWalk;
use crate::attributes::Attributes;
use crate::own_parts::OwnParts;
use crate::value::AttributeValue;
use dw_base::{DwAt, DwTag, Result, UnitEntryId};
use std::alloc::Global;
use std::marker::Model;
use std::slice;

/// An entry of a unit: a tag, attributes and children.
#[derive(Drop)]
pub struct DebuggingInformationEntry {
    id: UnitEntryId,
    parent: Option<UnitEntryId>,
    tag: DwTag,
    sibling: bool,
    walk: AttributeWalk,
    children: Vec<UnitEntryId>,
}

impl Model for DebuggingInformationEntry {
    ghost use Rattle.std.specs.Prelude.{map};
    ghost use Rattle.std.specs.Coded.{codes};
    ghost use Rattle.dw_expr.specs.Codes.{node_code};
    ghost use Rattle.dw_entries.specs.Entries.{EntryValue, index_of, parent_index};

    ghost Value = { EntryValue };

    ghost coded = { Prim.hlevel (codes, node_code) };

    ghost view = { λ e. record {
      id = e.id.0;
      parent = parent_index e.parent;
      tag = e.tag.0;
      sibling = e.sibling;
      attributes = e.walk.attributes;
      children = map index_of e.children.items;
    } };
}

fn delete_child_in(children: &mut Vec<UnitEntryId>, id: UnitEntryId)
    ensures { map index_of children.new.items
        ≡ filter (λ x. not (x == id.0)) (map index_of children.old.items) }
{
    children.retain(|c| c.0 != id.0);
}

impl DebuggingInformationEntry {
    /// An entry whose id is only handed out.
    pub(crate) fn blank(alloc: Global, id: UnitEntryId) -> DebuggingInformationEntry
        ensures { result ≡ blank_entry id.0 }
    {
        DebuggingInformationEntry {
            id,
            parent: None,
            tag: DwTag(0),
            sibling: false,
            walk: AttributeWalk {
                attributes: Attributes::new(alloc),
                next: 0,
            },
            children: Vec::new(alloc),
        }
    }

    /// Puts a child behind the others.
    pub(crate) fn add_child(&mut self, id: UnitEntryId) -> Result<()>
        ensures ok { OnOk result (self.new ≡ with_child id.0 self.old) }
        ensures err { IfErr result (λ e. e ≡ NoMemory) }
        ensures kept { OnErr result (self.new ≡ self.old) }
    {
        self.children.push(id)?;
        Ok(())
    }

    /// Gives the entry its parent and tag.
    pub(crate) fn place_under(&mut self, parent: UnitEntryId, tag: DwTag)
        ensures { self.new ≡ placed_under parent.0 tag.0 self.old }
    {
        self.parent = Some(parent);
        self.tag = tag;
    }

    /// Gives the entry its tag.
    pub(crate) fn set_tag(&mut self, tag: DwTag)
        ensures { self.new ≡ record self.old { tag = tag.0 } }
    {
        self.tag = tag;
    }

    pub(crate) fn set_sibling(&mut self, sibling: bool)
        ensures { self.new ≡ with_sibling sibling self.old }
    {
        self.sibling = sibling;
    }

    pub(crate) fn set(&mut self, name: DwAt, value: AttributeValue) -> Result<()>
        requires { IsOwnName name.0 }
        ensures ok { OnOk result (self.new ≡ with_attribute name.0 value self.old) }
        ensures err { IfErr result (λ e. e ≡ NoMemory) }
        ensures kept { OnErr result (self.new ≡ self.old) }
        ensures in_place { OnErr result (get_named name.0 self.old.attributes ≡ None) }
    {
        self.walk.attributes.set(name, value)
    }

    /// Appends an attribute under a name that none has.
    pub(crate) fn push(&mut self, name: DwAt, value: AttributeValue) -> Result<()>
        requires own { IsOwnName name.0 }
        requires absent { get_named name.0 self.old.attributes ≡ None }
        ensures ok { OnOk result (self.new ≡ with_attribute name.0 value self.old) }
        ensures err { IfErr result (λ e. e ≡ NoMemory) }
        ensures kept { OnErr result (self.new ≡ self.old) }
    {
        self.walk.attributes.push(name, value)
    }

    pub(crate) fn delete(&mut self, name: DwAt)
        ensures { self.new ≡ without_attribute name.0 self.old }
    {
        self.walk.attributes.delete(name);
    }

    pub(crate) fn delete_child(&mut self, id: UnitEntryId)
        ensures { self.new ≡ without_child id.0 self.old }
    {
        delete_child_in(&mut self.children, id);
    }

    pub(crate) fn reserve(&mut self, additional: usize) -> Result<()>
        ensures same { self.new ≡ self.old }
        ensures err { IfErr result (λ e. e ≡ NoMemory) }
    {
        self.walk.attributes.reserve(additional)
    }
}

impl DebuggingInformationEntry {
    /// The entry's id, by which the unit's calls name it.
    pub fn id(&self) -> UnitEntryId
        ensures { result.0 ≡ self.now.id }
    {
        self.id
    }

    /// The entry under which it was added, also once it was taken out of that entry's children. The
    /// root has none, nor has an entry whose id is only handed out.
    pub fn parent(&self) -> Option<UnitEntryId>
        ensures { parent_index result ≡ self.now.parent }
    {
        self.parent
    }

    /// The entry's tag.
    pub fn tag(&self) -> DwTag
        ensures { result.0 ≡ self.now.tag }
    {
        self.tag
    }

    /// Tells whether the entry is to name the place past its children, if it has any, by
    /// `DW_AT_sibling` (DWARF 5, 2.3).
    pub fn sibling(&self) -> bool
        ensures { result ≡ self.now.sibling }
    {
        self.sibling
    }

    /// The attributes in the order in which they are written.
    pub fn attrs(&self) -> slice::Iter<'_, Attribute>
        ensures rest { iter_rest result ≡ self.now.attributes }
        ensures runs { IterYieldsInOrder Attribute }
        ensures named { HaveDistinctNames self.now.attributes }
    {
        self.walk.attributes.as_slice().iter()
    }

    /// The value under a name.
    pub fn get(&self, name: DwAt) -> Option<&AttributeValue>
        ensures { option_copied result ≡ get_named name.0 self.now.attributes }
    {
        self.walk.attributes.get(name)
    }

    /// The children in the order in which they are written.
    pub fn children(&self) -> slice::Iter<'_, UnitEntryId>
        ensures rest { map index_of (iter_rest result) ≡ self.now.children }
        ensures runs { IterYieldsInOrder UnitEntryId }
    {
        self.children.iter()
    }
}

impl DebuggingInformationEntry {
    ghost use Rattle.std.specs.Borrow.{sem};
    ghost use Rattle.dw_entries.specs.Lends.{LendsAttributes, LendsWalk};

    pub(crate) fn attributes_mut(&mut self) -> &mut Attributes
        ensures* writes_back { sem 𝓛 (LendsAttributes self.entry result) }
        ensures value { result.now ≡ self.old.attributes }
    {
        let walk = &mut self.walk;
        &mut walk.attributes
    }

    pub(crate) fn walk_mut(&mut self) -> &mut AttributeWalk
        ensures* writes_back { sem 𝓛 (LendsWalk self.entry result) }
        ensures attributes { result.now.attributes ≡ self.old.attributes }
        ensures next { result.now.next ≡ 0 }
    {
        let walk = &mut self.walk;
        walk.next = 0;
        walk
    }
}

impl DebuggingInformationEntry {
    ghost use Rattle.dw_entries.specs.Settled.{with_children, with_own_parts};
    ghost use Rattle.dw_entries.specs.Entries.{has_sibling as names_past};

    /// The children in their order.
    pub fn child_ids(&self) -> &[UnitEntryId]
        ensures { map index_of result.now ≡ self.now.children }
    {
        self.children.as_slice()
    }

    /// Tells that the entry names the place past its children.
    pub fn has_sibling(&self) -> bool
        ensures { result ≡ names_past self.now }
    {
        self.sibling && !self.children.is_empty()
    }

    /// The attributes in the order in which they are written.
    pub fn attributes(&self) -> &[Attribute]
        ensures value { result.now ≡ self.now.attributes }
        ensures named { HaveDistinctNames self.now.attributes }
    {
        self.walk.attributes.as_slice()
    }

    /// Leads the attributes of a root to the unit's own parts, or leaves them out.
    pub(crate) fn settle(&mut self, parts: OwnParts) -> Result<()>
        ensures ok { OnOk result (self.new ≡ with_own_parts parts self.old) }
        ensures err { IfErr result (λ e. e ≡ NoMemory) }
        ensures kept { OnErr result (self.new ≡ self.old) }
    {
        self.walk.attributes.settle(parts)
    }

    /// Puts other children in the place of all.
    pub(crate) fn set_children(&mut self, children: Vec<UnitEntryId>)
        ensures { self.new ≡ with_children (map index_of children.items) self.old }
    {
        self.children = children;
    }
}
