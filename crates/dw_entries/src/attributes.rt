//! The attributes of one entry.

ghost use Rattle.std.specs.Prelude.{◌≡◌, ◌+◌, ◌<◌, ◌≤◌, [], None, position, OnOk, OnErr, IfErr};
ghost use Rattle.std.specs.Vec.{vec_len, vec_capacity};
ghost use Rattle.std.specs.Option.{option_copied};
ghost use Rattle.dw_base.specs.declared.error.Error.TheVariants.{NoMemory};
ghost use Rattle.dw_entries.specs.Attributes.{IsOwnName, is_named, get_named, set_named, without_name};
ghost use Rattle.dw_entries.specs.Settled.{settled_attributes};

use crate::attribute::Attribute;
use crate::own_parts::{OwnParts, settle_in};
use crate::value::AttributeValue;
use dw_base::{DwAt, Result};
use std::alloc::Global;
use std::marker::Model;

/// A list of attributes that has no name twice, and no `DW_AT_sibling`.
#[derive(Drop)]
pub(crate) struct Attributes {
    items: Vec<Attribute>,
}

impl Model for Attributes {
    ghost use Rattle.std.specs.Prelude.{List};
    ghost use Rattle.std.specs.Coded.{codes};
    ghost use Rattle.dw_expr.specs.Codes.{node_code};
    ghost use Rattle.dw_entries.specs.declared.attribute.Attribute.{Attribute};
    ghost use Rattle.dw_entries.specs.Attributes.{HaveDistinctNames};

    ghost Value = { List Attribute };

    ghost coded = { Prim.hlevel (codes, node_code) };

    ghost view = { λ a. a.items.items };

    ghost invariant = { λ a. HaveDistinctNames a.items.items };
}

fn position_of(attributes: &[Attribute], name: DwAt) -> Option<usize>
    ensures { result ≡ position (is_named name.0) attributes.now }
{
    attributes.iter().position(|a| a.name.0 == name.0)
}

fn set_in(attributes: &mut Vec<Attribute>, name: DwAt, value: AttributeValue) -> Result<()>
    ensures ok { OnOk result (attributes.new.items ≡ set_named name.0 value attributes.old.items) }
    ensures err { IfErr result (λ e. e ≡ NoMemory) }
    ensures kept { OnErr result (attributes.new.items ≡ attributes.old.items) }
    ensures in_place { OnErr result (get_named name.0 attributes.old.items ≡ None) }
{
    match position_of(attributes, name) {
        Some(i) => attributes[i] = Attribute { name, value },
        None => attributes.push(Attribute { name, value })?,
    }
    Ok(())
}

/// Replaces the value under a name in its position, or appends an attribute, for which there is
/// room.
pub(crate) fn put_in(attributes: &mut Vec<Attribute>, name: DwAt, value: AttributeValue)
    requires room { vec_len attributes.old < vec_capacity attributes.old }
    ensures items { attributes.new.items ≡ set_named name.0 value attributes.old.items }
    ensures len { vec_len attributes.new ≤ vec_len attributes.old + 1 }
    ensures capacity { vec_capacity attributes.new ≡ vec_capacity attributes.old }
{
    match position_of(attributes, name) {
        Some(i) => attributes[i] = Attribute { name, value },
        None => attributes.push_reserved(Attribute { name, value }),
    }
}

pub(crate) fn delete_in(attributes: &mut Vec<Attribute>, name: DwAt)
    ensures items { attributes.new.items ≡ without_name name.0 attributes.old.items }
    ensures len { vec_len attributes.new ≤ vec_len attributes.old }
    ensures capacity { vec_capacity attributes.new ≡ vec_capacity attributes.old }
{
    attributes.retain(|a| a.name.0 != name.0);
}

impl Attributes {
    ghost use Rattle.dw_entries.specs.Attributes.{HaveDistinctNames};

    /// No attributes.
    pub(crate) fn new(alloc: Global) -> Attributes
        ensures { result ≡ [] }
    {
        Attributes {
            items: Vec::new(alloc),
        }
    }

    /// The attributes in their order.
    pub(crate) fn as_slice(&self) -> &[Attribute]
        ensures value { result.now ≡ self.now }
        ensures named { HaveDistinctNames self.now }
    {
        self.items.as_slice()
    }

    /// The value under a name.
    pub(crate) fn get(&self, name: DwAt) -> Option<&AttributeValue>
        ensures { option_copied result ≡ get_named name.0 self.now }
    {
        match position_of(&self.items, name) {
            Some(i) => Some(&self.items[i].value),
            None => None,
        }
    }

    /// Replaces the value under a name in its position, or appends an attribute.
    pub(crate) fn set(&mut self, name: DwAt, value: AttributeValue) -> Result<()>
        requires { IsOwnName name.0 }
        ensures ok { OnOk result (self.new ≡ set_named name.0 value self.old) }
        ensures err { IfErr result (λ e. e ≡ NoMemory) }
        ensures kept { OnErr result (self.new ≡ self.old) }
        ensures in_place { OnErr result (get_named name.0 self.old ≡ None) }
    {
        set_in(&mut self.items, name, value)
    }

    /// Appends an attribute under a name that none has.
    pub(crate) fn push(&mut self, name: DwAt, value: AttributeValue) -> Result<()>
        requires own { IsOwnName name.0 }
        requires absent { get_named name.0 self.old ≡ None }
        ensures ok { OnOk result (self.new ≡ set_named name.0 value self.old) }
        ensures err { IfErr result (λ e. e ≡ NoMemory) }
        ensures kept { OnErr result (self.new ≡ self.old) }
    {
        self.items.push(Attribute { name, value })?;
        Ok(())
    }

    /// Leaves the attribute of a name out.
    pub(crate) fn delete(&mut self, name: DwAt)
        ensures { self.new ≡ without_name name.0 self.old }
    {
        delete_in(&mut self.items, name);
    }

    /// Leads the attributes of a root to the unit's own parts, or leaves them out.
    pub(crate) fn settle(&mut self, parts: OwnParts) -> Result<()>
        ensures ok { OnOk result (self.new ≡ settled_attributes parts self.old) }
        ensures err { IfErr result (λ e. e ≡ NoMemory) }
        ensures kept { OnErr result (self.new ≡ self.old) }
    {
        settle_in(&mut self.items, parts)
    }

    /// Makes room for more attributes, and for no others, since an entry keeps its list.
    pub(crate) fn reserve(&mut self, additional: usize) -> Result<()>
        ensures same { self.new ≡ self.old }
        ensures err { IfErr result (λ e. e ≡ NoMemory) }
    {
        self.items.reserve_exact(additional)?;
        Ok(())
    }
}

impl Attributes {
    ghost use Rattle.std.specs.Prelude.{Some, length};
    ghost use Rattle.std.specs.Option.{option_copied_mut};
    ghost use Rattle.std.specs.Borrow.{sem};
    ghost use Rattle.dw_entries.specs.Attributes.{with_value_at, value_at};
    ghost use Rattle.dw_entries.specs.Lends.{LendsNamed, LendsPlace};

    /// The value under a name, to be changed.
    pub(crate) fn value_mut(&mut self, name: DwAt) -> Option<&mut AttributeValue>
        ensures* writes_back { sem 𝓛 (LendsNamed self.entry name.0 result) }
        ensures value { option_copied_mut result ≡ get_named name.0 self.old }
    {
        match position_of(&self.items, name) {
            Some(i) => {
                let attribute = &mut self.items[i];
                Some(attribute.value_mut())
            }
            None => None,
        }
    }

    /// The value at a place, to be changed.
    pub(crate) fn value_at_mut(&mut self, at: usize) -> &mut AttributeValue
        requires { at < length self.old }
        ensures* writes_back { sem 𝓛 (LendsPlace self.entry at result) }
        ensures value { value_at self.old at ≡ Some result.now }
    {
        let attribute = &mut self.items[at];
        attribute.value_mut()
    }

    /// Replaces the value at a place.
    pub(crate) fn set_value_at(&mut self, at: usize, value: AttributeValue)
        requires { at < length self.old }
        ensures value { self.new ≡ with_value_at at value self.old }
        ensures len { length self.new ≡ length self.old }
    {
        *self.value_at_mut(at) = value;
    }
}
