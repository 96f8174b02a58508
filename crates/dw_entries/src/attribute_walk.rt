//! Walks over the attributes of an entry, to change their values.

ghost use Rattle.std.specs.Prelude.{◌≡◌, ◌<◌, length};

use crate::attributes::Attributes;
use crate::value::AttributeValue;
use dw_base::DwAt;

/// The attributes of an entry with the place at which a walk over them goes on.
#[derive(Drop)]
pub struct AttributeWalk {
    pub(crate) attributes: Attributes,
    pub(crate) next: usize,
}

/// A walk over the attributes of an entry.
pub type AttrsMut<'a> = &'a mut AttributeWalk;

/// One attribute of a walk. Its value may be changed, and its name may not.
#[derive(Drop)]
pub struct AttrMut<'a> {
    walk: &'a mut AttributeWalk,
    at: usize,
    ghost within: { at < length walk.now.attributes },
}

impl AttributeWalk {
    ghost use Rattle.std.specs.Prelude.{◌≡◌, ◌<◌, ◌+◌, length, IfSome, IsSome, ◌↔◌};
    ghost use Rattle.std.specs.Borrow.{sem};
    ghost use Rattle.dw_entries.specs.Lends.{LendsNext};

    /// The next attribute.
    pub fn next(&mut self) -> Option<AttrMut<'_>>
        ensures* rests { sem 𝓛 (LendsNext self.entry result) }
        ensures same_walk { IfSome result (λ a. a.walk.ghost_name ≡ self.entry.ghost_name) }
        ensures attributes { IfSome result (λ a. a.walk.now.attributes ≡ self.old.attributes) }
        ensures next { IfSome result (λ a. a.walk.now.next ≡ self.old.next + 1) }
        ensures at { IfSome result (λ a. a.at ≡ self.old.next) }
        ensures found { IsSome result ↔ (self.old.next < length self.old.attributes) }
    {
        let at = self.next;
        if at < self.attributes.as_slice().len() {
            self.next = at + 1;
            return Some(AttrMut { walk: self, at });
        }
        None
    }
}

impl AttrMut<'_> {
    ghost use Rattle.std.specs.Prelude.{◌≡◌, Some};
    ghost use Rattle.dw_entries.specs.Attributes.{name_at, value_at, with_value_at};

    /// The attribute's name.
    pub fn name(&self) -> DwAt
        ensures { name_at self.now.walk.now.attributes self.now.at ≡ Some result.0 }
    {
        self.walk.attributes.as_slice()[self.at].name
    }

    /// The attribute's value.
    pub fn get(&self) -> &AttributeValue
        ensures { value_at self.now.walk.now.attributes self.now.at ≡ Some result.now }
    {
        &self.walk.attributes.as_slice()[self.at].value
    }

    /// Replaces the value under the same name.
    pub fn set(&mut self, value: AttributeValue)
        ensures same_walk { self.new.walk.ghost_name ≡ self.old.walk.ghost_name }
        ensures at { self.new.at ≡ self.old.at }
        ensures next { self.new.walk.now.next ≡ self.old.walk.now.next }
        ensures attributes { self.new.walk.now.attributes
            ≡ with_value_at self.old.at value self.old.walk.now.attributes }
    {
        self.walk.attributes.set_value_at(self.at, value);
    }
}
