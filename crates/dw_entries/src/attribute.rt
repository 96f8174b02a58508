//! Attributes.

ghost use Rattle.std.specs.Prelude.{◌≡◌, ◌↔◌, IsTrue, IfOk, IfErr};
ghost use Rattle.dw_base.specs.declared.error.Error.TheVariants.{NoMemory};

use crate::value::AttributeValue;
use dw_base::{DwAt, Result};

/// A named value of an entry.
#[derive(Clone, PartialEq, Eq, Drop)]
pub struct Attribute {
    pub(crate) name: DwAt,
    pub(crate) value: AttributeValue,
}

impl Attribute {
    ghost use Rattle.std.specs.Borrow.{sem};
    ghost use Rattle.dw_entries.specs.Lends.{LendsValue};

    pub(crate) fn value_mut(&mut self) -> &mut AttributeValue
        ensures* writes_back { sem 𝓛 (LendsValue self.entry result) }
        ensures value { result.now ≡ self.old.value }
    {
        &mut self.value
    }

    /// The attribute's name.
    pub fn name(&self) -> DwAt
        ensures { result ≡ self.now.name }
    {
        self.name
    }

    /// The attribute's value.
    pub fn get(&self) -> &AttributeValue
        ensures { result.now ≡ self.now.value }
    {
        &self.value
    }

    /// Tells that another attribute has the same name and the same value.
    pub fn is_same(&self, other: &Attribute) -> bool
        ensures { IsTrue result ↔ (self.now ≡ other.now) }
    {
        self == other
    }

    /// Replaces the value under the same name.
    pub fn set(&mut self, value: AttributeValue)
        ensures { self.new ≡ record self.old { value = value } }
    {
        self.value = value;
    }

    /// A second attribute that equals this one.
    pub fn try_clone(&self) -> Result<Attribute>
        ensures ok { IfOk result (λ a. a ≡ self.now) }
        ensures err { IfErr result (λ e. e ≡ NoMemory) }
    {
        Ok(self.clone()?)
    }
}
