//! What entries of one code share.

ghost use Rattle.std.specs.Prelude.{◌≡◌, ◌<◌, All, OnOk, OnErr, IfOk, IfErr};
ghost use Rattle.std.specs.List.{flat_map};
ghost use Rattle.dw_base.specs.declared.error.Error.TheVariants.{NoMemory};
ghost use Rattle.dw_base.specs.Spelling.{specification_bytes, shape_bytes};
ghost use Rattle.dw_base.specs.Spellable.{IsSpecification};
ghost use Rattle.dw_writer.specs.Meaning.{IsSameWriter, Adds, AddsSome};
ghost use Rattle.dw_writer.specs.Causes.{BytesRefused};
ghost use Rattle.dw_abbrev.specs.Equal.{shape_eq, shape_fed};
ghost use Rattle.dw_abbrev.specs.Codes.{IsShape};
ghost use Rattle.dw_abbrev.specs.EqualLaws.{shape_per, shape_equiv, shape-fed};

use crate::specification::AttributeSpecification;
use dw_base::{DwTag, Result};
use dw_writer::Writer;
use std::hash::{Hash, Hasher};
use std::marker::Model;

/// What entries of one code share: the tag, whether they have children, and the attributes, in the
/// order in which their values follow in an entry (DWARF 5, 7.5.3).
#[derive(Drop)]
pub struct Abbreviation {
    tag: DwTag,
    has_children: bool,
    attributes: Vec<AttributeSpecification>,
}

impl Model for Abbreviation {
    ghost use Rattle.std.specs.Prelude.{◌<◌, ◌^◌};
    ghost use Rattle.dw_base.specs.Abbreviations.{Shape};

    ghost Value = { Shape };

    ghost view = { λ a. record
        { tag = a.tag.0; has_children = a.has_children; attributes = a.attributes.items } };

    ghost invariant = { λ a. (0 < a.tag.0) × (a.tag.0 < 2 ^ 16) };
}

impl Abbreviation {
    /// An abbreviation of these parts.
    pub fn new(tag: DwTag, has_children: bool, attributes: Vec<AttributeSpecification>) -> Self
        requires { 0 < tag.0 }
        ensures { result ≡ record
            { tag = tag.0; has_children = has_children; attributes = attributes.items } }
    {
        Abbreviation {
            tag,
            has_children,
            attributes,
        }
    }

    /// An abbreviation equal to this one.
    pub fn try_clone(&self) -> Result<Abbreviation>
        ensures ok { IfOk result (λ copy. copy ≡ self.now) }
        ensures err { IfErr result (λ e. e ≡ NoMemory) }
    {
        Ok(Abbreviation {
            tag: self.tag,
            has_children: self.has_children,
            attributes: self.attributes.clone()?,
        })
    }

    /// The tag of the entries.
    pub fn tag(&self) -> DwTag
        ensures { result.0 ≡ self.now.tag }
    {
        self.tag
    }

    /// Tells that the entries have children.
    pub fn has_children(&self) -> bool
        ensures { result ≡ self.now.has_children }
    {
        self.has_children
    }

    /// The attributes, in order.
    pub fn attributes(&self) -> &[AttributeSpecification]
        ensures { result.now ≡ self.now.attributes }
    {
        self.attributes.as_slice()
    }

    /// The attributes, without a copy.
    pub fn into_attributes(self) -> Vec<AttributeSpecification>
        ensures { result.items ≡ self.attributes }
    {
        let Abbreviation { attributes, .. } = self;
        attributes
    }

    /// Writes what a declaration says after its code.
    pub(crate) fn write<W: Writer>(&self, w: &mut W) -> Result<()>
        ensures ok { OnOk result
            (Adds (W.meaning w.old) (W.meaning w.new) (shape_bytes self.now)) }
        ensures err { IfErr result (BytesRefused (W.meaning w.old) (W.meaning w.new)) }
        ensures partly { OnErr result
            (AddsSome (W.meaning w.old) (W.meaning w.new) (shape_bytes self.now)) }
        ensures same { IsSameWriter (W.meaning w.old) (W.meaning w.new) }
        ensures sound { OnOk result (IsShape self.now) }
    {
        w.write_uleb128(self.tag.0 as u64)?;
        w.write_u8(self.has_children as u8)?;
        write_attributes(self.attributes.as_slice(), w)?;
        w.write(&[0, 0])
    }
}

/// Writes attributes, without the zeros that close them.
fn write_attributes<W: Writer>(attributes: &[AttributeSpecification], w: &mut W) -> Result<()>
    ensures ok { OnOk result
        (Adds (W.meaning w.old) (W.meaning w.new) (flat_map specification_bytes attributes.now)) }
    ensures err { IfErr result (BytesRefused (W.meaning w.old) (W.meaning w.new)) }
    ensures partly { OnErr result
        (AddsSome (W.meaning w.old) (W.meaning w.new)
        (flat_map specification_bytes attributes.now)) }
    ensures same { IsSameWriter (W.meaning w.old) (W.meaning w.new) }
    ensures sound { OnOk result (All IsSpecification attributes.now) }
{
    for attribute in attributes {
        attribute.write(w)?;
    }
    Ok(())
}

impl PartialEq for Abbreviation {
    ghost eq = { shape_eq };

    ghost laws = { shape_per };

    fn eq(&self, other: &Abbreviation) -> bool {
        self.tag == other.tag
            && self.has_children == other.has_children
            && self.attributes == other.attributes
    }
}

impl Eq for Abbreviation {
    ghost laws = { shape_equiv };
}

impl Hash for Abbreviation {
    ghost hash_input = { shape_fed };

    ghost respects_eq = { shape-fed };

    fn hash<H: Hasher>(&self, state: &mut H) {
        self.tag.0.hash(state);
        self.has_children.hash(state);
        self.attributes.hash(state);
    }
}
