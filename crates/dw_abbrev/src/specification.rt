//! The attributes that an abbreviation declares.

ghost use Rattle.std.specs.Prelude.{◌≡◌, ◌<◌, ◌↔◌, IsSome, OnOk, OnErr, IfErr};
ghost use Rattle.dw_base.specs.Spelling.{specification_bytes};
ghost use Rattle.dw_base.specs.Spellable.{IsSpecification};
ghost use Rattle.dw_writer.specs.Meaning.{IsSameWriter, Adds, AddsSome};
ghost use Rattle.dw_writer.specs.Causes.{BytesRefused};

use dw_base::{DwAt, DwForm, Result};
use dw_writer::Writer;
use std::marker::Model;

/// An attribute of an abbreviation: its name, its form and, for the form `DW_FORM_implicit_const`
/// alone, its value (DWARF 5, 7.5.3).
#[derive(Clone, Copy, PartialEq, Eq, Hash)]
pub struct AttributeSpecification {
    name: DwAt,
    form: DwForm,
    implicit_const_value: Option<i64>,
}

impl Model for AttributeSpecification {
    ghost use Rattle.dw_base.specs.Abbreviations.{Specification};
    ghost use Rattle.dw_base.specs.Spellable.{IsSpecification};

    ghost Value = { Specification };

    ghost view = { λ a. record
        { name = a.name.0; form = a.form.0; constant = a.implicit_const_value } };

    ghost inverse = { λ s. record {
      name = record { 0 = s.name };
      form = record { 0 = s.form };
      implicit_const_value = s.constant;
    } };

    ghost invariant = { λ a. IsSpecification
        (record { name = a.name.0; form = a.form.0; constant = a.implicit_const_value }) };
}

impl AttributeSpecification {
    /// An attribute of this name and form.
    pub fn new(name: DwAt, form: DwForm, implicit_const_value: Option<i64>) -> Self
        requires named { 0 < name.0 }
        requires constant { IsSome implicit_const_value ↔ (form.0 ≡ 0x21) }
        ensures { result ≡ record
            { name = name.0; form = form.0; constant = implicit_const_value } }
    {
        AttributeSpecification {
            name,
            form,
            implicit_const_value,
        }
    }

    /// The attribute's name.
    pub fn name(&self) -> DwAt
        ensures { result.0 ≡ self.now.name }
    {
        self.name
    }

    /// The form of the attribute's values.
    pub fn form(&self) -> DwForm
        ensures { result.0 ≡ self.now.form }
    {
        self.form
    }

    /// The value, where the abbreviation itself holds it.
    pub fn implicit_const_value(&self) -> Option<i64>
        ensures { result ≡ self.now.constant }
    {
        self.implicit_const_value
    }

    /// Writes the name, the form and the value, if there is one.
    pub(crate) fn write<W: Writer>(&self, w: &mut W) -> Result<()>
        ensures ok { OnOk result
            (Adds (W.meaning w.old) (W.meaning w.new) (specification_bytes self.now)) }
        ensures err { IfErr result (BytesRefused (W.meaning w.old) (W.meaning w.new)) }
        ensures partly { OnErr result
            (AddsSome (W.meaning w.old) (W.meaning w.new) (specification_bytes self.now)) }
        ensures same { IsSameWriter (W.meaning w.old) (W.meaning w.new) }
        ensures sound { IsSpecification self.now }
    {
        w.write_uleb128(self.name.0 as u64)?;
        w.write_uleb128(self.form.0 as u64)?;
        if let Some(value) = self.implicit_const_value {
            w.write_sleb128(value)?;
        }
        Ok(())
    }
}
