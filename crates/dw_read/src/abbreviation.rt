//! Declarations of abbreviation tables, as they are read (DWARF 5, 7.5.3).

ghost use Rattle.std.specs.Prelude.{◌≡◌, map};
ghost use Rattle.dw_read.specs.Specifications.{specification_of};

use dw_base::{DwAt, DwForm, DwTag};
use std::marker::Model;

/// An attribute in a declaration.
///
/// ```
/// for specification in abbreviation.attributes() {
///     if specification.form() == DW_FORM_implicit_const {
///         let constant = specification.implicit_const_value(); // `Some`
///     }
/// }
/// ```
#[derive(Clone, Copy, PartialEq, Eq, Hash)]
pub struct AttributeSpecification {
    pub(crate) name: DwAt,
    pub(crate) form: DwForm,
    pub(crate) implicit_const_value: Option<i64>,
}

impl AttributeSpecification {
    /// The attribute's name.
    pub fn name(&self) -> DwAt
        ensures { result ≡ self.now.name }
    {
        self.name
    }

    /// The form in which its operand stands in entries.
    pub fn form(&self) -> DwForm
        ensures { result ≡ self.now.form }
    {
        self.form
    }

    /// The constant that the form implicit_const alone has here.
    pub fn implicit_const_value(&self) -> Option<i64>
        ensures { result ≡ self.now.implicit_const_value }
    {
        self.implicit_const_value
    }
}

/// A declaration: what entries of one code share.
///
/// ```
/// let Some(abbreviation) = table.get(1) else { return Ok(()) };
/// let tag = abbreviation.tag();
/// ```
#[derive(Drop)]
pub struct Abbreviation {
    pub(crate) code: u64,
    pub(crate) tag: DwTag,
    pub(crate) has_children: bool,
    pub(crate) attributes: Vec<AttributeSpecification>,
}

impl Model for Abbreviation {
    ghost use Rattle.std.specs.Prelude.{map};
    ghost use Rattle.dw_base.specs.Abbreviations.{Declaration};
    ghost use Rattle.dw_read.specs.Specifications.{specification_of};

    ghost Value = { Declaration };

    ghost view = { λ a. record {
      code = a.code;
      shape = record {
        tag = a.tag.0;
        has_children = a.has_children;
        attributes = map specification_of a.attributes.items;
      };
    } };
}

impl Abbreviation {
    /// The code by which entries name it.
    pub fn code(&self) -> u64
        ensures { result ≡ self.now.code }
    {
        self.code
    }

    /// The tag of the entries.
    pub fn tag(&self) -> DwTag
        ensures { result.0 ≡ self.now.shape.tag }
    {
        self.tag
    }

    /// Whether the entries have a list of children.
    pub fn has_children(&self) -> bool
        ensures { result ≡ self.now.shape.has_children }
    {
        self.has_children
    }

    /// The attributes of the entries, in their order.
    pub fn attributes(&self) -> &[AttributeSpecification]
        ensures { map specification_of result.now ≡ self.now.shape.attributes }
    {
        self.attributes.as_slice()
    }
}
