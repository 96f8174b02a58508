//! Attributes of entries, as they are read.

ghost use Rattle.std.specs.Prelude.{◌≡◌};

use crate::operand::Operand;
use crate::reader::Reader;
use dw_base::{DwAt, DwForm, Encoding};

/// An attribute of an entry. Its value is read when it is asked for.
///
/// ```
/// for attribute in &entry.attrs {
///     if attribute.name() == DW_AT_name {
///         let name = attribute.value();
///     }
/// }
/// ```
#[derive(Drop)]
pub struct Attribute<R: Reader> {
    pub(crate) name: DwAt,
    pub(crate) form: DwForm,
    pub(crate) constant: Option<i64>,
    pub(crate) encoding: Encoding,
    pub(crate) operand: Operand<R>,
}

impl<R: Reader> Attribute<R> {
    /// The attribute's name.
    pub fn name(&self) -> DwAt
        ensures { result ≡ self.now.name }
    {
        self.name
    }

    /// The form in which its operand stands: never indirect, but the form that it leads to.
    pub fn form(&self) -> DwForm
        ensures { result ≡ self.now.form }
    {
        self.form
    }
}
