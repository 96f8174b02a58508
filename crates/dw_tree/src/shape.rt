//! The abbreviations of entries.

ghost use Rattle.std.specs.Prelude.{◌≡◌, ◌≢◌, ◌<◌, ◌++◌, [], map, IfOk, OnOk, IfErr};
ghost use Rattle.dw_base.specs.declared.error.Error.TheVariants.{NoMemory};
ghost use Rattle.dw_entries.specs.Attributes.{IsOwnName, HaveDistinctNames};
ghost use Rattle.dw_tree.specs.Shapes.{specification as specification_of, specifications, shape_of_entry};

use dw_abbrev::{Abbreviation, AttributeSpecification};
use dw_base::constants::DW_AT_sibling;
use dw_base::{Encoding, Result};
use dw_entries::{Attribute, DebuggingInformationEntry, reference_form};

/// What a declaration says of one attribute.
fn specification(encoding: Encoding, attribute: &Attribute) -> Result<AttributeSpecification>
    requires { IsOwnName attribute.now.name.0 }
    ensures ok { IfOk result (λ s. s ≡ specification_of encoding attribute.now) }
    ensures err { IfErr result (λ e. e ≡ NoMemory) }
{
    let (form, constant) = attribute.get().form(encoding)?;
    Ok(AttributeSpecification::new(attribute.name(), form, constant))
}

/// Adds what a declaration says of attributes, in their order.
fn push_specifications(
    encoding: Encoding,
    attributes: &[Attribute],
    declared: &mut Vec<AttributeSpecification>,
) -> Result<()>
    requires { HaveDistinctNames attributes.now }
    ensures ok { OnOk result
        (declared.new.items
        ≡ declared.old.items ++ map (specification_of encoding) attributes.now) }
    ensures err { IfErr result (λ e. e ≡ NoMemory) }
{
    for attribute in attributes {
        declared.push(specification(encoding, attribute)?)?;
    }
    Ok(())
}

/// Adds what a declaration says of an entry's attributes: the place past the entry first, where it
/// names that.
fn declare(
    encoding: Encoding,
    entry: &DebuggingInformationEntry,
    declared: &mut Vec<AttributeSpecification>,
) -> Result<()>
    requires { declared.old.items ≡ [] }
    ensures ok { OnOk result (declared.new.items ≡ specifications encoding entry.now) }
    ensures err { IfErr result (λ e. e ≡ NoMemory) }
{
    if entry.has_sibling() {
        let form = reference_form(encoding.format);
        declared.push(AttributeSpecification::new(DW_AT_sibling, form, None))?;
    }
    push_specifications(encoding, entry.attributes(), declared)
}

/// What entries share that are written with the code of this one. Its attributes stand in a list
/// that was used before.
pub(crate) fn abbreviation_of(
    encoding: Encoding,
    entry: &DebuggingInformationEntry,
    used: Vec<AttributeSpecification>,
) -> Result<Abbreviation>
    requires { entry.now.tag ≢ 0 }
    ensures ok { IfOk result (λ a. a ≡ shape_of_entry encoding entry.now) }
    ensures err { IfErr result (λ e. e ≡ NoMemory) }
{
    let mut declared = used;
    declared.clear();
    declare(encoding, entry, &mut declared)?;
    let has_children = !entry.child_ids().is_empty();
    Ok(Abbreviation::new(entry.tag(), has_children, declared))
}
