//! The root as it is written: its base types first, and attributes that lead to what the unit has
//! of its own in other sections.

ghost use Rattle.std.specs.Prelude.{◌≡◌, ◌++◌, map, true, IfOk, IfErr, OnOk, OnErr};
ghost use Rattle.dw_base.specs.declared.error.Error.TheVariants.{NoMemory};
ghost use Rattle.dw_entries.specs.Entries.{index_of, entry_at};
ghost use Rattle.dw_entries.specs.Settled.{is_base, base_children, other_children, bases_first, children_or, settled_entries, some_file_in as names_any_file};

use crate::attribute::Attribute;
use crate::entry::DebuggingInformationEntry;
use crate::own_parts::OwnParts;
use crate::value::AttributeValue;
use dw_base::constants::DW_TAG_base_type;
use dw_base::{Error, UnitEntryId};
use std::alloc::{AllocError, Global};

fn is_base_type(entries: &[DebuggingInformationEntry], id: UnitEntryId) -> bool
    ensures { result ≡ is_base entries.now id.0 }
{
    match entries.get(id.index()) {
        Some(entry) => entry.tag().0 == DW_TAG_base_type.0,
        None => false,
    }
}

/// Tells that no base type stands behind another child.
fn is_settled(entries: &[DebuggingInformationEntry], children: &[UnitEntryId]) -> bool
    ensures { result ≡ true → bases_first entries.now (map index_of children.now)
        ≡ map index_of children.now }
{
    let mut saw_other = false;
    'children: for child in children {
        if !is_base_type(entries, *child) {
            saw_other = true;
        } else if saw_other {
            return false;
        }
    }
    true
}

fn push_base_types(
    entries: &[DebuggingInformationEntry],
    children: &[UnitEntryId],
    ordered: &mut Vec<UnitEntryId>,
) -> Result<(), AllocError>
    ensures { OnOk result
        (map index_of ordered.new.items ≡ map index_of ordered.old.items
        ++ base_children entries.now (map index_of children.now)) }
{
    'children: for child in children {
        if is_base_type(entries, *child) {
            ordered.push(*child)?;
        }
    }
    Ok(())
}

fn push_others(
    entries: &[DebuggingInformationEntry],
    children: &[UnitEntryId],
    ordered: &mut Vec<UnitEntryId>,
) -> Result<(), AllocError>
    ensures { OnOk result
        (map index_of ordered.new.items ≡ map index_of ordered.old.items
        ++ other_children entries.now (map index_of children.now)) }
{
    'children: for child in children {
        if !is_base_type(entries, *child) {
            ordered.push(*child)?;
        }
    }
    Ok(())
}

fn base_types_first(
    alloc: Global,
    entries: &[DebuggingInformationEntry],
    children: &[UnitEntryId],
) -> Result<Vec<UnitEntryId>, AllocError>
    ensures { IfOk result
        (λ v. map index_of v.items ≡ bases_first entries.now (map index_of children.now)) }
{
    let mut ordered = Vec::new(alloc);
    ordered.reserve(children.len())?;
    push_base_types(entries, children, &mut ordered)?;
    push_others(entries, children, &mut ordered)?;
    Ok(ordered)
}

/// The children of the root in the order in which they are to stand.
fn settled_children(
    alloc: Global,
    entries: &[DebuggingInformationEntry],
) -> Result<Option<Vec<UnitEntryId>>, AllocError>
    ensures { IfOk result
        (λ ordered. children_or ordered (entry_at entries.now 0).children
        ≡ bases_first entries.now (entry_at entries.now 0).children) }
{
    let Some(root) = entries.first() else {
        return Ok(None);
    };
    let children = root.child_ids();
    if is_settled(entries, children) {
        return Ok(None);
    }
    Ok(Some(base_types_first(alloc, entries, children)?))
}

/// Leads the root's attributes to the unit's own parts, and moves its base types before its other
/// children, so that expressions name them by short offsets. Base types further down stay.
pub(crate) fn settle(
    entries: &mut Vec<DebuggingInformationEntry>,
    parts: OwnParts,
) -> Result<(), Error>
    ensures ok { OnOk result (entries.new.items ≡ settled_entries parts entries.old.items) }
    ensures err { IfErr result (λ e. e ≡ NoMemory) }
    ensures kept { OnErr result (entries.new.items ≡ entries.old.items) }
{
    if entries.is_empty() {
        return Ok(());
    }
    let alloc = *entries.allocator();
    let ordered = settled_children(alloc, entries)?;
    let root = &mut entries[0];
    root.settle(parts)?;
    if let Some(children) = ordered {
        root.set_children(children);
    }
    Ok(())
}

/// Tells that an attribute names a file.
pub(crate) fn names_file(attributes: &[Attribute]) -> bool
    ensures { result ≡ names_any_file attributes.now }
{
    attributes.iter().any(|attribute| matches!(attribute.value, AttributeValue::FileIndex(Some(_))))
}
