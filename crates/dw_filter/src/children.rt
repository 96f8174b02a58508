//! Which children an entry leads to.

ghost use Rattle.std.specs.Prelude.{◌≡◌, ◌==◌, ◌++◌, ℕ};
ghost use Rattle.std.specs.List.{list_any};
ghost use Rattle.dw_read.specs.Rows.{entry_of};
ghost use Rattle.dw_filter.specs.Children.{is_declaration, leads_to_child, stands_apart, type_tags, own_tags};

use dw_base::DwTag;
use dw_base::constants::*;
use dw_read::{DebuggingInformationEntry, Reader};

/// The tags of children that no parent leads to: types but for subranges (DWARF 5, chapter 5), and
/// what else stands for itself (chapters 3 to 5).
const APART_TAGS: [DwTag; 36] = [
    DW_TAG_array_type,
    DW_TAG_class_type,
    DW_TAG_enumeration_type,
    DW_TAG_pointer_type,
    DW_TAG_reference_type,
    DW_TAG_string_type,
    DW_TAG_structure_type,
    DW_TAG_subroutine_type,
    DW_TAG_union_type,
    DW_TAG_ptr_to_member_type,
    DW_TAG_set_type,
    DW_TAG_base_type,
    DW_TAG_const_type,
    DW_TAG_file_type,
    DW_TAG_packed_type,
    DW_TAG_volatile_type,
    DW_TAG_restrict_type,
    DW_TAG_interface_type,
    DW_TAG_unspecified_type,
    DW_TAG_shared_type,
    DW_TAG_rvalue_reference_type,
    DW_TAG_coarray_type,
    DW_TAG_dynamic_type,
    DW_TAG_atomic_type,
    DW_TAG_immutable_type,
    DW_TAG_entry_point,
    DW_TAG_typedef,
    DW_TAG_dwarf_procedure,
    DW_TAG_common_block,
    DW_TAG_template_alias,
    DW_TAG_namelist,
    DW_TAG_namespace,
    DW_TAG_imported_unit,
    DW_TAG_imported_declaration,
    DW_TAG_imported_module,
    DW_TAG_module,
];

/// Whether an entry of a tag leads to a child: to what describes it, as its parameters, members,
/// enumerators and blocks do, and not to what stands for itself within it, as a type, a namespace,
/// an import or a function that isn't a declaration does. A namespace leads to none.
///
/// ```
/// let is_needed = leads_to_child(DW_TAG_structure_type, &member);
/// ```
pub fn leads_to_child<R: Reader>(parent: DwTag, child: &DebuggingInformationEntry<R>) -> bool
    ensures { (code : ℕ) → result ≡ leads_to_child parent (entry_of R.reading code child.now) }
{
    parent != DW_TAG_namespace && !stands_apart(child)
}

/// Whether no parent leads to an entry.
fn stands_apart<R: Reader>(child: &DebuggingInformationEntry<R>) -> bool
    ensures { (code : ℕ) → result ≡ stands_apart (entry_of R.reading code child.now) }
{
    is_apart_tag(child.tag) || child.tag == DW_TAG_subprogram && !is_declaration(child)
}

/// Whether no parent leads to entries of a tag.
fn is_apart_tag(tag: DwTag) -> bool
    ensures { result ≡ list_any (λ t. t.0 == tag.0) (type_tags ++ own_tags) }
{
    APART_TAGS.iter().any(|apart| *apart == tag)
}

/// Whether an entry says that it is a declaration (DWARF 5, 2.13).
fn is_declaration<R: Reader>(entry: &DebuggingInformationEntry<R>) -> bool
    ensures { (code : ℕ) → result ≡ is_declaration (entry_of R.reading code entry.now) }
{
    entry
        .attrs
        .iter()
        .any(|attribute| attribute.name() == DW_AT_declaration)
}
