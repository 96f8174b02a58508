//! The entries of a unit, each at the index that its id names.

ghost use Rattle.std.specs.Prelude.{◌≡◌, ◌<◌, ◌≤◌, vec_len, ◌==◌, OnOk, OnErr, IfErr};
ghost use Rattle.dw_base.specs.declared.error.Error.TheVariants.{NoMemory};
ghost use Rattle.dw_entries.specs.Entries.{filled_up, with_new_child, with_added, entry_at};

use crate::entry::DebuggingInformationEntry;
use dw_base::{DwTag, Result, UnitEntryId};

/// Adds a child under its parent. The entries up to the count are there afterwards, those that
/// weren't added as blank ones. Where memory lacks, the entries stay as they were.
pub(crate) fn add_entry(
    entries: &mut Vec<DebuggingInformationEntry>,
    count: usize,
    child: UnitEntryId,
    parent: UnitEntryId,
    tag: DwTag,
) -> Result<()>
    requires within { vec_len entries.old ≤ count }
    requires child_in { child.0 < count }
    requires parent_in { parent.0 < count }
    ensures ok { OnOk result
        (entries.new.items ≡ with_added count child.0 parent.0 tag.0 entries.old.items) }
    ensures err { IfErr result (λ e. e ≡ NoMemory) }
    ensures kept { OnErr result (entries.new.items ≡ entries.old.items) }
{
    let old_count = entries.len();
    fill_up(entries, count)?;
    let linked = link(entries, child, parent, tag);
    if linked.is_err() {
        entries.truncate(old_count);
    }
    linked
}

fn fill_up(entries: &mut Vec<DebuggingInformationEntry>, count: usize) -> Result<()>
    requires { vec_len entries.old ≤ count }
    ensures ok { OnOk result (entries.new.items ≡ filled_up count entries.old.items) }
    ensures err { IfErr result (λ e. e ≡ NoMemory) }
    ensures kept { OnErr result (entries.new.items ≡ entries.old.items) }
{
    let alloc = *entries.allocator();
    entries.reserve(count - entries.len())?;
    'blanks: while entries.len() < count {
        let id = UnitEntryId::new(entries.len());
        // There is room for it.
        entries.push(DebuggingInformationEntry::blank(alloc, id))?;
    }
    Ok(())
}

fn link(
    entries: &mut Vec<DebuggingInformationEntry>,
    child: UnitEntryId,
    parent: UnitEntryId,
    tag: DwTag,
) -> Result<()>
    requires child_in { child.0 < vec_len entries.old }
    requires parent_in { parent.0 < vec_len entries.old }
    ensures ok { OnOk result
        (entries.new.items ≡ with_new_child child.0 parent.0 tag.0 entries.old.items) }
    ensures err { IfErr result (λ e. e ≡ NoMemory) }
    ensures kept { OnErr result (entries.new.items ≡ entries.old.items) }
{
    let above = &mut entries[parent.index()];
    above.add_child(child)?;
    let entry = &mut entries[child.index()];
    entry.place_under(parent, tag);
    Ok(())
}

/// Tells that no entry was added at an index.
pub(crate) fn is_unadded(entries: &[DebuggingInformationEntry], index: usize) -> bool
    ensures { result ≡ ((entry_at entries.now index).tag == 0) }
{
    match entries.get(index) {
        Some(entry) => entry.tag().0 == 0,
        None => true,
    }
}
