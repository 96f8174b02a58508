//! The attributes of an entry that is converted.

ghost use Rattle.std.specs.Prelude.{◌≡◌, [], length, map, OnOk, IfErr};
ghost use Rattle.dw_entries.specs.Attributes.{HaveDistinctNames};
ghost use Rattle.dw_entries.specs.Entries.{entry_at, with_attributes};
ghost use Rattle.dw_base.specs.declared.error.Error.TheVariants.{NoMemory};
ghost use Rattle.dw_tree.specs.UnitValue.{with_entry};
ghost use Rattle.dw_dwarf.specs.ConvertedEntries.{attribute_of};

use dw_base::{DwAt, Result};
use dw_entries::AttributeValue;
use dw_unit::EntryMut;

/// Gives an entry that has no attributes these, in their order.
pub(crate) fn set_attributes(
    entry: &mut EntryMut<'_>,
    attributes: Vec<(DwAt, AttributeValue)>,
) -> Result<()>
    requires none { (entry_at entry.old.unit.now.entries entry.old.index).attributes ≡ [] }
    requires distinct { HaveDistinctNames (map attribute_of attributes.items) }
    ensures same_unit { entry.new.unit.ghost_name ≡ entry.old.unit.ghost_name }
    ensures index { entry.new.index ≡ entry.old.index }
    ensures ok { OnOk result (entry.new.unit.now ≡ with_entry entry.old.unit.now entry.old.index
        (with_attributes (map attribute_of attributes.items))) }
    ensures count { length entry.new.unit.now.entries ≡ length entry.old.unit.now.entries }
    ensures err { IfErr result (λ e. e ≡ NoMemory) }
{
    entry.reserve(attributes.len())?;
    'attributes: for (name, value) in attributes {
        entry.push(name, value)?;
    }
    Ok(())
}
