//! Units that have nothing yet.

ghost use Rattle.std.specs.Prelude.{◌≡◌, ◌↔◌, ℕ, [], ◌∷◌, true, false, IsTrue};
ghost use Rattle.dw_entries.specs.Entries.{new_root};
ghost use Rattle.dw_dwarf.specs.NewUnits.{IsNewUnit, IsBareRoot};

use dw_base::Encoding;
use dw_base::constants::DW_TAG_compile_unit;
use dw_unit::{DebuggingInformationEntry, Unit};

/// Whether a unit has its root alone, without attributes, lists and line program, has handed out so
/// many ids, and is neither written nor skipped.
pub(crate) fn is_fresh_unit(unit: &Unit, encoding: Encoding, count: usize) -> bool
    ensures { IsTrue result ↔ IsNewUnit encoding count unit.now }
{
    !unit.is_written()
        && !unit.is_freed()
        && unit.encoding() == encoding
        && unit.reserved() == count
        && unit.line_program.is_none()
        && unit.ranges.count() == 0
        && unit.locations.count() == 0
        && is_root_alone(unit)
}

/// Whether the root is the one entry, and has nothing.
fn is_root_alone(unit: &Unit) -> bool
    ensures { IsTrue result ↔ (unit.now.entries ≡ new_root ∷ []) }
{
    unit.count() == 1 && is_bare(unit.get(unit.root()))
}

/// Whether an entry is a compile unit's, and has neither attributes nor children.
fn is_bare(entry: &DebuggingInformationEntry) -> bool
    ensures { IsTrue result ↔ IsBareRoot entry.now }
{
    entry.tag() == DW_TAG_compile_unit
        && !entry.sibling()
        && entry.attributes().is_empty()
        && entry.child_ids().is_empty()
}
