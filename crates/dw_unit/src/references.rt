//! References across units, in them and in their location lists, filled in once every unit stands.

ghost use Rattle.std.specs.Prelude.{◌≡◌, ◌<◌, ◌≤◌, Some, length, slice_get, IsTrue, IsFalse, OnOk, IfErr};
ghost use Rattle.std.specs.Option.{option_map};
ghost use Rattle.dw_base.specs.declared.error.Error.{Error as AnError};
ghost use Rattle.dw_writer.specs.Causes.{IsNotMemory};
ghost use Rattle.dw_writer.specs.Drafts.{hole_model};
ghost use Rattle.dw_writer.specs.Meaning.{Patches};
ghost use Rattle.dw_writer.specs.Sections.{SomeHasRisen, fault_sum};
ghost use Rattle.dw_tree.specs.Causes.{Because, Refused, Is};
ghost use Rattle.dw_unit.specs.Filled.{Fills, FillsAll, IsFillable, AreFillable, AreAllFillable, open_fail};
ghost use Rattle.dw_tree.specs.Pending.{info_at};
ghost use Rattle.dw_tree.specs.UnitFaults.{hole_fails, holes_fail};

use crate::unit::Unit;
use dw_base::{DebugInfoOffset, Error, Result, SectionId, UnitEntryId, UnitId};
use dw_writer::{DebugInfoFixup, FixupList, Sections, Writer};

/// The place of an entry in `.debug_info`, if its unit was written with it.
fn place_in_info(units: &[Unit], unit: UnitId, entry: UnitEntryId) -> Option<DebugInfoOffset>
    ensures { option_map (λ o. o.0) result ≡ info_at units.now unit.0 entry.0 }
{
    let unit = units.get(unit.index())?;
    let offsets = unit.offsets()?;
    offsets.debug_info_offset(entry)
}

/// Fills a reference in.
fn fill_one<W: Writer>(units: &[Unit], fixup: DebugInfoFixup, w: &mut W) -> Result<()>
    ensures ok { OnOk result
        (Patches (W.meaning w.old) (W.meaning w.new) fixup.offset fixup.size
        (hole_model (info_at units.now) fixup)) }
    ensures sound { OnOk result
        ((e : AnError) →
        IsFalse (hole_fails (info_at units.now) (W.meaning w.old).is_plain fixup e)) }
    ensures err { IfErr result
        (λ e. IsFillable (W.meaning w.old) fixup → Refused (W.meaning w.old) (W.meaning w.new)
        (Is (hole_fails (info_at units.now) (W.meaning w.old).is_plain fixup)) e) }
    ensures memory { IsTrue W.patches_in_place → IfErr result IsNotMemory }
    ensures faults { (W.meaning w.old).faults ≤ (W.meaning w.new).faults }
{
    let Some(place) = place_in_info(units, fixup.unit, fixup.entry) else {
        return Err(Error::InvalidReference);
    };
    w.write_offset_at(fixup.offset, place.0, SectionId::DebugInfo, fixup.size)
}

/// The reference at an index.
fn fixup_at(fixups: &FixupList, index: usize) -> DebugInfoFixup
    requires { index < length fixups.now }
    ensures { slice_get fixups.now index ≡ Some result }
{
    fixups.get(index).unwrap()
}

/// Fills references in, each with the place that the unit of its entry keeps.
fn fill<W: Writer>(units: &[Unit], fixups: &FixupList, w: &mut W) -> Result<()>
    ensures ok { OnOk result
        (Fills (W.meaning w.old) (W.meaning w.new) (info_at units.now) fixups.now) }
    ensures sound { OnOk result
        ((e : AnError) →
        IsFalse (holes_fail (info_at units.now) (W.meaning w.old).is_plain fixups.now e)) }
    ensures err { IfErr result
        (λ e. AreFillable (W.meaning w.old) fixups.now →
        Refused (W.meaning w.old) (W.meaning w.new)
        (Is (holes_fail (info_at units.now) (W.meaning w.old).is_plain fixups.now)) e) }
    ensures memory { IsTrue W.patches_in_place → IfErr result IsNotMemory }
    ensures faults { (W.meaning w.old).faults ≤ (W.meaning w.new).faults }
{
    for i in 0..fixups.len() {
        fill_one(units, fixup_at(fixups, i), w)?;
    }
    Ok(())
}

/// Fills in all references that are open: in `.debug_info`, and in the location lists of both
/// sections.
pub(crate) fn fill_all<W: Writer>(units: &[Unit], sections: &mut Sections<W>) -> Result<()>
    ensures ok { OnOk result
        (FillsAll W.meaning sections.old sections.new (info_at units.now)) }
    ensures sound { OnOk result
        ((e : AnError) → IsFalse (open_fail W.meaning sections.old (info_at units.now) e)) }
    ensures err { IfErr result
        (λ e. AreAllFillable W.meaning sections.old →
        Because (SomeHasRisen W.meaning sections.old sections.new)
        (Is (open_fail W.meaning sections.old (info_at units.now))) e) }
    ensures memory { IsTrue W.patches_in_place → IfErr result IsNotMemory }
    ensures others { sections.new ≡ record sections.old {
      debug_loc = sections.new.debug_loc;
      debug_loclists = sections.new.debug_loclists;
      debug_info = sections.new.debug_info;
    } }
    ensures faults { fault_sum W.meaning sections.old ≤ fault_sum W.meaning sections.new }
{
    fill(
        units,
        &sections.debug_info_fixups,
        &mut sections.debug_info.0,
    )?;
    fill(units, &sections.debug_loc_fixups, &mut sections.debug_loc.0)?;
    fill(
        units,
        &sections.debug_loclists_fixups,
        &mut sections.debug_loclists.0,
    )
}
