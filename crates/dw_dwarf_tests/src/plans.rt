//! Units by plan: how they are built, and what they are to tell once they were written.

use crate::building::{Call, make_calls};
use crate::writing::drop;
use dw_dwarf::{
    Dwarf, Encoding, Error, Format, LineProgram, Result, Sections, Unit, UnitEntryId, UnitTable,
    Writer,
};
use std::alloc::Global;

/// A unit of version 5 in `.debug_info`: its length, the version, the type of a compile unit, the
/// address size, the place of its table, and the code of its root (DWARF 5, 7.5.1.1).
pub(crate) const ROOT_INFO: &[u8] = &[9, 0, 0, 0, 5, 0, 1, 8, 0, 0, 0, 0, 1];

/// The table of a root alone in `.debug_abbrev`: code 1, `DW_TAG_compile_unit`, no children, no
/// attributes, no other declaration (DWARF 5, 7.5.3).
pub(crate) const ROOT_TABLE: &[u8] = &[1, 0x11, 0, 0, 0, 0];

/// Version 5, 8-byte addresses, the 32-bit format.
pub(crate) const VERSION_5: Encoding = Encoding {
    address_size: 8,
    format: Format::Dwarf32,
    version: 5,
};

pub(crate) const VERSION_4: Encoding = Encoding {
    version: 4,
    ..VERSION_5
};

/// A unit, and what it is to tell once its `Dwarf` was written.
pub(crate) struct Plan {
    pub(crate) encoding: Encoding,
    pub(crate) calls: &'static [Call],
    pub(crate) is_written: bool,
    /// Its root's children.
    pub(crate) children: &'static [UnitEntryId],
    /// Entries with where they stand, in the unit and in `.debug_info`.
    pub(crate) places: &'static [(usize, Option<(u64, usize)>)],
}

/// A root of version 5 that is written.
pub(crate) const ROOT: Plan = Plan {
    encoding: VERSION_5,
    calls: &[],
    is_written: true,
    children: &[],
    places: &[],
};

pub(crate) const ONE_ROOT: &[Plan] = &[ROOT];

/// Adds a unit, which has its root alone, with these calls of it. It is made in version 5, and its
/// encoding is changed.
pub(crate) fn add_unit(
    alloc: Global,
    units: &mut UnitTable,
    encoding: Encoding,
    calls: &[Call],
) -> Result<()> {
    let id = units.add(Unit::new(alloc, VERSION_5, LineProgram::none())?)?;
    let unit = units.get_mut(id);
    unit.set_encoding(encoding);
    make_calls(alloc, unit, calls)
}

/// Adds a unit for each plan.
pub(crate) fn add_units(alloc: Global, units: &mut UnitTable, plans: &[Plan]) -> Result<()> {
    for plan in plans {
        add_unit(alloc, units, plan.encoding, plan.calls)?;
    }
    Ok(())
}

/// The children of an entry, where there is one.
fn children_of(unit: &Unit, index: usize) -> &[UnitEntryId] {
    if index >= unit.count() {
        return &[];
    }
    unit.get(UnitEntryId::new(index)).child_ids()
}

/// Where an entry stands, in its unit and in `.debug_info`.
pub(crate) fn place_of(unit: &Unit, index: usize) -> Option<(u64, usize)> {
    let offsets = unit.offsets()?;
    let entry = UnitEntryId::new(index);
    Some((
        offsets.unit_offset(entry)?,
        offsets.debug_info_offset(entry)?.0,
    ))
}

/// Tells whether a unit is as its plan wants it.
fn is_as_planned(unit: &Unit, plan: &Plan) -> bool {
    for (index, place) in plan.places {
        if place_of(unit, *index) != *place {
            return false;
        }
    }
    unit.encoding() == plan.encoding
        && unit.is_written() == plan.is_written
        && children_of(unit, 0) == plan.children
}

/// Tells whether these are the units of the plans, as these want them.
pub(crate) fn are_as_planned(units: &UnitTable, plans: &[Plan]) -> bool {
    for (id, unit) in units.iter() {
        match plans.get(id.index()) {
            Some(plan) if is_as_planned(unit, plan) => {}
            _ => return false,
        }
    }
    units.count() == plans.len()
}

/// What came of a write: why it was refused, and whether all else is as it is to be then.
pub(crate) type Told = (Option<Error>, bool);

/// Writes a `Dwarf` of these units.
fn write<W: Writer>(dwarf: &mut Dwarf, plans: &[Plan], sections: &mut Sections<W>) -> Told {
    let refusal = dwarf.write(sections).err();
    (refusal, are_as_planned(&dwarf.units, plans))
}

/// Adds the units of these plans to a `Dwarf`, and writes it twice. The second write finds what
/// the first one wrote, and is answered as that.
fn write_twice<W: Writer>(
    alloc: Global,
    dwarf: &mut Dwarf,
    plans: &[Plan],
    sections: &mut Sections<W>,
) -> Result<Told> {
    add_units(alloc, &mut dwarf.units, plans)?;
    let first = write(dwarf, plans, sections);
    let second = write(dwarf, plans, sections);
    Ok((first.0, first.1 && second == first))
}

/// Writes a new `Dwarf` of these units twice.
pub(crate) fn write_plans<W: Writer>(
    alloc: Global,
    plans: &[Plan],
    sections: &mut Sections<W>,
) -> Result<Told> {
    let mut dwarf = Dwarf::new(alloc);
    let told = write_twice(alloc, &mut dwarf, plans, sections);
    drop(dwarf);
    told
}
