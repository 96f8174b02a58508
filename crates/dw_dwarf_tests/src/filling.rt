//! What a unit leaves open, and its table fills in.

use crate::building::{Call, How, Value};
use crate::plans::{Plan, ROOT, Told, add_units, place_of};
use crate::writing::{Written, refusal};
use dw_base::constants::DW_AT_type;
use dw_dwarf::{
    DebugInfoRef, Dwarf, Error, LineProgram, Result, Unit, UnitEntryId, UnitId, UnitTable,
};
use dw_writer::DebugInfoFixup;
use std::alloc::Global;

const FIRST_ROOT: DebugInfoRef = DebugInfoRef::Entry(UnitId(0), UnitEntryId(0));

/// A unit whose root's type is the root of the first unit.
const NAMES_FIRST_ROOT: &[Plan] = &[Plan {
    calls: &[Call::Put(How::Set, 0, DW_AT_type, Value::InfoRef(FIRST_ROOT))],
    ..ROOT
}];

/// A unit of 17 bytes, the last four of which are to be the place of its root.
const OPEN: &[u8] = &[13, 0, 0, 0, 5, 0, 1, 8, 0, 0, 0, 0, 1, 0, 0, 0, 0];

/// The same with that place: 12, behind the header (DWARF 5, 7.5.1.1).
const FILLED: &[u8] = &[13, 0, 0, 0, 5, 0, 1, 8, 0, 0, 0, 0, 1, 12, 0, 0, 0];

/// The place that the unit leaves open.
const FIXUP: DebugInfoFixup = DebugInfoFixup {
    offset: 13,
    size: 4,
    unit: UnitId(0),
    entry: UnitEntryId(0),
};

/// Writes the first unit, if it isn't written, by itself.
fn write_first(dwarf: &mut Dwarf, sections: &mut Written) -> Result<()> {
    if dwarf.units.count() == 0 {
        return Err(Error::InvalidReference);
    }
    let unit = dwarf.units.get_mut(UnitId::new(0));
    if unit.is_written() {
        return Err(Error::InvalidReference);
    }
    unit.write(sections, &dwarf.line_strings, &dwarf.strings)
}

/// Writes the units of the table.
fn write_table(dwarf: &mut Dwarf, sections: &mut Written) -> Result<()> {
    dwarf
        .units
        .write(sections, &dwarf.line_strings, &dwarf.strings)
}

/// Tells whether a place is open, and a fixup tells which.
fn is_open(sections: &Written) -> bool {
    sections.debug_info.0.slice() == OPEN
        && sections.debug_info_fixups.len() == 1
        && sections.debug_info_fixups.get(0) == Some(FIXUP)
}

/// Tells whether the place is filled in.
fn is_filled(sections: &Written) -> bool {
    sections.debug_info.0.slice() == FILLED && sections.debug_info_fixups.is_empty()
}

/// Frees a unit, if it was written. It gives its entries up and keeps its places.
fn is_freed(unit: &mut Unit) -> bool {
    if !unit.is_written() {
        return false;
    }
    unit.free();
    unit.is_freed() && unit.count() == 0 && place_of(unit, 0) == Some((12, 12))
}

/// Frees the first unit.
fn is_first_freed(units: &mut UnitTable) -> bool {
    units.count() != 0 && is_freed(units.get_mut(UnitId::new(0)))
}

/// Writes the first unit by itself, and then its table.
fn fill_first(dwarf: &mut Dwarf, sections: &mut Written) -> Result<bool> {
    write_first(dwarf, sections)?;
    let was_open = is_open(sections);
    write_table(dwarf, sections)?;
    Ok(was_open && is_filled(sections))
}

/// Frees the first unit, and writes a second one that names its root, in 17 bytes behind it.
fn name_freed(alloc: Global, dwarf: &mut Dwarf, sections: &mut Written) -> Result<bool> {
    let is_freed = is_first_freed(&mut dwarf.units);
    add_units(alloc, &mut dwarf.units, NAMES_FIRST_ROOT)?;
    write_table(dwarf, sections)?;
    let info = sections.debug_info.0.slice();
    Ok(is_freed && info.len() == 34 && info.ends_with(&[1, 12, 0, 0, 0]))
}

/// Goes on with one `Dwarf` from step to step. At last it has no line program, as one of no unit.
pub(crate) fn fill_in(alloc: Global, dwarf: &mut Dwarf, sections: &mut Written) -> Result<Told> {
    add_units(alloc, &mut dwarf.units, NAMES_FIRST_ROOT)?;
    let is_filled = fill_first(dwarf, sections)?;
    let is_named = name_freed(alloc, dwarf, sections)?;
    dwarf.line_programs.push(LineProgram::none())?;
    Ok((refusal(dwarf, sections), is_filled && is_named))
}
