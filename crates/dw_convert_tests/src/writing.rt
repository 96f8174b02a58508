//! A unit whose root has one value, and how it is written.

use crate::layouts::Layout;
use crate::owned::drop;
use crate::reading::Texts;
use crate::tables::{add_lists, add_strings};
use crate::values::{row, value};
use dw_base::constants::DW_AT_sibling;
use dw_base::{DwAt, Error, Result, RunTimeEndian};
use dw_line::LineProgram;
use dw_strings::{LineStringTable, StringTable};
use dw_unit::{Unit, UnitTable};
use dw_writer::{EndianVec, Sections};
use std::alloc::Global;

pub(crate) type Written = Sections<EndianVec<RunTimeEndian>>;

/// The bytes of sections, to be read, with those of strings.
pub(crate) fn texts_of(sections: &Written) -> Texts<'_> {
    Texts {
        abbrev: sections.debug_abbrev.0.slice(),
        info: sections.debug_info.0.slice(),
        addr: b"",
        str: b"none\0text\0",
        line_str: b"nothing\0line text\0",
        line: b"",
        ranges: sections.debug_ranges.0.slice(),
        rnglists: sections.debug_rnglists.0.slice(),
        loc: sections.debug_loc.0.slice(),
        loclists: sections.debug_loclists.0.slice(),
    }
}

/// Sets an attribute of the root to the value of a number.
fn set(alloc: Global, unit: &mut Unit, name: DwAt, number: usize) -> Result<()> {
    if unit.count() == 0 || name.0 == 0 || name == DW_AT_sibling {
        return Err(Error::InvalidReference);
    }
    unit.get_mut(unit.root()).set(name, value(alloc, number)?)
}

/// Gives a unit its lists, and its root the value of a number.
fn fill(alloc: Global, unit: &mut Unit, number: usize, layout: Layout) -> Result<()> {
    let version = layout.encoding.version;
    add_lists(alloc, version, &mut unit.ranges, &mut unit.locations)?;
    let (name, _) = row(number, layout.encoding);
    set(alloc, unit, name, number)
}

/// Adds the unit whose root has the value of a number.
fn add_unit(alloc: Global, units: &mut UnitTable, number: usize, layout: Layout) -> bool {
    match Unit::new(alloc, layout.encoding, LineProgram::none()) {
        Ok(mut unit) => {
            let filled = fill(alloc, &mut unit, number, layout);
            let added = units.add(unit);
            filled.is_ok() & added.is_ok()
        }
        Err(_) => false,
    }
}

/// Writes units, whose values may name strings.
fn write_units(alloc: Global, units: &mut UnitTable, sections: &mut Written) -> bool {
    let mut strings = StringTable::new(alloc);
    let mut line_strings = LineStringTable::new(alloc);
    let added = add_strings(&mut strings, &mut line_strings);
    let written = units.write(sections, &line_strings, &strings);
    drop(strings);
    drop(line_strings);
    added.is_ok() & written.is_ok()
}

/// Writes a unit whose root has the value of a number.
pub(crate) fn write(alloc: Global, number: usize, layout: Layout, sections: &mut Written) -> bool {
    let mut units = UnitTable::new(alloc);
    let added = add_unit(alloc, &mut units, number, layout);
    let written = write_units(alloc, &mut units, sections);
    drop(units);
    added & written
}
