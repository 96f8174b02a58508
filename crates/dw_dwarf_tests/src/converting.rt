//! Files whose units are converted behind another unit, and written.

use crate::filtered_files::{File, NONE};
use crate::filtering::{constant, convert_next, holds, sections_of};
use crate::plans::{ONE_ROOT, Told, add_units};
use crate::reading;
use crate::writing::{Written, drop, refusal};
use dw_base::{DwAt, RunTimeEndian, UnitEntryId};
use dw_dwarf::{
    AttributeValue, ConvertResult, ConvertUnit, ConvertUnitEntry, ConvertUnitSection, Dwarf,
    Result, Unit, convert_units,
};
use dw_read::Attribute;
use dw_read_units::{Dwarf as ReadDwarf, UnitRef};
use dw_sources::ConvertError;
use std::alloc::Global;

pub(crate) type Slice = reading::Slice<'static>;

/// How a file is converted.
#[derive(Clone, Copy)]
pub(crate) enum Way {
    AtOnce,
    UnitByUnit,
    EntryByEntry,
}

/// How a file is converted, the file, and what is written behind a unit of version 5 that has its
/// root alone: 13 bytes of `.debug_info`, and 6 of `.debug_abbrev`.
pub(crate) type Conversion = (Way, &'static File, &'static File);

/// Declarations in one table: 1, a root with children and its name in `.debug_str`; 2, a variable
/// with such a name, and its type by its place in `.debug_info`; 3, a base type of a size; 4, a
/// variable whose type is in its own unit.
const TYPED: &[u8] = b"\x01\x11\x01\x03\x0e\x00\x00\
\x02\x34\x00\x03\x0e\x49\x10\x00\x00\
\x03\x24\x00\x0b\x0b\x00\x00\
\x04\x34\x00\x49\x13\x00\x00\x00";

/// Two units, the second at 27. The first has a variable, whose type is the base type at 44, which
/// is at 17 in the second unit and the type of a variable there, too.
pub(crate) const TWO_UNITS: File = File {
    abbrev: TYPED,
    strings: b"a\x00b\x00",
    info: b"\x17\x00\x00\x00\x05\x00\x01\x08\x00\x00\x00\x00\
\x01\x00\x00\x00\x00\x02\x02\x00\x00\x00\x2c\x00\x00\x00\x00\
\x15\x00\x00\x00\x05\x00\x01\x08\x00\x00\x00\x00\
\x01\x02\x00\x00\x00\x03\x04\x04\x11\x00\x00\x00\x00",
    ..NONE
};

/// Each unit has a table of its own, at 6 and at 23; the base type is at 57.
const TWO_BEHIND: File = File {
    abbrev: b"\x01\x11\x00\x00\x00\x00\
\x01\x11\x01\x03\x0e\x00\x00\x02\x34\x00\x03\x0e\x49\x10\x00\x00\x00\
\x01\x11\x01\x03\x0e\x00\x00\x02\x24\x00\x0b\x0b\x00\x00\x03\x34\x00\x49\x13\x00\x00\x00",
    strings: b"a\x00b\x00",
    info: b"\x09\x00\x00\x00\x05\x00\x01\x08\x00\x00\x00\x00\x01\
\x17\x00\x00\x00\x05\x00\x01\x08\x06\x00\x00\x00\
\x01\x00\x00\x00\x00\x02\x02\x00\x00\x00\x39\x00\x00\x00\x00\
\x15\x00\x00\x00\x05\x00\x01\x08\x17\x00\x00\x00\
\x01\x02\x00\x00\x00\x02\x04\x03\x11\x00\x00\x00\x00",
    ..NONE
};

/// The program of a unit of version 5, with a directory and a file by their places among the line
/// strings (DWARF 5, 6.2.4), which the root's `DW_AT_decl_file` names.
pub(crate) const ONE_PROGRAM: File = File {
    abbrev: b"\x01\x11\x00\x3a\x0f\x10\x17\x00\x00\x00",
    line_strings: b"/tmp\x00a.c\x00",
    line: b"\x2d\x00\x00\x00\x05\x00\x08\x00\x25\x00\x00\x00\x01\x01\x01\xfb\x0e\x0d\
\x00\x01\x01\x01\x01\x00\x00\x00\x01\x00\x00\x01\
\x01\x01\x1f\x01\x00\x00\x00\x00\x02\x01\x1f\x02\x0f\x01\x05\x00\x00\x00\x00",
    info: b"\x0e\x00\x00\x00\x05\x00\x01\x08\x00\x00\x00\x00\x01\x00\x00\x00\x00\x00",
    ..NONE
};

/// The unit before it has no line program, and so the program stays where it is.
const ONE_BEHIND: File = File {
    abbrev: b"\x01\x11\x00\x00\x00\x00\x01\x11\x00\x3a\x0f\x10\x17\x00\x00\x00",
    info: b"\x09\x00\x00\x00\x05\x00\x01\x08\x00\x00\x00\x00\x01\
\x0e\x00\x00\x00\x05\x00\x01\x08\x06\x00\x00\x00\x01\x00\x00\x00\x00\x00",
    ..ONE_PROGRAM
};

const ROWS: &[(&str, Conversion)] = &[
    ("two units at once", (Way::AtOnce, &TWO_UNITS, &TWO_BEHIND)),
    (
        "two units, one at a time",
        (Way::UnitByUnit, &TWO_UNITS, &TWO_BEHIND),
    ),
    (
        "two units, entry by entry",
        (Way::EntryByEntry, &TWO_UNITS, &TWO_BEHIND),
    ),
    (
        "a line program at once",
        (Way::AtOnce, &ONE_PROGRAM, &ONE_BEHIND),
    ),
    (
        "a line program, one unit",
        (Way::UnitByUnit, &ONE_PROGRAM, &ONE_BEHIND),
    ),
    (
        "a line program, entry by entry",
        (Way::EntryByEntry, &ONE_PROGRAM, &ONE_BEHIND),
    ),
];

/// The table, into which no other proof looks.
pub(crate) fn rows() -> &'static [(&'static str, Conversion)] {
    ROWS
}

/// What is wrong with a unit or its converter that isn't as it has to be.
const WRONG: ConvertError = ConvertError::UnsupportedOperation;

/// Adds an entry that was read, under the id that is reserved for it.
fn add(
    unit: &mut ConvertUnit<'_, Slice>,
    id: UnitEntryId,
    entry: &ConvertUnitEntry<'_, Slice>,
) -> ConvertResult<()> {
    let parent = entry.parent.unwrap_or(UnitEntryId::new(0));
    if unit.unit.is_written() || !unit.unit.is_reserved(id) {
        return Err(WRONG);
    }
    if parent.index() >= unit.unit.reserved() || entry.read_entry.tag.0 == 0 {
        return Err(WRONG);
    }
    match unit.add_entry(Some(id), entry) {
        Ok(added) if added == id => Ok(()),
        Ok(_) => Err(WRONG),
        Err(error) => Err(error),
    }
}

/// Gives an entry that was added a value.
fn put(unit: &mut Unit, id: UnitEntryId, name: DwAt, value: AttributeValue) -> ConvertResult<()> {
    if name.0 < 2 || id.index() >= unit.count() {
        return Err(WRONG);
    }
    match unit.get_mut(id).set(name, value) {
        Ok(()) => Ok(()),
        Err(_) => Err(ConvertError::NoMemory),
    }
}

/// Sets one attribute of an entry that was added.
fn set(
    unit: &mut ConvertUnit<'_, Slice>,
    id: UnitEntryId,
    read_unit: UnitRef<'_, Slice>,
    attribute: &Attribute<Slice>,
) -> ConvertResult<()> {
    match unit.convert_attribute_value(read_unit, attribute, &|address| constant(address)) {
        Ok(value) => put(unit.unit, id, attribute.name(), value),
        Err(error) => Err(error),
    }
}

/// Sets the attributes of an entry that was added.
fn set_all(
    unit: &mut ConvertUnit<'_, Slice>,
    id: UnitEntryId,
    entry: &ConvertUnitEntry<'_, Slice>,
) -> ConvertResult<()> {
    for attribute in &entry.read_entry.attrs {
        set(unit, id, entry.read_unit, attribute)?;
    }
    Ok(())
}

/// Converts the line program of a unit, if it has one.
fn convert_lines(unit: &mut ConvertUnit<'_, Slice>) -> ConvertResult<()> {
    match unit.read_line_program(None, None) {
        Ok(Some(program)) => match program.convert(&|address| constant(address)) {
            Ok((program, files)) => {
                unit.set_line_program(program, files);
                Ok(())
            }
            Err(error) => Err(error),
        },
        Ok(None) => Ok(()),
        Err(error) => Err(error),
    }
}

/// Adds the next entry with its attributes, if one is left.
fn add_next<'a>(
    unit: &mut ConvertUnit<'a, Slice>,
    entry: &mut ConvertUnitEntry<'a, Slice>,
) -> ConvertResult<()> {
    if let Some(Some(id)) = unit.read_entry(entry)? {
        add(unit, id, entry)?;
        set_all(unit, id, entry)?;
    }
    Ok(())
}

/// Adds the entries that are left, three at most.
fn add_others<'a>(
    unit: &mut ConvertUnit<'a, Slice>,
    entry: &mut ConvertUnitEntry<'a, Slice>,
) -> ConvertResult<()> {
    for _ in 0..3 {
        add_next(unit, entry)?;
    }
    Ok(())
}

/// Whether nothing was read into an entry.
fn is_null(entry: &ConvertUnitEntry<'_, Slice>) -> bool {
    let read = &entry.read_entry;
    read.offset.0 == 0 && read.depth == 0 && read.tag.0 == 0 && !read.has_children
}

/// Converts a unit entry by entry, each read into the same entry, which the root was.
fn add_unit<'a>(
    unit: &mut ConvertUnit<'a, Slice>,
    entry: &mut ConvertUnitEntry<'a, Slice>,
) -> ConvertResult<()> {
    convert_lines(unit)?;
    set_all(unit, UnitEntryId::new(0), entry)?;
    *entry = unit.null_entry();
    if !is_null(entry) {
        return Err(WRONG);
    }
    add_others(unit, entry)
}

/// Converts the next unit entry by entry, if there is one.
fn add_next_unit(section: &mut ConvertUnitSection<'_, Slice>) -> ConvertResult<()> {
    match section.read_unit() {
        Ok(Some((mut unit, mut root))) => {
            let added = add_unit(&mut unit, &mut root);
            drop(root);
            drop(unit);
            added
        }
        Ok(None) => Ok(()),
        Err(error) => Err(error),
    }
}

/// Converts the units of a file one after the other, and asks for more than it has.
fn convert_each(section: &mut ConvertUnitSection<'_, Slice>, way: Way) -> ConvertResult<()> {
    for _ in 0..3 {
        match way {
            Way::EntryByEntry => add_next_unit(section)?,
            _ => convert_next(section)?,
        }
    }
    Ok(())
}

/// Converts the units of a file one after the other.
fn convert_by_section(read: &ReadDwarf<Slice>, dwarf: &mut Dwarf, way: Way) -> ConvertResult<()> {
    match dwarf.convert(read) {
        Ok(mut section) => {
            let converted = convert_each(&mut section, way);
            drop(section);
            converted
        }
        Err(error) => Err(error),
    }
}

/// Converts a file in a way.
pub(crate) fn convert(
    alloc: Global,
    way: Way,
    file: &'static File,
    dwarf: &mut Dwarf,
) -> ConvertResult<()> {
    let read = sections_of(file, RunTimeEndian::Little);
    match way {
        Way::AtOnce => convert_units(
            alloc,
            &read,
            &mut dwarf.units,
            &mut dwarf.strings,
            &mut dwarf.line_strings,
            &|address| constant(address),
        ),
        _ => convert_by_section(&read, dwarf, way),
    }
}

/// Converts a file behind another unit, and writes both.
pub(crate) fn write_converted(
    alloc: Global,
    job: Conversion,
    dwarf: &mut Dwarf,
    sections: &mut Written,
) -> Result<Told> {
    let (way, read, written) = job;
    add_units(alloc, &mut dwarf.units, ONE_ROOT)?;
    let is_converted = convert(alloc, way, read, dwarf).is_ok();
    let refused = refusal(dwarf, sections);
    Ok((refused, is_converted && holds(sections, written)))
}
