//! What is written of files of which a filter keeps some entries (DWARF 5, 2.2, 2.3 and 7.5).

use crate::filtered_files::*;
use crate::plans::Told;
use crate::reading::{Slice, reader};
use crate::writing::{Written, drop, refusal};
use dw_base::constants::DwOp;
use dw_base::{Address, RunTimeEndian, UnitOffset};
use dw_dwarf::{ConvertResult, ConvertUnit, ConvertUnitEntry, ConvertUnitSection, Dwarf, Result};
use dw_filter::{FilterUnit, FilterUnitSection};
use dw_read::ReadError;
use dw_read_units::Dwarf as ReadDwarf;
use dw_sources::ConvertError;
use std::alloc::Global;

/// What a filter does with a unit: how many entries behind the root it reads, and which offsets of
/// the unit it requires.
pub(crate) type Asked = (usize, &'static [usize]);

/// A file, what a filter does with its first units, and what is written of it, or why it isn't
/// converted.
pub(crate) type Filtering = (
    &'static File,
    &'static [Asked],
    ConvertResult<&'static File>,
);

const LITTLE: RunTimeEndian = RunTimeEndian::Little;

const BIG_FIRST: RunTimeEndian = RunTimeEndian::Big;

/// A name, the order of bytes, and what is filtered.
pub(crate) type Row = (&'static str, RunTimeEndian, Filtering);

const TREES: &[Row] = &[
    ("a variable", LITTLE, (&TREE, &[(6, &[19])], Ok(&VARIABLE))),
    (
        "a function leads to its variable",
        LITTLE,
        (&TREE, &[(6, &[16])], Ok(&VARIABLE)),
    ),
    (
        "asked for more than there is, and twice",
        LITTLE,
        (&TREE, &[(9, &[19, 16, 19]), (9, &[])], Ok(&VARIABLE)),
    ),
    ("nothing", LITTLE, (&TREE, &[(6, &[])], Ok(&ALONE))),
    (
        "nothing was read behind the root",
        LITTLE,
        (&TREE, &[(0, &[19, 37])], Ok(&ALONE)),
    ),
];

const PLACES: &[Row] = &[
    (
        "the root, within an entry, and null entries",
        LITTLE,
        (&TREE, &[(6, &[12, 14, 27, 31, 42])], Ok(&ALONE)),
    ),
    (
        "all",
        LITTLE,
        (&TREE, &[(6, &[13, 16, 19, 28, 32, 37])], Ok(&WHOLE)),
    ),
    (
        "a namespace leads to no child",
        LITTLE,
        (&TREE, &[(6, &[13])], Ok(&NAMESPACE)),
    ),
    (
        "an entry that wasn't read",
        LITTLE,
        (&TREE, &[(5, &[37])], Ok(&ALONE)),
    ),
    (
        "a type that wasn't read",
        LITTLE,
        (&TREE, &[(4, &[19])], Err(ConvertError::InvalidUnitRef)),
    ),
];

const STRUCTURES: &[Row] = &[
    (
        "a structure",
        LITTLE,
        (&STRUCTURE, &[(11, &[25])], Ok(&MEMBERS)),
    ),
    (
        "a member",
        LITTLE,
        (&STRUCTURE, &[(11, &[28])], Ok(&MEMBERS)),
    ),
    (
        "a declaration",
        LITTLE,
        (&STRUCTURE, &[(11, &[38])], Ok(&MEMBERS)),
    ),
    (
        "a parameter of a definition",
        LITTLE,
        (&STRUCTURE, &[(12, &[61])], Ok(&DEFINITION)),
    ),
    (
        "a structure within another",
        LITTLE,
        (&STRUCTURE, &[(12, &[35])], Ok(&WITHIN)),
    ),
];

const UNITS: &[Row] = &[
    (
        "a type in a later unit",
        LITTLE,
        (&TWO, &[(3, &[17]), (4, &[])], Ok(&FIRST_NAMES)),
    ),
    (
        "a type in an earlier unit",
        LITTLE,
        (&TWO, &[(3, &[]), (4, &[26])], Ok(&SECOND_NAMES)),
    ),
    (
        "the roots of two units",
        LITTLE,
        (&TWO, &[(3, &[]), (4, &[])], Ok(&ROOTS)),
    ),
    (
        "a unit that wasn't read",
        LITTLE,
        (&TWO, &[(3, &[])], Ok(&ONE_ROOT)),
    ),
];

const UNREAD: &[Row] = &[
    ("no unit was read", LITTLE, (&TWO, &[], Ok(&NONE))),
    (
        "a type in a unit that wasn't read",
        LITTLE,
        (&TWO, &[(3, &[17])], Err(ConvertError::InvalidDebugInfoRef)),
    ),
    (
        "a type that wasn't read in a later unit",
        LITTLE,
        (
            &TWO,
            &[(3, &[17]), (1, &[])],
            Err(ConvertError::InvalidDebugInfoRef),
        ),
    ),
];

const ORDERS: &[Row] = &[
    (
        "the highest byte first",
        BIG_FIRST,
        (&BIG_TWO, &[(3, &[17]), (4, &[])], Ok(&BIG_SHORT)),
    ),
    (
        "64-bit units, the highest byte first",
        BIG_FIRST,
        (&BIG, &[(3, &[29]), (4, &[])], Ok(&BIG_NAMES)),
    ),
];

const PARTS: &[Row] = &[
    (
        "a location list",
        LITTLE,
        (&LOCATED, &[(3, &[17])], Ok(&LOCATION)),
    ),
    (
        "a location list that can't be read",
        LITTLE,
        (&WITHOUT_LIST, &[(3, &[17, 21])], Ok(&NARROW)),
    ),
    (
        "names that are left",
        LITTLE,
        (&NAMED, &[(2, &[22])], Ok(&ONE_NAME)),
    ),
];

const FAULTS: &[Row] = &[
    (
        "an expression up to its fault, not kept",
        LITTLE,
        (&DAMAGED, &[(3, &[20])], Ok(&BASE)),
    ),
    (
        "an expression up to its fault, kept",
        LITTLE,
        (
            &DAMAGED,
            &[(3, &[13])],
            Err(ConvertError::Read(ReadError::InvalidExpression(DwOp(2)))),
        ),
    ),
    (
        "a row that can't be read",
        LITTLE,
        (
            &UNREADABLE,
            &[(2, &[13])],
            Err(ConvertError::Read(ReadError::UnknownAbbreviation(9))),
        ),
    ),
    (
        "a header that can't be read",
        LITTLE,
        (&CUT, &[(1, &[13]), (1, &[])], Ok(&BASE)),
    ),
    (
        "a line program",
        LITTLE,
        (&LINES, &[(1, &[])], Ok(&ROOT_LINES)),
    ),
];

fn trees() -> &'static [Row] {
    TREES
}

fn places() -> &'static [Row] {
    PLACES
}

fn structures() -> &'static [Row] {
    STRUCTURES
}

fn units() -> &'static [Row] {
    UNITS
}

fn unread() -> &'static [Row] {
    UNREAD
}

fn orders() -> &'static [Row] {
    ORDERS
}

fn parts() -> &'static [Row] {
    PARTS
}

fn faults() -> &'static [Row] {
    FAULTS
}

/// The tables. Each stands behind a function, so that no other proof looks into it.
pub(crate) fn tables() -> [&'static [Row]; 8] {
    [
        trees(),
        places(),
        structures(),
        units(),
        unread(),
        orders(),
        parts(),
        faults(),
    ]
}

/// A file's sections, to be read.
pub(crate) fn sections_of(file: &'static File, endian: RunTimeEndian) -> ReadDwarf<Slice<'static>> {
    ReadDwarf {
        debug_abbrev: reader(file.abbrev, endian),
        debug_str: reader(file.strings, endian),
        debug_line_str: reader(file.line_strings, endian),
        debug_line: reader(file.line, endian),
        debug_ranges: reader(b"", endian),
        debug_rnglists: reader(b"", endian),
        debug_loc: reader(b"", endian),
        debug_loclists: reader(file.lists, endian),
        debug_info: reader(file.info, endian),
        debug_addr: reader(file.addresses, endian),
        debug_str_offsets: reader(b"", endian),
    }
}

/// Requires an offset of a unit, if it lies inside.
pub(crate) fn require_one(
    unit: &mut FilterUnit<'_, Slice<'_>>,
    offset: UnitOffset,
) -> ConvertResult<()> {
    let read = unit.read_unit;
    if read.contains(offset) {
        unit.require_entry(offset)?;
    }
    Ok(())
}

/// Requires these offsets of a unit.
fn require(unit: &mut FilterUnit<'_, Slice<'_>>, offsets: &[usize]) -> ConvertResult<()> {
    for offset in offsets {
        require_one(unit, UnitOffset(*offset))?;
    }
    Ok(())
}

/// Reads so many entries of a unit, as far as they can be read.
fn read(unit: &mut FilterUnit<'_, Slice<'_>>, count: usize) {
    let mut entry = unit.null_entry();
    for _ in 0..count {
        if unit.read_entry(&mut entry) != Ok(true) {
            return;
        }
    }
}

/// Does what is asked with the next unit of a file, if it can be read.
pub(crate) fn ask(
    filter: &mut FilterUnitSection<'_, Slice<'_>>,
    asked: &Asked,
) -> ConvertResult<()> {
    let (count, offsets) = *asked;
    if let Ok(Some(mut unit)) = filter.read_unit() {
        require(&mut unit, offsets)?;
        read(&mut unit, count);
    }
    Ok(())
}

/// How what is kept is converted.
#[derive(Clone, Copy)]
pub(crate) enum Way {
    AtOnce,
    UnitByUnit,
}

/// The same address.
pub(crate) fn constant(address: u64) -> Option<Address> {
    Some(Address::Constant(address))
}

/// Converts all of a fresh unit.
pub(crate) fn convert_unit<'a>(
    unit: &mut ConvertUnit<'a, Slice<'static>>,
    root: ConvertUnitEntry<'a, Slice<'static>>,
) -> ConvertResult<()> {
    if !unit.is_fresh() {
        return Err(ConvertError::UnsupportedOperation);
    }
    unit.convert(root, &|address| constant(address))
}

/// Converts the next unit at once, if there is one.
pub(crate) fn convert_next(
    section: &mut ConvertUnitSection<'_, Slice<'static>>,
) -> ConvertResult<()> {
    match section.read_unit() {
        Ok(Some((mut unit, root))) => {
            let converted = convert_unit(&mut unit, root);
            drop(unit);
            converted
        }
        Ok(None) => Ok(()),
        Err(error) => Err(error),
    }
}

/// Converts so many units of a filter.
fn convert_each(
    section: &mut ConvertUnitSection<'_, Slice<'static>>,
    count: usize,
) -> ConvertResult<()> {
    for _ in 0..count {
        convert_next(section)?;
    }
    Ok(())
}

/// Converts so many units of a filter, one by one.
fn convert_units(
    dwarf: &mut Dwarf,
    filter: FilterUnitSection<'_, Slice<'static>>,
    count: usize,
) -> ConvertResult<()> {
    match dwarf.convert_with_filter(filter) {
        Ok(mut section) => {
            let converted = convert_each(&mut section, count);
            drop(section);
            converted
        }
        Err(error) => Err(error),
    }
}

/// What a filter keeps.
fn converted(
    alloc: Global,
    way: Way,
    filter: FilterUnitSection<'_, Slice<'static>>,
    count: usize,
) -> ConvertResult<Dwarf> {
    match way {
        Way::AtOnce => Dwarf::from_filter(alloc, filter, &|address| constant(address)),
        Way::UnitByUnit => {
            let mut dwarf = Dwarf::new(alloc);
            convert_units(&mut dwarf, filter, count).and(Ok(dwarf))
        }
    }
}

/// Does what is asked with the units of a file.
fn ask_all(filter: &mut FilterUnitSection<'_, Slice<'_>>, asked: &[Asked]) -> ConvertResult<()> {
    for asked in asked {
        ask(filter, asked)?;
    }
    Ok(())
}

/// What a file becomes.
fn filtered(
    alloc: Global,
    endian: RunTimeEndian,
    way: Way,
    row: Filtering,
) -> ConvertResult<Dwarf> {
    let (file, asked, _) = row;
    let sections = sections_of(file, endian);
    let mut filter = FilterUnitSection::new(alloc, &sections)?;
    match ask_all(&mut filter, asked) {
        Ok(()) => converted(alloc, way, filter, asked.len()),
        Err(error) => {
            drop(filter);
            Err(error)
        }
    }
}

/// Tells whether these are the sections of a file.
pub(crate) fn holds(sections: &Written, file: &File) -> bool {
    sections.debug_abbrev.0.slice() == file.abbrev
        && sections.debug_info.0.slice() == file.info
        && sections.debug_loclists.0.slice() == file.lists
        && sections.debug_str.0.slice() == file.strings
        && sections.debug_line_str.0.slice() == file.line_strings
        && sections.debug_line.0.slice() == file.line
}

/// Filters a file, and writes what it becomes.
pub(crate) fn write_filtered(
    alloc: Global,
    endian: RunTimeEndian,
    way: Way,
    row: Filtering,
    sections: &mut Written,
) -> Result<Told> {
    match (filtered(alloc, endian, way, row), row.2) {
        (Ok(mut dwarf), Ok(file)) => {
            let refused = refusal(&mut dwarf, sections);
            drop(dwarf);
            Ok((refused, holds(sections, file)))
        }
        (Ok(dwarf), Err(_)) => {
            drop(dwarf);
            Ok((None, false))
        }
        (Err(error), wanted) => Ok((None, wanted.err() == Some(error))),
    }
}
