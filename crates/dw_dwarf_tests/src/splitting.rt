//! What is written of units that were split off, put back into their skeletons (DWARF 5, 3.1.2 and
//! 3.1.3).

use crate::filtered_files::{ALONE, File, LINES, NONE};
use crate::filtering::{Asked, ask, convert_unit, holds, sections_of};
use crate::plans::Told;
use crate::reading::Slice;
use crate::split_files::*;
use crate::writing::{Written, drop, refusal};
use dw_base::RunTimeEndian;
use dw_dwarf::{
    ConvertError, ConvertResult, ConvertSplitUnitSection, ConvertUnit, ConvertUnitEntry,
    ConvertUnitSection, Dwarf, Result,
};
use dw_filter::FilterUnitSection;
use dw_read::ReadError;
use dw_read_units::{Dwarf as ReadDwarf, UnitRef};
use std::alloc::Global;

/// A skeleton and a split file, what a filter of that does with its first unit, if there is one,
/// the id of the first entry behind its root, and what is written, or why nothing is converted.
pub(crate) type Splitting = (
    &'static File,
    &'static File,
    Option<Asked>,
    usize,
    ConvertResult<&'static File>,
);

/// A name, the order of bytes, and what is put back.
pub(crate) type Row = (&'static str, RunTimeEndian, Splitting);

const LITTLE: RunTimeEndian = RunTimeEndian::Little;

const BIG_FIRST: RunTimeEndian = RunTimeEndian::Big;

/// What a conversion answers that isn't as it should be.
const WRONG: ConvertError = ConvertError::UnsupportedOperation;

const NO_UNIT: ConvertError = ConvertError::Read(ReadError::MissingSplitUnit);

const ROWS: &[Row] = &[
    (
        "a function",
        LITTLE,
        (&SKELETON, &FUNCTION, None, 1, Ok(&WHOLE_FUNCTION)),
    ),
    (
        "the other order of bytes",
        BIG_FIRST,
        (&BIG_SKELETON, &BIG_FUNCTION, None, 1, Ok(&BIG_WHOLE)),
    ),
    (
        "the skeleton's version",
        LITTLE,
        (&OLD, &FUNCTION, None, 1, Ok(&OLD_FUNCTION)),
    ),
    (
        "a version without types of units",
        LITTLE,
        (&SKELETON, &OLD_SPLIT, None, 1, Ok(&WHOLE_FUNCTION)),
    ),
    (
        "a root alone",
        LITTLE,
        (&WITH_ENTRY, &SPLIT_ROOT, None, 2, Ok(&ALONE)),
    ),
    (
        "ids behind the skeleton's",
        LITTLE,
        (&WITH_ENTRY, &TYPED, None, 2, Ok(&WHOLE_TYPED)),
    ),
    (
        "addresses by the skeleton's base",
        LITTLE,
        (&BASED, &INDEXED, None, 1, Ok(&ADDRESSED)),
    ),
    (
        "files of the skeleton's program",
        LITTLE,
        (&LINES, &IN_FILE, None, 2, Ok(&WHOLE_IN_FILE)),
    ),
];

const FILTERED: &[Row] = &[
    (
        "what a filter keeps",
        LITTLE,
        (&WITH_ENTRY, &TYPED, Some((3, &[27])), 2, Ok(&WHOLE_TYPED)),
    ),
    (
        "one entry",
        LITTLE,
        (&WITH_ENTRY, &TYPED, Some((3, &[21])), 2, Ok(&ONE_TYPE)),
    ),
    (
        "nothing but the root",
        LITTLE,
        (&WITH_ENTRY, &TYPED, Some((3, &[])), 2, Ok(&ALONE)),
    ),
    (
        "a type that a filter hasn't read",
        LITTLE,
        (
            &SKELETON,
            &TYPED_LAST,
            Some((2, &[24])),
            1,
            Err(ConvertError::InvalidUnitRef),
        ),
    ),
];

const FAULTS: &[Row] = &[
    ("no unit", LITTLE, (&SKELETON, &NONE, None, 1, Err(NO_UNIT))),
    (
        "no unit of a filter",
        LITTLE,
        (&SKELETON, &NONE, Some((1, &[])), 1, Err(NO_UNIT)),
    ),
    (
        "a header that is cut",
        LITTLE,
        (
            &SKELETON,
            &CUT,
            None,
            1,
            Err(ConvertError::Read(ReadError::UnexpectedEof)),
        ),
    ),
    (
        "an unknown shape",
        LITTLE,
        (
            &SKELETON,
            &UNKNOWN,
            None,
            1,
            Err(ConvertError::Read(ReadError::UnknownAbbreviation(9))),
        ),
    ),
    (
        "an unknown shape behind what a filter has read",
        LITTLE,
        (
            &SKELETON,
            &UNKNOWN,
            Some((1, &[21])),
            1,
            Err(ConvertError::Read(ReadError::UnknownAbbreviation(9))),
        ),
    ),
];

fn rows() -> &'static [Row] {
    ROWS
}

fn filtered() -> &'static [Row] {
    FILTERED
}

fn faults() -> &'static [Row] {
    FAULTS
}

/// The tables. Each stands behind a function, so that no other proof looks into it.
pub(crate) fn tables() -> [&'static [Row]; 3] {
    [rows(), filtered(), faults()]
}

/// A filter of the split unit of a file, which was asked for entries.
fn filter_of<'b>(
    alloc: Global,
    skeleton: UnitRef<'b, Slice<'static>>,
    file: &'b ReadDwarf<Slice<'static>>,
    asked: &Asked,
) -> ConvertResult<FilterUnitSection<'b, Slice<'static>>> {
    let mut filter = FilterUnitSection::new_split(alloc, file, skeleton)?;
    match ask(&mut filter, asked) {
        Ok(()) => Ok(filter),
        Err(error) => {
            drop(filter);
            Err(error)
        }
    }
}

/// Begins to put back the split unit of a file.
fn begin<'b>(
    alloc: Global,
    skeleton: &'b mut ConvertUnit<'_, Slice<'static>>,
    file: &'b ReadDwarf<Slice<'static>>,
    asked: Option<Asked>,
) -> ConvertResult<ConvertSplitUnitSection<'b, Slice<'static>>> {
    if skeleton.read_skeleton_unit.is_some() || skeleton.unit.is_written() {
        return Err(WRONG);
    }
    let Some(asked) = asked else {
        return skeleton.convert_split(file);
    };
    match filter_of(alloc, skeleton.read_unit, file, &asked) {
        Ok(filter) => skeleton.convert_split_with_filter(filter),
        Err(error) => Err(error),
    }
}

/// Whether the next entry has an id, if one is left; one that isn't kept has none.
fn has_next_id<'a>(
    unit: &mut ConvertUnit<'a, Slice<'static>>,
    entry: &mut ConvertUnitEntry<'a, Slice<'static>>,
    next: &mut usize,
) -> ConvertResult<bool> {
    let Some(Some(id)) = unit.read_entry(entry)? else {
        return Ok(true);
    };
    let is_next = id.index() == *next;
    *next = next.saturating_add(1);
    Ok(is_next)
}

/// Whether the entries of a unit that are left have the ids from one on.
fn are_numbered<'a>(
    unit: &mut ConvertUnit<'a, Slice<'static>>,
    entry: &mut ConvertUnitEntry<'a, Slice<'static>>,
    first: usize,
) -> ConvertResult<bool> {
    let mut next = first;
    for _ in 0..4 {
        if !has_next_id(unit, entry, &mut next)? {
            return Ok(false);
        }
    }
    Ok(true)
}

/// Whether the entries behind the root have the ids from one on.
fn has_ids(
    split: &mut ConvertSplitUnitSection<'_, Slice<'static>>,
    first: usize,
) -> ConvertResult<bool> {
    match split.read_unit() {
        Ok((mut unit, mut entry)) => {
            let are_numbered = are_numbered(&mut unit, &mut entry, first);
            drop(entry);
            drop(unit);
            are_numbered
        }
        Err(error) => Err(error),
    }
}

/// Converts the split unit.
fn convert(split: &mut ConvertSplitUnitSection<'_, Slice<'static>>) -> ConvertResult<()> {
    match split.read_unit() {
        Ok((mut unit, root)) => {
            let converted = convert_unit(&mut unit, root);
            drop(unit);
            converted
        }
        Err(error) => Err(error),
    }
}

/// Converts the split unit, if its entries have the ids from one on.
fn put_back(
    split: &mut ConvertSplitUnitSection<'_, Slice<'static>>,
    first: usize,
) -> ConvertResult<()> {
    match has_ids(split, first) {
        Ok(true) => convert(split),
        Ok(false) => Err(WRONG),
        Err(error) => Err(error),
    }
}

/// Puts the split unit of a file back into the unit of its skeleton.
fn rejoin(
    alloc: Global,
    skeleton: &mut ConvertUnit<'_, Slice<'static>>,
    file: &ReadDwarf<Slice<'static>>,
    asked: Option<Asked>,
    first: usize,
) -> ConvertResult<()> {
    match begin(alloc, skeleton, file, asked) {
        Ok(mut split) => {
            let put = put_back(&mut split, first);
            drop(split);
            put
        }
        Err(error) => Err(error),
    }
}

/// Puts a split unit back into the first unit of its skeleton's file.
fn rejoin_first(
    alloc: Global,
    section: &mut ConvertUnitSection<'_, Slice<'static>>,
    file: &ReadDwarf<Slice<'static>>,
    row: Splitting,
) -> ConvertResult<()> {
    match section.read_unit() {
        Ok(Some((mut unit, root))) => {
            drop(root);
            let put = rejoin(alloc, &mut unit, file, row.2, row.3);
            drop(unit);
            put
        }
        Ok(None) => Err(WRONG),
        Err(error) => Err(error),
    }
}

/// What a skeleton's file becomes with its split unit.
fn joined(
    alloc: Global,
    endian: RunTimeEndian,
    row: Splitting,
    dwarf: &mut Dwarf,
) -> ConvertResult<()> {
    let read = sections_of(row.0, endian);
    let file = sections_of(row.1, endian);
    match dwarf.convert(&read) {
        Ok(mut section) => {
            let put = rejoin_first(alloc, &mut section, &file, row);
            drop(section);
            put
        }
        Err(error) => Err(error),
    }
}

/// Puts a split unit back, and writes what comes of it.
pub(crate) fn write_split(
    alloc: Global,
    endian: RunTimeEndian,
    row: Splitting,
    dwarf: &mut Dwarf,
    sections: &mut Written,
) -> Result<Told> {
    match (joined(alloc, endian, row, dwarf), row.4) {
        (Ok(()), Ok(file)) => {
            let refused = refusal(dwarf, sections);
            Ok((refused, holds(sections, file)))
        }
        (Ok(()), Err(_)) => Ok((None, false)),
        (Err(error), wanted) => Ok((None, wanted.err() == Some(error))),
    }
}
