//! Tables of lists as plain values, so that other tables can hold them, and how they are written.

use crate::expressions::Places;
use crate::list_calls::Call::{self, Op};
use crate::list_calls::expression_of;
use crate::owned::drop;
use dw_base::constants::DW_OP_nop;
use dw_base::{
    Encoding, LocationListId, LocationListsOffset, RangeListId, RangeListsOffset, Result,
    RunTimeEndian,
};
use dw_expr::Expression;
use dw_lists::{Location, LocationList, LocationListTable, Range, RangeList, RangeListTable};
use dw_writer::{Bytes, DebugInfoFixup, RelocVec, Relocation, Sections, Writer};
use std::alloc::Global;

/// A writer that records relocations.
type Recorder = RelocVec<RunTimeEndian>;

/// How a table is written.
#[derive(Clone, Copy)]
pub struct Way {
    pub encoding: Encoding,
    pub endian: RunTimeEndian,
    pub has_base: bool,
    /// Where the unit's entries stand, in tables of locations.
    pub places: Option<Places>,
}

/// The calls that make an expression, or one of more bytes than a list has room for up to
/// version 4.
#[derive(Clone, Copy)]
pub enum Body {
    Of(&'static [Call]),
    Long,
}

pub const EMPTY: Body = Body::Of(&[]);

/// One byte, 0x96.
pub const NOP: Body = Body::Of(&[Op(DW_OP_nop)]);

/// The addresses of an item, which the default location has none of, and its expression.
pub type Item = (Option<Range>, Body);

/// Lists that a table has.
#[derive(Clone, Copy)]
pub enum Lists {
    Ranges(&'static [&'static [Range]]),
    Locations(&'static [&'static [Item]]),
    /// Ten thousand location lists of a pair with an operation.
    Many,
}

/// How many lists a table has, where its first offset entry stands, and its last list.
pub type Answer = (usize, Option<usize>, Option<usize>);

/// Adds a list of ranges, and answers its id.
fn add_ranges(alloc: Global, table: &mut RangeListTable, items: &[Range]) -> Result<usize> {
    let list = RangeList(Vec::from_slice(alloc, items)?);
    Ok(table.add(list)?.index())
}

/// Adds lists, and answers the id of the last.
pub fn add_range_lists(
    alloc: Global,
    table: &mut RangeListTable,
    lists: &[&[Range]],
) -> Result<Option<usize>> {
    let mut last = None;
    for items in lists {
        last = Some(add_ranges(alloc, table, items)?);
    }
    Ok(last)
}

/// Writes a table.
fn write_range_table<W: Writer>(
    table: &RangeListTable,
    sections: &mut Sections<W>,
    way: Way,
) -> Result<Answer> {
    let offsets = table.write(sections, way.encoding, way.has_base)?;
    let last = RangeListId(table.count().saturating_sub(1));
    let place = match offsets.get(last) {
        Some(RangeListsOffset(place)) => Some(place),
        None => None,
    };
    Ok((table.count(), offsets.base(), place))
}

/// Fills a table of ranges, and writes it.
fn fill_ranges<W: Writer>(
    alloc: Global,
    table: &mut RangeListTable,
    lists: &[&[Range]],
    sections: &mut Sections<W>,
    way: Way,
) -> Result<Answer> {
    add_range_lists(alloc, table, lists)?;
    write_range_table(table, sections, way)
}

/// The same of a new table.
fn write_ranges<W: Writer>(
    alloc: Global,
    lists: &[&[Range]],
    sections: &mut Sections<W>,
    way: Way,
) -> Result<Answer> {
    let mut table = RangeListTable::new(alloc);
    let answer = fill_ranges(alloc, &mut table, lists, sections, way);
    drop(table);
    answer
}

fn expression(alloc: Global, body: Body) -> Result<Expression> {
    match body {
        Body::Of(calls) => expression_of(alloc, calls),
        Body::Long => Expression::raw(alloc, Bytes::from(vec![in alloc; 0; 0x1_0000]?)),
    }
}

fn location(range: Option<Range>, expression: Expression) -> Location {
    match range {
        Some(Range::BaseAddress { address }) => Location::BaseAddress { address },
        Some(Range::OffsetPair { begin, end }) => Location::OffsetPair {
            begin,
            end,
            expression,
        },
        Some(Range::StartEnd { begin, end }) => Location::StartEnd {
            begin,
            end,
            expression,
        },
        Some(Range::StartLength { begin, length }) => Location::StartLength {
            begin,
            length,
            expression,
        },
        None => Location::DefaultLocation { expression },
    }
}

fn push_locations(alloc: Global, list: &mut Vec<Location>, items: &[Item]) -> Result<()> {
    for (range, body) in items {
        let expression = expression(alloc, *body)?;
        list.push(location(*range, expression))?;
    }
    Ok(())
}

/// Adds a list of locations, and answers its id.
fn add_locations(alloc: Global, table: &mut LocationListTable, items: &[Item]) -> Result<usize> {
    let mut list = LocationList(Vec::new(alloc));
    push_locations(alloc, &mut list.0, items)?;
    Ok(table.add(list)?.index())
}

/// Adds lists, and answers the id of the last.
pub fn add_location_lists(
    alloc: Global,
    table: &mut LocationListTable,
    lists: &[&[Item]],
) -> Result<Option<usize>> {
    let mut last = None;
    for items in lists {
        last = Some(add_locations(alloc, table, items)?);
    }
    Ok(last)
}

/// The offsets of one byte.
fn pair(begin: u64) -> Range {
    Range::OffsetPair {
        begin,
        end: begin.saturating_add(1),
    }
}

fn add_many(alloc: Global, table: &mut LocationListTable) -> Result<()> {
    for begin in 0..10_000 {
        add_locations(alloc, table, &[(Some(pair(begin)), NOP)])?;
    }
    Ok(())
}

/// Writes a table.
fn write_location_table<W: Writer>(
    table: &LocationListTable,
    sections: &mut Sections<W>,
    way: Way,
) -> Result<Answer> {
    let offsets = table.write(sections, way.encoding, way.has_base, way.places.as_ref())?;
    let last = LocationListId(table.count().saturating_sub(1));
    let place = match offsets.get(last) {
        Some(LocationListsOffset(place)) => Some(place),
        None => None,
    };
    Ok((table.count(), offsets.base(), place))
}

/// Adds what a table of locations has.
fn fill(alloc: Global, table: &mut LocationListTable, lists: Lists) -> Result<()> {
    match lists {
        Lists::Locations(lists) => {
            add_location_lists(alloc, table, lists)?;
            Ok(())
        }
        _ => add_many(alloc, table),
    }
}

/// Fills a table of locations, and writes it.
fn fill_locations<W: Writer>(
    alloc: Global,
    table: &mut LocationListTable,
    lists: Lists,
    sections: &mut Sections<W>,
    way: Way,
) -> Result<Answer> {
    fill(alloc, table, lists)?;
    write_location_table(table, sections, way)
}

/// The same of a new table.
fn write_locations<W: Writer>(
    alloc: Global,
    lists: Lists,
    sections: &mut Sections<W>,
    way: Way,
) -> Result<Answer> {
    let mut table = LocationListTable::new(alloc);
    let answer = fill_locations(alloc, &mut table, lists, sections, way);
    drop(table);
    answer
}

/// Writes a table of lists.
fn write<W: Writer>(
    alloc: Global,
    lists: Lists,
    sections: &mut Sections<W>,
    way: Way,
) -> Result<Answer> {
    match lists {
        Lists::Ranges(lists) => write_ranges(alloc, lists, sections, way),
        _ => write_locations(alloc, lists, sections, way),
    }
}

/// What a section has at its begin, how many bytes follow, its relocations, and at most one
/// reference that is left open there.
pub type Text = (
    &'static [u8],
    usize,
    &'static [Relocation],
    Option<DebugInfoFixup>,
);

/// Lists, how they are written, and what is to be written, or why they are refused.
pub type Row = (Lists, Way, Result<(Answer, Text)>);

/// Whether a section has these bytes and relocations.
fn has(section: &Recorder, text: Text) -> bool {
    let bytes = section.slice();
    bytes.starts_with(text.0)
        && Some(bytes.len()) == text.0.len().checked_add(text.1)
        && section.relocations() == text.2
}

/// Whether the section of a version, and of a kind of lists, alone has this text.
fn is_there(sections: &Sections<Recorder>, lists: Lists, version: u16, text: Text) -> bool {
    let (old, new) = match lists {
        Lists::Ranges(_) => (&sections.debug_ranges.0, &sections.debug_rnglists.0),
        _ => (&sections.debug_loc.0, &sections.debug_loclists.0),
    };
    let (full, empty) = if version == 5 { (new, old) } else { (old, new) };
    has(full, text) && has(empty, NOTHING)
}

pub const NOTHING: Text = (&[], 0, &[], None);

/// Whether the section of a version alone has at most this reference left open.
fn leaves_open(sections: &Sections<Recorder>, version: u16, open: Option<DebugInfoFixup>) -> bool {
    let old = &sections.debug_loc_fixups;
    let new = &sections.debug_loclists_fixups;
    let (full, empty) = if version == 5 { (new, old) } else { (old, new) };
    full.get(0) == open
        && full.get(1).is_none()
        && empty.is_empty()
        && sections.debug_info_fixups.is_empty()
}

/// What is answered of a row's lists, and whether its text is there.
pub fn write_row(alloc: Global, row: Row, text: Text) -> Result<(Result<Answer>, bool)> {
    let (lists, way, _) = row;
    let mut sections = Sections::new(alloc, RelocVec::new(alloc, way.endian))?;
    let answer = write(alloc, lists, &mut sections, way);
    let version = way.encoding.version;
    let is_right = is_there(&sections, lists, version, text)
        && leaves_open(&sections, version, text.3);
    drop(sections);
    Ok((answer, is_right))
}
