//! Reads a unit: its table, its root, and what the root says of other sections.

ghost use Rattle.std.specs.Prelude.{◌≡◌, IfOk, IfErr, map};
ghost use Rattle.dw_read.specs.Reading.{left};
ghost use Rattle.dw_read.specs.Took.{option_of};
ghost use Rattle.dw_read_units.specs.Roots.{named_in, last_value};
ghost use Rattle.dw_read_units.specs.UnitReads.{IsRoot, MissesRoot, IsUnit, MissesUnit};
ghost use Rattle.dw_read_units.specs.Texts.{text_or_none, indexed_text, root_text, unit_id};

use crate::dwarf::{Dwarf, Unit};
use crate::lookup::{indexed_word, section_from, text_from};
use crate::root::{last_value, line_program, low_pc, old_id, root_bases};
use dw_base::constants::{DW_AT_comp_dir, DW_AT_name, DW_UT_skeleton, DW_UT_split_compile};
use dw_base::{DwAt, DwoId, Format};
use dw_read::{
    Abbreviations, Attribute, AttributeValue, DebuggingInformationEntry, EntriesRaw, ReadError,
    ReadResult, Reader, UnitHeader,
};
use std::alloc::Global;

impl<R: Reader> Dwarf<R> {
    /// Reads a unit's table and its root. It allocates as much as was read of them.
    pub fn unit(&self, alloc: Global, header: UnitHeader<R>) -> ReadResult<Unit<R>>
        ensures ok { IfOk result (IsUnit R.reading self.now header) }
        ensures err { IfErr result (MissesUnit R.reading self.now header) }
    {
        let mut tables = section_from(&self.debug_abbrev, header.debug_abbrev_offset().0);
        let abbreviations = Abbreviations::parse(alloc, &mut tables)?;
        let root = read_root(alloc, &header, &abbreviations)?;
        let attrs = root.attrs.as_slice();
        let encoding = header.encoding();
        let bases = root_bases(&header, attrs);
        let low_pc = low_pc(&self.debug_addr, bases.addr, encoding.address_size, attrs)?;
        let name = root_text(self, bases.str_offsets, encoding.format, attrs, DW_AT_name);
        let directory = root_text(
            self,
            bases.str_offsets,
            encoding.format,
            attrs,
            DW_AT_comp_dir,
        );
        let line_program = line_program(attrs);
        let dwo_id = unit_id(&header, attrs);
        Ok(Unit {
            header,
            abbreviations,
            name,
            comp_dir: directory,
            low_pc,
            str_offsets_base: bases.str_offsets,
            addr_base: bases.addr,
            loclists_base: bases.loclists,
            rnglists_base: bases.rnglists,
            line_program,
            dwo_id,
        })
    }
}

/// Reads the root of a unit.
fn read_root<R: Reader>(
    alloc: Global,
    header: &UnitHeader<R>,
    abbreviations: &Abbreviations,
) -> ReadResult<DebuggingInformationEntry<R>>
    ensures ok { IfOk result (IsRoot R.reading header.now abbreviations.now) }
    ensures err { IfErr result (MissesRoot R.reading header.now abbreviations.now) }
{
    let mut entries = EntriesRaw::new(header, abbreviations);
    let mut root = DebuggingInformationEntry::new(alloc);
    if entries.read_entry(&mut root)? {
        Ok(root)
    } else {
        Err(ReadError::MissingUnitDie)
    }
}

/// The id of the header, or of the root below version 5.
fn unit_id<R: Reader>(header: &UnitHeader<R>, attrs: &[Attribute<R>]) -> Option<DwoId>
    ensures { result ≡ unit_id header.now.fields (map (named_in R.reading) attrs.now) }
{
    let unit_type = header.unit_type().0;
    if unit_type == DW_UT_skeleton.0 || unit_type == DW_UT_split_compile.0 {
        if let Some(id) = header.identity() {
            return Some(DwoId(id));
        }
    }
    old_id(attrs)
}

/// The text at an offset of a section, where it can be read.
fn text_or_none<R: Reader>(section: &R, offset: usize) -> Option<R>
    ensures { option_of (λ r. left (R.reading r)) result
        ≡ text_or_none (R.reading section.now) offset }
{
    match text_from(section, offset) {
        Ok(text) => Some(text),
        Err(_) => None,
    }
}

/// The text of an index, where it can be read.
fn indexed_text<R: Reader>(dwarf: &Dwarf<R>, base: usize, index: u64, format: Format) -> Option<R>
    ensures { option_of (λ r. left (R.reading r)) result ≡ indexed_text
        (R.reading dwarf.now.debug_str_offsets) (R.reading dwarf.now.debug_str)
        base index format }
{
    match indexed_word(&dwarf.debug_str_offsets, base, index, format) {
        Ok(offset) => text_or_none(&dwarf.debug_str, offset),
        Err(_) => None,
    }
}

/// The text that the root's attribute of a name leads to, where it can be read.
fn root_text<R: Reader>(
    dwarf: &Dwarf<R>,
    base: usize,
    format: Format,
    attrs: &[Attribute<R>],
    name: DwAt,
) -> Option<R>
    ensures { option_of (λ r. left (R.reading r)) result ≡ root_text
        (R.reading dwarf.now.debug_str) (R.reading dwarf.now.debug_line_str)
        (R.reading dwarf.now.debug_str_offsets) base format
        (last_value name.0 name.0 (map (named_in R.reading) attrs.now)) }
{
    match last_value(attrs, name, name) {
        Some(AttributeValue::String(text)) => Some(text),
        Some(AttributeValue::DebugStrRef(place)) => text_or_none(&dwarf.debug_str, place.0),
        Some(AttributeValue::DebugLineStrRef(place)) => {
            text_or_none(&dwarf.debug_line_str, place.0)
        }
        Some(AttributeValue::DebugStrOffsetsIndex(index)) => {
            indexed_text(dwarf, base, index, format)
        }
        _ => None,
    }
}
