//! All rows of a file's units read into one entry, which nothing is kept of but counts.

use dw_read::{
    Attribute, AttributeValue, DebuggingInformationEntry, ReadResult, Reader, UnitHeader,
};
use dw_read_units::{Dwarf, UnitRef};
use std::alloc::Global;

/// What was read.
#[derive(Clone, Copy)]
pub struct Counts {
    pub entries: u64,
    pub attributes: u64,
    /// Attributes that name an entry of the same unit.
    pub references: u64,
}

/// How many of the values name an entry of the same unit.
fn references<R: Reader>(attributes: &[Attribute<R>]) -> u64 {
    let mut count = 0u64;
    for attribute in attributes {
        if let AttributeValue::UnitRef(_) = attribute.value() {
            count = count.saturating_add(1);
        }
    }
    count
}

/// The counts with those of an entry.
fn with_entry<R: Reader>(counts: Counts, attributes: &[Attribute<R>]) -> Counts {
    Counts {
        entries: counts.entries.saturating_add(1),
        attributes: counts.attributes.saturating_add(attributes.len() as u64),
        references: counts.references.saturating_add(references(attributes)),
    }
}

/// The counts with those of the rows of a unit. A row takes a byte at least.
fn with_rows<R: Reader>(
    alloc: Global,
    unit: UnitRef<'_, R>,
    entry: &mut DebuggingInformationEntry<R>,
    before: Counts,
) -> ReadResult<Counts> {
    let mut rows = unit.entries_raw(alloc, None)?;
    let mut counts = before;
    for _ in 0..unit.dwarf.debug_info.len() {
        if rows.is_empty() {
            break;
        }
        if rows.read_entry(entry)? {
            counts = with_entry(counts, entry.attrs.as_slice());
        }
    }
    Ok(counts)
}

/// The counts with those of the unit of a header.
fn with_unit<R: Reader>(
    alloc: Global,
    dwarf: &Dwarf<R>,
    header: UnitHeader<R>,
    entry: &mut DebuggingInformationEntry<R>,
    before: Counts,
) -> ReadResult<Counts> {
    let unit = dwarf.unit(alloc, header)?;
    with_rows(alloc, UnitRef { dwarf, unit: &unit }, entry, before)
}

/// The counts of all units.
pub fn counts_of<R: Reader>(alloc: Global, dwarf: &Dwarf<R>) -> ReadResult<Counts> {
    let mut headers = dwarf.units();
    let mut entry = DebuggingInformationEntry::new(alloc);
    let mut counts = Counts {
        entries: 0,
        attributes: 0,
        references: 0,
    };
    for _ in 0..dwarf.debug_info.len() {
        let Some(header) = headers.next()? else {
            break;
        };
        counts = with_unit(alloc, dwarf, header, &mut entry, counts)?;
    }
    Ok(counts)
}
