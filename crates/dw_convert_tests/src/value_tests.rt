//! Values of every kind and lists of every kind of item in every version, format, size of addresses
//! and order of bytes (DWARF 5, 2.6.2, 2.17.3 and 7.5.4 to 7.5.6).

use crate::entries::moved;
use crate::layouts::{LAYOUTS, Layout, Slice, numbered};
use crate::owned::drop;
use crate::reading::{dwarf_of, first};
use crate::seen::{seen, seen_list};
use crate::tables::{Tables, have, none};
use crate::values::{VALUES, list, named, row, wanted};
use crate::writing::{Written, texts_of, write};
use dw_base::DwAt;
use dw_convert::{NoConvertDebugInfoRef, convert_attribute_value, convert_attributes};
use dw_entries::AttributeValue;
use dw_read::{Attribute, DebuggingInformationEntry};
use dw_read_units::UnitRef;
use dw_sources::ConvertResult;
use dw_writer::{EndianVec, Sections};
use std::alloc::Global;

type Root<'a> = DebuggingInformationEntry<Slice<'a>>;

/// What an attribute becomes.
fn converted(
    alloc: Global,
    unit: UnitRef<'_, Slice<'_>>,
    attribute: &Attribute<Slice<'_>>,
    tables: &mut Tables,
) -> ConvertResult<AttributeValue> {
    convert_attribute_value(
        alloc,
        unit,
        &[],
        attribute,
        &moved,
        &NoConvertDebugInfoRef,
        &mut tables.strings,
        &mut tables.line_strings,
        &mut tables.ranges,
        &mut tables.locations,
    )
}

/// What the attributes of an entry become.
fn all_converted(
    alloc: Global,
    unit: UnitRef<'_, Slice<'_>>,
    attributes: &[Attribute<Slice<'_>>],
    tables: &mut Tables,
) -> ConvertResult<Vec<(DwAt, AttributeValue)>> {
    convert_attributes(
        alloc,
        unit,
        &[],
        attributes,
        &moved,
        &NoConvertDebugInfoRef,
        &mut tables.strings,
        &mut tables.line_strings,
        &mut tables.ranges,
        &mut tables.locations,
    )
}

/// Whether a value is what the value of a number becomes.
fn is_wanted(alloc: Global, number: usize, version: u16, value: &AttributeValue) -> bool {
    match wanted(alloc, number, version) {
        Ok(wanted) => {
            let is_same = value.is_same(&wanted);
            drop(wanted);
            is_same
        }
        Err(_) => false,
    }
}

/// Whether an attribute becomes the value of a number.
fn becomes(
    alloc: Global,
    unit: UnitRef<'_, Slice<'_>>,
    attribute: &Attribute<Slice<'_>>,
    number: usize,
) -> bool {
    let version = unit.encoding().version;
    let mut tables = none(alloc);
    let is_value = match converted(alloc, unit, attribute, &mut tables) {
        Ok(value) => {
            let is_value = is_wanted(alloc, number, version, &value);
            drop(value);
            is_value
        }
        Err(_) => false,
    };
    let is_named = have(alloc, &tables, named(number), version);
    drop(tables);
    is_value && is_named
}

/// Whether there is one value, which is what the value of a number becomes.
fn are_wanted(
    alloc: Global,
    number: usize,
    version: u16,
    values: &[(DwAt, AttributeValue)],
) -> bool {
    match values {
        [(_, value)] => is_wanted(alloc, number, version, value),
        _ => false,
    }
}

/// Whether the attributes of an entry become the value of a number alone.
fn all_become(
    alloc: Global,
    unit: UnitRef<'_, Slice<'_>>,
    attributes: &[Attribute<Slice<'_>>],
    number: usize,
) -> bool {
    let version = unit.encoding().version;
    let mut tables = none(alloc);
    let are_values = match all_converted(alloc, unit, attributes, &mut tables) {
        Ok(values) => are_wanted(alloc, number, version, &values),
        Err(_) => false,
    };
    let are_named = have(alloc, &tables, named(number), version);
    drop(tables);
    are_values && are_named
}

/// Whether an attribute is read as the one of a number: its name, its value by its form, and a list
/// by its name too.
fn is_read(attribute: &Attribute<Slice<'_>>, number: usize, layout: Layout) -> bool {
    let (name, wanted) = row(number, layout.encoding);
    attribute.name() == name
        && seen(&attribute.raw_value()) == wanted
        && seen_list(&attribute.value()) == list(number, layout.encoding)
}

/// Whether a root has the attribute of a number, which becomes its value, also with all attributes.
fn holds(
    alloc: Global,
    unit: UnitRef<'_, Slice<'_>>,
    root: &Root<'_>,
    number: usize,
    layout: Layout,
) -> bool {
    match root.attrs.first() {
        Some(attribute) => {
            is_read(attribute, number, layout)
                && becomes(alloc, unit, attribute, number)
                && all_become(alloc, unit, &root.attrs, number)
        }
        None => false,
    }
}

/// Reads the root of a unit, and tells whether it can be read.
fn reads_root<'a>(alloc: Global, unit: UnitRef<'_, Slice<'a>>, root: &mut Root<'a>) -> bool {
    match unit.entries_raw(alloc, None) {
        Ok(mut rows) => rows.read_entry(root).is_ok(),
        Err(_) => false,
    }
}

/// Whether the root of a unit has the value of a number.
fn root_holds(alloc: Global, unit: UnitRef<'_, Slice<'_>>, number: usize, layout: Layout) -> bool {
    let mut root = DebuggingInformationEntry::new(alloc);
    reads_root(alloc, unit, &mut root) && holds(alloc, unit, &root, number, layout)
}

/// Whether the first unit of sections has the value of a number at its root.
fn unit_holds(alloc: Global, sections: &Written, number: usize, layout: Layout) -> bool {
    let dwarf = dwarf_of(&texts_of(sections), layout.endian);
    match first(alloc, &dwarf) {
        Ok(unit) => {
            let both = UnitRef {
                dwarf: &dwarf,
                unit: &unit,
            };
            let is_held = root_holds(alloc, both, number, layout);
            drop(unit);
            is_held
        }
        Err(_) => false,
    }
}

/// Whether a value of a number is written, read and comes back.
fn comes_back(alloc: Global, number: usize, layout: Layout) -> bool {
    match Sections::new(alloc, EndianVec::new(alloc, layout.endian)) {
        Ok(mut sections) => {
            let is_written = write(alloc, number, layout, &mut sections);
            let is_held = is_written && unit_holds(alloc, &sections, number, layout);
            drop(sections);
            is_held
        }
        Err(_) => false,
    }
}

/// The first layout in which something else comes of a value.
fn first_missed(alloc: Global, number: usize) -> Option<usize> {
    for index in 0..LAYOUTS {
        if !comes_back(alloc, number, numbered(index)) {
            return Some(index);
        }
    }
    None
}

#[test]
fn values_come_back(rt: HostRuntime) {
    for number in 0..VALUES {
        assert!(rt;
            first_missed(rt.alloc(), number).is_none(),
            "of value {number}"
        );
    }
}
