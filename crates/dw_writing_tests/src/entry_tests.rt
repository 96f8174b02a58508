//! Entries and their tree, and copies of what owns memory.

use crate::programs::{Name, string_of};
use crate::trees::Step::{Add, AddReserved, Reserve, Room, Set};
use crate::trees::{Sample, Step, are_copied, has_names, is_flattened, take_all, value_of};
use dw_base::constants::{
    DW_AT_byte_size, DW_AT_location, DW_AT_loclists_base, DW_AT_name, DW_AT_rnglists_base,
    DW_AT_stmt_list, DW_TAG_base_type, DW_TAG_variable,
};
use dw_base::{DwAt, Result};
use dw_entries::{Entries, Item, OwnLists, OwnParts};
use std::alloc::Global;
use std::test::Fail;

/// A root with a variable and behind it a base type, and a base type within the variable.
const TREE: &[Step] = &[
    Add(0, DW_TAG_variable),
    Reserve,
    Add(1, DW_TAG_base_type),
    AddReserved(2, 0, DW_TAG_base_type),
    Room(0, 2),
    Set(0, DW_AT_name, Sample::Text),
    Set(0, DW_AT_loclists_base, Sample::Number(9)),
    Set(0, DW_AT_byte_size, Sample::Number(4)),
    Set(1, DW_AT_location, Sample::Conversion(2)),
];

const AS_BUILT: [Item; 6] = [
    Item::Open(0),
    Item::Open(1),
    Item::Open(3),
    Item::Null,
    Item::Open(2),
    Item::Null,
];

const BASE_TYPES_FIRST: [Item; 6] = [
    Item::Open(0),
    Item::Open(2),
    Item::Open(1),
    Item::Open(3),
    Item::Null,
    Item::Null,
];

/// What the unit of the tree has beside its entries.
const PARTS: OwnParts = OwnParts {
    line_program: true,
    lists: Some(OwnLists {
        ranges: true,
        locations: true,
    }),
};

/// The base that stood keeps its position, and what the root didn't name comes last.
const ROOT_NAMES: [DwAt; 5] = [
    DW_AT_name,
    DW_AT_loclists_base,
    DW_AT_byte_size,
    DW_AT_stmt_list,
    DW_AT_rnglists_base,
];

/// Tells that the tree is built and copied as these tables tell.
fn is_built(alloc: Global, entries: &mut Entries) -> Result<bool> {
    take_all(alloc, entries, TREE)?;
    Ok(
        is_flattened(alloc, entries, &AS_BUILT)
            && are_copied(entries, 0)?
            && are_copied(entries, 1)?,
    )
}

/// Tells that it is settled so.
fn is_settled(alloc: Global, entries: &mut Entries) -> Result<bool> {
    entries.settle(PARTS)?;
    Ok(is_flattened(alloc, entries, &BASE_TYPES_FIRST) && has_names(entries, 0, &ROOT_NAMES))
}

/// The answers to both, of a new tree.
fn answers(alloc: Global) -> Result<[Result<bool>; 2]> {
    let mut entries = Entries::new(alloc)?;
    let is_built = is_built(alloc, &mut entries);
    Ok([is_built, is_settled(alloc, &mut entries)])
}

#[test]
fn a_tree_is_settled(rt: HostRuntime) {
    assert_eq!(rt; answers(rt.alloc()), Ok([Ok(true); 2]));
}

const VALUES: [Sample; 4] = [
    Sample::Number(300),
    Sample::Text,
    Sample::Block,
    Sample::Conversion(1),
];

/// Tells that the copy of a value is the same.
fn is_copied(alloc: Global, sample: &Sample) -> Result<bool> {
    let value = value_of(alloc, sample)?;
    Ok(value.try_clone()?.is_same(&value))
}

const NAMES: [Name; 3] = [Name::A, Name::StringAt(1), Name::LineStringAt(1)];

/// Tells that the copy of a string of line programs equals it.
fn is_name_copied(alloc: Global, name: &Name) -> Result<bool> {
    let string = string_of(alloc, name)?;
    Ok(string.try_clone()? == string)
}

#[test]
fn copies_are_the_same(rt: HostRuntime) -> std::result::Result<(), Fail> {
    for (i, sample) in VALUES.iter().enumerate() {
        assert!(rt; is_copied(rt.alloc(), sample)?, "value {i}");
    }
    for (i, name) in NAMES.iter().enumerate() {
        assert!(rt; is_name_copied(rt.alloc(), name)?, "name {i}");
    }
    Ok(())
}
