//! The codes of a unit's entries.

ghost use Rattle.std.specs.Prelude.{◌≡◌, ◌++◌, [], length, map, IfOk, OnOk, IfErr};
ghost use Rattle.dw_base.specs.declared.error.Error.TheVariants.{NoMemory};
ghost use Rattle.dw_entries.specs.Tree.{IsIn, AreIn, mark_of, marks, IsTagged, AreTagged};
ghost use Rattle.dw_tree.specs.Coded.{with_mark, shapes_of, code_at};

use crate::shape::abbreviation_of;
use dw_abbrev::{AbbreviationTable, AttributeSpecification};
use dw_base::{Encoding, Result};
use dw_entries::{DebuggingInformationEntry, Item};
use std::alloc::Global;
use std::mem;

/// The abbreviations of a unit's entries, and the code of each item.
#[derive(Drop)]
pub(crate) struct Codes {
    pub(crate) table: AbbreviationTable,
    pub(crate) codes: Vec<u64>,
}

/// The code of one item, whose abbreviation is added if none equals it. The list is used again for
/// each.
fn code_for(
    alloc: Global,
    encoding: Encoding,
    entries: &[DebuggingInformationEntry],
    item: Item,
    table: &mut AbbreviationTable,
    used: &mut Vec<AttributeSpecification>,
) -> Result<u64>
    requires within { IsIn (length entries.now) (mark_of item) }
    requires tagged { IsTagged entries.now (mark_of item) }
    ensures code { IfOk result (λ c. c ≡ code_at encoding entries.now table.old (mark_of item)) }
    ensures table { OnOk result
        (table.new ≡ with_mark encoding entries.now table.old (mark_of item)) }
    ensures err { IfErr result (λ e. e ≡ NoMemory) }
{
    match item {
        Item::Open(index) => {
            let list = mem::replace(used, Vec::new(alloc));
            let abbreviation = abbreviation_of(encoding, &entries[index], list)?;
            let code = table.add_copy(&abbreviation)?;
            *used = abbreviation.into_attributes();
            Ok(code)
        }
        Item::Null => Ok(0),
    }
}

/// Adds the code of each item, and to a table the abbreviations that it lacks.
fn add_codes(
    alloc: Global,
    encoding: Encoding,
    entries: &[DebuggingInformationEntry],
    items: &[Item],
    table: &mut AbbreviationTable,
    codes: &mut Vec<u64>,
) -> Result<()>
    requires within { AreIn (length entries.now) (marks items.now) }
    requires tagged { AreTagged entries.now (marks items.now) }
    ensures table { OnOk result
        (table.new ≡ shapes_of encoding entries.now table.old (marks items.now)) }
    ensures codes { OnOk result
        (codes.new.items ≡ codes.old.items ++ map
        (code_at encoding entries.now (shapes_of encoding entries.now table.old (marks items.now)))
        (marks items.now)) }
    ensures err { IfErr result (λ e. e ≡ NoMemory) }
{
    let mut used = Vec::new(alloc);
    for item in items {
        let code = code_for(alloc, encoding, entries, *item, table, &mut used)?;
        codes.push(code)?;
    }
    Ok(())
}

/// Gives each entry its code; those of one shape share it.
pub(crate) fn assign_codes(
    alloc: Global,
    encoding: Encoding,
    entries: &[DebuggingInformationEntry],
    items: &[Item],
) -> Result<Codes>
    requires within { AreIn (length entries.now) (marks items.now) }
    requires tagged { AreTagged entries.now (marks items.now) }
    ensures table { IfOk result
        (λ c. c.table ≡ shapes_of encoding entries.now [] (marks items.now)) }
    ensures codes { IfOk result
        (λ c. c.codes.items ≡ map
        (code_at encoding entries.now (shapes_of encoding entries.now [] (marks items.now)))
        (marks items.now)) }
    ensures err { IfErr result (λ e. e ≡ NoMemory) }
{
    let mut table = AbbreviationTable::new(alloc);
    let mut codes = Vec::with_capacity(alloc, items.len())?;
    add_codes(alloc, encoding, entries, items, &mut table, &mut codes)?;
    Ok(Codes { table, codes })
}
