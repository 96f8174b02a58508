//! A compile unit with its entries, and the table of its abbreviations.

ghost use Rattle.std.specs.Prelude.{true, ◌≡◌, ◌≢◌, ◌≤◌, ℕ, length, map, IsTrue, OnOk, IfOk, IfErr};
ghost use Rattle.dw_base.specs.Numbers.{is_width};
ghost use Rattle.dw_writer.specs.Meaning.{IsSameWriter};
ghost use Rattle.dw_writer.specs.Sections.{SomeHasRisen, fault_sum};
ghost use Rattle.dw_entries.specs.Arena.{AreLinked};
ghost use Rattle.dw_entries.specs.Entries.{entry_at};
ghost use Rattle.dw_entries.specs.Tree.{AreIn, marks, preorder};
ghost use Rattle.dw_tree.specs.AddedTree.{AddsUnit, AddsPlacedTree, AddsTree, TreeRefused, KeepsAllButUnit};
ghost use Rattle.dw_tree.specs.Causes.{Because, Refused, Is, TreeFails};
ghost use Rattle.dw_tree.specs.Coded.{code_at};
ghost use Rattle.dw_tree.specs.PlacedTree.{ArePlaced, IsPlacedTree};
ghost use Rattle.dw_tree.specs.Places.{placement_of, known_at, FitsWords};
ghost use Rattle.dw_lists.specs.Tables.{IsReadAgain, offsets_from, locations_in, locations_of};
ghost use Rattle.dw_line.specs.Parts.{NoCause};
ghost use Rattle.dw_tree.specs.Elsewhere.{tree_tables};
ghost use Rattle.dw_tree.specs.Locations.{lists_part, lists_fail_in, DraftLocations, KeepsAllButLocations};
ghost use Rattle.dw_tree.specs.TargetsAt.{placement_at, tables_at, targets_at};
ghost use Rattle.dw_tree.specs.UnitFaults.{is_encodable, unit_fails};
ghost use Rattle.dw_tree.specs.Whole.{tree_shapes};
ghost use Rattle.dw_tree.specs.Written.{KeepsAllButTree};

use crate::body::write_items;
use crate::header::write_fields;
use crate::placed_tree::{PlacedTree, place_tree};
use crate::places::Places;
use crate::targets::{PartPlaces, Targets};
use dw_base::{Encoding, Result};
use dw_entries::{DebuggingInformationEntry, Item};
use dw_lists::{LocationListOffsets, LocationListTable};
use dw_strings::{LineStringTable, StringTable};
use dw_writer::{FixupList, Sections, Writer};
use std::alloc::Global;

/// Adds a unit with its entries. Its length is put in once the unit stands.
fn write_compile_unit<W: Writer>(
    encoding: Encoding,
    table: usize,
    entries: &[DebuggingInformationEntry],
    items: &[Item],
    codes: &[u64],
    targets: &Targets<'_>,
    w: &mut W,
    fixups: &mut FixupList,
) -> Result<()>
    requires width { IsTrue (is_width encoding.address_size) }
    requires within { AreIn (length entries.now) (marks items.now) }
    requires tree { marks items.now ≡ preorder entries.now }
    requires fit { FitsWords encoding.format (placement_at targets.now) }
    requires codes { codes.now
        ≡ map (code_at encoding entries.now (tree_shapes encoding entries.now)) (marks items.now) }
    ensures ok { OnOk result
        (AddsUnit (W.meaning w.old) (W.meaning w.new) fixups.old fixups.new encoding entries.now
        table (targets_at targets.now)) }
    ensures err { IfErr result
        (Refused (W.meaning w.old) (W.meaning w.new)
        (Is (unit_fails encoding entries.now table (targets_at targets.now)
        (W.meaning w.old).is_plain))) }
    ensures same { IsSameWriter (W.meaning w.old) (W.meaning w.new) }
{
    let place = w.write_initial_length(encoding.format)?;
    let start = w.len();
    write_fields(encoding, table, w)?;
    write_items(encoding, entries, items, codes, targets, w, fixups)?;
    let length = (w.len() - start) as u64;
    w.write_initial_length_at(place, length, encoding.format)
}

/// Writes location lists to the section of their version, where entries have these places, and
/// answers where they stand.
fn write_locations<W: Writer>(
    locations: &LocationListTable,
    encoding: Encoding,
    has_base_address: bool,
    places: &Places,
    sections: &mut Sections<W>,
) -> Result<LocationListOffsets>
    ensures ok { OnOk result
        (DraftLocations W.meaning sections.old sections.new
        (lists_part encoding (known_at places.now) locations.now)) }
    ensures offsets { let at = (locations_of W.meaning encoding sections.old).size in
        IfOk result (λ r. r
        ≡ offsets_from true encoding (known_at places.now) at (locations_in locations.now)) }
    ensures again { OnOk result
        (IsReadAgain true encoding (known_at places.now) (locations_in locations.now)) }
    ensures sound { let lists = locations_of W.meaning encoding sections.old in
        OnOk result (NoCause (lists_fail_in encoding (known_at places.now) locations.now
        has_base_address lists.is_plain)) }
    ensures err { let lists = locations_of W.meaning encoding sections.old in
        IfErr result (Because (SomeHasRisen W.meaning sections.old sections.new)
        (Is (lists_fail_in encoding (known_at places.now) locations.now has_base_address
        lists.is_plain))) }
    ensures others { KeepsAllButLocations sections.old sections.new }
    ensures faults { fault_sum W.meaning sections.old ≤ fault_sum W.meaning sections.new }
{
    locations.write(sections, encoding, has_base_address, Some(places))
}

/// Adds a unit of a tree to `.debug_info`, and the table of its abbreviations to `.debug_abbrev`.
/// Its operands lead there.
fn write_placed_tree<W: Writer>(
    encoding: Encoding,
    entries: &[DebuggingInformationEntry],
    tree: &PlacedTree,
    targets: &Targets<'_>,
    sections: &mut Sections<W>,
) -> Result<()>
    requires encodable { IsTrue (is_encodable encoding) }
    requires tree { IsPlacedTree encoding entries.now tree.now }
    requires rooted { (entry_at entries.now 0).tag ≢ 0 }
    requires placed { ArePlaced encoding entries.now targets.now.places.now }
    ensures ok { OnOk result
        (AddsPlacedTree W.meaning sections.old sections.new encoding entries.now
        (tables_at targets.now) targets.now.places.now) }
    ensures err { IfErr result
        (Because (SomeHasRisen W.meaning sections.old sections.new)
        (TreeFails encoding entries.now (tables_at targets.now)
        (W.meaning sections.old.debug_abbrev.0).size
        (W.meaning sections.old.debug_info.0).is_plain)) }
    ensures others { KeepsAllButUnit sections.old sections.new }
    ensures faults { fault_sum W.meaning sections.old ≤ fault_sum W.meaning sections.new }
{
    let place = sections.debug_abbrev.0.len();
    tree.codes.table.write(&mut sections.debug_abbrev)?;
    let items = tree.items.as_slice();
    let codes = tree.codes.codes.as_slice();
    write_compile_unit(
        encoding,
        place,
        entries,
        items,
        codes,
        targets,
        &mut sections.debug_info.0,
        &mut sections.debug_info_fixups,
    )
}

/// Adds a unit of a tree to `.debug_info`, and to other sections the table of its abbreviations and
/// its location lists, which stand before it.
fn write_located_tree<W: Writer>(
    encoding: Encoding,
    entries: &[DebuggingInformationEntry],
    tree: &PlacedTree,
    parts: PartPlaces,
    locations: &LocationListTable,
    has_base_address: bool,
    line_strings: &LineStringTable,
    strings: &StringTable,
    sections: &mut Sections<W>,
) -> Result<()>
    requires encodable { IsTrue (is_encodable encoding) }
    requires tree { IsPlacedTree encoding entries.now tree.now }
    requires rooted { (entry_at entries.now 0).tag ≢ 0 }
    ensures ok { let at = (locations_of W.meaning encoding sections.old).size in
        let tables = tree_tables encoding entries.now parts locations.now at line_strings.now
        strings.now in
        OnOk result
        (AddsTree W.meaning sections.old sections.new encoding entries.now tables locations.now
        has_base_address tree.now.places) }
    ensures err { let at = (locations_of W.meaning encoding sections.old).size in
        let tables = tree_tables encoding entries.now parts locations.now at line_strings.now
        strings.now in
        IfErr result
        (TreeRefused W.meaning sections.old sections.new encoding entries.now tables locations.now
        has_base_address) }
    ensures others { KeepsAllButTree sections.old sections.new }
    ensures faults { fault_sum W.meaning sections.old ≤ fault_sum W.meaning sections.new }
{
    let lists = write_locations(
        locations,
        encoding,
        has_base_address,
        &tree.places,
        sections,
    )?;
    let own = parts.with_locations(lists);
    let targets = Targets {
        places: &tree.places,
        own: &own,
        line_strings,
        strings,
    };
    write_placed_tree(encoding, entries, tree, &targets, sections)
}

/// Adds a unit with its entries to `.debug_info`, the table of its abbreviations to
/// `.debug_abbrev`, where the unit tells the table's place, and its location lists to the section
/// of their version.
pub fn write_tree<W: Writer>(
    alloc: Global,
    encoding: Encoding,
    entries: &[DebuggingInformationEntry],
    parts: PartPlaces,
    locations: &LocationListTable,
    has_base_address: bool,
    line_strings: &LineStringTable,
    strings: &StringTable,
    sections: &mut Sections<W>,
) -> Result<Places>
    requires encodable { IsTrue (is_encodable encoding) }
    requires linked { AreLinked entries.now }
    requires rooted { (entry_at entries.now 0).tag ≢ 0 }
    ensures ok { let at = (locations_of W.meaning encoding sections.old).size in
        let tables = tree_tables encoding entries.now parts locations.now at line_strings.now
        strings.now in
        IfOk result
        (AddsTree W.meaning sections.old sections.new encoding entries.now tables locations.now
        has_base_address) }
    ensures bounded { IfOk result (λ p. (i : ℕ) → (placement_of p).place i ≤ p.end) }
    ensures err { let at = (locations_of W.meaning encoding sections.old).size in
        let tables = tree_tables encoding entries.now parts locations.now at line_strings.now
        strings.now in
        IfErr result
        (TreeRefused W.meaning sections.old sections.new encoding entries.now tables locations.now
        has_base_address) }
    ensures others { KeepsAllButTree sections.old sections.new }
    ensures faults { fault_sum W.meaning sections.old ≤ fault_sum W.meaning sections.new }
{
    let tree = place_tree(alloc, encoding, entries)?;
    write_located_tree(
        encoding,
        entries,
        &tree,
        parts,
        locations,
        has_base_address,
        line_strings,
        strings,
        sections,
    )?;
    Ok(tree.places)
}
