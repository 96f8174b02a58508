//! Trees of entries with their codes and places, found before the first byte is written.

ghost use Rattle.std.specs.Prelude.{◌≡◌, ◌≢◌, [], length, map, IfOk, IfErr};
ghost use Rattle.dw_entries.specs.Arena.{AreLinked};
ghost use Rattle.dw_entries.specs.Entries.{entry_at};
ghost use Rattle.dw_entries.specs.Tree.{AreIn, marks, preorder};
ghost use Rattle.dw_tree.specs.Causes.{PlacementRefused};
ghost use Rattle.dw_tree.specs.Coded.{shapes_of, code_at};
ghost use Rattle.dw_tree.specs.PlacedTree.{ArePlaced, IsPlacedTree};

use crate::codes::{Codes, assign_codes};
use crate::layout::lay_out;
use crate::places::Places;
use dw_base::{Encoding, Result};
use dw_entries::{DebuggingInformationEntry, Item, flatten};
use std::alloc::Global;

/// A tree of entries that is ready to be written.
#[derive(Drop)]
pub(crate) struct PlacedTree {
    /// Its entries in the order in which they are written, and where lists of children close.
    pub(crate) items: Vec<Item>,
    /// The abbreviations of the entries, and the code of each item.
    pub(crate) codes: Codes,
    /// Where the entries stand.
    pub(crate) places: Places,
}

/// Finds the place of each entry of a tree, where the format has a spelling for the length of its
/// unit.
fn place_entries(
    alloc: Global,
    encoding: Encoding,
    entries: &[DebuggingInformationEntry],
    items: &[Item],
    codes: &[u64],
) -> Result<Places>
    requires linked { AreLinked entries.now }
    requires within { AreIn (length entries.now) (marks items.now) }
    requires tree { marks items.now ≡ preorder entries.now }
    requires codes { codes.now ≡ map
        (code_at encoding entries.now (shapes_of encoding entries.now [] (marks items.now)))
        (marks items.now) }
    ensures placed { IfOk result (ArePlaced encoding entries.now) }
    ensures err { IfErr result (PlacementRefused encoding entries.now) }
{
    let places = lay_out(alloc, encoding, entries, items, codes)?;
    places.check_length(encoding.format)?;
    Ok(places)
}

/// Gives each entry its code and its place.
pub(crate) fn place_tree(
    alloc: Global,
    encoding: Encoding,
    entries: &[DebuggingInformationEntry],
) -> Result<PlacedTree>
    requires linked { AreLinked entries.now }
    requires rooted { (entry_at entries.now 0).tag ≢ 0 }
    ensures ok { IfOk result (IsPlacedTree encoding entries.now) }
    ensures err { IfErr result (PlacementRefused encoding entries.now) }
{
    let tree = flatten(alloc, entries)?;
    let items = tree.as_slice();
    let codes = assign_codes(alloc, encoding, entries, items)?;
    let places = place_entries(alloc, encoding, entries, items, codes.codes.as_slice())?;
    Ok(PlacedTree {
        items: tree,
        codes,
        places,
    })
}
