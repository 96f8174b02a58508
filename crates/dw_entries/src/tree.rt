//! The tree of a unit's entries as a flat list.

ghost use Rattle.std.specs.Prelude.{◌≡◌, ◌+◌, ◌-◌, ◌<◌, ◌++◌, None, length, slice_get, IfOk, IfSome, OnOk};
ghost use Rattle.dw_entries.specs.Entries.{entry_at};
ghost use Rattle.dw_entries.specs.Arena.{AreLinked};
ghost use Rattle.dw_entries.specs.Tree.{tree_from, preorder, marks, AreIn};
ghost use Rattle.dw_entries.specs.Walk.{IsPath, top, pending};

use crate::entry::DebuggingInformationEntry;
use std::alloc::{AllocError, Global};

/// A step of a walk through the tree in preorder.
#[derive(Clone, Copy, PartialEq, Eq)]
pub enum Item {
    /// The entry at an index.
    Open(usize),
    /// The end of a list of children.
    Null,
}

/// An entry that has children, and how many of them were visited.
#[derive(Clone, Copy)]
pub(crate) struct Frame {
    index: usize,
    next: usize,
}

/// The child that a frame visits next.
fn next_child(entries: &[DebuggingInformationEntry], frame: Frame) -> Option<usize>
    requires { frame.index < length entries.now }
    ensures child { result ≡ slice_get (entry_at entries.now frame.index).children frame.next }
    ensures counts { IfSome result (λ c. frame.next < usize.MAX) }
{
    let children = entries[frame.index].child_ids();
    if frame.next < children.len() {
        Some(children[frame.next].index())
    } else {
        None
    }
}

/// Goes down to an entry, from its parent.
fn enter(
    entries: &[DebuggingInformationEntry],
    items: &mut Vec<Item>,
    frames: &mut Vec<Frame>,
    index: usize,
) -> Result<(), AllocError>
    requires path { IsPath entries.now None frames.old.items }
    requires parent { (entry_at entries.now index).parent ≡ top entries.now None frames.old.items }
    requires within { index < length entries.now }
    ensures path { OnOk result (IsPath entries.now None frames.new.items) }
    ensures given { OnOk result
        (marks items.new.items ++ pending entries.now (length entries.now) frames.new.items
        ≡ marks items.old.items
        ++ (tree_from (length entries.now - length frames.old.items) entries.now index
        ++ pending entries.now (length entries.now) frames.old.items)) }
    ensures grows { OnOk result (length items.new.items ≡ length items.old.items + 1) }
{
    items.push(Item::Open(index))?;
    if !entries[index].child_ids().is_empty() {
        frames.push(Frame { index, next: 0 })?;
    }
    Ok(())
}

/// The tree in preorder, with a closing item behind each list of children that isn't empty. What
/// the root doesn't reach is left out.
pub fn flatten(
    alloc: Global,
    entries: &[DebuggingInformationEntry],
) -> Result<Vec<Item>, AllocError>
    requires { AreLinked entries.now }
    ensures items { IfOk result (λ v. marks v.items ≡ preorder entries.now) }
    ensures inside { IfOk result (λ v. AreIn (length entries.now) (marks v.items)) }
{
    let mut items = Vec::new(alloc);
    let mut frames = Vec::new(alloc);
    if entries.is_empty() {
        return Ok(items);
    }
    enter(entries, &mut items, &mut frames, 0)?;
    'walk: while let Some(frame) = frames.pop() {
        match next_child(entries, frame) {
            Some(child) => {
                frames.push(Frame {
                    index: frame.index,
                    next: frame.next + 1,
                })?;
                enter(entries, &mut items, &mut frames, child)?;
            }
            None => items.push(Item::Null)?,
        }
    }
    Ok(items)
}
