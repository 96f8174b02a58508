//! What stands in a unit after its header.

ghost use Rattle.std.specs.Prelude.{◌≡◌, [], List, length, map, IsTrue, IsFalse, OnOk, IfErr};
ghost use Rattle.dw_base.specs.Numbers.{is_width, fits, word_of};
ghost use Rattle.dw_base.specs.declared.error.Error.{Error as AnError};
ghost use Rattle.dw_writer.specs.Drafts.{Drafts};
ghost use Rattle.dw_writer.specs.declared.fixup.DebugInfoFixup.{DebugInfoFixup};
ghost use Rattle.dw_writer.specs.Meaning.{IsSameWriter};
ghost use Rattle.dw_writer.specs.Causes.{NotAtAll};
ghost use Rattle.dw_entries.specs.Tree.{IsIn, AreIn, mark_of, marks};
ghost use Rattle.dw_tree.specs.Causes.{Refused, Is};
ghost use Rattle.dw_tree.specs.Coded.{shapes_of, code_at};
ghost use Rattle.dw_tree.specs.Pending.{AreRanged, IsMarkRanged, AreMarksRanged};
ghost use Rattle.dw_tree.specs.Places.{FitsWords};
ghost use Rattle.dw_tree.specs.TargetsAt.{placement_at, targets_at};
ghost use Rattle.dw_tree.specs.UnitFaults.{attributes_fail, mark_fails, marks_fail};
ghost use Rattle.dw_tree.specs.UnitText.{sibling_draft, attributes_draft, entry_draft, mark_draft, marks_draft};

use crate::targets::Targets;
use crate::value::write_value;
use dw_base::{Encoding, Result};
use dw_entries::{Attribute, DebuggingInformationEntry, Item};
use dw_writer::{FixupList, Writer};

/// Writes the values of attributes.
fn write_attributes<W: Writer>(
    encoding: Encoding,
    attributes: &[Attribute],
    targets: &Targets<'_>,
    w: &mut W,
    fixups: &mut FixupList,
) -> Result<()>
    requires width { IsTrue (is_width encoding.address_size) }
    requires fit { FitsWords encoding.format (placement_at targets.now) }
    ensures ok { OnOk result
        (Drafts (W.meaning w.old) (W.meaning w.new) fixups.old fixups.new
        (attributes_draft encoding (targets_at targets.now) attributes.now)) }
    ensures sound { OnOk result
        ((e : AnError) → IsFalse (attributes_fail encoding (targets_at targets.now)
        (W.meaning w.old).is_plain attributes.now e)) }
    ensures ranged { OnOk result (AreRanged encoding attributes.now) }
    ensures err { IfErr result
        (Refused (W.meaning w.old) (W.meaning w.new)
        (Is (attributes_fail encoding (targets_at targets.now) (W.meaning w.old).is_plain
        attributes.now))) }
    ensures same { IsSameWriter (W.meaning w.old) (W.meaning w.new) }
{
    for attribute in attributes {
        write_value(encoding, targets, attribute.get(), w, fixups)?;
    }
    Ok(())
}

/// Writes the place past an entry, where the entry names that.
fn write_sibling<W: Writer>(
    encoding: Encoding,
    entry: &DebuggingInformationEntry,
    past: u64,
    w: &mut W,
) -> Result<()>
    requires { IsTrue (fits (word_of encoding.format) past) }
    ensures ok { OnOk result
        ((fixups : List DebugInfoFixup) → Drafts (W.meaning w.old) (W.meaning w.new) fixups fixups
        (sibling_draft encoding past entry.now)) }
    ensures err { IfErr result (Refused (W.meaning w.old) (W.meaning w.new) NotAtAll) }
    ensures same { IsSameWriter (W.meaning w.old) (W.meaning w.new) }
{
    if entry.has_sibling() {
        w.write_udata(past, encoding.format.word_size())?;
    }
    Ok(())
}

/// Writes the entry at an index, with its code before it.
fn write_entry<W: Writer>(
    encoding: Encoding,
    entry: &DebuggingInformationEntry,
    index: usize,
    code: u64,
    targets: &Targets<'_>,
    w: &mut W,
    fixups: &mut FixupList,
) -> Result<()>
    requires width { IsTrue (is_width encoding.address_size) }
    requires fit { FitsWords encoding.format (placement_at targets.now) }
    ensures ok { OnOk result
        (Drafts (W.meaning w.old) (W.meaning w.new) fixups.old fixups.new
        (entry_draft encoding (targets_at targets.now) code index entry.now)) }
    ensures sound { OnOk result
        ((e : AnError) → IsFalse (attributes_fail encoding (targets_at targets.now)
        (W.meaning w.old).is_plain entry.now.attributes e)) }
    ensures ranged { OnOk result (AreRanged encoding entry.now.attributes) }
    ensures err { IfErr result
        (Refused (W.meaning w.old) (W.meaning w.new)
        (Is (attributes_fail encoding (targets_at targets.now) (W.meaning w.old).is_plain
        entry.now.attributes))) }
    ensures same { IsSameWriter (W.meaning w.old) (W.meaning w.new) }
{
    w.write_uleb128(code)?;
    write_sibling(encoding, entry, targets.places.past(index), w)?;
    write_attributes(encoding, entry.attributes(), targets, w, fixups)
}

/// Writes an entry, or the zero that closes a list of children.
fn write_item<W: Writer>(
    encoding: Encoding,
    entries: &[DebuggingInformationEntry],
    item: Item,
    code: u64,
    targets: &Targets<'_>,
    w: &mut W,
    fixups: &mut FixupList,
) -> Result<()>
    requires width { IsTrue (is_width encoding.address_size) }
    requires within { IsIn (length entries.now) (mark_of item) }
    requires fit { FitsWords encoding.format (placement_at targets.now) }
    ensures ok { OnOk result
        (Drafts (W.meaning w.old) (W.meaning w.new) fixups.old fixups.new
        (mark_draft encoding entries.now (targets_at targets.now) code (mark_of item))) }
    ensures sound { OnOk result
        ((e : AnError) → IsFalse (mark_fails encoding entries.now (targets_at targets.now)
        (W.meaning w.old).is_plain (mark_of item) e)) }
    ensures ranged { OnOk result (IsMarkRanged encoding entries.now (mark_of item)) }
    ensures err { IfErr result
        (Refused (W.meaning w.old) (W.meaning w.new)
        (Is (mark_fails encoding entries.now (targets_at targets.now)
        (W.meaning w.old).is_plain (mark_of item)))) }
    ensures same { IsSameWriter (W.meaning w.old) (W.meaning w.new) }
{
    match item {
        Item::Open(index) => {
            let entry = &entries[index];
            write_entry(encoding, entry, index, code, targets, w, fixups)
        }
        Item::Null => w.write_u8(0),
    }
}

/// Writes entries with their codes, each with its children behind it and a zero that closes them.
pub(crate) fn write_items<W: Writer>(
    encoding: Encoding,
    entries: &[DebuggingInformationEntry],
    items: &[Item],
    codes: &[u64],
    targets: &Targets<'_>,
    w: &mut W,
    fixups: &mut FixupList,
) -> Result<()>
    requires width { IsTrue (is_width encoding.address_size) }
    requires within { AreIn (length entries.now) (marks items.now) }
    requires fit { FitsWords encoding.format (placement_at targets.now) }
    requires codes { codes.now
        ≡ map (code_at encoding entries.now (shapes_of encoding entries.now [] (marks items.now)))
        (marks items.now) }
    ensures ok { OnOk result
        (Drafts (W.meaning w.old) (W.meaning w.new) fixups.old fixups.new
        (marks_draft encoding entries.now (targets_at targets.now)
        (shapes_of encoding entries.now [] (marks items.now)) (marks items.now))) }
    ensures sound { OnOk result
        ((e : AnError) → IsFalse (marks_fail encoding entries.now (targets_at targets.now)
        (W.meaning w.old).is_plain (marks items.now) e)) }
    ensures ranged { OnOk result (AreMarksRanged encoding entries.now (marks items.now)) }
    ensures err { IfErr result
        (Refused (W.meaning w.old) (W.meaning w.new)
        (Is (marks_fail encoding entries.now (targets_at targets.now)
        (W.meaning w.old).is_plain (marks items.now)))) }
    ensures same { IsSameWriter (W.meaning w.old) (W.meaning w.new) }
{
    for (k, item) in items.iter().enumerate() {
        write_item(encoding, entries, *item, codes[k], targets, w, fixups)?;
    }
    Ok(())
}
