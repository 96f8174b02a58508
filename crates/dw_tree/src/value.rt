//! How values are written.

ghost use Rattle.std.specs.Prelude.{◌≡◌, ℕ, ◌++◌, ◌∷◌, [], Some, true, length, IsTrue, IsFalse, OnOk, IfErr};
ghost use Rattle.dw_base.specs.Leb128.{uleb};
ghost use Rattle.dw_base.specs.Numbers.{is_width, num, word_of};
ghost use Rattle.dw_base.specs.declared.error.Error.{Error as AnError};
ghost use Rattle.dw_writer.specs.Drafts.{Drafts};
ghost use Rattle.dw_writer.specs.Meaning.{IsSameWriter, Adds, Appends};
ghost use Rattle.dw_writer.specs.Causes.{BytesRefused};
ghost use Rattle.dw_writer.specs.SectionTexts.{offset_text, address_text};
ghost use Rattle.dw_entries.specs.Content.{Plain, IsContentRanged, content_fails, number_fails, text_fails, address_fails, offset_fails, table_fails, own_fails, reference_fails, info_fails};
ghost use Rattle.dw_entries.specs.ContentView.{content_in, number_or_past};
ghost use Rattle.dw_entries.specs.Values.{value_draft, value_fails, IsRanged};
ghost use Rattle.dw_expr.specs.Causes.{expression_fails};
ghost use Rattle.dw_tree.specs.UnitText.{content_draft, counted_draft, info_draft, table_text};
ghost use Rattle.dw_tree.specs.Causes.{Refused, Is};
ghost use Rattle.dw_tree.specs.Places.{FitsWords};
ghost use Rattle.dw_tree.specs.TargetsAt.{placement_at, tables_at, targets_at};

use crate::targets::{Targets, own_place};
use dw_base::{Address, DebugInfoRef, Encoding, Error, Format, Result, SectionId, UnitEntryId};
use dw_entries::{AttributeValue, Content, info_place_size};
use dw_expr::Expression;
use dw_writer::{DebugInfoFixup, FixupList, Writer};

/// Writes what stands for the value in an entry.
pub(crate) fn write_value<W: Writer>(
    encoding: Encoding,
    targets: &Targets<'_>,
    value: &AttributeValue,
    w: &mut W,
    fixups: &mut FixupList,
) -> Result<()>
    requires width { IsTrue (is_width encoding.address_size) }
    requires fit { FitsWords encoding.format (placement_at targets.now) }
    ensures ok { OnOk result
        (Drafts (W.meaning w.old) (W.meaning w.new) fixups.old fixups.new
        (value_draft encoding (targets_at targets.now) value.now)) }
    ensures sound { OnOk result
        ((e : AnError) → IsFalse (value_fails encoding (targets_at targets.now)
        (W.meaning w.old).is_plain value.now e)) }
    ensures ranged { OnOk result (IsRanged encoding value.now) }
    ensures err { IfErr result
        (Refused (W.meaning w.old) (W.meaning w.new)
        (Is (value_fails encoding (targets_at targets.now) (W.meaning w.old).is_plain
        value.now))) }
    ensures same { IsSameWriter (W.meaning w.old) (W.meaning w.new) }
{
    write_content(encoding, targets, value.content(encoding), w, fixups)
}

/// Writes what stands for a value, by how it is laid out.
fn write_content<W: Writer>(
    encoding: Encoding,
    targets: &Targets<'_>,
    content: Content<'_>,
    w: &mut W,
    fixups: &mut FixupList,
) -> Result<()>
    requires width { IsTrue (is_width encoding.address_size) }
    requires plain { (w n : ℕ) → content_in content ≡ Plain w n → IsTrue (is_width w) }
    requires fit { FitsWords encoding.format (placement_at targets.now) }
    ensures ok { OnOk result
        (Drafts (W.meaning w.old) (W.meaning w.new) fixups.old fixups.new
        (content_draft encoding (targets_at targets.now) (content_in content.entry))) }
    ensures sound { OnOk result
        ((e : AnError) → IsFalse (content_fails encoding (targets_at targets.now)
        (W.meaning w.old).is_plain (content_in content.entry) e)) }
    ensures ranged { OnOk result (IsContentRanged (content_in content.entry)) }
    ensures err { IfErr result
        (Refused (W.meaning w.old) (W.meaning w.new)
        (Is (content_fails encoding (targets_at targets.now) (W.meaning w.old).is_plain
        (content_in content.entry)))) }
    ensures same { IsSameWriter (W.meaning w.old) (W.meaning w.new) }
{
    match content {
        Content::Nothing => Ok(()),
        Content::Plain { value, size } => write_plain(value, size, w),
        Content::Wide(number) => w.write_u128(number),
        Content::Leb(number) => w.write_uleb128(number),
        Content::SignedLeb(number) => w.write_sleb128(number),
        Content::Block(bytes) => write_block(bytes, w),
        Content::Expression(expression) => {
            write_expression(encoding, targets, expression, w, fixups)
        }
        Content::Closed(text) => write_text(text, w),
        Content::Target(address) => write_target(address, encoding.address_size, w),
        Content::Offset { value, section } => write_place(encoding.format, value, section, w),
        Content::InTable { section, index } => {
            write_place_in_table(encoding.format, targets, section, index, w)
        }
        Content::TableIndex { section, index } => write_table_index(targets, section, index, w),
        Content::OwnPart(section) => write_own_place(encoding.format, targets, section, w),
        Content::File(number) => write_file(number, w),
        Content::EntryPlace(entry) => write_reference(encoding.format, targets, entry, w),
        Content::InfoPlace(entry) => {
            write_info_reference(entry, info_place_size(encoding), w, fixups)
        }
    }
}

/// Writes a number of so many bytes.
fn write_plain<W: Writer>(value: u64, size: u8, w: &mut W) -> Result<()>
    requires { IsTrue (is_width size) }
    ensures ok { OnOk result
        (Adds (W.meaning w.old) (W.meaning w.new) (num (W.meaning w.old).is_big size value)) }
    ensures sound { OnOk result ((e : AnError) → IsFalse (number_fails size value e)) }
    ensures err { IfErr result
        (Refused (W.meaning w.old) (W.meaning w.new) (Is (number_fails size value))) }
    ensures same { IsSameWriter (W.meaning w.old) (W.meaning w.new) }
{
    w.write_udata(value, size)
}

/// Writes bytes with their length before them.
fn write_block<W: Writer>(bytes: &[u8], w: &mut W) -> Result<()>
    ensures ok { OnOk result
        (Adds (W.meaning w.old) (W.meaning w.new) (uleb (length bytes.now) ++ bytes.now)) }
    ensures err { IfErr result (BytesRefused (W.meaning w.old) (W.meaning w.new)) }
    ensures same { IsSameWriter (W.meaning w.old) (W.meaning w.new) }
{
    w.write_uleb128(bytes.len() as u64)?;
    w.write(bytes)
}

/// Writes an expression with its length before it.
fn write_expression<W: Writer>(
    encoding: Encoding,
    targets: &Targets<'_>,
    expression: &Expression,
    w: &mut W,
    fixups: &mut FixupList,
) -> Result<()>
    ensures ok { OnOk result
        (Drafts (W.meaning w.old) (W.meaning w.new) fixups.old fixups.new
        (counted_draft encoding (targets_at targets.now).place expression.now)) }
    ensures sound { OnOk result
        ((e : AnError) → IsFalse (expression_fails encoding
        (Some (targets_at targets.now).place) true (W.meaning w.old).is_plain
        expression.now e)) }
    ensures err { IfErr result
        (Refused (W.meaning w.old) (W.meaning w.new)
        (Is (expression_fails encoding (Some (targets_at targets.now).place) true
        (W.meaning w.old).is_plain expression.now))) }
    ensures same { IsSameWriter (W.meaning w.old) (W.meaning w.new) }
{
    let size = expression.size(encoding, Some(targets.places))?;
    w.write_uleb128(size as u64)?;
    expression.write(w, Some(fixups), encoding, Some(targets.places))
}

/// Writes a text and the zero that closes it, or nothing where the text itself has a zero.
fn write_text<W: Writer>(text: &[u8], w: &mut W) -> Result<()>
    ensures ok { OnOk result (Adds (W.meaning w.old) (W.meaning w.new) (text.now ++ 0 ∷ [])) }
    ensures sound { OnOk result ((e : AnError) → IsFalse (text_fails text.now e)) }
    ensures err { IfErr result
        (Refused (W.meaning w.old) (W.meaning w.new) (Is (text_fails text.now))) }
    ensures same { IsSameWriter (W.meaning w.old) (W.meaning w.new) }
{
    if text.contains(&0) {
        return Err(Error::InvalidAttributeValue);
    }
    w.write(text)?;
    w.write_u8(0)
}

/// Writes an address of the target.
fn write_target<W: Writer>(address: Address, size: u8, w: &mut W) -> Result<()>
    requires { IsTrue (is_width size) }
    ensures ok { OnOk result
        (Appends (W.meaning w.old) (W.meaning w.new) size (address_text size address)) }
    ensures sound { OnOk result
        ((e : AnError) → IsFalse (address_fails size (W.meaning w.old).is_plain address e)) }
    ensures err { IfErr result
        (Refused (W.meaning w.old) (W.meaning w.new)
        (Is (address_fails size (W.meaning w.old).is_plain address))) }
    ensures same { IsSameWriter (W.meaning w.old) (W.meaning w.new) }
{
    w.write_address(address, size)
}

/// Writes an offset into a section.
fn write_place<W: Writer>(format: Format, value: usize, section: SectionId, w: &mut W) -> Result<()>
    ensures ok { OnOk result
        (Appends (W.meaning w.old) (W.meaning w.new) (word_of format)
        (offset_text (word_of format) section value)) }
    ensures sound { OnOk result
        ((e : AnError) →
        IsFalse (offset_fails (word_of format) (W.meaning w.old).is_plain value e)) }
    ensures err { IfErr result
        (Refused (W.meaning w.old) (W.meaning w.new)
        (Is (offset_fails (word_of format) (W.meaning w.old).is_plain value))) }
    ensures same { IsSameWriter (W.meaning w.old) (W.meaning w.new) }
{
    w.write_offset(value, section, format.word_size())
}

/// Writes the place of what a table has under an index.
fn write_place_in_table<W: Writer>(
    format: Format,
    targets: &Targets<'_>,
    section: SectionId,
    index: usize,
    w: &mut W,
) -> Result<()>
    ensures ok { OnOk result
        (Appends (W.meaning w.old) (W.meaning w.new) (word_of format)
        (table_text (word_of format) section ((tables_at targets.now).part section index))) }
    ensures sound { OnOk result
        ((e : AnError) →
        IsFalse (table_fails (word_of format) (W.meaning w.old).is_plain
        ((tables_at targets.now).part section index) e)) }
    ensures err { IfErr result
        (Refused (W.meaning w.old) (W.meaning w.new)
        (Is (table_fails (word_of format) (W.meaning w.old).is_plain
        ((tables_at targets.now).part section index)))) }
    ensures same { IsSameWriter (W.meaning w.old) (W.meaning w.new) }
{
    let Some(place) = targets.place_in_table(section, index) else {
        return Err(Error::InvalidReference);
    };
    w.write_offset(place, section, format.word_size())
}

/// Writes the index of what a table has under it, in LEB128.
fn write_table_index<W: Writer>(
    targets: &Targets<'_>,
    section: SectionId,
    index: usize,
    w: &mut W,
) -> Result<()>
    ensures ok { OnOk result (Adds (W.meaning w.old) (W.meaning w.new) (uleb index)) }
    ensures sound { OnOk result
        ((e : AnError) →
        IsFalse (reference_fails ((tables_at targets.now).part section index) e)) }
    ensures err { IfErr result
        (Refused (W.meaning w.old) (W.meaning w.new)
        (Is (reference_fails ((tables_at targets.now).part section index)))) }
    ensures same { IsSameWriter (W.meaning w.old) (W.meaning w.new) }
{
    if targets.place_in_table(section, index).is_none() {
        return Err(Error::InvalidReference);
    }
    w.write_uleb128(index as u64)
}

/// Writes the place where the unit's own part of a section begins.
fn write_own_place<W: Writer>(
    format: Format,
    targets: &Targets<'_>,
    section: SectionId,
    w: &mut W,
) -> Result<()>
    ensures ok { OnOk result
        (Appends (W.meaning w.old) (W.meaning w.new) (word_of format)
        (table_text (word_of format) section ((tables_at targets.now).own section))) }
    ensures sound { OnOk result
        ((e : AnError) →
        IsFalse (own_fails (word_of format) (W.meaning w.old).is_plain
        ((tables_at targets.now).own section) e)) }
    ensures err { IfErr result
        (Refused (W.meaning w.old) (W.meaning w.new)
        (Is (own_fails (word_of format) (W.meaning w.old).is_plain
        ((tables_at targets.now).own section)))) }
    ensures same { IsSameWriter (W.meaning w.old) (W.meaning w.new) }
{
    let Some(place) = own_place(section, targets.own) else {
        return Err(Error::InvalidAttributeValue);
    };
    w.write_offset(place, section, format.word_size())
}

/// Writes the number of a file, where 64 bits have room for it.
fn write_file<W: Writer>(number: Option<u64>, w: &mut W) -> Result<()>
    ensures ok { OnOk result
        (Adds (W.meaning w.old) (W.meaning w.new) (uleb (number_or_past number))) }
    ensures sound { OnOk result
        ((e : AnError) → IsFalse (number_fails 8 (number_or_past number) e)) }
    ensures err { IfErr result
        (Refused (W.meaning w.old) (W.meaning w.new)
        (Is (number_fails 8 (number_or_past number)))) }
    ensures same { IsSameWriter (W.meaning w.old) (W.meaning w.new) }
{
    let Some(number) = number else {
        return Err(Error::ValueTooLarge);
    };
    w.write_uleb128(number)
}

/// Writes the place of an entry, which has to stand in the tree.
fn write_reference<W: Writer>(
    format: Format,
    targets: &Targets<'_>,
    entry: UnitEntryId,
    w: &mut W,
) -> Result<()>
    requires { FitsWords format (placement_at targets.now) }
    ensures ok { OnOk result
        (Adds (W.meaning w.old) (W.meaning w.new)
        (num (W.meaning w.old).is_big (word_of format)
        ((placement_at targets.now).place entry.0))) }
    ensures sound { OnOk result
        ((e : AnError) → IsFalse (reference_fails ((targets_at targets.now).place entry.0) e)) }
    ensures err { IfErr result
        (Refused (W.meaning w.old) (W.meaning w.new)
        (Is (reference_fails ((targets_at targets.now).place entry.0)))) }
    ensures same { IsSameWriter (W.meaning w.old) (W.meaning w.new) }
{
    let Some(place) = targets.places.place(entry) else {
        return Err(Error::InvalidReference);
    };
    w.write_udata(place, format.word_size())
}

/// Leaves the place of an entry in `.debug_info` open: as zeros, and a fixup that tells the entry.
fn write_info_reference<W: Writer>(
    reference: DebugInfoRef,
    size: u8,
    w: &mut W,
    fixups: &mut FixupList,
) -> Result<()>
    requires { IsTrue (is_width size) }
    ensures ok { OnOk result
        (Drafts (W.meaning w.old) (W.meaning w.new) fixups.old fixups.new
        (info_draft size reference)) }
    ensures sound { OnOk result ((e : AnError) → IsFalse (info_fails reference e)) }
    ensures err { IfErr result
        (Refused (W.meaning w.old) (W.meaning w.new) (Is (info_fails reference))) }
    ensures same { IsSameWriter (W.meaning w.old) (W.meaning w.new) }
{
    let DebugInfoRef::Entry(unit, entry) = reference else {
        return Err(Error::InvalidReference);
    };
    let offset = w.len();
    w.write_udata(0, size)?;
    fixups.push(DebugInfoFixup {
        offset,
        size,
        unit,
        entry,
    })
}
