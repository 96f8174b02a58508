//! The text of a listing: the order of bytes, and then a line for each section.

ghost use Rattle.std.specs.Prelude.{◌≡◌, ◌++◌, [], Ok, IfOk, OnOk, OnErr};
ghost use Rattle.std.specs.Io.{StartsWith};
ghost use Rattle.dw_ends.specs.Listing.{AddsLine, AreBytes, Lists, hex_word, order_line, read_of, section_line, told};
ghost use Rattle.dw_ends.specs.Sections.{sections_of};

use dw_base::{Endianity, RunTimeEndian, SectionId};
use dw_writer::{EndianVec, Sections, Writer};
use itoa::Buffer;
use std::alloc::{AllocError, Global};

/// The text that lists sections: a line with the byte order, which is that of `.debug_info`, and a
/// line for each of the eleven sections, in the order of `SectionId`, with its name, the number of
/// its bytes, and the bytes in hex where there are any. A `ListingReader` reads it back.
pub fn listing_text(
    alloc: Global,
    sections: &Sections<EndianVec<RunTimeEndian>>,
) -> Result<Vec<u8>, AllocError>
    ensures lists { IfOk result (λ text.
        Lists ⟦<EndianVec<RunTimeEndian> as Writer>⟧.meaning sections.now text.items) }
    ensures read_back { IfOk result (λ text. sections_of text.items ≡
        Ok (read_of ⟦<EndianVec<RunTimeEndian> as Writer>⟧.meaning sections.now)) }
{
    let mut text = Vec::new(alloc);
    push_listing(&mut text, sections)?;
    Ok(text)
}

// Appends the line with the byte order, and those of the sections.
fn push_listing(
    text: &mut Vec<u8>,
    sections: &Sections<EndianVec<RunTimeEndian>>,
) -> Result<(), AllocError>
    requires { text.old.items ≡ [] }
    ensures { OnOk result
        (Lists ⟦<EndianVec<RunTimeEndian> as Writer>⟧.meaning sections.now text.new.items) }
{
    push_order(text, sections.debug_info.0.endian().is_big_endian())?;
    push_one(text, SectionId::DebugAbbrev, &sections.debug_abbrev.0)?;
    push_one(text, SectionId::DebugStr, &sections.debug_str.0)?;
    push_one(text, SectionId::DebugLineStr, &sections.debug_line_str.0)?;
    push_one(text, SectionId::DebugLine, &sections.debug_line.0)?;
    push_one(text, SectionId::DebugRanges, &sections.debug_ranges.0)?;
    push_one(text, SectionId::DebugRngLists, &sections.debug_rnglists.0)?;
    push_one(text, SectionId::DebugLoc, &sections.debug_loc.0)?;
    push_one(text, SectionId::DebugLocLists, &sections.debug_loclists.0)?;
    push_one(text, SectionId::DebugInfo, &sections.debug_info.0)?;
    push_one(text, SectionId::DebugFrame, &sections.debug_frame.0)?;
    push_one(text, SectionId::EhFrame, &sections.eh_frame.0)?;
    Ok(())
}

// Appends the line of the section of this id: its name with the bytes of its writer.
fn push_one(
    text: &mut Vec<u8>,
    id: SectionId,
    writer: &EndianVec<RunTimeEndian>,
) -> Result<(), AllocError>
    ensures { OnOk result (AddsLine id
        (told ⟦<EndianVec<RunTimeEndian> as Writer>⟧.meaning writer.now)
        text.old.items text.new.items) }
{
    push_section(text, id.name(), writer.slice())
}

// Appends the line that says the order of bytes. Where memory runs out, `text` stays as it was.
fn push_order(text: &mut Vec<u8>, big: bool) -> Result<(), AllocError>
    ensures ok { OnOk result (text.new.items ≡ text.old.items ++ order_line big) }
    ensures err { OnErr result (text.new.items ≡ text.old.items) }
{
    let line = if big { "order big\n" } else { "order little\n" };
    text.extend_from_slice(line.as_bytes())
}

// Appends a space and the bytes in hex, where there are any.
fn push_hex(text: &mut Vec<u8>, bytes: &[u8]) -> Result<(), AllocError>
    ensures ok { OnOk result (text.new.items ≡ text.old.items ++ hex_word bytes.now) }
    ensures err { OnErr result (StartsWith text.new.items text.old.items) }
{
    if bytes.is_empty() {
        return Ok(());
    }
    text.push(b' ')?;
    let digits = bytes.len() * 2;
    text.reserve(digits)?;
    let start = text.len();
    text.resize(start + digits, b'0')?;
    match hex::encode_to_slice(bytes, &mut text[start..]) {
        Ok(()) => Ok(()),
        Err(_) => unreachable!(),
    }
}

/// Appends a section's line: its name, its length in decimal, and its bytes in hex where there are
/// any. Where memory runs out, a front of the line may stay in `text`.
pub fn push_section(text: &mut Vec<u8>, name: &str, bytes: &[u8]) -> Result<(), AllocError>
    ensures ok { OnOk result (text.new.items ≡ text.old.items ++ section_line name.now bytes.now) }
    ensures bytes { AreBytes bytes.now }
    ensures err { OnErr result (StartsWith text.new.items text.old.items) }
{
    text.extend_from_slice(name.as_bytes())?;
    text.push(b' ')?;
    text.extend_from_slice(Buffer::new().format(bytes.len()).as_bytes())?;
    push_hex(text, bytes)?;
    text.push(b'\n')?;
    Ok(())
}
