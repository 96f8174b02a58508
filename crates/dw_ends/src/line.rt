//! A line of a listing, read whole.

ghost use Rattle.std.specs.Prelude.{◌≡◌, ◌<◌, IfOk, IfSome};
ghost use Rattle.dw_ends.specs.Fields.{with_rest};
ghost use Rattle.dw_ends.specs.Lines.{HasPlace, bytes_field, line_of, named_section, order_of, parsed_line, place_of};
ghost use Rattle.dw_ends.specs.Pieces.{pieces_left};

use crate::fields::{expect_end, line_fields, next_byte_order, next_field, next_u64};
use crate::hex_bytes::HexBytes;
use crate::pieces::Pieces;
use crate::reason::Reason;
use dw_base::{RunTimeEndian, SectionId};

// The word of the line that gives the byte order.
const ORDER: &[u8] = b"order";

/// How many sections a listing may have.
pub(crate) const SECTION_COUNT: usize = 13;

/// The sections that a listing may have: those that are written, and two that are only read.
const LISTED_SECTIONS: [SectionId; SECTION_COUNT] = [
    SectionId::DebugAbbrev,
    SectionId::DebugStr,
    SectionId::DebugLineStr,
    SectionId::DebugLine,
    SectionId::DebugRanges,
    SectionId::DebugRngLists,
    SectionId::DebugLoc,
    SectionId::DebugLocLists,
    SectionId::DebugInfo,
    SectionId::DebugFrame,
    SectionId::EhFrame,
    SectionId::DebugAddr,
    SectionId::DebugStrOffsets,
];

/// What a line of a listing says.
#[derive(Drop)]
pub(crate) enum Line<'a> {
    /// The byte order of the sections.
    Order(RunTimeEndian),
    /// A section, by its place, with the length that its line tells, and its bytes.
    Section {
        place: usize,
        length: u64,
        bytes: HexBytes<'a>,
    },
}

/// What a line says, or `None` where it is passed over.
#[tactic(auto, unfolding(crate::specs::Lines::parsed_line))]
pub(crate) fn parse_line(line: &[u8]) -> Result<Option<Line<'_>>, Reason>
    ensures said { result ≡ parsed_line line.now }
    ensures place { IfOk result (λ said. IfSome said HasPlace) }
{
    match line_fields(line)? {
        Some(mut fields) => Ok(Some(parse_fields(&mut fields)?)),
        None => Ok(None),
    }
}

fn parse_fields<'a>(fields: &mut Pieces<'a>) -> Result<Line<'a>, Reason>
    ensures said { result ≡ line_of (pieces_left fields.old) }
    ensures place { IfOk result HasPlace }
{
    let word = next_field(fields)?;
    if word == ORDER {
        return parse_order(fields);
    }
    parse_section(word, fields)
}

fn parse_order<'a>(fields: &mut Pieces<'a>) -> Result<Line<'a>, Reason>
    ensures said { result ≡ order_of (pieces_left fields.old) }
    ensures place { IfOk result HasPlace }
{
    let endian = next_byte_order(fields)?;
    expect_end(fields)?;
    Ok(Line::Order(endian))
}

fn parse_section<'a>(name: &[u8], fields: &mut Pieces<'a>) -> Result<Line<'a>, Reason>
    ensures said { result ≡ named_section name.now (pieces_left fields.old) }
    ensures place { IfOk result HasPlace }
{
    let place = find_place(name).ok_or(Reason::UnknownWord)?;
    let length = next_u64(fields)?;
    let bytes = next_bytes(fields, length)?;
    expect_end(fields)?;
    Ok(Line::Section {
        place,
        length,
        bytes,
    })
}

// The place of the section of this name.
fn find_place(name: &[u8]) -> Option<usize>
    ensures place { result ≡ place_of name.now }
    ensures listed { IfSome result (λ place. place < 13) }
{
    LISTED_SECTIONS
        .iter()
        .position(|id| id.name().as_bytes() == name)
}

// The bytes of a section of this length. Where it is 0, they may be missing.
fn next_bytes<'a>(fields: &mut Pieces<'a>, length: u64) -> Result<HexBytes<'a>, Reason>
    ensures { with_rest result (pieces_left fields.new) ≡
        bytes_field length (pieces_left fields.old) }
{
    match fields.next() {
        Some(field) => HexBytes::read(field).ok_or(Reason::BadHex),
        None if length == 0 => Ok(HexBytes::empty()),
        None => Err(Reason::WrongFields),
    }
}
