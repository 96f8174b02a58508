//! A line of a script, read whole.

ghost use Rattle.std.specs.Prelude.{◌≡◌};
ghost use Rattle.dw_ends.specs.Pieces.{pieces_left};
ghost use Rattle.dw_script.specs.Lines.{add_line, add_reserved_line, command_of, delete_child_line, delete_line, line_of, line_string_line, order_line, parsed_line, reserve_line, set_line, sibling_line, string_line, unit_line};

use crate::change::Change;
use crate::command::Command;
use crate::line_program::{
    parse_directory, parse_end, parse_file, parse_line_program, parse_row, parse_sequence,
};
use crate::unit_list::{parse_location_list, parse_range_list};
use crate::word::{Word, next_word};
use dw_base::Encoding;
use dw_ends::{Pieces, Reason, expect_end, line_fields, next_byte_order, next_u64};
use dw_script_fields::{
    next_attribute, next_flag, next_format, next_hex_bytes, next_tag, next_u8, next_u16, next_value,
};

/// What a line asks for, or `None` where it is passed over.
#[tactic(auto, unfolding(crate::specs::Lines::parsed_line))]
pub fn parse_line(line: &[u8]) -> Result<Option<Command<'_>>, Reason>
    ensures { result ≡ parsed_line line.now }
{
    match line_fields(line)? {
        Some(mut fields) => Ok(Some(parse_fields(&mut fields)?)),
        None => Ok(None),
    }
}

fn parse_fields<'a>(fields: &mut Pieces<'a>) -> Result<Command<'a>, Reason>
    ensures { result ≡ command_of (pieces_left fields.old) }
{
    parse_after(next_word(fields)?, fields)
}

/// What the fields after a script's word ask for.
pub(crate) fn parse_after<'a>(word: Word, fields: &mut Pieces<'a>) -> Result<Command<'a>, Reason>
    ensures { result ≡ line_of word (pieces_left fields.old) }
{
    match word {
        Word::Order => parse_order(fields),
        Word::Unit => parse_unit(fields),
        Word::Add => parse_add(fields),
        Word::Reserve => parse_reserve(fields),
        Word::AddReserved => parse_add_reserved(fields),
        Word::Sibling => parse_sibling(fields),
        Word::Set => parse_set(fields),
        Word::Delete => parse_delete(fields),
        Word::DeleteChild => parse_delete_child(fields),
        Word::Str => parse_string(fields),
        Word::LineStr => parse_line_string(fields),
        Word::Line => parse_line_program(fields),
        Word::Dir => parse_directory(fields),
        Word::File => parse_file(fields),
        Word::Sequence => parse_sequence(fields),
        Word::Row => parse_row(fields),
        Word::End => parse_end(fields),
        Word::Range => parse_range_list(fields),
        Word::Loc => parse_location_list(fields),
    }
}

fn change_of(unit: u64, change: Change<'_>) -> Command<'_>
    ensures { result ≡ Command.Change unit change.entry }
{
    Command::Change { unit, change }
}

fn parse_order<'a>(fields: &mut Pieces<'a>) -> Result<Command<'a>, Reason>
    ensures { result ≡ order_line (pieces_left fields.old) }
{
    let order = next_byte_order(fields)?;
    expect_end(fields)?;
    Ok(Command::Order(order))
}

fn parse_unit<'a>(fields: &mut Pieces<'a>) -> Result<Command<'a>, Reason>
    ensures { result ≡ unit_line (pieces_left fields.old) }
{
    let version = next_u16(fields)?;
    let address_size = next_u8(fields)?;
    let format = next_format(fields)?;
    expect_end(fields)?;
    Ok(Command::Unit(Encoding {
        address_size,
        format,
        version,
    }))
}

fn parse_string<'a>(fields: &mut Pieces<'a>) -> Result<Command<'a>, Reason>
    ensures { result ≡ string_line (pieces_left fields.old) }
{
    let bytes = next_hex_bytes(fields)?;
    expect_end(fields)?;
    Ok(Command::String(bytes))
}

fn parse_line_string<'a>(fields: &mut Pieces<'a>) -> Result<Command<'a>, Reason>
    ensures { result ≡ line_string_line (pieces_left fields.old) }
{
    let bytes = next_hex_bytes(fields)?;
    expect_end(fields)?;
    Ok(Command::LineString(bytes))
}

fn parse_add<'a>(fields: &mut Pieces<'a>) -> Result<Command<'a>, Reason>
    ensures { result ≡ add_line (pieces_left fields.old) }
{
    let unit = next_u64(fields)?;
    let parent = next_u64(fields)?;
    let tag = next_tag(fields)?;
    expect_end(fields)?;
    Ok(change_of(unit, Change::Add { parent, tag }))
}

fn parse_reserve<'a>(fields: &mut Pieces<'a>) -> Result<Command<'a>, Reason>
    ensures { result ≡ reserve_line (pieces_left fields.old) }
{
    let unit = next_u64(fields)?;
    expect_end(fields)?;
    Ok(change_of(unit, Change::Reserve))
}

fn parse_add_reserved<'a>(fields: &mut Pieces<'a>) -> Result<Command<'a>, Reason>
    ensures { result ≡ add_reserved_line (pieces_left fields.old) }
{
    let unit = next_u64(fields)?;
    let entry = next_u64(fields)?;
    let parent = next_u64(fields)?;
    let tag = next_tag(fields)?;
    expect_end(fields)?;
    Ok(change_of(unit, Change::AddReserved { entry, parent, tag }))
}

fn parse_sibling<'a>(fields: &mut Pieces<'a>) -> Result<Command<'a>, Reason>
    ensures { result ≡ sibling_line (pieces_left fields.old) }
{
    let unit = next_u64(fields)?;
    let entry = next_u64(fields)?;
    let sibling = next_flag(fields)?;
    expect_end(fields)?;
    Ok(change_of(unit, Change::Sibling { entry, sibling }))
}

fn parse_set<'a>(fields: &mut Pieces<'a>) -> Result<Command<'a>, Reason>
    ensures { result ≡ set_line (pieces_left fields.old) }
{
    let unit = next_u64(fields)?;
    let entry = next_u64(fields)?;
    let name = next_attribute(fields)?;
    let value = next_value(fields)?;
    expect_end(fields)?;
    Ok(change_of(unit, Change::Set { entry, name, value }))
}

fn parse_delete<'a>(fields: &mut Pieces<'a>) -> Result<Command<'a>, Reason>
    ensures { result ≡ delete_line (pieces_left fields.old) }
{
    let unit = next_u64(fields)?;
    let entry = next_u64(fields)?;
    let name = next_attribute(fields)?;
    expect_end(fields)?;
    Ok(change_of(unit, Change::Delete { entry, name }))
}

fn parse_delete_child<'a>(fields: &mut Pieces<'a>) -> Result<Command<'a>, Reason>
    ensures { result ≡ delete_child_line (pieces_left fields.old) }
{
    let unit = next_u64(fields)?;
    let parent = next_u64(fields)?;
    let entry = next_u64(fields)?;
    expect_end(fields)?;
    Ok(change_of(unit, Change::DeleteChild { parent, entry }))
}
