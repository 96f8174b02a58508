//! The lines that change a unit's line program.

ghost use Rattle.std.specs.Prelude.{◌≡◌};
ghost use Rattle.dw_ends.specs.Pieces.{pieces_left};
ghost use Rattle.dw_ends.specs.Fields.{with_rest};
ghost use Rattle.dw_script.specs.LinePrograms.{directory_line, end_line, file_line, line_program_line, line_text_field, row_line, sequence_line, text_of_word};

use crate::command::Command;
use crate::line_change::{LineChange, LineText};
use dw_ends::{Pieces, Reason, expect_end, next_field, next_u64};
use dw_script_fields::{next_address_or_none, next_hex_bytes, next_usize};

// How a name is told: by its bytes, or by the index of a string.
const TEXT: &[u8] = b"text";

const STRING: &[u8] = b"str";

const LINE_STRING: &[u8] = b"line_str";

/// The fields after `line`.
pub(crate) fn parse_line_program<'a>(fields: &mut Pieces<'a>) -> Result<Command<'a>, Reason>
    ensures { result ≡ line_program_line (pieces_left fields.old) }
{
    let unit = next_u64(fields)?;
    let working_directory = next_line_text(fields)?;
    expect_end(fields)?;
    Ok(line_of(unit, LineChange::New(working_directory)))
}

/// The fields after `dir`.
pub(crate) fn parse_directory<'a>(fields: &mut Pieces<'a>) -> Result<Command<'a>, Reason>
    ensures { result ≡ directory_line (pieces_left fields.old) }
{
    let unit = next_u64(fields)?;
    let directory = next_line_text(fields)?;
    expect_end(fields)?;
    Ok(line_of(unit, LineChange::AddDirectory(directory)))
}

/// The fields after `file`.
pub(crate) fn parse_file<'a>(fields: &mut Pieces<'a>) -> Result<Command<'a>, Reason>
    ensures { result ≡ file_line (pieces_left fields.old) }
{
    let unit = next_u64(fields)?;
    let name = next_line_text(fields)?;
    let directory = next_usize(fields)?;
    expect_end(fields)?;
    Ok(line_of(unit, LineChange::AddFile { name, directory }))
}

/// The fields after `sequence`.
pub(crate) fn parse_sequence<'a>(fields: &mut Pieces<'a>) -> Result<Command<'a>, Reason>
    ensures { result ≡ sequence_line (pieces_left fields.old) }
{
    let unit = next_u64(fields)?;
    let address = next_address_or_none(fields)?;
    expect_end(fields)?;
    Ok(line_of(unit, LineChange::BeginSequence(address)))
}

/// The fields after `row`.
pub(crate) fn parse_row<'a>(fields: &mut Pieces<'a>) -> Result<Command<'a>, Reason>
    ensures { result ≡ row_line (pieces_left fields.old) }
{
    let unit = next_u64(fields)?;
    let offset = next_u64(fields)?;
    let file = next_usize(fields)?;
    let line = next_u64(fields)?;
    let column = next_u64(fields)?;
    expect_end(fields)?;
    let row = LineChange::AddRow {
        offset,
        file,
        line,
        column,
    };
    Ok(line_of(unit, row))
}

/// The fields after `end`.
pub(crate) fn parse_end<'a>(fields: &mut Pieces<'a>) -> Result<Command<'a>, Reason>
    ensures { result ≡ end_line (pieces_left fields.old) }
{
    let unit = next_u64(fields)?;
    let offset = next_u64(fields)?;
    expect_end(fields)?;
    Ok(line_of(unit, LineChange::EndSequence { offset }))
}

fn line_of(unit: u64, change: LineChange<'_>) -> Command<'_>
    ensures { result ≡ Command.Line unit change.entry }
{
    Command::Line { unit, change }
}

// A name: its own bytes, or a string of a section, by its index.
fn next_line_text<'a>(fields: &mut Pieces<'a>) -> Result<LineText<'a>, Reason>
    ensures { with_rest result (pieces_left fields.new) ≡
        line_text_field (pieces_left fields.old) }
{
    let word = next_field(fields)?;
    next_text_of_word(word, fields)
}

// The name behind the word that says how it is told.
fn next_text_of_word<'a>(word: &[u8], fields: &mut Pieces<'a>) -> Result<LineText<'a>, Reason>
    ensures { with_rest result (pieces_left fields.new) ≡
        text_of_word word.now (pieces_left fields.old) }
{
    if word == TEXT {
        Ok(LineText::String(next_hex_bytes(fields)?))
    } else if word == STRING {
        Ok(LineText::StringRef(next_usize(fields)?))
    } else if word == LINE_STRING {
        Ok(LineText::LineStringRef(next_usize(fields)?))
    } else {
        Err(Reason::UnknownWord)
    }
}
