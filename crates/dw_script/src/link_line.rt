//! A line of the command `link`, read whole.

ghost use Rattle.std.specs.Prelude.{◌≡◌};
ghost use Rattle.dw_ends.specs.Fields.{with_rest};
ghost use Rattle.dw_ends.specs.Pieces.{pieces_left};
ghost use Rattle.dw_script.specs.LinkLines.{link_command_of, link_word_field, next_line, parsed_link_line, symbol_line};

use crate::line::parse_after;
use crate::link_command::LinkCommand;
use crate::link_word::LinkWord;
use dw_ends::{Pieces, Reason, expect_end, line_fields, next_field, next_u64};

/// What a line of the command `link` asks for, or `None` where it is passed over: what a line of a
/// script does, or one of the two that a script doesn't have.
#[tactic(auto, unfolding(crate::specs::LinkLines::parsed_link_line))]
pub fn parse_link_line(line: &[u8]) -> Result<Option<LinkCommand<'_>>, Reason>
    ensures { result ≡ parsed_link_line line.now }
{
    match line_fields(line)? {
        Some(mut fields) => Ok(Some(parse_link_fields(&mut fields)?)),
        None => Ok(None),
    }
}

fn parse_link_fields<'a>(fields: &mut Pieces<'a>) -> Result<LinkCommand<'a>, Reason>
    ensures { result ≡ link_command_of (pieces_left fields.old) }
{
    match next_link_word(fields)? {
        LinkWord::Next => parse_next(fields),
        LinkWord::Symbol => parse_symbol(fields),
        LinkWord::Script(word) => Ok(LinkCommand::Script(parse_after(word, fields)?)),
    }
}

// The word of a line.
fn next_link_word(fields: &mut Pieces<'_>) -> Result<LinkWord, Reason>
    ensures { with_rest result (pieces_left fields.new) ≡
        link_word_field (pieces_left fields.old) }
{
    LinkWord::read(next_field(fields)?).ok_or(Reason::UnknownWord)
}

fn parse_next<'a>(fields: &mut Pieces<'a>) -> Result<LinkCommand<'a>, Reason>
    ensures { result ≡ next_line (pieces_left fields.old) }
{
    expect_end(fields)?;
    Ok(LinkCommand::Next)
}

fn parse_symbol<'a>(fields: &mut Pieces<'a>) -> Result<LinkCommand<'a>, Reason>
    ensures { result ≡ symbol_line (pieces_left fields.old) }
{
    let number = next_u64(fields)?;
    let value = next_u64(fields)?;
    expect_end(fields)?;
    Ok(LinkCommand::Symbol { number, value })
}
