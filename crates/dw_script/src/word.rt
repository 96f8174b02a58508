//! The words that begin a line.

ghost use Rattle.std.specs.Prelude.{◌≡◌};
ghost use Rattle.dw_ends.specs.Fields.{with_rest};
ghost use Rattle.dw_ends.specs.Pieces.{pieces_left};
ghost use Rattle.dw_script.specs.Words.{word_field, word_of};

use dw_ends::{Pieces, Reason, next_field};
use dw_script_fields::find_name;

/// The word of a line, which says what the line's other fields are.
#[derive(Clone, Copy)]
pub(crate) enum Word {
    Order,
    Unit,
    Add,
    Reserve,
    AddReserved,
    Sibling,
    Set,
    Delete,
    DeleteChild,
    Str,
    LineStr,
    Range,
    Loc,
    Line,
    Dir,
    File,
    Sequence,
    Row,
    End,
}

// A look-up goes through the table in order, so the words that come most often stand first.
const WORDS: [(&[u8], Word); 19] = [
    (b"set", Word::Set),
    (b"add", Word::Add),
    (b"row", Word::Row),
    (b"sibling", Word::Sibling),
    (b"loc", Word::Loc),
    (b"str", Word::Str),
    (b"order", Word::Order),
    (b"unit", Word::Unit),
    (b"reserve", Word::Reserve),
    (b"add_reserved", Word::AddReserved),
    (b"delete", Word::Delete),
    (b"delete_child", Word::DeleteChild),
    (b"line_str", Word::LineStr),
    (b"range", Word::Range),
    (b"line", Word::Line),
    (b"dir", Word::Dir),
    (b"file", Word::File),
    (b"sequence", Word::Sequence),
    (b"end", Word::End),
];

impl Word {
    /// The word that a field spells.
    pub(crate) fn read(field: &[u8]) -> Option<Word>
        ensures { result ≡ word_of field.now }
    {
        find_name(&WORDS, field)
    }
}

/// The word of a line.
pub(crate) fn next_word(fields: &mut Pieces<'_>) -> Result<Word, Reason>
    ensures { with_rest result (pieces_left fields.new) ≡
        word_field (pieces_left fields.old) }
{
    Word::read(next_field(fields)?).ok_or(Reason::UnknownWord)
}
