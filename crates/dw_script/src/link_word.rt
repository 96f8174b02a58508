//! The words that begin a line of the command `link`.

ghost use Rattle.std.specs.Prelude.{◌≡◌};
ghost use Rattle.dw_script.specs.LinkWords.{link_word_of};

use crate::word::Word;

/// The word of a line, which says what the line's other fields are.
#[derive(Clone, Copy)]
pub(crate) enum LinkWord {
    Next,
    Symbol,
    Script(Word),
}

impl LinkWord {
    /// The word that a field spells.
    pub(crate) fn read(field: &[u8]) -> Option<LinkWord>
        ensures { result ≡ link_word_of field.now }
    {
        match field {
            b"next" => Some(LinkWord::Next),
            b"symbol" => Some(LinkWord::Symbol),
            _ => Some(LinkWord::Script(Word::read(field)?)),
        }
    }
}
