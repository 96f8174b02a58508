//! The words of range lists.

ghost use Rattle.std.specs.Prelude.{◌≡◌};
ghost use Rattle.dw_script_fields.specs.RangeWords.{range_word_of};

use crate::table::find_name;

/// The word of an item of a range list, which says what the item's other fields are.
#[derive(Clone, Copy)]
pub(crate) enum RangeWord {
    Base,
    Pair,
    Ends,
    Length,
}

const RANGE_WORDS: [(&[u8], RangeWord); 4] = [
    (b"base", RangeWord::Base),
    (b"pair", RangeWord::Pair),
    (b"ends", RangeWord::Ends),
    (b"len", RangeWord::Length),
];

impl RangeWord {
    /// The word that a field spells.
    pub(crate) fn read(field: &[u8]) -> Option<RangeWord>
        ensures { result ≡ range_word_of field.now }
    {
        find_name(&RANGE_WORDS, field)
    }
}
