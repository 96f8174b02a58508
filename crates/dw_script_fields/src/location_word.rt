//! The words of location lists.

ghost use Rattle.std.specs.Prelude.{◌≡◌};
ghost use Rattle.dw_script_fields.specs.LocationWords.{location_word_of};

use crate::range_word::RangeWord;
use crate::table::find_name;

/// The word of an item of a location list, which says what the item's other fields are.
#[derive(Clone, Copy)]
pub(crate) enum LocationWord {
    /// Addresses, as a range list has them.
    Range(RangeWord),
    Default,
}

const LOCATION_WORDS: [(&[u8], LocationWord); 5] = [
    (b"base", LocationWord::Range(RangeWord::Base)),
    (b"pair", LocationWord::Range(RangeWord::Pair)),
    (b"ends", LocationWord::Range(RangeWord::Ends)),
    (b"len", LocationWord::Range(RangeWord::Length)),
    (b"default", LocationWord::Default),
];

impl LocationWord {
    /// The word that a field spells.
    pub(crate) fn read(field: &[u8]) -> Option<LocationWord>
        ensures { result ≡ location_word_of field.now }
    {
        find_name(&LOCATION_WORDS, field)
    }
}
