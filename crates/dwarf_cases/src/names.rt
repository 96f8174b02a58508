//! Names that a listing has.

use crate::text::Text;
use crate::words::push_told;
use std::alloc::Global;

/// Tells whether a run's text begins with the status that a case tells, and its listing has each of
/// the names that the case says to stay, and none of those that are gone.
pub fn is_named(alloc: Global, lines: &str, shown: &str) -> bool {
    has_status(alloc, lines, shown)
        && count_named(alloc, lines, "stays", shown) == count_told(alloc, lines, "stays")
        && count_named(alloc, lines, "gone", shown) == 0
}

/// Tells whether a run's text begins with the status that a case tells.
fn has_status(alloc: Global, lines: &str, shown: &str) -> bool {
    let mut status = Text::new(alloc);
    status.push("status ");
    push_told(&mut status, lines, "status", "\n");
    !status.is_cut() && shown.starts_with(status.as_str())
}

/// How many names a case tells behind a word.
fn count_told(alloc: Global, lines: &str, word: &str) -> usize {
    let mut names = Text::new(alloc);
    push_told(&mut names, lines, word, " ");
    names.as_str().split_whitespace().count()
}

/// How many of the names behind a word a listing has.
fn count_named(alloc: Global, lines: &str, word: &str, shown: &str) -> usize {
    let mut names = Text::new(alloc);
    push_told(&mut names, lines, word, " ");
    let mut count = 0usize;
    for name in names.as_str().split_whitespace() {
        if has_name(alloc, name, shown) {
            count = count.saturating_add(1);
        }
    }
    count
}

/// Tells whether a section of a listing has a name as a whole string: at its begin or behind
/// another one's end, with a zero byte behind it.
fn has_name(alloc: Global, name: &str, shown: &str) -> bool {
    let digits = digits_of(alloc, name);
    has_behind(alloc, "00", &digits, shown) || has_behind(alloc, " ", &digits, shown)
}

/// The digits of a name's bytes, with the zero byte.
fn digits_of(alloc: Global, name: &str) -> Text {
    let mut digits = Text::new(alloc);
    for byte in name.bytes() {
        digits.push_made(format!(in alloc; "{byte:02x}"));
    }
    digits.push("00");
    digits
}

/// Tells whether digits stand somewhere behind a piece.
fn has_behind(alloc: Global, piece: &str, digits: &Text, shown: &str) -> bool {
    let mut both = Text::new(alloc);
    both.push(piece);
    both.push_text(digits);
    !both.is_cut() && shown.contains(both.as_str())
}
