//! The lines of a case, each a word and what follows it.

use crate::text::Text;

/// The sections of a listing that is read: the eleven of one that is printed, in its order, and the
/// two that only indices lead into.
const SECTIONS: [&str; 13] = [
    ".debug_abbrev",
    ".debug_str",
    ".debug_line_str",
    ".debug_line",
    ".debug_ranges",
    ".debug_rnglists",
    ".debug_loc",
    ".debug_loclists",
    ".debug_info",
    ".debug_frame",
    ".eh_frame",
    ".debug_addr",
    ".debug_str_offsets",
];

/// The section that `dw_aranges` prints.
pub const MADE_SECTION: &str = ".debug_aranges";

/// The sections of a listing that is read.
pub fn read_sections() -> &'static [&'static str] {
    &SECTIONS
}

/// The sections of a listing that is printed.
pub fn printed_sections() -> &'static [&'static str] {
    &SECTIONS[..11]
}

/// The word that a line begins with, and what follows it.
pub fn parts(line: &str) -> (&str, &str) {
    match line.split_once(' ') {
        Some((word, rest)) if !word.is_empty() => (word, rest),
        _ => (line, ""),
    }
}

/// How many of the lines begin with this word.
pub fn count_of(lines: &str, word: &str) -> usize {
    let mut count = 0usize;
    for line in lines.lines() {
        if parts(line).0 == word {
            count = count.saturating_add(1);
        }
    }
    count
}

/// How many of the lines begin with one of these words.
pub fn count_of_all(lines: &str, words: &[&str]) -> usize {
    let mut count = 0usize;
    for word in words {
        count = count.saturating_add(count_of(lines, word));
    }
    count
}

/// Appends what follows this word in each line that begins with it, closed by `end`.
pub fn push_told(text: &mut Text, lines: &str, word: &str, end: &str) {
    for line in lines.lines() {
        let (first, rest) = parts(line);
        if first == word {
            text.push(rest);
            text.push(end);
        }
    }
}

/// What follows this word in the first line that begins with it, if one does.
pub fn first_told<'a>(lines: &'a str, word: &str) -> Option<&'a str> {
    for line in lines.lines() {
        let (first, rest) = parts(line);
        if first == word {
            return Some(rest);
        }
    }
    None
}
