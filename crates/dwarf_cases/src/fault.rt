//! What a case lacks, or has too much.

use crate::words::{MADE_SECTION, count_of, count_of_all, printed_sections, read_sections};

/// The words that a case's line may begin with, besides sections.
const WORDS: [&str; 19] = [
    "",
    "#",
    "command",
    "units",
    "script",
    "repeat",
    "count",
    "live",
    "read",
    "cut",
    "status",
    "order",
    "text",
    "same",
    "once",
    "nothing",
    "stays",
    "gone",
    MADE_SECTION,
];

/// The fault of a case: words that no case has, a status that is told not once, an output that is
/// told in no way or in several, an input that is both a script and a listing, and a line of a
/// listing that no listing has.
pub fn fault_of(lines: &str, read: &str) -> Option<&'static str> {
    if known(lines) != lines.lines().count() {
        Some("unknown word")
    } else if count_of(lines, "status") != 1 {
        Some("no status")
    } else if outputs(lines) != 1 {
        Some("no output")
    } else if !read.is_empty() && count_of_all(lines, &["script", "repeat", "count"]) != 0 {
        Some("two inputs")
    } else if !is_listing(read) {
        Some("no listing")
    } else {
        None
    }
}

/// How many of the lines begin with a word that cases have.
fn known(lines: &str) -> usize {
    let sections = count_of_all(lines, printed_sections());
    sections.saturating_add(count_of_all(lines, &WORDS))
}

/// How many ways of telling the output a case takes.
fn outputs(lines: &str) -> usize {
    let sections = count_of_all(lines, printed_sections());
    let is_told = [
        sections,
        count_of(lines, MADE_SECTION),
        count_of(lines, "same"),
        count_of(lines, "text"),
        count_of(lines, "nothing"),
        count_of(lines, "stays"),
    ];
    is_told.iter().filter(|count| **count != 0).count()
}

/// Tells whether these lines, which say what a listing holds, name nothing else.
fn is_listing(read: &str) -> bool {
    let sections = count_of_all(read, read_sections());
    sections.saturating_add(count_of(read, "order")) == read.lines().count()
}
