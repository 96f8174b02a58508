//! The tests of what is written part by part: sections, abbreviations, strings, expressions, lists,
//! line programs and entries, by `dw_writer`, `dw_abbrev`, `dw_strings`, `dw_expr`, `dw_lists`,
//! `dw_line`, `dw_entries` and `dw_read_back`. They stand over the finished crates: beside their
//! code they would have it proved a second time.
#![tactic(auto)]

#[cfg(test)]
mod abbreviation_tests;
#[cfg(test)]
mod code_tests;
#[cfg(test)]
mod entry_tests;
#[cfg(test)]
mod expressions;
#[cfg(test)]
mod line_tests;
#[cfg(test)]
mod list_calls;
#[cfg(test)]
mod list_tables;
#[cfg(test)]
mod lists;
#[cfg(test)]
mod owned;
#[cfg(test)]
mod programs;
#[cfg(test)]
mod read_back;
#[cfg(test)]
mod relocation_tests;
#[cfg(test)]
mod section_tests;
#[cfg(test)]
mod string_tests;
#[cfg(test)]
mod trees;
#[cfg(test)]
mod trials;
#[cfg(test)]
mod vector_tests;
#[cfg(test)]
mod writer_calls;
#[cfg(test)]
mod writer_tables;
#[cfg(test)]
mod writing;
