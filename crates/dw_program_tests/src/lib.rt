//! The tests of `dw_program`, `dw_arange_table`, `dw_script` and `dw_ends`: what no case of
//! `dwarf_cases` shows. They stand over the finished crates: beside their code they would have it
//! proved a second time.
#![tactic(auto)]

#[cfg(test)]
mod aranges;
#[cfg(test)]
mod circle;
#[cfg(test)]
mod ends;
#[cfg(test)]
mod names;
#[cfg(test)]
mod parts;
#[cfg(test)]
mod runs;
