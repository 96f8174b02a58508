//! The tests of `dw_dwarf` and `dw_unit` by calls. What scripts and listings show stands among the
//! cases of `dwarf_build`. The tests stand over the finished crates: beside their code they would
//! have it proved a second time.
//!
//! What is written goes into new sections, which `writing::write` alone makes and owns: each other
//! function has a loan of them, and answers plain data.
#![tactic(auto)]

#[cfg(test)]
mod alone;
#[cfg(test)]
mod building;
#[cfg(test)]
mod converting;
#[cfg(test)]
mod entry_tests;
#[cfg(test)]
mod failing;
#[cfg(test)]
mod filling;
#[cfg(test)]
mod filtered_files;
#[cfg(test)]
mod filtering;
#[cfg(test)]
mod finding;
#[cfg(test)]
mod freeing;
#[cfg(test)]
mod line_programs;
#[cfg(test)]
mod plans;
#[cfg(test)]
mod reading;
#[cfg(test)]
mod relocation_tests;
#[cfg(test)]
mod split_files;
#[cfg(test)]
mod splitting;
#[cfg(test)]
mod table_files;
#[cfg(test)]
mod tests;
#[cfg(test)]
mod text_tests;
#[cfg(test)]
mod units;
#[cfg(test)]
mod writing;
