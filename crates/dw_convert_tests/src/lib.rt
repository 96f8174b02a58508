//! The tests of `dw_convert` and of `dw_convert_lines`: values, operations and lists that are
//! built, written, read and converted back, and what calls alone show of line programs. They stand
//! over the finished crates: beside their code they would have it proved a second time.
#![tactic(auto)]

#[cfg(test)]
mod calls;
#[cfg(test)]
mod damage;
#[cfg(test)]
mod damage_tests;
#[cfg(test)]
mod entries;
#[cfg(test)]
mod items;
#[cfg(test)]
mod layouts;
#[cfg(test)]
mod operation_tests;
#[cfg(test)]
mod owned;
#[cfg(test)]
mod program_tests;
#[cfg(test)]
mod programs;
#[cfg(test)]
mod reading;
#[cfg(test)]
mod refusal_tests;
#[cfg(test)]
mod seen;
#[cfg(test)]
mod tables;
#[cfg(test)]
mod value_tests;
#[cfg(test)]
mod values;
#[cfg(test)]
mod writing;
