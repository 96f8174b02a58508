//! What is written is read as what it was: expressions, range lists, location lists and call
//! frames.
//!
//! `dw_expr` has a table by which operations are spelled and `dw_sources` one by which they are
//! read (DWARF 5, 2.5); `dw_lists` says what a section of lists tells that it has written and
//! `dw_sources` reads lists item by item (DWARF 4, 2.6.2 and 2.17.3; DWARF 5, 2.6.2, 2.17.3, 7.7.3
//! and 7.25); `dw_frame` says what the writer of call frames writes, and `dw_read_frames` what
//! their reader reads (DWARF 5, 6.4). Here each two definitions are proved to be one. Most
//! functions do nothing; their clauses are the laws.
#![tactic(auto)]

mod entries;
mod heads;
mod instructions;
mod laws;
mod operations;
mod pointers;
mod programs;
mod read_lists;
mod sections;

pub use entries::{cies_read_back, fdes_read_back};
pub use heads::owners_are_one;
pub use instructions::{advance_reads_back, instruction_reads_back};
pub use laws::{list_entries_are_one, location_lists_are_one, range_lists_are_one};
pub use operations::{is_read_back, operations_read_back};
pub use pointers::pointers_are_one;
pub use programs::{first_instructions_read_back, programs_read_back};
pub use read_lists::{all_locations, all_ranges};
pub use sections::sections_read_back;
