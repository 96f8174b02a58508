//! Converts line programs that were read into line programs that are written: their directories and
//! files, and the sequences that their instructions show.
#![tactic(auto)]

mod entries;
mod entry;
mod format_list;
mod header;
mod machine;
mod name;
mod number;
mod owned;
mod program;
mod registers;
mod row;
mod rows;
mod sequence;
mod step;
mod text;

pub use program::{ConvertLineProgram, convert_line_program, read_line_program};
