//! Line programs (DWARF 5, 6.2).
#![tactic(auto)]

mod accept;
mod file;
mod header;
mod line_program;
mod line_string;
mod name;
mod opcode;
mod program;
mod row;
mod sequence;

pub use line_program::LineProgram;
pub use line_string::{FileInfo, LineString};
pub use row::LineRow;
