//! The strings of sections of their own, `.debug_str` and `.debug_line_str` (DWARF 5, 7.26).
#![tactic(auto)]

mod line_string_table;
mod string_list;
mod string_table;

pub use line_string_table::LineStringTable;
pub use string_table::StringTable;
