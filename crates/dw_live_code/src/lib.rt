//! Removes from the DWARF of a file what describes dead code: of each unit its root stays, and the
//! entries that have a live address, with all to which these lead. So does the program `dw_prune`,
//! over any words, source and sink, of a listing behind live ranges.
#![tactic(auto)]

mod answer;
mod file_units;
mod input_reader;
mod live_line;
mod program;
mod pruned;
mod whole_input;

pub use dw_entry_ranges::LiveRange;
pub use dw_program::Status;
pub use input_reader::PruneInput;
pub use program::{end, run};
pub use pruned::prune;
pub use whole_input::read_input;
