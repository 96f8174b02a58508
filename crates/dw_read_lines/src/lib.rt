//! Reads line programs: their headers, the directories and files in these, and the instructions
//! of the line machine.
#![tactic(auto)]

mod described;
mod description;
mod encoding;
mod entry_tables;
mod file_entries;
mod file_entry;
mod file_entry_formats;
mod header;
mod instruction;
mod instructions;
mod parameters;
mod program;
mod reading;

pub use file_entries::FileEntryIter;
pub use file_entry::FileEntry;
pub use file_entry_formats::{FileEntryFormat, FileEntryFormatIter};
pub use header::LineProgramHeader;
pub use instruction::LineInstruction;
pub use instructions::LineInstructions;
pub use program::IncompleteLineProgram;
