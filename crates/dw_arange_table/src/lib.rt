//! `.debug_aranges`: which units have code or data at an address (DWARF 5, 6.1.2). The section is a
//! table, which is built by hand or from the units of a file, written, read and searched. The
//! program `dw_aranges` is here too, over any words, source and sink.
#![tactic(auto)]

mod answer;
mod command;
mod program;
mod range;
mod read;
mod set;
mod status;
mod table;
mod units;
mod write;

pub use program::{end, run};
pub use range::RangeDescriptor;
pub use set::ArangeSet;
pub use status::Status;
pub use table::ArangeTable;
