//! DWARF expressions: lists of operations of a stack machine, by which debuggers find a variable's
//! place or compute a value (DWARF 5, 2.5).
#![tactic(auto)]

mod op;
mod places;

pub use op::{Expression, Operation};
pub use places::EntryPlaces;
