//! The sections of a file and their units, read: the fields of a unit's root, and what operands
//! lead to in other sections.
#![tactic(auto)]

mod dwarf;
mod lookup;
mod root;
mod unit_reading;
mod unit_ref;

pub use dwarf::{Dwarf, Unit};
pub use unit_ref::UnitRef;
