//! The tree of a unit's entries, and how it is written: where each entry stands, the codes of their
//! abbreviations, the values, the unit's header, and the table that the unit names.
#![tactic(auto)]

mod body;
mod codes;
mod compile_unit;
mod header;
mod layout;
mod offsets;
mod placed_tree;
mod places;
mod shape;
mod targets;
mod value;

pub use compile_unit::write_tree;
pub use header::check_encoding;
pub use offsets::UnitOffsets;
pub use places::Places;
pub use targets::PartPlaces;
