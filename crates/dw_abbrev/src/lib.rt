//! Abbreviation tables of units (DWARF 5, 7.5.3): equal declarations share a code, and a table is
//! written as the codes that its abbreviations were given.
#![tactic(auto)]

mod abbreviation;
mod specification;
mod table;

pub use abbreviation::Abbreviation;
pub use specification::AttributeSpecification;
pub use table::AbbreviationTable;
