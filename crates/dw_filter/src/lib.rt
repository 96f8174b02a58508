//! Which entries of a file are kept: the graph of known entries, and the entries that attributes,
//! expressions and location lists name.
#![tactic(auto)]

mod attribute_places;
mod children;
mod dependencies;
mod expression_places;
mod file_graph;
mod links;
mod location_places;
mod operation_places;
mod reach;
mod unit;
mod unit_entry;
mod unit_section;

pub use attribute_places::{add_attribute_places, add_entry_places};
pub use children::leads_to_child;
pub use dependencies::FilterDependencies;
pub use expression_places::add_expression_places;
pub use file_graph::kept_entries;
pub use location_places::add_location_list_places;
pub use unit::FilterUnit;
pub use unit_entry::FilterUnitEntry;
pub use unit_section::FilterUnitSection;
