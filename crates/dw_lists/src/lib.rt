//! Range lists and location lists (DWARF 5, 2.17.3 and 2.6.2): in version 5 a table of them is
//! written with an entry for each list, up to version 4 as the lists alone.
#![tactic(auto)]

mod address;
mod item;
mod item_list;
mod kinds;
mod list;
mod lists;
mod location;
mod location_table;
mod offset_table;
mod offsets;
mod part;
mod places;
mod range;
mod table;

pub use location::{Location, LocationList};
pub use location_table::LocationListTable;
pub use offsets::{LocationListOffsets, RangeListOffsets};
pub use range::{Range, RangeList};
pub use table::RangeListTable;
