//! Units that were read, as what is written.

mod attributes;
mod convert_unit;
mod entries;
mod entry;
mod filtered;
mod found;
mod found_units;
mod fresh;
mod program;
mod refs;
mod skeleton;
mod split_section;
mod split_unit;
mod split_units;
mod unit;
mod unit_entry;
mod unit_lines;
mod unit_section;
mod unit_values;
mod units;
mod whole_unit;
mod written_unit;

pub use convert_unit::ConvertUnit;
pub use entries::convert_entries;
pub(crate) use found::FoundUnits;
pub use split_section::ConvertSplitUnitSection;
pub use unit_entry::ConvertUnitEntry;
pub use unit_section::ConvertUnitSection;
pub use units::{convert_kept, convert_units};
