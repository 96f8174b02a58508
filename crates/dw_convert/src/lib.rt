//! Converts what was read into what is written: expressions, range lists and location lists, and
//! the values of attributes.
#![tactic(auto)]

mod address;
mod attribute;
mod attributes;
mod constant;
mod expressions;
mod exprloc;
mod file;
mod image;
mod listing;
mod location;
mod locations;
mod once;
mod range;
mod ranges;
mod references;
mod source;
mod value;

pub use attribute::convert_attribute_value;
pub use attributes::convert_attributes;
pub use expressions::expression;
pub use file::convert_file_index;
pub use locations::location_list;
pub use ranges::range_list;
pub use references::{ConvertDebugInfoRef, NoConvertDebugInfoRef};
