//! Reads expressions and lists of ranges and locations.
#![tactic(auto)]

mod convert_error;
mod dropped;
mod literals;
mod location_item;
mod locations;
mod named_entries;
mod operands;
mod operation;
mod operation_iter;
mod plain;
mod range_item;
mod raw_lists;
mod read_operation;
mod stack;
mod typed;

pub use convert_error::{ConvertError, ConvertResult};
pub use dropped::{is_dropped, is_left_out};
pub use location_item::RawLocListEntry;
pub use operation::Operation;
pub use operation_iter::OperationIter;
pub use range_item::RawRngListEntry;
pub use raw_lists::{RawLocListIter, RawRngListIter, raw_locations, raw_ranges};
