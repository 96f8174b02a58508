//! The entries of units, built by calls, and how they are written.
#![tactic(auto)]

mod entry_mut;
mod references;
mod unit;
mod unit_iter;
mod unit_table;

pub use dw_entries::{
    AttrMut, Attribute, AttributeValue, AttributeWalk, AttrsMut, Bytes, DebuggingInformationEntry,
};
pub use dw_expr::{Expression, Operation};
pub use dw_line::{FileInfo, LineProgram, LineRow, LineString};
pub use dw_lists::{Range, RangeList, RangeListTable};
pub use dw_tree::UnitOffsets;
pub use entry_mut::EntryMut;
pub use unit::Unit;
pub use unit_iter::UnitIter;
pub use unit_table::UnitTable;
