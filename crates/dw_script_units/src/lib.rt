//! What the lines of a script do to a unit that stands: to its entries and their attributes, to its
//! line program, and to its lists. Lines are those of `dw_script`; what they do is refused with the
//! reason that a script is.
#![tactic(auto)]

mod command_error;
mod entries;
mod expressions;
mod line_programs;
mod location_lists;
mod range_lists;
mod text;

pub use crate::command_error::{CommandError, index_below};
pub use crate::entries::apply_change;
pub use crate::line_programs::apply_line_change;
pub use crate::location_lists::add_location_list;
pub use crate::range_lists::add_range_list;
pub use crate::text::text_of;
