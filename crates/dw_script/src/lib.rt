//! The lines of a build script, from any bytes at all to commands. What a line means is said by
//! `parsed_line` in `specs/`, and what a line of the command `link` means by `parsed_link_line`.
#![tactic(auto)]

mod change;
mod command;
mod line;
mod line_change;
mod line_program;
mod link_command;
mod link_line;
mod link_word;
mod unit_list;
mod word;

pub use change::Change;
pub use command::Command;
pub use dw_ends::{HexBytes, Reason, TextLines, lines, number as parse_u64};
pub use dw_script_fields::{
    ExpressionFields, ExpressionStep, ExpressionSteps, LocationFields, LocationItems, RangeFields,
    RangeItems, ScriptLocation, ScriptOperation, ScriptRange, Value, parse_u8, parse_u16,
};
pub use line::parse_line;
pub use line_change::{LineChange, LineText};
pub use link_command::LinkCommand;
pub use link_line::parse_link_line;
