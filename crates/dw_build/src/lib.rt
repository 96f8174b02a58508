//! Builds the DWARF that a script says, line by line. A script's lines are those of `dw_script`;
//! each is a call on the units that stand, which `dw_script_units` makes. Those of the command
//! `link` build several sets. It also generates DWARF of any size, for measurements: what that
//! holds is known from a number alone.
#![tactic(auto)]

mod make;
mod script;
mod sets;

pub use crate::make::{MOST_VARIABLES, generate};
pub use crate::script::{Refusal, SCRIPT_LIMIT, Script, ScriptError, read_script};
pub use crate::sets::{Sets, read_sets};
