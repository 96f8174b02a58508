//! Joining what several files wrote with relocations: each section is that section of all files,
//! one behind another, with the numbers put in that hang on where sections start and on what
//! symbols are.
#![tactic(auto)]

mod error;
mod fault;
mod join;
mod number;
mod relocated;
mod sum;

pub use error::LinkError;
pub use join::link;
