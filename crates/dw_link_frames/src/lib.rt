//! Linking call frames: tables of several files are written with relocations, each for itself, and
//! joined to one section.
#![tactic(auto)]

mod error;
mod tables;

pub use error::LinkFrameError;
pub use tables::link_tables;
