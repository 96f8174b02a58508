//! Sections of several files joined, with the number of each relocation put in.

pub use dw_link::{LinkError, link};
pub use dw_link_frames::{LinkFrameError, link_tables};
