//! Why linking call frames was refused.

ghost use Rattle.std.specs.Prelude.{◌≡◌};

use dw_base::Error;
use dw_link::LinkError;
use std::alloc::AllocFailed;
use thiserror::Error as ThisError;

/// Why tables of call frames can't be linked. Tables count from 0, and so do the sets that a
/// [`LinkError`] names: each is one table.
#[derive(Clone, Copy, Debug, PartialEq, Eq, ThisError)]
pub enum LinkFrameError {
    /// The table can't be written; it is the first of those.
    #[error("table {set}: {error}")]
    Write { set: usize, error: Error },
    /// What was written can't be joined.
    #[error("{0}")]
    Link(LinkError),
    /// No memory could be had.
    #[error("out of memory")]
    NoMemory,
}

impl LinkFrameError {
    ghost use Rattle.dw_link_frames.specs.ErrorName.{link_frame_error_name};

    /// The variant's name.
    pub fn name(&self) -> &'static str
        ensures { result.now ≡ link_frame_error_name self.now }
    {
        match self {
            LinkFrameError::Write { .. } => "Write",
            LinkFrameError::Link(_) => "Link",
            LinkFrameError::NoMemory => "NoMemory",
        }
    }
}

impl<T: Drop> From<AllocFailed<T>> for LinkFrameError {
    ghost use Rattle.dw_link_frames.specs.declared.error.LinkFrameError.TheVariants.{NoMemory};

    ghost from_gives = { λ _ e. e ≡ NoMemory };

    fn from(_error: AllocFailed<T>) -> LinkFrameError {
        LinkFrameError::NoMemory
    }
}
