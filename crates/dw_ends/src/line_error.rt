//! Why a line of a listing wasn't taken.

ghost use Rattle.std.specs.Prelude.{◌≡◌};
ghost use Rattle.dw_ends.specs.declared.line_error.LineError.TheVariants.{NoMemory, Refused};

use crate::reason::Reason;
use std::alloc::AllocError;
use thiserror::Error as ThisError;

/// Why a line wasn't taken.
#[derive(Clone, Copy, Debug, PartialEq, Eq, ThisError)]
pub enum LineError {
    /// It is refused, for this reason.
    #[error("{0}")]
    Refused(Reason),
    /// Memory ran out.
    #[error("memory ran out")]
    NoMemory,
}

impl From<Reason> for LineError {
    ghost from_gives = { λ reason error. error ≡ Refused reason };

    fn from(reason: Reason) -> LineError {
        LineError::Refused(reason)
    }
}

impl From<AllocError> for LineError {
    ghost from_gives = { λ _ error. error ≡ NoMemory };

    fn from(_error: AllocError) -> LineError {
        LineError::NoMemory
    }
}
